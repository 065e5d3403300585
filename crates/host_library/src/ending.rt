ghost use types.Logic.{sem};
ghost use Rattle.host_library.specs.Owned.{hosted_owns};

use crate::hosted::Hosted;
use std::alloc::Global;

/// Frees a session.
fn free(hosted: Box<Hosted>) {
    drop(hosted);
}

/// Frees the session at this pointer.
#[unsafe(no_mangle)]
pub unsafe extern "C" fn bt_close(alloc: Global, session: *mut u8)
    ghost last: { Hosted }
    requires* { sem 𝓛 (hosted_owns session last) }
{
    free(Box::from_raw(alloc, session as *mut Hosted));
}
