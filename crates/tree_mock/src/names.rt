ghost use Rattle.std.specs.Prelude.{◌≡◌, IfOk};

use base_texts::{Name, NoMemory};
use std::alloc::Global;

/// The name with this text. `NoMemory` where an allocation fails.
pub fn name_of(alloc: Global, text: &str) -> Result<Name, NoMemory>
    ensures { IfOk result (λ name. name ≡ text.now) }
{
    Name::copied(alloc, text.as_bytes())
}
