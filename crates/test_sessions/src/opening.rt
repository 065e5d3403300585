//! A session for a test.

use base_texts::Stop;
use host_session::Session;
use std::alloc::Global;
use std::process::Abort;

/// Opens a session, which has to be there.
pub(crate) fn open(rt: &impl Abort, alloc: Global, tree: &str, world: &str) -> Session {
    match Session::open(alloc, tree.as_bytes(), world.as_bytes(), None) {
        Ok(session) => session,
        Err(Stop::NoMemory) => panic!(rt; "there is no memory"),
        Err(Stop::Fault(fault)) => panic!(rt; "{fault:?}"),
    }
}
