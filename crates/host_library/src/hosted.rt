use host_session::Session;
use spec_world::ToldOut;
use std::alloc::Global;

/// What C holds by a pointer: a session, and the outputs for the next telling.
#[derive(Drop)]
pub struct Hosted {
    pub alloc: Global,
    pub session: Session,
    pub outs: Vec<ToldOut>,
}
