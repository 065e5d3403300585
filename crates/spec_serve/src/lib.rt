//! Definitions: what the lines of a host ask of a session that is served, why one is refused, what is answered, and the
//! rows of a tree that is served without a world.
#![tactic(auto)]

mod request;
mod request_fault;

pub use request::Request;
pub use request_fault::RequestFault;
