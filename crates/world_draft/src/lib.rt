//! What the lines of a world script have made so far: the facts, the rows, the row to which lines may still add, and the
//! events.
#![tactic(auto)]

mod draft;
mod facts;
mod knowing;
mod ports;
mod reading;
mod rounds;
mod rows;
mod tables;
mod telling;

pub use draft::Draft;
pub use reading::Reading;
pub use rounds::{Part, parts_within};
pub use telling::told_outs;
