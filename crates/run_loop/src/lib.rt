//! The runs of a tree in a world: one to sixteen runners, each with its arena and its blackboard, over one table of facts
//! and one roster of drivers; and laws of what is held at every moment.
#![tactic(auto)]

mod beginning;
mod boxed;
mod copying;
mod counts;
mod events;
mod fitting;
mod hearing;
pub mod held;
pub mod laws;
mod making;
mod openings;
mod parts;
mod quenching;
mod runs;
mod telling;

pub use boxed::Roster;
pub use counts::leaves;
pub use events::{event, finish, run_event, run_finish, run_listed};
pub use fitting::{event_fits, tellings_fit};
pub use making::{make_planned_runs, make_runs, runs_of};
pub use runs::{ReadyRunner, Runs, usable};
