//! Runs the events of a world, or rounds by a clock, and then the finish of all runners. Each event leaves a block, which a
//! watcher is shown: one writes the trace, another counts, as a load does.
#![tactic(auto)]

mod counter;
mod counts;
mod ended;
mod expecting;
mod finishes;
mod load;
mod rounds;
mod running;
mod showing;
mod underway;
mod watch;
mod writer;

pub use counter::Counter;
pub use ended::Ended;
pub use expecting::{Expecting, run_expected};
pub use load::{load_tree, load_world, run_load};
pub use rounds::run_rounds;
pub use running::run_events;
pub use watch::Watch;
pub use writer::Writer;
