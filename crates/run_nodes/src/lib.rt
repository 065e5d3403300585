//! What one node of an arena does by itself: its scripts, its ports, the call of its driver, the end of its visit; what
//! stops: the halt and the reset of a node with all below it, and the quench of a runner; and what a leaf is told.
#![tactic(auto)]

mod alone;
mod ending;
pub mod halting;
mod leaves;
mod scripts;
mod sources;
mod starts;
mod telling;

pub use alone::visit_alone;
pub use ending::{end_visit, note_change};
pub use halting::{halt, quench, reset, reset_children};
pub use scripts::{goes_on, guards_answer, script_if_there};
pub use starts::{picked, remembers, start_memo};
pub use telling::tell_leaf;
