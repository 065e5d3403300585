//! Definitions: what a plan is: its tree, how it grows and is reordered, its runs and its ends.
#![tactic(auto)]

mod domain;
mod ending;
mod head;
mod pace;
mod part;
mod places;
mod verdict;

pub use domain::{Template, Test};
pub use ending::{End, Limits, PlanEnd, Step};
pub use head::Head;
pub use pace::Pace;
pub use part::Part;
pub use places::{Place, Spot};
pub use verdict::Verdict;
