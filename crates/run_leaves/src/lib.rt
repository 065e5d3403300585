//! The five drivers of the modelled world: each answers the rows of its kind by the leaf rule.
#![tactic(auto)]

mod conditions;
mod gate;
mod instances;
mod ledger;
mod replay;
mod tally;
mod timed;
mod told;

pub use conditions::Conditions;
pub use gate::Gate;
pub use replay::Replay;
pub use timed::Timed;
pub use told::Told;
