//! Tests alone: which effects achieve and threaten a test, and plan trees, step by step.
#![tactic(auto)]

#[cfg(test)]
mod effects;
#[cfg(test)]
mod plans;
#[cfg(test)]
mod stage;
#[cfg(test)]
mod steps;
#[cfg(test)]
mod whole;
