//! Tests alone: tables of what drivers and a clock are asked in runs, loads and plans.
#![tactic(auto)]

#[cfg(test)]
mod calls;
#[cfg(test)]
mod live;
#[cfg(test)]
mod load;
#[cfg(test)]
mod marks;
#[cfg(test)]
mod plans;
