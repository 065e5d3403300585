//! Tests alone: tables of runs, with the traces that they write.
#![tactic(auto)]

#[cfg(test)]
mod compare;
#[cfg(test)]
mod controls;
#[cfg(test)]
mod decorators;
#[cfg(test)]
mod failing;
#[cfg(test)]
mod halts;
#[cfg(test)]
mod mocks;
#[cfg(test)]
mod navigation;
#[cfg(test)]
mod runners;
#[cfg(test)]
mod scripts;
#[cfg(test)]
mod told;
#[cfg(test)]
mod traces;
