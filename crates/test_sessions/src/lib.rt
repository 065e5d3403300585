//! Tests alone: tables of sessions, as hosts drive them.
#![tactic(auto)]

#[cfg(test)]
mod host;
#[cfg(test)]
mod memory;
#[cfg(test)]
mod opening;
#[cfg(test)]
mod reads;
#[cfg(test)]
mod sessions;
