//! The front door of hosts: a session owns a tree in a world with its drivers, and is driven event by event.
#![tactic(auto)]

mod five;
mod labels;
mod misuse;
mod opening;
mod reads;
mod session;
mod steps;

pub use session::Session;
