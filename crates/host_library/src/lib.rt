//! The engine for programs in C: a session behind a pointer, which each call is lent. include/bt.h declares the calls.
#![tactic(auto)]

mod codes;
mod ending;
mod events;
mod hosted;
mod leaves;
mod nodes;
mod notes;
mod opening;
mod reads;
mod text;
mod values;
