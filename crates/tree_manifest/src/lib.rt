//! The node models of a tree file: which ports its leaves have, with their defaults, and what a text says at a port.
#![tactic(auto)]

mod attribute_names;
mod attributes;
mod defaults;
mod known;
mod models;
mod names;
mod ports;
mod read;
mod values;

pub use attribute_names::Attributes;
pub use attributes::attribute;
pub use known::KnownModel;
pub use models::{Manifest, model};
pub use names::{can_be_written, is_port_name};
pub use read::manifest_of;
pub use values::value;
