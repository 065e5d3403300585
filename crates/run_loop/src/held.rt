//! Laws of whole runs: what is held at every moment, and what holds after every prefix of a list of events.

pub mod laws;
