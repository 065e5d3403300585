//! What the engine asks of the outside: a shelf of files by name, an input of lines, a sink of bytes and a clock.
#![tactic(auto)]

mod clock;
mod dir_shelf;
mod host_clock;
mod in_lines;
mod lines;
mod mem_clock;
mod mem_shelf;
mod mem_sink;
mod out_sink;
mod shelf;
mod sink;
mod sure_shelf;
mod sure_sink;

pub use clock::Clock;
pub use dir_shelf::DirShelf;
pub use host_clock::HostClock;
pub use in_lines::InLines;
pub use lines::Lines;
pub use mem_clock::MemClock;
pub use mem_shelf::MemShelf;
pub use mem_sink::MemSink;
pub use out_sink::OutSink;
pub use shelf::Shelf;
pub use sink::{Sink, SinkFault};
pub use sure_shelf::SureShelf;
pub use sure_sink::SureSink;
