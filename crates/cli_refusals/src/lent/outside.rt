use base_outside::{Clock, Shelf, Sink};
use run_driver::Drivers;

/// What the program is lent of the outside: the files that it reads, the sink of its output, the clock,
/// and the drivers, each for a time of its own.
#[derive(Drop)]
pub struct Outside<'s, 'k, 'c, 'd, S: Shelf, K: Sink, C: Clock, D: Drivers> {
    pub shelf: &'s mut S,
    pub out: &'k mut K,
    pub clock: &'c mut C,
    pub drivers: &'d mut D,
}
