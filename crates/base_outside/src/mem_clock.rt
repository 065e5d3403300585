ghost use Rattle.std.specs.Prelude.{◌≡◌};
ghost use Rattle.spec_outside.specs.Moments.{after_now};

use crate::clock::Clock;
use std::marker::Model;
use std::vec::IntoIter;

/// A clock in memory. Contracts see the moments that are still to come and the one given last.
#[derive(Drop)]
pub struct MemClock {
    ahead: IntoIter<u64>,
    last: u64,
}

impl Model for MemClock {
    ghost use Rattle.std.specs.Vec.Iter.{into_iter_items};
    ghost use Rattle.spec_outside.specs.Moments.{Moments};

    ghost Value = { Moments };

    ghost view = { λ clock. record { ahead = into_iter_items clock.ahead; last = clock.last } };
}

impl MemClock {
    /// A clock that gives these moments, in milliseconds, and after them the last one again and
    /// again. Where there is none it gives 0. It allocates nothing.
    pub fn new(ahead: Vec<u64>) -> MemClock
        ensures { result ≡ record { ahead = ahead.items; last = 0 } }
    {
        MemClock {
            ahead: ahead.into_iter(),
            last: 0,
        }
    }
}

impl Clock for MemClock {
    ghost use Rattle.std.specs.Prelude.{Some};

    ghost moments = { λ moments. Some moments };

    fn now(&mut self) -> u64
        ensures after { self.new ≡ after_now self.old }
        ensures given { result ≡ self.new.last }
    {
        self.last = self.ahead.next().unwrap_or(self.last);
        self.last
    }
}
