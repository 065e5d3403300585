ghost use Rattle.std.specs.Prelude.{◌≡◌};
ghost use Rattle.std.specs.Option.{option_map};
ghost use Rattle.std.specs.Time.{instant_nanos};
ghost use Rattle.base_outside.specs.HostClock.{after_reading, millis, OneReading};

use crate::clock::Clock;
use std::marker::Model;
use std::rt;
use std::time::Instant;

/// The clock of the host: the milliseconds since it was made. It tells nothing of its moments.
/// Contracts see from where it counts and the moment given last, as a `ClockState`.
#[derive(Drop)]
pub struct HostClock<R: rt::Clock + Drop> {
    host: R,
    start: Option<Instant>,
    last: u64,
}

impl<R: rt::Clock + Drop> Model for HostClock<R> {
    ghost use Rattle.std.specs.Option.{option_map};
    ghost use Rattle.std.specs.Time.{instant_nanos};
    ghost use Rattle.base_outside.specs.HostClock.{ClockState};

    ghost Value = { ClockState };

    ghost view = { λ clock. record { start = option_map instant_nanos clock.start; last = clock.last } };
}

impl<R: rt::Clock + Drop> HostClock<R> {
    /// A clock that counts from now on. Where the host answers a fault, it counts from the first
    /// time that the host gives. It allocates nothing.
    pub fn new(host: R) -> HostClock<R>
        ensures { result.last ≡ 0 }
    {
        let start = Instant::now(&host).ok();
        HostClock {
            host,
            start,
            last: 0,
        }
    }

    /// Takes a time that the host gave. None is a fault of the host, and changes nothing.
    fn take_reading(&mut self, reading: Option<Instant>)
        ensures { self.new ≡ after_reading self.old (option_map instant_nanos reading) }
    {
        if let Some(time) = reading {
            let start = *self.start.get_or_insert(time);
            self.last = millis_between(start, time);
        }
    }
}

/// The whole milliseconds between the two. A time before the start counts as the start.
fn millis_between(start: Instant, time: Instant) -> u64
    ensures { result ≡ millis (instant_nanos start) (instant_nanos time) }
{
    u64::try_from(time.duration_since(start).as_millis()).unwrap_or(u64::MAX)
}

impl<R: rt::Clock + Drop> Clock for HostClock<R> {
    ghost use Rattle.std.specs.Prelude.{None};

    ghost moments = { λ _. None };

    fn now(&mut self) -> u64
        ensures reading { OneReading self.old self.new }
        ensures given { result ≡ self.new.last }
    {
        let reading = Instant::now(&self.host).ok();
        self.take_reading(reading);
        self.last
    }
}
