ghost use Rattle.std.specs.Prelude.{◌≡◌, Option, IfSome};
ghost use Rattle.std.specs.Option.{option_map};
ghost use Rattle.spec_outside.specs.Moments.{Moments, after_now};

/// A clock that gives one moment after another, in milliseconds. It never fails.
pub trait Clock {
    /// The moments that are still to come and the one given last, where the clock tells them.
    ghost moments: { Self → Option Moments };

    /// The next moment in milliseconds, or the last one again where none is to come. It may lie
    /// below the one before it: who runs a tree by the clock then takes the one before in its place.
    fn now(&mut self) -> u64
        ensures passed { moments self.new ≡ option_map after_now (moments self.old) }
        ensures given { IfSome (moments self.new) (λ new. result ≡ new.last) };
}
