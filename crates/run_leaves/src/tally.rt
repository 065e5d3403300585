ghost use Rattle.std.specs.Prelude.{◌≡◌};
ghost use Rattle.spec_run.specs.Drivers as drivers;

use spec_run::{Phase, Totals};

/// Before the first call of a driver.
pub fn no_calls() -> Totals
    ensures { result ≡ drivers.no_calls }
{
    Totals {
        starts: 0,
        runnings: 0,
        haltings: 0,
        trail: 0,
    }
}

/// Counts a call for an instance, in place.
#[inline(always)]
pub fn count(totals: &mut Totals, phase: Phase, instance: u32)
    ensures { totals.new ≡ drivers.counted totals.old phase instance }
{
    let trail = totals.trail.wrapping_mul(1_000_003);
    let place = 3 * u64::from(instance);
    match phase {
        Phase::Start => {
            totals.starts = totals.starts.saturating_add(1);
            totals.trail = trail.wrapping_add(place + 1);
        }
        Phase::Running => {
            totals.runnings = totals.runnings.saturating_add(1);
            totals.trail = trail.wrapping_add(place + 2);
        }
        Phase::Halted => {
            totals.haltings = totals.haltings.saturating_add(1);
            totals.trail = trail.wrapping_add(place + 3);
        }
        Phase::Told => totals.trail = trail.wrapping_add(place + 4),
    }
}
