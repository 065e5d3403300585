ghost use Rattle.std.specs.Prelude.{◌≡◌, ◌≤◌};
ghost use Rattle.spec_run.specs.Leaf as leaf;
ghost use Rattle.run_driver.specs.Calls.{IsAskedIn, phase_asked};

use run_driver::{Call, Hold};

/// An instance that was never held.
pub fn fresh() -> Hold
    ensures { result ≡ leaf.fresh }
{
    Hold {
        since: None,
        completions: 0,
        length: None,
    }
}

/// The instance, held since this time in milliseconds.
pub fn held(since: u64, instance: Hold) -> Hold
    ensures { result ≡ leaf.held since instance }
{
    Hold {
        since: Some(since),
        completions: instance.completions,
        length: instance.length,
    }
}

/// The instance, to be held for so many milliseconds.
pub fn lasting_for(ms: u64, instance: Hold) -> Hold
    ensures { result ≡ leaf.lasting_for ms instance }
{
    Hold {
        since: instance.since,
        completions: instance.completions,
        length: Some(ms),
    }
}

/// The instance, not held.
pub fn released(instance: Hold) -> Hold
    ensures { result ≡ leaf.released instance }
{
    Hold {
        since: None,
        completions: instance.completions,
        length: instance.length,
    }
}

/// The instance, not held, with one more completion. Completions are counted up to 64.
pub fn completed(instance: Hold) -> Hold
    ensures { result ≡ leaf.completed instance }
{
    Hold {
        since: None,
        completions: instance.completions.saturating_add(1).min(64),
        length: instance.length,
    }
}

/// When the leaf of this instance began, at a call of it: now where it is not held yet. Times are in
/// milliseconds.
#[inline(always)]
pub fn began(call: &Call, instance: Hold) -> u64
    requires { IsAskedIn call.now.phase instance call.now.moment }
    ensures start { result ≡ leaf.start_of (phase_asked call.now.phase) instance call.now.moment }
    ensures past { result ≤ call.now.moment }
{
    instance.since.unwrap_or(call.moment)
}
