ghost use Rattle.std.specs.Prelude.{◌≡◌, ◌+◌, ◌<◌, ◌^◌, ◌++◌, if◌then◌else◌, IfOk, IfSome, IsTrue, OnErr, OnOk};
ghost use Rattle.std.specs.List.{count_by, flat_map};
ghost use Rattle.spec_expect.specs.Told.{is_fault, line_of_note};
ghost use Rattle.spec_expect.specs.Verdicts.{verdict_line};
ghost use Rattle.spec_output.specs.Lines.{line_names};
ghost use Rattle.expect_watch.specs.Begun.{BegunOn, Wanted};
ghost use Rattle.expect_watch.specs.States as states;
ghost use Rattle.run_loop.specs.Runs.{arenas_of};
ghost use Rattle.text_trace.specs.Expected.{IsExpected, came_out, failed_in, following, lines_by, met_or_not};
ghost use Rattle.text_trace.specs.Halted.{IsCut};
ghost use Rattle.text_trace.specs.Traces.{AreKept, CanAllCome, CanRun, trace_of};

use crate::ended::Ended;
use crate::expecting::expecter::Expecter;
use crate::expecting::verdicts::{put_sum, put_verdict};
use crate::running::run_events;
use base_texts::NoMemory;
use expect_watch::{Watched, Watching};
use run_driver::Drivers;
use run_loop::Runs;
use spec_expect::Verdict;
use spec_run::Note;
use spec_world::Event;
use std::alloc::Global;
use text_lines::{Names, put_long};

/// How a run ended of which something is expected.
#[derive(Clone, Copy, Debug, PartialEq, Eq)]
pub enum Expecting {
    /// It met all that is expected.
    Met,
    /// It did not meet all.
    Unmet,
    /// An event or a finish ended in a fault.
    Faulted,
}

/// One more that is not met, where it does not pass.
fn with_failed(failed: u64, verdict: Verdict) -> u64
    requires { failed + 1 < 2 ^ 64 }
    ensures { result ≡ failed + (if states.is_failed verdict then 1 else 0) }
{
    match verdict {
        Verdict::Pass => failed,
        Verdict::Fail { .. } => failed + 1,
    }
}

/// Puts the line of each expectation in order, in a run whose last event has this moment, and tells how many are not met.
fn put_verdicts(out: &mut Vec<u8>, watched: &[Watched], last: u64) -> Result<u64, NoMemory>
    ensures lines { OnOk result (out.new.items
        ≡ out.old.items ++ flat_map (λ w. verdict_line w.line (states.verdict_of w last)) watched.now) }
    ensures failed { IfOk result (λ failed. failed ≡ count_by (λ w. states.is_failed (states.verdict_of w last)) watched.now) }
{
    let mut failed: u64 = 0;
    for one in watched {
        let verdict = one.verdict(last);
        put_verdict(out, one.line, verdict)?;
        failed = with_failed(failed, verdict);
    }
    Ok(failed)
}

/// Puts the line of a fault, where there is one.
fn put_fault(out: &mut Vec<u8>, fault: Option<Note>, names: &Names) -> Result<(), NoMemory>
    requires { IfSome fault (λ note. IsTrue (is_fault note)) }
    ensures { OnOk result (out.new.items ≡ out.old.items ++ line_of_note names.now fault) }
{
    match fault {
        Some(note) => put_long(out, note, names),
        None => Ok(()),
    }
}

/// How a run came out that ended without a fault and does not meet so many expectations.
fn come_out(failed: u64) -> Expecting
    ensures { result ≡ met_or_not failed }
{
    if failed == 0 {
        Expecting::Met
    } else {
        Expecting::Unmet
    }
}

/// Puts the lines of what a run was expected to do that ended so, and tells how that came out.
fn put_lines(
    out: &mut Vec<u8>,
    expecter: &Expecter,
    ended: Ended,
    names: &Names,
) -> Result<Expecting, NoMemory>
    ensures lines { OnOk result (out.new.items ≡ out.old.items ++ lines_by ended names.now (following expecter.now)) }
    ensures out { IfOk result (λ came. came ≡ came_out ended (failed_in (following expecter.now).state)) }
{
    let watching = &expecter.watching;
    let failed = put_verdicts(out, watching.watched.as_slice(), watching.last)?;
    match ended {
        Ended::Faulted => {
            put_fault(out, expecter.fault, names)?;
            Ok(Expecting::Faulted)
        }
        Ended::Done => {
            let passed = (watching.watched.len() as u64).saturating_sub(failed);
            put_sum(out, passed, failed)?;
            Ok(come_out(failed))
        }
    }
}

/// Runs what is expected to do something: makes the events in order, finishes all runners, and gives the lines that tell for
/// each expectation whether it is met; after a fault its line, and else how many are met and how many are not. The error is
/// want of memory, and then the drivers had the first calls of the run. No driver holds anything then, whatever is answered.
pub fn run_expected<D: Drivers>(
    alloc: Global,
    watching: Watching,
    names: &Names,
    runs: Runs,
    events: &[Event],
    drivers: &mut D,
) -> Result<(Vec<u8>, Expecting), NoMemory>
    ghost wanted: { Wanted }
    requires begun { BegunOn wanted.of wanted.expected (states.seen watching) }
    requires names { names.now ≡ line_names wanted.of.tree wanted.of.world }
    requires runs { CanRun wanted.of (D.states drivers.old) runs }
    requires come { CanAllCome wanted.of runs.last events.now }
    ensures whole { IfOk result (λ told.
        IsExpected wanted.of wanted.expected (arenas_of runs) (D.states drivers.old) (D.states drivers.new) told.0.items told.1
        (trace_of wanted.of (D.states drivers.old) runs events.now)) }
    ensures cut { OnErr result (IsCut (arenas_of runs) (D.states drivers.old) (D.states drivers.new)
        (trace_of wanted.of (D.states drivers.old) runs events.now)) }
    ensures kept { AreKept (D.states drivers.old) (D.states drivers.new) }
{
    let mut expecter = Expecter {
        watching,
        fault: None,
    };
    let Ok(ended) = run_events(alloc, runs, events, drivers, &mut expecter) else {
        return Err(NoMemory);
    };
    let mut lines = Vec::new(alloc);
    let expecting = put_lines(&mut lines, &expecter, ended, names)?;
    Ok((lines, expecting))
}
