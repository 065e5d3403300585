ghost use Rattle.std.specs.Prelude.{◌≡◌, ◌≤◌, ◌+◌, ◌*◌, ◌++◌, OnOk, length, map};
ghost use Rattle.spec_world_file.specs.WorldFile.{rounds};
ghost use Rattle.world_lines.specs.Written.{seen_part};
ghost use Rattle.world_draft.specs.Rounds.{PartSays, PartsSay, what_of};

use base_texts::{NoMemory, Stop};
use spec_world::{Event, What};
use spec_world_file::WorldFaultKind;
use std::alloc::Global;
use world_lines::WrittenPart;

/// What happens to a runner in each round of a line of rounds.
#[derive(Clone, Copy)]
pub enum Part {
    Tick(u8),
    Halt(u8),
}

impl Part {
    /// What its event does.
    fn what(self) -> What
        ensures { result ≡ what_of self }
    {
        match self {
            Part::Tick(runner) => What::Tick(runner),
            Part::Halt(runner) => What::Halt(runner),
        }
    }
}

/// The part that is written. None where its runner is not one of so many.
fn part_within(part: &WrittenPart, runners: u8) -> Option<Part>
    ensures { PartSays result (seen_part part.now) runners }
{
    match part {
        WrittenPart::Tick(runner) => Some(Part::Tick(runner.one_of(runners)?)),
        WrittenPart::Halt(runner) => Some(Part::Halt(runner.one_of(runners)?)),
    }
}

/// The parts that are written. The fault `Range` where a runner is not one of so many.
pub fn parts_within(
    alloc: Global,
    written: &[WrittenPart],
    runners: u8,
) -> Result<Vec<Part>, Stop<WorldFaultKind>>
    ensures { PartsSay result (map seen_part written.now) runners }
{
    let mut parts = Vec::new(alloc);
    for part in written {
        match part_within(part, runners) {
            Some(part) => parts.push(part)?,
            None => return Err(Stop::Fault(WorldFaultKind::Range)),
        }
    }
    Ok(parts)
}

/// Adds a round of events at this moment.
fn push_round(events: &mut Vec<Event>, at: u64, parts: &[Part]) -> Result<(), NoMemory>
    ensures { OnOk result (events.new.items ≡ events.old.items ++ map (λ what. record { at = at; what = what }) (map what_of parts.now)) }
{
    for part in parts {
        events.push(Event {
            at,
            what: part.what(),
        })?;
    }
    Ok(())
}

/// Adds so many rounds of events from this moment on, each so many milliseconds after the one before. `NoMemory` where an
/// allocation fails.
pub fn push_rounds(
    events: &mut Vec<Event>,
    first: u64,
    ms: u64,
    count: u64,
    parts: &[Part],
) -> Result<(), NoMemory>
    requires { first + count * ms ≤ 9000000000000000000 }
    ensures { OnOk result (events.new.items ≡ events.old.items ++ rounds count first ms (map what_of parts.now)) }
{
    let mut at = first;
    let mut left = count;
    'rounds: while left > 0 {
        push_round(events, at, parts)?;
        at += ms;
        left -= 1;
    }
    Ok(())
}
