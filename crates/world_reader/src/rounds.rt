ghost use Rattle.std.specs.Prelude.{◌≡◌, map, true};
ghost use Rattle.std.specs.Str.Parse.{signed_digits_value};
ghost use Rattle.spec_tree.specs.Numbers as numbers;
ghost use Rattle.spec_world_file.specs.WorldFile.{AfterForm, AfterLine, EveryLine, every_line};
ghost use Rattle.world_lines.specs.Written.{seen_part};
ghost use Rattle.world_draft.specs.Readings.{Leaves};

use base_tables::is_canonical;
use base_texts::Stop;
use spec_world_file::WorldFaultKind;
use std::alloc::Global;
use world_draft::{Reading, parts_within};
use world_lines::{WrittenPart, cut, is, ms, parts_in, step};

/// Reads `every MS until MS` and one part or more, each `tick R` or `halt R`, from after `every`.
pub fn read_every(
    alloc: Global,
    reading: &mut Reading,
    text: &[u8],
) -> Result<(), Stop<WorldFaultKind>>
    ensures { Leaves result reading.new (AfterForm reading.old (every_line text.now)) }
{
    let (step, rest) = cut(text);
    let (verb, rest) = cut(rest);
    let (last, rest) = cut(rest);
    if !is(verb, "until") || rest.is_empty() || !is_canonical(step) || !is_canonical(last) {
        return Err(Stop::Fault(WorldFaultKind::BadLine));
    }
    match parts_in(alloc, rest)? {
        Some(parts) => add_rounds(alloc, reading, step, last, parts.as_slice()),
        None => Err(Stop::Fault(WorldFaultKind::BadLine)),
    }
}

/// Adds rounds of these parts up to a moment, which is written so, as the time between them is.
fn add_rounds(
    alloc: Global,
    reading: &mut Reading,
    time: &[u8],
    last: &[u8],
    parts: &[WrittenPart],
) -> Result<(), Stop<WorldFaultKind>>
    requires time { numbers.is_canonical time.now ≡ true }
    requires last { numbers.is_canonical last.now ≡ true }
    ensures { Leaves result reading.new (AfterLine reading.old
        (EveryLine (signed_digits_value 10 time.now) (signed_digits_value 10 last.now) (map seen_part parts.now))) }
{
    reading.close(alloc)?;
    let Some(time) = step(time) else {
        return Err(Stop::Fault(WorldFaultKind::Range));
    };
    let Some(last) = ms(last) else {
        return Err(Stop::Fault(WorldFaultKind::Range));
    };
    match parts_within(alloc, parts, reading.runners()) {
        Ok(parts) => reading.add_rounds(last, time, parts.as_slice()),
        Err(stop) => Err(stop),
    }
}
