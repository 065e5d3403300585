ghost use Rattle.std.specs.Prelude.{◌≡◌};
ghost use Rattle.spec_world_file.specs.WorldFile.{AfterForm, AtLine, FactLine, GoalLine, HaltLine, RunnersLine, SetLine, TickLine, name_line, named_number, number_line};
ghost use Rattle.world_draft.specs.Readings.{Leaves};

use base_tables::{MOST_RUNNERS, is_canonical};
use base_texts::Stop;
use spec_world::{Fact, What};
use spec_world_file::WorldFaultKind;
use std::alloc::Global;
use world_draft::Reading;
use world_lines::{cut, int, is_name, ms, name_of, one_of};

/// Reads `fact NAME INT`, from after `fact`; so below.
pub fn read_fact(
    alloc: Global,
    reading: &mut Reading,
    text: &[u8],
) -> Result<(), Stop<WorldFaultKind>>
    ensures { Leaves result reading.new (AfterForm reading.old (named_number FactLine text.now)) }
{
    let (name, rest) = cut(text);
    let (number, rest) = cut(rest);
    if !is_name(name) || !rest.is_empty() || !is_canonical(number) {
        return Err(Stop::Fault(WorldFaultKind::BadLine));
    }
    reading.close(alloc)?;
    match int(number) {
        Some(opening) => {
            let name = name_of(alloc, name)?;
            reading.add_fact(alloc, Fact { name, opening })
        }
        None => Err(Stop::Fault(WorldFaultKind::Range)),
    }
}

/// Reads `set NAME INT`.
pub fn read_change(
    alloc: Global,
    reading: &mut Reading,
    text: &[u8],
) -> Result<(), Stop<WorldFaultKind>>
    ensures { Leaves result reading.new (AfterForm reading.old (named_number SetLine text.now)) }
{
    let (name, rest) = cut(text);
    let (number, rest) = cut(rest);
    if !is_name(name) || !rest.is_empty() || !is_canonical(number) {
        return Err(Stop::Fault(WorldFaultKind::BadLine));
    }
    reading.close(alloc)?;
    let Some(value) = int(number) else {
        return Err(Stop::Fault(WorldFaultKind::Range));
    };
    match reading.fact_number(name) {
        Some(fact) => reading.add_event(What::Change { fact, value }),
        None => Err(Stop::Fault(WorldFaultKind::NoName)),
    }
}

/// Reads `goal ID`.
pub fn read_goal(
    alloc: Global,
    reading: &mut Reading,
    text: &[u8],
) -> Result<(), Stop<WorldFaultKind>>
    ensures { Leaves result reading.new (AfterForm reading.old (name_line GoalLine text.now)) }
{
    let (id, rest) = cut(text);
    if !is_name(id) || !rest.is_empty() {
        return Err(Stop::Fault(WorldFaultKind::BadLine));
    }
    reading.close(alloc)?;
    match reading.comparison_number(id) {
        Some(number) => reading.add_goal(number),
        None => Err(Stop::Fault(WorldFaultKind::NoName)),
    }
}

/// Reads `runners N`.
pub fn read_runners(
    alloc: Global,
    reading: &mut Reading,
    text: &[u8],
) -> Result<(), Stop<WorldFaultKind>>
    ensures { Leaves result reading.new (AfterForm reading.old (number_line RunnersLine text.now)) }
{
    let (number, rest) = cut(text);
    if !rest.is_empty() || !is_canonical(number) || reading.has_events() {
        return Err(Stop::Fault(WorldFaultKind::BadLine));
    }
    reading.close(alloc)?;
    match one_of(number, MOST_RUNNERS) {
        Some(count) => reading.set_runners(count),
        None => Err(Stop::Fault(WorldFaultKind::Range)),
    }
}

/// Reads `at MS`.
pub fn read_moment(
    alloc: Global,
    reading: &mut Reading,
    text: &[u8],
) -> Result<(), Stop<WorldFaultKind>>
    ensures { Leaves result reading.new (AfterForm reading.old (number_line AtLine text.now)) }
{
    let (number, rest) = cut(text);
    if !rest.is_empty() || !is_canonical(number) {
        return Err(Stop::Fault(WorldFaultKind::BadLine));
    }
    reading.close(alloc)?;
    match ms(number) {
        Some(moment) => reading.move_to(moment),
        None => Err(Stop::Fault(WorldFaultKind::Range)),
    }
}

/// Reads `tick R`.
pub fn read_tick(
    alloc: Global,
    reading: &mut Reading,
    text: &[u8],
) -> Result<(), Stop<WorldFaultKind>>
    ensures { Leaves result reading.new (AfterForm reading.old (number_line TickLine text.now)) }
{
    let (number, rest) = cut(text);
    if !rest.is_empty() || !is_canonical(number) {
        return Err(Stop::Fault(WorldFaultKind::BadLine));
    }
    reading.close(alloc)?;
    match one_of(number, reading.runners()) {
        Some(runner) => reading.add_event(What::Tick(runner)),
        None => Err(Stop::Fault(WorldFaultKind::Range)),
    }
}

/// Reads `halt R`.
pub fn read_halt(
    alloc: Global,
    reading: &mut Reading,
    text: &[u8],
) -> Result<(), Stop<WorldFaultKind>>
    ensures { Leaves result reading.new (AfterForm reading.old (number_line HaltLine text.now)) }
{
    let (number, rest) = cut(text);
    if !rest.is_empty() || !is_canonical(number) {
        return Err(Stop::Fault(WorldFaultKind::BadLine));
    }
    reading.close(alloc)?;
    match one_of(number, reading.runners()) {
        Some(runner) => reading.add_event(What::Halt(runner)),
        None => Err(Stop::Fault(WorldFaultKind::Range)),
    }
}
