ghost use Rattle.std.specs.Prelude.{◌≡◌, true};
ghost use Rattle.std.specs.List.{list_all};
ghost use Rattle.spec_world_file.specs.WorldFile.{AfterForm, AfterText, event_line, is_line_byte, line_by};
ghost use Rattle.world_draft.specs.Readings.{Leaves};

use crate::additions::{read_effect, read_fails, read_need, read_out};
use crate::events::{
    read_change, read_fact, read_goal, read_halt, read_moment, read_runners, read_tick,
};
use crate::rounds::read_every;
use crate::rows::{read_action, read_condition};
use crate::tellings::read_tell;
use base_texts::Stop;
use spec_world_file::WorldFaultKind;
use std::alloc::Global;
use world_draft::Reading;
use world_lines::{content, cut, is, is_ignored, is_line};

/// Reads the text of a line: adds what it says, or answers what is wrong with it. `NoMemory` (want of memory, that is,
/// out of memory), here and in all readers of lines, where an allocation fails.
pub fn read_text(
    alloc: Global,
    reading: &mut Reading,
    text: &[u8],
) -> Result<(), Stop<WorldFaultKind>>
    ensures { Leaves result reading.new (AfterText reading.old text.now) }
{
    let text = content(text);
    if is_ignored(text) {
        return Ok(());
    }
    if !is_line(text) {
        return Err(Stop::Fault(WorldFaultKind::BadLine));
    }
    let (kind, rest) = cut(text);
    read_line(alloc, reading, kind, rest)
}

/// Reads a line that begins with this word, from after it.
fn read_line(
    alloc: Global,
    reading: &mut Reading,
    kind: &[u8],
    text: &[u8],
) -> Result<(), Stop<WorldFaultKind>>
    requires { list_all is_line_byte text.now ≡ true }
    ensures { Leaves result reading.new (AfterForm reading.old (line_by kind.now text.now)) }
{
    if is(kind, "fact") {
        read_fact(alloc, reading, text)
    } else if is(kind, "condition") {
        read_condition(alloc, reading, text)
    } else if is(kind, "action") {
        read_action(alloc, reading, text)
    } else if is(kind, "fails") {
        read_fails(alloc, reading, text)
    } else if is(kind, "needs") {
        read_need(reading, text)
    } else if is(kind, "sets") {
        read_effect(reading, text)
    } else if is(kind, "out") {
        read_out(alloc, reading, text)
    } else {
        read_event(alloc, reading, kind, text)
    }
}

/// Reads a line about goals, runners and events that begins with this word, from after it.
fn read_event(
    alloc: Global,
    reading: &mut Reading,
    kind: &[u8],
    text: &[u8],
) -> Result<(), Stop<WorldFaultKind>>
    ensures { Leaves result reading.new (AfterForm reading.old (event_line kind.now text.now)) }
{
    if is(kind, "goal") {
        read_goal(alloc, reading, text)
    } else if is(kind, "runners") {
        read_runners(alloc, reading, text)
    } else if is(kind, "at") {
        read_moment(alloc, reading, text)
    } else if is(kind, "tick") {
        read_tick(alloc, reading, text)
    } else if is(kind, "halt") {
        read_halt(alloc, reading, text)
    } else if is(kind, "set") {
        read_change(alloc, reading, text)
    } else if is(kind, "tell") {
        read_tell(alloc, reading, text)
    } else if is(kind, "every") {
        read_every(alloc, reading, text)
    } else {
        Err(Stop::Fault(WorldFaultKind::BadLine))
    }
}
