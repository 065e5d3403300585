ghost use Rattle.spec_world_file.specs.GroundFile.{sort_in, with_end, with_forall, with_form, with_line, with_sort};
ghost use Rattle.spec_world_file.specs.WorldFile.{words_in};
ghost use Rattle.world_ground.specs.Readings.{Leaves};

use crate::marks::variable_in;
use crate::reading::Reading;
use crate::sort::sort_in;
use base_texts::Stop;
use spec_world_file::GroundFault;
use std::alloc::Global;
use world_lines::{content, cut, is, is_ignored, is_line, is_name, trimmed, words};

/// Reads the line of this number: adds what it says, or answers its first fault. `NoMemory` (want of memory, that is, out
/// of memory), here and below, where an allocation fails.
pub fn read_line<'a>(
    alloc: Global,
    reading: &mut Reading<'a>,
    line: u32,
    text: &'a [u8],
) -> Result<(), Stop<GroundFault>>
    ensures { Leaves result reading.new (with_line line text.now reading.old) }
{
    let held = content(text);
    if is_ignored(held) {
        return Ok(());
    }
    if !is_line(held) {
        return Err(Stop::Fault(GroundFault::BadLine { line }));
    }
    let (kind, rest) = cut(held);
    read_form(alloc, reading, line, kind, rest, trimmed(text))
}

/// Reads a line that begins with this word, with what follows the word, and its whole text.
fn read_form<'a>(
    alloc: Global,
    reading: &mut Reading<'a>,
    line: u32,
    kind: &[u8],
    rest: &[u8],
    text: &'a [u8],
) -> Result<(), Stop<GroundFault>>
    ensures { Leaves result reading.new (with_form line kind.now rest.now text.now reading.old) }
{
    if is(kind, "sort") {
        read_sort(alloc, reading, line, rest)
    } else if is(kind, "forall") {
        read_forall(reading, line, rest)
    } else if is(kind, "end") {
        read_end(reading, line, rest)
    } else {
        reading.add_body(line, text)
    }
}

/// Reads `sort NAME V1 V2 ..`, from after `sort`; so below.
fn read_sort(
    alloc: Global,
    reading: &mut Reading,
    line: u32,
    rest: &[u8],
) -> Result<(), Stop<GroundFault>>
    ensures { Leaves result reading.new (with_sort line (sort_in (words_in rest.now)) reading.old) }
{
    let words = words(alloc, rest)?;
    match sort_in(alloc, words.as_slice())? {
        Some(sort) => reading.add_sort(line, sort),
        None => Err(Stop::Fault(GroundFault::BadLine { line })),
    }
}

/// Reads `forall X SORT`.
fn read_forall(reading: &mut Reading, line: u32, rest: &[u8]) -> Result<(), Stop<GroundFault>>
    ensures { Leaves result reading.new (with_forall line rest.now reading.old) }
{
    let (word, rest) = cut(rest);
    let (sort, rest) = cut(rest);
    if !rest.is_empty() || !is_name(sort) {
        return Err(Stop::Fault(GroundFault::BadLine { line }));
    }
    match variable_in(word) {
        Some(variable) => reading.add_block(line, variable, sort),
        None => Err(Stop::Fault(GroundFault::BadLine { line })),
    }
}

/// Reads `end`.
fn read_end(reading: &mut Reading, line: u32, rest: &[u8]) -> Result<(), Stop<GroundFault>>
    ensures { Leaves result reading.new (with_end line rest.now reading.old) }
{
    if !rest.is_empty() {
        return Err(Stop::Fault(GroundFault::BadLine { line }));
    }
    reading.end_block(line)
}
