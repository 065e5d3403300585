ghost use Rattle.std.specs.Prelude.{◌≡◌, ◌≤◌, length, map, true};
ghost use Rattle.std.specs.List.{list_all};
ghost use Rattle.spec_world_file.specs.GroundFile as file;
ghost use Rattle.spec_world_file.specs.GroundFile.{nothing_read, reads_ground, with_lines};
ghost use Rattle.world_ground.specs.Readings.{Leaves};
ghost use Rattle.world_ground.specs.Sound.{is_short, IsSound};
ghost use Rattle.spec_tree.specs.Limits.{most_file_bytes};
ghost use Rattle.world_reader.specs.Readings.{Gives};

use crate::forms::read_line;
use crate::ground::Ground;
use crate::make::lines_of;
use crate::reading::Reading;
use crate::sizes::size_of;
use base_tables::MOST_FILE_BYTES;
use base_texts::Stop;
use spec_world_file::GroundFault;
use std::alloc::Global;
use world_lines::{is, parts, trimmed, without_rest};

/// The world script that a ground file stands for, or the first fault of the file: its first faulty line, else
/// `Unended`, else `TooManyGround`, for which no text is made. `NoMemory` (want of memory, that is, out of memory), here
/// and below, where an allocation fails.
pub fn read_ground(alloc: Global, bytes: &[u8]) -> Result<Ground, Stop<GroundFault>>
    requires { length bytes.now ≤ most_file_bytes }
    ensures { Gives result (λ said. said ≡ reads_ground bytes.now) }
{
    let parts = parts(alloc, bytes, b'\n')?;
    ground_of(alloc, without_rest(parts.as_slice()))
}

/// The world script of the lines of a file. The fault `Header` where the first line is not `bt-ground 1`.
fn ground_of(alloc: Global, lines: &[&[u8]]) -> Result<Ground, Stop<GroundFault>>
    requires few { length lines.now ≤ 1048577 }
    requires short { list_all is_short (map (λ text. text.now) lines.now) ≡ true }
    ensures { Gives result (λ said. said ≡ file.ground_of (map (λ text. text.now) lines.now)) }
{
    match lines {
        [first, rest @ ..] => headed(alloc, is(trimmed(first), "bt-ground 1"), rest),
        [] => Err(Stop::Fault(GroundFault::Header { line: 1 })),
    }
}

/// The world script of the lines after the first, where that is the header.
fn headed(alloc: Global, is_header: bool, lines: &[&[u8]]) -> Result<Ground, Stop<GroundFault>>
    requires few { length lines.now ≤ 1048577 }
    requires short { list_all is_short (map (λ text. text.now) lines.now) ≡ true }
    ensures { Gives result (λ said. said ≡ file.headed is_header (map (λ text. text.now) lines.now)) }
{
    if is_header {
        ground_following(alloc, lines)
    } else {
        Err(Stop::Fault(GroundFault::Header { line: 1 }))
    }
}

/// The world script of the lines after the header.
fn ground_following(alloc: Global, lines: &[&[u8]]) -> Result<Ground, Stop<GroundFault>>
    requires few { length lines.now ≤ 1048577 }
    requires short { list_all is_short (map (λ text. text.now) lines.now) ≡ true }
    ensures { Gives result (λ said. said ≡ file.ground_after (with_lines 2 (map (λ text. text.now) lines.now) nothing_read)) }
{
    let mut reading = Reading::new(alloc);
    match read_lines(alloc, &mut reading, lines) {
        Ok(()) => closed(alloc, &reading),
        Err(stop) => {
            drop(reading);
            Err(stop)
        }
    }
}

/// Reads the lines, of which the first has the number 2, up to the first faulty one.
fn read_lines<'a>(
    alloc: Global,
    reading: &mut Reading<'a>,
    lines: &[&'a [u8]],
) -> Result<(), Stop<GroundFault>>
    requires { length lines.now ≤ 1048577 }
    ensures { Leaves result reading.new (with_lines 2 (map (λ text. text.now) lines.now) reading.old) }
{
    let mut line = 2;
    for text in lines {
        if let Err(stop) = read_line(alloc, reading, line, text) {
            return Err(stop);
        }
        line += 1;
    }
    Ok(())
}

/// The world script of what was read. The fault `Unended` where a block is open, `TooManyGround` where the text is too long,
/// before it is made.
fn closed(alloc: Global, reading: &Reading) -> Result<Ground, Stop<GroundFault>>
    requires { IsSound 1048577 reading.now }
    ensures { Gives result (λ said. said ≡ file.closed reading.now.blocks reading.now) }
{
    if let Some(block) = reading.innermost() {
        return Err(Stop::Fault(GroundFault::Unended { line: block.line }));
    }
    let size = size_of(alloc, reading.sorts(), reading.items())?;
    if size > MOST_FILE_BYTES {
        return Err(Stop::Fault(GroundFault::TooManyGround { size }));
    }
    let lines = lines_of(alloc, reading.sorts(), reading.items())?;
    Ok(lines.into_ground(alloc)?)
}
