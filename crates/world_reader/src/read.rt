ghost use Rattle.std.specs.Prelude.{◌≡◌, ◌≤◌, length, map, IfOk};
ghost use Rattle.spec_world_file.specs.WorldFile.{AfterLines, LinesMake, LinesRead, ReadsScript, ReadsWorld, for_host, world_of};
ghost use Rattle.spec_world.specs.Worlds.{IsValidWorld};
ghost use Rattle.world_draft.specs.Readings.{Leaves};
ghost use Rattle.world_reader.specs.Readings.{Gives, ScriptLines, ScriptMakes};
ghost use Rattle.world_reader.specs.Readings as readings;

use crate::forms::read_text;
use crate::unique::read_worlds_are_valid;
use base_texts::{NoMemory, Stop};
use spec_world::World;
use spec_world_file::{WorldFault, WorldFaultKind};
use std::alloc::Global;
use world_draft::Reading;
use world_lines::{is, parts, trimmed, without_rest};

/// The world that a world script describes, or its first faulty line. The world is valid.
pub fn read_world(alloc: Global, bytes: &[u8]) -> Result<World, Stop<WorldFault>>
    requires { length bytes.now ≤ 1048576 }
    ensures reads { Gives result (ReadsWorld bytes.now) }
    ensures valid { IfOk result IsValidWorld }
{
    read_worlds_are_valid();
    let parts = parts(alloc, bytes, b'\n')?;
    world_of(alloc, without_rest(parts.as_slice()))
}

/// The world of the lines of a file, or its first faulty line. The fault `Header` where the first line is not
/// `bt-world 1`.
fn world_of(alloc: Global, lines: &[&[u8]]) -> Result<World, Stop<WorldFault>>
    requires { length lines.now ≤ 1048577 }
    ensures { Gives result (LinesRead (map (λ text. text.now) lines.now)) }
{
    match lines {
        [first, rest @ ..] if is(trimmed(first), "bt-world 1") => world_following(alloc, rest),
        _ => Err(Stop::Fault(WorldFault {
            line: 1,
            kind: WorldFaultKind::Header,
        })),
    }
}

/// The world of the lines after the header, or the first faulty line.
fn world_following(alloc: Global, lines: &[&[u8]]) -> Result<World, Stop<WorldFault>>
    requires { length lines.now ≤ 1048577 }
    ensures { Gives result (LinesMake (map (λ text. text.now) lines.now)) }
{
    let mut reading = Reading::new(alloc);
    match read_lines(alloc, &mut reading, lines) {
        Ok(()) => Ok(world_made(alloc, reading)?),
        Err(stop) => {
            drop(reading);
            Err(stop)
        }
    }
}

/// The world that a world script describes, and what the lines of a host are read after; or its first faulty line. The
/// world is valid.
pub fn read_script(alloc: Global, bytes: &[u8]) -> Result<(World, Reading), Stop<WorldFault>>
    requires { length bytes.now ≤ 1048576 }
    ensures reads { Gives result (ReadsScript bytes.now) }
    ensures valid { IfOk result (λ read. IsValidWorld read.0) }
{
    read_worlds_are_valid();
    let parts = parts(alloc, bytes, b'\n')?;
    script_of(alloc, without_rest(parts.as_slice()))
}

/// The world of the lines of a file, and what the lines of a host are read after; or the first faulty line. The fault
/// `Header` where the first line is not `bt-world 1`.
fn script_of(alloc: Global, lines: &[&[u8]]) -> Result<(World, Reading), Stop<WorldFault>>
    requires { length lines.now ≤ 1048577 }
    ensures { Gives result (ScriptLines (map (λ text. text.now) lines.now)) }
{
    match lines {
        [first, rest @ ..] if is(trimmed(first), "bt-world 1") => script_following(alloc, rest),
        _ => Err(Stop::Fault(WorldFault {
            line: 1,
            kind: WorldFaultKind::Header,
        })),
    }
}

/// The world of the lines after the header, and what the lines of a host are read after; or the first faulty line.
fn script_following(alloc: Global, lines: &[&[u8]]) -> Result<(World, Reading), Stop<WorldFault>>
    requires { length lines.now ≤ 1048577 }
    ensures { Gives result (ScriptMakes (map (λ text. text.now) lines.now)) }
{
    let mut reading = Reading::new(alloc);
    match read_lines(alloc, &mut reading, lines) {
        Ok(()) => Ok(script_made(alloc, reading)?),
        Err(stop) => {
            drop(reading);
            Err(stop)
        }
    }
}

/// The world of all that was read.
fn world_made(alloc: Global, mut reading: Reading) -> Result<World, NoMemory>
    ensures { IfOk result (λ world. world ≡ world_of reading) }
{
    match reading.close(alloc) {
        Ok(()) => reading.into_world(alloc),
        Err(NoMemory) => {
            // What is large is dropped by a call, which is proved once.
            drop(reading);
            Err(NoMemory)
        }
    }
}

/// The world of all that was read, and what the lines of a host are read after.
fn script_made(alloc: Global, reading: Reading) -> Result<(World, Reading), NoMemory>
    ensures { IfOk result (λ made. made ≡ (world_of reading, for_host reading)) }
{
    match reading.for_host(alloc) {
        Ok(after) => match world_made(alloc, reading) {
            Ok(world) => Ok((world, after)),
            Err(NoMemory) => {
                drop(after);
                Err(NoMemory)
            }
        },
        Err(NoMemory) => {
            drop(reading);
            Err(NoMemory)
        }
    }
}

/// What is wrong with a line, with its number.
fn located(stop: Stop<WorldFaultKind>, line: u32) -> Stop<WorldFault>
    ensures { result ≡ readings.located stop line }
{
    match stop {
        Stop::Fault(kind) => Stop::Fault(WorldFault { line, kind }),
        Stop::NoMemory => Stop::NoMemory,
    }
}

/// Reads the lines, of which the first has the number 2, up to the first faulty one.
fn read_lines(alloc: Global, reading: &mut Reading, lines: &[&[u8]]) -> Result<(), Stop<WorldFault>>
    requires { length lines.now ≤ 1048577 }
    ensures { Leaves result reading.new (AfterLines 2 (map (λ text. text.now) lines.now) reading.old) }
{
    let mut line = 2;
    for text in lines {
        if let Err(stop) = read_text(alloc, reading, text) {
            return Err(located(stop, line));
        }
        line += 1;
    }
    Ok(())
}
