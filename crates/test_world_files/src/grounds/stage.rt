//! What a ground file gives, in words.

ghost use Rattle.std.specs.Prelude.{◌≤◌, length};

use base_outside::{SinkFault, SureSink};
use base_texts::{NoMemory, Stop};
use spec_world_file::{GroundFault, WorldFaultKind};
use std::alloc::Global;
use world_ground::{Ground, read_ground, world_of, write_ground};

/// A kind of fault of a world script.
fn kind_text(kind: WorldFaultKind) -> &'static str {
    match kind {
        WorldFaultKind::Header => "Header",
        WorldFaultKind::BadLine => "BadLine",
        WorldFaultKind::Range => "Range",
        WorldFaultKind::DoubleName => "DoubleName",
        WorldFaultKind::NoName => "NoName",
        WorldFaultKind::MomentBack => "MomentBack",
        WorldFaultKind::TooMany => "TooMany",
    }
}

/// A fault of a ground file, with its line or its size.
pub fn fault_text(alloc: Global, fault: GroundFault) -> Result<String, NoMemory> {
    let text = match fault {
        GroundFault::Header { line } => format!(in alloc; "Header {line}")?,
        GroundFault::BadLine { line } => format!(in alloc; "BadLine {line}")?,
        GroundFault::DoubleName { line } => format!(in alloc; "DoubleName {line}")?,
        GroundFault::NoName { line } => format!(in alloc; "NoName {line}")?,
        GroundFault::TooNested { line } => format!(in alloc; "TooNested {line}")?,
        GroundFault::TooMany { line } => format!(in alloc; "TooMany {line}")?,
        GroundFault::Unended { line } => format!(in alloc; "Unended {line}")?,
        GroundFault::TooManyGround { size } => format!(in alloc; "TooManyGround {size}")?,
        GroundFault::World { line, kind } => {
            format!(in alloc; "World {} {line}", kind_text(kind))?
        }
    };
    Ok(text)
}

/// The text of a ground, as it is written.
fn written(alloc: Global, ground: &Ground) -> Result<String, NoMemory> {
    let mut sink = SureSink::new(alloc);
    match write_ground(&mut sink, ground) {
        Ok(()) => {}
        Err(SinkFault::Failed) => return Ok(String::from_str(alloc, "a fault of the sink")?),
        Err(SinkFault::NoMemory) => return Err(NoMemory),
    }
    let text = str::from_utf8(sink.list()).unwrap_or("?");
    Ok(String::from_str(alloc, text)?)
}

/// The text that a file stands for, or its fault.
pub fn text_of(alloc: Global, bytes: &[u8]) -> Result<String, NoMemory>
    requires { length bytes.now ≤ 1048576 }
{
    match read_ground(alloc, bytes) {
        Ok(ground) => written(alloc, &ground),
        Err(Stop::Fault(fault)) => fault_text(alloc, fault),
        Err(Stop::NoMemory) => Err(NoMemory),
    }
}

/// How many rows the world of a file has, or the file's fault.
pub fn world_text(alloc: Global, bytes: &[u8]) -> Result<String, NoMemory>
    requires { length bytes.now ≤ 1048576 }
{
    let ground = match read_ground(alloc, bytes) {
        Ok(ground) => ground,
        Err(Stop::Fault(fault)) => return fault_text(alloc, fault),
        Err(Stop::NoMemory) => return Err(NoMemory),
    };
    match world_of(alloc, &ground) {
        Ok(world) => Ok(format!(in alloc; "{} rows", world.rows.list().len())?),
        Err(Stop::Fault(fault)) => fault_text(alloc, fault),
        Err(Stop::NoMemory) => Err(NoMemory),
    }
}
