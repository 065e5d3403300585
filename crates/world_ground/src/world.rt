ghost use Rattle.std.specs.Prelude.{◌≡◌, IfOk};
ghost use Rattle.spec_world_file.specs.GroundFile as file;
ghost use Rattle.spec_world_file.specs.GroundFile.{MakesWorld};
ghost use Rattle.spec_world.specs.Worlds.{IsValidWorld};
ghost use Rattle.world_reader.specs.Readings.{Gives};

use crate::ground::Ground;
use base_texts::Stop;
use spec_world::World;
use spec_world_file::GroundFault;
use std::alloc::Global;
use world_reader::read_world;

/// The line of the ground file from which the line of this number of the world script comes.
fn origin_at(origins: &[u32], line: u32) -> u32
    ensures { result ≡ file.origin_at origins.now line }
{
    match origins.get((line as usize).saturating_sub(1)) {
        Some(origin) => *origin,
        None => 1,
    }
}

/// The world that the world script describes, as `read_world` reads its text. The fault `World` where it has a faulty
/// line, with the line of the ground file from which that comes. The world is valid.
pub fn world_of(alloc: Global, g: &Ground) -> Result<World, Stop<GroundFault>>
    ensures reads { Gives result (MakesWorld g.now) }
    ensures valid { IfOk result IsValidWorld }
{
    match read_world(alloc, g.text()) {
        Ok(world) => Ok(world),
        Err(Stop::Fault(fault)) => Err(Stop::Fault(GroundFault::World {
            line: origin_at(g.origins(), fault.line),
            kind: fault.kind,
        })),
        Err(Stop::NoMemory) => Err(Stop::NoMemory),
    }
}
