ghost use Rattle.std.specs.Prelude.{◌≤◌, Ok};
ghost use Rattle.cli_refusals.specs.Printing.{Printed};
ghost use Rattle.spec_program.specs.Printed.{ground_output};
ghost use Rattle.spec_outside.specs.Writes.{AreLines};
ghost use Rattle.spec_program.specs.Answers.{WritesAt};

use base_outside::{Sink, SinkFault};
use spec_program::Exit;
use world_ground::{Ground, write_ground};

/// Writes the world script that a ground file stands for.
pub fn print_ground<K: Sink>(ground: &Ground, out: &mut K) -> Exit
    ensures printed { Printed (ground_output (Ok ground.now)) result
        (K.written out.old) (K.faults out.old) (K.written out.new) (K.faults out.new) }
    ensures count { K.faults out.old ≤ K.faults out.new }
    ensures writes { AreLines ground.now.text → WritesAt K.write_gives result out.old out.new }
{
    match write_ground(out, ground) {
        Ok(()) => Exit::Done,
        Err(SinkFault::Failed) => Exit::Write,
        Err(SinkFault::NoMemory) => Exit::Memory,
    }
}
