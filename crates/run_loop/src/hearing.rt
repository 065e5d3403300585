ghost use Rattle.std.specs.Prelude.{◌≡◌, Ok};
ghost use Rattle.spec_run.specs.declared.block.Header.TheVariants as header;
ghost use Rattle.spec_run.specs.Run.{succeeds as is_success};
ghost use Rattle.spec_run.specs.Served.{Setup};
ghost use Rattle.run_loop.specs.Hearing.{CanHear, message_step};
ghost use Rattle.run_loop.specs.Runs.{arenas_of};
ghost use Rattle.run_loop.specs.Steps.{EventLeft, HaveRoom, event_side, kept_state};

use crate::beginning::begin;
use crate::runs::Runs;
use run_arena::Block;
use run_driver::Drivers;
use run_nodes::tell_leaf;
use spec_run::Header;
use spec_world::Telling;

/// What the leaf of a uid of a runner is told, at the time `at` in milliseconds.
#[derive(Debug, Drop)]
pub struct Message {
    pub runner: u8,
    pub uid: u32,
    pub telling: Telling,
    pub at: u64,
}

/// The header of the block of an event that tells a leaf this.
pub fn header_of(runner: u8, uid: u32, telling: &Telling, at: u64) -> Header
    ensures { result ≡ header.Tell runner uid (is_success telling.now) at }
{
    let succeeds = match telling {
        Telling::Success(_) => true,
        Telling::Failure => false,
    };
    Header::Tell {
        runner,
        uid,
        succeeds,
        at,
    }
}

/// Tells a leaf of a runner a message. Its driver keeps it for the leaf's next visit, and nothing else changes. It
/// allocates no memory.
pub fn hear<D: Drivers>(message: Message, runs: &mut Runs, drivers: &mut D, block: &mut Block)
    requires runs { (of : Setup) × CanHear of message (D.states drivers.old) runs.old }
    requires room { HaveRoom (arenas_of runs.old) block.old.notes }
    ensures { (of : Setup) → CanHear of message (D.states drivers.old) runs.old →
        let old = event_side (D.states drivers.old) runs.old block.old in
        let new = event_side (D.states drivers.new) runs.new block.new in
        EventLeft of (Ok tt) old new (message_step message (kept_state of old)) }
{
    let Message {
        runner,
        uid,
        telling,
        at,
    } = message;
    begin(block, header_of(runner, uid, &telling, at));
    runs.last = at;
    let nodes = runs.runners[runner as usize - 1].arena.nodes.as_slice();
    tell_leaf(nodes, drivers, uid, telling);
}
