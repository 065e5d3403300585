ghost use Rattle.run_arena.specs.Blocks.{seen};
ghost use Rattle.text_trace.specs.Going.{Shows};
ghost use Rattle.text_trace.specs.Watches.{Shown, StaysWatcher};

use crate::ended::Ended;
use crate::watch::Watch;
use base_texts::Stop;
use run_arena::Block;
use spec_run::RunFault;
use std::alloc::Global;
use text_lines::TextStop;

/// Shows the block of an event that ended so, where memory lasted in the event.
pub fn show_event<W: Watch>(
    alloc: Global,
    made: Result<(), Stop<RunFault>>,
    block: &Block,
    watch: &mut W,
) -> Result<Ended, TextStop>
    ensures shown { Shows made result (W.state watch.old) (W.state watch.new) (seen block.now) }
    ensures watcher { StaysWatcher result (W.state watch.old) (W.state watch.new) }
    ensures shows { Shown W.shows result watch.old watch.new }
{
    let ended = match made {
        Ok(()) => Ended::Done,
        Err(Stop::Fault(_)) => Ended::Faulted,
        Err(Stop::NoMemory) => return Err(TextStop::NoMemory),
    };
    watch.show(alloc, block)?;
    Ok(ended)
}
