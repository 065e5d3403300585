ghost use Rattle.std.specs.Prelude.{◌∷◌, [], Result, Ok, Err, OnOk};
ghost use Rattle.spec_outside.specs.Appending.{AppendedPrefix};
ghost use Rattle.run_arena.specs.Blocks.{seen};
ghost use Rattle.text_lines.specs.declared.stop.TextStop.{TextStop};
ghost use Rattle.text_trace.specs.Watches.{StaysWatcher, WasShown, Watched};

use run_arena::Block;
use std::alloc::Global;
use text_lines::TextStop;

/// Who is shown the block of each event of a run, in order: a logger that writes them, or one that
/// counts.
pub trait Watch {
    /// What it writes of a block, what it has written and counted, and what it borrows.
    ghost state: { Self → Watched };

    /// What it does when it is shown blocks, with this result, leads from the first state to the second.
    ghost shows: { Self → Result (Unit {0}) TextStop → Self → Type 0 };

    /// Takes a block. `TextStop::WriteFault` comes only where its count of failed writes rose in this
    /// call, and `TextStop::NoMemory` where it is out of memory.
    fn show(&mut self, alloc: Global, block: &Block) -> Result<(), TextStop>
        ensures shown { OnOk result (WasShown (state self.old) (state self.new) (seen block.now ∷ [])) }
        ensures prefix { AppendedPrefix (state self.old).written (state self.new).written ((state self.old).text (seen block.now)) }
        ensures watcher { StaysWatcher result (state self.old) (state self.new) }
        ensures shows { shows self.old result self.new };

    /// It may be shown no block.
    ghost shows_none: { (w : Self) → shows w (Ok tt) w };

    /// It may be shown some blocks, and then others.
    ghost shows_both: { (a b c : Self) → (result : Result (Unit {0}) TextStop) → shows a (Ok tt) b → shows b result c → shows a result c };

    /// A run may stop after some blocks.
    ghost shows_stop: { (a b : Self) → (why : TextStop) → shows a (Ok tt) b → shows a (Err why) b };
}
