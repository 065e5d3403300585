ghost use Rattle.std.specs.Prelude.{◌≡◌, []};

use run_arena::Block;
use spec_run::Header;

/// Begins a block: it has this header and nothing else, and its reserve is restored.
pub fn begin(block: &mut Block, header: Header)
    ensures header { block.new.header ≡ header }
    ensures notes { let room = block.old.notes.full in
        block.new.notes ≡ record { list = []; reserve = room; full = room } }
    ensures facts { block.new.facts.items ≡ [] }
    ensures entries { block.new.entries.items ≡ [] }
{
    block.header = header;
    block.notes.clear();
    block.facts.clear();
    block.entries.clear();
}
