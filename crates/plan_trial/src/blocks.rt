//! The blocks of modelled runs, which one run leaves to the next.

ghost use Rattle.std.specs.Prelude.{◌≡◌, ◌+◌, ◌≤◌, IfOk};

use base_texts::NoMemory;
use run_arena::{Block, block_for};
use std::alloc::Global;

/// Blocks for the events of a run that has at most so many leaves.
#[derive(Drop)]
pub struct Blocks {
    /// That of the last tick.
    pub ticked: Block,
    /// That of the finish.
    pub finished: Block,
    pub leaves: u32,
    ghost room: { (leaves + 1 ≤ ticked.notes.full) × (leaves + 1 ≤ finished.notes.full) },
}

/// New blocks for so many leaves. The error is want of memory.
fn new_blocks(alloc: Global, leaves: u32) -> Result<Blocks, NoMemory>
    ensures { IfOk result (λ blocks. blocks.leaves ≡ leaves) }
{
    Ok(Blocks {
        ticked: block_for(alloc, leaves)?,
        finished: block_for(alloc, leaves)?,
        leaves,
    })
}

/// Blocks for so many leaves: those of an earlier run where they do, which keep the room that its notes took, and else
/// new ones that do for twice as many. The error is want of memory.
pub(crate) fn blocks_for(
    alloc: Global,
    leaves: u32,
    spare: Option<Blocks>,
) -> Result<Blocks, NoMemory>
    ensures { IfOk result (λ blocks. leaves ≤ blocks.leaves) }
{
    if let Some(blocks) = spare {
        if leaves <= blocks.leaves {
            return Ok(blocks);
        }
    }
    new_blocks(alloc, leaves.saturating_mul(2))
}
