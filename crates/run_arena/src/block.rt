ghost use Rattle.std.specs.Prelude.{◌≡◌, ◌+◌, [], IfOk};

use crate::notes::{Notes, notes_of};
use base_texts::NoMemory;
use spec_run::Header;
use spec_script::Value;
use std::alloc::Global;

/// What one event gives to the trace, with reserved room for notes. The same block is used for all
/// events of a run.
#[derive(Debug, Drop)]
pub struct Block {
    pub header: Header,
    /// What happened, in order.
    pub notes: Notes,
    /// The facts that changed, by their number, with their new values.
    pub facts: Vec<(u32, i64)>,
    /// The blackboard entries that changed or are new: runner, slot and value.
    pub entries: Vec<(u8, u32, Value)>,
}

/// A block of no event yet, with reserved room for the notes of a run whose runners have this many
/// leaves together. Each event sets its own header. The error is want of memory (out of memory).
pub fn block_for(alloc: Global, leaves: u32) -> Result<Block, NoMemory>
    ensures notes { IfOk result (λ block. block.notes ≡ record { list = []; reserve = leaves + 1; full = leaves + 1 }) }
    ensures facts { IfOk result (λ block. block.facts.items ≡ []) }
    ensures entries { IfOk result (λ block. block.entries.items ≡ []) }
{
    Ok(Block {
        header: Header::Change {
            fact: 0,
            value: 0,
            at: 0,
        },
        notes: notes_of(alloc, leaves)?,
        facts: Vec::new(alloc),
        entries: Vec::new(alloc),
    })
}
