ghost use Rattle.std.specs.Prelude.{◌≡◌, ◌<◌, ◌-◌, ◌^◌, ◌++◌, ◌+◌, ℕ, ℤ, List, IsTrue, OnOk, Some, Option, length, slice_set};
ghost use Rattle.spec_script.specs.declared.value.Value.{Value as Content};
ghost use Rattle.spec_run.specs.Run.{changed_entries, changed_from, had, with_change};
ghost use Rattle.run_loop.specs.Telling.{with_fact};

use base_texts::NoMemory;
use run_arena::Block;
use run_driver::FactTable;
use spec_script::Value;
use std::alloc::Global;
use tree_board::{Past, Recorded};

/// How many facts are compared at once.
const GROUP: usize = 8;

/// Adds a fact to the changes where it differs from what was told, and records it as told. The
/// error is want of memory.
fn tell_fact(
    fact: u32,
    told: &mut i64,
    value: &i64,
    changes: &mut Vec<(u32, i64)>,
) -> Result<(), NoMemory>
    ensures changes { OnOk result ((rest : List (ℕ × ℤ)) →
        changes.new.items ++ rest ≡ changes.old.items ++ with_fact fact told.old value.now rest) }
    ensures told { OnOk result (told.new ≡ value.now) }
{
    if *told != *value {
        changes.push((fact, *value))?;
        *told = *value;
    }
    Ok(())
}

/// Adds the facts from this one on that differ from what was told to the changes, and records them
/// as told. The error is want of memory.
fn tell_each(
    first: u32,
    told: &mut [i64],
    facts: &[i64],
    changes: &mut Vec<(u32, i64)>,
) -> Result<(), NoMemory>
    requires same { length told.old ≡ length facts.now }
    requires few { first + length facts.now < 2 ^ 32 }
    ensures changes { OnOk result (changes.new.items ≡ changes.old.items ++ changed_from first told.old facts.now) }
    ensures told { OnOk result (told.new ≡ facts.now) }
{
    for (place, value) in facts.iter().enumerate() {
        tell_fact(first + place as u32, &mut told[place], value, changes)?;
    }
    Ok(())
}

/// Whether four facts are as they were told, with no branch for each of them.
#[inline]
fn same_four(told: &[i64], facts: &[i64]) -> bool
    requires { (length told.now ≡ 4) × (length facts.now ≡ 4) }
    ensures { IsTrue result → told.now ≡ facts.now }
{
    (told[0] == facts[0]) & (told[1] == facts[1]) & (told[2] == facts[2]) & (told[3] == facts[3])
}

/// Whether a group of facts is as it was told.
#[inline]
fn same_group(told: &[i64], facts: &[i64]) -> bool
    requires { (length told.now ≡ 8) × (length facts.now ≡ 8) }
    ensures { IsTrue result → told.now ≡ facts.now }
{
    same_four(&told[..4], &facts[..4]) & same_four(&told[4..], &facts[4..])
}

/// What `tell_each` does, for a group of facts, of which mostly none has changed.
#[inline]
fn tell_group(
    first: u32,
    told: &mut [i64],
    facts: &[i64],
    changes: &mut Vec<(u32, i64)>,
) -> Result<(), NoMemory>
    requires group { (length told.old ≡ 8) × (length facts.now ≡ 8) }
    requires few { first + 8 < 2 ^ 32 }
    ensures changes { OnOk result (changes.new.items ≡ changes.old.items ++ changed_from first told.old facts.now) }
    ensures told { OnOk result (told.new ≡ facts.now) }
{
    if same_group(told, facts) {
        return Ok(());
    }
    tell_each(first, told, facts, changes)
}

/// Adds the facts that differ from what was told to the changes, and records them as told. The
/// error is want of memory. Few facts change in a tick, so they are compared a group at a time.
pub fn tell_facts(
    told: &mut [i64],
    facts: &[i64],
    changes: &mut Vec<(u32, i64)>,
) -> Result<(), NoMemory>
    requires same { length told.old ≡ length facts.now }
    requires few { length facts.now < 2 ^ 32 }
    ensures changes { OnOk result (changes.new.items ≡ changes.old.items ++ changed_from 0 told.old facts.now) }
    ensures told { OnOk result (told.new ≡ facts.now) }
{
    let mut first = 0;
    while facts.len() - first >= GROUP {
        let end = first + GROUP;
        tell_group(
            first as u32,
            &mut told[first..end],
            &facts[first..end],
            changes,
        )?;
        first = end;
    }
    tell_each(first as u32, &mut told[first..], &facts[first..], changes)
}

/// Whether an entry had this value before.
fn already(old: &Option<Value>, new: &Value) -> bool
    ensures { result ≡ had old.now new.now }
{
    match (old, new) {
        (Some(Value::Int(old)), Value::Int(new)) => old == new,
        (Some(Value::Text(old)), Value::Text(new)) => old.list() == new.list(),
        _ => false,
    }
}

/// Adds an entry to the changes where it is new or differs from what it was. The error is want of memory.
fn tell_entry(
    alloc: Global,
    runner: u8,
    slot: u32,
    before: &Option<Value>,
    entry: &Option<Value>,
    changes: &mut Vec<(u8, u32, Value)>,
) -> Result<(), NoMemory>
    ensures { OnOk result ((rest : List (ℕ × ℕ × Content)) →
        changes.new.items ++ rest ≡ changes.old.items ++ with_change runner slot before.now entry.now rest) }
{
    if let Some(value) = entry {
        if !already(before, value) {
            changes.push((runner, slot, value.copy(alloc)?))?;
        }
    }
    Ok(())
}

/// Adds the entries of a runner's blackboard that are new or have changed since the event began to the changes. Only those
/// that were written are looked at. The error is want of memory.
pub fn tell_entries<P: Past>(
    alloc: Global,
    runner: u8,
    board: &Recorded<P>,
    changes: &mut Vec<(u8, u32, Value)>,
) -> Result<(), NoMemory>
    requires few { length board.now < 2 ^ 32 }
    ensures { OnOk result (changes.new.items ≡ changes.old.items ++ changed_entries runner 0 P.past board.now) }
{
    let entries = board.list();
    let mut slot = board.next_written(0);
    while slot < entries.len() {
        tell_entry(
            alloc,
            runner,
            slot as u32,
            board.past(slot),
            &entries[slot],
            changes,
        )?;
        slot = board.next_written(slot + 1);
    }
    Ok(())
}

/// Adds to a block the facts that differ from what was told, and records them as told. The error is
/// want of memory.
pub fn tell_facts_in(
    told: &mut Vec<i64>,
    facts: &FactTable,
    block: &mut Block,
) -> Result<(), NoMemory>
    requires same { length told.old.items ≡ length facts.now }
    requires few { length facts.now < 2 ^ 32 }
    ensures facts { OnOk result (block.new.facts.items ≡ block.old.facts.items ++ changed_from 0 told.old.items facts.now) }
    ensures told { OnOk result (told.new.items ≡ facts.now) }
    ensures rest { block.new ≡ record block.old { facts = block.new.facts } }
{
    tell_facts(told.as_mut_slice(), facts.list(), &mut block.facts)
}

/// Adds to a block the one fact that may differ from what was told, which has this value now, and records it as told. The
/// error is want of memory.
pub fn tell_fact_in(
    told: &mut Vec<i64>,
    fact: u32,
    value: i64,
    block: &mut Block,
) -> Result<(), NoMemory>
    requires { fact < length told.old.items }
    ensures facts { let now = slice_set told.old.items fact value in
        OnOk result (block.new.facts.items ≡ block.old.facts.items ++ changed_from 0 told.old.items now) }
    ensures told { OnOk result (told.new.items ≡ slice_set told.old.items fact value) }
    ensures rest { block.new ≡ record block.old { facts = block.new.facts } }
{
    tell_fact(fact, &mut told[fact as usize], &value, &mut block.facts)
}
