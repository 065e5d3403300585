ghost use Rattle.std.specs.Prelude.{◌≡◌, ◌<◌, ◌^◌, ℤ, List, IfOk, length, replicate, count_by};
ghost use Rattle.spec_run.specs.declared.leaf.DriverKind.TheVariants as driver;
ghost use Rattle.spec_run.specs.Drivers.{is_held};
ghost use Rattle.spec_run.specs.Leaf as leaf;
ghost use Rattle.base_tables.specs.Outputs.{no_outputs, outputs_after, outputs_left};

use crate::tally::{count, no_calls};
use base_texts::{Items, NoMemory};
use run_driver::{Call, Driver, FactTable, Outs, ReadySort};
use spec_run::{DriverKind, Instance, Phase, Reply, Totals};
use spec_script::Value;
use spec_world::Telling;
use std::alloc::Global;

/// An instance that was never held or started, and was told nothing. It allocates no memory.
fn fresh(alloc: Global) -> Instance
    ensures { result ≡ leaf.fresh }
{
    Instance {
        since: None,
        completions: 0,
        told: None,
        length: None,
        inputs: Items::of(Vec::new(alloc)),
    }
}

/// A table of this many such instances. The error is want of memory (out of memory).
fn fresh_table(alloc: Global, count: u32) -> Result<Vec<Instance>, NoMemory>
    ensures { IfOk result (λ table. table.items ≡ replicate count leaf.fresh) }
{
    let mut table = Vec::with_capacity(alloc, count as usize)?;
    for _ in 0..count {
        table.push(fresh(alloc))?;
    }
    Ok(table)
}

/// How many instances of this table are held.
fn held_among(table: &[Instance]) -> u32
    requires { length table.now < 2 ^ 32 }
    ensures { result ≡ count_by is_held table.now }
{
    let mut held = 0;
    for instance in table {
        if instance.since.is_some() {
            held += 1;
        }
    }
    held
}

/// Visits a condition: it answers what it was told last, and keeps it.
fn heed(kept: &mut Instance, outs: &mut Outs) -> Reply
    ensures reply { result ≡ leaf.sensed kept.old.told }
    ensures left { kept.new ≡ leaf.unheld kept.old }
    ensures outs { outs.new ≡ outputs_left result no_outputs outs.old }
{
    kept.since = None;
    match &kept.told {
        Some(Telling::Success(_)) => {
            outs.clear();
            Reply::Success
        }
        Some(Telling::Failure) | None => Reply::Failure,
    }
}

/// Visits an action that began at this time: it goes on, or ends as it was told, and the values that were told with
/// SUCCESS are moved into its outputs.
fn obey(kept: &mut Instance, since: u64, outs: &mut Outs) -> Reply
    ensures reply { (facts : List ℤ) → result ≡ (leaf.told_end kept.old.told since kept.old facts).reply }
    ensures left { (facts : List ℤ) → kept.new ≡ (leaf.told_end kept.old.told since kept.old facts).instance }
    ensures outs { (facts : List ℤ) → outs.new ≡ outputs_after (leaf.told_end kept.old.told since kept.old facts) outs.old }
{
    match kept.told.take() {
        None => {
            kept.since = Some(since);
            Reply::Running
        }
        Some(Telling::Failure) => {
            kept.since = None;
            Reply::Failure
        }
        Some(Telling::Success(values)) => {
            kept.since = None;
            *outs = Outs::told(values);
            Reply::Success
        }
    }
}

/// Answers the `told` rows: conditions, and actions that are held until they are told how they ended.
#[derive(Debug, Drop)]
pub struct Told {
    table: Vec<Instance>,
    totals: Totals,
    ghost few: { length table.items < 2 ^ 32 },
}

impl Told {
    ghost use Rattle.spec_run.specs.Drivers.{new_driver};
    ghost use Rattle.run_leaves.specs.Told.{told_state};

    /// A driver without instances that was not called yet; its mark is 0. It allocates no memory.
    pub fn new(alloc: Global) -> Told
        ensures { told_state result ≡ new_driver driver.Told }
    {
        Told {
            table: Vec::new(alloc),
            totals: no_calls(),
        }
    }
}

impl Driver for Told {
    ghost use Rattle.run_leaves.specs.Told.{told_state};

    ghost state = { told_state };

    fn kind(&self) -> DriverKind {
        DriverKind::Told
    }

    fn totals(&self) -> Totals {
        self.totals
    }

    fn held(&self) -> u32 {
        held_among(self.table.as_slice())
    }

    fn inputs(&self, instance: u32) -> &[Option<Value>] {
        match self.table.get(instance as usize) {
            Some(kept) => kept.inputs.list(),
            None => &[],
        }
    }

    fn prepare(&mut self, count: u32) -> Result<(), NoMemory> {
        let alloc = *self.table.allocator();
        self.table = fresh_table(alloc, count)?;
        Ok(())
    }

    fn call(&mut self, call: &Call, _facts: &mut FactTable, outs: &mut Outs) -> Reply {
        count(&mut self.totals, call.phase.asked(), call.instance);
        let kept = &mut self.table[call.instance as usize];
        match &call.row.sort {
            ReadySort::Sensed => heed(kept, outs),
            ReadySort::Told { .. } => {
                let since = kept.since.unwrap_or(call.moment);
                obey(kept, since, outs)
            }
            _ => unreachable!(),
        }
    }

    fn halted(&mut self, instance: u32) {
        count(&mut self.totals, Phase::Halted, instance);
        let kept = &mut self.table[instance as usize];
        kept.since = None;
        kept.told = None;
    }

    fn tell(&mut self, instance: u32, telling: Telling) {
        count(&mut self.totals, Phase::Told, instance);
        let kept = &mut self.table[instance as usize];
        kept.told = Some(telling);
    }

    fn keep_inputs(&mut self, instance: u32, inputs: Items<Option<Value>>) {
        let kept = &mut self.table[instance as usize];
        kept.inputs = inputs;
    }
}
