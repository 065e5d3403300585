ghost use Rattle.std.specs.Prelude.{◌≡◌, ◌<◌, ◌^◌, IfOk, OnOk, OnErr, length, replicate, count_by};
ghost use Rattle.spec_run.specs.Drivers.{after_call, counted, instance_of, is_held, new_driver, prepared};
ghost use Rattle.base_tables.specs.DriverCalls.{after_halted, held_count};
ghost use Rattle.spec_run.specs.Leaf as leaf;
ghost use Rattle.spec_run.specs.declared.leaf.Phase.TheVariants as phase;

use crate::instances::{fresh, released};
use crate::tally::{count, no_calls};
use base_texts::NoMemory;
use run_driver::Hold;
use spec_run::{DriverKind, Phase, Totals};
use spec_script::Value;
use std::alloc::Global;
use std::marker::Model;

/// All that a driver keeps whose leaves are told nothing: its kind and its mark, its instances by their number, and
/// its totals.
#[derive(Debug, Drop)]
pub struct Ledger {
    kind: DriverKind,
    mark: u64,
    table: Vec<Hold>,
    totals: Totals,
}

impl Model for Ledger {
    ghost use Rattle.std.specs.Prelude.{◌<◌, ◌^◌, length};
    ghost use Rattle.spec_run.specs.Drivers.{DriverState};

    ghost Value = { DriverState };

    ghost view = { λ ledger. record { kind = ledger.kind; mark = ledger.mark; table = ledger.table.items; totals = ledger.totals } };

    ghost invariant = { λ ledger. length ledger.table.items < 2 ^ 32 };
}

/// How many instances of this table are held.
fn held_among(table: &[Hold]) -> u32
    requires { length table.now < 2 ^ 32 }
    ensures { result ≡ count_by is_held table.now }
{
    table
        .iter()
        .filter(|instance| instance.since.is_some())
        .count() as u32
}

/// A table of this many instances that were never held. The error is want of memory (out of
/// memory).
fn fresh_table(alloc: Global, count: u32) -> Result<Vec<Hold>, NoMemory>
    ensures { IfOk result (λ table. table.items ≡ replicate count leaf.fresh) }
{
    let table = vec![in alloc; fresh(); count as usize]?;
    Ok(table)
}

impl Ledger {
    /// The ledger of a new driver of this kind. It allocates no memory.
    pub fn new(alloc: Global, kind: DriverKind) -> Ledger
        ensures { result ≡ new_driver kind }
    {
        Ledger {
            kind,
            mark: 0,
            table: Vec::new(alloc),
            totals: no_calls(),
        }
    }

    /// The kind of its driver.
    pub fn kind(&self) -> DriverKind
        ensures { result ≡ self.now.kind }
    {
        self.kind
    }

    /// The counts of its calls so far, and their trail.
    pub fn totals(&self) -> Totals
        ensures { result ≡ self.now.totals }
    {
        self.totals
    }

    /// How many instances are held.
    pub fn held(&self) -> u32
        ensures { result ≡ held_count self.now }
    {
        held_among(self.table.as_slice())
    }

    /// Lends the inputs that an instance keeps: none. The instance is looked at for the contract alone.
    pub fn inputs(&self, instance: u32) -> &[Option<Value>]
        ensures { result.now ≡ (instance_of self.now instance).inputs }
    {
        if let Some(hold) = self.table.get(instance as usize) {
            let _ = &hold.since;
        }
        &[]
    }

    /// Makes this many new instances in place of those that were there. Where there is want of
    /// memory, nothing changes.
    pub fn prepare(&mut self, count: u32) -> Result<(), NoMemory>
        ensures ok { OnOk result (self.new ≡ prepared self.old count) }
        ensures err { OnErr result (self.new ≡ self.old) }
    {
        let alloc = *self.table.allocator();
        self.table = fresh_table(alloc, count)?;
        Ok(())
    }

    /// The instance of this number.
    #[inline(always)]
    pub fn instance(&self, instance: u32) -> Hold
        requires { instance < length self.now.table }
        ensures { result ≡ instance_of self.now instance }
    {
        self.table[instance as usize]
    }

    /// Counts a call to begin of a leaf that is not held, and leaves its instance as it is. The instance is looked at for
    /// the contract alone, which says that it was told nothing.
    #[inline(always)]
    pub fn count_start(&mut self, instance: u32)
        requires there { instance < length self.old.table }
        requires free { (instance_of self.old instance).since ≡ None }
        ensures totals { self.new ≡ record self.old { totals = counted self.old.totals phase.Start instance } }
        ensures left { leaf.released (instance_of self.old instance) ≡ instance_of self.old instance }
    {
        let hold = &self.table[instance as usize];
        let _ = &hold.since;
        count(&mut self.totals, Phase::Start, instance);
    }

    /// Counts a call for an instance, which leaves the instance so.
    #[inline(always)]
    pub fn record_call(&mut self, phase: Phase, instance: u32, left: Hold)
        requires { instance < length self.old.table }
        ensures { self.new ≡ after_call self.old phase instance left }
    {
        count(&mut self.totals, phase, instance);
        self.table[instance as usize] = left;
    }

    /// Counts a call of `halted`, after which the instance is not held.
    pub fn halted(&mut self, instance: u32)
        requires { instance < length self.old.table }
        ensures { self.new ≡ after_halted self.old instance }
    {
        let left = released(self.instance(instance));
        self.record_call(Phase::Halted, instance, left);
    }
}
