ghost use Rattle.std.specs.Prelude.{◌≡◌};

use base_texts::{Items, NoMemory};
use run_driver::{Call, Driver, Drivers, FactTable, Outs};
use run_leaves::{Conditions, Gate, Replay, Timed, Told};
use spec_run::{DriverKind, Reply, Totals};
use spec_script::Value;
use spec_world::Telling;
use std::alloc::Global;

/// The drivers of a session: one for each kind of row, in this order.
#[derive(Debug, Drop)]
pub struct Five {
    conditions: Conditions,
    timed: Timed,
    replay: Replay,
    gate: Gate,
    told: Told,
}

impl Five {
    ghost use Rattle.spec_session.specs.Opening.{new_drivers};
    ghost use Rattle.std.specs.Prelude.{◌<◌, ◌↔◌, IsTrue, OnOk, OnErr, slice_set};
    ghost use Rattle.spec_run.specs.Drivers.{HoldsNothing, driver_at, prepared};
    ghost use Rattle.base_tables.specs.DriverCalls.{instance_at, total_held};
    ghost use Rattle.host_session.specs.Five.{states_of};

    /// Drivers that were not called yet. It allocates nothing.
    pub fn new(alloc: Global) -> Five
        ensures { states_of result ≡ new_drivers }
    {
        Five {
            conditions: Conditions::new(alloc),
            timed: Timed::new(alloc),
            replay: Replay::new(alloc),
            gate: Gate::new(alloc),
            told: Told::new(alloc),
        }
    }

    /// Whether they count no instance that is held.
    fn count_none(&self) -> bool
        ensures { IsTrue result ↔ (total_held (states_of self.now) ≡ 0) }
    {
        let conditions = self.conditions.held() as u64;
        let timed = self.timed.held() as u64;
        let replay = self.replay.held() as u64;
        let gate = self.gate.held() as u64;
        let told = self.told.held() as u64;
        conditions + timed + replay + gate + told == 0
    }

    /// Lends what the inputs of an instance of the driver at a place held when its leaf was started last; none of one that
    /// is not there.
    pub fn inputs(&self, place: usize, instance: u32) -> &[Option<Value>]
        ensures { result.now ≡ (instance_at (states_of self.now) place instance).inputs }
    {
        match place {
            0 => self.conditions.inputs(instance),
            1 => self.timed.inputs(instance),
            2 => self.replay.inputs(instance),
            3 => self.gate.inputs(instance),
            4 => self.told.inputs(instance),
            _ => &[],
        }
    }

    /// Prepares the driver at a place. Where there is want of memory, all is as before.
    fn prepare_one(&mut self, place: usize, count: u32) -> Result<(), NoMemory>
        requires there { place < 5 }
        requires quiet { HoldsNothing (driver_at (states_of self.old) place) }
        ensures ok { let before = states_of self.old in
            OnOk result (states_of self.new ≡ slice_set before place (prepared (driver_at before place) count)) }
        ensures err { OnErr result (states_of self.new ≡ states_of self.old) }
    {
        match place {
            0 => self.conditions.prepare(count),
            1 => self.timed.prepare(count),
            2 => self.replay.prepare(count),
            3 => self.gate.prepare(count),
            _ => self.told.prepare(count),
        }
    }
}

impl Drivers for Five {
    ghost use Rattle.host_session.specs.Five.{states_of};

    ghost states = { states_of };

    fn count(&self) -> usize {
        5
    }

    fn place_of(&self, kind: DriverKind) -> Option<usize> {
        Some(match kind {
            DriverKind::Condition => 0,
            DriverKind::Timed => 1,
            DriverKind::Replay => 2,
            DriverKind::Gate => 3,
            DriverKind::Told => 4,
        })
    }

    fn totals(&self, place: usize) -> Totals {
        match place {
            0 => self.conditions.totals(),
            1 => self.timed.totals(),
            2 => self.replay.totals(),
            3 => self.gate.totals(),
            _ => self.told.totals(),
        }
    }

    fn holds_nothing(&self) -> bool {
        self.count_none()
    }

    fn prepare(&mut self, counts: &[u32]) -> Result<(), NoMemory> {
        for (place, count) in counts.iter().enumerate() {
            self.prepare_one(place, *count)?;
        }
        Ok(())
    }

    #[inline(always)]
    fn call(&mut self, place: usize, call: &Call, facts: &mut FactTable, outs: &mut Outs) -> Reply {
        match place {
            0 => self.conditions.call(call, facts, outs),
            1 => self.timed.call(call, facts, outs),
            2 => self.replay.call(call, facts, outs),
            3 => self.gate.call(call, facts, outs),
            _ => self.told.call(call, facts, outs),
        }
    }

    fn halted(&mut self, place: usize, instance: u32) {
        match place {
            0 => self.conditions.halted(instance),
            1 => self.timed.halted(instance),
            2 => self.replay.halted(instance),
            3 => self.gate.halted(instance),
            _ => self.told.halted(instance),
        }
    }

    fn tell(&mut self, place: usize, instance: u32, telling: Telling) {
        match place {
            0 => self.conditions.tell(instance, telling),
            1 => self.timed.tell(instance, telling),
            2 => self.replay.tell(instance, telling),
            3 => self.gate.tell(instance, telling),
            _ => self.told.tell(instance, telling),
        }
    }

    fn keep_inputs(&mut self, place: usize, instance: u32, inputs: Items<Option<Value>>) {
        match place {
            0 => self.conditions.keep_inputs(instance, inputs),
            1 => self.timed.keep_inputs(instance, inputs),
            2 => self.replay.keep_inputs(instance, inputs),
            3 => self.gate.keep_inputs(instance, inputs),
            _ => self.told.keep_inputs(instance, inputs),
        }
    }
}
