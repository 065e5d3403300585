ghost use Rattle.std.specs.Prelude.{map};

use base_texts::{Items, NoMemory};
use run_driver::{
    Call, Driver, Drivers, FactTable, Outs, call_at, find_kind, halt_at, hold_nothing, keep_at,
    prepare_all, tell_at, totals_of,
};
use spec_run::{DriverKind, Reply, Totals};
use spec_script::Value;
use spec_world::Telling;

/// The drivers that the host has boxed, as all below calls them.
#[derive(Drop)]
pub struct Boxes {
    pub drivers: Vec<Box<dyn Driver>>,
}

impl Drivers for Boxes {
    ghost states = { λ boxes. map (λ b. (Driver-box b).state b.value) boxes.drivers.items };

    fn count(&self) -> usize {
        self.drivers.len()
    }

    fn place_of(&self, kind: DriverKind) -> Option<usize> {
        find_kind(&self.drivers, kind)
    }

    fn totals(&self, place: usize) -> Totals {
        totals_of(&self.drivers[place])
    }

    fn holds_nothing(&self) -> bool {
        hold_nothing(&self.drivers)
    }

    fn prepare(&mut self, counts: &[u32]) -> Result<(), NoMemory> {
        prepare_all(&mut self.drivers, counts)
    }

    #[inline(always)]
    fn call(&mut self, place: usize, call: &Call, facts: &mut FactTable, outs: &mut Outs) -> Reply {
        call_at(&mut self.drivers, place, call, facts, outs)
    }

    fn halted(&mut self, place: usize, instance: u32) {
        halt_at(&mut self.drivers, place, instance)
    }

    fn tell(&mut self, place: usize, instance: u32, telling: Telling) {
        tell_at(&mut self.drivers, place, instance, telling)
    }

    fn keep_inputs(&mut self, place: usize, instance: u32, inputs: Items<Option<Value>>) {
        keep_at(&mut self.drivers, place, instance, inputs)
    }
}
