ghost use Rattle.std.specs.Prelude.{◌≡◌, ◌<◌, ◌≤◌, ◌↔◌, ℕ, List, length, map, take, IsSome, IsTrue, OnOk, OnErr};
ghost use Rattle.spec_run.specs.Drivers.{DriverState, HoldsNothing, NothingHeld, driver_at, instance_of, place_of_kind, prepared, roster_prepared};
ghost use Rattle.base_tables.specs.DriverCalls.{IsThere, after_halted, held_count, instance_at, kind_of_way, roster_halted, roster_kept, roster_told, total_held};
ghost use Rattle.spec_run.specs.declared.leaf.DriverKind.TheVariants as kinds;
ghost use Rattle.base_tables.specs.Outputs.{outputs_after};
ghost use Rattle.run_driver.specs.Calls.{IsAskedIn, answer_at, call_answer, call_left, kept_left, roster_left, told_left};
ghost use Rattle.run_driver.specs.Rules.{rule};

use crate::call::Call;
use crate::driver::Driver;
use crate::facts::FactTable;
use crate::outs::Outs;
use base_texts::{Items, NoMemory};
use spec_run::{DriverKind, Reply, Totals};
use spec_script::Value;
use spec_world::Telling;

/// The drivers of a run, each at its place. No call but `prepare` allocates memory, and none
/// changes how many drivers there are or their order.
pub trait Drivers {
    /// All that the drivers keep, by their place.
    ghost states: { Self → List DriverState };

    /// How many drivers there are.
    fn count(&self) -> usize
        ensures { result ≡ length (states self.now) };

    /// The place of the first driver of a kind, which serves the rows of that kind.
    fn place_of(&self, kind: DriverKind) -> Option<usize>
        ensures { result ≡ place_of_kind (states self.now) kind };

    /// How often the driver at a place was called, and its trail.
    fn totals(&self, place: usize) -> Totals
        requires { place < length (states self.now) }
        ensures { result ≡ (driver_at (states self.now) place).totals };

    /// Whether no driver holds an instance.
    fn holds_nothing(&self) -> bool
        ensures { IsTrue result ↔ NothingHeld (states self.now) };

    /// Prepares the drivers in order, the first for the first of these numbers of instances. Where
    /// there is want of memory at one of them, those before it are prepared, and the others are as
    /// before.
    fn prepare(&mut self, counts: &[u32]) -> Result<(), NoMemory>
        requires counts { length counts.now ≤ length (states self.old) }
        requires quiet { NothingHeld (states self.old) }
        ensures ok { OnOk result (states self.new ≡ roster_prepared (states self.old) counts.now) }
        ensures err { OnErr result ((done : ℕ) × (states self.new ≡ roster_prepared (states self.old) (take done counts.now))) }
        ensures quiet { NothingHeld (states self.new) };

    /// Calls the driver at a place for one of its instances.
    fn call(&mut self, place: usize, call: &Call, facts: &mut FactTable, outs: &mut Outs) -> Reply
        requires there { IsThere (states self.old) place call.now.instance }
        requires phase { IsAskedIn call.now.phase (instance_at (states self.old) place call.now.instance) call.now.moment }
        requires kind { kind_of_way (rule call.now.row.now).way ≡ (driver_at (states self.old) place).kind }
        requires table { length facts.old ≡ call.now.row.now.facts }
        ensures reply { result ≡ (answer_at (states self.old) place call.now facts.old).reply }
        ensures states { states self.new ≡ roster_left (states self.old) place call.now facts.old }
        ensures facts { facts.new ≡ (answer_at (states self.old) place call.now facts.old).facts }
        ensures outs { outs.new ≡ outputs_after (answer_at (states self.old) place call.now facts.old) outs.old };

    /// Calls `halted` of the driver at a place for one of its instances.
    fn halted(&mut self, place: usize, instance: u32)
        requires there { IsThere (states self.old) place instance }
        requires held { IsSome (instance_at (states self.old) place instance).since }
        ensures { states self.new ≡ roster_halted (states self.old) place instance };

    /// Tells one of the instances of the driver at a place.
    fn tell(&mut self, place: usize, instance: u32, telling: Telling)
        requires there { IsThere (states self.old) place instance }
        requires kind { (driver_at (states self.old) place).kind ≡ kinds.Told }
        ensures { states self.new ≡ roster_told (states self.old) place instance telling };

    /// Makes one of the instances of the driver at a place keep what its inputs hold.
    fn keep_inputs(&mut self, place: usize, instance: u32, inputs: Items<Option<Value>>)
        requires there { IsThere (states self.old) place instance }
        requires kind { (driver_at (states self.old) place).kind ≡ kinds.Told }
        ensures { states self.new ≡ roster_kept (states self.old) place instance inputs };
}

/// The kind of one driver.
fn kind_of(driver: &Box<dyn Driver>) -> DriverKind
    ensures { result ≡ (state driver.now).kind }
{
    driver.kind()
}

/// How often one driver was called, and its trail.
pub fn totals_of(driver: &Box<dyn Driver>) -> Totals
    ensures { result ≡ (state driver.now).totals }
{
    driver.totals()
}

/// How many instances one driver holds.
fn held_of(driver: &Box<dyn Driver>) -> u32
    ensures { result ≡ held_count (state driver.now) }
{
    driver.held()
}

/// Prepares one driver for this many instances. Where there is want of memory, it is as before.
fn prepare_one(driver: &mut Box<dyn Driver>, count: u32) -> Result<(), NoMemory>
    requires { HoldsNothing (state driver.old) }
    ensures ok { OnOk result (state driver.new ≡ prepared (state driver.old) count) }
    ensures err { OnErr result (state driver.new ≡ state driver.old) }
{
    driver.prepare(count)
}

/// Calls one driver.
fn call_one(
    driver: &mut Box<dyn Driver>,
    call: &Call,
    facts: &mut FactTable,
    outs: &mut Outs,
) -> Reply
    requires there { call.now.instance < length (state driver.old).table }
    requires phase { IsAskedIn call.now.phase (instance_of (state driver.old) call.now.instance) call.now.moment }
    requires kind { kind_of_way (rule call.now.row.now).way ≡ (state driver.old).kind }
    requires table { length facts.old ≡ call.now.row.now.facts }
    ensures reply { result ≡ (call_answer (state driver.old) call.now facts.old).reply }
    ensures state { state driver.new ≡ call_left (state driver.old) call.now facts.old }
    ensures facts { facts.new ≡ (call_answer (state driver.old) call.now facts.old).facts }
    ensures outs { outs.new ≡ outputs_after (call_answer (state driver.old) call.now facts.old) outs.old }
{
    driver.call(call, facts, outs)
}

/// Calls `halted` of one driver.
fn halt_one(driver: &mut Box<dyn Driver>, instance: u32)
    requires there { instance < length (state driver.old).table }
    requires held { IsSome (instance_of (state driver.old) instance).since }
    ensures { state driver.new ≡ after_halted (state driver.old) instance }
{
    driver.halted(instance)
}

/// Tells an instance of one driver.
fn tell_one(driver: &mut Box<dyn Driver>, instance: u32, telling: Telling)
    requires { instance < length (state driver.old).table }
    ensures { state driver.new ≡ told_left (state driver.old) instance telling }
{
    driver.tell(instance, telling)
}

/// Makes an instance of one driver keep what its inputs hold.
fn keep_one(driver: &mut Box<dyn Driver>, instance: u32, inputs: Items<Option<Value>>)
    requires { instance < length (state driver.old).table }
    ensures { state driver.new ≡ kept_left (state driver.old) instance inputs }
{
    driver.keep_inputs(instance, inputs)
}

/// The place of the first of these drivers of a kind; none where there is no such driver.
pub fn find_kind(roster: &[Box<dyn Driver>], kind: DriverKind) -> Option<usize>
    ensures { result ≡ place_of_kind (map (λ b. state b) roster.now) kind }
{
    for (place, driver) in roster.iter().enumerate() {
        if kind_of(driver) == kind {
            return Some(place);
        }
    }
    None
}

/// Whether these drivers count no instance that is held.
fn count_none(roster: &[Box<dyn Driver>]) -> bool
    ensures { IsTrue result ↔ (total_held (map (λ b. state b) roster.now) ≡ 0) }
{
    for driver in roster {
        if held_of(driver) != 0 {
            return false;
        }
    }
    true
}

/// Whether none of these drivers holds an instance.
pub fn hold_nothing(roster: &[Box<dyn Driver>]) -> bool
    ensures { IsTrue result ↔ NothingHeld (map (λ b. state b) roster.now) }
{
    count_none(roster)
}

/// Prepares these drivers in order, each for its number of instances. Where there is want of
/// memory, those before that driver are prepared, and the others are as before.
pub fn prepare_all(roster: &mut Vec<Box<dyn Driver>>, counts: &[u32]) -> Result<(), NoMemory>
    requires counts { length counts.now ≤ length (map (λ b. state b) roster.old.items) }
    requires quiet { NothingHeld (map (λ b. state b) roster.old.items) }
    ensures ok { OnOk result (map (λ b. state b) roster.new.items ≡ roster_prepared (map (λ b. state b) roster.old.items) counts.now) }
    ensures err { OnErr result ((done : ℕ) ×
        (map (λ b. state b) roster.new.items ≡ roster_prepared (map (λ b. state b) roster.old.items) (take done counts.now))) }
    ensures quiet { NothingHeld (map (λ b. state b) roster.new.items) }
{
    for (place, count) in counts.iter().enumerate() {
        prepare_one(&mut roster[place], *count)?;
    }
    Ok(())
}

/// Calls the driver at a place.
pub fn call_at(
    roster: &mut Vec<Box<dyn Driver>>,
    place: usize,
    call: &Call,
    facts: &mut FactTable,
    outs: &mut Outs,
) -> Reply
    requires there { IsThere (map (λ b. state b) roster.old.items) place call.now.instance }
    requires phase { IsAskedIn call.now.phase (instance_at (map (λ b. state b) roster.old.items) place call.now.instance) call.now.moment }
    requires kind { kind_of_way (rule call.now.row.now).way ≡ (driver_at (map (λ b. state b) roster.old.items) place).kind }
    requires table { length facts.old ≡ call.now.row.now.facts }
    ensures reply { result ≡ (answer_at (map (λ b. state b) roster.old.items) place call.now facts.old).reply }
    ensures states { map (λ b. state b) roster.new.items ≡ roster_left (map (λ b. state b) roster.old.items) place call.now facts.old }
    ensures facts { facts.new ≡ (answer_at (map (λ b. state b) roster.old.items) place call.now facts.old).facts }
    ensures outs { outs.new ≡ outputs_after (answer_at (map (λ b. state b) roster.old.items) place call.now facts.old) outs.old }
{
    call_one(&mut roster[place], call, facts, outs)
}

/// Calls `halted` of the driver at a place.
pub fn halt_at(roster: &mut Vec<Box<dyn Driver>>, place: usize, instance: u32)
    requires there { IsThere (map (λ b. state b) roster.old.items) place instance }
    requires held { IsSome (instance_at (map (λ b. state b) roster.old.items) place instance).since }
    ensures { map (λ b. state b) roster.new.items ≡ roster_halted (map (λ b. state b) roster.old.items) place instance }
{
    halt_one(&mut roster[place], instance)
}

/// Tells one of the instances of the driver at a place.
pub fn tell_at(roster: &mut Vec<Box<dyn Driver>>, place: usize, instance: u32, telling: Telling)
    requires there { IsThere (map (λ b. state b) roster.old.items) place instance }
    requires kind { (driver_at (map (λ b. state b) roster.old.items) place).kind ≡ kinds.Told }
    ensures { map (λ b. state b) roster.new.items ≡ roster_told (map (λ b. state b) roster.old.items) place instance telling }
{
    tell_one(&mut roster[place], instance, telling)
}

/// Makes one of the instances of the driver at a place keep what its inputs hold.
pub fn keep_at(
    roster: &mut Vec<Box<dyn Driver>>,
    place: usize,
    instance: u32,
    inputs: Items<Option<Value>>,
)
    requires there { IsThere (map (λ b. state b) roster.old.items) place instance }
    requires kind { (driver_at (map (λ b. state b) roster.old.items) place).kind ≡ kinds.Told }
    ensures { map (λ b. state b) roster.new.items ≡ roster_kept (map (λ b. state b) roster.old.items) place instance inputs }
{
    keep_one(&mut roster[place], instance, inputs)
}
