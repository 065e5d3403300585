ghost use Rattle.std.specs.Prelude.{◌≡◌, ◌<◌, length, IsSome, OnOk, OnErr};
ghost use Rattle.spec_run.specs.Drivers.{DriverState, HoldsNothing, instance_of, prepared};
ghost use Rattle.base_tables.specs.DriverCalls.{after_halted, held_count, kind_of_way};
ghost use Rattle.base_tables.specs.Outputs.{outputs_after};
ghost use Rattle.run_driver.specs.Calls.{IsAskedIn, call_answer, call_left, kept_left, told_left};
ghost use Rattle.run_driver.specs.Rules.{rule};

use crate::call::Call;
use crate::facts::FactTable;
use crate::outs::Outs;
use base_texts::{Items, NoMemory};
use spec_run::{DriverKind, Reply, Totals};
use spec_script::Value;
use spec_world::Telling;

/// What answers for the leaves of one kind of row: it keeps an instance for each leaf that it
/// serves. No call but `prepare` allocates memory.
pub trait Driver: Drop {
    /// All that it keeps: its kind, its mark, its instances and its totals.
    ghost state: { Self → DriverState };

    /// The kind of rows that it serves.
    fn kind(&self) -> DriverKind
        ensures { result ≡ (state self.now).kind };

    /// Its counts of the calls to begin, to go on and to halt, and its trail.
    fn totals(&self) -> Totals
        ensures { result ≡ (state self.now).totals };

    /// How many of its instances are held.
    fn held(&self) -> u32
        ensures { result ≡ held_count (state self.now) };

    /// Lends what the inputs of this instance held when its leaf was started last. Those of leaves that are told nothing are
    /// not kept, and an instance that is not there has none.
    fn inputs(&self, instance: u32) -> &[Option<Value>]
        ensures { result.now ≡ (instance_of (state self.now) instance).inputs };

    /// Replaces its instances by this many new ones, none of them held or completed. Where there is
    /// want of memory (it is out of memory), nothing changes.
    fn prepare(&mut self, count: u32) -> Result<(), NoMemory>
        requires { HoldsNothing (state self.old) }
        ensures ok { OnOk result (state self.new ≡ prepared (state self.old) count) }
        ensures err { OnErr result (state self.new ≡ state self.old) };

    /// Answers: the leaf of an instance is visited, and begins or goes on.
    fn call(&mut self, call: &Call, facts: &mut FactTable, outs: &mut Outs) -> Reply
        requires there { call.now.instance < length (state self.old).table }
        requires phase { IsAskedIn call.now.phase (instance_of (state self.old) call.now.instance) call.now.moment }
        requires kind { kind_of_way (rule call.now.row.now).way ≡ (state self.old).kind }
        requires table { length facts.old ≡ call.now.row.now.facts }
        ensures reply { result ≡ (call_answer (state self.old) call.now facts.old).reply }
        ensures state { state self.new ≡ call_left (state self.old) call.now facts.old }
        ensures facts { facts.new ≡ (call_answer (state self.old) call.now facts.old).facts }
        ensures outs { outs.new ≡ outputs_after (call_answer (state self.old) call.now facts.old) outs.old };

    /// Halts the leaf of this instance: it is held no longer. The count of its completions stays.
    fn halted(&mut self, instance: u32)
        requires there { instance < length (state self.old).table }
        requires held { IsSome (instance_of (state self.old) instance).since }
        ensures { state self.new ≡ after_halted (state self.old) instance };

    /// Tells the leaf of this instance how it ended, or whether it holds, in place of what it was told before. It leaves
    /// every driver as it is but that of the rows whose leaves are told what they answer.
    fn tell(&mut self, instance: u32, telling: Telling)
        requires { instance < length (state self.old).table }
        ensures { state self.new ≡ told_left (state self.old) instance telling };

    /// Keeps what the inputs of the leaf of this instance hold, which is to be started, in place of those that it kept
    /// before. It leaves every driver as it is but that of the rows whose leaves are told what they answer.
    fn keep_inputs(&mut self, instance: u32, inputs: Items<Option<Value>>)
        requires { instance < length (state self.old).table }
        ensures { state self.new ≡ kept_left (state self.old) instance inputs };
}
