ghost use Rattle.std.specs.Prelude.{◌≡◌, ◌<◌, ◌≤◌, ◌+◌, ℕ, Ok, length};
ghost use Rattle.std.specs.Ordering.{int_cmp};
ghost use Rattle.spec_script.specs.Operators.{compares};
ghost use Rattle.spec_run.specs.declared.leaf.DriverKind.TheVariants as driver;
ghost use Rattle.spec_run.specs.declared.leaf.Instance.{Instance as Held};
ghost use Rattle.spec_run.specs.declared.leaf.Phase.TheVariants as phase;
ghost use Rattle.spec_run.specs.Drivers.{after_call, instance_of};
ghost use Rattle.base_tables.specs.Outputs.{no_outputs, outputs_left};
ghost use Rattle.run_driver.specs.Ready.{expr_reach, ready_test};
ghost use Rattle.run_leaves.specs.Conditions.{left_by, reply_by};

use crate::instances::released;
use crate::ledger::Ledger;
use base_texts::{Items, NoMemory};
use run_driver::{
    Call, CallPhase, Driver, FactTable, Hold, Inputs, Outs, ReadyExpr, ReadyRow, ReadySort,
};
use spec_run::{DriverKind, Phase, Reply, Totals};
use spec_script::{Cmp, Value};
use spec_world::Telling;
use std::alloc::Global;

/// Whether the first number compares so with the second.
fn holds(op: Cmp, first: i64, second: i64) -> bool
    ensures { result ≡ compares op (int_cmp first second) }
{
    let order = first.cmp(&second);
    match op {
        Cmp::Equal => order.is_eq(),
        Cmp::Differ => order.is_ne(),
        Cmp::Less => order.is_lt(),
        Cmp::AtMost => order.is_le(),
        Cmp::More => order.is_gt(),
        Cmp::AtLeast => order.is_ge(),
    }
}

/// The instance that a condition leaves after this reply: not held, or unchanged where there is a
/// fault.
fn left_by(reply: Reply, instance: Hold) -> Hold
    ensures { result ≡ left_by reply instance }
{
    match reply {
        Reply::Broken(_) => instance,
        Reply::Running | Reply::Success | Reply::Failure => released(instance),
    }
}

/// The reply of a condition that is true or not. It has no outputs.
#[inline(always)]
fn replied(truth: bool, outs: &mut Outs) -> Reply
    ensures reply { result ≡ reply_by (Ok truth) }
    ensures outs { outs.new ≡ outputs_left result no_outputs outs.old }
{
    if !truth {
        return Reply::Failure;
    }
    outs.clear();
    Reply::Success
}

/// The reply of a condition by this expression. It is not inlined, so that the comparison of a fact
/// does without the stack room for its calls.
#[inline(never)]
fn tested(test: &ReadyExpr, inputs: &Inputs, facts: &FactTable, outs: &mut Outs) -> Reply
    requires { expr_reach test.now ≤ 8 + length facts.now }
    ensures reply { result ≡ reply_by (ready_test test.now inputs.now facts.now) }
    ensures outs { outs.new ≡ outputs_left result no_outputs outs.old }
{
    match test.is_true(inputs, facts) {
        Ok(truth) => replied(truth, outs),
        Err(cause) => Reply::Broken(cause),
    }
}

/// Counts a call of a condition to go on, after this reply. It is not inlined, since no visit of a
/// condition leaves it RUNNING.
#[inline(never)]
fn record_running(ledger: &mut Ledger, instance: u32, reply: Reply)
    requires { instance < length ledger.old.table }
    ensures { ledger.new ≡ after_call ledger.old phase.Running instance (left_by reply (instance_of ledger.old instance)) }
{
    let left = left_by(reply, ledger.instance(instance));
    ledger.record_call(Phase::Running, instance, left);
}

/// Answers the `is` and `when` rows: conditions, which are never held.
#[derive(Debug, Drop)]
pub struct Conditions {
    ledger: Ledger,
    ghost kind: { ledger.kind ≡ driver.Condition },
}

impl Conditions {
    ghost use Rattle.base_tables.specs.DriverCalls.{kind_of_way};
    ghost use Rattle.spec_run.specs.Drivers.{new_driver};
    ghost use Rattle.spec_run.specs.Leaf.{answer_by};
    ghost use Rattle.base_tables.specs.Outputs.{outputs_after};
    ghost use Rattle.run_driver.specs.Rules.{rule};

    /// A driver without instances that was not called yet; its mark is 0. It allocates no memory.
    pub fn new(alloc: Global) -> Conditions
        ensures { result.ledger ≡ new_driver driver.Condition }
    {
        Conditions {
            ledger: Ledger::new(alloc, DriverKind::Condition),
        }
    }

    /// The reply of a leaf. A condition has no outputs, and leaves its instance not held.
    #[inline(always)]
    fn answer(row: &ReadyRow, inputs: &Inputs, facts: &FactTable, outs: &mut Outs) -> Reply
        requires kind { kind_of_way (rule row.now).way ≡ driver.Condition }
        requires table { length facts.now ≡ row.now.facts }
        ensures reply { (since now : ℕ) (before : Held) →
            result ≡ (answer_by (rule row.now).way (rule row.now) since before inputs.now facts.now now).reply }
        ensures instance { (since now : ℕ) (before : Held) →
            left_by result before ≡ (answer_by (rule row.now).way (rule row.now) since before inputs.now facts.now now).instance }
        ensures facts { (since now : ℕ) (before : Held) →
            facts.now ≡ (answer_by (rule row.now).way (rule row.now) since before inputs.now facts.now now).facts }
        ensures outs { (since now : ℕ) (before : Held) →
            outs.new ≡ outputs_after (answer_by (rule row.now).way (rule row.now) since before inputs.now facts.now now) outs.old }
    {
        match &row.sort {
            ReadySort::Is { fact, op, value } => {
                replied(holds(*op, facts.get(*fact), *value), outs)
            }
            ReadySort::When(test) => tested(test, inputs, facts, outs),
            _ => unreachable!(),
        }
    }
}

impl Driver for Conditions {
    ghost state = { λ d. d.ledger };

    fn kind(&self) -> DriverKind {
        self.ledger.kind()
    }

    fn totals(&self) -> Totals {
        self.ledger.totals()
    }

    fn held(&self) -> u32 {
        self.ledger.held()
    }

    fn inputs(&self, instance: u32) -> &[Option<Value>] {
        self.ledger.inputs(instance)
    }

    fn prepare(&mut self, count: u32) -> Result<(), NoMemory> {
        self.ledger.prepare(count)
    }

    fn call(&mut self, call: &Call, facts: &mut FactTable, outs: &mut Outs) -> Reply {
        if let CallPhase::Running = call.phase {
            let reply = Self::answer(call.row, call.inputs, facts, outs);
            record_running(&mut self.ledger, call.instance, reply);
            return reply;
        }
        self.ledger.count_start(call.instance);
        Self::answer(call.row, call.inputs, facts, outs)
    }

    fn halted(&mut self, instance: u32) {
        self.ledger.halted(instance)
    }

    fn tell(&mut self, _instance: u32, _telling: Telling) {}

    fn keep_inputs(&mut self, _instance: u32, _inputs: Items<Option<Value>>) {}
}
