ghost use Rattle.std.specs.Prelude as prelude;
ghost use Rattle.std.specs.Prelude.{◌≡◌, ◌+◌, ◌≤◌, length};
ghost use Rattle.base_tables.specs.Outputs.{outputs_after};
ghost use Rattle.run_driver.specs.Ready.{expr_reach, fails_reach, ready_number};
ghost use Rattle.run_leaves.specs.Answers.{ended};
ghost use Rattle.spec_run.specs.Leaf.{length_of};
ghost use Rattle.spec_run.specs.declared.leaf.DriverKind.TheVariants as driver;

use crate::instances::{began, held, lasting_for, released};
use crate::ledger::Ledger;
use base_tables::LAST_MOMENT;
use base_texts::{Items, NoMemory};
use run_driver::{Call, Driver, FactTable, Hold, Inputs, Outs, ReadyExpr, ReadySort};
use spec_run::{Cause, DriverKind, Reply, Totals};
use spec_script::Value;
use spec_world::Telling;
use std::alloc::Global;

/// How long an action lasts, in milliseconds: what `length` gives where it begins, and from then on what its instance
/// keeps. The error is the cause of a fault of the expression, or `Range`: it gives no length.
fn length_at(
    length: &ReadyExpr,
    before: Hold,
    inputs: &Inputs,
    facts: &FactTable,
) -> Result<u64, Cause>
    requires table { expr_reach length.now ≤ 8 + prelude.length facts.now }
    ensures { result ≡ length_of (ready_number length.now) before inputs.now facts.now }
{
    if before.since.is_some() {
        return Ok(before.length.unwrap_or(0));
    }
    let number = length.value(inputs, facts)?;
    match u64::try_from(number) {
        Ok(ms) if ms <= LAST_MOMENT => Ok(ms),
        _ => Err(Cause::Range),
    }
}

/// The reply to a call of an action whose time is over, and the instance that is left.
fn end(
    call: &Call,
    fails: &Option<ReadyExpr>,
    before: Hold,
    facts: &mut FactTable,
    outs: &mut Outs,
) -> (Reply, Hold)
    requires fails { fails_reach fails.now ≤ 8 + call.now.row.now.facts }
    requires table { prelude.length facts.old ≡ call.now.row.now.facts }
    ensures reply { result.0 ≡ (ended call.now fails.now before facts.old).reply }
    ensures instance { result.1 ≡ (ended call.now fails.now before facts.old).instance }
    ensures facts { facts.new ≡ (ended call.now fails.now before facts.old).facts }
    ensures outs { outs.new ≡ outputs_after (ended call.now fails.now before facts.old) outs.old }
{
    match fails {
        None => call
            .row
            .complete(before, released(before), call.inputs, facts, outs),
        Some(test) => match test.is_true(call.inputs, facts) {
            Ok(true) => (Reply::Failure, released(before)),
            Ok(false) => call
                .row
                .complete(before, released(before), call.inputs, facts, outs),
            Err(cause) => (Reply::Broken(cause), before),
        },
    }
}

/// Answers the `timed` rows: actions that last a time, and may then fail.
#[derive(Debug, Drop)]
pub struct Timed {
    ledger: Ledger,
    ghost kind: { ledger.kind ≡ driver.Timed },
}

impl Timed {
    ghost use Rattle.base_tables.specs.DriverCalls.{kind_of_way};
    ghost use Rattle.spec_run.specs.Drivers.{new_driver};
    ghost use Rattle.run_driver.specs.Rules.{rule};
    ghost use Rattle.run_leaves.specs.Answers.{answer_since};

    /// A driver without instances that was not called yet; its mark is 0. It allocates no memory.
    pub fn new(alloc: Global) -> Timed
        ensures { result.ledger ≡ new_driver driver.Timed }
    {
        Timed {
            ledger: Ledger::new(alloc, DriverKind::Timed),
        }
    }

    /// The reply to a call of a leaf that began at `since`, and the instance that is left. Times are
    /// in milliseconds.
    #[inline(always)]
    fn answer(
        call: &Call,
        since: u64,
        before: Hold,
        facts: &mut FactTable,
        outs: &mut Outs,
    ) -> (Reply, Hold)
        requires since { since ≤ call.now.moment }
        requires kind { kind_of_way (rule call.now.row.now).way ≡ driver.Timed }
        requires table { length facts.old ≡ call.now.row.now.facts }
        ensures reply { result.0 ≡ (answer_since call.now since before facts.old).reply }
        ensures instance { result.1 ≡ (answer_since call.now since before facts.old).instance }
        ensures facts { facts.new ≡ (answer_since call.now since before facts.old).facts }
        ensures outs { outs.new ≡ outputs_after (answer_since call.now since before facts.old) outs.old }
    {
        match &call.row.sort {
            ReadySort::Timed { ms, fails } => {
                if call.moment - since < *ms {
                    return (Reply::Running, held(since, before));
                }
                end(call, fails, before, facts, outs)
            }
            ReadySort::TimedBy { length, fails } => {
                let ms = match length_at(length, before, call.inputs, facts) {
                    Ok(ms) => ms,
                    Err(cause) => return (Reply::Broken(cause), before),
                };
                if call.moment - since < ms {
                    return (Reply::Running, held(since, lasting_for(ms, before)));
                }
                end(call, fails, before, facts, outs)
            }
            _ => unreachable!(),
        }
    }
}

impl Driver for Timed {
    ghost state = { λ d. d.ledger };

    fn kind(&self) -> DriverKind {
        self.ledger.kind()
    }

    fn totals(&self) -> Totals {
        self.ledger.totals()
    }

    fn held(&self) -> u32 {
        self.ledger.held()
    }

    fn inputs(&self, instance: u32) -> &[Option<Value>] {
        self.ledger.inputs(instance)
    }

    fn prepare(&mut self, count: u32) -> Result<(), NoMemory> {
        self.ledger.prepare(count)
    }

    fn call(&mut self, call: &Call, facts: &mut FactTable, outs: &mut Outs) -> Reply {
        let before = self.ledger.instance(call.instance);
        let since = began(call, before);
        let (reply, left) = Self::answer(call, since, before, facts, outs);
        self.ledger
            .record_call(call.phase.asked(), call.instance, left);
        reply
    }

    fn halted(&mut self, instance: u32) {
        self.ledger.halted(instance)
    }

    fn tell(&mut self, _instance: u32, _telling: Telling) {}

    fn keep_inputs(&mut self, _instance: u32, _inputs: Items<Option<Value>>) {}
}
