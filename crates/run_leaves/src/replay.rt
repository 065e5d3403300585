ghost use Rattle.std.specs.Prelude.{◌≡◌, ◌≤◌, length};
ghost use Rattle.spec_run.specs.declared.leaf.DriverKind.TheVariants as driver;
ghost use Rattle.spec_run.specs.Leaf as leaf;

use crate::instances::{began, completed, held};
use crate::ledger::Ledger;
use base_texts::{Items, NoMemory};
use run_driver::{Call, Driver, FactTable, Hold, Outs, ReadySort};
use spec_run::{DriverKind, Reply, Totals};
use spec_script::Value;
use spec_world::Telling;
use std::alloc::Global;

/// The outcome after this many completions; after the last outcome it stays the last.
fn outcome_at(outcomes: &[bool], completions: u8) -> bool
    ensures { result ≡ leaf.outcome_at outcomes.now completions }
{
    let last = outcomes.len().saturating_sub(1);
    match outcomes.get(last.min(completions as usize)) {
        Some(outcome) => *outcome,
        None => false,
    }
}

/// Answers the `replay` rows: actions that last, and then succeed or fail by a list of outcomes.
#[derive(Debug, Drop)]
pub struct Replay {
    ledger: Ledger,
    ghost kind: { ledger.kind ≡ driver.Replay },
}

impl Replay {
    ghost use Rattle.base_tables.specs.DriverCalls.{kind_of_way};
    ghost use Rattle.spec_run.specs.Drivers.{new_driver};
    ghost use Rattle.base_tables.specs.Outputs.{outputs_after};
    ghost use Rattle.run_driver.specs.Rules.{rule};
    ghost use Rattle.run_leaves.specs.Answers.{answer_since};

    /// A driver without instances that was not called yet; its mark is 0. It allocates no memory.
    pub fn new(alloc: Global) -> Replay
        ensures { result.ledger ≡ new_driver driver.Replay }
    {
        Replay {
            ledger: Ledger::new(alloc, DriverKind::Replay),
        }
    }

    /// The reply to a call of a leaf that began at `since`, and the instance that is left. Times are
    /// in milliseconds.
    #[inline(always)]
    fn answer(
        call: &Call,
        since: u64,
        before: Hold,
        facts: &mut FactTable,
        outs: &mut Outs,
    ) -> (Reply, Hold)
        requires since { since ≤ call.now.moment }
        requires kind { kind_of_way (rule call.now.row.now).way ≡ driver.Replay }
        requires table { length facts.old ≡ call.now.row.now.facts }
        ensures reply { result.0 ≡ (answer_since call.now since before facts.old).reply }
        ensures instance { result.1 ≡ (answer_since call.now since before facts.old).instance }
        ensures facts { facts.new ≡ (answer_since call.now since before facts.old).facts }
        ensures outs { outs.new ≡ outputs_after (answer_since call.now since before facts.old) outs.old }
    {
        let ReadySort::Replay { ms, outcomes } = &call.row.sort else {
            unreachable!()
        };
        if call.moment - since < *ms {
            return (Reply::Running, held(since, before));
        }
        if outcome_at(outcomes.list(), before.completions) {
            call.row
                .complete(before, completed(before), call.inputs, facts, outs)
        } else {
            (Reply::Failure, completed(before))
        }
    }
}

impl Driver for Replay {
    ghost state = { λ d. d.ledger };

    fn kind(&self) -> DriverKind {
        self.ledger.kind()
    }

    fn totals(&self) -> Totals {
        self.ledger.totals()
    }

    fn held(&self) -> u32 {
        self.ledger.held()
    }

    fn inputs(&self, instance: u32) -> &[Option<Value>] {
        self.ledger.inputs(instance)
    }

    fn prepare(&mut self, count: u32) -> Result<(), NoMemory> {
        self.ledger.prepare(count)
    }

    fn call(&mut self, call: &Call, facts: &mut FactTable, outs: &mut Outs) -> Reply {
        let before = self.ledger.instance(call.instance);
        let since = began(call, before);
        let (reply, left) = Self::answer(call, since, before, facts, outs);
        self.ledger
            .record_call(call.phase.asked(), call.instance, left);
        reply
    }

    fn halted(&mut self, instance: u32) {
        self.ledger.halted(instance)
    }

    fn tell(&mut self, _instance: u32, _telling: Telling) {}

    fn keep_inputs(&mut self, _instance: u32, _inputs: Items<Option<Value>>) {}
}
