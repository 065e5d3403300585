ghost use Rattle.std.specs.Prelude.{◌≡◌, ◌≤◌, ℕ, true, IfNone};
ghost use Rattle.spec_session.specs.Events.{EventGives, FinishGives, Leaves, NextGives, event_step, finish_misuse, finish_step, misuse};
ghost use Rattle.run_loop.specs.Steps.{CanCome};
ghost use Rattle.host_session.specs.Ending.{ended_of};

use crate::five::Five;
use crate::misuse::{fact_misuse, lack_misuse, moment_misuse, runner_misuse, telling_misuse};
use crate::steps::{finish_runner, make_event};
use base_texts::Stop;
use run_arena::Block;
use run_loop::{Runs, event_fits};
use spec_run::RunFault;
use spec_session::{Ended, Label, Misuse};
use spec_tree::Tree;
use spec_world::{Event, Telling, What, World};
use std::alloc::Global;
use std::collections::VecDeque;
use std::marker::Model;
use tree_board::Slots;

/// A tree in a world, which a host drives event by event. Contracts see what it keeps by the definition of a run.
#[derive(Drop)]
pub struct Session {
    pub(crate) alloc: Global,
    pub(crate) tree: Tree,
    pub(crate) slots: Slots,
    /// What is told of each node, by its uid less 1.
    pub(crate) labels: Vec<Label>,
    /// The world without its own events.
    pub(crate) world: World,
    /// The own events that are still to come.
    pub(crate) own: VecDeque<Event>,
    pub(crate) runs: Runs,
    pub(crate) five: Five,
    /// What the last event has left.
    pub(crate) block: Block,
}

impl Model for Session {
    ghost use Rattle.spec_session.specs.Sessions.{Sitting};
    ghost use Rattle.std.specs.Coded.{codes};
    ghost use Rattle.spec_script.specs.contracts.syntax.Expr as expr;
    ghost use Rattle.spec_tree.specs.contracts.term.Term as term;
    ghost use Rattle.spec_run.specs.contracts.memory.Memory as memory;

    ghost Value = { Sitting };

    ghost coded = { Prim.hlevel (codes, expr.the_row.coded, term.the_row.coded, memory.the_row.coded) };

    ghost use Rattle.host_session.specs.Sittings.{IsReady, sitting_of};

    ghost view = { sitting_of };

    ghost invariant = { IsReady };
}

/// How an event has ended.
fn ended(made: Result<(), Stop<RunFault>>) -> Result<(), Ended>
    ensures { result ≡ ended_of made }
{
    match made {
        Ok(()) => Ok(()),
        Err(Stop::Fault(fault)) => Err(Ended::Fault(fault)),
        Err(Stop::NoMemory) => Err(Ended::NoMemory),
    }
}

impl Session {
    ghost use Rattle.host_session.specs.Sittings.{setup_of};
    ghost use Rattle.spec_session.specs.Events.{what_misuse};
    ghost use Rattle.spec_run.specs.Served.{Setup};
    ghost use Rattle.host_session.specs.Typed.{IsTyped};
    ghost use Rattle.spec_world.specs.declared.world.What.TheVariants.{Tell};

    /// What is wrong with a telling of a leaf of this runner, in a session that takes events.
    fn tell_misuse(&self, event: &Event, runner: u8, telling: &Telling) -> Option<Misuse>
        ghost of: { Setup }
        requires of { of ≡ setup_of self.now }
        requires usable { self.now.usable ≡ true }
        requires what { (uid : ℕ) × (event.now.what ≡ Tell runner uid telling.now) }
        ensures { result ≡ what_misuse of.tree of.world event.now.what }
    {
        if let Some(misuse) = runner_misuse(self.world.runners, runner) {
            return Some(misuse);
        }
        match lack_misuse(event_fits(&self.runs, event)) {
            Some(misuse) => Some(misuse),
            None => telling_misuse(telling),
        }
    }

    /// What an event names that is not there, in a session that takes events.
    fn what_misuse(&self, event: &Event) -> Option<Misuse>
        requires { self.now.usable ≡ true }
        ensures misuse { result ≡ what_misuse self.now.tree self.now.world event.now.what }
        ensures typed { IsTyped event.now.what }
    {
        match &event.what {
            What::Tick(runner) | What::Halt(runner) => runner_misuse(self.world.runners, *runner),
            What::Change { fact, value } => {
                // By its type it has 64 bits.
                let _value = *value;
                fact_misuse(self.world.facts.list().len(), *fact)
            }
            What::Tell {
                runner,
                uid,
                telling,
            } => {
                // By its type it has 32 bits.
                let _uid = *uid;
                self.tell_misuse(event, *runner, telling)
            }
        }
    }

    /// Why an event is not taken; none where it is.
    fn misuse(&self, event: &Event) -> Option<Misuse>
        ensures misuse { result ≡ misuse self.now event.now }
        ensures can { IfNone result (CanCome (setup_of self.now) self.now.state.last event.now) }
    {
        if !self.runs.usable {
            return Some(Misuse::Over);
        }
        match moment_misuse(self.runs.last, event.at) {
            Some(misuse) => Some(misuse),
            None => self.what_misuse(event),
        }
    }

    /// Makes an event that is taken.
    fn make(&mut self, event: Event) -> Result<(), Ended>
        ghost of: { Setup }
        requires of { of ≡ setup_of self.old }
        requires usable { self.old.usable ≡ true }
        requires can { CanCome of self.old.state.last event }
        ensures { Leaves self.old (event_step self.old event) result self.new }
    {
        let made = make_event(
            self.alloc,
            &mut self.runs,
            event,
            &mut self.five,
            &mut self.block,
        );
        ended(made)
    }

    /// Makes an event at a moment, in milliseconds, and its block is then what `block` lends. An event that is not
    /// taken changes nothing.
    pub fn event(&mut self, what: What, at: u64) -> Result<(), Ended>
        ensures { EventGives self.old (record { at = at; what = what }) result self.new }
    {
        let event = Event { at, what };
        if let Some(misuse) = self.misuse(&event) {
            return Err(Ended::Misused(misuse));
        }
        self.make(event)
    }

    /// Makes the next of the world's own events, at its own moment. One that is not taken is still to come.
    pub fn own_event(&mut self) -> Result<(), Ended>
        ensures { NextGives self.old.own self.old result self.new }
    {
        let Some(next) = self.own.front() else {
            return Err(Ended::Misused(Misuse::NoEvent));
        };
        if let Some(misuse) = self.misuse(next) {
            return Err(Ended::Misused(misuse));
        }
        match self.own.pop_front() {
            Some(event) => self.make(event),
            None => Err(Ended::Misused(Misuse::NoEvent)),
        }
    }

    /// Why the finish of a runner is not taken; none where it is.
    fn finish_misuse(&self, runner: u8) -> Option<Misuse>
        ensures misuse { result ≡ finish_misuse self.now runner }
        ensures can { IfNone result ((self.now.usable ≡ true) × (1 ≤ runner) × (runner ≤ self.now.world.runners)) }
    {
        if self.runs.usable {
            runner_misuse(self.world.runners, runner)
        } else {
            Some(Misuse::Over)
        }
    }

    /// Makes the finish of a runner that is taken.
    fn make_finish(&mut self, runner: u8) -> Result<(), Ended>
        ghost of: { Setup }
        requires of { of ≡ setup_of self.old }
        requires usable { self.old.usable ≡ true }
        requires first { 1 ≤ runner }
        requires last { runner ≤ of.world.runners }
        ensures { Leaves self.old (finish_step self.old runner) result self.new }
    {
        let made = finish_runner(
            self.alloc,
            &mut self.runs,
            runner,
            &mut self.five,
            &mut self.block,
        );
        ended(made)
    }

    /// Finishes a runner at the moment of the last event: its root is reset, so that it holds nothing. A finish that is
    /// not taken changes nothing.
    pub fn finish(&mut self, runner: u8) -> Result<(), Ended>
        ensures { FinishGives self.old runner result self.new }
    {
        if let Some(misuse) = self.finish_misuse(runner) {
            return Err(Ended::Misused(misuse));
        }
        self.make_finish(runner)
    }
}
