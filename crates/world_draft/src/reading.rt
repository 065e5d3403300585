ghost use Rattle.std.specs.Prelude.{◌≡◌, ◌<◌, ◌≤◌, ◌==◌, ◌||◌, ◌++◌, ◌∷◌, [], true, false, Some, None, Err, pos, nat_abs, nat_lt, nat_eq, not, length, map, position, if◌then◌else◌, IfOk, OnOk, IsTrue, is_some, MatchOption, Option, option_map, bytes_eq};
ghost use Rattle.std.specs.List.{list_any};
ghost use Rattle.spec_world.specs.Worlds.{ids_of_rows};
ghost use Rattle.spec_world_file.specs.WorldFile as file;
ghost use Rattle.spec_world_file.specs.WorldFile.{closed, is_taken, knows_all, for_host, nothing_read, plain_row, repeats, row_with_fails, row_with_name, row_with_need, row_with_effect, row_with_out, runners_of, with_action, with_event, with_fact, with_goal, with_moment, with_open, with_rounds, with_row, with_runners, where_modelled, world_of};
ghost use Rattle.world_draft.specs.Readings.{Leaves};
ghost use Rattle.world_draft.specs.Drafts.{row_of, Allowed, DraftSays, HeadChecked};
ghost use Rattle.world_draft.specs.Rounds.{what_of};
ghost use Rattle.world_draft.specs.Taking.{TookEvent};

use crate::draft::Draft;
use crate::facts::Facts;
use crate::knowing::knows_all;
use crate::ports::Ports;
use crate::rounds::{Part, push_rounds};
use crate::rows::Rows;
use base_tables::{
    MOST_EVENTS, MOST_FACTS, MOST_GOALS, MOST_PORTS, MOST_ROWS, MOST_RUNNERS, is_reserved,
};
use base_texts::{Items, Name, NoMemory, Stop};
use spec_script::Expr;
use spec_world::{Event, Fact, Out, Row, RowSort, Set, What, World};
use spec_world_file::WorldFaultKind;
use std::alloc::Global;
use std::marker::Model;

/// What the lines so far have made. Facts and rows are numbered from 0 in the order of the file.
#[derive(Drop)]
pub struct Reading {
    facts: Facts,
    rows: Rows,
    draft: Option<Draft>,
    goals: Vec<u32>,
    runners: Option<u8>,
    events: Vec<Event>,
    moment: u64,
}

impl Model for Reading {
    ghost use Rattle.std.specs.Prelude.{option_map};
    ghost use Rattle.spec_world_file.specs.WorldFile.{Reading};
    ghost use Rattle.spec_script.specs.contracts.syntax.Expr as expr;
    ghost use Rattle.world_draft.specs.Drafts.{row_of, HasRoom};
    ghost use Rattle.std.specs.Coded.{codes};

    ghost Value = { Reading };

    ghost coded = { Prim.hlevel (codes, expr.the_row.coded) };

    ghost view = { λ r. record {
      facts = r.facts;
      rows = r.rows;
      open_row = option_map row_of r.draft;
      goals = r.goals.items;
      runners = r.runners;
      events = r.events.items;
      moment = r.moment;
    } };

    ghost invariant = { λ r. HasRoom r.rows r.draft };
}

impl Reading {
    /// Nothing is read yet.
    pub fn new(alloc: Global) -> Reading
        ensures { result ≡ nothing_read }
    {
        Reading {
            facts: Facts::new(alloc),
            rows: Rows::new(alloc),
            draft: None,
            goals: Vec::new(alloc),
            runners: None,
            events: Vec::new(alloc),
            moment: 0,
        }
    }

    /// What lines of a host are read after: the facts and the moment that were read, and as many runners as there may be.
    pub fn for_host(&self, alloc: Global) -> Result<Reading, NoMemory>
        ensures { IfOk result (λ reading. reading ≡ for_host self.now) }
    {
        Ok(Reading {
            facts: self.facts.copy(alloc)?,
            rows: Rows::new(alloc),
            draft: None,
            goals: Vec::new(alloc),
            runners: Some(MOST_RUNNERS),
            events: Vec::new(alloc),
            moment: self.moment,
        })
    }

    /// The world of all that was read, where no action is open.
    pub fn into_world(self, alloc: Global) -> Result<World, NoMemory>
        requires { self.open_row ≡ None }
        ensures { IfOk result (λ world. world ≡ world_of self) }
    {
        let Reading {
            facts,
            rows,
            draft,
            goals,
            runners,
            events,
            moment: _,
        } = self;
        drop(draft);
        let facts = facts.into_items(alloc)?;
        let rows = rows.into_items(alloc)?;
        Ok(World {
            facts: Items::of(facts),
            rows: Items::of(rows),
            goals: Items::of(goals),
            runners: runners.unwrap_or(1),
            events: Items::of(events),
        })
    }

    /// Takes an open action among the rows. No line can add to it any more.
    pub fn close(&mut self, alloc: Global) -> Result<(), NoMemory>
        ensures { OnOk result (self.new ≡ closed self.old) }
    {
        if self.is_open() {
            return self.close_open(alloc);
        }
        Ok(())
    }

    /// Takes the open action among the rows. It stands apart, since most lines find none and need no room for one.
    #[inline(never)]
    fn close_open(&mut self, alloc: Global) -> Result<(), NoMemory>
        ensures { OnOk result (self.new ≡ closed self.old) }
    {
        if let Some(draft) = self.draft.take() {
            self.rows.add(alloc, draft.into_row())?;
        }
        Ok(())
    }

    /// How many runners there are.
    pub fn runners(&self) -> u8
        ensures { result ≡ runners_of self.now }
    {
        self.runners.unwrap_or(1)
    }

    /// Takes the event that was read last, if one was.
    pub fn take_event(&mut self) -> Option<Event>
        ensures took { TookEvent self.old.events result self.new.events }
        ensures kept { self.new ≡ record self.old { events = self.new.events } }
    {
        self.events.pop()
    }

    /// Whether an event was read.
    pub fn has_events(&self) -> bool
        ensures { (length self.now.events == 0) ≡ not result }
    {
        !self.events.is_empty()
    }

    /// The number of the fact of this name. None where there is none.
    pub fn fact_number(&self, name: &[u8]) -> Option<u32>
        ensures { result ≡ file.fact_number self.now.facts name.now }
    {
        self.facts.number_of(name)
    }

    /// The number of the condition of this ID that compares a fact. None where there is none.
    pub fn comparison_number(&self, id: &[u8]) -> Option<u32>
        ensures { result ≡ file.comparison_number self.now.rows id.now }
    {
        self.rows.comparison_number(id)
    }

    /// Whether no further row may have this ID.
    pub fn has_taken(&self, id: &[u8]) -> bool
        ensures { result ≡ is_taken self.now.rows id.now }
    {
        is_reserved(id) || self.rows.has(id)
    }

    /// Whether each name in the expression by which a row answers is one of its ports or a fact.
    fn knows_sort(&self, ports: &Ports, sort: &RowSort) -> bool
        ensures { result ≡ file.knows_sort ports.now self.now.facts sort.now }
    {
        match sort {
            RowSort::When(e) => knows_all(&self.facts, ports, e),
            RowSort::Gate(e) => knows_all(&self.facts, ports, e),
            RowSort::TimedBy { length, .. } => knows_all(&self.facts, ports, length),
            _ => true,
        }
    }

    /// The ID and the ports of a new row, by what they are themselves. The fault `NoName` where a name in its expression
    /// is neither a port nor a fact, `TooMany` above 8 ports.
    fn allowed(
        &self,
        id: Name,
        ports: Ports,
        sort: &RowSort,
    ) -> Result<(Name, Ports), Stop<WorldFaultKind>>
        ensures { Allowed result id ports sort.now self.now }
    {
        if !self.knows_sort(&ports, sort) {
            drop(ports);
            return Err(Stop::Fault(WorldFaultKind::NoName));
        }
        if ports.len() > MOST_PORTS {
            drop(ports);
            return Err(Stop::Fault(WorldFaultKind::TooMany));
        }
        Ok((id, ports))
    }

    /// The ID and the ports of a new row. The fault `DoubleName` where the ID is taken or a port stands twice, and as for
    /// `allowed`.
    fn checked_head(
        &self,
        alloc: Global,
        id: Name,
        names: Vec<Name>,
        sort: &RowSort,
    ) -> Result<(Name, Ports), Stop<WorldFaultKind>>
        ensures { HeadChecked result id names.items sort.now self.now }
    {
        if self.has_taken(id.list()) {
            return Err(Stop::Fault(WorldFaultKind::DoubleName));
        }
        match Ports::of(alloc, names)? {
            Some(ports) => self.allowed(id, ports, sort),
            None => Err(Stop::Fault(WorldFaultKind::DoubleName)),
        }
    }

    /// The new row of this ID and these ports. Its faults are those of `checked_head`.
    pub fn draft_of(
        &self,
        alloc: Global,
        id: Name,
        names: Vec<Name>,
        sort: RowSort,
    ) -> Result<Draft, Stop<WorldFaultKind>>
        ensures { DraftSays result (record { id = id; ports = names.items }) sort self.now }
    {
        match self.checked_head(alloc, id, names, &sort) {
            Ok((id, ports)) => Ok(Draft::new(alloc, id, ports, sort)),
            Err(stop) => {
                drop(sort);
                Err(stop)
            }
        }
    }

    /// Adds a fact. The fault `DoubleName` where one has its name, `TooMany` above 1,024.
    pub fn add_fact(&mut self, alloc: Global, fact: Fact) -> Result<(), Stop<WorldFaultKind>>
        ensures { Leaves result self.new (λ said. said ≡ with_fact fact.name fact.opening self.old) }
    {
        if self.facts.has(fact.name.list()) {
            return Err(Stop::Fault(WorldFaultKind::DoubleName));
        }
        if self.facts.len() >= MOST_FACTS {
            return Err(Stop::Fault(WorldFaultKind::TooMany));
        }
        self.facts.add(alloc, fact)?;
        Ok(())
    }

    /// Adds a condition, of which nothing more is said. The fault `TooMany` above 1,024 rows.
    pub fn add_condition(&mut self, alloc: Global, row: Row) -> Result<(), Stop<WorldFaultKind>>
        requires open { self.old.open_row ≡ None }
        requires free { list_any (bytes_eq row.id) (ids_of_rows self.old.rows) ≡ false }
        ensures { Leaves result self.new (λ said. said ≡ with_row row self.old) }
    {
        if self.rows.len() >= MOST_ROWS {
            drop(row);
            return Err(Stop::Fault(WorldFaultKind::TooMany));
        }
        self.rows.add(alloc, row)?;
        Ok(())
    }

    /// Opens an action. The fault `TooMany` above 1,024 rows.
    pub fn open_action(&mut self, draft: Draft) -> Result<(), Stop<WorldFaultKind>>
        requires open { self.old.open_row ≡ None }
        requires free { list_any (bytes_eq draft.id) (ids_of_rows self.old.rows) ≡ false }
        ensures { Leaves result self.new (λ said. said ≡ with_action (row_of draft) self.old) }
    {
        if self.rows.len() >= MOST_ROWS {
            drop(draft);
            return Err(Stop::Fault(WorldFaultKind::TooMany));
        }
        drop(self.draft.replace(draft));
        Ok(())
    }

    /// Whether an action is open.
    pub fn is_open(&self) -> bool
        ensures { result ≡ is_some self.now.open_row }
    {
        self.draft.is_some()
    }

    /// Whether an action is open that is modelled, to which lines may add needs, effects and outputs by expressions.
    pub fn is_modelled(&self) -> bool
        ensures { result ≡ is_some (where_modelled self.now.open_row) }
    {
        match &self.draft {
            Some(draft) => draft.is_modelled(),
            None => false,
        }
    }

    /// Adds to the open action when it fails. The fault `BadLine` where none is open, and as for `Draft::add_fails`.
    pub fn add_fails(&mut self, expr: Expr) -> Result<(), Stop<WorldFaultKind>>
        ensures { Leaves result self.new (λ said. said ≡ with_open self.old.open_row self.old (row_with_fails self.old.facts expr)) }
    {
        match &mut self.draft {
            Some(draft) => draft.add_fails(&self.facts, expr),
            None => {
                drop(expr);
                Err(Stop::Fault(WorldFaultKind::BadLine))
            }
        }
    }

    /// Adds to the open action the need of the condition of this number. The fault `BadLine` where none is open, and as
    /// for `Draft::add_need`.
    pub fn add_need(&mut self, number: u32) -> Result<(), Stop<WorldFaultKind>>
        ensures { Leaves result self.new (λ said. said ≡ with_open self.old.open_row self.old (row_with_need number)) }
    {
        match &mut self.draft {
            Some(draft) => draft.add_need(number),
            None => Err(Stop::Fault(WorldFaultKind::BadLine)),
        }
    }

    /// Adds an effect to the open action. The fault `BadLine` where none is open, and as for `Draft::add_set`.
    pub fn add_set(&mut self, set: Set) -> Result<(), Stop<WorldFaultKind>>
        ensures { Leaves result self.new (λ said. said ≡ with_open self.old.open_row self.old (row_with_effect set)) }
    {
        match &mut self.draft {
            Some(draft) => draft.add_set(set),
            None => Err(Stop::Fault(WorldFaultKind::BadLine)),
        }
    }

    /// Adds to the open action an output for which a value may be told. The fault `BadLine` where none is open, and as for
    /// `Draft::add_name`.
    pub fn add_name(&mut self, alloc: Global, port: Name) -> Result<(), Stop<WorldFaultKind>>
        ensures { Leaves result self.new (λ said. said ≡ with_open self.old.open_row self.old (row_with_name port)) }
    {
        match &mut self.draft {
            Some(draft) => draft.add_name(alloc, port),
            None => {
                drop(port);
                Err(Stop::Fault(WorldFaultKind::BadLine))
            }
        }
    }

    /// Adds an output to the open action. The fault `BadLine` where none is open that is modelled, and as for
    /// `Draft::add_out`.
    pub fn add_out(&mut self, out: Out) -> Result<(), Stop<WorldFaultKind>>
        ensures { Leaves result self.new (λ said.
            said ≡ with_open (where_modelled self.old.open_row) self.old (row_with_out self.old.facts out.port out.expr)) }
    {
        if !self.is_modelled() {
            drop(out);
            return Err(Stop::Fault(WorldFaultKind::BadLine));
        }
        match &mut self.draft {
            Some(draft) => draft.add_out(&self.facts, out),
            None => {
                drop(out);
                Err(Stop::Fault(WorldFaultKind::BadLine))
            }
        }
    }

    /// Whether the condition of this number is a goal.
    fn has_goal(&self, number: u32) -> bool
        ensures { result ≡ list_any (nat_eq number) self.now.goals }
    {
        self.goals.iter().any(|goal| number == *goal)
    }

    /// Adds the condition of this number as a goal. The fault `DoubleName` where it is one, `TooMany` above 64.
    pub fn add_goal(&mut self, number: u32) -> Result<(), Stop<WorldFaultKind>>
        ensures { Leaves result self.new (λ said. said ≡ with_goal number self.old) }
    {
        if self.has_goal(number) {
            return Err(Stop::Fault(WorldFaultKind::DoubleName));
        }
        if self.goals.len() >= MOST_GOALS {
            return Err(Stop::Fault(WorldFaultKind::TooMany));
        }
        self.goals.push(number)?;
        Ok(())
    }

    /// Says how many runners there are. The fault `DoubleName` where an earlier line says it.
    pub fn set_runners(&mut self, count: u8) -> Result<(), Stop<WorldFaultKind>>
        ensures { Leaves result self.new (λ said. said ≡ with_runners count self.old) }
    {
        if self.runners.is_some() {
            return Err(Stop::Fault(WorldFaultKind::DoubleName));
        }
        self.runners = Some(count);
        Ok(())
    }

    /// Goes to a moment, in milliseconds. The fault `MomentBack` where it lies before the last one.
    pub fn move_to(&mut self, ms: u64) -> Result<(), Stop<WorldFaultKind>>
        ensures { Leaves result self.new (λ said. said ≡ with_moment ms self.old) }
    {
        if ms < self.moment {
            return Err(Stop::Fault(WorldFaultKind::MomentBack));
        }
        self.moment = ms;
        Ok(())
    }

    /// Adds an event at the last moment. The fault `TooMany` above 100,000.
    pub fn add_event(&mut self, what: What) -> Result<(), Stop<WorldFaultKind>>
        ensures { Leaves result self.new (λ said. said ≡ with_event what self.old) }
    {
        if self.events.len() >= MOST_EVENTS {
            drop(what);
            return Err(Stop::Fault(WorldFaultKind::TooMany));
        }
        self.events.push(Event {
            at: self.moment,
            what,
        })?;
        Ok(())
    }

    /// Adds rounds of events from the last moment on, up to and with this one, each `ms` milliseconds after the one before.
    /// The last moment is then that of the last round. The fault `MomentBack` where this moment lies before the last one,
    /// `TooMany` above 100,000 events.
    pub fn add_rounds(
        &mut self,
        last: u64,
        ms: u64,
        parts: &[Part],
    ) -> Result<(), Stop<WorldFaultKind>>
        requires some { 1 ≤ ms }
        requires near { ms ≤ 1000000000000 }
        requires early { last ≤ 1000000000000 }
        ensures { Leaves result self.new (λ said. said ≡ with_rounds last ms (map what_of parts.now) self.old) }
    {
        if last < self.moment {
            return Err(Stop::Fault(WorldFaultKind::MomentBack));
        }
        let steps = (last - self.moment) / ms;
        let more = (steps + 1).saturating_mul(parts.len() as u64);
        if more.saturating_add(self.events.len() as u64) > MOST_EVENTS as u64 {
            return Err(Stop::Fault(WorldFaultKind::TooMany));
        }
        push_rounds(&mut self.events, self.moment, ms, steps + 1, parts)?;
        self.moment += steps * ms;
        Ok(())
    }
}
