ghost use Rattle.std.specs.Prelude.{◌≡◌, ◌==◌, ◌++◌, ◌∷◌, [], OnOk, Some, nat_eq, bytes_eq};
ghost use Rattle.std.specs.List.{list_any};
ghost use Rattle.spec_world.specs.Worlds as worlds;
ghost use Rattle.spec_world_file.specs.WorldFile.{plain_row, row_with_effect, row_with_fails, row_with_name, row_with_need, row_with_out};
ghost use Rattle.world_draft.specs.Readings.{Leaves};
ghost use Rattle.world_draft.specs.Drafts.{fails_said, row_of};

use crate::facts::Facts;
use crate::knowing::knows_all;
use crate::ports::Ports;
use base_tables::{MOST_EFFECTS, MOST_NEEDS, MOST_OUTPUTS};
use base_texts::{Items, Name, NoMemory, Stop};
use spec_script::Expr;
use spec_world::{Out, Row, RowSort, Set};
use spec_world_file::WorldFaultKind;
use std::alloc::Global;
use std::mem::replace;

/// A row to which lines may still add.
#[derive(Drop)]
pub struct Draft {
    id: Name,
    ports: Ports,
    sort: RowSort,
    needs: Vec<u32>,
    sets: Vec<Set>,
    outs: Vec<Out>,
}

impl Draft {
    /// A row of which nothing more is said.
    pub fn new(alloc: Global, id: Name, ports: Ports, sort: RowSort) -> Draft
        ensures { row_of result ≡ plain_row id ports sort }
    {
        Draft {
            id,
            ports,
            sort,
            needs: Vec::new(alloc),
            sets: Vec::new(alloc),
            outs: Vec::new(alloc),
        }
    }

    /// The row. It allocates nothing.
    pub fn into_row(self) -> Row
        ensures { result ≡ row_of self }
    {
        let Draft {
            id,
            ports,
            sort,
            needs,
            sets,
            outs,
        } = self;
        Row {
            id,
            ports: ports.into_names(),
            sort,
            needs: Items::of(needs),
            sets: Items::of(sets),
            outs: Items::of(outs),
        }
    }

    /// Whether the row is an action that is modelled.
    pub fn is_modelled(&self) -> bool
        ensures { result ≡ worlds.is_modelled (row_of self.now).sort }
    {
        match &self.sort {
            RowSort::Timed { .. } | RowSort::TimedBy { .. } => true,
            RowSort::Replay { .. } => true,
            RowSort::Gate(_) => true,
            _ => false,
        }
    }

    /// Adds when the action fails. The fault `BadLine` where it is not timed, `DoubleName` where it has such a line,
    /// `NoName` where a name is neither a port nor a fact.
    pub fn add_fails(&mut self, facts: &Facts, expr: Expr) -> Result<(), Stop<WorldFaultKind>>
        ensures added { Leaves result (row_of self.new) (λ said. said ≡ row_with_fails facts.now expr (row_of self.old)) }
        ensures id { self.new.id ≡ self.old.id }
    {
        let known = knows_all(facts, &self.ports, &expr);
        match &mut self.sort {
            RowSort::Timed { fails, .. } => set_fails(fails, known, expr),
            RowSort::TimedBy { fails, .. } => set_fails(fails, known, expr),
            _ => {
                drop(expr);
                Err(Stop::Fault(WorldFaultKind::BadLine))
            }
        }
    }

    /// Adds an output for which a value may be told. The fault `BadLine` where the row is not told, `DoubleName` where it
    /// has the output, `TooMany` above 8.
    pub fn add_name(&mut self, alloc: Global, port: Name) -> Result<(), Stop<WorldFaultKind>>
        ensures added { Leaves result (row_of self.new) (λ said. said ≡ row_with_name port (row_of self.old)) }
        ensures id { self.new.id ≡ self.old.id }
    {
        match &mut self.sort {
            RowSort::Told { outs } => {
                if has_name(outs.list(), port.list()) {
                    drop(port);
                    return Err(Stop::Fault(WorldFaultKind::DoubleName));
                }
                if outs.list().len() >= MOST_OUTPUTS {
                    drop(port);
                    return Err(Stop::Fault(WorldFaultKind::TooMany));
                }
                push_name(alloc, outs, port)?;
                Ok(())
            }
            _ => {
                drop(port);
                Err(Stop::Fault(WorldFaultKind::BadLine))
            }
        }
    }

    /// Whether the row needs the condition of this number.
    fn has_need(&self, number: u32) -> bool
        ensures { result ≡ list_any (nat_eq number) (row_of self.now).needs }
    {
        self.needs.iter().any(|need| number == *need)
    }

    /// Adds the need of the condition of this number. The fault `DoubleName` where the row has it, `TooMany` above 16.
    pub fn add_need(&mut self, number: u32) -> Result<(), Stop<WorldFaultKind>>
        ensures added { Leaves result (row_of self.new) (λ said. said ≡ row_with_need number (row_of self.old)) }
        ensures id { self.new.id ≡ self.old.id }
    {
        if self.has_need(number) {
            return Err(Stop::Fault(WorldFaultKind::DoubleName));
        }
        if self.needs.len() >= MOST_NEEDS {
            return Err(Stop::Fault(WorldFaultKind::TooMany));
        }
        self.needs.push(number)?;
        Ok(())
    }

    /// Whether an effect is on the fact of this number.
    fn has_set(&self, fact: u32) -> bool
        ensures { result ≡ list_any (λ set. nat_eq fact set.fact) (row_of self.now).sets }
    {
        self.sets.iter().any(|set| fact == set.fact)
    }

    /// Adds an effect. The fault `DoubleName` where one is on its fact, `TooMany` above 16.
    pub fn add_set(&mut self, set: Set) -> Result<(), Stop<WorldFaultKind>>
        ensures added { Leaves result (row_of self.new) (λ said. said ≡ row_with_effect set (row_of self.old)) }
        ensures id { self.new.id ≡ self.old.id }
    {
        if self.has_set(set.fact) {
            return Err(Stop::Fault(WorldFaultKind::DoubleName));
        }
        if self.sets.len() >= MOST_EFFECTS {
            return Err(Stop::Fault(WorldFaultKind::TooMany));
        }
        self.sets.push(set)?;
        Ok(())
    }

    /// Whether an output writes this port.
    fn writes(&self, port: &[u8]) -> bool
        ensures { result ≡ list_any (λ out. bytes_eq port.now out.port) (row_of self.now).outs }
    {
        self.outs.iter().any(|out| port == out.port.list())
    }

    /// Adds an output. The fault `DoubleName` where one writes its port, `NoName` where a name is neither a port nor a
    /// fact, `TooMany` above 8.
    pub fn add_out(&mut self, facts: &Facts, out: Out) -> Result<(), Stop<WorldFaultKind>>
        ensures added { Leaves result (row_of self.new) (λ said. said ≡ row_with_out facts.now out.port out.expr (row_of self.old)) }
        ensures id { self.new.id ≡ self.old.id }
    {
        if self.writes(out.port.list()) {
            drop(out);
            return Err(Stop::Fault(WorldFaultKind::DoubleName));
        }
        if !knows_all(facts, &self.ports, &out.expr) {
            drop(out);
            return Err(Stop::Fault(WorldFaultKind::NoName));
        }
        if self.outs.len() >= MOST_OUTPUTS {
            drop(out);
            return Err(Stop::Fault(WorldFaultKind::TooMany));
        }
        self.outs.push(out)?;
        Ok(())
    }
}

/// Sets when an action fails, where no line says it yet. The fault `DoubleName` where one does, `NoName` where not all
/// names of the expression are known.
fn set_fails(fails: &mut Option<Expr>, known: bool, expr: Expr) -> Result<(), Stop<WorldFaultKind>>
    ensures { Leaves result fails.new (λ said. said ≡ fails_said fails.old known expr) }
{
    if fails.is_some() {
        drop(expr);
        return Err(Stop::Fault(WorldFaultKind::DoubleName));
    }
    if !known {
        drop(expr);
        return Err(Stop::Fault(WorldFaultKind::NoName));
    }
    drop(replace(fails, Some(expr)));
    Ok(())
}

/// Whether one of the names is this.
fn has_name(names: &[Name], name: &[u8]) -> bool
    ensures { result ≡ list_any (bytes_eq name.now) names.now }
{
    names.iter().any(|other| name == other.list())
}

/// Adds a name after the others.
fn push_name(alloc: Global, names: &mut Items<Name>, name: Name) -> Result<(), NoMemory>
    ensures { OnOk result (names.new ≡ names.old ++ name ∷ []) }
{
    let mut list = replace(names, Items::of(Vec::new(alloc))).into_vec();
    list.push(name)?;
    drop(replace(names, Items::of(list)));
    Ok(())
}
