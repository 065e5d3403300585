//! The world of a modelled run, which is a copy with one runner and no events.

ghost use Rattle.std.specs.Prelude.{◌≡◌, IfOk};
ghost use Rattle.spec_plan.specs.Modelled.{modelled};

use base_texts::{Items, NoMemory, copy_names};
use spec_script::Expr;
use spec_world::{Fact, Out, Row, RowSort, World};
use std::alloc::Global;
use tree_copies::copy_expr;

/// Equal outputs.
fn copy_outs(alloc: Global, outs: &[Out]) -> Result<Items<Out>, NoMemory>
    ensures { IfOk result (λ copied. copied ≡ outs.now) }
{
    let mut copied = Vec::with_capacity(alloc, outs.len())?;
    for out in outs {
        copied.push(Out {
            port: out.port.copy(alloc)?,
            expr: copy_expr(alloc, &out.expr)?,
        })?;
    }
    Ok(Items::of(copied))
}

/// An equal test of failure, or none.
fn copy_fails(alloc: Global, fails: &Option<Expr>) -> Result<Option<Expr>, NoMemory>
    ensures { IfOk result (λ copied. copied ≡ fails.now) }
{
    match fails {
        Some(test) => Ok(Some(copy_expr(alloc, test)?)),
        None => Ok(None),
    }
}

/// An equal way to answer.
fn copy_sort(alloc: Global, sort: &RowSort) -> Result<RowSort, NoMemory>
    ensures { IfOk result (λ copied. copied ≡ sort.now) }
{
    match sort {
        RowSort::Is { fact, op, value } => Ok(RowSort::Is {
            fact: *fact,
            op: *op,
            value: *value,
        }),
        RowSort::When(test) => Ok(RowSort::When(copy_expr(alloc, test)?)),
        RowSort::Timed { ms, fails } => Ok(RowSort::Timed {
            ms: *ms,
            fails: copy_fails(alloc, fails)?,
        }),
        RowSort::TimedBy { length, fails } => Ok(RowSort::TimedBy {
            length: copy_expr(alloc, length)?,
            fails: copy_fails(alloc, fails)?,
        }),
        RowSort::Replay { ms, outcomes } => Ok(RowSort::Replay {
            ms: *ms,
            outcomes: Items::of(Vec::from_slice(alloc, outcomes.list())?),
        }),
        RowSort::Gate(test) => Ok(RowSort::Gate(copy_expr(alloc, test)?)),
        RowSort::Sensed => Ok(RowSort::Sensed),
        RowSort::Told { outs } => Ok(RowSort::Told {
            outs: copy_names(alloc, outs.list())?,
        }),
    }
}

/// An equal row.
fn copy_row(alloc: Global, row: &Row) -> Result<Row, NoMemory>
    ensures { IfOk result (λ copied. copied ≡ row.now) }
{
    // The sort is the last to be copied, since it would be dropped by its kinds wherever a later copy is refused.
    Ok(Row {
        id: row.id.copy(alloc)?,
        ports: copy_names(alloc, row.ports.list())?,
        needs: Items::of(Vec::from_slice(alloc, row.needs.list())?),
        sets: Items::of(Vec::from_slice(alloc, row.sets.list())?),
        outs: copy_outs(alloc, row.outs.list())?,
        sort: copy_sort(alloc, &row.sort)?,
    })
}

/// Equal rows.
fn copy_rows(alloc: Global, rows: &[Row]) -> Result<Items<Row>, NoMemory>
    ensures { IfOk result (λ copied. copied ≡ rows.now) }
{
    let mut copied = Vec::with_capacity(alloc, rows.len())?;
    for row in rows {
        copied.push(copy_row(alloc, row)?)?;
    }
    Ok(Items::of(copied))
}

/// Equal facts.
fn copy_facts(alloc: Global, facts: &[Fact]) -> Result<Items<Fact>, NoMemory>
    ensures { IfOk result (λ copied. copied ≡ facts.now) }
{
    let mut copied = Vec::with_capacity(alloc, facts.len())?;
    for fact in facts {
        copied.push(Fact {
            name: fact.name.copy(alloc)?,
            opening: fact.opening,
        })?;
    }
    Ok(Items::of(copied))
}

/// The world of a modelled run: one runner, and no events.
pub fn modelled(alloc: Global, world: &World) -> Result<World, NoMemory>
    ensures { IfOk result (λ copied. copied ≡ modelled world.now) }
{
    Ok(World {
        facts: copy_facts(alloc, world.facts.list())?,
        rows: copy_rows(alloc, world.rows.list())?,
        goals: Items::of(Vec::from_slice(alloc, world.goals.list())?),
        runners: 1,
        events: Items::of(Vec::new(alloc)),
    })
}
