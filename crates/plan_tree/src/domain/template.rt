ghost use Rattle.std.specs.Prelude.{◌≡◌, IfOk};
ghost use Rattle.spec_world.specs.Worlds.{IsValidWorld, is_condition};
ghost use Rattle.spec_plan.specs.Templates.{is_template, templates_of, test_in};

use base_texts::NoMemory;
use spec_plan::{Template, Test};
use spec_world::{Row, RowSort, World};
use std::alloc::Global;

/// The test of a row that compares a fact, and none of any other.
pub fn test_of(sort: &RowSort) -> Option<Test>
    ensures { result ≡ test_in sort.now }
{
    match sort {
        RowSort::Is { fact, op, value } => Some(Test {
            fact: *fact,
            op: *op,
            value: *value,
        }),
        _ => None,
    }
}

fn is_condition(sort: &RowSort) -> bool
    ensures { result ≡ is_condition sort.now }
{
    matches!(
        sort,
        RowSort::Is { .. } | RowSort::When(_) | RowSort::Sensed
    )
}

fn is_template(row: &Row) -> bool
    ensures { result ≡ is_template row.now }
{
    !is_condition(&row.sort) && row.ports.list().is_empty() && !row.sets.list().is_empty()
}

/// The templates of the world in the order of its rows: the actions without input ports that have
/// an effect.
pub fn templates(alloc: Global, world: &World) -> Result<Vec<Template>, NoMemory>
    requires { IsValidWorld world.now }
    ensures { IfOk result (λ found. found.items ≡ templates_of world.now.rows) }
{
    let mut found = Vec::new(alloc);
    let mut number: u32 = 0;
    for row in world.rows.list() {
        if is_template(row) {
            found.push(Template { row: number })?;
        }
        number += 1;
    }
    Ok(found)
}
