//! The behavior tree of a plan tree.

ghost use Rattle.std.specs.Prelude.{◌≡◌, ◌≤◌, ℕ, [], Option, Some, IfOk, IsUtf8};
ghost use Rattle.spec_tree.specs.declared.term.Guards.{Guards};
ghost use Rattle.spec_tree.specs.declared.term.Term.{roll-Term};
ghost use Rattle.base_tables.specs.SlotTables.{slot_table};
ghost use Rattle.spec_tree.specs.Terms.{scope_count};
ghost use Rattle.spec_tree.specs.Trees.{IsValid};
ghost use Rattle.spec_plan.specs.Forests.{Forest};
ghost use Rattle.plan_tree.specs.Sizes.{height, subtrees};
ghost use Rattle.plan_tree.specs.Planned.{IsPlanned};
ghost use Rattle.spec_plan.specs.Planned.{id_of, kind_of, no_guards, part_id, plain_node, terms_of};
ghost use Rattle.plan_tree.specs.Stands.{Stands, StandsFor};

use crate::node::Node;
use crate::tree::PlanTree;
use base_texts::{Items, Name, NoMemory};
use slab::Slab;
use spec_plan::Part;
use spec_tree::{Guards, Kind, Ports, Term, Tree};
use spec_world::{Row, World};
use std::alloc::Global;

/// No guards.
fn no_guards() -> Guards
    ensures { result ≡ no_guards }
{
    Guards {
        failure_if: None,
        success_if: None,
        skip_if: None,
        while_true: None,
        on_success: None,
        on_failure: None,
        post: None,
        on_halted: None,
    }
}

/// The kind of a node.
pub(crate) fn kind_of(part: Part) -> Kind
    ensures { result ≡ kind_of part }
{
    match part {
        Part::Goals | Part::Sequence(_) => Kind::ReactiveSequence,
        Part::Fallback => Kind::ReactiveFallback,
        Part::Condition(_) | Part::Action(_) => Kind::Leaf,
    }
}

/// Lends the ID of a row.
fn id_of(rows: &[Row], row: u32) -> &[u8]
    ensures id { result.now ≡ id_of rows.now row }
    ensures utf8 { IsUtf8 result.now }
{
    match rows.get(row as usize) {
        Some(row) => row.id.list(),
        None => b"",
    }
}

/// Lends the ID of a node.
pub(crate) fn part_id(rows: &[Row], part: Part) -> &[u8]
    ensures id { result.now ≡ part_id rows.now part }
    ensures utf8 { IsUtf8 result.now }
{
    match part {
        Part::Goals | Part::Sequence(_) => b"ReactiveSequence",
        Part::Fallback => b"ReactiveFallback",
        Part::Condition(row) | Part::Action(row) => id_of(rows, row),
    }
}

/// A node with these children, which is named by its ID alone.
pub(crate) fn plain_node(
    alloc: Global,
    rows: &[Row],
    part: Part,
    children: Items<Term>,
) -> Result<Term, NoMemory>
    ensures { IfOk result (λ term. term ≡ roll-Term (plain_node (kind_of part) (part_id rows.now part) children)) }
{
    let id = Name::copied(alloc, part_id(rows, part))?;
    let name = id.copy(alloc)?;
    Ok(Term {
        kind: kind_of(part),
        id,
        name,
        ports: Ports::none(),
        code: None,
        guards: no_guards(),
        autoremap: false,
        children,
    })
}

/// The terms of some trees that have at most so many levels.
#[cycle(walk)]
fn terms_of(
    alloc: Global,
    nodes: &Slab<Node>,
    rows: &[Row],
    keys: &[usize],
    levels: usize,
) -> Result<Items<Term>, NoMemory>
    ensures { IfOk result (λ terms. (parent : Option ℕ) (f : Forest) → Stands nodes.now parent keys.now f → height f ≤ levels →
        terms ≡ terms_of rows.now f) }
{
    let mut terms = Vec::with_capacity(alloc, keys.len())?;
    if levels == 0 {
        return Ok(Items::of(terms));
    }
    for key in keys {
        let Some(node) = nodes.get(*key) else {
            continue;
        };
        terms.push(term_of(alloc, nodes, rows, node, levels - 1)?)?;
    }
    Ok(Items::of(terms))
}

/// The term of a node, with at most so many levels below it.
#[cycle(walk)]
pub(crate) fn term_of(
    alloc: Global,
    nodes: &Slab<Node>,
    rows: &[Row],
    node: &Node,
    levels: usize,
) -> Result<Term, NoMemory>
    ensures { IfOk result (λ term. (key : ℕ) (below : Forest) → Stands nodes.now (Some key) node.now.children.items below →
        height below ≤ levels →
        term ≡ roll-Term (plain_node (kind_of node.now.part) (part_id rows.now node.now.part) (terms_of rows.now below))) }
{
    let children = terms_of(alloc, nodes, rows, &node.children, levels)?;
    plain_node(alloc, rows, node.part, children)
}

/// The behavior tree of a plan tree to which at most 120 sequences were added. Its ID is `Plan`. Its
/// nodes stand in the order of the plan tree's, so that its numbers are theirs. It is valid, opens no other tree, and
/// names no key.
pub fn tree_of(alloc: Global, t: &PlanTree, world: &World) -> Result<Tree, NoMemory>
    requires { (tree : Forest) × StandsFor t.now world.now tree × (subtrees tree ≤ 120) }
    ensures planned { IfOk result (λ planned. (tree : Forest) → StandsFor t.now world.now tree → IsPlanned world.now.rows tree planned) }
    ensures valid { IfOk result IsValid }
    ensures lone { IfOk result (λ planned. scope_count planned.term ≡ 0) }
    ensures nameless { IfOk result (λ planned. slot_table planned ≡ record { cells = []; named = [] }) }
{
    match t.nodes.get(t.root) {
        Some(root) => {
            let main = Name::copied(alloc, b"Plan")?;
            let term = term_of(alloc, &t.nodes, world.rows.list(), root, t.nodes.len())?;
            Ok(Tree { main, term })
        }
        None => unreachable!(),
    }
}
