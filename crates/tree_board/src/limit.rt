ghost use Rattle.std.specs.Prelude.{◌≡◌, ◌+◌, ◌≤◌, IfOk, IfSome, length, nat_le};
ghost use Rattle.std.specs.List.{flat_map};
ghost use Rattle.spec_tree.specs.declared.term.Term.{out-Term};
ghost use Rattle.spec_tree.specs.Boards.{given, scripts_of, slots, value_keys};
ghost use Rattle.tree_board.specs.Namings.{name_count, own_name_count, script_names};

use crate::counting::has_few_cells;
use base_texts::{NoMemory, Shared};
use spec_script::Script;
use spec_tree::{Guards, Kind, Port, PortValue, Term, Tree};
use std::alloc::Global;

/// Counts down from `left` by the names of a script, where there is one. None where it has more than `left`; so in all
/// functions here.
fn left_by_script(script: &Option<Shared<Script>>, left: usize) -> Option<usize>
    ensures { IfSome result (λ rest. length (script_names (given script.now)) + rest ≤ left) }
{
    match script {
        Some(script) => left.checked_sub(script.get().stmts.named()),
        None => Some(left),
    }
}

/// Counts down by the names of the code and the guards of a node.
fn left_by_scripts(code: &Option<Shared<Script>>, guards: &Guards, left: usize) -> Option<usize>
    ensures { IfSome result (λ rest. length (script_names (scripts_of code.now guards.now)) + rest ≤ left) }
{
    let left = left_by_script(code, left)?;
    let left = left_by_script(&guards.failure_if, left)?;
    let left = left_by_script(&guards.success_if, left)?;
    let left = left_by_script(&guards.skip_if, left)?;
    let left = left_by_script(&guards.while_true, left)?;
    let left = left_by_script(&guards.on_success, left)?;
    let left = left_by_script(&guards.on_failure, left)?;
    let left = left_by_script(&guards.post, left)?;
    left_by_script(&guards.on_halted, left)
}

/// Counts down by the keys that the ports of a node name.
fn left_by_values(ports: &[Port], left: usize) -> Option<usize>
    ensures { IfSome result (λ rest. length (flat_map (λ port. value_keys port.value) ports.now) + rest ≤ left) }
{
    let mut rest = left;
    for port in ports {
        if let PortValue::Key(_) = &port.value {
            rest = rest.checked_sub(1)?;
        }
    }
    Some(rest)
}

/// Counts down by what a node names: a SubTree node names no more than its ports as well.
fn left_by_node(node: &Term, left: usize) -> Option<usize>
    ensures { IfSome result (λ rest. own_name_count (out-Term node.now) + rest ≤ left) }
{
    let left = left_by_scripts(&node.code, &node.guards, left)?;
    let left = left_by_values(node.ports.list(), left)?;
    match node.kind {
        Kind::SubTree => left.checked_sub(node.ports.list().len()),
        _ => Some(left),
    }
}

/// Counts down by what the nodes of a term name.
fn left_by_term(term: &Term, left: usize) -> Option<usize>
    ensures { IfSome result (λ rest. name_count term.now + rest ≤ left) }
{
    let mut rest = left_by_node(term, left)?;
    for child in term.children.list() {
        rest = left_by_term(child, rest)?;
    }
    Some(rest)
}

/// Whether a tree has at most so many slots. Where it names no more keys than that, nothing is allocated.
pub fn is_within_slots(alloc: Global, tree: &Tree, most: u32) -> Result<bool, NoMemory>
    ensures { IfOk result (λ within. within ≡ nat_le (length (slots tree.now)) most) }
{
    if left_by_term(&tree.term, most as usize).is_some() {
        return Ok(true);
    }
    has_few_cells(alloc, tree, most)
}
