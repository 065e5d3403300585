ghost use Rattle.std.specs.Prelude.{◌≡◌, ◌<◌, ◌+◌, ◌-◌, ◌*◌, ◌++◌, Some, None, IfOk, OnOk, replicate};
ghost use Rattle.spec_tree.specs.declared.term.Term.{out-Term};
ghost use Rattle.base_tables.specs.SlotTables.{slot_table};
ghost use Rattle.spec_run.specs.Leaves.{row_of};
ghost use Rattle.spec_tree.specs.Terms.{leaf_ids, own_leaf_id};
ghost use Rattle.base_tables.specs.Runnable.{IsRunnable};
ghost use Rattle.spec_world.specs.Runnable.{IsRunnableWorld};
ghost use Rattle.run_arena.specs.Joining.{Joins, ids_lent};
ghost use Rattle.spec_run.specs.Joins.{first_missing, leaf_lacks, place_by};
ghost use Rattle.run_arena.specs.Nodes.{at_rest as rested};
ghost use Rattle.run_arena.specs.Made.{IsArenaOf};
ghost use Rattle.run_arena.specs.Resolving.{named_slot};

use crate::arena::Arena;
use crate::book::{Book, Slotting};
use crate::frame::frames_for;
use crate::laying::nodes_of;
use crate::nodes::Kept;
use crate::resolving::Setting;
use crate::rows::IndexedWorld;
use crate::scripts::no_guards;
use base_texts::{Name, NoMemory, Shared, Stop};
use run_driver::{Drivers, kind_of};
use spec_run::{JoinFault, Memo, Status};
use spec_tree::{Kind, Term, Tree};
use std::alloc::Global;
use std::cell::RefCell;
use std::marker::Brand;
use tree_board::Slots;

/// Adds the ID of a node that is a leaf. The error is want of memory.
fn add_own_id<'a>(node: &'a Term, ids: &mut Vec<&'a Name>) -> Result<(), NoMemory>
    ensures { OnOk result (ids_lent ids.new.items ≡
        ids_lent ids.old.items ++ own_leaf_id (out-Term node.now).kind (out-Term node.now).id) }
{
    match node.kind {
        Kind::Leaf => {
            ids.push(&node.id)?;
            Ok(())
        }
        _ => Ok(()),
    }
}

/// Adds the IDs of the leaves of a term, in pre-order. The error is want of memory.
fn add_ids<'a>(term: &'a Term, ids: &mut Vec<&'a Name>) -> Result<(), NoMemory>
    ensures { OnOk result (ids_lent ids.new.items ≡ ids_lent ids.old.items ++ leaf_ids term.now) }
{
    add_own_id(term, ids)?;
    for child in term.children.list() {
        add_ids(child, ids)?;
    }
    Ok(())
}

/// The place of the driver that serves the leaves of an ID. The fault is what is missing for them.
fn place_of<D: Drivers>(
    alloc: Global,
    id: &Name,
    world: &IndexedWorld,
    drivers: &D,
) -> Result<usize, Stop<JoinFault>>
    ensures fault { Joins result (leaf_lacks world.now.rows (D.states drivers.now) id.now) }
    ensures place { IfOk result (λ place. place_by (row_of world.now.rows id.now) (D.states drivers.now) ≡ Some place) }
{
    match world.find(id) {
        Some(found) => {
            let kind = kind_of(found.row);
            match drivers.place_of(kind) {
                Some(place) => Ok(place),
                None => Err(Stop::Fault(JoinFault::NoDriver { kind })),
            }
        }
        None => {
            let id = id.copy(alloc)?;
            Err(Stop::Fault(JoinFault::NoRow { id }))
        }
    }
}

/// Checks that nothing is missing for the leaves of these IDs. The fault is what is missing for the first leaf for which
/// something is missing.
fn check_ids<D: Drivers>(
    alloc: Global,
    ids: &[&Name],
    world: &IndexedWorld,
    drivers: &D,
) -> Result<(), Stop<JoinFault>>
    ensures { Joins result (first_missing world.now.rows (D.states drivers.now) (ids_lent ids.now)) }
{
    for id in ids {
        place_of(alloc, *id, world, drivers)?;
    }
    Ok(())
}

/// What this many nodes keep before their first visit, or want of memory.
pub(crate) fn at_rest(alloc: Global, count: usize) -> Result<Vec<Kept>, NoMemory>
    ensures { IfOk result (λ kept. kept.items ≡ replicate count rested) }
{
    let rest = Kept {
        status: Status::Idle,
        memo: Memo::Nothing,
        held: false,
    };
    Ok(vec![in alloc; rest; count]?)
}

/// Checks that nothing is missing for the leaves of a term. The fault is what is missing for the first leaf in pre-order
/// for which something is missing.
fn check_leaves<D: Drivers>(
    alloc: Global,
    term: &Term,
    world: &IndexedWorld,
    drivers: &D,
) -> Result<(), Stop<JoinFault>>
    ensures { Joins result (first_missing world.now.rows (D.states drivers.now) (leaf_ids term.now)) }
{
    let mut ids = Vec::new(alloc);
    add_ids(term, &mut ids)?;
    check_ids(alloc, ids.as_slice(), world, drivers)
}

/// The arena of the first runner, for a tree of which nothing is missing. The error is want of memory.
fn arena_with<D: Drivers, O: Slotting>(setting: &Setting<O>, drivers: &D) -> Result<Arena, NoMemory>
    requires tree { IsRunnable setting.now.tree.now }
    requires world { IsRunnableWorld setting.now.world.now }
    requires joined { first_missing setting.now.world.now.rows (D.states drivers.now) (leaf_ids setting.now.tree.now.term) ≡ None }
    ensures { IfOk result (λ arena. IsArenaOf setting.now.tree.now setting.now.world.now (D.states drivers.now) 1 arena) }
{
    let mut next = vec![in setting.alloc; 0u32; drivers.count()]?;
    let nodes = nodes_of(setting, drivers, &mut next)?;
    let kept = at_rest(setting.alloc, nodes.len())?;
    let frames = frames_for(setting.alloc, &setting.tree.term)?;
    Ok(Arena {
        runner: 1,
        nodes,
        kept,
        frames,
    })
}

/// The arena of the first runner, for a tree with these slots of which nothing is missing. The error is want of memory.
fn arena_over<D: Drivers, O: Slotting>(
    alloc: Global,
    tree: &Tree,
    slots: &Slots,
    world: &IndexedWorld,
    drivers: &D,
) -> Result<Arena, NoMemory>
    requires tree { IsRunnable tree.now }
    requires slots { slots.now ≡ slot_table tree.now }
    requires slot { O.slot ≡ named_slot tree.now }
    requires world { IsRunnableWorld world.now }
    requires joined { first_missing world.now.rows (D.states drivers.now) (leaf_ids tree.now.term) ≡ None }
    ensures { IfOk result (λ arena. IsArenaOf tree.now world.now (D.states drivers.now) 1 arena) }
{
    let setting: Setting<O> = Setting {
        alloc,
        tree,
        slots,
        world,
        book: RefCell::new(Book::empty(alloc)),
        unguarded: Shared::of(alloc, no_guards())?,
    };
    arena_with(&setting, drivers)
}

/// The arena of the first runner, for a tree of which nothing is missing. No row or driver of a leaf
/// is looked up before its node is laid. The error is want of memory.
pub fn first_arena_of<D: Drivers>(
    alloc: Global,
    tree: &Tree,
    slots: &Slots,
    world: &IndexedWorld,
    drivers: &D,
) -> Result<Arena, NoMemory>
    requires tree { IsRunnable tree.now }
    requires slots { slots.now ≡ slot_table tree.now }
    requires world { IsRunnableWorld world.now }
    requires joined { first_missing world.now.rows (D.states drivers.now) (leaf_ids tree.now.term) ≡ None }
    ensures { IfOk result (λ arena. IsArenaOf tree.now world.now (D.states drivers.now) 1 arena) }
{
    arena_over::<D, Brand>(alloc, tree, slots, world, drivers)
}

/// Makes the arena of the first runner of a world, for a tree with its slots: each node has what its visits
/// need and is at rest, and there is room for the visits that can be under way at once.
/// A leaf has the first driver of its row's kind. Its instance is numbered by uid among the leaves that
/// this driver serves. The fault is that of the first leaf in pre-order that has no row, or whose row
/// has no driver.
pub fn arena_of<D: Drivers>(
    alloc: Global,
    tree: &Tree,
    slots: &Slots,
    world: &IndexedWorld,
    drivers: &D,
) -> Result<Arena, Stop<JoinFault>>
    requires tree { IsRunnable tree.now }
    requires slots { slots.now ≡ slot_table tree.now }
    requires world { IsRunnableWorld world.now }
    ensures fault { Joins result (first_missing world.now.rows (D.states drivers.now) (leaf_ids tree.now.term)) }
    ensures arena { IfOk result (λ arena. IsArenaOf tree.now world.now (D.states drivers.now) 1 arena) }
{
    check_leaves(alloc, &tree.term, world, drivers)?;
    Ok(first_arena_of(alloc, tree, slots, world, drivers)?)
}
