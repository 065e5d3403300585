ghost use Rattle.std.specs.Prelude.{◌≡◌, ◌+◌, ◌-◌, ◌<◌, ◌++◌, OnErr, OnOk, length};
ghost use Rattle.spec_run.specs.declared.status.Status.TheVariants.{Idle, Running as IsRunning};
ghost use Rattle.spec_tree.specs.declared.term.Term.{Term};
ghost use Rattle.spec_run.specs.Sites.{View};
ghost use Rattle.spec_run.specs.Steps.{spans};
ghost use Rattle.spec_run.specs.Visit.{change};
ghost use Rattle.run_arena.specs.Nodes.{kept_at, node_at};
ghost use Rattle.run_arena.specs.Stages.{FitsOn, IsSame, Keeps, MeetsOn, scene_on};
ghost use Rattle.run_arena.specs.Stands.{memory_of};
ghost use Rattle.run_nodes.specs.Here.{children_in};
ghost use Rattle.run_nodes.specs.Halting.Halts.{RunningAreHeldOn, halt_on, idle_with, reset_if_on, reset_on, resets_on};

use crate::ending::note_change;
use crate::halting::endings::end_halt;
use base_texts::{NoMemory, Stop};
use run_arena::{Stage, node, set_status};
use run_driver::Drivers;
use spec_run::{NodeFault, Span, Status};
use tree_board::Past;

/// Whether a span has the child at this place.
fn has(span: Span, place: u32) -> bool
    ensures { result ≡ spans span place }
{
    match span {
        Span::None => false,
        Span::All => true,
        Span::From(first) => first <= place,
        Span::AllBut(other) => place != other,
        Span::One(only) => place == only,
    }
}

/// Makes a node IDLE, with a note where it was not. The error is want of memory, and then nothing
/// changes.
#[inline(always)]
fn become_idle<D: Drivers, P: Past>(stage: &mut Stage<D, P>, uid: u32) -> Result<(), NoMemory>
    requires { uid < length stage.old.kept.now }
    ensures ok { let memo = (kept_at stage.old.kept.now uid).memo in
        OnOk result (scene_on D.states stage.new ≡ idle_with (scene_on D.states stage.old) uid memo) }
    ensures ok_notes { let status = (kept_at stage.old.kept.now uid).status in
        OnOk result (stage.new.notes.now.list ≡ stage.old.notes.now.list ++ change uid status Idle) }
    ensures err { OnErr result (scene_on D.states stage.new ≡ scene_on D.states stage.old) }
    ensures err_notes { OnErr result (stage.new.notes.now.list ≡ stage.old.notes.now.list) }
    ensures same { IsSame stage.old stage.new }
    ensures reserve { stage.new.notes.now.reserve ≡ stage.old.notes.now.reserve }
{
    let old = stage.kept[uid as usize].status;
    note_change(stage.notes, uid, old, Status::Idle)?;
    set_status(stage.kept, uid, Status::Idle);
    Ok(())
}

/// Resets the node with this uid: one that is RUNNING is halted, and any other becomes IDLE, as an
/// IDLE one is already. The error is a fault of an `_onHalted`, or want of memory; after either the
/// caller quenches.
#[inline(always)]
#[cycle(resetting)]
pub fn reset<D: Drivers, P: Past>(stage: &mut Stage<D, P>, uid: u32) -> Result<(), Stop<NodeFault>>
    requires fits { (term : Term) × (view : View) × FitsOn D.states stage.old uid term view }
    requires held { RunningAreHeldOn stage.old uid }
    ensures meets { (term : Term) (view : View) → FitsOn D.states stage.old uid term view →
        MeetsOn D.states (memory_of term uid) result stage.old stage.new (reset_on D.states stage.old uid term view) }
    ensures held { OnOk result (RunningAreHeldOn stage.new uid) }
    ensures keeps { Keeps D.states uid (node_at stage.old.nodes.now uid).size stage.old stage.new }
    ensures facts { stage.new.facts.now ≡ stage.old.facts.now }
    ensures reserve { stage.new.notes.now.reserve ≡ stage.old.notes.now.reserve }
{
    let status = stage.kept[uid as usize].status;
    // Most nodes that are reset are IDLE: that is tested first, and by itself.
    if status == Status::Idle {
        return Ok(());
    }
    match status {
        Status::Running => halt_here(stage, uid),
        _ => {
            become_idle(stage, uid)?;
            Ok(())
        }
    }
}

/// Halts the RUNNING node with this uid, as `halt` does. It is a function of its own, inlined, so
/// that room for the answer of a halt is cleared only where there is one.
#[inline(always)]
#[cycle(resetting)]
fn halt_here<D: Drivers, P: Past>(stage: &mut Stage<D, P>, uid: u32) -> Result<(), Stop<NodeFault>>
    requires fits { (term : Term) × (view : View) × FitsOn D.states stage.old uid term view }
    requires running { (kept_at stage.old.kept.now uid).status ≡ IsRunning }
    requires held { RunningAreHeldOn stage.old uid }
    ensures meets { (term : Term) (view : View) → FitsOn D.states stage.old uid term view →
        MeetsOn D.states (memory_of term uid) result stage.old stage.new (halt_on D.states stage.old uid term view) }
    ensures held { OnOk result (RunningAreHeldOn stage.new uid) }
    ensures keeps { Keeps D.states uid (node_at stage.old.nodes.now uid).size stage.old stage.new }
    ensures facts { stage.new.facts.now ≡ stage.old.facts.now }
    ensures reserve { stage.new.notes.now.reserve ≡ stage.old.notes.now.reserve }
{
    halt(stage, uid)
}

/// Halts the RUNNING node with this uid: its children are reset in order; its memo is cleared, but
/// the mark of a RunOnce stays; a leaf's driver is called `halted`; the status becomes IDLE; and
/// then `_onHalted` runs. The error is a fault of such a script, or want of memory (out of memory);
/// after either the caller quenches.
#[inline(never)]
#[cycle(resetting)]
pub fn halt<D: Drivers, P: Past>(stage: &mut Stage<D, P>, uid: u32) -> Result<(), Stop<NodeFault>>
    requires fits { (term : Term) × (view : View) × FitsOn D.states stage.old uid term view }
    requires running { (kept_at stage.old.kept.now uid).status ≡ IsRunning }
    requires held { RunningAreHeldOn stage.old uid }
    ensures meets { (term : Term) (view : View) → FitsOn D.states stage.old uid term view →
        MeetsOn D.states (memory_of term uid) result stage.old stage.new (halt_on D.states stage.old uid term view) }
    ensures held { OnOk result (RunningAreHeldOn stage.new uid) }
    ensures keeps { Keeps D.states uid (node_at stage.old.nodes.now uid).size stage.old stage.new }
    ensures facts { stage.new.facts.now ≡ stage.old.facts.now }
    ensures reserve { stage.new.notes.now.reserve ≡ stage.old.notes.now.reserve }
{
    reset_children(stage, uid, Span::All)?;
    end_halt(stage, uid)
}

/// Resets the children of the node with this uid that a span has, in order. It is inlined, since
/// most resets are of all children, one or two, and cost less than a call. The error is a fault of
/// an `_onHalted`, or want of memory.
#[inline(always)]
#[cycle(resetting)]
pub fn reset_children<D: Drivers, P: Past>(
    stage: &mut Stage<D, P>,
    uid: u32,
    span: Span,
) -> Result<(), Stop<NodeFault>>
    requires fits { (term : Term) × (view : View) × FitsOn D.states stage.old uid term view }
    requires held { RunningAreHeldOn stage.old uid }
    ensures meets { (term : Term) (view : View) → FitsOn D.states stage.old uid term view →
        MeetsOn D.states (children_in term uid) result stage.old stage.new (resets_on D.states stage.old uid span term view) }
    ensures held { OnOk result (RunningAreHeldOn stage.new uid) }
    ensures keeps { Keeps D.states (uid + 1) ((node_at stage.old.nodes.now uid).size - 1) stage.old stage.new }
    ensures facts { stage.new.facts.now ≡ stage.old.facts.now }
    ensures reserve { stage.new.notes.now.reserve ≡ stage.old.notes.now.reserve }
{
    let children = node(stage.nodes, uid).child_uids.list();
    for (place, child) in children.iter().enumerate() {
        reset_wanted(stage, *child, has(span, place as u32))?;
    }
    Ok(())
}

/// Resets the node with this uid where this is wanted, and does nothing else. The error is a fault
/// of an `_onHalted`, or want of memory.
#[inline(always)]
#[cycle(resetting)]
fn reset_wanted<D: Drivers, P: Past>(
    stage: &mut Stage<D, P>,
    uid: u32,
    wanted: bool,
) -> Result<(), Stop<NodeFault>>
    requires fits { (term : Term) × (view : View) × FitsOn D.states stage.old uid term view }
    requires held { RunningAreHeldOn stage.old uid }
    ensures meets { (term : Term) (view : View) → FitsOn D.states stage.old uid term view →
        MeetsOn D.states (memory_of term uid) result stage.old stage.new (reset_if_on D.states stage.old wanted uid term view) }
    ensures held { OnOk result (RunningAreHeldOn stage.new uid) }
    ensures keeps { Keeps D.states uid (node_at stage.old.nodes.now uid).size stage.old stage.new }
    ensures facts { stage.new.facts.now ≡ stage.old.facts.now }
    ensures reserve { stage.new.notes.now.reserve ≡ stage.old.notes.now.reserve }
{
    if wanted { reset(stage, uid) } else { Ok(()) }
}
