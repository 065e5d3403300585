ghost use Rattle.std.specs.Prelude.{◌≡◌, ◌<◌, ◌++◌, ◌∷◌, [], Ok, OnErr, OnOk, length};
ghost use Rattle.spec_run.specs.declared.status.Status.TheVariants.{Idle, Running};
ghost use Rattle.spec_tree.specs.declared.term.Term.{Term};
ghost use Rattle.spec_run.specs.Sites.{View};
ghost use Rattle.spec_run.specs.Visit.{cleared};
ghost use Rattle.run_arena.specs.Nodes.{kept_at};
ghost use Rattle.run_arena.specs.Stages.{FitsOn, IsSame, Keeps, MeetsOn, scene_on};
ghost use Rattle.run_arena.specs.Stands.{memory_of};
ghost use Rattle.run_nodes.specs.Halting.Halts.{LeafIsHeldOn, halted_on, idle_with, released_on};

use crate::scripts::script_if_there;
use base_texts::{NoMemory, Stop};
use run_arena::{Kept, Stage, keep, node, set_held};
use run_driver::Drivers;
use spec_run::{Memo, NodeFault, Note, Status};
use tree_board::Past;

/// The memo that is left when a node is halted: none, but the mark of a RunOnce stays.
fn cleared_memo(memo: Memo) -> Memo
    ensures { result ≡ cleared memo }
{
    match memo {
        Memo::Finished(Some(answer)) => Memo::Finished(Some(answer)),
        _ => Memo::Nothing,
    }
}

/// Halts a leaf: calls its driver `halted`, and adds the note. The place of the note is reserved
/// before the call. For any other node nothing is done. The error is want of memory, and then there
/// was no call.
fn release<D: Drivers, P: Past>(stage: &mut Stage<D, P>, uid: u32) -> Result<(), NoMemory>
    requires fits { (term : Term) × (view : View) × FitsOn D.states stage.old uid term view }
    requires held { LeafIsHeldOn stage.old uid }
    ensures ok { OnOk result (MeetsOn D.states (λ _. tt) (Ok tt) stage.old stage.new (released_on D.states stage.old uid)) }
    ensures err { OnErr result (scene_on D.states stage.new ≡ scene_on D.states stage.old) }
    ensures err_notes { OnErr result (stage.new.notes.now.list ≡ stage.old.notes.now.list) }
    ensures keeps { Keeps D.states uid 1 stage.old stage.new }
    ensures board { stage.new.board.now ≡ stage.old.board.now }
    ensures facts { stage.new.facts.now ≡ stage.old.facts.now }
    ensures status { (kept_at stage.new.kept.now uid).status ≡ (kept_at stage.old.kept.now uid).status }
    ensures memo { (kept_at stage.new.kept.now uid).memo ≡ (kept_at stage.old.kept.now uid).memo }
    ensures reserve { stage.new.notes.now.reserve ≡ stage.old.notes.now.reserve }
{
    match &node(stage.nodes, uid).leaf {
        Some(leaf) => {
            stage.notes.room()?;
            stage.drivers.halted(leaf.driver, leaf.instance);
            set_held(stage.kept, uid, false);
            stage.notes.push_reserved(Note::Halted { uid });
            Ok(())
        }
        None => Ok(()),
    }
}

/// Brings a node to rest that was RUNNING: its memo is cleared, and its status becomes IDLE, with a
/// note. The error is want of memory.
fn come_to_rest<D: Drivers, P: Past>(stage: &mut Stage<D, P>, uid: u32) -> Result<(), NoMemory>
    requires { uid < length stage.old.kept.now }
    ensures ok { let memo = cleared (kept_at stage.old.kept.now uid).memo in
        OnOk result (scene_on D.states stage.new ≡ idle_with (scene_on D.states stage.old) uid memo) }
    ensures ok_notes { OnOk result (stage.new.notes.now.list ≡ stage.old.notes.now.list ++ Note.Changed uid Running Idle ∷ []) }
    ensures err { OnErr result (scene_on D.states stage.new ≡ scene_on D.states stage.old) }
    ensures err_notes { OnErr result (stage.new.notes.now.list ≡ stage.old.notes.now.list) }
    ensures same { IsSame stage.old stage.new }
    ensures reserve { stage.new.notes.now.reserve ≡ stage.old.notes.now.reserve }
{
    stage.notes.push(Note::Changed {
        uid,
        old: Status::Running,
        new: Status::Idle,
    })?;
    let old = stage.kept[uid as usize];
    keep(
        stage.kept,
        uid,
        Kept {
            status: Status::Idle,
            memo: cleared_memo(old.memo),
            held: old.held,
        },
    );
    Ok(())
}

/// The end of a halt, after the resets of the children. The error is a fault of `_onHalted`, or
/// want of memory.
pub(crate) fn end_halt<D: Drivers, P: Past>(
    stage: &mut Stage<D, P>,
    uid: u32,
) -> Result<(), Stop<NodeFault>>
    requires fits { (term : Term) × (view : View) × FitsOn D.states stage.old uid term view }
    requires running { (kept_at stage.old.kept.now uid).status ≡ Running }
    requires held { LeafIsHeldOn stage.old uid }
    ensures meets { (term : Term) (view : View) → FitsOn D.states stage.old uid term view →
        MeetsOn D.states (memory_of term uid) result stage.old stage.new (halted_on D.states stage.old uid term view) }
    ensures keeps { Keeps D.states uid 1 stage.old stage.new }
    ensures status { OnOk result ((kept_at stage.new.kept.now uid).status ≡ Idle) }
    ensures facts { stage.new.facts.now ≡ stage.old.facts.now }
    ensures reserve { stage.new.notes.now.reserve ≡ stage.old.notes.now.reserve }
{
    release(stage, uid)?;
    come_to_rest(stage, uid)?;
    script_if_there(
        stage.alloc,
        &node(stage.nodes, uid).guards.get().on_halted,
        uid,
        stage.board,
    )
}
