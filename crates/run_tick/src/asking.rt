ghost use Rattle.std.specs.Prelude.{◌≡◌, IsTrue, OnOk, false, not};
ghost use Rattle.spec_run.specs.declared.memory.Memory.{Memory};
ghost use Rattle.spec_run.specs.declared.status.Answer.{Answer as AnswerGiven};
ghost use Rattle.spec_tree.specs.declared.term.Kind.TheVariants.{Leaf, ReactiveFallback};
ghost use Rattle.spec_tree.specs.declared.term.Term.{Term};
ghost use Rattle.spec_run.specs.Done.{Done};
ghost use Rattle.base_tables.specs.Shapes.{is_running};
ghost use Rattle.spec_run.specs.Sites.{View};
ghost use Rattle.run_arena.specs.Nodes.{kept_at, node_at};
ghost use Rattle.run_arena.specs.Stages.{IsSame};
ghost use Rattle.run_tick.specs.Asking.{AsksFirst, back_with, hears_first, waits_first};
ghost use Rattle.run_tick.specs.Turns.{CanVisitOn, LeavesLess, StepsOn, TakesTurn, started_on, turned, visit_on};

use crate::progress::Entered;
use base_texts::Stop;
use run_arena::{ReadyGuards, Stage, node, set_memo, set_status};
use run_driver::Drivers;
use run_nodes::{end_visit, reset_children, visit_alone};
use spec_run::{Answer, Heard, Memo, NodeFault, Note, Span, Status};
use spec_tree::Kind;
use tree_board::Past;

/// Whether none of these guards comes before a visit, whether it begins or goes on.
#[inline(always)]
fn come_after(guards: &ReadyGuards) -> bool
    ensures { result ≡ not guards.now.before }
{
    !guards.before
}

/// Whether the node with this uid asks first: it is a ReactiveFallback whose first child is a leaf,
/// before whose visit no guard comes. Trees that are grown for goals are made of such nodes.
#[inline(always)]
pub(crate) fn asks_first<D: Drivers, P: Past>(stage: &Stage<D, P>, uid: u32) -> bool
    requires can { (term : Term) × (view : View) × CanVisitOn D.states stage.now uid term view }
    ensures asks { IsTrue result → AsksFirst stage.now.nodes.now uid }
    ensures all { AsksFirst stage.now.nodes.now uid → IsTrue result }
{
    let here = node(stage.nodes, uid);
    match here.kind {
        Kind::ReactiveFallback => {
            let child = node(stage.nodes, uid + 1);
            matches!(child.kind, Kind::Leaf) && come_after(child.guards.get())
        }
        _ => false,
    }
}

/// Starts the node with this uid, which asks first: it waits for its first child. The error is want
/// of memory.
#[inline(always)]
fn start_asking<D: Drivers, P: Past>(
    stage: &mut Stage<D, P>,
    uid: u32,
) -> Result<(), Stop<NodeFault>>
    requires can { (term : Term) × (view : View) × CanVisitOn D.states stage.old uid term view }
    requires rests { is_running (kept_at stage.old.kept.now uid).status ≡ false }
    requires asks { AsksFirst stage.old.nodes.now uid }
    ensures goes { (term : Term) (view : View) → CanVisitOn D.states stage.old uid term view →
        TakesTurn D.states stage.old stage.new uid term view (waits_first uid result) (started_on D.states stage.old uid term view) }
    ensures memo { OnOk result ((kept_at stage.new.kept.now uid).memo ≡ Memo.Index 0 false) }
    ensures same { IsSame stage.old stage.new }
    ensures reserve { stage.new.notes.now.reserve ≡ stage.old.notes.now.reserve }
{
    let old = stage.kept[uid as usize].status;
    stage.notes.push(Note::Changed {
        uid,
        old,
        new: Status::Running,
    })?;
    set_status(stage.kept, uid, Status::Running);
    set_memo(stage.kept, uid, Memo::Index { at: 0, seen: false });
    Ok(())
}

/// Visits the leaf with this uid, before whose visit no guard comes. The error is its fault, or want
/// of memory.
#[inline(always)]
fn visit_leaf<D: Drivers, P: Past>(
    stage: &mut Stage<D, P>,
    uid: u32,
) -> Result<Answer, Stop<NodeFault>>
    requires can { (term : Term) × (view : View) × CanVisitOn D.states stage.old uid term view }
    requires leaf { (node_at stage.old.nodes.now uid).kind ≡ Leaf }
    requires unguarded { (node_at stage.old.nodes.now uid).guards.before ≡ false }
    ensures goes { (term : Term) (view : View) → CanVisitOn D.states stage.old uid term view →
        TakesTurn D.states stage.old stage.new uid term view (back_with result) (visit_on D.states stage.old uid term view) }
    ensures same { IsSame stage.old stage.new }
    ensures reserve { OnOk result (stage.new.notes.now.reserve ≡ stage.old.notes.now.reserve) }
{
    visit_alone(stage, uid, Kind::Leaf)
}

/// Ends the visit of the node with this uid, which asked first, after the answer SUCCESS: all its
/// children are reset, and it answers so itself. The error is a fault of a script, or want of memory.
#[inline(always)]
fn settle<D: Drivers, P: Past>(stage: &mut Stage<D, P>, uid: u32) -> Result<Answer, Stop<NodeFault>>
    requires can { (term : Term) × (view : View) × (rest : Done AnswerGiven Memory) ×
        StepsOn D.states stage.old term view (hears_first uid Answer.Success) rest }
    requires kind { (node_at stage.old.nodes.now uid).kind ≡ ReactiveFallback }
    ensures goes { (term : Term) (view : View) (rest : Done AnswerGiven Memory) →
        StepsOn D.states stage.old term view (hears_first uid Answer.Success) rest →
        TakesTurn D.states stage.old stage.new uid term view (back_with result) rest }
    ensures same { IsSame stage.old stage.new }
    ensures reserve { stage.new.notes.now.reserve ≡ stage.old.notes.now.reserve }
{
    reset_children(stage, uid, Span::All)?;
    end_visit(stage, uid, Answer::Success, Memo::Nothing)
}

/// Starts the node with this uid, which asks first, and visits its first child: where that answers
/// SUCCESS, the node has answered, and else it goes on with this answer. The error is a fault, or want
/// of memory. It says what `start` and `begin_rule` say of such a node, and spares its frame and most
/// of its turns.
#[inline(always)]
pub(crate) fn ask<D: Drivers, P: Past>(
    stage: &mut Stage<D, P>,
    uid: u32,
) -> Result<Entered, Stop<NodeFault>>
    requires can { (term : Term) × (view : View) × CanVisitOn D.states stage.old uid term view }
    requires rests { is_running (kept_at stage.old.kept.now uid).status ≡ false }
    requires asks { AsksFirst stage.old.nodes.now uid }
    ensures goes { (term : Term) (view : View) → CanVisitOn D.states stage.old uid term view →
        TakesTurn D.states stage.old stage.new uid term view
        (turned uid stage.new.kept.now result) (started_on D.states stage.old uid term view) }
    ensures same { IsSame stage.old stage.new }
    ensures reserve { OnOk result (stage.new.notes.now.reserve ≡ stage.old.notes.now.reserve) }
    ensures work { LeavesLess uid stage.old stage.new result }
{
    start_asking(stage, uid)?;
    match visit_leaf(stage, uid + 1)? {
        Answer::Success => {
            let given = settle(stage, uid)?;
            Ok(Entered::Answers(given))
        }
        answer => Ok(Entered::GoesOn(Heard::Answered(0, answer))),
    }
}
