ghost use Rattle.std.specs.Prelude.{true, false, ◌≡◌, ◌+◌, ◌-◌, ◌<◌, IfOk, IsTrue, Ok, length, slice_index_or};
ghost use Rattle.spec_run.specs.declared.memory.Memory.{Memory};
ghost use Rattle.spec_run.specs.declared.status.Answer.{Answer as AnswerGiven};
ghost use Rattle.spec_tree.specs.declared.term.Term.{Term};
ghost use Rattle.spec_tree.specs.BuiltIns.{has_rule};
ghost use Rattle.spec_run.specs.Done.{Done};
ghost use Rattle.spec_run.specs.Sites.{View};
ghost use Rattle.run_arena.specs.Nodes.{node_at};
ghost use Rattle.run_arena.specs.Stages.{IsSame, Keeps, MeetsOn};
ghost use Rattle.run_nodes.specs.Here.{children_in};
ghost use Rattle.run_nodes.specs.Halting.Halts.{resets_on};
ghost use Rattle.run_tick.specs.Machine as turn;
ghost use Rattle.run_tick.specs.Turns.{CanMoveOn, EntersChild, StepsOn, TakesTurn, goes_at_once, kind_of, passes_over, step_of, turn_of, turn_with, turn_work};

use crate::next_moves::{child_at_once, is_completed, next_move};
use crate::progress::Next;
use base_texts::Stop;
use run_arena::{Frame, Node, Stage, node};
use run_driver::Drivers;
use run_nodes::{end_visit, reset_children};
use spec_run::{Heard, NodeFault, Span, Status, Then};
use spec_tree::Kind;
use tree_board::Past;

/// The uid of the child of a node at this place.
#[inline(always)]
fn child_at(here: &Node, place: u32) -> u32
    requires { place < length here.now.child_uids }
    ensures { result ≡ slice_index_or here.now.child_uids place 0 }
{
    here.child_uids.list()[place as usize]
}

/// Whether a node of this kind passes over a child with this status, without a visit.
fn passes_over(kind: Kind, status: Status) -> bool
    ensures { result ≡ passes_over kind status }
{
    match kind {
        Kind::Parallel => is_completed(status),
        _ => false,
    }
}

/// Resets the children of a span of the node with this uid, in order. The error is a fault of an
/// `_onHalted`, or want of memory.
#[inline(always)]
fn reset_before<D: Drivers, P: Past>(
    stage: &mut Stage<D, P>,
    uid: u32,
    span: Span,
) -> Result<(), Stop<NodeFault>>
    requires can { (term : Term) × (view : View) × CanMoveOn D.states stage.old uid term view × (has_rule (kind_of term) ≡ true) }
    ensures meets { (term : Term) (view : View) → CanMoveOn D.states stage.old uid term view →
        MeetsOn D.states (children_in term uid) result stage.old stage.new (resets_on D.states stage.old uid span term view) }
    ensures keeps { Keeps D.states (uid + 1) ((node_at stage.old.nodes.now uid).size - 1) stage.old stage.new }
    ensures facts { stage.new.facts.now ≡ stage.old.facts.now }
    ensures reserve { stage.new.notes.now.reserve ≡ stage.old.notes.now.reserve }
{
    match span {
        Span::None => Ok(()),
        // Most resets are of all children: with a constant span there is no test for each child.
        Span::All => reset_children(stage, uid, Span::All),
        // And most others are of all but one.
        Span::AllBut(place) => reset_children(stage, uid, Span::AllBut(place)),
        _ => reset_children(stage, uid, span),
    }
}

/// Whether the node that has this frame goes on to a child at once with what it hears, as most nodes
/// do when they begin and after most answers. The frame is then that of the visit of this child, and
/// else it stays.
#[inline(always)]
pub(crate) fn goes_on_at_once<D: Drivers, P: Past>(
    stage: &Stage<D, P>,
    frame: &mut Frame,
    heard: Heard,
) -> bool
    requires can { (term : Term) × (view : View) × (rest : Done AnswerGiven Memory) ×
        StepsOn D.states stage.now term view (step_of frame.old heard) rest }
    ensures goes { IsTrue result → (term : Term) (view : View) (rest : Done AnswerGiven Memory) →
        StepsOn D.states stage.now term view (step_of frame.old heard) rest →
        TakesTurn D.states stage.now stage.now frame.old.uid term view (Ok (turn.Wait frame.new)) rest }
    ensures all { result ≡ goes_at_once stage.now.nodes.now (step_of frame.old heard) }
    ensures work { let nodes = stage.now.nodes.now in
        IsTrue result → turn_work nodes (turn.Wait frame.new) < turn_work nodes (turn.GoOn (step_of frame.old heard)) }
    ensures uid { frame.new.uid ≡ frame.old.uid }
    ensures same { result ≡ false → frame.new ≡ frame.old }
{
    let here = node(stage.nodes, frame.uid);
    match child_at_once(here.kind, &mut frame.memo, here.children, heard) {
        Some(place) => {
            frame.place = place;
            frame.child = child_at(here, place);
            true
        }
        None => false,
    }
}

/// The node on top of the stack, which has this frame, goes on with what it hears: it makes its
/// next move, up to its answer or to the visit of a child. The error is a fault, or want of memory.
#[inline(always)]
pub(crate) fn go_on<D: Drivers, P: Past>(
    stage: &mut Stage<D, P>,
    frame: &mut Frame,
    heard: Heard,
) -> Result<Next, Stop<NodeFault>>
    requires can { (term : Term) × (view : View) × (rest : Done AnswerGiven Memory) ×
        StepsOn D.states stage.old term view (step_of frame.old heard) rest }
    ensures goes { (term : Term) (view : View) (rest : Done AnswerGiven Memory) →
        StepsOn D.states stage.old term view (step_of frame.old heard) rest →
        TakesTurn D.states stage.old stage.new frame.old.uid term view (turn_with frame.new result) rest }
    ensures child { IfOk result (λ next. EntersChild frame.new next) }
    ensures same { IsSame stage.old stage.new }
    ensures facts { stage.new.facts.now ≡ stage.old.facts.now }
    ensures reserve { stage.new.notes.now.reserve ≡ stage.old.notes.now.reserve }
    ensures work { let nodes = stage.old.nodes.now in
        IfOk result (λ next. turn_work nodes (turn_of frame.new next) < turn_work nodes (turn.GoOn (step_of frame.old heard))) }
{
    let uid = frame.uid;
    let here = node(stage.nodes, uid);
    let moment = stage.moment;
    let go = next_move(here.kind, &mut frame.memo, here.children, moment, heard);
    reset_before(stage, uid, go.reset)?;
    match go.then {
        Then::Give(answer) => {
            let given = end_visit(stage, uid, answer, frame.memo)?;
            Ok(Next::Back(given))
        }
        Then::Visit(place) => {
            frame.place = place;
            frame.child = child_at(here, place);
            if passes_over(here.kind, stage.kept[frame.child as usize].status) {
                Ok(Next::GoOn(Heard::Passed(place)))
            } else {
                Ok(Next::Enter(frame.child))
            }
        }
    }
}
