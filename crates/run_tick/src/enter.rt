ghost use Rattle.std.specs.Prelude.{◌≡◌, OnOk, true, false};
ghost use Rattle.spec_run.specs.declared.status.Status.TheVariants.{Running};
ghost use Rattle.spec_tree.specs.declared.term.Term.{Term};
ghost use Rattle.spec_tree.specs.BuiltIns.{has_rule};
ghost use Rattle.base_tables.specs.Shapes.{is_running};
ghost use Rattle.spec_run.specs.Sites.{View};
ghost use Rattle.spec_run.specs.Visit.{starts};
ghost use Rattle.run_arena.specs.Nodes.{kept_at, node_at};
ghost use Rattle.run_arena.specs.Stages.{IsAside, IsSame, Keeps};
ghost use Rattle.run_nodes.specs.Here.{ruled_on};
ghost use Rattle.run_tick.specs.Turns.{CanFollowOn, CanVisitOn, LeavesLess, StartsOn, TakesTurn, turned, visit_on};

use crate::asking::{ask, asks_first};
use crate::progress::Entered;
use base_tables::has_rule;
use base_texts::Stop;
use run_arena::{Stage, node, set_status};
use run_driver::Drivers;
use run_nodes::{
    end_visit, goes_on, guards_answer, halt, picked, remembers, start_memo, visit_alone,
};
use spec_run::{Answer, Heard, Memo, NodeFault, Note, Status};
use spec_tree::Kind;
use tree_board::Past;

/// Whether a node of this kind with this memo starts: one with children does, except a RunOnce with
/// a mark.
#[inline(always)]
fn starts(kind: Kind, memo: Memo) -> bool
    ensures { result ≡ starts kind memo }
{
    match kind {
        Kind::RunOnce => !matches!(memo, Memo::Finished(Some(_))),
        _ => has_rule(kind),
    }
}

/// Begins the rule of the node with this uid, which has children. The answer says what is picked
/// for the visit; the error is the fault of the port that decides it.
#[inline(always)]
fn begin_rule<D: Drivers, P: Past>(
    stage: &Stage<D, P>,
    uid: u32,
) -> Result<Entered, Stop<NodeFault>>
    requires can { (term : Term) × (view : View) × CanFollowOn D.states stage.now uid term view }
    requires ruled { has_rule (node_at stage.now.nodes.now uid).kind ≡ true }
    ensures goes { let s = stage.now in (term : Term) (view : View) → CanFollowOn D.states s uid term view →
        TakesTurn D.states s s uid term view (turned uid s.kept.now result) (ruled_on D.states s uid term view) }
    ensures work { LeavesLess uid stage.now stage.now result }
{
    let memo = stage.kept[uid as usize].memo;
    match picked(node(stage.nodes, uid), uid, memo, stage.board) {
        Ok(picked) => Ok(Entered::GoesOn(Heard::Begin { picked })),
        Err(fault) => Err(Stop::Fault(fault)),
    }
}

/// Applies the rule of the node with this uid, from its status and its memo on: a node with
/// children goes on by moves, and any other has its whole visit. The error is a fault, or want of
/// memory (out of memory).
#[inline(always)]
fn follow_rule<D: Drivers, P: Past>(
    stage: &mut Stage<D, P>,
    uid: u32,
) -> Result<Entered, Stop<NodeFault>>
    requires can { (term : Term) × (view : View) × CanFollowOn D.states stage.old uid term view }
    ensures goes { (term : Term) (view : View) → CanFollowOn D.states stage.old uid term view →
        TakesTurn D.states stage.old stage.new uid term view
        (turned uid stage.new.kept.now result) (ruled_on D.states stage.old uid term view) }
    ensures same { IsSame stage.old stage.new }
    ensures reserve { OnOk result (stage.new.notes.now.reserve ≡ stage.old.notes.now.reserve) }
    ensures work { LeavesLess uid stage.old stage.new result }
{
    let kind = node(stage.nodes, uid).kind;
    if !has_rule(kind) {
        let answer = visit_alone(stage, uid, kind)?;
        return Ok(Entered::Answers(answer));
    }
    begin_rule(stage, uid)
}

/// Starts the node with this uid, which is not RUNNING: it becomes RUNNING, with a note, and gets a
/// new memo. The error is the fault of a port, or want of memory.
#[inline(always)]
fn start<D: Drivers, P: Past>(stage: &mut Stage<D, P>, uid: u32) -> Result<(), Stop<NodeFault>>
    requires can { (term : Term) × (view : View) × CanVisitOn D.states stage.old uid term view }
    requires rests { is_running (kept_at stage.old.kept.now uid).status ≡ false }
    requires starts { starts (node_at stage.old.nodes.now uid).kind (kept_at stage.old.kept.now uid).memo ≡ true }
    ensures starts { (term : Term) (view : View) → CanVisitOn D.states stage.old uid term view →
        StartsOn D.states stage.old stage.new uid term view result }
    ensures keeps { Keeps D.states uid 1 stage.old stage.new }
    ensures board { stage.new.board.now ≡ stage.old.board.now }
    ensures aside { IsAside D.states stage.old stage.new }
    ensures reserve { stage.new.notes.now.reserve ≡ stage.old.notes.now.reserve }
{
    let old = stage.kept[uid as usize].status;
    stage.notes.push(Note::Changed {
        uid,
        old,
        new: Status::Running,
    })?;
    set_status(stage.kept, uid, Status::Running);
    let memo = &mut stage.kept[uid as usize].memo;
    match start_memo(
        node(stage.nodes, uid),
        uid,
        old,
        memo,
        stage.board,
        stage.moment,
    ) {
        Ok(()) => Ok(()),
        Err(fault) => Err(Stop::Fault(fault)),
    }
}

/// Begins a visit of the node with this uid, which is not RUNNING: its guards answer, or it starts.
/// The error is a fault, or want of memory.
#[inline(always)]
fn begin<D: Drivers, P: Past>(stage: &mut Stage<D, P>, uid: u32) -> Result<Entered, Stop<NodeFault>>
    requires can { (term : Term) × (view : View) × CanVisitOn D.states stage.old uid term view }
    requires rests { is_running (kept_at stage.old.kept.now uid).status ≡ false }
    ensures goes { (term : Term) (view : View) → CanVisitOn D.states stage.old uid term view →
        TakesTurn D.states stage.old stage.new uid term view
        (turned uid stage.new.kept.now result) (visit_on D.states stage.old uid term view) }
    ensures same { IsSame stage.old stage.new }
    ensures reserve { OnOk result (stage.new.notes.now.reserve ≡ stage.old.notes.now.reserve) }
    ensures work { LeavesLess uid stage.old stage.new result }
{
    let here = node(stage.nodes, uid);
    if let Some(answer) = guards_answer(stage.alloc, here.guards.get(), uid, stage.board)? {
        let kept = stage.kept[uid as usize];
        let memo = remembers(kept.status, kept.memo);
        let given = end_visit(stage, uid, answer, memo)?;
        return Ok(Entered::Answers(given));
    }
    if !starts(here.kind, stage.kept[uid as usize].memo) {
        return follow_rule(stage, uid);
    }
    if asks_first(stage, uid) {
        return ask(stage, uid);
    }
    start(stage, uid)?;
    // A node that starts has children.
    begin_rule(stage, uid)
}

/// Goes on with the node with this uid, which is RUNNING, or halts it where its `_while` is false,
/// and answers SKIPPED. The error is a fault, or want of memory.
#[inline(always)]
fn resume<D: Drivers, P: Past>(
    stage: &mut Stage<D, P>,
    uid: u32,
) -> Result<Entered, Stop<NodeFault>>
    requires can { (term : Term) × (view : View) × CanVisitOn D.states stage.old uid term view }
    requires running { (kept_at stage.old.kept.now uid).status ≡ Running }
    ensures goes { (term : Term) (view : View) → CanVisitOn D.states stage.old uid term view →
        TakesTurn D.states stage.old stage.new uid term view
        (turned uid stage.new.kept.now result) (visit_on D.states stage.old uid term view) }
    ensures same { IsSame stage.old stage.new }
    ensures reserve { OnOk result (stage.new.notes.now.reserve ≡ stage.old.notes.now.reserve) }
    ensures work { LeavesLess uid stage.old stage.new result }
{
    let guards = node(stage.nodes, uid).guards.get();
    if goes_on(stage.alloc, guards, uid, stage.board)? {
        return follow_rule(stage, uid);
    }
    halt(stage, uid)?;
    Ok(Entered::Answers(Answer::Skipped))
}

/// Visits the node with this uid, up to its answer or to where it goes on by moves. The error is a
/// fault, or want of memory.
#[inline(always)]
pub(crate) fn enter<D: Drivers, P: Past>(
    stage: &mut Stage<D, P>,
    uid: u32,
) -> Result<Entered, Stop<NodeFault>>
    requires can { (term : Term) × (view : View) × CanVisitOn D.states stage.old uid term view }
    ensures goes { (term : Term) (view : View) → CanVisitOn D.states stage.old uid term view →
        TakesTurn D.states stage.old stage.new uid term view
        (turned uid stage.new.kept.now result) (visit_on D.states stage.old uid term view) }
    ensures same { IsSame stage.old stage.new }
    ensures reserve { OnOk result (stage.new.notes.now.reserve ≡ stage.old.notes.now.reserve) }
    ensures work { LeavesLess uid stage.old stage.new result }
{
    match stage.kept[uid as usize].status {
        Status::Running => resume(stage, uid),
        _ => begin(stage, uid),
    }
}
