ghost use Rattle.std.specs.Prelude.{◌≡◌, ◌++◌, ◌<◌, List, OnOk, OnErr, length, slice_set};
ghost use Rattle.spec_run.specs.declared.memory.Memory.{Memory};
ghost use Rattle.spec_tree.specs.declared.term.Term.{Term, Term-F};
ghost use Rattle.spec_run.specs.Sites.{Meaning, View, remembered};
ghost use Rattle.spec_run.specs.Steps.{Given};
ghost use Rattle.spec_run.specs.Visit.{change, ended, site_of, status_of};
ghost use Rattle.run_arena.specs.Nodes.{AreCompiled, kept_at};
ghost use Rattle.run_arena.specs.Stages.{FitsOn, IsAside, IsSame, Keeps, MeetsOn, state_on};
ghost use Rattle.run_arena.specs.Stands.{memory_of};
ghost use Rattle.run_nodes.specs.Here.{ended_on};
ghost use Rattle.run_nodes.specs.Needs.{GuardsNeedAtMost};

use crate::scripts::posts;
use base_texts::{NoMemory, Stop};
use run_arena::{Kept, Notes, ReadyGuards, Stage, kept_by, node, set_memo, set_status};
use run_driver::Drivers;
use spec_run::{Answer, Memo, NodeFault, Note, Status};
use tree_board::Past;

/// The status of a node after this answer.
fn status_of(answer: Answer) -> Status
    ensures { result ≡ status_of answer }
{
    match answer {
        Answer::Running => Status::Running,
        Answer::Success => Status::Success,
        Answer::Failure => Status::Failure,
        Answer::Skipped => Status::Idle,
    }
}

/// Adds a note of a node's change of status, where there is one. Where there is want of memory,
/// nothing changes.
#[inline(always)]
pub fn note_change(notes: &mut Notes, uid: u32, old: Status, new: Status) -> Result<(), NoMemory>
    ensures ok { OnOk result (notes.new ≡ record notes.old { list = notes.old.list ++ change uid old new }) }
    ensures err { OnErr result (notes.new ≡ notes.old) }
{
    if old != new {
        notes.push(Note::Changed { uid, old, new })?;
    }
    Ok(())
}

/// Gives the node with this uid a memo. Most visits are those of leaves, which have no memo before
/// or after: then nothing is written. A memo that a node no longer has is cleared, not copied.
#[inline(always)]
fn keep_memo(kept: &mut [Kept], uid: u32, memo: Memo)
    requires { uid < length kept.old }
    ensures { kept.new ≡ slice_set kept.old uid (record (kept_at kept.old uid) { memo = memo }) }
{
    match (kept_by(kept, uid).memo, memo) {
        (Memo::Nothing, Memo::Nothing) => {}
        (_, Memo::Nothing) => set_memo(kept, uid, Memo::Nothing),
        _ => set_memo(kept, uid, memo),
    }
}

/// Ends the visit of the node with this uid, which has these guards: the memo is kept, the scripts
/// after the answer run, and then the status becomes that of the answer, with a note. The error is
/// a fault of a script, or want of memory.
#[inline(always)]
fn end_node<D: Drivers, P: Past>(
    stage: &mut Stage<D, P>,
    guards: &ReadyGuards,
    uid: u32,
    answer: Answer,
    memo: Memo,
) -> Result<Answer, Stop<NodeFault>>
    requires there { uid < length stage.old.kept.now }
    requires guards { GuardsNeedAtMost (length stage.old.board.now) guards.now }
    ensures meets { (term : Term-F Meaning) (view : View) (ms : List Memory) → AreCompiled view term.guards guards.now →
        let given : Given = record { answer = answer; memo = memo } in
        let end = ended (site_of term view uid) (kept_at stage.old.kept.now uid).status given ms (state_on D.states stage.old) in
        MeetsOn D.states (λ kept. remembered (kept_at kept uid).status (kept_at kept uid).memo ms) result stage.old stage.new end }
    ensures kept { let mark = (kept_at stage.old.kept.now uid).held in
        stage.new.kept.now ≡ slice_set stage.old.kept.now uid (record (kept_at stage.new.kept.now uid) { held = mark }) }
    ensures slots { length stage.new.board.now ≡ length stage.old.board.now }
    ensures same { IsSame stage.old stage.new }
    ensures reserve { stage.new.notes.now.reserve ≡ stage.old.notes.now.reserve }
    ensures aside { IsAside D.states stage.old stage.new }
{
    keep_memo(stage.kept, uid, memo);
    posts(stage.alloc, guards, uid, answer, stage.board)?;
    let old = stage.kept[uid as usize].status;
    let status = status_of(answer);
    note_change(stage.notes, uid, old, status)?;
    set_status(stage.kept, uid, status);
    Ok(answer)
}

/// Ends the visit of the node with this uid that has given an answer and a memo: the memo is kept,
/// the scripts after the answer run, and then the status becomes that of the answer, with a note.
/// The error is a fault of a script, which leaves the status as it was, or want of memory.
#[inline(always)]
pub fn end_visit<D: Drivers, P: Past>(
    stage: &mut Stage<D, P>,
    uid: u32,
    answer: Answer,
    memo: Memo,
) -> Result<Answer, Stop<NodeFault>>
    requires fits { (term : Term) × (view : View) × FitsOn D.states stage.old uid term view }
    ensures meets { (term : Term) (view : View) → FitsOn D.states stage.old uid term view →
        MeetsOn D.states (memory_of term uid) result stage.old stage.new
        (ended_on D.states stage.old uid (record { answer = answer; memo = memo }) term view) }
    ensures kept { let mark = (kept_at stage.old.kept.now uid).held in
        stage.new.kept.now ≡ slice_set stage.old.kept.now uid (record (kept_at stage.new.kept.now uid) { held = mark }) }
    ensures keeps { Keeps D.states uid 1 stage.old stage.new }
    ensures reserve { stage.new.notes.now.reserve ≡ stage.old.notes.now.reserve }
    ensures aside { IsAside D.states stage.old stage.new }
{
    let guards = node(stage.nodes, uid).guards.get();
    end_node(stage, guards, uid, answer, memo)
}
