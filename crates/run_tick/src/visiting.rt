ghost use Rattle.std.specs.Prelude.{◌≡◌, ◌+◌, ◌≤◌, ◌<◌, List, [], ◌∷◌, ◌++◌, Some, None, IfOk, IfSome, MatchOption, Ok, OnOk, is_some};
ghost use Rattle.std.specs.List.{AllByRecursion};
ghost use Rattle.std.specs.Vec.{vec_capacity, vec_len};
ghost use Rattle.spec_run.specs.declared.memory.Memory.{Memory};
ghost use Rattle.spec_run.specs.declared.moves.Heard.{Heard as HeardOf};
ghost use Rattle.spec_run.specs.declared.note.Note.{Note};
ghost use Rattle.spec_run.specs.declared.status.Answer.{Answer as AnswerGiven};
ghost use Rattle.spec_tree.specs.declared.term.Term.{Term};
ghost use Rattle.spec_run.specs.Done.{Done};
ghost use Rattle.spec_run.specs.Sites.{View};
ghost use Rattle.spec_tree.specs.Terms.{depth_of, work_of};
ghost use Rattle.base_tables.specs.Runnable.{NodeRuns};
ghost use Rattle.spec_tree.specs.Trees.{nodes_of};
ghost use Rattle.spec_run.specs.Visit.{meaning};
ghost use Rattle.run_arena.specs.Ends.{StaysFit};
ghost use Rattle.run_arena.specs.Scenes.{Scene};
ghost use Rattle.run_arena.specs.Stages.{IsSame, MeetsOn, scene_on};
ghost use Rattle.run_arena.specs.Stands.{Beside, memory_of};
ghost use Rattle.run_tick.specs.declared.progress.Next.TheVariants as next;
ghost use Rattle.run_tick.specs.declared.progress.Reached.TheVariants as reached;
ghost use Rattle.run_tick.specs.Turns.{CameOn, CanVisitOn, ReachesOn, goes_at_once, next_work, reached_work, step_of, top_of, visit_on};
ghost use Rattle.run_tick.specs.Work.{begun_by};

use crate::enter::enter;
use crate::making_moves::{go_on, goes_on_at_once};
use crate::progress::{Entered, Next, Reached};
use base_texts::{NoMemory, Stop};
use run_arena::{Frame, Stage};
use run_driver::Drivers;
use spec_run::{Answer, Heard, Memo, NodeFault};
use tree_board::Past;

/// The frame of the node with this uid, whose rule goes on with this memo.
#[inline(always)]
fn begun(uid: u32, memo: Memo) -> Frame
    ensures { result ≡ record { uid = uid; memo = memo; place = 0; child = 0 } }
{
    Frame {
        uid,
        memo,
        place: 0,
        child: 0,
    }
}

/// What the node on top of the stack hears where its child has answered. Where the stack is empty,
/// the root has answered, and no node hears it.
#[inline(always)]
fn heard_on(stack: &Vec<Frame>, answer: Answer) -> Option<Heard>
    ensures some { (heard : HeardOf) → result ≡ Some heard → (below : List Frame) × (frame : Frame) ×
        (stack.now.items ≡ below ++ frame ∷ []) × (heard ≡ HeardOf.Answered frame.place answer) }
    ensures none { result ≡ None → stack.now.items ≡ [] }
{
    match stack.as_slice().last() {
        Some(frame) => Some(Heard::Answered(frame.place, answer)),
        None => None,
    }
}

/// Puts a frame on the stack. There is want of memory only where the stack had no room.
#[inline(always)]
fn push_frame(stack: &mut Vec<Frame>, frame: Frame) -> Result<(), NoMemory>
    ensures ok { OnOk result (stack.new.items ≡ stack.old.items ++ frame ∷ []) }
    ensures capacity { vec_capacity stack.old ≤ vec_capacity stack.new }
    ensures had_room { vec_len stack.old < vec_capacity stack.old → vec_capacity stack.new ≡ vec_capacity stack.old }
{
    if stack.len() < stack.capacity() {
        stack.push_reserved(frame);
    } else {
        stack.push(frame)?;
    }
    Ok(())
}

/// The uid of the child that the node on top of the stack goes on to with what it hears, where it
/// does no more than that. Its frame is then that of the visit of this child, and else it stays.
#[inline(always)]
fn next_at_once<D: Drivers, P: Past>(
    stage: &Stage<D, P>,
    stack: &mut Vec<Frame>,
    heard: Heard,
) -> Option<u32>
    requires going { (root : Term) × (start : Scene) × (told : List Note) × (whole : Done AnswerGiven Memory) ×
        CameOn D.states stage.now root (next.GoOn heard) stack.old.items start told whole }
    ensures came { MatchOption result (stack.new.items ≡ stack.old.items) (λ child.
        (root : Term) (start : Scene) (told : List Note) (whole : Done AnswerGiven Memory) →
        CameOn D.states stage.now root (next.GoOn heard) stack.old.items start told whole →
        CameOn D.states stage.now root (next.Enter child) stack.new.items start told whole) }
    ensures all { is_some result ≡ goes_at_once stage.now.nodes.now (step_of (top_of stack.old.items) heard) }
    ensures work { let nodes = stage.now.nodes.now in
        IfSome result (λ child. next_work nodes (next.Enter child) stack.new.items < next_work nodes (next.GoOn heard) stack.old.items) }
    ensures room { vec_capacity stack.new ≡ vec_capacity stack.old }
{
    let top = stack.len() - 1;
    let frame = &mut stack.as_mut_slice()[top];
    if goes_on_at_once(stage, frame, heard) {
        Some(frame.child)
    } else {
        None
    }
}

/// The node on top of the stack goes on with what it hears, and so does each below it when its
/// child has answered, up to the visit of a child or to the answer of the root. The error is a
/// fault, or want of memory.
#[inline(always)]
fn reach_child<D: Drivers, P: Past>(
    stage: &mut Stage<D, P>,
    stack: &mut Vec<Frame>,
    first: Heard,
) -> Result<Reached, Stop<NodeFault>>
    requires going { (root : Term) × (start : Scene) × (told : List Note) × (whole : Done AnswerGiven Memory) ×
        CameOn D.states stage.old root (next.GoOn first) stack.old.items start told whole }
    ensures reaches { (root : Term) (start : Scene) (told : List Note) (whole : Done AnswerGiven Memory) →
        CameOn D.states stage.old root (next.GoOn first) stack.old.items start told whole →
        ReachesOn D.states stage.old stage.new root result stack.new.items start told whole }
    ensures same { IsSame stage.old stage.new }
    ensures facts { stage.new.facts.now ≡ stage.old.facts.now }
    ensures reserve { stage.new.notes.now.reserve ≡ stage.old.notes.now.reserve }
    ensures work { let nodes = stage.old.nodes.now in
        IfOk result (λ reached. reached_work nodes reached stack.new.items < next_work nodes (next.GoOn first) stack.old.items) }
    ensures room { vec_capacity stack.new ≡ vec_capacity stack.old }
    ensures empty { (answer : AnswerGiven) → result ≡ Ok (reached.End answer) → stack.new.items ≡ [] }
{
    let mut heard = first;
    loop {
        let top = stack.len() - 1;
        let frame = &mut stack.as_mut_slice()[top];
        match go_on(stage, frame, heard)? {
            Next::Enter(child) => return Ok(Reached::Child(child)),
            Next::GoOn(next) => heard = next,
            Next::Back(answer) => {
                stack.pop();
                match heard_on(stack, answer) {
                    Some(next) => match next_at_once(stage, stack, next) {
                        Some(child) => return Ok(Reached::Child(child)),
                        None => heard = next,
                    },
                    None => return Ok(Reached::End(answer)),
                }
            }
        }
    }
}

/// Visits the root of a runner's tree once: one round of the loop for each node that is entered. The
/// answer or the fault comes with all that the visit has done. Want of memory (out of memory) cuts
/// the visit off: a prefix of its notes was added, and the drivers took the calls that these notes
/// name. After any answer the marks of the arena say which instances are held, and the reserve of
/// the notes is not smaller. `frames` is the stack of the nodes with children whose visits are under
/// way, the one that goes on topmost; what is on it before is dropped. Nodes that answer at once, as
/// leaves, have no frame. It is marked to be inlined, so that the parts of the stage are at hand where it
/// is called; the toolchain may drop the mark from a function of this length.
#[inline(always)]
pub fn tick<D: Drivers, P: Past>(
    stage: &mut Stage<D, P>,
    frames: &mut Vec<Frame>,
) -> Result<Answer, Stop<NodeFault>>
    requires can { (term : Term) × (view : View) × CanVisitOn D.states stage.old 1 term view }
    ensures meets { (term : Term) (view : View) → CanVisitOn D.states stage.old 1 term view →
        MeetsOn D.states (memory_of term 1) result stage.old stage.new (visit_on D.states stage.old 1 term view) }
    ensures same { IsSame stage.old stage.new }
    ensures reserve { OnOk result (stage.new.notes.now.reserve ≡ stage.old.notes.now.reserve) }
    ensures fits { StaysFit stage.old.nodes.now (scene_on D.states stage.old) (scene_on D.states stage.new) }
    // No other place of the arena has changed, not even the one that is no node's.
    ensures beside { (term : Term) (view : View) → CanVisitOn D.states stage.old 1 term view →
        Beside 1 (meaning term).size stage.old.kept.now stage.new.kept.now }
    // After an answer the root can be visited again.
    ensures again { OnOk result ((term : Term) (view : View) →
        CanVisitOn D.states stage.old 1 term view → CanVisitOn D.states stage.new 1 term view) }
    // The drivers have no more calls of `start` and `running` than the work of the tree counts.
    ensures work { (term : Term) (view : View) → CanVisitOn D.states stage.old 1 term view → AllByRecursion NodeRuns (nodes_of term) →
        begun_by (D.states stage.new.drivers.now) ≤ begun_by (D.states stage.old.drivers.now) + work_of term }
    // The room for the visits that are under way does not shrink. Where it is as much as the tree
    // is deep, it stays: no visit allocates memory for its frame.
    ensures room { vec_capacity frames.old ≤ vec_capacity frames.new }
    ensures enough { (term : Term) (view : View) → CanVisitOn D.states stage.old 1 term view →
        depth_of term ≤ vec_capacity frames.old → vec_capacity frames.new ≡ vec_capacity frames.old }
    // After an answer no visit is under way.
    ensures empty { OnOk result (frames.new.items ≡ []) }
{
    frames.clear();
    let mut uid = 1;
    loop {
        let heard = match enter(stage, uid)? {
            Entered::GoesOn(heard) => {
                let mut frame = begun(uid, stage.kept[uid as usize].memo);
                let at_once = goes_on_at_once(stage, &mut frame, heard);
                push_frame(frames, frame)?;
                if at_once {
                    uid = frame.child;
                    continue;
                }
                heard
            }
            Entered::Answers(answer) => match heard_on(frames, answer) {
                Some(heard) => match next_at_once(stage, frames, heard) {
                    Some(child) => {
                        uid = child;
                        continue;
                    }
                    None => heard,
                },
                None => return Ok(answer),
            },
        };
        match reach_child(stage, frames, heard)? {
            Reached::Child(child) => uid = child,
            Reached::End(answer) => return Ok(answer),
        }
    }
}
