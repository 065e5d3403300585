ghost use Rattle.std.specs.Prelude.{◌≡◌, List, OnOk, Option, if◌then◌else◌, length, slice_set};
ghost use Rattle.spec_script.specs.declared.syntax.Script.{Script};
ghost use Rattle.spec_tree.specs.declared.built_ins.Class.TheVariants.{Leaf as AloneClass};
ghost use Rattle.spec_run.specs.declared.memory.Memory.{Memory};
ghost use Rattle.spec_tree.specs.declared.term.Term.{Term, Term-F};
ghost use Rattle.spec_tree.specs.BuiltIns.{class_of};
ghost use Rattle.spec_run.specs.Done.{State};
ghost use Rattle.spec_run.specs.Leaves.{script_condition, script_node};
ghost use Rattle.spec_run.specs.Sites.{Meaning, View};
ghost use Rattle.spec_run.specs.Visit.{site_of};
ghost use Rattle.run_arena.specs.Ends.{StaysFit};
ghost use Rattle.run_arena.specs.Nodes.{IsCompiled, kept_at, node_at};
ghost use Rattle.run_arena.specs.Stages.{FitsOn, IsSame, Keeps, MeetsOn, scene_on};
ghost use Rattle.run_arena.specs.Stands.{memory_of};
ghost use Rattle.run_nodes.specs.Calls.{PhaseOn, as_given};
ghost use Rattle.run_nodes.specs.Here.{FitsHereOn, rule_on, ruled_on};
ghost use Rattle.run_nodes.specs.Needs.{NeedsAtMost};
ghost use Rattle.run_nodes.specs.Settles.{SettlesWith, on_board};

use crate::ending::end_visit;
use crate::leaves::leaf_call;
use crate::scripts::{run_for_writes, script_holds};
use base_texts::Stop;
use run_arena::{Stage, node};
use run_driver::Drivers;
use script_code::Code;
use spec_run::{Answer, Memo, NodeFault};
use spec_tree::Kind;
use std::alloc::Global;
use tree_board::{Past, Recorded};

/// Visits the Script node with this uid: its code runs, and the answer is SUCCESS. The error is a
/// fault of the code, or want of memory (out of memory).
fn script_node<P: Past>(
    alloc: Global,
    code: &Option<Code>,
    uid: u32,
    board: &mut Recorded<P>,
) -> Result<Answer, Stop<NodeFault>>
    requires { NeedsAtMost (length board.old) code.now }
    ensures settles { (term : Term-F Meaning) (view : View) (script : Option Script) (ms : List Memory) (s : State) →
        IsCompiled view script code.now →
        let answer = script_node script (site_of term view uid) ms (on_board board.old s) in
        SettlesWith ms (as_given result) (on_board board.new s) answer }
    ensures slots { length board.new ≡ length board.old }
{
    match code {
        Some(code) => {
            run_for_writes(alloc, code, uid, board)?;
            Ok(Answer::Success)
        }
        None => Ok(Answer::Skipped),
    }
}

/// Visits the ScriptCondition with this uid: SUCCESS where its code is true, else FAILURE. The
/// error is a fault of the code, or want of memory.
fn script_condition<P: Past>(
    alloc: Global,
    code: &Option<Code>,
    uid: u32,
    board: &mut Recorded<P>,
) -> Result<Answer, Stop<NodeFault>>
    requires { NeedsAtMost (length board.old) code.now }
    ensures settles { (term : Term-F Meaning) (view : View) (script : Option Script) (ms : List Memory) (s : State) →
        IsCompiled view script code.now →
        let answer = script_condition script (site_of term view uid) ms (on_board board.old s) in
        SettlesWith ms (as_given result) (on_board board.new s) answer }
    ensures slots { length board.new ≡ length board.old }
{
    match code {
        Some(code) => Ok(answer_where(script_holds(alloc, code, uid, board)?)),
        None => Ok(Answer::Skipped),
    }
}

/// SUCCESS where this is true, else FAILURE.
fn answer_where(holds: bool) -> Answer
    ensures { result ≡ (if holds then Answer.Success else Answer.Failure) }
{
    if holds {
        Answer::Success
    } else {
        Answer::Failure
    }
}

/// Visits the node with this uid and of this kind, which has no children, up to its answer: a leaf's
/// driver is called, a script node runs its code, and AlwaysSuccess and AlwaysFailure answer as their
/// names say. The memo stays as it was. The error is a fault of the node, or want of memory.
#[inline(always)]
fn lone_rule<D: Drivers, P: Past>(
    stage: &mut Stage<D, P>,
    uid: u32,
    kind: Kind,
) -> Result<Answer, Stop<NodeFault>>
    requires kind { kind ≡ (node_at stage.old.nodes.now uid).kind }
    requires alone { class_of kind ≡ AloneClass }
    requires fits { (term : Term-F Meaning) × (view : View) × FitsHereOn D.states stage.old uid term view }
    requires phase { PhaseOn D.states stage.old uid }
    ensures meets { (term : Term-F Meaning) (view : View) (ms : List Memory) → FitsHereOn D.states stage.old uid term view →
        MeetsOn D.states (λ _. ms) (as_given result) stage.old stage.new (rule_on D.states stage.old uid term view ms) }
    ensures fits { StaysFit stage.old.nodes.now (scene_on D.states stage.old) (scene_on D.states stage.new) }
    ensures kept { let mark = (kept_at stage.new.kept.now uid).held in
        stage.new.kept.now ≡ slice_set stage.old.kept.now uid (record (kept_at stage.old.kept.now uid) { held = mark }) }
    ensures same { IsSame stage.old stage.new }
    ensures reserve { OnOk result (stage.new.notes.now.reserve ≡ stage.old.notes.now.reserve) }
{
    let node = node(stage.nodes, uid);
    match kind {
        Kind::Leaf => match &node.leaf {
            Some(leaf) => leaf_call(stage, leaf, uid),
            None => Ok(Answer::Skipped),
        },
        Kind::ScriptNode => script_node(stage.alloc, &node.code, uid, stage.board),
        Kind::ScriptCondition => script_condition(stage.alloc, &node.code, uid, stage.board),
        Kind::AlwaysSuccess => Ok(Answer::Success),
        Kind::AlwaysFailure => Ok(Answer::Failure),
        _ => unreachable!(),
    }
}

/// Visits the node with this uid and of this kind, which has no children and is not kept from its
/// visit by a guard, and ends the visit. It is inlined, so that a caller who knows the kind visits
/// without a test for it. The error is a fault of the node, or want of memory.
#[inline(always)]
pub fn visit_alone<D: Drivers, P: Past>(
    stage: &mut Stage<D, P>,
    uid: u32,
    kind: Kind,
) -> Result<Answer, Stop<NodeFault>>
    requires kind { kind ≡ (node_at stage.old.nodes.now uid).kind }
    requires alone { class_of kind ≡ AloneClass }
    requires fits { (term : Term) × (view : View) × FitsOn D.states stage.old uid term view }
    requires phase { PhaseOn D.states stage.old uid }
    ensures meets { (term : Term) (view : View) → FitsOn D.states stage.old uid term view →
        MeetsOn D.states (memory_of term uid) result stage.old stage.new (ruled_on D.states stage.old uid term view) }
    ensures keeps { Keeps D.states uid 1 stage.old stage.new }
    ensures reserve { OnOk result (stage.new.notes.now.reserve ≡ stage.old.notes.now.reserve) }
{
    let answer = lone_rule(stage, uid, kind)?;
    end_visit(stage, uid, answer, Memo::Nothing)
}
