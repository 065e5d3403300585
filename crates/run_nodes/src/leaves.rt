ghost use Rattle.std.specs.Prelude.{◌≡◌, ◌+◌, ◌≤◌, ◌<◌, ◌++◌, ℕ, List, IfOk, OnErr, OnOk, Some, bytes_eq, false, length, replicate, slice_set};
ghost use Rattle.std.specs.List.{All, IsDistinct, position_or_len};
ghost use Rattle.spec_script.specs.declared.cells.Seen.TheVariants.{Absent};
ghost use Rattle.spec_run.specs.declared.leaf.Instance.{Instance as Held};
ghost use Rattle.spec_run.specs.declared.memory.Memory.{Memory};
ghost use Rattle.spec_tree.specs.declared.term.Term.{Term-F};
ghost use Rattle.base_tables.specs.DriverCalls.{instance_at};
ghost use Rattle.base_tables.specs.Outputs.{outputs_after, outputs_given};
ghost use Rattle.spec_run.specs.Leaf.{padded};
ghost use Rattle.spec_run.specs.Leaves.{called, phase_of, reply_answer, reply_notes, told_for};
ghost use Rattle.spec_run.specs.Sites.{Meaning, View};
ghost use Rattle.run_driver.specs.Calls.{IsAskedIn, phase_asked};
ghost use Rattle.run_driver.specs.Ready.{ready_told};
ghost use Rattle.run_arena.specs.Ends.{StaysFit};
ghost use Rattle.run_arena.specs.Nodes.{kept_at, leaf_at};
ghost use Rattle.run_arena.specs.Rosters.{IsServed};
ghost use Rattle.run_arena.specs.Sources.{IsSourceOf, source_value};
ghost use Rattle.run_arena.specs.Stages.{IsSame, MeetsOn, scene_on};
ghost use Rattle.run_nodes.specs.Calls.{CallableOn, IsInPhase, IsReadied, WasAsked, answer_on, answer_to, as_given, board_left, mark_left};
ghost use Rattle.run_nodes.specs.Calls.{leaf_written, number_written, outputs_written, seen_inputs, told_written, value_written, values_held};
ghost use Rattle.run_nodes.specs.Here.{FitsHereOn, call_on, in_stop};

use crate::sources::{seen_of, value_of};
use base_texts::{Items, Name, NoMemory, Stop};
use run_arena::{Kept, Notes, ReadyLeaf, Source, Stage, set_held};
use run_driver::{Call, CallPhase, Drivers, Inputs, Outs, ReadySort};
use spec_run::{Answer, NodeFault, Note, Reply, Status};
use spec_script::{Cells, Seen, Value};
use spec_world::ToldOut;
use std::alloc::Global;
use tree_board::{Past, Recorded};

/// The inputs that a driver sees of a leaf without inputs.
static NO_INPUTS: Inputs = [Seen::Absent; 8];

/// Fills in what a driver sees of these inputs; the places after them stay absent. It is not
/// inlined, since most leaves have none.
#[inline(never)]
fn see_inputs<P: Past>(sources: &[Source], board: &Recorded<P>, inputs: &mut Inputs)
    requires read { All (IsSourceOf (length board.now)) sources.now }
    requires few { length sources.now ≤ 8 }
    requires absent { inputs.old ≡ replicate 8 Absent }
    ensures { inputs.new ≡ padded (seen_inputs board.now sources.now) }
{
    for (place, source) in sources.iter().enumerate() {
        inputs[place] = seen_of(source, board);
    }
}

/// A copy of the value that a port is given; none where it has none. The error is want of memory.
fn copy_value<P: Past>(
    alloc: Global,
    source: &Source,
    board: &Recorded<P>,
) -> Result<Option<Value>, NoMemory>
    requires { IsSourceOf (length board.now) source.now }
    ensures { IfOk result (λ value. value ≡ source_value board.now source.now) }
{
    match value_of(source, board) {
        Some(value) => Ok(Some(value.copy(alloc)?)),
        None => Ok(None),
    }
}

/// Copies of what these inputs hold. The error is want of memory.
fn copy_values<P: Past>(
    alloc: Global,
    sources: &[Source],
    board: &Recorded<P>,
) -> Result<Items<Option<Value>>, NoMemory>
    requires { All (IsSourceOf (length board.now)) sources.now }
    ensures { IfOk result (λ values. values ≡ values_held board.now sources.now) }
{
    let mut values = Vec::with_capacity(alloc, sources.len())?;
    for source in sources {
        values.push(copy_value(alloc, source, board)?)?;
    }
    Ok(Items::of(values))
}

/// Writes a number where a slot is given.
fn write_number<P: Past>(source: &Source, n: i64, board: &mut Recorded<P>)
    requires { IsSourceOf (length board.old) source.now }
    ensures written { board.new ≡ number_written source.now n board.old }
    ensures slots { length board.new ≡ length board.old }
{
    match source {
        Source::Slot(slot) => board.put_int(*slot, n),
        Source::Absent | Source::Lit(_) => {}
    }
}

/// Writes the numbers in order, each where a slot is given.
fn write_numbers<P: Past>(sources: &[Source], numbers: &[i64], board: &mut Recorded<P>)
    requires { All (IsSourceOf (length board.old)) sources.now }
    ensures written { board.new ≡ outputs_written sources.now numbers.now board.old }
    ensures slots { length board.new ≡ length board.old }
{
    for (place, source) in sources.iter().enumerate() {
        let Some(n) = numbers.get(place) else {
            return;
        };
        write_number(source, *n, board);
    }
}

/// The place of the first value that was told for this name, and their number where none was.
fn place_told(told: &[ToldOut], name: &Name) -> usize
    ensures { result ≡ position_or_len (λ out. bytes_eq out.port name.now) told.now }
{
    for (place, out) in told.iter().enumerate() {
        if out.port == *name {
            return place;
        }
    }
    told.len()
}

/// Takes the value that was told for this name, where there is one.
fn take_value(told: &mut Vec<ToldOut>, name: &Name) -> Option<Value>
    ensures value { result ≡ told_for told.old.items name.now }
    ensures others { (other : List ℕ) → bytes_eq name.now other ≡ false → told_for told.new.items other ≡ told_for told.old.items other }
{
    let place = place_told(told, name);
    if place >= told.len() {
        return None;
    }
    let ToldOut { port: _, value } = told.remove(place);
    Some(value)
}

/// Puts a value that was told where a slot is given, and drops it else.
fn write_value<P: Past>(source: &Source, value: Option<Value>, board: &mut Recorded<P>)
    requires { IsSourceOf (length board.old) source.now }
    ensures written { board.new ≡ value_written source.now value board.old }
    ensures slots { length board.new ≡ length board.old }
{
    if let Source::Slot(slot) = source {
        match value {
            Some(Value::Int(n)) => board.put_int(*slot, n),
            Some(Value::Text(text)) => board.put_text(*slot, text),
            None => {}
        }
    }
}

/// Writes the values that were told for outputs of these names, in the order of the names, each where a slot is given:
/// each value is moved, and nothing is copied.
fn write_told<P: Past>(
    names: &[Name],
    sources: &[Source],
    mut told: Vec<ToldOut>,
    board: &mut Recorded<P>,
)
    requires read { All (IsSourceOf (length board.old)) sources.now }
    requires names { IsDistinct bytes_eq names.now }
    ensures written { board.new ≡ told_written names.now sources.now told.items board.old }
    ensures slots { length board.new ≡ length board.old }
{
    for (place, source) in sources.iter().enumerate() {
        let Some(name) = names.get(place) else {
            return;
        };
        let value = take_value(&mut told, name);
        write_value(source, value, board);
    }
}

/// The outputs for which a leaf of a row may be told a value.
fn names_told(sort: &ReadySort) -> &[Name]
    ensures { result.now ≡ ready_told sort.now }
{
    match sort {
        ReadySort::Told { outs } => outs.list(),
        _ => &[],
    }
}

/// Writes the outputs of a leaf, each where a slot is given: the values that were told where its row has names for them,
/// and else the numbers. It is not inlined since most leaves have none.
#[inline(never)]
fn write_outputs<P: Past>(leaf: &ReadyLeaf, outs: &mut Outs, board: &mut Recorded<P>)
    requires read { All (IsSourceOf (length board.old)) leaf.now.outputs }
    requires names { IsDistinct bytes_eq (ready_told leaf.now.row.sort) }
    ensures written { board.new ≡ leaf_written (ready_told leaf.now.row.sort) leaf.now.outputs outs.old board.old }
    ensures slots { length board.new ≡ length board.old }
{
    let sources = leaf.outputs.list();
    match names_told(&leaf.row.get().sort) {
        [] => write_numbers(sources, outs.numbers(), board),
        names => {
            if let Some(told) = outs.take_told() {
                write_told(names, sources, told.into_vec(), board);
            }
        }
    }
}

/// What the driver of a leaf of this status is asked: to go on where it is RUNNING, else to begin.
#[inline(always)]
fn asked_at(status: Status) -> CallPhase
    ensures phase { phase_asked result ≡ phase_of status }
    ensures fits { (instance : Held) (now : ℕ) → IsInPhase status instance now → IsAskedIn result instance now }
{
    match status {
        Status::Running => CallPhase::Running,
        _ => CallPhase::Start,
    }
}

/// Lets the driver of a leaf of this status with inputs keep what they hold, where the leaf is told what it answers and is
/// to begin. It is not inlined since most leaves have none. The error is want of memory: then nothing has changed.
#[inline(never)]
fn keep_start<D: Drivers, P: Past>(
    stage: &mut Stage<D, P>,
    leaf: &ReadyLeaf,
    status: Status,
) -> Result<(), NoMemory>
    requires callable { CallableOn D.states stage.old status leaf.now }
    requires inputs { 0 < length leaf.now.inputs }
    ensures ok { OnOk result (IsReadied D.states status leaf.now stage.old stage.new) }
    ensures err { OnErr result (stage.new ≡ stage.old) }
{
    if !leaf.row.get().sort.is_told() {
        return Ok(());
    }
    match asked_at(status) {
        CallPhase::Running => Ok(()),
        CallPhase::Start => {
            let inputs = copy_values(stage.alloc, leaf.inputs.list(), stage.board)?;
            stage
                .drivers
                .keep_inputs(leaf.driver, leaf.instance, inputs);
            Ok(())
        }
    }
}

/// Lets the driver of a leaf of this status keep the inputs of a start where it is to. The error is want of memory: then
/// nothing has changed.
#[inline(always)]
fn keep_inputs<D: Drivers, P: Past>(
    stage: &mut Stage<D, P>,
    leaf: &ReadyLeaf,
    status: Status,
) -> Result<(), NoMemory>
    requires { CallableOn D.states stage.old status leaf.now }
    ensures ok { OnOk result (IsReadied D.states status leaf.now stage.old stage.new) }
    ensures err { OnErr result (stage.new ≡ stage.old) }
{
    match leaf.inputs.list() {
        [] => Ok(()),
        _ => keep_start(stage, leaf, status),
    }
}

/// Calls the driver of a leaf of this status.
#[inline(always)]
fn call_driver<D: Drivers, P: Past>(
    stage: &mut Stage<D, P>,
    leaf: &ReadyLeaf,
    status: Status,
    inputs: &Inputs,
    outs: &mut Outs,
) -> Reply
    requires table { length stage.old.facts.now ≡ leaf.now.row.facts }
    requires served { IsServed (D.states stage.old.drivers.now) leaf.now }
    requires phase { let instance = instance_at (D.states stage.old.drivers.now) leaf.now.driver leaf.now.instance in
        IsInPhase status instance stage.old.moment }
    ensures reply { result ≡ (answer_to D.states stage.old status leaf.now inputs.now).reply }
    ensures asked { WasAsked D.states status leaf.now (answer_to D.states stage.old status leaf.now inputs.now) stage.old stage.new }
    ensures board { stage.new.board.now ≡ stage.old.board.now }
    ensures outs { outs.new ≡ outputs_after (answer_to D.states stage.old status leaf.now inputs.now) outs.old }
{
    let call = Call {
        instance: leaf.instance,
        row: leaf.row.get(),
        inputs,
        phase: asked_at(status),
        moment: stage.moment,
    };
    stage.drivers.call(leaf.driver, &call, stage.facts, outs)
}

/// Calls the driver of a leaf of this status with its inputs. One that is told what it answers looks at none of them, and
/// may have more than are seen.
#[inline(always)]
fn call_with_inputs<D: Drivers, P: Past>(
    stage: &mut Stage<D, P>,
    leaf: &ReadyLeaf,
    status: Status,
    outs: &mut Outs,
) -> Reply
    requires { CallableOn D.states stage.old status leaf.now }
    ensures reply { result ≡ (answer_on D.states stage.old status leaf.now).reply }
    ensures asked { WasAsked D.states status leaf.now (answer_on D.states stage.old status leaf.now) stage.old stage.new }
    ensures board { stage.new.board.now ≡ stage.old.board.now }
    ensures outs { outs.new ≡ outputs_after (answer_on D.states stage.old status leaf.now) outs.old }
{
    if leaf.row.get().sort.is_told() {
        return call_driver(stage, leaf, status, &NO_INPUTS, outs);
    }
    let mut inputs = [Seen::Absent; 8];
    see_inputs(leaf.inputs.list(), stage.board, &mut inputs);
    call_driver(stage, leaf, status, &inputs, outs)
}

/// Writes the outputs of a call whose reply was SUCCESS.
#[inline(always)]
fn write_answer<P: Past>(reply: Reply, leaf: &ReadyLeaf, outs: &mut Outs, board: &mut Recorded<P>)
    requires read { All (IsSourceOf (length board.old)) leaf.now.outputs }
    requires names { IsDistinct bytes_eq (ready_told leaf.now.row.sort) }
    ensures written { board.new ≡ board_left reply leaf.now outs.old board.old }
    ensures slots { length board.new ≡ length board.old }
{
    match reply {
        Reply::Success => match leaf.outputs.list() {
            [] => {}
            _ => write_outputs(leaf, outs, board),
        },
        Reply::Running | Reply::Failure | Reply::Broken(_) => {}
    }
}

/// Calls the driver of a leaf of this status with its inputs, and writes its outputs.
#[inline(always)]
fn make_call<D: Drivers, P: Past>(
    stage: &mut Stage<D, P>,
    leaf: &ReadyLeaf,
    status: Status,
) -> Reply
    requires { CallableOn D.states stage.old status leaf.now }
    ensures reply { result ≡ (answer_on D.states stage.old status leaf.now).reply }
    ensures asked { WasAsked D.states status leaf.now (answer_on D.states stage.old status leaf.now) stage.old stage.new }
    ensures board { let a = answer_on D.states stage.old status leaf.now in
        stage.new.board.now ≡ board_left a.reply leaf.now (outputs_given a) stage.old.board.now }
    ensures slots { length stage.new.board.now ≡ length stage.old.board.now }
{
    let mut outs = Outs::new();
    let reply = match leaf.inputs.list() {
        [] => call_driver(stage, leaf, status, &NO_INPUTS, &mut outs),
        _ => call_with_inputs(stage, leaf, status, &mut outs),
    };
    write_answer(reply, leaf, &mut outs, stage.board);
    reply
}

/// Marks a leaf by the reply of its driver: its instance is held where it is RUNNING. A fault
/// changes nothing.
#[inline(always)]
fn mark(reply: Reply, uid: u32, kept: &mut [Kept])
    requires { uid < length kept.old }
    ensures { kept.new ≡ slice_set kept.old uid (record (kept_at kept.old uid) { held = mark_left reply (kept_at kept.old uid).held }) }
{
    match reply {
        Reply::Running => set_held(kept, uid, true),
        Reply::Success | Reply::Failure => set_held(kept, uid, false),
        Reply::Broken(_) => {}
    }
}

/// The note of a call of a leaf of this status with its answer.
fn called(status: Status, uid: u32, answer: Answer) -> Note
    ensures { result ≡ called (phase_of status) uid answer }
{
    match status {
        Status::Running => Note::Ran { uid, answer },
        _ => Note::Started { uid, answer },
    }
}

/// The answer of a reply, or the fault of its leaf.
fn answer_of(reply: Reply, uid: u32) -> Result<Answer, Stop<NodeFault>>
    ensures { as_given result ≡ in_stop (reply_answer uid reply) }
{
    match reply {
        Reply::Running => Ok(Answer::Running),
        Reply::Success => Ok(Answer::Success),
        Reply::Failure => Ok(Answer::Failure),
        Reply::Broken(cause) => Err(Stop::Fault(NodeFault { uid, cause })),
    }
}

/// Adds the note of a call of a leaf of this status with this reply, in a reserved place; a call
/// with a fault has no note. It gives the answer, or the fault.
#[inline(always)]
fn tell(
    reply: Reply,
    status: Status,
    uid: u32,
    notes: &mut Notes,
) -> Result<Answer, Stop<NodeFault>>
    requires { 0 < notes.old.reserve }
    ensures answer { as_given result ≡ in_stop (reply_answer uid reply) }
    ensures list { notes.new.list ≡ notes.old.list ++ reply_notes (phase_of status) uid reply }
    ensures told { OnOk result (notes.new.reserve + 1 ≡ notes.old.reserve) }
    ensures untold { OnErr result (notes.new.reserve ≡ notes.old.reserve) }
    ensures full { notes.new.full ≡ notes.old.full }
{
    let answer = answer_of(reply, uid)?;
    notes.push_reserved(called(status, uid, answer));
    Ok(answer)
}

/// Calls the driver of the leaf with this uid, with its inputs: to go on where it is RUNNING, else to
/// begin. On SUCCESS its outputs are written. The place of the note is reserved before the call,
/// so that each call that was made has its note, and so are the inputs that its driver is to keep.
/// The error is the leaf's fault, or want of memory, which comes before the call.
#[inline(always)]
pub fn leaf_call<D: Drivers, P: Past>(
    stage: &mut Stage<D, P>,
    leaf: &ReadyLeaf,
    uid: u32,
) -> Result<Answer, Stop<NodeFault>>
    requires here { leaf_at stage.old.nodes.now uid ≡ Some leaf.now }
    requires there { uid < length stage.old.kept.now }
    requires callable { CallableOn D.states stage.old (kept_at stage.old.kept.now uid).status leaf.now }
    ensures meets { (term : Term-F Meaning) (view : View) (ms : List Memory) → FitsHereOn D.states stage.old uid term view →
        MeetsOn D.states (λ _. ms) (as_given result) stage.old stage.new (call_on D.states stage.old uid term view ms) }
    ensures fits { StaysFit stage.old.nodes.now (scene_on D.states stage.old) (scene_on D.states stage.new) }
    ensures kept { let mark = (kept_at stage.new.kept.now uid).held in
        stage.new.kept.now ≡ slice_set stage.old.kept.now uid (record (kept_at stage.old.kept.now uid) { held = mark }) }
    ensures same { IsSame stage.old stage.new }
    ensures reserve { OnOk result (stage.new.notes.now.reserve ≡ stage.old.notes.now.reserve) }
{
    stage.notes.room()?;
    let status = stage.kept[uid as usize].status;
    keep_inputs(stage, leaf, status)?;
    let reply = make_call(stage, leaf, status);
    mark(reply, uid, stage.kept);
    tell(reply, status, uid, stage.notes)
}
