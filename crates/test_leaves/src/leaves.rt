//! What the drivers of the modelled world answer, call by call, and what the calls leave.
ghost use Rattle.std.specs.Prelude.{◌≡◌, ◌<◌, ◌≤◌, IfOk, None, Some, length, slice_index_or};
ghost use Rattle.spec_run.specs.Drivers.{NothingHeld};
ghost use Rattle.base_tables.specs.DriverCalls.{kind_of_way};
ghost use Rattle.base_tables.specs.Outputs as outputs;
ghost use Rattle.spec_world.specs.Runnable.{IsRunnableWorld};
ghost use Rattle.spec_world.specs.Worlds.{IsValidWorld};
ghost use Rattle.run_driver.specs.Rules.{rule};
ghost use Rattle.test_leaves.specs.Stages.{IsAtWork};

use base_texts::{Items, Name, NoMemory};
use run_driver::{
    Call, CallPhase, Driver, Drivers, FactTable, Inputs, Outs, ReadyRow, ReadySort, facts_of,
    kind_of, ready,
};
use run_leaves::{Conditions, Gate, Replay, Timed, Told};
use run_loop::Roster;
use spec_run::{Reply, Totals};
use spec_script::{Seen, Value};
use spec_world::{Telling, ToldOut, World};
use std::alloc::{AllocError, Global};
use std::process::Abort;
use world_reader::read_world;

/// A row that is tried, with what its calls get and what they have left.
#[derive(Drop)]
struct Stage {
    /// The place of its driver.
    place: usize,
    row: ReadyRow,
    inputs: Inputs,
    facts: FactTable,
    outs: Outs,
    /// Since when each instance is held, in milliseconds; none where it is not.
    since: Vec<Option<u64>>,
}

/// A script of these lines, which stand between slashes, after the header.
fn script(alloc: Global, lines: &str) -> Result<String, AllocError> {
    let mut text = String::from_str(alloc, "bt-world 1")?;
    for line in lines.split(" / ") {
        text.push('\n')?;
        text.push_str(line)?;
    }
    Ok(text)
}

/// The world of a script, whose lines stand between slashes.
fn world_of(alloc: Global, lines: &str) -> Result<World, NoMemory>
    ensures { IfOk result IsValidWorld }
{
    let text = script(alloc, lines)?;
    let bytes = text.as_bytes();
    if bytes.len() > 1_048_576 {
        return Err(NoMemory);
    }
    match read_world(alloc, bytes) {
        Ok(world) => Ok(world),
        Err(_) => Err(NoMemory),
    }
}

/// Inputs as `7 - text`: a number, an absent one and a text. Those after the last word are absent.
fn inputs_of(words: &str) -> Inputs {
    let mut inputs = [Seen::Absent; 8];
    for (input, word) in inputs.iter_mut().zip(words.split_whitespace()) {
        *input = match word.parse::<i64>() {
            Ok(n) => Seen::Int(n),
            Err(_) if word == "text" => Seen::Text,
            Err(_) => Seen::Absent,
        };
    }
    inputs
}

/// The last row of a world, made ready, and the roster prepared with two instances for each driver.
fn stage_of<D: Drivers>(
    alloc: Global,
    drivers: &mut D,
    world: &World,
    inputs: Inputs,
) -> Result<Stage, NoMemory>
    requires valid { IsRunnableWorld world.now }
    requires quiet { NothingHeld (D.states drivers.old) }
    ensures work { IfOk result (λ stage. IsAtWork (D.states drivers.new) stage.place (kind_of_way (rule stage.row).way) stage.since.items) }
    ensures table { IfOk result (λ stage. length stage.facts ≡ stage.row.facts) }
{
    let [.., row] = world.rows.list() else {
        return Err(NoMemory);
    };
    let Some(place) = drivers.place_of(kind_of(row)) else {
        return Err(NoMemory);
    };
    let counts = vec![in alloc; 2; drivers.count()]?;
    drivers.prepare(counts.as_slice())?;
    let since = vec![in alloc; None; 2]?;
    let facts = facts_of(alloc, world)?;
    Ok(Stage {
        place,
        row: ready(alloc, row, world.facts.list())?,
        inputs,
        facts,
        outs: Outs::new(),
        since,
    })
}

/// The last row of the world of these lines, made ready, and a roster prepared for it that holds
/// nothing.
#[tactic(auto, using(base_tables::proofs::Runnable::runnable_world))]
fn stage_in<D: Drivers>(
    rt: &impl Abort,
    alloc: Global,
    drivers: &mut D,
    lines: &str,
    inputs: &str,
) -> Result<Stage, NoMemory>
    ensures work { IfOk result (λ stage. IsAtWork (D.states drivers.new) stage.place (kind_of_way (rule stage.row).way) stage.since.items) }
    ensures table { IfOk result (λ stage. length stage.facts ≡ stage.row.facts) }
{
    assert!(rt; drivers.holds_nothing());
    let world = world_of(alloc, lines)?;
    let stage = stage_of(alloc, drivers, &world, inputs_of(inputs));
    drop(world);
    stage
}

/// Since when an instance is held after a reply to a leaf that began at `start`; none where it is
/// not held.
fn since_after(reply: Reply, start: u64, before: Option<u64>) -> Option<u64>
    ensures { result ≡ outputs.since_after reply start before }
{
    match reply {
        Reply::Running => Some(start),
        Reply::Success => None,
        Reply::Failure => None,
        Reply::Broken(_) => before,
    }
}

/// Asks for an instance to begin, at the time `now` in milliseconds.
fn begin<D: Drivers>(drivers: &mut D, stage: &mut Stage, instance: u32, now: u64) -> Reply
    requires work { IsAtWork (D.states drivers.old) stage.old.place (kind_of_way (rule stage.old.row).way) stage.old.since.items }
    requires table { length stage.old.facts ≡ stage.old.row.facts }
    requires there { instance < length stage.old.since.items }
    requires free { slice_index_or stage.old.since.items instance None ≡ None }
    ensures work { IsAtWork (D.states drivers.new) stage.new.place (kind_of_way (rule stage.new.row).way) stage.new.since.items }
    ensures table { length stage.new.facts ≡ stage.new.row.facts }
{
    let call = Call {
        instance,
        row: &stage.row,
        inputs: &stage.inputs,
        phase: CallPhase::Start,
        moment: now,
    };
    let reply = drivers.call(stage.place, &call, &mut stage.facts, &mut stage.outs);
    stage.since[instance as usize] = since_after(reply, now, None);
    reply
}

/// Asks for an instance that is held since `start` to go on, at the time `now`, both in milliseconds.
fn go_on<D: Drivers>(
    drivers: &mut D,
    stage: &mut Stage,
    instance: u32,
    start: u64,
    now: u64,
) -> Reply
    requires work { IsAtWork (D.states drivers.old) stage.old.place (kind_of_way (rule stage.old.row).way) stage.old.since.items }
    requires table { length stage.old.facts ≡ stage.old.row.facts }
    requires there { instance < length stage.old.since.items }
    requires held { slice_index_or stage.old.since.items instance None ≡ Some start }
    requires order { start ≤ now }
    ensures work { IsAtWork (D.states drivers.new) stage.new.place (kind_of_way (rule stage.new.row).way) stage.new.since.items }
    ensures table { length stage.new.facts ≡ stage.new.row.facts }
{
    let call = Call {
        instance,
        row: &stage.row,
        inputs: &stage.inputs,
        phase: CallPhase::Running,
        moment: now,
    };
    let reply = drivers.call(stage.place, &call, &mut stage.facts, &mut stage.outs);
    stage.since[instance as usize] = since_after(reply, start, Some(start));
    reply
}

/// Calls `halted` for an instance that is held since `start`.
fn release<D: Drivers>(drivers: &mut D, stage: &mut Stage, instance: u32, start: u64)
    requires work { IsAtWork (D.states drivers.old) stage.old.place (kind_of_way (rule stage.old.row).way) stage.old.since.items }
    requires table { length stage.old.facts ≡ stage.old.row.facts }
    requires there { instance < length stage.old.since.items }
    requires held { slice_index_or stage.old.since.items instance None ≡ Some start }
    ensures work { IsAtWork (D.states drivers.new) stage.new.place (kind_of_way (rule stage.new.row).way) stage.new.since.items }
    ensures table { length stage.new.facts ≡ stage.new.row.facts }
{
    drivers.halted(stage.place, instance);
    stage.since[instance as usize] = None;
}

/// Visits the leaf of an instance at the time `now`: it begins where it is not held, else it goes on.
/// None where there is no such instance, or where it is held since a later time.
fn visit<D: Drivers>(drivers: &mut D, stage: &mut Stage, instance: u32, now: u64) -> Option<Reply>
    requires work { IsAtWork (D.states drivers.old) stage.old.place (kind_of_way (rule stage.old.row).way) stage.old.since.items }
    requires table { length stage.old.facts ≡ stage.old.row.facts }
    ensures work { IsAtWork (D.states drivers.new) stage.new.place (kind_of_way (rule stage.new.row).way) stage.new.since.items }
    ensures table { length stage.new.facts ≡ stage.new.row.facts }
{
    if instance as usize >= stage.since.len() {
        return None;
    }
    match stage.since[instance as usize] {
        None => Some(begin(drivers, stage, instance, now)),
        Some(start) if start <= now => Some(go_on(drivers, stage, instance, start, now)),
        Some(_) => None,
    }
}

/// Halts the leaf of an instance. False where it is not held.
fn halt<D: Drivers>(drivers: &mut D, stage: &mut Stage, instance: u32) -> bool
    requires work { IsAtWork (D.states drivers.old) stage.old.place (kind_of_way (rule stage.old.row).way) stage.old.since.items }
    requires table { length stage.old.facts ≡ stage.old.row.facts }
    ensures work { IsAtWork (D.states drivers.new) stage.new.place (kind_of_way (rule stage.new.row).way) stage.new.since.items }
    ensures table { length stage.new.facts ≡ stage.new.row.facts }
{
    if instance as usize >= stage.since.len() {
        return false;
    }
    match stage.since[instance as usize] {
        None => false,
        Some(start) => {
            release(drivers, stage, instance, start);
            true
        }
    }
}

/// What is told by `SUCCESS NAME=INT ..`; FAILURE by other words.
fn telling_of(alloc: Global, words: &str) -> Result<Telling, NoMemory> {
    let Some(outs) = words.strip_prefix("SUCCESS") else {
        return Ok(Telling::Failure);
    };
    let mut told = Vec::new(alloc);
    for out in outs.split_whitespace() {
        let (port, n) = out.split_once('=').unwrap_or((out, ""));
        told.push(ToldOut {
            port: Name::copied(alloc, port.as_bytes())?,
            value: Value::Int(n.parse().unwrap_or(0)),
        })?;
    }
    Ok(Telling::Success(Items::of(told)))
}

/// Tells the leaf of an instance. False where there is no such instance, or where the row's leaves are not told what
/// they answer.
fn tell<D: Drivers>(drivers: &mut D, stage: &Stage, instance: u32, telling: Telling) -> bool
    requires { IsAtWork (D.states drivers.old) stage.now.place (kind_of_way (rule stage.now.row).way) stage.now.since.items }
    ensures { IsAtWork (D.states drivers.new) stage.now.place (kind_of_way (rule stage.now.row).way) stage.now.since.items }
{
    if instance as usize >= stage.since.len() {
        return false;
    }
    match &stage.row.sort {
        ReadySort::Sensed | ReadySort::Told { .. } => {
            drivers.tell(stage.place, instance, telling);
            true
        }
        _ => false,
    }
}

/// Whether the leaf could be told what is written `1 SUCCESS p=5`, of the second instance.
fn told_by<D: Drivers>(
    alloc: Global,
    drivers: &mut D,
    stage: &Stage,
    words: &str,
) -> Result<bool, NoMemory>
    requires { IsAtWork (D.states drivers.old) stage.now.place (kind_of_way (rule stage.now.row).way) stage.now.since.items }
    ensures { IsAtWork (D.states drivers.new) stage.now.place (kind_of_way (rule stage.now.row).way) stage.now.since.items }
{
    let (instance, words) = words.split_once(' ').unwrap_or((words, ""));
    let telling = telling_of(alloc, words)?;
    let instance = instance.parse().unwrap_or(9);
    Ok(tell(drivers, stage, instance, telling))
}

/// The answer to a call, which is written `1 at 5`, a visit of the second instance at the time 5,
/// `halt 1`, or `tell 1 SUCCESS p=5`.
fn answer_text<D: Drivers>(
    alloc: Global,
    drivers: &mut D,
    stage: &mut Stage,
    call: &str,
) -> Result<String, NoMemory>
    requires work { IsAtWork (D.states drivers.old) stage.old.place (kind_of_way (rule stage.old.row).way) stage.old.since.items }
    requires table { length stage.old.facts ≡ stage.old.row.facts }
    ensures work { IsAtWork (D.states drivers.new) stage.new.place (kind_of_way (rule stage.new.row).way) stage.new.since.items }
    ensures table { length stage.new.facts ≡ stage.new.row.facts }
{
    if let Some(instance) = call.strip_prefix("halt ") {
        let halted = halt(drivers, stage, instance.parse().unwrap_or(9));
        return Ok(format!(in alloc; "halted {halted}")?);
    }
    if let Some(words) = call.strip_prefix("tell ") {
        let told = told_by(alloc, drivers, stage, words)?;
        return Ok(format!(in alloc; "told {told}")?);
    }
    let (instance, now) = call.split_once(" at ").unwrap_or((call, ""));
    let instance = instance.parse().unwrap_or(9);
    let now = now.parse().unwrap_or(0);
    let answer = match visit(drivers, stage, instance, now) {
        Some(reply) => format!(in alloc; "{reply:?}"),
        None => format!(in alloc; "no call"),
    };
    Ok(answer?)
}

/// The answers to calls, in order.
fn answers_text<D: Drivers>(
    alloc: Global,
    drivers: &mut D,
    stage: &mut Stage,
    calls: &str,
) -> Result<String, NoMemory>
    requires work { IsAtWork (D.states drivers.old) stage.old.place (kind_of_way (rule stage.old.row).way) stage.old.since.items }
    requires table { length stage.old.facts ≡ stage.old.row.facts }
    ensures work { IsAtWork (D.states drivers.new) stage.new.place (kind_of_way (rule stage.new.row).way) stage.new.since.items }
    ensures table { length stage.new.facts ≡ stage.new.row.facts }
{
    let mut text = String::new(alloc);
    for call in calls.split(", ") {
        text.push_str(answer_text(alloc, drivers, stage, call)?.as_str())?;
        text.push_str("; ")?;
    }
    Ok(text)
}

/// The values that were told last, as `; told p=5`; nothing where there is none.
fn told_text(alloc: Global, told: Option<Items<ToldOut>>) -> Result<String, NoMemory> {
    let mut text = String::new(alloc);
    let told = told.unwrap_or(Items::of(Vec::new(alloc)));
    if !told.list().is_empty() {
        text.push_str("; told")?;
    }
    for out in told.list() {
        let Ok(port) = str::from_utf8(out.port.list()) else {
            continue;
        };
        match &out.value {
            Value::Int(n) => text.push_str(format!(in alloc; " {port}={n}")?.as_str())?,
            Value::Text(_) => text.push_str(format!(in alloc; " {port}=text")?.as_str())?,
        }
    }
    Ok(text)
}

/// The facts, and the outputs that were made last.
fn left_text(alloc: Global, stage: &Stage) -> Result<String, AllocError>
    requires { length stage.now.facts ≡ stage.now.row.facts }
{
    let mut text = String::from_str(alloc, "facts")?;
    for fact in 0..stage.row.facts {
        text.push_str(format!(in alloc; " {}", stage.facts.get(fact))?.as_str())?;
    }
    text.push_str(format!(in alloc; "; outputs {:?}", stage.outs.numbers())?.as_str())?;
    Ok(text)
}

/// What calls of a row answer, and what they leave.
fn calls_text<D: Drivers>(
    alloc: Global,
    drivers: &mut D,
    stage: &mut Stage,
    calls: &str,
) -> Result<String, NoMemory>
    requires work { IsAtWork (D.states drivers.old) stage.old.place (kind_of_way (rule stage.old.row).way) stage.old.since.items }
    requires table { length stage.old.facts ≡ stage.old.row.facts }
    ensures { IsAtWork (D.states drivers.new) stage.new.place (kind_of_way (rule stage.new.row).way) stage.new.since.items }
{
    let answers = answers_text(alloc, drivers, stage, calls)?;
    let left = left_text(alloc, stage)?;
    let told = told_text(alloc, stage.outs.take_told())?;
    let held = if drivers.holds_nothing() {
        ""
    } else {
        "; held"
    };
    Ok(format!(in alloc; "{answers}{left}{told}{held}")?)
}

/// What calls of the last row of a world answer and leave, and how often they called its driver.
fn told<D: Drivers>(
    rt: &impl Abort,
    alloc: Global,
    drivers: &mut D,
    lines: &str,
    inputs: &str,
    calls: &str,
) -> Result<(String, Totals), NoMemory> {
    let mut stage = stage_in(rt, alloc, drivers, lines, inputs)?;
    let text = calls_text(alloc, drivers, &mut stage, calls);
    let totals = drivers.totals(stage.place);
    drop(stage);
    Ok((text?, totals))
}

/// What such calls answer and leave, and their counts, with the five drivers.
fn row_told(
    rt: &impl Abort,
    alloc: Global,
    lines: &str,
    inputs: &str,
    calls: &str,
) -> Result<(String, Totals), NoMemory> {
    let mut drivers: Vec<Box<dyn Driver>> = Vec::new(alloc);
    drivers.push(Box::new(alloc, Conditions::new(alloc))?)?;
    drivers.push(Box::new(alloc, Timed::new(alloc))?)?;
    drivers.push(Box::new(alloc, Replay::new(alloc))?)?;
    drivers.push(Box::new(alloc, Gate::new(alloc))?)?;
    drivers.push(Box::new(alloc, Told::new(alloc))?)?;
    let mut roster = Roster { drivers };
    told(rt, alloc, &mut roster, lines, inputs, calls)
}

/// Compares rows: the lines of a world, the inputs of its last row, calls of it, and what they
/// answer and leave.
fn compare_rows(
    rt: &impl Abort,
    alloc: Global,
    rows: &[(&str, &str, &str, &str)],
) -> Result<(), NoMemory> {
    for (lines, inputs, calls, want) in rows {
        let (text, _) = row_told(rt, alloc, lines, inputs, calls)?;
        assert_eq!(rt; text.as_str(), *want, "{lines}");
    }
    Ok(())
}

/// Conditions, with what their calls answer and leave.
#[test]
fn conditions_answer_at_once(rt: HostRuntime) -> Result<(), NoMemory> {
    compare_rows(
        &rt,
        rt.alloc(),
        &[
            (
                "fact x 1 / condition C is x == 1",
                "",
                "0 at 0, 0 at 5",
                "Success; Success; facts 1; outputs []",
            ),
            (
                "fact w 1 / fact x 2 / condition C is x == 1",
                "",
                "1 at 0",
                "Failure; facts 1 2; outputs []",
            ),
            (
                "fact x 4 / condition C(p) when p == x",
                "4",
                "0 at 0",
                "Success; facts 4; outputs []",
            ),
            (
                "fact x 4 / condition C(p) when p == x",
                "5",
                "0 at 0, 0 at 1",
                "Failure; Failure; facts 4; outputs []",
            ),
            (
                "fact p 1 / condition C(p) when p",
                "0",
                "0 at 0",
                "Failure; facts 1; outputs []",
            ),
            (
                "condition C(p) when p",
                "",
                "0 at 0",
                "Broken(NoInput { place: 0 }); facts; outputs []",
            ),
            (
                "condition C(p,q) when p + q",
                "1 -",
                "0 at 0",
                "Broken(NoInput { place: 1 }); facts; outputs []",
            ),
            (
                "condition C(p,q) when p || q",
                "1 -",
                "0 at 0",
                "Success; facts; outputs []",
            ),
            (
                "condition C(p,q) when p + q",
                "1 text",
                "0 at 0",
                "Broken(Mixed); facts; outputs []",
            ),
            (
                "fact x 9223372036854775807 / condition C when x + 1",
                "",
                "0 at 0",
                "Broken(Overflow); facts 9223372036854775807; outputs []",
            ),
        ],
    )
}

/// Actions, with what their calls answer and leave.
#[test]
fn actions_answer_by_their_rows(rt: HostRuntime) -> Result<(), NoMemory> {
    compare_rows(
        &rt,
        rt.alloc(),
        &[
            (
                "action A timed 300",
                "",
                "0 at 100, 0 at 399, 0 at 400, 0 at 400",
                "Running; Running; Success; Running; facts; outputs []; held",
            ),
            // a length that is worked out at each start, and kept until the end
            (
                "fact x 300 / action A timed (x) / sets x = 5",
                "",
                "0 at 100, 0 at 399, 0 at 400, 0 at 400, 0 at 404, 0 at 405",
                "Running; Running; Success; Running; Running; Success; facts 5; outputs []",
            ),
            (
                "fact x 300 / action A timed (x) / sets x = 5",
                "",
                "0 at 0, 1 at 0, 1 at 300, 0 at 299, 0 at 300",
                "Running; Running; Success; Running; Success; facts 5; outputs []",
            ),
            (
                "fact x 0 / action A timed (x) / fails 1 - x",
                "",
                "0 at 7",
                "Failure; facts 0; outputs []",
            ),
            (
                "action A(p) timed (p - 1)",
                "1000000000001",
                "0 at 0, 0 at 999999999999, 0 at 1000000000000",
                "Running; Running; Success; facts; outputs []",
            ),
            (
                "action A(p) timed (p)",
                "1000000000001",
                "0 at 0",
                "Broken(Range); facts; outputs []",
            ),
            (
                "fact x -1 / action A timed (x) / sets x = 0",
                "",
                "0 at 0, 0 at 1",
                "Broken(Range); Broken(Range); facts -1; outputs []",
            ),
            (
                "action A(p) timed (p)",
                "-",
                "0 at 0",
                "Broken(NoInput { place: 0 }); facts; outputs []",
            ),
            (
                "action A(p) timed (p)",
                "text",
                "0 at 0",
                "Broken(Mixed); facts; outputs []",
            ),
            (
                "fact x 0 / action A timed (1/x)",
                "",
                "0 at 0",
                "Broken(ZeroDivisor); facts 0; outputs []",
            ),
            // `fails` with a fault, found when the time is over: the instance is still held
            (
                "fact x 0 / action A timed 10 / fails 1/x / sets x = 5",
                "",
                "0 at 0, 0 at 10, 0 at 11",
                "Running; Broken(ZeroDivisor); Broken(ZeroDivisor); facts 0; outputs []; held",
            ),
            (
                "fact x 0 / action A timed 0 / fails 1/x",
                "",
                "0 at 0",
                "Broken(ZeroDivisor); facts 0; outputs []",
            ),
            // `fails` is 0, then is not
            (
                "fact x 0 / action A timed 10 / fails x / sets x = 5",
                "",
                "0 at 0, 0 at 10, 0 at 10, 0 at 20",
                "Running; Success; Running; Failure; facts 5; outputs []",
            ),
            (
                "action A(p) timed 0 / fails p",
                "-",
                "0 at 0",
                "Broken(NoInput { place: 0 }); facts; outputs []",
            ),
            (
                "action A(p) timed 0 / fails p",
                "text",
                "0 at 0",
                "Broken(Mixed); facts; outputs []",
            ),
            // letters after the last one, and the letter that a halt does not use up
            (
                "action A replay 0 SF",
                "",
                "0 at 0, 0 at 0, 0 at 0, 0 at 0, 1 at 0",
                "Success; Failure; Failure; Failure; Success; facts; outputs []",
            ),
            (
                "action A replay 5 FS",
                "",
                "0 at 0, halt 0, 0 at 1, 0 at 6, 0 at 6, 0 at 11",
                "Running; halted true; Running; Failure; Running; Success; facts; outputs []",
            ),
            // a fault of an output is no completion
            (
                "fact x 0 / action A replay 0 SF / sets x = 1 / out p = 1/x",
                "",
                "0 at 0, 0 at 0",
                "Broken(ZeroDivisor); Broken(ZeroDivisor); facts 0; outputs []",
            ),
            // gates
            (
                "fact x 0 / action A gate 1/x",
                "",
                "0 at 0",
                "Broken(ZeroDivisor); facts 0; outputs []",
            ),
            (
                "fact x 1 / action A gate x / sets x = 0 / out p = x",
                "",
                "0 at 0, 0 at 0, 0 at 9",
                "Success; Running; Running; facts 0; outputs [1]; held",
            ),
            (
                "action A(p) gate p",
                "7",
                "0 at 0",
                "Success; facts; outputs []",
            ),
            // outputs over the facts before the effects
            (
                "fact x 7 / fact y 0 / action A(p) timed 0 / sets x = 1 / sets y = 2 / out l = x / out r = p * x + y",
                "3",
                "0 at 0, 0 at 0",
                "Success; Success; facts 1 2; outputs [1, 5]",
            ),
            // a fault changes no fact and no output
            (
                "fact x 4 / action A timed 0 / sets x = 3 / out l = x / out r = 8/x",
                "",
                "0 at 0, 0 at 0",
                "Success; Broken(NotWhole); facts 3; outputs [4, 2]",
            ),
        ],
    )
}

/// Leaves that are told what they answer, with what their calls answer and leave.
#[test]
fn told_leaves_answer_what_they_were_told(rt: HostRuntime) -> Result<(), NoMemory> {
    compare_rows(
        &rt,
        rt.alloc(),
        &[
            // an action is held until it is told how it ended
            (
                "action A told",
                "",
                "0 at 0, 0 at 9",
                "Running; Running; facts; outputs []; held",
            ),
            (
                "fact x 3 / action A told / out p / out q",
                "",
                "0 at 0, tell 0 SUCCESS p=7 q=-1, 0 at 5",
                "Running; told true; Success; facts 3; outputs []; told p=7 q=-1",
            ),
            (
                "action A told / out p",
                "",
                "0 at 0, tell 0 FAILURE, 0 at 5",
                "Running; told true; Failure; facts; outputs []",
            ),
            // it ends once, and then waits again
            (
                "action A told / out p",
                "",
                "0 at 0, tell 0 SUCCESS p=7, 0 at 5, 0 at 5",
                "Running; told true; Success; Running; facts; outputs []; told p=7; held",
            ),
            // before it begins
            (
                "action A told / out p",
                "",
                "tell 0 SUCCESS p=7, 0 at 5, 0 at 6",
                "told true; Success; Running; facts; outputs []; told p=7; held",
            ),
            (
                "action A told",
                "",
                "tell 0 FAILURE, 0 at 5, tell 0 SUCCESS, 0 at 6",
                "told true; Failure; told true; Success; facts; outputs []",
            ),
            // the last telling counts
            (
                "action A told / out p / out q",
                "",
                "0 at 0, tell 0 FAILURE, tell 0 SUCCESS p=1 q=2, tell 0 SUCCESS q=3, 0 at 1",
                "Running; told true; told true; told true; Success; facts; outputs []; told q=3",
            ),
            (
                "action A told / out p",
                "",
                "tell 0 SUCCESS p=1, tell 0 FAILURE, 0 at 1",
                "told true; told true; Failure; facts; outputs []",
            ),
            // a halt forgets what was told
            (
                "action A told / out p",
                "",
                "0 at 0, tell 0 SUCCESS p=1, halt 0, 0 at 1",
                "Running; told true; halted true; Running; facts; outputs []; held",
            ),
            // each instance is told by itself
            (
                "action A told / out p",
                "",
                "tell 1 SUCCESS p=1, 0 at 0, 1 at 0, 1 at 1",
                "told true; Running; Success; Running; facts; outputs []; told p=1; held",
            ),
            // a failure leaves the outputs that stand
            (
                "action A told / out p",
                "",
                "tell 0 SUCCESS p=1, 0 at 0, tell 0 FAILURE, 0 at 1",
                "told true; Success; told true; Failure; facts; outputs []; told p=1",
            ),
            // a condition that was told nothing is false, and one that was told something keeps it
            (
                "condition C told",
                "",
                "0 at 0, 0 at 1",
                "Failure; Failure; facts; outputs []",
            ),
            (
                "condition C(p) told",
                "text",
                "tell 0 SUCCESS, 0 at 0, 0 at 5, tell 0 FAILURE, 0 at 6, 0 at 7",
                "told true; Success; Success; told true; Failure; Failure; facts; outputs []",
            ),
            (
                "condition C told",
                "",
                "tell 0 SUCCESS p=1, 0 at 0, 1 at 0",
                "told true; Success; Failure; facts; outputs []",
            ),
            // other rows are told nothing
            (
                "fact x 1 / condition C is x == 1",
                "",
                "tell 0 FAILURE, 0 at 0",
                "told false; Success; facts 1; outputs []",
            ),
            (
                "action A timed 5",
                "",
                "0 at 0, tell 0 SUCCESS, tell 2 SUCCESS, 0 at 1",
                "Running; told false; told false; Running; facts; outputs []; held",
            ),
        ],
    )
}

/// Rows with effects that add to a fact.
#[test]
fn effects_add(rt: HostRuntime) -> Result<(), NoMemory> {
    compare_rows(
        &rt,
        rt.alloc(),
        &[
            (
                "fact x 7 / fact y 0 / action A timed 0 / sets y += 0 / sets x += -1 / out p = x",
                "",
                "0 at 0, 0 at 0, 1 at 0",
                "Success; Success; Success; facts 4 0; outputs [5]",
            ),
            // up to the least and the greatest number of 64 bits
            (
                "fact x -1 / fact y -9223372036854775808 / action A gate 1 / sets x += -9223372036854775807 / sets y += 9223372036854775807",
                "",
                "0 at 0",
                "Success; facts -9223372036854775808 -1; outputs []",
            ),
            (
                "fact x 9223372036854775806 / action A timed 0 / sets x += 1 / out p = x",
                "",
                "0 at 0, 0 at 0",
                "Success; Broken(Overflow); facts 9223372036854775807; outputs [9223372036854775806]",
            ),
            // the second overflows, and the first is not applied
            (
                "fact x 1 / fact y 9223372036854775807 / action A timed 0 / sets x = 5 / sets y += 1 / out p = x",
                "",
                "0 at 0, 0 at 0",
                "Broken(Overflow); Broken(Overflow); facts 1 9223372036854775807; outputs []",
            ),
            (
                "fact x 1 / fact y 9223372036854775807 / action A timed 0 / sets y += 1 / sets x = 5",
                "",
                "0 at 0",
                "Broken(Overflow); facts 1 9223372036854775807; outputs []",
            ),
            // an overflow is no completion, and a held instance stays held
            (
                "fact x -9223372036854775808 / action A replay 5 SF / sets x += -1",
                "",
                "0 at 0, 0 at 5, 0 at 6",
                "Running; Broken(Overflow); Broken(Overflow); facts -9223372036854775808; outputs []; held",
            ),
            (
                "fact x 9223372036854775807 / action A gate x / sets x += 1",
                "",
                "0 at 0",
                "Broken(Overflow); facts 9223372036854775807; outputs []",
            ),
            // a fault of an output comes first
            (
                "fact x 9223372036854775807 / action A timed 0 / sets x += 1 / out p = 1/(x - x)",
                "",
                "0 at 0",
                "Broken(ZeroDivisor); facts 9223372036854775807; outputs []",
            ),
            // no effect without success
            (
                "fact x 9223372036854775807 / action A replay 0 F / sets x += 1",
                "",
                "0 at 0",
                "Failure; facts 9223372036854775807; outputs []",
            ),
        ],
    )
}

/// After 64 completions the last outcome stays.
#[test]
fn last_outcomes_stay(rt: HostRuntime) -> Result<(), NoMemory> {
    let alloc = rt.alloc();
    let lines = format!(in alloc; "action A replay 0 {}S", "F".repeat(alloc, 63)?)?;
    let calls = format!(in alloc; "{}0 at 0", "0 at 0, ".repeat(alloc, 64)?)?;
    let want = format!(in alloc;
        "{}Success; Success; facts; outputs []",
        "Failure; ".repeat(alloc, 63)?
    )?;
    compare_rows(
        &rt,
        alloc,
        &[(lines.as_str(), "", calls.as_str(), want.as_str())],
    )
}

/// Calls, with the counts of the driver and their trail.
#[test]
fn calls_are_counted(rt: HostRuntime) -> Result<(), NoMemory> {
    let alloc = rt.alloc();
    for (lines, calls, counts, trail) in [
        ("action A timed 9", "0 at 0", (1, 0, 0), 1),
        ("action A timed 9", "0 at 0, 1 at 0", (2, 0, 0), 1_000_007),
        (
            "action A timed 9",
            "0 at 0, 1 at 0, 0 at 5",
            (2, 1, 0),
            1_000_010_000_023,
        ),
        (
            "action A timed 9",
            "0 at 0, 1 at 0, 0 at 5, halt 1",
            (2, 1, 1),
            1_000_013_000_053_000_075,
        ),
        // a trail past 2^64
        (
            "action A timed 9",
            "0 at 0, 1 at 0, 0 at 5, halt 1, 0 at 9",
            (2, 2, 1),
            18_003_856_205_440_896_867,
        ),
        // a telling changes the trail alone
        (
            "action A told",
            "0 at 0, tell 0 FAILURE, 0 at 1",
            (1, 1, 0),
            1_000_010_000_023,
        ),
        (
            "condition C told",
            "tell 1 SUCCESS, 1 at 0",
            (1, 0, 0),
            7_000_025,
        ),
        // a call with a fault counts too
        (
            "fact x 0 / action A timed 0 / fails 1/x",
            "1 at 0",
            (1, 0, 0),
            4,
        ),
    ] {
        let (_, totals) = row_told(&rt, alloc, lines, "", calls)?;
        let (starts, runnings, haltings) = counts;
        let want = Totals {
            starts,
            runnings,
            haltings,
            trail,
        };
        assert_eq!(rt; totals, want, "{calls}");
    }
    Ok(())
}
