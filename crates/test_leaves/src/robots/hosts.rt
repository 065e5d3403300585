//! Runs over drivers that a host has boxed itself and holds in a vector: their making, event by event,
//! and their finishes.

ghost use Rattle.std.specs.Prelude.{◌≡◌, Ok, IfOk, OnOk, List, None, map};
ghost use Rattle.tree_elements.specs.Valid.{IsValid as IsValidElement};
ghost use Rattle.spec_tree_file.specs.Models.{manifest_in};
ghost use Rattle.base_tables.specs.SlotTables.{slot_table};
ghost use Rattle.spec_run.specs.Drivers.{DriverState};
ghost use Rattle.spec_run.specs.Joins.{first_untold};
ghost use Rattle.base_tables.specs.Runnable.{IsRunnable};
ghost use Rattle.spec_world.specs.Runnable.{IsRunnableWorld};
ghost use Rattle.spec_world.specs.Worlds.{IsValidWorld};
ghost use Rattle.run_loop.specs.Runs.{AreRuns, arenas_of};
ghost use Rattle.spec_run.specs.Served.{Setup};
ghost use Rattle.spec_tree.specs.Trees.{nodes_of};
ghost use Rattle.run_loop.specs.Steps.{HaveRoom, event_side};
ghost use Rattle.test_leaves.specs.Robots.Going.{CanGoOn};

use base_outside::SureSink;
use base_texts::{Items, NoMemory, Stop};
use run_arena::{Block, block_for};
use run_driver::{Driver, hold_nothing};
use run_leaves::{Conditions, Replay, Timed, Told};
use run_loop::{Runs, event, finish, leaves, runs_of, tellings_fit};
use spec_run::{JoinFault, RunFault};
use spec_tree::Tree;
use spec_tree_file::Elements;
use spec_world::{Event, Telling, What, World};
use std::alloc::Global;
use std::process::Abort;
use text_lines::{Names, names_of, write_block};
use tree_board::{Slots, slots_of};
use tree_build::build;
use tree_elements::read_elements;
use tree_manifest::{Manifest, manifest_of};
use world_reader::read_world;

/// The nodes of a tree, a world script, and what is told of the runs.
struct Row {
    nodes: &'static str,
    world: &'static str,
    want: &'static str,
}

/// Runs that are under way, the block in which each of their events is told, and the lines so far, with
/// the names in them.
#[derive(Drop)]
struct Underway {
    runs: Runs,
    block: Block,
    names: Names,
    lines: SureSink,
}

/// Makes a block for runs before their first event, and no lines yet. The fault is what is missing for the events of
/// their world.
fn begin(
    alloc: Global,
    tree: &Tree,
    world: &World,
    slots: &Slots,
    runs: Runs,
) -> Result<Underway, Stop<JoinFault>>
    ghost of: { Setup }
    requires tree { IsRunnable of.tree }
    requires world { IsRunnableWorld of.world }
    requires runs { (drivers : List DriverState) × AreRuns of.tree of.world drivers runs }
    requires slots { slots.now ≡ slot_table tree.now }
    ensures told { OnOk result (first_untold of.world.rows (nodes_of of.tree.term) world.now.events ≡ None) }
    ensures runs { IfOk result (λ underway. underway.runs ≡ runs) }
    ensures room { IfOk result (λ underway. HaveRoom (arenas_of runs) underway.block.notes) }
{
    if let Err(fault) = tellings_fit(&runs, world.events.list()) {
        return Err(Stop::Fault(fault));
    }
    let block = block_for(alloc, leaves(&runs) as u32)?;
    let names = names_of(alloc, tree, world, slots)?;
    let lines = SureSink::new(alloc);
    Ok(Underway {
        runs,
        block,
        names,
        lines,
    })
}

/// Adds the lines of the block of the last event.
fn tell(alloc: Global, underway: &mut Underway) -> Result<(), NoMemory>
    ensures runs { underway.new.runs ≡ underway.old.runs }
    ensures block { underway.new.block ≡ underway.old.block }
{
    match write_block(alloc, &mut underway.lines, &underway.block, &underway.names) {
        Ok(()) => Ok(()),
        Err(_) => Err(NoMemory),
    }
}

/// What a leaf is told, once more. No row here tells values.
fn telling_like(alloc: Global, telling: &Telling) -> Result<Telling, NoMemory>
    ensures { IfOk result (λ like. like ≡ telling.now) }
{
    match telling {
        Telling::Failure => Ok(Telling::Failure),
        Telling::Success(outs) => match outs.list() {
            [] => Ok(Telling::Success(Items::of(Vec::new(alloc)))),
            _ => Err(NoMemory),
        },
    }
}

/// What an event does, once more.
fn what_like(alloc: Global, what: &What) -> Result<What, NoMemory>
    ensures { IfOk result (λ like. like ≡ what.now) }
{
    Ok(match what {
        What::Tick(runner) => What::Tick(*runner),
        What::Halt(runner) => What::Halt(*runner),
        What::Change { fact, value } => What::Change {
            fact: *fact,
            value: *value,
        },
        What::Tell {
            runner,
            uid,
            telling,
        } => What::Tell {
            runner: *runner,
            uid: *uid,
            telling: telling_like(alloc, telling)?,
        },
    })
}

/// An event of a list, once more, for the runs to take.
fn event_like(alloc: Global, event: &Event) -> Result<Event, NoMemory>
    ensures { IfOk result (λ like. like ≡ event.now) }
{
    Ok(Event {
        at: event.at,
        what: what_like(alloc, &event.what)?,
    })
}

/// Makes the events of a world in order, and tells the block of each.
fn make_events(
    rt: &impl Abort,
    alloc: Global,
    underway: &mut Underway,
    world: &World,
    drivers: &mut Vec<Box<dyn Driver>>,
) -> Result<(), Stop<RunFault>>
    requires world { IsValidWorld world.now }
    requires on { CanGoOn world.now (event_side (map (λ b. state b) drivers.old.items) underway.old.runs underway.old.block) }
    ensures { OnOk result
        (CanGoOn world.now (event_side (map (λ b. state b) drivers.new.items) underway.new.runs underway.new.block)) }
{
    for next in world.events.list() {
        // The events of a world are in order, which is asserted here and not proved again.
        assert!(rt; underway.runs.last <= next.at);
        let like = event_like(alloc, next)?;
        let made = event(
            alloc,
            &mut underway.runs,
            like,
            drivers,
            &mut underway.block,
        );
        tell(alloc, underway)?;
        made?;
    }
    Ok(())
}

/// Finishes the runners of a world in order, and tells the block of each.
fn finish_all(
    alloc: Global,
    underway: &mut Underway,
    world: &World,
    drivers: &mut Vec<Box<dyn Driver>>,
) -> Result<(), Stop<RunFault>>
    requires { CanGoOn world.now (event_side (map (λ b. state b) drivers.old.items) underway.old.runs underway.old.block) }
{
    for before in 0..world.runners {
        let made = finish(
            alloc,
            &mut underway.runs,
            before + 1,
            drivers,
            &mut underway.block,
        );
        tell(alloc, underway)?;
        made?;
    }
    Ok(())
}

/// Makes the events of a world, finishes its runners, and tells the block of each.
fn run(
    rt: &impl Abort,
    alloc: Global,
    underway: &mut Underway,
    world: &World,
    drivers: &mut Vec<Box<dyn Driver>>,
) -> Result<(), Stop<RunFault>>
    requires world { IsValidWorld world.now }
    requires on { CanGoOn world.now (event_side (map (λ b. state b) drivers.old.items) underway.old.runs underway.old.block) }
{
    make_events(rt, alloc, underway, world, drivers)?;
    finish_all(alloc, underway, world, drivers)
}

/// These lines of a trace, and the fault that ended it.
fn trace_text(
    alloc: Global,
    lines: &[u8],
    ended: Result<(), Stop<RunFault>>,
) -> Result<String, NoMemory> {
    let mut text = String::from_str(alloc, str::from_utf8(lines).unwrap_or("?"))?;
    match ended {
        Ok(()) => {}
        Err(Stop::Fault(fault)) => text.push_str(format!(in alloc; "{fault:?}")?.as_str())?,
        Err(Stop::NoMemory) => return Err(NoMemory),
    }
    Ok(text)
}

/// What is missing, and of what.
fn lack_text(alloc: Global, fault: &JoinFault) -> Result<String, NoMemory> {
    Ok(match fault {
        JoinFault::NoRow { id } => {
            format!(in alloc; "NoRow {}", str::from_utf8(id.list()).unwrap_or("?"))?
        }
        JoinFault::NoDriver { kind } => format!(in alloc; "NoDriver {kind:?}")?,
        JoinFault::NoLeaf { uid } => format!(in alloc; "NoLeaf {uid}")?,
        JoinFault::NoOutput { uid } => format!(in alloc; "NoOutput {uid}")?,
    })
}

/// The lines of the runs of a tree in a world, over drivers that hold nothing, and the fault that ended them. The fault
/// of the join is the error.
#[tactic(auto, using(base_tables::proofs::Runnable::runnable_world))]
fn lines_of(
    rt: &impl Abort,
    alloc: Global,
    tree: &Tree,
    world: &World,
    drivers: &mut Vec<Box<dyn Driver>>,
) -> Result<String, Stop<JoinFault>>
    requires tree { IsRunnable tree.now }
    requires world { IsValidWorld world.now }
{
    assert!(rt; hold_nothing(drivers));
    let slots = slots_of(alloc, tree)?;
    let runs = runs_of(alloc, tree, &slots, world, drivers)?;
    let mut underway = begin(alloc, tree, world, &slots, runs)?;
    let ended = run(rt, alloc, &mut underway, world, drivers);
    Ok(trace_text(alloc, underway.lines.list(), ended)?)
}

/// What is told of the runs of a tree in a world.
fn joined_text(
    rt: &impl Abort,
    alloc: Global,
    tree: &Tree,
    world: &World,
    drivers: &mut Vec<Box<dyn Driver>>,
) -> Result<String, NoMemory>
    requires tree { IsRunnable tree.now }
    requires world { IsValidWorld world.now }
{
    match lines_of(rt, alloc, tree, world, drivers) {
        Ok(text) => Ok(text),
        Err(Stop::Fault(fault)) => lack_text(alloc, &fault),
        Err(Stop::NoMemory) => Err(NoMemory),
    }
}

/// What is told of the runs of the tree of these elements and models.
#[tactic(auto, using(base_tables::proofs::Runnable::runnable))]
fn built_text(
    rt: &impl Abort,
    alloc: Global,
    elements: &Elements,
    models: &Manifest,
    world: &World,
    drivers: &mut Vec<Box<dyn Driver>>,
) -> Result<String, NoMemory>
    requires valid { IsValidElement elements.now.root }
    requires models { manifest_in elements.now.root ≡ Ok models.now }
    requires world { IsValidWorld world.now }
{
    match build(alloc, elements, models, None) {
        Ok(tree) => joined_text(rt, alloc, &tree, world, drivers),
        Err(_) => Err(NoMemory),
    }
}

/// What is told of the runs of the tree of these elements.
fn elements_text(
    rt: &impl Abort,
    alloc: Global,
    elements: &Elements,
    world: &World,
    drivers: &mut Vec<Box<dyn Driver>>,
) -> Result<String, NoMemory>
    requires valid { IsValidElement elements.now.root }
    requires world { IsValidWorld world.now }
{
    match manifest_of(alloc, elements) {
        Ok(models) => built_text(rt, alloc, elements, &models, world, drivers),
        Err(_) => Err(NoMemory),
    }
}

/// What is told of the runs of the tree of these nodes.
fn nodes_text(
    rt: &impl Abort,
    alloc: Global,
    nodes: &str,
    world: &World,
    drivers: &mut Vec<Box<dyn Driver>>,
) -> Result<String, NoMemory>
    requires { IsValidWorld world.now }
{
    let file = format!(in alloc;
        "<root BTCPP_format=\"4\"><BehaviorTree ID=\"M\">{nodes}</BehaviorTree></root>"
    )?;
    assert!(rt; file.len() <= 1_048_576);
    match read_elements(alloc, file.as_bytes()) {
        Ok(elements) => elements_text(rt, alloc, &elements, world, drivers),
        Err(_) => Err(NoMemory),
    }
}

/// What is told of the runs of a row over a host's drivers, of which none serves a gate.
fn told(rt: &impl Abort, alloc: Global, row: &Row) -> Result<String, NoMemory> {
    let mut drivers: Vec<Box<dyn Driver>> = Vec::new(alloc);
    drivers.push(Box::new(alloc, Conditions::new(alloc))?)?;
    drivers.push(Box::new(alloc, Timed::new(alloc))?)?;
    drivers.push(Box::new(alloc, Replay::new(alloc))?)?;
    drivers.push(Box::new(alloc, Told::new(alloc))?)?;
    assert!(rt; row.world.len() <= 1_048_576);
    match read_world(alloc, row.world.as_bytes()) {
        Ok(world) => {
            let text = nodes_text(rt, alloc, row.nodes, &world, &mut drivers);
            assert!(rt; hold_nothing(&drivers));
            text
        }
        Err(_) => Err(NoMemory),
    }
}

/// Compares what is told with what is wanted.
fn compare(rt: &impl Abort, alloc: Global, rows: &[&Row]) -> Result<(), NoMemory> {
    for row in rows {
        assert_eq!(rt; told(rt, alloc, row)?.as_str(), row.want, "{}", row.nodes);
    }
    Ok(())
}

/// The robot of `examples/fetch_cup.xml`, with the events of its world.
static FETCH_CUP: Row = Row {
    nodes: "<Fallback><CupHeld/><Sequence><MoveToTable/><GripCup/></Sequence></Fallback>",
    world: "\
bt-world 1
fact cup_held 0
fact at_table 0
condition CupHeld is cup_held == 1
action MoveToTable timed 300
sets at_table = 1
action GripCup replay 100 FS
sets cup_held = 1
tick 1
at 300
tick 1
at 400
tick 1
set at_table 0
tick 1
at 700
tick 1
at 800
tick 1
tick 1
",
    want: "\
tick 1 at 0
node 1 IDLE RUNNING
call 2 start FAILURE
node 2 IDLE FAILURE
node 3 IDLE RUNNING
call 4 start RUNNING
node 4 IDLE RUNNING
root 1 RUNNING
tick 1 at 300
call 4 running SUCCESS
node 4 RUNNING SUCCESS
call 5 start RUNNING
node 5 IDLE RUNNING
root 1 RUNNING
fact at_table 1
tick 1 at 400
call 5 running FAILURE
node 5 RUNNING FAILURE
node 4 SUCCESS IDLE
node 5 FAILURE IDLE
node 3 RUNNING FAILURE
node 2 FAILURE IDLE
node 3 FAILURE IDLE
node 1 RUNNING FAILURE
root 1 FAILURE
node 1 FAILURE IDLE
set at_table 0 at 400
fact at_table 0
tick 1 at 400
node 1 IDLE RUNNING
call 2 start FAILURE
node 2 IDLE FAILURE
node 3 IDLE RUNNING
call 4 start RUNNING
node 4 IDLE RUNNING
root 1 RUNNING
tick 1 at 700
call 4 running SUCCESS
node 4 RUNNING SUCCESS
call 5 start RUNNING
node 5 IDLE RUNNING
root 1 RUNNING
fact at_table 1
tick 1 at 800
call 5 running SUCCESS
node 5 RUNNING SUCCESS
node 4 SUCCESS IDLE
node 5 SUCCESS IDLE
node 3 RUNNING SUCCESS
node 2 FAILURE IDLE
node 3 SUCCESS IDLE
node 1 RUNNING SUCCESS
root 1 SUCCESS
node 1 SUCCESS IDLE
fact cup_held 1
tick 1 at 800
node 1 IDLE RUNNING
call 2 start SUCCESS
node 2 IDLE SUCCESS
node 2 SUCCESS IDLE
node 1 RUNNING SUCCESS
root 1 SUCCESS
node 1 SUCCESS IDLE
finish 1 at 800
",
};

/// Two runners. The finish of the first has nothing to do, and that of the second halts its leaf.
static ONE_IS_LEFT: Row = Row {
    nodes: "<Sequence><Script code=\"n := 7\"/><Wave/></Sequence>",
    world: "\
bt-world 1
runners 2
action Wave timed 100
tick 2
at 50
halt 1
",
    want: "\
tick 2 at 0
node 1 IDLE RUNNING
node 2 IDLE SUCCESS
call 3 start RUNNING
node 3 IDLE RUNNING
root 2 RUNNING
board 2 0 n 7
halt 1 at 50
finish 1 at 50
finish 2 at 50
node 2 SUCCESS IDLE
call 3 halted
node 3 RUNNING IDLE
node 1 RUNNING IDLE
",
};

/// The host tells a condition that it holds, and an action that it failed, and the second runner is told nothing.
static TOLD: Row = Row {
    nodes: "<Sequence><Ready/><Dock/></Sequence>",
    world: "\
bt-world 1
runners 2
condition Ready told
action Dock told
tick 1
tell 1 2 SUCCESS
at 20
tick 1
tell 1 3 FAILURE
tick 2
at 40
tick 1
",
    want: "\
tick 1 at 0
node 1 IDLE RUNNING
call 2 start FAILURE
node 2 IDLE FAILURE
node 2 FAILURE IDLE
node 1 RUNNING FAILURE
root 1 FAILURE
node 1 FAILURE IDLE
tell 1 2 SUCCESS at 0
tick 1 at 20
node 1 IDLE RUNNING
call 2 start SUCCESS
node 2 IDLE SUCCESS
call 3 start RUNNING
node 3 IDLE RUNNING
root 1 RUNNING
tell 1 3 FAILURE at 20
tick 2 at 20
node 1 IDLE RUNNING
call 2 start FAILURE
node 2 IDLE FAILURE
node 2 FAILURE IDLE
node 1 RUNNING FAILURE
root 2 FAILURE
node 1 FAILURE IDLE
tick 1 at 40
call 3 running FAILURE
node 3 RUNNING FAILURE
node 2 SUCCESS IDLE
node 3 FAILURE IDLE
node 1 RUNNING FAILURE
root 1 FAILURE
node 1 FAILURE IDLE
finish 1 at 40
finish 2 at 40
",
};

/// What is told is for no leaf.
static NO_LEAF: Row = Row {
    nodes: "<Sequence><Wave/></Sequence>",
    world: "\
bt-world 1
action Wave timed 100
tell 1 2 FAILURE
",
    want: "NoLeaf 2",
};

/// A value is told for which the row has no output.
static NO_OUTPUT: Row = Row {
    nodes: "<Sequence><Dock/></Sequence>",
    world: "\
bt-world 1
action Dock told
out p
tell 1 2 SUCCESS q=5
",
    want: "NoOutput 2",
};

/// A leaf without a row.
static NO_ROW: Row = Row {
    nodes: "<Sequence><Wave/><Nod/></Sequence>",
    world: "\
bt-world 1
action Wave timed 100
tick 1
",
    want: "NoRow Nod",
};

/// A leaf that waits at a gate.
static NO_DRIVER: Row = Row {
    nodes: "<Sequence><Wave/><Wait/></Sequence>",
    world: "\
bt-world 1
fact open 1
action Wave timed 100
action Wait gate open
tick 1
",
    want: "NoDriver Gate",
};

/// A script that divides by 0 while a leaf of each runner is held.
static DIVIDES_BY_ZERO: Row = Row {
    nodes: "<Parallel><Wave/><Fallback><Calm/><Script code=\"n := 1 / 0\"/></Fallback></Parallel>",
    world: "\
bt-world 1
runners 2
fact calm 1
condition Calm is calm == 1
action Wave timed 100
tick 1
set calm 0
at 50
tick 2
tick 1
",
    want: "\
tick 1 at 0
node 1 IDLE RUNNING
call 2 start RUNNING
node 2 IDLE RUNNING
node 3 IDLE RUNNING
call 4 start SUCCESS
node 4 IDLE SUCCESS
node 4 SUCCESS IDLE
node 3 RUNNING SUCCESS
root 1 RUNNING
set calm 0 at 0
fact calm 0
tick 2 at 50
node 1 IDLE RUNNING
call 2 start RUNNING
node 2 IDLE RUNNING
node 3 IDLE RUNNING
call 4 start FAILURE
node 4 IDLE FAILURE
fault 2 5 ZeroDivisor
quench 1 2
quench 2 2
RunFault { runner: 2, uid: 5, cause: ZeroDivisor }",
};

#[test]
fn hosts_run_trees(rt: HostRuntime) -> Result<(), NoMemory> {
    compare(
        &rt,
        rt.alloc(),
        &[
            &FETCH_CUP,
            &ONE_IS_LEFT,
            &NO_ROW,
            &NO_DRIVER,
            &DIVIDES_BY_ZERO,
            &TOLD,
            &NO_LEAF,
            &NO_OUTPUT,
        ],
    )
}
