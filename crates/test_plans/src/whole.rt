//! Whole plan runs over the worlds of scripts: the steps, the end, and the tree where the goals are
//! reached.

ghost use Rattle.std.specs.Prelude.{◌≢◌, [], IsTrue, map};
ghost use Rattle.spec_world.specs.Worlds.{IsValidWorld};
ghost use Rattle.plan_search.specs.Served.{AreServed};
ghost use Rattle.plan_search.specs.Reached.{AreInRange};

use base_outside::SureSink;
use base_texts::{Name, NoMemory};
use cli_program::plan_over;
use run_driver::{Driver, find_kind, hold_nothing, kind_of};
use run_leaves::{Conditions, Gate, Replay, Timed};
use spec_plan::{End, Limits, PlanEnd, Step};
use spec_tree::Tree;
use spec_world::World;
use std::alloc::Global;
use std::process::Abort;
use text_lines::write_tree;
use world_reader::read_world;

/// The lines of a world script, between semicolons, the limits, and what is told of the plan.
struct Row {
    lines: &'static str,
    limits: Limits,
    want: &'static str,
}

/// The limits where none is given.
const USUAL: Limits = Limits {
    expand: 100,
    ticks: 1000,
    period: 100,
};

/// A script of these lines after the header.
fn script(alloc: Global, lines: &str) -> Result<String, NoMemory> {
    let mut text = String::from_str(alloc, "bt-world 1")?;
    for line in lines.split("; ") {
        text.push('\n')?;
        text.push_str(line)?;
    }
    Ok(text)
}

/// A name as text.
fn text(name: &Name) -> &str {
    str::from_utf8(name.list()).unwrap_or("?")
}

/// Tells of a step.
fn tell_step(alloc: Global, step: &Step, told: &mut String) -> Result<(), NoMemory> {
    let line = format!(in alloc;
        "expand {} {} {} raises {}\n",
        step.uid,
        text(&step.condition),
        text(&step.action),
        step.raises
    )?;
    told.push_str(line.as_str())?;
    Ok(())
}

/// Prints a tree.
fn tell_tree(alloc: Global, tree: &Tree, told: &mut String) -> Result<(), NoMemory> {
    let mut sink = SureSink::new(alloc);
    if write_tree(alloc, &mut sink, tree).is_err() {
        return Err(NoMemory);
    }
    told.push_str(str::from_utf8(sink.list()).unwrap_or("?"))?;
    Ok(())
}

/// Tells of conditions.
fn tell_names(names: &[Name], told: &mut String) -> Result<(), NoMemory> {
    for name in names {
        told.push(' ')?;
        told.push_str(text(name))?;
    }
    told.push('\n')?;
    Ok(())
}

/// Tells of an end.
fn tell_end(alloc: Global, end: &End, told: &mut String) -> Result<(), NoMemory> {
    let line = match end {
        End::Reached { tick, .. } => format!(in alloc; "reached tick {tick}\n")?,
        End::NoTemplate { .. } => format!(in alloc; "NoTemplate")?,
        End::NoOrder { action, condition } => {
            format!(in alloc; "NoOrder {} {}\n", text(action), text(condition))?
        }
        End::Expansions { n } => format!(in alloc; "Expansions {n}\n")?,
        End::StillRunning { ticks } => format!(in alloc; "StillRunning {ticks}\n")?,
        End::Faulted { uid, cause } => format!(in alloc; "Faulted {uid} {cause:?}\n")?,
    };
    told.push_str(line.as_str())?;
    match end {
        End::Reached { tree, .. } => tell_tree(alloc, tree, told),
        End::NoTemplate { failed } => tell_names(failed.list(), told),
        _ => Ok(()),
    }
}

/// What is told of a plan.
fn told_of(alloc: Global, planned: &PlanEnd) -> Result<String, NoMemory> {
    let mut told = String::new(alloc);
    for step in planned.steps.list() {
        tell_step(alloc, step, &mut told)?;
    }
    tell_end(alloc, &planned.end, &mut told)?;
    Ok(told)
}

/// Whether each row has a driver of its kind.
fn all_served(world: &World, roster: &[Box<dyn Driver>]) -> bool
    ensures { IsTrue result → AreServed world.now (map (λ b. state b) roster.now) }
{
    for row in world.rows.list() {
        if find_kind(roster, kind_of(row)).is_none() {
            return false;
        }
    }
    true
}

/// What is told of the plan for a world that has a goal, over drivers that serve it.
fn told_for(
    rt: &impl Abort,
    alloc: Global,
    world: &World,
    limits: &Limits,
    roster: &mut Vec<Box<dyn Driver>>,
) -> Result<String, NoMemory>
    requires valid { IsValidWorld world.now }
    requires goal { world.now.goals ≢ [] }
    requires limits { AreInRange limits.now }
{
    assert!(rt; hold_nothing(roster));
    assert!(rt; all_served(world, roster));
    let planned = plan_over(alloc, world, limits, roster)?;
    assert!(rt; hold_nothing(roster));
    told_of(alloc, &planned)
}

/// What is told of the plan of a row, over the drivers of the modelled world.
fn told(rt: &impl Abort, alloc: Global, row: &Row) -> Result<String, NoMemory> {
    let mut roster: Vec<Box<dyn Driver>> = Vec::new(alloc);
    roster.push(Box::new(alloc, Conditions::new(alloc))?)?;
    roster.push(Box::new(alloc, Timed::new(alloc))?)?;
    roster.push(Box::new(alloc, Replay::new(alloc))?)?;
    roster.push(Box::new(alloc, Gate::new(alloc))?)?;
    let limits = &row.limits;
    assert!(rt;
        limits.expand <= 120
            && limits.ticks >= 1
            && limits.ticks <= 10_000
            && limits.period <= 1_000_000
    );
    let script = script(alloc, row.lines)?;
    assert!(rt; script.len() <= 1_048_576);
    match read_world(alloc, script.as_bytes()) {
        Ok(world) if !world.goals.list().is_empty() => {
            told_for(rt, alloc, &world, limits, &mut roster)
        }
        _ => Err(NoMemory),
    }
}

/// Compares what is told with what is wanted.
fn compare(rt: &impl Abort, alloc: Global, rows: &[&Row]) -> Result<(), NoMemory> {
    for row in rows {
        assert_eq!(rt; told(rt, alloc, row)?.as_str(), row.want);
    }
    Ok(())
}

/// An item is fetched and placed; one raise brings the way to it before the way to the goal.
static FETCH: Row = Row {
    lines: "fact at 0; fact holding 0; fact placed 0; condition AtItem is at == 1; condition AtGoal is at == 2; condition Holding is holding == 1; condition Placed is placed == 1; action GoItem timed 100; sets at = 1; action GoGoal timed 100; sets at = 2; action Pick timed 0; needs AtItem; sets holding = 1; action Place timed 0; needs AtGoal; needs Holding; sets placed = 1; goal Placed",
    limits: USUAL,
    want: r#"expand 2 Placed Place raises 0
expand 5 AtGoal GoGoal raises 0
expand 9 Holding Pick raises 0
expand 12 AtItem GoItem raises 1
reached tick 3
<root BTCPP_format="4" main_tree_to_execute="Plan">
  <BehaviorTree ID="Plan">
    <ReactiveSequence>
      <ReactiveFallback>
        <Placed/>
        <ReactiveSequence>
          <ReactiveFallback>
            <Holding/>
            <ReactiveSequence>
              <ReactiveFallback>
                <AtItem/>
                <ReactiveSequence>
                  <GoItem/>
                </ReactiveSequence>
              </ReactiveFallback>
              <Pick/>
            </ReactiveSequence>
          </ReactiveFallback>
          <ReactiveFallback>
            <AtGoal/>
            <ReactiveSequence>
              <GoGoal/>
            </ReactiveSequence>
          </ReactiveFallback>
          <Place/>
        </ReactiveSequence>
      </ReactiveFallback>
    </ReactiveSequence>
  </BehaviorTree>
</root>
"#,
};

/// No action achieves the goal.
static NO_TEMPLATE: Row = Row {
    lines: "fact a 0; condition G is a == 1; goal G",
    limits: USUAL,
    want: "NoTemplate G\n",
};

/// Two actions, each of which undoes what the other does.
static NO_ORDER: Row = Row {
    lines: "fact a 0; fact b 0; condition G1 is a == 1; condition G2 is b == 1; action A timed 0; sets a = 1; sets b = 0; action B timed 0; sets b = 1; sets a = 0; goal G1; goal G2",
    limits: USUAL,
    want: "expand 2 G1 A raises 0\nNoOrder A G2\n",
};

/// One expansion is allowed, and more are wanted.
static ONE_EXPANSION: Row = Row {
    lines: "fact at 0; fact holding 0; fact placed 0; condition AtItem is at == 1; condition AtGoal is at == 2; condition Holding is holding == 1; condition Placed is placed == 1; action GoItem timed 100; sets at = 1; action GoGoal timed 100; sets at = 2; action Pick timed 0; needs AtItem; sets holding = 1; action Place timed 0; needs AtGoal; needs Holding; sets placed = 1; goal Placed",
    limits: Limits {
        expand: 1,
        ticks: 1000,
        period: 100,
    },
    want: "expand 2 Placed Place raises 0\nExpansions 1\n",
};

/// A gate that never opens.
static STILL_RUNNING: Row = Row {
    lines: "fact x 0; fact d 0; condition G is d == 1; action Wait gate x == 1; sets d = 1; goal G",
    limits: Limits {
        expand: 100,
        ticks: 5,
        period: 100,
    },
    want: "expand 2 G Wait raises 0\nStillRunning 5\n",
};

/// No expansion is allowed, and one is wanted.
static NO_EXPANSION: Row = Row {
    lines: "fact x 0; condition G is x == 1; action A timed 0; sets x = 1; goal G",
    limits: Limits {
        expand: 0,
        ticks: 1000,
        period: 100,
    },
    want: "Expansions 0\n",
};

/// .. and none would serve, which comes first.
static NONE_WANTED: Row = Row {
    lines: "fact a 0; condition G is a == 1; goal G",
    limits: Limits {
        expand: 0,
        ticks: 1000,
        period: 100,
    },
    want: "NoTemplate G\n",
};

/// The one tick that is allowed reaches the goals.
static ONE_TICK: Row = Row {
    lines: "fact x 0; condition G is x == 1; action A timed 0; sets x = 1; goal G",
    limits: Limits {
        expand: 100,
        ticks: 1,
        period: 100,
    },
    want: r#"expand 2 G A raises 0
reached tick 1
<root BTCPP_format="4" main_tree_to_execute="Plan">
  <BehaviorTree ID="Plan">
    <ReactiveSequence>
      <ReactiveFallback>
        <G/>
        <ReactiveSequence>
          <A/>
        </ReactiveSequence>
      </ReactiveFallback>
    </ReactiveSequence>
  </BehaviorTree>
</root>
"#,
};

/// .. and here it does not.
static TOO_SLOW: Row = Row {
    lines: "fact x 0; condition G is x == 1; action A timed 100; sets x = 1; goal G",
    limits: Limits {
        expand: 100,
        ticks: 1,
        period: 100,
    },
    want: "expand 2 G A raises 0\nStillRunning 1\n",
};

/// No time passes from tick to tick.
static NO_TIME: Row = Row {
    lines: "fact x 0; condition G is x == 1; action A timed 1; sets x = 1; goal G",
    limits: Limits {
        expand: 100,
        ticks: 7,
        period: 0,
    },
    want: "expand 2 G A raises 0\nStillRunning 7\n",
};

/// The goals are true from the start.
static NOTHING_TO_DO: Row = Row {
    lines: "fact x 1; condition G is x == 1; action A timed 0; sets x = 1; goal G",
    limits: USUAL,
    want: r#"reached tick 1
<root BTCPP_format="4" main_tree_to_execute="Plan">
  <BehaviorTree ID="Plan">
    <ReactiveSequence>
      <G/>
    </ReactiveSequence>
  </BehaviorTree>
</root>
"#,
};

/// An output has no value in the third run.
static FAULTED: Row = Row {
    lines: "fact a 0; fact b 0; condition G1 is a == 1; condition G2 is b == 1; action A timed 0; sets a = 1; action B timed 0; sets b = 1; out p = 1 / 0; goal G1; goal G2",
    limits: USUAL,
    want: "expand 2 G1 A raises 0\nexpand 6 G2 B raises 0\nFaulted 9 ZeroDivisor\n",
};

/// The first action never ends, so the second one is never tried.
static STARVED: Row = Row {
    lines: "fact x 0; fact d 0; condition G is d == 1; action Wait gate x == 1; sets d = 1; action Do timed 0; sets d = 1; goal G",
    limits: Limits {
        expand: 100,
        ticks: 20,
        period: 100,
    },
    want: "expand 2 G Wait raises 0\nStillRunning 20\n",
};

/// The first action fails once in each run, so the second one is tried too.
static SECOND_CHOICE: Row = Row {
    lines: "fact d 0; condition G is d == 1; action Try replay 0 FS; sets d = 1; action Do timed 0; sets d = 1; goal G",
    limits: USUAL,
    want: r#"expand 2 G Try raises 0
expand 3 G Do raises 0
reached tick 1
<root BTCPP_format="4" main_tree_to_execute="Plan">
  <BehaviorTree ID="Plan">
    <ReactiveSequence>
      <ReactiveFallback>
        <G/>
        <ReactiveSequence>
          <Try/>
        </ReactiveSequence>
        <ReactiveSequence>
          <Do/>
        </ReactiveSequence>
      </ReactiveFallback>
    </ReactiveSequence>
  </BehaviorTree>
</root>
"#,
};

#[test]
fn whole_plans(rt: HostRuntime) -> Result<(), NoMemory> {
    compare(
        &rt,
        rt.alloc(),
        &[
            &FETCH,
            &NO_TEMPLATE,
            &NO_ORDER,
            &ONE_EXPANSION,
            &STILL_RUNNING,
            &NO_EXPANSION,
            &NONE_WANTED,
            &ONE_TICK,
            &TOO_SLOW,
            &NO_TIME,
            &NOTHING_TO_DO,
            &FAULTED,
            &STARVED,
            &SECOND_CHOICE,
        ],
    )
}
