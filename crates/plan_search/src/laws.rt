ghost use Rattle.std.specs.Prelude.{◌≡◌, ℕ, List};
ghost use Rattle.std.specs.List.{AllByRecursion};
ghost use Rattle.spec_tree.specs.declared.term.Tree.{Tree};
ghost use Rattle.spec_plan.specs.Modelled.{ReachedAt};
ghost use Rattle.spec_world.specs.declared.world.World.{World};
ghost use Rattle.spec_run.specs.Drivers.{DriverState};
ghost use Rattle.spec_output.specs.Lines.{LineNames};
ghost use Rattle.spec_world.specs.Worlds.{IsValidWorld};
ghost use Rattle.spec_output.specs.Cuts.{HaveBegunWithin};
ghost use Rattle.spec_plan.specs.declared.ending.Limits.{Limits};
ghost use Rattle.spec_plan.specs.declared.ending.PlanEnd.{PlanEnd};
ghost use Rattle.spec_plan.specs.PlanAnswers.{IsPlan, IsPlanCut};
ghost use Rattle.spec_plan.specs.PlanLines.{end_line};
ghost use Rattle.plan_search.specs.Joining.{IsNamedPlainly, JoinsWorld};
ghost use Rattle.plan_search.specs.Lacking.{NamesSome};
ghost use Rattle.plan_search.specs.Reached.{AreInRange, IsReached, IsReachedInRun};
ghost use Rattle.plan_search.specs.Served.{AreServed};
ghost use Rattle.plan_search.specs.Written.{IsShort};
ghost use Rattle.spec_plan.specs.PlanRuns.{PlanRun, Trial};

/// Where a plan run ends at the goals, its tree makes every goal true after the tick that it names,
/// and not all of them after any earlier one.
pub fn plans_reach()
    ensures { (world : World) (limits : Limits) (planned : PlanEnd) (trials : List Trial) (last : Trial) →
        PlanRun world limits planned trials last → IsReached world limits planned.end }
{}

/// What a plan says of its tree is so in the run of the engine, over one tick each period in the modelled world: what the
/// ticks up to the one that is named leave makes every goal true, and what fewer of them leave does not make all true.
pub fn goals_are_reached_in_the_run()
    ensures { (tree : Tree) (world : World) (period k : ℕ) → ReachedAt tree world period k → IsReachedInRun tree world period k }
{}

/// Where a plan run ends without a template, it names a condition: in the tick in which its tree failed, at least one
/// condition was called and answered FAILURE.
pub fn plans_name_what_failed()
    ensures { (world : World) (limits : Limits) (planned : PlanEnd) (trials : List Trial) (last : Trial) →
        IsValidWorld world → PlanRun world limits planned trials last → NamesSome planned.end }
{}

/// A tree that reaches the goals joins its world: each of its leaves has a row, and a driver of its row's kind where every
/// row of the world has one.
pub fn planned_trees_join()
    ensures { (world : World) (limits : Limits) (planned : PlanEnd) (trials : List Trial) (last : Trial) (drivers : List DriverState) →
        IsValidWorld world → AreServed world drivers → PlanRun world limits planned trials last → JoinsWorld world drivers planned.end }
{}

/// The steps of a plan run name conditions and actions by letters, digits and `_` alone.
pub fn steps_are_named_plainly()
    ensures { (world : World) (limits : Limits) (planned : PlanEnd) (trials : List Trial) (last : Trial) →
        IsValidWorld world → PlanRun world limits planned trials last → AllByRecursion IsNamedPlainly planned.steps }
{}

/// What is written of a plan that reaches the goals, its steps, its end and its tree, is no longer than a tree file may be.
pub fn plans_are_short()
    ensures { (world : World) (limits : Limits) (planned : PlanEnd) (trials : List Trial) (last : Trial) →
        IsValidWorld world → AreInRange limits → PlanRun world limits planned trials last → IsShort planned.steps planned.end }
{}

/// All plan runs of a world with these limits are one: they have the same steps, the same tree and
/// the same end, and leave the drivers alike.
pub fn plans_run_one_way()
    ensures { (world : World) (limits : Limits) (before : List DriverState) → IsValidWorld world →
        (after other : List DriverState) (planned again : PlanEnd) →
        IsPlan world limits before after planned → IsPlan world limits before other again → (planned ≡ again) × (after ≡ other) }
{}

/// What was begun of a plan before memory ran out is within what the plan begins: no driver was asked
/// to start and to go on more often than by the whole plan.
pub fn plan_cuts_begin_within()
    ensures { (world : World) (limits : Limits) (before now after : List DriverState) (planned : PlanEnd) → IsValidWorld world →
        IsPlanCut world limits before now → IsPlan world limits before after planned → HaveBegunWithin before now after }
{}

/// No cause of a plan's fault has a name in it: the line of the end is the same by whatever names it
/// is told. Planned trees have no scripts, and the rows of their leaves have no input ports.
pub fn causes_of_plans_have_no_names()
    ensures { (world : World) (limits : Limits) (planned : PlanEnd) (trials : List Trial) (last : Trial) (names other : LineNames) →
        IsValidWorld world → PlanRun world limits planned trials last →
        end_line names planned.end ≡ end_line other planned.end }
{}
