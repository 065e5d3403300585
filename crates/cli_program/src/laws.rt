//! What follows from the clauses of `bt`, of the same words, with the shelf before and after, the exit, and
//! what the command finds and leaves.

ghost use Rattle.std.specs.Prelude.{ℕ, ◌≡◌, ◌⊎◌, List, None, Option, Some};
ghost use Rattle.plan_search.specs.Lacking.{NamesSome};
ghost use Rattle.spec_plan.specs.declared.ending.Limits.{Limits};
ghost use Rattle.spec_plan.specs.Modelled.{modelled_run};
ghost use Rattle.spec_program.specs.Output.{Output};
ghost use Rattle.spec_program.specs.PlanOutputs.{IsPlanned};
ghost use Rattle.spec_run.specs.Drivers.{DriverState};
ghost use Rattle.spec_run.specs.Run.{run_over};
ghost use Rattle.spec_tree.specs.declared.term.Tree.{Tree};
ghost use Rattle.spec_world.specs.declared.world.World.{World};
ghost use Rattle.spec_program.specs.Answers.{DriversWithin, Gave, IsWhole, Side};
ghost use Rattle.spec_program.specs.declared.exit.Exit.{Exit as Given};
ghost use Rattle.spec_program.specs.declared.exit.Exit.TheVariants as exit;
ghost use Rattle.spec_program.specs.Words.{Command, Load};
ghost use Rattle.cli_commands.specs.Answering.{CommandAnswered};
ghost use Rattle.spec_program.specs.Answered.{ReadFailed};
ghost use Rattle.spec_program.specs.Reads.{WordsUnread};
ghost use Rattle.spec_outside.specs.Counts.{Rose};
ghost use Rattle.spec_program.specs.Headline.{EachOutput, IsGiven, IsGroundOf, IsScriptOf, PlanReaches, WholeOutput, ticking};
ghost use Rattle.cli_program.specs.LawWords.{IsNotLive, RunsByTick, ShelfAnswered, UnreadLine};
ghost use Rattle.spec_program.specs.RefusalOutputs.{words_refused};

use base_outside::Shelf;
use expect_reader::laws::expectations_read_one_way;
use plan_search::laws::{plan_cuts_begin_within, plans_name_what_failed, plans_run_one_way};
use tree_elements::{element_or_fault, one_element};
use world_reader::laws::worlds_read_one_way;

/// By `reads`, also where the shelf or the clock tells nothing: the output of some bytes of the files and
/// of some moments was given, or a read failed. It follows: at Words the words are no command, and those
/// that are none have their refusal; no command but a run by the clock asks the clock; at Read the read
/// of a file failed, and its line was written; at Write the sink's count of failures rose.
pub fn words_are_answered<S: Shelf>(before: &S, after: &S)
    ensures any_shelf { (command : Option Command) (result : Given) (old new : Side) →
        ShelfAnswered S.read_gives (S.holds before.now) S.faults before.now after.now command result old new
        → CommandAnswered command (S.holds before.now) (Rose (S.faults before.now) (S.faults after.now))
        (WordsUnread S.read_gives (S.holds before.now) command before.now after.now) result old new }
    ensures words { (command : Option Command) (result : Given) (old new : Side) →
        ShelfAnswered S.read_gives (S.holds before.now) S.faults before.now after.now command result old new
        → result ≡ exit.Words → command ≡ None }
    ensures no_command { (command : Option Command) (result : Given) (old new : Side) →
        ShelfAnswered S.read_gives (S.holds before.now) S.faults before.now after.now command result old new
        → command ≡ None → Gave words_refused result old new }
    ensures unasked { (command : Option Command) (result : Given) (old new : Side) →
        ShelfAnswered S.read_gives (S.holds before.now) S.faults before.now after.now command result old new
        → IsNotLive command → new.clock ≡ old.clock }
    ensures read { (command : Option Command) (result : Given) (old new : Side) →
        ShelfAnswered S.read_gives (S.holds before.now) S.faults before.now after.now command result old new
        → result ≡ exit.Read → Rose (S.faults before.now) (S.faults after.now)
        × UnreadLine (WordsUnread S.read_gives (S.holds before.now) command before.now after.now) old new }
    ensures write { (command : Option Command) (result : Given) (old new : Side) →
        ShelfAnswered S.read_gives (S.holds before.now) S.faults before.now after.now command result old new
        → result ≡ exit.Write → Rose old.faults new.faults }
{}

/// By `each`: where no count of failures rose, the whole output was written, or memory ran out.
pub fn outputs_are_complete<S: Shelf>(before: &S, after: &S)
    ensures complete { (command : Option Command) (result : Given) (old new : Side) →
        EachOutput (S.holds before.now) command old (λ o. Gave o result old new
        ⊎ ReadFailed (Rose (S.faults before.now) (S.faults after.now))
        (WordsUnread S.read_gives (S.holds before.now) command before.now after.now) result old new)
        → EachOutput (S.holds before.now) command old (λ o.
        ¬ Rose (S.faults before.now) (S.faults after.now) → ¬ Rose old.faults new.faults
        → (result ≡ exit.Memory) ⊎ IsWhole o result old new) }
{}

/// By `reads`: of a load, which reads no file, `whole`, `each` and `begun` hold over every shelf, also one that tells
/// nothing. They are said here of whatever files there may be; no read can have failed.
pub fn loads_are_answered_over_every_shelf<S: Shelf>(before: &S, after: &S)
    ensures whole { (leaves : ℕ) (holds : List ℕ → List ℕ) (result : Given) (old new : Side) →
        ShelfAnswered S.read_gives (S.holds before.now) S.faults before.now after.now (Some (Load leaves)) result old new
        → IsGiven result → WholeOutput (Some holds) (Some (Load leaves)) result old new }
    ensures each { (leaves : ℕ) (holds : List ℕ → List ℕ) (result : Given) (old new : Side) →
        ShelfAnswered S.read_gives (S.holds before.now) S.faults before.now after.now (Some (Load leaves)) result old new
        → EachOutput (Some holds) (Some (Load leaves)) old (λ o. Gave o result old new) }
    ensures begun { (leaves : ℕ) (holds : List ℕ → List ℕ) (result : Given) (old new : Side) →
        ShelfAnswered S.read_gives (S.holds before.now) S.faults before.now after.now (Some (Load leaves)) result old new
        → EachOutput (Some holds) (Some (Load leaves)) old (λ o. DriversWithin o.calls old.drivers new.drivers) }
{
    one_element();
    element_or_fault();
    worlds_read_one_way();
    expectations_read_one_way();
    plans_run_one_way();
    plan_cuts_begin_within();
}

/// By `planned`: what is written of a plan that is Done runs by `tick`, and is not refused. Where a script of at most as many
/// bytes as a file may have describes the world with a tick each period, the output of the bytes that were written, with
/// these drivers, is the run of the plan's tree. That run is the modelled one, in which the goals are true after the tick
/// that was written.
pub fn plans_run_as_they_stand()
    ensures script { (file : List ℕ) (period : ℕ) (old new : Side)
        (p : PlanReaches file IsScriptOf period old new) → RunsByTick p.steps p.tree p.tick p.world period old.drivers }
    ensures ground { (file : List ℕ) (period : ℕ) (old new : Side)
        (p : PlanReaches file IsGroundOf period old new) → RunsByTick p.steps p.tree p.tick p.world period old.drivers }
    ensures modelled { (tree : Tree) (world : World) (period n : ℕ) →
        run_over tree (ticking world period n) (ticking world period n).events ≡ modelled_run tree world period n }
{
    one_element();
    element_or_fault();
    worlds_read_one_way();
    expectations_read_one_way();
    plans_run_one_way();
}

/// By the definition of the output: a plan that is printed and ends without a template names at least one condition that
/// failed.
pub fn printed_plans_name_what_failed()
    ensures { (world : World) (limits : Limits) (drivers : List DriverState) (output : Output)
        (p : IsPlanned world limits drivers output) → NamesSome p.planned.end }
{
    plans_name_what_failed();
}
