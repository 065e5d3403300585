ghost use Rattle.std.specs.Prelude.{◌≡◌, ◌≤◌, ◌⊎◌, map};
ghost use Rattle.spec_program.specs.Answered.{ReadFailed, WordsAnswered};
ghost use Rattle.spec_program.specs.Answers.{DriversWithin, Gave, WritesAt, side};
ghost use Rattle.spec_program.specs.Reads.{WordsUnread};
ghost use Rattle.spec_run.specs.Rosters.{IsSameRoster};
ghost use Rattle.spec_program.specs.Headline.{EachOutput, IsGiven, ReachesIfPlan, WholeOutput};
ghost use Rattle.spec_run.specs.Drivers.{NothingHeld};
ghost use Rattle.spec_outside.specs.Counts.{Rose};
ghost use Rattle.spec_program.specs.Words.{command_of};

use crate::boxes::Boxes;
use base_outside::{Clock, Shelf, Sink};
use base_texts::Name;
use cli_commands::answer_words;
use cli_refusals::Outside;
use expect_reader::laws::expectations_read_one_way;
use plan_search::laws::{
    plan_cuts_begin_within, planned_trees_join, plans_are_short, plans_reach, plans_run_one_way,
    steps_are_named_plainly,
};
use run_driver::Driver;
use spec_program::Exit;
use std::alloc::Global;
use std::mem;
use tree_elements::{element_or_fault, one_element};
use tree_round_trip::printed_trees_read_back_after_comments;
use world_reader::laws::worlds_read_one_way;

/// Runs the command that the words of a command line are, over the files of the shelf, the moments of the
/// clock and the drivers of the roster, and writes its output line by line to the sink. What follows of
/// the clauses stands in `laws`.
pub fn bt<S: Shelf, K: Sink, C: Clock>(
    alloc: Global,
    words: &[Name],
    shelf: &mut S,
    out: &mut K,
    clock: &mut C,
    roster: &mut Vec<Box<dyn Driver>>,
) -> Exit
    requires quiet { NothingHeld (map (λ b. state b) roster.old.items) }

    // At Done, Words, Tree, World, Fault, NoPlan, Rules, Expect, Unmet and NotExclusive the whole
    // output of the definition was written, this is its exit, and the drivers are those after its run;
    // where no tree was run, none was called. The clock was asked once a round by a run by the clock
    // that is done, and by no other command.
    ensures whole { IsGiven result → WholeOutput (S.holds shelf.old) (command_of words.now) result
        (side (K.written out.old) (K.faults out.old) (C.moments clock.old) (map (λ b. state b) roster.old.items))
        (side (K.written out.new) (K.faults out.new) (C.moments clock.new) (map (λ b. state b) roster.new.items)) }

    // The output was given, whole or a prefix of it, or a read failed. After a prefix, at Write and
    // Memory, the drivers had the first calls of the run and then calls alone that halt, where no tree was
    // run none was called, and a run by the clock asked it at most once a round. A plan is made before its
    // first line is written: after a prefix of its lines its drivers are those after all of it.
    ensures each { let old = side (K.written out.old) (K.faults out.old) (C.moments clock.old) (map (λ b. state b) roster.old.items) in
        let new = side (K.written out.new) (K.faults out.new) (C.moments clock.new) (map (λ b. state b) roster.new.items) in
        EachOutput (S.holds shelf.old) (command_of words.now) old (λ o. Gave o result old new
        ⊎ ReadFailed (Rose (S.faults shelf.old) (S.faults shelf.new))
        (WordsUnread S.read_gives (S.holds shelf.old) (command_of words.now) shelf.old shelf.new) result old new) }

    // Whatever is answered, also Write and Memory, no driver was asked to start or to go on more often than
    // in the run of the definition, and where no tree was run, none was called.
    ensures begun { let old = side (K.written out.old) (K.faults out.old) (C.moments clock.old) (map (λ b. state b) roster.old.items) in
        EachOutput (S.holds shelf.old) (command_of words.now) old (λ o.
        DriversWithin o.calls old.drivers (map (λ b. state b) roster.new.items)) }

    // Whatever is answered, the files that the words name were read in their order, each once, and no
    // other, up to the first whose read gave a fault. The line of this fault was given, or memory ran
    // out in the read; where no read gave one, the output of bytes of which no file has too many.
    ensures reads { WordsAnswered S.read_gives (S.holds shelf.old) (command_of words.now)
        (Rose (S.faults shelf.old) (S.faults shelf.new)) shelf.old shelf.new result
        (side (K.written out.old) (K.faults out.old) (C.moments clock.old) (map (λ b. state b) roster.old.items))
        (side (K.written out.new) (K.faults out.new) (C.moments clock.new) (map (λ b. state b) roster.new.items)) }
    ensures held { S.holds shelf.new ≡ S.holds shelf.old }

    // Where a plan is Done, all that was written is a tree file that is not too long. As it stands it reads as
    // a tree that joins the world with these drivers, and that makes every goal true after the tick that was
    // written, in its own run, and not all of them after any earlier one. The world is that of the bytes of
    // its file of which `reads` speaks, whichever they are: it follows from `reads`.
    ensures planned { let old = side (K.written out.old) (K.faults out.old) (C.moments clock.old) (map (λ b. state b) roster.old.items) in
        let new = side (K.written out.new) (K.faults out.new) (C.moments clock.new) (map (λ b. state b) roster.new.items) in
        (read : WordsAnswered S.read_gives (S.holds shelf.old) (command_of words.now)
        (Rose (S.faults shelf.old) (S.faults shelf.new)) shelf.old shelf.new result old new)
        → result ≡ Exit.Done → ReachesIfPlan (command_of words.now) read.end old new }

    // Whatever the answer, no driver holds anything, and the roster is the same: as many drivers, of
    // the same kinds and marks in the same places, and no total has fallen.
    ensures none { NothingHeld (map (λ b. state b) roster.new.items) }
    ensures roster { IsSameRoster (map (λ b. state b) roster.old.items) (map (λ b. state b) roster.new.items) }

    // Whatever is answered, each write was of whole lines, none was empty, and none has failed but the last one, and that
    // at Write and Memory alone, and nothing else was done to the sink: no line is in two writes, and nothing is written
    // after a write that failed.
    ensures writes { WritesAt K.write_gives result out.old out.new }

    // No count of failures has fallen.
    ensures counts { (S.faults shelf.old ≤ S.faults shelf.new) × (K.faults out.old ≤ K.faults out.new) }
{
    one_element();
    element_or_fault();
    worlds_read_one_way();
    expectations_read_one_way();
    plans_run_one_way();
    plan_cuts_begin_within();
    plans_reach();
    planned_trees_join();
    steps_are_named_plainly();
    plans_are_short();
    printed_trees_read_back_after_comments();
    let mut boxes = Boxes {
        drivers: mem::replace(roster, Vec::new(alloc)),
    };
    let mut outside = Outside {
        shelf,
        out,
        clock,
        drivers: &mut boxes,
    };
    let exit = answer_words(alloc, words, &mut outside);
    *roster = boxes.drivers;
    exit
}
