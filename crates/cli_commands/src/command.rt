ghost use Rattle.std.specs.Prelude.{◌≡◌, ◌≤◌, None, length};
ghost use Rattle.std.specs.Option.{option_copied};
ghost use Rattle.cli_words.specs.Commands.{IsInRange, command_seen};
ghost use Rattle.spec_program.specs.Words.{command_of};
ghost use Rattle.spec_output.specs.LoadTexts.{tree_text, world_text};
ghost use Rattle.spec_run.specs.Drivers.{NothingHeld};
ghost use Rattle.spec_tree.specs.Limits.{most_file_bytes, most_leaves};
ghost use Rattle.spec_tree.specs.Trees.{IsValid};
ghost use Rattle.spec_world.specs.Worlds.{IsValidWorld};
ghost use Rattle.spec_program.specs.declared.course.Course.TheVariants as course;
ghost use Rattle.spec_program.specs.Answered.{AreShort, WordsAnswered};
ghost use Rattle.spec_program.specs.Answers.{WritesAt};
ghost use Rattle.spec_outside.specs.Counts.{Rose};
ghost use Rattle.cli_refusals.specs.Ends.{EndWrites, EndsAt};
ghost use Rattle.cli_refusals.specs.Lent.Lent.{Stays, seen};
ghost use Rattle.cli_commands.specs.Named.{contents_of};
ghost use Rattle.spec_program.specs.Expecting.{ExpectGives};
ghost use Rattle.spec_program.specs.Grounds.{GroundGives, GroundPlanBegins, GroundPlanGives};
ghost use Rattle.spec_program.specs.Exclusives.{ExclusiveGives};
ghost use Rattle.spec_program.specs.Jobs.{FilesBegin, FilesGive};
ghost use Rattle.spec_program.specs.Output.{AreUncalled};
ghost use Rattle.spec_program.specs.Gives.{CourseGives, MadeGives, PrintGives, ScriptMocks, mocked};
ghost use Rattle.cli_commands.specs.Standing.{StandingGives};
ghost use Rattle.spec_program.specs.Plans.{PlanBegins, PlanGives};
ghost use Rattle.plan_search.specs.Reached.{AreInRange};

use crate::mocking::{mock_tree, mock_tree_apart};
use crate::reading::{FilesRead, read_files};
use base_outside::{Clock, Shelf, Sink};
use base_texts::Name;
use cli_answers::{
    join_and_expect, join_and_run, plan_and_print, print_exclusive, print_ground, print_made,
    print_tree,
};
use cli_refusals::{Outside, Refusal, write_refusal};
use cli_words::{Command, read_command};
use run_driver::Drivers;
use spec_plan::Limits;
use spec_program::{Course, Exit, Print};
use spec_tree::Tree;
use spec_world::World;
use std::alloc::Global;
use text_trace::{load_tree, load_world};
use tree_reader::parse_tree;
use world_ground::{read_ground, world_of};
use world_reader::read_world;

/// Runs the tree of these bytes of a tree file in the world of these bytes of a world script.
#[tactic(auto, using(base_tables::proofs::Runnable::runnable))]
fn run_files<S: Shelf, K: Sink, C: Clock, D: Drivers>(
    alloc: Global,
    tree: &[u8],
    world: &[u8],
    main: Option<&Name>,
    course: Course,
    outside: &mut Outside<S, K, C, D>,
) -> Result<Exit, Refusal>
    requires tree { length tree.now ≤ most_file_bytes }
    requires world { length world.now ≤ most_file_bytes }
    requires quiet { NothingHeld (D.states outside.old.drivers.now) }
    ensures ends { EndsAt (CourseGives course (option_copied main.entry) tree.now world.now) AreUncalled result
        (seen K.written K.faults C.moments D.states outside.old)
        (seen K.written K.faults C.moments D.states outside.new) }
    ensures unread { outside.new.shelf.now ≡ outside.old.shelf.now }
    ensures stays { Stays S.faults K.faults D.states outside.old outside.new }
    ensures writes { EndWrites K.write_gives result outside.old.out.now outside.new.out.now }
{
    let tree = parse_tree(alloc, tree, main)?;
    // What is large is dropped by a call, here and below, which is proved once.
    match read_world(alloc, world) {
        Ok(world) => {
            let ended = join_and_run(alloc, &tree, &world, course, outside);
            drop(world);
            drop(tree);
            ended
        }
        Err(stopped) => {
            drop(tree);
            Err(Refusal::from(stopped))
        }
    }
}

/// Makes both files of a load of so many leaves, and runs them.
fn make_and_run<S: Shelf, K: Sink, C: Clock, D: Drivers>(
    alloc: Global,
    leaves: u32,
    outside: &mut Outside<S, K, C, D>,
) -> Result<Exit, Refusal>
    requires few { leaves ≤ most_leaves }
    requires quiet { NothingHeld (D.states outside.old.drivers.now) }
    ensures ends { EndsAt (CourseGives (course.Load leaves) None (tree_text leaves) (world_text leaves)) AreUncalled result
        (seen K.written K.faults C.moments D.states outside.old)
        (seen K.written K.faults C.moments D.states outside.new) }
    ensures unread { outside.new.shelf.now ≡ outside.old.shelf.now }
    ensures stays { Stays S.faults K.faults D.states outside.old outside.new }
    ensures writes { EndWrites K.write_gives result outside.old.out.now outside.new.out.now }
{
    let tree = load_tree(alloc, leaves)?;
    let world = load_world(alloc, leaves)?;
    let course = Course::Load(leaves);
    run_files(
        alloc,
        tree.as_slice(),
        world.as_slice(),
        None,
        course,
        outside,
    )
}

/// Prints this of the tree of these bytes of a tree file.
fn print_file<S: Shelf, K: Sink, C: Clock, D: Drivers>(
    alloc: Global,
    tree: &[u8],
    main: Option<&Name>,
    print: Print,
    outside: &mut Outside<S, K, C, D>,
) -> Result<Exit, Refusal>
    requires tree { length tree.now ≤ most_file_bytes }
    requires quiet { NothingHeld (D.states outside.old.drivers.now) }
    ensures ends { EndsAt (λ moments drivers. PrintGives print (option_copied main.entry) tree.now) AreUncalled result
        (seen K.written K.faults C.moments D.states outside.old)
        (seen K.written K.faults C.moments D.states outside.new) }
    ensures unread { outside.new.shelf.now ≡ outside.old.shelf.now }
    ensures stays { Stays S.faults K.faults D.states outside.old outside.new }
    ensures writes { EndWrites K.write_gives result outside.old.out.now outside.new.out.now }
{
    let tree = parse_tree(alloc, tree, main)?;
    let exit = print_tree(alloc, &tree, print, outside.out);
    drop(tree);
    Ok(exit)
}

/// Prints which leaves with these IDs may be held together, of the tree of these bytes of a tree file.
fn exclusive_file<S: Shelf, K: Sink, C: Clock, D: Drivers>(
    alloc: Global,
    tree: &[u8],
    ids: &[Name],
    main: Option<&Name>,
    outside: &mut Outside<S, K, C, D>,
) -> Result<Exit, Refusal>
    requires tree { length tree.now ≤ most_file_bytes }
    requires quiet { NothingHeld (D.states outside.old.drivers.now) }
    ensures ends { EndsAt (λ moments drivers. ExclusiveGives ids.now (option_copied main.entry) tree.now) AreUncalled result
        (seen K.written K.faults C.moments D.states outside.old)
        (seen K.written K.faults C.moments D.states outside.new) }
    ensures unread { outside.new.shelf.now ≡ outside.old.shelf.now }
    ensures stays { Stays S.faults K.faults D.states outside.old outside.new }
    ensures writes { EndWrites K.write_gives result outside.old.out.now outside.new.out.now }
{
    let tree = parse_tree(alloc, tree, main)?;
    let exit = print_exclusive(alloc, &tree, ids, outside.out);
    drop(tree);
    Ok(exit)
}

/// Plans for the goals of the world of these bytes of a world script.
fn plan_file<S: Shelf, K: Sink, C: Clock, D: Drivers>(
    alloc: Global,
    world: &[u8],
    limits: &Limits,
    outside: &mut Outside<S, K, C, D>,
) -> Result<Exit, Refusal>
    requires world { length world.now ≤ most_file_bytes }
    requires limits { AreInRange limits.now }
    requires quiet { NothingHeld (D.states outside.old.drivers.now) }
    ensures ends { EndsAt (λ moments. PlanGives limits.now world.now) (PlanBegins limits.now world.now) result
        (seen K.written K.faults C.moments D.states outside.old)
        (seen K.written K.faults C.moments D.states outside.new) }
    ensures unread { outside.new.shelf.now ≡ outside.old.shelf.now }
    ensures stays { Stays S.faults K.faults D.states outside.old outside.new }
    ensures writes { EndWrites K.write_gives result outside.old.out.now outside.new.out.now }
{
    let world = read_world(alloc, world)?;
    let ended = plan_and_print(alloc, &world, limits, outside);
    drop(world);
    ended
}

/// Plans for the goals of the world script that these bytes of a ground file stand for.
fn plan_ground<S: Shelf, K: Sink, C: Clock, D: Drivers>(
    alloc: Global,
    bytes: &[u8],
    limits: &Limits,
    outside: &mut Outside<S, K, C, D>,
) -> Result<Exit, Refusal>
    requires bytes { length bytes.now ≤ most_file_bytes }
    requires limits { AreInRange limits.now }
    requires quiet { NothingHeld (D.states outside.old.drivers.now) }
    ensures ends { EndsAt (λ moments. GroundPlanGives limits.now bytes.now) (GroundPlanBegins limits.now bytes.now) result
        (seen K.written K.faults C.moments D.states outside.old)
        (seen K.written K.faults C.moments D.states outside.new) }
    ensures unread { outside.new.shelf.now ≡ outside.old.shelf.now }
    ensures stays { Stays S.faults K.faults D.states outside.old outside.new }
    ensures writes { EndWrites K.write_gives result outside.old.out.now outside.new.out.now }
{
    let ground = read_ground(alloc, bytes)?;
    let world = world_of(alloc, &ground)?;
    let ended = plan_and_print(alloc, &world, limits, outside);
    drop(world);
    ended
}

/// Writes the world script that these bytes of a ground file stand for.
fn ground_file<S: Shelf, K: Sink, C: Clock, D: Drivers>(
    alloc: Global,
    bytes: &[u8],
    outside: &mut Outside<S, K, C, D>,
) -> Result<Exit, Refusal>
    requires bytes { length bytes.now ≤ most_file_bytes }
    requires quiet { NothingHeld (D.states outside.old.drivers.now) }
    ensures ends { EndsAt (λ moments drivers. GroundGives bytes.now) AreUncalled result
        (seen K.written K.faults C.moments D.states outside.old)
        (seen K.written K.faults C.moments D.states outside.new) }
    ensures unread { outside.new.shelf.now ≡ outside.old.shelf.now }
    ensures stays { Stays S.faults K.faults D.states outside.old outside.new }
    ensures writes { EndWrites K.write_gives result outside.old.out.now outside.new.out.now }
{
    let ground = read_ground(alloc, bytes)?;
    Ok(print_ground(&ground, outside.out))
}

/// Runs the tree of these bytes of a tree file in the world of these bytes of a world script, and tells of each expectation of
/// these bytes of a file of expectations whether the run meets it.
#[tactic(auto, using(base_tables::proofs::Runnable::runnable))]
fn expect_files<S: Shelf, K: Sink, C: Clock, D: Drivers>(
    alloc: Global,
    tree: &[u8],
    world: &[u8],
    expect: &[u8],
    main: Option<&Name>,
    outside: &mut Outside<S, K, C, D>,
) -> Result<Exit, Refusal>
    requires tree { length tree.now ≤ most_file_bytes }
    requires world { length world.now ≤ most_file_bytes }
    requires expect { length expect.now ≤ most_file_bytes }
    requires quiet { NothingHeld (D.states outside.old.drivers.now) }
    ensures ends { EndsAt (ExpectGives (option_copied main.entry) tree.now world.now expect.now) AreUncalled result
        (seen K.written K.faults C.moments D.states outside.old)
        (seen K.written K.faults C.moments D.states outside.new) }
    ensures unread { outside.new.shelf.now ≡ outside.old.shelf.now }
    ensures stays { Stays S.faults K.faults D.states outside.old outside.new }
    ensures writes { EndWrites K.write_gives result outside.old.out.now outside.new.out.now }
{
    let tree = parse_tree(alloc, tree, main)?;
    match read_world(alloc, world) {
        Ok(world) => {
            let ended = join_and_expect(alloc, &tree, &world, expect, outside);
            drop(world);
            drop(tree);
            ended
        }
        Err(stopped) => {
            drop(tree);
            Err(Refusal::from(stopped))
        }
    }
}

/// Runs what the rules of these bytes of a rules file make of a tree, in a world. The tree itself is dropped before that.
fn run_mocked<S: Shelf, K: Sink, C: Clock, D: Drivers>(
    alloc: Global,
    tree: Tree,
    world: &World,
    rules: &[u8],
    outside: &mut Outside<S, K, C, D>,
) -> Result<Exit, Refusal>
    requires tree { IsValid tree }
    requires world { IsValidWorld world.now }
    requires quiet { NothingHeld (D.states outside.old.drivers.now) }
    ensures ends { EndsAt (StandingGives (mocked rules.now tree) world.now course.Script) AreUncalled result
        (seen K.written K.faults C.moments D.states outside.old)
        (seen K.written K.faults C.moments D.states outside.new) }
    ensures unread { outside.new.shelf.now ≡ outside.old.shelf.now }
    ensures stays { Stays S.faults K.faults D.states outside.old outside.new }
    ensures writes { EndWrites K.write_gives result outside.old.out.now outside.new.out.now }
{
    match mock_tree(alloc, &tree, rules) {
        Ok(mocked) => {
            drop(tree);
            let ended = join_and_run(alloc, &mocked, world, Course::Script, outside);
            drop(mocked);
            ended
        }
        Err(stopped) => {
            drop(tree);
            Err(Refusal::from(stopped))
        }
    }
}

/// Runs what the rules of these bytes of a rules file make of the tree of these bytes of a tree file, in
/// the world of these bytes of a world script.
fn mock_files<S: Shelf, K: Sink, C: Clock, D: Drivers>(
    alloc: Global,
    tree: &[u8],
    world: &[u8],
    rules: &[u8],
    main: Option<&Name>,
    outside: &mut Outside<S, K, C, D>,
) -> Result<Exit, Refusal>
    requires tree { length tree.now ≤ most_file_bytes }
    requires world { length world.now ≤ most_file_bytes }
    requires rules { length rules.now ≤ most_file_bytes }
    requires quiet { NothingHeld (D.states outside.old.drivers.now) }
    ensures ends { EndsAt (ScriptMocks (option_copied main.entry) tree.now world.now rules.now) AreUncalled result
        (seen K.written K.faults C.moments D.states outside.old)
        (seen K.written K.faults C.moments D.states outside.new) }
    ensures unread { outside.new.shelf.now ≡ outside.old.shelf.now }
    ensures stays { Stays S.faults K.faults D.states outside.old outside.new }
    ensures writes { EndWrites K.write_gives result outside.old.out.now outside.new.out.now }
{
    let tree = parse_tree(alloc, tree, main)?;
    match read_world(alloc, world) {
        Ok(world) => {
            let ended = run_mocked(alloc, tree, &world, rules, outside);
            drop(world);
            ended
        }
        Err(stopped) => {
            drop(tree);
            Err(Refusal::from(stopped))
        }
    }
}

/// Prints the tree that the rules of these bytes of a rules file make of the tree of these bytes of a tree file.
fn print_mocked<S: Shelf, K: Sink, C: Clock, D: Drivers>(
    alloc: Global,
    tree: &[u8],
    rules: &[u8],
    main: Option<&Name>,
    outside: &mut Outside<S, K, C, D>,
) -> Result<Exit, Refusal>
    requires tree { length tree.now ≤ most_file_bytes }
    requires rules { length rules.now ≤ most_file_bytes }
    requires quiet { NothingHeld (D.states outside.old.drivers.now) }
    ensures ends { EndsAt (λ moments drivers. MadeGives (option_copied main.entry) tree.now rules.now) AreUncalled result
        (seen K.written K.faults C.moments D.states outside.old)
        (seen K.written K.faults C.moments D.states outside.new) }
    ensures unread { outside.new.shelf.now ≡ outside.old.shelf.now }
    ensures stays { Stays S.faults K.faults D.states outside.old outside.new }
    ensures writes { EndWrites K.write_gives result outside.old.out.now outside.new.out.now }
{
    let tree = parse_tree(alloc, tree, main)?;
    match mock_tree_apart(alloc, &tree, rules) {
        Ok(made) => {
            let exit = print_made(alloc, &made, outside.out);
            drop(made);
            drop(tree);
            Ok(exit)
        }
        Err(stopped) => {
            drop(tree);
            Err(Refusal::from(stopped))
        }
    }
}

/// The limits of a plan, by the numbers of its words.
fn limits_of(expand: u32, ticks: u32, period: u32) -> Limits
    ensures { result ≡ record { expand = expand; ticks = ticks; period = period } }
{
    Limits {
        expand,
        ticks,
        period: u64::from(period),
    }
}

/// Answers a command over the bytes of its files: its output is written, or it is refused and nothing is
/// written yet.
fn answer<S: Shelf, K: Sink, C: Clock, D: Drivers>(
    alloc: Global,
    command: Command,
    files: &FilesRead,
    outside: &mut Outside<S, K, C, D>,
) -> Result<Exit, Refusal>
    requires range { IsInRange (command_seen command) }
    requires short { AreShort (contents_of files.now) }
    requires quiet { NothingHeld (D.states outside.old.drivers.now) }
    ensures ends { let command = command_seen command.entry in
        let files = contents_of files.now in
        EndsAt (FilesGive command files) (FilesBegin command files) result
        (seen K.written K.faults C.moments D.states outside.old)
        (seen K.written K.faults C.moments D.states outside.new) }
    ensures unread { outside.new.shelf.now ≡ outside.old.shelf.now }
    ensures stays { Stays S.faults K.faults D.states outside.old outside.new }
    ensures writes { EndWrites K.write_gives result outside.old.out.now outside.new.out.now }
{
    let (tree, world, rules, expect) = (
        files.tree.as_slice(),
        files.world.as_slice(),
        files.rules.as_slice(),
        files.expect.as_slice(),
    );
    match command {
        Command::Tick { main, .. } => run_files(alloc, tree, world, main, Course::Script, outside),
        Command::Live { rounds, main, .. } => {
            run_files(alloc, tree, world, main, Course::Rounds(rounds), outside)
        }
        Command::Load { leaves } => make_and_run(alloc, leaves, outside),
        Command::Check { main, .. } => print_file(alloc, tree, main, Print::Whole, outside),
        Command::Dead { main, .. } => print_file(alloc, tree, main, Print::Dead, outside),
        Command::Exclusive { ids, main, .. } => exclusive_file(alloc, tree, ids, main, outside),
        Command::Plan {
            expand,
            ticks,
            period,
            ..
        } => plan_file(alloc, world, &limits_of(expand, ticks, period), outside),
        Command::Mock { main, .. } => mock_files(alloc, tree, world, rules, main, outside),
        Command::MockPrint { main, .. } => print_mocked(alloc, tree, rules, main, outside),
        Command::Expect { main, .. } => expect_files(alloc, tree, world, expect, main, outside),
        Command::Ground { .. } => ground_file(alloc, world, outside),
        Command::GroundPlan {
            expand,
            ticks,
            period,
            ..
        } => plan_ground(alloc, world, &limits_of(expand, ticks, period), outside),
    }
}

/// Reads the files of the command that the words of a command line are, each once, and answers it over
/// them, line by line; or writes the line of its refusal.
pub fn answer_words<S: Shelf, K: Sink, C: Clock, D: Drivers>(
    alloc: Global,
    words: &[Name],
    outside: &mut Outside<S, K, C, D>,
) -> Exit
    requires quiet { NothingHeld (D.states outside.old.drivers.now) }
    ensures reads { let old = outside.old.shelf.now in
        let new = outside.new.shelf.now in
        WordsAnswered S.read_gives (S.holds old) (command_of words.now) (Rose (S.faults old) (S.faults new)) old new result
        (seen K.written K.faults C.moments D.states outside.old)
        (seen K.written K.faults C.moments D.states outside.new) }
    ensures held { S.holds outside.new.shelf.now ≡ S.holds outside.old.shelf.now }
    ensures stays { Stays S.faults K.faults D.states outside.old outside.new }
    ensures writes { WritesAt K.write_gives result outside.old.out.now outside.new.out.now }
{
    let Some(command) = read_command(words) else {
        return write_refusal(alloc, &Refusal::Words, outside.out);
    };
    match read_files(alloc, command, outside.shelf) {
        Ok(files) => match answer(alloc, command, &files, outside) {
            Ok(exit) => exit,
            Err(refusal) => write_refusal(alloc, &refusal, outside.out),
        },
        Err(refusal) => write_refusal(alloc, &refusal, outside.out),
    }
}
