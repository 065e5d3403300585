ghost use Rattle.std.specs.Prelude.{◌≡◌, ◌≤◌, ◌<◌, ◌+◌, ℕ, [], OnOk, OnErr, Ok, Err, false, length, map};
ghost use Rattle.base_texts.specs.declared.stop.Stop.TheVariants as stop;
ghost use Rattle.spec_run.specs.Drivers.{NothingHeld};
ghost use Rattle.spec_run.specs.Run.{change_step, finish as finish_step, step};
ghost use Rattle.run_loop.specs.Ending.{CanTell, Closing, IsQuenched, IsTelling};
ghost use Rattle.run_loop.specs.Hearing.{Tells};
ghost use Rattle.run_loop.specs.Parts.{CanTake, turn_step};
ghost use Rattle.run_loop.specs.Runs.{AreRuns, RunsFit, arenas_of, boards_in, leaves_of, nth_board};
ghost use Rattle.spec_run.specs.Served.{Setup};
ghost use Rattle.run_loop.specs.Steps.{CanCome, EventLeft, HaveRoom, event_side, kept_state};

use crate::beginning::begin;
use crate::boxed::Roster;
use crate::copying::copy_telling;
use crate::hearing::{Message, header_of, hear};
use crate::parts::{Acted, Part, Turn, give_back, make_part};
use crate::quenching::quench_all;
use crate::runs::Runs;
use crate::telling::{tell_fact_in, tell_facts_in};
use base_texts::{NoMemory, Stop};
use run_arena::{Block, Notes};
use run_driver::{Driver, Drivers};
use spec_run::{Header, NodeFault, Note, RunFault};
use spec_world::{Event, What};
use std::alloc::Global;
use std::marker::Brand;
use std::mem;
use tree_board::{Board, Past, Recorded};

/// Ends runs: quenches all runners, and no further event may come. It allocates no memory.
fn stop<D: Drivers>(runs: &mut Runs, drivers: &mut D, notes: &mut Notes)
    requires fit { (of : Setup) × RunsFit of (D.states drivers.old) runs.old }
    requires room { leaves_of (arenas_of runs.old) ≤ notes.old.reserve }
    ensures quenched { (of : Setup) → RunsFit of (D.states drivers.old) runs.old →
        let before = D.states drivers.old in
        IsQuenched of.tree before (D.states drivers.new) runs.old runs.new notes.old.list notes.new.list }
    ensures none { NothingHeld (D.states drivers.new) }
    ensures usable { runs.new.usable ≡ false }
    ensures told { runs.new.told ≡ runs.old.told }
    ensures many { length runs.new.runners.items ≡ length runs.old.runners.items }
    ensures boards { boards_in runs.new.runners.items ≡ boards_in runs.old.runners.items }
    ensures facts { runs.new.facts ≡ runs.old.facts }
    ensures full { notes.new.full ≡ notes.old.full }
{
    quench_all(&mut runs.runners, drivers, notes);
    runs.usable = false;
}

/// Adds to the block the facts that changed in the part of a runner, whose entries were told or not. The error is want of
/// memory.
fn tell(told: Result<(), NoMemory>, runs: &mut Runs, block: &mut Block) -> Result<(), NoMemory>
    requires can { CanTell runs.old }
    ensures told { let before = runs.old.told.items in
        OnOk result (IsTelling told runs.old.facts before runs.new.told.items block.old block.new) }
    ensures runs { runs.new ≡ record runs.old { told = runs.new.told } }
    ensures notes { block.new.notes ≡ block.old.notes }
{
    told?;
    tell_facts_in(&mut runs.told, &runs.facts, block)
}

/// Ends an event after its runner's part was made: adds what changed. Where there is want of
/// memory, all runners are quenched.
fn end_part<D: Drivers>(
    told: Result<(), NoMemory>,
    runs: &mut Runs,
    drivers: &mut D,
    block: &mut Block,
) -> Result<(), Stop<RunFault>>
    requires can { CanTell runs.old }
    requires fit { (of : Setup) × RunsFit of (D.states drivers.old) runs.old }
    requires room { leaves_of (arenas_of runs.old) ≤ block.old.notes.reserve }
    ensures closes { (of : Setup) → RunsFit of (D.states drivers.old) runs.old →
        let before = D.states drivers.old in
        let after = D.states drivers.new in
        (number : ℕ) → Closing (Ok tt) told result of.tree number before after runs.old runs.new block.old block.new }
    ensures none { OnErr result (NothingHeld (D.states drivers.new)) }
    ensures usable { OnErr result (runs.new.usable ≡ false) }
    ensures full { block.new.notes.full ≡ block.old.notes.full }
{
    match tell(told, runs, block) {
        Ok(()) => Ok(()),
        Err(NoMemory) => {
            stop(runs, drivers, &mut block.notes);
            Err(Stop::NoMemory)
        }
    }
}

/// Ends an event after a node faulted in its runner's part: adds the note of the fault, quenches
/// all runners, and adds what changed. The error is the fault, or want of memory.
fn end_at_fault<D: Drivers>(
    number: u8,
    fault: NodeFault,
    told: Result<(), NoMemory>,
    runs: &mut Runs,
    drivers: &mut D,
    block: &mut Block,
) -> Result<(), Stop<RunFault>>
    requires can { CanTell runs.old }
    requires fit { (of : Setup) × RunsFit of (D.states drivers.old) runs.old }
    requires room { leaves_of (arenas_of runs.old) + 1 ≤ block.old.notes.reserve }
    ensures closes { (of : Setup) → RunsFit of (D.states drivers.old) runs.old →
        let before = D.states drivers.old in
        let after = D.states drivers.new in
        Closing (Err (stop.Fault fault)) told result of.tree number before after runs.old runs.new block.old block.new }
    ensures none { NothingHeld (D.states drivers.new) }
    ensures usable { runs.new.usable ≡ false }
    ensures full { block.new.notes.full ≡ block.old.notes.full }
{
    let NodeFault { uid, cause } = fault;
    block.notes.push_reserved(Note::Faulted {
        runner: number,
        uid,
        cause,
    });
    stop(runs, drivers, &mut block.notes);
    tell(told, runs, block)?;
    Err(Stop::Fault(RunFault {
        runner: number,
        uid,
        cause,
    }))
}

/// Ends an event after its runner's part, whether that was made or stopped. The error is the fault
/// of a node, or want of memory.
fn end_event<D: Drivers>(
    number: u8,
    acted: Acted,
    runs: &mut Runs,
    drivers: &mut D,
    block: &mut Block,
) -> Result<(), Stop<RunFault>>
    requires can { CanTell runs.old }
    requires fit { (of : Setup) × RunsFit of (D.states drivers.old) runs.old }
    requires room { leaves_of (arenas_of runs.old) + 1 ≤ block.old.notes.reserve }
    ensures closes { (of : Setup) → RunsFit of (D.states drivers.old) runs.old →
        let before = D.states drivers.old in
        let after = D.states drivers.new in
        Closing acted.ended acted.told result of.tree number before after runs.old runs.new block.old block.new }
    ensures none { OnErr result (NothingHeld (D.states drivers.new)) }
    ensures usable { OnErr result (runs.new.usable ≡ false) }
    ensures full { block.new.notes.full ≡ block.old.notes.full }
{
    let Acted { ended, told } = acted;
    match ended {
        Ok(()) => end_part(told, runs, drivers, block),
        Err(Stop::Fault(fault)) => end_at_fault(number, fault, told, runs, drivers, block),
        Err(Stop::NoMemory) => {
            stop(runs, drivers, &mut block.notes);
            Err(Stop::NoMemory)
        }
    }
}

/// Makes an event of one runner: its part, and the end of the event. The error is the fault of a
/// node, or want of memory; after either all runners are quenched.
fn run_part<D: Drivers, P: Past>(
    alloc: Global,
    turn: Turn,
    runs: &mut Runs,
    drivers: &mut D,
    block: &mut Block,
) -> Result<(), Stop<RunFault>>
    requires runs { (of : Setup) × CanTake of turn (D.states drivers.old) runs.old }
    requires past { nth_board runs.old.runners.items turn.runner ≡ P.past }
    requires room { HaveRoom (arenas_of runs.old) block.old.notes }
    ensures { (of : Setup) → CanTake of turn (D.states drivers.old) runs.old →
        let old = event_side (D.states drivers.old) runs.old block.old in
        let new = event_side (D.states drivers.new) runs.new block.new in
        EventLeft of result old new (turn_step of turn (kept_state of old)) }
{
    begin(block, turn.header());
    runs.last = turn.at;
    let runner = &mut runs.runners[turn.runner as usize - 1];
    let board = mem::replace(&mut runner.board, Board::empty(alloc));
    let mut board: Recorded<P> = Recorded::of(board);
    let (arena, facts, notes) = (&mut runner.arena, &mut runs.facts, &mut block.notes);
    let ended = make_part(turn, arena, &mut board, facts, drivers, notes);
    let acted = give_back(alloc, ended, board, turn.runner, runner, block);
    end_event(turn.runner, acted, runs, drivers, block)
}

/// Gives a fact a value at the time `at` in milliseconds, and adds it to the block where it has
/// changed. Where there is want of memory, all runners are quenched.
fn change_fact<D: Drivers>(
    fact: u32,
    value: i64,
    at: u64,
    runs: &mut Runs,
    drivers: &mut D,
    block: &mut Block,
) -> Result<(), Stop<RunFault>>
    requires there { fact < length runs.old.facts }
    requires runs { (of : Setup) × AreRuns of.tree of.world (D.states drivers.old) runs.old }
    requires ahead { runs.old.last ≤ at }
    requires room { HaveRoom (arenas_of runs.old) block.old.notes }
    ensures { (of : Setup) → AreRuns of.tree of.world (D.states drivers.old) runs.old →
        let old = event_side (D.states drivers.old) runs.old block.old in
        let new = event_side (D.states drivers.new) runs.new block.new in
        EventLeft of result old new (change_step fact value at (kept_state of old)) }
{
    begin(block, Header::Change { fact, value, at });
    runs.last = at;
    runs.facts.put(fact, value);
    match tell_fact_in(&mut runs.told, fact, value, block) {
        Ok(()) => Ok(()),
        Err(NoMemory) => {
            stop(runs, drivers, &mut block.notes);
            Err(Stop::NoMemory)
        }
    }
}

/// Cuts off an event that tells a leaf something, before anything was told, since memory is wanting for it: all runners
/// are quenched.
fn cut_off<D: Drivers>(
    event: &Event,
    runs: &mut Runs,
    drivers: &mut D,
    block: &mut Block,
) -> Result<(), Stop<RunFault>>
    requires tells { Tells event.now.what }
    requires runs { (of : Setup) × AreRuns of.tree of.world (D.states drivers.old) runs.old }
    requires room { HaveRoom (arenas_of runs.old) block.old.notes }
    ensures { (of : Setup) → AreRuns of.tree of.world (D.states drivers.old) runs.old →
        let old = event_side (D.states drivers.old) runs.old block.old in
        let new = event_side (D.states drivers.new) runs.new block.new in
        EventLeft of result old new (step of.tree of.world event.now (kept_state of old)) }
{
    if let What::Tell {
        runner,
        uid,
        telling,
    } = &event.what
    {
        begin(block, header_of(*runner, *uid, telling, event.at));
    }
    stop(runs, drivers, &mut block.notes);
    Err(Stop::NoMemory)
}

/// Makes an event of runs over any drivers, which stays in its list: what a leaf is told is copied for its driver, and
/// where memory is wanting for that, nothing was told. The error is the fault of a node, or want of memory; after either
/// all runners are quenched, and no further event may come.
pub fn run_listed<D: Drivers>(
    alloc: Global,
    runs: &mut Runs,
    event: &Event,
    drivers: &mut D,
    block: &mut Block,
) -> Result<(), Stop<RunFault>>
    requires runs { (of : Setup) × AreRuns of.tree of.world (D.states drivers.old) runs.old × CanCome of runs.old.last event.now }
    requires room { HaveRoom (arenas_of runs.old) block.old.notes }
    ensures { (of : Setup) → AreRuns of.tree of.world (D.states drivers.old) runs.old → CanCome of runs.old.last event.now →
        let old = event_side (D.states drivers.old) runs.old block.old in
        let new = event_side (D.states drivers.new) runs.new block.new in
        EventLeft of result old new (step of.tree of.world event.now (kept_state of old)) }
{
    let at = event.at;
    match &event.what {
        What::Tick(runner) => {
            let (part, runner) = (Part::Tick, *runner);
            run_part::<D, Brand>(alloc, Turn { part, runner, at }, runs, drivers, block)
        }
        What::Halt(runner) => {
            let (part, runner) = (Part::Halt, *runner);
            run_part::<D, Brand>(alloc, Turn { part, runner, at }, runs, drivers, block)
        }
        What::Change { fact, value } => change_fact(*fact, *value, at, runs, drivers, block),
        What::Tell {
            runner,
            uid,
            telling,
        } => match copy_telling(alloc, telling) {
            Ok(telling) => {
                let (runner, uid) = (*runner, *uid);
                let message = Message {
                    runner,
                    uid,
                    telling,
                    at,
                };
                hear(message, runs, drivers, block);
                Ok(())
            }
            Err(NoMemory) => cut_off(event, runs, drivers, block),
        },
    }
}

/// Makes an event of runs, as `run_listed` does, and moves what a leaf is told to its driver.
fn handle_event<D: Drivers>(
    alloc: Global,
    runs: &mut Runs,
    event: Event,
    drivers: &mut D,
    block: &mut Block,
) -> Result<(), Stop<RunFault>>
    requires runs { (of : Setup) × AreRuns of.tree of.world (D.states drivers.old) runs.old × CanCome of runs.old.last event }
    requires room { HaveRoom (arenas_of runs.old) block.old.notes }
    ensures { (of : Setup) → AreRuns of.tree of.world (D.states drivers.old) runs.old → CanCome of runs.old.last event →
        let old = event_side (D.states drivers.old) runs.old block.old in
        let new = event_side (D.states drivers.new) runs.new block.new in
        EventLeft of result old new (step of.tree of.world event (kept_state of old)) }
{
    let Event { at, what } = event;
    match what {
        What::Tell {
            runner,
            uid,
            telling,
        } => {
            let message = Message {
                runner,
                uid,
                telling,
                at,
            };
            hear(message, runs, drivers, block);
            Ok(())
        }
        what => run_listed(alloc, runs, &Event { at, what }, drivers, block),
    }
}

/// Makes an event of runs over any drivers. The error is the fault of a node, or want of memory;
/// after either all runners are quenched, and no further event may come. What a leaf is told is moved to its driver.
pub fn run_event<D: Drivers>(
    alloc: Global,
    runs: &mut Runs,
    event: Event,
    drivers: &mut D,
    block: &mut Block,
) -> Result<(), Stop<RunFault>>
    ghost of: { Setup }
    requires runs { AreRuns of.tree of.world (D.states drivers.old) runs.old }
    requires come { CanCome of runs.old.last event }
    requires room { HaveRoom (arenas_of runs.old) block.old.notes }
    ensures { let old = event_side (D.states drivers.old) runs.old block.old in
        let new = event_side (D.states drivers.new) runs.new block.new in
        EventLeft of result old new (step of.tree of.world event (kept_state of old)) }
{
    handle_event(alloc, runs, event, drivers, block)
}

/// Finishes a runner of runs, at the time of the last event: its root is reset.
fn finish_runner<D: Drivers>(
    alloc: Global,
    runs: &mut Runs,
    runner: u8,
    drivers: &mut D,
    block: &mut Block,
) -> Result<(), Stop<RunFault>>
    requires runs { (of : Setup) × AreRuns of.tree of.world (D.states drivers.old) runs.old × (runner ≤ of.world.runners) }
    requires first { 1 ≤ runner }
    requires room { HaveRoom (arenas_of runs.old) block.old.notes }
    ensures { (of : Setup) → AreRuns of.tree of.world (D.states drivers.old) runs.old → runner ≤ of.world.runners →
        let old = event_side (D.states drivers.old) runs.old block.old in
        let new = event_side (D.states drivers.new) runs.new block.new in
        EventLeft of result old new (finish_step of.tree of.world runner (kept_state of old)) }
{
    let turn = Turn {
        part: Part::Finish,
        runner,
        at: runs.last,
    };
    run_part::<D, Brand>(alloc, turn, runs, drivers, block)
}

/// Finishes a runner of runs over any drivers, at the time of the last event: its root is reset.
/// The error is the fault of a node, or want of memory; after either all runners are quenched, and
/// no further event may come.
pub fn run_finish<D: Drivers>(
    alloc: Global,
    runs: &mut Runs,
    runner: u8,
    drivers: &mut D,
    block: &mut Block,
) -> Result<(), Stop<RunFault>>
    ghost of: { Setup }
    requires runs { AreRuns of.tree of.world (D.states drivers.old) runs.old }
    requires first { 1 ≤ runner }
    requires last { runner ≤ of.world.runners }
    requires room { HaveRoom (arenas_of runs.old) block.old.notes }
    ensures { let old = event_side (D.states drivers.old) runs.old block.old in
        let new = event_side (D.states drivers.new) runs.new block.new in
        EventLeft of result old new (finish_step of.tree of.world runner (kept_state of old)) }
{
    finish_runner(alloc, runs, runner, drivers, block)
}

/// Makes an event of runs: the block then has its header, what happened, and the facts and entries
/// that changed. A fault ends the runs, after a quench of all runners, and so does want of memory. What a leaf is told is
/// moved to its driver, for which no memory is allocated.
pub fn event(
    alloc: Global,
    runs: &mut Runs,
    event: Event,
    roster: &mut Vec<Box<dyn Driver>>,
    block: &mut Block,
) -> Result<(), Stop<RunFault>>
    requires runs { (of : Setup) × AreRuns of.tree of.world (map (λ b. state b) roster.old.items) runs.old
        × CanCome of runs.old.last event }
    requires room { HaveRoom (arenas_of runs.old) block.old.notes }
    ensures { (of : Setup) → AreRuns of.tree of.world (map (λ b. state b) roster.old.items) runs.old →
        CanCome of runs.old.last event →
        let old = event_side (map (λ b. state b) roster.old.items) runs.old block.old in
        let new = event_side (map (λ b. state b) roster.new.items) runs.new block.new in
        EventLeft of result old new (step of.tree of.world event (kept_state of old)) }
{
    let mut held = Roster {
        drivers: mem::replace(roster, Vec::new(alloc)),
    };
    let ended = handle_event(alloc, runs, event, &mut held, block);
    *roster = held.drivers;
    ended
}

/// Finishes a runner at the moment of the last event: its root is reset. The block has the header of a
/// finish, and all else as after an event.
pub fn finish(
    alloc: Global,
    runs: &mut Runs,
    runner: u8,
    roster: &mut Vec<Box<dyn Driver>>,
    block: &mut Block,
) -> Result<(), Stop<RunFault>>
    requires runs { (of : Setup) × AreRuns of.tree of.world (map (λ b. state b) roster.old.items) runs.old
        × (runner ≤ of.world.runners) }
    requires first { 1 ≤ runner }
    requires room { HaveRoom (arenas_of runs.old) block.old.notes }
    ensures { (of : Setup) → AreRuns of.tree of.world (map (λ b. state b) roster.old.items) runs.old →
        runner ≤ of.world.runners →
        let old = event_side (map (λ b. state b) roster.old.items) runs.old block.old in
        let new = event_side (map (λ b. state b) roster.new.items) runs.new block.new in
        EventLeft of result old new (finish_step of.tree of.world runner (kept_state of old)) }
{
    let mut held = Roster {
        drivers: mem::replace(roster, Vec::new(alloc)),
    };
    let ended = finish_runner(alloc, runs, runner, &mut held, block);
    *roster = held.drivers;
    ended
}
