ghost use Rattle.std.specs.Prelude.{◌≡◌, ◌≤◌, ◌<◌, ◌^◌, ◌++◌, ◌∷◌, ℕ, ℤ, List, OnOk, OnErr, Some, length, slice_set};
ghost use Rattle.base_texts.specs.Stops.{UnlessMemory};
ghost use Rattle.spec_run.specs.Run.{changed_entries, settled};
ghost use Rattle.spec_run.specs.Visit.{change};
ghost use Rattle.run_arena.specs.Ends.{StaysFit};
ghost use Rattle.run_arena.specs.Nodes.{kept_at};
ghost use Rattle.run_loop.specs.Parts.{CanAct, EndsTick, MeetsPart, StaysArena, acting, scene_of, turn_header};
ghost use Rattle.spec_run.specs.Served.{Setup};

use crate::runs::ReadyRunner;
use crate::telling::tell_entries;
use base_texts::{NoMemory, Stop};
use run_arena::{Arena, Block, Kept, Notes, Stage};
use run_driver::{Drivers, FactTable};
use run_nodes::reset;
use run_tick::tick;
use spec_run::{Answer, Header, NodeFault, Note, Status};
use std::alloc::Global;
use tree_board::{Past, Recorded};

/// What a runner does in an event, or at the end of a run.
#[derive(Clone, Copy, Debug, PartialEq, Eq)]
pub enum Part {
    /// Its root is visited.
    Tick,
    /// Its root is reset.
    Halt,
    /// Its root is reset, after the last event.
    Finish,
}

/// A runner's part, at the time `at` in milliseconds.
#[derive(Clone, Copy, Debug, PartialEq, Eq)]
pub struct Turn {
    pub part: Part,
    pub runner: u8,
    pub at: u64,
}

impl Turn {
    ghost use Rattle.std.specs.Prelude.{◌≡◌};
    ghost use Rattle.run_loop.specs.Parts.{turn_header};

    /// The header of the block that tells it.
    pub fn header(self) -> Header
        ensures { result ≡ turn_header self }
    {
        let Turn { part, runner, at } = self;
        match part {
            Part::Tick => Header::Tick { runner, at },
            Part::Halt => Header::Halt { runner, at },
            Part::Finish => Header::Finish { runner, at },
        }
    }
}

/// The status of a root after its tick: IDLE where it has succeeded or failed.
fn at_end(status: Status) -> Status
    ensures { result ≡ settled status }
{
    match status {
        Status::Success | Status::Failure => Status::Idle,
        other => other,
    }
}

/// Makes a root IDLE that has succeeded or failed, with a note. The error is want of memory, and
/// then the root is unchanged.
fn settle_root(kept: &mut [Kept], notes: &mut Notes) -> Result<(), NoMemory>
    requires { 1 < length kept.old }
    ensures kept { let root = kept_at kept.old 1 in
        OnOk result (kept.new ≡ slice_set kept.old 1 (record root { status = settled root.status })) }
    ensures notes { let root = kept_at kept.old 1 in
        OnOk result (notes.new.list ≡ notes.old.list ++ change 1 root.status (settled root.status)) }
    ensures err { OnErr result (kept.new ≡ kept.old) }
    ensures err_notes { OnErr result (notes.new.list ≡ notes.old.list) }
    ensures reserve { notes.new.reserve ≡ notes.old.reserve }
    ensures full { notes.new.full ≡ notes.old.full }
{
    let old = kept[1].status;
    let new = at_end(old);
    if old != new {
        notes.push(Note::Changed { uid: 1, old, new })?;
    }
    kept[1].status = new;
    Ok(())
}

/// Ends a tick whose visit of the root came to this: adds the note of the root's answer, and makes a root IDLE that has
/// succeeded or failed. The error is that of the visit, or want of memory, and then the root is unchanged.
fn end_tick(
    runner: u8,
    visited: Result<Answer, Stop<NodeFault>>,
    kept: &mut [Kept],
    notes: &mut Notes,
) -> Result<(), Stop<NodeFault>>
    requires { OnOk visited (1 < length kept.old) }
    ensures ends { EndsTick runner visited result kept.old kept.new notes.old.list notes.new.list }
    ensures reserve { notes.new.reserve ≡ notes.old.reserve }
    ensures full { notes.new.full ≡ notes.old.full }
{
    let answer = visited?;
    notes.push(Note::Root { runner, answer })?;
    settle_root(kept, notes)?;
    Ok(())
}

/// Ends a loan of what nodes keep. The prover follows a slice of a vector through a stage only where
/// the slice is used again behind it.
#[inline(always)]
fn lent_back(kept: &mut [Kept])
    ensures { kept.new ≡ kept.old }
{
    let _ = kept;
}

/// Resets a runner's root at the time `at` in milliseconds, which changes no fact. The error is the
/// fault of a node, or want of memory.
fn reset_root<D: Drivers, P: Past>(
    arena: &mut Arena,
    board: &mut Recorded<P>,
    facts: &mut FactTable,
    drivers: &mut D,
    at: u64,
    notes: &mut Notes,
) -> Result<(), Stop<NodeFault>>
    requires can { (of : Setup) × CanAct of.tree of.world at facts.old (D.states drivers.old) (acting arena.old board.old) }
    ensures part { (of : Setup) → CanAct of.tree of.world at facts.old (D.states drivers.old) (acting arena.old board.old) →
        let old = scene_of (acting arena.old board.old) facts.old (D.states drivers.old) in
        let new = scene_of (acting arena.new board.new) facts.new (D.states drivers.new) in
        MeetsPart of Part.Halt at result (acting arena.old board.old) old new notes.old.list notes.new.list }
    ensures fits { let old = scene_of (acting arena.old board.old) facts.old (D.states drivers.old) in
        let new = scene_of (acting arena.new board.new) facts.new (D.states drivers.new) in
        StaysFit arena.old.nodes.items old new }
    ensures facts { facts.new ≡ facts.old }
    ensures stays { StaysArena arena.old arena.new }
    ensures reserve { notes.old.reserve ≤ notes.new.reserve }
    ensures full { notes.new.full ≡ notes.old.full }
{
    let kept: &mut [Kept] = &mut arena.kept;
    let mut stage = Stage {
        alloc: *arena.frames.allocator(),
        moment: at,
        nodes: &arena.nodes,
        kept: &mut *kept,
        board,
        facts,
        drivers,
        notes,
    };
    let done = reset(&mut stage, 1);
    lent_back(kept);
    done
}

/// Ticks or resets the runner with this arena, as its turn says, over its blackboard. A visit changes what it is lent as one
/// value, the stage. The error is the fault of a node, or want of memory.
#[inline(never)]
pub fn make_part<D: Drivers, P: Past>(
    turn: Turn,
    arena: &mut Arena,
    board: &mut Recorded<P>,
    facts: &mut FactTable,
    drivers: &mut D,
    notes: &mut Notes,
) -> Result<(), Stop<NodeFault>>
    requires can { (of : Setup) × CanAct of.tree of.world turn.at facts.old (D.states drivers.old) (acting arena.old board.old) }
    ensures part { (of : Setup) → CanAct of.tree of.world turn.at facts.old (D.states drivers.old) (acting arena.old board.old) →
        let old = scene_of (acting arena.old board.old) facts.old (D.states drivers.old) in
        let new = scene_of (acting arena.new board.new) facts.new (D.states drivers.new) in
        MeetsPart of turn.part turn.at result (acting arena.old board.old) old new notes.old.list notes.new.list }
    ensures fits { let old = scene_of (acting arena.old board.old) facts.old (D.states drivers.old) in
        let new = scene_of (acting arena.new board.new) facts.new (D.states drivers.new) in
        StaysFit arena.old.nodes.items old new }
    ensures stays { StaysArena arena.old arena.new }
    ensures reserve { notes.old.reserve ≤ notes.new.reserve }
    ensures full { notes.new.full ≡ notes.old.full }
{
    let Part::Tick = turn.part else {
        return reset_root(arena, board, facts, drivers, turn.at, notes);
    };
    let number = arena.runner;
    let kept: &mut [Kept] = &mut arena.kept;
    let mut stage = Stage {
        alloc: *arena.frames.allocator(),
        moment: turn.at,
        nodes: &arena.nodes,
        kept: &mut *kept,
        board,
        facts,
        drivers,
        notes,
    };
    let visited = tick(&mut stage, &mut arena.frames);
    lent_back(kept);
    end_tick(number, visited, kept, notes)
}

/// How a runner's part ended, and whether what it changed on its blackboard was told. The errors are the fault of a node,
/// and want of memory.
#[derive(Debug, Drop)]
pub struct Acted {
    pub ended: Result<(), Stop<NodeFault>>,
    pub told: Result<(), NoMemory>,
}

/// Gives a runner its blackboard back after its part, and adds the entries that changed to the block. Where the part was
/// cut off, none are added.
pub fn give_back<P: Past>(
    alloc: Global,
    ended: Result<(), Stop<NodeFault>>,
    board: Recorded<P>,
    number: u8,
    runner: &mut ReadyRunner,
    block: &mut Block,
) -> Acted
    requires few { length board < 2 ^ 32 }
    ensures ended { result.ended ≡ ended }
    ensures runner { runner.new ≡ record runner.old { board = board } }
    ensures told { let changes = changed_entries number 0 P.past board in
        UnlessMemory ended (OnOk result.told (block.new.entries.items ≡ block.old.entries.items ++ changes)) }
    ensures rest { block.new ≡ record block.old { entries = block.new.entries } }
{
    let told = match &ended {
        Err(Stop::NoMemory) => Ok(()),
        _ => tell_entries(alloc, number, &board, &mut block.entries),
    };
    runner.board = board.close();
    Acted { ended, told }
}
