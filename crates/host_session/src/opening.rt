ghost use Rattle.std.specs.Prelude.{◌≡◌, ◌≤◌, [], List, IfOk, Ok, length};
ghost use Rattle.std.specs.Option.{option_copied};
ghost use Rattle.base_texts.specs.Stops.{Gives};
ghost use Rattle.spec_tree.specs.Limits.{most_file_bytes};
ghost use Rattle.spec_tree.specs.Trees.{IsValid, nodes_of};
ghost use Rattle.spec_world.specs.Runnable.{IsRunnableWorld};
ghost use Rattle.spec_run.specs.Drivers.{DriverState};
ghost use Rattle.spec_run.specs.Joins.{first_untold, lack_of};
ghost use Rattle.spec_run.specs.Served.{Setup};
ghost use Rattle.spec_session.specs.Opening.{OpensTo, TreeOpens, joined, new_drivers, no_block, opened};
ghost use Rattle.base_tables.specs.Runnable.{IsRunnable};
ghost use Rattle.world_reader.specs.Readings as readings;
ghost use Rattle.run_arena.specs.Blocks.{seen};
ghost use Rattle.run_arena.specs.Joining.{Joins};
ghost use Rattle.run_loop.specs.Runs.{AreRuns, arenas_of};
ghost use Rattle.run_loop.specs.Steps.{HaveRoom};

use crate::five::Five;
use crate::labels::labels_of;
use crate::session::Session;
use base_tables::MOST_FILE_BYTES;
use base_texts::{Items, Name, Stop};
use run_arena::{Block, block_for};
use run_loop::{Runs, leaves, make_runs, tellings_fit};
use spec_run::{Header, JoinFault};
use spec_session::OpenFault;
use spec_tree::Tree;
use spec_world::{Event, World};
use std::alloc::Global;
use std::collections::VecDeque;
use tree_board::slots_of;
use tree_reader::parse_tree;
use world_reader::read_world;

/// A world without its own events, and these.
fn parted(alloc: Global, world: World) -> (World, VecDeque<Event>)
    ensures world { result.0 ≡ record world { events = [] } }
    ensures own { result.1.items ≡ world.events }
{
    let World {
        facts,
        rows,
        goals,
        runners,
        events,
    } = world;
    let bare = World {
        facts,
        rows,
        goals,
        runners,
        events: Items::of(Vec::new(alloc)),
    };
    (bare, VecDeque::from(events.into_vec()))
}

/// A block of no event yet, with room for the notes of these runs. The fault is what is missing for the first of these
/// events that tells a leaf something which it can't be told.
fn first_block(alloc: Global, runs: &Runs, events: &[Event]) -> Result<Block, Stop<JoinFault>>
    ghost of: { Setup }
    requires events { of.world.events ≡ events.now }
    requires tree { IsRunnable of.tree }
    requires world { IsRunnableWorld of.world }
    requires runs { (drivers : List DriverState) × AreRuns of.tree of.world drivers runs.now }
    ensures lack { Joins result (first_untold of.world.rows (nodes_of of.tree.term) of.world.events) }
    ensures seen { IfOk result (λ block. seen block ≡ no_block) }
    ensures room { IfOk result (λ block. HaveRoom (arenas_of runs.now) block.notes) }
{
    if let Err(fault) = tellings_fit(runs, events) {
        return Err(Stop::Fault(fault));
    }
    let mut block = block_for(alloc, leaves(runs) as u32)?;
    block.header = Header::Change {
        fact: 0,
        value: 0,
        at: 0,
    };
    Ok(block)
}

/// The session of a tree in a world before its first event, or what is missing.
fn join(alloc: Global, tree: Tree, world: World) -> Result<Session, Stop<JoinFault>>
    ghost of: { Setup }
    requires of { of ≡ record { tree = tree; world = world } }
    requires tree { IsRunnable tree }
    requires world { IsRunnableWorld world }
    ensures lack { Joins result (lack_of tree world new_drivers) }
    ensures opened { IfOk result (λ session. session ≡ opened tree world) }
{
    let slots = slots_of(alloc, &tree)?;
    let labels = labels_of(alloc, &tree)?;
    let mut five = Five::new(alloc);
    let runs = make_runs(alloc, &tree, &slots, &world, &mut five)?;
    let block = first_block(alloc, &runs, world.events.list())?;
    let (world, own) = parted(alloc, world);
    Ok(Session {
        alloc,
        tree,
        slots,
        labels,
        world,
        own,
        runs,
        five,
        block,
    })
}

/// The session of a tree in a world before its first event; the fault is what is missing.
fn session_in(alloc: Global, tree: Tree, world: World) -> Result<Session, Stop<OpenFault>>
    requires tree { IsRunnable tree }
    requires world { IsRunnableWorld world }
    ensures { Gives result (joined (lack_of tree world new_drivers) tree world) }
{
    match join(alloc, tree, world) {
        Ok(session) => Ok(session),
        Err(Stop::Fault(fault)) => Err(Stop::Fault(OpenFault::Join(fault))),
        Err(Stop::NoMemory) => Err(Stop::NoMemory),
    }
}

/// The session of a tree in the world of these bytes.
fn open_world(alloc: Global, tree: Tree, world: &[u8]) -> Result<Session, Stop<OpenFault>>
    requires tree { IsValid tree }
    requires world { length world.now ≤ most_file_bytes }
    ensures { readings.Gives result (TreeOpens (Ok tree) world.now) }
{
    match read_world(alloc, world) {
        Ok(world) => session_in(alloc, tree, world),
        Err(Stop::Fault(fault)) => Err(Stop::Fault(OpenFault::World(fault))),
        Err(Stop::NoMemory) => Err(Stop::NoMemory),
    }
}

impl Session {
    /// Opens the session of a tree in a world, before the first event; the fault is what is missing.
    pub fn of(alloc: Global, tree: Tree, world: World) -> Result<Session, Stop<JoinFault>>
        requires tree { IsRunnable tree }
        requires world { IsRunnableWorld world }
        ensures lack { Joins result (lack_of tree world new_drivers) }
        ensures opened { IfOk result (λ session. session ≡ opened tree world) }
    {
        join(alloc, tree, world)
    }

    /// Opens the session of the tree of these bytes of a tree file in the world of these bytes of a world script, before
    /// the first event. `main` asks for a main tree. The world's own events are not made: `own_event` makes the next.
    pub fn open(
        alloc: Global,
        tree: &[u8],
        world: &[u8],
        main: Option<&Name>,
    ) -> Result<Session, Stop<OpenFault>>
        ensures { OpensTo result (option_copied main.entry) tree.now world.now }
    {
        if tree.len() as u64 > MOST_FILE_BYTES {
            return Err(Stop::Fault(OpenFault::TreeTooLong));
        }
        if world.len() as u64 > MOST_FILE_BYTES {
            return Err(Stop::Fault(OpenFault::WorldTooLong));
        }
        match parse_tree(alloc, tree, main) {
            Ok(tree) => open_world(alloc, tree, world),
            Err(Stop::Fault(fault)) => Err(Stop::Fault(OpenFault::Tree(fault))),
            Err(Stop::NoMemory) => Err(Stop::NoMemory),
        }
    }
}
