//! What a host reads of a session. No read allocates memory.
ghost use Rattle.std.specs.Prelude.{◌≡◌, count_by, slice_index_or};
ghost use Rattle.std.specs.Option.{option_copied};
ghost use Rattle.base_tables.specs.SlotTables.{slot_table};
ghost use Rattle.spec_tree.specs.Boards.{port_of};
ghost use Rattle.spec_run.specs.Ports.{given_by};
ghost use Rattle.run_arena.specs.Blocks.{seen};
ghost use Rattle.run_arena.specs.Rosters.{instances_of};
ghost use Rattle.spec_run.specs.Joins.{is_leaf};
ghost use Rattle.spec_run.specs.Leaf.{fresh};
ghost use Rattle.host_session.specs.Five.{states_of};
ghost use Rattle.host_session.specs.Numbered.{numbered};
ghost use Rattle.host_session.specs.Statuses.{status_at};

use crate::five::Five;
use crate::session::Session;
use base_texts::Name;
use run_arena::{Arena, Block};
use run_loop::{ReadyRunner, Runs};
use spec_run::Status;
use spec_script::Value;
use spec_session::Label;
use spec_tree::{Kind, Port, PortValue, Tree};
use spec_world::World;
use tree_board::{Slots, slot};

/// Lends the runner of this number; none where there is none.
fn runner_of(runs: &Runs, runner: u8) -> Option<&ReadyRunner>
    ensures { option_copied result ≡ numbered runs.now.runners.items runner }
{
    let place = (runner as usize).checked_sub(1)?;
    runs.runners.get(place)
}

/// The status of the node of a uid; none where there is no such node.
fn status_in(arena: &Arena, uid: u32) -> Option<Status>
    ensures { result ≡ status_at arena.now.nodes.items arena.now.kept.items uid }
{
    if uid < 1 || arena.nodes.len() <= uid as usize {
        return None;
    }
    match arena.kept.get(uid as usize) {
        Some(kept) => Some(kept.status),
        None => Some(Status::Idle),
    }
}

/// Lends what the inputs of the leaf of a uid held when it was started last; none where there is no such leaf.
fn inputs_in<'a>(five: &'a Five, arena: &Arena, uid: u32) -> &'a [Option<Value>]
    ensures { result.now ≡ (slice_index_or (instances_of arena.now.nodes.items (states_of five.now)) uid fresh).inputs }
{
    match arena.nodes.get(uid as usize) {
        Some(node) => match &node.leaf {
            Some(leaf) => five.inputs(leaf.driver, leaf.instance),
            None => &[],
        },
        None => &[],
    }
}

/// Lends what the port of this name is given; none where it is given nothing.
fn given<'a>(ports: &'a [Port], name: &Name) -> Option<&'a PortValue>
    ensures { option_copied result ≡ given_by (port_of ports.now name.now) }
{
    Some(&ports.iter().find(|port| port.name == *name)?.value)
}

/// Whether a node is a leaf for which a row stands.
fn is_leaf(label: &Label) -> bool
    ensures { result ≡ is_leaf label.now.kind }
{
    matches!(label.kind, Kind::Leaf)
}

/// How many of these nodes are.
fn leaf_count(labels: &[Label]) -> usize
    ensures { result ≡ count_by (λ label. is_leaf label.kind) labels.now }
{
    let mut count = 0;
    for label in labels {
        if is_leaf(label) {
            count += 1;
        }
    }
    count
}

impl Session {
    ghost use Rattle.std.specs.Prelude.{◌<◌, [], count_by, length};
    ghost use Rattle.spec_run.specs.Joins.{is_leaf};
    ghost use Rattle.spec_session.specs.Labels.{labels};
    ghost use Rattle.host_session.specs.Reads.{board_of, entry_of, inputs_of, next_moment, port_value, status_of};

    /// Lends the block of the last event: its header, what happened, and the facts and entries that changed.
    pub fn block(&self) -> &Block
        ensures { seen result.now ≡ self.now.block }
    {
        &self.block
    }

    /// Lends the tree.
    pub fn tree(&self) -> &Tree
        ensures { result.now ≡ self.now.tree }
    {
        &self.tree
    }

    /// Lends the world, which has no own events here.
    pub fn world(&self) -> &World
        ensures { result.now ≡ self.now.world }
    {
        &self.world
    }

    /// Lends the slots of the tree's blackboards.
    pub fn slots(&self) -> &Slots
        ensures { result.now ≡ slot_table self.now.tree }
    {
        &self.slots
    }

    /// How many nodes the tree has. Their uids begin at 1.
    pub fn nodes(&self) -> usize
        ensures { result ≡ length (labels self.now.tree) }
    {
        self.labels.len()
    }

    /// How many of them are leaves for which rows stand.
    pub fn leaves(&self) -> usize
        ensures { result ≡ count_by (λ label. is_leaf label.kind) (labels self.now.tree) }
    {
        leaf_count(&self.labels)
    }

    /// Lends what is told of a node. None where there is no node of this uid.
    pub fn label(&self, uid: u32) -> Option<&Label>
        ensures { option_copied result ≡ numbered (labels self.now.tree) uid }
    {
        let place = (uid as usize).checked_sub(1)?;
        self.labels.get(place)
    }

    /// Whether an event may be taken: none has ended in a fault or for want of memory.
    pub fn is_usable(&self) -> bool
        ensures { result ≡ self.now.usable }
    {
        self.runs.usable
    }

    /// The moment of the last event, in milliseconds.
    pub fn last(&self) -> u64
        ensures { result ≡ self.now.state.last }
    {
        self.runs.last
    }

    /// The moment of the next of the world's own events, in milliseconds; none where all were made.
    pub fn next_at(&self) -> Option<u64>
        ensures { result ≡ next_moment self.now.own }
    {
        Some(self.own.front()?.at)
    }

    /// Lends the values of the facts, by their number.
    pub fn facts(&self) -> &[i64]
        ensures { result.now ≡ self.now.state.facts }
    {
        self.runs.facts.list()
    }

    /// Lends the entries of a runner's blackboard, by their slot. A runner that is not there has none.
    pub fn entries(&self, runner: u8) -> &[Option<Value>]
        ensures { result.now ≡ board_of self.now runner }
    {
        match runner_of(&self.runs, runner) {
            Some(runner) => runner.board.list(),
            None => &[],
        }
    }

    /// Lends the value of the entry that a runner's blackboard has for a key in a scope: the uid of a SubTree node, or
    /// any other number for the main tree. None where there is none, and for a key that no node in the scope names and
    /// to which no literal is given.
    pub fn entry(&self, runner: u8, scope: u32, key: &Name) -> Option<&Value>
        ensures { option_copied result ≡ entry_of self.now runner scope key.now }
    {
        let slot = slot(&self.slots, scope, key)?;
        let entries = self.entries(runner);
        if (slot as usize) < entries.len() {
            entries[slot as usize].as_ref()
        } else {
            None
        }
    }

    /// Lends the value that a port of a node has now: its literal, or that of the entry of its key. None where the port
    /// is given nothing, or there is no such entry, node or runner.
    pub fn port(&self, runner: u8, uid: u32, port: &Name) -> Option<&Value>
        ensures { option_copied result ≡ port_value self.now runner uid port.now }
    {
        let label = self.label(uid)?;
        match given(label.ports.list(), port)? {
            PortValue::Lit(value) => Some(value),
            PortValue::Key(key) => self.entry(runner, label.scope, key),
        }
    }

    /// Lends what the input ports of a leaf held when it was started last, in the order of its row's ports: a value, or none
    /// where a port had none. They are kept for leaves that are told what they answer; of any other node, and before the
    /// first start, there are none.
    pub fn inputs(&self, runner: u8, uid: u32) -> &[Option<Value>]
        ensures inputs { result.now ≡ inputs_of self.now runner uid }
        ensures none { length (labels self.now.tree) < uid → result.now ≡ [] }
    {
        match runner_of(&self.runs, runner) {
            Some(runner) => inputs_in(&self.five, &runner.arena, uid),
            None => &[],
        }
    }

    /// The status of a node of a runner's tree. None where there is no such runner or node.
    pub fn status(&self, runner: u8, uid: u32) -> Option<Status>
        ensures { result ≡ status_of self.now runner uid }
    {
        status_in(&runner_of(&self.runs, runner)?.arena, uid)
    }
}
