//! What a session has: its numbers, its facts and the entries of its blackboards.
ghost use Rattle.std.specs.Prelude.{◌≡◌, count_by, if◌then◌else◌, length, slice_get};
ghost use Rattle.std.specs.Option.{option_copied};
ghost use Rattle.base_tables.specs.SlotTables.{slot_table};
ghost use Rattle.spec_run.specs.Joins.{is_leaf};
ghost use Rattle.spec_session.specs.Labels.{labels};
ghost use types.Logic.{sem};
ghost use Rattle.host_library.specs.Owned.{hosted_owns};
ghost use Rattle.host_library.specs.Reads as reads;
ghost use Rattle.host_library.specs.Texts.{TextTold};
ghost use Rattle.host_library.specs.Values as values;

use crate::hosted::Hosted;
use crate::nodes::runner_of;
use crate::text::copy_text;
use crate::values::{Valued, copy_value_text, int_told, no_value, value_told};
use spec_script::Value;
use spec_tree::Cell;
use tree_board::cells;

impl Hosted {
    /// Whether an event may be taken.
    fn is_usable(&self) -> u32
        ensures { result ≡ (if self.now.session.usable then 1 else 0) }
    {
        if self.session.is_usable() { 1 } else { 0 }
    }

    /// The moment of the last event.
    fn last(&self) -> u64
        ensures { result ≡ self.now.session.state.last }
    {
        self.session.last()
    }

    /// How many nodes the tree has.
    fn node_count(&self) -> usize
        ensures { result ≡ length (labels self.now.session.tree) }
    {
        self.session.nodes()
    }

    /// How many leaves the tree has for which rows stand.
    fn leaf_count(&self) -> usize
        ensures { result ≡ count_by (λ label. is_leaf label.kind) (labels self.now.session.tree) }
    {
        self.session.leaves()
    }

    /// How many runners the world has.
    fn runner_count(&self) -> u32
        ensures { result ≡ self.now.session.world.runners }
    {
        u32::from(self.session.world().runners)
    }

    /// How many facts the world has.
    fn fact_count(&self) -> usize
        ensures { result ≡ length self.now.session.state.facts }
    {
        self.session.facts().len()
    }

    /// The value of a fact.
    fn fact(&self, fact: u32) -> Valued
        ensures { result ≡ reads.fact_told (slice_get self.now.session.state.facts fact) }
    {
        match self.session.facts().get(fact as usize) {
            Some(value) => int_told(*value),
            None => no_value(),
        }
    }

    /// Copies the name of a fact.
    fn fact_name(&self, fact: u32, room: &mut [u8]) -> usize
        ensures { TextTold (reads.fact_named (slice_get self.now.session.world.facts fact)) room.old result room.new }
    {
        match self.session.world().facts.list().get(fact as usize) {
            Some(fact) => copy_text(fact.name.list(), room),
            None => 0,
        }
    }

    /// How many entries a blackboard can have.
    fn entry_count(&self) -> usize
        ensures { result ≡ length (slot_table self.now.session.tree).cells }
    {
        cells(self.session.slots()).len()
    }

    /// Lends the cell of an entry: its scope and its key.
    fn cell(&self, slot: u32) -> Option<&Cell>
        ensures { option_copied result ≡ slice_get (slot_table self.now.session.tree).cells slot }
    {
        cells(self.session.slots()).get(slot as usize)
    }

    /// The scope of an entry.
    fn entry_scope(&self, slot: u32) -> u32
        ensures { result ≡ reads.cell_scope (slice_get (slot_table self.now.session.tree).cells slot) }
    {
        match self.cell(slot) {
            Some(cell) => cell.scope,
            None => 0,
        }
    }

    /// Copies the key of an entry.
    fn entry_key(&self, slot: u32, room: &mut [u8]) -> usize
        ensures { TextTold (reads.cell_key (slice_get (slot_table self.now.session.tree).cells slot)) room.old result room.new }
    {
        match self.cell(slot) {
            Some(cell) => copy_text(cell.key.list(), room),
            None => 0,
        }
    }

    /// Lends the value of an entry of a runner's blackboard.
    fn entry_value(&self, runner: u32, slot: u32) -> Option<&Value>
        ensures { option_copied result ≡ reads.entry_read self.now.session runner slot }
    {
        let runner = runner_of(runner)?;
        self.session.entries(runner).get(slot as usize)?.as_ref()
    }

    /// What value an entry has.
    fn entry(&self, runner: u32, slot: u32) -> Valued
        ensures { result ≡ values.value_told (reads.entry_read self.now.session runner slot) }
    {
        value_told(self.entry_value(runner, slot))
    }

    /// Copies the text of an entry.
    fn entry_text(&self, runner: u32, slot: u32, room: &mut [u8]) -> usize
        ensures { TextTold (values.text_of (reads.entry_read self.now.session runner slot)) room.old result room.new }
    {
        copy_value_text(self.entry_value(runner, slot), room)
    }
}

/// Whether the session at this pointer takes events.
#[unsafe(no_mangle)]
pub unsafe extern "C" fn bt_is_usable(session: *mut u8) -> u32
    ghost before: { Hosted }
    requires* { sem 𝓛 (hosted_owns session before) }
    ensures* { sem 𝓛 (hosted_owns session before) ∗ ⌜ result ≡ (if before.session.usable then 1 else 0) ⌝ }
{
    Hosted::is_usable(&*(session as *mut Hosted))
}

/// The moment of the last event of the session at this pointer.
#[unsafe(no_mangle)]
pub unsafe extern "C" fn bt_last_ms(session: *mut u8) -> u64
    ghost before: { Hosted }
    requires* { sem 𝓛 (hosted_owns session before) }
    ensures* { sem 𝓛 (hosted_owns session before) ∗ ⌜ result ≡ before.session.state.last ⌝ }
{
    Hosted::last(&*(session as *mut Hosted))
}

/// How many nodes the tree has, in the session at this pointer.
#[unsafe(no_mangle)]
pub unsafe extern "C" fn bt_node_count(session: *mut u8) -> usize
    ghost before: { Hosted }
    requires* { sem 𝓛 (hosted_owns session before) }
    ensures* { sem 𝓛 (hosted_owns session before) ∗ ⌜ result ≡ length (labels before.session.tree) ⌝ }
{
    Hosted::node_count(&*(session as *mut Hosted))
}

/// How many leaves the tree has, in the session at this pointer.
#[unsafe(no_mangle)]
pub unsafe extern "C" fn bt_leaf_count(session: *mut u8) -> usize
    ghost before: { Hosted }
    requires* { sem 𝓛 (hosted_owns session before) }
    ensures* { sem 𝓛 (hosted_owns session before) ∗ ⌜ result ≡ count_by (λ label. is_leaf label.kind) (labels before.session.tree) ⌝ }
{
    Hosted::leaf_count(&*(session as *mut Hosted))
}

/// How many runners the session at this pointer has.
#[unsafe(no_mangle)]
pub unsafe extern "C" fn bt_runner_count(session: *mut u8) -> u32
    ghost before: { Hosted }
    requires* { sem 𝓛 (hosted_owns session before) }
    ensures* { sem 𝓛 (hosted_owns session before) ∗ ⌜ result ≡ before.session.world.runners ⌝ }
{
    Hosted::runner_count(&*(session as *mut Hosted))
}

/// How many facts the session at this pointer has.
#[unsafe(no_mangle)]
pub unsafe extern "C" fn bt_fact_count(session: *mut u8) -> usize
    ghost before: { Hosted }
    requires* { sem 𝓛 (hosted_owns session before) }
    ensures* { sem 𝓛 (hosted_owns session before) ∗ ⌜ result ≡ length before.session.state.facts ⌝ }
{
    Hosted::fact_count(&*(session as *mut Hosted))
}

/// The value of a fact of the session at this pointer.
#[unsafe(no_mangle)]
pub unsafe extern "C" fn bt_fact(session: *mut u8, fact: u32) -> Valued
    ghost before: { Hosted }
    requires* { sem 𝓛 (hosted_owns session before) }
    ensures* { sem 𝓛 (hosted_owns session before) ∗ ⌜ result ≡ reads.fact_told (slice_get before.session.state.facts fact) ⌝ }
{
    Hosted::fact(&*(session as *mut Hosted), fact)
}

/// Copies the name of a fact of the session at this pointer.
#[unsafe(no_mangle)]
pub unsafe extern "C" fn bt_fact_name(session: *mut u8, fact: u32, room: &mut [u8]) -> usize
    ghost before: { Hosted }
    requires* { sem 𝓛 (hosted_owns session before) }
    ensures* { sem 𝓛 (hosted_owns session before)
        ∗ ⌜ TextTold (reads.fact_named (slice_get before.session.world.facts fact)) room.old result room.new ⌝ }
{
    Hosted::fact_name(&*(session as *mut Hosted), fact, room)
}

/// How many entries a blackboard of the session at this pointer can have.
#[unsafe(no_mangle)]
pub unsafe extern "C" fn bt_entry_count(session: *mut u8) -> usize
    ghost before: { Hosted }
    requires* { sem 𝓛 (hosted_owns session before) }
    ensures* { sem 𝓛 (hosted_owns session before) ∗ ⌜ result ≡ length (slot_table before.session.tree).cells ⌝ }
{
    Hosted::entry_count(&*(session as *mut Hosted))
}

/// The scope of an entry, in the session at this pointer.
#[unsafe(no_mangle)]
pub unsafe extern "C" fn bt_entry_scope(session: *mut u8, slot: u32) -> u32
    ghost before: { Hosted }
    requires* { sem 𝓛 (hosted_owns session before) }
    ensures* { sem 𝓛 (hosted_owns session before) ∗ ⌜ result ≡ reads.cell_scope (slice_get (slot_table before.session.tree).cells slot) ⌝ }
{
    Hosted::entry_scope(&*(session as *mut Hosted), slot)
}

/// Copies the key of an entry, in the session at this pointer.
#[unsafe(no_mangle)]
pub unsafe extern "C" fn bt_entry_key(session: *mut u8, slot: u32, room: &mut [u8]) -> usize
    ghost before: { Hosted }
    requires* { sem 𝓛 (hosted_owns session before) }
    ensures* { sem 𝓛 (hosted_owns session before)
        ∗ ⌜ TextTold (reads.cell_key (slice_get (slot_table before.session.tree).cells slot)) room.old result room.new ⌝ }
{
    Hosted::entry_key(&*(session as *mut Hosted), slot, room)
}

/// What value an entry of a runner's blackboard has, in the session at this pointer.
#[unsafe(no_mangle)]
pub unsafe extern "C" fn bt_entry(session: *mut u8, runner: u32, slot: u32) -> Valued
    ghost before: { Hosted }
    requires* { sem 𝓛 (hosted_owns session before) }
    ensures* { sem 𝓛 (hosted_owns session before) ∗ ⌜ result ≡ values.value_told (reads.entry_read before.session runner slot) ⌝ }
{
    Hosted::entry(&*(session as *mut Hosted), runner, slot)
}

/// Copies the text of an entry of a runner's blackboard, in the session at this pointer.
#[unsafe(no_mangle)]
pub unsafe extern "C" fn bt_entry_text(
    session: *mut u8,
    runner: u32,
    slot: u32,
    room: &mut [u8],
) -> usize
    ghost before: { Hosted }
    requires* { sem 𝓛 (hosted_owns session before) }
    ensures* { sem 𝓛 (hosted_owns session before)
        ∗ ⌜ TextTold (values.text_of (reads.entry_read before.session runner slot)) room.old result room.new ⌝ }
{
    Hosted::entry_text(&*(session as *mut Hosted), runner, slot, room)
}
