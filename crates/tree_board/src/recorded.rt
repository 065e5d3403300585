ghost use Rattle.std.specs.Prelude.{◌≡◌, ◌≤◌, ◌<◌, ◌/◌, ◌%◌, Some, None, ℕ, get_or, length, slice_set};
ghost use Rattle.std.specs.Int.{bit_at};
ghost use Rattle.spec_script.specs.declared.value.Value.{Value as Content};
ghost use Rattle.tree_board.specs.Records.{AreMarked, NoneKept};

use crate::board::Board;
use base_texts::Txt;
use spec_script::{Cells, Value};
use std::marker::{Brand, Model, PhantomData};
use std::mem;

/// What a blackboard holds where an event begins, as a type: contracts alone read it.
pub trait Past {
    ghost use Rattle.std.specs.Prelude.{List, Option};
    ghost use Rattle.spec_script.specs.declared.value.Value.{Value as Content};

    /// The values by slot.
    ghost past: { List (Option Content) };
}

impl Past for Brand {
    ghost use Rattle.std.specs.Prelude.{[]};

    ghost past = { [] };
}

/// A blackboard in an event, which keeps what each slot that is written held where the event began. Contracts see its
/// entries, by slot.
#[derive(Drop)]
pub struct Recorded<P: Past> {
    entries: Vec<Option<Value>>,
    /// What a slot held where the event began, where it was written since.
    before: Vec<Option<Option<Value>>>,
    /// A bit for each group of slots, which is set where one of them was written.
    groups: u64,
    past: PhantomData<P>,
}

impl<P: Past> Model for Recorded<P> {
    ghost use Rattle.std.specs.Prelude.{List, Option};
    ghost use Rattle.spec_script.specs.declared.value.Value.{Value as Content};

    ghost Value = { List (Option Content) };

    ghost use Rattle.tree_board.specs.Records.{IsRecord};

    ghost view = { λ board. board.entries.items };

    ghost invariant = { λ board. IsRecord P.past board.entries.items board.before.items board.groups };
}

/// How many slots in a row are a group.
const GROUP: usize = 64;

/// The number of the bit of a slot's group. There are 64: after the last the groups begin anew.
#[inline(always)]
fn bit_of(slot: usize) -> usize
    ensures { result ≡ slot / 64 % 64 }
{
    slot / GROUP % 64
}

/// The next of so many slots, after this one, that may have been written: a group in which none was is passed over.
#[inline(always)]
fn onward(groups: u64, slot: usize, count: usize) -> usize
    requires { slot < count }
    ensures later { slot < result }
    ensures last { result ≤ count }
    ensures between { (other : ℕ) → slot < other → other < result → bit_at groups (other / 64 % 64) ≡ 0 }
{
    if slot % GROUP == 0 && (groups >> bit_of(slot)) & 1 == 0 {
        slot + GROUP.min(count - slot)
    } else {
        slot + 1
    }
}

/// The first slot from this one on of which something is kept, or the number of slots where there is none.
fn next_kept(before: &[Option<Option<Value>>], groups: u64, from: usize) -> usize
    requires from { from ≤ length before.now }
    requires marked { AreMarked before.now groups }
    ensures later { from ≤ result }
    ensures last { result ≤ length before.now }
    ensures between { (slot : ℕ) → from ≤ slot → slot < result → get_or before.now slot None ≡ None }
{
    if groups == 0 {
        return before.len();
    }
    let mut slot = from;
    while slot < before.len() && before[slot].is_none() {
        slot = onward(groups, slot, before.len());
    }
    slot
}

/// Drops what is kept of all slots.
fn forget(before: &mut [Option<Option<Value>>], groups: u64)
    requires { AreMarked before.old groups }
    ensures none { NoneKept before.new }
    ensures places { length before.new ≡ length before.old }
{
    if groups == 0 {
        return;
    }
    let mut slot = 0;
    while slot < before.len() {
        before[slot] = None;
        slot = onward(groups, slot, before.len());
    }
}

impl<P: Past> Recorded<P> {
    /// A blackboard where an event begins.
    pub fn of(board: Board) -> Recorded<P>
        requires { board ≡ P.past }
        ensures { result ≡ board }
    {
        let Board { entries, before } = board;
        Recorded {
            entries,
            before,
            groups: 0,
            past: PhantomData,
        }
    }

    /// The blackboard after the event.
    pub fn close(self) -> Board
        ensures { result ≡ self }
    {
        let Recorded {
            entries,
            mut before,
            groups,
            past: _,
        } = self;
        forget(before.as_mut_slice(), groups);
        Board { entries, before }
    }

    /// Lends the entries, by slot.
    pub fn list(&self) -> &[Option<Value>]
        ensures value { result.now ≡ self.now }
        ensures many { length P.past ≡ length self.now }
    {
        self.entries.as_slice()
    }

    /// Lends what a slot held where the event began.
    pub fn past(&self, slot: usize) -> &Option<Value>
        requires { slot < length self.now }
        ensures { result.now ≡ get_or P.past slot None }
    {
        match &self.before[slot] {
            Some(before) => before,
            None => &self.entries[slot],
        }
    }

    /// The first slot from this one on that was written, or the number of slots where there is none.
    pub fn next_written(&self, from: usize) -> usize
        requires { from ≤ length self.now }
        ensures later { from ≤ result }
        ensures last { result ≤ length self.now }
        ensures between { (slot : ℕ) → from ≤ slot → slot < result → get_or self.now slot None ≡ get_or P.past slot None }
    {
        next_kept(self.before.as_slice(), self.groups, from)
    }

    /// `put` of a number, in a function of its own so that most puts of numbers need no room on the machine's stack.
    #[inline(never)]
    fn put_first_int(&mut self, slot: usize, n: i64)
        requires { slot < length self.old }
        ensures { self.new ≡ slice_set self.old slot (Some (Content.Int n)) }
    {
        self.put(slot, Value::Int(n));
    }

    /// Gives a slot this value, and keeps what it held where it is written for the first time in the event.
    #[inline(never)]
    fn put(&mut self, slot: usize, value: Value)
        requires { slot < length self.old }
        ensures { self.new ≡ slice_set self.old slot (Some value) }
    {
        let old = mem::replace(&mut self.entries[slot], Some(value));
        if self.before[slot].is_none() {
            self.before[slot] = Some(old);
            self.groups |= 1 << bit_of(slot);
        }
    }
}

impl<P: Past> Cells for Recorded<P> {
    ghost entries = { λ board. board };

    #[inline(always)]
    fn get(&self, slot: u32) -> Option<&Value> {
        self.entries[slot as usize].as_ref()
    }

    #[inline(always)]
    fn put_int(&mut self, slot: u32, n: i64) {
        if self.before[slot as usize].is_some() {
            if let Some(Value::Int(held)) = &mut self.entries[slot as usize] {
                *held = n;
                return;
            }
        }
        self.put_first_int(slot as usize, n);
    }

    fn put_text(&mut self, slot: u32, text: Txt) {
        self.put(slot as usize, Value::Text(text));
    }
}
