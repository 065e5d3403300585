ghost use Rattle.std.specs.Prelude.{◌≡◌, ◌+◌, ◌-◌, ◌<◌, ◌≤◌, [], ◌∷◌, ◌++◌, ℕ, IfOk, OnOk, OnErr, length, take};

use base_texts::NoMemory;
use spec_run::{Note, Status};
use std::alloc::Global;
use std::marker::Model;

/// What fills a place that has no note yet.
const BLANK: Note = Note::Changed {
    uid: 0,
    old: Status::Idle,
    new: Status::Idle,
};

/// The notes of an event, with reserved room: this many notes can be added without new memory.
/// Contracts see the notes, the reserve that is left, and the whole reserve.
#[derive(Debug, Drop)]
pub struct Notes {
    /// The notes, then the free places.
    places: Vec<Note>,
    /// How many notes there are.
    len: usize,
    reserve: usize,
    full: usize,
}

impl Model for Notes {
    ghost use Rattle.std.specs.Prelude.{◌+◌, ◌≤◌, length, take};
    ghost use Rattle.run_arena.specs.Noted.{Noted};

    ghost Value = { Noted };

    ghost view = { λ n. record { list = take n.len n.places.items; reserve = n.reserve; full = n.full } };

    ghost invariant = { λ n. record {
      room : n.len + n.reserve ≤ length n.places.items;
      whole : n.full ≤ length n.places.items;
    } };
}

/// No notes, with a reserved place for each of this many leaves, and one for the note of a fault.
/// The notes of a run have a place for each leaf of all its runners. The error is want of memory.
pub fn notes_of(alloc: Global, leaves: u32) -> Result<Notes, NoMemory>
    ensures { IfOk result (λ notes. notes ≡ record { list = []; reserve = leaves + 1; full = leaves + 1 }) }
{
    let full = leaves as usize + 1;
    Ok(Notes {
        places: vec![in alloc; BLANK; full]?,
        len: 0,
        reserve: full,
        full,
    })
}

/// Adds free places, at least one, or there is want of memory. It is not inlined, since few notes
/// need it.
#[inline(never)]
fn add_places(places: &mut Vec<Note>) -> Result<(), NoMemory>
    ensures same { (n : ℕ) → n ≤ length places.old.items → take n places.new.items ≡ take n places.old.items }
    ensures more { OnOk result (length places.old.items < length places.new.items) }
    ensures many { length places.old.items ≤ length places.new.items }
{
    places.reserve(1)?;
    let all = places.capacity();
    places.resize(all, BLANK)?;
    Ok(())
}

impl Notes {
    /// Lends the notes.
    pub fn list(&self) -> &[Note]
        ensures { result.now ≡ self.now.list }
    {
        &self.places[..self.len]
    }

    /// Adds a note and keeps the reserve. Where there is want of memory, nothing changes.
    #[inline(always)]
    pub fn push(&mut self, note: Note) -> Result<(), NoMemory>
        ensures ok { OnOk result (self.new ≡ record self.old { list = self.old.list ++ note ∷ [] }) }
        ensures err { OnErr result (self.new ≡ self.old) }
    {
        if self.len + self.reserve == self.places.len() {
            add_places(&mut self.places)?;
        }
        self.places[self.len] = note;
        self.len += 1;
        Ok(())
    }

    /// Adds one place to the reserve. Where there is want of memory, nothing changes.
    #[inline(always)]
    pub fn room(&mut self) -> Result<(), NoMemory>
        ensures ok { OnOk result (self.new ≡ record self.old { reserve = self.old.reserve + 1 }) }
        ensures err { OnErr result (self.new ≡ self.old) }
    {
        if self.len + self.reserve == self.places.len() {
            add_places(&mut self.places)?;
        }
        self.reserve += 1;
        Ok(())
    }

    /// Adds a note in a place of the reserve. It allocates no memory.
    #[inline(always)]
    pub fn push_reserved(&mut self, note: Note)
        requires { 0 < self.old.reserve }
        ensures { self.new ≡ record self.old { list = self.old.list ++ note ∷ []; reserve = self.old.reserve - 1 } }
    {
        self.reserve -= 1;
        self.places[self.len] = note;
        self.len += 1;
    }

    /// Removes all notes and restores the reserve. It allocates no memory.
    pub fn clear(&mut self)
        ensures { self.new ≡ record { list = []; reserve = self.old.full; full = self.old.full } }
    {
        self.len = 0;
        self.reserve = self.full;
    }
}
