ghost use Rattle.std.specs.Prelude.{◌≡◌, [], true, IsTrue, OnOk};
ghost use Rattle.std.specs.List.{list_any};
ghost use Rattle.std.specs.Str.{bytes_eq};
ghost use Rattle.indexmap.specs.IndexSet.{insert_key};

use base_texts::{Name, NoMemory};
use indexmap::IndexSet;
use std::alloc::Global;
use std::marker::Model;

/// How many marks there are.
const MARKS: usize = 256;

/// The keys of a scope, each once, in the order in which they are first named. Contracts see the list of them.
#[derive(Drop)]
pub(crate) struct Keys {
    set: IndexSet<Name>,
    /// By the mark of a key: the place of the one that was named again last of those with this mark. Scripts name the
    /// same keys over and over, and most of them are found here, without a search.
    places: Vec<usize>,
    /// The place after that of the key that was named last. A script that stands in many nodes names its keys in one order,
    /// so that this one is looked at first.
    next: usize,
}

impl Model for Keys {
    ghost use Rattle.std.specs.Prelude.{List, ℕ};

    ghost Value = { List (List ℕ) };

    ghost view = { λ it. it.set.keys };
}

impl Keys {
    /// No keys.
    pub(crate) fn new(alloc: Global) -> Keys
        ensures { result ≡ [] }
    {
        Keys {
            set: IndexSet::new(alloc),
            places: Vec::new(alloc),
            next: 0,
        }
    }

    /// Lends the keys.
    pub(crate) fn list(&self) -> &[Name]
        ensures { result.now ≡ self.now }
    {
        self.set.as_slice()
    }

    /// Whether a key is among them.
    pub(crate) fn holds(&self, key: &Name) -> bool
        ensures { result ≡ list_any (bytes_eq key.now) self.now }
    {
        self.set.contains(key)
    }

    /// Adds a key, where it is not yet among them.
    pub(crate) fn name(&mut self, alloc: Global, key: &Name) -> Result<(), NoMemory>
        ensures { OnOk result (self.new ≡ insert_key bytes_eq self.old key.now) }
    {
        let place = self.next;
        if self.is_at(place, key) {
            self.next = place.wrapping_add(1);
            return Ok(());
        }
        self.look_up(alloc, key)
    }

    /// Adds a key, where it is not yet among them. It is looked for.
    #[inline(never)]
    fn look_up(&mut self, alloc: Global, key: &Name) -> Result<(), NoMemory>
        ensures { OnOk result (self.new ≡ insert_key bytes_eq self.old key.now) }
    {
        let mark = mark_of(key);
        if let Some(place) = self.marked(mark) {
            if self.is_at(place, key) {
                self.next = place.wrapping_add(1);
                return Ok(());
            }
        }
        let (place, is_new) = self.set.insert_full(key.copy(alloc)?)?;
        self.next = place.wrapping_add(1);
        if is_new {
            return Ok(());
        }
        self.remember(alloc, mark, place)
    }

    /// The place that is remembered by a mark.
    fn marked(&self, mark: usize) -> Option<usize> {
        match self.places.get(mark) {
            Some(place) => Some(*place),
            None => None,
        }
    }

    /// Whether the key is the one at a place.
    #[tactic(auto, using(std::proofs::lemmas::Map::Keys::any_passes_from_place))]
    fn is_at(&self, place: usize, key: &Name) -> bool
        ensures { IsTrue result → list_any (bytes_eq key.now) self.now ≡ true }
    {
        match self.set.get_index(place) {
            Some(other) => key == other,
            None => false,
        }
    }

    /// Remembers a key's place by its mark.
    fn remember(&mut self, alloc: Global, mark: usize, place: usize) -> Result<(), NoMemory>
        ensures { self.new ≡ self.old }
    {
        if self.places.is_empty() {
            self.places = vec![in alloc; 0; MARKS]?;
        }
        if let Some(remembered) = self.places.get_mut(mark) {
            *remembered = place;
        }
        Ok(())
    }
}

/// The mark of a key, below `MARKS`: a number that few others of a scope have.
fn mark_of(key: &Name) -> usize {
    let mut mark = 0u8;
    for byte in key.list() {
        mark = mark.wrapping_mul(31).wrapping_add(*byte);
    }
    usize::from(mark)
}
