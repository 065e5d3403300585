ghost use Rattle.std.specs.Prelude.{◌≡◌, bytes_eq, length, IfOk, MatchOption, true, false, []};
ghost use Rattle.std.specs.List.{list_any};
ghost use Rattle.spec_world_file.specs.WorldFile.{repeats};

use base_texts::{Items, Name, NoMemory};
use indexmap::IndexSet;
use std::alloc::Global;
use std::marker::Model;

/// The input ports of a row, no two of them the same, with a look-up by name.
#[derive(Drop)]
pub struct Ports {
    names: Vec<Name>,
    set: IndexSet<Vec<u8>>,
}

impl Model for Ports {
    ghost use Rattle.std.specs.Prelude.{◌≡◌, List, ℕ};
    ghost use Rattle.world_draft.specs.Tables.{names_of_set};

    ghost Value = { List (List ℕ) };

    ghost view = { λ p. p.names.items };

    ghost invariant = { λ p. names_of_set p.set ≡ p.names.items };
}

impl Ports {
    /// These ports. None where one of them stands twice.
    pub fn of(alloc: Global, names: Vec<Name>) -> Result<Option<Ports>, NoMemory>
        ensures { IfOk result (λ ports.
            MatchOption ports (repeats [] names.items ≡ true) (λ p. (repeats [] names.items ≡ false) × (p ≡ names.items))) }
    {
        let mut set = IndexSet::new(alloc);
        for name in names.as_slice() {
            let key = Vec::from_slice(alloc, name.list())?;
            if !set.insert(key)? {
                drop(set);
                return Ok(None);
            }
        }
        Ok(Some(Ports { names, set }))
    }

    /// Whether the name is one of the ports.
    pub fn has(&self, name: &[u8]) -> bool
        ensures { result ≡ list_any (bytes_eq name.now) self.now }
    {
        self.set.contains(name)
    }

    /// How many ports there are.
    pub fn len(&self) -> usize
        ensures { result ≡ length self.now }
    {
        self.names.len()
    }

    /// The names of the ports. It allocates nothing.
    pub fn into_names(self) -> Items<Name>
        ensures { result ≡ self }
    {
        let Ports { names, set: _ } = self;
        Items::of(names)
    }
}
