ghost use Rattle.std.specs.Prelude.{◌≡◌, ◌<◌, ◌++◌, ◌∷◌, [], false, length, IfOk, OnOk, bytes_eq};
ghost use Rattle.std.specs.List.{list_any};
ghost use Rattle.spec_world.specs.Worlds.{names_of_facts};
ghost use Rattle.spec_world_file.specs.WorldFile.{fact_number};

use crate::tables::{add, has_name, number_of};
use base_texts::NoMemory;
use indexmap::IndexMap;
use spec_world::Fact;
use std::alloc::Global;
use std::marker::Model;

/// The same fact.
fn copied(alloc: Global, fact: &Fact) -> Result<Fact, NoMemory>
    ensures { IfOk result (λ copy. copy ≡ fact.now) }
{
    Ok(Fact {
        name: fact.name.copy(alloc)?,
        opening: fact.opening,
    })
}

/// The facts so far, numbered from 0, with a look-up by name.
#[derive(Drop)]
pub struct Facts {
    map: IndexMap<Vec<u8>, Fact>,
}

impl Model for Facts {
    ghost use Rattle.std.specs.Prelude.{List};
    ghost use Rattle.indexmap.specs.IndexMap.{values};
    ghost use Rattle.spec_world.specs.declared.world.Fact.{Fact};
    ghost use Rattle.world_draft.specs.Rows.{FactsKept};

    ghost Value = { List Fact };

    ghost view = { λ f. values f.map };

    ghost invariant = { λ f. FactsKept f.map };
}

impl Facts {
    /// No fact.
    pub fn new(alloc: Global) -> Facts
        ensures { result ≡ [] }
    {
        Facts {
            map: IndexMap::new(alloc),
        }
    }

    /// How many facts there are.
    pub fn len(&self) -> usize
        ensures { result ≡ length self.now }
    {
        self.map.len()
    }

    /// Whether a fact has this name.
    pub fn has(&self, name: &[u8]) -> bool
        ensures { result ≡ list_any (bytes_eq name.now) (names_of_facts self.now) }
    {
        has_name(&self.map, name)
    }

    /// The number of the fact of this name. None where there is none.
    pub fn number_of(&self, name: &[u8]) -> Option<u32>
        ensures { result ≡ fact_number self.now name.now }
    {
        let number = number_of(&self.map, name)?;
        Some(number as u32)
    }

    /// Adds a fact of a new name. `NoMemory` (want of memory, that is, out of memory), here and below, where an
    /// allocation fails.
    pub fn add(&mut self, alloc: Global, fact: Fact) -> Result<(), NoMemory>
        requires free { list_any (bytes_eq fact.name) (names_of_facts self.old) ≡ false }
        requires room { length self.old < 1024 }
        ensures { OnOk result (self.new ≡ self.old ++ fact ∷ []) }
    {
        let name = fact.name.copy(alloc)?;
        add(alloc, &mut self.map, name.list(), fact)
    }

    /// The same facts.
    pub fn copy(&self, alloc: Global) -> Result<Facts, NoMemory>
        ensures { IfOk result (λ facts. facts ≡ self.now) }
    {
        let mut facts = Facts::new(alloc);
        for (_, fact) in self.map.iter() {
            facts.add(alloc, copied(alloc, fact)?)?;
        }
        Ok(facts)
    }

    /// The facts in the order of their numbers.
    pub fn into_items(self, alloc: Global) -> Result<Vec<Fact>, NoMemory>
        ensures { IfOk result (λ facts. facts.items ≡ self) }
    {
        let Facts { map } = self;
        let facts = map.into_values().collect(alloc)?;
        Ok(facts)
    }
}
