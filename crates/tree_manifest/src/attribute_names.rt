ghost use Rattle.std.specs.Prelude.{◌≡◌, IfOk, is_some};
ghost use Rattle.spec_tree_file.specs.Attributes.{value_of};
ghost use Rattle.tree_manifest.specs.Named.{HaveNames};

use crate::attributes::attribute;
use base_texts::{Name, NoMemory};
use indexmap::IndexSet;
use std::alloc::Global;
use std::marker::Model;

/// Among so many attributes it costs least to compare each name.
const FEW: usize = 8;

/// The attributes of a node, among which names are looked for: in a table, where there are many. Contracts see the
/// attributes.
#[derive(Drop)]
pub struct Attributes<'a> {
    list: &'a [(Name, Name)],
    names: IndexSet<&'a [u8]>,
}

impl<'a> Model for Attributes<'a> {
    ghost use Rattle.std.specs.Prelude.{◌<◌, length};
    ghost use Rattle.spec_tree_file.specs.Attributes.{Attributes as Seen};
    ghost use Rattle.tree_manifest.specs.Named.{HaveNames};

    ghost Value = { Seen };

    ghost view = { λ a. a.list.now };

    ghost invariant = { λ a. 8 < length a.list.now → HaveNames a.names.keys a.list.now };
}

impl<'a> Attributes<'a> {
    /// The attributes, ready for looks at their names. `NoMemory` where an allocation fails.
    pub fn of(alloc: Global, list: &'a [(Name, Name)]) -> Result<Attributes<'a>, NoMemory>
        ensures { IfOk result (λ a. a ≡ list.entry.now) }
    {
        if list.len() <= FEW {
            let names = IndexSet::new(alloc);
            return Ok(Attributes { list, names });
        }
        let names = names_of(alloc, list)?;
        Ok(Attributes { list, names })
    }

    /// Whether an attribute has this name. It allocates nothing.
    pub fn has(&self, name: &[u8]) -> bool
        ensures { result ≡ is_some (value_of name.now self.now) }
    {
        if self.list.len() <= FEW {
            attribute(self.list, name).is_some()
        } else {
            self.names.contains(name)
        }
    }
}

/// The names of the attributes.
fn names_of<'a>(
    alloc: Global,
    attributes: &'a [(Name, Name)],
) -> Result<IndexSet<&'a [u8]>, NoMemory>
    ensures { IfOk result (λ names. HaveNames names.keys attributes.entry.now) }
{
    let mut names = IndexSet::with_capacity(alloc, attributes.len())?;
    for (name, _) in attributes {
        names.insert(name.list())?;
    }
    Ok(names)
}
