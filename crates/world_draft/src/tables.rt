ghost use Rattle.std.specs.Prelude.{◌≡◌, ◌++◌, false, position, bytes_eq, map, OnOk, OnErr, ◌∷◌, []};
ghost use Rattle.std.specs.List.{list_any as any};
ghost use Rattle.indexmap.specs.IndexMap.{values};
ghost use Rattle.world_draft.specs.Tables.{names_in};

use base_texts::NoMemory;
use indexmap::IndexMap;
use std::alloc::Global;

/// The number of the value of this name. None where none has it.
pub fn number_of<V>(table: &IndexMap<Vec<u8>, V>, name: &[u8]) -> Option<usize>
    ensures { result ≡ position (bytes_eq name.now) (names_in table.now) }
{
    table.get_index_of(name)
}

/// Whether a value has this name.
pub fn has_name<V>(table: &IndexMap<Vec<u8>, V>, name: &[u8]) -> bool
    ensures { result ≡ any (bytes_eq name.now) (names_in table.now) }
{
    table.contains_key(name)
}

/// Adds a value after the others, under a name that none of them has.
pub fn add<V: Drop>(
    alloc: Global,
    table: &mut IndexMap<Vec<u8>, V>,
    name: &[u8],
    value: V,
) -> Result<(), NoMemory>
    requires { any (bytes_eq name.now) (names_in table.old) ≡ false }
    ensures names { OnOk result (names_in table.new ≡ names_in table.old ++ name.now ∷ []) }
    ensures values { OnOk result (values table.new ≡ values table.old ++ value ∷ []) }
    ensures kept { OnErr result (table.new.entries ≡ table.old.entries) }
{
    let key = Vec::from_slice(alloc, name)?;
    table.insert(key, value)?;
    Ok(())
}
