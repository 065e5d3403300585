ghost use Rattle.std.specs.Prelude.{◌≡◌, [], bytes_eq, map, IfOk};
ghost use Rattle.std.specs.List.{list_any};
ghost use Rattle.spec_world_file.specs.Blocks.{values_at};
ghost use Rattle.spec_world_file.specs.GroundFile as file;
ghost use Rattle.spec_world_file.specs.WorldFile.{repeats};

use base_texts::{Items, Name, NoMemory};
use spec_world_file::Sort;
use std::alloc::Global;
use world_lines::{is_name, name_of, names_of};

/// The most values of a sort.
const MOST_VALUES: usize = 16;

/// The sort that the words are, its name and its values. None where they are none.
pub fn sort_in(alloc: Global, words: &[&[u8]]) -> Result<Option<Sort>, NoMemory>
    ensures { IfOk result (λ sort. sort ≡ file.sort_in (map (λ word. word.now) words.now)) }
{
    match words {
        [name, values @ ..] => sort_with(alloc, name, values),
        [] => Ok(None),
    }
}

/// The sort of this name and these values. None where they may not be one.
fn sort_with(alloc: Global, name: &[u8], values: &[&[u8]]) -> Result<Option<Sort>, NoMemory>
    ensures { IfOk result (λ sort. sort ≡ file.sort_with name.now (map (λ value. value.now) values.now)) }
{
    if !is_name(name) || values.is_empty() || values.len() > MOST_VALUES {
        return Ok(None);
    }
    match names_of(alloc, values)? {
        Some(values) => {
            let name = name_of(alloc, name)?;
            Ok(Some(Sort {
                name,
                values: Items::of(values),
            }))
        }
        None => Ok(None),
    }
}

/// Whether the name is one of these.
fn is_among(names: &[Name], name: &[u8]) -> bool
    ensures { result ≡ list_any (bytes_eq name.now) names.now }
{
    names.iter().any(|other| name == other.list())
}

/// Whether one of the names stands twice.
pub fn repeats(names: &[Name]) -> bool
    ensures { result ≡ repeats [] names.now }
{
    for (place, name) in names.iter().enumerate() {
        if is_among(&names[..place], name.list()) {
            return true;
        }
    }
    false
}

/// The values of the sort of this number; none where there is no such sort.
pub fn values_at(sorts: &[Sort], number: usize) -> &[Name]
    ensures { result.now ≡ values_at sorts.now number }
{
    match sorts.get(number) {
        Some(sort) => sort.values.list(),
        None => &[],
    }
}
