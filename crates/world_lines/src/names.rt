ghost use Rattle.std.specs.Prelude.{◌≡◌, IfOk, IsTrue, MatchOption, false, true, map};
ghost use Rattle.std.specs.List.{list_all};
ghost use Rattle.spec_world.specs.Worlds as worlds;

use base_tables::MOST_NAME_BYTES;
use base_texts::{Name, NoMemory};
use script_reader::is_identifier;
use std::alloc::Global;

/// Whether the word may be the name of a fact, an ID or a port.
pub fn is_name(word: &[u8]) -> bool
    ensures { result ≡ worlds.is_name word.now }
{
    is_identifier(word) && word.len() <= MOST_NAME_BYTES
}

/// The word as a name.
pub fn name_of(alloc: Global, word: &[u8]) -> Result<Name, NoMemory>
    requires { IsTrue (worlds.is_name word.now) }
    ensures { IfOk result (λ name. name ≡ word.now) }
{
    Name::copied(alloc, word)
}

/// The words as names. None where one of them is no name.
pub fn names_of(alloc: Global, words: &[&[u8]]) -> Result<Option<Vec<Name>>, NoMemory>
    ensures { IfOk result (λ names.
        MatchOption names (list_all worlds.is_name (map (λ word. word.now) words.now) ≡ false)
        (λ v. (list_all worlds.is_name (map (λ word. word.now) words.now) ≡ true)
        × (v.items ≡ map (λ word. word.now) words.now))) }
{
    let mut names = Vec::new(alloc);
    for word in words {
        if !is_name(word) {
            return Ok(None);
        }
        names.push(name_of(alloc, word)?)?;
    }
    Ok(Some(names))
}
