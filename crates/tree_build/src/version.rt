ghost use Rattle.std.specs.Prelude.{◌≡◌, IfOk};
ghost use Rattle.std.specs.Option.{option_copied};
ghost use Rattle.spec_tree_file.specs.Versions.{id_read, subtree_form, version_in};

use base_texts::{Name, NoMemory};
use spec_tree_file::{Form, Version};
use std::alloc::Global;

/// The version of a file of this format: 3 where none is written. None where the format is neither `3` nor `4`.
pub fn version_in(format: Option<&Name>) -> Option<Version>
    ensures { result ≡ version_in (option_copied format.entry) }
{
    let Some(format) = format else {
        return Some(Version::Three);
    };
    if format.list() == b"4".as_slice() {
        Some(Version::Four)
    } else if format.list() == b"3".as_slice() {
        Some(Version::Three)
    } else {
        None
    }
}

/// The form of an element of this name. None where it is no SubTree node's.
pub fn subtree_form(version: Version, name: &[u8]) -> Option<Form>
    ensures { result ≡ subtree_form version name.now }
{
    let is_subtree = name == b"SubTree".as_slice();
    match version {
        Version::Four if is_subtree => Some(Form::Plain),
        Version::Three if is_subtree => Some(Form::OldSubTree),
        Version::Three if name == b"SubTreePlus".as_slice() => Some(Form::SubTreePlus),
        _ => None,
    }
}

/// The ID as it is read: version 3 has another name for SequenceWithMemory.
pub fn id_read(alloc: Global, version: Version, id: &Name) -> Result<Name, NoMemory>
    ensures { IfOk result (λ read. read ≡ id_read version id.now) }
{
    match version {
        Version::Three if id.list() == b"SequenceStar".as_slice() => {
            Name::copied(alloc, b"SequenceWithMemory")
        }
        _ => id.copy(alloc),
    }
}
