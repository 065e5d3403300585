ghost use Rattle.std.specs.Prelude.{◌≡◌, ◌<◌, ◌≤◌, ◌+◌, ◌-◌, ◌^◌, [], OnOk, IsErrOf, length};
ghost use Rattle.base_outside.specs.Files.{contents, file_of, IsPrefix};

use crate::shelf::Shelf;
use base_texts::Name;
use spec_outside::ShelfFault;
use std::marker::Model;

/// A shelf in memory that never fails. Contracts see its pairs of a name and the file's bytes.
#[derive(Debug, Drop)]
pub struct SureShelf {
    files: Vec<(Name, Vec<u8>)>,
}

impl Model for SureShelf {
    ghost use Rattle.std.specs.Prelude.{List, ℕ};
    ghost use Rattle.base_outside.specs.Files.{contents};

    ghost Value = { List (List ℕ × List ℕ) };

    ghost view = { λ shelf. contents shelf.files.items };
}

impl SureShelf {
    /// A shelf of these files. The first pair of a name counts, and a name of no pair has no bytes.
    /// It allocates nothing.
    pub fn new(files: Vec<(Name, Vec<u8>)>) -> SureShelf
        ensures { result ≡ contents files.items }
    {
        SureShelf { files }
    }

    /// The bytes of the first pair of the name, none where no pair has it.
    fn file(&self, name: &Name) -> &[u8]
        ensures { result.now ≡ file_of self.now name.now }
    {
        for (key, bytes) in &self.files {
            if key == name {
                return bytes.as_slice();
            }
        }
        &[]
    }
}

impl Shelf for SureShelf {
    ghost use Rattle.std.specs.Prelude.{Some};
    ghost use Rattle.std.proofs.Common.{rules};
    ghost use Rattle.base_outside.specs.Files.{file_of};
    ghost use Rattle.spec_outside.specs.declared.shelf_fault.ShelfFault.TheVariants as fault;

    ghost holds = { λ files. Some (file_of files) };

    ghost faults = { λ _. 0 };

    ghost read_gives = { λ old _ answer new. (new ≡ old) × ¬ IsErrOf answer fault.Failed };

    fn read(&mut self, name: &Name, room: &mut Vec<u8>, limit: u64) -> Result<(), ShelfFault>
        requires empty { room.old.items ≡ [] }
        requires below_last { limit < 2 ^ 64 - 1 }

        ensures kept { self.new ≡ self.old }
        ensures sure { ¬ IsErrOf result ShelfFault.Failed }
        ensures within { OnOk result (length room.new.items ≤ limit) }
        ensures whole { OnOk result (room.new.items ≡ file_of self.old name.now) }
        ensures past { IsErrOf result ShelfFault.TooLong → length room.new.items ≡ limit + 1 }
        ensures longer { IsErrOf result ShelfFault.TooLong → limit < length (file_of self.old name.now) }
        ensures prefix { IsPrefix room.new.items (file_of self.old name.now) }
    {
        let bytes = self.file(name);
        let is_long = bytes.len() as u64 > limit;
        let kept = if is_long {
            limit as usize + 1
        } else {
            bytes.len()
        };
        if room.extend_from_slice(&bytes[..kept]).is_err() {
            return Err(ShelfFault::NoMemory);
        }
        if is_long {
            Err(ShelfFault::TooLong)
        } else {
            Ok(())
        }
    }

    ghost failure_counts = { Prim.search rules };
}
