ghost use Rattle.std.specs.Prelude.{◌≡◌, ◌<◌, ◌≤◌, ◌+◌, ◌-◌, ◌^◌, ◌↔◌, [], OnOk, IsErrOf, IsTrue, length};
ghost use Rattle.spec_outside.specs.Counts.{Rose};
ghost use Rattle.base_outside.specs.Counts.{next};
ghost use Rattle.base_outside.specs.Files.{contents, file_of, IsPrefix};
ghost use Rattle.base_outside.specs.MemShelf.{fails_now, after_read};

use crate::shelf::Shelf;
use crate::sure_shelf::SureShelf;
use base_texts::Name;
use spec_outside::ShelfFault;
use std::marker::Model;

/// A shelf in memory of which some calls are to fail. Contracts see its files, these calls and its
/// counts as a `ShelfState`.
#[derive(Debug, Drop)]
pub struct MemShelf {
    shelf: SureShelf,
    fails: Vec<u64>,
    calls: u64,
    faults: u64,
}

impl Model for MemShelf {
    ghost use Rattle.base_outside.specs.MemShelf.{ShelfState};

    ghost Value = { ShelfState };

    ghost view = { λ s. record { files = s.shelf; fails = s.fails.items; calls = s.calls; faults = s.faults } };
}

impl MemShelf {
    /// A shelf of these files. The first pair of a name counts, and a name of no pair has no bytes.
    /// `fails` has the numbers of the calls that are to fail, counted from 1. It allocates nothing.
    pub fn new(files: Vec<(Name, Vec<u8>)>, fails: Vec<u64>) -> MemShelf
        ensures { result ≡ record { files = contents files.items; fails = fails.items; calls = 0; faults = 0 } }
    {
        MemShelf {
            shelf: SureShelf::new(files),
            fails,
            calls: 0,
            faults: 0,
        }
    }

    /// Counts one more call, and says whether it is to fail.
    fn next_fails(&mut self) -> bool
        ensures counted { self.new ≡ record self.old { calls = next self.old.calls } }
        ensures value { result ≡ fails_now self.old }
    {
        self.calls = self.calls.saturating_add(1);
        self.fails.contains(&self.calls)
    }
}

impl Shelf for MemShelf {
    ghost use Rattle.std.specs.Prelude.{Some};
    ghost use Rattle.std.proofs.Common.{rules};
    ghost use Rattle.base_outside.specs.Files.{file_of};
    ghost use Rattle.spec_outside.specs.declared.shelf_fault.ShelfFault.TheVariants as fault;

    ghost holds = { λ s. Some (file_of s.files) };

    ghost faults = { λ s. s.faults };

    ghost read_gives = { λ old _ answer new. (new ≡ after_read old) × (IsErrOf answer fault.Failed ↔ IsTrue (fails_now old)) };

    fn read(&mut self, name: &Name, room: &mut Vec<u8>, limit: u64) -> Result<(), ShelfFault>
        requires empty { room.old.items ≡ [] }
        requires below_last { limit < 2 ^ 64 - 1 }

        ensures after { self.new ≡ after_read self.old }
        ensures failing_call { IsErrOf result ShelfFault.Failed ↔ IsTrue (fails_now self.old) }

        ensures count { self.old.faults ≤ self.new.faults }
        ensures within { OnOk result (length room.new.items ≤ limit) }
        ensures whole { OnOk result (room.new.items ≡ file_of self.old.files name.now) }
        ensures failed { IsErrOf result ShelfFault.Failed → Rose self.old.faults self.new.faults }
        ensures past { IsErrOf result ShelfFault.TooLong → length room.new.items ≡ limit + 1 }
        ensures longer { IsErrOf result ShelfFault.TooLong → limit < length (file_of self.old.files name.now) }
        ensures prefix { IsPrefix room.new.items (file_of self.old.files name.now) }
    {
        if self.next_fails() {
            self.faults = self.faults.saturating_add(1);
            return Err(ShelfFault::Failed);
        }
        self.shelf.read(name, room, limit)
    }

    ghost failure_counts = { Prim.search rules };
}
