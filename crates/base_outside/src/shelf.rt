ghost use Rattle.std.specs.Prelude.{◌≡◌, ◌<◌, ◌≤◌, ◌+◌, ◌-◌, ◌^◌, List, [], ℕ, Option, Result, OnOk, IsErrOf, length};
ghost use Rattle.spec_outside.specs.Counts.{Rose};
ghost use Rattle.spec_outside.specs.Files.{Told};
ghost use Rattle.base_outside.specs.Files.{IsPrefix};
ghost use Rattle.base_outside.specs.Reads.{count_after, given};
ghost use Rattle.spec_outside.specs.declared.shelf_fault.ShelfFault.{ShelfFault};

use base_texts::Name;
use spec_outside::ShelfFault;

/// A shelf of files by name.
pub trait Shelf {
    /// What each name holds, where the shelf tells it.
    ghost holds: { Self → Option (List ℕ → List ℕ) };

    /// The count of failures. It never falls.
    ghost faults: { Self → ℕ };

    /// A read of this name gives these bytes or this fault, and leads from the first state to the second.
    ghost read_gives: { Self → List ℕ → Result (List ℕ) ShelfFault → Self → Type 0 };

    /// Reads the file of this name, of at most `limit` bytes, into the empty room.
    ///
    /// `ShelfFault::Failed` comes only where the count of failures rose in this call.
    /// `ShelfFault::TooLong` comes only for a file of more than `limit` bytes, and the room then has
    /// its first `limit + 1` bytes. At every return the room has some prefix of the file.
    fn read(&mut self, name: &Name, room: &mut Vec<u8>, limit: u64) -> Result<(), ShelfFault>
        requires empty { room.old.items ≡ [] }
        requires below_last { limit < 2 ^ 64 - 1 }

        ensures gives { read_gives self.old name.now (given result room.new.items) self.new }
        ensures holds { holds self.new ≡ holds self.old }
        ensures count { faults self.old ≤ faults self.new }

        ensures within { OnOk result (length room.new.items ≤ limit) }
        ensures whole { OnOk result (Told (holds self.old) name.now (λ file. room.new.items ≡ file)) }

        ensures failed { IsErrOf result ShelfFault.Failed → Rose (faults self.old) (faults self.new) }
        ensures past { IsErrOf result ShelfFault.TooLong → length room.new.items ≡ limit + 1 }
        ensures longer { IsErrOf result ShelfFault.TooLong → Told (holds self.old) name.now (λ file. limit < length file) }
        ensures prefix { Told (holds self.old) name.now (λ file. IsPrefix room.new.items file) };

    /// A read that fails raises the count of failures by one, up to its last value, and no other read changes it.
    ghost failure_counts: { (old new : Self) → (name : List ℕ) → (gave : Result (List ℕ) ShelfFault)
        → read_gives old name gave new → faults new ≡ count_after gave (faults old) };
}
