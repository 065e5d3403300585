ghost use Rattle.std.specs.Prelude.{◌≤◌, ℕ, List, Option, IsErrOf};
ghost use Rattle.spec_outside.specs.Counts.{Rose};
ghost use Rattle.spec_outside.specs.Lines.{TakesNext};

use spec_outside::LineFault;

/// An input of lines, which are taken one after another.
pub trait Lines {
    /// The bytes that are still to come, where the input tells them.
    ghost ahead: { Self → Option (List ℕ) };

    /// The count of failures. It never falls.
    ghost faults: { Self → ℕ };

    /// Takes the next line into the room, without its line feed and in place of what was there, and says whether there
    /// is one: at the end of the input there is none. `LineFault::Failed` comes only where the count of failures rose in
    /// this call. After a fault no line is to be taken.
    fn next(&mut self, room: &mut Vec<u8>) -> Result<bool, LineFault>
        ensures taken { TakesNext (ahead self.old) result room.new.items (ahead self.new) }
        ensures failed { IsErrOf result LineFault.Failed → Rose (faults self.old) (faults self.new) }
        ensures count { faults self.old ≤ faults self.new };
}
