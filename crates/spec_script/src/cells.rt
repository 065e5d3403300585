ghost use Rattle.std.specs.Prelude.{◌≡◌, ◌<◌, List, Option, Some, length, slice_get, slice_set};
ghost use Rattle.std.specs.Option.{option_copied};
ghost use Rattle.spec_script.specs.declared.value.Value.{Value};
ghost use Rattle.spec_script.specs.declared.cells.Seen.{Seen};

use crate::value::Value;
use base_texts::Txt;

/// The entries that a script reads and writes: a value, or none, for each slot below the number of
/// slots. No call allocates.
pub trait Cells {
    /// The values by slot.
    ghost entries: { Self → List (Option Value) };

    /// Lends the value of a slot.
    fn get(&self, slot: u32) -> Option<&Value>
        requires { slot < length (entries self.now) }
        ensures { slice_get (entries self.now) slot ≡ Some (option_copied result) };

    /// Gives a slot this number, and changes no other slot.
    fn put_int(&mut self, slot: u32, n: i64)
        requires { slot < length (entries self.old) }
        ensures { entries self.new ≡ slice_set (entries self.old) slot (Some (Value.Int n)) };

    /// Gives a slot this text, and changes no other slot.
    fn put_text(&mut self, slot: u32, text: Txt)
        requires { slot < length (entries self.old) }
        ensures { entries self.new ≡ slice_set (entries self.old) slot (Some (Value.Text text)) };
}

/// What a look at a slot finds.
#[derive(Clone, Copy, Debug, PartialEq, Eq)]
pub enum Seen {
    /// No value.
    Absent,
    Int(i64),
    /// Some text.
    Text,
}

/// What an expression sees of the entries, for each slot below the number of slots. No call allocates.
pub trait Looks {
    /// What is seen, by slot.
    ghost sights: { Self → List Seen };

    /// What the slot has.
    fn look(&self, slot: u32) -> Seen
        requires { slot < length (sights self.now) }
        ensures { slice_get (sights self.now) slot ≡ Some result };
}
