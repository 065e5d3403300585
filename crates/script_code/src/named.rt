ghost use Rattle.std.specs.Prelude.{◌≡◌, ◌<◌, length};
ghost use Rattle.std.specs.List.{All};
ghost use Rattle.script_code.specs.Statements.{slot_in};

use crate::number_stack::Numbers;
use base_texts::Stop;
use spec_script::{Cells, ExecFault, Value};

/// The slot of a name, by its number.
#[inline(always)]
pub fn slot_at(slots: &[u32], number: u32) -> u32
    requires { number < length slots.now }
    ensures { result ≡ slot_in slots.now number }
{
    slots[number as usize]
}

/// Entries, by the numbers of the names of a script, which have these slots.
#[derive(Drop)]
pub struct NamedEntries<'a, B: Cells> {
    pub cells: &'a B,
    pub slots: &'a [u32],
    pub ghost below: { All (λ slot. slot < length (B.entries cells.now)) slots.now },
}

impl<B: Cells> Numbers for NamedEntries<'_, B> {
    ghost use Rattle.std.specs.Prelude.{length};
    ghost use Rattle.script_code.specs.Statements.{entry_at as found, slot_in as slot_of};

    ghost reach = { λ s. length s.slots.now };

    ghost gives = { λ s. found (slot_of s.slots.now) (B.entries s.cells.now) };

    #[inline(always)]
    fn number(&self, number: u32) -> Result<i64, Stop<ExecFault>> {
        let slot = slot_at(self.slots, number);
        match self.cells.get(slot) {
            Some(Value::Int(n)) => Ok(*n),
            Some(Value::Text(_)) => Err(Stop::NoMemory),
            None => Err(Stop::Fault(ExecFault::NoEntry { slot })),
        }
    }
}
