ghost use Rattle.std.specs.Prelude.{◌≡◌, true};
ghost use Rattle.script_code.specs.Rooms.{fits};

use crate::instr::Instr;
use base_texts::Items;

/// The code of an expression: its operands, each followed by what is done of those on top of the stack.
/// A stack of 65 places has room for it.
#[derive(Debug, Drop)]
pub struct Postfix {
    pub(crate) instrs: Items<Instr>,
    /// Whether it is known that 8 places are enough.
    pub(crate) is_low: bool,
    ghost room: { fits 65 instrs ≡ true },
    ghost low: { is_low ≡ true → fits 8 instrs ≡ true },
}
