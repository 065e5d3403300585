ghost use Rattle.std.specs.Prelude.{◌≡◌, ℕ, ◌+◌, ◌<◌, List, ◌∷◌, Bool, true, false, Ok, Result, OnOk, length};
ghost use Rattle.spec_script.specs.declared.value.Value.{Value};
ghost use Rattle.spec_script.specs.declared.value.Value.TheVariants.{Int, Text};
ghost use Rattle.spec_script.specs.declared.fault.ExecFault.{ExecFault as Fault};
ghost use Rattle.script_code.specs.IntEntries.{IsAnswered};
ghost use Rattle.script_code.specs.Meeting.{gives_text};
ghost use Rattle.script_code.specs.Running.{binary_put, put, truth_taken, unary_put};
ghost use Rattle.script_code.specs.Stacks.{Leaves};

use base_texts::{Stop, Txt};
use spec_script::{BinOp, ExecFault, UnOp};

/// A stack for what postfix code gives, over slots of some kind. Want of memory is also
/// the answer of a stack that can't hold a value.
pub trait Stack<C> {
    /// Its values, the topmost first.
    ghost values: { Self → List Value };

    /// Whether it holds numbers alone.
    ghost numbers: { Bool };

    /// How many values it has room for.
    ghost room: { ℕ };

    /// How many slots there are.
    ghost reach: { C → ℕ };

    /// What each slot gives.
    ghost gives: { C → ℕ → Result Value Fault };

    /// Puts a number on top.
    fn put_number(&mut self, n: i64)
        requires { length (values self.old) < room }
        ensures { values self.new ≡ Int n ∷ values self.old };

    /// Puts a copy of a text on top.
    fn put_text(&mut self, text: &Txt) -> Result<(), Stop<ExecFault>>
        requires { length (values self.old) < room }
        ensures { Leaves result (Ok (Text text.now ∷ values self.old)) (λ _. values self.new) };

    /// Puts what a slot gives on top.
    fn put_slot(&mut self, slot: u32, slots: &C) -> Result<(), Stop<ExecFault>>
        requires room { length (values self.old) < room }
        requires slot { slot < reach slots.now }
        ensures puts { Leaves result (put (gives slots.now slot) (values self.old)) (λ _. values self.new) }
        ensures answered { numbers ≡ true → gives_text (gives slots.now slot) ≡ false → IsAnswered result };

    /// Puts an operator's result in place of its operand.
    fn unary(&mut self, op: UnOp) -> Result<(), Stop<ExecFault>>
        requires { 0 < length (values self.old) }
        ensures puts { Leaves result (unary_put op (values self.old)) (λ _. values self.new) }
        ensures answered { numbers ≡ true → IsAnswered result };

    /// Puts an operator's result in place of its two operands.
    fn binary(&mut self, op: BinOp) -> Result<(), Stop<ExecFault>>
        requires { 1 < length (values self.old) }
        ensures puts { Leaves result (binary_put op (values self.old)) (λ _. values self.new) }
        ensures answered { numbers ≡ true → IsAnswered result };

    /// Puts an operator's result in place of its left operand. The right one is this number.
    fn binary_number(&mut self, op: BinOp, n: i64) -> Result<(), Stop<ExecFault>>
        requires { 0 < length (values self.old) }
        ensures puts { Leaves result (binary_put op (Int n ∷ values self.old)) (λ _. values self.new) }
        ensures answered { numbers ≡ true → IsAnswered result };

    /// Takes the topmost value, as a truth.
    fn take_truth(&mut self) -> Result<bool, Stop<ExecFault>>
        requires { 0 < length (values self.old) }
        ensures takes { Leaves result (truth_taken (values self.old)) (λ holds. (holds, values self.new)) }
        ensures height { OnOk result (length (values self.new) + 1 ≡ length (values self.old)) }
        ensures answered { numbers ≡ true → IsAnswered result };
}
