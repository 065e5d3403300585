ghost use Rattle.std.specs.Prelude.{◌≡◌, ◌+◌, ◌<◌, ◌≤◌, ℕ, ℤ, List, Err, length};
ghost use Rattle.spec_script.specs.declared.cells.Seen.{Seen};
ghost use Rattle.spec_script.specs.declared.fault.ExecFault.TheVariants.{NoEntry};
ghost use Rattle.spec_script.specs.Entries.{look_of};
ghost use Rattle.script_code.specs.Codes.{formula};
ghost use Rattle.spec_run.specs.Leaf.{sights};

use crate::facts::FactTable;
use crate::looks::Sights;
use script_code::{ExprCode, number};
use spec_run::Cause;
use spec_script::{ExecFault, Seen};

/// The values of a row's input ports at a node, by their place in the row. Places after the last
/// port are absent.
pub type Inputs = [Seen; 8];

/// An expression of a row, compiled over the places of its names: the eight inputs, then the facts.
#[derive(Debug, Drop)]
pub struct ReadyExpr {
    pub code: ExprCode,
    /// Its value is always a number.
    pub ghost textless: { (formula code).texts ≡ 0 },
    /// A name that has no entry is an input's: facts are always there.
    pub ghost missing: { (inputs : List Seen) (facts : List ℤ) (place : ℕ) →
        length inputs ≡ 8 → (formula code).reach ≤ 8 + length facts →
        (formula code).value (look_of (sights inputs facts)) ≡ Err (NoEntry place) → place < 8 },
}

impl ReadyExpr {
    ghost use Rattle.run_driver.specs.Ready.{expr_reach, ready_number, ready_test};

    /// Its number over these inputs and facts, or the cause of its fault. It allocates no memory.
    pub fn value(&self, inputs: &Inputs, facts: &FactTable) -> Result<i64, Cause>
        requires { expr_reach self.now ≤ 8 + length facts.now }
        ensures { result ≡ ready_number self.now inputs.now facts.now }
    {
        match number(&self.code, &Sights { inputs, facts }) {
            Ok(n) => Ok(n),
            Err(ExecFault::NoEntry { slot }) => Err(Cause::NoInput { place: slot as u8 }),
            Err(ExecFault::Overflow) => Err(Cause::Overflow),
            Err(ExecFault::ZeroDivisor) => Err(Cause::ZeroDivisor),
            Err(ExecFault::NotWhole) => Err(Cause::NotWhole),
            Err(ExecFault::Mixed) => Err(Cause::Mixed),
            Err(ExecFault::TextTooLong) => Err(Cause::TextTooLong),
        }
    }

    /// Whether its number is not 0, or the cause of its fault. It allocates no memory.
    pub fn is_true(&self, inputs: &Inputs, facts: &FactTable) -> Result<bool, Cause>
        requires { expr_reach self.now ≤ 8 + length facts.now }
        ensures { result ≡ ready_test self.now inputs.now facts.now }
    {
        Ok(self.value(inputs, facts)? != 0)
    }
}
