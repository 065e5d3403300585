ghost use Rattle.std.specs.Prelude.{◌≡◌, length};

use crate::expression::Inputs;
use crate::facts::FactTable;
use spec_script::{Looks, Seen};

/// What the expressions of a row see: the inputs in the places 0 to 7, then the facts.
#[derive(Drop)]
pub struct Sights<'a> {
    pub inputs: &'a Inputs,
    pub facts: &'a FactTable,
    pub ghost eight: { length inputs.now ≡ 8 },
}

impl Looks for Sights<'_> {
    ghost use Rattle.spec_run.specs.Leaf as leaf;

    ghost sights = { λ s. leaf.sights s.inputs.now s.facts.now };

    fn look(&self, slot: u32) -> Seen {
        if slot < 8 {
            self.inputs[slot as usize]
        } else {
            Seen::Int(self.facts.get(slot - 8))
        }
    }
}
