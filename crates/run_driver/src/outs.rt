ghost use Rattle.std.specs.Prelude.{◌≡◌, ◌<◌, [], ◌∷◌, ◌++◌, length, unwrap_or};
ghost use Rattle.base_tables.specs.Outputs.{no_outputs};

use base_texts::Items;
use spec_world::ToldOut;
use std::marker::Model;

/// The outputs of a completion: the numbers that its row works out, at most eight, in the order of the row, or the
/// values that its leaf was told. Contracts see the two lists.
#[derive(Debug, Drop)]
pub struct Outs {
    len: u8,
    values: [i64; 8],
    told: Option<Items<ToldOut>>,
}

impl Model for Outs {
    ghost use Rattle.std.specs.Prelude.{take, unwrap_or, ◌≤◌, []};
    ghost use Rattle.base_tables.specs.Outputs.{Outputs};

    ghost Value = { Outputs };

    ghost view = { λ outs. record { numbers = take outs.len outs.values; told = unwrap_or outs.told [] } };

    ghost invariant = { λ outs. outs.len ≤ 8 };
}

impl Outs {
    /// No outputs.
    pub fn new() -> Outs
        ensures { result ≡ no_outputs }
    {
        Outs {
            len: 0,
            values: [0; 8],
            told: None,
        }
    }

    /// The values that a leaf was told with SUCCESS, and no numbers.
    pub fn told(values: Items<ToldOut>) -> Outs
        ensures { result ≡ record { numbers = []; told = values } }
    {
        Outs {
            len: 0,
            values: [0; 8],
            told: Some(values),
        }
    }

    /// Lends the numbers.
    pub fn numbers(&self) -> &[i64]
        ensures { result.now ≡ self.now.numbers }
    {
        &self.values[..self.len as usize]
    }

    /// Removes all outputs.
    pub fn clear(&mut self)
        ensures { self.new ≡ no_outputs }
    {
        self.len = 0;
        self.told = None;
    }

    /// Takes the values that were told.
    pub fn take_told(&mut self) -> Option<Items<ToldOut>>
        ensures told { unwrap_or result [] ≡ self.old.told }
        ensures left { self.new ≡ record self.old { told = [] } }
    {
        self.told.take()
    }

    /// Adds a number after the others.
    pub fn push(&mut self, n: i64)
        requires { length self.old.numbers < 8 }
        ensures { self.new ≡ record self.old { numbers = self.old.numbers ++ n ∷ [] } }
    {
        self.values[self.len as usize] = n;
        self.len += 1;
    }
}
