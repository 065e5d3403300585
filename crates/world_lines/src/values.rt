ghost use Rattle.std.specs.Prelude.{◌≡◌, nat_abs, pos, true};
ghost use Rattle.std.specs.Str.Parse.{signed_digits_value};
ghost use Rattle.spec_tree.specs.Numbers as numbers;
ghost use Rattle.spec_tree.specs.Numbers.{in_range, of_64_bits};
ghost use Rattle.world_lines.specs.Ranges.{Passes};

use crate::numbers::{int, one_of};
use base_texts::Name;

/// A number as it is written, canonically and however large.
#[derive(Clone, Copy)]
pub struct Numeral<'a> {
    word: &'a [u8],
    ghost canonical: { numbers.is_canonical word.now ≡ true },
}

impl Numeral<'_> {
    /// The number that the word writes.
    pub fn of(word: &[u8]) -> Numeral
        requires { numbers.is_canonical word.now ≡ true }
        ensures { result.word.now ≡ word.now }
    {
        Numeral { word }
    }

    /// The number. None where it is not in 1 to `most`.
    pub fn one_of(&self, most: u8) -> Option<u8>
        ensures { Passes (in_range (pos 1) (pos most)) nat_abs (signed_digits_value 10 self.now.word.now) result }
    {
        one_of(self.word, most)
    }

    /// The number. None where it would not fit 64 bits.
    pub fn int(&self) -> Option<i64>
        ensures { result ≡ of_64_bits (signed_digits_value 10 self.now.word.now) }
    {
        int(self.word)
    }
}

/// A value as it is written: a number, or a text however long.
#[derive(Drop)]
pub enum Written<'a> {
    Number(Numeral<'a>),
    Text(Name),
}

/// An output with its value, as they are written.
#[derive(Drop)]
pub struct WrittenOut<'a> {
    pub port: Name,
    pub value: Written<'a>,
}
