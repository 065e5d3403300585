ghost use Rattle.std.specs.Prelude.{◌≡◌, nat_abs, pos, true};
ghost use Rattle.std.specs.Str.Parse.{signed_digits_value};
ghost use Rattle.spec_tree.specs.Numbers.{in_range, is_int};
ghost use Rattle.spec_tree.specs.Numbers as numbers;
ghost use Rattle.spec_world_file.specs.WorldFile.{is_ms, is_step, is_uid};
ghost use Rattle.world_lines.specs.Ranges.{Passes};

use base_tables::{LAST_MOMENT, canonical_int};

/// The number that the word writes. None where it would not fit 64 bits.
pub fn int(word: &[u8]) -> Option<i64>
    requires { numbers.is_canonical word.now ≡ true }
    ensures { Passes is_int (λ z. z) (signed_digits_value 10 word.now) result }
{
    canonical_int(word)
}

/// The moment or duration that the word writes, in milliseconds. None where it is below 0 or above the last moment.
pub fn ms(word: &[u8]) -> Option<u64>
    requires { numbers.is_canonical word.now ≡ true }
    ensures { Passes is_ms nat_abs (signed_digits_value 10 word.now) result }
{
    let number = u64::try_from(int(word)?).ok()?;
    if number <= LAST_MOMENT {
        Some(number)
    } else {
        None
    }
}

/// The time from one round to the next that the word writes, in milliseconds. None where it is below 1 or above the last
/// moment.
pub fn step(word: &[u8]) -> Option<u64>
    requires { numbers.is_canonical word.now ≡ true }
    ensures { Passes is_step nat_abs (signed_digits_value 10 word.now) result }
{
    let number = u64::try_from(int(word)?).ok()?;
    if number >= 1 && number <= LAST_MOMENT {
        Some(number)
    } else {
        None
    }
}

/// The number that the word writes. None where it is not in 1 to `most`.
pub fn one_of(word: &[u8], most: u8) -> Option<u8>
    requires { numbers.is_canonical word.now ≡ true }
    ensures { Passes (in_range (pos 1) (pos most)) nat_abs (signed_digits_value 10 word.now) result }
{
    let number = u8::try_from(int(word)?).ok()?;
    if number >= 1 && number <= most {
        Some(number)
    } else {
        None
    }
}

/// The uid that the word writes. None where it would not fit 32 bits.
pub fn uid(word: &[u8]) -> Option<u32>
    requires { numbers.is_canonical word.now ≡ true }
    ensures { Passes is_uid nat_abs (signed_digits_value 10 word.now) result }
{
    u32::try_from(int(word)?).ok()
}
