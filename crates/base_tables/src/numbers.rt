ghost use Rattle.std.specs.Prelude.{◌≡◌, ◌==◌, ◌<◌, ◌≤◌, IfSome, IsTrue, Some, pos, true};
ghost use Rattle.std.specs.Char.{is_ascii_digit};
ghost use Rattle.std.specs.List.{list_all, position};
ghost use Rattle.std.specs.Str.Parse.{digits_value, signed_digits_value};
ghost use Rattle.spec_tree.specs.Numbers.{int_in, is_positive, thousandths_after, without_minus};
ghost use Rattle.spec_tree.specs.Numbers as numbers;

use std::str;

/// Whether all bytes are decimal digits.
fn all_digits(word: &[u8]) -> bool
    ensures { result ≡ list_all is_ascii_digit word.now }
{
    word.iter().all(|b| b.is_ascii_digit())
}

/// The word without one minus at its front.
fn unsigned(word: &[u8]) -> &[u8]
    ensures { result.now ≡ without_minus word.now }
{
    match word {
        [b'-', digits @ ..] => digits,
        _ => word,
    }
}

/// Whether the word is digits of which the first is not 0.
fn positive(word: &[u8]) -> bool
    ensures { result ≡ is_positive word.now }
{
    match word.first() {
        Some(first) => *first > b'0' && all_digits(word),
        None => false,
    }
}

/// Whether the word writes a number canonically: `0`, or digits that do not begin with 0, with or without a minus.
pub fn is_canonical(word: &[u8]) -> bool
    ensures { result ≡ numbers.is_canonical word.now }
{
    word == b"0".as_slice() || positive(unsigned(word))
}

/// Whether the word begins with a digit, and so with no sign.
#[tactic(auto, using(crate::proofs::Canonical::unsigned))]
fn begins_with_digit(word: &[u8]) -> bool
    ensures { IsTrue result → signed_digits_value 10 word.now ≡ pos (digits_value 10 word.now) }
{
    match word.first() {
        Some(first) => first.is_ascii_digit(),
        None => false,
    }
}

/// The largest number of 17 digits.
const MOST_OF_17: u64 = 99_999_999_999_999_999;

/// The number of a word of digits. None where it has more than 18 digits, or where not all are digits.
fn few_digits(word: &[u8]) -> Option<u64>
    ensures { IfSome result (λ n. (n ≡ digits_value 10 word.now) × (n ≤ 999999999999999999)) }
{
    let mut n: u64 = 0;
    'digits: for digit in word {
        if n > MOST_OF_17 {
            return None;
        }
        n = n * 10 + u64::from(char::from(*digit).to_digit(10)?);
    }
    Some(n)
}

/// The number of a canonical word that has no sign and few digits, which is read in one walk.
fn short_int(word: &[u8]) -> Option<i64>
    requires { numbers.is_canonical word.now ≡ true }
    ensures { IfSome result (λ n. Some n ≡ int_in word.now) }
{
    if begins_with_digit(word) {
        Some(few_digits(word)? as i64)
    } else {
        None
    }
}

/// The number that a canonical word writes. None where it would not fit 64 bits.
pub fn canonical_int(word: &[u8]) -> Option<i64>
    requires { numbers.is_canonical word.now ≡ true }
    ensures { result ≡ int_in word.now }
{
    if let Some(n) = short_int(word) {
        return Some(n);
    }
    match str::from_utf8(word) {
        Ok(text) => text.parse().ok(),
        Err(_) => None,
    }
}

/// The number that the word writes canonically. None where it does not, or where it would not fit 64 bits.
pub fn int(word: &[u8]) -> Option<i64>
    ensures { result ≡ int_in word.now }
{
    if is_canonical(word) {
        canonical_int(word)
    } else {
        None
    }
}

/// The place of the first point of a word.
pub(crate) fn point_in(word: &[u8]) -> Option<usize>
    ensures { result ≡ position (λ b. b == 46) word.now }
{
    word.iter().position(|b| *b == b'.')
}

/// The thousandths that the bytes after a point count. None where they are not one to three digits.
pub(crate) fn after_point(digits: &[u8]) -> Option<u32>
    ensures counts { result ≡ thousandths_after digits.now }
    ensures few { IfSome result (λ n. n < 1000) }
{
    if !all_digits(digits) {
        return None;
    }
    match digits {
        [a] => Some(100 * u32::from(*a - b'0')),
        [a, b] => Some(100 * u32::from(*a - b'0') + 10 * u32::from(*b - b'0')),
        [a, b, c] => {
            Some(100 * u32::from(*a - b'0') + 10 * u32::from(*b - b'0') + u32::from(*c - b'0'))
        }
        _ => None,
    }
}
