//! Whether texts are equal. Most names are so short that three words of each settle it, which takes a
//! fraction of what `==` takes at slices.

ghost use Rattle.std.specs.Prelude.{◌≡◌, ◌+◌, ◌≤◌, length, take, drop, IsTrue};
ghost use Rattle.std.specs.Int.{w64, to_le_bytes};

/// How many bytes a word has.
const WORD: usize = 8;

/// The word that begins at this place.
#[inline]
fn word_at(text: &[u8], at: usize) -> u64
    requires { at + 8 ≤ length text.now }
    ensures { to_le_bytes w64 result ≡ take 8 (drop at text.now) }
{
    match text[at..].first_chunk::<WORD>() {
        Some(word) => u64::from_le_bytes(*word),
        None => unreachable!(),
    }
}

/// Whether two texts have the same word at this place.
#[inline]
fn same_word(one: &[u8], other: &[u8], at: usize) -> bool
    requires { (at + 8 ≤ length one.now) × (at + 8 ≤ length other.now) }
    ensures same { IsTrue result → take 8 (drop at one.now) ≡ take 8 (drop at other.now) }
    ensures all { take 8 (drop at one.now) ≡ take 8 (drop at other.now) → IsTrue result }
{
    word_at(one, at) == word_at(other, at)
}

/// Whether two texts are equal.
pub(crate) fn same_text(one: &[u8], other: &[u8]) -> bool
    ensures same { IsTrue result → one.now ≡ other.now }
    ensures all { one.now ≡ other.now → IsTrue result }
{
    if one.len() != other.len() {
        return false;
    }
    if one.len() < WORD || 3 * WORD < one.len() {
        return one == other;
    }
    let last = one.len() - WORD;
    same_word(one, other, 0) & same_word(one, other, WORD.min(last)) & same_word(one, other, last)
}
