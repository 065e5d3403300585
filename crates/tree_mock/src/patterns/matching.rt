ghost use Rattle.std.specs.Prelude.{◌≡◌, ◌≤◌, IsTrue, length, nat_eq, not};
ghost use Rattle.std.specs.List.{common_prefix_len};
ghost use Rattle.spec_tree_file.specs.Patterns.{is_star, matches, some_end};
ghost use Rattle.tree_mock.specs.Patterns.{Matches, before_star};

use memchr::memmem;

/// Whether the byte is no star.
fn plain_byte(byte: u8) -> bool
    ensures { result ≡ not (is_star byte) }
{
    byte != b'*'
}

/// How many bytes of a pattern come before its first star, or how many it has where it has none.
#[tactic(auto, using(crate::proofs::AboutPatterns::Pieces::prefixes))]
pub fn plain_len(pattern: &[u8]) -> usize
    ensures value { result ≡ before_star pattern.now }
    ensures within { result ≤ length pattern.now }
{
    pattern.iter().take_while(|byte| plain_byte(**byte)).count()
}

/// How many bytes two texts begin with alike.
pub fn alike(text: &[u8], other: &[u8]) -> usize
    ensures value { result ≡ common_prefix_len nat_eq text.now other.now }
    ensures within { result ≤ length text.now }
{
    let mut count = 0;
    while count < text.len() && count < other.len() && text[count] == other[count] {
        count += 1;
    }
    count
}

/// Whether the pattern matches some end of the text. What stands between two stars is looked for where it occurs first:
/// the star after it stands for what a later place would leave. What comes after the last star must be the end.
fn matches_end(pattern: &[u8], text: &[u8]) -> bool
    ensures { result ≡ some_end (matches pattern.now) text.now }
{
    let mut left = pattern;
    let mut rest = text;
    'pieces: loop {
        let (piece, more) = left.split_at(plain_len(left));
        let Some((_, next)) = more.split_first() else {
            return rest.ends_with(piece);
        };
        let Some(place) = memmem::find(rest, piece) else {
            return false;
        };
        let (_, found) = rest.split_at(place);
        let (_, following) = found.split_at(piece.len());
        rest = following;
        left = next;
    }
}

/// Whether a pattern that is empty or begins with a star matches the text.
pub fn follows(pattern: &[u8], text: &[u8]) -> bool
    requires { before_star pattern.now ≡ 0 }
    ensures { result ≡ matches pattern.now text.now }
{
    match pattern.split_first() {
        Some((_, next)) => matches_end(next, text),
        None => text.is_empty(),
    }
}

/// Whether the text begins as the pattern does up to its first star, and what follows matches what comes after that.
fn passes(pattern: &[u8], text: &[u8]) -> bool
    ensures { result ≡ matches pattern.now text.now }
{
    let (piece, more) = pattern.split_at(plain_len(pattern));
    match text.strip_prefix(piece) {
        Some(rest) => follows(more, rest),
        None => false,
    }
}

/// Whether the pattern matches the text. It takes no more steps than both have bytes, but for the searches of what
/// stands between two stars, and no memory.
pub fn is_match(pattern: &[u8], text: &[u8]) -> bool
    ensures test { result ≡ matches pattern.now text.now }
    ensures sound { IsTrue result → Matches pattern.now text.now }
    ensures complete { Matches pattern.now text.now → IsTrue result }
{
    passes(pattern, text)
}
