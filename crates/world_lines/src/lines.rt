ghost use Rattle.std.specs.Prelude.{◌≡◌, ◌==◌, ◌≤◌, ◌-◌, ◌||◌, nat_eq, codes, map, length, take, IfOk, bytes_eq};
ghost use Rattle.std.specs.List.{list_all, slice_split, starts_with, suffix_len, prefix_len, position_or_len};
ghost use Rattle.spec_world_file.specs.WorldFile as file;
ghost use Rattle.spec_world_file.specs.WorldFile.{is_gap, is_line_byte, without_empty_rest, without_return, without_gap, before_gap, front_word, after_word};

use std::alloc::{AllocError, Global};

/// Whether the word is this text.
pub fn is(word: &[u8], text: &str) -> bool
    ensures { result ≡ bytes_eq word.now text.now }
{
    word == text.as_bytes()
}

/// Whether the byte stands between words: a blank or a tab.
fn is_blank(byte: u8) -> bool
    ensures { result ≡ is_gap byte }
{
    byte == b' ' || byte == b'\t'
}

/// Whether a line may hold the byte: a tab, or a printable one of ASCII.
fn is_readable(byte: u8) -> bool
    ensures { result ≡ is_line_byte byte }
{
    byte == b'\t' || byte >= b' ' && byte <= b'~'
}

/// What stands between the separators. `AllocError` where an allocation fails.
pub fn parts(alloc: Global, bytes: &[u8], separator: u8) -> Result<Vec<&[u8]>, AllocError>
    ensures { IfOk result (λ v. map (λ part. part.now) v.items ≡ slice_split (λ b. b == separator) bytes.now) }
{
    bytes.split(|b| *b == separator).collect(alloc)
}

/// The parts without an empty one at the end.
pub fn without_rest<'a, 'b>(parts: &'a [&'b [u8]]) -> &'a [&'b [u8]]
    ensures { map (λ part. part.now) result.now ≡ without_empty_rest (map (λ part. part.now) parts.now) }
{
    match parts {
        [front @ .., last] if last.is_empty() => front,
        _ => parts,
    }
}

/// The line without one carriage return at its end.
pub fn trimmed(text: &[u8]) -> &[u8]
    ensures { result.now ≡ without_return text.now }
{
    text.strip_suffix(b"\r".as_slice()).unwrap_or(text)
}

/// Whether a line may hold each of the bytes.
pub fn is_line(text: &[u8]) -> bool
    ensures { result ≡ list_all is_line_byte text.now }
{
    text.iter().all(|b| is_readable(*b))
}

/// How many bytes of the gap stand at the front.
fn gap_len(text: &[u8]) -> usize
    ensures { result ≡ prefix_len is_gap text.now }
{
    text.iter().take_while(|b| is_blank(**b)).count()
}

/// How many bytes the word at the front has.
pub fn word_len(text: &[u8]) -> usize
    ensures { result ≡ position_or_len is_gap text.now }
{
    text.iter().take_while(|b| !is_blank(**b)).count()
}

/// The text without the gap at its front.
pub fn after_gap(text: &[u8]) -> &[u8]
    ensures { result.now ≡ without_gap text.now }
{
    let (_, rest) = text.split_at(gap_len(text));
    rest
}

/// The text without the gap at its end.
fn until_gap(text: &[u8]) -> &[u8]
    ensures { result.now ≡ before_gap text.now }
{
    let mut len = text.len();
    'gap: while len > 0 && is_blank(text[len - 1]) {
        len -= 1;
    }
    &text[..len]
}

/// What a line holds, without the gaps round it.
pub fn content(text: &[u8]) -> &[u8]
    ensures { result.now ≡ file.content text.now }
{
    until_gap(after_gap(trimmed(text)))
}

/// Whether a line with this content is ignored: it is blank, or begins with `#`.
pub fn is_ignored(content: &[u8]) -> bool
    ensures { result ≡ file.is_ignored content.now }
{
    content.is_empty() || content.starts_with(b"#".as_slice())
}

/// The word at the front, and what follows it and the gap after it.
pub fn cut(text: &[u8]) -> (&[u8], &[u8])
    ensures prefix { result.0.now ≡ front_word text.now }
    ensures rest { result.1.now ≡ after_word text.now }
{
    let (word, rest) = text.split_at(word_len(text));
    (word, after_gap(rest))
}

/// Whether nothing stands at the front, or a gap.
pub fn is_apart(text: &[u8]) -> bool
    ensures { result ≡ file.is_apart text.now }
{
    match text {
        [byte, ..] => is_blank(*byte),
        [] => true,
    }
}
