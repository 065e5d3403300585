ghost use Rattle.std.specs.Prelude.{◌≡◌, ◌==◌, ◌||◌, IfOk, option_and_then, option_map};
ghost use Rattle.std.specs.List.{list_any};
ghost use Rattle.spec_world_file.specs.WorldFile as file;
ghost use Rattle.spec_expect.specs.ExpectFile.{is_pattern_byte, pick_at_front, pick_quoted, quoted_pick};

use base_texts::{Name, NoMemory};
use spec_expect::Pick;
use std::alloc::Global;
use world_lines::{after_gap, cut, is_apart, is_name, name_of, text_to_quote};

/// Whether a byte makes a quoted text a pattern.
fn is_pattern_byte(byte: u8) -> bool
    ensures { result ≡ is_pattern_byte byte }
{
    byte == b'/' || byte == b'*'
}

/// Whether a quoted text is a pattern.
fn is_pattern(text: &[u8]) -> bool
    ensures { result ≡ list_any is_pattern_byte text.now }
{
    text.iter().any(|byte| is_pattern_byte(*byte))
}

/// The leaves that a quoted text tells.
fn quoted_pick(text: Name) -> Pick
    ensures { result ≡ quoted_pick text }
{
    if is_pattern(text.list()) {
        Pick::ByPath(text)
    } else {
        Pick::ByName(text)
    }
}

/// The leaves that a quoted text of these bytes tells, and what follows. None where it is not UTF-8, or where what follows does
/// not stand apart.
fn pick_quoted(bytes: Vec<u8>, rest: &[u8]) -> Result<Option<(Pick, &[u8])>, NoMemory>
    ensures { IfOk result (λ found. option_map (λ x. (x.0, x.1.now)) found ≡ pick_quoted (bytes.items, rest.now)) }
{
    if is_apart(rest) {
        match str::from_utf8(bytes.as_slice()) {
            Ok(_) => Ok(Some((quoted_pick(Name::of(bytes)?), after_gap(rest)))),
            Err(_) => Ok(None),
        }
    } else {
        Ok(None)
    }
}

/// The leaves that a quoted text tells, from after its first quote on, and what follows. None where there is none.
fn after_quote(alloc: Global, text: &[u8]) -> Result<Option<(Pick, &[u8])>, NoMemory>
    ensures { IfOk result (λ found.
        option_map (λ x. (x.0, x.1.now)) found ≡ option_and_then pick_quoted (file.text_to_quote text.now)) }
{
    match text_to_quote(alloc, text)? {
        Some((bytes, rest)) => pick_quoted(bytes, rest),
        None => Ok(None),
    }
}

/// The leaves at the front of a text, by an ID or a quoted text, and what follows. None where there are none.
pub fn pick_at_front(alloc: Global, text: &[u8]) -> Result<Option<(Pick, &[u8])>, NoMemory>
    ensures { IfOk result (λ found. option_map (λ x. (x.0, x.1.now)) found ≡ pick_at_front text.now) }
{
    if let [b'\'', rest @ ..] = text {
        return after_quote(alloc, rest);
    }
    let (word, rest) = cut(text);
    if !is_name(word) {
        return Ok(None);
    }
    Ok(Some((Pick::ById(name_of(alloc, word)?), rest)))
}
