ghost use Rattle.std.specs.Prelude.{◌≡◌, ◌≤◌, length, IfOk, IfSome, option_map};
ghost use Rattle.spec_world_file.specs.WorldFile as file;
ghost use Rattle.spec_world_file.specs.WorldFile.{digit_value};
ghost use Rattle.world_lines.specs.Quotes.{EscapeAtFront, ByteAtFront, byte_of};

use base_texts::NoMemory;
use std::alloc::Global;

/// The number that a hexadecimal digit stands for. None where it is none; its letters are small.
fn digit(byte: u8) -> Option<u8>
    ensures { result ≡ digit_value byte }
{
    match byte {
        b'0'..=b'9' => Some(byte - b'0'),
        b'a'..=b'f' => Some(byte - b'a' + 10),
        _ => None,
    }
}

/// The byte of two hexadecimal digits. None where one of them is none.
fn byte_in(high: u8, low: u8) -> Option<u8>
    ensures { result ≡ byte_of (digit_value high) (digit_value low) }
{
    Some(digit(high)? * 16 + digit(low)?)
}

/// The byte that stands after a backslash, and what follows it. None where no escape stands there.
fn escaped(text: &[u8]) -> Option<(u8, &[u8])>
    ensures { EscapeAtFront text.now (option_map (λ x. (x.0, x.1.now)) result) }
{
    match text {
        [b'x', high, low, rest @ ..] => Some((byte_in(*high, *low)?, rest)),
        [b'n', rest @ ..] => Some((b'\n', rest)),
        [byte, rest @ ..] if *byte == b'\'' || *byte == b'\\' => Some((*byte, rest)),
        _ => None,
    }
}

/// The byte at the front of what is quoted, and what follows it. None at the last quote, and where no byte stands.
fn byte_at_front(text: &[u8]) -> Option<(u8, &[u8])>
    ensures { ByteAtFront text.now (option_map (λ x. (x.0, x.1.now)) result) }
{
    match text {
        [b'\'', ..] => None,
        [b'\\', rest @ ..] => escaped(rest),
        [byte, rest @ ..] if *byte >= b' ' && *byte <= b'~' => Some((*byte, rest)),
        _ => None,
    }
}

/// The text from after its first quote on, and what follows its last one. None where no text ends there.
pub fn text_to_quote(alloc: Global, text: &[u8]) -> Result<Option<(Vec<u8>, &[u8])>, NoMemory>
    ensures found { IfOk result (λ found. option_map (λ x. (x.0.items, x.1.now)) found ≡ file.text_to_quote text.now) }
    ensures within { IfOk result (λ found. IfSome found (λ x. length x.1.now ≤ length text.now)) }
{
    let mut bytes = Vec::new(alloc);
    let mut rest = text;
    'bytes: while let Some((byte, more)) = byte_at_front(rest) {
        bytes.push(byte)?;
        rest = more;
    }
    match rest {
        [b'\'', after @ ..] => Ok(Some((bytes, after))),
        _ => Ok(None),
    }
}
