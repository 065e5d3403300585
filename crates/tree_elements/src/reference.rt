ghost use Rattle.std.specs.Prelude.{◌≡◌, ◌+◌, ◌≤◌, ◌++◌, IfOk, IsTrue, IsUtf8, Some, None, if◌then◌else◌, length};
ghost use Rattle.std.specs.Char.{encode_utf8, is_digit};
ghost use Rattle.std.specs.List.{prefix_len, list_all};
ghost use Rattle.std.specs.Str.Parse.{digits_value};
ghost use Rattle.spec_tree_file.specs.References.{is_plain_byte, is_character, numeric as numeric_of, reference_of, decoded};

use base_texts::{Name, NoMemory};
use std::alloc::Global;

/// Whether the byte is not `&`, so that it begins no reference.
fn plain_byte(c: u8) -> bool
    ensures { result ≡ is_plain_byte c }
{
    c != b'&'
}

/// How many bytes stand before the first `&`.
#[tactic(auto, using(crate::proofs::Prefixes::prefixes))]
fn plain_len(bytes: &[u8]) -> usize
    ensures value { result ≡ prefix_len is_plain_byte bytes.now }
    ensures within { result ≤ length bytes.now }
{
    bytes.iter().take_while(|c| plain_byte(**c)).count()
}

/// Whether the byte is a digit of this base, 10 or 16.
fn digit(c: u8, base: u32) -> bool
    requires { (2 ≤ base) × (base ≤ 16) }
    ensures { result ≡ is_digit c base }
{
    char::from(c).is_digit(base)
}

/// How many digits of this base stand at the front.
#[tactic(auto, using(crate::proofs::Prefixes::prefixes))]
fn digits_len(bytes: &[u8], base: u32) -> usize
    requires { (2 ≤ base) × (base ≤ 16) }
    ensures value { result ≡ prefix_len (λ c. is_digit c base) bytes.now }
    ensures within { result ≤ length bytes.now }
{
    bytes.iter().take_while(|c| digit(**c, base)).count()
}

/// The character of this number. None where it is 0, a surrogate, or above 0x10FFFF.
fn numbered(digits: &[u8], base: u32) -> Option<char>
    requires base { (2 ≤ base) × (base ≤ 16) }
    requires digits { IsTrue (list_all (λ c. is_digit c base) digits.now) }
    ensures { result ≡ (if is_character (digits_value base digits.now) then Some (digits_value base digits.now) else None) }
{
    let mut n: u32 = 0;
    'digits: for c in digits {
        n = n * base + char::from(*c).to_digit(base)?;
        if n > 0x10FFFF {
            return None;
        }
    }
    if n == 0 {
        return None;
    }
    char::from_u32(n)
}

/// The character of the numeric reference whose digits stand at the front, and how many bytes it has with the
/// `before` bytes before them. None where it is no reference.
fn numeric(bytes: &[u8], base: u32, before: usize) -> Option<(char, usize)>
    requires base { (2 ≤ base) × (base ≤ 16) }
    requires few { before ≤ 2 }
    ensures { result ≡ numeric_of base before bytes.now }
{
    let len = digits_len(bytes, base);
    let (digits, rest) = bytes.split_at(len);
    if !rest.starts_with(b";") {
        return None;
    }
    let c = numbered(digits, base)?;
    Some((c, before + len + 1))
}

/// The character of the reference after an `&`, and how many bytes it has there. None where it is no reference.
fn reference_at(bytes: &[u8]) -> Option<(char, usize)>
    ensures { result ≡ reference_of bytes.now }
{
    if bytes.starts_with(b"lt;") {
        Some(('<', 3))
    } else if bytes.starts_with(b"gt;") {
        Some(('>', 3))
    } else if bytes.starts_with(b"amp;") {
        Some(('&', 4))
    } else if bytes.starts_with(b"quot;") {
        Some(('"', 5))
    } else if bytes.starts_with(b"apos;") {
        Some(('\'', 5))
    } else if bytes.starts_with(b"#x") {
        let (_, digits) = bytes.split_at(2);
        numeric(digits, 16, 2)
    } else if bytes.starts_with(b"#") {
        let (_, digits) = bytes.split_at(1);
        numeric(digits, 10, 1)
    } else {
        None
    }
}

/// Puts the character at the end, as UTF-8. `NoMemory` where the text cannot grow.
fn push(said: &mut Vec<u8>, c: char) -> Result<(), NoMemory>
    ensures { IfOk result (λ _. said.new.items ≡ said.old.items ++ encode_utf8 c) }
{
    let mut room = [0; 4];
    said.extend_from_slice(c.encode_utf8(&mut room).as_bytes())?;
    Ok(())
}

/// Whether no reference begins in the value.
fn is_plain(value: &[u8]) -> bool
    ensures { result ≡ list_all is_plain_byte value.now }
{
    value.iter().all(|c| plain_byte(*c))
}

/// What a value says: each reference in it stands for its character. `NoMemory` where an allocation fails.
#[tactic(auto, using(crate::proofs::References::all_plain))]
pub fn decode(alloc: Global, value: &[u8]) -> Result<Name, NoMemory>
    requires { IsUtf8 value.now }
    ensures { IfOk result (λ name. name ≡ decoded value.now) }
{
    if is_plain(value) {
        return Ok(Name::copied(alloc, value)?);
    }
    decode_references(alloc, value)
}

/// What a value says, part by part.
fn decode_references(alloc: Global, value: &[u8]) -> Result<Name, NoMemory>
    requires { IsUtf8 value.now }
    ensures { IfOk result (λ name. name ≡ decoded value.now) }
{
    let mut said = Vec::with_capacity(alloc, value.len())?;
    let mut rest = value;
    'parts: loop {
        let (plain, marked) = rest.split_at(plain_len(rest));
        said.extend_from_slice(plain)?;
        let Some((_, following)) = marked.split_first() else {
            return Name::of(said);
        };
        match reference_at(following) {
            Some((c, len)) => {
                push(&mut said, c)?;
                let (_, more) = following.split_at(len);
                rest = more;
            }
            None => {
                said.push(b'&')?;
                rest = following;
            }
        }
    }
}
