ghost use Rattle.std.specs.Prelude.{◌≡◌, ◌<◌, ◌≤◌, [], ◌++◌, IfOk, OnOk, decimal, length};
ghost use Rattle.std.specs.Fmt.{signed_decimal};
ghost use Rattle.std.specs.List.{flat_map, prefix_len};
ghost use Rattle.spec_output.specs.Lines.{hex_digit, quoted, quoted_byte};
ghost use Rattle.text_lines.specs.Escaping.{is_plain_in_quotes};

use base_texts::NoMemory;
use itoa::Buffer;
use std::alloc::Global;

/// The room that a line has at first. Most lines need no more and do not grow.
const LINE_ROOM: usize = 256;

/// A line that has no bytes yet, or want of memory.
pub fn empty_line(alloc: Global) -> Result<Vec<u8>, NoMemory>
    ensures { IfOk result (λ line. line.items ≡ []) }
{
    Ok(Vec::with_capacity(alloc, LINE_ROOM)?)
}

/// Adds the bytes. It is inlined, since most calls add a short constant, which is then a single
/// store. The error is want of memory.
#[inline]
pub fn put_bytes(out: &mut Vec<u8>, bytes: &[u8]) -> Result<(), NoMemory>
    ensures { OnOk result (out.new.items ≡ out.old.items ++ bytes.now) }
{
    out.extend_from_slice(bytes)?;
    Ok(())
}

/// Adds the number in decimal. The error is want of memory.
pub fn put_number(out: &mut Vec<u8>, number: u64) -> Result<(), NoMemory>
    ensures { OnOk result (out.new.items ≡ out.old.items ++ decimal number) }
{
    let mut buffer = Buffer::new();
    put_bytes(out, buffer.format(number).as_bytes())
}

/// Adds the signed number in decimal. The error is want of memory.
pub fn put_signed(out: &mut Vec<u8>, number: i64) -> Result<(), NoMemory>
    ensures { OnOk result (out.new.items ≡ out.old.items ++ signed_decimal number) }
{
    let mut buffer = Buffer::new();
    put_bytes(out, buffer.format(number).as_bytes())
}

/// Adds the text in single quotes, with escapes for quotes, backslashes and bytes below 32. The
/// error is want of memory.
pub fn put_quoted(out: &mut Vec<u8>, text: &[u8]) -> Result<(), NoMemory>
    ensures { OnOk result (out.new.items ≡ out.old.items ++ quoted text.now) }
{
    put_bytes(out, b"'")?;
    put_escaped(out, text)?;
    put_bytes(out, b"'")
}

/// Whether the byte stands for itself in a text between single quotes.
fn is_plain(byte: u8) -> bool
    ensures { result ≡ is_plain_in_quotes byte }
{
    !(byte == b'\'' || byte == b'\\' || byte < 32)
}

/// How many bytes at the front stand for themselves.
#[tactic(auto, using(crate::proofs::Escaping::prefixes))]
fn plain_len(text: &[u8]) -> usize
    ensures value { result ≡ prefix_len is_plain_in_quotes text.now }
    ensures within { result ≤ length text.now }
{
    text.iter().take_while(|byte| is_plain(**byte)).count()
}

/// Adds the bytes of a text between single quotes: what stands for itself is added part by part. The
/// error is want of memory.
fn put_escaped(out: &mut Vec<u8>, text: &[u8]) -> Result<(), NoMemory>
    ensures { OnOk result (out.new.items ≡ out.old.items ++ flat_map quoted_byte text.now) }
{
    let mut rest = text;
    'parts: loop {
        let (plain, marked) = rest.split_at(plain_len(rest));
        put_bytes(out, plain)?;
        let Some((byte, more)) = marked.split_first() else {
            return Ok(());
        };
        put_byte(out, *byte)?;
        rest = more;
    }
}

/// Adds a byte of a text between single quotes, escaped where it has to be. The error is want of
/// memory.
fn put_byte(out: &mut Vec<u8>, byte: u8) -> Result<(), NoMemory>
    ensures { OnOk result (out.new.items ≡ out.old.items ++ quoted_byte byte) }
{
    if byte == b'\'' {
        put_bytes(out, b"\\'")
    } else if byte == b'\\' {
        put_bytes(out, b"\\\\")
    } else if byte == b'\n' {
        put_bytes(out, b"\\n")
    } else if byte < 32 {
        put_bytes(out, b"\\x")?;
        put_bytes(out, &[hex_digit(byte / 16), hex_digit(byte % 16)])
    } else {
        put_bytes(out, &[byte])
    }
}

/// The digit of a number below 16, as a byte.
fn hex_digit(number: u8) -> u8
    requires { number < 16 }
    ensures { result ≡ hex_digit number }
{
    b"0123456789abcdef"[number as usize]
}
