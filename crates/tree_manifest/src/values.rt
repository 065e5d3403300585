ghost use Rattle.std.specs.Prelude.{◌≡◌, true, IfOk, IsUtf8};
ghost use Rattle.spec_tree.specs.Values.{in_braces, key_said, key_value, literal, literal_value, value_in};

use base_tables::{int, int_fits, text_fits};
use base_texts::{Name, NoMemory, Txt};
use script_reader::is_identifier;
use spec_script::Value;
use spec_tree::{PortValue, Range};
use std::alloc::Global;

/// Whether the text begins with `{` and ends with `}`.
fn in_braces(text: &[u8]) -> bool
    ensures { result ≡ in_braces text.now }
{
    text.first() == Some(&b'{') && text.last() == Some(&b'}')
}

/// The key that a text in braces names at a port of this name: `{=}` names that of the port's own name.
fn key_said<'a>(port: &'a [u8], text: &'a [u8]) -> &'a [u8]
    requires { in_braces text.now ≡ true }
    ensures { result.now ≡ key_said port.now text.now }
{
    if text == b"{=}".as_slice() {
        port
    } else {
        &text[1..text.len() - 1]
    }
}

/// The key as a value. None where it is no identifier.
fn key_value(alloc: Global, key: &[u8]) -> Result<Option<PortValue>, NoMemory>
    ensures { IfOk result (λ value. value ≡ key_value key.now) }
{
    if !is_identifier(key) {
        return Ok(None);
    }
    Ok(Some(PortValue::Key(Name::copied(alloc, key)?)))
}

/// What a text that is not in braces says at a port of this range. None where it may not stand there.
fn literal(alloc: Global, range: Range, text: &[u8]) -> Result<Option<PortValue>, NoMemory>
    requires { IsUtf8 text.now }
    ensures { IfOk result (λ value. value ≡ literal_value range (literal text.now)) }
{
    match int(text) {
        Some(n) if int_fits(range, n) => Ok(Some(PortValue::Lit(Value::Int(n)))),
        None if text_fits(range, text) => {
            let text = Txt::of(Vec::from_slice(alloc, text)?)?;
            Ok(Some(PortValue::Lit(Value::Text(text))))
        }
        _ => Ok(None),
    }
}

/// What the text says at a port of this range and name. None where it may not stand there.
pub fn value(
    alloc: Global,
    range: Range,
    port: &[u8],
    text: &[u8],
) -> Result<Option<PortValue>, NoMemory>
    requires { IsUtf8 text.now }
    ensures { IfOk result (λ value. value ≡ value_in range port.now text.now) }
{
    if in_braces(text) {
        key_value(alloc, key_said(port, text))
    } else {
        literal(alloc, range, text)
    }
}
