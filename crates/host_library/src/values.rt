//! Values of blackboard entries, ports and facts.
ghost use Rattle.std.specs.Prelude.{◌≡◌, Some};
ghost use Rattle.std.specs.Option.{option_copied};
ghost use Rattle.host_library.specs.Texts.{TextTold};
ghost use Rattle.host_library.specs.Values as values;

use crate::text::copy_text;
use spec_script::Value;
use spec_tree::PortValue;

/// What is told of a value: its kind, how long its text is, and its number.
#[repr(C)]
#[derive(Clone, Copy, Debug)]
pub struct Valued {
    /// 0 where there is no value, 1 for a number, 2 for a text, 3 for the key of an entry.
    pub kind: u32,
    /// How many bytes the text or the key has.
    pub length: u32,
    /// The number.
    pub number: i64,
}

/// What is told where there is no value.
pub fn no_value() -> Valued
    ensures { result ≡ values.no_value }
{
    Valued {
        kind: 0,
        length: 0,
        number: 0,
    }
}

/// What is told of a number.
pub fn int_told(number: i64) -> Valued
    ensures { result ≡ values.int_told number }
{
    Valued {
        kind: 1,
        length: 0,
        number,
    }
}

/// What is told of a text or a key, by its kind. A length of more than 32 bits is told as the largest number of them.
fn text_told(kind: u32, text: &[u8]) -> Valued
    ensures { result ≡ values.text_told kind text.now }
{
    Valued {
        kind,
        length: text.len().min(u32::MAX as usize) as u32,
        number: 0,
    }
}

/// What is told of a value, if there is one.
pub fn value_told(value: Option<&Value>) -> Valued
    ensures { result ≡ values.value_told (option_copied value.entry) }
{
    match value {
        Some(Value::Int(n)) => int_told(*n),
        Some(Value::Text(text)) => text_told(2, text.list()),
        None => no_value(),
    }
}

/// Copies the text of a value, if it is one.
pub fn copy_value_text(value: Option<&Value>, room: &mut [u8]) -> usize
    ensures { TextTold (values.text_of (option_copied value.entry)) room.old result room.new }
{
    match value {
        Some(Value::Text(text)) => copy_text(text.list(), room),
        _ => 0,
    }
}

/// What is told of what a port is given.
pub fn given_told(given: &PortValue) -> Valued
    ensures { result ≡ values.given_told (Some given.now) }
{
    match given {
        PortValue::Lit(value) => value_told(Some(value)),
        PortValue::Key(key) => text_told(3, key.list()),
    }
}

/// Copies the text or the key that a port is given.
pub fn copy_given_text(given: &PortValue, room: &mut [u8]) -> usize
    ensures { TextTold (values.given_text (Some given.now)) room.old result room.new }
{
    match given {
        PortValue::Lit(value) => copy_value_text(Some(value), room),
        PortValue::Key(key) => copy_text(key.list(), room),
    }
}
