//! A JSON value, of which only that is kept what rules can say.

ghost use Rattle.std.specs.Prelude.{◌≡◌, ◌<◌, ◌≤◌, ◌==◌, IfOk, IsTrue, OnOk, Some, None, false, length, option_map, slice_index, true};
ghost use Rattle.json.specs.Json.{items, members, value};
ghost use Rattle.serde_json.specs.Data.{Data, Items, Members, no_members};
ghost use Rattle.serde_json.specs.Find.{as_u64};
ghost use Rattle.serde_json.specs.Read.{converted, float_of, number_from, number_of, of_items, of_json, of_members, read as value_in};
ghost use Rattle.serde_json.specs.View.{members_view, view};
ghost use Rattle.spec_tree_file.specs.RuleFiles.{json_of};
ghost use Rattle.tree_mock.specs.Asked.{Agree, IsFault, Keeps, Shows, asked};

use base_texts::Stop;
use fast_float::Numeral;
use json::{Invalid, Reader, Scratch, Token};
use serde_json::{Map, Number, Value};
use spec_tree_file::MockFault;
use std::alloc::Global;

/// How deep arrays and objects may nest.
const MOST_NESTED: usize = 127;

/// How many objects in one another rules are read of: the document, its two members, and a configuration.
const LEVELS: usize = 3;

/// Whether a minus comes first.
fn has_minus(bytes: &[u8]) -> bool
    ensures value { result ≡ (slice_index bytes.now 0 == 45) }
    ensures len { IsTrue result → 0 < length bytes.now }
{
    !bytes.is_empty() && bytes[0] == b'-'
}

/// What a number in the range of floats is that is no whole one: none. None where it is out of range.
fn float_in(negative: bool, numeral: &Numeral<'_>) -> Option<Option<u64>>
    ensures { result ≡ option_map as_u64 (float_of negative numeral.now) }
{
    if numeral.to_float::<f64>(negative).is_finite() {
        Some(None)
    } else {
        None
    }
}

/// A number without a minus, where it is a whole one. None where it is out of range.
fn positive_in(numeral: &Numeral<'_>) -> Option<Option<u64>>
    ensures { result ≡ option_map as_u64 (number_from false numeral.now) }
{
    match numeral.to_u64() {
        Some(number) => Some(Some(number)),
        None => float_in(false, numeral),
    }
}

/// A number after a minus, which is none of these. None where it is out of range.
fn negative_in(numeral: &Numeral<'_>) -> Option<Option<u64>>
    ensures { result ≡ option_map as_u64 (number_from true numeral.now) }
{
    if let Some(number) = numeral.to_i64(true) {
        if number < 0 {
            return Some(None);
        }
    }
    float_in(true, numeral)
}

/// The number of a text, where it is a whole one of 64 bits. None where it is out of range.
fn number_in(text: &str) -> Option<Option<u64>>
    ensures { result ≡ option_map as_u64 (number_of text.now) }
{
    let bytes = text.as_bytes();
    if has_minus(bytes) {
        negative_in(&Numeral::scan(&bytes[1..]))
    } else {
        positive_in(&Numeral::scan(bytes))
    }
}

/// Whether members of this name are kept of an object, of which so many levels are asked: of a document two names, of its
/// members all, and of a configuration three.
fn is_asked(levels: usize, name: &str) -> bool
    ensures { result ≡ asked levels name.now }
{
    match levels {
        0 => false,
        1 => matches!(name, "return_status" | "async_delay" | "post_script"),
        2 => true,
        _ => matches!(name, "TestNodeConfigs" | "SubstitutionRules"),
    }
}

/// The next value, of which so many levels are asked. Arrays and objects may nest so deep.
#[cycle(read)]
fn read(
    alloc: Global,
    reader: &mut Reader<'_>,
    depth: usize,
    levels: usize,
) -> Result<Value, Stop<Invalid>>
    ensures ok { IfOk result (λ v. (d : Data) ×
        (converted of_json (value depth reader.old) ≡ Some (d, reader.new)) × Shows levels (view v) d) }
    ensures shorter { OnOk result (length reader.new < length reader.old) }
    ensures fault { IsFault result → converted of_json (value depth reader.old) ≡ None }
{
    let Some(token) = reader.next() else {
        return Err(Stop::Fault(Invalid));
    };
    match token {
        Token::String(text) => Ok(Value::String(String::from_str(alloc, text)?)),
        Token::Number(text) => match number_in(text) {
            Some(Some(number)) => Ok(Value::Number(Number::from(number))),
            Some(None) => Ok(Value::Null),
            None => Err(Stop::Fault(Invalid)),
        },
        Token::Bool(truth) => Ok(Value::Bool(truth)),
        Token::Null => Ok(Value::Null),
        Token::EndObject | Token::EndArray | Token::Key(_) | Token::Bad => {
            Err(Stop::Fault(Invalid))
        }
        Token::BeginArray => {
            if depth == 0 {
                return Err(Stop::Fault(Invalid));
            }
            pass_items(alloc, reader, depth - 1)?;
            Ok(Value::Null)
        }
        Token::BeginObject => {
            if depth == 0 {
                return Err(Stop::Fault(Invalid));
            }
            Ok(Value::Object(read_members(alloc, reader, depth - 1, levels)?))
        }
    }
}

/// Passes over the items of an array, which rules have none of.
#[cycle(read)]
#[inline(never)]
fn pass_items(alloc: Global, reader: &mut Reader<'_>, depth: usize) -> Result<(), Stop<Invalid>>
    ensures ok { OnOk result ((ds : Items) ×
        (converted of_items (items (value depth) (length reader.old) reader.old) ≡ Some (ds, reader.new))) }
    ensures shorter { OnOk result (length reader.new < length reader.old) }
    ensures fault { IsFault result → converted of_items (items (value depth) (length reader.old) reader.old) ≡ None }
{
    'items: while !reader.take_end_array() {
        drop(read(alloc, reader, depth, 0)?);
    }
    Ok(())
}

/// The members of an object that are kept.
#[cycle(read)]
#[inline(never)]
fn read_members(
    alloc: Global,
    reader: &mut Reader<'_>,
    depth: usize,
    levels: usize,
) -> Result<Map<String, Value>, Stop<Invalid>>
    ensures ok { IfOk result (λ m. (ms : Members) × (converted (λ js. of_members js no_members)
        (members (value depth) (length reader.old) reader.old) ≡ Some (ms, reader.new)) × Agree levels (members_view m.entries) ms) }
    ensures shorter { OnOk result (length reader.new < length reader.old) }
    ensures fault { IsFault result
        → converted (λ js. of_members js no_members) (members (value depth) (length reader.old) reader.old) ≡ None }
{
    let mut found = Map::new(alloc);
    'members: loop {
        let Ok(key) = reader.next_key() else {
            return Err(Stop::Fault(Invalid));
        };
        let Some(name) = key else {
            return Ok(found);
        };
        let member = read(alloc, reader, depth, levels.saturating_sub(1))?;
        if is_asked(levels, name) {
            let key = String::from_str(alloc, name)?;
            drop(found.insert(key, member)?);
        } else {
            drop(member);
        }
    }
}

/// What rules can say of a whole text.
fn read_text(alloc: Global, text: &str) -> Result<Value, Stop<Invalid>>
    ensures ok { IfOk result (λ v. (d : Data) × (value_in text.now ≡ Some d) × Shows 3 (view v) d) }
    ensures fault { IsFault result → value_in text.now ≡ None }
{
    let mut scratch = Scratch::new(alloc);
    let mut reader = Reader::new(text, &mut scratch)?;
    let value = read(alloc, &mut reader, MOST_NESTED, LEVELS)?;
    if reader.next().is_some() {
        return Err(Stop::Fault(Invalid));
    }
    Ok(value)
}

/// What rules can say of the value of a JSON text. The fault `Json` where the bytes are none.
pub fn json_in(alloc: Global, bytes: &[u8]) -> Result<Value, Stop<MockFault>>
    ensures { Keeps result (json_of bytes.now) }
{
    let Ok(text) = str::from_utf8(bytes) else {
        return Err(Stop::Fault(MockFault::Json));
    };
    match read_text(alloc, text) {
        Ok(value) => Ok(value),
        Err(Stop::Fault(Invalid)) => Err(Stop::Fault(MockFault::Json)),
        Err(Stop::NoMemory) => Err(Stop::NoMemory),
    }
}
