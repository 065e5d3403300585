ghost use Rattle.std.specs.Prelude.{◌≡◌, ◌+◌, ◌≤◌, ◌<◌, ◌==◌, true, IfOk, IfSome, length, option_and_then, option_map, map};
ghost use Rattle.std.specs.List.{position_or_len};
ghost use Rattle.spec_world_file.specs.WorldFile as file;
ghost use Rattle.spec_world_file.specs.WorldFile.{ReadsTold, after_sign, before_sign, text_value};
ghost use Rattle.world_lines.specs.Written.{FindsOut, seen_out, seen_value};

use crate::lines::{after_gap, is_apart, word_len};
use crate::names::{is_name, name_of};
use crate::quoted::text_to_quote;
use crate::values::{Numeral, Written, WrittenOut};
use base_tables::is_canonical;
use base_texts::{Name, NoMemory};
use std::alloc::Global;

/// The quoted text from after its first quote on, and what follows it. None where there is none, or where it is not UTF-8.
fn quoted(alloc: Global, text: &[u8]) -> Result<Option<(Written, &[u8])>, NoMemory>
    ensures found { IfOk result (λ found.
        option_map (λ x. (seen_value x.0, x.1.now)) found ≡ option_and_then text_value (file.text_to_quote text.now)) }
    ensures within { IfOk result (λ found. IfSome found (λ x. length x.1.now ≤ length text.now)) }
{
    match text_to_quote(alloc, text)? {
        Some((bytes, rest)) => match str::from_utf8(bytes.as_slice()) {
            Ok(_) => Ok(Some((Written::Text(Name::of(bytes)?), rest))),
            Err(_) => Ok(None),
        },
        None => Ok(None),
    }
}

/// The value at the front, and what follows it. None where there is none.
fn value_at_front(alloc: Global, text: &[u8]) -> Result<Option<(Written, &[u8])>, NoMemory>
    ensures found { IfOk result (λ found. option_map (λ x. (seen_value x.0, x.1.now)) found ≡ file.value_at_front text.now) }
    ensures within { IfOk result (λ found. IfSome found (λ x. length x.1.now ≤ length text.now)) }
{
    if let [b'\'', rest @ ..] = text {
        return quoted(alloc, rest);
    }
    let (word, rest) = text.split_at(word_len(text));
    if is_canonical(word) {
        Ok(Some((Written::Number(Numeral::of(word)), rest)))
    } else {
        Ok(None)
    }
}

/// How many bytes stand before the first `=`.
fn name_len(text: &[u8]) -> usize
    ensures { result ≡ position_or_len (λ b. b == 61) text.now }
{
    text.iter().take_while(|b| **b != b'=').count()
}

/// What stands before the first `=`, and what stands after it.
fn around_sign(text: &[u8]) -> (&[u8], &[u8])
    ensures before { result.0.now ≡ before_sign text.now }
    ensures after { result.1.now ≡ after_sign text.now }
    ensures within { length result.0.now + length result.1.now ≤ length text.now }
{
    let (before, rest) = text.split_at(name_len(text));
    match rest.split_first() {
        Some((_, after)) => (before, after),
        None => (before, rest),
    }
}

/// The output at the front, written `NAME=VALUE`, and what follows it. None where there is none.
fn out_at_front(alloc: Global, text: &[u8]) -> Result<Option<(WrittenOut, &[u8])>, NoMemory>
    ensures found { IfOk result (λ found. FindsOut text.now (option_map (λ x. (seen_out x.0, x.1.now)) found)) }
    ensures within { IfOk result (λ found. IfSome found (λ x. length x.1.now < length text.now)) }
{
    let (port, after) = around_sign(text);
    if !is_name(port) {
        return Ok(None);
    }
    match value_at_front(alloc, after)? {
        Some((value, rest)) => {
            if !is_apart(rest) {
                drop(value);
                return Ok(None);
            }
            let port = name_of(alloc, port)?;
            Ok(Some((WrittenOut { port, value }, rest)))
        }
        None => Ok(None),
    }
}

/// The outputs that the text is, with gaps between them. None where it is not of that form.
pub fn outs_in(alloc: Global, text: &[u8]) -> Result<Option<Vec<WrittenOut>>, NoMemory>
    ensures { IfOk result (λ outs. ReadsTold text.now (option_map (λ v. map seen_out v.items) outs)) }
{
    let mut outs = Vec::new(alloc);
    let mut rest = text;
    'outs: while !rest.is_empty() {
        match out_at_front(alloc, rest)? {
            Some((out, after)) => {
                outs.push(out)?;
                rest = after_gap(after);
            }
            None => return Ok(None),
        }
    }
    Ok(Some(outs))
}
