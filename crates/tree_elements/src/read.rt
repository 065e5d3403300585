ghost use Rattle.std.specs.Prelude.{◌≡◌, ◌≤◌, IfOk, IsTrue, IsUtf8, length, drop};
ghost use Rattle.std.specs.Option.{MatchOption};
ghost use Rattle.std.specs.Str.{IsAscii};
ghost use Rattle.std.specs.Str.Lossy.{utf8_valid_len};
ghost use Rattle.base_texts.specs.Stops.{Gives};
ghost use Rattle.tree_elements.specs.Valid.{IsValid};
ghost use Rattle.spec_tree_file.specs.Elements.{Spells, order_mark_len};
ghost use Rattle.spec_tree_file.specs.ElementFaults.{ElementFaultOf};
ghost use Rattle.tree_elements.specs.WhenFault.{WhenFault};
ghost use Rattle.tree_elements.specs.Reading.{GivesAs, mark_at, read};

use crate::mark::{Mark, NoMark};
use crate::nest::Nest;
use crate::scan::{next_mark, text_at, white_len};
use base_texts::Stop;
use spec_tree_file::{Element, ElementFault, Elements};
use std::alloc::Global;

/// The element that the bytes spell, or their fault. A file that is not UTF-8 has that fault. Of other faults
/// the first along the file counts, and of one mark the first of `BadMark`, `DoubleAttribute`, `Unmatched`, `TooDeep`.
pub fn read_elements(alloc: Global, bytes: &[u8]) -> Result<Elements, Stop<ElementFault>>
    requires { length bytes.now ≤ 1048576 }

    ensures read { IfOk result (λ elements. Spells bytes.now elements.root) }
    ensures fault { WhenFault result (λ fault. ElementFaultOf bytes.now fault) }
    ensures valid { IfOk result (λ elements. IsValid elements.root) }
{
    match utf8_fault(bytes) {
        None => {
            let root = document(alloc, bytes)?;
            Ok(Elements { root })
        }
        Some(place) => Err(Stop::Fault(ElementFault::NotUtf8 { place })),
    }
}

/// Whether all bytes are ASCII. It tests nothing on the way, so that many bytes are taken at once.
fn all_ascii(bytes: &[u8]) -> bool
    ensures { IsTrue result → IsAscii bytes.now }
{
    let mut all = 0;
    for byte in bytes {
        all |= *byte;
    }
    all < 128
}

/// The length of the longest prefix that is UTF-8, where not all is; else none.
fn utf8_fault(bytes: &[u8]) -> Option<u32>
    requires { length bytes.now ≤ 1048576 }
    ensures { MatchOption result (IsUtf8 bytes.now) (λ place. ¬ (IsUtf8 bytes.now) × (place ≡ utf8_valid_len bytes.now)) }
{
    if all_ascii(bytes) {
        return None;
    }
    match std::str::from_utf8(bytes) {
        Ok(_) => None,
        Err(error) => Some(error.valid_up_to() as u32),
    }
}

/// What follows a byte order mark at the front, or all where there is none.
fn after_order_mark(bytes: &[u8]) -> &[u8]
    requires { IsUtf8 bytes.now }
    ensures value { result.now ≡ drop (order_mark_len bytes.now) bytes.now }
    ensures within { length result.now ≤ length bytes.now }
    ensures utf8 { IsUtf8 result.now }
{
    if bytes.starts_with(b"\xEF\xBB\xBF") {
        let (_, rest) = bytes.split_at(3);
        rest
    } else {
        bytes
    }
}

/// The mark after the `<` that stands at this place, and what follows it. The fault `BadMark` where there is none.
fn mark_after(alloc: Global, bytes: &[u8], place: u32) -> Result<(Mark, &[u8]), Stop<ElementFault>>
    requires { IsUtf8 bytes.now }
    ensures read { GivesAs (λ x. (x.0, x.1.now)) result (mark_at place bytes.now) }
    ensures within { IfOk result (λ x. length x.1.now ≤ length bytes.now) }
    ensures utf8 { IfOk result (λ x. IsUtf8 x.1.now) }
{
    match next_mark(alloc, bytes) {
        Ok(found) => Ok(found),
        Err(Stop::Fault(NoMark)) => Err(Stop::Fault(ElementFault::BadMark { place })),
        Err(Stop::NoMemory) => Err(Stop::NoMemory),
    }
}

/// The document element, or the fault of a file that is UTF-8.
fn document(alloc: Global, bytes: &[u8]) -> Result<Element, Stop<ElementFault>>
    requires few { length bytes.now ≤ 1048576 }
    requires utf8 { IsUtf8 bytes.now }
    ensures { Gives result (read bytes.now) }
{
    let mut nest = Nest::new(alloc);
    let mut rest = after_order_mark(bytes);
    'marks: loop {
        let (text, marks) = text_at(rest);
        if !nest.allows(text) {
            let place = (bytes.len() - rest.len() + white_len(text)) as u32;
            return Err(Stop::Fault(ElementFault::StrayText { place }));
        }
        let place = (bytes.len() - marks.len()) as u32;
        let Some((_, inner)) = marks.split_first() else {
            return nest.finish(place);
        };
        let (mark, next) = mark_after(alloc, inner, place)?;
        nest.take(alloc, mark, place)?;
        rest = next;
    }
}
