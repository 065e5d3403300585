ghost use Rattle.std.specs.Prelude.{◌≡◌, Some, true};
ghost use Rattle.std.specs.List.{list_all};
ghost use Rattle.spec_world_file.specs.WorldFile.{AfterForm, FailsLine, NameLine, NeedsLine, how_in, is_line_byte, name_line, out_line, sets_line};
ghost use Rattle.world_draft.specs.Readings.{Leaves};

use base_tables::is_canonical;
use base_texts::Stop;
use spec_world::{How, Out, Set};
use spec_world_file::WorldFaultKind;
use std::alloc::Global;
use world_draft::Reading;
use world_lines::{cut, int, is, is_name, name_of, numeric};

/// Reads `fails EXPR`, from after `fails`; so below.
pub fn read_fails(
    alloc: Global,
    reading: &mut Reading,
    text: &[u8],
) -> Result<(), Stop<WorldFaultKind>>
    requires { list_all is_line_byte text.now ≡ true }
    ensures { Leaves result reading.new (AfterForm reading.old (Some (FailsLine text.now))) }
{
    match numeric(alloc, text)? {
        Some(expr) => reading.add_fails(expr),
        None => Err(Stop::Fault(WorldFaultKind::BadLine)),
    }
}

/// Reads `needs ID`.
pub fn read_need(reading: &mut Reading, text: &[u8]) -> Result<(), Stop<WorldFaultKind>>
    ensures { Leaves result reading.new (AfterForm reading.old (name_line NeedsLine text.now)) }
{
    let (id, rest) = cut(text);
    if !is_name(id) || !rest.is_empty() || !reading.is_modelled() {
        return Err(Stop::Fault(WorldFaultKind::BadLine));
    }
    match reading.comparison_number(id) {
        Some(number) => reading.add_need(number),
        None => Err(Stop::Fault(WorldFaultKind::NoName)),
    }
}

/// How an effect changes its fact, by the sign of its line. None where it is no such sign.
fn how_of(sign: &[u8]) -> Option<How>
    ensures { result ≡ how_in sign.now }
{
    if is(sign, "=") {
        Some(How::To)
    } else if is(sign, "+=") {
        Some(How::By)
    } else {
        None
    }
}

/// Reads `sets NAME = INT` or `sets NAME += INT`.
pub fn read_effect(reading: &mut Reading, text: &[u8]) -> Result<(), Stop<WorldFaultKind>>
    ensures { Leaves result reading.new (AfterForm reading.old (sets_line text.now)) }
{
    let (name, rest) = cut(text);
    let (sign, rest) = cut(rest);
    let (number, rest) = cut(rest);
    if !is_name(name) || !rest.is_empty() {
        return Err(Stop::Fault(WorldFaultKind::BadLine));
    }
    let Some(how) = how_of(sign) else {
        return Err(Stop::Fault(WorldFaultKind::BadLine));
    };
    if !is_canonical(number) || !reading.is_modelled() {
        return Err(Stop::Fault(WorldFaultKind::BadLine));
    }
    let Some(value) = int(number) else {
        return Err(Stop::Fault(WorldFaultKind::Range));
    };
    match reading.fact_number(name) {
        Some(fact) => reading.add_set(Set { fact, how, value }),
        None => Err(Stop::Fault(WorldFaultKind::NoName)),
    }
}

/// Reads `out PORT = EXPR` or `out PORT`.
pub fn read_out(
    alloc: Global,
    reading: &mut Reading,
    text: &[u8],
) -> Result<(), Stop<WorldFaultKind>>
    requires { list_all is_line_byte text.now ≡ true }
    ensures { Leaves result reading.new (AfterForm reading.old (out_line text.now)) }
{
    let (port, rest) = cut(text);
    let (sign, rest) = cut(rest);
    if !is_name(port) || !is(sign, "=") {
        return read_name(alloc, reading, text);
    }
    match numeric(alloc, rest)? {
        Some(expr) => {
            let port = name_of(alloc, port)?;
            reading.add_out(Out { port, expr })
        }
        None => Err(Stop::Fault(WorldFaultKind::BadLine)),
    }
}

/// Reads `out PORT`, of an output for which a value may be told.
fn read_name(alloc: Global, reading: &mut Reading, text: &[u8]) -> Result<(), Stop<WorldFaultKind>>
    ensures { Leaves result reading.new (AfterForm reading.old (name_line NameLine text.now)) }
{
    let (port, rest) = cut(text);
    if !is_name(port) || !rest.is_empty() {
        return Err(Stop::Fault(WorldFaultKind::BadLine));
    }
    let port = name_of(alloc, port)?;
    reading.add_name(alloc, port)
}
