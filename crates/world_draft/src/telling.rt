ghost use Rattle.std.specs.Prelude.{◌≡◌, ◌||◌, IfOk, [], length, map, nat_lt, true, false};
ghost use Rattle.std.specs.List.{list_all, list_any};
ghost use Rattle.spec_world_file.specs.WorldFile as file;
ghost use Rattle.spec_world_file.specs.WorldFile.{repeats};
ghost use Rattle.world_lines.specs.Written.{seen_out, seen_value};
ghost use Rattle.world_draft.specs.Tellings.{OutsSay};

use base_tables::{MOST_OUTPUTS, MOST_TEXT_BYTES};
use base_texts::{Items, NoMemory, Stop, Txt};
use indexmap::IndexSet;
use spec_script::Value;
use spec_world::ToldOut;
use spec_world_file::WorldFaultKind;
use std::alloc::Global;
use world_lines::{Written, WrittenOut};

/// Whether the value is no number outside 64 bits.
fn is_small(value: &Written) -> bool
    ensures { result ≡ file.is_small (seen_value value.now) }
{
    match value {
        Written::Number(number) => number.int().is_some(),
        Written::Text(_) => true,
    }
}

/// Whether the value is a text that is too long.
fn is_long(value: &Written) -> bool
    ensures { result ≡ file.is_long (seen_value value.now) }
{
    match value {
        Written::Number(_) => false,
        Written::Text(text) => text.list().len() > MOST_TEXT_BYTES,
    }
}

/// Whether no value is a number outside 64 bits.
fn are_small(outs: &[WrittenOut]) -> bool
    ensures { result ≡ list_all (λ out. file.is_small (seen_value out.value)) outs.now }
{
    outs.iter().all(|out| is_small(&out.value))
}

/// Whether some value is a text that is too long.
fn some_long(outs: &[WrittenOut]) -> bool
    ensures { result ≡ list_any (λ out. file.is_long (seen_value out.value)) outs.now }
{
    outs.iter().any(|out| is_long(&out.value))
}

/// Whether there are too many outputs, or some value is a text that is too long.
fn are_many(outs: &[WrittenOut]) -> bool
    ensures { result ≡ (nat_lt 8 (length outs.now) || list_any (λ out. file.is_long (seen_value out.value)) outs.now) }
{
    outs.len() > MOST_OUTPUTS || some_long(outs)
}

/// Whether an output stands twice.
fn has_double(alloc: Global, outs: &[WrittenOut]) -> Result<bool, NoMemory>
    ensures { IfOk result (λ double. double ≡ repeats [] (map (λ out. out.port) outs.now)) }
{
    let mut set = IndexSet::new(alloc);
    for out in outs {
        let key = Vec::from_slice(alloc, out.port.list())?;
        if !set.insert(key)? {
            return Ok(true);
        }
    }
    Ok(false)
}

/// The value that is written, which fits.
fn value_of(alloc: Global, value: &Written) -> Result<Value, NoMemory>
    requires small { file.is_small (seen_value value.now) ≡ true }
    requires short { file.is_long (seen_value value.now) ≡ false }
    ensures { IfOk result (λ v. v ≡ seen_value value.now) }
{
    match value {
        Written::Number(number) => Ok(Value::Int(number.int().unwrap_or(0))),
        Written::Text(text) => Ok(Value::Text(Txt::of(Vec::from_slice(alloc, text.list())?)?)),
    }
}

/// The outputs that are written, whose values fit.
fn told(alloc: Global, outs: &[WrittenOut]) -> Result<Vec<ToldOut>, NoMemory>
    requires small { list_all (λ out. file.is_small (seen_value out.value)) outs.now ≡ true }
    requires short { list_any (λ out. file.is_long (seen_value out.value)) outs.now ≡ false }
    ensures { IfOk result (λ told. told.items ≡ map seen_out outs.now) }
{
    let mut told = Vec::new(alloc);
    for out in outs {
        let port = out.port.copy(alloc)?;
        let value = value_of(alloc, &out.value)?;
        told.push(ToldOut { port, value })?;
    }
    Ok(told)
}

/// The outputs of a telling. The fault `Range` where a number would not fit 64 bits, `DoubleName` where an output stands
/// twice, `TooMany` above 8 outputs and where a text has more than 4,096 bytes.
pub fn told_outs(alloc: Global, outs: &[WrittenOut]) -> Result<Items<ToldOut>, Stop<WorldFaultKind>>
    ensures { OutsSay result (map seen_out outs.now) }
{
    if !are_small(outs) {
        return Err(Stop::Fault(WorldFaultKind::Range));
    }
    if has_double(alloc, outs)? {
        return Err(Stop::Fault(WorldFaultKind::DoubleName));
    }
    if are_many(outs) {
        return Err(Stop::Fault(WorldFaultKind::TooMany));
    }
    Ok(Items::of(told(alloc, outs)?))
}
