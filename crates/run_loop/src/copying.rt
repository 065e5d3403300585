ghost use Rattle.std.specs.Prelude.{◌≡◌, IfOk};

use base_texts::{Items, NoMemory};
use spec_world::{Telling, ToldOut};
use std::alloc::Global;

/// A copy of a value that is told, or want of memory.
fn copy_out(alloc: Global, out: &ToldOut) -> Result<ToldOut, NoMemory>
    ensures { IfOk result (λ copied. copied ≡ out.now) }
{
    Ok(ToldOut {
        port: out.port.copy(alloc)?,
        value: out.value.copy(alloc)?,
    })
}

/// Copies of these values that are told, or want of memory.
fn copy_outs(alloc: Global, outs: &[ToldOut]) -> Result<Items<ToldOut>, NoMemory>
    ensures { IfOk result (λ copied. copied ≡ outs.now) }
{
    let mut copied = Vec::with_capacity(alloc, outs.len())?;
    for out in outs {
        copied.push(copy_out(alloc, out)?)?;
    }
    Ok(Items::of(copied))
}

/// A copy of what a leaf is told, or want of memory.
pub fn copy_telling(alloc: Global, telling: &Telling) -> Result<Telling, NoMemory>
    ensures { IfOk result (λ copied. copied ≡ telling.now) }
{
    match telling {
        Telling::Success(outs) => Ok(Telling::Success(copy_outs(alloc, outs.list())?)),
        Telling::Failure => Ok(Telling::Failure),
    }
}
