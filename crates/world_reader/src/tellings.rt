ghost use Rattle.std.specs.Prelude.{◌≡◌, true};
ghost use Rattle.std.specs.Str.Parse.{signed_digits_value};
ghost use Rattle.spec_tree.specs.Numbers as numbers;
ghost use Rattle.spec_world_file.specs.WorldFile.{AfterForm, AfterLine, TellLine, success_in, tell_line, telling_of};
ghost use Rattle.world_draft.specs.Readings.{Leaves};

use base_tables::is_canonical;
use base_texts::{Items, Stop};
use spec_world::{Telling, ToldOut, What};
use spec_world_file::WorldFaultKind;
use std::alloc::Global;
use world_draft::{Reading, told_outs};
use world_lines::{cut, is, one_of, outs_in, uid};

/// Whether the word says SUCCESS or FAILURE. None where it says neither.
fn success(word: &[u8]) -> Option<bool>
    ensures { result ≡ success_in word.now }
{
    if is(word, "SUCCESS") {
        Some(true)
    } else if is(word, "FAILURE") {
        Some(false)
    } else {
        None
    }
}

/// What is told.
fn telling(succeeds: bool, outs: Items<ToldOut>) -> Telling
    ensures { result ≡ telling_of succeeds outs }
{
    if succeeds {
        Telling::Success(outs)
    } else {
        drop(outs);
        Telling::Failure
    }
}

/// Reads `tell R UID SUCCESS NAME=VALUE ..` or `tell R UID FAILURE`, from after `tell`.
pub fn read_tell(
    alloc: Global,
    reading: &mut Reading,
    text: &[u8],
) -> Result<(), Stop<WorldFaultKind>>
    ensures { Leaves result reading.new (AfterForm reading.old (tell_line text.now)) }
{
    let (runner, rest) = cut(text);
    let (leaf, rest) = cut(rest);
    let (status, rest) = cut(rest);
    if !is_canonical(runner) || !is_canonical(leaf) {
        return Err(Stop::Fault(WorldFaultKind::BadLine));
    }
    match success(status) {
        Some(succeeds) if succeeds || rest.is_empty() => {
            tell(alloc, reading, runner, leaf, succeeds, rest)
        }
        _ => Err(Stop::Fault(WorldFaultKind::BadLine)),
    }
}

/// Adds that the leaf of this runner and this uid, which are written so, is told what the text is.
fn tell(
    alloc: Global,
    reading: &mut Reading,
    runner: &[u8],
    leaf: &[u8],
    succeeds: bool,
    text: &[u8],
) -> Result<(), Stop<WorldFaultKind>>
    requires runner { numbers.is_canonical runner.now ≡ true }
    requires leaf { numbers.is_canonical leaf.now ≡ true }
    ensures { Leaves result reading.new (AfterLine reading.old
        (TellLine (signed_digits_value 10 runner.now) (signed_digits_value 10 leaf.now) succeeds text.now)) }
{
    let Some(outs) = outs_in(alloc, text)? else {
        return Err(Stop::Fault(WorldFaultKind::BadLine));
    };
    reading.close(alloc)?;
    let Some(runner) = one_of(runner, reading.runners()) else {
        return Err(Stop::Fault(WorldFaultKind::Range));
    };
    let Some(uid) = uid(leaf) else {
        return Err(Stop::Fault(WorldFaultKind::Range));
    };
    let outs = told_outs(alloc, outs.as_slice())?;
    reading.add_event(What::Tell {
        runner,
        uid,
        telling: telling(succeeds, outs),
    })
}
