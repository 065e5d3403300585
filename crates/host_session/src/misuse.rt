ghost use Rattle.std.specs.Prelude.{◌≡◌, ◌&&◌, not, nat_le, nat_lt, bytes_eq, []};
ghost use Rattle.std.specs.List.{list_all, list_any};
ghost use Rattle.std.specs.Result.{result_err};
ghost use Rattle.spec_session.specs.declared.ended.Misuse.TheVariants.{NoFact, NoRunner};
ghost use Rattle.spec_session.specs.Events.{can_be_told, lack_misuse, moment_misuse, out_fits, telling_misuse, unless};
ghost use Rattle.spec_world.specs.Worlds.{ports_told};
ghost use Rattle.spec_world_file.specs.WorldFile.{is_long, is_small, repeats};

use base_tables::{LAST_MOMENT, MOST_OUTPUTS, MOST_TEXT_BYTES};
use spec_run::JoinFault;
use spec_script::Value;
use spec_session::Misuse;
use spec_world::{Telling, ToldOut};
use world_lines::is_name;

/// What is wrong, where this does not hold.
fn unless(fits: bool, misuse: Misuse) -> Option<Misuse>
    ensures { result ≡ unless fits misuse }
{
    if fits { None } else { Some(misuse) }
}

/// Why no event comes at this moment, where the last one was at `last`.
pub fn moment_misuse(last: u64, at: u64) -> Option<Misuse>
    ensures { result ≡ moment_misuse last at }
{
    if at < last {
        return Some(Misuse::MomentBack);
    }
    unless(at <= LAST_MOMENT, Misuse::MomentLate)
}

/// What is wrong with a runner's number, where there are so many runners.
pub fn runner_misuse(runners: u8, runner: u8) -> Option<Misuse>
    ensures { result ≡ unless (nat_le 1 runner && nat_le runner runners) NoRunner }
{
    unless(1 <= runner && runner <= runners, Misuse::NoRunner)
}

/// What is wrong with a fact's number, where there are so many facts.
pub fn fact_misuse(facts: usize, fact: u32) -> Option<Misuse>
    ensures { result ≡ unless (nat_lt fact facts) NoFact }
{
    unless((fact as usize) < facts, Misuse::NoFact)
}

/// What is wrong with a telling for which this is missing.
pub fn lack_misuse(fits: Result<(), JoinFault>) -> Option<Misuse>
    ensures { result ≡ lack_misuse (result_err fits) }
{
    match fits {
        Ok(()) => None,
        Err(JoinFault::NoOutput { .. }) => Some(Misuse::NoOutput),
        Err(_) => Some(Misuse::NoLeaf),
    }
}

/// Whether one of these outputs has the name of this one.
fn is_among(outs: &[ToldOut], out: &ToldOut) -> bool
    ensures { result ≡ list_any (λ other. bytes_eq out.now.port other.port) outs.now }
{
    outs.iter().any(|other| out.port == other.port)
}

/// Whether an output stands twice. It allocates nothing.
fn has_double(outs: &[ToldOut]) -> bool
    ensures { result ≡ repeats [] (ports_told outs.now) }
{
    for i in 0..outs.len() {
        if is_among(&outs[..i], &outs[i]) {
            return true;
        }
    }
    false
}

/// Whether a value is no text that is too long.
fn is_short(value: &Value) -> bool
    ensures { result ≡ (is_small value.now && not (is_long value.now)) }
{
    match value {
        Value::Int(n) => {
            // By its type it has 64 bits.
            let _n = *n;
            true
        }
        Value::Text(text) => text.list().len() <= MOST_TEXT_BYTES,
    }
}

/// Whether an output can be told: it has a name, and its value is no text that is too long.
fn fits(out: &ToldOut) -> bool
    ensures { result ≡ out_fits out.now }
{
    is_name(out.port.list()) && is_short(&out.value)
}

/// Whether each of these outputs fits.
fn all_fit(outs: &[ToldOut]) -> bool
    ensures { result ≡ list_all out_fits outs.now }
{
    outs.iter().all(fits)
}

/// Whether each of these outputs fits, and none stands twice.
fn fit_and_differ(outs: &[ToldOut]) -> bool
    ensures { result ≡ (list_all out_fits outs.now && not (repeats [] (ports_told outs.now))) }
{
    all_fit(outs) && !has_double(outs)
}

/// Whether these outputs can be told.
fn can_be_told(outs: &[ToldOut]) -> bool
    ensures { result ≡ can_be_told outs.now }
{
    outs.len() <= MOST_OUTPUTS && fit_and_differ(outs)
}

/// What is wrong with what is told.
pub fn telling_misuse(telling: &Telling) -> Option<Misuse>
    ensures { result ≡ telling_misuse telling.now }
{
    match telling {
        Telling::Success(outs) => unless(can_be_told(outs.list()), Misuse::BadTelling),
        Telling::Failure => None,
    }
}
