ghost use Rattle.std.specs.Prelude.{map};
ghost use Rattle.spec_run.specs.Drivers.{NothingHeld};

use base_outside::{MemClock, MemShelf, MemSink, Sink};
use base_texts::{Name, NoMemory};
use cli_program::{add_driver, bt};
use cli_words::word_of;
use run_driver::{Driver, hold_nothing};
use run_leaves::{Conditions, Gate, Replay, Timed, Told};
use spec_program::Exit;
use spec_run::Totals;
use std::alloc::{AllocError, Global};

/// How the program has ended.
#[derive(Drop)]
pub struct Ending {
    pub exit: Exit,
    /// What the drivers that were called have counted, and `held` where one holds anything.
    pub counts: String,
    /// Whether a driver holds anything.
    pub holds: bool,
}

/// What a driver has counted, where it was called: its calls of `start`, `running` and `halted`, and
/// its trail.
fn count_of(alloc: Global, driver: &Box<dyn Driver>) -> Result<String, AllocError> {
    let kind = driver.kind();
    let Totals {
        starts,
        runnings,
        haltings,
        trail,
    } = driver.totals();
    if trail == 0 {
        return Ok(String::new(alloc));
    }
    format!(in alloc; "; {kind:?} {starts} {runnings} {haltings} trail {trail}")
}

/// What all drivers that were called have counted, in order, and `held` where one holds anything.
fn counts_of(alloc: Global, roster: &[Box<dyn Driver>]) -> Result<String, AllocError> {
    let mut text = String::new(alloc);
    for driver in roster {
        text.push_str(count_of(alloc, driver)?.as_str())?;
    }
    if !hold_nothing(roster) {
        text.push_str("; held")?;
    }
    Ok(text)
}

/// The words as they come from a command line.
fn names_of(alloc: Global, words: &[&str]) -> Result<Vec<Name>, NoMemory> {
    let mut names = Vec::new(alloc);
    for word in words {
        names.push(word_of(alloc, word)?)?;
    }
    Ok(names)
}

/// Answers these words, which ask no clock, with these drivers.
pub fn answer_with<K: Sink>(
    alloc: Global,
    words: &[&str],
    shelf: &mut MemShelf,
    sink: &mut K,
    roster: &mut Vec<Box<dyn Driver>>,
) -> Result<Exit, NoMemory>
    requires { NothingHeld (map (λ b. state b) roster.old.items) }
{
    let names = names_of(alloc, words)?;
    let mut clock = MemClock::new(Vec::new(alloc));
    Ok(bt(alloc, names.as_slice(), shelf, sink, &mut clock, roster))
}

/// Answers these names with the five drivers of `bt`.
fn answer_names(
    alloc: Global,
    words: &[Name],
    shelf: &mut MemShelf,
    sink: &mut MemSink,
    clock: &mut MemClock,
) -> Result<Ending, NoMemory> {
    let mut roster: Vec<Box<dyn Driver>> = Vec::new(alloc);
    add_driver(&mut roster, Box::new(alloc, Conditions::new(alloc))?)?;
    add_driver(&mut roster, Box::new(alloc, Timed::new(alloc))?)?;
    add_driver(&mut roster, Box::new(alloc, Replay::new(alloc))?)?;
    add_driver(&mut roster, Box::new(alloc, Gate::new(alloc))?)?;
    add_driver(&mut roster, Box::new(alloc, Told::new(alloc))?)?;
    let exit = bt(alloc, words, shelf, sink, clock, &mut roster);
    Ok(Ending {
        exit,
        counts: counts_of(alloc, roster.as_slice())?,
        holds: !hold_nothing(roster.as_slice()),
    })
}

/// Answers these words with the five drivers of `bt`.
pub fn answer(
    alloc: Global,
    words: &[&str],
    shelf: &mut MemShelf,
    sink: &mut MemSink,
    clock: &mut MemClock,
) -> Result<Ending, NoMemory> {
    let names = names_of(alloc, words)?;
    answer_names(alloc, names.as_slice(), shelf, sink, clock)
}
