//! `bt` ticks a behavior tree over the events of a world script and prints the trace.
#![tactic(auto)]

ghost use Rattle.std.specs.Prelude.{◌≡◌, IfOk, OnErr};
ghost use Rattle.std.specs.Process.{exit_status};
ghost use Rattle.bt_main.specs.Ends.{AreAnswered, HasRun, HasServed, HasStatus, IsHandedOn, IsStatus};
ghost use Rattle.cli_words.specs.Serving.{serve_seen};
ghost use Rattle.std.specs.Io.KnownBytes.{Keeps};
ghost use Rattle.base_outside.specs.OutSink.{written_so_far};

use base_outside::{DirShelf, HostClock, InLines, OutSink, Sink};
use base_texts::{Name, NoMemory};
use cli_program::{add_driver, bt};
use cli_serve::serve_files;
use cli_words::{NoWords, Serve, read_serve, words_of};
use run_driver::Driver;
use run_leaves::{Conditions, Gate, Replay, Timed, Told};
use spec_program::Exit;
use std::env::Env;
use std::io::{self, Write};
use std::process::ExitCode;
use std::rt::{Clock, Files};

/// Makes the shelf, the clock and the drivers of the host, and answers the words over them.
fn run<W: Write + Drop>(
    rt: &(impl Files + Clock + AllocGlobal),
    words: &[Name],
    out: &mut OutSink<W>,
) -> Result<Exit, NoMemory>
    ensures ran { IfOk result (λ exit. HasRun words.now exit out.old out.new) }
    ensures kept { OnErr result (out.new ≡ out.old) }
{
    let alloc = rt.alloc();
    let mut roster: Vec<Box<dyn Driver>> = Vec::new(alloc);
    add_driver(&mut roster, Box::new(alloc, Conditions::new(alloc))?)?;
    add_driver(&mut roster, Box::new(alloc, Timed::new(alloc))?)?;
    add_driver(&mut roster, Box::new(alloc, Replay::new(alloc))?)?;
    add_driver(&mut roster, Box::new(alloc, Gate::new(alloc))?)?;
    add_driver(&mut roster, Box::new(alloc, Told::new(alloc))?)?;
    let mut shelf = DirShelf::new(rt);
    let mut clock = HostClock::new(rt);
    Ok(bt(alloc, words, &mut shelf, out, &mut clock, &mut roster))
}

/// Makes the shelf and the input of the host, and serves what the words name over them.
fn serve<W: Write + Drop>(
    rt: &(impl Files + Input + AllocGlobal),
    serve: Serve,
    out: &mut OutSink<W>,
) -> Result<Exit, NoMemory>
    ensures served { IfOk result (λ exit. HasServed (serve_seen serve.entry) exit out.old out.new) }
    ensures kept { OnErr result (out.new ≡ out.old) }
{
    let alloc = rt.alloc();
    let mut shelf = DirShelf::new(rt);
    let mut lines = InLines::new(alloc, rt.reader())?;
    Ok(serve_files(alloc, serve, &mut shelf, &mut lines, out))
}

/// Answers the words over a sink: what they name is served, or `bt` is called with them.
fn answer<W: Write + Drop>(
    rt: &(impl Files + Input + Clock + AllocGlobal),
    words: &[Name],
    out: &mut OutSink<W>,
) -> Exit
    ensures { AreAnswered words.now result out.old out.new }
{
    let answered = match read_serve(words) {
        Some(served) => serve(rt, served, out),
        None => run(rt, words, out),
    };
    answered.unwrap_or(Exit::Memory)
}

/// Hands on all that was written. A write that fails only then is a write that failed.
fn hand_on<W: Write + Drop>(exit: Exit, out: &mut OutSink<W>) -> Exit
    ensures handed { IsHandedOn exit result out.old out.new }
    ensures kept { Keeps (written_so_far out.old) (written_so_far out.new) }
{
    match out.flush() {
        Ok(()) => exit,
        Err(_) => Exit::Write,
    }
}

/// Answers the words over a sink, hands on what was written, and gives the exit's status: that of what one call of `bt`, or
/// of `serve_files` where the words are those of a session, has answered, or of Write where what was written could not be
/// handed on.
fn answer_and_hand_on<W: Write + Drop>(
    rt: &(impl Files + Input + Clock + AllocGlobal),
    words: &[Name],
    out: &mut OutSink<W>,
) -> u8
    ensures { HasStatus words.now result out.old out.new }
{
    let exit = answer(rt, words, out);
    hand_on(exit, out).status()
}

/// Makes the sink of the host, and answers the words over it.
fn end(rt: &(impl Files + Print + Input + Clock + AllocGlobal), words: &[Name]) -> u8
    ensures { IsStatus result }
{
    match OutSink::new(rt.alloc(), io::writer(rt)) {
        Ok(mut out) => answer_and_hand_on(rt, words, &mut out),
        Err(_) => Exit::Memory.status(),
    }
}

/// Answers the words of the command line. A word that is no UTF-8 belongs to no command, and neither does an empty list of
/// words.
fn answer_command_line(rt: &(impl Files + Env + Print + Input + Clock + AllocGlobal)) -> ExitCode
    ensures { IsStatus (exit_status result) }
{
    let words = match words_of(rt) {
        Ok(words) => words,
        Err(NoWords::NotUtf8) => Vec::new(rt.alloc()),
        Err(NoWords::NoMemory) => return ExitCode::from(Exit::Memory.status()),
    };
    ExitCode::from(end(rt, words.as_slice()))
}

fn main(rt: HostRuntime) -> ExitCode {
    answer_command_line(&rt)
}
