//! Whole robots that hosts drive, event by event: what each event is answered, the lines of its block, and that an event
//! that is not taken changes nothing.

use base_outside::SureSink;
use base_texts::{Items, Name, NoMemory, Stop, Txt};
use host_session::Session;
use spec_run::JoinFault;
use spec_script::Value;
use spec_session::{Ended, OpenFault};
use spec_world::{Telling, ToldOut, What};
use std::alloc::Global;
use std::process::Abort;
use text_lines::{Names, names_of, write_block};

/// The nodes of a tree, a world script, the calls of a host, which stand between slashes, and what is told of them.
struct Row {
    nodes: &'static str,
    world: &'static str,
    calls: &'static str,
    want: &'static str,
}

/// The number of this place among the words of a call; 0 where there is none.
fn number(call: &str, place: usize) -> i64 {
    match call.split_whitespace().nth(place) {
        Some(word) => word.parse::<i64>().unwrap_or(0),
        None => 0,
    }
}

/// The word at this place of a call; none where it has fewer.
fn word<'a>(call: &'a str, place: usize) -> &'a str {
    call.split_whitespace().nth(place).unwrap_or("")
}

/// The output that a word `NAME=VALUE` tells: a number, or else a text.
fn out_of(rt: &impl Abort, alloc: Global, word: &str) -> Result<ToldOut, NoMemory> {
    let (name, value) = word.split_once("=").unwrap_or((word, ""));
    assert!(rt; value.len() <= 4096);
    let value = match value.parse::<i64>() {
        Ok(n) => Value::Int(n),
        Err(_) => Value::Text(Txt::of(Vec::from_slice(alloc, value.as_bytes())?)?),
    };
    Ok(ToldOut {
        port: Name::copied(alloc, name.as_bytes())?,
        value,
    })
}

/// What a call `tell R UID STATUS MS NAME=VALUE ..` tells.
fn telling_of(rt: &impl Abort, alloc: Global, call: &str) -> Result<Telling, NoMemory> {
    if word(call, 3) != "SUCCESS" {
        return Ok(Telling::Failure);
    }
    let mut outs = Vec::new(alloc);
    for word in call.split_whitespace().skip(5) {
        outs.push(out_of(rt, alloc, word)?)?;
    }
    Ok(Telling::Success(Items::of(outs)))
}

/// What a call asks for: `tick R MS`, `halt R MS`, `set FACT MS VALUE` or `tell R UID STATUS MS NAME=VALUE ..`.
fn what_of(rt: &impl Abort, alloc: Global, call: &str) -> Result<What, NoMemory> {
    let first = number(call, 1);
    let runner = u8::try_from(first).unwrap_or(0);
    Ok(match word(call, 0) {
        "tick" => What::Tick(runner),
        "halt" => What::Halt(runner),
        "tell" => What::Tell {
            runner,
            uid: u32::try_from(number(call, 2)).unwrap_or(0),
            telling: telling_of(rt, alloc, call)?,
        },
        _ => What::Change {
            fact: u32::try_from(first).unwrap_or(0),
            value: number(call, 3),
        },
    })
}

/// Makes a call of a session.
fn make(
    rt: &impl Abort,
    alloc: Global,
    session: &mut Session,
    call: &str,
) -> Result<Result<(), Ended>, NoMemory> {
    match word(call, 0) {
        "own" => Ok(session.own_event()),
        "finish" => Ok(session.finish(u8::try_from(number(call, 1)).unwrap_or(0))),
        kind => {
            let place = if kind == "tell" { 4 } else { 2 };
            let at = u64::try_from(number(call, place)).unwrap_or(0);
            Ok(session.event(what_of(rt, alloc, call)?, at))
        }
    }
}

/// Adds the lines of the block of the last event.
fn tell(
    alloc: Global,
    session: &Session,
    names: &Names,
    text: &mut String,
) -> Result<(), NoMemory> {
    let mut lines = SureSink::new(alloc);
    if write_block(alloc, &mut lines, session.block(), names).is_err() {
        return Err(NoMemory);
    }
    text.push_str(str::from_utf8(lines.list()).unwrap_or("?"))?;
    Ok(())
}

/// Makes a call, and tells its block, or how else it ended. After a misuse the block is still that of the event before.
fn call_text(
    rt: &impl Abort,
    alloc: Global,
    session: &mut Session,
    names: &Names,
    call: &str,
    text: &mut String,
) -> Result<(), NoMemory> {
    match make(rt, alloc, session, call)? {
        Ok(()) => tell(alloc, session, names, text),
        Err(Ended::Misused(misuse)) => {
            text.push_str(format!(in alloc; "{misuse:?}\n")?.as_str())?;
            Ok(())
        }
        Err(Ended::Fault(fault)) => {
            tell(alloc, session, names, text)?;
            text.push_str(format!(in alloc; "{fault:?}\n")?.as_str())?;
            assert!(rt; !session.is_usable());
            Ok(())
        }
        Err(Ended::NoMemory) => Err(NoMemory),
    }
}

/// Makes the calls of a session, and tells of each.
fn add_calls(
    rt: &impl Abort,
    alloc: Global,
    session: &mut Session,
    names: &Names,
    calls: &str,
    text: &mut String,
) -> Result<(), NoMemory> {
    for call in calls.split(" / ") {
        call_text(rt, alloc, session, names, call, text)?;
    }
    Ok(())
}

/// What is told of the calls of a session.
fn calls_text(
    rt: &impl Abort,
    alloc: Global,
    session: &mut Session,
    calls: &str,
) -> Result<String, NoMemory> {
    let names = names_of(alloc, session.tree(), session.world(), session.slots())?;
    let mut text = String::new(alloc);
    let made = add_calls(rt, alloc, session, &names, calls, &mut text);
    drop(names);
    made?;
    Ok(text)
}

/// A tree file of these nodes.
fn file_of(alloc: Global, nodes: &str) -> Result<String, NoMemory> {
    Ok(format!(in alloc;
        "<root BTCPP_format=\"4\"><BehaviorTree ID=\"M\">{nodes}</BehaviorTree></root>"
    )?)
}

/// What is told of a session.
fn told(rt: &impl Abort, alloc: Global, row: &Row) -> Result<String, NoMemory> {
    let file = file_of(alloc, row.nodes)?;
    match Session::open(alloc, file.as_bytes(), row.world.as_bytes(), None) {
        Ok(mut session) => {
            let text = calls_text(rt, alloc, &mut session, row.calls);
            drop(session);
            text
        }
        Err(Stop::Fault(OpenFault::Join(JoinFault::NoRow { id }))) => {
            Ok(format!(in alloc; "NoRow {}", str::from_utf8(id.list()).unwrap_or("?"))?)
        }
        Err(Stop::Fault(fault)) => Ok(format!(in alloc; "{fault:?}")?),
        Err(Stop::NoMemory) => Err(NoMemory),
    }
}

/// Compares what is told with what is wanted.
fn compare(rt: &impl Abort, alloc: Global, rows: &[Row]) -> Result<(), NoMemory> {
    for row in rows {
        assert_eq!(rt;
            told(rt, alloc, row)?.as_str(),
            row.want,
            "{} {}",
            row.nodes,
            row.calls
        );
    }
    Ok(())
}

/// Every kind of misuse of an event, between events that are taken.
static MISUSES: [Row; 2] = [
    Row {
        nodes: "<Sequence><Script code=\"n := 7\"/><Wave/></Sequence>",
        world: "bt-world 1\nrunners 2\nfact calm 0\naction Wave timed 100\n",
        calls: "tick 0 0 / tick 3 0 / halt 3 0 / set 1 0 5 / tick 1 1000000000001 / tick 2 7 / tick 2 6 / tell 1 3 SUCCESS 7 / own / set 0 7 5 / finish 3 / finish 1 / finish 2 / tick 1 8",
        want: "\
NoRunner
NoRunner
NoRunner
NoFact
MomentLate
tick 2 at 7
node 1 IDLE RUNNING
node 2 IDLE SUCCESS
call 3 start RUNNING
node 3 IDLE RUNNING
root 2 RUNNING
board 2 0 n 7
MomentBack
NoLeaf
NoEvent
set calm 5 at 7
fact calm 5
NoRunner
finish 1 at 7
finish 2 at 7
node 2 SUCCESS IDLE
call 3 halted
node 3 RUNNING IDLE
node 1 RUNNING IDLE
tick 1 at 8
node 1 IDLE RUNNING
node 2 IDLE SUCCESS
call 3 start RUNNING
node 3 IDLE RUNNING
root 1 RUNNING
board 1 0 n 7
",
    },
    Row {
        nodes: "<Parallel><Wave/><Script code=\"n := 1 / 0\"/></Parallel>",
        world: "bt-world 1\naction Wave timed 100\ntick 1\n",
        calls: "own / own / tick 1 0 / finish 1",
        want: "\
tick 1 at 0
node 1 IDLE RUNNING
call 2 start RUNNING
node 2 IDLE RUNNING
fault 1 3 ZeroDivisor
quench 1 2
RunFault { runner: 1, uid: 3, cause: ZeroDivisor }
NoEvent
Over
Over
",
    },
];

/// Leaves that are told what they answer.
static TOLD: [Row; 6] = [
    Row {
        nodes: "<Sequence><A/></Sequence>",
        world: "bt-world 1\naction A told\n",
        calls: "tick 1 0 / tell 1 2 SUCCESS 5 / tick 1 5",
        want: "\
tick 1 at 0
node 1 IDLE RUNNING
call 2 start RUNNING
node 2 IDLE RUNNING
root 1 RUNNING
tell 1 2 SUCCESS at 5
tick 1 at 5
call 2 running SUCCESS
node 2 RUNNING SUCCESS
node 2 SUCCESS IDLE
node 1 RUNNING SUCCESS
root 1 SUCCESS
node 1 SUCCESS IDLE
",
    },
    // told before it starts, and nothing after that
    Row {
        nodes: "<Sequence><A/></Sequence>",
        world: "bt-world 1\naction A told\n",
        calls: "tell 1 2 SUCCESS 0 / tick 1 0 / tick 1 0",
        want: "\
tell 1 2 SUCCESS at 0
tick 1 at 0
node 1 IDLE RUNNING
call 2 start SUCCESS
node 2 IDLE SUCCESS
node 2 SUCCESS IDLE
node 1 RUNNING SUCCESS
root 1 SUCCESS
node 1 SUCCESS IDLE
tick 1 at 0
node 1 IDLE RUNNING
call 2 start RUNNING
node 2 IDLE RUNNING
root 1 RUNNING
",
    },
    // a halt forgets what was told
    Row {
        nodes: "<Sequence><A/></Sequence>",
        world: "bt-world 1\naction A told\n",
        calls: "tick 1 0 / tell 1 2 SUCCESS 0 / halt 1 0 / tick 1 0",
        want: "\
tick 1 at 0
node 1 IDLE RUNNING
call 2 start RUNNING
node 2 IDLE RUNNING
root 1 RUNNING
tell 1 2 SUCCESS at 0
halt 1 at 0
call 2 halted
node 2 RUNNING IDLE
node 1 RUNNING IDLE
tick 1 at 0
node 1 IDLE RUNNING
call 2 start RUNNING
node 2 IDLE RUNNING
root 1 RUNNING
",
    },
    // a condition keeps what it was told
    Row {
        nodes: "<ReactiveSequence><C/><A/></ReactiveSequence>",
        world: "bt-world 1\ncondition C told\naction A told\n",
        calls: "tick 1 0 / tell 1 2 SUCCESS 0 / tick 1 0 / tick 1 1 / tell 1 2 FAILURE 2 / tick 1 2",
        want: "\
tick 1 at 0
node 1 IDLE RUNNING
call 2 start FAILURE
node 2 IDLE FAILURE
node 2 FAILURE IDLE
node 1 RUNNING FAILURE
root 1 FAILURE
node 1 FAILURE IDLE
tell 1 2 SUCCESS at 0
tick 1 at 0
node 1 IDLE RUNNING
call 2 start SUCCESS
node 2 IDLE SUCCESS
call 3 start RUNNING
node 3 IDLE RUNNING
node 2 SUCCESS IDLE
root 1 RUNNING
tick 1 at 1
call 2 start SUCCESS
node 2 IDLE SUCCESS
call 3 running RUNNING
node 2 SUCCESS IDLE
root 1 RUNNING
tell 1 2 FAILURE at 2
tick 1 at 2
call 2 start FAILURE
node 2 IDLE FAILURE
node 2 FAILURE IDLE
call 3 halted
node 3 RUNNING IDLE
node 1 RUNNING FAILURE
root 1 FAILURE
node 1 FAILURE IDLE
",
    },
    // both outputs are changed entries, in the order of their keys
    Row {
        nodes: "<Sequence><A level=\"{x}\" note=\"{b}\"/></Sequence>",
        world: "bt-world 1\naction A told\nout level\nout note\n",
        calls: "tell 1 2 SUCCESS 0 level=3 note=ab / tick 1 0",
        want: "\
tell 1 2 SUCCESS at 0
tick 1 at 0
node 1 IDLE RUNNING
call 2 start SUCCESS
node 2 IDLE SUCCESS
node 2 SUCCESS IDLE
node 1 RUNNING SUCCESS
root 1 SUCCESS
node 1 SUCCESS IDLE
board 1 0 b 'ab'
board 1 0 x 3
",
    },
    // no such runner, leaf or output, and an output twice
    Row {
        nodes: "<Sequence><A/><B/></Sequence>",
        world: "bt-world 1\naction A told\nout level\naction B timed 5\n",
        calls: "tell 2 2 SUCCESS 0 / tell 1 3 SUCCESS 0 / tell 1 1 FAILURE 0 / tell 1 9 FAILURE 0 / tell 1 2 SUCCESS 0 note=3 / tell 1 2 SUCCESS 0 level=3 level=4 / tick 1 0",
        want: "\
NoRunner
NoLeaf
NoLeaf
NoLeaf
NoOutput
BadTelling
tick 1 at 0
node 1 IDLE RUNNING
call 2 start RUNNING
node 2 IDLE RUNNING
root 1 RUNNING
",
    },
];

/// What is not opened.
static REFUSED: [Row; 3] = [
    Row {
        nodes: "<Wave>",
        world: "",
        calls: "",
        want: "Tree(Elements(Unmatched { place: 50 }))",
    },
    Row {
        nodes: "<Wave/>",
        world: "bt-world 2\n",
        calls: "",
        want: "World(WorldFault { line: 1, kind: Header })",
    },
    Row {
        nodes: "<Wave/>",
        world: "bt-world 1\n",
        calls: "",
        want: "NoRow Wave",
    },
];

#[test]
fn misuses_change_nothing(rt: HostRuntime) -> Result<(), NoMemory> {
    compare(&rt, rt.alloc(), &MISUSES)
}

#[test]
fn refusals_are_told(rt: HostRuntime) -> Result<(), NoMemory> {
    compare(&rt, rt.alloc(), &REFUSED)
}

#[test]
fn told_leaves_answer(rt: HostRuntime) -> Result<(), NoMemory> {
    compare(&rt, rt.alloc(), &TOLD)
}
