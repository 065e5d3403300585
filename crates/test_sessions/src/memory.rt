//! That events take no memory of their own: a process has as much after a million of them as before.

use crate::opening::open;
use base_texts::Items;
use host_session::Session;
use spec_world::{Telling, What};
use std::alloc::Global;
use std::process::Abort;
use std::rt::Files;
use std::{fs, io};

/// A condition and an action that are told, and an entry that changes where the action ends.
static TREE: &str = "<root BTCPP_format=\"4\"><BehaviorTree ID=\"M\"><ReactiveSequence>\
<Clear/><Go _onSuccess=\"n := 1\" _onHalted=\"n := 2\"/></ReactiveSequence></BehaviorTree></root>";

static WORLD: &str = "bt-world 1\nfact calm 0\ncondition Clear told\naction Go told\n";

/// The rounds of twenty events each after which memory is looked at, with a million events between. The first ones bring
/// in what a process has anyway.
static EARLY: u64 = 10_000;

static LATE: u64 = 60_000;

/// KiB by which the memory of the process may have grown between them. An event of any kind that took memory for good, if only
/// in every other round, would take more.
static MOST: u64 = 256;

/// How much memory this process has beside files, in KiB, as the host counts it page by page.
fn memory(rt: &(impl Files + AllocGlobal)) -> io::Result<u64> {
    let told = fs::read_to_string(rt, "/proc/self/smaps_rollup")?;
    let line = told
        .as_str()
        .lines()
        .find(|line| line.starts_with("Anonymous:"));
    let word = line.unwrap_or("").split_whitespace().nth(1).unwrap_or("");
    Ok(word.parse::<u64>().unwrap_or(0))
}

/// Makes an event, which is taken.
fn make(rt: &impl Abort, session: &mut Session, what: What, at: u64) {
    assert!(rt; session.event(what, at).is_ok());
}

/// Changes the fact, and tells one of the two leaves that it has succeeded.
fn change_and_tell(rt: &impl Abort, alloc: Global, session: &mut Session, step: u32, at: u64) {
    let value = i64::from(step);
    make(rt, session, What::Change { fact: 0, value }, at);
    let runner = 1;
    let uid = 2 + step % 2;
    let telling = Telling::Success(Items::of(Vec::new(alloc)));
    let what = What::Tell {
        runner,
        uid,
        telling,
    };
    make(rt, session, what, at);
}

/// Makes a round of twenty events: a tick that starts the action, changes and tellings, and a tick that ends it or a halt.
fn make_round(rt: &impl Abort, alloc: Global, session: &mut Session, at: u64) {
    make(rt, session, What::Tick(1), at);
    for step in 0..9 {
        change_and_tell(rt, alloc, session, step, at);
    }
    let last = if at % 2 == 0 {
        What::Tick(1)
    } else {
        What::Halt(1)
    };
    make(rt, session, last, at);
}

/// Makes the rounds from one number to another, each a millisecond after the one before.
fn make_rounds(rt: &impl Abort, alloc: Global, session: &mut Session, from: u64, to: u64) {
    for at in from..to {
        make_round(rt, alloc, session, at);
    }
}

/// How much memory the process has after the early rounds of a session and after the late ones.
fn memories(
    rt: &(impl Abort + Files + AllocGlobal),
    alloc: Global,
    session: &mut Session,
) -> io::Result<(u64, u64)> {
    // What the look itself takes is there already when it counts.
    memory(rt)?;
    make_rounds(rt, alloc, session, 0, EARLY);
    let early = memory(rt)?;
    make_rounds(rt, alloc, session, EARLY, LATE);
    Ok((early, memory(rt)?))
}

#[test]
fn events_take_no_memory(rt: HostRuntime) -> io::Result<()> {
    let mut session = open(&rt, rt.alloc(), TREE, WORLD);
    let looked = memories(&rt, rt.alloc(), &mut session);
    drop(session);
    let (early, late) = looked?;
    assert!(&rt;
        0 < early && late <= early.saturating_add(MOST),
        "{early} {late} KiB"
    );
    Ok(())
}
