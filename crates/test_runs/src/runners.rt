//! Several runners over one world.

use crate::compare::compare_rows;
use std::alloc::{AllocError, Global};
use std::test::Fail;
use test_bed::ran;

pub const ONE_FAULTS: &str = "\
tick 1 at 0
node 1 IDLE RUNNING
call 2 start RUNNING
node 2 IDLE RUNNING
root 1 RUNNING
tick 2 at 50
node 1 IDLE RUNNING
call 2 start RUNNING
node 2 IDLE RUNNING
root 2 RUNNING
halt 1 at 50
call 2 halted
node 2 RUNNING IDLE
node 1 RUNNING IDLE
halt 1 at 50
tick 1 at 60
node 1 IDLE RUNNING
call 2 start RUNNING
node 2 IDLE RUNNING
root 1 RUNNING
tick 2 at 150
call 2 running SUCCESS
node 2 RUNNING SUCCESS
fault 2 3 NoEntry 0 z
quench 1 2
Fault";

const ONE_IS_HALTED: &str = "\
tick 1 at 0
node 1 IDLE RUNNING
call 2 start RUNNING
node 2 IDLE RUNNING
root 1 RUNNING
tick 2 at 0
node 1 IDLE RUNNING
call 2 start RUNNING
node 2 IDLE RUNNING
root 2 RUNNING
tick 3 at 0
node 1 IDLE RUNNING
call 2 start RUNNING
node 2 IDLE RUNNING
root 3 RUNNING
halt 2 at 0
call 2 halted
node 2 RUNNING IDLE
node 1 RUNNING IDLE
tick 1 at 100
call 2 running SUCCESS
node 2 RUNNING SUCCESS
node 2 SUCCESS IDLE
node 1 RUNNING SUCCESS
root 1 SUCCESS
node 1 SUCCESS IDLE
tick 2 at 100
node 1 IDLE RUNNING
call 2 start RUNNING
node 2 IDLE RUNNING
root 2 RUNNING
tick 3 at 100
call 2 running SUCCESS
node 2 RUNNING SUCCESS
node 2 SUCCESS IDLE
node 1 RUNNING SUCCESS
root 3 SUCCESS
node 1 SUCCESS IDLE
finish 1 at 100
finish 2 at 100
call 2 halted
node 2 RUNNING IDLE
node 1 RUNNING IDLE
finish 3 at 100
Done";

const OWN_BOARDS: &str = "\
tick 2 at 0
node 1 IDLE RUNNING
node 2 IDLE SUCCESS
call 3 start SUCCESS
node 3 IDLE SUCCESS
node 2 SUCCESS IDLE
node 3 SUCCESS IDLE
node 1 RUNNING SUCCESS
root 2 SUCCESS
node 1 SUCCESS IDLE
fact x 1
board 2 0 n 1
tick 1 at 0
node 1 IDLE RUNNING
node 2 IDLE SUCCESS
call 3 start SUCCESS
node 3 IDLE SUCCESS
node 2 SUCCESS IDLE
node 3 SUCCESS IDLE
node 1 RUNNING SUCCESS
root 1 SUCCESS
node 1 SUCCESS IDLE
board 1 0 n 1
finish 1 at 0
finish 2 at 0
Done";

/// Runners that share the facts and nothing else.
#[test]
fn runners_keep_what_is_theirs(rt: HostRuntime) -> Result<(), Fail> {
    compare_rows(
        &rt,
        rt.alloc(),
        &[
            (
                "<Sequence><A/><Script code=\"y := z\"/></Sequence>",
                "runners 2 / action A timed 100 / tick 1 / at 50 / tick 2 / halt 1 / \
                halt 1 / at 60 / tick 1 / at 150 / tick 2",
                ONE_FAULTS,
            ),
            (
                "<Sequence><A/></Sequence>",
                "runners 3 / action A timed 100 / tick 1 / tick 2 / tick 3 / halt 2 / \
                at 100 / tick 1 / tick 2 / tick 3",
                ONE_IS_HALTED,
            ),
            (
                "<Sequence><Script code=\"n := 1\"/><A/></Sequence>",
                "runners 2 / fact x 0 / action A timed 0 / sets x = 1 / tick 2 / tick 1",
                OWN_BOARDS,
            ),
        ],
    )?;
    Ok(())
}

/// What each of 16 runners adds, in order: the pattern, with its number in place of `#`.
pub fn of_each(alloc: Global, pattern: &str) -> Result<String, AllocError> {
    let mut text = String::new(alloc);
    for runner in 1..=16 {
        let number = format!(in alloc; "{runner}")?;
        text.push_str(pattern.replace(alloc, "#", number.as_str())?.as_str())?;
    }
    Ok(text)
}

/// A robot that waits at a gate while it holds its arm.
pub const WAITS: &str = "<Parallel><G/><A/></Parallel>";

/// The world in which sixteen of them begin, and then the gate has a fault for the seventh.
pub fn sixteen(alloc: Global) -> Result<String, AllocError> {
    let ticks = of_each(alloc, " / tick #")?;
    format!(in alloc;
        "runners 16 / fact x 2 / action G gate 0/x / action A timed 100{ticks} / set x 0 / tick 7 / tick 8"
    )
}

const BEGINS: &str = "\
tick # at 0
node 1 IDLE RUNNING
call 2 start RUNNING
node 2 IDLE RUNNING
call 3 start RUNNING
node 3 IDLE RUNNING
root # RUNNING
";

const SEVENTH_FAULTS: &str = "\
set x 0 at 0
fact x 0
tick 7 at 0
fault 7 2 ZeroDivisor
";

/// The trace of the sixteen, and the exit after it.
pub fn sixteen_trace(alloc: Global) -> Result<String, AllocError> {
    let begun = of_each(alloc, BEGINS)?;
    let quenched = of_each(alloc, "quench # 2\nquench # 3\n")?;
    format!(in alloc; "{begun}{SEVENTH_FAULTS}{quenched}Fault")
}

/// The run of the sixteen runners has its trace.
#[test]
fn a_fault_quenches_every_runner(rt: HostRuntime) -> Result<(), Fail> {
    let alloc = rt.alloc();
    let lines = sixteen(alloc)?;
    let text = ran(alloc, WAITS, lines.as_str())?;
    assert_eq!(rt; text, sixteen_trace(alloc)?);
    Ok(())
}
