//! Loads, whose files the program makes: the line that sums up the run, and what the drivers count.

use base_outside::{MemClock, MemSink};
use base_texts::NoMemory;
use std::alloc::Global;
use std::test::Fail;
use test_bed::{Ending, answer, shelf_of};

/// Answers these words, which name no file, with the five drivers of `bt`.
fn load(alloc: Global, words: &[&str], sink: &mut MemSink) -> Result<Ending, NoMemory> {
    let mut shelf = shelf_of(alloc, b"", b"", &[])?;
    let mut clock = MemClock::new(Vec::new(alloc));
    answer(alloc, words, &mut shelf, sink, &mut clock)
}

/// What is written for these words to a sink of which these writes fail after some bytes, with the
/// exit, the counts of each driver that was called, and `held` where one holds anything.
fn loaded(alloc: Global, words: &[&str], fails: &[(u64, u64)]) -> Result<String, NoMemory> {
    let mut sink = MemSink::new(alloc, Vec::from_slice(alloc, fails)?);
    let ending = load(alloc, words, &mut sink)?;
    let text = str::from_utf8(sink.list()).unwrap_or("?");
    Ok(format!(in alloc; "{text}{:?}{}", ending.exit, ending.counts)?)
}

const ONE: &str = "\
load 1 nodes 3 events 10 start 5 running 5 halted 0 success 5
Done; Timed 5 5 0 trail 11000667790739505769";

const TWO: &str = "\
load 2 nodes 5 events 20 start 22 running 10 halted 0 success 10
Done; Timed 10 10 0 trail 7270223050260324154; Replay 12 0 0 trail 10747639093772219256";

const TEN: &str = "\
load 10 nodes 21 events 100 start 93 running 91 halted 1 success 8
Done; Timed 42 91 1 trail 16495024243833144083; Replay 51 0 0 trail 3483068138380107525";

const THOUSAND: &str = "\
load 1000 nodes 2001 events 10000 start 7663 running 9993 halted 1 success 6
Done; Timed 3332 9993 1 trail 13181239788873133299; Replay 4331 0 0 trail 9366271619127460444";

/// Words of `load`, with the line that sums up the run, or the refusal.
#[test]
fn loads_are_summed_up(rt: HostRuntime) -> Result<(), Fail> {
    let table: [(&[&str], &str); 18] = [
        (&["load", "1"], ONE),
        (&["load", "2"], TWO),
        (&["load", "10"], TEN),
        (&["load", "1000"], THOUSAND),
        (&["load", "1000"], THOUSAND),
        (&["load"], "refused words\nWords"),
        (&["load", ""], "refused words\nWords"),
        (&["load", "0"], "refused words\nWords"),
        (&["load", "01"], "refused words\nWords"),
        (&["load", "+1"], "refused words\nWords"),
        (&["load", "-1"], "refused words\nWords"),
        (&["load", "1001"], "refused words\nWords"),
        (&["load", "18446744073709551617"], "refused words\nWords"),
        (&["load", "T"], "refused words\nWords"),
        (&["load", "1", "2"], "refused words\nWords"),
        (&["load", "1", "--main", "Load"], "refused words\nWords"),
        (&["load", "--ticks", "1"], "refused words\nWords"),
        (&["Load", "1"], "refused words\nWords"),
    ];
    for (words, want) in table {
        let text = loaded(rt.alloc(), words, &[])?;
        assert_eq!(rt; text.as_str(), want);
    }
    Ok(())
}

/// The line is written by one write, after the run.
#[test]
fn the_line_of_a_load_may_be_refused(rt: HostRuntime) -> Result<(), Fail> {
    let table: [(u64, &str); 2] = [
        (0, "Write; Timed 5 5 0 trail 11000667790739505769"),
        (3, "loaWrite; Timed 5 5 0 trail 11000667790739505769"),
    ];
    for (taken, want) in table {
        let text = loaded(rt.alloc(), &["load", "1"], &[(1, taken)])?;
        assert_eq!(rt; text.as_str(), want);
    }
    Ok(())
}
