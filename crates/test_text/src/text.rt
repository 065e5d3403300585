//! The lines of blocks, and texts in quotes.

use crate::rows::{compare, nodes_told};
use base_outside::{MemSink, SureSink};
use base_texts::{NoMemory, Txt};
use run_arena::{Block, block_for};
use spec_run::{Answer, Cause, Header, Note, NumericPort, Status};
use spec_script::Value;
use spec_tree::Tree;
use spec_world::World;
use std::alloc::Global;
use std::process::Abort;
use text_lines::{
    Names, TextStop, names_of, put_number, put_quoted, put_signed, write_block, write_line,
};
use tree_board::slots_of;
use world_reader::read_world;

/// The lines of a block, written to a sink of which these calls fail, and the answer of the write.
fn written(
    alloc: Global,
    names: &Names,
    block: &Block,
    fails: &[(u64, u64)],
) -> Result<String, NoMemory> {
    let mut sink = MemSink::new(alloc, Vec::from_slice(alloc, fails)?);
    let answer = write_block(alloc, &mut sink, block, names);
    let text = str::from_utf8(sink.list()).unwrap_or("?");
    Ok(format!(in alloc; "{answer:?} {text}")?)
}

/// The lines of a block with the names of a tree and a world, and the answer of the write.
fn named(
    alloc: Global,
    tree: &Tree,
    world: &World,
    block: &Block,
    fails: &[(u64, u64)],
) -> Result<String, NoMemory> {
    let slots = slots_of(alloc, tree)?;
    let names = names_of(alloc, tree, world, &slots)?;
    written(alloc, &names, block, fails)
}

/// The lines of a block with the names of a tree and of a world with the facts `charge` and `door`
/// and a row for `A`, and the answer of the write.
fn tree_named(
    alloc: Global,
    tree: &Tree,
    block: &Block,
    fails: &[(u64, u64)],
) -> Result<String, NoMemory> {
    match read_world(
        alloc,
        b"bt-world 1\nfact charge 0\nfact door 0\naction A(p,q) timed 5\n",
    ) {
        Ok(world) => named(alloc, tree, &world, block, fails),
        Err(_) => Err(NoMemory),
    }
}

/// The lines of a block with the names of that world, and of a leaf `A` of which a port names the
/// key `load`, and the answer of the write.
fn text_of(alloc: Global, block: &Block, fails: &[(u64, u64)]) -> Result<String, NoMemory> {
    nodes_told(alloc, "<A p=\"{load}\"/>", |alloc, tree| {
        tree_named(alloc, tree, block, fails)
    })
}

/// The lines of a block without notes, and the answer of the write.
fn header_text(alloc: Global, header: Header) -> Result<String, NoMemory> {
    let mut block = block_for(alloc, 0)?;
    block.header = header;
    text_of(alloc, &block, &[])
}

/// Compares the lines of events with those that are wanted.
fn compare_headers(
    rt: &impl Abort,
    alloc: Global,
    rows: &[(Header, &str)],
) -> Result<(), NoMemory> {
    for (header, want) in rows {
        assert_eq!(rt; header_text(alloc, *header)?.as_str(), *want);
    }
    Ok(())
}

/// Events with their lines.
#[test]
fn events_have_their_lines(rt: HostRuntime) -> Result<(), NoMemory> {
    compare_headers(
        &rt,
        rt.alloc(),
        &[
            (Header::Tick { runner: 1, at: 0 }, "Ok(()) tick 1 at 0\n"),
            (
                Header::Halt {
                    runner: 16,
                    at: 299,
                },
                "Ok(()) halt 16 at 299\n",
            ),
            (
                Header::Change {
                    fact: 1,
                    value: -1,
                    at: 10,
                },
                "Ok(()) set door -1 at 10\n",
            ),
            (
                Header::Finish {
                    runner: 2,
                    at: u64::MAX,
                },
                "Ok(()) finish 2 at 18446744073709551615\n",
            ),
            (
                Header::Tell {
                    runner: 16,
                    uid: 4294967295,
                    succeeds: true,
                    at: 0,
                },
                "Ok(()) tell 16 4294967295 SUCCESS at 0\n",
            ),
            (
                Header::Tell {
                    runner: 1,
                    uid: 2,
                    succeeds: false,
                    at: 10,
                },
                "Ok(()) tell 1 2 FAILURE at 10\n",
            ),
        ],
    )
}

/// The lines of a tick with this note, and the answer of the write.
fn note_text(alloc: Global, note: Note) -> Result<String, NoMemory> {
    let mut block = block_for(alloc, 0)?;
    block.header = Header::Tick { runner: 1, at: 0 };
    block.notes.push(note)?;
    text_of(alloc, &block, &[])
}

/// Compares the lines of notes, each after that of its tick.
fn compare_notes(rt: &impl Abort, alloc: Global, rows: &[(Note, &str)]) -> Result<(), NoMemory> {
    for (note, want) in rows {
        let text = note_text(alloc, *note)?;
        let line = text.strip_prefix("Ok(()) tick 1 at 0\n").unwrap_or("?");
        assert_eq!(rt; line, *want);
    }
    Ok(())
}

/// Notes with their lines.
#[test]
fn notes_have_their_lines(rt: HostRuntime) -> Result<(), NoMemory> {
    compare_notes(
        &rt,
        rt.alloc(),
        &[
            (
                Note::Changed {
                    uid: 1,
                    old: Status::Idle,
                    new: Status::Running,
                },
                "node 1 IDLE RUNNING\n",
            ),
            (
                Note::Changed {
                    uid: 20,
                    old: Status::Success,
                    new: Status::Failure,
                },
                "node 20 SUCCESS FAILURE\n",
            ),
            (
                Note::Started {
                    uid: 2,
                    answer: Answer::Success,
                },
                "call 2 start SUCCESS\n",
            ),
            (
                Note::Ran {
                    uid: 3,
                    answer: Answer::Failure,
                },
                "call 3 running FAILURE\n",
            ),
            (
                Note::Started {
                    uid: 4,
                    answer: Answer::Skipped,
                },
                "call 4 start SKIPPED\n",
            ),
            (Note::Halted { uid: 5 }, "call 5 halted\n"),
            (
                Note::Root {
                    runner: 1,
                    answer: Answer::Running,
                },
                "root 1 RUNNING\n",
            ),
            (
                Note::Quenched {
                    runner: 1,
                    uid: u32::MAX,
                },
                "quench 1 4294967295\n",
            ),
        ],
    )
}

/// Compares the lines of faults: the runner, the node, the cause and the line that is wanted.
fn compare_faults(
    rt: &impl Abort,
    alloc: Global,
    rows: &[(u8, u32, Cause, &str)],
) -> Result<(), NoMemory> {
    for (runner, uid, cause, want) in rows {
        let (runner, uid, cause) = (*runner, *uid, *cause);
        let note = Note::Faulted { runner, uid, cause };
        compare_notes(rt, alloc, &[(note, want)])?;
    }
    Ok(())
}

/// Faults with their lines.
#[test]
fn faults_have_their_lines(rt: HostRuntime) -> Result<(), NoMemory> {
    compare_faults(
        &rt,
        rt.alloc(),
        &[
            (
                1,
                1,
                Cause::NoEntry { slot: 0 },
                "fault 1 1 NoEntry 0 load\n",
            ),
            (1, 1, Cause::NoInput { place: 1 }, "fault 1 1 NoInput q\n"),
            (1, 7, Cause::Overflow, "fault 1 7 Overflow\n"),
            (2, 8, Cause::ZeroDivisor, "fault 2 8 ZeroDivisor\n"),
            (3, 9, Cause::NotWhole, "fault 3 9 NotWhole\n"),
            (4, 10, Cause::Mixed, "fault 4 10 Mixed\n"),
            (5, 11, Cause::TextTooLong, "fault 5 11 TextTooLong\n"),
            (
                6,
                12,
                Cause::BadPort {
                    port: NumericPort::DelayMsec,
                },
                "fault 6 12 BadPort delay_msec\n",
            ),
        ],
    )
}

/// The value of a text: a number, or else the text. A text has at most 4,096 bytes.
fn value_of(alloc: Global, text: &str) -> Result<Value, NoMemory> {
    if text.len() > 4096 {
        return Err(NoMemory);
    }
    match text.parse::<i64>() {
        Ok(n) => Ok(Value::Int(n)),
        Err(_) => Ok(Value::Text(Txt::of(Vec::from_slice(alloc, text.as_bytes())?)?)),
    }
}

/// The lines of a tick with one new entry, in slot 0: its runner and its value.
fn entry_text(alloc: Global, text: &str) -> Result<String, NoMemory> {
    let (number, value) = text.split_once(' ').unwrap_or(("", ""));
    let runner = number.parse::<u8>().unwrap_or(0);
    let mut block = block_for(alloc, 0)?;
    block.header = Header::Tick { runner, at: 0 };
    block.entries.push((runner, 0, value_of(alloc, value)?))?;
    text_of(alloc, &block, &[])
}

/// Entries with their lines.
#[test]
fn entries_have_their_lines(rt: HostRuntime) -> Result<(), NoMemory> {
    compare(
        &rt,
        rt.alloc(),
        entry_text,
        &[
            ("1 -7", "Ok(()) tick 1 at 0\nboard 1 0 load -7\n"),
            ("2 it's", "Ok(()) tick 2 at 0\nboard 2 0 load 'it\\'s'\n"),
        ],
    )
}

/// The block of a tick in which a leaf is halted and two facts change.
fn a_tick(alloc: Global) -> Result<Block, NoMemory> {
    let mut block = block_for(alloc, 0)?;
    block.header = Header::Tick { runner: 1, at: 0 };
    block.notes.push(Note::Halted { uid: 5 })?;
    block.facts = Vec::from_slice(alloc, &[(1, i64::MIN), (0, 7)])?;
    Ok(block)
}

/// The lines of that tick, where the write of this number fails after three bytes.
fn tick_text(alloc: Global, write: &str) -> Result<String, NoMemory> {
    let fails = [(write.parse::<u64>().unwrap_or(0), 3)];
    text_of(alloc, &a_tick(alloc)?, &fails)
}

/// A tick of which one write fails: the lines before it, and the bytes of its own that were taken.
#[test]
fn a_failing_write_leaves_the_lines_before_it(rt: HostRuntime) -> Result<(), NoMemory> {
    compare(
        &rt,
        rt.alloc(),
        tick_text,
        &[
            (
                "none",
                "Ok(()) tick 1 at 0\ncall 5 halted\nfact door -9223372036854775808\nfact charge 7\n",
            ),
            ("1", "Err(WriteFault) tic"),
            ("2", "Err(WriteFault) tick 1 at 0\ncal"),
            ("3", "Err(WriteFault) tick 1 at 0\ncall 5 halted\nfac"),
            (
                "4",
                "Err(WriteFault) tick 1 at 0\ncall 5 halted\nfact door -9223372036854775808\nfac",
            ),
        ],
    )
}

/// A line of a number, a signed number and a text in quotes.
fn put_line(alloc: Global, number: u64, signed: i64, quoted: &[u8]) -> Result<SureSink, TextStop> {
    let mut line = Vec::new(alloc);
    put_number(&mut line, number)?;
    put_signed(&mut line, signed)?;
    put_quoted(&mut line, quoted)?;
    let mut sink = SureSink::new(alloc);
    write_line(&mut sink, line.as_slice())?;
    Ok(sink)
}

/// Numbers and quoted texts, at the limits of each.
#[test]
fn numbers_and_quotes(rt: HostRuntime) -> Result<(), TextStop> {
    let rows: [(u64, i64, &[u8], &[u8]); 2] = [
        (0, 0, b"", b"00''"),
        (
            u64::MAX,
            -40,
            b"it's a \\ \n\x00\x1f\x7f \xc3\xa9",
            b"18446744073709551615-40'it\\'s a \\\\ \\n\\x00\\x1f\x7f \xc3\xa9'",
        ),
    ];
    for (number, signed, quoted, want) in &rows {
        let line = put_line(rt.alloc(), *number, *signed, quoted)?;
        assert_eq!(rt; line.list(), *want);
    }
    Ok(())
}
