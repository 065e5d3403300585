ghost use Rattle.std.specs.Prelude.{◌≡◌, ◌≤◌, IfOk, length, map};
ghost use Rattle.spec_expect.specs.ExpectFile.{AfterContent, AfterLines, LinesRead, ReadsExpected};
ghost use Rattle.expect_watch.specs.Over.{AreOver};
ghost use Rattle.world_draft.specs.Readings.{Leaves};
ghost use Rattle.expect_reader.specs.Reading.{GivesItems, located, subject_seen};

use crate::forms::read_content;
use crate::places::places_of;
use crate::subject::{Subject, subject_of};
use base_texts::{Items, Stop};
use spec_expect::{ExpectFault, ExpectFaultKind, Expected};
use spec_tree::Tree;
use spec_world::World;
use std::alloc::Global;
use world_lines::{content, is, is_ignored, parts, trimmed, without_rest};

/// The most expectations of a file.
const MOST_EXPECTATIONS: usize = 1000;

/// Reads the content of the line of this number, and adds what it expects; blank lines and comments are ignored.
fn read_line(
    alloc: Global,
    subject: &Subject,
    line: u32,
    text: &[u8],
    expected: &mut Vec<Expected>,
) -> Result<(), Stop<ExpectFaultKind>>
    ensures { Leaves result expected.new.items (AfterContent (subject_seen subject.now) expected.old.items line text.now) }
{
    if is_ignored(text) {
        return Ok(());
    }
    let expectation = read_content(alloc, subject, text)?;
    if expected.len() >= MOST_EXPECTATIONS {
        return Err(Stop::Fault(ExpectFaultKind::TooMany));
    }
    expected.push(Expected { line, expectation })?;
    Ok(())
}

/// What is wrong with a line, with its number.
fn located(stop: Stop<ExpectFaultKind>, line: u32) -> Stop<ExpectFault>
    ensures { result ≡ located stop line }
{
    match stop {
        Stop::Fault(kind) => Stop::Fault(ExpectFault { line, kind }),
        Stop::NoMemory => Stop::NoMemory,
    }
}

/// Reads the lines, of which the first has the number 2, up to the first faulty one.
fn read_lines(
    alloc: Global,
    subject: &Subject,
    lines: &[&[u8]],
    expected: &mut Vec<Expected>,
) -> Result<(), Stop<ExpectFault>>
    requires { length lines.now ≤ 1048577 }
    ensures { Leaves result expected.new.items
        (AfterLines (subject_seen subject.now) 2 (map (λ text. text.now) lines.now) expected.old.items) }
{
    let mut line = 2;
    for text in lines {
        if let Err(stop) = read_line(alloc, subject, line, content(text), expected) {
            return Err(located(stop, line));
        }
        line += 1;
    }
    Ok(())
}

/// What the lines of a file expect, of which the first is the header.
fn read_file(
    alloc: Global,
    subject: &Subject,
    lines: &[&[u8]],
) -> Result<Items<Expected>, Stop<ExpectFault>>
    requires { length lines.now ≤ 1048577 }
    ensures { GivesItems result (LinesRead (subject_seen subject.now) (map (λ text. text.now) lines.now)) }
{
    match lines {
        [first, rest @ ..] if is(trimmed(first), "bt-expect 1") => {
            let mut expected = Vec::new(alloc);
            read_lines(alloc, subject, rest, &mut expected)?;
            Ok(Items::of(expected))
        }
        _ => Err(Stop::Fault(ExpectFault {
            line: 1,
            kind: ExpectFaultKind::Header,
        })),
    }
}

/// What a file of expectations expects of the run of this tree in this world, or its first faulty line.
pub fn read_expected(
    alloc: Global,
    tree: &Tree,
    world: &World,
    bytes: &[u8],
) -> Result<Items<Expected>, Stop<ExpectFault>>
    requires short { length bytes.now ≤ 1048576 }
    ensures reads { GivesItems result (ReadsExpected tree.now world.now bytes.now) }
    ensures over { IfOk result (AreOver world.now.facts) }
{
    let places = places_of(alloc, tree)?;
    let subject = subject_of(world, places.as_slice());
    let parts = parts(alloc, bytes, b'\n')?;
    read_file(alloc, &subject, without_rest(parts.as_slice()))
}
