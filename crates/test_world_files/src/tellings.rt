//! What leaves are told in world scripts: the telling of each line, and the fault of the others.

use base_texts::{Name, Stop};
use spec_script::Value;
use spec_world::{Telling, ToldOut, What, World};
use std::alloc::{AllocError, Global};
use std::test::Fail;
use world_reader::read_world;

/// The text of a name.
fn shown(name: &Name) -> &str {
    str::from_utf8(name.list()).unwrap_or("?")
}

/// An output that is told: its name, and its value, a text between bars.
fn out_text(alloc: Global, out: &ToldOut) -> Result<String, AllocError> {
    match &out.value {
        Value::Int(n) => format!(in alloc; " {}={n}", shown(&out.port)),
        Value::Text(text) => {
            let text = str::from_utf8(text.list()).unwrap_or("?");
            format!(in alloc; " {}=|{text}|", shown(&out.port))
        }
    }
}

/// What is told.
fn telling_text(alloc: Global, telling: &Telling) -> Result<String, AllocError> {
    let Telling::Success(outs) = telling else {
        return String::from_str(alloc, "FAILURE");
    };
    let mut text = String::from_str(alloc, "SUCCESS")?;
    for out in outs.list() {
        text.push_str(out_text(alloc, out)?.as_str())?;
    }
    Ok(text)
}

/// The tellings of a world, each with its moment, its runner and its leaf.
fn tellings_text(alloc: Global, world: &World) -> Result<String, AllocError> {
    let mut text = String::new(alloc);
    for event in world.events.list() {
        if let What::Tell {
            runner,
            uid,
            telling,
        } = &event.what
        {
            let telling = telling_text(alloc, telling)?;
            text.push_str(format!(in alloc; "{} {runner} {uid} {telling};", event.at)?.as_str())?;
        }
    }
    Ok(text)
}

/// The tellings of a script, or its first faulty line.
fn told(alloc: Global, bytes: &[u8]) -> Result<String, AllocError> {
    if bytes.len() > 1_048_576 {
        return String::from_str(alloc, "too long");
    }
    match read_world(alloc, bytes) {
        Ok(world) => tellings_text(alloc, &world),
        Err(Stop::Fault(fault)) => format!(in alloc; "{:?} {}", fault.kind, fault.line),
        Err(Stop::NoMemory) => String::from_str(alloc, "no memory"),
    }
}

/// The tellings of these lines after a header and `runners 2`, or the first faulty line.
fn lines_told(alloc: Global, lines: &[u8]) -> Result<String, AllocError> {
    let mut text = Vec::from_slice(alloc, b"bt-world 1\nrunners 2\n")?;
    text.extend_from_slice(lines)?;
    told(alloc, text.as_slice())
}

/// Lines, and what they tell, or the first faulty one, of which the first has the number 3.
static ROWS: [(&[u8], &str); 71] = [
    (b"tell 1 2 SUCCESS", "0 1 2 SUCCESS;"),
    (b"tell 2 0 FAILURE", "0 2 0 FAILURE;"),
    (
        b"\t tell  1\t4294967295   SUCCESS \t\r",
        "0 1 4294967295 SUCCESS;",
    ),
    (
        b"at 5\ntell 1 2 FAILURE\ntick 1\nat 7\ntell 1 2 SUCCESS",
        "5 1 2 FAILURE;7 1 2 SUCCESS;",
    ),
    (
        b"tell 1 2 SUCCESS level=3 note='a b'",
        "0 1 2 SUCCESS level=3 note=|a b|;",
    ),
    (
        b"tell 1 2 SUCCESS  b='' \t a=-9223372036854775808 ",
        "0 1 2 SUCCESS b=|| a=-9223372036854775808;",
    ),
    (
        b"tell 1 2 SUCCESS a=9223372036854775807 b=0",
        "0 1 2 SUCCESS a=9223372036854775807 b=0;",
    ),
    (b"tell 1 2 SUCCESS a='b=1 c=''", "BadLine 3"),
    (
        b"tell 1 2 SUCCESS a='b=1 c=' d='#'",
        "0 1 2 SUCCESS a=|b=1 c=| d=|#|;",
    ),
    (b"tell 1 2 SUCCESS a=' '", "0 1 2 SUCCESS a=| |;"),
    (
        b"tell 1 2 SUCCESS a='\\'\\\\\\n'",
        "0 1 2 SUCCESS a=|'\\\n|;",
    ),
    (
        b"tell 1 2 SUCCESS a='\\x1f\\x00\\x7e'",
        "0 1 2 SUCCESS a=|\x1f\x00~|;",
    ),
    (
        b"tell 1 2 SUCCESS a='\\xc3\\xa9' b='\\x7f'",
        "0 1 2 SUCCESS a=|\u{e9}| b=|\x7f|;",
    ),
    (b"tell 1 2 SUCCESS a='\\x0a\\x27'", "0 1 2 SUCCESS a=|\n'|;"),
    (b"tell 1 2 SUCCESS a='\"<&$~'", "0 1 2 SUCCESS a=|\"<&$~|;"),
    (
        b"tell 1 2 SUCCESS a=1 b=2 c=3 d=4 e=5 f=6 g=7 h='8'",
        "0 1 2 SUCCESS a=1 b=2 c=3 d=4 e=5 f=6 g=7 h=|8|;",
    ),
    (b"tell", "BadLine 3"),
    (b"tell 1", "BadLine 3"),
    (b"tell 1 2", "BadLine 3"),
    (b"tell 1 2 RUNNING", "BadLine 3"),
    (b"tell 1 2 success", "BadLine 3"),
    (b"tell 1 SUCCESS", "BadLine 3"),
    (b"tell 01 2 SUCCESS", "BadLine 3"),
    (b"tell 1 02 SUCCESS", "BadLine 3"),
    (b"tell 1 x SUCCESS", "BadLine 3"),
    (b"tell 1 2 FAILURE x=1", "BadLine 3"),
    (b"tell 1 2 FAILURE 1", "BadLine 3"),
    (b"tell 1 2 SUCCESS x", "BadLine 3"),
    (b"tell 1 2 SUCCESS =1", "BadLine 3"),
    (b"tell 1 2 SUCCESS 1=1", "BadLine 3"),
    (b"tell 1 2 SUCCESS x=", "BadLine 3"),
    (b"tell 1 2 SUCCESS x= 1", "BadLine 3"),
    (b"tell 1 2 SUCCESS x =1", "BadLine 3"),
    (b"tell 1 2 SUCCESS x = 1", "BadLine 3"),
    (b"tell 1 2 SUCCESS x==1", "BadLine 3"),
    (b"tell 1 2 SUCCESS x=01", "BadLine 3"),
    (b"tell 1 2 SUCCESS x=-0", "BadLine 3"),
    (b"tell 1 2 SUCCESS x=+1", "BadLine 3"),
    (b"tell 1 2 SUCCESS x=1.5", "BadLine 3"),
    (b"tell 1 2 SUCCESS x=y", "BadLine 3"),
    (b"tell 1 2 SUCCESS x=1y=2", "BadLine 3"),
    (b"tell 1 2 SUCCESS x=1'a'", "BadLine 3"),
    (b"tell 1 2 SUCCESS x='a'y=1", "BadLine 3"),
    (b"tell 1 2 SUCCESS x='a''b'", "BadLine 3"),
    (b"tell 1 2 SUCCESS x='a", "BadLine 3"),
    (b"tell 1 2 SUCCESS x='", "BadLine 3"),
    (b"tell 1 2 SUCCESS x='a\\'", "BadLine 3"),
    (b"tell 1 2 SUCCESS x='\\", "BadLine 3"),
    (b"tell 1 2 SUCCESS x='\\t'", "BadLine 3"),
    (b"tell 1 2 SUCCESS x='\\x1F'", "BadLine 3"),
    (b"tell 1 2 SUCCESS x='\\x1'", "BadLine 3"),
    (b"tell 1 2 SUCCESS x='\\x'", "BadLine 3"),
    (b"tell 1 2 SUCCESS x='\\xg0'", "BadLine 3"),
    (b"tell 1 2 SUCCESS x='\\xff'", "BadLine 3"),
    (b"tell 1 2 SUCCESS x='\\xc3' y='\\xa9'", "BadLine 3"),
    (b"tell 1 2 SUCCESS x='\\xed\\xa0\\x80'", "BadLine 3"),
    (b"tell 1 2 SUCCESS x='\t'", "BadLine 3"),
    (b"tell 1 2 SUCCESS x='\xc3\xa9'", "BadLine 3"),
    (
        b"tell 1 2 SUCCESS aaaaaaaaaaaaaaaaaaaaaaaaaaaaaaaaaaaaaaaaaaaaaaaaaaaaaaaaaaaaaaaaa=1",
        "BadLine 3",
    ),
    (b"tell 3 2 SUCCESS x=1 x=2", "Range 3"),
    (b"tell 0 2 FAILURE", "Range 3"),
    (b"tell -1 2 FAILURE", "Range 3"),
    (b"tell 1 -1 FAILURE", "Range 3"),
    (b"tell 1 4294967296 SUCCESS", "Range 3"),
    (b"tell 1 2 SUCCESS x=9223372036854775808 x=1", "Range 3"),
    (
        b"tell 1 2 SUCCESS y='a' x=-99999999999999999999999999",
        "Range 3",
    ),
    (b"tell 1 2 SUCCESS x=1 y=2 x='a'", "DoubleName 3"),
    (
        b"tell 1 2 SUCCESS a=1 b=2 c=3 d=4 e=5 f=6 g=7 h=8 i=9 a=1",
        "DoubleName 3",
    ),
    (
        b"tell 1 2 SUCCESS a=1 b=2 c=3 d=4 e=5 f=6 g=7 h=8 i=9",
        "TooMany 3",
    ),
    (b"action A told\ntell 1 2 SUCCESS\nout x", "BadLine 5"),
    (b"runners 1", "DoubleName 3"),
];

/// Each of `ROWS` tells what is wanted, or has its fault.
#[test]
fn rows(rt: HostRuntime) -> Result<(), Fail> {
    let alloc = rt.alloc();
    for (lines, want) in &ROWS {
        assert_eq!(rt; lines_told(alloc, lines)?.as_str(), *want);
    }
    Ok(())
}

/// A telling of a text that is this many times a piece, or the fault of its line.
fn long_told(alloc: Global, piece: &str, times: usize) -> Result<String, AllocError> {
    let mut line = String::from_str(alloc, "tell 1 2 SUCCESS x='")?;
    for _ in 0..times {
        line.push_str(piece)?;
    }
    line.push_str("' y=1")?;
    let text = lines_told(alloc, line.as_bytes())?;
    format!(in alloc; "{} {}", text.len(), text.as_str().ends_with("y=1;"))
}

/// Pieces of texts and how often each stands, and the length of what is told, and whether it is told to its end.
static LENGTHS: [(&str, usize, &str); 6] = [
    ("a", 4096, "4119 true"),
    ("a", 4097, "9 false"),
    ("\\x41", 4096, "4119 true"),
    ("\\'", 4097, "9 false"),
    ("\\xc3\\xa9", 2048, "4119 true"),
    ("\\xc3\\xa9", 2049, "9 false"),
];

/// Texts have at most 4,096 bytes, however many bytes their lines have.
#[test]
fn lengths(rt: HostRuntime) -> Result<(), Fail> {
    let alloc = rt.alloc();
    for (piece, times, want) in &LENGTHS {
        assert_eq!(rt;
            long_told(alloc, piece, *times)?.as_str(),
            *want,
            "{piece} {times}"
        );
    }
    Ok(())
}

/// How a line with this many outputs, which all differ but for the last two, ends.
fn many_told(alloc: Global, count: usize) -> Result<String, AllocError> {
    let mut line = String::from_str(alloc, "tell 1 2 SUCCESS")?;
    for number in 0..count {
        line.push_str(format!(in alloc; " a{number}=1")?.as_str())?;
    }
    line.push_str(" b=1 b=1")?;
    lines_told(alloc, line.as_bytes())
}

/// A name that stands twice is found among very many.
#[test]
fn many(rt: HostRuntime) -> Result<(), Fail> {
    assert_eq!(rt; many_told(rt.alloc(), 90_000)?.as_str(), "DoubleName 3");
    Ok(())
}
