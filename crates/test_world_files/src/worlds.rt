//! Which worlds scripts describe, and the first faulty line of the others.

use base_texts::{Name, Stop};
use spec_world::{How, Row, RowSort, World};
use std::alloc::{AllocError, Global};
use std::test::Fail;
use world_reader::read_world;

/// The text of a name.
fn shown(name: &Name) -> &str {
    str::from_utf8(name.list()).unwrap_or("?")
}

/// The kind of a row, with its numbers.
fn sort_text(alloc: Global, sort: &RowSort) -> Result<String, AllocError> {
    match sort {
        RowSort::Is { fact, op, value } => format!(in alloc; "is {fact} {op:?} {value}"),
        RowSort::When(_) => String::from_str(alloc, "when"),
        RowSort::Timed { ms, fails } => format!(in alloc; "timed {ms} {}", fails.is_some()),
        RowSort::TimedBy { fails, .. } => format!(in alloc; "timed by {}", fails.is_some()),
        RowSort::Replay { ms, outcomes } => {
            format!(in alloc; "replay {ms} {:?}", outcomes.list())
        }
        RowSort::Gate(_) => String::from_str(alloc, "gate"),
        RowSort::Sensed => String::from_str(alloc, "told"),
        RowSort::Told { outs } => told_text(alloc, outs.list()),
    }
}

/// The kind of an action that is told how it ended, with its outputs.
fn told_text(alloc: Global, outs: &[Name]) -> Result<String, AllocError> {
    let mut text = String::from_str(alloc, "told")?;
    for out in outs {
        text.push_str(format!(in alloc; " {}", shown(out))?.as_str())?;
    }
    Ok(text)
}

/// Adds the kind of a row, and what it needs.
fn put_sort(alloc: Global, row: &Row, out: &mut String) -> Result<(), AllocError> {
    let sort = sort_text(alloc, &row.sort)?;
    out.push_str(format!(in alloc; " {sort} {:?}", row.needs.list())?.as_str())
}

/// Adds what a row sets and puts out.
fn put_effects(alloc: Global, row: &Row, out: &mut String) -> Result<(), AllocError> {
    for set in row.sets.list() {
        let sign = match set.how {
            How::To => "=",
            How::By => "+=",
        };
        out.push_str(format!(in alloc; " {}{sign}{}", set.fact, set.value)?.as_str())?;
    }
    for output in row.outs.list() {
        out.push_str(format!(in alloc; " {}:", shown(&output.port))?.as_str())?;
    }
    Ok(())
}

/// Adds a row: its ID, its ports, its kind and its effects.
fn put_row(alloc: Global, row: &Row, out: &mut String) -> Result<(), AllocError> {
    out.push_str(shown(&row.id))?;
    for port in row.ports.list() {
        out.push(',')?;
        out.push_str(shown(port))?;
    }
    put_sort(alloc, row, out)?;
    put_effects(alloc, row, out)
}

/// Adds the facts and rows of a world.
fn put_rows(alloc: Global, world: &World, out: &mut String) -> Result<(), AllocError> {
    for fact in world.facts.list() {
        out.push_str(format!(in alloc; "{} {}; ", shown(&fact.name), fact.opening)?.as_str())?;
    }
    for row in world.rows.list() {
        put_row(alloc, row, out)?;
        out.push_str("; ")?;
    }
    Ok(())
}

/// Adds the goals, runners and events of a world.
fn put_events(alloc: Global, world: &World, out: &mut String) -> Result<(), AllocError> {
    let goals = world.goals.list();
    out.push_str(format!(in alloc; "{goals:?} {}", world.runners)?.as_str())?;
    for event in world.events.list() {
        out.push_str(format!(in alloc; "; {} {:?}", event.at, event.what)?.as_str())?;
    }
    Ok(())
}

/// A world as text: facts, rows, goals, runners and events.
fn world_text(alloc: Global, world: &World) -> Result<String, AllocError> {
    let mut text = String::new(alloc);
    put_rows(alloc, world, &mut text)?;
    put_events(alloc, world, &mut text)?;
    Ok(text)
}

/// The numbers of facts, rows, goals and events.
fn counts_text(alloc: Global, world: &World) -> Result<String, AllocError> {
    format!(in alloc;
        "{} {} {} {}",
        world.facts.list().len(),
        world.rows.list().len(),
        world.goals.list().len(),
        world.events.list().len()
    )
}

/// The world of a script as text, or its first faulty line.
fn told(alloc: Global, bytes: &[u8]) -> Result<String, AllocError> {
    if bytes.len() > 1_048_576 {
        return String::from_str(alloc, "too long");
    }
    match read_world(alloc, bytes) {
        Ok(world) => world_text(alloc, &world),
        Err(Stop::Fault(fault)) => format!(in alloc; "{:?} {}", fault.kind, fault.line),
        Err(Stop::NoMemory) => String::from_str(alloc, "no memory"),
    }
}

/// The first faulty line, or the numbers of facts, rows, goals and events.
fn counted(alloc: Global, bytes: &[u8]) -> Result<String, AllocError> {
    if bytes.len() > 1_048_576 {
        return String::from_str(alloc, "too long");
    }
    match read_world(alloc, bytes) {
        Ok(world) => counts_text(alloc, &world),
        Err(Stop::Fault(fault)) => format!(in alloc; "{:?} {}", fault.kind, fault.line),
        Err(Stop::NoMemory) => String::from_str(alloc, "no memory"),
    }
}

/// A script of these lines, which stand between slashes, after the header.
fn script(alloc: Global, lines: &str) -> Result<String, AllocError> {
    let mut text = String::from_str(alloc, "bt-world 1")?;
    for line in lines.split(" / ") {
        text.push('\n')?;
        text.push_str(line)?;
    }
    Ok(text)
}

/// The world of these lines as text, or its first faulty line.
fn lines_told(alloc: Global, lines: &str) -> Result<String, AllocError> {
    told(alloc, script(alloc, lines)?.as_bytes())
}

/// Adds this many lines of a pattern, in which `#` stands for the number of the line.
fn add_lines(
    alloc: Global,
    text: &mut String,
    pattern: &str,
    count: usize,
) -> Result<(), AllocError> {
    for number in 0..count {
        let line = match pattern.split_once("#") {
            Some((front, rest)) => format!(in alloc; "\n{front}{number}{rest}")?,
            None => format!(in alloc; "\n{pattern}")?,
        };
        text.push_str(line.as_str())?;
    }
    Ok(())
}

/// The first faulty line, or the numbers of facts, rows, goals and events, of a script of two
/// patterns, each this many times after a text.
fn many_counted(
    alloc: Global,
    one: (&str, &str, usize),
    two: (&str, &str, usize),
) -> Result<String, AllocError> {
    let mut text = String::from_str(alloc, "bt-world 1")?;
    text.push_str(one.0)?;
    add_lines(alloc, &mut text, one.1, one.2)?;
    text.push_str(two.0)?;
    add_lines(alloc, &mut text, two.1, two.2)?;
    counted(alloc, text.as_bytes())
}

/// A world of a fact, a row and an event.
const PLAIN: &str = "x 1; A is 0 Equal 1 []; [] 1; 0 Tick(1)";

/// Whole files, and the world of each.
static WHOLE: [(&[u8], &str); 14] = [
    (b"bt-world 1", "[] 1"),
    (b"bt-world 1\r", "[] 1"),
    (b"", "Header 1"),
    (b"\n", "Header 1"),
    (b"bt-world 1 \n", "Header 1"),
    (b"bt-world 1\r\r\n", "Header 1"),
    (b"fact x 1\n", "Header 1"),
    (
        b"bt-world 1\nfact x 1\ncondition A is x == 1\ntick 1\n",
        PLAIN,
    ),
    (
        b"bt-world 1\r\nfact x 1\r\n\tcondition  A is\tx == 1 \r\ntick 1\r",
        PLAIN,
    ),
    (
        b"bt-world 1\n\n \t\nfact x 1\n  # a comment \xff\r\r\ncondition A is x == 1\n#\ntick 1\n",
        PLAIN,
    ),
    (b"bt-world 1\ntick 1\r\r\n", "BadLine 2"),
    (b"bt-world 1\nfact x 1 \x7f\n", "BadLine 2"),
    (b"bt-world 1\n\xc3\xa9 1\n", "BadLine 2"),
    (
        b"bt-world 1\nfact x 1\n\ncondition A is y == 1\nfact x 1",
        "NoName 4",
    ),
];

/// Each of `WHOLE` is read as wanted.
#[test]
fn whole_files(rt: HostRuntime) -> Result<(), Fail> {
    let alloc = rt.alloc();
    for (bytes, want) in &WHOLE {
        assert_eq!(rt; told(alloc, bytes)?.as_str(), *want);
    }
    Ok(())
}

/// Scripts, with their lines between slashes, and the world of each.
static ACCEPTED: [(&str, &str); 22] = [
    (
        "fact x -9223372036854775808 / fact y 9223372036854775807",
        "x -9223372036854775808; y 9223372036854775807; [] 1",
    ),
    (
        "fact x 0 / condition x is x >= -1 / goal x",
        "x 0; x is 0 AtLeast -1 []; [0] 1",
    ),
    (
        "fact x 0 / condition C(p,q) when p + q == x && !x ? 1 : -p",
        "x 0; C,p,q when []; [] 1",
    ),
    (
        "fact x 0 / condition C is x < 2 / action A(speed) timed 300 / # how / needs C / sets x = -1 /  / fails speed > x / out left = 2 * speed / out right = x",
        "x 0; C is 0 Less 2 []; A,speed timed 300 true [0] 0=-1 left: right:; [] 1",
    ),
    (
        "fact x 0 / action A(p) timed (p * x) / fails p > x / sets x = 1",
        "x 0; A,p timed by true [] 0=1; [] 1",
    ),
    (
        "action A timed  ( 1 )\t / action B timed ((1) + (2))",
        "A timed by false []; B timed by false []; [] 1",
    ),
    ("action A replay 0 SF", "A replay 0 [true, false] []; [] 1"),
    (
        "fact x 0 / action A(p) gate x == p / sets x = 1",
        "x 0; A,p gate [] 0=1; [] 1",
    ),
    (
        "fact x 0 / fact y 0 / action A timed 1 / sets y += -1 / sets x = 1",
        "x 0; y 0; A timed 1 false [] 1+=-1 0=1; [] 1",
    ),
    (
        "fact x 0 / fact y 0 / fact z 0 / action A replay 0 F / sets\tx\t+=  0 / sets y += -9223372036854775808 / sets z += 9223372036854775807",
        "x 0; y 0; z 0; A replay 0 [false] [] 0+=0 1+=-9223372036854775808 2+=9223372036854775807; [] 1",
    ),
    (
        "runners 2 / fact x 0 / tick 2 / at 5 / halt 1 / at 5 / set x 7",
        "x 0; [] 2; 0 Tick(2); 5 Halt(1); 5 Change { fact: 0, value: 7 }",
    ),
    (
        "at 1000000000000 / runners 16 / tick 16",
        "[] 16; 1000000000000 Tick(16)",
    ),
    (
        "every 100 until 200 tick 1",
        "[] 1; 0 Tick(1); 100 Tick(1); 200 Tick(1)",
    ),
    (
        "runners 2 / at 50 / every  100\tuntil 249 tick 2  halt 1 / tick 1",
        "[] 2; 50 Tick(2); 50 Halt(1); 150 Tick(2); 150 Halt(1); 150 Tick(1)",
    ),
    (
        "at 7 / every 1000000000000 until 7 halt 1 / at 7 / tick 1",
        "[] 1; 7 Halt(1); 7 Tick(1)",
    ),
    (
        "tick 1 / every 3 until 4 tick 1 / every 2 until 5 tick 1 / at 5",
        "[] 1; 0 Tick(1); 0 Tick(1); 3 Tick(1); 3 Tick(1); 5 Tick(1)",
    ),
    (
        "at 999999999999 / every 1 until 1000000000000 tick 1 tick 1",
        "[] 1; 999999999999 Tick(1); 999999999999 Tick(1); 1000000000000 Tick(1); 1000000000000 Tick(1)",
    ),
    (
        "action A timed 1 / every 9 until 0 halt 1",
        "A timed 1 false []; [] 1; 0 Halt(1)",
    ),
    ("condition C told", "C told []; [] 1"),
    (
        "condition C(p,q) told / action A(p)\ttold / out level / # of the arm /  / out note  / fact x 1",
        "x 1; C,p,q told []; A,p told level note []; [] 1",
    ),
    (
        "action A told / out p / action B told / out p / out A / out x",
        "A told p []; B told p A x []; [] 1",
    ),
    (
        "action A(a,b,c,d,e,f,g,h) timed 1",
        "A,a,b,c,d,e,f,g,h timed 1 false []; [] 1",
    ),
];

/// Each of `ACCEPTED` is read as the world that is wanted.
#[test]
fn accepted(rt: HostRuntime) -> Result<(), Fail> {
    let alloc = rt.alloc();
    for (lines, want) in &ACCEPTED {
        assert_eq!(rt; lines_told(alloc, lines)?.as_str(), *want, "{lines}");
    }
    Ok(())
}

/// Scripts, with their lines between slashes, and the first faulty line of each.
const FAULTS: &str = "fact => BadLine 2
fact x => BadLine 2
fact 1x 1 => BadLine 2
fact x 01 => BadLine 2
fact x -0 => BadLine 2
fact x +1 => BadLine 2
fact x 1 2 => BadLine 2
facts x 1 => BadLine 2
fact aaaaaaaaaaaaaaaaaaaaaaaaaaaaaaaaaaaaaaaaaaaaaaaaaaaaaaaaaaaaaaaaa 1 => BadLine 2
condition A => BadLine 2
fact x 1 / condition A is x = 1 => BadLine 3
fact x 1 / condition A(p) is x == 1 => BadLine 3
condition A when => BadLine 2
condition A when 'a' == 'a' => BadLine 2
condition A when 1 + => BadLine 2
condition A when 9223372036854775808 => BadLine 2
condition A() when 1 => BadLine 2
condition A(p,) when 1 => BadLine 2
condition A(p when 1 => BadLine 2
condition A (p) when 1 => BadLine 2
action A timed => BadLine 2
action A timed 1 2 => BadLine 2
action A timed ( => BadLine 2
action A timed () => BadLine 2
action A timed (1) 2 => BadLine 2
action A timed (1) + (2) => BadLine 2
action A timed ((1) + (2) => BadLine 2
action A timed -(1) => BadLine 2
action A timed('a') => BadLine 2
action A timed ('a') => BadLine 2
action A timed (99999999999999999999) => BadLine 2
action A(p) replay (p) S => BadLine 2
action A replay 1 => BadLine 2
action A replay 1 SX => BadLine 2
action A gate 1.5 => BadLine 2
fails 1 => BadLine 2
action A replay 1 S / fails 1 => BadLine 3
action A timed 1 / fails => BadLine 3
condition C when 1 / needs C => BadLine 3
fact x 1 / action A timed 1 / tick 1 / sets x = 1 => BadLine 5
fact x 1 / action A timed 1 / sets x=1 => BadLine 4
fact x 1 / action A timed 1 / sets x +=1 => BadLine 4
fact x 1 / action A timed 1 / sets x+= 1 => BadLine 4
fact x 1 / action A timed 1 / sets x + = 1 => BadLine 4
fact x 1 / action A timed 1 / sets x =+ 1 => BadLine 4
fact x 1 / action A timed 1 / sets x -= 1 => BadLine 4
fact x 1 / action A timed 1 / sets x += +1 => BadLine 4
fact x 1 / action A timed 1 / sets x += x => BadLine 4
fact x 1 / action A timed 1 / sets x += => BadLine 4
fact x 1 / action A timed 1 / sets x += 1 2 => BadLine 4
fact x 1 / condition C is x == 1 / sets x += 1 => BadLine 4
fact x 1 / action A timed 1 / out p 1 => BadLine 4
condition C told 1 => BadLine 2
condition C(p) Told => BadLine 2
action A told 1 => BadLine 2
action A() told => BadLine 2
out level => BadLine 2
condition C told / out level => BadLine 3
action A timed 1 / out level => BadLine 3
action A replay 1 S / out level => BadLine 3
action A gate 1 / out level => BadLine 3
action A told / out level = 3 => BadLine 3
action A told / out level = level => BadLine 3
action A told / out level = => BadLine 3
action A told / out level 3 => BadLine 3
action A told / out 3 => BadLine 3
action A told / out => BadLine 3
action A told / tick 1 / out level => BadLine 4
action A told / fails 1 => BadLine 3
action A told / fails x => BadLine 3
fact x 1 / action A told / sets x = 1 => BadLine 4
action A told / sets x = 9223372036854775808 => BadLine 3
fact x 1 / condition C is x == 1 / action A told / needs C => BadLine 5
action A told / needs C => BadLine 3
goal => BadLine 2
tick 1 / runners 1 => BadLine 3
at x => BadLine 2
tick 1 2 => BadLine 2
halt => BadLine 2
set x y => BadLine 2
fact x 9223372036854775808 => Range 2
fact x 1 / condition A is x == -9223372036854775809 => Range 3
action A timed 1000000000001 => Range 2
action A timed -1 => Range 2
action A replay 1000000000001 S => Range 2
fact x 1 / action A timed 1 / sets x = 9223372036854775808 => Range 4
fact x 1 / action A timed 1 / sets x += -9223372036854775809 => Range 4
runners 0 => Range 2
runners 17 => Range 2
at 1000000000001 => Range 2
tick 2 => Range 2
runners 2 / halt 3 => Range 3
fact x 1 / set x 9223372036854775808 => Range 3
fact x 1 / fact x 2 => DoubleName 3
action A timed 1 / condition A when 1 => DoubleName 3
action A timed (1) / action A timed (1) => DoubleName 3
action A timed 1 / action A timed 1 => DoubleName 3
action Script timed 1 => DoubleName 2
condition root when 1 => DoubleName 2
action A(p,q,p) timed 1 => DoubleName 2
action A timed 1 / fails 1 / fails 1 => DoubleName 4
action A timed (1) / fails 1 / fails x => DoubleName 4
fact x 1 / condition C is x == 1 / action A timed 1 / needs C / needs C => DoubleName 6
fact x 1 / action A timed 1 / sets x = 1 / sets x = 2 => DoubleName 5
fact x 1 / action A timed 1 / sets x = 1 / sets x += 1 => DoubleName 5
fact x 1 / action A timed 1 / sets x += 1 / sets x = 1 => DoubleName 5
fact x 1 / action A timed 1 / sets x += 1 / sets x += 1 => DoubleName 5
action A timed 1 / out p = 1 / out p = 1 => DoubleName 4
action A told / out p / out q / out p => DoubleName 5
action A told / condition A told => DoubleName 3
condition Parallel told => DoubleName 2
action A(p,p) told => DoubleName 2
fact x 1 / condition C is x == 1 / goal C / goal C => DoubleName 5
runners 1 / runners 1 => DoubleName 3
condition A is x == 1 / fact x 1 => NoName 2
condition A when aaaaaaaaaaaaaaaaaaaaaaaaaaaaaaaaaaaaaaaaaaaaaaaaaaaaaaaaaaaaaaaaaa => NoName 2
action A(p) gate p == x => NoName 2
action A timed 1 / fails x => NoName 3
action A timed (x) / fact x 1 => NoName 2
action A(p) timed (p + x) => NoName 2
fact x 1 / action A timed (x) / fails y => NoName 4
action A timed 1 / needs A => NoName 3
condition W when 1 / action A timed 1 / needs W => NoName 4
action A timed 1 / sets x = 1 => NoName 3
action A timed 1 / sets x += 1 => NoName 3
action A timed 1 / out p = p => NoName 3
goal G => NoName 2
condition C told / goal C => NoName 3
condition W when 1 / goal W => NoName 3
set x 1 => NoName 2
at 5 / at 4 => MomentBack 3
at 5 / every 1 until 4 tick 1 => MomentBack 3
every 2 until 5 tick 1 / at 3 => MomentBack 3
at 5 / every 1 until 4 tick 2 => Range 3
every 0 until 4 tick 1 => Range 2
every -1 until 4 tick 1 => Range 2
every 1000000000001 until 4 tick 1 => Range 2
every 99999999999999999999 until 4 tick 1 => Range 2
every 1 until -1 tick 1 => Range 2
every 1 until 1000000000001 tick 1 => Range 2
every 1 until 4 tick 2 => Range 2
runners 2 / every 1 until 4 tick 2 halt 3 => Range 3
every 1 until 4 tick 0 => Range 2
every 1 until 4 => BadLine 2
every 1 until => BadLine 2
every 1 => BadLine 2
every => BadLine 2
every 0 until 4 tick => BadLine 2
every 0 until 4 tick 1 tick => BadLine 2
every 0 until 4 tick 1 1 => BadLine 2
every 0 until 4 set x 1 => BadLine 2
every 0 until 4 tell 1 => BadLine 2
every 0 until 4 ticks 1 => BadLine 2
every 0 until 4 1 tick => BadLine 2
every 0 until 4 tick 01 => BadLine 2
every 0 till 4 tick 1 => BadLine 2
every 0 until 4 until 5 tick 1 => BadLine 2
every 01 until 4 tick 1 => BadLine 2
every 0 until 04 tick 1 => BadLine 2
every x until 4 tick 1 => BadLine 2
until 4 every 0 tick 1 => BadLine 2
every 1 until 4 tick 1 / runners 1 => BadLine 3
action A timed 1 / every 1 until 4 tick 1 / fails 1 => BadLine 4
action A(a,b,c,d,e,f,g,h,i) timed 1 => TooMany 2
condition C(a,b,c,d,e,f,g,h,i) told => TooMany 2
fact 1x 9223372036854775808 => BadLine 2
tick 1 / runners 17 => BadLine 3
sets x = 9223372036854775808 => BadLine 2
fact x 1 / fact x 9223372036854775808 => Range 3
runners 1 / runners 17 => Range 3
at 5 / at -1 => Range 3
action A timed 1 / condition A is x == 1 => DoubleName 3
action A timed 1 / out p = 1 / out p = x => DoubleName 4
condition A(a,b,c,d,e,f,g,h,i) when x => NoName 2";

/// Each of `FAULTS` has its first faulty line.
#[test]
fn first_faulty_lines(rt: HostRuntime) -> Result<(), Fail> {
    let alloc = rt.alloc();
    for row in FAULTS.split("\n") {
        let Some((lines, want)) = row.split_once(" => ") else {
            return Err(Fail::from("a row without =>"));
        };
        assert_eq!(rt; lines_told(alloc, lines)?.as_str(), want, "{lines}");
    }
    Ok(())
}

/// Twice a pattern and its number of lines after a text, and the numbers or the fault.
static LIMITS: [((&str, &str, usize), (&str, &str, usize), &str); 24] = [
    (("", "fact f# 1", 1024), ("", "", 0), "1024 0 0 0"),
    (("", "fact f# 1", 1025), ("", "", 0), "TooMany 1026"),
    (("", "action a# timed 1", 1024), ("", "", 0), "0 1024 0 0"),
    (("", "action a# timed 1", 1025), ("", "", 0), "TooMany 1026"),
    (
        ("", "condition c# when 1", 1025),
        ("", "", 0),
        "TooMany 1026",
    ),
    (
        ("\nfact x 1", "condition c# is x == 1", 65),
        ("", "goal c#", 64),
        "1 65 64 0",
    ),
    (
        ("\nfact x 1", "condition c# is x == 1", 65),
        ("", "goal c#", 65),
        "TooMany 132",
    ),
    (
        ("\nfact x 1", "condition c# is x == 1", 17),
        ("\naction A timed 1", "needs c#", 16),
        "1 18 0 0",
    ),
    (
        ("\nfact x 1", "condition c# is x == 1", 17),
        ("\naction A timed 1", "needs c#", 17),
        "TooMany 37",
    ),
    (
        ("", "fact f# 1", 17),
        ("\naction A timed 1", "sets f# = 1", 16),
        "17 1 0 0",
    ),
    (
        ("", "fact f# 1", 17),
        ("\naction A timed 1", "sets f# += 1", 17),
        "TooMany 36",
    ),
    (
        ("", "", 0),
        ("\naction A timed 1", "out p# = 1", 8),
        "0 1 0 0",
    ),
    (
        ("", "", 0),
        ("\naction A timed 1", "out p# = 1", 9),
        "TooMany 11",
    ),
    (("", "", 0), ("\naction A told", "out p#", 8), "0 1 0 0"),
    (("", "", 0), ("\naction A told", "out p#", 9), "TooMany 11"),
    (("", "action a# told", 1025), ("", "", 0), "TooMany 1026"),
    (
        ("", "tick 1", 99_999),
        ("", "tell 1 # FAILURE", 2),
        "TooMany 100002",
    ),
    (("", "tick 1", 100_000), ("", "", 0), "0 0 0 100000"),
    (("", "tick 1", 100_001), ("", "", 0), "TooMany 100002"),
    (
        ("\nevery 1 until 49999 tick 1 halt 1", "tick 1", 0),
        ("", "", 0),
        "0 0 0 100000",
    ),
    (
        ("\nevery 1 until 50000 tick 1 halt 1", "tick 1", 0),
        ("", "", 0),
        "TooMany 2",
    ),
    (
        ("\nevery 1 until 1000000000000 tick 1", "tick 1", 0),
        ("", "", 0),
        "TooMany 2",
    ),
    (
        ("", "tick 1", 99_990),
        ("\nevery 2 until 18 tick 1", "tick 1", 0),
        "0 0 0 100000",
    ),
    (
        ("", "tick 1", 99_991),
        ("\nevery 2 until 18 tick 1", "tick 1", 0),
        "TooMany 99993",
    ),
];

/// Each of `LIMITS` has the numbers or the fault that is wanted.
#[test]
fn limits(rt: HostRuntime) -> Result<(), Fail> {
    let alloc = rt.alloc();
    for (one, two, want) in &LIMITS {
        assert_eq!(rt;
            many_counted(alloc, *one, *two)?.as_str(),
            *want,
            "{} {}",
            one.1,
            two.1
        );
    }
    Ok(())
}
