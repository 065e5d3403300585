//! What shelves and clocks give, and what sinks take, in memory and on the host.

use base_outside::{
    Clock, DirShelf, HostClock, MemClock, MemShelf, MemSink, OutSink, Shelf, Sink, SureShelf,
    SureSink,
};
use base_texts::{Name, NoMemory};
use std::alloc::{AllocError, Global};
use std::cell::Cell;
use std::test::Fail;
use std::time::Duration;
use std::{io, rt, thread};

/// What a sink answers to each piece.
fn answers<K: Sink>(alloc: Global, sink: &mut K, pieces: &[&str]) -> Result<String, AllocError> {
    let mut text = String::new(alloc);
    for piece in pieces {
        let answer = sink.write(piece.as_bytes());
        text.push_str(format!(in alloc; "{answer:?} ")?.as_str())?;
    }
    Ok(text)
}

/// What a sink in memory answers, and what it then holds. Each pair of `fails` is a call that
/// fails, and how many bytes it takes before.
fn mem_text(alloc: Global, fails: &[(u64, u64)], pieces: &[&str]) -> Result<String, AllocError> {
    let mut sink = MemSink::new(alloc, Vec::from_slice(alloc, fails)?);
    let text = answers(alloc, &mut sink, pieces)?;
    format!(in alloc; "{text}{}", str::from_utf8(sink.list()).unwrap_or("?"))
}

/// What a sink in memory that never fails answers, and what it then holds.
fn sure_text(alloc: Global, pieces: &[&str]) -> Result<String, AllocError> {
    let mut sink = SureSink::new(alloc);
    let text = answers(alloc, &mut sink, pieces)?;
    format!(in alloc; "{text}{}", str::from_utf8(sink.list()).unwrap_or("?"))
}

/// Sinks in memory take each piece, or a prefix of it where the call fails.
#[test]
fn sinks_in_memory(rt: HostRuntime) -> Result<(), Fail> {
    let alloc = rt.alloc();
    let table: [(&[(u64, u64)], &[&str], &str); 4] = [
        (&[], &["abc", "de"], "Ok(()) Ok(()) abcde"),
        (&[(2, 2)], &["abc", "def"], "Ok(()) Err(Failed) abcde"),
        (
            &[(2, 2)],
            &["abc", "def", "gh"],
            "Ok(()) Err(Failed) Ok(()) abcdegh",
        ),
        (&[(1, 9)], &["abc"], "Err(Failed) abc"),
    ];
    for (fails, pieces, want) in table {
        assert_eq!(rt; mem_text(alloc, fails, pieces)?.as_str(), want);
    }
    Ok(())
}

/// A sink that never fails takes all pieces.
#[test]
fn sinks_that_never_fail(rt: HostRuntime) -> Result<(), Fail> {
    assert_eq!(rt;
        sure_text(rt.alloc(), &["abc", "de"])?.as_str(),
        "Ok(()) Ok(()) abcde"
    );
    Ok(())
}

/// What a sink answers over a writer with room for four bytes, and then its flush.
fn full_text(alloc: Global, pieces: &[&str]) -> Result<String, NoMemory> {
    let mut room = [0u8; 4];
    let mut sink = OutSink::new(alloc, room.as_mut_slice())?;
    let text = answers(alloc, &mut sink, pieces)?;
    let flushed = sink.flush();
    Ok(format!(in alloc; "{text}{flushed:?}")?)
}

/// What a sink answers over such a writer where two pieces are longer than its buffer. They go to
/// the writer itself, as far as it takes them.
fn long_text(alloc: Global) -> Result<String, NoMemory> {
    let bytes = vec![in alloc; b'x'; 65_536]?;
    let long = str::from_utf8(bytes.as_slice()).unwrap_or("?");
    full_text(alloc, &[long, long])
}

/// Sinks over writers of the host, and over one that is soon full.
#[test]
fn sinks_over_writers(rt: HostRuntime) -> Result<(), Fail> {
    let alloc = rt.alloc();
    let mut sink = OutSink::new(alloc, io::writer(&rt))?;
    assert_eq!(rt; sink.write(b"a line\n"), Ok(()));
    assert_eq!(rt; sink.flush(), Ok(()));
    let table: [(&[&str], &str); 3] = [
        (&[], "Ok(())"),
        (&["abc", "d"], "Ok(()) Ok(()) Ok(())"),
        (&["abc", "def"], "Ok(()) Ok(()) Err(Failed)"),
    ];
    for (pieces, want) in table {
        assert_eq!(rt; full_text(alloc, pieces)?.as_str(), want);
    }
    assert_eq!(rt;
        long_text(alloc)?.as_str(),
        "Ok(()) Err(Failed) Err(Failed)"
    );
    Ok(())
}

/// A name of these bytes.
fn name(alloc: Global, text: &str) -> Result<Name, NoMemory> {
    Name::copied(alloc, text.as_bytes())
}

/// The files with these names and texts.
fn files(alloc: Global, pairs: &[(&str, &str)]) -> Result<Vec<(Name, Vec<u8>)>, NoMemory> {
    let mut files = Vec::new(alloc);
    for (key, text) in pairs {
        files.push((name(alloc, key)?, Vec::from_slice(alloc, text.as_bytes())?))?;
    }
    Ok(files)
}

/// What a shelf answers to each read of a name with a limit, and how many bytes it gave.
fn read_text<S: Shelf>(
    alloc: Global,
    shelf: &mut S,
    reads: &[(&str, u32)],
) -> Result<String, NoMemory> {
    let mut text = String::new(alloc);
    for (file, limit) in reads {
        let mut room = Vec::new(alloc);
        let answer = shelf.read(&name(alloc, file)?, &mut room, u64::from(*limit));
        let front = str::from_utf8(&room.as_slice()[..room.len().min(9)]).unwrap_or("?");
        text.push_str(format!(in alloc; "{answer:?} {} {front};", room.len())?.as_str())?;
    }
    Ok(text)
}

/// A shelf in memory, whose third read fails: the first file of a name counts, and none is an empty
/// one.
#[test]
fn shelves_in_memory(rt: HostRuntime) -> Result<(), Fail> {
    let alloc = rt.alloc();
    let pairs = [("a", "first"), ("a", "second")];
    let reads = [("a", 5), ("a", 4), ("a", 5), ("b", 5)];
    let mut shelf = MemShelf::new(files(alloc, &pairs)?, vec![in alloc; 3]?);
    assert_eq!(rt;
        read_text(alloc, &mut shelf, &reads)?.as_str(),
        "Ok(()) 5 first;Err(TooLong) 5 first;Err(Failed) 0 ;Ok(()) 0 ;"
    );
    Ok(())
}

/// A shelf that never fails: files up to the limit, or a prefix of one that is too long.
#[test]
fn shelves_that_never_fail(rt: HostRuntime) -> Result<(), Fail> {
    let alloc = rt.alloc();
    let mut shelf = SureShelf::new(files(alloc, &[("a", "abc")])?);
    assert_eq!(rt;
        read_text(alloc, &mut shelf, &[("a", 3), ("a", 1)])?.as_str(),
        "Ok(()) 3 abc;Err(TooLong) 2 ab;"
    );
    Ok(())
}

/// Paths of the host that are a file, an endless one, a folder, and nothing.
#[test]
fn files_of_the_host(rt: HostRuntime) -> Result<(), Fail> {
    let alloc = rt.alloc();
    let mut shelf = DirShelf::new(&rt);
    for (path, want) in [
        ("/dev/null", "Ok(()) 0 ;"),
        ("/dev/zero", "Err(TooLong) 5001 \0\0\0\0\0\0\0\0\0;"),
        ("/", "Err(Failed) 0 ;"),
        ("/no such file", "Err(Failed) 0 ;"),
    ] {
        let text = read_text(alloc, &mut shelf, &[(path, 5000)])?;
        assert_eq!(rt; text.as_str(), want, "{path}");
    }
    Ok(())
}

/// What a clock gives at this many calls.
fn moments<C: Clock>(alloc: Global, clock: &mut C, calls: u32) -> Result<String, AllocError> {
    let mut text = String::new(alloc);
    for _ in 0..calls {
        text.push_str(format!(in alloc; "{} ", clock.now())?.as_str())?;
    }
    Ok(text)
}

/// A clock in memory gives its moments, and the last one again.
#[test]
fn clocks_in_memory(rt: HostRuntime) -> Result<(), Fail> {
    let alloc = rt.alloc();
    let table: [(&[u64], &str); 3] = [(&[], "0 0 0 "), (&[7], "7 7 7 "), (&[5, 3], "5 3 3 ")];
    for (ahead, want) in table {
        let mut clock = MemClock::new(Vec::from_slice(alloc, ahead)?);
        assert_eq!(rt; moments(alloc, &mut clock, 3)?.as_str(), want);
    }
    Ok(())
}

/// A clock that reads these microseconds one after the other, and a fault where there are none.
#[derive(Drop)]
struct Readings<'a> {
    times: &'a [Option<u64>],
    at: Cell<usize>,
}

impl rt::Clock for Readings<'_> {
    fn monotonic(&self) -> io::Result<Duration> {
        let at = self.at.get();
        self.at.set(at.saturating_add(1));
        match self.times.get(at) {
            Some(Some(time)) => Ok(Duration::from_micros(*time)),
            _ => Err(io::ErrorKind::Other.into()),
        }
    }

    fn since_1970(&self) -> io::Result<Duration> {
        self.monotonic()
    }
}

/// A clock over readings: in milliseconds since the first reading, never falling.
#[test]
fn clocks_over_readings(rt: HostRuntime) -> Result<(), Fail> {
    let table: [(&[Option<u64>], &str); 3] = [
        (&[Some(9_000), Some(14_999), None, Some(13_000)], "5 5 4 "),
        (
            &[Some(9_000), Some(8_000), Some(9_999), Some(10_000)],
            "0 0 1 ",
        ),
        (&[None, None, Some(9_000), Some(12_000)], "0 0 3 "),
    ];
    for (times, want) in table {
        let at = Cell::new(0);
        let mut clock = HostClock::new(Readings { times, at });
        assert_eq!(rt; moments(rt.alloc(), &mut clock, 3)?.as_str(), want);
    }
    Ok(())
}

/// The clock of the host goes on while the thread sleeps.
#[test]
fn the_clock_of_the_host(rt: HostRuntime) -> Result<(), Fail> {
    let mut clock = HostClock::new(&rt);
    thread::sleep(&rt, Duration::from_millis(3));
    assert!(rt; clock.now() >= 3);
    Ok(())
}
