ghost use Rattle.std.specs.Prelude.{◌≡◌, ◌≢◌, ◌≤◌, ◌<◌, ◌+◌, ◌-◌, [], All, IfOk, IsErrOf, OnOk, length, take};
ghost use Rattle.base_outside.specs.InLines.{IsLine, Took, WasRead};
ghost use Rattle.spec_outside.specs.Counts.{Rose};
ghost use Rattle.spec_outside.specs.Lines.{TakesNext, most_line_bytes};

use crate::lines::Lines;
use base_texts::NoMemory;
use memchr::memchr;
use spec_outside::LineFault;
use std::alloc::Global;
use std::io::{self, BufRead, BufReader, ErrorKind, Read};
use std::marker::Model;

/// An input of lines over a reader of the host: `rt.reader()` is the standard input of the host, which tells nothing of
/// what it gives. A reader that tells its bytes makes an input that does. It reads ahead what has arrived, and waits for
/// no more than the line that is asked for.
#[derive(Drop)]
pub struct InLines<R: Read + Drop> {
    reader: BufReader<R>,
    faults: u64,
}

impl<R: Read + Drop> Model for InLines<R> {
    ghost use Rattle.std.specs.Io.Buffered.{reader_remaining};
    ghost use Rattle.base_outside.specs.InLines.{InState};

    ghost Value = { InState };

    ghost view = { λ s. record { ahead = reader_remaining R.remaining s.reader; faults = s.faults } };
}

/// The most bytes of a line, without its line feed.
const MOST_LINE_BYTES: usize = 65_536;

impl<R: Read + Drop> InLines<R> {
    /// An input over this reader. Where there is no memory for its room, the reader is dropped.
    pub fn new(alloc: Global, reader: R) -> Result<InLines<R>, NoMemory>
        ensures { IfOk result (λ lines. lines ≡ record { ahead = R.remaining reader; faults = 0 }) }
    {
        match BufReader::new(alloc, reader) {
            Ok(reader) => Ok(InLines { reader, faults: 0 }),
            Err(_) => Err(NoMemory),
        }
    }
}

/// How many of these bytes are of one line: those up to and with the first line feed, or all where there is none.
fn line_len(bytes: &[u8]) -> usize
    ensures bound { result ≤ length bytes.now }
    ensures some { 0 < length bytes.now → 0 < result }
    ensures before { All (λ b. b ≢ 10) (take (result - 1) bytes.now) }
{
    match memchr(b'\n', bytes) {
        Some(place) => place + 1,
        None => bytes.len(),
    }
}

/// One turn of reading a line: takes what the reader has at hand of it, as far as the line is not too long, and says
/// whether its line feed or the end of the input was met. A turn that a signal interrupts takes nothing.
fn take_turn<B: BufRead>(reader: &mut B, room: &mut Vec<u8>) -> io::Result<bool>
    requires open { length room.old.items ≤ most_line_bytes }
    ensures few { OnOk result (length room.new.items ≤ most_line_bytes + 1) }
    ensures took { IfOk result (λ met.
        Took met room.old.items room.new.items (B.remaining reader.old) (B.remaining reader.new)) }
{
    let available = match reader.fill_buf() {
        Ok(available) => available,
        Err(error) if error.kind() == ErrorKind::Interrupted => return Ok(false),
        Err(error) => return Err(error),
    };
    let most = available.len().min(MOST_LINE_BYTES + 1 - room.len());
    let end = line_len(&available[..most]);
    room.extend_from_slice(&available[..end])?;
    let is_met = end == 0 || available[end - 1] == b'\n';
    reader.consume(end);
    Ok(is_met)
}

/// Reads up to the next line feed or the end of the input, and no more than is too long for a line.
fn read_line<B: BufRead>(reader: &mut B, room: &mut Vec<u8>) -> io::Result<()>
    requires empty { room.old.items ≡ [] }
    ensures read { OnOk result (WasRead (B.remaining reader.old) room.new.items (B.remaining reader.new)) }
{
    for _ in 0..u64::MAX {
        if take_turn(reader, room)? || room.len() > MOST_LINE_BYTES {
            return Ok(());
        }
    }
    Err(ErrorKind::Other.into())
}

/// What the bytes that were read up to a line feed are: a line, which is then without its line feed, or the end.
fn line_of(room: &mut Vec<u8>) -> Result<bool, LineFault>
    ensures line { IsLine room.old.items result room.new.items }
    ensures read { ¬ IsErrOf result LineFault.Failed }
{
    match room.last() {
        None => Ok(false),
        Some(b'\n') => {
            room.pop();
            Ok(true)
        }
        Some(_) if room.len() > MOST_LINE_BYTES => Err(LineFault::TooLong),
        Some(_) => Err(LineFault::Cut),
    }
}

impl<R: Read + Drop> Lines for InLines<R> {
    ghost ahead = { λ s. s.ahead };

    ghost faults = { λ s. s.faults };

    fn next(&mut self, room: &mut Vec<u8>) -> Result<bool, LineFault>
        ensures taken { TakesNext self.old.ahead result room.new.items self.new.ahead }
        ensures failed { IsErrOf result LineFault.Failed → Rose self.old.faults self.new.faults }
        ensures count { self.old.faults ≤ self.new.faults }
    {
        room.clear();
        match read_line(&mut self.reader, room) {
            Ok(()) => line_of(room),
            Err(error) if error.kind() == ErrorKind::OutOfMemory => Err(LineFault::NoMemory),
            Err(_) => {
                self.faults = self.faults.saturating_add(1);
                Err(LineFault::Failed)
            }
        }
    }
}
