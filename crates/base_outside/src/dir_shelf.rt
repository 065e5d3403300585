ghost use Rattle.std.specs.Prelude.{◌≡◌, ◌≢◌, ◌<◌, ◌≤◌, ◌+◌, ◌-◌, ◌^◌, [], OnOk, IfErr, IsErrOf, IfSome, length};
ghost use Rattle.std.specs.Io.{ReadsAtMost};
ghost use Rattle.std.specs.IoError.{error_kind};
ghost use Rattle.std.specs.Io.KnownBytes.{ReadConsumes};
ghost use Rattle.spec_outside.specs.Counts.{Rose};
ghost use Rattle.base_outside.specs.Files.{IsPrefix};

use crate::shelf::Shelf;
use base_texts::Name;
use spec_outside::ShelfFault;
use std::fs;
use std::io::{self, ErrorKind, Read};
use std::marker::Model;
use std::rt::Files;

/// A shelf of the files of the host, by their paths. It tells nothing of what they hold. Contracts
/// see its count of failures.
#[derive(Drop)]
pub struct DirShelf<R: Files + Drop> {
    host: R,
    faults: u64,
}

impl<R: Files + Drop> Model for DirShelf<R> {
    ghost use Rattle.std.specs.Prelude.{ℕ};

    ghost Value = { ℕ };

    ghost view = { λ shelf. shelf.faults };
}

impl<R: Files + Drop> DirShelf<R> {
    /// A shelf of the files of this host. It allocates nothing.
    pub fn new(host: R) -> DirShelf<R>
        ensures { result ≡ 0 }
    {
        DirShelf { host, faults: 0 }
    }
}

/// The most bytes of one turn.
const TURN: usize = 4096;

/// One turn of reading. Where a signal interrupts it before it gives a byte it is tried again, as a write is.
fn read_turn<F: Read>(file: &mut F, turn: &mut [u8]) -> io::Result<usize>
    ensures bound { ReadsAtMost result turn.new }
    ensures bytes { ReadConsumes (F.remaining file.old) (F.remaining file.new) result turn.new }
    ensures size { length turn.new ≡ length turn.old }
    ensures retried { IfErr result (λ error. error_kind error ≢ ErrorKind.Interrupted) }
{
    for _ in 0..u64::MAX {
        match file.read(turn) {
            Ok(given) => return Ok(given),
            Err(error) => {
                if error.kind() != ErrorKind::Interrupted {
                    return Err(error);
                }
            }
        }
    }
    Err(ErrorKind::Other.into())
}

/// Reads what is left of a file, in turns that each give at least one byte: one that gives none is the
/// file's end. It stops after `limit + 1` bytes, with `TooLong`. `Failed` where the host fails to read,
/// `NoMemory` (want of memory, that is, out of memory) where the room cannot grow.
fn read_turns<F: Read>(file: &mut F, room: &mut Vec<u8>, limit: u64) -> Result<(), ShelfFault>
    requires empty { room.old.items ≡ [] }
    requires below_last { limit < 2 ^ 64 - 1 }

    ensures within { OnOk result (length room.new.items ≤ limit) }
    ensures whole { OnOk result (IfSome (F.remaining file.old) (λ bytes. room.new.items ≡ bytes)) }
    ensures past { IsErrOf result ShelfFault.TooLong → length room.new.items ≡ limit + 1 }
    ensures longer { IsErrOf result ShelfFault.TooLong → IfSome (F.remaining file.old) (λ bytes. limit < length bytes) }
    ensures prefix { IfSome (F.remaining file.old) (λ bytes. IsPrefix room.new.items bytes) }
{
    let mut turn = [0; TURN];
    'turns: while room.len() as u64 <= limit {
        let left = (limit + 1) - room.len() as u64;
        let most = left.min(TURN as u64) as usize;
        match read_turn(file, &mut turn[..most]) {
            Err(_) => return Err(ShelfFault::Failed),
            Ok(0) => return Ok(()),
            Ok(given) => {
                if room.extend_from_slice(&turn[..given]).is_err() {
                    return Err(ShelfFault::NoMemory);
                }
            }
        }
    }
    Err(ShelfFault::TooLong)
}

/// Reads the file at the path of this name. Its faults are those of `Shelf::read`.
fn read_file<R: Files>(
    host: &R,
    name: &Name,
    room: &mut Vec<u8>,
    limit: u64,
) -> Result<(), ShelfFault>
    requires empty { room.old.items ≡ [] }
    requires below_last { limit < 2 ^ 64 - 1 }

    ensures within { OnOk result (length room.new.items ≤ limit) }
    ensures past { IsErrOf result ShelfFault.TooLong → length room.new.items ≡ limit + 1 }
{
    let path = str::from_utf8(name.list()).unwrap();
    let mut file = fs::open(host, path).map_err(|_| ShelfFault::Failed)?;
    read_turns(&mut file, room, limit)
}

impl<R: Files + Drop> Shelf for DirShelf<R> {
    ghost use Rattle.std.specs.Prelude.{None};
    ghost use Rattle.base_outside.specs.Reads.{count_after};

    ghost holds = { λ _. None };

    ghost faults = { λ faults. faults };

    ghost read_gives = { λ old _ answer new. new ≡ count_after answer old };

    fn read(&mut self, name: &Name, room: &mut Vec<u8>, limit: u64) -> Result<(), ShelfFault>
        requires empty { room.old.items ≡ [] }
        requires below_last { limit < 2 ^ 64 - 1 }

        ensures count { self.old ≤ self.new }
        ensures within { OnOk result (length room.new.items ≤ limit) }
        ensures past { IsErrOf result ShelfFault.TooLong → length room.new.items ≡ limit + 1 }
        ensures failed { IsErrOf result ShelfFault.Failed → Rose self.old self.new }

        ensures counted { self.new ≡ count_after result self.old }
    {
        let answer = read_file(&self.host, name, room, limit);
        if answer == Err(ShelfFault::Failed) {
            self.faults = self.faults.saturating_add(1);
        }
        answer
    }

    ghost failure_counts = { λ _ _ _ _ counted. counted };
}
