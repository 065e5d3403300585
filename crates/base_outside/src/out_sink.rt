ghost use Rattle.std.specs.Prelude.{◌≡◌, ◌≤◌, [], length, take, Err, IfOk, OnOk, IsErrOf};
ghost use Rattle.std.specs.Io.KnownBytes.{Keeps};
ghost use Rattle.spec_outside.specs.Appending.{Appended, AppendedPrefix};
ghost use Rattle.spec_outside.specs.Counts.{Rose};
ghost use Rattle.base_outside.specs.Counts.{next};
ghost use Rattle.base_outside.specs.OutSink.{written_so_far};

use crate::sink::{Sink, SinkFault};
use base_texts::NoMemory;
use std::alloc::Global;
use std::io::{BufWriter, Write};
use std::marker::Model;

/// A sink over a writer of the host, which gathers pieces and hands them on when its room is full:
/// `io::writer(&rt)` is the standard output of the host, which tells nothing of what it wrote. A writer
/// that tells its bytes makes a sink that does. What a failure leaves unwritten stays gathered, so that
/// no byte is written twice or left out. Who is done calls `flush`, which says whether all was
/// written; a sink that is dropped tries it and tells nobody.
#[derive(Drop)]
pub struct OutSink<W: Write + Drop> {
    writer: BufWriter<W>,
    faults: u64,
}

impl<W: Write + Drop> Model for OutSink<W> {
    ghost use Rattle.std.specs.Io.Buffered.{writer_buffer, writer_inner};
    ghost use Rattle.base_outside.specs.OutSink.{OutState};

    ghost Value = { OutState };

    ghost view = { λ s. record { told = W.contents (writer_inner s.writer); gathered = writer_buffer s.writer; faults = s.faults } };
}

/// The most bytes that are gathered.
const ROOM: usize = 65_536;

impl<W: Write + Drop> OutSink<W> {
    /// A sink over this writer. Where there is no memory for its room, the writer is dropped.
    pub fn new(alloc: Global, writer: W) -> Result<OutSink<W>, NoMemory>
        ensures { IfOk result (λ sink. sink ≡ record { told = W.contents writer; gathered = []; faults = 0 }) }
    {
        match BufWriter::with_capacity(alloc, ROOM, writer) {
            Ok(writer) => Ok(OutSink { writer, faults: 0 }),
            Err(_) => Err(NoMemory),
        }
    }

    /// One turn: how many bytes of the piece the writer takes, and 0 where it fails. The writer is
    /// called in two places, so that of the call with room only the copy is left.
    #[inline(always)]
    fn turn(&mut self, piece: &[u8]) -> usize
        ensures bound { result ≤ length piece.now }
        ensures text { Appended (written_so_far self.old) (written_so_far self.new) (take result piece.now) }
        ensures calm { self.new.faults ≡ self.old.faults }
    {
        let room = self
            .writer
            .capacity()
            .wrapping_sub(self.writer.buffer().len());
        if piece.len() < room {
            self.hand_on(piece)
        } else {
            self.hand_on_apart(piece)
        }
    }

    /// Hands the piece to the writer: how many bytes it takes, and 0 where it fails.
    #[inline(always)]
    fn hand_on(&mut self, piece: &[u8]) -> usize
        ensures bound { result ≤ length piece.now }
        ensures text { Appended (written_so_far self.old) (written_so_far self.new) (take result piece.now) }
        ensures calm { self.new.faults ≡ self.old.faults }
    {
        self.writer.write(piece).unwrap_or(0)
    }

    /// `hand_on` as a call of its own, for a piece that has no room.
    #[cold]
    #[inline(never)]
    fn hand_on_apart(&mut self, piece: &[u8]) -> usize
        ensures bound { result ≤ length piece.now }
        ensures text { Appended (written_so_far self.old) (written_so_far self.new) (take result piece.now) }
        ensures calm { self.new.faults ≡ self.old.faults }
    {
        self.hand_on(piece)
    }

    /// Writes the piece in turns that each take at least one byte. A turn that takes none is a failure, the
    /// fault `Failed`.
    #[cold]
    #[inline(never)]
    fn write_turns(&mut self, piece: &[u8]) -> Result<(), SinkFault>
        ensures whole { OnOk result (Appended (written_so_far self.old) (written_so_far self.new) piece.now) }
        ensures prefix { AppendedPrefix (written_so_far self.old) (written_so_far self.new) piece.now }
        ensures failed { IsErrOf result SinkFault.Failed → Rose self.old.faults self.new.faults }
        ensures count { self.old.faults ≤ self.new.faults }
        ensures raised { IsErrOf result SinkFault.Failed → self.new.faults ≡ next self.old.faults }
        ensures calm { OnOk result (self.new.faults ≡ self.old.faults) }
        ensures no_memory { ¬ IsErrOf result SinkFault.NoMemory }
    {
        let mut at = 0;
        'turns: while at < piece.len() {
            let taken = self.turn(&piece[at..]);
            if taken == 0 {
                return self.fail();
            }
            at += taken;
        }
        Ok(())
    }

    /// Counts a failure, and answers it.
    #[cold]
    fn fail(&mut self) -> Result<(), SinkFault>
        ensures result { result ≡ Err SinkFault.Failed }
        ensures written { written_so_far self.new ≡ written_so_far self.old }
        ensures raised { self.new.faults ≡ next self.old.faults }
        ensures rose { Rose self.old.faults self.new.faults }
        ensures count { self.old.faults ≤ self.new.faults }
    {
        self.faults = self.faults.saturating_add(1);
        Err(SinkFault::Failed)
    }
}

impl<W: Write + Drop> Sink for OutSink<W> {
    ghost use Rattle.std.proofs.Common.{rules};
    ghost use Rattle.base_outside.specs.OutSink.{Gives, written_so_far as written_by};

    ghost written = { written_by };

    ghost handed = { λ s. s.told };

    ghost faults = { λ s. s.faults };

    ghost write_gives = { Gives };

    /// Writes the piece. Most pieces have room beside what is gathered, and are taken at once.
    #[inline]
    fn write(&mut self, piece: &[u8]) -> Result<(), SinkFault>
        ensures whole { OnOk result (Appended (written_so_far self.old) (written_so_far self.new) piece.now) }
        ensures prefix { AppendedPrefix (written_so_far self.old) (written_so_far self.new) piece.now }
        ensures failed { IsErrOf result SinkFault.Failed → Rose self.old.faults self.new.faults }
        ensures count { self.old.faults ≤ self.new.faults }

        ensures raised { IsErrOf result SinkFault.Failed → self.new.faults ≡ next self.old.faults }
        ensures calm { OnOk result (self.new.faults ≡ self.old.faults) }
        ensures no_memory { ¬ IsErrOf result SinkFault.NoMemory }
    {
        let taken = self.turn(piece);
        if taken == piece.len() {
            return Ok(());
        }
        if taken == 0 {
            return self.fail();
        }
        self.write_turns(&piece[taken..])
    }

    /// Hands what is gathered to the writer. `SinkFault::Failed` comes only where the writer fails, and
    /// raises the count of failures; what was not written stays gathered. It allocates nothing.
    fn flush(&mut self) -> Result<(), SinkFault>
        ensures kept { Keeps (written_so_far self.old) (written_so_far self.new) }
        ensures failed { IsErrOf result SinkFault.Failed → Rose self.old.faults self.new.faults }
        ensures count { self.old.faults ≤ self.new.faults }
        ensures handed { OnOk result (self.new.told ≡ written_so_far self.new) }

        ensures whole { OnOk result (self.new.gathered ≡ []) }
        ensures raised { IsErrOf result SinkFault.Failed → self.new.faults ≡ next self.old.faults }
        ensures calm { OnOk result (self.new.faults ≡ self.old.faults) }
        ensures no_memory { ¬ IsErrOf result SinkFault.NoMemory }
    {
        match self.writer.flush() {
            Ok(()) => Ok(()),
            Err(_) => self.fail(),
        }
    }

    ghost piece_appends = { λ old new piece gives. gives.0 };

    ghost failure_counts = { Prim.search rules };
}
