ghost use Rattle.std.specs.Prelude.{◌≡◌, ◌≤◌, ℕ, List, Option, Result, Ok, OnOk, IsErrOf};
ghost use Rattle.std.specs.Io.KnownBytes.{Keeps};
ghost use Rattle.spec_outside.specs.Appending.{Appended, AppendedPrefix};
ghost use Rattle.spec_outside.specs.Counts.{Rose};
ghost use Rattle.base_outside.specs.Writes.{count_after};
ghost use Rattle.base_outside.specs.declared.sink.SinkFault.{SinkFault};

/// Why a write failed.
#[derive(Clone, Copy, Debug, PartialEq, Eq)]
pub enum SinkFault {
    /// The sink did not take the whole piece.
    Failed,
    /// Want of memory (out of memory).
    NoMemory,
}

/// A sink of bytes, which are written one piece after another.
pub trait Sink {
    /// The bytes written so far, where the sink tells them.
    ghost written: { Self → Option (List ℕ) };

    /// The bytes that were handed on to whoever reads them, where the sink tells them.
    ghost handed: { Self → Option (List ℕ) };

    /// The count of failures. It never falls.
    ghost faults: { Self → ℕ };

    /// A write of this piece gives this answer, and leads from the first state to the second.
    ghost write_gives: { Self → List ℕ → Result (Unit {0}) SinkFault → Self → Type 0 };

    /// Writes the piece after what was written before. At every return some prefix of the piece
    /// was written. `SinkFault::Failed` comes only where the count of failures rose in this call.
    fn write(&mut self, piece: &[u8]) -> Result<(), SinkFault>
        ensures gives { write_gives self.old piece.now result self.new }
        ensures whole { OnOk result (Appended (written self.old) (written self.new) piece.now) }
        ensures prefix { AppendedPrefix (written self.old) (written self.new) piece.now }
        ensures failed { IsErrOf result SinkFault.Failed → Rose (faults self.old) (faults self.new) }
        ensures count { faults self.old ≤ faults self.new };

    /// Hands on all that was written to whoever reads it, and writes nothing. `SinkFault::Failed` comes only where the
    /// count of failures rose in this call.
    fn flush(&mut self) -> Result<(), SinkFault>
        ensures kept { Keeps (written self.old) (written self.new) }
        ensures handed { OnOk result (handed self.new ≡ written self.new) }
        ensures failed { IsErrOf result SinkFault.Failed → Rose (faults self.old) (faults self.new) }
        ensures count { faults self.old ≤ faults self.new };

    /// A write that is done has written its piece after what was there.
    ghost piece_appends: { (old new : Self) → (piece : List ℕ)
        → write_gives old piece (Ok tt) new → Appended (written old) (written new) piece };

    /// A write that fails raises the count of failures by one, up to its last value, and no other write changes it.
    ghost failure_counts: { (old new : Self) → (piece : List ℕ) → (gave : Result (Unit {0}) SinkFault)
        → write_gives old piece gave new → faults new ≡ count_after gave (faults old) };
}
