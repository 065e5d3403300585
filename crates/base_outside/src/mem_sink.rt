ghost use Rattle.std.specs.Prelude.{◌≡◌, ◌≤◌, [], OnOk, IsErrOf, IsSome, IsNone};
ghost use Rattle.spec_outside.specs.Appending.{Appended, AppendedPrefix};
ghost use Rattle.spec_outside.specs.Counts.{Rose};
ghost use Rattle.base_outside.specs.Counts.{next};
ghost use Rattle.base_outside.specs.MemSink.{takes_at, takes_now, after_write};

use crate::sink::{Sink, SinkFault};
use crate::sure_sink::SureSink;
use std::alloc::Global;
use std::marker::Model;

/// A sink in memory of which some calls are to fail. Contracts see its bytes, these calls and its
/// counts as a `SinkState`.
#[derive(Debug, Drop)]
pub struct MemSink {
    sink: SureSink,
    fails: Vec<(u64, u64)>,
    calls: u64,
    faults: u64,
}

impl Model for MemSink {
    ghost use Rattle.base_outside.specs.MemSink.{SinkState};

    ghost Value = { SinkState };

    ghost view = { λ s. record { written = s.sink; fails = s.fails.items; calls = s.calls; faults = s.faults } };
}

impl MemSink {
    /// A sink without bytes. Each pair of `fails` is the number of a call that is to fail, counted
    /// from 1, with the number of bytes of its piece that it still takes. It allocates nothing.
    pub fn new(alloc: Global, fails: Vec<(u64, u64)>) -> MemSink
        ensures { result ≡ record { written = []; fails = fails.items; calls = 0; faults = 0 } }
    {
        MemSink {
            sink: SureSink::new(alloc),
            fails,
            calls: 0,
            faults: 0,
        }
    }

    /// Lends the bytes written.
    pub fn list(&self) -> &[u8]
        ensures { result.now ≡ self.now.written }
    {
        self.sink.list()
    }
}

/// How many bytes this call still takes, where it is to fail; else none.
fn takes(fails: &[(u64, u64)], call: u64) -> Option<u64>
    ensures { result ≡ takes_at fails.now call }
{
    for (number, bytes) in fails {
        if *number == call {
            return Some(*bytes);
        }
    }
    None
}

impl Sink for MemSink {
    ghost use Rattle.std.specs.Prelude.{Some};
    ghost use Rattle.base_outside.specs.MemSink.{Gives};
    ghost use Rattle.std.proofs.Common.{rules};

    ghost written = { λ s. Some s.written };

    ghost handed = { λ s. Some s.written };

    ghost faults = { λ s. s.faults };

    ghost write_gives = { Gives };

    fn write(&mut self, piece: &[u8]) -> Result<(), SinkFault>
        ensures whole { OnOk result (Appended (Some self.old.written) (Some self.new.written) piece.now) }
        ensures prefix { AppendedPrefix (Some self.old.written) (Some self.new.written) piece.now }
        ensures failed { IsErrOf result SinkFault.Failed → Rose self.old.faults self.new.faults }
        ensures count { self.old.faults ≤ self.new.faults }

        ensures good_call { OnOk result (IsNone (takes_now self.old)) }
        ensures failing_call { IsErrOf result SinkFault.Failed → IsSome (takes_now self.old) }
        ensures after { ¬ IsErrOf result SinkFault.NoMemory → self.new ≡ after_write self.old piece.now }
        ensures kept { IsErrOf result SinkFault.NoMemory → self.new ≡ record self.old { calls = next self.old.calls } }
    {
        self.calls = self.calls.saturating_add(1);
        match takes(self.fails.as_slice(), self.calls) {
            None => self.sink.write(piece),
            Some(bytes) => {
                let taken = bytes.min(piece.len() as u64) as usize;
                self.sink.write(&piece[..taken])?;
                self.faults = self.faults.saturating_add(1);
                Err(SinkFault::Failed)
            }
        }
    }

    /// All is here as soon as it is written.
    fn flush(&mut self) -> Result<(), SinkFault>
        ensures kept { self.new ≡ self.old }
        ensures sure { ¬ IsErrOf result SinkFault.Failed }
    {
        Ok(())
    }

    ghost piece_appends = { Prim.search rules };

    ghost failure_counts = { Prim.search rules };
}
