ghost use Rattle.std.specs.Prelude.{◌≡◌, ◌++◌, [], OnOk, IsErrOf};
ghost use Rattle.spec_outside.specs.Appending.{AppendedPrefix};

use crate::sink::{Sink, SinkFault};
use std::alloc::Global;
use std::marker::Model;

/// A sink in memory that never fails. Contracts see the bytes written.
#[derive(Debug, Drop)]
pub struct SureSink {
    bytes: Vec<u8>,
}

impl Model for SureSink {
    ghost use Rattle.std.specs.Prelude.{List, ℕ};

    ghost Value = { List ℕ };

    ghost view = { λ sink. sink.bytes.items };
}

impl SureSink {
    /// A sink without bytes. It allocates nothing.
    pub fn new(alloc: Global) -> SureSink
        ensures { result ≡ [] }
    {
        SureSink {
            bytes: Vec::new(alloc),
        }
    }

    /// Lends the bytes written.
    pub fn list(&self) -> &[u8]
        ensures { result.now ≡ self.now }
    {
        self.bytes.as_slice()
    }
}

impl Sink for SureSink {
    ghost use Rattle.std.specs.Prelude.{Some};
    ghost use Rattle.std.proofs.Common.{ap, rules};
    ghost use Rattle.base_outside.specs.declared.sink.SinkFault.TheVariants as fault;

    ghost written = { λ bytes. Some bytes };

    ghost handed = { λ bytes. Some bytes };

    ghost faults = { λ _. 0 };

    ghost write_gives = { λ old piece answer new. OnOk answer (new ≡ old ++ piece)
        × (¬ IsErrOf answer fault.Failed × (IsErrOf answer fault.NoMemory → new ≡ old)) };

    fn write(&mut self, piece: &[u8]) -> Result<(), SinkFault>
        ensures whole { OnOk result (self.new ≡ self.old ++ piece.now) }
        ensures sure { ¬ IsErrOf result SinkFault.Failed }
        ensures kept { IsErrOf result SinkFault.NoMemory → self.new ≡ self.old }
        ensures prefix { AppendedPrefix (Some self.old) (Some self.new) piece.now }
    {
        self.bytes
            .extend_from_slice(piece)
            .map_err(|_| SinkFault::NoMemory)
    }

    /// All is here as soon as it is written.
    fn flush(&mut self) -> Result<(), SinkFault>
        ensures kept { self.new ≡ self.old }
        ensures sure { ¬ IsErrOf result SinkFault.Failed }
    {
        Ok(())
    }

    ghost piece_appends = { λ old new piece gives. ap Some gives.0 };

    ghost failure_counts = { Prim.search rules };
}
