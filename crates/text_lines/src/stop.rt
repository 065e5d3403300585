use base_outside::SinkFault;
use base_texts::NoMemory;

/// Why a text was not written to its end.
#[derive(Clone, Copy, Debug, PartialEq, Eq)]
pub enum TextStop {
    /// The sink failed: its count of failures rose.
    WriteFault,
    /// There was want of memory (out of memory).
    NoMemory,
}

impl From<SinkFault> for TextStop {
    ghost use Rattle.std.specs.Prelude.{◌≡◌};
    ghost use Rattle.text_lines.specs.Stops.{text_stop};

    ghost from_gives = { λ fault stop. stop ≡ text_stop fault };

    fn from(fault: SinkFault) -> TextStop {
        match fault {
            SinkFault::Failed => TextStop::WriteFault,
            SinkFault::NoMemory => TextStop::NoMemory,
        }
    }
}

impl From<NoMemory> for TextStop {
    ghost use Rattle.std.specs.Prelude.{◌≡◌};
    ghost use Rattle.text_lines.specs.declared.stop.TextStop.TheVariants.{NoMemory as no_memory};

    ghost from_gives = { λ _ stop. stop ≡ no_memory };

    fn from(_e: NoMemory) -> TextStop {
        TextStop::NoMemory
    }
}
