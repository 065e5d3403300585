use crate::expression::ReadyExpr;
use base_texts::{Items, Name};
use spec_script::Cmp;

/// How a row answers, its expressions made ready.
#[derive(Debug, Drop)]
pub enum ReadySort {
    /// A condition that compares the fact of this number.
    Is {
        fact: u32,
        op: Cmp,
        value: i64,
    },
    /// A condition that is true where the expression is not 0.
    When(ReadyExpr),
    /// An action that lasts `ms` milliseconds, and then fails where `fails` is not 0.
    Timed {
        ms: u64,
        fails: Option<ReadyExpr>,
    },
    /// An action that lasts as many milliseconds as `length` gives where it begins, and then fails where `fails` is not 0.
    TimedBy {
        length: ReadyExpr,
        fails: Option<ReadyExpr>,
    },
    /// An action that lasts `ms` milliseconds, and then succeeds or fails by the next outcome.
    Replay {
        ms: u64,
        outcomes: Items<bool>,
    },
    /// An action that is held until the expression is not 0.
    Gate(ReadyExpr),
    /// A condition that answers what it was told last.
    Sensed,
    /// An action that is held until it is told how it ended; the outputs for which it may be told a value.
    Told {
        outs: Items<Name>,
    },
}

impl ReadySort {
    ghost use Rattle.std.specs.Prelude.{◌≡◌};
    ghost use Rattle.run_driver.specs.Ready.{is_ready_told};

    /// Whether the leaves of a row are told what they answer.
    pub fn is_told(&self) -> bool
        ensures { result ≡ is_ready_told self.now }
    {
        matches!(self, ReadySort::Sensed | ReadySort::Told { .. })
    }
}
