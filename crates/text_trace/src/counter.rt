ghost use Rattle.std.specs.Prelude.{[], None, Some};

use crate::counts::{count_notes, no_counts};
use crate::watch::Watch;
use run_arena::Block;
use spec_output::Counts;
use std::alloc::Global;
use text_lines::TextStop;

/// Counts what the notes of each block tell, and writes nothing.
#[derive(Clone, Copy, Debug, PartialEq, Eq)]
pub struct Counter {
    pub counts: Counts,
}

impl Counter {
    ghost use Rattle.std.specs.Prelude.{◌≡◌, []};
    ghost use Rattle.spec_output.specs.Counts.{counts_in};

    /// A counter that was shown no block yet.
    pub fn new() -> Counter
        ensures { result.counts ≡ counts_in [] }
    {
        Counter {
            counts: no_counts(),
        }
    }
}

impl Watch for Counter {
    ghost state = { λ w. record { text = λ block. []; written = None; faults = 0; counts = Some w.counts; expecting = None; lent = 0 } };

    ghost shows = { λ _ _ _. Unit {0} };

    fn show(&mut self, _: Global, block: &Block) -> Result<(), TextStop> {
        count_notes(&mut self.counts, block.notes.list());
        Ok(())
    }

    ghost shows_none = { λ _. tt };

    ghost shows_both = { λ _ _ _ _ _ _. tt };

    ghost shows_stop = { λ _ _ _ _. tt };
}
