ghost use Rattle.std.specs.Prelude.{◌≡◌, IfSome, IsTrue, find};
ghost use Rattle.std.specs.Option.{ForSome};
ghost use Rattle.spec_expect.specs.Told.{is_fault};
ghost use Rattle.expect_watch.specs.States as states;
ghost use Rattle.expect_watch.specs.Valid.{IsFit};

use crate::watch::Watch;
use expect_watch::Watching;
use run_arena::Block;
use spec_run::Note;
use std::alloc::Global;
use text_lines::TextStop;

/// Watches a run for what is expected of it, keeps the note of its fault, and writes nothing.
#[derive(Debug, Drop)]
pub struct Expecter {
    pub watching: Watching,
    /// The note of the first fault.
    pub fault: Option<Note>,
    pub ghost fit: { IsFit (states.seen watching) },
    pub ghost faulted: { ForSome fault (λ note. IsTrue (is_fault note)) },
}

/// Whether it is the note of a fault.
fn is_fault(note: Note) -> bool
    ensures { result ≡ is_fault note }
{
    match note {
        Note::Faulted { .. } => true,
        _ => false,
    }
}

/// The note of the first fault among these, if one is.
fn fault_in(notes: &[Note]) -> Option<Note>
    ensures first { result ≡ find is_fault notes.now }
    ensures fault { IfSome result (λ note. IsTrue (is_fault note)) }
{
    notes.iter().copied().find(|note| is_fault(*note))
}

impl Watch for Expecter {
    ghost use Rattle.std.specs.Prelude.{[], None, Some};

    ghost state = { λ w. record {
      text = λ block. [];
      written = None;
      faults = 0;
      counts = None;
      expecting = Some (record { state = states.seen w.watching; fault = w.fault });
      lent = 0;
    } };

    ghost shows = { λ _ _ _. Unit {0} };

    fn show(&mut self, _: Global, block: &Block) -> Result<(), TextStop> {
        self.watching.take(block)?;
        if self.fault.is_none() {
            self.fault = fault_in(block.notes.list());
        }
        Ok(())
    }

    ghost shows_none = { λ _. tt };

    ghost shows_both = { λ _ _ _ _ _ _. tt };

    ghost shows_stop = { λ _ _ _ _. tt };
}
