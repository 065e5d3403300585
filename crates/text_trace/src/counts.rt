ghost use Rattle.std.specs.Prelude.{◌≡◌, ◌++◌, [], List};
ghost use Rattle.spec_run.specs.declared.note.Note.{Note as ANote};
ghost use Rattle.spec_output.specs.Counts.{counts_in};
ghost use Rattle.text_trace.specs.Counting.{with_note};

use spec_output::Counts;
use spec_run::{Answer, Note};

/// The counts of no notes.
pub fn no_counts() -> Counts
    ensures { result ≡ counts_in [] }
{
    Counts {
        starts: 0,
        runnings: 0,
        haltings: 0,
        successes: 0,
    }
}

/// Counts one more note.
fn count_note(counts: &mut Counts, note: Note)
    ensures { counts.new ≡ with_note note counts.old }
{
    match note {
        Note::Started { .. } => counts.starts = counts.starts.saturating_add(1),
        Note::Ran { .. } => counts.runnings = counts.runnings.saturating_add(1),
        Note::Halted { .. } => counts.haltings = counts.haltings.saturating_add(1),
        Note::Root {
            answer: Answer::Success,
            ..
        } => counts.successes = counts.successes.saturating_add(1),
        _ => {}
    }
}

/// Counts more notes.
pub fn count_notes(counts: &mut Counts, notes: &[Note])
    ensures { (earlier : List ANote) → counts.old ≡ counts_in earlier → counts.new ≡ counts_in (earlier ++ notes.now) }
{
    for note in notes {
        count_note(counts, *note);
    }
}
