ghost use Rattle.std.specs.Prelude.{◌≡◌};
ghost use Rattle.spec_expect.specs.Leaves as leaves_of;
ghost use Rattle.spec_expect.specs.Met as met;
ghost use Rattle.spec_expect.specs.Stories as stories;

use spec_run::{Answer, Header, Note};

/// Whether the leaf of a uid is one of those that are marked.
pub fn is_marked(marks: &[bool], uid: u32) -> bool
    ensures { result ≡ leaves_of.is_marked marks.now uid }
{
    match marks.get(uid as usize) {
        Some(mark) => *mark,
        None => false,
    }
}

/// Whether the answers are the same.
fn is_same(given: Answer, answer: Answer) -> bool
    ensures { result ≡ met.is_same given answer }
{
    given == answer
}

/// Whether a note is that of a start of one of these leaves.
pub fn is_start(leaves: &[bool], note: Note) -> bool
    ensures { result ≡ met.is_start leaves.now note }
{
    match note {
        Note::Started { uid, .. } => is_marked(leaves, uid),
        _ => false,
    }
}

/// Whether a note is that of a call of one of these leaves that was answered so.
pub fn is_end(leaves: &[bool], answer: Answer, note: Note) -> bool
    ensures { result ≡ met.is_end leaves.now answer note }
{
    match note {
        Note::Started { uid, answer: given } | Note::Ran { uid, answer: given } => {
            is_marked(leaves, uid) && is_same(given, answer)
        }
        _ => false,
    }
}

/// Whether a note is that of a tick of this runner that was answered so.
pub fn is_root(runner: u8, answer: Answer, note: Note) -> bool
    ensures { result ≡ met.is_root runner answer note }
{
    match note {
        Note::Root {
            runner: ticked,
            answer: given,
        } => ticked == runner && is_same(given, answer),
        _ => false,
    }
}

/// The runner of a note of an event of this runner: a quench tells its own.
pub fn runner_of(runner: u8, note: Note) -> u8
    ensures { result ≡ stories.runner_of runner note }
{
    match note {
        Note::Quenched { runner: own, .. } => own,
        _ => runner,
    }
}

/// The runner of an event, and 0 for a change of a fact.
pub fn event_runner(header: Header) -> u8
    ensures { result ≡ stories.event_runner header }
{
    match header {
        Header::Tick { runner, .. }
        | Header::Halt { runner, .. }
        | Header::Finish { runner, .. }
        | Header::Tell { runner, .. } => runner,
        Header::Change { .. } => 0,
    }
}

/// The moment of an event, in milliseconds.
pub fn event_moment(header: Header) -> u64
    ensures { result ≡ stories.event_moment header }
{
    match header {
        Header::Tick { at, .. }
        | Header::Halt { at, .. }
        | Header::Finish { at, .. }
        | Header::Tell { at, .. }
        | Header::Change { at, .. } => at,
    }
}
