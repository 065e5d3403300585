//! What the last event has done.
ghost use Rattle.std.specs.Prelude.{◌≡◌, IfOk, None, length, min, slice_get};
ghost use types.Logic.{sem};
ghost use Rattle.host_library.specs.Owned.{hosted_owns};
ghost use Rattle.host_library.specs.Notes as told;
ghost use Rattle.host_library.specs.Traces.{LinesTold, trace_of};

use crate::codes::{NO_STATUS, answer_number, status_number};
use crate::hosted::Hosted;
use crate::text::copy_text;
use base_outside::SureSink;
use base_texts::NoMemory;
use spec_run::{Cause, Header, Note, NumericPort};
use std::alloc::Global;
use text_lines::{TextStop, names_of, write_block};

/// What is told of a note.
#[repr(C)]
#[derive(Clone, Copy, Debug)]
pub struct NoteTold {
    pub uid: u32,
    /// 0 where there is no such note.
    pub kind: u8,
    pub runner: u8,
    /// The status before, where it changed.
    pub before: u8,
    pub status: u8,
    /// The cause of a fault, or 0.
    pub cause: u32,
    /// What the cause names: a slot, the place of an input, or a port.
    pub detail: u32,
}

/// What is told of the event itself.
#[repr(C)]
#[derive(Clone, Copy, Debug)]
pub struct EventTold {
    pub kind: u8,
    pub runner: u8,
    pub status: u8,
    /// The uid of the leaf, or the number of the fact.
    pub number: u32,
    /// In milliseconds.
    pub at_ms: u64,
}

/// What is told of a fact that changed.
#[repr(C)]
#[derive(Clone, Copy, Debug)]
pub struct FactTold {
    pub fact: u32,
    /// 0 where there is no such fact.
    pub known: u32,
    pub value: i64,
}

/// What is told of an entry that changed or is new.
#[repr(C)]
#[derive(Clone, Copy, Debug)]
pub struct EntryTold {
    pub runner: u32,
    pub slot: u32,
    /// 0 where there is no such entry.
    pub known: u32,
    /// Always 0.
    pub unused: u32,
}

/// The number of a port.
fn port_number(port: NumericPort) -> u32
    ensures { result ≡ told.port_number port }
{
    match port {
        NumericPort::SuccessCount => 1,
        NumericPort::FailureCount => 2,
        NumericPort::NumAttempts => 3,
        NumericPort::NumCycles => 4,
        NumericPort::Msec => 5,
        NumericPort::DelayMsec => 6,
        NumericPort::ThenSkip => 7,
        NumericPort::NumberOfRetries => 8,
        NumericPort::Hz => 9,
    }
}

/// The number of a cause, and of what it names.
fn cause_numbers(cause: Cause) -> (u32, u32)
    ensures { result ≡ told.cause_numbers cause }
{
    match cause {
        Cause::NoEntry { slot } => (1, slot),
        Cause::NoInput { place } => (2, u32::from(place)),
        Cause::Overflow => (3, 0),
        Cause::ZeroDivisor => (4, 0),
        Cause::NotWhole => (5, 0),
        Cause::Mixed => (6, 0),
        Cause::TextTooLong => (7, 0),
        Cause::Range => (8, 0),
        Cause::BadPort { port } => (9, port_number(port)),
    }
}

/// What is told of a note that names no cause.
fn plain(kind: u8, runner: u8, uid: u32, before: u8, status: u8) -> NoteTold
    ensures { result ≡ told.plain kind runner uid before status }
{
    NoteTold {
        uid,
        kind,
        runner,
        before,
        status,
        cause: 0,
        detail: 0,
    }
}

/// What is told of a fault.
fn fault_told(runner: u8, uid: u32, cause: Cause) -> NoteTold
    ensures { result ≡ told.fault_told runner uid cause }
{
    let (cause, detail) = cause_numbers(cause);
    NoteTold {
        uid,
        kind: 6,
        runner,
        before: NO_STATUS,
        status: NO_STATUS,
        cause,
        detail,
    }
}

/// What is told of a note.
fn note_told(note: Note) -> NoteTold
    ensures { result ≡ told.note_told note }
{
    match note {
        Note::Changed { uid, old, new } => {
            plain(1, 0, uid, status_number(old), status_number(new))
        }
        Note::Started { uid, answer } => plain(2, 0, uid, NO_STATUS, answer_number(answer)),
        Note::Ran { uid, answer } => plain(3, 0, uid, NO_STATUS, answer_number(answer)),
        Note::Halted { uid } => plain(4, 0, uid, NO_STATUS, NO_STATUS),
        Note::Root { runner, answer } => plain(5, runner, 0, NO_STATUS, answer_number(answer)),
        Note::Faulted { runner, uid, cause } => fault_told(runner, uid, cause),
        Note::Quenched { runner, uid } => plain(7, runner, uid, NO_STATUS, NO_STATUS),
    }
}

/// Puts what is told of notes into a room, as many as have place.
fn put_notes(notes: &[Note], room: &mut [NoteTold])
    ensures { room.new ≡ told.notes_in (min (length notes.now) (length room.old)) notes.now room.old }
{
    let count = notes.len().min(room.len());
    for place in 0..count {
        room[place] = note_told(notes[place]);
    }
}

/// What is told where there is no note.
fn no_note() -> NoteTold
    ensures { result ≡ told.note_given None }
{
    plain(0, 0, 0, NO_STATUS, NO_STATUS)
}

/// What is told of an event.
fn event_told(header: Header) -> EventTold
    ensures { result ≡ told.event_told header }
{
    let (kind, runner, status, number, at_ms) = match header {
        Header::Tick { runner, at } => (1, runner, NO_STATUS, 0, at),
        Header::Halt { runner, at } => (2, runner, NO_STATUS, 0, at),
        Header::Change { fact, at, .. } => (3, 0, NO_STATUS, fact, at),
        Header::Finish { runner, at } => (4, runner, NO_STATUS, 0, at),
        Header::Tell {
            runner,
            uid,
            succeeds,
            at,
        } => (5, runner, if succeeds { 2 } else { 3 }, uid, at),
    };
    EventTold {
        kind,
        runner,
        status,
        number,
        at_ms,
    }
}

impl Hosted {
    /// What the last event was.
    fn event(&self) -> EventTold
        ensures { result ≡ told.event_told self.now.session.block.header }
    {
        event_told(self.session.block().header)
    }

    /// How many notes the last event has left.
    fn note_count(&self) -> usize
        ensures { result ≡ length self.now.session.block.notes }
    {
        self.session.block().notes.list().len()
    }

    /// The note of the last event at a place.
    fn note_at(&self, place: usize) -> NoteTold
        ensures { result ≡ told.note_given (slice_get self.now.session.block.notes place) }
    {
        match self.session.block().notes.list().get(place) {
            Some(note) => note_told(*note),
            None => no_note(),
        }
    }

    /// Puts the notes of the last event into a room, as many as have place, and gives their number.
    fn notes(&self, room: &mut [NoteTold]) -> usize
        ensures { told.NotesTold self.now.session.block.notes room.old result room.new }
    {
        let notes = self.session.block().notes.list();
        put_notes(notes, room);
        notes.len()
    }

    /// How many facts the last event has changed.
    fn changed_fact_count(&self) -> usize
        ensures { result ≡ length self.now.session.block.facts }
    {
        self.session.block().facts.len()
    }

    /// The fact that the last event has changed at a place, in the order in which they are numbered.
    fn changed_fact_at(&self, place: usize) -> FactTold
        ensures { result ≡ told.fact_given (slice_get self.now.session.block.facts place) }
    {
        match self.session.block().facts.get(place) {
            Some((fact, value)) => FactTold {
                fact: *fact,
                known: 1,
                value: *value,
            },
            None => FactTold {
                fact: 0,
                known: 0,
                value: 0,
            },
        }
    }

    /// How many entries the last event has changed or made.
    fn changed_entry_count(&self) -> usize
        ensures { result ≡ length self.now.session.block.entries }
    {
        self.session.block().entries.len()
    }

    /// The entry that the last event has changed or made at a place, by runner and slot.
    fn changed_entry_at(&self, place: usize) -> EntryTold
        ensures { result ≡ told.entry_given (slice_get self.now.session.block.entries place) }
    {
        match self.session.block().entries.get(place) {
            Some((runner, slot, _)) => EntryTold {
                runner: u32::from(*runner),
                slot: *slot,
                known: 1,
                unused: 0,
            },
            None => EntryTold {
                runner: 0,
                slot: 0,
                known: 0,
                unused: 0,
            },
        }
    }

    /// The lines of the trace for the last event.
    fn lines(&self) -> Result<SureSink, TextStop>
        ensures { IfOk result (λ sink. sink ≡ trace_of self.now.session) }
    {
        let session = &self.session;
        let names = names_of(self.alloc, session.tree(), session.world(), session.slots())?;
        let mut sink = SureSink::new(self.alloc);
        write_block(self.alloc, &mut sink, session.block(), &names)?;
        Ok(sink)
    }

    /// Copies the lines of the trace for the last event; nothing for want of memory.
    fn print(&self, room: &mut [u8]) -> usize
        ensures { LinesTold (trace_of self.now.session) room.old result room.new }
    {
        match self.lines() {
            Ok(sink) => copy_text(sink.list(), room),
            Err(_) => 0,
        }
    }
}

/// What the last event was, in the session at this pointer.
#[unsafe(no_mangle)]
pub unsafe extern "C" fn bt_last_event(session: *mut u8) -> EventTold
    ghost before: { Hosted }
    requires* { sem 𝓛 (hosted_owns session before) }
    ensures* { sem 𝓛 (hosted_owns session before) ∗ ⌜ result ≡ told.event_told before.session.block.header ⌝ }
{
    Hosted::event(&*(session as *mut Hosted))
}

/// How many notes the last event has left, in the session at this pointer.
#[unsafe(no_mangle)]
pub unsafe extern "C" fn bt_note_count(session: *mut u8) -> usize
    ghost before: { Hosted }
    requires* { sem 𝓛 (hosted_owns session before) }
    ensures* { sem 𝓛 (hosted_owns session before) ∗ ⌜ result ≡ length before.session.block.notes ⌝ }
{
    Hosted::note_count(&*(session as *mut Hosted))
}

/// The note of the last event at a place, in the session at this pointer.
#[unsafe(no_mangle)]
pub unsafe extern "C" fn bt_note_at(session: *mut u8, place: usize) -> NoteTold
    ghost before: { Hosted }
    requires* { sem 𝓛 (hosted_owns session before) }
    ensures* { sem 𝓛 (hosted_owns session before) ∗ ⌜ result ≡ told.note_given (slice_get before.session.block.notes place) ⌝ }
{
    Hosted::note_at(&*(session as *mut Hosted), place)
}

/// Puts the notes of the last event into a room, in the session at this pointer.
#[unsafe(no_mangle)]
pub unsafe extern "C" fn bt_notes(session: *mut u8, room: &mut [NoteTold]) -> usize
    ghost before: { Hosted }
    requires* { sem 𝓛 (hosted_owns session before) }
    ensures* { sem 𝓛 (hosted_owns session before) ∗ ⌜ told.NotesTold before.session.block.notes room.old result room.new ⌝ }
{
    Hosted::notes(&*(session as *mut Hosted), room)
}

/// How many facts the last event has changed, in the session at this pointer.
#[unsafe(no_mangle)]
pub unsafe extern "C" fn bt_changed_fact_count(session: *mut u8) -> usize
    ghost before: { Hosted }
    requires* { sem 𝓛 (hosted_owns session before) }
    ensures* { sem 𝓛 (hosted_owns session before) ∗ ⌜ result ≡ length before.session.block.facts ⌝ }
{
    Hosted::changed_fact_count(&*(session as *mut Hosted))
}

/// The fact that the last event has changed at a place, in the session at this pointer.
#[unsafe(no_mangle)]
pub unsafe extern "C" fn bt_changed_fact_at(session: *mut u8, place: usize) -> FactTold
    ghost before: { Hosted }
    requires* { sem 𝓛 (hosted_owns session before) }
    ensures* { sem 𝓛 (hosted_owns session before) ∗ ⌜ result ≡ told.fact_given (slice_get before.session.block.facts place) ⌝ }
{
    Hosted::changed_fact_at(&*(session as *mut Hosted), place)
}

/// How many entries the last event has changed or made, in the session at this pointer.
#[unsafe(no_mangle)]
pub unsafe extern "C" fn bt_changed_entry_count(session: *mut u8) -> usize
    ghost before: { Hosted }
    requires* { sem 𝓛 (hosted_owns session before) }
    ensures* { sem 𝓛 (hosted_owns session before) ∗ ⌜ result ≡ length before.session.block.entries ⌝ }
{
    Hosted::changed_entry_count(&*(session as *mut Hosted))
}

/// The entry that the last event has changed or made at a place, in the session at this pointer.
#[unsafe(no_mangle)]
pub unsafe extern "C" fn bt_changed_entry_at(session: *mut u8, place: usize) -> EntryTold
    ghost before: { Hosted }
    requires* { sem 𝓛 (hosted_owns session before) }
    ensures* { sem 𝓛 (hosted_owns session before) ∗ ⌜ result ≡ told.entry_given (slice_get before.session.block.entries place) ⌝ }
{
    Hosted::changed_entry_at(&*(session as *mut Hosted), place)
}

/// Copies the lines of the trace for the last event, in the session at this pointer.
#[unsafe(no_mangle)]
pub unsafe extern "C" fn bt_print(session: *mut u8, room: &mut [u8]) -> usize
    ghost before: { Hosted }
    requires* { sem 𝓛 (hosted_owns session before) }
    ensures* { sem 𝓛 (hosted_owns session before) ∗ ⌜ LinesTold (trace_of before.session) room.old result room.new ⌝ }
{
    Hosted::print(&*(session as *mut Hosted), room)
}
