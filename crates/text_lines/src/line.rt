ghost use Rattle.std.specs.Prelude.{◌≡◌, ◌++◌, ◌≤◌, if◌then◌else◌, OnOk, IsTrue, IsFalse, codes, decimal, length};
ghost use Rattle.spec_output.specs.Lines.{LineNames, cause_words, entry_line, fact_line, header_line, note_line};
ghost use Rattle.text_lines.specs.Notes.{is_long};

use crate::label::Labels;
use crate::names::Names;
use crate::put::{put_bytes, put_number, put_signed};
use crate::short::ShortLines;
use crate::tail::{answer_tail, change_tail, halted_tail, run_tail, start_tail};
use crate::word::{put_cause, put_value};
use base_texts::NoMemory;
use spec_run::{Cause, Header, Note};
use spec_script::Value;

/// Adds the line of the event. The error is want of memory.
pub fn put_header(out: &mut Vec<u8>, header: Header, names: &Names) -> Result<(), NoMemory>
    ensures { OnOk result (out.new.items ≡ out.old.items ++ header_line names.now header) }
{
    match header {
        Header::Tick { runner, at } => put_runner_event(out, b"tick ", runner, at),
        Header::Halt { runner, at } => put_runner_event(out, b"halt ", runner, at),
        Header::Change { fact, value, at } => {
            put_bytes(out, b"set ")?;
            put_bytes(out, names.fact_name(fact))?;
            put_bytes(out, b" ")?;
            put_signed(out, value)?;
            put_bytes(out, b" at ")?;
            put_number(out, at)?;
            put_bytes(out, b"\n")
        }
        Header::Finish { runner, at } => put_runner_event(out, b"finish ", runner, at),
        Header::Tell {
            runner,
            uid,
            succeeds,
            at,
        } => {
            put_bytes(out, b"tell ")?;
            put_number(out, u64::from(runner))?;
            put_bytes(out, b" ")?;
            put_number(out, u64::from(uid))?;
            put_bytes(out, told_words(succeeds))?;
            put_number(out, at)?;
            put_bytes(out, b"\n")
        }
    }
}

/// What a leaf was told, and what stands before the moment.
fn told_words(succeeds: bool) -> &'static [u8]
    ensures { result.now ≡ (if succeeds then codes " SUCCESS at " else codes " FAILURE at ") }
{
    if succeeds {
        b" SUCCESS at "
    } else {
        b" FAILURE at "
    }
}

/// Adds the line of an event of a runner. `at` is in milliseconds. The error is want of memory.
fn put_runner_event(out: &mut Vec<u8>, event: &[u8], runner: u8, at: u64) -> Result<(), NoMemory>
    ensures { OnOk result (out.new.items ≡
        out.old.items ++ (event.now ++ decimal runner ++ codes " at " ++ decimal at ++ codes "\n")) }
{
    put_bytes(out, event)?;
    put_number(out, u64::from(runner))?;
    put_bytes(out, b" at ")?;
    put_number(out, at)?;
    put_bytes(out, b"\n")
}

/// Adds the line of the note where it is short and there is room for it, and says whether it did: long lines are made by
/// `put_long`.
#[inline(always)]
pub fn put_short(lines: &mut ShortLines, note: &Note, labels: &Labels) -> bool
    ensures text { IsTrue result → (names : LineNames) → lines.new ≡ lines.old ++ note_line names note.now }
    ensures same { IsFalse result → lines.new ≡ lines.old }
    ensures long { IsFalse result → length lines.old ≤ 448 → IsTrue (is_long note.now) }
{
    if lines.is_full() {
        return false;
    }
    match *note {
        Note::Changed { uid, old, new } => {
            lines.begin(*b"node", uid, labels);
            lines.end(change_tail(old, new));
            true
        }
        Note::Started { uid, answer } => {
            lines.begin(*b"call", uid, labels);
            lines.end(start_tail(answer));
            true
        }
        Note::Ran { uid, answer } => {
            lines.begin(*b"call", uid, labels);
            lines.end(run_tail(answer));
            true
        }
        Note::Halted { uid } => {
            lines.begin(*b"call", uid, labels);
            lines.end(halted_tail());
            true
        }
        Note::Root { runner, answer } => {
            lines.begin(*b"root", u32::from(runner), labels);
            lines.end(answer_tail(answer));
            true
        }
        Note::Faulted { .. } => false,
        Note::Quenched { .. } => false,
    }
}

/// Adds the line of a note that is long. The error is want of memory.
pub fn put_long(out: &mut Vec<u8>, note: Note, names: &Names) -> Result<(), NoMemory>
    requires { IsTrue (is_long note) }
    ensures { OnOk result (out.new.items ≡ out.old.items ++ note_line names.now note) }
{
    match note {
        Note::Faulted { runner, uid, cause } => put_faulted(out, runner, uid, cause, names),
        Note::Quenched { runner, uid } => put_quenched(out, runner, uid),
        _ => unreachable!(),
    }
}

/// Adds the line of a fault. The error is want of memory.
fn put_faulted(
    out: &mut Vec<u8>,
    runner: u8,
    uid: u32,
    cause: Cause,
    names: &Names,
) -> Result<(), NoMemory>
    ensures { OnOk result (out.new.items ≡ out.old.items ++ (codes "fault " ++ decimal runner ++ codes " "
        ++ decimal uid ++ codes " " ++ cause_words names.now uid cause ++ codes "\n")) }
{
    put_bytes(out, b"fault ")?;
    put_number(out, u64::from(runner))?;
    put_bytes(out, b" ")?;
    put_number(out, u64::from(uid))?;
    put_bytes(out, b" ")?;
    put_cause(out, uid, cause, names)?;
    put_bytes(out, b"\n")
}

/// Adds the line of a quench. The error is want of memory.
fn put_quenched(out: &mut Vec<u8>, runner: u8, uid: u32) -> Result<(), NoMemory>
    ensures { OnOk result (out.new.items ≡
        out.old.items ++ (codes "quench " ++ decimal runner ++ codes " " ++ decimal uid ++ codes "\n")) }
{
    put_bytes(out, b"quench ")?;
    put_number(out, u64::from(runner))?;
    put_bytes(out, b" ")?;
    put_number(out, u64::from(uid))?;
    put_bytes(out, b"\n")
}

/// Adds the line of a fact that changed, with its new value. The error is want of memory.
pub fn put_fact(out: &mut Vec<u8>, fact: (u32, i64), names: &Names) -> Result<(), NoMemory>
    ensures { OnOk result (out.new.items ≡ out.old.items ++ fact_line names.now fact) }
{
    let (number, value) = fact;
    put_bytes(out, b"fact ")?;
    put_bytes(out, names.fact_name(number))?;
    put_bytes(out, b" ")?;
    put_signed(out, value)?;
    put_bytes(out, b"\n")
}

/// Adds the line of an entry of a runner's blackboard that changed or is new, with its new value.
/// The error is want of memory.
pub fn put_entry(out: &mut Vec<u8>, entry: &(u8, u32, Value), names: &Names) -> Result<(), NoMemory>
    ensures { OnOk result (out.new.items ≡ out.old.items ++ entry_line names.now entry.now) }
{
    let (runner, slot, value) = entry;
    put_bytes(out, b"board ")?;
    put_number(out, u64::from(*runner))?;
    put_bytes(out, b" ")?;
    names.put_cell(out, *slot)?;
    put_bytes(out, b" ")?;
    put_value(out, value)?;
    put_bytes(out, b"\n")
}
