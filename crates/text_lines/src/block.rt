ghost use Rattle.std.specs.Prelude.{◌≡◌, ◌≤◌, OnOk, IsErrOf, IsTrue, map};
ghost use Rattle.std.specs.List.{concat};
ghost use Rattle.run_arena.specs.Blocks.{seen};
ghost use Rattle.spec_output.specs.Lines.{change_lines, entry_line, fact_line, header_line, lines_of, note_line};
ghost use Rattle.text_lines.specs.Notes.{is_long};
ghost use Rattle.spec_outside.specs.Appending.{Appended, AppendedPrefix};
ghost use Rattle.spec_outside.specs.Counts.{Rose};
ghost use Rattle.spec_outside.specs.Writes.{AreLines, Writes};

use crate::line::{put_entry, put_fact, put_header, put_long};
use crate::names::Names;
use crate::put::empty_line;
use crate::short::ShortLines;
use crate::stop::TextStop;
use base_outside::Sink;
use run_arena::Block;
use spec_run::{Header, Note};
use spec_script::Value;
use std::alloc::Global;

/// Writes the lines of the block: its event, what happened, and the facts and the entries that changed. After a stop a
/// prefix of their bytes was written. `TextStop::WriteFault` comes only where the sink's count of failures rose in this
/// call, and `TextStop::NoMemory` for want of memory (out of memory).
#[tactic(auto, using(base_outside::proofs::Appends::appending, base_outside::proofs::Writings::writing))]
pub fn write_block<K: Sink>(
    alloc: Global,
    out: &mut K,
    block: &Block,
    names: &Names,
) -> Result<(), TextStop>
    ensures whole { OnOk result
        (Appended (K.written out.old) (K.written out.new) (concat (lines_of names.now (seen block.now)))) }
    ensures prefix { AppendedPrefix (K.written out.old) (K.written out.new) (concat (lines_of names.now (seen block.now))) }
    ensures failed { IsErrOf result TextStop.WriteFault → Rose (K.faults out.old) (K.faults out.new) }
    ensures count { K.faults out.old ≤ K.faults out.new }
    ensures writes { Writes K.write_gives result out.old out.new }
{
    let mut line = empty_line(alloc)?;
    write_header(&mut line, out, block.header, names)?;
    write_notes(&mut line, out, block.notes.list(), names)?;
    write_changes(&mut line, out, block, names)
}

/// Writes the line of an event, which uses the room of `line`. After a stop a prefix of it was written.
pub fn write_header<K: Sink>(
    line: &mut Vec<u8>,
    out: &mut K,
    header: Header,
    names: &Names,
) -> Result<(), TextStop>
    ensures whole { OnOk result (Appended (K.written out.old) (K.written out.new) (header_line names.now header)) }
    ensures prefix { AppendedPrefix (K.written out.old) (K.written out.new) (header_line names.now header) }
    ensures failed { IsErrOf result TextStop.WriteFault → Rose (K.faults out.old) (K.faults out.new) }
    ensures count { K.faults out.old ≤ K.faults out.new }
    ensures writes { Writes K.write_gives result out.old out.new }
{
    line.clear();
    put_header(line, header, names)?;
    write_line(out, line.as_slice())
}

/// Writes the lines of the facts and the entries that changed. All use the room of `line`. After a stop a prefix of the
/// bytes was written.
#[tactic(auto, using(base_outside::proofs::Appends::appending, base_outside::proofs::Writings::writing))]
pub fn write_changes<K: Sink>(
    line: &mut Vec<u8>,
    out: &mut K,
    block: &Block,
    names: &Names,
) -> Result<(), TextStop>
    ensures whole { OnOk result
        (Appended (K.written out.old) (K.written out.new) (concat (change_lines names.now (seen block.now)))) }
    ensures prefix { AppendedPrefix (K.written out.old) (K.written out.new) (concat (change_lines names.now (seen block.now))) }
    ensures failed { IsErrOf result TextStop.WriteFault → Rose (K.faults out.old) (K.faults out.new) }
    ensures count { K.faults out.old ≤ K.faults out.new }
    ensures writes { Writes K.write_gives result out.old out.new }
{
    write_facts(line, out, block.facts.as_slice(), names)?;
    write_entries(line, out, block.entries.as_slice(), names)
}

/// Writes the line, or whole lines, by one write. After a stop a prefix of it was written. `TextStop::WriteFault`
/// comes only where the sink's count of failures rose in this call.
#[inline(always)]
pub fn write_line<K: Sink>(out: &mut K, line: &[u8]) -> Result<(), TextStop>
    ensures whole { OnOk result (Appended (K.written out.old) (K.written out.new) line.now) }
    ensures prefix { AppendedPrefix (K.written out.old) (K.written out.new) line.now }
    ensures failed { IsErrOf result TextStop.WriteFault → Rose (K.faults out.old) (K.faults out.new) }
    ensures count { K.faults out.old ≤ K.faults out.new }
    ensures writes { AreLines line.now → Writes K.write_gives result out.old out.new }
{
    out.write(line)?;
    Ok(())
}

/// Writes the lines of the notes, those that are short many at a time. The long ones all use the room of `line`. After a
/// stop a prefix of the bytes was written.
#[tactic(auto, using(base_outside::proofs::Appends::appending, base_outside::proofs::Writings::writing))]
pub fn write_notes<K: Sink>(
    line: &mut Vec<u8>,
    out: &mut K,
    notes: &[Note],
    names: &Names,
) -> Result<(), TextStop>
    ensures whole { OnOk result
        (Appended (K.written out.old) (K.written out.new) (concat (map (note_line names.now) notes.now))) }
    ensures prefix { AppendedPrefix (K.written out.old) (K.written out.new) (concat (map (note_line names.now) notes.now)) }
    ensures failed { IsErrOf result TextStop.WriteFault → Rose (K.faults out.old) (K.faults out.new) }
    ensures count { K.faults out.old ≤ K.faults out.new }
    ensures writes { Writes K.write_gives result out.old out.new }
{
    let mut lines = ShortLines::new();
    let labels = names.labels();
    let mut at = 0;
    while at < notes.len() {
        let count = lines.gather(&notes[at..], &labels);
        if count == 0 {
            write_long(line, out, &notes[at], names)?;
            at += 1;
        } else {
            write_line(out, lines.list())?;
            at += count;
        }
    }
    Ok(())
}

/// Writes the line of a note that is long, as that of a fault. It is a function of its own, since
/// few blocks have such a note.
#[tactic(auto, using(base_outside::proofs::Appends::appending, base_outside::proofs::Writings::writing))]
#[cold]
#[inline(never)]
fn write_long<K: Sink>(
    line: &mut Vec<u8>,
    out: &mut K,
    note: &Note,
    names: &Names,
) -> Result<(), TextStop>
    requires { IsTrue (is_long note.now) }
    ensures whole { OnOk result (Appended (K.written out.old) (K.written out.new) (note_line names.now note.now)) }
    ensures prefix { AppendedPrefix (K.written out.old) (K.written out.new) (note_line names.now note.now) }
    ensures failed { IsErrOf result TextStop.WriteFault → Rose (K.faults out.old) (K.faults out.new) }
    ensures count { K.faults out.old ≤ K.faults out.new }
    ensures writes { Writes K.write_gives result out.old out.new }
{
    line.clear();
    put_long(line, *note, names)?;
    write_line(out, line.as_slice())
}

/// Writes the lines of the facts that changed. All use the room of `line`. After a stop a prefix of
/// the bytes was written.
#[tactic(auto, using(base_outside::proofs::Appends::appending, base_outside::proofs::Writings::writing))]
fn write_facts<K: Sink>(
    line: &mut Vec<u8>,
    out: &mut K,
    facts: &[(u32, i64)],
    names: &Names,
) -> Result<(), TextStop>
    ensures whole { OnOk result
        (Appended (K.written out.old) (K.written out.new) (concat (map (fact_line names.now) facts.now))) }
    ensures prefix { AppendedPrefix (K.written out.old) (K.written out.new) (concat (map (fact_line names.now) facts.now)) }
    ensures failed { IsErrOf result TextStop.WriteFault → Rose (K.faults out.old) (K.faults out.new) }
    ensures count { K.faults out.old ≤ K.faults out.new }
    ensures writes { Writes K.write_gives result out.old out.new }
{
    for fact in facts {
        line.clear();
        put_fact(line, *fact, names)?;
        write_line(out, line.as_slice())?;
    }
    Ok(())
}

/// Writes the lines of the entries that changed. All use the room of `line`. After a stop a prefix
/// of the bytes was written.
#[tactic(auto, using(base_outside::proofs::Appends::appending, base_outside::proofs::Writings::writing))]
fn write_entries<K: Sink>(
    line: &mut Vec<u8>,
    out: &mut K,
    entries: &[(u8, u32, Value)],
    names: &Names,
) -> Result<(), TextStop>
    ensures whole { OnOk result
        (Appended (K.written out.old) (K.written out.new) (concat (map (entry_line names.now) entries.now))) }
    ensures prefix { AppendedPrefix (K.written out.old) (K.written out.new) (concat (map (entry_line names.now) entries.now)) }
    ensures failed { IsErrOf result TextStop.WriteFault → Rose (K.faults out.old) (K.faults out.new) }
    ensures count { K.faults out.old ≤ K.faults out.new }
    ensures writes { Writes K.write_gives result out.old out.new }
{
    for entry in entries {
        line.clear();
        put_entry(line, entry, names)?;
        write_line(out, line.as_slice())?;
    }
    Ok(())
}
