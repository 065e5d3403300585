ghost use Rattle.std.specs.Prelude.{◌≡◌, ◌≤◌, ◌<◌, ◌+◌, ◌++◌, IfOk, IsErrOf, OnOk, length};
ghost use Rattle.std.specs.List.{concat};
ghost use Rattle.run_arena.specs.Blocks.{seen};
ghost use Rattle.spec_outside.specs.Appending.{Appended, AppendedPrefix};
ghost use Rattle.spec_outside.specs.Counts.{Rose};
ghost use Rattle.spec_output.specs.Lines.{node_inputs};
ghost use Rattle.spec_serve.specs.Inputs.{held_words, input_line, input_lines, kept_inputs, runner_of, told_lines, told_notes};
ghost use Rattle.spec_session.specs.Labels.{labels};
ghost use Rattle.cli_serve.specs.Starts.{KnowsLast, is_at, started_last};

use base_outside::Sink;
use base_texts::{Name, NoMemory};
use host_session::Session;
use run_arena::Block;
use spec_run::{Header, Note};
use spec_script::Value;
use std::alloc::Global;
use std::slice;
use text_lines::{
    Names, TextStop, put_bytes, put_number, put_value, write_changes, write_header, write_line,
    write_notes,
};

/// Where each node was started last in a block, by its uid: the place of the note. What stands there of a node that was not
/// started in this block is of no account.
#[derive(Debug, Drop)]
pub struct Starts {
    places: Vec<usize>,
}

impl Starts {
    /// Room for the uids of so many nodes, which begin at 1.
    pub fn new(alloc: Global, nodes: usize) -> Result<Starts, NoMemory>
        ensures { IfOk result (λ starts. length starts.places.items ≡ 1 + nodes) }
    {
        let mut places = Vec::new(alloc);
        places.push(0)?;
        for _ in 0..nodes {
            places.push(0)?;
        }
        Ok(Starts { places })
    }

    /// Takes the places of the starts in these notes.
    fn find(&mut self, notes: &[Note])
        ensures room { length self.new.places.items ≡ length self.old.places.items }
        ensures knows { KnowsLast self.new.places.items notes.now }
    {
        for (place, note) in notes.iter().enumerate() {
            if let Note::Started { uid, .. } = note {
                if let Some(kept) = self.places.get_mut(*uid as usize) {
                    *kept = place;
                }
            }
        }
    }

    /// Whether no other place than this one is kept for a uid.
    fn is_at(&self, uid: u32, place: usize) -> bool
        ensures { result ≡ is_at self.now.places.items uid place }
    {
        match self.places.get(uid as usize) {
            Some(kept) => *kept == place,
            None => true,
        }
    }

    /// The node that the note at this place says was started, unless it is started again in the block. No node has a uid
    /// without a place.
    fn started_last(&self, place: usize, note: &Note) -> Option<u32>
        ensures { result ≡ started_last self.now.places.items place note.now }
    {
        let Note::Started { uid, .. } = note else {
            return None;
        };
        if self.is_at(*uid, place) {
            Some(*uid)
        } else {
            None
        }
    }
}

/// The runner whose event has this header; 0 where it is that of no runner.
fn runner_of(header: Header) -> u8
    ensures { result ≡ runner_of header }
{
    match header {
        Header::Tick { runner, .. }
        | Header::Halt { runner, .. }
        | Header::Finish { runner, .. }
        | Header::Tell { runner, .. } => runner,
        Header::Change { .. } => 0,
    }
}

/// Puts what an input held, or a sign that it held nothing.
fn put_held(line: &mut Vec<u8>, value: &Option<Value>) -> Result<(), NoMemory>
    ensures { OnOk result (line.new.items ≡ line.old.items ++ held_words value.now) }
{
    match value {
        Some(value) => put_value(line, value),
        None => put_bytes(line, b"-"),
    }
}

/// Puts the line of an input of a node: what it held at the start.
fn put_input(
    line: &mut Vec<u8>,
    uid: u32,
    name: &Name,
    value: &Option<Value>,
) -> Result<(), NoMemory>
    ensures { OnOk result (line.new.items ≡ line.old.items ++ input_line uid name.now value.now) }
{
    put_bytes(line, b"in ")?;
    put_number(line, u64::from(uid))?;
    put_bytes(line, b" ")?;
    put_bytes(line, name.list())?;
    put_bytes(line, b" ")?;
    put_held(line, value)?;
    put_bytes(line, b"\n")
}

/// Writes the lines of the inputs of a node that was started last with these. After a stop a prefix of the bytes was
/// written.
#[tactic(auto, using(base_outside::proofs::Appends::appending))]
fn write_inputs<K: Sink>(
    line: &mut Vec<u8>,
    out: &mut K,
    uid: u32,
    inputs: &[Option<Value>],
    names: &Names,
) -> Result<(), TextStop>
    ensures whole { OnOk result (Appended (K.written out.old) (K.written out.new)
        (concat (input_lines uid (node_inputs names.now uid) inputs.now))) }
    ensures prefix { AppendedPrefix (K.written out.old) (K.written out.new)
        (concat (input_lines uid (node_inputs names.now uid) inputs.now)) }
    ensures failed { IsErrOf result TextStop.WriteFault → Rose (K.faults out.old) (K.faults out.new) }
    ensures count { K.faults out.old ≤ K.faults out.new }
{
    let ports = names.inputs(uid);
    for (place, port) in ports.iter().enumerate() {
        let Some(value) = inputs.get(place) else {
            return Ok(());
        };
        line.clear();
        put_input(line, uid, port, value)?;
        write_line(out, line.as_slice())?;
    }
    Ok(())
}

/// Writes the lines of the notes of a block, with those of the inputs of each leaf that is told what it answers, after the
/// last line of its start. After a stop a prefix of the bytes was written.
#[tactic(auto, using(base_outside::proofs::Appends::appending))]
fn write_noted<K: Sink>(
    line: &mut Vec<u8>,
    out: &mut K,
    session: &Session,
    names: &Names,
    starts: &Starts,
) -> Result<(), TextStop>
    requires room { length (labels session.now.tree) < length starts.now.places.items }
    requires knows { KnowsLast starts.now.places.items session.now.block.notes }
    ensures whole { let s = session.now in
        OnOk result (Appended (K.written out.old) (K.written out.new)
        (concat (told_notes names.now (kept_inputs s.state (runner_of s.block.header)) s.block.notes))) }
    ensures prefix { let s = session.now in
        AppendedPrefix (K.written out.old) (K.written out.new)
        (concat (told_notes names.now (kept_inputs s.state (runner_of s.block.header)) s.block.notes)) }
    ensures failed { IsErrOf result TextStop.WriteFault → Rose (K.faults out.old) (K.faults out.new) }
    ensures count { K.faults out.old ≤ K.faults out.new }
{
    let block = session.block();
    let notes = block.notes.list();
    let runner = runner_of(block.header);
    for (place, note) in notes.iter().enumerate() {
        write_notes(line, out, slice::from_ref(note), names)?;
        if let Some(uid) = starts.started_last(place, note) {
            write_inputs(line, out, uid, session.inputs(runner, uid), names)?;
        }
    }
    Ok(())
}

/// Writes the lines of the block of the last event of a session, with what the inputs held of the leaves that it has started.
/// After a stop a prefix of the bytes was written.
#[tactic(auto, using(base_outside::proofs::Appends::appending))]
pub fn write_answer<K: Sink>(
    line: &mut Vec<u8>,
    out: &mut K,
    session: &Session,
    names: &Names,
    starts: &mut Starts,
) -> Result<(), TextStop>
    requires room { length (labels session.now.tree) < length starts.old.places.items }
    ensures whole { OnOk result (Appended (K.written out.old) (K.written out.new)
        (concat (told_lines names.now session.now.state session.now.block))) }
    ensures prefix { AppendedPrefix (K.written out.old) (K.written out.new)
        (concat (told_lines names.now session.now.state session.now.block)) }
    ensures failed { IsErrOf result TextStop.WriteFault → Rose (K.faults out.old) (K.faults out.new) }
    ensures count { K.faults out.old ≤ K.faults out.new }
    ensures places { length starts.new.places.items ≡ length starts.old.places.items }
{
    let block: &Block = session.block();
    starts.find(block.notes.list());
    write_header(line, out, block.header, names)?;
    write_noted(line, out, session, names, starts)?;
    write_changes(line, out, block, names)
}
