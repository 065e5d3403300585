ghost use Rattle.std.specs.Prelude.{◌≡◌, ◌≤◌, ◌++◌, [], IfOk, List, OnOk, IsErrOf, Ok, codes, map};
ghost use Rattle.std.specs.List.{concat};
ghost use Rattle.cli_refusals.specs.Printing.{Printed};
ghost use Rattle.spec_exclusive.specs.declared.pair.Pair.{Pair as FoundPair};
ghost use Rattle.spec_outside.specs.Appending.{Appended, AppendedPrefix};
ghost use Rattle.spec_outside.specs.Counts.{Rose};
ghost use Rattle.spec_program.specs.Exclusives.{exclusive_output, meeting_word, pair_line, pairs_line, pairs_output};
ghost use Rattle.spec_program.specs.Refusals.{no_leaf_words};
ghost use Rattle.spec_program.specs.RefusalOutputs.{no_leaf};
ghost use Rattle.spec_tree.specs.Trees.{IsValid};
ghost use Rattle.tree_exclusive.specs.Runs.{AreApart};
ghost use Rattle.tree_exclusive.specs.Steps.{IsFound};
ghost use Rattle.spec_outside.specs.Writes.{Writes};
ghost use Rattle.spec_program.specs.Answers.{WritesAt};

use base_outside::Sink;
use base_texts::{Name, NoMemory};
use spec_exclusive::{Meeting, Pair};
use spec_program::Exit;
use spec_tree::Tree;
use std::alloc::Global;
use text_lines::{TextStop, put_bytes, put_number, put_quoted, write_line};
use tree_exclusive::laws::no_run_holds_exclusive_leaves_together;
use tree_exclusive::{Found, find_pairs, missing_leaf};

/// How two leaves may meet, in a word.
fn meeting_word(meeting: Meeting) -> &'static [u8]
    ensures { result.now ≡ meeting_word meeting }
{
    match meeting {
        Meeting::Never => b"never",
        Meeting::Handover => b"handover",
        Meeting::Together => b"together",
    }
}

/// Adds the line of a pair. The error is want of memory.
fn put_pair(line: &mut Vec<u8>, pair: Pair) -> Result<(), NoMemory>
    ensures { OnOk result (line.new.items ≡ line.old.items ++ pair_line pair) }
{
    put_bytes(line, meeting_word(pair.meeting))?;
    put_bytes(line, b" ")?;
    put_number(line, u64::from(pair.earlier))?;
    put_bytes(line, b" ")?;
    put_number(line, u64::from(pair.later))?;
    put_bytes(line, b"\n")
}

/// Writes a line for each of these pairs. After a stop a prefix of the lines was written.
/// `TextStop::WriteFault` comes only where the sink's count of failures rose in this call.
#[tactic(auto, using(base_outside::proofs::Appends::appending, base_outside::proofs::Writings::writing))]
fn write_each<K: Sink>(alloc: Global, pairs: &[Pair], out: &mut K) -> Result<(), TextStop>
    ensures whole { OnOk result (Appended (K.written out.old) (K.written out.new) (concat (map pair_line pairs.now))) }
    ensures prefix { AppendedPrefix (K.written out.old) (K.written out.new) (concat (map pair_line pairs.now)) }
    ensures failed { IsErrOf result TextStop.WriteFault → Rose (K.faults out.old) (K.faults out.new) }
    ensures count { K.faults out.old ≤ K.faults out.new }
    ensures writes { Writes K.write_gives result out.old out.new }
{
    let mut line = Vec::new(alloc);
    for pair in pairs {
        line.clear();
        put_pair(&mut line, *pair)?;
        write_line(out, line.as_slice())?;
    }
    Ok(())
}

/// The last line, of so many pairs.
fn count_line(alloc: Global, count: u64) -> Result<Vec<u8>, NoMemory>
    ensures { IfOk result (λ line. line.items ≡ pairs_line count) }
{
    let mut line = Vec::new(alloc);
    put_bytes(&mut line, b"pairs ")?;
    put_number(&mut line, count)?;
    put_bytes(&mut line, b"\n")?;
    Ok(line)
}

/// Writes the lines of these pairs, which are the first of so many, and how many there are.
/// `TextStop::WriteFault` comes only where the sink's count of failures rose in this call.
#[tactic(auto, using(base_outside::proofs::Appends::appending, base_outside::proofs::Writings::writing))]
fn write_pairs<K: Sink>(
    alloc: Global,
    pairs: &[Pair],
    count: u64,
    out: &mut K,
) -> Result<(), TextStop>
    ensures whole { OnOk result (Appended (K.written out.old) (K.written out.new) (concat (map pair_line pairs.now) ++ pairs_line count)) }
    ensures prefix { AppendedPrefix (K.written out.old) (K.written out.new) (concat (map pair_line pairs.now) ++ pairs_line count) }
    ensures failed { IsErrOf result TextStop.WriteFault → Rose (K.faults out.old) (K.faults out.new) }
    ensures count { K.faults out.old ≤ K.faults out.new }
    ensures writes { Writes K.write_gives result out.old out.new }
{
    write_each(alloc, pairs, out)?;
    let line = count_line(alloc, count)?;
    write_line(out, line.as_slice())?;
    Ok(())
}

/// Writes the lines of the pairs that were found, or that there is none, and gives the exit that goes with
/// them. `TextStop::WriteFault` comes only where the sink's count of failures rose in this call.
#[tactic(auto, using(base_outside::proofs::Appends::appending))]
fn write_found<K: Sink>(alloc: Global, found: &Found, out: &mut K) -> Result<Exit, TextStop>
    ensures exit { IfOk result (λ exit. (pairs : List FoundPair) → IsFound found.now pairs → exit ≡ (pairs_output pairs).exit) }
    ensures whole { OnOk result ((pairs : List FoundPair) → IsFound found.now pairs →
        Appended (K.written out.old) (K.written out.new) (pairs_output pairs).bytes) }
    ensures prefix { (pairs : List FoundPair) → IsFound found.now pairs →
        AppendedPrefix (K.written out.old) (K.written out.new) (pairs_output pairs).bytes }
    ensures failed { IsErrOf result TextStop.WriteFault → Rose (K.faults out.old) (K.faults out.new) }
    ensures count { K.faults out.old ≤ K.faults out.new }
    ensures writes { Writes K.write_gives result out.old out.new }
{
    if found.count == 0 {
        write_line(out, b"exclusive\n")?;
        return Ok(Exit::Done);
    }
    write_pairs(alloc, found.pairs.as_slice(), found.count, out)?;
    Ok(Exit::NotExclusive)
}

/// The line that refuses an ID that no leaf of the tree has.
fn no_leaf_line(alloc: Global, id: &Name) -> Result<Vec<u8>, NoMemory>
    ensures { IfOk result (λ line. line.items ≡ codes "refused tree " ++ no_leaf_words id.now ++ codes "\n") }
{
    let mut line = Vec::new(alloc);
    put_bytes(&mut line, b"refused tree ")?;
    put_bytes(&mut line, b"NoLeaf ")?;
    put_quoted(&mut line, id.list())?;
    put_bytes(&mut line, b"\n")?;
    Ok(line)
}

/// Writes the line that refuses an ID that no leaf of the tree has, and gives the exit that goes with it.
/// `TextStop::WriteFault` comes only where the sink's count of failures rose in this call.
#[tactic(auto, using(base_outside::proofs::Appends::appending, base_outside::proofs::Writings::writing))]
fn write_no_leaf<K: Sink>(alloc: Global, id: &Name, out: &mut K) -> Result<Exit, TextStop>
    ensures exit { IfOk result (λ exit. exit ≡ (no_leaf id.now).exit) }
    ensures whole { OnOk result (Appended (K.written out.old) (K.written out.new) (no_leaf id.now).bytes) }
    ensures prefix { AppendedPrefix (K.written out.old) (K.written out.new) (no_leaf id.now).bytes }
    ensures failed { IsErrOf result TextStop.WriteFault → Rose (K.faults out.old) (K.faults out.new) }
    ensures count { K.faults out.old ≤ K.faults out.new }
    ensures writes { Writes K.write_gives result out.old out.new }
{
    let line = no_leaf_line(alloc, id)?;
    write_line(out, line.as_slice())?;
    Ok(Exit::Tree)
}

/// Writes which leaves with these IDs may be held together, or that no leaf has one of them, and gives the
/// exit that goes with it. `TextStop::WriteFault` comes only where the sink's count of failures rose in
/// this call.
#[tactic(auto, using(base_outside::proofs::Appends::appending, base_outside::proofs::Writings::writing))]
fn write_exclusive<K: Sink>(
    alloc: Global,
    tree: &Tree,
    ids: &[Name],
    out: &mut K,
) -> Result<Exit, TextStop>
    requires { IsValid tree.now }
    ensures exit { IfOk result (λ exit. exit ≡ (exclusive_output ids.now (Ok tree.now)).exit) }
    ensures whole { OnOk result (Appended (K.written out.old) (K.written out.new) (exclusive_output ids.now (Ok tree.now)).bytes) }
    ensures prefix { AppendedPrefix (K.written out.old) (K.written out.new) (exclusive_output ids.now (Ok tree.now)).bytes }
    ensures failed { IsErrOf result TextStop.WriteFault → Rose (K.faults out.old) (K.faults out.new) }
    ensures count { K.faults out.old ≤ K.faults out.new }
    ensures writes { Writes K.write_gives result out.old out.new }
{
    if let Some(id) = missing_leaf(tree, ids) {
        return write_no_leaf(alloc, id, out);
    }
    let found = find_pairs(alloc, tree, ids)?;
    let ended = write_found(alloc, &found, out);
    drop(found);
    ended
}

/// Prints which leaves with these IDs may be held together, or that no leaf has one of them. Where the exit
/// is that of a whole answer, no run holds two of them together.
pub fn print_exclusive<K: Sink>(alloc: Global, tree: &Tree, ids: &[Name], out: &mut K) -> Exit
    requires { IsValid tree.now }
    ensures printed { Printed (exclusive_output ids.now (Ok tree.now)) result
        (K.written out.old) (K.faults out.old) (K.written out.new) (K.faults out.new) }
    ensures count { K.faults out.old ≤ K.faults out.new }
    ensures writes { WritesAt K.write_gives result out.old out.new }
    ensures apart { result ≡ Exit.Done → AreApart ids.now tree.now [] }
{
    no_run_holds_exclusive_leaves_together();
    match write_exclusive(alloc, tree, ids, out) {
        Ok(exit) => exit,
        Err(TextStop::WriteFault) => Exit::Write,
        Err(TextStop::NoMemory) => Exit::Memory,
    }
}
