ghost use Rattle.std.specs.Prelude.{◌≡◌, ◌≤◌, ◌++◌, IfOk, OnOk, IsErrOf, map};
ghost use Rattle.std.specs.List.{concat};
ghost use Rattle.tree_build.specs.Seen.{ids_seen};
ghost use Rattle.spec_dead.specs.Dead.{dead_nodes};
ghost use Rattle.spec_tree.specs.Trees.{IsValid};
ghost use Rattle.spec_program.specs.Printed.{dead_count_line, dead_line, printed_bytes};
ghost use Rattle.spec_program.specs.declared.print.Print.TheVariants as print;
ghost use Rattle.spec_outside.specs.Appending.{Appended, AppendedPrefix};
ghost use Rattle.spec_outside.specs.Counts.{Rose};
ghost use Rattle.spec_outside.specs.Writes.{Writes};

use crate::printing::nodes::{add_ids, id_of};
use base_outside::Sink;
use base_tables::nodes_in;
use base_texts::{Name, NoMemory};
use spec_tree::Tree;
use std::alloc::Global;
use text_lines::{TextStop, put_bytes, put_number, put_quoted, write_line};
use tree_dead::dead;

/// Adds the line of a dead node, of nodes with these IDs. The error is want of memory.
fn put_dead(line: &mut Vec<u8>, ids: &[&Name], uid: u32) -> Result<(), NoMemory>
    ensures { OnOk result (line.new.items ≡ line.old.items ++ dead_line (ids_seen ids.now) uid) }
{
    put_bytes(line, b"dead ")?;
    put_number(line, u64::from(uid))?;
    put_bytes(line, b" ")?;
    put_quoted(line, id_of(ids, uid))?;
    put_bytes(line, b"\n")
}

/// Writes a line for each of these dead nodes, of nodes with these IDs. After a stop a prefix of the
/// lines was written. `TextStop::WriteFault` comes only where the sink's count of failures rose in
/// this call.
#[tactic(auto, using(base_outside::proofs::Appends::appending, base_outside::proofs::Writings::writing))]
fn write_each<K: Sink>(
    alloc: Global,
    ids: &[&Name],
    uids: &[u32],
    out: &mut K,
) -> Result<(), TextStop>
    ensures whole { OnOk result
        (Appended (K.written out.old) (K.written out.new) (concat (map (dead_line (ids_seen ids.now)) uids.now))) }
    ensures prefix { AppendedPrefix (K.written out.old) (K.written out.new) (concat (map (dead_line (ids_seen ids.now)) uids.now)) }
    ensures failed { IsErrOf result TextStop.WriteFault → Rose (K.faults out.old) (K.faults out.new) }
    ensures count { K.faults out.old ≤ K.faults out.new }
    ensures writes { Writes K.write_gives result out.old out.new }
{
    let mut line = Vec::new(alloc);
    for uid in uids {
        line.clear();
        put_dead(&mut line, ids, *uid)?;
        write_line(out, line.as_slice())?;
    }
    Ok(())
}

/// The last line, of a tree with so many dead nodes.
fn count_line(alloc: Global, tree: &Tree, uids: &[u32]) -> Result<Vec<u8>, NoMemory>
    requires valid { IsValid tree.now }
    requires dead { uids.now ≡ dead_nodes tree.now }
    ensures { IfOk result (λ line. line.items ≡ dead_count_line tree.now) }
{
    let mut line = Vec::new(alloc);
    put_bytes(&mut line, b"dead ")?;
    put_number(&mut line, uids.len() as u64)?;
    put_bytes(&mut line, b" of ")?;
    put_number(&mut line, u64::from(nodes_in(&tree.term)))?;
    put_bytes(&mut line, b"\n")?;
    Ok(line)
}

/// Writes a line for each dead node of the tree, and how many they are. `TextStop::WriteFault` comes
/// only where the sink's count of failures rose in this call.
#[tactic(auto, using(base_outside::proofs::Appends::appending, base_outside::proofs::Writings::writing))]
pub fn write_dead<K: Sink>(alloc: Global, tree: &Tree, out: &mut K) -> Result<(), TextStop>
    requires { IsValid tree.now }
    ensures whole { OnOk result (Appended (K.written out.old) (K.written out.new) (printed_bytes print.Dead tree.now)) }
    ensures prefix { AppendedPrefix (K.written out.old) (K.written out.new) (printed_bytes print.Dead tree.now) }
    ensures failed { IsErrOf result TextStop.WriteFault → Rose (K.faults out.old) (K.faults out.new) }
    ensures count { K.faults out.old ≤ K.faults out.new }
    ensures writes { Writes K.write_gives result out.old out.new }
{
    let uids = dead(alloc, tree)?;
    let mut ids = Vec::new(alloc);
    add_ids(&tree.term, &mut ids)?;
    write_each(alloc, ids.as_slice(), uids.as_slice(), out)?;
    let line = count_line(alloc, tree, uids.as_slice())?;
    write_line(out, line.as_slice())?;
    Ok(())
}
