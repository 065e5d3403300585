ghost use Rattle.std.specs.Prelude.{◌≡◌, ◌≤◌, ◌++◌, IfOk, OnOk, IsErrOf, Ok};
ghost use Rattle.std.specs.List.{concat};
ghost use Rattle.cli_refusals.specs.Printing.{Printed};
ghost use Rattle.spec_program.specs.Printed.{count_line, print_made, print_output, printed_bytes};
ghost use Rattle.spec_tree.specs.Limits.{most_nodes, most_work};
ghost use Rattle.spec_tree.specs.PrintedTree.{tree_lines};
ghost use Rattle.spec_tree.specs.Terms.{node_count, work_of};
ghost use Rattle.spec_tree.specs.Trees.{IsValid};
ghost use Rattle.spec_outside.specs.Appending.{Appended, AppendedPrefix};
ghost use Rattle.spec_outside.specs.Counts.{Rose};
ghost use Rattle.spec_outside.specs.Writes.{Writes};
ghost use Rattle.spec_program.specs.Answers.{WritesAt};

use crate::printing::dead_nodes::write_dead;
use base_outside::Sink;
use base_tables::nodes_in;
use base_texts::NoMemory;
use spec_program::{Exit, Print};
use spec_tree::Tree;
use std::alloc::Global;
use text_lines::{TextStop, put_bytes, put_number, write_line, write_tree};
use tree_build::work;

/// The last line of a check.
fn count_line(alloc: Global, tree: &Tree) -> Result<Vec<u8>, NoMemory>
    requires nodes { node_count tree.now.term ≤ most_nodes }
    requires work { work_of tree.now.term ≤ most_work }
    ensures { IfOk result (λ line. line.items ≡ count_line tree.now) }
{
    let mut line = Vec::new(alloc);
    put_bytes(&mut line, b"<!-- nodes ")?;
    put_number(&mut line, u64::from(nodes_in(&tree.term)))?;
    put_bytes(&mut line, b" work ")?;
    put_number(&mut line, u64::from(work(tree)))?;
    put_bytes(&mut line, b" -->\n")?;
    Ok(line)
}

/// Writes the tree and then its counts. `TextStop::WriteFault` comes only where the sink's count of
/// failures rose in this call.
#[tactic(auto, using(base_outside::proofs::Appends::appending, base_outside::proofs::Writings::writing))]
fn write_check<K: Sink>(alloc: Global, tree: &Tree, out: &mut K) -> Result<(), TextStop>
    requires nodes { node_count tree.now.term ≤ most_nodes }
    requires work { work_of tree.now.term ≤ most_work }
    ensures whole { OnOk result (Appended
        (K.written out.old) (K.written out.new) (concat (tree_lines tree.now) ++ count_line tree.now)) }
    ensures prefix { AppendedPrefix
        (K.written out.old) (K.written out.new) (concat (tree_lines tree.now) ++ count_line tree.now) }
    ensures failed { IsErrOf result TextStop.WriteFault → Rose (K.faults out.old) (K.faults out.new) }
    ensures count { K.faults out.old ≤ K.faults out.new }
    ensures writes { Writes K.write_gives result out.old out.new }
{
    write_tree(alloc, out, tree)?;
    let line = count_line(alloc, tree)?;
    write_line(out, line.as_slice())?;
    Ok(())
}

/// Writes what is printed of the tree. `TextStop::WriteFault` comes only where the sink's count of
/// failures rose in this call.
fn write_printed<K: Sink>(
    alloc: Global,
    tree: &Tree,
    print: Print,
    out: &mut K,
) -> Result<(), TextStop>
    requires { IsValid tree.now }
    ensures whole { OnOk result (Appended (K.written out.old) (K.written out.new) (printed_bytes print tree.now)) }
    ensures prefix { AppendedPrefix (K.written out.old) (K.written out.new) (printed_bytes print tree.now) }
    ensures failed { IsErrOf result TextStop.WriteFault → Rose (K.faults out.old) (K.faults out.new) }
    ensures count { K.faults out.old ≤ K.faults out.new }
    ensures writes { Writes K.write_gives result out.old out.new }
{
    match print {
        Print::Whole => write_check(alloc, tree, out),
        Print::Dead => write_dead(alloc, tree, out),
    }
}

/// Prints this of the tree.
pub fn print_tree<K: Sink>(alloc: Global, tree: &Tree, print: Print, out: &mut K) -> Exit
    requires { IsValid tree.now }
    ensures printed { Printed (print_output print (Ok tree.now)) result
        (K.written out.old) (K.faults out.old) (K.written out.new) (K.faults out.new) }
    ensures count { K.faults out.old ≤ K.faults out.new }
    ensures writes { WritesAt K.write_gives result out.old out.new }
{
    match write_printed(alloc, tree, print, out) {
        Ok(()) => Exit::Done,
        Err(TextStop::WriteFault) => Exit::Write,
        Err(TextStop::NoMemory) => Exit::Memory,
    }
}

/// Prints a tree that rules make of another one, and its counts.
pub fn print_made<K: Sink>(alloc: Global, tree: &Tree, out: &mut K) -> Exit
    requires nodes { node_count tree.now.term ≤ most_nodes }
    requires work { work_of tree.now.term ≤ most_work }
    ensures printed { Printed (print_made (Ok tree.now)) result
        (K.written out.old) (K.faults out.old) (K.written out.new) (K.faults out.new) }
    ensures count { K.faults out.old ≤ K.faults out.new }
    ensures writes { WritesAt K.write_gives result out.old out.new }
{
    match write_check(alloc, tree, out) {
        Ok(()) => Exit::Done,
        Err(TextStop::WriteFault) => Exit::Write,
        Err(TextStop::NoMemory) => Exit::Memory,
    }
}
