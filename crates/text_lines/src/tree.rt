ghost use Rattle.std.specs.Prelude.{◌≡◌, ◌≤◌, OnOk, IfOk, IsErrOf, codes, map};
ghost use Rattle.std.specs.List.{concat, list_any};
ghost use Rattle.std.specs.Str.{bytes_eq};
ghost use Rattle.spec_tree.specs.PrintedTree.{opened_by, printed, tree_element, tree_lines, trees_of, with_tree, with_trees, written_below};
ghost use Rattle.spec_tree.specs.declared.term.Term.{out-Term};
ghost use Rattle.spec_outside.specs.Appending.{Appended, AppendedPrefix};
ghost use Rattle.spec_outside.specs.Counts.{Rose};
ghost use Rattle.spec_outside.specs.Writes.{Writes};
ghost use Rattle.text_lines.specs.Trees.{end_mark, node_mark, start_mark, written};

use crate::block::write_line;
use crate::mark::{deeper, element_name, end_line, mark_line, put_node_line};
use crate::put::empty_line;
use crate::stop::TextStop;
use base_outside::Sink;
use base_texts::{Name, NoMemory};
use spec_tree::{Kind, Term, Tree};
use std::alloc::Global;

/// A tree of the printed file: its ID, and the nodes in its element.
#[derive(Clone, Copy)]
struct WrittenTree<'a> {
    id: &'a Name,
    nodes: &'a [Term],
}

/// Whether a tree of this ID is among these.
fn has_tree(trees: &[WrittenTree], id: &Name) -> bool
    ensures { result ≡ list_any (λ t. bytes_eq id.now t.id.now) trees.now }
{
    trees.iter().any(|tree| id == tree.id)
}

/// Adds a tree, unless one of its ID is there already. There are at most 256. The error is want of
/// memory.
fn add_tree<'a>(
    trees: &mut Vec<WrittenTree<'a>>,
    id: &'a Name,
    nodes: &'a [Term],
) -> Result<(), NoMemory>
    ensures { OnOk result (map written trees.new.items
        ≡ with_tree (map written trees.old.items) (id.now, map (λ node. (printed node).lines) nodes.now)) }
{
    if has_tree(trees, id) {
        return Ok(());
    }
    trees.push(WrittenTree { id, nodes })?;
    Ok(())
}

/// Adds the tree that the node opens itself, where it is a SubTree node. The error is want of
/// memory.
fn add_own<'a>(trees: &mut Vec<WrittenTree<'a>>, term: &'a Term) -> Result<(), NoMemory>
    ensures { OnOk result (map written trees.new.items ≡ with_trees (map written trees.old.items)
        (opened_by (out-Term term.now).kind (out-Term term.now).id (map (λ c. (printed c).lines) (out-Term term.now).children))) }
{
    match term.kind {
        Kind::SubTree => add_tree(trees, &term.id, term.children.list()),
        _ => Ok(()),
    }
}

/// Adds the trees that are opened in the term, in pre-order. The error is want of memory.
fn add_opened<'a>(trees: &mut Vec<WrittenTree<'a>>, term: &'a Term) -> Result<(), NoMemory>
    ensures { OnOk result (map written trees.new.items ≡ with_trees (map written trees.old.items) (printed term.now).opened) }
{
    add_own(trees, term)?;
    for child in term.children.list() {
        add_opened(trees, child)?;
    }
    Ok(())
}

/// The main tree, and then each tree that is opened, once, in the order of their first openings.
/// The error is want of memory.
fn trees_of<'a>(alloc: Global, tree: &'a Tree) -> Result<Vec<WrittenTree<'a>>, NoMemory>
    ensures { IfOk result (λ trees. map written trees.items ≡ trees_of tree.now) }
{
    let mut trees = Vec::new(alloc);
    trees.push(WrittenTree {
        id: &tree.main,
        nodes: std::slice::from_ref(&tree.term),
    })?;
    add_opened(&mut trees, &tree.term)?;
    Ok(trees)
}

/// The nodes that are written in a node's element. Those of a SubTree node are written in the
/// element of its tree.
fn nodes_below(term: &Term) -> &[Term]
    ensures { result.now ≡ written_below (out-Term term.now).kind (out-Term term.now).children }
{
    match term.kind {
        Kind::SubTree => &[],
        _ => term.children.list(),
    }
}

/// Writes the line of a node's mark, which ends with these bytes, in the room of `line`. After a stop a prefix of it
/// was written.
fn write_node_line<K: Sink>(
    line: &mut Vec<u8>,
    out: &mut K,
    blanks: &[u8],
    term: &Term,
    ending: &[u8],
) -> Result<(), TextStop>
    ensures whole { OnOk result (Appended (K.written out.old) (K.written out.new) (node_mark blanks.now term.now ending.now)) }
    ensures prefix { AppendedPrefix (K.written out.old) (K.written out.new) (node_mark blanks.now term.now ending.now) }
    ensures failed { IsErrOf result TextStop.WriteFault → Rose (K.faults out.old) (K.faults out.new) }
    ensures count { K.faults out.old ≤ K.faults out.new }
    ensures writes { Writes K.write_gives result out.old out.new }
{
    line.clear();
    put_node_line(line, blanks, term, ending)?;
    write_line(out, line.as_slice())
}

/// Writes the line of a mark with these attributes, which ends with these bytes. After a stop a
/// prefix of it was written.
fn write_mark<K: Sink>(
    alloc: Global,
    out: &mut K,
    blanks: &[u8],
    name: &[u8],
    attributes: &[(&[u8], &[u8])],
    ending: &[u8],
) -> Result<(), TextStop>
    ensures whole { OnOk result (Appended (K.written out.old) (K.written out.new)
        (start_mark blanks.now name.now (map (λ a. (a.0.now, a.1.now)) attributes.now) ending.now)) }
    ensures prefix { AppendedPrefix (K.written out.old) (K.written out.new)
        (start_mark blanks.now name.now (map (λ a. (a.0.now, a.1.now)) attributes.now) ending.now) }
    ensures failed { IsErrOf result TextStop.WriteFault → Rose (K.faults out.old) (K.faults out.new) }
    ensures count { K.faults out.old ≤ K.faults out.new }
    ensures writes { Writes K.write_gives result out.old out.new }
{
    let line = mark_line(alloc, blanks, name, attributes, ending)?;
    write_line(out, line.as_slice())
}

/// Writes the line of an end mark. After a stop a prefix of it was written.
fn write_end<K: Sink>(
    alloc: Global,
    out: &mut K,
    blanks: &[u8],
    name: &[u8],
) -> Result<(), TextStop>
    ensures whole { OnOk result (Appended (K.written out.old) (K.written out.new) (end_mark blanks.now name.now)) }
    ensures prefix { AppendedPrefix (K.written out.old) (K.written out.new) (end_mark blanks.now name.now) }
    ensures failed { IsErrOf result TextStop.WriteFault → Rose (K.faults out.old) (K.faults out.new) }
    ensures count { K.faults out.old ≤ K.faults out.new }
    ensures writes { Writes K.write_gives result out.old out.new }
{
    let line = end_line(alloc, blanks, name)?;
    write_line(out, line.as_slice())
}

/// Writes the lines of a node and of all below it. Those of start marks and empty marks use the room of `line`. After a
/// stop a prefix of the bytes was written.
#[tactic(auto, using(base_outside::proofs::Appends::appending, base_outside::proofs::Writings::writing))]
fn write_node<K: Sink>(
    alloc: Global,
    line: &mut Vec<u8>,
    out: &mut K,
    blanks: &[u8],
    term: &Term,
) -> Result<(), TextStop>
    ensures whole { OnOk result
        (Appended (K.written out.old) (K.written out.new) (concat ((printed term.now).lines blanks.now))) }
    ensures prefix { AppendedPrefix (K.written out.old) (K.written out.new) (concat ((printed term.now).lines blanks.now)) }
    ensures failed { IsErrOf result TextStop.WriteFault → Rose (K.faults out.old) (K.faults out.new) }
    ensures count { K.faults out.old ≤ K.faults out.new }
    ensures writes { Writes K.write_gives result out.old out.new }
{
    let nodes = nodes_below(term);
    if nodes.is_empty() {
        write_node_line(line, out, blanks, term, b"/>")?;
        return Ok(());
    }
    let more = deeper(alloc, blanks)?;
    write_node_line(line, out, blanks, term, b">")?;
    for node in nodes {
        write_node(alloc, line, out, more.as_slice(), node)?;
    }
    write_end(alloc, out, blanks, element_name(term))?;
    Ok(())
}

/// Writes the lines of a tree in its element, one level deep. After a stop a prefix of the bytes
/// was written.
#[tactic(auto, using(base_outside::proofs::Appends::appending, base_outside::proofs::Writings::writing))]
fn write_written<K: Sink>(
    alloc: Global,
    line: &mut Vec<u8>,
    out: &mut K,
    id: &Name,
    nodes: &[Term],
) -> Result<(), TextStop>
    ensures whole { OnOk result (Appended (K.written out.old) (K.written out.new)
        (concat (tree_element (id.now, map (λ node. (printed node).lines) nodes.now) (codes "  ")))) }
    ensures prefix { AppendedPrefix (K.written out.old) (K.written out.new)
        (concat (tree_element (id.now, map (λ node. (printed node).lines) nodes.now) (codes "  "))) }
    ensures failed { IsErrOf result TextStop.WriteFault → Rose (K.faults out.old) (K.faults out.new) }
    ensures count { K.faults out.old ≤ K.faults out.new }
    ensures writes { Writes K.write_gives result out.old out.new }
{
    let attributes: [(&[u8], &[u8]); 1] = [(b"ID", id.list())];
    if nodes.is_empty() {
        write_mark(alloc, out, b"  ", b"BehaviorTree", &attributes, b"/>")?;
        return Ok(());
    }
    write_mark(alloc, out, b"  ", b"BehaviorTree", &attributes, b">")?;
    for node in nodes {
        write_node(alloc, line, out, b"    ", node)?;
    }
    write_end(alloc, out, b"  ", b"BehaviorTree")?;
    Ok(())
}

/// Writes the tree as a tree file, each line by one write. After a stop a prefix of the bytes was
/// written. `TextStop::WriteFault` comes only where the sink's count of failures rose in this call,
/// and `TextStop::NoMemory` for want of memory.
#[tactic(auto, using(base_outside::proofs::Appends::appending, base_outside::proofs::Writings::writing))]
pub fn write_tree<K: Sink>(alloc: Global, out: &mut K, tree: &Tree) -> Result<(), TextStop>
    ensures whole { OnOk result (Appended (K.written out.old) (K.written out.new) (concat (tree_lines tree.now))) }
    ensures prefix { AppendedPrefix (K.written out.old) (K.written out.new) (concat (tree_lines tree.now)) }
    ensures failed { IsErrOf result TextStop.WriteFault → Rose (K.faults out.old) (K.faults out.new) }
    ensures count { K.faults out.old ≤ K.faults out.new }
    ensures writes { Writes K.write_gives result out.old out.new }
{
    let trees = trees_of(alloc, tree)?;
    let mut line = empty_line(alloc)?;
    let attributes: [(&[u8], &[u8]); 2] = [
        (b"BTCPP_format", b"4"),
        (b"main_tree_to_execute", tree.main.list()),
    ];
    write_mark(alloc, out, b"", b"root", &attributes, b">")?;
    for written in &trees {
        write_written(alloc, &mut line, out, written.id, written.nodes)?;
    }
    write_end(alloc, out, b"", b"root")?;
    Ok(())
}
