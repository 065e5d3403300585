ghost use Rattle.std.specs.Prelude.{◌≡◌, ◌+◌, ◌++◌, [], IfOk, OnOk, length};
ghost use Rattle.spec_tree.specs.declared.term.Term.{out-Term};
ghost use Rattle.spec_tree.specs.Boards.{children_scope_number};
ghost use Rattle.spec_tree_file.specs.Substitutions.{inside};
ghost use Rattle.spec_session.specs.Labels as definition;

use base_texts::{Name, NoMemory};
use spec_session::Label;
use spec_tree::{Kind, Term, Tree};
use std::alloc::Global;

/// The path of a node of this name: what the paths here begin with, and then the name.
fn path_of(alloc: Global, above: &Name, name: &Name) -> Result<Name, NoMemory>
    ensures { IfOk result (λ path. path ≡ above.now ++ name.now) }
{
    let mut path = Vec::from_slice(alloc, above.list())?;
    path.extend_from_slice(name.list())?;
    Name::of(path)
}

/// What the paths below a node begin with.
fn inside(alloc: Global, node: &Term, above: &Name) -> Result<Name, NoMemory>
    ensures { IfOk result (λ path. path ≡ inside (out-Term node.now).kind (out-Term node.now).name above.now) }
{
    match node.kind {
        Kind::SubTree => path_of(
            alloc,
            above,
            &path_of(alloc, &node.name, &Name::copied(alloc, b"/")?)?,
        ),
        _ => Ok(above.copy(alloc)?),
    }
}

/// The number of the scope in which the children of a node stand.
fn scope_below(kind: Kind, uid: u32, scope: u32) -> u32
    ensures { result ≡ children_scope_number kind uid scope }
{
    match kind {
        Kind::SubTree => uid,
        _ => scope,
    }
}

/// What is told of a node, in the scope of this number, where paths begin with this.
fn label_of(alloc: Global, node: &Term, scope: u32, above: &Name) -> Result<Label, NoMemory>
    ensures { IfOk result (λ label. label ≡ definition.label_of (out-Term node.now) scope above.now) }
{
    Ok(Label {
        kind: node.kind,
        id: node.id.copy(alloc)?,
        name: node.name.copy(alloc)?,
        path: path_of(alloc, above, &node.name)?,
        scope,
        ports: node.ports.share()?,
    })
}

/// Adds what is told of the nodes of a term, in the scope of this number, where paths begin with this. There is one for
/// each node before them. The error is want of memory, as it is from 2^32 nodes on.
fn add_labels(
    alloc: Global,
    term: &Term,
    scope: u32,
    above: &Name,
    labels: &mut Vec<Label>,
) -> Result<(), NoMemory>
    ensures { OnOk result
        (labels.new.items ≡ labels.old.items ++ definition.labels_from term.now (length labels.old.items + 1) scope above.now) }
{
    let Ok(uid) = u32::try_from(labels.len() + 1) else {
        return Err(NoMemory);
    };
    labels.push(label_of(alloc, term, scope, above)?)?;
    let inner = scope_below(term.kind, uid, scope);
    let below = inside(alloc, term, above)?;
    for child in term.children.list() {
        add_labels(alloc, child, inner, &below, labels)?;
    }
    Ok(())
}

/// What is told of the nodes of a tree, by their uid, which begins at 1. The error is want of memory.
pub fn labels_of(alloc: Global, tree: &Tree) -> Result<Vec<Label>, NoMemory>
    ensures { IfOk result (λ labels. labels.items ≡ definition.labels tree.now) }
{
    let above = Name::empty();
    let mut labels = Vec::new(alloc);
    add_labels(alloc, &tree.term, 0, &above, &mut labels)?;
    Ok(labels)
}
