ghost use Rattle.std.specs.Prelude.{◌≡◌, ◌++◌, ◌∷◌, ◌<◌, [], IfOk, OnOk};
ghost use Rattle.base_texts.specs.Stops.{Gives};
ghost use Rattle.spec_tree.specs.Names.{is_among};
ghost use Rattle.spec_tree_file.specs.Reads.{is_subtree, node_by, node_of, nodes_by, opened_by, read_node, term_of, tree_of};
ghost use Rattle.tree_build.specs.ReadSteps.{name_in};
ghost use Rattle.tree_build.specs.Seen.{file_seen, ids_seen};

use crate::contents::Contents;
use crate::head::head_of;
use crate::trees::{Trees, tree_of};
use base_tables::{MOST_NODES, MOST_SCOPES, takes};
use base_texts::{Boxed, Items, Name, NoMemory, Stop};
use spec_tree::{Kind, Term};
use spec_tree_file::{BuildFault, Content, Element, Head, Numbers, Version};
use std::alloc::Global;
use tree_manifest::attribute;

/// What a file defines: its trees, the models of its leaves, and the version in which its nodes are
/// read.
#[derive(Drop)]
pub struct File<'a> {
    pub alloc: Global,
    pub trees: &'a Trees<'a>,
    pub version: Version,
    /// What the attributes of nodes say, by the models of the file.
    pub contents: Contents<'a>,
}

/// Where a node stands.
#[derive(Clone, Copy)]
pub struct Place<'a> {
    /// How many levels are left for it and for all below it.
    pub left: u32,
    /// The IDs of the trees that are being opened.
    pub opened: &'a [&'a Name],
    /// The place of the mark of its element, or of the one above it.
    pub mark: u32,
}

/// Whether the tree of this ID is being opened.
fn is_opened(opened: &[&Name], id: &Name) -> bool
    ensures { result ≡ is_among id.now (ids_seen opened.now) }
{
    for other in opened {
        if id == *other {
            return true;
        }
    }
    false
}

/// The trees that are being opened, with this one.
fn with_opened<'a>(
    alloc: Global,
    opened: &[&'a Name],
    id: &'a Name,
) -> Result<Vec<&'a Name>, NoMemory>
    ensures { IfOk result (λ v. ids_seen v.items ≡ ids_seen opened.entry.now ++ id.now ∷ []) }
{
    let mut all = Vec::from_slice(alloc, opened)?;
    all.push(id)?;
    Ok(all)
}

/// Whether the kind is a SubTree.
fn is_subtree(kind: Kind) -> bool
    ensures { result ≡ is_subtree kind }
{
    match kind {
        Kind::SubTree => true,
        _ => false,
    }
}

/// The name of a node, which is its ID where no other is written.
fn name_in(alloc: Global, attributes: &[(Name, Name)], id: &Name) -> Result<Name, NoMemory>
    ensures { IfOk result (λ name. name ≡ name_in attributes.now id.now) }
{
    match attribute(attributes, b"name") {
        Some(name) => name.copy(alloc),
        None => id.copy(alloc),
    }
}

/// A node of all that was read. It is large, and goes up by its place on the heap, since the stack holds a level for
/// each node above.
#[inline(never)]
fn term_of(
    alloc: Global,
    head: Head,
    attributes: &[(Name, Name)],
    content: Boxed<Content>,
    children: Items<Term>,
) -> Result<Boxed<Term>, NoMemory>
    ensures { IfOk result (λ term. term ≡ term_of head attributes.now content children) }
{
    let name = name_in(alloc, attributes, &head.id)?;
    let content = content.into_inner();
    Boxed::of(
        alloc,
        Term {
            kind: head.kind,
            id: head.id,
            name,
            ports: content.ports,
            code: content.code,
            guards: content.guards,
            autoremap: content.autoremap,
            children,
        },
    )
}

/// Adds a node after the others.
#[inline(never)]
fn add_term(terms: &mut Vec<Term>, term: Boxed<Term>) -> Result<(), NoMemory>
    ensures { OnOk result (terms.new.items ≡ terms.old.items ++ term ∷ []) }
{
    terms.push(term.into_inner())?;
    Ok(())
}

/// Some nodes, one after another, of which each stands at this place, and the numbers after them; or the first fault.
#[cycle(walk)]
fn nodes_by(
    file: &File<'_>,
    place: Place<'_>,
    elements: &[Element],
    numbers: Numbers,
) -> Result<(Items<Term>, Numbers), Stop<BuildFault>>
    ensures { let p = place.entry in
        Gives result (nodes_by (read_node (file_seen file.now) p.left) (ids_seen p.opened.now) elements.now numbers) }
{
    let mut terms = Vec::with_capacity(file.alloc, elements.len())?;
    let mut so_far = numbers;
    for element in elements {
        let (term, next) = read_node(file, place, element, so_far)?;
        add_term(&mut terms, term)?;
        so_far = next;
    }
    Ok((Items::of(terms), so_far))
}

/// The node that was counted last, of this kind and ID, with these elements as its children, and the numbers after it;
/// or the first fault.
#[cycle(walk)]
fn node_of(
    file: &File<'_>,
    place: Place<'_>,
    head: Head,
    attributes: &[(Name, Name)],
    children: &[Element],
    numbers: Numbers,
) -> Result<(Boxed<Term>, Numbers), Stop<BuildFault>>
    ensures { let f = file_seen file.now in let p = place.entry in
        Gives result (node_of f.models (read_node f p.left) head attributes.now (ids_seen p.opened.now)
        children.now numbers numbers.nodes) }
{
    let content = file
        .contents
        .content(numbers.nodes, place.mark, &head, attributes)?;
    let (terms, numbers) = nodes_by(file, place, children, numbers)?;
    let term = term_of(file.alloc, head, attributes, content, terms)?;
    Ok((term, numbers))
}

/// A SubTree node, which has the root of its tree as its one child, and the numbers after it. Its own faults are
/// `NoTree`, `Recursive`, `TooManyScopes` and `ChildCount`, in this order.
#[cycle(walk)]
fn opened_by(
    file: &File<'_>,
    place: Place<'_>,
    head: Head,
    element: &Element,
    numbers: Numbers,
) -> Result<(Boxed<Term>, Numbers), Stop<BuildFault>>
    requires { numbers.nodes < 4096 }
    ensures { let f = file_seen file.now in let p = place.entry in
        Gives result (opened_by f (read_node f p.left) head element.now (ids_seen p.opened.now) numbers (tree_of head.id f.trees)) }
{
    let Some(tree) = tree_of(file.trees, &head.id) else {
        let id = head.id.copy(file.alloc)?;
        return Err(Stop::Fault(BuildFault::NoTree { id }));
    };
    if is_opened(place.opened, &head.id) {
        let id = head.id.copy(file.alloc)?;
        return Err(Stop::Fault(BuildFault::Recursive { id }));
    }
    if numbers.scopes >= MOST_SCOPES {
        return Err(Stop::Fault(BuildFault::TooManyScopes));
    }
    let uid = numbers.nodes + 1;
    let roots = tree.children.list();
    if !element.children.list().is_empty() || roots.len() != 1 {
        return Err(Stop::Fault(BuildFault::ChildCount { uid }));
    }
    let own = head.id.copy(file.alloc)?;
    let inner = with_opened(file.alloc, &*place.opened, &own)?;
    let inside = Place {
        left: place.left,
        opened: inner.as_slice(),
        mark: place.mark,
    };
    let numbers = Numbers {
        nodes: uid,
        scopes: numbers.scopes + 1,
    };
    let attributes = element.attributes.list();
    node_of(file, inside, head, attributes, roots, numbers)
}

/// A node by its kind, and the numbers after it, or the first fault.
#[cycle(walk)]
fn node_by(
    file: &File<'_>,
    place: Place<'_>,
    head: Head,
    element: &Element,
    numbers: Numbers,
) -> Result<(Boxed<Term>, Numbers), Stop<BuildFault>>
    requires { numbers.nodes < 4096 }
    ensures { let f = file_seen file.now in let p = place.entry in
        Gives result (node_by f (read_node f p.left) head element.now (ids_seen p.opened.now) numbers) }
{
    if is_subtree(head.kind) {
        return opened_by(file, place, head, element, numbers);
    }
    let uid = numbers.nodes + 1;
    let children = element.children.list();
    if !takes(head.kind, children.len()) {
        return Err(Stop::Fault(BuildFault::ChildCount { uid }));
    }
    let numbers = Numbers {
        nodes: uid,
        scopes: numbers.scopes,
    };
    let attributes = element.attributes.list();
    node_of(file, place, head, attributes, children, numbers)
}

/// The node that stands at this place, and the numbers after it; or the first fault.
#[cycle(walk)]
pub fn read_node(
    file: &File<'_>,
    place: Place<'_>,
    element: &Element,
    numbers: Numbers,
) -> Result<(Boxed<Term>, Numbers), Stop<BuildFault>>
    ensures { let p = place.entry in
        Gives result (read_node (file_seen file.now) p.left element.now (ids_seen p.opened.now) numbers) }
{
    if numbers.nodes >= MOST_NODES {
        return Err(Stop::Fault(BuildFault::TooManyNodes));
    }
    let uid = numbers.nodes + 1;
    if place.left == 0 {
        return Err(Stop::Fault(BuildFault::TooDeep { uid }));
    }
    let below = Place {
        left: place.left - 1,
        opened: place.opened,
        mark: element.place,
    };
    match head_of(file.alloc, file.version, element)? {
        Some(head) => node_by(file, below, head, element, numbers),
        None => Err(Stop::Fault(BuildFault::UnknownNode { uid })),
    }
}
