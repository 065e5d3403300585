//! A tree whose openings are told apart, so that a tree file can have what rules make of it.

ghost use Rattle.std.specs.Prelude.{◌≡◌, ◌++◌, ◌&&◌, [], not, IfOk, OnOk, codes, is_some, map};
ghost use Rattle.std.specs.List.{flat_map, list_any};
ghost use Rattle.std.specs.Str.{bytes_eq};
ghost use Rattle.spec_program.specs.ToldApart.{apart, opening_at, openings, own_id, renamed, told_apart};
ghost use Rattle.spec_tree.specs.declared.term.Term.{out-Term};
ghost use Rattle.spec_tree_file.specs.Substitutions.{inside, rule_of};
ghost use Rattle.tree_mock.specs.Seen.{opening_seen};

use crate::lookup::Lookup;
use crate::names::name_of;
use crate::nodes::with_children;
use crate::substituting::add_term;
use base_texts::{Boxed, Items, Name, NoMemory};
use spec_tree::{Kind, Term, Tree};
use spec_tree_file::Rules;
use std::alloc::Global;

/// A tree is opened: its ID, and the path of the SubTree node.
#[derive(Drop)]
struct Opening<'a> {
    id: &'a Name,
    path: Name,
}

/// A term whose openings are told apart, and whether rules replace a node of it.
#[derive(Drop)]
struct Part {
    changed: bool,
    term: Boxed<Term>,
}

/// Some of these.
#[derive(Drop)]
struct Parts {
    changed: bool,
    terms: Items<Term>,
}

/// A name with another one after it.
fn joined(alloc: Global, first: &Name, second: &Name) -> Result<Name, NoMemory>
    ensures { IfOk result (λ both. both ≡ first.now ++ second.now) }
{
    let mut both = Vec::from_slice(alloc, first.list())?;
    both.extend_from_slice(second.list())?;
    Name::of(both)
}

/// What the paths of the children of a node begin with, where its own begins with this text.
fn inside(alloc: Global, node: &Term, above: &Name) -> Result<Name, NoMemory>
    ensures { IfOk result (λ below. below ≡ inside (out-Term node.now).kind (out-Term node.now).name above.now) }
{
    match node.kind {
        Kind::SubTree => {
            let name = joined(alloc, &node.name, &name_of(alloc, "/")?)?;
            joined(alloc, above, &name)
        }
        _ => above.copy(alloc),
    }
}

/// Adds the opening that a node is itself, where it is one. The error is want of memory.
fn add_opening<'a>(
    alloc: Global,
    node: &'a Term,
    above: &Name,
    found: &mut Vec<Opening<'a>>,
) -> Result<(), NoMemory>
    ensures { OnOk result (map opening_seen found.new.items ≡ map opening_seen found.old.items
        ++ opening_at (out-Term node.now).kind (out-Term node.now).id (above.now ++ (out-Term node.now).name)) }
{
    match node.kind {
        Kind::SubTree => {
            let path = joined(alloc, above, &node.name)?;
            found.push(Opening { id: &node.id, path })?;
            Ok(())
        }
        _ => Ok(()),
    }
}

/// Adds the openings in some terms, where the paths of their nodes begin with this text. The error is want of memory.
#[cycle(openings)]
fn add_all<'a>(
    alloc: Global,
    terms: &'a [Term],
    above: &Name,
    found: &mut Vec<Opening<'a>>,
) -> Result<(), NoMemory>
    ensures { OnOk result (map opening_seen found.new.items
        ≡ map opening_seen found.old.items ++ flat_map (λ term. openings term above.now) terms.now) }
{
    for term in terms {
        add_openings(alloc, term, above, found)?;
    }
    Ok(())
}

/// Adds the openings in a term, in pre-order, where the paths of its nodes begin with this text. The error is want of
/// memory.
#[cycle(openings)]
#[tactic(auto, using(crate::proofs::Parting::openings_of))]
fn add_openings<'a>(
    alloc: Global,
    term: &'a Term,
    above: &Name,
    found: &mut Vec<Opening<'a>>,
) -> Result<(), NoMemory>
    ensures { OnOk result (map opening_seen found.new.items ≡ map opening_seen found.old.items ++ openings term.now above.now) }
{
    add_opening(alloc, term, above, found)?;
    let below = inside(alloc, term, above)?;
    add_all(alloc, term.children.list(), &below, found)
}

/// Whether the tree of this ID is opened at another path too.
fn is_opened_elsewhere(found: &[Opening], id: &Name, path: &Name) -> bool
    ensures { result ≡ list_any (λ opening. bytes_eq opening.id.now id.now && not (bytes_eq opening.path path.now)) found.now }
{
    found
        .iter()
        .any(|opening| opening.id == id && opening.path != *path)
}

/// The ID with the path after it in parentheses.
fn with_path(alloc: Global, id: &Name, path: &Name) -> Result<Name, NoMemory>
    ensures { IfOk result (λ own. own ≡ id.now ++ (codes " (" ++ (path.now ++ codes ")"))) }
{
    let closed = joined(alloc, path, &name_of(alloc, ")")?)?;
    let enclosed = joined(alloc, &name_of(alloc, " (")?, &closed)?;
    joined(alloc, id, &enclosed)
}

/// The ID of a node, of which it is known whether rules replace a node below it.
#[tactic(auto, using(crate::proofs::Parting::elsewhere))]
fn own_id(
    alloc: Global,
    found: &[Opening],
    node: &Term,
    changed: bool,
    above: &Name,
) -> Result<Name, NoMemory>
    ensures { IfOk result (λ id. id ≡ own_id (map opening_seen found.now) (out-Term node.now).kind changed
        (out-Term node.now).id (above.now ++ (out-Term node.now).name)) }
{
    match node.kind {
        Kind::SubTree if changed => {
            let path = joined(alloc, above, &node.name)?;
            if is_opened_elsewhere(found, &node.id, &path) {
                with_path(alloc, &node.id, &path)
            } else {
                node.id.copy(alloc)
            }
        }
        _ => node.id.copy(alloc),
    }
}

/// A node without children, whose path begins with this text.
#[inline(never)]
fn lone(alloc: Global, rules: &Lookup<'_>, node: &Term, above: &Name) -> Result<Part, NoMemory>
    ensures changed { IfOk result (λ part. part.changed ≡ is_some (rule_of rules.now.rules (above.now ++ (out-Term node.now).name))) }
    ensures term { IfOk result (λ part. part.term ≡ renamed (out-Term node.now) (out-Term node.now).id []) }
{
    let path = joined(alloc, above, &node.name)?;
    let changed = rules.rule_of(path.list()).is_some();
    let term = with_children(alloc, node, Items::of(Vec::new(alloc)))?;
    let term = Boxed::of(alloc, term)?;
    Ok(Part { changed, term })
}

/// A node over these, whose path begins with this text.
#[inline(never)]
fn over_parts(
    alloc: Global,
    found: &[Opening],
    node: &Term,
    below: Parts,
    above: &Name,
) -> Result<Part, NoMemory>
    ensures changed { IfOk result (λ part. part.changed ≡ below.changed) }
    ensures term { IfOk result (λ part. part.term ≡ renamed (out-Term node.now) (own_id (map opening_seen found.now)
        (out-Term node.now).kind below.changed (out-Term node.now).id (above.now ++ (out-Term node.now).name)) below.terms) }
{
    let Parts { changed, terms } = below;
    let mut term = with_children(alloc, node, terms)?;
    term.id = own_id(alloc, found, node, changed, above)?;
    let term = Boxed::of(alloc, term)?;
    Ok(Part { changed, term })
}

/// Some terms, where the paths of their nodes begin with this text.
#[cycle(parts)]
fn all_apart(
    alloc: Global,
    rules: &Lookup<'_>,
    found: &[Opening],
    terms: &[Term],
    above: &Name,
) -> Result<Parts, NoMemory>
    ensures changed { IfOk result (λ parts. parts.changed
        ≡ list_any (λ part. part.changed) (map (λ term. apart rules.now (map opening_seen found.now) term above.now) terms.now)) }
    ensures terms { IfOk result (λ parts. parts.terms
        ≡ map (λ part. part.term) (map (λ term. apart rules.now (map opening_seen found.now) term above.now) terms.now)) }
{
    let mut all = Vec::with_capacity(alloc, terms.len())?;
    let mut changed = false;
    for term in terms {
        let part = apart(alloc, rules, found, term, above)?;
        changed = changed || part.changed;
        add_term(&mut all, part.term)?;
    }
    let terms = Items::of(all);
    Ok(Parts { changed, terms })
}

/// A term, where the paths of its nodes begin with this text.
#[cycle(parts)]
fn apart(
    alloc: Global,
    rules: &Lookup<'_>,
    found: &[Opening],
    term: &Term,
    above: &Name,
) -> Result<Part, NoMemory>
    ensures changed { IfOk result (λ part. part.changed ≡ (apart rules.now (map opening_seen found.now) term.now above.now).changed) }
    ensures term { IfOk result (λ part. part.term ≡ (apart rules.now (map opening_seen found.now) term.now above.now).term) }
{
    if term.children.list().is_empty() {
        return lone(alloc, rules, term, above);
    }
    let inner = inside(alloc, term, above)?;
    let below = all_apart(alloc, rules, found, term.children.list(), &inner)?;
    over_parts(alloc, found, term, below, above)
}

/// The tree, in which each opening has an ID of its own where rules replace a node in it and its tree is opened at another
/// path too. The error is want of memory.
pub fn told_apart(alloc: Global, rules: &Rules, tree: &Tree) -> Result<Tree, NoMemory>
    ensures { IfOk result (λ apart. apart ≡ told_apart rules.now tree.now) }
{
    let top = Name::empty();
    let mut found = Vec::new(alloc);
    add_openings(alloc, &tree.term, &top, &mut found)?;
    let lookup = Lookup::of(alloc, rules)?;
    let part = apart(alloc, &lookup, found.as_slice(), &tree.term, &top)?;
    let main = tree.main.copy(alloc)?;
    let term = part.term.into_inner();
    Ok(Tree { main, term })
}
