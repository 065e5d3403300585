ghost use Rattle.std.specs.Prelude.{◌≡◌, ◌++◌, ◌∷◌, [], IfOk, OnOk, codes, map};
ghost use Rattle.base_texts.specs.Stops.{Gives};
ghost use Rattle.spec_tree.specs.declared.term.Term.{out-Term, roll-Term};
ghost use Rattle.base_tables.specs.Runnable.{IsRunnable};
ghost use Rattle.tree_mock.specs.FitRules.{RulesFit};
ghost use Rattle.spec_tree_file.specs.Substitutions.{by_rule, inside, replaced, rule_of, substitute, with_children, with_mocks};

use crate::limits::within_limits;
use crate::lookup::Lookup;
use crate::nodes::{by_rule, with_children};
use base_texts::{Boxed, Items, Name, NoMemory, Stop};
use spec_tree::{Kind, Term, Tree};
use spec_tree_file::{MockFault, Rules};
use std::alloc::Global;

/// The path of a node of this name: what the paths here begin with, and then the name.
fn path_of(alloc: Global, above: &[u8], name: &Name) -> Result<Vec<u8>, NoMemory>
    ensures { IfOk result (λ path. path.items ≡ above.now ++ name.now) }
{
    let mut path = Vec::from_slice(alloc, above)?;
    path.extend_from_slice(name.list())?;
    Ok(path)
}

/// What the paths below a SubTree node of this name begin with.
fn inside_tree(alloc: Global, above: &[u8], name: &Name) -> Result<Vec<u8>, NoMemory>
    ensures { IfOk result (λ path. path.items ≡ above.now ++ (name.now ++ codes "/")) }
{
    let mut path = path_of(alloc, above, name)?;
    path.push(b'/')?;
    Ok(path)
}

/// Adds a term after the others. Terms are large, and come by their places on the heap, since the stack holds a level
/// for each node above.
#[inline(never)]
pub fn add_term(terms: &mut Vec<Term>, term: Boxed<Term>) -> Result<(), NoMemory>
    ensures { OnOk result (terms.new.items ≡ terms.old.items ++ term ∷ []) }
{
    terms.push(term.into_inner())?;
    Ok(())
}

/// What takes the place of a node without children, where its path begins with this text.
#[inline(never)]
fn leaf_replaced(
    alloc: Global,
    rules: &Lookup<'_>,
    node: &Term,
    above: &[u8],
) -> Result<Boxed<Term>, NoMemory>
    ensures { IfOk result (λ term. term ≡ by_rule rules.now.configurations
        (rule_of rules.now.rules (above.now ++ (out-Term node.now).name)) (with_children (out-Term node.now) [])) }
{
    let path = path_of(alloc, above, &node.name)?;
    let term = by_rule(alloc, rules, path.as_slice(), node)?;
    Boxed::of(alloc, term)
}

/// The node over these children.
#[inline(never)]
fn over_children(alloc: Global, node: &Term, children: Items<Term>) -> Result<Boxed<Term>, NoMemory>
    ensures { IfOk result (λ term. term ≡ roll-Term (with_children (out-Term node.now) children)) }
{
    let term = with_children(alloc, node, children)?;
    Boxed::of(alloc, term)
}

/// Some terms with their nodes replaced by rules, where the paths of their nodes begin with this text.
#[cycle(terms)]
fn all_replaced(
    alloc: Global,
    rules: &Lookup<'_>,
    terms: &[Term],
    above: &[u8],
) -> Result<Items<Term>, NoMemory>
    ensures { IfOk result (λ all. all ≡ map (λ term. replaced rules.now term above.now) terms.now) }
{
    let mut all = Vec::with_capacity(alloc, terms.len())?;
    for term in terms {
        add_term(&mut all, replaced(alloc, rules, term, above)?)?;
    }
    Ok(Items::of(all))
}

/// The children of a node with their nodes replaced, where the paths of the node and of its neighbours begin with this
/// text.
#[cycle(terms)]
fn children_replaced(
    alloc: Global,
    rules: &Lookup<'_>,
    node: &Term,
    above: &[u8],
) -> Result<Items<Term>, NoMemory>
    ensures { IfOk result (λ all. all ≡ map
        (λ term. replaced rules.now term (inside (out-Term node.now).kind (out-Term node.now).name above.now))
        (out-Term node.now).children) }
{
    match node.kind {
        Kind::SubTree => {
            let below = inside_tree(alloc, above, &node.name)?;
            all_replaced(alloc, rules, node.children.list(), below.as_slice())
        }
        _ => all_replaced(alloc, rules, node.children.list(), above),
    }
}

/// A term with its nodes replaced by rules, where the paths of its nodes begin with this text.
#[cycle(terms)]
fn replaced(
    alloc: Global,
    rules: &Lookup<'_>,
    term: &Term,
    above: &[u8],
) -> Result<Boxed<Term>, NoMemory>
    ensures { IfOk result (λ t. t ≡ replaced rules.now term.now above.now) }
{
    if term.children.list().is_empty() {
        return leaf_replaced(alloc, rules, term, above);
    }
    let children = children_replaced(alloc, rules, term, above)?;
    over_children(alloc, term, children)
}

/// The tree with its nodes without children replaced by the rules. Its faults are the four limits of trees, of the
/// substituted tree, in their order: `TooManyNodes`, `TooDeep`, `TooManyKeys`, `TooMuchWork`. Of a tree that can be run
/// and rules that were read, it can be run.
pub fn substitute(alloc: Global, tree: &Tree, rules: &Rules) -> Result<Tree, Stop<MockFault>>
    ensures gives { Gives result (substitute tree.now rules.now) }
    ensures runnable { IsRunnable tree.now → RulesFit rules.now → IfOk result IsRunnable }
{
    let lookup = Lookup::of(alloc, rules)?;
    let term = replaced(alloc, &lookup, &tree.term, &[])?.into_inner();
    let main = tree.main.copy(alloc)?;
    within_limits(alloc, Tree { main, term })
}
