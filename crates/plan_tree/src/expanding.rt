//! The expansion of a condition.

ghost use Rattle.std.specs.Prelude.{◌≡◌, ◌↔◌, Some, Err, [], false, OnErr, IfOk, MatchOption, not, slice_get};
ghost use Rattle.std.specs.List.{find, list_any};
ghost use Rattle.std.specs.Option.{option_and_then, option_map_or};
ghost use Rattle.slab.specs.Slab.{get};
ghost use Rattle.base_texts.specs.declared.stop.Stop.TheVariants.{Fault};
ghost use Rattle.spec_world.specs.declared.world.World.{World};
ghost use Rattle.plan_tree.specs.declared.expanding.ExpandFault.TheVariants.{NoUntried};
ghost use Rattle.plan_tree.specs.declared.node.Node.{Node};
ghost use Rattle.spec_plan.specs.declared.part.Part.TheVariants.{Sequence};
ghost use Rattle.spec_plan.specs.Expansion.{untried};
ghost use Rattle.spec_plan.specs.Templates.{is_empty};
ghost use Rattle.plan_tree.specs.Expanded.{Chooses, Expands, GrowsAt, is_new, is_open};
ghost use Rattle.spec_plan.specs.Forests.{Forest, is_fallback};
ghost use Rattle.plan_tree.specs.Growth.{fallback_children, names_sequence, parts_of, rule_needs, site_of};
ghost use Rattle.plan_tree.specs.Stands.{IsConditionOf, StandsFor};

use crate::achievers::achievers_at;
use crate::inserting::{Branch, add_last, wrap};
use crate::node::Node;
use crate::rule::Rule;
use crate::tree::PlanTree;
use base_texts::{NoMemory, Stop};
use slab::Slab;
use spec_plan::{Part, Template};
use std::alloc::Global;

/// Where a condition stands: its row, and the key of the node above it.
#[derive(Clone, Copy)]
pub(crate) struct Site {
    pub row: u32,
    pub parent: usize,
}

/// What is added for a condition: the row of an action, and the key of the node above the condition.
#[derive(Clone, Copy)]
pub(crate) struct Choice {
    pub row: u32,
    pub parent: usize,
}

/// Why a condition is not expanded.
#[derive(Clone, Copy, Debug, PartialEq, Eq)]
pub enum ExpandFault {
    /// Every template that achieves the condition was added for it.
    NoUntried,
}

/// Where the condition of this key stands.
fn site_of(nodes: &Slab<Node>, key: usize) -> Option<Site>
    ensures { result ≡ option_and_then site_of (get nodes.now key) }
{
    let node = nodes.get(key)?;
    match (node.part, node.parent) {
        (Part::Condition(row), Some(parent)) => Some(Site { row, parent }),
        _ => None,
    }
}

/// The children of a fallback, and none of any other node.
fn fallback_children(nodes: &Slab<Node>, key: usize) -> &[usize]
    ensures { (node : Node) → get nodes.now key ≡ Some node → result.now ≡ fallback_children node.part node.children.items }
{
    match nodes.get(key) {
        Some(node) => match node.part {
            Part::Fallback => &node.children,
            _ => &[],
        },
        None => &[],
    }
}

/// Whether this is the key of the sequence of this row.
fn names_sequence(nodes: &Slab<Node>, row: u32, key: usize) -> bool
    ensures { result ≡ names_sequence nodes.now row key }
{
    match nodes.get(key) {
        Some(node) => match node.part {
            Part::Sequence(own) => own == row,
            _ => false,
        },
        None => false,
    }
}

/// Whether the sequence of this row is among these.
fn is_among(nodes: &Slab<Node>, keys: &[usize], row: u32) -> bool
    ensures { result ≡ list_any (names_sequence nodes.now row) keys.now }
{
    keys.iter().any(|key| names_sequence(nodes, row, *key))
}

/// The rows of the conditions that the action of this row needs.
fn needs_of(rules: &[Rule], row: u32) -> &[u32]
    ensures { result.now ≡ rule_needs rules.now row }
{
    match rules.get(row as usize) {
        Some(rule) => rule.needs.list(),
        None => &[],
    }
}

/// Whether a template has no sequence among the tried ones.
fn is_new(nodes: &Slab<Node>, tried: &[usize], template: Template) -> bool
    ensures { result ≡ is_new nodes.now tried.now template }
{
    !is_among(nodes, tried, template.row)
}

/// Whether the key at this place is that of the sequence of this row.
fn is_sequence_at(nodes: &Slab<Node>, keys: &[usize], place: usize, row: u32) -> bool
    ensures { result ≡ option_map_or (names_sequence nodes.now row) (slice_get keys.now place) false }
{
    match keys.get(place) {
        Some(key) => names_sequence(nodes, row, *key),
        None => false,
    }
}

/// The first of some templates that has no sequence among the tried ones. These stand behind their
/// condition in the order of the templates, so that the next of them is mostly the template's own.
fn first_new(nodes: &Slab<Node>, tried: &[usize], achievers: &[Template]) -> Option<Template>
    ensures { result ≡ find (is_new nodes.now tried.now) achievers.now }
{
    let mut next = 1;
    for template in achievers {
        if is_sequence_at(nodes, tried, next, template.row) {
            next += 1;
        } else if is_new(nodes, tried, *template) {
            return Some(*template);
        }
    }
    None
}

/// The first template that achieves the condition of this row and has no sequence among the tried
/// ones.
fn next_template(t: &PlanTree, condition: u32, tried: &[usize]) -> Option<Template>
    ensures { (world : World) (tree : Forest) → StandsFor t.now world tree →
        result ≡ find (is_open t.now condition tried.now) t.now.templates }
{
    first_new(&t.nodes, tried, achievers_at(t.achievers.list(), condition))
}

/// Whether this is the key of a fallback.
fn is_fallback(nodes: &Slab<Node>, key: usize) -> bool
    ensures { (node : Node) → get nodes.now key ≡ Some node → result ≡ is_fallback node.part }
{
    match nodes.get(key) {
        Some(node) => matches!(node.part, Part::Fallback),
        None => false,
    }
}

/// The first untried template of the condition of this key.
fn choose(t: &PlanTree, key: usize) -> Option<Choice>
    ensures { (world : World) (tree : Forest) → StandsFor t.now world tree → IsConditionOf tree key →
        MatchOption result (untried world.rows key tree ≡ []) (Chooses t.now world tree key) }
{
    let Some(site) = site_of(&t.nodes, key) else {
        return None;
    };
    let tried = fallback_children(&t.nodes, site.parent);
    let Some(template) = next_template(t, site.row, tried) else {
        return None;
    };
    Some(Choice {
        row: template.row,
        parent: site.parent,
    })
}

/// Whether the condition of this key has an untried template.
pub fn has_untried(t: &PlanTree, key: usize) -> bool
    ensures { (world : World) (tree : Forest) → StandsFor t.now world tree → IsConditionOf tree key →
        result ≡ not (is_empty (untried world.rows key tree)) }
{
    match choose(t, key) {
        Some(_) => true,
        None => false,
    }
}

/// A new sequence joins the condition of this key. Refused for want of memory (out of memory), only
/// the slab's room has changed.
fn grow_at(
    alloc: Global,
    nodes: &mut Slab<Node>,
    parent: usize,
    key: usize,
    branch: &Branch<'_>,
) -> Result<usize, NoMemory>
    ensures added { IfOk result (λ added. (node : Node) → get nodes.old parent ≡ Some node →
        GrowsAt (is_fallback node.part) nodes.old nodes.new parent key added branch.now.part
        (parts_of branch.now.conditions.now branch.now.action)) }
    ensures kept { OnErr result (nodes.new ≡ record nodes.old { capacity = nodes.new.capacity }) }
{
    if is_fallback(nodes, parent) {
        add_last(alloc, nodes, parent, branch)
    } else {
        wrap(alloc, nodes, parent, key, branch)
    }
}

/// The sequence of an action joins the condition of this key. Refused for want of memory,
/// only the slab's room has changed.
fn add_sequence(
    alloc: Global,
    nodes: &mut Slab<Node>,
    rules: &[Rule],
    key: usize,
    choice: Choice,
) -> Result<usize, NoMemory>
    ensures added { IfOk result (λ added. (node : Node) → get nodes.old choice.parent ≡ Some node →
        GrowsAt (is_fallback node.part) nodes.old nodes.new choice.parent key added (Sequence choice.row)
        (parts_of (rule_needs rules.now choice.row) (Some choice.row))) }
    ensures kept { OnErr result (nodes.new ≡ record nodes.old { capacity = nodes.new.capacity }) }
{
    let branch = Branch {
        part: Part::Sequence(choice.row),
        conditions: needs_of(rules, choice.row),
        action: Some(choice.row),
    };
    grow_at(alloc, nodes, choice.parent, key, &branch)
}

/// Expands the condition of this key: the sequence of its first untried template joins it, as the
/// last one of its fallback, or in a new fallback that takes the condition's place. Gives the key of
/// the sequence. Every key names the same node as before. Refused, also for want of memory, the tree is as it was.
pub fn expand(alloc: Global, t: &mut PlanTree, key: usize) -> Result<usize, Stop<ExpandFault>>
    requires { (world : World) × (tree : Forest) × StandsFor t.old world tree × IsConditionOf tree key }
    ensures added { IfOk result (λ added. (world : World) (tree : Forest) → StandsFor t.old world tree → IsConditionOf tree key →
        Expands t.new world tree key added) }
    ensures untried { (world : World) (tree : Forest) → StandsFor t.old world tree → IsConditionOf tree key →
        (result ≡ Err (Fault NoUntried)) ↔ (untried world.rows key tree ≡ []) }
    ensures kept { OnErr result (t.new ≡ record t.old { nodes = record t.old.nodes { capacity = t.new.nodes.capacity } }) }
    ensures stands { OnErr result ((world : World) (tree : Forest) → StandsFor t.old world tree → StandsFor t.new world tree) }
{
    match choose(t, key) {
        Some(choice) => Ok(add_sequence(alloc, &mut t.nodes, t.rules.list(), key, choice)?),
        None => Err(Stop::Fault(ExpandFault::NoUntried)),
    }
}
