ghost use Rattle.std.specs.Prelude.{◌≡◌, ◌≢◌, List, ℕ, [], length, map, IfOk};
ghost use Rattle.spec_world.specs.Worlds.{IsValidWorld};
ghost use Rattle.spec_plan.specs.Expansion.{goal_tree};
ghost use Rattle.plan_tree.specs.Sizes.{subtrees};
ghost use Rattle.plan_tree.specs.Rules.{rule_of};
ghost use Rattle.plan_tree.specs.Stands.{StandsFor};

use crate::achievers::all_achievers;
use crate::domain::{templates, test_of};
use crate::inserting::{Branch, add_branch, leaf_keys, reserve};
use crate::node::Node;
use crate::rule::Rule;
use base_texts::{Items, NoMemory};
use slab::Slab;
use spec_plan::{Part, Template};
use spec_world::{Row, World};
use std::alloc::Global;

/// A plan tree over the rows of a world.
#[derive(Drop)]
pub struct PlanTree {
    pub nodes: Slab<Node>,
    pub root: usize,
    /// What is known of each row of the world, by its number.
    pub rules: Items<Rule>,
    /// The templates of the world, in order.
    pub templates: Items<Template>,
    /// For each row of the world the templates that achieve its condition, in order.
    pub achievers: Items<Items<Template>>,
}

/// What planning needs of a row.
fn rule_of(alloc: Global, row: &Row) -> Result<Rule, NoMemory>
    ensures { IfOk result (λ rule. rule ≡ rule_of row.now) }
{
    let needs = Vec::from_slice(alloc, row.needs.list())?;
    let effects = Vec::from_slice(alloc, row.sets.list())?;
    Ok(Rule {
        test: test_of(&row.sort),
        needs: Items::of(needs),
        effects: Items::of(effects),
    })
}

/// What planning needs of each row.
fn rules_of(alloc: Global, rows: &[Row]) -> Result<Items<Rule>, NoMemory>
    ensures { IfOk result (λ rules. rules ≡ map rule_of rows.now) }
{
    let mut rules = Vec::with_capacity(alloc, rows.len())?;
    for row in rows {
        rules.push(rule_of(alloc, row)?)?;
    }
    Ok(Items::of(rules))
}

/// The first plan tree of a world that has a goal: a sequence of the goals.
pub fn plan_tree_of(alloc: Global, world: &World) -> Result<PlanTree, NoMemory>
    requires valid { IsValidWorld world.now }
    requires goal { world.now.goals ≢ [] }
    ensures { IfOk result (λ t. (keys : List ℕ) × (length keys ≡ length world.now.goals) ×
        StandsFor t world.now (goal_tree t.root keys world.now.goals) ×
        (subtrees (goal_tree t.root keys world.now.goals) ≡ 0)) }
{
    let rules = rules_of(alloc, world.rows.list())?;
    let templates = templates(alloc, world)?;
    let achievers = all_achievers(alloc, rules.list(), templates.as_slice())?;
    let branch = Branch {
        part: Part::Goals,
        conditions: world.goals.list(),
        action: None,
    };
    let keys = leaf_keys(alloc, &branch)?;
    let mut nodes = Slab::new(alloc);
    reserve(&mut nodes, &branch, 1)?;
    let root = add_branch(alloc, &mut nodes, keys, None, &branch);
    Ok(PlanTree {
        nodes,
        root,
        rules,
        templates: Items::of(templates),
        achievers,
    })
}
