ghost use Rattle.std.specs.Prelude.{◌≤◌, IfOk};
ghost use Rattle.base_tables.specs.Runnable.{IsRunnable};
ghost use Rattle.spec_tree.specs.Limits.{most_nodes, most_work};
ghost use Rattle.spec_tree.specs.Terms.{node_count, work_of};
ghost use Rattle.spec_tree.specs.Trees.{IsValid};
ghost use Rattle.spec_program.specs.Gives.{mocked, mocked_apart};
ghost use Rattle.base_texts.specs.Stops.{Gives};

use base_texts::Stop;
use spec_tree::Tree;
use spec_tree_file::MockFault;
use std::alloc::Global;
use tree_mock::{read_rules, substitute, told_apart};

/// The tree that the rules of these bytes of a rules file make of a tree, or their first fault, or the
/// limit that it passes.
pub fn mock_tree(alloc: Global, tree: &Tree, rules: &[u8]) -> Result<Tree, Stop<MockFault>>
    requires valid { IsValid tree.now }
    ensures mocked { Gives result (mocked rules.now tree.now) }
    ensures runnable { IfOk result IsRunnable }
{
    let rules = read_rules(alloc, rules)?;
    substitute(alloc, tree, &rules)
}

/// The tree that the rules of these bytes of a rules file make of a tree whose openings are told apart, so that a tree file
/// can have it; or their first fault, or the limit that it passes.
pub fn mock_tree_apart(alloc: Global, tree: &Tree, rules: &[u8]) -> Result<Tree, Stop<MockFault>>
    ensures mocked { Gives result (mocked_apart rules.now tree.now) }
    ensures nodes { IfOk result (λ made. node_count made.term ≤ most_nodes) }
    ensures work { IfOk result (λ made. work_of made.term ≤ most_work) }
{
    let rules = read_rules(alloc, rules)?;
    let tree = told_apart(alloc, &rules, tree)?;
    substitute(alloc, &tree, &rules)
}
