ghost use Rattle.std.specs.Prelude.{ℕ, List};
ghost use Rattle.spec_exclusive.specs.Pairs.{meeting_pairs};
ghost use Rattle.spec_tree.specs.declared.term.Tree.{Tree};
ghost use Rattle.spec_tree.specs.Trees.{IsValid};
ghost use Rattle.tree_exclusive.specs.Runs.{AreApart};

/// In every world with a row for each leaf, and over every list of events in their order: two leaves of
/// one runner with listed IDs that are no pair of those that may be held together are held together at
/// no moment between two calls of drivers; and those that are no pair of those that may be together are
/// held together after no event.
pub fn no_run_holds_exclusive_leaves_together()
    ensures { (tree : Tree) → IsValid tree → (ids : List (List ℕ)) → AreApart ids tree (meeting_pairs ids tree) }
{}
