//! A law of the definitions.

ghost use Rattle.std.specs.Prelude.{◌≡◌, ℕ, List, Some};
ghost use Rattle.serde_json.specs.Data.{Data};
ghost use Rattle.tree_mock.specs.Orders.{InOrder};
ghost use Rattle.spec_tree_file.specs.RuleFiles.{json_of};

/// In the value of a JSON text the members of each object stand by the bytes of their names, and no name stands twice. So
/// configurations come by their names, and rules by their patterns.
pub fn members_come_in_order()
    ensures { (bytes : List ℕ) (d : Data) → json_of bytes ≡ Some d → InOrder d }
{}
