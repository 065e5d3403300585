ghost use Rattle.std.specs.Prelude.{◌≡◌, ◌≤◌, ◌++◌, List, [], ℕ, IsTrue, None, Ok, Option, map};
ghost use Rattle.std.specs.List.{AllByRecursion, concat, flat_map, list_all};
ghost use Rattle.spec_tree_file.specs.Reads.{reads};
ghost use Rattle.tree_elements.specs.Valid.{IsValid as IsValidElement};
ghost use Rattle.spec_tree_file.specs.Elements.{Spells, depth_of};
ghost use Rattle.spec_tree_file.specs.Marks.{is_not_zero, is_value_byte};
ghost use Rattle.spec_tree_file.specs.References.{decoded};
ghost use Rattle.tree_elements.specs.Written.{can_be_written};
ghost use Rattle.spec_tree_file.specs.declared.element.Element.{Element};
ghost use Rattle.spec_tree_file.specs.Models.{Models, manifest_in};
ghost use Rattle.spec_tree.specs.PrintedTree.{escaped_byte, tree_lines};
ghost use Rattle.spec_tree.specs.Terms.{scope_count};
ghost use Rattle.spec_tree.specs.Trees.{IsValid};
ghost use Rattle.spec_tree.specs.declared.term.Tree.{Tree};
ghost use Rattle.tree_round_trip.specs.Openings.{OpensAlike};
ghost use Rattle.tree_round_trip.specs.Printed.{lines_of, unplaced};
ghost use Rattle.tree_round_trip.specs.Remarks.{CanRemark, remark_line};
ghost use Rattle.tree_round_trip.specs.TreeElements.{element_of};

/// A value without the byte 0 is printed as one that may stand between two `"`, and its printed
/// bytes say the value.
pub fn printed_values_read_back()
    ensures stands { (value : List ℕ) → IsTrue (list_all is_not_zero value) →
        IsTrue (list_all (is_value_byte 34) (flat_map escaped_byte value)) }
    ensures says { (value : List ℕ) → IsTrue (list_all is_not_zero value) → decoded (flat_map escaped_byte value) ≡ value }
{}

/// The printed bytes of an element that can be written spell the element, at the places that it has
/// among them.
pub fn printed_elements_read_back()
    ensures { (e : Element) → IsTrue (can_be_written e) → depth_of e ≤ 258
        → (f : Element) × Spells (concat (lines_of e [])) f × (unplaced f ≡ unplaced e) }
{}

/// The printed bytes of a valid tree spell its element.
pub fn printed_trees_spell_their_elements()
    ensures { (tree : Tree) → IsValid tree → (f : Element) × Spells (concat (tree_lines tree)) f ×
        (unplaced f ≡ unplaced (element_of tree)) }
{}

/// The printed bytes of a tree that was read spell an element without models, which reads as the
/// same tree. So do those of each valid tree in which no tree is opened in itself and the SubTree
/// nodes of one ID have the same tree below them, as of one that has none.
pub fn printed_trees_read_back()
    ensures alike { (tree : Tree) → IsValid tree → OpensAlike tree
        → (f : Element) × Spells (concat (tree_lines tree)) f × (manifest_in f ≡ Ok []) × (reads [] None f ≡ Ok tree) }
    ensures lone { (tree : Tree) → IsValid tree → scope_count tree.term ≡ 0
        → (f : Element) × Spells (concat (tree_lines tree)) f × (manifest_in f ≡ Ok []) × (reads [] None f ≡ Ok tree) }
    ensures read { (root : Element) (models : Models) (asked : Option (List ℕ)) (tree : Tree) → IsValidElement root →
        manifest_in root ≡ Ok models → reads models asked root ≡ Ok tree
        → (f : Element) × Spells (concat (tree_lines tree)) f × (manifest_in f ≡ Ok []) × (reads [] None f ≡ Ok tree) }
{}

/// So do the printed bytes of a tree with comments before them, each on a line of its own.
pub fn printed_trees_read_back_after_comments()
    ensures alike { (bodies : List (List ℕ)) (tree : Tree) → AllByRecursion CanRemark bodies → IsValid tree → OpensAlike tree
        → (f : Element) × Spells (concat (map remark_line bodies) ++ concat (tree_lines tree)) f
        × (manifest_in f ≡ Ok []) × (reads [] None f ≡ Ok tree) }
    ensures lone { (bodies : List (List ℕ)) (tree : Tree) → AllByRecursion CanRemark bodies → IsValid tree → scope_count tree.term ≡ 0
        → (f : Element) × Spells (concat (map remark_line bodies) ++ concat (tree_lines tree)) f
        × (manifest_in f ≡ Ok []) × (reads [] None f ≡ Ok tree) }
{}
