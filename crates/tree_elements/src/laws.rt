ghost use Rattle.std.specs.Prelude.{◌≡◌, ◌⊎◌, List, ℕ, IsTrue};
ghost use Rattle.spec_tree_file.specs.declared.element.Element.{Element};
ghost use Rattle.spec_tree_file.specs.declared.element.ElementFault.{ElementFault};
ghost use Rattle.spec_tree_file.specs.Elements.{Spells};
ghost use Rattle.spec_tree_file.specs.ElementFaults.{ElementFaultOf};
ghost use Rattle.tree_elements.specs.Written.{can_be_written};

/// The same bytes spell at most one element.
pub fn one_element()
    ensures { (bytes : List ℕ) (a b : Element) → Spells bytes a → Spells bytes b → a ≡ b }
{}

/// Any bytes spell an element or have a fault; they have one fault at most, and never both.
pub fn element_or_fault()
    ensures either { (bytes : List ℕ) → ((e : Element) × Spells bytes e) ⊎ ((fault : ElementFault) × ElementFaultOf bytes fault) }
    ensures once { (bytes : List ℕ) (f g : ElementFault) → ElementFaultOf bytes f → ElementFaultOf bytes g → f ≡ g }
    ensures not_both { (bytes : List ℕ) (e : Element) (fault : ElementFault) → Spells bytes e → ElementFaultOf bytes fault → ⊥ }
{}

/// An element that some bytes spell can be written.
pub fn spelled_elements_can_be_written()
    ensures { (bytes : List ℕ) (e : Element) → Spells bytes e → IsTrue (can_be_written e) }
{}
