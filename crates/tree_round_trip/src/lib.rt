//! Laws: what is printed of a tree reads as that tree.
#![tactic(auto)]

mod laws;

pub use laws::{
    printed_elements_read_back, printed_trees_read_back, printed_trees_read_back_after_comments,
    printed_trees_spell_their_elements, printed_values_read_back,
};
