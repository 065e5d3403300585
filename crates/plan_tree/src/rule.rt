use base_texts::Items;
use spec_plan::Test;
use spec_world::Set;

/// What planning needs of a row of the world.
#[derive(Debug, Drop)]
pub struct Rule {
    /// The test of a condition that compares a fact.
    pub test: Option<Test>,
    /// The rows of the conditions that an action needs.
    pub needs: Items<u32>,
    /// The effects of an action.
    pub effects: Items<Set>,
}
