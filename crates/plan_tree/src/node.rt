use smallvec::SmallVec;
use spec_plan::Part;

/// A node of a plan tree, with the keys of its parent and of its children.
#[derive(Drop)]
pub struct Node {
    pub part: Part,
    pub parent: Option<usize>,
    pub children: SmallVec<usize, 4>,
}
