/// What is printed of a tree.
#[derive(Clone, Copy, Debug, PartialEq, Eq)]
pub enum Print {
    /// The tree as it was read, and then its counts.
    Whole,
    /// Its dead nodes, and how many they are.
    Dead,
}
