/// A file that a command names.
#[derive(Clone, Copy, Debug, PartialEq, Eq)]
pub enum File {
    /// The tree file.
    Tree,
    /// The world script.
    World,
    /// The rules file.
    Rules,
    /// The file of expectations.
    Expect,
}
