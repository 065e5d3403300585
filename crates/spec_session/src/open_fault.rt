use spec_program::TreeFault;
use spec_run::JoinFault;
use spec_world_file::WorldFault;

/// Why the bytes of a tree file and a world script open no session.
#[derive(Debug, Drop)]
pub enum OpenFault {
    /// The tree file has too many bytes.
    TreeTooLong,
    /// The world script has too many bytes.
    WorldTooLong,
    /// The tree file is refused.
    Tree(TreeFault),
    /// The world script is refused.
    World(WorldFault),
    /// The tree and the world do not fit together.
    Join(JoinFault),
}
