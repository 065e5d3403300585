use base_texts::Name;
use spec_script::ScriptFault;

/// Why a tree file's elements are no tree. A uid is the number of a node in pre-order. A place is that of the mark
/// with which an element begins, a number of bytes before it.
#[derive(Debug, Drop)]
pub enum BuildFault {
    /// The document element is no `root`, or a child of it is neither `BehaviorTree` nor
    /// `TreeNodesModel`.
    NotRoot { place: u32 },
    /// The attribute `BTCPP_format` is there and is neither `4` nor `3`.
    Format,
    /// A second tree of this ID.
    DoubleTree { id: Name },
    /// No main tree is named, and the file does not have exactly one tree.
    NoMain,
    /// The file has no tree of this ID.
    NoTree { id: Name },
    /// The tree has more than 4,096 nodes.
    TooManyNodes,
    /// A node deeper than 256.
    TooDeep { uid: u32 },
    /// An element that is no node.
    UnknownNode { uid: u32 },
    /// The tree of this ID stands in itself.
    Recursive { id: Name },
    /// The tree has more than 256 scopes, the main one included.
    TooManyScopes,
    /// The node may not have so many children, or the tree that it opens has not exactly one. The uid
    /// is 0 for the main tree.
    ChildCount { uid: u32 },
    /// An attribute that is no port of the node.
    UnknownPort { uid: u32 },
    /// A `SubTree` of version 3 with an attribute other than `ID` and `name`, which that version reads
    /// in another way.
    OldSubTree { uid: u32 },
    /// A port that must be written is not, or a value may not stand at its port.
    BadLiteral { uid: u32 },
    /// A script of the node can't be read.
    BadScript { uid: u32, fault: ScriptFault },
    /// The tree has more than 4,096 slots.
    TooManyKeys,
    /// A visit of the tree might make more than 100,000 visits of nodes.
    TooMuchWork,
}
