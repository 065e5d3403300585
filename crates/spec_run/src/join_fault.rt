use crate::leaf::DriverKind;
use base_texts::Name;

/// Why a tree, a world and a roster do not fit together: what is missing for the first leaf in
/// pre-order for which something is missing; where nothing is, the first telling that finds no leaf.
#[derive(Debug, Drop)]
pub enum JoinFault {
    /// The world has no row of this ID.
    NoRow { id: Name },
    /// No driver of the roster is of this kind, which the leaf's row asks for.
    NoDriver { kind: DriverKind },
    /// A leaf of this uid that can be told something is not there.
    NoLeaf { uid: u32 },
    /// The row of the leaf of this uid has no such output as one that is told.
    NoOutput { uid: u32 },
}
