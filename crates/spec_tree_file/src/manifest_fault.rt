/// Why the models of a file can't be read. A place is that of the mark with which an element begins, a number of
/// bytes before it.
#[derive(Clone, Copy, Debug, PartialEq, Eq)]
pub enum ManifestFault {
    /// The second `TreeNodesModel`, or the second model of one ID.
    DoubleModel { place: u32 },
    /// A model without `ID`, a port without `name`, or a port that repeats the name of an earlier one
    /// of its model.
    BadModel { place: u32 },
}
