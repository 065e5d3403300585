use base_texts::{Items, Name};

/// An element of a tree file: what stands from its start mark to its end mark.
#[derive(Debug, Drop)]
pub struct Element {
    pub name: Name,
    /// Names, and what their values say, in the order of the file. No name occurs twice.
    pub attributes: Items<(Name, Name)>,
    pub children: Items<Element>,
    /// The offset of its `<` from the first byte of the file.
    pub place: u32,
}

/// What a tree file spells.
#[derive(Debug, Drop)]
pub struct Elements {
    /// The document element.
    pub root: Element,
}

/// Why a tree file spells no element. Each place is an offset from the first byte of the file.
#[derive(Clone, Copy, Debug, PartialEq, Eq)]
pub enum ElementFault {
    /// The file is not UTF-8. The place is the length of its longest prefix that is.
    NotUtf8 { place: u32 },
    /// A `<` that begins no mark in one of the forms.
    BadMark { place: u32 },
    /// An end mark of another element than the innermost one that has not ended, or a start after the document
    /// element, or the end of a file whose document element has not ended.
    Unmatched { place: u32 },
    /// A mark in which an attribute's name occurs twice.
    DoubleAttribute { place: u32 },
    /// The first byte that is no white space of a text that may not stand there.
    StrayText { place: u32 },
    /// The mark of an element that stands in 258 others.
    TooDeep { place: u32 },
}
