/// What a line says of the text.
#[derive(Clone, Copy)]
pub enum Item<'a> {
    /// A line of the text, which comes from the line of this number.
    Body { line: u32, text: &'a [u8] },
    /// A block of this variable and of the sort of this number begins.
    Forall { variable: u8, sort: usize },
    /// The innermost block ends.
    End,
}
