use spec_script::Cmp;

/// A condition that compares the fact of this number with a value.
#[derive(Clone, Copy, Debug, PartialEq, Eq)]
pub struct Test {
    pub fact: u32,
    pub op: Cmp,
    pub value: i64,
}

/// An action that planning may use, by the number of its row.
#[derive(Clone, Copy, Debug, PartialEq, Eq)]
pub struct Template {
    pub row: u32,
}
