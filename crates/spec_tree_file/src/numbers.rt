/// How many nodes and scopes there are so far, the main scope included.
#[derive(Clone, Copy, Debug, PartialEq, Eq)]
pub struct Numbers {
    pub nodes: u32,
    pub scopes: u32,
}
