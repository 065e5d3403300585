use base_texts::{Items, Name, Shared};
use spec_script::Script;

/// What a replaced leaf answers in the end.
#[derive(Clone, Copy, Debug, PartialEq, Eq)]
pub enum ReturnStatus {
    Success,
    Failure,
}

/// A configuration: a leaf that answers after a delay.
#[derive(Debug, Drop)]
pub struct Configuration {
    pub name: Name,
    pub return_status: ReturnStatus,
    /// The delay in milliseconds.
    pub async_delay: u32,
    /// The script that runs at the answer, where there is one.
    pub post_script: Option<Shared<Script>>,
}

/// A rule: the name of what takes the place of the nodes whose paths the pattern matches. It is a configuration's, or
/// that of a leaf.
#[derive(Debug, Drop)]
pub struct Rule {
    pub pattern: Name,
    pub replacement: Name,
}

/// The configurations by their names, and the rules by their patterns: the first rule that matches counts.
#[derive(Debug, Drop)]
pub struct Rules {
    pub configurations: Items<Configuration>,
    pub rules: Items<Rule>,
}
