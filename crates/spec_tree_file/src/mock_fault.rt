use base_texts::Name;
use spec_script::ScriptFault;

/// Why a JSON file says no rules, or why the rules make of a tree what may not be run.
#[derive(Debug, Drop)]
pub enum MockFault {
    /// The bytes are no JSON text, nested to at most 127.
    Json,
    /// A configuration or a rule, which this name or pattern has, has not its form. The name is empty where the document
    /// or one of its two members is no object.
    Form { name: Name },
    /// The script of the configuration of this name can't be read.
    BadScript { name: Name, fault: ScriptFault },
    /// The substituted tree has more than 4,096 nodes.
    TooManyNodes,
    /// A node of the substituted tree is deeper than 256.
    TooDeep,
    /// The substituted tree has more than 4,096 slots.
    TooManyKeys,
    /// A visit of the substituted tree might make more than 100,000 visits of nodes.
    TooMuchWork,
}
