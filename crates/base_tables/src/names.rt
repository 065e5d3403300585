ghost use Rattle.std.specs.Prelude.{◌≡◌};
ghost use Rattle.std.specs.List.{list_any};
ghost use Rattle.std.specs.Str.{bytes_eq};
ghost use Rattle.spec_tree.specs.Names.{built_in_names, format_names, is_among};
ghost use Rattle.spec_tree.specs.Names as kept;

/// The names of the built-in nodes.
const BUILT_IN: [&str; 30] = [
    "Sequence",
    "SequenceWithMemory",
    "ReactiveSequence",
    "Fallback",
    "ReactiveFallback",
    "Parallel",
    "Switch2",
    "Switch3",
    "Switch4",
    "Switch5",
    "Switch6",
    "IfThenElse",
    "WhileDoElse",
    "RecoveryNode",
    "PipelineSequence",
    "RoundRobin",
    "Inverter",
    "ForceSuccess",
    "ForceFailure",
    "KeepRunningUntilFailure",
    "RetryUntilSuccessful",
    "Repeat",
    "Timeout",
    "Delay",
    "RunOnce",
    "RateController",
    "AlwaysSuccess",
    "AlwaysFailure",
    "Script",
    "ScriptCondition",
];

/// The names that the file format keeps for itself.
const FORMAT: [&str; 8] = [
    "Action",
    "Condition",
    "Control",
    "Decorator",
    "SubTree",
    "BehaviorTree",
    "TreeNodesModel",
    "root",
];

/// Whether the name is one of these names.
fn is_one_of(name: &[u8], names: &[&str]) -> bool
    ensures { result ≡ list_any (λ n. bytes_eq name.now n.now) names.now }
{
    names.iter().any(|n| name == n.as_bytes())
}

/// Whether the name is that of a built-in node.
fn is_built_in(name: &[u8]) -> bool
    ensures { result ≡ is_among name.now built_in_names }
{
    is_one_of(name, BUILT_IN.as_slice())
}

/// Whether the file format keeps the name for itself.
fn is_of_format(name: &[u8]) -> bool
    ensures { result ≡ is_among name.now format_names }
{
    is_one_of(name, FORMAT.as_slice())
}

/// Whether the name is no leaf's: that of a built-in node, or one that tree files keep for
/// themselves.
pub fn is_reserved(name: &[u8]) -> bool
    ensures { result ≡ kept.is_reserved name.now }
{
    is_built_in(name) || is_of_format(name)
}
