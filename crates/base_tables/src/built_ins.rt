ghost use Rattle.std.specs.Prelude.{◌≡◌, ◌+◌, ◌<◌, Some, map, take};
ghost use Rattle.spec_script.specs.declared.value.Value.TheVariants.{Int, Text};
ghost use Rattle.spec_tree.specs.BuiltIns.{class_of, fits, has_code, has_rule, kind_among, kind_named, named_kinds, ports_of, rate_of, rate_within, switch_ports, takes, takes_by, writes};
ghost use Rattle.spec_tree.specs.Numbers.{number_in, thousandths_by};
ghost use Rattle.base_tables.specs.BuiltInRows.{is_control, row_seen, rule_seen};

use crate::numbers::{after_point, int, point_in};
use spec_tree::{Class, Kind, Range};

/// A port of a built-in node. One without a default must be written.
#[derive(Clone, Copy, Debug)]
pub struct PortRule {
    pub name: &'static str,
    pub range: Range,
    pub default: Option<&'static str>,
}

/// The built-in nodes by their names.
static NAMED: [(&str, Kind); 30] = [
    ("Sequence", Kind::Sequence),
    ("SequenceWithMemory", Kind::SequenceWithMemory),
    ("ReactiveSequence", Kind::ReactiveSequence),
    ("Fallback", Kind::Fallback),
    ("ReactiveFallback", Kind::ReactiveFallback),
    ("Parallel", Kind::Parallel),
    ("Switch2", Kind::Switch(2)),
    ("Switch3", Kind::Switch(3)),
    ("Switch4", Kind::Switch(4)),
    ("Switch5", Kind::Switch(5)),
    ("Switch6", Kind::Switch(6)),
    ("IfThenElse", Kind::IfThenElse),
    ("WhileDoElse", Kind::WhileDoElse),
    ("RecoveryNode", Kind::RecoveryNode),
    ("PipelineSequence", Kind::PipelineSequence),
    ("RoundRobin", Kind::RoundRobin),
    ("Inverter", Kind::Inverter),
    ("ForceSuccess", Kind::ForceSuccess),
    ("ForceFailure", Kind::ForceFailure),
    ("KeepRunningUntilFailure", Kind::KeepRunningUntilFailure),
    ("RetryUntilSuccessful", Kind::Retry),
    ("Repeat", Kind::Repeat),
    ("Timeout", Kind::Timeout),
    ("Delay", Kind::Delay),
    ("RunOnce", Kind::RunOnce),
    ("RateController", Kind::RateController),
    ("AlwaysSuccess", Kind::AlwaysSuccess),
    ("AlwaysFailure", Kind::AlwaysFailure),
    ("Script", Kind::ScriptNode),
    ("ScriptCondition", Kind::ScriptCondition),
];

/// The counts of a Parallel, and their defaults.
static PARALLEL_PORTS: [PortRule; 2] = [
    PortRule {
        name: "success_count",
        range: Range::AnyInt,
        default: Some("-1"),
    },
    PortRule {
        name: "failure_count",
        range: Range::AnyInt,
        default: Some("1"),
    },
];

/// The variable and the cases of a Switch of six cases. A smaller one has the first of them.
static SWITCH_PORTS: [PortRule; 7] = [
    PortRule {
        name: "variable",
        range: Range::AnyValue,
        default: None,
    },
    PortRule {
        name: "case_1",
        range: Range::AnyValue,
        default: None,
    },
    PortRule {
        name: "case_2",
        range: Range::AnyValue,
        default: None,
    },
    PortRule {
        name: "case_3",
        range: Range::AnyValue,
        default: None,
    },
    PortRule {
        name: "case_4",
        range: Range::AnyValue,
        default: None,
    },
    PortRule {
        name: "case_5",
        range: Range::AnyValue,
        default: None,
    },
    PortRule {
        name: "case_6",
        range: Range::AnyValue,
        default: None,
    },
];

/// The limit of a RetryUntilSuccessful.
static RETRY_PORTS: [PortRule; 1] = [PortRule {
    name: "num_attempts",
    range: Range::Turns,
    default: None,
}];

/// The limit of a Repeat.
static REPEAT_PORTS: [PortRule; 1] = [PortRule {
    name: "num_cycles",
    range: Range::Turns,
    default: None,
}];

/// The length of a Timeout, in milliseconds.
static TIMEOUT_PORTS: [PortRule; 1] = [PortRule {
    name: "msec",
    range: Range::Duration,
    default: None,
}];

/// The length of a Delay, in milliseconds.
static DELAY_PORTS: [PortRule; 1] = [PortRule {
    name: "delay_msec",
    range: Range::Duration,
    default: None,
}];

/// Whether a RunOnce that has answered is skipped.
static RUN_ONCE_PORTS: [PortRule; 1] = [PortRule {
    name: "then_skip",
    range: Range::Truth,
    default: Some("true"),
}];

/// The most recoveries of a RecoveryNode.
static RECOVERY_PORTS: [PortRule; 1] = [PortRule {
    name: "number_of_retries",
    range: Range::Recoveries,
    default: Some("1"),
}];

/// The rate of a RateController, in hertz.
static RATE_PORTS: [PortRule; 1] = [PortRule {
    name: "hz",
    range: Range::Rate,
    default: Some("10"),
}];

/// No ports.
static NO_PORTS: [PortRule; 0] = [];

/// The built-in node of this name. None where there is none; a SubTree and a Leaf are not built in.
pub fn kind_named(name: &[u8]) -> Option<Kind>
    ensures { result ≡ kind_named name.now }
{
    kind_among(named_kinds(), name)
}

/// The built-in nodes by their names.
#[tactic(auto, unfolding(spec_tree::specs::BuiltIns::named_kinds))]
fn named_kinds() -> &'static [(&'static str, Kind)]
    ensures { map row_seen result.now ≡ named_kinds }
{
    NAMED.as_slice()
}

/// The kind of this name among these rows. None where no row has it.
fn kind_among(rows: &[(&str, Kind)], name: &[u8]) -> Option<Kind>
    ensures { result ≡ kind_among (map row_seen rows.now) name.now }
{
    for (row, kind) in rows {
        if name == row.as_bytes() {
            return Some(*kind);
        }
    }
    None
}

/// The ports of a node of this kind, in their order. Those of a SubTree and of a Leaf are not built in.
pub fn ports_of(kind: Kind) -> &'static [PortRule]
    ensures { map rule_seen result.now ≡ ports_of kind }
{
    match kind {
        Kind::Parallel => PARALLEL_PORTS.as_slice(),
        Kind::Switch(cases) => first_ports(switch_ports(), usize::from(cases) + 1),
        Kind::Retry => RETRY_PORTS.as_slice(),
        Kind::Repeat => REPEAT_PORTS.as_slice(),
        Kind::Timeout => TIMEOUT_PORTS.as_slice(),
        Kind::Delay => DELAY_PORTS.as_slice(),
        Kind::RunOnce => RUN_ONCE_PORTS.as_slice(),
        Kind::RecoveryNode => RECOVERY_PORTS.as_slice(),
        Kind::RateController => RATE_PORTS.as_slice(),
        Kind::Sequence
        | Kind::SequenceWithMemory
        | Kind::ReactiveSequence
        | Kind::Fallback
        | Kind::ReactiveFallback
        | Kind::IfThenElse
        | Kind::WhileDoElse
        | Kind::PipelineSequence
        | Kind::RoundRobin
        | Kind::Inverter
        | Kind::ForceSuccess
        | Kind::ForceFailure
        | Kind::KeepRunningUntilFailure
        | Kind::SubTree
        | Kind::AlwaysSuccess
        | Kind::AlwaysFailure
        | Kind::ScriptNode
        | Kind::ScriptCondition
        | Kind::Leaf => NO_PORTS.as_slice(),
    }
}

/// The ports of a Switch of six cases.
#[tactic(auto, unfolding(spec_tree::specs::BuiltIns::switch_ports))]
fn switch_ports() -> &'static [PortRule]
    ensures { map rule_seen result.now ≡ switch_ports }
{
    SWITCH_PORTS.as_slice()
}

/// The first of the ports, at most so many.
fn first_ports(ports: &'static [PortRule], most: usize) -> &'static [PortRule]
    ensures { map rule_seen result.now ≡ take most (map rule_seen ports.now) }
{
    &ports[..most.min(ports.len())]
}

/// The class of this kind.
#[inline(always)]
pub fn class_of(kind: Kind) -> Class
    ensures { result ≡ class_of kind }
{
    match kind {
        Kind::Sequence
        | Kind::SequenceWithMemory
        | Kind::ReactiveSequence
        | Kind::Fallback
        | Kind::ReactiveFallback
        | Kind::Parallel
        | Kind::Switch(_)
        | Kind::IfThenElse
        | Kind::WhileDoElse
        | Kind::RecoveryNode
        | Kind::PipelineSequence
        | Kind::RoundRobin => Class::Control,
        Kind::Inverter
        | Kind::ForceSuccess
        | Kind::ForceFailure
        | Kind::KeepRunningUntilFailure
        | Kind::Retry
        | Kind::Repeat
        | Kind::Timeout
        | Kind::Delay
        | Kind::RunOnce
        | Kind::RateController => Class::Decorator,
        Kind::SubTree => Class::SubTree,
        Kind::AlwaysSuccess
        | Kind::AlwaysFailure
        | Kind::ScriptNode
        | Kind::ScriptCondition
        | Kind::Leaf => Class::Leaf,
    }
}

/// Whether a node of this kind is a control node.
#[inline(always)]
pub fn is_control(kind: Kind) -> bool
    ensures { result ≡ is_control kind }
{
    match class_of(kind) {
        Class::Control => true,
        Class::Decorator | Class::SubTree | Class::Leaf => false,
    }
}

/// Whether a node of this kind has children, and follows a rule over them.
#[inline(always)]
pub fn has_rule(kind: Kind) -> bool
    ensures { result ≡ has_rule kind }
{
    match class_of(kind) {
        Class::Control | Class::Decorator | Class::SubTree => true,
        Class::Leaf => false,
    }
}

/// Whether a node of this class may have so many children, but for the kinds that ask for a number of their own.
fn takes_by(class: Class, children: usize) -> bool
    ensures { result ≡ takes_by class children }
{
    match class {
        Class::Control => children >= 1,
        Class::Decorator | Class::SubTree => children == 1,
        Class::Leaf => children == 0,
    }
}

/// Whether a node of this kind may have so many children.
pub fn takes(kind: Kind, children: usize) -> bool
    ensures { result ≡ takes kind children }
{
    match kind {
        Kind::Switch(cases) => children == usize::from(cases) + 1,
        Kind::IfThenElse | Kind::WhileDoElse => children == 2 || children == 3,
        Kind::RecoveryNode => children == 2,
        _ => takes_by(class_of(kind), children),
    }
}

/// Whether a node of this kind has a script of its own, its code.
pub fn has_code(kind: Kind) -> bool
    ensures { result ≡ has_code kind }
{
    match kind {
        Kind::ScriptNode | Kind::ScriptCondition => true,
        _ => false,
    }
}

/// Whether an element of this name writes a node of this class by its ID.
pub fn writes(name: &[u8], class: Class) -> bool
    ensures { result ≡ writes name.now class }
{
    match class {
        Class::Control => name == b"Control".as_slice(),
        Class::Decorator => name == b"Decorator".as_slice(),
        Class::Leaf => name == b"Action".as_slice() || name == b"Condition".as_slice(),
        Class::SubTree => false,
    }
}

/// The rate of so many hertz, in thousandths of a hertz. None where no port may have it.
pub fn int_rate(n: i64) -> Option<u32>
    ensures { result ≡ rate_of (Int n) }
{
    if n >= 1 && n <= 1000 {
        Some(n as u32 * 1000)
    } else {
        None
    }
}

/// The rate of a word of whole hertz and the thousandths after its point, in thousandths of a hertz. None where no port
/// may have it.
fn rate_with(word: &[u8], more: u32) -> Option<u32>
    requires { more < 1000 }
    ensures { result ≡ rate_within (thousandths_by (number_in word.now) (Some more)) }
{
    match int(word) {
        Some(whole) if whole >= 0 && whole <= 1000 => {
            let rate = whole as u32 * 1000 + more;
            if rate >= 1 && rate <= 1_000_000 {
                Some(rate)
            } else {
                None
            }
        }
        _ => None,
    }
}

/// The rate that a text says, in thousandths of a hertz. None where it says none that a port may have.
pub fn text_rate(text: &[u8]) -> Option<u32>
    ensures { result ≡ rate_of (Text text.now) }
{
    match point_in(text) {
        Some(point) => match after_point(&text[point + 1..]) {
            Some(more) => rate_with(&text[..point], more),
            None => None,
        },
        None => rate_with(text, 0),
    }
}

/// Whether the number is within the range.
pub fn int_fits(range: Range, n: i64) -> bool
    ensures { result ≡ fits range (Int n) }
{
    match range {
        Range::AnyValue | Range::AnyInt => true,
        Range::Turns => n == -1 || n >= 1 && n <= 1000,
        Range::Duration => n >= 0 && n <= 4_294_967_295,
        Range::Truth => n == 0 || n == 1,
        Range::Recoveries => n >= 0 && n <= 1000,
        Range::Rate => int_rate(n).is_some(),
    }
}

/// Whether the text is within the range.
pub fn text_fits(range: Range, text: &[u8]) -> bool
    ensures { result ≡ fits range (Text text.now) }
{
    match range {
        Range::AnyValue => text.len() <= 4096,
        Range::AnyInt | Range::Turns | Range::Duration | Range::Recoveries => false,
        Range::Truth => text == b"true".as_slice() || text == b"false".as_slice(),
        Range::Rate => text_rate(text).is_some(),
    }
}
