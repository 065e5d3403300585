//! What all code looks up: the built-in nodes, reserved names, limits and numbers; and the definitions of its steps
//! that several crates speak of.
#![tactic(auto)]

mod built_ins;
mod limits;
mod names;
mod numbers;
mod terms;

pub use built_ins::{
    PortRule, class_of, has_code, has_rule, int_fits, int_rate, is_control, kind_named, ports_of,
    takes, text_fits, text_rate, writes,
};
pub use limits::{
    LAST_MOMENT, MOST_DEPTH, MOST_EFFECTS, MOST_EVENTS, MOST_FACTS, MOST_FILE_BYTES, MOST_GOALS,
    MOST_KEYS, MOST_LEAVES, MOST_MADE_PORTS, MOST_MADE_ROWS, MOST_NAME_BYTES, MOST_NEEDS,
    MOST_NODES, MOST_OUTCOMES, MOST_OUTPUTS, MOST_PORTS, MOST_ROUNDS, MOST_ROWS, MOST_RUNNERS,
    MOST_SCOPES, MOST_TEXT_BYTES, MOST_WORK, limits_are_named,
};
pub use names::is_reserved;
pub use numbers::{canonical_int, int, is_canonical};
pub use terms::nodes_in;
