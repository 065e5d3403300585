ghost use Rattle.std.specs.Prelude.{◌≡◌, pos};
ghost use Rattle.spec_tree.specs.Limits.{last_moment, most_depth, most_effects, most_events, most_facts, most_file_bytes, most_goals, most_keys, most_leaves, most_made_ports, most_made_rows, most_name_bytes, most_needs, most_nodes, most_outcomes, most_outputs, most_ports, most_rounds, most_rows, most_runners, most_scopes, most_text_bytes, most_work};

/// The greatest size of a file, in bytes.
pub const MOST_FILE_BYTES: u64 = 1_048_576;

/// The most nodes of a tree.
pub const MOST_NODES: u32 = 4096;

/// The greatest depth of a node in a tree, whose root has depth 1.
pub const MOST_DEPTH: u32 = 256;

/// The most scopes of a tree, the main one included.
pub const MOST_SCOPES: u32 = 256;

/// The most entries of a blackboard.
pub const MOST_KEYS: u32 = 4096;

/// The most visits that one visit of the root may make.
pub const MOST_WORK: u32 = 100_000;

/// The most facts of a world.
pub const MOST_FACTS: usize = 1024;

/// The most rows of a world.
pub const MOST_ROWS: usize = 1024;

/// The most rows that are made for the leaves of a tree that is run without a world script.
pub const MOST_MADE_ROWS: usize = 4096;

/// The most input ports of such a row, and the most outputs.
pub const MOST_MADE_PORTS: usize = 64;

/// The most goals of a world.
pub const MOST_GOALS: usize = 64;

/// The most runners of a world.
pub const MOST_RUNNERS: u8 = 16;

/// The most events of a world.
pub const MOST_EVENTS: usize = 100_000;

/// The last moment, and the longest duration, in milliseconds.
pub const LAST_MOMENT: u64 = 1_000_000_000_000;

/// The most input ports of a row.
pub const MOST_PORTS: usize = 8;

/// The most needs of a row.
pub const MOST_NEEDS: usize = 16;

/// The most effects of a row.
pub const MOST_EFFECTS: usize = 16;

/// The most outputs of a row.
pub const MOST_OUTPUTS: usize = 8;

/// The most outcomes of a row that replays.
pub const MOST_OUTCOMES: usize = 64;

/// The greatest length of a name in a world, in bytes.
pub const MOST_NAME_BYTES: usize = 64;

/// The greatest length of a text value, in bytes.
pub const MOST_TEXT_BYTES: usize = 4096;

/// The most rounds of a run by the clock.
pub const MOST_ROUNDS: i64 = 100_000;

/// The most leaves of a load.
pub const MOST_LEAVES: i64 = 1000;

/// A law: each constant is the number that has its name in the definitions.
pub fn limits_are_named()
    ensures file_bytes { MOST_FILE_BYTES ≡ most_file_bytes }
    ensures nodes { MOST_NODES ≡ most_nodes }
    ensures depth { MOST_DEPTH ≡ most_depth }
    ensures scopes { MOST_SCOPES ≡ most_scopes }
    ensures keys { MOST_KEYS ≡ most_keys }
    ensures work { MOST_WORK ≡ most_work }
    ensures facts { MOST_FACTS ≡ most_facts }
    ensures rows { MOST_ROWS ≡ most_rows }
    ensures made_rows { MOST_MADE_ROWS ≡ most_made_rows }
    ensures made_ports { MOST_MADE_PORTS ≡ most_made_ports }
    ensures goals { MOST_GOALS ≡ most_goals }
    ensures runners { MOST_RUNNERS ≡ most_runners }
    ensures events { MOST_EVENTS ≡ most_events }
    ensures last_moment { LAST_MOMENT ≡ last_moment }
    ensures ports { MOST_PORTS ≡ most_ports }
    ensures needs { MOST_NEEDS ≡ most_needs }
    ensures effects { MOST_EFFECTS ≡ most_effects }
    ensures outputs { MOST_OUTPUTS ≡ most_outputs }
    ensures outcomes { MOST_OUTCOMES ≡ most_outcomes }
    ensures name_bytes { MOST_NAME_BYTES ≡ most_name_bytes }
    ensures text_bytes { MOST_TEXT_BYTES ≡ most_text_bytes }
    ensures rounds { MOST_ROUNDS ≡ pos most_rounds }
    ensures leaves { MOST_LEAVES ≡ pos most_leaves }
{}
