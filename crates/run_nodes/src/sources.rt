ghost use Rattle.std.specs.Prelude.{◌≡◌, ◌<◌, ◌^◌, length};
ghost use Rattle.std.specs.List.{All};
ghost use Rattle.std.specs.Option.{option_copied};
ghost use Rattle.spec_run.specs.Leaves.{sight};
ghost use Rattle.spec_run.specs.Ports.{is_case};
ghost use Rattle.run_arena.specs.Sources.{IsSourceOf, source_value};
ghost use Rattle.run_nodes.specs.Given.{first_case, source_number, source_rate, source_text, source_truth};

use base_tables::{int_rate, text_rate};
use itoa::Buffer;
use run_arena::Source;
use spec_script::{Cells, Seen, Value};
use tree_board::{Past, Recorded};

/// Lends the value that a port is given; none where it has none.
pub fn value_of<'a, P: Past>(source: &'a Source, board: &'a Recorded<P>) -> Option<&'a Value>
    requires { IsSourceOf (length board.now) source.now }
    ensures { option_copied result ≡ source_value board.now source.now }
{
    match source {
        Source::Absent => None,
        Source::Lit(value) => Some(value),
        Source::Slot(slot) => board.get(*slot),
    }
}

/// The number that a port is given; none where it is given none.
pub fn number_of<P: Past>(source: &Source, board: &Recorded<P>) -> Option<i64>
    requires { IsSourceOf (length board.now) source.now }
    ensures { result ≡ source_number board.now source.now }
{
    match value_of(source, board) {
        Some(Value::Int(n)) => Some(*n),
        _ => None,
    }
}

/// What a driver sees of the value that a port is given.
pub fn seen_of<P: Past>(source: &Source, board: &Recorded<P>) -> Seen
    requires { IsSourceOf (length board.now) source.now }
    ensures { result ≡ sight (source_value board.now source.now) }
{
    match value_of(source, board) {
        Some(Value::Int(n)) => Seen::Int(*n),
        Some(Value::Text(_)) => Seen::Text,
        None => Seen::Absent,
    }
}

/// The truth that a port is given: of a literal text whether it is `true`, of a number whether it
/// is not 0; none else.
pub fn truth_of<P: Past>(source: &Source, board: &Recorded<P>) -> Option<bool>
    requires { IsSourceOf (length board.now) source.now }
    ensures { result ≡ source_truth board.now source.now }
{
    match source {
        Source::Lit(Value::Text(text)) => Some(text.list() == b"true".as_slice()),
        _ => number_of(source, board).map(|n| n != 0),
    }
}

/// The rate that a port is given, in thousandths of a hertz: a literal's, or so many hertz of a number; none else.
pub fn rate_of<P: Past>(source: &Source, board: &Recorded<P>) -> Option<u32>
    requires { IsSourceOf (length board.now) source.now }
    ensures { result ≡ source_rate board.now source.now }
{
    match source {
        Source::Lit(Value::Text(text)) => text_rate(text.list()),
        _ => int_rate(number_of(source, board)?),
    }
}

/// Whether the text of the value that a port is given, a number in decimal, is this one.
fn has_text<P: Past>(source: &Source, board: &Recorded<P>, text: &[u8]) -> bool
    requires { IsSourceOf (length board.now) source.now }
    ensures { result ≡ is_case (source_text board.now source.now) text.now }
{
    match value_of(source, board) {
        Some(Value::Int(n)) => Buffer::new().format(*n).as_bytes() == text,
        Some(Value::Text(t)) => t.list() == text,
        None => false,
    }
}

/// The place of the first of these cases that has this text, and their number where none has it.
pub fn case_with<P: Past>(cases: &[Source], board: &Recorded<P>, text: &[u8]) -> u32
    requires known { All (IsSourceOf (length board.now)) cases.now }
    requires few { length cases.now < 2 ^ 32 }
    ensures { result ≡ first_case board.now cases.now 0 text.now }
{
    for (place, case) in cases.iter().enumerate() {
        if has_text(case, board, text) {
            return place as u32;
        }
    }
    cases.len() as u32
}
