ghost use Rattle.std.specs.Prelude.{◌≡◌, ◌==◌, ◌||◌, ◌&&◌, Some, true, nat_lt, nat_le, length, map, option_map, option_and_then, IfOk, IsTrue};
ghost use Rattle.std.specs.List.{list_all};
ghost use Rattle.std.specs.Str.Parse.{signed_digits_value};
ghost use Rattle.spec_world.specs.Worlds as worlds;
ghost use Rattle.spec_tree.specs.Numbers.{is_int};
ghost use Rattle.spec_tree.specs.Numbers as numbers;
ghost use Rattle.spec_world_file.specs.WorldFile as file;
ghost use Rattle.spec_world_file.specs.WorldFile.{AfterForm, GateLine, SensedLine, TimedByLine, TimedLine, ToldLine, WhenLine, action_line, ranged, with_comparison, comparison_in, condition_line, is_line, is_line_byte, number_line, outcomes_in, replay_line, timed_line, told_line};
ghost use Rattle.world_draft.specs.Readings.{Leaves};

use base_tables::{MOST_OUTCOMES, is_canonical};
use base_texts::{Items, Stop};
use spec_script::{Cmp, Expr};
use spec_world::{Row, RowSort};
use spec_world_file::WorldFaultKind;
use std::alloc::{AllocError, Global};
use world_draft::Reading;
use world_lines::{cut, head_in, int, is, is_name, ms, name_of, numeric};

/// The comparison that the word names. None where it names none.
pub fn comparison(word: &[u8]) -> Option<Cmp>
    ensures { result ≡ comparison_in word.now }
{
    if is(word, "==") {
        Some(Cmp::Equal)
    } else if is(word, "!=") {
        Some(Cmp::Differ)
    } else if is(word, "<") {
        Some(Cmp::Less)
    } else if is(word, "<=") {
        Some(Cmp::AtMost)
    } else if is(word, ">") {
        Some(Cmp::More)
    } else if is(word, ">=") {
        Some(Cmp::AtLeast)
    } else {
        None
    }
}

/// Whether the letter names a success: `S`.
fn is_success(letter: u8) -> bool
    ensures { result ≡ (letter == 83) }
{
    letter == b'S'
}

/// Whether the letter names an outcome: `S` or `F`.
fn is_outcome(letter: u8) -> bool
    ensures { result ≡ (letter == 83 || letter == 70) }
{
    is_success(letter) || letter == b'F'
}

/// Whether each letter names an outcome.
fn all_outcomes(word: &[u8]) -> bool
    ensures { result ≡ list_all (λ b. b == 83 || b == 70) word.now }
{
    word.iter().all(|letter| is_outcome(*letter))
}

/// Whether the word is 1 to 64 outcomes.
fn are_outcomes(word: &[u8]) -> bool
    ensures { result ≡ (nat_lt 0 (length word.now) && nat_le (length word.now) 64 && list_all (λ b. b == 83 || b == 70) word.now) }
{
    !word.is_empty() && word.len() <= MOST_OUTCOMES && all_outcomes(word)
}

/// The outcomes that the letters name: true is a success.
fn outcomes(alloc: Global, word: &[u8]) -> Result<Vec<bool>, AllocError>
    ensures { IfOk result (λ v. v.items ≡ map (λ b. b == 83) word.now) }
{
    word.iter().map(|letter| is_success(*letter)).collect(alloc)
}

/// Reads `condition ROW is NAME OP INT`, `condition ROW when EXPR` or `condition ROW told`, from after `condition`.
pub fn read_condition(
    alloc: Global,
    reading: &mut Reading,
    text: &[u8],
) -> Result<(), Stop<WorldFaultKind>>
    requires { list_all is_line_byte text.now ≡ true }
    ensures { Leaves result reading.new (AfterForm reading.old (condition_line text.now)) }
{
    let (row, rest) = cut(text);
    let (verb, rest) = cut(rest);
    if is(verb, "is") {
        read_comparison(alloc, reading, row, rest)
    } else if is(verb, "when") {
        read_when(alloc, reading, row, rest)
    } else if is(verb, "told") {
        read_sensed(alloc, reading, row, rest)
    } else {
        Err(Stop::Fault(WorldFaultKind::BadLine))
    }
}

/// Reads `action ROW timed MS`, `action ROW timed (EXPR)`, `action ROW replay MS OUTCOMES`, `action ROW gate EXPR` or
/// `action ROW told`, from after `action`.
pub fn read_action(
    alloc: Global,
    reading: &mut Reading,
    text: &[u8],
) -> Result<(), Stop<WorldFaultKind>>
    requires { list_all is_line_byte text.now ≡ true }
    ensures { Leaves result reading.new (AfterForm reading.old (action_line text.now)) }
{
    let (row, rest) = cut(text);
    let (verb, rest) = cut(rest);
    if is(verb, "timed") {
        read_timed(alloc, reading, row, rest)
    } else if is(verb, "replay") {
        read_replay(alloc, reading, row, rest)
    } else if is(verb, "gate") {
        read_gate(alloc, reading, row, rest)
    } else if is(verb, "told") {
        read_told(alloc, reading, row, rest)
    } else {
        Err(Stop::Fault(WorldFaultKind::BadLine))
    }
}

/// Reads `NAME OP INT`, of the condition of this ID.
fn read_comparison(
    alloc: Global,
    reading: &mut Reading,
    id: &[u8],
    text: &[u8],
) -> Result<(), Stop<WorldFaultKind>>
    ensures { Leaves result reading.new (AfterForm reading.old (is_line id.now text.now)) }
{
    let (fact, rest) = cut(text);
    let (sign, rest) = cut(rest);
    let (number, rest) = cut(rest);
    if !is_name(id) || !is_name(fact) || !rest.is_empty() {
        return Err(Stop::Fault(WorldFaultKind::BadLine));
    }
    match comparison(sign) {
        Some(op) if is_canonical(number) => {
            reading.close(alloc)?;
            compare(alloc, reading, id, fact, op, number)
        }
        _ => Err(Stop::Fault(WorldFaultKind::BadLine)),
    }
}

/// Adds the condition of this ID that compares the fact with the number.
fn compare(
    alloc: Global,
    reading: &mut Reading,
    id: &[u8],
    fact: &[u8],
    op: Cmp,
    number: &[u8],
) -> Result<(), Stop<WorldFaultKind>>
    requires named { IsTrue (worlds.is_name id.now) }
    requires canonical { numbers.is_canonical number.now ≡ true }
    requires open { reading.old.open_row ≡ None }
    ensures { let n = signed_digits_value 10 number.now in
        Leaves result reading.new (λ said. said ≡ ranged (is_int n) (with_comparison id.now fact.now op n reading.old)) }
{
    let Some(value) = int(number) else {
        return Err(Stop::Fault(WorldFaultKind::Range));
    };
    if reading.has_taken(id) {
        return Err(Stop::Fault(WorldFaultKind::DoubleName));
    }
    let Some(fact) = reading.fact_number(fact) else {
        return Err(Stop::Fault(WorldFaultKind::NoName));
    };
    let id = name_of(alloc, id)?;
    reading.add_condition(
        alloc,
        Row {
            id,
            ports: Items::of(Vec::new(alloc)),
            sort: RowSort::Is { fact, op, value },
            needs: Items::of(Vec::new(alloc)),
            sets: Items::of(Vec::new(alloc)),
            outs: Items::of(Vec::new(alloc)),
        },
    )
}

/// Reads `EXPR`, of the condition with this head.
fn read_when(
    alloc: Global,
    reading: &mut Reading,
    row: &[u8],
    text: &[u8],
) -> Result<(), Stop<WorldFaultKind>>
    requires { list_all is_line_byte text.now ≡ true }
    ensures { Leaves result reading.new (AfterForm reading.old (option_map (λ head. WhenLine head text.now) (file.head_in row.now))) }
{
    let Some(head) = head_in(alloc, row)? else {
        return Err(Stop::Fault(WorldFaultKind::BadLine));
    };
    let Some(expr) = numeric(alloc, text)? else {
        return Err(Stop::Fault(WorldFaultKind::BadLine));
    };
    reading.close(alloc)?;
    match reading.draft_of(alloc, head.id, head.ports, RowSort::When(expr)) {
        Ok(draft) => reading.add_condition(alloc, draft.into_row()),
        Err(stop) => Err(stop),
    }
}

/// Reads `EXPR`, of the gate with this head.
fn read_gate(
    alloc: Global,
    reading: &mut Reading,
    row: &[u8],
    text: &[u8],
) -> Result<(), Stop<WorldFaultKind>>
    requires { list_all is_line_byte text.now ≡ true }
    ensures { Leaves result reading.new (AfterForm reading.old (option_map (λ head. GateLine head text.now) (file.head_in row.now))) }
{
    let Some(head) = head_in(alloc, row)? else {
        return Err(Stop::Fault(WorldFaultKind::BadLine));
    };
    let Some(expr) = numeric(alloc, text)? else {
        return Err(Stop::Fault(WorldFaultKind::BadLine));
    };
    reading.close(alloc)?;
    match reading.draft_of(alloc, head.id, head.ports, RowSort::Gate(expr)) {
        Ok(draft) => reading.open_action(draft),
        Err(stop) => Err(stop),
    }
}

/// Whether the expression stands in parentheses.
fn is_group(e: &Expr) -> bool
    ensures { result ≡ file.is_group e.now }
{
    matches!(e, Expr::Group(_))
}

/// Reads `(EXPR)`, of the action with this head.
fn read_length(
    alloc: Global,
    reading: &mut Reading,
    row: &[u8],
    text: &[u8],
) -> Result<(), Stop<WorldFaultKind>>
    requires { list_all is_line_byte text.now ≡ true }
    ensures { Leaves result reading.new (AfterForm reading.old (option_map (λ head. TimedByLine head text.now) (file.head_in row.now))) }
{
    let Some(head) = head_in(alloc, row)? else {
        return Err(Stop::Fault(WorldFaultKind::BadLine));
    };
    let Some(length) = numeric(alloc, text)? else {
        return Err(Stop::Fault(WorldFaultKind::BadLine));
    };
    if !is_group(&length) {
        return Err(Stop::Fault(WorldFaultKind::BadLine));
    }
    reading.close(alloc)?;
    let sort = RowSort::TimedBy {
        length,
        fails: None,
    };
    match reading.draft_of(alloc, head.id, head.ports, sort) {
        Ok(draft) => reading.open_action(draft),
        Err(stop) => Err(stop),
    }
}

/// Reads `MS` or `(EXPR)`, of the action with this head.
fn read_timed(
    alloc: Global,
    reading: &mut Reading,
    row: &[u8],
    text: &[u8],
) -> Result<(), Stop<WorldFaultKind>>
    requires { list_all is_line_byte text.now ≡ true }
    ensures { Leaves result reading.new (AfterForm reading.old (option_and_then (timed_line text.now) (file.head_in row.now))) }
{
    if text.starts_with(b"(") {
        read_length(alloc, reading, row, text)
    } else {
        read_fixed(alloc, reading, row, text)
    }
}

/// Reads `MS`, of the action with this head.
fn read_fixed(
    alloc: Global,
    reading: &mut Reading,
    row: &[u8],
    text: &[u8],
) -> Result<(), Stop<WorldFaultKind>>
    ensures { Leaves result reading.new (AfterForm reading.old
        (option_and_then (λ head. number_line (TimedLine head) text.now) (file.head_in row.now))) }
{
    let Some(head) = head_in(alloc, row)? else {
        return Err(Stop::Fault(WorldFaultKind::BadLine));
    };
    let (number, rest) = cut(text);
    if !rest.is_empty() || !is_canonical(number) {
        return Err(Stop::Fault(WorldFaultKind::BadLine));
    }
    reading.close(alloc)?;
    let Some(ms) = ms(number) else {
        return Err(Stop::Fault(WorldFaultKind::Range));
    };
    match reading.draft_of(
        alloc,
        head.id,
        head.ports,
        RowSort::Timed { ms, fails: None },
    ) {
        Ok(draft) => reading.open_action(draft),
        Err(stop) => Err(stop),
    }
}

/// Reads `MS OUTCOMES`, of the action with this head.
fn read_replay(
    alloc: Global,
    reading: &mut Reading,
    row: &[u8],
    text: &[u8],
) -> Result<(), Stop<WorldFaultKind>>
    ensures { Leaves result reading.new (AfterForm reading.old (option_and_then (replay_line text.now) (file.head_in row.now))) }
{
    let Some(head) = head_in(alloc, row)? else {
        return Err(Stop::Fault(WorldFaultKind::BadLine));
    };
    let (number, rest) = cut(text);
    let (letters, rest) = cut(rest);
    if !rest.is_empty() || !is_canonical(number) || !are_outcomes(letters) {
        return Err(Stop::Fault(WorldFaultKind::BadLine));
    }
    reading.close(alloc)?;
    let Some(ms) = ms(number) else {
        return Err(Stop::Fault(WorldFaultKind::Range));
    };
    let outcomes = Items::of(outcomes(alloc, letters)?);
    match reading.draft_of(alloc, head.id, head.ports, RowSort::Replay { ms, outcomes }) {
        Ok(draft) => reading.open_action(draft),
        Err(stop) => Err(stop),
    }
}

/// Reads what is left after `told`, which is nothing, of the condition with this head.
fn read_sensed(
    alloc: Global,
    reading: &mut Reading,
    row: &[u8],
    text: &[u8],
) -> Result<(), Stop<WorldFaultKind>>
    ensures { Leaves result reading.new (AfterForm reading.old (told_line SensedLine row.now text.now)) }
{
    let Some(head) = head_in(alloc, row)? else {
        return Err(Stop::Fault(WorldFaultKind::BadLine));
    };
    if !text.is_empty() {
        return Err(Stop::Fault(WorldFaultKind::BadLine));
    }
    reading.close(alloc)?;
    match reading.draft_of(alloc, head.id, head.ports, RowSort::Sensed) {
        Ok(draft) => reading.add_condition(alloc, draft.into_row()),
        Err(stop) => Err(stop),
    }
}

/// Reads what is left after `told`, which is nothing, of the action with this head.
fn read_told(
    alloc: Global,
    reading: &mut Reading,
    row: &[u8],
    text: &[u8],
) -> Result<(), Stop<WorldFaultKind>>
    ensures { Leaves result reading.new (AfterForm reading.old (told_line ToldLine row.now text.now)) }
{
    let Some(head) = head_in(alloc, row)? else {
        return Err(Stop::Fault(WorldFaultKind::BadLine));
    };
    if !text.is_empty() {
        return Err(Stop::Fault(WorldFaultKind::BadLine));
    }
    reading.close(alloc)?;
    let outs = Items::of(Vec::new(alloc));
    match reading.draft_of(alloc, head.id, head.ports, RowSort::Told { outs }) {
        Ok(draft) => reading.open_action(draft),
        Err(stop) => Err(stop),
    }
}
