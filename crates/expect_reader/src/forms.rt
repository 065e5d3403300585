ghost use Rattle.std.specs.Prelude.{◌≡◌, IfErr, IfOk, None, codes, true};
ghost use Rattle.std.specs.List.{list_all};
ghost use Rattle.base_texts.specs.Stops.{Gives};
ghost use Rattle.spec_world_file.specs.WorldFile.{is_line_byte};
ghost use Rattle.spec_expect.specs.ExpectFile.{AlwaysLine, FormSays, NeverWithLine, OrderLine, Says, at_line, by_line, count_line, ends_line, line_by, line_in, only_line, over_facts, pick_at_front, root_line, then_pick};
ghost use Rattle.expect_reader.specs.Reading.{GivesSaid, IsBadLine, ReadsAs, last_after, leaves_line, subject_seen};

use crate::answers::{answer_in, end_in, moment_of, runner_in};
use crate::leaves::leaves_in;
use crate::picks::pick_at_front;
use crate::subject::{Subject, knows_all};
use base_tables::is_canonical;
use base_texts::Stop;
use spec_expect::{ExpectFaultKind, Expectation, Pick};
use spec_script::Expr;
use spec_world::Fact;
use std::alloc::Global;
use world_lines::{cut, is, is_line, numeric};
use world_reader::comparison;

/// The expression that a text is. The fault is `BadLine`, where it is none.
fn expression(alloc: Global, text: &[u8]) -> Result<Expr, Stop<ExpectFaultKind>>
    requires { list_all is_line_byte text.now ≡ true }
    ensures { ReadsAs text.now result }
{
    match numeric(alloc, text)? {
        Some(expr) => Ok(expr),
        None => Err(Stop::Fault(ExpectFaultKind::BadLine)),
    }
}

/// An expression that names facts alone. The fault is `NoName`.
fn over_facts(facts: &[Fact], expr: Expr) -> Result<Expr, Stop<ExpectFaultKind>>
    ensures { Gives result (over_facts facts.now expr) }
{
    if knows_all(facts, &expr) {
        Ok(expr)
    } else {
        Err(Stop::Fault(ExpectFaultKind::NoName))
    }
}

/// Reads `always EXPR`, from after `always`; so below.
fn read_always(
    alloc: Global,
    subject: &Subject,
    text: &[u8],
) -> Result<Expectation, Stop<ExpectFaultKind>>
    requires { list_all is_line_byte text.now ≡ true }
    ensures { GivesSaid result (Says (subject_seen subject.now) (AlwaysLine text.now)) }
{
    let expr = expression(alloc, text)?;
    Ok(Expectation::Always(over_facts(subject.facts, expr)?))
}

/// Reads `at MS EXPR`.
fn read_at(
    alloc: Global,
    subject: &Subject,
    text: &[u8],
) -> Result<Expectation, Stop<ExpectFaultKind>>
    requires { list_all is_line_byte text.now ≡ true }
    ensures { GivesSaid result (FormSays (subject_seen subject.now) (at_line text.now)) }
{
    let (number, rest) = cut(text);
    if !is_canonical(number) {
        return Err(Stop::Fault(ExpectFaultKind::BadLine));
    }
    let expr = expression(alloc, rest)?;
    let ms = moment_of(number)?;
    let expr = over_facts(subject.facts, expr)?;
    Ok(Expectation::At { ms, expr })
}

/// Reads `by MS root R STATUS`.
fn read_by(subject: &Subject, text: &[u8]) -> Result<Expectation, Stop<ExpectFaultKind>>
    ensures { GivesSaid result (FormSays (subject_seen subject.now) (by_line text.now)) }
{
    let (number, rest) = cut(text);
    let (root, rest) = cut(rest);
    let (runner, rest) = cut(rest);
    let (answer, rest) = cut(rest);
    if !is_canonical(number) || !is(root, "root") || !is_canonical(runner) || !rest.is_empty() {
        return Err(Stop::Fault(ExpectFaultKind::BadLine));
    }
    let Some(answer) = answer_in(answer) else {
        return Err(Stop::Fault(ExpectFaultKind::BadLine));
    };
    let ms = moment_of(number)?;
    let runner = runner_in(subject.runners, runner)?;
    Ok(Expectation::By { ms, runner, answer })
}

/// Reads `root R never STATUS`.
fn read_root(subject: &Subject, text: &[u8]) -> Result<Expectation, Stop<ExpectFaultKind>>
    ensures { GivesSaid result (FormSays (subject_seen subject.now) (root_line text.now)) }
{
    let (runner, rest) = cut(text);
    let (never, rest) = cut(rest);
    let (answer, rest) = cut(rest);
    if !is_canonical(runner) || !is(never, "never") || !rest.is_empty() {
        return Err(Stop::Fault(ExpectFaultKind::BadLine));
    }
    let Some(answer) = answer_in(answer) else {
        return Err(Stop::Fault(ExpectFaultKind::BadLine));
    };
    let runner = runner_in(subject.runners, runner)?;
    Ok(Expectation::NeverAnswers { runner, answer })
}

/// Reads `start LEAF only EXPR`, from after the leaves; so below.
fn read_only(
    alloc: Global,
    subject: &Subject,
    pick: &Pick,
    text: &[u8],
) -> Result<Expectation, Stop<ExpectFaultKind>>
    requires { list_all is_line_byte text.now ≡ true }
    ensures { GivesSaid result (FormSays (subject_seen subject.now) (only_line (pick.now, text.now))) }
{
    let (only, rest) = cut(text);
    if !is(only, "only") {
        return Err(Stop::Fault(ExpectFaultKind::BadLine));
    }
    let expr = expression(alloc, rest)?;
    let leaves = leaves_in(alloc, subject.places, pick)?;
    let expr = over_facts(subject.facts, expr)?;
    Ok(Expectation::StartsOnly { leaves, expr })
}

/// Reads `starts LEAF OP N`.
fn read_count(
    alloc: Global,
    subject: &Subject,
    pick: &Pick,
    text: &[u8],
) -> Result<Expectation, Stop<ExpectFaultKind>>
    ensures { GivesSaid result (FormSays (subject_seen subject.now) (count_line (pick.now, text.now))) }
{
    let (op, rest) = cut(text);
    let (number, rest) = cut(rest);
    if !is_canonical(number) || !rest.is_empty() {
        return Err(Stop::Fault(ExpectFaultKind::BadLine));
    }
    let Some(op) = comparison(op) else {
        return Err(Stop::Fault(ExpectFaultKind::BadLine));
    };
    let leaves = leaves_in(alloc, subject.places, pick)?;
    let count = moment_of(number)?;
    Ok(Expectation::Starts { leaves, op, count })
}

/// Reads `ends LEAF STATUS by MS`.
fn read_ends(
    alloc: Global,
    subject: &Subject,
    pick: &Pick,
    text: &[u8],
) -> Result<Expectation, Stop<ExpectFaultKind>>
    ensures { GivesSaid result (FormSays (subject_seen subject.now) (ends_line (pick.now, text.now))) }
{
    let (answer, rest) = cut(text);
    let (by, rest) = cut(rest);
    let (number, rest) = cut(rest);
    if !is_canonical(number) || !is(by, "by") || !rest.is_empty() {
        return Err(Stop::Fault(ExpectFaultKind::BadLine));
    }
    let Some(answer) = end_in(answer) else {
        return Err(Stop::Fault(ExpectFaultKind::BadLine));
    };
    let leaves = leaves_in(alloc, subject.places, pick)?;
    let ms = moment_of(number)?;
    Ok(Expectation::Ends { leaves, answer, ms })
}

/// The leaves at the front of a text, and what follows. The fault is `BadLine`, where there are none.
fn front_pick(alloc: Global, text: &[u8]) -> Result<(Pick, &[u8]), Stop<ExpectFaultKind>>
    ensures front { IfOk result (λ found. pick_at_front text.now ≡ Some (found.0, found.1.now)) }
    ensures none { IfErr result (IsBadLine (pick_at_front text.now ≡ None)) }
{
    match pick_at_front(alloc, text)? {
        Some(found) => Ok(found),
        None => Err(Stop::Fault(ExpectFaultKind::BadLine)),
    }
}

/// The leaves that follow this word, after which nothing follows.
fn last_pick(alloc: Global, between: &str, text: &[u8]) -> Result<Pick, Stop<ExpectFaultKind>>
    ensures last { IfOk result (λ pick. last_after between.now text.now ≡ Some pick) }
    ensures none { IfErr result (IsBadLine (last_after between.now text.now ≡ None)) }
{
    let (word, rest) = cut(text);
    if !is(word, between) {
        return Err(Stop::Fault(ExpectFaultKind::BadLine));
    }
    let (pick, rest) = front_pick(alloc, rest)?;
    if rest.is_empty() {
        Ok(pick)
    } else {
        Err(Stop::Fault(ExpectFaultKind::BadLine))
    }
}

/// Reads `never LEAF with LEAF`.
fn read_never(
    alloc: Global,
    subject: &Subject,
    pick: &Pick,
    text: &[u8],
) -> Result<Expectation, Stop<ExpectFaultKind>>
    ensures { GivesSaid result (FormSays (subject_seen subject.now) (then_pick (codes "with") NeverWithLine (pick.now, text.now))) }
{
    let other = last_pick(alloc, "with", text)?;
    let first = leaves_in(alloc, subject.places, pick)?;
    let second = leaves_in(alloc, subject.places, &other)?;
    Ok(Expectation::NeverWith { first, second })
}

/// Reads `order LEAF before LEAF`.
fn read_order(
    alloc: Global,
    subject: &Subject,
    pick: &Pick,
    text: &[u8],
) -> Result<Expectation, Stop<ExpectFaultKind>>
    ensures { GivesSaid result (FormSays (subject_seen subject.now) (then_pick (codes "before") OrderLine (pick.now, text.now))) }
{
    let other = last_pick(alloc, "before", text)?;
    let first = leaves_in(alloc, subject.places, pick)?;
    let second = leaves_in(alloc, subject.places, &other)?;
    Ok(Expectation::Order { first, second })
}

/// Reads a line about leaves that begins with this word, from after it.
fn read_leaves(
    alloc: Global,
    subject: &Subject,
    kind: &[u8],
    text: &[u8],
) -> Result<Expectation, Stop<ExpectFaultKind>>
    requires { list_all is_line_byte text.now ≡ true }
    ensures { GivesSaid result (FormSays (subject_seen subject.now) (leaves_line kind.now text.now)) }
{
    let (pick, rest) = front_pick(alloc, text)?;
    if is(kind, "start") {
        read_only(alloc, subject, &pick, rest)
    } else if is(kind, "starts") {
        read_count(alloc, subject, &pick, rest)
    } else if is(kind, "ends") {
        read_ends(alloc, subject, &pick, rest)
    } else if is(kind, "never") {
        read_never(alloc, subject, &pick, rest)
    } else if is(kind, "order") {
        read_order(alloc, subject, &pick, rest)
    } else {
        Err(Stop::Fault(ExpectFaultKind::BadLine))
    }
}

/// Reads a line that begins with this word, from after it.
fn read_by_word(
    alloc: Global,
    subject: &Subject,
    kind: &[u8],
    text: &[u8],
) -> Result<Expectation, Stop<ExpectFaultKind>>
    requires { list_all is_line_byte text.now ≡ true }
    ensures { GivesSaid result (FormSays (subject_seen subject.now) (line_by kind.now text.now)) }
{
    if is(kind, "always") {
        read_always(alloc, subject, text)
    } else if is(kind, "at") {
        read_at(alloc, subject, text)
    } else if is(kind, "by") {
        read_by(subject, text)
    } else if is(kind, "root") {
        read_root(subject, text)
    } else {
        read_leaves(alloc, subject, kind, text)
    }
}

/// Reads the content of a line that is not ignored: what it expects. `NoMemory` (want of memory, that is, out of memory),
/// here and in all readers of lines, where an allocation fails.
pub fn read_content(
    alloc: Global,
    subject: &Subject,
    text: &[u8],
) -> Result<Expectation, Stop<ExpectFaultKind>>
    ensures { GivesSaid result (FormSays (subject_seen subject.now) (line_in text.now)) }
{
    if !is_line(text) {
        return Err(Stop::Fault(ExpectFaultKind::BadLine));
    }
    let (kind, rest) = cut(text);
    read_by_word(alloc, subject, kind, rest)
}
