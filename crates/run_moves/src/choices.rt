ghost use Rattle.std.specs.Prelude.{ℕ, ◌≡◌, ◌+◌, ◌≤◌, ◌<◌, unwrap_or};
ghost use Rattle.base_tables.specs.Moves.{FitsChild, GoesOn, child_on, hears_answer, if_then_else_on, makes, while_do_else_on};
ghost use Rattle.spec_run.specs.Rules.Choices.{chosen_of, if_then_else, if_then_else_after, switch};
ghost use Rattle.spec_run.specs.Rules.OneVisit.{as_it_is};

use crate::steps::{pass, reset_and_visit, visit};
use spec_run::{Answer, Heard, Memo, Move, Span, Then};
use spec_tree::Kind;

/// The chosen child of a memo.
pub(crate) fn chosen_kept(memo: Memo) -> Option<u32>
    ensures { result ≡ chosen_of memo }
{
    match memo {
        Memo::Chosen(child) => child,
        _ => None,
    }
}

/// Begins a visit of a Switch: it visits the picked child. Where it has kept another one, that is
/// reset before.
pub(crate) fn switch_to(memo: &mut Memo, kept: Option<u32>, picked: u32) -> Move
    ensures next { switch kept picked ≡ makes hears_answer (λ m heard. child_on as_it_is m heard) memo.new result }
    ensures memo { memo.new ≡ Memo.Chosen (Some picked) }
    ensures visits { result.then ≡ Then.Visit picked }
{
    *memo = Memo::Chosen(Some(picked));
    match kept {
        Some(place) if place != picked => reset_and_visit(Span::One(place), picked),
        _ => visit(picked),
    }
}

/// Begins a visit of an IfThenElse: it visits the branch that it has chosen, or else its condition.
pub(crate) fn if_then_else_begun(memo: &mut Memo, chosen: Option<u32>, n: u32) -> Move
    ensures next { if_then_else n chosen ≡ makes hears_answer (λ m heard. if_then_else_on n (chosen_of m) heard) memo.new result }
    ensures memo { memo.new ≡ Memo.Chosen chosen }
    ensures visits { result.then ≡ Then.Visit (unwrap_or chosen 0) }
{
    *memo = Memo::Chosen(chosen);
    visit(chosen.unwrap_or(0))
}

/// The move of an IfThenElse after the answer of its chosen branch, or of its condition.
pub(crate) fn if_then_else_answered(memo: &mut Memo, n: u32, place: u32, answer: Answer) -> Move
    requires { FitsChild Kind.IfThenElse n memo.old place }
    ensures next { if_then_else_on n (chosen_of memo.old) (Heard.Answered place answer) ≡
        makes hears_answer (λ m heard. if_then_else_on n (chosen_of m) heard) memo.new result }
    ensures onward { GoesOn Kind.IfThenElse n memo.old (place + 1) memo.new result.then }
{
    match chosen_kept(*memo) {
        Some(_) => pass(memo, answer),
        None => condition_answered(memo, n, place, answer),
    }
}

/// The move of an IfThenElse after the answer of its condition: SUCCESS chooses the second child,
/// and FAILURE the third, where there is one.
fn condition_answered(memo: &mut Memo, n: u32, place: u32, answer: Answer) -> Move
    requires condition { place ≡ 0 }
    requires branch { 2 ≤ n }
    ensures next { if_then_else_after n answer ≡ makes hears_answer (λ m heard. if_then_else_on n (chosen_of m) heard) memo.new result }
    ensures onward { (old : Memo) → GoesOn Kind.IfThenElse n old (place + 1) memo.new result.then }
{
    match answer {
        Answer::Success => {
            *memo = Memo::Chosen(Some(1));
            visit(1)
        }
        Answer::Failure if n > 2 => {
            *memo = Memo::Chosen(Some(2));
            visit(2)
        }
        _ => {
            *memo = Memo::Chosen(None);
            pass(memo, answer)
        }
    }
}

/// The move of a WhileDoElse after the answer of its condition, or of a branch.
pub(crate) fn while_do_else_answered(memo: &mut Memo, n: u32, place: u32, answer: Answer) -> Move
    requires { 2 ≤ n }
    ensures next { while_do_else_on n memo.old (Heard.Answered place answer) ≡
        makes hears_answer (λ m heard. while_do_else_on n m heard) memo.new result }
    ensures onward { (old : Memo) → GoesOn Kind.WhileDoElse n old (place + 1) memo.new result.then }
{
    if place > 0 {
        return pass(memo, answer);
    }
    match answer {
        Answer::Success => only_branch(1),
        Answer::Failure if n > 2 => only_branch(2),
        _ => pass(memo, answer),
    }
}

/// A visit of the branch at this place, after the resets of all other children.
fn only_branch(place: u32) -> Move
    ensures { result ≡ record { reset = Span.AllBut place; then = Then.Visit place } }
{
    reset_and_visit(Span::AllBut(place), place)
}
