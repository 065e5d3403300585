ghost use Rattle.std.specs.Prelude.{◌≡◌, ◌+◌, Some, None};
ghost use Rattle.base_tables.specs.Moves.{TurnIsLeft, hears_answer, makes, turns_heard};
ghost use Rattle.spec_run.specs.Rules.Answers.{same_answer};
ghost use Rattle.spec_run.specs.Rules.Turns.{limit_of, one_more, turns_of, turns_on};
ghost use Rattle.run_moves.specs.Decorators.Turning.{TurnsOn};

use crate::steps::{over, pass, reset_and_give, reset_and_visit};
use spec_run::{Answer, Heard, Memo, Move, Span, Turns};

/// The turns of a memo: how many are done, and their limit.
pub(crate) fn turns_kept(memo: Memo) -> Turns
    ensures { result ≡ turns_of memo }
{
    match memo {
        Memo::Turns(turns) => turns,
        _ => Turns { done: 0, limit: -1 },
    }
}

/// The limit of turns; none where it is negative.
fn limit(turns: Turns) -> Option<u64>
    ensures { result ≡ limit_of turns.limit }
{
    u64::try_from(turns.limit).ok()
}

/// The move of a Retry or Repeat after its child's answer. `again` is the answer after which the
/// child is visited again.
pub(crate) fn turn_answered(memo: &mut Memo, again: Answer, turns: Turns, answer: Answer) -> Move
    requires { TurnIsLeft turns.done (limit_of turns.limit) }
    ensures next { turns_heard again turns (Heard.Answered 0 answer) ≡
        makes hears_answer (λ m heard. turns_heard again (turns_of m) heard) memo.new result }
    ensures onward { TurnsOn turns memo.new result.then }
{
    if is_same(answer, again) {
        turn_again(memo, again, turns)
    } else {
        *memo = Memo::Turns(turns);
        pass(memo, answer)
    }
}

/// The move of a Retry or Repeat after the answer with which its child is visited again. Without a
/// limit this is in the next tick.
fn turn_again(memo: &mut Memo, again: Answer, turns: Turns) -> Move
    requires { TurnIsLeft turns.done (limit_of turns.limit) }
    ensures next { turns_on again (limit_of turns.limit) turns ≡
        makes hears_answer (λ m heard. turns_heard again (turns_of m) heard) memo.new result }
    ensures onward { TurnsOn turns memo.new result.then }
{
    match limit(turns) {
        None => {
            *memo = Memo::Turns(turns);
            reset_and_give(Span::All, Answer::Running)
        }
        Some(limit) => turn_within(memo, again, turns, limit),
    }
}

/// The move of a Retry or Repeat with a limit, after the answer with which its child is visited
/// again: it is, where turns are left.
fn turn_within(memo: &mut Memo, again: Answer, turns: Turns, limit: u64) -> Move
    requires limit { limit_of turns.limit ≡ Some limit }
    requires left { TurnIsLeft turns.done (Some limit) }
    ensures next { turns_on again (Some limit) turns ≡
        makes hears_answer (λ m heard. turns_heard again (turns_of m) heard) memo.new result }
    ensures onward { TurnsOn turns memo.new result.then }
{
    let next = Turns {
        done: turns.done + 1,
        ..turns
    };
    if u64::from(next.done) < limit {
        *memo = Memo::Turns(next);
        reset_and_visit(Span::All, 0)
    } else {
        over(memo, again)
    }
}

/// Whether two answers are equal.
fn is_same(a: Answer, b: Answer) -> bool
    ensures { result ≡ same_answer a b }
{
    a == b
}
