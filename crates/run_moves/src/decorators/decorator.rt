ghost use Rattle.std.specs.Prelude.{IsTrue, ◌≡◌, ◌+◌, ◌<◌, ℕ};
ghost use Rattle.base_tables.specs.BuiltInRows.{is_decorator};
ghost use Rattle.base_tables.specs.Moves.{Fits, FitsChild, FitsStart, GoesOn, after, hears, hears_answer, keep_running_on, makes, next_place, rest};
ghost use Rattle.spec_run.specs.Rules.OneVisit.{forced, inverted, keep_running_after};
ghost use Rattle.spec_run.specs.Rules.Kinds.{rule};

use crate::decorators::once::{mark_kept, run_once_answered, run_once_begun};
use crate::decorators::rates::{pace_kept, rate_answered, rate_begun};
use crate::decorators::turns::{turn_answered, turns_kept};
use crate::decorators::waits::{delay_begun, timeout_begun};
use crate::steps::{pass, reset_and_give, visit};
use spec_run::{Answer, Heard, Memo, Move, Span};
use spec_tree::Kind;

/// The next move of a decorator or a SubTree node: at the beginning of a visit at the time `now`,
/// in milliseconds, and after each answer of the child. The memo is the one with which the visit
/// begins, or that of the move before, and becomes the one after this move.
pub fn decorator_next(kind: Kind, memo: &mut Memo, now: u64, heard: Heard) -> Move
    requires decorator { IsTrue (is_decorator kind) }
    requires fits { Fits kind 1 memo.old heard }
    // What is still to come of the node's rule is this move, followed by what is to come after it.
    ensures next { rest kind 1 now memo.old heard ≡ makes (hears kind) (after kind 1 now) memo.new result }
    ensures onward { GoesOn kind 1 memo.old (next_place heard) memo.new result.then }
{
    match heard {
        Heard::Begin { picked } => begin(kind, memo, now, picked),
        Heard::Answered(place, answer) => answered(kind, memo, now, place, answer),
        Heard::Passed(_) => unreachable!(),
    }
}

/// The first move of a visit, at the time `now` in milliseconds. `picked` is 1 where a RunOnce
/// skips.
fn begin(kind: Kind, memo: &mut Memo, now: u64, picked: u32) -> Move
    requires decorator { IsTrue (is_decorator kind) }
    requires fits { FitsStart kind 1 memo.old picked }
    ensures next { rule kind 1 memo.old picked now ≡ makes (hears kind) (after kind 1 now) memo.new result }
    ensures onward { GoesOn kind 1 memo.old 0 memo.new result.then }
{
    match kind {
        Kind::SubTree => visit(0),
        Kind::Inverter => visit(0),
        Kind::ForceSuccess => visit(0),
        Kind::ForceFailure => visit(0),
        Kind::KeepRunningUntilFailure => visit(0),
        Kind::Retry => {
            *memo = Memo::Turns(turns_kept(*memo));
            visit(0)
        }
        Kind::Repeat => {
            *memo = Memo::Turns(turns_kept(*memo));
            visit(0)
        }
        Kind::Timeout => timeout_begun(memo, now),
        Kind::Delay => delay_begun(memo, now),
        Kind::RunOnce => run_once_begun(memo, mark_kept(*memo), picked),
        Kind::RateController => rate_begun(memo, pace_kept(*memo), now),
        _ => unreachable!(),
    }
}

/// The move after the answer of the child, at the time `now` in milliseconds.
fn answered(kind: Kind, memo: &mut Memo, now: u64, place: u32, answer: Answer) -> Move
    requires decorator { IsTrue (is_decorator kind) }
    requires there { place < 1 }
    requires fits { FitsChild kind 1 memo.old place }
    ensures next { after kind 1 now memo.old (Heard.Answered place answer) ≡ makes (hears kind) (after kind 1 now) memo.new result }
    ensures onward { GoesOn kind 1 memo.old (place + 1) memo.new result.then }
{
    match kind {
        Kind::SubTree => pass(memo, answer),
        Kind::Inverter => pass(memo, invert(answer)),
        Kind::ForceSuccess => pass(memo, force(Answer::Success, answer)),
        Kind::ForceFailure => pass(memo, force(Answer::Failure, answer)),
        Kind::KeepRunningUntilFailure => keep_running(memo, answer),
        Kind::Retry => turn_answered(memo, Answer::Failure, turns_kept(*memo), answer),
        Kind::Repeat => turn_answered(memo, Answer::Success, turns_kept(*memo), answer),
        Kind::Timeout => pass(memo, answer),
        Kind::Delay => pass(memo, answer),
        Kind::RunOnce => run_once_answered(memo, answer),
        Kind::RateController => rate_answered(memo, pace_kept(*memo), now, answer),
        _ => unreachable!(),
    }
}

/// SUCCESS and FAILURE exchanged.
fn invert(answer: Answer) -> Answer
    ensures { result ≡ inverted answer }
{
    match answer {
        Answer::Success => Answer::Failure,
        Answer::Failure => Answer::Success,
        _ => answer,
    }
}

/// SUCCESS and FAILURE turned into this answer.
fn force(to: Answer, answer: Answer) -> Answer
    ensures { result ≡ forced to answer }
{
    match answer {
        Answer::Success => to,
        Answer::Failure => to,
        _ => answer,
    }
}

/// The move of a KeepRunningUntilFailure after its child's answer.
fn keep_running(memo: &mut Memo, answer: Answer) -> Move
    ensures next { keep_running_after memo.old answer ≡ makes hears_answer (λ m heard. keep_running_on m heard) memo.new result }
    ensures onward { (old : Memo) (first : ℕ) → GoesOn Kind.KeepRunningUntilFailure 1 old first memo.new result.then }
{
    match answer {
        Answer::Success => reset_and_give(Span::All, Answer::Running),
        _ => pass(memo, answer),
    }
}
