ghost use Rattle.std.specs.Prelude.{◌≡◌, ◌<◌, ◌^◌, false, true};
ghost use Rattle.base_tables.specs.Moves.{RecoveryIsLeft, hears_answer, makes, place_at_hand, recovery_heard, recovery_on};
ghost use Rattle.spec_run.specs.Rules.Recoveries.{attempt_after, attempt_on, one_recovered, recoveries_left, recoveries_of, recover, recovery_after, recovery_node};
ghost use Rattle.run_moves.specs.AtHand.{RecoversOn};

use crate::steps::{over, pass, reset_and_give, reset_and_visit, visit};
use spec_run::{Answer, Memo, Move, Recoveries, Span, Then};

/// The recoveries of a memo.
pub(crate) fn recoveries_kept(memo: Memo) -> Recoveries
    ensures { result ≡ recoveries_of memo }
{
    match memo {
        Memo::Recoveries(recoveries) => recoveries,
        _ => Recoveries {
            done: 0,
            limit: 0,
            recovers: false,
        },
    }
}

/// Begins a visit of a RecoveryNode: it visits the child at hand.
pub(crate) fn recovery_begun(memo: &mut Memo, recoveries: Recoveries) -> Move
    ensures next { recovery_node recoveries.recovers recoveries ≡
        makes hears_answer (λ m heard. recovery_heard (recoveries_of m) heard) memo.new result }
    ensures memo { memo.new ≡ Memo.Recoveries recoveries }
    ensures visits { result.then ≡ Then.Visit (place_at_hand recoveries) }
{
    *memo = Memo::Recoveries(recoveries);
    if recoveries.recovers {
        visit(1)
    } else {
        visit(0)
    }
}

/// The move of a RecoveryNode after the answer of the child at hand.
pub(crate) fn recovery_answered(memo: &mut Memo, recoveries: Recoveries, answer: Answer) -> Move
    requires { RecoveryIsLeft recoveries }
    ensures next { recovery_on recoveries.recovers recoveries answer ≡
        makes hears_answer (λ m heard. recovery_heard (recoveries_of m) heard) memo.new result }
    ensures onward { RecoversOn recoveries memo.new result.then }
{
    if recoveries.recovers {
        recovery_ended(memo, recoveries, answer)
    } else {
        attempt_ended(memo, recoveries, answer)
    }
}

/// The move after the answer of the first child.
fn attempt_ended(memo: &mut Memo, recoveries: Recoveries, answer: Answer) -> Move
    requires first { recoveries.recovers ≡ false }
    requires few { recoveries.limit < 2 ^ 31 }
    ensures next { attempt_after recoveries (recover (recoveries_left recoveries) recoveries) answer ≡
        makes hears_answer (λ m heard. recovery_heard (recoveries_of m) heard) memo.new result }
    ensures onward { RecoversOn recoveries memo.new result.then }
{
    match answer {
        Answer::Failure => attempt_failed(memo, recoveries),
        _ => {
            *memo = Memo::Recoveries(recoveries);
            pass(memo, answer)
        }
    }
}

/// The move after FAILURE of the first child: the second one is visited, where a recovery is left.
fn attempt_failed(memo: &mut Memo, recoveries: Recoveries) -> Move
    requires first { recoveries.recovers ≡ false }
    requires few { recoveries.limit < 2 ^ 31 }
    ensures next { recover (recoveries_left recoveries) recoveries ≡
        makes hears_answer (λ m heard. recovery_heard (recoveries_of m) heard) memo.new result }
    ensures onward { RecoversOn recoveries memo.new result.then }
{
    if recoveries.done < recoveries.limit {
        let next = Recoveries {
            recovers: true,
            ..recoveries
        };
        *memo = Memo::Recoveries(next);
        reset_and_visit(Span::One(0), 1)
    } else {
        over(memo, Answer::Failure)
    }
}

/// The move after the answer of the second child: on SUCCESS a recovery more is done, and the first one is visited
/// again.
fn recovery_ended(memo: &mut Memo, recoveries: Recoveries, answer: Answer) -> Move
    requires second { recoveries.recovers ≡ true }
    requires few { recoveries.limit < 2 ^ 31 }
    requires left { recoveries.done < recoveries.limit }
    ensures next { recovery_after recoveries (attempt_on (one_recovered recoveries)) answer ≡
        makes hears_answer (λ m heard. recovery_heard (recoveries_of m) heard) memo.new result }
    ensures onward { RecoversOn recoveries memo.new result.then }
{
    match answer {
        Answer::Success => {
            let next = Recoveries {
                done: recoveries.done + 1,
                limit: recoveries.limit,
                recovers: false,
            };
            *memo = Memo::Recoveries(next);
            reset_and_visit(Span::One(1), 0)
        }
        Answer::Running => {
            *memo = Memo::Recoveries(recoveries);
            reset_and_give(Span::None, Answer::Running)
        }
        _ => over(memo, Answer::Failure),
    }
}
