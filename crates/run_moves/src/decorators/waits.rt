ghost use Rattle.std.specs.Prelude.{◌≡◌};
ghost use Rattle.base_tables.specs.Moves.{GoesOn, child_on, hears_answer, makes};
ghost use Rattle.spec_run.specs.Rules.OneVisit.{as_it_is, delay, is_late, since_of, timeout};

use crate::steps::{over, reset_and_give, visit};
use spec_run::{Answer, Memo, Move, Since, Span};
use spec_tree::Kind;

/// The start and the length of a memo, in milliseconds.
fn since_kept(memo: Memo) -> Since
    ensures { result ≡ since_of memo }
{
    match memo {
        Memo::Since(since) => since,
        _ => Since {
            first: 0,
            length: 0,
        },
    }
}

/// Whether the length of a Timeout, which is not 0, has passed since its start. `now` is in
/// milliseconds.
fn has_passed(since: Since, now: u64) -> bool
    ensures { result ≡ is_late since now }
{
    since.length != 0 && since.length <= now.saturating_sub(since.first)
}

/// Begins a visit of a Timeout at the time `now` in milliseconds: it answers FAILURE if its length
/// has passed, else it visits its child.
pub(crate) fn timeout_begun(memo: &mut Memo, now: u64) -> Move
    ensures next { timeout memo.old now ≡ makes hears_answer (λ m heard. child_on as_it_is m heard) memo.new result }
    ensures onward { (old : Memo) → GoesOn Kind.Timeout 1 old 0 memo.new result.then }
{
    if has_passed(since_kept(*memo), now) {
        over(memo, Answer::Failure)
    } else {
        visit(0)
    }
}

/// Begins a visit of a Delay at the time `now` in milliseconds: it answers RUNNING until its length
/// has passed, then it visits its child.
pub(crate) fn delay_begun(memo: &mut Memo, now: u64) -> Move
    ensures next { delay memo.old now ≡ makes hears_answer (λ m heard. child_on as_it_is m heard) memo.new result }
    ensures onward { (old : Memo) → GoesOn Kind.Delay 1 old 0 memo.new result.then }
{
    let since = since_kept(*memo);
    if now.saturating_sub(since.first) < since.length {
        reset_and_give(Span::None, Answer::Running)
    } else {
        visit(0)
    }
}
