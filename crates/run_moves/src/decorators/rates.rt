ghost use Rattle.std.specs.Prelude.{◌≡◌, ℕ};
ghost use Rattle.base_tables.specs.Moves.{GoesOn, hears_answer, makes, rate_on};
ghost use Rattle.spec_run.specs.Rules.Rates.{is_due, pace_of, rate_after, rate_controller};

use crate::steps::{over, reset_and_give, visit};
use spec_run::{Answer, Memo, Move, Pace, Span};
use spec_tree::Kind;

/// The pace of a memo.
pub(crate) fn pace_kept(memo: Memo) -> Pace
    ensures { result ≡ pace_of memo }
{
    match memo {
        Memo::Pace(pace) => pace,
        _ => Pace {
            first: 0,
            rate: 0,
            due: true,
        },
    }
}

/// Whether the child is visited at the time `now` in milliseconds. A product above 64 bits is above a period.
fn is_at_its_time(pace: Pace, now: u64) -> bool
    ensures { result ≡ is_due pace now }
{
    let passed = now.saturating_sub(pace.first);
    pace.due || passed.saturating_mul(u64::from(pace.rate)) >= 1_000_000
}

/// Begins a visit of a RateController at the time `now` in milliseconds: it visits its child where it is due, and else
/// answers RUNNING.
pub(crate) fn rate_begun(memo: &mut Memo, pace: Pace, now: u64) -> Move
    ensures next { rate_controller pace now ≡ makes hears_answer (λ m heard. rate_on m now heard) memo.new result }
    ensures onward { (old : Memo) → GoesOn Kind.RateController 1 old 0 memo.new result.then }
{
    *memo = Memo::Pace(pace);
    if is_at_its_time(pace, now) {
        visit(0)
    } else {
        reset_and_give(Span::None, Answer::Running)
    }
}

/// The move of a RateController after its child's answer at the time `now` in milliseconds.
pub(crate) fn rate_answered(memo: &mut Memo, pace: Pace, now: u64, answer: Answer) -> Move
    ensures next { rate_after pace now answer ≡ makes hears_answer (λ m heard. rate_on m now heard) memo.new result }
    ensures onward { (old : Memo) (first : ℕ) → GoesOn Kind.RateController 1 old first memo.new result.then }
{
    match answer {
        Answer::Running => {
            *memo = Memo::Pace(Pace { due: true, ..pace });
            reset_and_give(Span::None, answer)
        }
        Answer::Success => {
            *memo = Memo::Pace(Pace {
                first: now,
                due: false,
                ..pace
            });
            reset_and_give(Span::All, answer)
        }
        Answer::Failure => {
            *memo = Memo::Pace(Pace { due: false, ..pace });
            reset_and_give(Span::All, answer)
        }
        Answer::Skipped => over(memo, answer),
    }
}
