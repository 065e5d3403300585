ghost use Rattle.std.specs.Prelude.{ℕ, ◌≡◌, ◌-◌, ◌+◌, ◌<◌, ◌||◌, Some};
ghost use Rattle.base_tables.specs.Moves.{hears_answer, makes, round_on};
ghost use Rattle.spec_run.specs.Rules.Answers.{is_seen};
ghost use Rattle.spec_run.specs.Rules.Sequences.{index_of, passes, round, seen_of, sequence_end};
ghost use Rattle.spec_run.specs.Steps.{Rule};
ghost use Rattle.run_moves.specs.Rounds.{VisitsFrom, ends_of, next_passed};

use crate::steps::{over, reset_and_give, visit};
use spec_run::{Answer, Heard, Memo, Move, RoundEnd, Span, Then};

/// How a round of the Sequence and Fallback kinds ends.
#[derive(Clone, Copy, Debug, PartialEq, Eq)]
pub(crate) enum Manner {
    /// As a Sequence or Fallback: the place of a RUNNING child is kept.
    Keeps,
    /// As a reactive kind: all children except a RUNNING one are reset.
    Restarts,
    /// As a SequenceWithMemory: the place of a child that answers FAILURE is kept, too.
    Remembers,
}

/// The move after the answer of the child at this place: the round goes on, or ends there. `goes`
/// is the answer after which it goes on.
pub(crate) fn go_on(
    goes: Answer,
    manner: Manner,
    memo: &mut Memo,
    n: u32,
    place: u32,
    answer: Answer,
) -> Move
    requires { place < n }
    ensures next { round_on goes (ends_of manner goes) n memo.old (Heard.Answered place answer) ≡
        makes hears_answer (round_on goes (ends_of manner goes) n) memo.new result }
    ensures onward { VisitsFrom (place + 1) n memo.new result.then }
{
    if is_passed(goes, answer) {
        let seen = seen_after(seen_kept(*memo), answer);
        go_to(memo, goes, manner, place + 1, seen, n)
    } else {
        end(memo, goes, manner, RoundEnd::AtChild { place, answer })
    }
}

/// The place of the next child, where the round goes on to it after the answer of the child at this
/// place. The memo becomes the one after that move.
#[inline(always)]
pub(crate) fn next_in_round(
    goes: Answer,
    memo: &mut Memo,
    n: u32,
    place: u32,
    answer: Answer,
) -> Option<u32>
    requires there { place < n }
    requires index { memo.old ≡ Memo.Index place (seen_of memo.old) }
    ensures child { result ≡ next_passed goes n place answer }
    ensures next { (manner : Manner) (next : ℕ) → result ≡ Some next →
        round_on goes (ends_of manner goes) n memo.old (Heard.Answered place answer) ≡
        makes hears_answer (round_on goes (ends_of manner goes) n) memo.new (record { reset = Span.None; then = Then.Visit next }) }
    ensures onward { (next : ℕ) → result ≡ Some next → VisitsFrom (place + 1) n memo.new (Then.Visit next) }
    ensures same { result ≡ None → memo.new ≡ memo.old }
{
    match memo {
        Memo::Index { at, seen } if place + 1 < n && is_passed(goes, answer) => {
            *at = place + 1;
            *seen = seen_after(*seen, answer);
            Some(place + 1)
        }
        _ => None,
    }
}

/// The move of a round that goes on at this place, or ends after the last child.
pub(crate) fn go_to(
    memo: &mut Memo,
    goes: Answer,
    manner: Manner,
    at: u32,
    seen: bool,
    n: u32,
) -> Move
    ensures next { round goes (ends_of manner goes) (n - at) at seen ≡
        makes hears_answer (round_on goes (ends_of manner goes) n) memo.new result }
    ensures onward { VisitsFrom at n memo.new result.then }
{
    if at < n {
        *memo = kept_at(at, seen);
        visit(at)
    } else {
        end(memo, goes, manner, RoundEnd::AfterLast { seen })
    }
}

/// The move at the end of a round.
fn end(memo: &mut Memo, goes: Answer, manner: Manner, end: RoundEnd) -> Move
    ensures next { (hear : ℕ → (Heard → Rule) → Rule) (go : Memo → Heard → Rule) → ends_of manner goes end ≡ makes hear go memo.new result }
    ensures onward { (first n : ℕ) → VisitsFrom first n memo.new result.then }
{
    match manner {
        Manner::Keeps => end_kept(memo, goes, end),
        Manner::Restarts => match end {
            RoundEnd::AtChild {
                place,
                answer: Answer::Running,
            } => {
                *memo = kept_at(place, true);
                reset_and_give(Span::AllBut(place), Answer::Running)
            }
            _ => end_kept(memo, goes, end),
        },
        Manner::Remembers => match end {
            RoundEnd::AtChild {
                place,
                answer: Answer::Failure,
            } => {
                *memo = kept_at(place, false);
                reset_and_give(Span::From(place), Answer::Failure)
            }
            _ => end_kept(memo, Answer::Success, end),
        },
    }
}

/// The move at the end of a round of a Sequence or Fallback.
fn end_kept(memo: &mut Memo, goes: Answer, end: RoundEnd) -> Move
    ensures next { (hear : ℕ → (Heard → Rule) → Rule) (go : Memo → Heard → Rule) → sequence_end goes end ≡ makes hear go memo.new result }
    ensures onward { (first n : ℕ) → VisitsFrom first n memo.new result.then }
{
    match end {
        RoundEnd::AtChild {
            place,
            answer: Answer::Running,
        } => {
            *memo = kept_at(place, true);
            reset_and_give(Span::None, Answer::Running)
        }
        RoundEnd::AtChild { answer, .. } => over(memo, answer),
        RoundEnd::AfterLast { seen: true } => over(memo, goes),
        RoundEnd::AfterLast { seen: false } => over(memo, Answer::Skipped),
    }
}

/// The memo that keeps the place of a child.
fn kept_at(at: u32, seen: bool) -> Memo
    ensures { result ≡ Memo.Index at seen }
{
    Memo::Index { at, seen }
}

/// The child at which a round begins by this memo.
pub(crate) fn index_kept(memo: Memo) -> u32
    ensures { result ≡ index_of memo }
{
    match memo {
        Memo::Index { at, .. } => at,
        _ => 0,
    }
}

/// Whether a child of this round has answered other than SKIPPED.
pub(crate) fn seen_kept(memo: Memo) -> bool
    ensures { result ≡ seen_of memo }
{
    match memo {
        Memo::Index { seen, .. } => seen,
        _ => false,
    }
}

/// Whether a child has answered other than SKIPPED, after this answer.
fn seen_after(seen: bool, answer: Answer) -> bool
    ensures { result ≡ (seen || is_seen answer) }
{
    seen || answer != Answer::Skipped
}

/// Whether a round goes on after this answer: after SKIPPED, and after `goes`.
fn is_passed(goes: Answer, answer: Answer) -> bool
    ensures { result ≡ passes goes answer }
{
    answer == Answer::Skipped || goes == answer
}
