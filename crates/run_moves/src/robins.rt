ghost use Rattle.std.specs.Prelude.{◌≡◌, ◌-◌, ◌+◌, ◌<◌, ◌≤◌, ◌^◌};
ghost use Rattle.base_tables.specs.Moves.{HasChildAtHand, hears_answer, makes, robin_heard};
ghost use Rattle.spec_run.specs.Rules.RoundRobins.{next_of, passed_by, robin_after, robin_on, rotation_at, rotation_of, round_robin};
ghost use Rattle.run_moves.specs.AtHand.{RotatesOn};

use crate::steps::{over, reset_and_give, reset_and_visit, visit};
use spec_run::{Answer, Memo, Move, Rotation, Span, Then};

/// The rotation of a memo.
pub(crate) fn rotation_kept(memo: Memo) -> Rotation
    ensures { result ≡ rotation_of memo }
{
    match memo {
        Memo::Rotation(rotation) => rotation,
        _ => begun_at(0),
    }
}

/// A rotation that begins with the child at this place.
fn begun_at(place: u32) -> Rotation
    ensures { result ≡ rotation_at place }
{
    Rotation {
        at: place,
        passed: 0,
        skipped: 0,
    }
}

/// The place of the child that comes after the one at this place of `n`.
fn place_after(n: u32, place: u32) -> u32
    requires { place < n }
    ensures next { result ≡ next_of n place }
    ensures there { result < n }
{
    if place + 1 < n { place + 1 } else { 0 }
}

/// Begins a visit of a RoundRobin: it visits the child at hand.
pub(crate) fn robin_begun(memo: &mut Memo, rotation: Rotation, n: u32) -> Move
    ensures next { round_robin n rotation ≡ makes hears_answer (λ m heard. robin_heard n (rotation_of m) heard) memo.new result }
    ensures memo { memo.new ≡ Memo.Rotation rotation }
    ensures visits { result.then ≡ Then.Visit rotation.at }
{
    *memo = Memo::Rotation(rotation);
    visit(rotation.at)
}

/// The move of a RoundRobin after the answer of the child at hand.
pub(crate) fn robin_answered(memo: &mut Memo, n: u32, rotation: Rotation, answer: Answer) -> Move
    requires { HasChildAtHand n rotation }
    ensures next { robin_after n rotation (robin_on n (n - (rotation.passed + 1)) rotation answer) answer ≡
        makes hears_answer (λ m heard. robin_heard n (rotation_of m) heard) memo.new result }
    ensures onward { RotatesOn n rotation memo.new result.then }
{
    match answer {
        Answer::Running => {
            *memo = Memo::Rotation(rotation);
            reset_and_give(Span::None, Answer::Running)
        }
        Answer::Success => {
            *memo = Memo::Rotation(begun_at(place_after(n, rotation.at)));
            reset_and_give(Span::All, Answer::Success)
        }
        _ => robin_passed(memo, n, rotation, answer),
    }
}

/// The rotation after the child at hand has failed or was skipped.
fn passed_on(n: u32, rotation: Rotation, answer: Answer) -> Rotation
    requires { HasChildAtHand n rotation }
    ensures passed { result ≡ passed_by n answer rotation }
    ensures there { result.at < n }
    ensures skipped { result.skipped ≤ result.passed }
{
    let skipped = if answer == Answer::Skipped {
        rotation.skipped + 1
    } else {
        rotation.skipped
    };
    Rotation {
        at: place_after(n, rotation.at),
        passed: rotation.passed + 1,
        skipped,
    }
}

/// The move after the child at hand has failed or was skipped: the next one is visited, where one is left.
fn robin_passed(memo: &mut Memo, n: u32, rotation: Rotation, answer: Answer) -> Move
    requires { HasChildAtHand n rotation }
    ensures next { robin_on n (n - (rotation.passed + 1)) rotation answer ≡
        makes hears_answer (λ m heard. robin_heard n (rotation_of m) heard) memo.new result }
    ensures onward { RotatesOn n rotation memo.new result.then }
{
    let next = passed_on(n, rotation, answer);
    if next.passed < n {
        *memo = Memo::Rotation(next);
        reset_and_visit(Span::One(rotation.at), next.at)
    } else if next.skipped == n {
        over(memo, Answer::Skipped)
    } else {
        over(memo, Answer::Failure)
    }
}
