ghost use Rattle.std.specs.Prelude.{ℕ, ◌≡◌, ◌-◌, ◌+◌, ◌<◌, ◌^◌};
ghost use Rattle.base_tables.specs.Moves.{GoesOn, HasRoom, hears_or_passes, makes, parallel_on as parallel_heard};
ghost use Rattle.spec_run.specs.Rules.Parallels.{counted, counts_of, failure_holds, parallel, parallel_after, parallel_end, success_holds};
ghost use Rattle.spec_run.specs.Steps.{Rule};

use crate::steps::{over, reset_and_give, visit};
use spec_run::{Answer, Counts, Heard, Memo, Move, Span};
use spec_tree::Kind;

/// The thresholds and counts of a memo.
pub(crate) fn counts_kept(memo: Memo) -> Counts
    ensures { result ≡ counts_of memo }
{
    match memo {
        Memo::Counts(counts) => counts,
        _ => Counts {
            need: 0,
            most: 0,
            skips: false,
            successes: 0,
            failures: 0,
            skipped: 0,
        },
    }
}

/// The counts after one more child has answered.
pub(crate) fn count(counts: Counts, answer: Answer) -> Counts
    requires { counts.successes + counts.failures + counts.skipped + 1 < 2 ^ 32 }
    ensures { result ≡ counted answer counts }
{
    match answer {
        Answer::Success => Counts {
            successes: counts.successes + 1,
            ..counts
        },
        Answer::Failure => Counts {
            failures: counts.failures + 1,
            ..counts
        },
        Answer::Skipped => Counts {
            skipped: counts.skipped + 1,
            ..counts
        },
        Answer::Running => counts,
    }
}

/// Whether a Parallel with these counts has succeeded: there are enough successes, where it is set
/// so with the skipped children counted.
fn has_succeeded(counts: Counts) -> bool
    requires { counts.successes + counts.skipped < 2 ^ 32 }
    ensures { result ≡ success_holds counts }
{
    counts.need <= counts.successes
        || counts.skips && counts.need <= counts.successes + counts.skipped
}

/// Whether a Parallel of `n` children with these counts has failed: there are too many failures for
/// success, or as many as its threshold.
fn has_failed(counts: Counts, n: u32) -> bool
    ensures { result ≡ failure_holds n counts }
{
    n.saturating_sub(counts.failures) < counts.need || counts.most <= counts.failures
}

/// The move of a Parallel after the answer of the child at this place. Where it just goes on to the
/// next child, as after most answers, one count of its memo changes in place.
pub(crate) fn parallel_answered(memo: &mut Memo, n: u32, place: u32, answer: Answer) -> Move
    requires there { place < n }
    requires fits { HasRoom n (counts_of memo.old) place }
    ensures next { parallel_heard n (counts_of memo.old) (Heard.Answered place answer) ≡
        makes hears_or_passes (λ m heard. parallel_heard n (counts_of m) heard) memo.new result }
    ensures onward { (old : Memo) → GoesOn Kind.Parallel n old (place + 1) memo.new result.then }
{
    let counts = count(counts_kept(*memo), answer);
    if let Memo::Counts(kept) = memo {
        if place + 1 < n && !has_succeeded(counts) && !has_failed(counts, n) {
            *kept = counts;
            return visit(place + 1);
        }
    }
    parallel_ended(memo, counts, n, place + 1)
}

/// The move of a Parallel that does not just go on. It is a function of its own, so that most moves
/// leave the other counts of the memo as they are.
#[cold]
#[inline(never)]
fn parallel_ended(memo: &mut Memo, counts: Counts, n: u32, place: u32) -> Move
    requires { HasRoom n counts place }
    ensures next { parallel_after n counts (parallel n (n - place) place counts) ≡
        makes hears_or_passes (λ m heard. parallel_heard n (counts_of m) heard) memo.new result }
    ensures onward { (old : Memo) → GoesOn Kind.Parallel n old place memo.new result.then }
{
    parallel_on(memo, counts, n, place)
}

/// The move of a Parallel that compares its counts with its thresholds, and else goes on at this
/// place.
pub(crate) fn parallel_on(memo: &mut Memo, counts: Counts, n: u32, place: u32) -> Move
    requires { HasRoom n counts place }
    ensures next { parallel_after n counts (parallel n (n - place) place counts) ≡
        makes hears_or_passes (λ m heard. parallel_heard n (counts_of m) heard) memo.new result }
    ensures onward { (old : Memo) → GoesOn Kind.Parallel n old place memo.new result.then }
{
    if has_succeeded(counts) {
        over(memo, Answer::Success)
    } else if has_failed(counts, n) {
        over(memo, Answer::Failure)
    } else {
        parallel_to(memo, counts, n, place)
    }
}

/// The move of a Parallel that goes on at this place, or ends after its last child.
pub(crate) fn parallel_to(memo: &mut Memo, counts: Counts, n: u32, place: u32) -> Move
    requires { HasRoom n counts place }
    ensures next { parallel n (n - place) place counts ≡
        makes hears_or_passes (λ m heard. parallel_heard n (counts_of m) heard) memo.new result }
    ensures onward { (old : Memo) → GoesOn Kind.Parallel n old place memo.new result.then }
{
    if place < n {
        *memo = Memo::Counts(counts);
        visit(place)
    } else {
        end(memo, counts, n)
    }
}

/// The move of a Parallel after its last child: SKIPPED where all were skipped, else RUNNING.
fn end(memo: &mut Memo, counts: Counts, n: u32) -> Move
    ensures next { (hear : ℕ → (Heard → Rule) → Rule) (go : Memo → Heard → Rule) → parallel_end n counts ≡ makes hear go memo.new result }
    ensures onward { (old : Memo) (place : ℕ) → GoesOn Kind.Parallel n old place memo.new result.then }
{
    if counts.skipped == n {
        over(memo, Answer::Skipped)
    } else {
        let kept = Counts {
            skipped: 0,
            ..counts
        };
        *memo = Memo::Counts(kept);
        reset_and_give(Span::None, Answer::Running)
    }
}
