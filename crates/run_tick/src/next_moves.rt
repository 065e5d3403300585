ghost use Rattle.std.specs.Prelude.{ℕ, ◌≡◌, ◌≢◌, ◌-◌, ◌<◌, IsTrue, None, Some, true};
ghost use Rattle.spec_run.specs.declared.status.Answer.{Answer};
ghost use Rattle.spec_run.specs.declared.status.RoundEnd.{RoundEnd};
ghost use Rattle.spec_tree.specs.BuiltIns.{has_rule, takes};
ghost use Rattle.base_tables.specs.Moves.{Fits, GoesOn, after, hears, hears_answer, makes, next_place, rest, round_on};
ghost use Rattle.spec_run.specs.Rules.Kinds.{rule};
ghost use Rattle.spec_run.specs.Rules.Sequences.{index_of, round, seen_of};
ghost use Rattle.spec_run.specs.Steps.{Rule, is_completed};
ghost use Rattle.run_tick.specs.AtOnce.{child_at_once, first_child, first_in_round};

use base_tables::is_control;
use run_moves::{control_next, decorator_next, goes_to_next};
use spec_run::{Heard, Memo, Move, Span, Status, Then};
use spec_tree::Kind;

/// Whether a child with this status has completed.
pub(crate) fn is_completed(status: Status) -> bool
    ensures { result ≡ is_completed status }
{
    match status {
        Status::Success | Status::Failure => true,
        Status::Idle | Status::Running => false,
    }
}

/// The next move of a node with `n` children at the time `now` in milliseconds. The memo becomes
/// the one after it.
#[inline(always)]
pub(crate) fn next_move(kind: Kind, memo: &mut Memo, n: u32, now: u64, heard: Heard) -> Move
    requires ruled { has_rule kind ≡ true }
    requires takes { IsTrue (takes kind n) }
    requires fits { Fits kind n memo.old heard }
    ensures next { rest kind n now memo.old heard ≡ makes (hears kind) (after kind n now) memo.new result }
    ensures onward { GoesOn kind n memo.old (next_place heard) memo.new result.then }
{
    if is_control(kind) {
        control_next(kind, memo, n, heard)
    } else {
        decorator_next(kind, memo, now, heard)
    }
}

/// The place of the child at which a round of `n` children begins by this memo, where there is one.
#[inline(always)]
fn first_in_round(memo: Memo, n: u32) -> Option<u32>
    ensures child { result ≡ first_in_round n memo }
    ensures next { (goes : Answer) (ends : RoundEnd → Rule) (place : ℕ) → result ≡ Some place →
        round goes ends (n - index_of memo) (index_of memo) (seen_of memo) ≡ hears_answer place (round_on goes ends n memo) }
    ensures there { (place : ℕ) → result ≡ Some place → place < n }
    ensures index { (place : ℕ) → result ≡ Some place → memo ≡ Memo.Index place (seen_of memo) }
{
    match memo {
        Memo::Index { at, .. } if at < n => Some(at),
        _ => None,
    }
}

/// The place of the child that a node with `n` children visits first, where its rule begins with
/// that visit and no more, as most rules do. The memo becomes the one after that move. For other
/// beginnings there is none, and the memo stays.
#[inline(always)]
fn first_child(kind: Kind, memo: &mut Memo, n: u32) -> Option<u32>
    requires takes { IsTrue (takes kind n) }
    ensures child { result ≡ first_child kind n memo.old }
    ensures next { (place picked now : ℕ) → result ≡ Some place →
        rule kind n memo.old picked now ≡
        makes (hears kind) (after kind n now) memo.new (record { reset = Span.None; then = Then.Visit place }) }
    ensures onward { (place : ℕ) → result ≡ Some place → GoesOn kind n memo.old 0 memo.new (Then.Visit place) }
    ensures visited { (place : ℕ) → result ≡ Some place → kind ≢ Kind.Parallel }
    ensures same { result ≡ None → memo.new ≡ memo.old }
{
    match kind {
        Kind::Sequence => first_in_round(*memo, n),
        Kind::Fallback => first_in_round(*memo, n),
        Kind::SequenceWithMemory => first_in_round(*memo, n),
        Kind::ReactiveSequence => {
            *memo = Memo::Index { at: 0, seen: false };
            Some(0)
        }
        Kind::ReactiveFallback => {
            *memo = Memo::Index { at: 0, seen: false };
            Some(0)
        }
        Kind::SubTree => Some(0),
        Kind::Inverter => Some(0),
        Kind::ForceSuccess => Some(0),
        Kind::ForceFailure => Some(0),
        Kind::KeepRunningUntilFailure => Some(0),
        _ => None,
    }
}

/// The place of the child that a node with `n` children visits at once with what it hears. The memo
/// becomes the one after that move. It says what `next_move` says of such a move, and costs less.
/// For other moves there is none, and the memo stays.
#[inline(always)]
pub(crate) fn child_at_once(kind: Kind, memo: &mut Memo, n: u32, heard: Heard) -> Option<u32>
    requires takes { IsTrue (takes kind n) }
    requires fits { Fits kind n memo.old heard }
    ensures child { result ≡ child_at_once kind n memo.old heard }
    ensures next { (place now : ℕ) → result ≡ Some place →
        rest kind n now memo.old heard ≡
        makes (hears kind) (after kind n now) memo.new (record { reset = Span.None; then = Then.Visit place }) }
    ensures onward { (place : ℕ) → result ≡ Some place → GoesOn kind n memo.old (next_place heard) memo.new (Then.Visit place) }
    // No child is passed over, as by a Parallel.
    ensures visited { (place : ℕ) → result ≡ Some place → kind ≢ Kind.Parallel }
    ensures same { result ≡ None → memo.new ≡ memo.old }
{
    match heard {
        Heard::Begin { .. } => first_child(kind, memo, n),
        Heard::Answered(..) => goes_to_next(kind, memo, n, heard),
        Heard::Passed(_) => None,
    }
}
