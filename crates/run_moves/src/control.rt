ghost use Rattle.std.specs.Prelude.{ℕ, IsTrue, ◌≡◌, ◌+◌, ◌<◌, ◌≢◌, Some};
ghost use Rattle.base_tables.specs.BuiltInRows.{is_control};
ghost use Rattle.base_tables.specs.Moves.{Fits, FitsChild, FitsStart, GoesOn, after, hears, makes, next_place, rest};
ghost use Rattle.spec_run.specs.Rules.Kinds.{rule};
ghost use Rattle.run_moves.specs.Rounds.{next_child};

use crate::choices::{
    chosen_kept, if_then_else_answered, if_then_else_begun, switch_to, while_do_else_answered,
};
use crate::parallels::{counts_kept, parallel_answered, parallel_on, parallel_to};
use crate::pipelines::{pipeline_answered, pipeline_to};
use crate::recoveries::{recoveries_kept, recovery_answered, recovery_begun};
use crate::robins::{robin_answered, robin_begun, rotation_kept};
use crate::rounds::{Manner, go_on, go_to, index_kept, next_in_round, seen_kept};
use crate::steps::{pass, visit};
use spec_run::{Answer, Heard, Memo, Move, Span, Then};
use spec_tree::Kind;

/// The next move of a control node with `n` children: at the beginning of a visit, and after each
/// answer of a child. The memo is the one with which the visit begins, or that of the move before,
/// and becomes the one after this move.
pub fn control_next(kind: Kind, memo: &mut Memo, n: u32, heard: Heard) -> Move
    requires control { IsTrue (is_control kind) }
    requires fits { Fits kind n memo.old heard }
    // What is still to come of the node's rule is this move, followed by what is to come after it.
    ensures next { (now : ℕ) → rest kind n now memo.old heard ≡ makes (hears kind) (after kind n now) memo.new result }
    ensures onward { GoesOn kind n memo.old (next_place heard) memo.new result.then }
{
    match heard {
        Heard::Begin { picked } => begin(kind, memo, n, picked),
        Heard::Answered(place, answer) => answered(kind, memo, n, place, answer),
        Heard::Passed(place) => parallel_on(memo, counts_kept(*memo), n, place + 1),
    }
}

/// The first move of a visit. `picked` is the place of the child that a Switch selects.
fn begin(kind: Kind, memo: &mut Memo, n: u32, picked: u32) -> Move
    requires control { IsTrue (is_control kind) }
    requires fits { FitsStart kind n memo.old picked }
    ensures next { (now : ℕ) → rule kind n memo.old picked now ≡ makes (hears kind) (after kind n now) memo.new result }
    ensures onward { GoesOn kind n memo.old 0 memo.new result.then }
{
    let index = index_kept(*memo);
    let seen = seen_kept(*memo);
    match kind {
        Kind::Sequence => go_to(memo, Answer::Success, Manner::Keeps, index, seen, n),
        Kind::Fallback => go_to(memo, Answer::Failure, Manner::Keeps, index, seen, n),
        Kind::SequenceWithMemory => go_to(memo, Answer::Success, Manner::Remembers, index, seen, n),
        Kind::ReactiveSequence => go_to(memo, Answer::Success, Manner::Restarts, 0, false, n),
        Kind::ReactiveFallback => go_to(memo, Answer::Failure, Manner::Restarts, 0, false, n),
        Kind::Parallel => parallel_to(memo, counts_kept(*memo), n, 0),
        Kind::Switch(_) => switch_to(memo, chosen_kept(*memo), picked),
        Kind::IfThenElse => if_then_else_begun(memo, chosen_kept(*memo), n),
        Kind::WhileDoElse => visit(0),
        Kind::RecoveryNode => recovery_begun(memo, recoveries_kept(*memo)),
        Kind::PipelineSequence => pipeline_to(memo, index, n, 0, false),
        Kind::RoundRobin => robin_begun(memo, rotation_kept(*memo), n),
        _ => unreachable!(),
    }
}

/// The move after the answer of the child at this place.
fn answered(kind: Kind, memo: &mut Memo, n: u32, place: u32, answer: Answer) -> Move
    requires control { IsTrue (is_control kind) }
    requires there { place < n }
    requires fits { FitsChild kind n memo.old place }
    ensures next { (now : ℕ) → after kind n now memo.old (Heard.Answered place answer)
        ≡ makes (hears kind) (after kind n now) memo.new result }
    ensures onward { GoesOn kind n memo.old (place + 1) memo.new result.then }
{
    match kind {
        Kind::Sequence => go_on(Answer::Success, Manner::Keeps, memo, n, place, answer),
        Kind::Fallback => go_on(Answer::Failure, Manner::Keeps, memo, n, place, answer),
        Kind::SequenceWithMemory => {
            go_on(Answer::Success, Manner::Remembers, memo, n, place, answer)
        }
        Kind::ReactiveSequence => go_on(Answer::Success, Manner::Restarts, memo, n, place, answer),
        Kind::ReactiveFallback => go_on(Answer::Failure, Manner::Restarts, memo, n, place, answer),
        Kind::Parallel => parallel_answered(memo, n, place, answer),
        Kind::Switch(_) => pass(memo, answer),
        Kind::IfThenElse => if_then_else_answered(memo, n, place, answer),
        Kind::WhileDoElse => while_do_else_answered(memo, n, place, answer),
        Kind::RecoveryNode => recovery_answered(memo, recoveries_kept(*memo), answer),
        Kind::PipelineSequence => pipeline_answered(memo, n, place, answer),
        Kind::RoundRobin => robin_answered(memo, n, rotation_kept(*memo), answer),
        _ => unreachable!(),
    }
}

/// The place of the child that comes next, where a Sequence or Fallback kind with `n` children goes
/// on to it after the answer of the child before, as most nodes do after most answers. The memo
/// becomes the one after that move. It says what `control_next` says of such a move, and costs
/// less. After the last child, after an answer at which the round ends, and for other kinds there
/// is none, and the memo stays.
#[inline(always)]
pub fn goes_to_next(kind: Kind, memo: &mut Memo, n: u32, heard: Heard) -> Option<u32>
    requires fits { Fits kind n memo.old heard }
    ensures child { result ≡ next_child kind n heard }
    ensures next { (place now : ℕ) → result ≡ Some place → rest kind n now memo.old heard ≡
        makes (hears kind) (after kind n now) memo.new (record { reset = Span.None; then = Then.Visit place }) }
    ensures onward { (place : ℕ) → result ≡ Some place → GoesOn kind n memo.old (next_place heard) memo.new (Then.Visit place) }
    // No child is left out, as a Parallel does.
    ensures visited { (place : ℕ) → result ≡ Some place → kind ≢ Kind.Parallel }
    ensures same { result ≡ None → memo.new ≡ memo.old }
{
    match heard {
        Heard::Answered(place, answer) => next_after(kind, memo, n, place, answer),
        _ => None,
    }
}

/// The place of the child that comes next after the answer of the child at this place, where a
/// Sequence or Fallback kind goes on to it.
#[inline(always)]
fn next_after(kind: Kind, memo: &mut Memo, n: u32, place: u32, answer: Answer) -> Option<u32>
    requires there { place < n }
    requires fits { FitsChild kind n memo.old place }
    ensures child { result ≡ next_child kind n (Heard.Answered place answer) }
    ensures next { (next now : ℕ) → result ≡ Some next → after kind n now memo.old (Heard.Answered place answer) ≡
        makes (hears kind) (after kind n now) memo.new (record { reset = Span.None; then = Then.Visit next }) }
    ensures onward { (next : ℕ) → result ≡ Some next → GoesOn kind n memo.old (place + 1) memo.new (Then.Visit next) }
    ensures visited { (next : ℕ) → result ≡ Some next → kind ≢ Kind.Parallel }
    ensures same { result ≡ None → memo.new ≡ memo.old }
{
    match kind {
        Kind::Sequence => next_in_round(Answer::Success, memo, n, place, answer),
        Kind::Fallback => next_in_round(Answer::Failure, memo, n, place, answer),
        Kind::SequenceWithMemory => next_in_round(Answer::Success, memo, n, place, answer),
        Kind::ReactiveSequence => next_in_round(Answer::Success, memo, n, place, answer),
        Kind::ReactiveFallback => next_in_round(Answer::Failure, memo, n, place, answer),
        _ => None,
    }
}
