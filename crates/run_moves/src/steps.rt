ghost use Rattle.std.specs.Prelude.{◌≡◌, ℕ};
ghost use Rattle.base_tables.specs.Moves.{makes};
ghost use Rattle.spec_run.specs.Rules.Answers.{pass_on};
ghost use Rattle.spec_run.specs.Steps.{Rule};

use spec_run::{Answer, Heard, Memo, Move, Span, Then};

/// A visit of the child at this place.
pub fn visit(place: u32) -> Move
    ensures { result ≡ record { reset = Span.None; then = Then.Visit place } }
{
    reset_and_visit(Span::None, place)
}

/// A visit of the child at this place, after the resets of a span.
pub fn reset_and_visit(reset: Span, place: u32) -> Move
    ensures { result ≡ record { reset = reset; then = Then.Visit place } }
{
    Move {
        reset,
        then: Then::Visit(place),
    }
}

/// The node's answer, after the resets of a span.
pub fn reset_and_give(reset: Span, answer: Answer) -> Move
    ensures { result ≡ record { reset = reset; then = Then.Give answer } }
{
    Move {
        reset,
        then: Then::Give(answer),
    }
}

/// The node has ended: all children are reset, the memo is cleared, and this is the answer.
#[inline(always)]
pub fn over(memo: &mut Memo, answer: Answer) -> Move
    ensures memo { memo.new ≡ Memo.Nothing }
    ensures gives { result ≡ record { reset = Span.All; then = Then.Give answer } }
{
    *memo = Memo::Nothing;
    reset_and_give(Span::All, answer)
}

/// The node passes this answer on: RUNNING keeps the memo, and with any other answer the node has
/// ended.
#[inline(always)]
pub fn pass(memo: &mut Memo, answer: Answer) -> Move
    ensures next { (hear : ℕ → (Heard → Rule) → Rule) (go : Memo → Heard → Rule) → pass_on memo.old answer ≡ makes hear go memo.new result }
    ensures gives { result.then ≡ Then.Give answer }
{
    match answer {
        Answer::Running => reset_and_give(Span::None, answer),
        _ => over(memo, answer),
    }
}
