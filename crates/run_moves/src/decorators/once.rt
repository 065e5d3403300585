ghost use Rattle.std.specs.Prelude.{◌≡◌, ℕ};
ghost use Rattle.base_tables.specs.Moves.{GoesOn, hears_answer, makes, run_once_on};
ghost use Rattle.spec_run.specs.Rules.OneVisit.{mark_of, run_once, run_once_after};

use crate::steps::{over, reset_and_give, visit};
use spec_run::{Answer, Memo, Move, Span};
use spec_tree::Kind;

/// The mark of a RunOnce: the answer of its one run, where it has ended.
pub(crate) fn mark_kept(memo: Memo) -> Option<Answer>
    ensures { result ≡ mark_of memo }
{
    match memo {
        Memo::Finished(mark) => mark,
        _ => None,
    }
}

/// Begins a visit of a RunOnce: without a mark it visits its child; with one it answers it, or
/// SKIPPED where 1 is picked.
pub(crate) fn run_once_begun(memo: &mut Memo, mark: Option<Answer>, picked: u32) -> Move
    ensures next { run_once mark picked ≡ makes hears_answer (λ m heard. run_once_on heard) memo.new result }
    ensures onward { (old : Memo) → GoesOn Kind.RunOnce 1 old 0 memo.new result.then }
{
    let begun = match mark {
        None => visit(0),
        Some(answer) if picked == 0 => reset_and_give(Span::None, answer),
        Some(_) => reset_and_give(Span::None, Answer::Skipped),
    };
    *memo = Memo::Finished(mark);
    begun
}

/// The move of a RunOnce after its child's answer.
pub(crate) fn run_once_answered(memo: &mut Memo, answer: Answer) -> Move
    ensures next { run_once_after answer ≡ makes hears_answer (λ m heard. run_once_on heard) memo.new result }
    ensures onward { (old : Memo) (first : ℕ) → GoesOn Kind.RunOnce 1 old first memo.new result.then }
{
    match answer {
        Answer::Running => {
            *memo = Memo::Finished(None);
            reset_and_give(Span::None, answer)
        }
        Answer::Skipped => over(memo, answer),
        _ => {
            *memo = Memo::Finished(Some(answer));
            reset_and_give(Span::All, answer)
        }
    }
}
