ghost use Rattle.std.specs.Prelude.{ℕ, ◌≡◌, ◌-◌, ◌+◌, ◌<◌, true};
ghost use Rattle.base_tables.specs.Moves.{GoesOn, hears_answer, makes, pipeline_on};
ghost use Rattle.spec_run.specs.Rules.Pipelines.{pipeline, pipeline_end, pipeline_runs};
ghost use Rattle.spec_run.specs.Steps.{Rule};

use crate::rounds::{index_kept, seen_kept};
use crate::steps::{over, reset_and_give, visit};
use spec_run::{Answer, Heard, Memo, Move, Span};
use spec_tree::Kind;

/// The move of a PipelineSequence after the answer of the child at this place.
pub(crate) fn pipeline_answered(memo: &mut Memo, n: u32, place: u32, answer: Answer) -> Move
    requires { place < n }
    ensures next { pipeline_on n memo.old (Heard.Answered place answer) ≡ makes hears_answer (pipeline_on n) memo.new result }
    ensures onward { (old : Memo) → GoesOn Kind.PipelineSequence n old (place + 1) memo.new result.then }
{
    let farthest = index_kept(*memo);
    let seen = seen_kept(*memo);
    match answer {
        Answer::Success => pipeline_to(memo, farthest, n, place + 1, true),
        Answer::Skipped => pipeline_to(memo, farthest, n, place + 1, seen),
        Answer::Failure => over(memo, Answer::Failure),
        Answer::Running => pipeline_runs_on(memo, farthest, n, place),
    }
}

/// The move after RUNNING of the child at this place: it goes on where this one stands before the farthest one, which
/// it is else.
fn pipeline_runs_on(memo: &mut Memo, farthest: u32, n: u32, place: u32) -> Move
    requires { place < n }
    ensures next { pipeline_runs farthest place (pipeline farthest (n - (place + 1)) (place + 1) true) ≡
        makes hears_answer (pipeline_on n) memo.new result }
    ensures onward { (old : Memo) → GoesOn Kind.PipelineSequence n old (place + 1) memo.new result.then }
{
    if place < farthest {
        pipeline_to(memo, farthest, n, place + 1, true)
    } else {
        *memo = Memo::Index {
            at: place,
            seen: true,
        };
        reset_and_give(Span::None, Answer::Running)
    }
}

/// The move of a PipelineSequence that goes on at this place, or ends after its last child. `farthest` is the farthest
/// child that has answered RUNNING since the start.
pub(crate) fn pipeline_to(memo: &mut Memo, farthest: u32, n: u32, at: u32, seen: bool) -> Move
    ensures next { pipeline farthest (n - at) at seen ≡ makes hears_answer (pipeline_on n) memo.new result }
    ensures onward { (old : Memo) → GoesOn Kind.PipelineSequence n old at memo.new result.then }
{
    if at < n {
        *memo = Memo::Index { at: farthest, seen };
        visit(at)
    } else {
        end(memo, seen)
    }
}

/// The move after the last child: SUCCESS, or SKIPPED where all were skipped in this visit.
fn end(memo: &mut Memo, seen: bool) -> Move
    ensures next { (hear : ℕ → (Heard → Rule) → Rule) (go : Memo → Heard → Rule) → pipeline_end seen ≡ makes hear go memo.new result }
    ensures onward { (old : Memo) (n place : ℕ) → GoesOn Kind.PipelineSequence n old place memo.new result.then }
{
    if seen {
        over(memo, Answer::Success)
    } else {
        over(memo, Answer::Skipped)
    }
}
