ghost use Rattle.std.specs.Prelude.{◌≡◌, ◌&&◌};
ghost use Rattle.spec_dead.specs.Guards.{answers_after, before_rule, constant_of, with_guard, may_be};

use base_texts::Shared;
use spec_dead::{Answers, Guarding};
use spec_run::Answer;
use spec_script::{Expr, Script, Stmt};
use spec_tree::Guards;

/// The number that a guard always gives: there is one where its script is this number and nothing
/// else.
fn constant_of(guard: &Script) -> Option<i64>
    ensures { result ≡ constant_of guard.now.stmts }
{
    match guard.stmts.list() {
        [Stmt::Plain(Expr::Num(n))] => Some(*n),
        _ => None,
    }
}

/// Whether a condition may have this truth, where it always gives this number, or may give any.
fn may_be(truth: bool, constant: Option<i64>) -> bool
    ensures { result ≡ may_be truth constant }
{
    match constant {
        None => true,
        Some(n) => { if truth { n != 0 } else { n == 0 } }
    }
}

/// A guard that gives its answer at this truth, before what stands after it.
fn with_guard(
    guard: &Option<Shared<Script>>,
    truth: bool,
    answer: Answer,
    after: Guarding,
) -> Guarding
    ensures { result ≡ with_guard guard.now truth answer after }
{
    match guard {
        None => after,
        Some(script) => {
            let constant = constant_of(script.get());
            let goes_on = may_be(!truth, constant);
            let own = Answers::only(answer).only_if(may_be(truth, constant));
            Guarding {
                answers: own.or(after.answers.only_if(goes_on)),
                goes_on: goes_on && after.goes_on,
            }
        }
    }
}

/// What the guards of a node may do, in the order in which they are tried.
pub(crate) fn before_rule(guards: &Guards) -> Guarding
    ensures { result ≡ before_rule guards.now }
{
    let rule = Guarding {
        answers: Answers::none(),
        goes_on: true,
    };
    let after = with_guard(&guards.while_true, false, Answer::Skipped, rule);
    let after = with_guard(&guards.skip_if, true, Answer::Skipped, after);
    let after = with_guard(&guards.success_if, true, Answer::Success, after);
    with_guard(&guards.failure_if, true, Answer::Failure, after)
}
