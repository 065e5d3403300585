//! What a Retry and a Repeat answer over all answers of their child in one visit, and how often a RateController visits
//! its child.

ghost use Rattle.std.specs.Prelude.{ℕ, ◌≡◌, ◌≢◌, ◌<◌, ◌-◌, ◌*◌, List, [], ◌∷◌, None, Some, false, true};
ghost use Rattle.spec_run.specs.declared.memory.Memo.TheVariants.{Pace as Paced, Turns as Turned};
ghost use Rattle.spec_run.specs.declared.memory.Pace.{Pace};
ghost use Rattle.spec_run.specs.declared.memory.Turns.{Turns};
ghost use Rattle.spec_run.specs.declared.moves.Span.TheVariants.{All};
ghost use Rattle.spec_run.specs.declared.status.Answer.{Answer};
ghost use Rattle.spec_run.specs.declared.status.Answer.TheVariants.{Failure, Running, Success};
ghost use Rattle.spec_tree.specs.declared.term.Kind.TheVariants.{RateController, Repeat, Retry};
ghost use Rattle.spec_run.specs.Rules.Kinds.{rule};
ghost use Rattle.spec_run.specs.Rules.Rates.{is_due, rate_after};
ghost use Rattle.spec_run.specs.Rules.Turns.{limit_of};
ghost use Rattle.spec_run.specs.Steps.{keep, reset};
ghost use Rattle.run_moves.specs.Visits.{Hears, IsVisit};
ghost use Rattle.run_moves.specs.Decorators.Again.{answers_of_child, is_other, keeps_turns, last_answer};

/// A Retry visits its child again after each FAILURE, as often as its number says in all, and gives the
/// last answer. A Repeat does the same with SUCCESS.
pub fn a_child_is_visited_up_to_the_number()
    ensures retry { (now picked limit : ℕ) (t : Turns) (answers : List Answer) →
        limit_of t.limit ≡ Some limit → t.done < limit → IsVisit (λ l. is_other Failure l) (limit - t.done) answers →
        Hears Retry (rule Retry 1 (Turned t) picked now) (answers_of_child answers)
        (keeps_turns Failure t answers (last_answer answers)) }
    ensures repeat { (now picked limit : ℕ) (t : Turns) (answers : List Answer) →
        limit_of t.limit ≡ Some limit → t.done < limit → IsVisit (λ l. is_other Success l) (limit - t.done) answers →
        Hears Repeat (rule Repeat 1 (Turned t) picked now) (answers_of_child answers)
        (keeps_turns Success t answers (last_answer answers)) }
{}

/// With the number -1 they visit their child once in a visit. Where it would be visited again, it is reset,
/// RUNNING is given and no count is kept; any other answer is theirs.
pub fn a_child_without_a_number_is_visited_once()
    ensures retry { (now picked : ℕ) (t : Turns) → limit_of t.limit ≡ None →
        Hears Retry (rule Retry 1 (Turned t) picked now) (answers_of_child (Failure ∷ [])) (reset All (keep Running (Turned t))) }
    ensures retry_other { (now picked : ℕ) (t : Turns) (a : Answer) → limit_of t.limit ≡ None → a ≢ Failure →
        Hears Retry (rule Retry 1 (Turned t) picked now) (answers_of_child (a ∷ [])) (keeps_turns Failure t (a ∷ []) a) }
    ensures repeat { (now picked : ℕ) (t : Turns) → limit_of t.limit ≡ None →
        Hears Repeat (rule Repeat 1 (Turned t) picked now) (answers_of_child (Success ∷ [])) (reset All (keep Running (Turned t))) }
    ensures repeat_other { (now picked : ℕ) (t : Turns) (a : Answer) → limit_of t.limit ≡ None → a ≢ Success →
        Hears Repeat (rule Repeat 1 (Turned t) picked now) (answers_of_child (a ∷ [])) (keeps_turns Success t (a ∷ []) a) }
{}

/// A RateController visits its child once in a visit at which it is due, and goes on by its answer. Else it visits none,
/// answers RUNNING and leaves its pace as it is.
pub fn a_child_is_visited_where_it_is_due()
    ensures due { (now picked : ℕ) (p : Pace) (a : Answer) → is_due p now ≡ true →
        Hears RateController (rule RateController 1 (Paced p) picked now) (answers_of_child (a ∷ [])) (rate_after p now a) }
    ensures early { (now picked : ℕ) (p : Pace) → is_due p now ≡ false →
        Hears RateController (rule RateController 1 (Paced p) picked now) [] (keep Running (Paced p)) }
{}

/// From a SUCCESS of its child on, no visit before a period has passed visits the child: the milliseconds since then
/// times the thousandths of a hertz are below a million. It answers RUNNING and keeps that moment.
pub fn a_period_passes_between_visits()
    ensures { (now picked later : ℕ) (p : Pace) → (later - now) * p.rate < 1000000 →
        rate_after p now Success ≡ reset All (keep Success (Paced (record p { first = now; due = false }))) ×
        Hears RateController (rule RateController 1 (Paced (record p { first = now; due = false })) picked later) []
        (keep Running (Paced (record p { first = now; due = false }))) }
{}
