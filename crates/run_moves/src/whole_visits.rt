//! What the control nodes answer over all that they hear of their children in one visit.

ghost use Rattle.std.specs.Prelude.{ℕ, ◌≡◌, ◌≤◌, ◌<◌, ◌-◌, ◌+◌, ◌*◌, Bool, false, true, List, Ok, Option, length, map, take, Some, None, [], ◌∷◌};
ghost use Rattle.spec_run.specs.declared.memory.Counts.{Counts};
ghost use Rattle.spec_run.specs.declared.memory.Memo.{Memo};
ghost use Rattle.spec_run.specs.declared.memory.Memo.TheVariants.{Chosen, Counts as Counted, Index, Recoveries as Recovering, Rotation as Rotating};
ghost use Rattle.spec_run.specs.declared.memory.Memory.{Memory};
ghost use Rattle.spec_run.specs.declared.memory.Recoveries.{Recoveries};
ghost use Rattle.spec_run.specs.declared.memory.Rotation.{Rotation};
ghost use Rattle.spec_run.specs.declared.status.Answer.{Answer};
ghost use Rattle.spec_tree.specs.declared.term.Kind.{Kind};
ghost use Rattle.spec_tree.specs.declared.term.Kind.TheVariants.{Fallback, IfThenElse, Parallel, PipelineSequence, ReactiveFallback, ReactiveSequence, RecoveryNode, RoundRobin, Sequence, SequenceWithMemory, Switch, WhileDoElse};
ghost use Rattle.spec_run.specs.Done.{State, follow};
ghost use Rattle.spec_run.specs.Rules.Kinds.{rule};
ghost use Rattle.spec_run.specs.Rules.Recoveries.{recoveries_left};
ghost use Rattle.spec_run.specs.Steps.{Child, Rule};
ghost use Rattle.spec_run.specs.declared.moves.Span.TheVariants as span;
ghost use Rattle.run_moves.specs.Choices.{answers_after, branch_kept, choice_answers, choice_stops, given_up, keeps_memo};
ghost use Rattle.run_moves.specs.Decorators.Again.{last_answer};
ghost use Rattle.run_moves.specs.Navigation.{answers_in_turn, answers_round, keeps_rotation, pipeline_answer, pipeline_stops, recovery_row, recovery_stops, robin_answer};
ghost use Rattle.run_moves.specs.Rows.{fallback_answer, fallback_stops, halts_others, keeps_counts, keeps_index, last_place, parallel_answer, parallel_stops, remembers_index, sequence_answer, sequence_stops};
ghost use Rattle.run_moves.specs.Visits.{Hears, IsVisit, Told, all_say, answers_from, heard_from};

/// Where the children say so, one after the other, the visit is what they do and then what is left of the
/// rule, from whatever memories and state it began.
pub fn a_rule_hears_what_its_children_say()
    ensures { (kind : Kind) (rule rest : Rule) (told : List Told) → Hears kind rule told rest →
        (cs : List Child) (ms : List Memory) (s : State) → (all_say kind cs told ms s).answer ≡ Ok (map (λ t. t.heard) told) →
        rule cs ms s ≡ follow (all_say kind cs told ms s) (λ ms1. ms1) (λ _ ms1 s1. rest cs ms1 s1) }
{}

/// Of what all children that are left would answer, just one prefix is the list of the visit.
pub fn each_visit_has_one_list()
    ensures one { (stops : List Answer → Bool) (all : List Answer) → 1 ≤ length all →
        (k : ℕ) × (k ≤ length all) × IsVisit stops (length all) (take k all) }
    ensures no_other { (stops : List Answer → Bool) (all : List Answer) (j k : ℕ) → j ≤ length all → k ≤ length all →
        IsVisit stops (length all) (take j all) → IsVisit stops (length all) (take k all) → j ≡ k }
    ensures one_heard { (stops : List (Option Answer) → Bool) (all : List (Option Answer)) → 1 ≤ length all →
        (k : ℕ) × (k ≤ length all) × IsVisit stops (length all) (take k all) }
    ensures no_other_heard { (stops : List (Option Answer) → Bool) (all : List (Option Answer)) (j k : ℕ) → j ≤ length all →
        k ≤ length all →
        IsVisit stops (length all) (take j all) → IsVisit stops (length all) (take k all) → j ≡ k }
{}

/// A Sequence visits its children in order, from the kept index on, up to the first that answers FAILURE
/// or RUNNING. A Fallback does the same with SUCCESS and FAILURE exchanged.
pub fn sequence_and_fallback_over_a_visit()
    ensures sequence { (n now picked at : ℕ) (seen : Bool) (answers : List Answer) → IsVisit sequence_stops (n - at) answers →
        Hears Sequence (rule Sequence n (Index at seen) picked now) (answers_from at answers)
        (keeps_index (last_place at answers) (sequence_answer seen answers)) }
    ensures fallback { (n now picked at : ℕ) (seen : Bool) (answers : List Answer) → IsVisit fallback_stops (n - at) answers →
        Hears Fallback (rule Fallback n (Index at seen) picked now) (answers_from at answers)
        (keeps_index (last_place at answers) (fallback_answer seen answers)) }
{}

/// A SequenceWithMemory goes and answers like a Sequence, and keeps the index of the child that failed.
pub fn memory_over_a_visit()
    ensures { (n now picked at : ℕ) (seen : Bool) (answers : List Answer) → IsVisit sequence_stops (n - at) answers →
        Hears SequenceWithMemory (rule SequenceWithMemory n (Index at seen) picked now) (answers_from at answers)
        (remembers_index (last_place at answers) (sequence_answer seen answers)) }
{}

/// The reactive kinds begin each visit at the first child with none seen, whatever they have kept, and on
/// RUNNING reset all other children.
pub fn reactive_kinds_over_a_visit()
    ensures sequence { (n now picked : ℕ) (memo : Memo) (answers : List Answer) → IsVisit sequence_stops n answers →
        Hears ReactiveSequence (rule ReactiveSequence n memo picked now) (answers_from 0 answers)
        (halts_others (last_place 0 answers) (sequence_answer false answers)) }
    ensures fallback { (n now picked : ℕ) (memo : Memo) (answers : List Answer) → IsVisit fallback_stops n answers →
        Hears ReactiveFallback (rule ReactiveFallback n memo picked now) (answers_from 0 answers)
        (halts_others (last_place 0 answers) (fallback_answer false answers)) }
{}

/// A Parallel goes through its children in order, up to the first place at which SUCCESS or FAILURE holds.
pub fn parallel_over_a_visit()
    ensures { (n now picked : ℕ) (c : Counts) (heard : List (Option Answer)) → c.skipped ≡ 0 →
        IsVisit (λ h. parallel_stops n c h) n heard →
        Hears Parallel (rule Parallel n (Counted c) picked now) (heard_from 0 heard)
        (keeps_counts c heard (parallel_answer n c heard)) }
{}

/// A RecoveryNode visits its two children in turn, from the one at hand on: the first child up to an answer other than
/// FAILURE, the second after each FAILURE while a recovery is left, up to an answer other than SUCCESS.
pub fn recovery_over_a_visit()
    ensures attempt { (now picked : ℕ) (r : Recoveries) (answers : List Answer) → r.recovers ≡ false →
        IsVisit (λ l. recovery_stops false l) (2 * recoveries_left r + 1) answers →
        Hears RecoveryNode (rule RecoveryNode 2 (Recovering r) picked now) (answers_in_turn false answers) (recovery_row r false answers) }
    ensures recovery { (now picked : ℕ) (r : Recoveries) (answers : List Answer) → r.recovers ≡ true → r.done < r.limit →
        IsVisit (λ l. recovery_stops true l) (2 * recoveries_left r) answers →
        Hears RecoveryNode (rule RecoveryNode 2 (Recovering r) picked now) (answers_in_turn true answers) (recovery_row r true answers) }
{}

/// A PipelineSequence begins each visit at the first child with none seen, and goes through its children in order, up to
/// the first FAILURE, or the first RUNNING of the farthest child or one after it.
pub fn pipeline_over_a_visit()
    ensures { (n now picked farthest : ℕ) (seen : Bool) (answers : List Answer) → IsVisit (λ l. pipeline_stops farthest l) n answers →
        Hears PipelineSequence (rule PipelineSequence n (Index farthest seen) picked now) (answers_from 0 answers)
        (keeps_index (last_place 0 answers) (pipeline_answer farthest false answers)) }
{}

/// A RoundRobin visits its children in turn, from the one at hand on and going round, up to the first that answers
/// SUCCESS or RUNNING, and none again that has failed or was skipped since the start.
pub fn robin_over_a_visit()
    ensures { (n now picked : ℕ) (r : Rotation) (answers : List Answer) → IsVisit fallback_stops (n - r.passed) answers →
        Hears RoundRobin (rule RoundRobin n (Rotating r) picked now) (answers_round n r.at answers)
        (keeps_rotation n r answers (robin_answer n r.skipped answers)) }
{}

/// A SwitchN visits the child that is selected alone, and passes its answer on. Where another one was chosen before and is
/// RUNNING, this is reset first.
pub fn switch_over_a_visit()
    ensures { (cases n now picked : ℕ) (kept : Option ℕ) (a : Answer) →
        Hears (Switch cases) (rule (Switch cases) n (Chosen kept) picked now) (answers_after (given_up kept picked) picked a ∷ [])
        (keeps_memo (Chosen (Some picked)) a) }
{}

/// An IfThenElse visits the branch that it has chosen alone. Where none is chosen it visits its condition, the first child,
/// and then the second on SUCCESS, or the third, where there is one, on FAILURE. It passes the last answer on, and a branch
/// that is RUNNING stays chosen.
pub fn if_then_else_over_a_visit()
    ensures branch { (n now picked place : ℕ) (a : Answer) →
        Hears IfThenElse (rule IfThenElse n (Chosen (Some place)) picked now) (answers_after span.None place a ∷ [])
        (keeps_memo (Chosen (Some place)) a) }
    ensures condition { (n now picked : ℕ) (answers : List Answer) → IsVisit (λ l. choice_stops n l) 2 answers →
        Hears IfThenElse (rule IfThenElse n (Chosen None) picked now) (choice_answers (λ _. span.None) answers)
        (keeps_memo (Chosen (branch_kept answers)) (last_answer answers)) }
{}

/// A WhileDoElse begins each visit with its condition, the first child, and goes on as an IfThenElse does; before it visits
/// a branch it resets all other children. It passes the last answer on.
pub fn while_do_else_over_a_visit()
    ensures { (n now picked : ℕ) (memo : Memo) (answers : List Answer) → IsVisit (λ l. choice_stops n l) 2 answers →
        Hears WhileDoElse (rule WhileDoElse n memo picked now) (choice_answers (λ place. span.AllBut place) answers)
        (keeps_memo memo (last_answer answers)) }
{}
