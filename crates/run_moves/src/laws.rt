//! Where the rounds of the Sequence and Fallback kinds begin, and what they keep.

ghost use Rattle.std.specs.Prelude.{ℕ, ◌≡◌, ◌<◌, Bool, true, false};
ghost use Rattle.spec_run.specs.declared.memory.Memo.{Memo};
ghost use Rattle.spec_run.specs.declared.memory.Memo.TheVariants.{Index};
ghost use Rattle.spec_run.specs.declared.moves.Heard.TheVariants.{Answered};
ghost use Rattle.spec_run.specs.declared.moves.Span.TheVariants.{From};
ghost use Rattle.spec_run.specs.declared.status.Answer.TheVariants.{Running, Failure};
ghost use Rattle.spec_tree.specs.declared.term.Kind.TheVariants.{Sequence, SequenceWithMemory, ReactiveSequence, ReactiveFallback};
ghost use Rattle.base_tables.specs.Moves.{after};
ghost use Rattle.spec_run.specs.Rules.Kinds.{rule};
ghost use Rattle.spec_run.specs.Steps.{keep, over, reset, visit};

/// A Sequence and a SequenceWithMemory begin a visit at the child whose index they have kept, and
/// the reactive kinds at the first child, whatever they have kept.
pub fn rounds_begin_at_the_kept_child()
    ensures sequence { (n now picked at : ℕ) (seen : Bool) → at < n → rule Sequence n (Index at seen) picked now ≡
        visit at (λ a. after Sequence n now (Index at seen) (Answered at a)) }
    ensures with_memory { (n now picked at : ℕ) (seen : Bool) → at < n → rule SequenceWithMemory n (Index at seen) picked now ≡
        visit at (λ a. after SequenceWithMemory n now (Index at seen) (Answered at a)) }
    ensures reactive { (n now picked : ℕ) (memo : Memo) → 0 < n → rule ReactiveSequence n memo picked now ≡
        visit 0 (λ a. after ReactiveSequence n now (Index 0 false) (Answered 0 a)) }
    ensures reactive_fallback { (n now picked : ℕ) (memo : Memo) → 0 < n → rule ReactiveFallback n memo picked now ≡
        visit 0 (λ a. after ReactiveFallback n now (Index 0 false) (Answered 0 a)) }
{}

/// A Sequence keeps the index of a child that answers RUNNING, and nothing on FAILURE. A
/// SequenceWithMemory keeps the index of a child that answers FAILURE as well.
pub fn rounds_keep_an_index()
    ensures running { (n now at : ℕ) (memo : Memo) → after Sequence n now memo (Answered at Running) ≡ keep Running (Index at true) }
    ensures failure { (n now at : ℕ) (memo : Memo) → after Sequence n now memo (Answered at Failure) ≡ over Failure }
    ensures with_memory { (n now at : ℕ) (memo : Memo) →
        after SequenceWithMemory n now memo (Answered at Running) ≡ keep Running (Index at true) }
    ensures memory_of_failure { (n now at : ℕ) (memo : Memo) → after SequenceWithMemory n now memo (Answered at Failure) ≡
        reset (From at) (keep Failure (Index at false)) }
{}
