ghost use Rattle.std.specs.Prelude.{◌≡◌, ◌≤◌, ℕ, ℤ, List, length};
ghost use Rattle.spec_script.specs.declared.cells.Seen.{Seen};
ghost use Rattle.spec_run.specs.declared.leaf.Instance.{Instance};
ghost use Rattle.spec_run.specs.declared.leaf.Phase.{Phase};
ghost use Rattle.spec_world.specs.declared.world.Fact.{Fact};
ghost use Rattle.spec_world.specs.declared.world.Row.{Row};
ghost use Rattle.spec_run.specs.Leaf.{Rule, leaf_rule, padded, rule_answer, start_of};
ghost use Rattle.base_tables.specs.Outputs.{since_after};
ghost use Rattle.spec_world.specs.Runnable.{IsRunnableRow};
ghost use Rattle.run_driver.specs.Places.{CanBeReady};

/// After each call an instance is held exactly where its leaf is running, since the time of its
/// start, and there are as many facts as before.
pub fn calls_keep()
    ensures held { (rule : Rule) (phase : Phase) (instance : Instance) (inputs : List Seen) (facts : List ℤ) (now : ℕ) →
        (rule_answer rule phase instance inputs facts now).instance.since ≡
        since_after (rule_answer rule phase instance inputs facts now).reply (start_of phase instance now) instance.since }
    ensures facts { (rule : Rule) (phase : Phase) (instance : Instance) (inputs : List Seen) (facts : List ℤ) (now : ℕ) →
        length (rule_answer rule phase instance inputs facts now).facts ≡ length facts }
{}

/// Inputs after the last port may be left out: they are absent.
pub fn inputs_may_be_left_out()
    ensures { (names : List Fact) (row : Row) (phase : Phase) (instance : Instance) (inputs : List Seen) (facts : List ℤ) (now : ℕ) →
        leaf_rule names row phase instance (padded inputs) facts now ≡ leaf_rule names row phase instance inputs facts now }
{}

/// Each row of a world that can be run can be made ready.
pub fn rows_can_be_ready()
    ensures { (facts : List Fact) (rows : List Row) (row : Row) →
        length facts ≤ 1024 → IsRunnableRow facts rows row → CanBeReady facts row }
{}
