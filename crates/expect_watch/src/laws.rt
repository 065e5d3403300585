//! The law of expectations.

ghost use Rattle.std.specs.Prelude.{◌≡◌, ◌++◌, ℤ, List, false, true};
ghost use Rattle.expect_watch.specs.Over.{IsOver};
ghost use Rattle.spec_expect.specs.declared.expectation.Expectation.{Expectation};
ghost use Rattle.spec_expect.specs.Met.{is_lost, meets};
ghost use Rattle.spec_expect.specs.Stories.{Sight};
ghost use Rattle.spec_world.specs.declared.world.Fact.{Fact};

/// What is lost after some events is met by no run that begins with them.
pub fn what_is_lost_is_never_met()
    ensures { (names : List Fact) (facts : List ℤ) (e : Expectation) (past more : List Sight) → IsOver names e
        → is_lost names e (record { facts = facts; sights = past }) ≡ true
        → meets names e (record { facts = facts; sights = past ++ more }) ≡ false }
{}
