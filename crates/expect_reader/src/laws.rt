//! The law of files of expectations.

ghost use Rattle.std.specs.Prelude.{◌≡◌, ℕ, List, Result};
ghost use Rattle.spec_tree.specs.declared.term.Tree.{Tree};
ghost use Rattle.spec_world.specs.declared.world.World.{World};
ghost use Rattle.spec_expect.specs.declared.expect_fault.ExpectFault.{ExpectFault};
ghost use Rattle.spec_expect.specs.declared.expectation.Expected.{Expected};
ghost use Rattle.spec_expect.specs.ExpectFile.{ReadsExpected};

/// A file reads as the same expectations of a tree in a world each time, or it has one first faulty line.
pub fn expectations_read_one_way()
    ensures { (tree : Tree) (world : World) (bytes : List ℕ) (a b : Result (List Expected) ExpectFault) →
        ReadsExpected tree world bytes a → ReadsExpected tree world bytes b → a ≡ b }
{}
