ghost use Rattle.std.specs.Prelude.{◌≡◌, ℕ, List, Result, Ok};
ghost use Rattle.spec_world_file.specs.WorldFile.{ReadsWorld};
ghost use Rattle.spec_world.specs.Worlds.{IsValidWorld};
ghost use Rattle.spec_world.specs.declared.world.World.{World};
ghost use Rattle.spec_world_file.specs.declared.world_fault.WorldFault.{WorldFault};

/// A file reads as one world at most, or it has one first faulty line.
pub fn worlds_read_one_way()
    ensures { (bytes : List ℕ) (a b : Result World WorldFault) → ReadsWorld bytes a → ReadsWorld bytes b → a ≡ b }
{}

/// A world that a file reads as is valid.
pub fn read_worlds_are_valid()
    ensures { (bytes : List ℕ) (world : World) → ReadsWorld bytes (Ok world) → IsValidWorld world }
{}
