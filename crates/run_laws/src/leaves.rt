ghost use Rattle.std.specs.Prelude.{◌≡◌, List, Some};
ghost use Rattle.spec_run.specs.declared.fault.Cause.{Cause};
ghost use Rattle.spec_run.specs.declared.leaf.Reply.TheVariants.{Broken};
ghost use Rattle.spec_run.specs.declared.memory.Memory.{Memory};
ghost use Rattle.spec_run.specs.declared.status.Status.{Status};
ghost use Rattle.spec_world.specs.declared.world.Row.{Row};
ghost use Rattle.spec_run.specs.Done.{State};
ghost use Rattle.spec_run.specs.Leaves.{leaf_answered, leaf_call};
ghost use Rattle.spec_run.specs.Sites.{Site};

/// A call of a leaf's driver that ends with a fault changes no entry of the board, no fact and no
/// instance.
pub fn a_broken_call_changes_nothing()
    ensures { (site : Site) (row : Row) (status : Status) (ms : List Memory) (s : State) (cause : Cause) →
        (leaf_answered site row status s).reply ≡ Broken cause →
        (leaf_call (Some row) site status ms s).state ≡ s }
{}
