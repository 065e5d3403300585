ghost use Rattle.std.specs.Prelude.{◌≡◌, IfOk};

use base_texts::NoMemory;
use spec_script::Value;
use std::alloc::Global;

/// What a port of a node is given, its key resolved to a slot of the blackboard.
#[derive(Debug, Drop)]
pub enum Source {
    /// The port is not given.
    Absent,
    Lit(Value),
    /// The value of this slot, where it has one.
    Slot(u32),
}

impl Source {
    /// An equal source. `NoMemory` where an allocation fails.
    pub(crate) fn copy(&self, alloc: Global) -> Result<Source, NoMemory>
        ensures { IfOk result (λ copied. copied ≡ self.now) }
    {
        match self {
            Source::Absent => Ok(Source::Absent),
            Source::Lit(value) => Ok(Source::Lit(value.copy(alloc)?)),
            Source::Slot(slot) => Ok(Source::Slot(*slot)),
        }
    }
}
