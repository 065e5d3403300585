ghost use Rattle.std.specs.Prelude.{◌≡◌, IfOk};

use base_texts::{NoMemory, Txt};
use std::alloc::Global;

/// What an entry of a blackboard holds, and what a script gives.
#[derive(Debug, Drop)]
pub enum Value {
    Int(i64),
    Text(Txt),
}

impl Value {
    /// An equal value. `NoMemory` where an allocation fails.
    pub fn copy(&self, alloc: Global) -> Result<Value, NoMemory>
        ensures { IfOk result (λ value. value ≡ self.now) }
    {
        match self {
            Value::Int(n) => Ok(Value::Int(*n)),
            Value::Text(t) => Ok(Value::Text(t.copy(alloc)?)),
        }
    }
}
