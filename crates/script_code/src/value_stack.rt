ghost use Rattle.std.specs.Prelude.{◌≡◌, ◌+◌, ◌<◌, [], ◌∷◌, Ok, length};

use crate::operators::{as_int, binary_values, unary_value};
use base_texts::Stop;
use smallvec::SmallVec;
use spec_script::{BinOp, ExecFault, UnOp, Value};
use std::alloc::Global;
use std::marker::Model;

/// A value on a stack.
#[derive(Drop)]
struct Held {
    value: Value,
}

impl Default for Held {
    /// What stands in a place that holds no value yet.
    fn default() -> Held {
        Held {
            value: Value::Int(0),
        }
    }
}

/// A stack of 65 places for values. Contracts see the list of them, the topmost first.
#[derive(Drop)]
pub struct ValueStack {
    values: SmallVec<Held, 65>,
}

impl Model for ValueStack {
    ghost use Rattle.std.specs.Prelude.{◌≡◌, ◌≤◌, List, length, map, reverse};
    ghost use Rattle.spec_script.specs.declared.value.Value.{Value as Content};

    ghost Value = { List Content };

    ghost view = { λ s. reverse (map (λ h. h.value) s.values.items) };

    ghost invariant = { λ s. (s.values.capacity ≡ 65) × (length s.values.items ≤ 65) };
}

impl ValueStack {
    /// A stack without values.
    pub fn empty(alloc: Global) -> ValueStack
        ensures { result ≡ [] }
    {
        ValueStack {
            values: SmallVec::new(alloc),
        }
    }

    /// Where texts are copied.
    pub fn allocator(&self) -> Global {
        *self.values.allocator()
    }

    /// Puts a value on top.
    pub fn put(&mut self, value: Value)
        requires { length self.old < 65 }
        ensures { self.new ≡ value ∷ self.old }
    {
        self.values.push_reserved(Held { value });
    }

    /// Takes the topmost value.
    pub fn take(&mut self) -> Value
        requires { 0 < length self.old }
        ensures taken { self.old ≡ result ∷ self.new }
        ensures room { length self.new < 65 }
    {
        match self.values.pop() {
            Some(held) => held.value,
            None => unreachable!(),
        }
    }
}
