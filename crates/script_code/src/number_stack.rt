ghost use Rattle.std.specs.Prelude.{◌≡◌, ℕ, ◌<◌, ◌≤◌, [], ◌∷◌, false, Result, length};
ghost use Rattle.spec_script.specs.declared.value.Value.{Value};
ghost use Rattle.spec_script.specs.declared.value.Value.TheVariants.{Int};
ghost use Rattle.spec_script.specs.declared.fault.ExecFault.{ExecFault as Fault};
ghost use Rattle.script_code.specs.IntEntries.{IsAnswered};
ghost use Rattle.script_code.specs.Meeting.{gives_text};
ghost use Rattle.script_code.specs.Stacks.{Leaves};

use crate::operators::{binary_ints, unary_int};
use crate::stack::Stack;
use base_texts::{Stop, Txt};
use spec_script::{BinOp, ExecFault, UnOp};
use std::marker::Model;

/// A stack for numbers, over the places that it is lent. Contracts see the list of them, the topmost
/// first.
#[derive(Drop)]
pub struct NumberStack<'a, const N: usize> {
    height: usize,
    /// The topmost.
    top: i64,
    /// Those below it, from the second place on.
    places: &'a mut [i64; N],
}

impl<'a, const N: usize> Model for NumberStack<'a, N> {
    ghost use Rattle.std.specs.Prelude.{◌≡◌, ◌≤◌, List, ◌∷◌, ℤ, length, reverse, take};

    ghost Value = { List ℤ };

    ghost view = { λ s. take s.height (s.top ∷ reverse (take s.height s.places.now)) };

    ghost invariant = { λ s. (s.height ≤ N) × (length s.places.now ≡ N) × (N ≤ 65) };
}

impl<'a, const N: usize> NumberStack<'a, N> {
    /// A stack without numbers.
    #[inline(always)]
    pub fn empty(places: &'a mut [i64; N]) -> NumberStack<'a, N>
        requires { N ≤ 65 }
        ensures { result ≡ [] }
    {
        NumberStack {
            height: 0,
            top: 0,
            places,
        }
    }

    /// Puts a number on top.
    #[inline(always)]
    pub fn put(&mut self, n: i64)
        requires { length self.old < N }
        ensures { self.new ≡ n ∷ self.old }
    {
        self.places[self.height] = self.top;
        self.height += 1;
        self.top = n;
    }

    /// Takes the topmost number.
    #[inline(always)]
    pub fn take(&mut self) -> i64
        requires { 0 < length self.old }
        ensures taken { self.old ≡ result ∷ self.new }
        ensures room { length self.new < N }
    {
        let n = self.top;
        self.height -= 1;
        self.top = self.places[self.height];
        n
    }
}

/// What slots give, where a stack holds numbers alone.
pub trait Numbers {
    /// How many slots there are.
    ghost reach: { Self → ℕ };

    /// What each slot gives.
    ghost gives: { Self → ℕ → Result Value Fault };

    /// The number that a slot gives, or its fault. Where it gives a text, the answer is want of memory.
    fn number(&self, slot: u32) -> Result<i64, Stop<ExecFault>>
        requires { slot < reach self.now }
        ensures gives { Leaves result (gives self.now slot) Int }
        ensures answered { gives_text (gives self.now slot) ≡ false → IsAnswered result };
}

impl<C: Numbers, const N: usize> Stack<C> for NumberStack<'_, N> {
    ghost use Rattle.std.specs.Prelude.{true as yes, map};
    ghost use Rattle.spec_script.specs.declared.value.Value.TheVariants.{Int as Number};

    ghost values = { λ s. map Number s };

    ghost numbers = { yes };

    ghost room = { N };

    ghost reach = { λ slots. C.reach slots };

    ghost gives = { λ slots. C.gives slots };

    #[inline(always)]
    fn put_number(&mut self, n: i64) {
        self.put(n);
    }

    #[inline(always)]
    fn put_text(&mut self, _text: &Txt) -> Result<(), Stop<ExecFault>> {
        Err(Stop::NoMemory)
    }

    #[inline(always)]
    fn put_slot(&mut self, slot: u32, slots: &C) -> Result<(), Stop<ExecFault>> {
        let n = slots.number(slot)?;
        self.put(n);
        Ok(())
    }

    #[inline(always)]
    fn unary(&mut self, op: UnOp) -> Result<(), Stop<ExecFault>> {
        let x = self.take();
        let n = unary_int(op, x)?;
        self.put(n);
        Ok(())
    }

    #[inline(always)]
    fn binary(&mut self, op: BinOp) -> Result<(), Stop<ExecFault>> {
        let y = self.take();
        let x = self.take();
        let n = binary_ints(op, x, y)?;
        self.put(n);
        Ok(())
    }

    #[inline(always)]
    fn binary_number(&mut self, op: BinOp, n: i64) -> Result<(), Stop<ExecFault>> {
        let x = self.take();
        let n = binary_ints(op, x, n)?;
        self.put(n);
        Ok(())
    }

    #[inline(always)]
    fn take_truth(&mut self) -> Result<bool, Stop<ExecFault>> {
        Ok(self.take() != 0)
    }
}
