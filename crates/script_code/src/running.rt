ghost use Rattle.std.specs.Prelude.{◌≡◌, false, ◌+◌, ◌<◌, ◌≤◌, length, Ok};
ghost use Rattle.base_texts.specs.Stops.{Gives, UnlessMemory};
ghost use Rattle.std.specs.List.{All};
ghost use Rattle.script_code.specs.Codes.{needed, program};
ghost use Rattle.script_code.specs.IntEntries.{IsAnswered};
ghost use Rattle.spec_script.specs.Evaluation.{written, if_there};
ghost use Rattle.script_code.specs.Running.{code_reach, code_value};
ghost use Rattle.script_code.specs.Statements.{entry_at, slot_in, stmt_code_meets, stmt_code_reach, stmt_run};

use crate::codes::{Code, StmtCode};
use crate::ints::step_int;
use crate::machine::run;
use crate::named::{NamedEntries, slot_at};
use crate::operators::{as_int, binary_values, unary_value};
use crate::postfix::Postfix;
use crate::stack::Stack;
use crate::value_stack::ValueStack;
use base_texts::{Stop, Txt};
use spec_script::{BinOp, Cells, ExecFault, UnOp, Value};
use std::alloc::Global;

/// A stack of values over entries.
#[derive(Drop)]
struct EntryValues {
    values: ValueStack,
}

impl<B: Cells> Stack<NamedEntries<'_, B>> for EntryValues {
    ghost use Rattle.std.specs.Prelude.{false, length};
    ghost use Rattle.script_code.specs.Statements.{entry_at as found, slot_in as slot_of};

    ghost values = { λ s. s.values };

    ghost numbers = { false };

    ghost room = { 65 };

    ghost reach = { λ s. length s.slots.now };

    ghost gives = { λ s. found (slot_of s.slots.now) (B.entries s.cells.now) };

    fn put_number(&mut self, n: i64) {
        self.values.put(Value::Int(n));
    }

    fn put_text(&mut self, text: &Txt) -> Result<(), Stop<ExecFault>> {
        let text = text.copy(self.values.allocator())?;
        self.values.put(Value::Text(text));
        Ok(())
    }

    fn put_slot(
        &mut self,
        number: u32,
        named: &NamedEntries<'_, B>,
    ) -> Result<(), Stop<ExecFault>> {
        let slot = slot_at(named.slots, number);
        match named.cells.get(slot) {
            None => Err(Stop::Fault(ExecFault::NoEntry { slot })),
            Some(value) => {
                let value = value.copy(self.values.allocator())?;
                self.values.put(value);
                Ok(())
            }
        }
    }

    fn unary(&mut self, op: UnOp) -> Result<(), Stop<ExecFault>> {
        let x = self.values.take();
        let value = unary_value(op, &x)?;
        self.values.put(value);
        Ok(())
    }

    fn binary(&mut self, op: BinOp) -> Result<(), Stop<ExecFault>> {
        let y = self.values.take();
        let x = self.values.take();
        let value = binary_values(op, x, y)?;
        self.values.put(value);
        Ok(())
    }

    fn binary_number(&mut self, op: BinOp, n: i64) -> Result<(), Stop<ExecFault>> {
        let x = self.values.take();
        let value = binary_values(op, x, Value::Int(n))?;
        self.values.put(value);
        Ok(())
    }

    fn take_truth(&mut self) -> Result<bool, Stop<ExecFault>> {
        let x = self.values.take();
        Ok(as_int(&x)? != 0)
    }
}

/// The value of a code, or its first fault.
#[tactic(auto, using(crate::proofs::Given::value_there, crate::proofs::Given::value_given))]
fn eval<B: Cells>(
    alloc: Global,
    code: &Postfix,
    slots: &[u32],
    cells: &B,
) -> Result<Value, Stop<ExecFault>>
    requires named { code_reach code.now.instrs ≤ length slots.now }
    requires below { All (λ slot. slot < length (B.entries cells.now)) slots.now }
    ensures { Gives result (code_value (entry_at (slot_in slots.now) (B.entries cells.now)) code.now.instrs) }
{
    let mut stack = EntryValues {
        values: ValueStack::empty(alloc),
    };
    run(code, &NamedEntries { cells, slots }, &mut stack)?;
    Ok(stack.values.take())
}

/// Writes a copy of the value to the slot, and gives the value. Only a text takes memory.
fn store<B: Cells>(
    alloc: Global,
    slot: u32,
    value: Value,
    cells: &mut B,
) -> Result<Value, Stop<ExecFault>>
    requires { slot < length (B.entries cells.old) }
    ensures answer { Gives result (written slot (B.entries cells.old) (Ok value)).answer }
    ensures entries { UnlessMemory result (B.entries cells.new ≡ (written slot (B.entries cells.old) (Ok value)).entries) }
    ensures slots { length (B.entries cells.new) ≡ length (B.entries cells.old) }
{
    match &value {
        Value::Int(n) => cells.put_int(slot, *n),
        Value::Text(t) => cells.put_text(slot, t.copy(alloc)?),
    }
    Ok(value)
}

/// Writes a copy of the value to a slot that has an entry, and gives the value.
fn assign<B: Cells>(
    alloc: Global,
    slot: u32,
    value: Value,
    cells: &mut B,
) -> Result<Value, Stop<ExecFault>>
    requires { slot < length (B.entries cells.old) }
    ensures answer { let old = B.entries cells.old in
        Gives result (written slot old (if_there slot old (Ok value))).answer }
    ensures entries { let old = B.entries cells.old in
        UnlessMemory result (B.entries cells.new ≡ (written slot old (if_there slot old (Ok value))).entries) }
    ensures slots { length (B.entries cells.new) ≡ length (B.entries cells.old) }
{
    match cells.get(slot) {
        None => Err(Stop::Fault(ExecFault::NoEntry { slot })),
        Some(_) => store(alloc, slot, value, cells),
    }
}

/// Runs a statement, whatever it gives.
#[inline(never)]
fn step_value<B: Cells>(
    alloc: Global,
    stmt: &StmtCode,
    slots: &[u32],
    cells: &mut B,
) -> Result<Value, Stop<ExecFault>>
    requires named { stmt_code_reach stmt.now ≤ length slots.now }
    requires below { All (λ slot. slot < length (B.entries cells.old)) slots.now }
    ensures answer { Gives result (stmt_run (slot_in slots.now) stmt.now (B.entries cells.old)).answer }
    ensures entries { UnlessMemory result (B.entries cells.new ≡ (stmt_run (slot_in slots.now) stmt.now (B.entries cells.old)).entries) }
    ensures slots { length (B.entries cells.new) ≡ length (B.entries cells.old) }
{
    match stmt {
        StmtCode::Create(number, code) => {
            let value = eval(alloc, code, slots, cells)?;
            store(alloc, slot_at(slots, *number), value, cells)
        }
        StmtCode::Assign(number, code) => {
            let value = eval(alloc, code, slots, cells)?;
            assign(alloc, slot_at(slots, *number), value, cells)
        }
        StmtCode::Plain(code) => eval(alloc, code, slots, cells),
    }
}

/// Runs a statement.
#[inline(always)]
fn step<B: Cells>(
    alloc: Global,
    stmt: &StmtCode,
    slots: &[u32],
    cells: &mut B,
) -> Result<Value, Stop<ExecFault>>
    requires named { stmt_code_reach stmt.now ≤ length slots.now }
    requires below { All (λ slot. slot < length (B.entries cells.old)) slots.now }
    ensures answer { Gives result (stmt_run (slot_in slots.now) stmt.now (B.entries cells.old)).answer }
    ensures entries { UnlessMemory result (B.entries cells.new ≡ (stmt_run (slot_in slots.now) stmt.now (B.entries cells.old)).entries) }
    ensures slots { length (B.entries cells.new) ≡ length (B.entries cells.old) }
    ensures answered { stmt_code_meets (slot_in slots.now) stmt.now (B.entries cells.old) ≡ false → IsAnswered result }
{
    match step_int(stmt, slots, cells) {
        Ok(n) => Ok(Value::Int(n)),
        Err(Stop::Fault(fault)) => Err(Stop::Fault(fault)),
        Err(Stop::NoMemory) => step_value(alloc, stmt, slots, cells),
    }
}

/// Runs a script over the cells and gives the value of its last statement, or the first fault. The
/// writes before a fault stand. Want of memory comes only where the run meets a text.
#[tactic(auto, unfolding(crate::specs::Codes::program, crate::specs::Codes::needed))]
pub fn exec<B: Cells>(alloc: Global, code: &Code, cells: &mut B) -> Result<Value, Stop<ExecFault>>
    requires { needed code.now ≤ length (B.entries cells.old) }
    ensures answer { Gives result ((program code.now).run (B.entries cells.old)).answer }
    ensures entries { UnlessMemory result (B.entries cells.new ≡ ((program code.now).run (B.entries cells.old)).entries) }
    ensures slots { length (B.entries cells.new) ≡ length (B.entries cells.old) }
    ensures memory { (program code.now).meets (B.entries cells.old) ≡ false → IsAnswered result }
{
    let slots = code.slots.get().list();
    let mut last = Value::Int(0);
    for stmt in code.stmts.get().list() {
        last = step(alloc, stmt, slots, cells)?;
    }
    Ok(last)
}
