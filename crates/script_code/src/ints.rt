ghost use Rattle.std.specs.Prelude.{◌≡◌, true, false, ◌≢◌, ◌+◌, ◌<◌, ◌≤◌, None, IfNone, IfSome, IsErr, OnErr, Ok, length};
ghost use Rattle.spec_script.specs.declared.value.Value.TheVariants.{Int};
ghost use Rattle.std.specs.List.{All};
ghost use Rattle.script_code.specs.IntEntries.{IsAnswered};
ghost use Rattle.spec_script.specs.Evaluation.{Run, written, if_there};
ghost use Rattle.base_texts.specs.Stops.{UnlessMemory};
ghost use Rattle.script_code.specs.Codes.{needed, program};
ghost use Rattle.script_code.specs.Rooms.{fits};
ghost use Rattle.script_code.specs.Running.{code_meets, code_reach, code_value};
ghost use Rattle.script_code.specs.Stacks.{Leaves};
ghost use Rattle.script_code.specs.Statements.{entry_at, slot_in, stmt_code_meets, stmt_code_reach, stmt_run};

use crate::codes::{Code, StmtCode};
use crate::machine::run;
use crate::named::{NamedEntries, slot_at};
use crate::number_stack::NumberStack;
use crate::postfix::Postfix;
use base_texts::Stop;
use spec_script::{Cells, ExecFault, Value};

/// The number that a code gives over entries, or its first fault, on a stack over these places. It
/// gives up where a text is met.
#[tactic(auto, using(crate::proofs::Given::number_there, crate::proofs::Given::number_given))]
#[inline(always)]
fn int_on<B: Cells, const N: usize>(
    code: &Postfix,
    slots: &[u32],
    cells: &B,
    places: &mut [i64; N],
) -> Result<i64, Stop<ExecFault>>
    requires most { N ≤ 65 }
    requires fits { fits N code.now.instrs ≡ true }
    requires named { code_reach code.now.instrs ≤ length slots.now }
    requires below { All (λ slot. slot < length (B.entries cells.now)) slots.now }
    ensures leaves { Leaves result (code_value (entry_at (slot_in slots.now) (B.entries cells.now)) code.now.instrs) Int }
    ensures answered { code_meets (entry_at (slot_in slots.now) (B.entries cells.now)) code.now.instrs ≡ false → IsAnswered result }
{
    let mut stack = NumberStack::empty(places);
    run(code, &NamedEntries { cells, slots }, &mut stack)?;
    Ok(stack.take())
}

/// `int_of` where 65 places may be wanted, which is seldom.
#[inline(never)]
fn high_int_of<B: Cells>(code: &Postfix, slots: &[u32], cells: &B) -> Result<i64, Stop<ExecFault>>
    requires named { code_reach code.now.instrs ≤ length slots.now }
    requires below { All (λ slot. slot < length (B.entries cells.now)) slots.now }
    ensures leaves { Leaves result (code_value (entry_at (slot_in slots.now) (B.entries cells.now)) code.now.instrs) Int }
    ensures answered { code_meets (entry_at (slot_in slots.now) (B.entries cells.now)) code.now.instrs ≡ false → IsAnswered result }
{
    int_on(code, slots, cells, &mut [0; 65])
}

/// The number that a code gives over entries, or its first fault. It gives up where a text is met.
#[inline(always)]
fn int_of<B: Cells>(code: &Postfix, slots: &[u32], cells: &B) -> Result<i64, Stop<ExecFault>>
    requires named { code_reach code.now.instrs ≤ length slots.now }
    requires below { All (λ slot. slot < length (B.entries cells.now)) slots.now }
    ensures leaves { Leaves result (code_value (entry_at (slot_in slots.now) (B.entries cells.now)) code.now.instrs) Int }
    ensures answered { code_meets (entry_at (slot_in slots.now) (B.entries cells.now)) code.now.instrs ≡ false → IsAnswered result }
{
    if !code.is_low {
        return high_int_of(code, slots, cells);
    }
    int_on(code, slots, cells, &mut [0; 8])
}

/// Writes the number to a slot that has an entry, and gives it.
#[inline(always)]
fn assign_int<B: Cells>(slot: u32, n: i64, cells: &mut B) -> Result<i64, Stop<ExecFault>>
    requires { slot < length (B.entries cells.old) }
    ensures answer { let old = B.entries cells.old in
        Leaves result (written slot old (if_there slot old (Ok (Int n)))).answer Int }
    ensures entries { let old = B.entries cells.old in
        UnlessMemory result (B.entries cells.new ≡ (written slot old (if_there slot old (Ok (Int n)))).entries) }
    ensures nothing { OnErr result (B.entries cells.new ≡ B.entries cells.old) }
    ensures answered { IsAnswered result }
    ensures slots { length (B.entries cells.new) ≡ length (B.entries cells.old) }
{
    match cells.get(slot) {
        None => Err(Stop::Fault(ExecFault::NoEntry { slot })),
        Some(_) => {
            cells.put_int(slot, n);
            Ok(n)
        }
    }
}

/// Runs a statement, and gives its number or its fault. It gives up where a text is met, and then
/// nothing is written.
#[inline(always)]
pub fn step_int<B: Cells>(
    stmt: &StmtCode,
    slots: &[u32],
    cells: &mut B,
) -> Result<i64, Stop<ExecFault>>
    requires named { stmt_code_reach stmt.now ≤ length slots.now }
    requires below { All (λ slot. slot < length (B.entries cells.old)) slots.now }
    ensures answer { Leaves result (stmt_run (slot_in slots.now) stmt.now (B.entries cells.old)).answer Int }
    ensures entries { UnlessMemory result (B.entries cells.new ≡ (stmt_run (slot_in slots.now) stmt.now (B.entries cells.old)).entries) }
    ensures nothing { OnErr result (B.entries cells.new ≡ B.entries cells.old) }
    ensures answered { stmt_code_meets (slot_in slots.now) stmt.now (B.entries cells.old) ≡ false → IsAnswered result }
    ensures slots { length (B.entries cells.new) ≡ length (B.entries cells.old) }
{
    let n = int_of(stmt.postfix(), slots, cells)?;
    match stmt {
        StmtCode::Create(number, _) => {
            cells.put_int(slot_at(slots, *number), n);
            Ok(n)
        }
        StmtCode::Assign(number, _) => assign_int(slot_at(slots, *number), n, cells),
        StmtCode::Plain(_) => Ok(n),
    }
}

/// Runs a script of one statement, and gives its number. None where there are more, and where the
/// statement gives no number or a text is met, and then nothing is written. It is not inlined, as it
/// wants more registers than a caller has to spare.
#[tactic(auto, unfolding(crate::specs::Codes::program, crate::specs::Codes::needed))]
#[inline(never)]
pub fn exec_int<B: Cells>(code: &Code, cells: &mut B) -> Option<i64>
    requires { needed code.now ≤ length (B.entries cells.old) }
    ensures gives { IfSome result (λ n. (program code.now).run (B.entries cells.old) ≡
        record { answer = Ok (Int n); entries = B.entries cells.new }) }
    ensures nothing { IfNone result (B.entries cells.new ≡ B.entries cells.old) }
    ensures fault { length code.now.stmts ≡ 1 → (program code.now).meets (B.entries cells.old) ≡ false →
        IfNone result (IsErr ((program code.now).run (B.entries cells.old)).answer) }
    ensures several { length code.now.stmts ≢ 1 → result ≡ None }
    ensures slots { length (B.entries cells.new) ≡ length (B.entries cells.old) }
{
    match code.stmts.get().list() {
        [only] => step_int(only, code.slots.get().list(), cells).ok(),
        _ => None,
    }
}
