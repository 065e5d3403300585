ghost use Rattle.std.specs.Prelude.{◌≡◌, ◌+◌, ◌-◌, ◌^◌, ◌<◌, ◌≤◌, [], ◌∷◌, true, false, pos, IfOk, length};
ghost use Rattle.script_code.specs.IntEntries.{IsAnswered};
ghost use Rattle.spec_script.specs.declared.value.Value.TheVariants.{Int};
ghost use Rattle.script_code.specs.Rooms.{fits, fits_from, has_room};
ghost use Rattle.script_code.specs.Running.{by_truth, code_meets, code_reach, code_value, gives_from, instr_reach, jump_of, meets_from, put, puts_text, step_of};
ghost use Rattle.script_code.specs.Stacks.{Leads, Leaves};

use crate::instr::Instr;
use crate::operators::as_number;
use crate::postfix::Postfix;
use crate::stack::Stack;
use base_texts::Stop;
use spec_script::{BinOp, ExecFault};

/// Takes the left operand of `&&`. Where it is false, it puts 0 on top, and jumps.
#[tactic(auto, using(crate::proofs::Steps::none_over, crate::proofs::Steps::passed_over))]
#[inline(always)]
fn and_then<C, S: Stack<C>>(n: usize, next: usize, stack: &mut S) -> Result<usize, Stop<ExecFault>>
    requires operand { 0 < length (S.values stack.old) }
    requires room { length (S.values stack.old) ≤ S.room }
    requires within { next + n < 2 ^ 63 }
    ensures leads { let step = by_truth (λ below. (0, below)) (λ below. (n, Int (pos 0) ∷ below)) (S.values stack.old) in
        Leaves result step (λ place. (place - next, S.values stack.new)) }
    ensures on { IfOk result (λ place. next ≤ place) }
    ensures answered { S.numbers ≡ true → IsAnswered result }
{
    let left = stack.take_truth()?;
    if !left {
        stack.put_number(0);
        return Ok(next + n);
    }
    Ok(next)
}

/// Takes the left operand of `||`. Where it is true, it puts 1 on top, and jumps.
#[tactic(auto, using(crate::proofs::Steps::none_over, crate::proofs::Steps::passed_over))]
#[inline(always)]
fn or_else<C, S: Stack<C>>(n: usize, next: usize, stack: &mut S) -> Result<usize, Stop<ExecFault>>
    requires operand { 0 < length (S.values stack.old) }
    requires room { length (S.values stack.old) ≤ S.room }
    requires within { next + n < 2 ^ 63 }
    ensures leads { let step = by_truth (λ below. (n, Int (pos 1) ∷ below)) (λ below. (0, below)) (S.values stack.old) in
        Leaves result step (λ place. (place - next, S.values stack.new)) }
    ensures on { IfOk result (λ place. next ≤ place) }
    ensures answered { S.numbers ≡ true → IsAnswered result }
{
    if stack.take_truth()? {
        stack.put_number(1);
        return Ok(next + n);
    }
    Ok(next)
}

/// Does one instruction, and answers the place at which to go on. `next` is the place that follows it.
#[tactic(auto, using(crate::proofs::Steps::none_over, crate::proofs::Steps::passed_over))]
#[inline(always)]
fn turn<C, S: Stack<C>>(
    instr: &Instr,
    next: usize,
    slots: &C,
    stack: &mut S,
) -> Result<usize, Stop<ExecFault>>
    requires room { has_room S.room instr.now (length (S.values stack.old)) ≡ true }
    requires reach { instr_reach instr.now ≤ S.reach slots.now }
    requires within { next + jump_of instr.now < 2 ^ 63 }
    ensures leads { let step = step_of (S.gives slots.now) instr.now (S.values stack.old) in
        Leaves result step (λ place. (place - next, S.values stack.new)) }
    ensures on { IfOk result (λ place. next ≤ place) }
    ensures answered { S.numbers ≡ true → puts_text (S.gives slots.now) instr.now ≡ false → IsAnswered result }
{
    match instr {
        Instr::Number(n) => stack.put_number(*n),
        Instr::Text(text) => stack.put_text(text)?,
        Instr::Slot(slot) => stack.put_slot(*slot, slots)?,
        Instr::Unary(op) => stack.unary(*op)?,
        Instr::Binary(op) => stack.binary(*op)?,
        Instr::BinaryNumber(op, n) => stack.binary_number(*op, *n)?,
        Instr::Add => stack.binary(BinOp::Add)?,
        Instr::Sub => stack.binary(BinOp::Sub)?,
        Instr::Mul => stack.binary(BinOp::Mul)?,
        Instr::AddNumber(n) => stack.binary_number(BinOp::Add, *n)?,
        Instr::SubNumber(n) => stack.binary_number(BinOp::Sub, *n)?,
        Instr::MulNumber(n) => stack.binary_number(BinOp::Mul, *n)?,
        Instr::AndThen(n) => return and_then::<C, S>(*n, next, stack),
        Instr::OrElse(n) => return or_else::<C, S>(*n, next, stack),
        Instr::Truth => {
            let holds = stack.take_truth()?;
            stack.put_number(as_number(holds));
        }
        Instr::Unless(n) => {
            if !stack.take_truth()? {
                return Ok(next + *n);
            }
        }
        Instr::Skip(n) => return Ok(next + *n),
    }
    Ok(next)
}

/// Does the instruction at a place, and answers the place at which to go on.
#[inline(always)]
fn turn_at<C, S: Stack<C>>(
    code: &[Instr],
    place: usize,
    slots: &C,
    stack: &mut S,
) -> Result<usize, Stop<ExecFault>>
    requires at { place < length code.now }
    requires room { fits_from S.room code.now place (length (S.values stack.old)) ≡ true }
    requires reach { code_reach code.now ≤ S.reach slots.now }
    ensures leads { let look = S.gives slots.now in
        Leads result (gives_from look code.now place (S.values stack.old)) (λ next. gives_from look code.now next (S.values stack.new)) }
    ensures room { IfOk result (λ next. fits_from S.room code.now next (length (S.values stack.new)) ≡ true) }
    ensures on { IfOk result (λ next. place < next) }
    ensures met { let look = S.gives slots.now in
        meets_from look code.now place (S.values stack.old) ≡ false →
        IfOk result (λ next. meets_from look code.now next (S.values stack.new) ≡ false) }
    ensures answered { S.numbers ≡ true →
        meets_from (S.gives slots.now) code.now place (S.values stack.old) ≡ false → IsAnswered result }
{
    match turn(&code[place], place + 1, slots, stack) {
        Ok(next) => Ok(next),
        Err(stop) => Err(stop),
    }
}

/// Runs the code of an expression on an empty stack. It leaves the expression's value there, or gives
/// its first fault.
#[inline(always)]
pub fn run<C, S: Stack<C>>(code: &Postfix, slots: &C, stack: &mut S) -> Result<(), Stop<ExecFault>>
    requires empty { S.values stack.old ≡ [] }
    requires fits { fits S.room code.now.instrs ≡ true }
    requires reach { code_reach code.now.instrs ≤ S.reach slots.now }
    ensures leaves { Leaves result (put (code_value (S.gives slots.now) code.now.instrs) []) (λ _. S.values stack.new) }
    ensures answered { S.numbers ≡ true → code_meets (S.gives slots.now) code.now.instrs ≡ false → IsAnswered result }
{
    let instrs = code.instrs.list();
    let mut place = 0;
    while place < instrs.len() {
        place = turn_at(instrs, place, slots, stack)?;
    }
    Ok(())
}
