ghost use Rattle.std.specs.Prelude.{◌≡◌};
ghost use Rattle.std.specs.Cmp.Lexicographic.{slice_cmp};
ghost use Rattle.std.specs.Ordering.{nat_cmp};
ghost use Rattle.base_texts.specs.Stops.{Gives};
ghost use Rattle.script_code.specs.IntEntries.{GivesInt, IsAnswered, IsInt};
ghost use Rattle.spec_script.specs.Operators.{truth, quotient, compares, on_int, on_ints, on_texts, number_in, unary_on, binary_on};

use base_texts::{Stop, Txt};
use spec_script::{BinOp, Cmp, ExecFault, UnOp, Value};
use std::cmp::Ordering;

/// A truth as a number.
#[inline(always)]
pub fn as_number(holds: bool) -> i64
    ensures { result ≡ truth holds }
{
    if holds { 1 } else { 0 }
}

/// The whole quotient.
#[inline(always)]
fn divide(x: i64, y: i64) -> Result<i64, ExecFault>
    ensures { result ≡ quotient x y }
{
    if y == 0 {
        return Err(ExecFault::ZeroDivisor);
    }
    let quotient = x.checked_div(y).ok_or(ExecFault::Overflow)?;
    if x.wrapping_rem(y) == 0 {
        Ok(quotient)
    } else {
        Err(ExecFault::NotWhole)
    }
}

/// Whether the comparison holds of two that stand in this order.
#[inline(always)]
fn holds(cmp: Cmp, order: Ordering) -> bool
    ensures { result ≡ compares cmp order }
{
    match cmp {
        Cmp::Equal => order.is_eq(),
        Cmp::Differ => order.is_ne(),
        Cmp::Less => order.is_lt(),
        Cmp::AtMost => order.is_le(),
        Cmp::More => order.is_gt(),
        Cmp::AtLeast => order.is_ge(),
    }
}

/// An operator before a number.
#[inline(always)]
pub fn unary_int(op: UnOp, x: i64) -> Result<i64, ExecFault>
    ensures { result ≡ on_int op x }
{
    match op {
        UnOp::Neg => x.checked_neg().ok_or(ExecFault::Overflow),
        UnOp::Not => Ok(as_number(x == 0)),
        UnOp::Flip => Ok(!x),
    }
}

/// An operator between two numbers. It is not inlined: with all operators in it, the loop that runs code
/// would be too large to be one function.
#[inline(never)]
fn any_ints(op: BinOp, x: i64, y: i64) -> Result<i64, ExecFault>
    ensures { result ≡ on_ints op x y }
{
    match op {
        BinOp::Add => x.checked_add(y).ok_or(ExecFault::Overflow),
        BinOp::Sub => x.checked_sub(y).ok_or(ExecFault::Overflow),
        BinOp::Mul => x.checked_mul(y).ok_or(ExecFault::Overflow),
        BinOp::Div => divide(x, y),
        BinOp::And => Ok(as_number(x != 0 && y != 0)),
        BinOp::Or => Ok(as_number(x != 0 || y != 0)),
        BinOp::BitAnd => Ok(x & y),
        BinOp::BitOr => Ok(x | y),
        BinOp::BitXor => Ok(x ^ y),
        BinOp::Compare(cmp) => Ok(as_number(holds(cmp, x.cmp(&y)))),
    }
}

/// An operator between two numbers. Those that are met most are inlined.
#[inline(always)]
pub fn binary_ints(op: BinOp, x: i64, y: i64) -> Result<i64, ExecFault>
    ensures { result ≡ on_ints op x y }
{
    match op {
        BinOp::Add => x.checked_add(y).ok_or(ExecFault::Overflow),
        BinOp::Sub => x.checked_sub(y).ok_or(ExecFault::Overflow),
        BinOp::Mul => x.checked_mul(y).ok_or(ExecFault::Overflow),
        BinOp::Compare(cmp) => Ok(as_number(holds(cmp, x.cmp(&y)))),
        _ => any_ints(op, x, y),
    }
}

/// The two texts as one.
fn join(first: &Txt, second: &Txt) -> Result<Value, Stop<ExecFault>>
    ensures { Gives result (on_texts BinOp.Add first.now second.now) }
{
    if first.list().len() + second.list().len() > 4096 {
        return Err(Stop::Fault(ExecFault::TextTooLong));
    }
    Ok(Value::Text(first.joined(second)?))
}

/// Whether the comparison holds of the two texts. Where it asks only whether they are equal, the lengths mostly tell.
fn texts_compare(cmp: Cmp, first: &[u8], second: &[u8]) -> bool
    ensures { result ≡ compares cmp (slice_cmp nat_cmp first.now second.now) }
{
    match cmp {
        Cmp::Equal => first == second,
        Cmp::Differ => first != second,
        _ => holds(cmp, first.cmp(second)),
    }
}

/// An operator between two texts.
fn binary_texts(op: BinOp, first: &Txt, second: &Txt) -> Result<Value, Stop<ExecFault>>
    ensures { Gives result (on_texts op first.now second.now) }
{
    match op {
        BinOp::Add => join(first, second),
        BinOp::Compare(cmp) => {
            let holds = texts_compare(cmp, first.list(), second.list());
            Ok(Value::Int(as_number(holds)))
        }
        _ => Err(Stop::Fault(ExecFault::Mixed)),
    }
}

/// The number that a value is.
pub fn as_int(value: &Value) -> Result<i64, Stop<ExecFault>>
    ensures gives { Gives result (number_in value.now) }
    ensures int { IsInt value.now → IsAnswered result }
{
    match value {
        Value::Int(n) => Ok(*n),
        Value::Text(_) => Err(Stop::Fault(ExecFault::Mixed)),
    }
}

/// An operator before a value.
pub fn unary_value(op: UnOp, value: &Value) -> Result<Value, Stop<ExecFault>>
    ensures gives { Gives result (unary_on op value.now) }
    ensures int { GivesInt result }
{
    match value {
        Value::Int(n) => Ok(Value::Int(unary_int(op, *n)?)),
        Value::Text(_) => Err(Stop::Fault(ExecFault::Mixed)),
    }
}

/// An operator between two values. Only a joined text takes memory.
pub fn binary_values(op: BinOp, first: Value, second: Value) -> Result<Value, Stop<ExecFault>>
    ensures gives { Gives result (binary_on op first second) }
    ensures int { IsInt first → IsInt second → GivesInt result }
{
    match first {
        Value::Int(x) => match second {
            Value::Int(y) => Ok(Value::Int(binary_ints(op, x, y)?)),
            Value::Text(_) => Err(Stop::Fault(ExecFault::Mixed)),
        },
        Value::Text(s) => match second {
            Value::Int(_) => Err(Stop::Fault(ExecFault::Mixed)),
            Value::Text(t) => binary_texts(op, &s, &t),
        },
    }
}
