ghost use Rattle.std.specs.Prelude.{◌≡◌};
ghost use Rattle.std.specs.Ordering.{int_cmp};
ghost use Rattle.spec_script.specs.Operators.{compares};
ghost use Rattle.spec_plan.specs.Effects.{achieves, change_achieves, change_threatens, effect_achieves, effect_threatens, gains_by_growth, gains_by_loss, threatens};

use spec_plan::Test;
use spec_script::Cmp;
use spec_world::{How, Set};
use std::cmp::Ordering;

/// Whether the comparison holds of a number and the wanted one.
fn compares(op: Cmp, value: i64, wanted: i64) -> bool
    ensures { result ≡ compares op (int_cmp value wanted) }
{
    match op {
        Cmp::Equal => value == wanted,
        Cmp::Differ => value != wanted,
        Cmp::Less => value < wanted,
        Cmp::AtMost => value <= wanted,
        Cmp::More => value > wanted,
        Cmp::AtLeast => value >= wanted,
    }
}

/// Whether the comparison may turn true where the number on its left grows.
fn gains_by_growth(op: Cmp) -> bool
    ensures { result ≡ gains_by_growth op }
{
    !matches!(op, Cmp::Less | Cmp::AtMost)
}

/// Whether the comparison may turn true where the number on its left shrinks.
fn gains_by_loss(op: Cmp) -> bool
    ensures { result ≡ gains_by_loss op }
{
    !matches!(op, Cmp::More | Cmp::AtLeast)
}

/// Whether an effect of this kind and value may turn the comparison true.
fn change_achieves(op: Cmp, wanted: i64, how: How, value: i64) -> bool
    ensures { result ≡ change_achieves op wanted how value }
{
    match how {
        How::To => compares(op, value, wanted),
        How::By => match value.cmp(&0) {
            Ordering::Greater => gains_by_growth(op),
            Ordering::Less => gains_by_loss(op),
            Ordering::Equal => false,
        },
    }
}

/// Whether an effect of this kind and value may turn the comparison false.
fn change_threatens(op: Cmp, wanted: i64, how: How, value: i64) -> bool
    ensures { result ≡ change_threatens op wanted how value }
{
    match how {
        How::To => !compares(op, value, wanted),
        How::By => match value.cmp(&0) {
            Ordering::Greater => gains_by_loss(op),
            Ordering::Less => gains_by_growth(op),
            Ordering::Equal => false,
        },
    }
}

fn effect_achieves(cond: &Test, effect: &Set) -> bool
    ensures { result ≡ effect_achieves cond.now effect.now }
{
    effect.fact == cond.fact && change_achieves(cond.op, cond.value, effect.how, effect.value)
}

fn effect_threatens(cond: &Test, effect: &Set) -> bool
    ensures { result ≡ effect_threatens cond.now effect.now }
{
    effect.fact == cond.fact && change_threatens(cond.op, cond.value, effect.how, effect.value)
}

/// Whether one of these effects may turn the test true: one that gives its fact a value of which the
/// test is true, or one that adds in the direction in which the comparison may turn true.
pub fn achieves(cond: &Test, sets: &[Set]) -> bool
    ensures { result ≡ achieves cond.now sets.now }
{
    sets.iter().any(|effect| effect_achieves(cond, effect))
}

/// Whether one of these effects may turn the test false: one that gives its fact a value of which
/// the test is false, or one that adds in the direction in which the comparison may turn false.
pub fn threatens(sets: &[Set], cond: &Test) -> bool
    ensures { result ≡ threatens sets.now cond.now }
{
    sets.iter().any(|effect| effect_threatens(cond, effect))
}
