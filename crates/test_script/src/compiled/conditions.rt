//! What must hold of a script that is compiled, as tests at run time.
ghost use Rattle.std.specs.Prelude.{◌≡◌, ◌<◌, ◌≤◌, IsTrue};
ghost use Rattle.std.specs.List.{All};
ghost use Rattle.spec_script.specs.Grammar.{height};
ghost use Rattle.script_code.specs.Sources.{IsListed, IsCompilable};
ghost use Rattle.script_code.specs.Arithmetic.{IsArithmetic};
ghost use Rattle.spec_script.specs.Scripts.{names_of, texts_of};

use base_texts::Name;
use spec_script::{BinOp, Expr, Stmt};

/// Whether the name has a slot in this list.
fn is_listed(slots: &[(Name, u32)], name: &Name) -> bool
    ensures { IsTrue result → IsListed slots.now name.now }
{
    for (n, _) in slots {
        if n == name {
            return true;
        }
    }
    false
}

/// Whether the expression's names have slots, and it is no higher than this.
pub fn expr_fits(e: &Expr, slots: &[(Name, u32)], most: u32) -> bool
    ensures named { IsTrue result → All (IsListed slots.now) (names_of e.now) }
    ensures low { IsTrue result → height e.now ≤ most }
{
    if most == 0 {
        return false;
    }
    match e {
        Expr::Num(_) => true,
        Expr::Lit(_) => true,
        Expr::Look(name) => is_listed(slots, name),
        Expr::Group(a) => expr_fits(a.get(), slots, most - 1),
        Expr::Unary(_, a) => expr_fits(a.get(), slots, most - 1),
        Expr::Binary(_, a, b) => {
            if !expr_fits(a.get(), slots, most - 1) {
                return false;
            }
            expr_fits(b.get(), slots, most - 1)
        }
        Expr::Choose(a, b, c) => {
            if !expr_fits(a.get(), slots, most - 1) {
                return false;
            }
            if !expr_fits(b.get(), slots, most - 1) {
                return false;
            }
            expr_fits(c.get(), slots, most - 1)
        }
    }
}

/// Whether the operator is one of the four of arithmetic.
fn is_arithmetic(op: BinOp) -> bool
    ensures { IsTrue result → IsArithmetic op }
{
    match op {
        BinOp::Add => true,
        BinOp::Sub => true,
        BinOp::Mul => true,
        BinOp::Div => true,
        _ => false,
    }
}

/// Whether the statement may be compiled, and the names of its expression have slots.
fn stmt_fits(stmt: &Stmt, slots: &[(Name, u32)]) -> bool
    ensures { IsTrue result → IsCompilable stmt.now }
{
    match stmt {
        Stmt::Create(_, e) => expr_fits(e, slots, 64),
        Stmt::Assign(_, e) => expr_fits(e, slots, 64),
        Stmt::Change(op, _, e) => {
            if !is_arithmetic(*op) {
                return false;
            }
            expr_fits(e, slots, 64)
        }
        Stmt::Plain(e) => expr_fits(e, slots, 64),
    }
}

/// Whether each statement may be compiled.
pub fn script_fits(stmts: &[Stmt], slots: &[(Name, u32)]) -> bool
    ensures { IsTrue result → All IsCompilable stmts.now }
{
    stmts.iter().all(|stmt| stmt_fits(stmt, slots))
}

/// Whether each of these slots is less than this number.
pub fn table_fits(slots: &[u32], n: usize) -> bool
    ensures { IsTrue result → All (λ slot. slot < n) slots.now }
{
    slots.iter().all(|slot| (*slot as usize) < n)
}

/// Whether each slot is less than this number.
pub fn slots_fit(slots: &[(Name, u32)], n: usize) -> bool
    ensures { IsTrue result → All (λ pair. pair.1 < n) slots.now }
{
    slots.iter().all(|pair| (pair.1 as usize) < n)
}

/// Whether there is no text literal in the expression.
pub fn is_textless(e: &Expr) -> bool
    ensures { IsTrue result → texts_of e.now ≡ 0 }
{
    match e {
        Expr::Num(_) => true,
        Expr::Lit(_) => false,
        Expr::Look(_) => true,
        Expr::Group(a) => is_textless(a.get()),
        Expr::Unary(_, a) => is_textless(a.get()),
        Expr::Binary(_, a, b) => is_textless(a.get()) && is_textless(b.get()),
        Expr::Choose(a, b, c) => is_textless(a.get())
            && is_textless(b.get())
            && is_textless(c.get()),
    }
}
