ghost use Rattle.std.specs.Prelude.{◌≡◌, IfOk};

use base_texts::{Boxed, NoMemory, Shared};
use spec_script::{Expr, Script};
use std::alloc::Global;

/// An equal expression on the heap.
#[cycle(expressions)]
fn copy_boxed(alloc: Global, expr: &Boxed<Expr>) -> Result<Boxed<Expr>, NoMemory>
    ensures { IfOk result (λ copied. copied ≡ expr.now) }
{
    Boxed::of(alloc, copy_expr(alloc, expr.get())?)
}

/// An equal expression.
#[cycle(expressions)]
pub fn copy_expr(alloc: Global, expr: &Expr) -> Result<Expr, NoMemory>
    ensures { IfOk result (λ copied. copied ≡ expr.now) }
{
    match expr {
        Expr::Num(n) => Ok(Expr::Num(*n)),
        Expr::Lit(text) => Ok(Expr::Lit(text.copy(alloc)?)),
        Expr::Look(name) => Ok(Expr::Look(name.copy(alloc)?)),
        Expr::Group(a) => Ok(Expr::Group(copy_boxed(alloc, a)?)),
        Expr::Unary(op, a) => Ok(Expr::Unary(*op, copy_boxed(alloc, a)?)),
        Expr::Binary(op, a, b) => {
            let first = copy_boxed(alloc, a)?;
            Ok(Expr::Binary(*op, first, copy_boxed(alloc, b)?))
        }
        Expr::Choose(a, b, c) => {
            let test = copy_boxed(alloc, a)?;
            let then = copy_boxed(alloc, b)?;
            Ok(Expr::Choose(test, then, copy_boxed(alloc, c)?))
        }
    }
}

/// A script once more, where there is one. It is not copied. The error is want of memory.
pub fn share_script(script: &Option<Shared<Script>>) -> Result<Option<Shared<Script>>, NoMemory>
    ensures { IfOk result (λ shared. shared ≡ script.now) }
{
    match script {
        Some(script) => Ok(Some(script.share()?)),
        None => Ok(None),
    }
}
