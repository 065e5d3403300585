ghost use Rattle.std.specs.Prelude.{◌≡◌, ◌<◌, IfOk, MatchBool, true};
ghost use Rattle.std.specs.List.{list_all};
ghost use Rattle.spec_script.specs.Scripts.{texts_of};
ghost use Rattle.spec_world_file.specs.WorldFile.{is_line_byte, ReadsNumeric};

use base_texts::{NoMemory, Stop};
use script_reader::parse_expr;
use spec_script::Expr;
use std::alloc::Global;

/// Whether no text literal stands in the expression.
fn is_textless(e: &Expr) -> bool
    ensures { MatchBool result (texts_of e.now ≡ 0) (0 < texts_of e.now) }
{
    match e {
        Expr::Num(_) => true,
        Expr::Lit(_) => false,
        Expr::Look(_) => true,
        Expr::Group(a) => is_textless(a.get()),
        Expr::Unary(_, a) => is_textless(a.get()),
        Expr::Binary(_, a, b) => is_textless(a.get()) && is_textless(b.get()),
        Expr::Choose(a, b, c) => {
            is_textless(a.get()) && is_textless(b.get()) && is_textless(c.get())
        }
    }
}

/// The expression without text literals that the text reads as. None where it is none. `NoMemory` (want of memory,
/// that is, out of memory), here and below, where an allocation fails.
pub fn numeric(alloc: Global, text: &[u8]) -> Result<Option<Expr>, NoMemory>
    requires { list_all is_line_byte text.now ≡ true }
    ensures { IfOk result (ReadsNumeric text.now) }
{
    match parse_expr(alloc, text) {
        Ok(expr) => {
            if is_textless(&expr) {
                Ok(Some(expr))
            } else {
                Ok(None)
            }
        }
        Err(Stop::Fault(_)) => Ok(None),
        Err(Stop::NoMemory) => Err(NoMemory),
    }
}
