ghost use Rattle.std.specs.Prelude.{◌≡◌, IsUtf8};
ghost use Rattle.script_reader.specs.Parsing.{Answers};
ghost use Rattle.spec_script.specs.Reading.{ReadsExpr, ReadsScript, StmtsFault};
ghost use Rattle.spec_script.specs.ExprFaults.{ExprFault};
ghost use Rattle.spec_script.specs.Spots.{refused};

use crate::build::{alone, statements};
use crate::check::check;
use crate::lexer::read;
use crate::naming::names_in;
use base_texts::{Stop, Txt};
use spec_script::{Expr, Opened, Script, ScriptFault, Stage, Statements, Verdict};
use std::alloc::Global;

/// The greatest length of a script, in bytes.
const MOST: usize = 4096;

/// The first fault of a text, of which `fault` is the first that a token has: one of the grammar comes
/// before it, and else there may be one at the text's end.
fn refusal(verdict: Verdict, fault: Option<ScriptFault>, end: u32) -> Option<ScriptFault>
    ensures { result ≡ refused verdict fault end }
{
    match verdict {
        Verdict::Stuck(place) => Some(ScriptFault::Syntax { place }),
        Verdict::Whole => fault,
        Verdict::Unfinished => match fault {
            Some(fault) => Some(fault),
            None => Some(ScriptFault::Syntax { place: end }),
        },
    }
}

/// Reads a script: statements with semicolons between them. Its fault is the first of the text.
pub fn parse_script(alloc: Global, text: &[u8]) -> Result<Script, Stop<ScriptFault>>
    requires { IsUtf8 text.now }
    ensures { Answers ReadsScript StmtsFault text.now result }
{
    if text.len() > MOST {
        return Err(Stop::Fault(ScriptFault::TooLong));
    }
    let lexed = read(alloc, text)?;
    let verdict = check(lexed.tokens.as_slice(), Stage::Blank, Vec::new(alloc))?;
    match refusal(verdict, lexed.fault, text.len() as u32) {
        Some(fault) => Err(Stop::Fault(fault)),
        None => {
            let mut stmts = statements(alloc, lexed.tokens.as_slice())?;
            stmts.shrink_to_fit();
            let (names, named) = names_in(alloc, stmts.as_slice())?;
            let text = Txt::of(Vec::from_slice(alloc, text)?)?;
            let stmts = Statements::of(stmts, names, named);
            Ok(Script { text, stmts })
        }
    }
}

/// Reads one expression. Its faults are those of a script.
pub fn parse_expr(alloc: Global, text: &[u8]) -> Result<Expr, Stop<ScriptFault>>
    requires { IsUtf8 text.now }
    ensures { Answers ReadsExpr ExprFault text.now result }
{
    if text.len() > MOST {
        return Err(Stop::Fault(ScriptFault::TooLong));
    }
    let lexed = read(alloc, text)?;
    let mut opened = Vec::new(alloc);
    opened.push(Opened::Whole)?;
    let verdict = check(lexed.tokens.as_slice(), Stage::Before, opened)?;
    match refusal(verdict, lexed.fault, text.len() as u32) {
        Some(fault) => Err(Stop::Fault(fault)),
        None => alone(alloc, lexed.tokens.as_slice()),
    }
}
