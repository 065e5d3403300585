//! What a text is as an identifier, a script or an expression.

use base_texts::Stop;
use script_reader::{is_identifier, parse_expr, parse_script};
use spec_script::{BinOp, Expr};
use std::alloc::{AllocError, Global};
use std::test::Fail;

/// What a text is as a script: the number of its statements, or its fault.
fn script_text(alloc: Global, text: &str) -> Result<String, AllocError> {
    match parse_script(alloc, text.as_bytes()) {
        Ok(script) => {
            let count = script.stmts.list().len();
            drop(script);
            format!(in alloc; "{count} statements")
        }
        Err(stop) => format!(in alloc; "{stop:?}"),
    }
}

/// The operator of an expression, where it has two operands.
fn operator(expr: &Expr) -> Option<BinOp> {
    match expr {
        Expr::Binary(op, _, _) => Some(*op),
        _ => None,
    }
}

/// The operator of an expression and those of its operands.
fn operators_text(alloc: Global, expr: &Expr) -> Result<String, AllocError> {
    match expr {
        Expr::Binary(op, a, b) => {
            format!(in alloc; "{op:?} {:?} {:?}", operator(a.get()), operator(b.get()))
        }
        _ => format!(in alloc; "no binary"),
    }
}

/// What a text is as an expression: its operator and those of its operands, or its fault.
fn expr_text(alloc: Global, text: &str) -> Result<String, AllocError> {
    match parse_expr(alloc, text.as_bytes()) {
        Ok(expr) => {
            let text = operators_text(alloc, &expr);
            drop(expr);
            text
        }
        Err(stop) => format!(in alloc; "{stop:?}"),
    }
}

/// The middle between this many fronts and backs.
fn between(
    alloc: Global,
    times: usize,
    front: &str,
    middle: &str,
    back: &str,
) -> Result<String, AllocError> {
    format!(in alloc;
        "{}{middle}{}",
        front.repeat(alloc, times)?,
        back.repeat(alloc, times)?
    )
}

/// Texts, and whether they are identifiers.
static IDENTIFIERS: [(&str, bool); 7] = [
    ("x", true),
    ("_1", true),
    ("Az_09", true),
    ("", false),
    ("1x", false),
    ("x-y", false),
    ("\u{e9}", false),
];

/// Texts that are identifiers, and texts that are not.
#[test]
fn identifiers(rt: HostRuntime) {
    for (text, is) in &IDENTIFIERS {
        assert_eq!(rt; is_identifier(text.as_bytes()), *is, "{text}");
    }
}

/// Scripts, and the number of their statements or their faults.
static SCRIPTS: [(&str, &str); 23] = [
    ("1 +", "Fault(Syntax { place: 3 })"),
    ("x = = 1", "Fault(Syntax { place: 4 })"),
    ("1 2", "Fault(Syntax { place: 2 })"),
    (";", "Fault(Syntax { place: 1 })"),
    ("", "Fault(Syntax { place: 0 })"),
    ("  ", "Fault(Syntax { place: 2 })"),
    ("0x", "Fault(Syntax { place: 0 })"),
    ("0x1.5", "Fault(Syntax { place: 3 })"),
    ("12a", "Fault(Syntax { place: 0 })"),
    ("a:=b=c", "Fault(Syntax { place: 4 })"),
    ("(1;2)", "Fault(Syntax { place: 2 })"),
    ("a ? b) : c", "Fault(Syntax { place: 5 })"),
    ("x := 'abc", "Fault(Syntax { place: 5 })"),
    ("1 + é", "Fault(Syntax { place: 4 })"),
    ("true := 1", "Fault(Syntax { place: 5 })"),
    ("1 2 1.5", "Fault(Syntax { place: 2 })"),
    ("x := 1.5", "Fault(RealNumber { place: 5 })"),
    ("2e3", "Fault(RealNumber { place: 0 })"),
    ("-9223372036854775808", "Fault(NumberTooWide { place: 1 })"),
    ("0xFFFFFFFFFFFFFFFF", "Fault(NumberTooWide { place: 0 })"),
    ("-9223372036854775807 - 1", "1 statements"),
    ("x := 'it'; x += 0X1f;; ~!y", "3 statements"),
    ("x -= 1; y *= 2; z /= 3; w = true", "4 statements"),
];

/// Scripts with the number of their statements, or their faults.
#[test]
fn scripts_and_their_faults(rt: HostRuntime) -> Result<(), Fail> {
    let alloc = rt.alloc();
    for (text, want) in &SCRIPTS {
        assert_eq!(rt; script_text(alloc, text)?.as_str(), *want, "{text}");
    }
    Ok(())
}

/// How often a front and a back stand round a middle, and what the script is.
static SIZES: [(usize, &str, &str, &str, &str); 5] = [
    (63, "(", "1", ")", "1 statements"),
    (64, "(", "1", ")", "Fault(TooNested { place: 0 })"),
    (2047, "(", "1", ")", "Fault(TooNested { place: 0 })"),
    (4095, "", "1", " ", "1 statements"),
    (4096, "", "1", " ", "Fault(TooLong)"),
];

/// Scripts at the limits of length and nesting.
#[test]
fn lengths_and_heights(rt: HostRuntime) -> Result<(), Fail> {
    let alloc = rt.alloc();
    for (times, front, middle, back, want) in &SIZES {
        let text = between(alloc, *times, front, middle, back)?;
        assert_eq!(rt;
            script_text(alloc, text.as_str())?.as_str(),
            *want,
            "{times} {front}"
        );
    }
    Ok(())
}

/// Expressions, and their operator with those of their operands.
static LEVELS: [(&str, &str); 11] = [
    ("a || b && c", "Or None Some(And)"),
    ("a && b | c", "And None Some(BitOr)"),
    ("a | b ^ c", "BitOr None Some(BitXor)"),
    ("a ^ b & c", "BitXor None Some(BitAnd)"),
    ("a & b == c", "BitAnd None Some(Compare(Equal))"),
    ("a < b == c", "Compare(Equal) Some(Compare(Less)) None"),
    ("a < b + c", "Compare(Less) None Some(Add)"),
    ("a * b + c", "Add Some(Mul) None"),
    ("a - b - c", "Sub Some(Sub) None"),
    ("-a * b", "Mul None None"),
    ("!a ? b : c ? d : e", "no binary"),
];

/// Expressions with the operators that they are read as, by their levels.
#[test]
fn operators_by_level(rt: HostRuntime) -> Result<(), Fail> {
    let alloc = rt.alloc();
    for (text, want) in &LEVELS {
        assert_eq!(rt; expr_text(alloc, text)?.as_str(), *want, "{text}");
    }
    Ok(())
}
