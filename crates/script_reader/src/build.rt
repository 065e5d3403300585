ghost use Rattle.std.specs.Prelude.{◌≡◌, ◌+◌, ◌-◌, ◌≤◌, ◌<◌, ◌^◌, ◌∷◌, ℕ, false, max, IfOk, IsTrue, MatchBool, List, Option, length};
ghost use Rattle.spec_script.specs.Grammar.{level, comparison_level, height, IsExpr, IsStmts};
ghost use Rattle.spec_script.specs.Reading.{bare};
ghost use Rattle.script_reader.specs.Climb.{IsFirst, seen, sound, first, climb, last_part, then_found, from_token, follows, next_of, closed, negated, Within, statement_at, as_stmt, seen_stmt, ends_within, whole_expr, BuiltExpr, BuiltStmts};
ghost use Rattle.spec_script.specs.declared.syntax.Expr.{roll-Expr, Expr};
ghost use Rattle.spec_script.specs.declared.token.Token.TheVariants.{Close, Colon, Semicolon};
ghost use Rattle.spec_script.specs.declared.syntax.Stmt.{Stmt};
ghost use Rattle.spec_script.specs.declared.syntax.Stmt.TheVariants.{Plain};
ghost use Rattle.spec_script.specs.declared.syntax.Expr.TheOpen as layer;

use base_texts::{Boxed, NoMemory, Stop};
use spec_script::{BinOp, Cmp, Expr, Placed, ScriptFault, Stmt, Token, UnOp};
use std::alloc::Global;

/// The greatest height of an expression.
const MOST: u32 = 64;

/// The level of `? :`, the loosest.
const LOOSEST: u32 = 0;

/// The level of an expression that is no operation and no choice.
const TIGHTEST: u32 = 10;

/// An expression that was built, with its height.
#[derive(Debug, Drop)]
pub struct Built {
    pub expr: Expr,
    pub height: u32,
    /// The number of the token after it.
    pub next: usize,
}

/// What follows an expression and takes it as its first part.
#[derive(Clone, Copy, Debug, PartialEq, Eq)]
pub enum Follow {
    Nothing,
    Operation(BinOp),
    Choosing,
}

/// The token with this number, if there is one.
fn peek(tokens: &[Placed], at: usize) -> Option<&Token>
    ensures { IsFirst tokens.now at result }
{
    match tokens.get(at) {
        Some(placed) => Some(&placed.token),
        None => None,
    }
}

/// The level of a comparison's operator.
fn comparison_level(cmp: Cmp) -> u32
    ensures { result ≡ comparison_level cmp }
{
    match cmp {
        Cmp::Equal => 6,
        Cmp::Differ => 6,
        Cmp::Less => 7,
        Cmp::AtMost => 7,
        Cmp::More => 7,
        Cmp::AtLeast => 7,
    }
}

/// The level of an operator, from the loosest to the tightest.
fn level(op: BinOp) -> u32
    ensures value { result ≡ level op }
    ensures small { result < 10 }
{
    match op {
        BinOp::Or => 1,
        BinOp::And => 2,
        BinOp::BitOr => 3,
        BinOp::BitXor => 4,
        BinOp::BitAnd => 5,
        BinOp::Compare(cmp) => comparison_level(cmp),
        BinOp::Add => 8,
        BinOp::Sub => 8,
        BinOp::Mul => 9,
        BinOp::Div => 9,
    }
}

/// What follows an expression at the token with this number, in a place of this level: an operator of
/// this level or a tighter one, `?` at level 0, or nothing.
fn follow_at(tokens: &[Placed], at: usize, place: u32) -> Follow
    ensures value { next_of place (from_token tokens.now at) ≡ follows (from_token tokens.now (at + 1)) result }
    ensures within { Within tokens.now at result }
{
    match peek(tokens, at) {
        Some(Token::Operator(op)) => {
            if place <= level(*op) {
                Follow::Operation(*op)
            } else {
                Follow::Nothing
            }
        }
        Some(Token::Question) => {
            if place == LOOSEST {
                Follow::Choosing
            } else {
                Follow::Nothing
            }
        }
        _ => Follow::Nothing,
    }
}

/// The operation on this operand. `NoMemory` where an allocation fails, as in the functions below.
fn unary(alloc: Global, op: UnOp, a: Built) -> Result<Built, NoMemory>
    requires { a.height ≤ 64 }
    ensures { IfOk result (λ b. (b.expr ≡ roll-Expr (layer.Unary op a.expr)) × (b.height ≡ a.height + 1) × (b.next ≡ a.next)) }
{
    let Built { expr, height, next } = a;
    let expr = Expr::Unary(op, Boxed::of(alloc, expr)?);
    Ok(Built {
        expr,
        height: height + 1,
        next,
    })
}

/// The expression in parentheses. The token after it is its `)`, which it takes in.
fn group(alloc: Global, a: Built) -> Result<Built, NoMemory>
    requires { (a.height ≤ 64) × (a.next + 1 < 2 ^ 63) }
    ensures { IfOk result (λ b. (b.expr ≡ roll-Expr (layer.Group a.expr)) × (b.height ≡ a.height + 1) × (b.next ≡ a.next + 1)) }
{
    let Built { expr, height, next } = a;
    let expr = Expr::Group(Boxed::of(alloc, expr)?);
    Ok(Built {
        expr,
        height: height + 1,
        next: next + 1,
    })
}

/// The operation between these operands.
fn binary(alloc: Global, op: BinOp, a: Built, b: Built) -> Result<Built, NoMemory>
    requires { (a.height ≤ 64) × (b.height ≤ 64) }
    ensures { IfOk result (λ c. (c.expr ≡ roll-Expr (layer.Binary op a.expr b.expr))
        × (c.height ≡ 1 + max a.height b.height) × (c.next ≡ b.next)) }
{
    let height = 1 + a.height.max(b.height);
    let next = b.next;
    let a = Boxed::of(alloc, a.expr);
    let b = Boxed::of(alloc, b.expr);
    let expr = Expr::Binary(op, a?, b?);
    Ok(Built { expr, height, next })
}

/// The choice `a ? b : c`.
fn choice(alloc: Global, a: Built, b: Built, c: Built) -> Result<Built, NoMemory>
    requires { (a.height ≤ 64) × (b.height ≤ 64) × (c.height ≤ 64) }
    ensures { IfOk result (λ d. (d.expr ≡ roll-Expr (layer.Choose a.expr b.expr c.expr))
        × (d.height ≡ 1 + max a.height (max b.height c.height)) × (d.next ≡ c.next)) }
{
    let height = 1 + a.height.max(b.height.max(c.height));
    let next = c.next;
    let a = Boxed::of(alloc, a.expr);
    let b = Boxed::of(alloc, b.expr);
    let c = Boxed::of(alloc, c.expr);
    let expr = Expr::Choose(a?, b?, c?);
    Ok(Built { expr, height, next })
}

/// Whether the token with this number is `)`.
fn is_close(tokens: &[Placed], at: usize) -> bool
    ensures yes { IsTrue result → (from_token tokens.now at ≡ Close ∷ from_token tokens.now (at + 1)) × (at < length tokens.now) }
    ensures no { (result ≡ false) → (e : Expr) → closed e (from_token tokens.now at) ≡ None }
{
    match peek(tokens, at) {
        Some(Token::Close) => true,
        _ => false,
    }
}

/// Whether the token with this number is `:`.
fn is_colon(tokens: &[Placed], at: usize) -> bool
    ensures yes { IsTrue result → (from_token tokens.now at ≡ Colon ∷ from_token tokens.now (at + 1)) × (at < length tokens.now) }
    ensures no { (result ≡ false) → (limit : ℕ) (a b : Expr) → last_part (climb limit) a b (from_token tokens.now at) ≡ None }
{
    match peek(tokens, at) {
        Some(Token::Colon) => true,
        _ => false,
    }
}

/// An expression of one token.
fn leaf(expr: Expr, at: usize) -> Built
    requires { at + 1 < 2 ^ 63 }
    ensures { (result.expr ≡ expr) × (result.height ≡ 1) × (result.next ≡ at + 1) }
{
    Built {
        expr,
        height: 1,
        next: at + 1,
    }
}

/// The operand that begins with this token. None where there is none, or where one of its parts is
/// higher than the limit.
#[cycle(climbing)]
fn operand(
    alloc: Global,
    tokens: &[Placed],
    at: usize,
    limit: u32,
) -> Result<Option<Built>, NoMemory>
    requires { (limit < 64) × (length tokens.now < 2 ^ 32) }
    ensures value { IfOk result (λ found. seen tokens.now found ≡ first (climb limit) (from_token tokens.now at)) }
    ensures sound { IfOk result (λ found. sound tokens.now (limit + 1) found) }
{
    match peek(tokens, at) {
        Some(Token::Number(n)) => Ok(Some(leaf(Expr::Num(*n), at))),
        Some(Token::Text(text)) => Ok(Some(leaf(Expr::Lit(text.copy(alloc)?), at))),
        Some(Token::Word(name)) => Ok(Some(leaf(Expr::Look(name.copy(alloc)?), at))),
        Some(Token::Operator(BinOp::Sub)) => prefixed(alloc, tokens, UnOp::Neg, at + 1, limit),
        Some(Token::Bang) => prefixed(alloc, tokens, UnOp::Not, at + 1, limit),
        Some(Token::Tilde) => prefixed(alloc, tokens, UnOp::Flip, at + 1, limit),
        Some(Token::Open) => grouped(alloc, tokens, at + 1, limit),
        _ => Ok(None),
    }
}

/// The operation of a sign on the operand that begins with this token. None as for `operand`.
#[cycle(climbing)]
fn prefixed(
    alloc: Global,
    tokens: &[Placed],
    op: UnOp,
    at: usize,
    limit: u32,
) -> Result<Option<Built>, NoMemory>
    requires { (limit < 64) × (length tokens.now < 2 ^ 32) }
    ensures value { IfOk result (λ found. seen tokens.now found ≡ then_found (climb limit 10 (from_token tokens.now at)) (negated op)) }
    ensures sound { IfOk result (λ found. sound tokens.now (limit + 1) found) }
{
    match climb(alloc, tokens, at, TIGHTEST, limit)? {
        Some(a) => Ok(Some(unary(alloc, op, a)?)),
        None => Ok(None),
    }
}

/// The expression in parentheses of which the first token is this one, after the `(`. None where it is
/// not closed, and as for `operand`.
#[cycle(climbing)]
fn grouped(
    alloc: Global,
    tokens: &[Placed],
    at: usize,
    limit: u32,
) -> Result<Option<Built>, NoMemory>
    requires { (limit < 64) × (length tokens.now < 2 ^ 32) }
    ensures value { IfOk result (λ found. seen tokens.now found ≡ then_found (climb limit 0 (from_token tokens.now at)) closed) }
    ensures sound { IfOk result (λ found. sound tokens.now (limit + 1) found) }
{
    let Some(a) = climb(alloc, tokens, at, LOOSEST, limit)? else {
        return Ok(None);
    };
    if !is_close(tokens, a.next) {
        return Ok(None);
    }
    Ok(Some(group(alloc, a)?))
}

/// The choice `a ? b : c`, of which `c` is to be read: the `:` is the token after `b`. None where it is
/// not there, and as for `operand`.
#[cycle(climbing)]
fn otherwise(
    alloc: Global,
    tokens: &[Placed],
    a: Built,
    b: Built,
    limit: u32,
) -> Result<Option<Built>, NoMemory>
    requires small { (limit < 64) × (length tokens.now < 2 ^ 32) }
    requires a { (a.height ≡ height a.expr) × (a.height ≤ limit) }
    requires b { (b.height ≡ height b.expr) × (b.height ≤ limit) × (b.next ≤ length tokens.now) }
    ensures value { IfOk result (λ found. seen tokens.now found ≡ last_part (climb limit) a.expr b.expr (from_token tokens.now b.next)) }
    ensures sound { IfOk result (λ found. sound tokens.now (limit + 1) found) }
{
    if !is_colon(tokens, b.next) {
        drop((a, b));
        return Ok(None);
    }
    match climb(alloc, tokens, b.next + 1, LOOSEST, limit) {
        Ok(Some(c)) => Ok(Some(choice(alloc, a, b, c)?)),
        Ok(None) => {
            drop((a, b));
            Ok(None)
        }
        Err(stop) => {
            drop((a, b));
            Err(stop)
        }
    }
}

/// The choice of which `a` is the test; the `?` is the token after it. None where one of its parts is
/// missing, and as for `operand`.
#[cycle(climbing)]
fn chosen(alloc: Global, tokens: &[Placed], a: Built, limit: u32) -> Result<Option<Built>, NoMemory>
    requires small { (limit < 64) × (length tokens.now < 2 ^ 32) }
    requires a { (a.height ≡ height a.expr) × (a.height ≤ limit) × (a.next < length tokens.now) }
    ensures value { IfOk result (λ found. seen tokens.now found
        ≡ then_found (climb limit 0 (from_token tokens.now (a.next + 1))) (last_part (climb limit) a.expr)) }
    ensures sound { IfOk result (λ found. sound tokens.now (limit + 1) found) }
{
    match climb(alloc, tokens, a.next + 1, LOOSEST, limit)? {
        Some(b) => otherwise(alloc, tokens, a, b, limit),
        None => Ok(None),
    }
}

/// The expression that begins with this token, as long as a place of this level can have it. None where
/// there is none, or where it is higher than the limit.
#[cycle(climbing)]
pub fn climb(
    alloc: Global,
    tokens: &[Placed],
    at: usize,
    place: u32,
    limit: u32,
) -> Result<Option<Built>, NoMemory>
    requires { (limit ≤ 64) × (length tokens.now < 2 ^ 32) }
    ensures value { IfOk result (λ found. seen tokens.now found ≡ climb limit place (from_token tokens.now at)) }
    ensures sound { IfOk result (λ found. sound tokens.now limit found) }
{
    if limit == 0 {
        return Ok(None);
    }
    let Some(mut a) = operand(alloc, tokens, at, limit - 1)? else {
        return Ok(None);
    };
    'turns: loop {
        match follow_at(tokens, a.next, place) {
            Follow::Nothing => return Ok(Some(a)),
            Follow::Choosing => {
                if a.height >= limit {
                    drop(a);
                    return Ok(None);
                }
                return chosen(alloc, tokens, a, limit - 1);
            }
            Follow::Operation(op) => {
                if a.height >= limit {
                    drop(a);
                    return Ok(None);
                }
                let Some(b) = climb(alloc, tokens, a.next + 1, level(op) + 1, limit - 1)? else {
                    drop(a);
                    return Ok(None);
                };
                a = binary(alloc, op, a, b)?;
            }
        }
    }
}

/// The expression that begins with this token. None where there is none, or where it is higher than 64.
fn expression(alloc: Global, tokens: &[Placed], at: usize) -> Result<Option<Built>, NoMemory>
    requires { length tokens.now < 2 ^ 32 }
    ensures value { IfOk result (λ found. seen tokens.now found ≡ whole_expr (from_token tokens.now at)) }
    ensures sound { IfOk result (λ found. sound tokens.now 64 found) }
{
    climb(alloc, tokens, at, LOOSEST, MOST)
}

/// The expression that all these tokens are. The fault `TooNested`, with the place of the first token,
/// where it is higher than 64.
pub fn alone(alloc: Global, tokens: &[Placed]) -> Result<Expr, Stop<ScriptFault>>
    requires small { length tokens.now < 2 ^ 32 }
    requires whole { (e : Expr) × IsExpr (bare tokens.now) e }
    ensures { BuiltExpr tokens.now result }
{
    let place = tokens[0].place;
    match expression(alloc, tokens, 0)? {
        Some(built) => Ok(built.expr),
        None => Err(Stop::Fault(ScriptFault::TooNested { place })),
    }
}

/// The statement that is an expression, and the number of the token after it. None as for `expression`.
fn evaluated(alloc: Global, tokens: &[Placed], at: usize) -> Result<Option<(Stmt, usize)>, NoMemory>
    requires { length tokens.now < 2 ^ 32 }
    ensures value { IfOk result (λ found. seen_stmt tokens.now found ≡ as_stmt Plain (whole_expr (from_token tokens.now at))) }
    ensures within { IfOk result (λ found. ends_within tokens.now found) }
{
    match expression(alloc, tokens, at)? {
        Some(e) => Ok(Some((Stmt::Plain(e.expr), e.next))),
        None => Ok(None),
    }
}

/// The statement that begins with this token, and the number of the token after it. None where its
/// expression is higher than 64.
fn statement(alloc: Global, tokens: &[Placed], at: usize) -> Result<Option<(Stmt, usize)>, NoMemory>
    requires { length tokens.now < 2 ^ 32 }
    ensures value { IfOk result (λ found. seen_stmt tokens.now found ≡ statement_at (from_token tokens.now at)) }
    ensures within { IfOk result (λ found. ends_within tokens.now found) }
{
    let Some(Token::Word(name)) = peek(tokens, at) else {
        return evaluated(alloc, tokens, at);
    };
    let sign = at + 1;
    match peek(tokens, sign) {
        Some(Token::Creates) => {
            let name = name.copy(alloc)?;
            let Some(e) = expression(alloc, tokens, sign + 1)? else {
                return Ok(None);
            };
            Ok(Some((Stmt::Create(name, e.expr), e.next)))
        }
        Some(Token::Assigns) => {
            let name = name.copy(alloc)?;
            let Some(e) = expression(alloc, tokens, sign + 1)? else {
                return Ok(None);
            };
            Ok(Some((Stmt::Assign(name, e.expr), e.next)))
        }
        Some(Token::Changes(op)) => {
            let name = name.copy(alloc)?;
            let Some(e) = expression(alloc, tokens, sign + 1)? else {
                return Ok(None);
            };
            Ok(Some((Stmt::Change(*op, name, e.expr), e.next)))
        }
        _ => evaluated(alloc, tokens, at),
    }
}

/// Whether the token is `;`.
fn is_semicolon(placed: &Placed) -> bool
    ensures { MatchBool result (placed.now.token ≡ Semicolon) (placed.now.token ≡ Semicolon → ⊥) }
{
    match &placed.token {
        Token::Semicolon => true,
        _ => false,
    }
}

/// The statements of tokens that are a whole script. The fault `TooNested`, with the place of the first
/// token of the statement, where an expression is higher than 64.
pub fn statements(alloc: Global, tokens: &[Placed]) -> Result<Vec<Stmt>, Stop<ScriptFault>>
    requires small { length tokens.now < 2 ^ 32 }
    requires whole { (slots : List (Option Stmt)) × IsStmts (bare tokens.now) slots }
    ensures { BuiltStmts tokens.now result }
{
    let mut stmts = Vec::new(alloc);
    let mut at = 0;
    while at < tokens.len() {
        let placed = &tokens[at];
        if is_semicolon(placed) {
            at += 1;
        } else {
            let place = placed.place;
            match statement(alloc, tokens, at)? {
                Some((stmt, next)) => {
                    stmts.push(stmt)?;
                    at = next;
                }
                None => return Err(Stop::Fault(ScriptFault::TooNested { place })),
            }
        }
    }
    Ok(stmts)
}
