ghost use Rattle.std.specs.Prelude.{◌≡◌, ◌+◌, ◌<◌, ◌≤◌, ℕ, List, [], ◌∷◌, ◌++◌, true, IfOk, IsTrue, OnOk, length, map};
ghost use Rattle.std.specs.List.{All, flat_map};
ghost use Rattle.std.specs.Str.{bytes_eq};
ghost use Rattle.indexmap.specs.IndexSet.{insert_all};
ghost use Rattle.script_code.specs.declared.instr.Instr.{Instr as Turn};
ghost use Rattle.script_code.specs.declared.instr.Instr.TheVariants.{Slot, Unless, Skip};
ghost use Rattle.script_code.specs.Codes.{IsCodeFor, formula};
ghost use Rattle.script_code.specs.Programs.{formula_of, statement_of};
ghost use Rattle.spec_script.specs.Grammar.{height};
ghost use Rattle.script_code.specs.Postfixes.{applied, begun, between, code_of, ended, has_jump, left_number as left_number_of, lone_number as lone_number_of, operator as operator_of, with_number as with_number_of};
ghost use Rattle.script_code.specs.Sources.{IsCompilable, IsListed, place_in, slot_of};
ghost use Rattle.spec_script.specs.Scripts.{names_of, stmt_names};
ghost use Rattle.script_code.specs.Statements.{stmt_code_reach, stmt_program};

use crate::codes::{ExprCode, ScriptCode, StmtCode};
use crate::instr::Instr;
use crate::places::{Numbering, Pairs, Places};
use crate::postfix::Postfix;
use base_texts::{Items, Name, NoMemory, Shared};
use spec_script::{BinOp, Expr, Script, Stmt};
use std::alloc::Global;

/// One more instruction.
fn put(code: &mut Vec<Instr>, instr: Instr) -> Result<(), NoMemory>
    ensures { OnOk result (code.new.items ≡ code.old.items ++ instr ∷ []) }
{
    code.push(instr)?;
    Ok(())
}

/// Begins the right operand of an operator: a jump that may pass over it is put there, still without
/// its length.
fn begin(op: BinOp, code: &mut Vec<Instr>) -> Result<(), NoMemory>
    ensures { OnOk result (code.new.items ≡ code.old.items ++ begun op) }
{
    match op {
        BinOp::And => put(code, Instr::AndThen(0)),
        BinOp::Or => put(code, Instr::OrElse(0)),
        _ => Ok(()),
    }
}

/// An operator whose operands are the two topmost values.
fn operator(op: BinOp) -> Instr
    ensures { result ≡ operator_of op }
{
    match op {
        BinOp::Add => Instr::Add,
        BinOp::Sub => Instr::Sub,
        BinOp::Mul => Instr::Mul,
        _ => Instr::Binary(op),
    }
}

/// An operator whose right operand is this number.
fn with_number(op: BinOp, n: i64) -> Instr
    ensures { result ≡ with_number_of op n }
{
    match op {
        BinOp::Add => Instr::AddNumber(n),
        BinOp::Sub => Instr::SubNumber(n),
        BinOp::Mul => Instr::MulNumber(n),
        _ => Instr::BinaryNumber(op, n),
    }
}

/// The number that a code puts on top, where it does nothing else.
fn lone_number(code: &[Instr]) -> Option<i64>
    ensures { result ≡ lone_number_of code.now }
{
    match code {
        [only] => match only {
            Instr::Number(n) => Some(*n),
            _ => None,
        },
        _ => None,
    }
}

/// The left operand of an operator that takes it in, which is a number.
fn left_number(op: BinOp, code: &[Instr]) -> Option<i64>
    ensures { result ≡ left_number_of op code.now }
{
    match op {
        BinOp::Add | BinOp::Mul => lone_number(code),
        _ => None,
    }
}

/// Puts an operator after its right operand, which began at this place and is taken in where it is a
/// number.
fn apply(op: BinOp, place: usize, code: &mut Vec<Instr>) -> Result<(), NoMemory>
    requires { place ≤ length code.old.items }
    ensures { (front b : List Turn) → place ≡ length front → code.old.items ≡ front ++ b →
        OnOk result (code.new.items ≡ front ++ applied op b) }
{
    match lone_number(&code[place..]) {
        Some(n) => {
            code[place] = with_number(op, n);
            Ok(())
        }
        None => put(code, operator(op)),
    }
}

/// Ends the right operand of an operator, which began at this place.
fn end(op: BinOp, place: usize, code: &mut Vec<Instr>) -> Result<(), NoMemory>
    requires place { place ≤ length code.old.items }
    requires jump { has_jump op ≡ true → place < length code.old.items }
    ensures { (front b : List Turn) → place ≡ length front → code.old.items ≡ front ++ (begun op ++ b) →
        OnOk result (code.new.items ≡ front ++ ended op b) }
{
    match op {
        BinOp::And => {
            code[place] = Instr::AndThen(code.len() - place);
            put(code, Instr::Truth)?;
            Ok(())
        }
        BinOp::Or => {
            code[place] = Instr::OrElse(code.len() - place);
            put(code, Instr::Truth)?;
            Ok(())
        }
        _ => apply(op, place, code),
    }
}

/// Writes the lengths of the two jumps of `? :`, which stand at these places.
fn aim(test: usize, end: usize, code: &mut Vec<Instr>)
    requires { test < end × end < length code.old.items }
    ensures { (front b c : List Turn) → test ≡ length front → end ≡ length front + 1 + length b →
        code.old.items ≡ front ++ Unless 0 ∷ (b ++ Skip 0 ∷ c) →
        code.new.items ≡ front ++ Unless (length b + 1) ∷ (b ++ Skip (length c) ∷ c) }
{
    code[test] = Instr::Unless(end - test);
    code[end] = Instr::Skip(code.len() - end - 1);
}

/// Puts the code of an expression after what is there, with their places for its names.
fn emit<P: Places>(
    alloc: Global,
    e: &Expr,
    places: &P,
    code: &mut Vec<Instr>,
) -> Result<(), NoMemory>
    ensures { OnOk result (code.new.items ≡ code.old.items ++ code_of (P.place places.now) e.now) }
{
    match e {
        Expr::Num(n) => put(code, Instr::Number(*n)),
        Expr::Lit(t) => put(code, Instr::Text(t.copy(alloc)?)),
        Expr::Look(name) => put(code, Instr::Slot(places.place_of(name))),
        Expr::Group(a) => emit(alloc, a.get(), places, code),
        Expr::Unary(op, a) => {
            emit(alloc, a.get(), places, code)?;
            put(code, Instr::Unary(*op))?;
            Ok(())
        }
        Expr::Binary(op, a, b) => {
            let start = code.len();
            emit(alloc, a.get(), places, code)?;
            if let Some(n) = left_number(*op, &code[start..]) {
                code.truncate(start);
                emit(alloc, b.get(), places, code)?;
                put(code, with_number(*op, n))?;
                return Ok(());
            }
            let place = code.len();
            begin(*op, code)?;
            emit(alloc, b.get(), places, code)?;
            end(*op, place, code)?;
            Ok(())
        }
        Expr::Choose(a, b, c) => {
            emit(alloc, a.get(), places, code)?;
            let test = code.len();
            put(code, Instr::Unless(0))?;
            emit(alloc, b.get(), places, code)?;
            let end = code.len();
            put(code, Instr::Skip(0))?;
            emit(alloc, c.get(), places, code)?;
            aim(test, end, code);
            Ok(())
        }
    }
}

/// Whether the expression is no higher than this.
fn is_low(e: &Expr, most: u32) -> bool
    ensures { IsTrue result → height e.now ≤ most }
{
    if most == 0 {
        return false;
    }
    match e {
        Expr::Num(_) => true,
        Expr::Lit(_) => true,
        Expr::Look(_) => true,
        Expr::Group(a) => is_low(a.get(), most - 1),
        Expr::Unary(_, a) => is_low(a.get(), most - 1),
        Expr::Binary(_, a, b) => is_low(a.get(), most - 1) && is_low(b.get(), most - 1),
        Expr::Choose(a, b, c) => {
            is_low(a.get(), most - 1) && is_low(b.get(), most - 1) && is_low(c.get(), most - 1)
        }
    }
}

/// The code of an expression.
fn postfix<P: Places>(alloc: Global, e: &Expr, places: &P) -> Result<Postfix, NoMemory>
    requires { height e.now ≤ 64 }
    ensures { IfOk result (λ p. p.instrs ≡ code_of (P.place places.now) e.now) }
{
    let mut code = Vec::new(alloc);
    emit(alloc, e, places, &mut code)?;
    code.shrink_to_fit();
    Ok(Postfix {
        instrs: Items::of(code),
        is_low: is_low(e, 8),
    })
}

/// The code of an operator between the entry of a name and an expression.
fn change<P: Places>(
    alloc: Global,
    op: BinOp,
    place: u32,
    e: &Expr,
    places: &P,
) -> Result<Postfix, NoMemory>
    requires { height e.now ≤ 64 }
    ensures { IfOk result (λ p. p.instrs ≡ between op (Slot place ∷ []) (code_of (P.place places.now) e.now)) }
{
    let mut code = Vec::new(alloc);
    put(&mut code, Instr::Slot(place))?;
    begin(op, &mut code)?;
    emit(alloc, e, places, &mut code)?;
    end(op, 1, &mut code)?;
    code.shrink_to_fit();
    Ok(Postfix {
        instrs: Items::of(code),
        is_low: is_low(e, 7),
    })
}

/// The code of a statement.
fn statement<P: Places>(alloc: Global, stmt: &Stmt, places: &P) -> Result<StmtCode, NoMemory>
    requires { IsCompilable stmt.now }
    ensures meaning { (slots : ℕ → ℕ) →
        IfOk result (λ s. stmt_program slots s ≡ statement_of (λ name. slots (P.place places.now name)) stmt.now) }
    ensures reach { (n : ℕ) → All (λ name. P.place places.now name < n) (stmt_names stmt.now) →
        IfOk result (λ s. stmt_code_reach s ≤ n) }
{
    match stmt {
        Stmt::Create(name, e) => {
            let code = postfix(alloc, e, places)?;
            Ok(StmtCode::Create(places.place_of(name), code))
        }
        Stmt::Assign(name, e) => {
            let code = postfix(alloc, e, places)?;
            Ok(StmtCode::Assign(places.place_of(name), code))
        }
        Stmt::Change(op, name, e) => {
            let place = places.place_of(name);
            let code = change(alloc, *op, place, e, places)?;
            Ok(StmtCode::Assign(place, code))
        }
        Stmt::Plain(e) => Ok(StmtCode::Plain(postfix(alloc, e, places)?)),
    }
}

/// Adds the names of an expression. The error is want of memory.
fn add_expr(alloc: Global, e: &Expr, names: &mut Numbering) -> Result<(), NoMemory>
    ensures { OnOk result (names.new ≡ insert_all bytes_eq names.old (names_of e.now)) }
{
    match e {
        Expr::Num(_) | Expr::Lit(_) => Ok(()),
        Expr::Look(name) => names.add(alloc, name),
        Expr::Group(a) | Expr::Unary(_, a) => add_expr(alloc, a.get(), names),
        Expr::Binary(_, a, b) => {
            add_expr(alloc, a.get(), names)?;
            add_expr(alloc, b.get(), names)
        }
        Expr::Choose(a, b, c) => {
            add_expr(alloc, a.get(), names)?;
            add_expr(alloc, b.get(), names)?;
            add_expr(alloc, c.get(), names)
        }
    }
}

/// Adds the names of a statement. The error is want of memory.
fn add_stmt(alloc: Global, stmt: &Stmt, names: &mut Numbering) -> Result<(), NoMemory>
    ensures { OnOk result (names.new ≡ insert_all bytes_eq names.old (stmt_names stmt.now)) }
{
    match stmt {
        Stmt::Create(name, e) | Stmt::Assign(name, e) | Stmt::Change(_, name, e) => {
            names.add(alloc, name)?;
            add_expr(alloc, e, names)
        }
        Stmt::Plain(e) => add_expr(alloc, e, names),
    }
}

/// The names of statements, each with its number, or want of memory.
fn numbering_of(alloc: Global, stmts: &[Stmt]) -> Result<Numbering, NoMemory>
    ensures { IfOk result (λ names. names ≡ insert_all bytes_eq [] (flat_map stmt_names stmts.now)) }
{
    let mut names = Numbering::none(alloc);
    for stmt in stmts {
        add_stmt(alloc, stmt, &mut names)?;
    }
    Ok(names)
}

/// The code of statements, one after the other.
fn statements(alloc: Global, stmts: &[Stmt], names: &Numbering) -> Result<Vec<StmtCode>, NoMemory>
    requires compilable { All IsCompilable stmts.now }
    requires named { All (λ name. place_in names.now name < length names.now) (flat_map stmt_names stmts.now) }
    ensures meaning { (slots : ℕ → ℕ) → IfOk result (λ codes.
        map (stmt_program slots) codes.items ≡ map (statement_of (λ name. slots (place_in names.now name))) stmts.now) }
    ensures reach { IfOk result (λ codes. All (λ s. stmt_code_reach s ≤ length names.now) codes.items) }
{
    let mut codes = Vec::with_capacity(alloc, stmts.len())?;
    for stmt in stmts {
        codes.push(statement(alloc, stmt, names)?)?;
    }
    Ok(codes)
}

/// The code of a script, over the numbers of its names.
#[tactic(auto, unfolding(crate::specs::Codes::program_over))]
pub fn compile(alloc: Global, script: &Script) -> Result<ScriptCode, NoMemory>
    requires { All IsCompilable script.now.stmts }
    ensures { IfOk result (IsCodeFor script.now) }
{
    let stmts = script.stmts.list();
    let names = numbering_of(alloc, stmts)?;
    let codes = statements(alloc, stmts, &names)?;
    Ok(ScriptCode {
        stmts: Shared::of(alloc, Items::of(codes))?,
        names: Shared::of(alloc, names.names(alloc)?)?,
    })
}

/// The code of an expression, with each name replaced by its slot. The first pair of a name counts.
pub fn compile_expr(alloc: Global, e: &Expr, slots: &[(Name, u32)]) -> Result<ExprCode, NoMemory>
    requires named { All (IsListed slots.now) (names_of e.now) }
    requires low { height e.now ≤ 64 }
    ensures meaning { IfOk result (λ code. formula code ≡ formula_of (slot_of slots.now) e.now) }
    ensures reach { (n : ℕ) → All (λ pair. pair.1 < n) slots.now → IfOk result (λ code. (formula code).reach ≤ n) }
{
    let postfix = postfix(alloc, e, &Pairs { slots })?;
    Ok(ExprCode { postfix })
}
