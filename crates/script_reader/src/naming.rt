ghost use Rattle.std.specs.Prelude.{◌≡◌, ◌+◌, length, IfOk, OnOk};
ghost use Rattle.std.specs.List.{flat_map};
ghost use Rattle.std.specs.Str.{bytes_eq};
ghost use Rattle.indexmap.specs.IndexSet.{insert_all, insert_key};
ghost use Rattle.spec_script.specs.Scripts.{distinct_names, names_of, stmt_names};

use base_texts::{Name, NoMemory};
use indexmap::IndexSet;
use spec_script::{Expr, Stmt};
use std::alloc::Global;

/// The names that were found in a script.
#[derive(Drop)]
struct Found {
    /// Each once, in the order in which they first stand there.
    names: IndexSet<Name>,
    /// How many there are, each as often as it stands there.
    count: usize,
}

/// Adds a name, where it is not yet among them, and counts it. The error is want of memory, so in all functions here:
/// a script with 2^64 names does not fit into memory.
fn add_name(alloc: Global, name: &Name, found: &mut Found) -> Result<(), NoMemory>
    ensures names { OnOk result (found.new.names.keys ≡ insert_key bytes_eq found.old.names.keys name.now) }
    ensures count { OnOk result (found.new.count ≡ found.old.count + 1) }
{
    match found.count.checked_add(1) {
        Some(count) => found.count = count,
        None => return Err(NoMemory),
    }
    if !found.names.contains(name) {
        found.names.insert(name.copy(alloc)?)?;
    }
    Ok(())
}

/// Adds the names that an expression looks at.
fn add_expr(alloc: Global, e: &Expr, found: &mut Found) -> Result<(), NoMemory>
    ensures names { OnOk result (found.new.names.keys ≡ insert_all bytes_eq found.old.names.keys (names_of e.now)) }
    ensures count { OnOk result (found.new.count ≡ found.old.count + length (names_of e.now)) }
{
    match e {
        Expr::Num(_) | Expr::Lit(_) => Ok(()),
        Expr::Look(name) => add_name(alloc, name, found),
        Expr::Group(a) | Expr::Unary(_, a) => add_expr(alloc, a.get(), found),
        Expr::Binary(_, a, b) => {
            add_expr(alloc, a.get(), found)?;
            add_expr(alloc, b.get(), found)
        }
        Expr::Choose(a, b, c) => {
            add_expr(alloc, a.get(), found)?;
            add_expr(alloc, b.get(), found)?;
            add_expr(alloc, c.get(), found)
        }
    }
}

/// Adds the names of a statement.
fn add_stmt(alloc: Global, stmt: &Stmt, found: &mut Found) -> Result<(), NoMemory>
    ensures names { OnOk result (found.new.names.keys ≡ insert_all bytes_eq found.old.names.keys (stmt_names stmt.now)) }
    ensures count { OnOk result (found.new.count ≡ found.old.count + length (stmt_names stmt.now)) }
{
    match stmt {
        Stmt::Create(name, e) | Stmt::Assign(name, e) | Stmt::Change(_, name, e) => {
            add_name(alloc, name, found)?;
            add_expr(alloc, e, found)
        }
        Stmt::Plain(e) => add_expr(alloc, e, found),
    }
}

/// The names, each once, and how many there are, each as often as it stands there.
fn told(alloc: Global, found: &Found) -> Result<(Vec<Name>, usize), NoMemory>
    ensures { IfOk result (λ told. (told.0.items ≡ found.now.names.keys) × (told.1 ≡ found.now.count)) }
{
    let mut names = Vec::with_capacity(alloc, found.names.len())?;
    for name in found.names.as_slice() {
        names.push(name.copy(alloc)?)?;
    }
    Ok((names, found.count))
}

/// The names in statements, each once, in the order in which they first stand there, and how many there are, each as
/// often as it does.
pub(crate) fn names_in(alloc: Global, stmts: &[Stmt]) -> Result<(Vec<Name>, usize), NoMemory>
    ensures names { IfOk result (λ told. told.0.items ≡ distinct_names stmts.now) }
    ensures count { IfOk result (λ told. told.1 ≡ length (flat_map stmt_names stmts.now)) }
{
    let mut found = Found {
        names: IndexSet::new(alloc),
        count: 0,
    };
    for stmt in stmts {
        add_stmt(alloc, stmt, &mut found)?;
    }
    told(alloc, &found)
}
