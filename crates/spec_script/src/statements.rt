ghost use Rattle.std.specs.Prelude.{◌≡◌, length};
ghost use Rattle.std.specs.List.{flat_map};
ghost use Rattle.spec_script.specs.Scripts.{distinct_names, stmt_names};

use crate::syntax::Stmt;
use base_texts::{Items, Name};
use std::marker::Model;

/// The statements of a script, with the names that stand in them, so that who looks for names does not walk through all
/// expressions. Contracts see the statements.
#[derive(Debug, Drop)]
pub struct Statements {
    stmts: Items<Stmt>,
    /// Each name once, in the order in which they first stand there.
    names: Items<Name>,
    /// How many names stand there, each as often as it does.
    named: usize,
}

impl Model for Statements {
    ghost use Rattle.std.specs.Coded.{codes};
    ghost use Rattle.std.specs.List.{flat_map};
    ghost use Rattle.std.specs.Prelude.{List, ◌≡◌, length};
    ghost use Rattle.spec_script.specs.contracts.syntax.Expr as expr;
    ghost use Rattle.spec_script.specs.declared.syntax.Stmt.{Stmt};
    ghost use Rattle.spec_script.specs.Scripts.{distinct_names, stmt_names};

    ghost Value = { List Stmt };

    ghost coded = { Prim.hlevel (codes, expr.the_row.coded) };

    ghost view = { λ it. it.stmts };

    ghost invariant = { λ it. (it.names ≡ distinct_names it.stmts) × (it.named ≡ length (flat_map stmt_names it.stmts)) };
}

impl Statements {
    /// These statements, in which these names stand, and so many with each as often as it does. It allocates nothing.
    pub fn of(stmts: Vec<Stmt>, names: Vec<Name>, named: usize) -> Statements
        requires names { names.items ≡ distinct_names stmts.items }
        requires named { named ≡ length (flat_map stmt_names stmts.items) }
        ensures { result ≡ stmts.items }
    {
        Statements {
            stmts: Items::of(stmts),
            names: Items::of(names),
            named,
        }
    }

    /// Lends the statements.
    pub fn list(&self) -> &[Stmt]
        ensures { result.now ≡ self.now }
    {
        self.stmts.list()
    }

    /// Lends the names, each once, in the order in which they first stand there.
    pub fn names(&self) -> &[Name]
        ensures { result.now ≡ distinct_names self.now }
    {
        self.names.list()
    }

    /// How many names stand there, each as often as it does.
    pub fn named(&self) -> usize
        ensures { result ≡ length (flat_map stmt_names self.now) }
    {
        self.named
    }
}
