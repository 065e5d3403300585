ghost use Rattle.std.specs.Prelude.{◌≡◌, ◌≤◌, ℕ, List, Option, Err, length};
ghost use Rattle.std.specs.List.{All};
ghost use Rattle.spec_script.specs.declared.value.Value.{Value};
ghost use Rattle.spec_script.specs.declared.fault.ExecFault.{ExecFault};
ghost use Rattle.script_code.specs.Running.{code_meets, code_reach, code_value};
ghost use Rattle.script_code.specs.Statements.{entry_at, expression, stmt_code_meets, stmt_code_reach, stmt_run};

use crate::postfix::Postfix;
use base_texts::{Items, Name, NoMemory, Shared};
use std::alloc::Global;

/// The code of a statement: that of its expression, and what is done of the value. Slots are told by the numbers that
/// the names have in their script.
#[derive(Debug, Drop)]
pub enum StmtCode {
    /// Writes the value to the slot of a name.
    Create(u32, Postfix),
    /// Writes the value to the slot of a name, which has an entry.
    Assign(u32, Postfix),
    /// Gives the value alone.
    Plain(Postfix),
}

impl StmtCode {
    /// The code of its expression, whose fault is the statement's.
    #[inline(always)]
    pub fn postfix(&self) -> &Postfix
        ensures code { result.now.instrs ≡ expression self.now }
        ensures reach { code_reach result.now.instrs ≤ stmt_code_reach self.now }
        ensures meets { (slots : ℕ → ℕ) (entries : List (Option Value)) →
            code_meets (entry_at slots entries) result.now.instrs ≡ stmt_code_meets slots self.now entries }
        ensures fault { (slots : ℕ → ℕ) (entries : List (Option Value)) (f : ExecFault) →
            code_value (entry_at slots entries) result.now.instrs ≡ Err f → (stmt_run slots self.now entries).answer ≡ Err f }
    {
        match self {
            StmtCode::Create(_, code) => code,
            StmtCode::Assign(_, code) => code,
            StmtCode::Plain(code) => code,
        }
    }
}

/// The code of a script, which all nodes that have the script share. Contracts see what it does over the slots that its
/// names are given (`program_over`).
#[derive(Debug, Drop)]
pub struct ScriptCode {
    pub(crate) stmts: Shared<Items<StmtCode>>,
    /// The names, each once, in the order in which they are first met.
    pub(crate) names: Shared<Items<Name>>,
    ghost numbered: { All (λ s. stmt_code_reach s ≤ length names) stmts },
}

impl ScriptCode {
    ghost use Rattle.std.specs.Prelude.{IfOk};
    ghost use Rattle.script_code.specs.Codes.{needed, program, program_over};
    ghost use Rattle.script_code.specs.Statements.{slots_below};

    /// Lends the names, by their numbers.
    pub fn names(&self) -> &[Name]
        ensures { result.now ≡ self.now.names }
    {
        self.names.get().list()
    }

    /// The code for one more owner. It allocates nothing; `NoMemory` stands for a full count of owners.
    pub fn share(&self) -> Result<ScriptCode, NoMemory>
        ensures { IfOk result (λ code. code ≡ self.now) }
    {
        Ok(ScriptCode {
            stmts: self.stmts.share()?,
            names: self.names.share()?,
        })
    }

    /// The code over these slots of its names. `NoMemory` where an allocation fails.
    #[tactic(auto, unfolding(crate::specs::Codes::needed, crate::specs::Codes::program, crate::specs::Codes::program_over))]
    pub fn over(&self, alloc: Global, slots: Vec<u32>) -> Result<Code, NoMemory>
        requires { length slots.items ≡ length self.now.names }
        ensures program { IfOk result (λ code. program code ≡ program_over self.now slots.items) }
        ensures needed { IfOk result (λ code. needed code ≡ slots_below slots.items) }
        ensures slots { IfOk result (λ code. code.slots ≡ slots.items) }
    {
        Ok(Code {
            stmts: self.stmts.share()?,
            slots: Shared::of(alloc, Items::of(slots))?,
        })
    }

    /// The code over the slots of another one, which shares them. It allocates nothing; `NoMemory` stands for a full count
    /// of owners.
    #[tactic(auto, unfolding(crate::specs::Codes::needed, crate::specs::Codes::program, crate::specs::Codes::program_over))]
    pub fn over_those_of(&self, other: &Code) -> Result<Code, NoMemory>
        requires { length other.now.slots ≡ length self.now.names }
        ensures program { IfOk result (λ code. program code ≡ program_over self.now other.now.slots) }
        ensures needed { IfOk result (λ code. needed code ≡ slots_below other.now.slots) }
        ensures slots { IfOk result (λ code. code.slots ≡ other.now.slots) }
    {
        Ok(Code {
            stmts: self.stmts.share()?,
            slots: other.slots.share()?,
        })
    }
}

/// The code of a script over slots. Contracts see its `program`, what running it does, and how many slots are `needed`.
#[derive(Debug, Drop)]
pub struct Code {
    pub(crate) stmts: Shared<Items<StmtCode>>,
    /// The slots of the names, by their numbers.
    pub(crate) slots: Shared<Items<u32>>,
    ghost numbered: { All (λ s. stmt_code_reach s ≤ length slots) stmts },
}

impl Code {
    ghost use Rattle.std.specs.Prelude.{IfOk};

    /// The code for one more owner. It allocates nothing; `NoMemory` stands for a full count of owners.
    pub fn share(&self) -> Result<Code, NoMemory>
        ensures { IfOk result (λ code. code ≡ self.now) }
    {
        Ok(Code {
            stmts: self.stmts.share()?,
            slots: self.slots.share()?,
        })
    }
}

/// The code of an expression. Contracts see its `formula`: what it gives, and what it needs.
#[derive(Debug, Drop)]
pub struct ExprCode {
    pub(crate) postfix: Postfix,
}
