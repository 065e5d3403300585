ghost use Rattle.std.specs.Prelude.{◌≡◌, ℕ, List};
ghost use Rattle.spec_script.specs.Reading.{ReadsExpr, ReadsScript, StmtsFault};
ghost use Rattle.spec_script.specs.ExprFaults.{ExprFault};
ghost use Rattle.spec_script.specs.declared.fault.ScriptFault.{ScriptFault};
ghost use Rattle.spec_script.specs.declared.syntax.Expr.{Expr};
ghost use Rattle.spec_script.specs.declared.syntax.Script.{Script};

/// A text reads as one script at most, or it has one fault.
pub fn scripts_read_one_way()
    ensures once { (text : List ℕ) (s t : Script) → ReadsScript text s → ReadsScript text t → s ≡ t }
    ensures fault { (text : List ℕ) (f g : ScriptFault) → StmtsFault text f → StmtsFault text g → f ≡ g }
    ensures not_both { (text : List ℕ) (s : Script) (f : ScriptFault) → ReadsScript text s → StmtsFault text f → ⊥ }
{}

/// A text reads as one expression at most, or it has one fault.
pub fn expressions_read_one_way()
    ensures once { (text : List ℕ) (e f : Expr) → ReadsExpr text e → ReadsExpr text f → e ≡ f }
    ensures fault { (text : List ℕ) (f g : ScriptFault) → ExprFault text f → ExprFault text g → f ≡ g }
    ensures not_both { (text : List ℕ) (e : Expr) (f : ScriptFault) → ReadsExpr text e → ExprFault text f → ⊥ }
{}
