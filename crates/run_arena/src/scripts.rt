ghost use Rattle.std.specs.Prelude.{◌≡◌, false, None, IsTrue, OnOk, is_some};
ghost use Rattle.spec_tree.specs.declared.term.Term.{out-Term};
ghost use Rattle.spec_run.specs.Sites.{View};
ghost use Rattle.spec_tree.specs.Trees.{GuardsFit, ScriptFits};
ghost use Rattle.run_arena.specs.Laying.{IsScripted};
ghost use Rattle.run_arena.specs.Nodes.{AreCompiled, IsCompiled, has_after, has_before, no_guards as without_guards};
ghost use Rattle.run_arena.specs.Resolving.{AreNamed, GuardsAreNamed, names_if_there, view_in};
ghost use Rattle.run_arena.specs.Stands.{written};

use crate::book::Slotting;
use crate::nodes::{Node, ReadyGuards};
use crate::resolving::{Setting, is_after, is_before, ready_guards, ready_script};
use base_texts::{NoMemory, Shared};
use spec_tree::{Guards, Term};
use std::mem::replace;

/// No guards.
pub(crate) fn no_guards() -> ReadyGuards
    ensures { result ≡ without_guards }
{
    ReadyGuards {
        before: false,
        after: false,
        failure_if: None,
        success_if: None,
        skip_if: None,
        while_true: None,
        on_success: None,
        on_failure: None,
        post: None,
        on_halted: None,
    }
}

/// Whether these are no guards.
fn are_none(guards: &Guards) -> bool
    ensures before { IsTrue result → has_before guards.now ≡ false }
    ensures after { IsTrue result → has_after guards.now ≡ false }
    ensures halted { IsTrue result → is_some guards.now.on_halted ≡ false }
{
    !is_before(guards) && !is_after(guards) && guards.on_halted.is_none()
}

/// Whether a node has neither code nor guards.
#[tactic(auto, using(crate::proofs::Unguarded::none_compiled, crate::proofs::Unguarded::unguarded))]
fn is_plain(term: &Term) -> bool
    ensures code { IsTrue result → (view : View) → IsCompiled view (out-Term term.now).code None }
    ensures guards { IsTrue result → (view : View) → AreCompiled view (out-Term term.now).guards without_guards }
{
    term.code.is_none() && are_none(&term.guards)
}

/// Gives a node the code and the guards of its term, compiled for the scope of this number. It is not
/// inlined, since few nodes have any. The error is want of memory.
#[inline(never)]
fn give_some<O: Slotting>(
    node: &mut Node,
    term: &Term,
    setting: &Setting<O>,
    scope: u32,
) -> Result<(), NoMemory>
    requires code_fits { ScriptFits (out-Term term.now).code }
    requires guards_fit { GuardsFit (out-Term term.now).guards }
    requires code { AreNamed setting.now.tree.now scope (names_if_there (out-Term term.now).code) }
    requires guards { GuardsAreNamed setting.now.tree.now scope (out-Term term.now).guards }
    ensures same { OnOk result (node.new ≡ record node.old { code = node.new.code; guards = node.new.guards }) }
    ensures scripted { OnOk result (
        IsScripted (view_in setting.now.tree.now setting.now.world.now scope) (written (out-Term term.now)) node.new) }
{
    let code = ready_script(&term.code, setting, scope)?;
    drop(replace(&mut node.code, code));
    let guards = ready_guards(&term.guards, setting, scope)?;
    drop(replace(&mut node.guards, Shared::of(setting.alloc, guards)?));
    Ok(())
}

/// Gives a node that has neither code nor guards yet those of its term, compiled for the scope of this
/// number. The error is want of memory.
pub(crate) fn give_scripts<O: Slotting>(
    node: &mut Node,
    term: &Term,
    setting: &Setting<O>,
    scope: u32,
) -> Result<(), NoMemory>
    requires no_code { node.old.code ≡ None }
    requires unguarded { node.old.guards ≡ without_guards }
    requires code_fits { ScriptFits (out-Term term.now).code }
    requires guards_fit { GuardsFit (out-Term term.now).guards }
    requires code { AreNamed setting.now.tree.now scope (names_if_there (out-Term term.now).code) }
    requires guards { GuardsAreNamed setting.now.tree.now scope (out-Term term.now).guards }
    ensures same { OnOk result (node.new ≡ record node.old { code = node.new.code; guards = node.new.guards }) }
    ensures scripted { OnOk result (
        IsScripted (view_in setting.now.tree.now setting.now.world.now scope) (written (out-Term term.now)) node.new) }
{
    if is_plain(term) {
        return Ok(());
    }
    give_some(node, term, setting, scope)
}
