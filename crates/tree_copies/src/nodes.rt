ghost use Rattle.std.specs.Prelude.{◌≡◌, IfOk};

use crate::scripts::share_script;
use base_texts::NoMemory;
use spec_tree::Guards;

/// The guards once more. Their scripts are not copied. The error is want of memory.
pub fn share_guards(guards: &Guards) -> Result<Guards, NoMemory>
    ensures { IfOk result (λ shared. shared ≡ guards.now) }
{
    Ok(Guards {
        failure_if: share_script(&guards.failure_if)?,
        success_if: share_script(&guards.success_if)?,
        skip_if: share_script(&guards.skip_if)?,
        while_true: share_script(&guards.while_true)?,
        on_success: share_script(&guards.on_success)?,
        on_failure: share_script(&guards.on_failure)?,
        post: share_script(&guards.post)?,
        on_halted: share_script(&guards.on_halted)?,
    })
}
