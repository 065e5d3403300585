ghost use Rattle.std.specs.Prelude.{◌≡◌, ◌<◌, Ok, Err, IfErr, OnErr, OnOk, length};
ghost use Rattle.std.specs.List.{All};
ghost use Rattle.spec_run.specs.Leaf.{effects_of, fact_at, made_by};

use crate::facts::FactTable;
use spec_run::Cause;
use spec_world::{How, Set};

/// The value that an effect gives to its fact. The error is `Overflow`: the sum is no `i64`.
fn made(set: &Set, facts: &FactTable) -> Result<i64, Cause>
    requires { set.now.fact < length facts.now }
    ensures { result ≡ made_by set.now.how set.now.value (fact_at facts.now set.now.fact) }
{
    match set.how {
        How::To => Ok(set.value),
        How::By => {
            let sum = facts.get(set.fact).checked_add(set.value);
            sum.ok_or(Cause::Overflow)
        }
    }
}

/// Applies the effects. All values are computed before the first fact is changed. The error is the
/// first fault, and then no fact is changed.
pub fn apply(sets: &[Set], facts: &mut FactTable) -> Result<(), Cause>
    requires { All (λ set. set.fact < length facts.old) sets.now }
    ensures applied { OnOk result (effects_of sets.now facts.old ≡ Ok facts.new) }
    ensures fault { IfErr result (λ cause. effects_of sets.now facts.old ≡ Err cause) }
    ensures left { OnErr result (facts.new ≡ facts.old) }
    ensures length { length facts.new ≡ length facts.old }
{
    let [set, rest @ ..] = sets else {
        return Ok(());
    };
    let value = made(set, facts)?;
    apply(rest, facts)?;
    facts.put(set.fact, value);
    Ok(())
}
