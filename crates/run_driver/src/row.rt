ghost use Rattle.std.specs.Prelude.{◌+◌, ◌<◌, ◌≤◌, length};
ghost use Rattle.std.specs.List.{All};
ghost use Rattle.run_driver.specs.Ready.{expr_reach, sort_reach};

use crate::effects::apply;
use crate::expression::{Inputs, ReadyExpr};
use crate::facts::FactTable;
use crate::hold::Hold;
use crate::outs::Outs;
use crate::sort::ReadySort;
use base_texts::Items;
use spec_run::{Cause, Reply};
use spec_world::Set;

/// A row of a world, made ready for the calls of drivers. Contracts see its `rule`.
#[derive(Debug, Drop)]
pub struct ReadyRow {
    pub sort: ReadySort,
    /// The effects of a completion.
    pub sets: Items<Set>,
    /// The outputs of a completion.
    pub outs: Items<ReadyExpr>,
    /// How many facts the world has.
    pub facts: u32,
    pub ghost sees: { sort_reach sort ≤ 8 + facts },
    pub ghost effects: { All (λ set. set.fact < facts) sets },
    pub ghost few: { length outs ≤ 8 },
    pub ghost outputs: { All (λ e. expr_reach e ≤ 8 + facts) outs },
}

impl ReadyRow {
    ghost use Rattle.std.specs.Prelude.{◌≡◌, [], Ok, Err, IfErr, OnErr, OnOk};
    ghost use Rattle.std.specs.Result.{result_map_both};
    ghost use Rattle.spec_run.specs.Leaf.{completion, worked_out, outputs_of};
    ghost use Rattle.base_tables.specs.Outputs.{numbered, outputs_after};
    ghost use Rattle.run_driver.specs.Rules.{rule};

    /// The outputs over these inputs and facts, in order, or the first fault. It is not inlined,
    /// since most rows have no outputs.
    #[inline(never)]
    fn outputs(&self, inputs: &Inputs, facts: &FactTable) -> Result<Outs, Cause>
        requires { length facts.now ≡ self.now.facts }
        ensures { result ≡ result_map_both numbered (λ cause. cause) (outputs_of (rule self.now).outs inputs.now facts.now) }
    {
        let mut outs = Outs::new();
        for e in self.outs.list() {
            outs.push(e.value(inputs, facts)?);
        }
        Ok(outs)
    }

    /// Makes the facts and `outs` those that a completion leaves. The error is its first fault, and
    /// then neither is changed. Where the row has no outputs, none are copied.
    #[inline(always)]
    fn work_out(&self, inputs: &Inputs, facts: &mut FactTable, outs: &mut Outs) -> Result<(), Cause>
        requires { length facts.old ≡ self.now.facts }
        ensures made { OnOk result (worked_out (rule self.now) inputs.now facts.old ≡ Ok (outs.new.numbers, facts.new)) }
        ensures untold { OnOk result (outs.new.told ≡ []) }
        ensures fault { IfErr result (λ cause. worked_out (rule self.now) inputs.now facts.old ≡ Err cause) }
        ensures facts { OnErr result (facts.new ≡ facts.old) }
        ensures outs { OnErr result (outs.new ≡ outs.old) }
    {
        match self.outs.list() {
            [] => {
                apply(self.sets.list(), facts)?;
                outs.clear();
            }
            _ => {
                let given = self.outputs(inputs, facts)?;
                apply(self.sets.list(), facts)?;
                *outs = given;
            }
        }
        Ok(())
    }

    /// Completes: the outputs over the facts before the effects, then the effects. It gives the
    /// reply, and the instance that is left: `after`, or `before` where an output or an effect has
    /// a fault, and then nothing is changed.
    pub fn complete(
        &self,
        before: Hold,
        after: Hold,
        inputs: &Inputs,
        facts: &mut FactTable,
        outs: &mut Outs,
    ) -> (Reply, Hold)
        requires { length facts.old ≡ self.now.facts }
        ensures reply { result.0 ≡ (completion (rule self.now) before after inputs.now facts.old).reply }
        ensures instance { result.1 ≡ (completion (rule self.now) before after inputs.now facts.old).instance }
        ensures facts { facts.new ≡ (completion (rule self.now) before after inputs.now facts.old).facts }
        ensures outs { outs.new ≡ outputs_after (completion (rule self.now) before after inputs.now facts.old) outs.old }
    {
        match self.work_out(inputs, facts, outs) {
            Ok(()) => (Reply::Success, after),
            Err(cause) => (Reply::Broken(cause), before),
        }
    }
}
