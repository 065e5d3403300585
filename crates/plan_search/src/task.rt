use plan_trial::Task;
use spec_plan::Limits;

/// What stays the same in all steps of a plan.
#[derive(Drop)]
pub(crate) struct PlanTask<'a> {
    /// That of the modelled runs.
    pub runs: Task<'a>,
    pub limits: Limits,
}
