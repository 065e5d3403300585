use crate::expression::Inputs;
use crate::row::ReadyRow;
use spec_run::Phase;

/// Whether the leaf of a call is not running yet, and begins, or is running, and goes on.
#[derive(Clone, Copy, Debug, PartialEq, Eq)]
pub enum CallPhase {
    Start,
    Running,
}

impl CallPhase {
    ghost use Rattle.std.specs.Prelude.{◌≡◌};
    ghost use Rattle.run_driver.specs.Calls.{phase_asked};

    /// The phase that the call counts as.
    #[inline(always)]
    pub fn asked(self) -> Phase
        ensures { result ≡ phase_asked self }
    {
        match self {
            CallPhase::Start => Phase::Start,
            CallPhase::Running => Phase::Running,
        }
    }
}

/// What a driver is asked: the leaf of an instance is visited.
#[derive(Drop)]
pub struct Call<'a> {
    pub row: &'a ReadyRow,
    pub inputs: &'a Inputs,
    /// The time of the tick, in milliseconds.
    pub moment: u64,
    pub instance: u32,
    pub phase: CallPhase,
}
