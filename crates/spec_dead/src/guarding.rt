ghost use Rattle.std.specs.Prelude.{◌≡◌, ◌&&◌};
ghost use Rattle.spec_dead.specs.Guards.{answers_after};

use crate::answers::Answers;

/// What the guards of a node may do before its rule.
#[derive(Clone, Copy, Debug)]
pub struct Guarding {
    /// The answers that they may give.
    pub answers: Answers,
    /// Whether the node's rule may be applied after them.
    pub goes_on: bool,
}

impl Guarding {
    /// What a node may answer whose rule may give these answers.
    pub fn then(self, rule: Answers) -> Answers
        ensures { result ≡ answers_after self rule }
    {
        self.answers.or(rule.only_if(self.goes_on))
    }

    /// Whether a node visits a child that its rule may visit, where the node is reached or not.
    pub fn visits(self, reached: bool, by_rule: bool) -> bool
        ensures { result ≡ (reached && self.goes_on && by_rule) }
    {
        reached && self.goes_on && by_rule
    }
}
