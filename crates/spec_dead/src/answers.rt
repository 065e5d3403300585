ghost use Rattle.std.specs.Prelude.{◌≡◌};
ghost use Rattle.spec_dead.specs.Answers.{any_answer, becoming, either, exchanged, may, no_answer, only, only_if, without};

use spec_run::Answer;

/// A set of answers: those that a visit may give.
#[derive(Clone, Copy, Debug, PartialEq, Eq)]
pub struct Answers {
    pub running: bool,
    pub success: bool,
    pub failure: bool,
    pub skipped: bool,
}

impl Answers {
    /// No answer.
    pub fn none() -> Answers
        ensures { result ≡ no_answer }
    {
        Answers {
            running: false,
            success: false,
            failure: false,
            skipped: false,
        }
    }

    /// Every answer.
    pub fn any() -> Answers
        ensures { result ≡ any_answer }
    {
        Answers {
            running: true,
            success: true,
            failure: true,
            skipped: true,
        }
    }

    /// One answer alone.
    pub fn only(answer: Answer) -> Answers
        ensures { result ≡ only answer }
    {
        let mut answers = Answers::none();
        match answer {
            Answer::Running => answers.running = true,
            Answer::Success => answers.success = true,
            Answer::Failure => answers.failure = true,
            Answer::Skipped => answers.skipped = true,
        }
        answers
    }

    /// Whether an answer is among these.
    pub fn may(self, answer: Answer) -> bool
        ensures { result ≡ may answer self }
    {
        match answer {
            Answer::Running => self.running,
            Answer::Success => self.success,
            Answer::Failure => self.failure,
            Answer::Skipped => self.skipped,
        }
    }

    /// These answers and others.
    pub fn or(self, others: Answers) -> Answers
        ensures { result ≡ either self others }
    {
        Answers {
            running: self.running || others.running,
            success: self.success || others.success,
            failure: self.failure || others.failure,
            skipped: self.skipped || others.skipped,
        }
    }

    /// These answers where something holds, and else none.
    pub fn only_if(self, holds: bool) -> Answers
        ensures { result ≡ only_if holds self }
    {
        if holds { self } else { Answers::none() }
    }

    /// All of these answers but one.
    pub fn without(self, answer: Answer) -> Answers
        ensures { result ≡ without answer self }
    {
        let mut answers = self;
        match answer {
            Answer::Running => answers.running = false,
            Answer::Success => answers.success = false,
            Answer::Failure => answers.failure = false,
            Answer::Skipped => answers.skipped = false,
        }
        answers
    }

    /// These answers, with SUCCESS and FAILURE exchanged.
    pub fn exchanged(self) -> Answers
        ensures { result ≡ exchanged self }
    {
        Answers {
            running: self.running,
            success: self.failure,
            failure: self.success,
            skipped: self.skipped,
        }
    }

    /// These answers, where one of them becomes another one.
    pub fn becoming(self, from: Answer, to: Answer) -> Answers
        ensures { result ≡ becoming from to self }
    {
        self.without(from)
            .or(Answers::only(to).only_if(self.may(from)))
    }
}
