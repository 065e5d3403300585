ghost use Rattle.std.specs.Prelude.{◌≡◌, true};
ghost use Rattle.std.specs.Str.Parse.{signed_digits_value};
ghost use Rattle.base_texts.specs.Stops.{Gives};
ghost use Rattle.spec_tree.specs.Numbers as numbers;
ghost use Rattle.spec_expect.specs.ExpectFile.{answer_in, end_in, moment_of, runner_in};

use base_texts::Stop;
use spec_expect::ExpectFaultKind;
use spec_run::Answer;
use world_lines::{is, ms, one_of};

/// The answer that a word names. None where it names none.
pub fn answer_in(word: &[u8]) -> Option<Answer>
    ensures { result ≡ answer_in word.now }
{
    if is(word, "RUNNING") {
        Some(Answer::Running)
    } else if is(word, "SUCCESS") {
        Some(Answer::Success)
    } else if is(word, "FAILURE") {
        Some(Answer::Failure)
    } else if is(word, "SKIPPED") {
        Some(Answer::Skipped)
    } else {
        None
    }
}

/// The end of a call that a word names. None where it names none.
pub fn end_in(word: &[u8]) -> Option<Answer>
    ensures { result ≡ end_in word.now }
{
    if is(word, "SUCCESS") {
        Some(Answer::Success)
    } else if is(word, "FAILURE") {
        Some(Answer::Failure)
    } else {
        None
    }
}

/// The moment in milliseconds, or the count in the same range, that a word writes. The fault is `Range`.
pub fn moment_of(word: &[u8]) -> Result<u64, Stop<ExpectFaultKind>>
    requires { numbers.is_canonical word.now ≡ true }
    ensures { Gives result (moment_of (signed_digits_value 10 word.now)) }
{
    match ms(word) {
        Some(moment) => Ok(moment),
        None => Err(Stop::Fault(ExpectFaultKind::Range)),
    }
}

/// The number of a runner that a word writes. The fault is `NoRunner`.
pub fn runner_in(runners: u8, word: &[u8]) -> Result<u8, Stop<ExpectFaultKind>>
    requires { numbers.is_canonical word.now ≡ true }
    ensures { Gives result (runner_in runners (signed_digits_value 10 word.now)) }
{
    match one_of(word, runners) {
        Some(runner) => Ok(runner),
        None => Err(Stop::Fault(ExpectFaultKind::NoRunner)),
    }
}
