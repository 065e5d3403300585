//! What C is told by numbers, which include/bt.h names.
ghost use Rattle.std.specs.Prelude.{◌≡◌};
ghost use Rattle.host_library.specs.Codes as codes;
ghost use Rattle.host_library.specs.Numbers as numbers;

use spec_run::{Answer, Status};
use spec_session::Ended;
use spec_tree::Kind;

/// The call has done what it says.
pub const OK: u32 = 0;
/// A node has faulted.
pub const FAULT: u32 = 1;
/// Memory was wanting.
pub const NO_MEMORY: u32 = 2;
/// The call was not taken, and nothing has changed.
pub const MISUSE: u32 = 3;
/// The files are refused.
pub const REFUSED: u32 = 4;
/// The world has no own event up to this moment.
pub const NO_EVENT: u32 = 5;

/// The status of what is not there.
pub const NO_STATUS: u8 = 255;

/// How an event has ended.
pub fn code_of(made: Result<(), Ended>) -> u32
    ensures { result ≡ codes.code_of made }
{
    match made {
        Ok(()) => OK,
        Err(Ended::Fault(_)) => FAULT,
        Err(Ended::NoMemory) => NO_MEMORY,
        Err(Ended::Misused(_)) => MISUSE,
    }
}

/// The number of a status.
pub fn status_number(status: Status) -> u8
    ensures { result ≡ numbers.status_number status }
{
    match status {
        Status::Idle => 0,
        Status::Running => 1,
        Status::Success => 2,
        Status::Failure => 3,
    }
}

/// The number of an answer.
pub fn answer_number(answer: Answer) -> u8
    ensures { result ≡ numbers.answer_number answer }
{
    match answer {
        Answer::Running => 1,
        Answer::Success => 2,
        Answer::Failure => 3,
        Answer::Skipped => 4,
    }
}

/// The number of a node's kind.
pub fn kind_number(kind: Kind) -> u32
    ensures { result ≡ numbers.kind_number kind }
{
    match kind {
        Kind::Sequence => 1,
        Kind::SequenceWithMemory => 2,
        Kind::ReactiveSequence => 3,
        Kind::Fallback => 4,
        Kind::ReactiveFallback => 5,
        Kind::Parallel => 6,
        Kind::Switch(_) => 7,
        Kind::IfThenElse => 8,
        Kind::WhileDoElse => 9,
        Kind::RecoveryNode => 10,
        Kind::PipelineSequence => 11,
        Kind::RoundRobin => 12,
        Kind::Inverter => 13,
        Kind::ForceSuccess => 14,
        Kind::ForceFailure => 15,
        Kind::KeepRunningUntilFailure => 16,
        Kind::Retry => 17,
        Kind::Repeat => 18,
        Kind::Timeout => 19,
        Kind::Delay => 20,
        Kind::RunOnce => 21,
        Kind::RateController => 22,
        Kind::SubTree => 23,
        Kind::AlwaysSuccess => 24,
        Kind::AlwaysFailure => 25,
        Kind::ScriptNode => 26,
        Kind::ScriptCondition => 27,
        Kind::Leaf => 28,
    }
}
