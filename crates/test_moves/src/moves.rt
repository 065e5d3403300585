//! What control nodes and decorators do, move by move, in whole visits.

ghost use Rattle.std.specs.Prelude.{IsTrue, ◌<◌, ℕ, false};
ghost use Rattle.base_tables.specs.BuiltInRows.{is_control, is_decorator};
ghost use Rattle.base_tables.specs.Moves.{Fits, FitsChild, FitsStart, HasChildAtHand, IsThere, RecoveryIsLeft, TurnIsLeft};
ghost use Rattle.spec_run.specs.Rules.Choices.{chosen_of};
ghost use Rattle.spec_run.specs.Rules.Recoveries.{recoveries_of};
ghost use Rattle.spec_run.specs.Rules.RoundRobins.{rotation_of};
ghost use Rattle.spec_run.specs.Rules.Turns.{limit_of, turns_of};

use run_moves::{control_next, decorator_next, goes_to_next};
use spec_run::{
    Answer, Counts, Heard, Memo, Move, Pace, Recoveries, Rotation, Since, Span, Then, Turns,
};
use spec_tree::Kind;
use std::alloc::{AllocError, Global};
use std::process::Abort;
use std::test::Fail;

/// A memo in words.
fn memo_text(alloc: Global, memo: Memo) -> Result<String, AllocError> {
    match memo {
        Memo::Nothing => format!(in alloc; ""),
        Memo::Index { at, seen: true } => format!(in alloc; " at {at} seen"),
        Memo::Index { at, seen: false } => format!(in alloc; " at {at}"),
        Memo::Counts(c) => format!(in alloc; " {} won {} lost", c.successes, c.failures),
        Memo::Chosen(Some(place)) => format!(in alloc; " chosen {place}"),
        Memo::Chosen(None) => format!(in alloc; " not chosen"),
        Memo::Turns(t) => format!(in alloc; " {} of {}", t.done, t.limit),
        Memo::Since(s) => format!(in alloc; " {} from {}", s.length, s.first),
        Memo::Finished(Some(answer)) => format!(in alloc; " mark {answer:?}"),
        Memo::Finished(None) => format!(in alloc; " no mark"),
        Memo::Recoveries(r) if r.recovers => {
            format!(in alloc; " recovers {} of {}", r.done, r.limit)
        }
        Memo::Recoveries(r) => format!(in alloc; " tries {} of {}", r.done, r.limit),
        Memo::Rotation(r) => format!(in alloc;
            " at {}, {} passed {} skipped",
            r.at, r.passed, r.skipped
        ),
        Memo::Pace(p) if p.due => format!(in alloc; " due {} from {}", p.rate, p.first),
        Memo::Pace(p) => format!(in alloc; " {} from {}", p.rate, p.first),
    }
}

/// A move in words: the span that is reset, if any, and the child that is visited, or the answer
/// with the memo after it.
fn move_text(alloc: Global, memo: Memo, step: Move) -> Result<String, AllocError> {
    let reset = match step.reset {
        Span::None => format!(in alloc; "")?,
        span => format!(in alloc; "{span:?} ")?,
    };
    match step.then {
        Then::Visit(place) => format!(in alloc; "{reset}{place} "),
        Then::Give(answer) => format!(in alloc; "{reset}{answer:?}{}", memo_text(alloc, memo)?),
    }
}

/// The answer of a letter: `R`, `S`, `F`, or `K` for SKIPPED.
fn answer(letter: u8) -> Answer {
    match letter {
        b'R' => Answer::Running,
        b'S' => Answer::Success,
        b'F' => Answer::Failure,
        _ => Answer::Skipped,
    }
}

/// What is heard of the child at this place: the answer of the letter, or `P` where a Parallel
/// passes it over.
fn heard(kind: Kind, place: u32, letter: u8) -> Heard
    ensures { (n : ℕ) (memo : Memo) → place < n → FitsChild kind n memo place → Fits kind n memo result }
{
    match kind {
        Kind::Parallel if letter == b'P' => Heard::Passed(place),
        _ => Heard::Answered(place, answer(letter)),
    }
}

/// Whether the counts of a Parallel are small enough for a visit.
fn has_room(n: u32, memo: Memo) -> bool
    ensures { IsTrue result → FitsStart Kind.Parallel n memo 0 }
{
    match memo {
        Memo::Counts(c) => c.successes < 100 && c.failures < 100 && c.skipped < 100 && n < 100,
        _ => true,
    }
}

/// Whether the chosen child of a memo is one of `n` children.
fn is_there(n: u32, memo: Memo) -> bool
    ensures { IsTrue result → IsThere n (chosen_of memo) }
{
    match memo {
        Memo::Chosen(Some(place)) => place < n,
        _ => true,
    }
}

/// Whether a recovery is left to a RecoveryNode with this memo.
fn recovery_is_left(memo: Memo) -> bool
    ensures { IsTrue result → RecoveryIsLeft (recoveries_of memo) }
{
    match memo {
        Memo::Recoveries(r) => r.limit <= 1000 && (!r.recovers || r.done < r.limit),
        _ => true,
    }
}

/// Whether the child at hand of a RoundRobin is one of `n` children, and at least one is left.
fn has_child_at_hand(n: u32, memo: Memo) -> bool
    ensures { IsTrue result → HasChildAtHand n (rotation_of memo) }
{
    match memo {
        Memo::Rotation(r) => r.at < n && r.passed < n && r.skipped <= r.passed,
        _ => n > 0,
    }
}

/// Whether a visit of a control node can begin with this memo and this pick.
fn may_start(kind: Kind, memo: Memo, n: u32, picked: u32) -> bool
    ensures control { IsTrue result → IsTrue (is_control kind) }
    ensures fits { IsTrue result → FitsStart kind n memo picked }
{
    match kind {
        Kind::Sequence => true,
        Kind::Fallback => true,
        Kind::SequenceWithMemory => true,
        Kind::ReactiveSequence => true,
        Kind::ReactiveFallback => true,
        Kind::Parallel => has_room(n, memo),
        Kind::Switch(_) => picked < n,
        Kind::IfThenElse => n >= 2 && is_there(n, memo),
        Kind::WhileDoElse => n >= 2,
        Kind::RecoveryNode => n == 2 && recovery_is_left(memo),
        Kind::PipelineSequence => true,
        Kind::RoundRobin => has_child_at_hand(n, memo),
        _ => false,
    }
}

/// The moves of a visit of a control node with `n` children, which give these answers.
fn control_text(
    alloc: Global,
    kind: Kind,
    memo: Memo,
    n: u32,
    picked: u32,
    answers: &str,
) -> Result<String, AllocError>
    requires control { IsTrue (is_control kind) }
    requires fits { FitsStart kind n memo picked }
{
    let mut text = String::new(alloc);
    let mut kept = memo;
    let mut step = control_next(kind, &mut kept, n, Heard::Begin { picked });
    for letter in answers.as_bytes() {
        text.push_str(move_text(alloc, kept, step)?.as_str())?;
        match step.then {
            Then::Give(_) => break,
            Then::Visit(place) => {
                step = control_next(kind, &mut kept, n, heard(kind, place, *letter));
            }
        }
    }
    text.push_str(move_text(alloc, kept, step)?.as_str())?;
    Ok(text)
}

/// The parts of a line: the number of children, their answers (`.` for none) and the moves that are
/// wanted.
fn row(line: &str) -> (u32, &str, &str) {
    let (n, rest) = line.trim_start().split_once(' ').unwrap_or((line, ""));
    let (answers, want) = rest.split_once(' ').unwrap_or((rest, ""));
    let n = n.parse().unwrap_or(0);
    if answers == "." {
        (n, "", want)
    } else {
        (n, answers, want)
    }
}

/// Compares the visits of a control node that begin with this memo, one for each line.
fn controls(
    rt: &impl Abort,
    alloc: Global,
    kind: Kind,
    memo: Memo,
    picked: u32,
    lines: &str,
) -> Result<(), AllocError> {
    for line in lines.lines() {
        let (n, answers, want) = row(line);
        assert!(rt; may_start(kind, memo, n, picked));
        let text = control_text(alloc, kind, memo, n, picked, answers)?;
        assert_eq!(rt; text.as_str(), want, "{kind:?} of {n}");
    }
    Ok(())
}

/// Visits of the Sequence and Fallback kinds from the first child.
#[test]
fn rounds(rt: HostRuntime) -> Result<(), Fail> {
    let alloc = rt.alloc();
    for (kind, memo, picked, lines) in [
        (
            Kind::Sequence,
            Memo::Nothing,
            0,
            "1 R 0 Running at 0 seen
             1 S 0 All Success
             1 F 0 All Failure
             1 K 0 All Skipped
             2 R 0 Running at 0 seen
             2 F 0 All Failure
             2 SR 0 1 Running at 1 seen
             2 SS 0 1 All Success
             2 SF 0 1 All Failure
             2 SK 0 1 All Success
             2 KK 0 1 All Skipped
             2 KS 0 1 All Success
             2 KR 0 1 Running at 1 seen
             3 R 0 Running at 0 seen
             3 F 0 All Failure
             3 SR 0 1 Running at 1 seen
             3 SF 0 1 All Failure
             3 SSR 0 1 2 Running at 2 seen
             3 SSS 0 1 2 All Success
             3 SSF 0 1 2 All Failure
             3 SSK 0 1 2 All Success
             3 KKK 0 1 2 All Skipped
             3 KKS 0 1 2 All Success
             3 KKR 0 1 2 Running at 2 seen",
        ),
        (
            Kind::Fallback,
            Memo::Nothing,
            0,
            "1 R 0 Running at 0 seen
             1 S 0 All Success
             1 F 0 All Failure
             1 K 0 All Skipped
             2 R 0 Running at 0 seen
             2 S 0 All Success
             2 FR 0 1 Running at 1 seen
             2 FS 0 1 All Success
             2 FF 0 1 All Failure
             2 FK 0 1 All Failure
             2 KK 0 1 All Skipped
             2 KF 0 1 All Failure
             2 KR 0 1 Running at 1 seen
             3 R 0 Running at 0 seen
             3 S 0 All Success
             3 FR 0 1 Running at 1 seen
             3 FS 0 1 All Success
             3 FFR 0 1 2 Running at 2 seen
             3 FFS 0 1 2 All Success
             3 FFF 0 1 2 All Failure
             3 FFK 0 1 2 All Failure
             3 KKK 0 1 2 All Skipped
             3 KKF 0 1 2 All Failure
             3 KKR 0 1 2 Running at 2 seen",
        ),
        (
            Kind::SequenceWithMemory,
            Memo::Nothing,
            0,
            "1 R 0 Running at 0 seen
             1 S 0 All Success
             1 F 0 From(0) Failure at 0
             1 K 0 All Skipped
             2 R 0 Running at 0 seen
             2 F 0 From(0) Failure at 0
             2 SR 0 1 Running at 1 seen
             2 SS 0 1 All Success
             2 SF 0 1 From(1) Failure at 1
             2 SK 0 1 All Success
             2 KK 0 1 All Skipped
             2 KS 0 1 All Success
             2 KR 0 1 Running at 1 seen
             3 R 0 Running at 0 seen
             3 F 0 From(0) Failure at 0
             3 SR 0 1 Running at 1 seen
             3 SF 0 1 From(1) Failure at 1
             3 SSR 0 1 2 Running at 2 seen
             3 SSS 0 1 2 All Success
             3 SSF 0 1 2 From(2) Failure at 2
             3 SSK 0 1 2 All Success
             3 KKK 0 1 2 All Skipped
             3 KKS 0 1 2 All Success
             3 KKR 0 1 2 Running at 2 seen",
        ),
        (
            Kind::ReactiveSequence,
            Memo::Nothing,
            0,
            "1 R 0 AllBut(0) Running at 0 seen
             1 S 0 All Success
             1 F 0 All Failure
             1 K 0 All Skipped
             2 R 0 AllBut(0) Running at 0 seen
             2 F 0 All Failure
             2 SR 0 1 AllBut(1) Running at 1 seen
             2 SS 0 1 All Success
             2 SF 0 1 All Failure
             2 SK 0 1 All Success
             2 KK 0 1 All Skipped
             2 KS 0 1 All Success
             2 KR 0 1 AllBut(1) Running at 1 seen
             3 R 0 AllBut(0) Running at 0 seen
             3 F 0 All Failure
             3 SR 0 1 AllBut(1) Running at 1 seen
             3 SF 0 1 All Failure
             3 SSR 0 1 2 AllBut(2) Running at 2 seen
             3 SSS 0 1 2 All Success
             3 SSF 0 1 2 All Failure
             3 SSK 0 1 2 All Success
             3 KKK 0 1 2 All Skipped
             3 KKS 0 1 2 All Success
             3 KKR 0 1 2 AllBut(2) Running at 2 seen",
        ),
        (
            Kind::ReactiveFallback,
            Memo::Nothing,
            0,
            "1 R 0 AllBut(0) Running at 0 seen
             1 S 0 All Success
             1 F 0 All Failure
             1 K 0 All Skipped
             2 R 0 AllBut(0) Running at 0 seen
             2 S 0 All Success
             2 FR 0 1 AllBut(1) Running at 1 seen
             2 FS 0 1 All Success
             2 FF 0 1 All Failure
             2 FK 0 1 All Failure
             2 KK 0 1 All Skipped
             2 KF 0 1 All Failure
             2 KR 0 1 AllBut(1) Running at 1 seen
             3 R 0 AllBut(0) Running at 0 seen
             3 S 0 All Success
             3 FR 0 1 AllBut(1) Running at 1 seen
             3 FS 0 1 All Success
             3 FFR 0 1 2 AllBut(2) Running at 2 seen
             3 FFS 0 1 2 All Success
             3 FFF 0 1 2 All Failure
             3 FFK 0 1 2 All Failure
             3 KKK 0 1 2 All Skipped
             3 KKF 0 1 2 All Failure
             3 KKR 0 1 2 AllBut(2) Running at 2 seen",
        ),
    ] {
        controls(&rt, alloc, kind, memo, picked, lines)?;
    }
    Ok(())
}

/// Visits of these kinds from a kept index.
#[test]
fn rounds_from_a_kept_index(rt: HostRuntime) -> Result<(), Fail> {
    let alloc = rt.alloc();
    for (kind, memo, picked, lines) in [
        (
            Kind::Sequence,
            Memo::Index { at: 1, seen: true },
            0,
            "3 R 1 Running at 1 seen
             3 F 1 All Failure
             3 SR 1 2 Running at 2 seen
             3 SS 1 2 All Success
             3 SF 1 2 All Failure
             3 KK 1 2 All Success",
        ),
        (
            Kind::Fallback,
            Memo::Index { at: 1, seen: true },
            0,
            "3 R 1 Running at 1 seen
             3 S 1 All Success
             3 FR 1 2 Running at 2 seen
             3 FF 1 2 All Failure
             3 FS 1 2 All Success
             3 KK 1 2 All Failure",
        ),
        (
            Kind::SequenceWithMemory,
            Memo::Index { at: 1, seen: true },
            0,
            "3 R 1 Running at 1 seen
             3 F 1 From(1) Failure at 1
             3 SR 1 2 Running at 2 seen
             3 SS 1 2 All Success
             3 SF 1 2 From(2) Failure at 2
             3 KK 1 2 All Success",
        ),
        (
            Kind::Sequence,
            Memo::Index { at: 1, seen: false },
            0,
            "3 R 1 Running at 1 seen
             3 F 1 All Failure
             3 SR 1 2 Running at 2 seen
             3 SS 1 2 All Success
             3 SF 1 2 All Failure
             3 KK 1 2 All Skipped",
        ),
        (
            Kind::Fallback,
            Memo::Index { at: 1, seen: false },
            0,
            "3 R 1 Running at 1 seen
             3 S 1 All Success
             3 FR 1 2 Running at 2 seen
             3 FF 1 2 All Failure
             3 FS 1 2 All Success
             3 KK 1 2 All Skipped",
        ),
        (
            Kind::SequenceWithMemory,
            Memo::Index { at: 1, seen: false },
            0,
            "3 R 1 Running at 1 seen
             3 F 1 From(1) Failure at 1
             3 SR 1 2 Running at 2 seen
             3 SS 1 2 All Success
             3 SF 1 2 From(2) Failure at 2
             3 KK 1 2 All Skipped",
        ),
        (
            Kind::ReactiveSequence,
            Memo::Index { at: 1, seen: true },
            0,
            "3 R 0 AllBut(0) Running at 0 seen
             3 F 0 All Failure
             3 KKK 0 1 2 All Skipped",
        ),
        (
            Kind::ReactiveFallback,
            Memo::Index { at: 1, seen: true },
            0,
            "3 R 0 AllBut(0) Running at 0 seen
             3 S 0 All Success
             3 KKK 0 1 2 All Skipped",
        ),
    ] {
        controls(&rt, alloc, kind, memo, picked, lines)?;
    }
    Ok(())
}

/// Whether a kind visits its children in order and keeps the place of one.
fn keeps_a_place(kind: Kind) -> bool
    ensures { IsTrue result → (n place : ℕ) → FitsChild kind n (Memo.Index place false) place }
{
    match kind {
        Kind::Sequence => true,
        Kind::Fallback => true,
        Kind::SequenceWithMemory => true,
        Kind::ReactiveSequence => true,
        Kind::ReactiveFallback => true,
        _ => false,
    }
}

/// The child of three to which a node goes on at once after the answer of the child at this place.
fn next_of_three(kind: Kind, place: u32, letter: u8) -> Option<u32> {
    let mut memo = Memo::Index {
        at: place,
        seen: false,
    };
    if place < 3 && keeps_a_place(kind) {
        goes_to_next(kind, &mut memo, 3, Heard::Answered(place, answer(letter)))
    } else {
        None
    }
}

/// Answers of children, and the child to which a node goes on at once.
#[test]
fn next_children(rt: HostRuntime) -> Result<(), Fail> {
    for (kind, place, letter, want) in [
        (Kind::Sequence, 0, b'S', Some(1)),
        (Kind::Sequence, 1, b'K', Some(2)),
        (Kind::Sequence, 2, b'S', None),
        (Kind::Sequence, 0, b'F', None),
        (Kind::Sequence, 0, b'R', None),
        (Kind::SequenceWithMemory, 1, b'S', Some(2)),
        (Kind::SequenceWithMemory, 1, b'F', None),
        (Kind::ReactiveSequence, 0, b'S', Some(1)),
        (Kind::ReactiveSequence, 1, b'R', None),
        (Kind::Fallback, 0, b'F', Some(1)),
        (Kind::Fallback, 0, b'S', None),
        (Kind::ReactiveFallback, 1, b'K', Some(2)),
        (Kind::ReactiveFallback, 2, b'F', None),
    ] {
        assert_eq!(rt;
            next_of_three(kind, place, letter),
            want,
            "{kind:?} {place}"
        );
    }
    Ok(())
}

/// A Parallel's memo when it starts.
fn thresholds(need: u32, most: u32, skips: bool) -> Memo {
    Memo::Counts(Counts {
        need,
        most,
        skips,
        successes: 0,
        failures: 0,
        skipped: 0,
    })
}

/// Visits of a Parallel that starts.
#[test]
fn parallel(rt: HostRuntime) -> Result<(), Fail> {
    let alloc = rt.alloc();
    for (kind, memo, picked, lines) in [
        (
            Kind::Parallel,
            thresholds(1, 1, true),
            0,
            "1 R 0 Running 0 won 0 lost
             1 S 0 All Success
             1 F 0 All Failure
             1 K 0 All Success",
        ),
        (
            Kind::Parallel,
            thresholds(1, 1, false),
            0,
            "1 R 0 Running 0 won 0 lost
             1 S 0 All Success
             1 F 0 All Failure
             1 K 0 All Skipped",
        ),
        (
            Kind::Parallel,
            thresholds(1, 1, true),
            0,
            "2 RR 0 1 Running 0 won 0 lost
             2 RS 0 1 All Success
             2 RF 0 1 All Failure
             2 RK 0 1 All Success
             2 S 0 All Success
             2 F 0 All Failure
             2 K 0 All Success",
        ),
        (
            Kind::Parallel,
            thresholds(1, 2, true),
            0,
            "2 RR 0 1 Running 0 won 0 lost
             2 RS 0 1 All Success
             2 RF 0 1 Running 0 won 1 lost
             2 RK 0 1 All Success
             2 S 0 All Success
             2 FR 0 1 Running 0 won 1 lost
             2 FS 0 1 All Success
             2 FF 0 1 All Failure
             2 FK 0 1 All Success
             2 K 0 All Success",
        ),
        (
            Kind::Parallel,
            thresholds(2, 1, true),
            0,
            "2 RR 0 1 Running 0 won 0 lost
             2 RS 0 1 Running 1 won 0 lost
             2 RF 0 1 All Failure
             2 RK 0 1 Running 0 won 0 lost
             2 SR 0 1 Running 1 won 0 lost
             2 SS 0 1 All Success
             2 SF 0 1 All Failure
             2 SK 0 1 All Success
             2 F 0 All Failure
             2 KR 0 1 Running 0 won 0 lost
             2 KS 0 1 All Success
             2 KF 0 1 All Failure
             2 KK 0 1 All Success",
        ),
        (
            Kind::Parallel,
            thresholds(2, 2, true),
            0,
            "2 RR 0 1 Running 0 won 0 lost
             2 RS 0 1 Running 1 won 0 lost
             2 RF 0 1 All Failure
             2 RK 0 1 Running 0 won 0 lost
             2 SR 0 1 Running 1 won 0 lost
             2 SS 0 1 All Success
             2 SF 0 1 All Failure
             2 SK 0 1 All Success
             2 F 0 All Failure
             2 KR 0 1 Running 0 won 0 lost
             2 KS 0 1 All Success
             2 KF 0 1 All Failure
             2 KK 0 1 All Success",
        ),
        (
            Kind::Parallel,
            thresholds(1, 1, false),
            0,
            "2 RR 0 1 Running 0 won 0 lost
             2 RS 0 1 All Success
             2 RF 0 1 All Failure
             2 RK 0 1 Running 0 won 0 lost
             2 S 0 All Success
             2 F 0 All Failure
             2 KR 0 1 Running 0 won 0 lost
             2 KS 0 1 All Success
             2 KF 0 1 All Failure
             2 KK 0 1 All Skipped",
        ),
        (
            Kind::Parallel,
            thresholds(1, 2, false),
            0,
            "2 RR 0 1 Running 0 won 0 lost
             2 RS 0 1 All Success
             2 RF 0 1 Running 0 won 1 lost
             2 RK 0 1 Running 0 won 0 lost
             2 S 0 All Success
             2 FR 0 1 Running 0 won 1 lost
             2 FS 0 1 All Success
             2 FF 0 1 All Failure
             2 FK 0 1 Running 0 won 1 lost
             2 KR 0 1 Running 0 won 0 lost
             2 KS 0 1 All Success
             2 KF 0 1 Running 0 won 1 lost
             2 KK 0 1 All Skipped",
        ),
        (
            Kind::Parallel,
            thresholds(2, 1, false),
            0,
            "2 RR 0 1 Running 0 won 0 lost
             2 RS 0 1 Running 1 won 0 lost
             2 RF 0 1 All Failure
             2 RK 0 1 Running 0 won 0 lost
             2 SR 0 1 Running 1 won 0 lost
             2 SS 0 1 All Success
             2 SF 0 1 All Failure
             2 SK 0 1 Running 1 won 0 lost
             2 F 0 All Failure
             2 KR 0 1 Running 0 won 0 lost
             2 KS 0 1 Running 1 won 0 lost
             2 KF 0 1 All Failure
             2 KK 0 1 All Skipped",
        ),
        (
            Kind::Parallel,
            thresholds(2, 2, false),
            0,
            "2 RR 0 1 Running 0 won 0 lost
             2 RS 0 1 Running 1 won 0 lost
             2 RF 0 1 All Failure
             2 RK 0 1 Running 0 won 0 lost
             2 SR 0 1 Running 1 won 0 lost
             2 SS 0 1 All Success
             2 SF 0 1 All Failure
             2 SK 0 1 Running 1 won 0 lost
             2 F 0 All Failure
             2 KR 0 1 Running 0 won 0 lost
             2 KS 0 1 Running 1 won 0 lost
             2 KF 0 1 All Failure
             2 KK 0 1 All Skipped",
        ),
        (
            Kind::Parallel,
            thresholds(3, 1, true),
            0,
            "3 SKK 0 1 2 All Success
             3 KKK 0 1 2 All Success
             3 RKK 0 1 2 Running 0 won 0 lost
             3 SRS 0 1 2 Running 2 won 0 lost
             3 SF 0 1 All Failure",
        ),
        (
            Kind::Parallel,
            thresholds(2, 2, false),
            0,
            "3 SS 0 1 All Success
             3 FF 0 1 All Failure
             3 FSF 0 1 2 All Failure
             3 FSS 0 1 2 All Success
             3 KKK 0 1 2 All Skipped
             3 KKS 0 1 2 Running 1 won 0 lost
             3 RKF 0 1 2 Running 0 won 1 lost",
        ),
    ] {
        controls(&rt, alloc, kind, memo, picked, lines)?;
    }
    Ok(())
}

/// A Parallel's memo where one child has completed in an earlier visit.
fn completed(won: bool, need: u32, skips: bool) -> Memo {
    Memo::Counts(Counts {
        need,
        most: 2,
        skips,
        successes: u32::from(won),
        failures: u32::from(!won),
        skipped: 0,
    })
}

/// Visits of a Parallel that passes over children that have completed.
#[test]
fn parallel_passes_over(rt: HostRuntime) -> Result<(), Fail> {
    let alloc = rt.alloc();
    for (kind, memo, picked, lines) in [
        (
            Kind::Parallel,
            completed(true, 2, false),
            0,
            "3 PRS 0 1 2 All Success
             3 PS 0 1 All Success
             3 PFF 0 1 2 All Failure
             3 PRK 0 1 2 Running 1 won 0 lost
             3 PKK 0 1 2 Running 1 won 0 lost
             3 RPS 0 1 2 All Success",
        ),
        (
            Kind::Parallel,
            completed(true, 2, true),
            0,
            "3 PK 0 1 All Success
             3 PRK 0 1 2 All Success
             3 RPR 0 1 2 Running 1 won 0 lost",
        ),
        (
            Kind::Parallel,
            completed(false, 1, false),
            0,
            "3 RPS 0 1 2 All Success
             3 RPF 0 1 2 All Failure
             3 KPK 0 1 2 Running 0 won 1 lost
             3 F 0 All Failure",
        ),
    ] {
        controls(&rt, alloc, kind, memo, picked, lines)?;
    }
    Ok(())
}

/// Visits of a Switch.
#[test]
fn switch(rt: HostRuntime) -> Result<(), Fail> {
    let alloc = rt.alloc();
    for (kind, memo, picked, lines) in [
        (
            Kind::Switch(2),
            Memo::Chosen(None),
            1,
            "3 R 1 Running chosen 1
             3 S 1 All Success
             3 F 1 All Failure
             3 K 1 All Skipped",
        ),
        (
            Kind::Switch(2),
            Memo::Chosen(Some(1)),
            1,
            "3 R 1 Running chosen 1
             3 S 1 All Success
             3 F 1 All Failure
             3 K 1 All Skipped",
        ),
        (
            Kind::Switch(2),
            Memo::Chosen(Some(0)),
            2,
            "3 R One(0) 2 Running chosen 2
             3 S One(0) 2 All Success
             3 F One(0) 2 All Failure
             3 K One(0) 2 All Skipped",
        ),
        (
            Kind::Switch(2),
            Memo::Chosen(Some(2)),
            0,
            "3 R One(2) 0 Running chosen 0
             3 F One(2) 0 All Failure",
        ),
    ] {
        controls(&rt, alloc, kind, memo, picked, lines)?;
    }
    Ok(())
}

/// Visits of an IfThenElse.
#[test]
fn if_then_else(rt: HostRuntime) -> Result<(), Fail> {
    let alloc = rt.alloc();
    for (kind, memo, picked, lines) in [
        (
            Kind::IfThenElse,
            Memo::Chosen(None),
            0,
            "2 R 0 Running not chosen
             2 K 0 All Skipped
             2 F 0 All Failure
             2 SR 0 1 Running chosen 1
             2 SS 0 1 All Success
             2 SF 0 1 All Failure
             2 SK 0 1 All Skipped
             3 R 0 Running not chosen
             3 K 0 All Skipped
             3 SR 0 1 Running chosen 1
             3 SF 0 1 All Failure
             3 FR 0 2 Running chosen 2
             3 FS 0 2 All Success
             3 FF 0 2 All Failure
             3 FK 0 2 All Skipped",
        ),
        (
            Kind::IfThenElse,
            Memo::Chosen(Some(1)),
            0,
            "2 R 1 Running chosen 1
             2 S 1 All Success
             2 F 1 All Failure
             2 K 1 All Skipped",
        ),
        (
            Kind::IfThenElse,
            Memo::Chosen(Some(2)),
            0,
            "3 R 2 Running chosen 2
             3 S 2 All Success
             3 F 2 All Failure
             3 K 2 All Skipped",
        ),
    ] {
        controls(&rt, alloc, kind, memo, picked, lines)?;
    }
    Ok(())
}

/// Visits of a WhileDoElse.
#[test]
fn while_do_else(rt: HostRuntime) -> Result<(), Fail> {
    let alloc = rt.alloc();
    for (kind, memo, picked, lines) in [(
        Kind::WhileDoElse,
        Memo::Nothing,
        0,
        "2 R 0 Running
             2 K 0 All Skipped
             2 F 0 All Failure
             2 SR 0 AllBut(1) 1 Running
             2 SS 0 AllBut(1) 1 All Success
             2 SF 0 AllBut(1) 1 All Failure
             2 SK 0 AllBut(1) 1 All Skipped
             3 R 0 Running
             3 SR 0 AllBut(1) 1 Running
             3 SF 0 AllBut(1) 1 All Failure
             3 FR 0 AllBut(2) 2 Running
             3 FS 0 AllBut(2) 2 All Success
             3 FF 0 AllBut(2) 2 All Failure
             3 FK 0 AllBut(2) 2 All Skipped",
    )] {
        controls(&rt, alloc, kind, memo, picked, lines)?;
    }
    Ok(())
}

/// The memo of a RecoveryNode.
fn recoveries(done: u32, limit: u32, recovers: bool) -> Memo {
    Memo::Recoveries(Recoveries {
        done,
        limit,
        recovers,
    })
}

/// Visits of a RecoveryNode.
#[test]
fn recovery_node(rt: HostRuntime) -> Result<(), Fail> {
    let alloc = rt.alloc();
    for (kind, memo, picked, lines) in [
        (
            Kind::RecoveryNode,
            recoveries(0, 2, false),
            0,
            "2 R 0 Running tries 0 of 2
             2 S 0 All Success
             2 K 0 All Skipped
             2 FR 0 One(0) 1 Running recovers 0 of 2
             2 FF 0 One(0) 1 All Failure
             2 FK 0 One(0) 1 All Failure
             2 FSS 0 One(0) 1 One(1) 0 All Success
             2 FSK 0 One(0) 1 One(1) 0 All Skipped
             2 FSR 0 One(0) 1 One(1) 0 Running tries 1 of 2
             2 FSFF 0 One(0) 1 One(1) 0 One(0) 1 All Failure
             2 FSFR 0 One(0) 1 One(1) 0 One(0) 1 Running recovers 1 of 2
             2 FSFSR 0 One(0) 1 One(1) 0 One(0) 1 One(1) 0 Running tries 2 of 2
             2 FSFSS 0 One(0) 1 One(1) 0 One(0) 1 One(1) 0 All Success
             2 FSFSF 0 One(0) 1 One(1) 0 One(0) 1 One(1) 0 All Failure",
        ),
        (
            Kind::RecoveryNode,
            recoveries(0, 1, false),
            0,
            "2 FF 0 One(0) 1 All Failure
             2 FSF 0 One(0) 1 One(1) 0 All Failure
             2 FSS 0 One(0) 1 One(1) 0 All Success",
        ),
        (
            Kind::RecoveryNode,
            recoveries(0, 0, false),
            0,
            "2 F 0 All Failure
             2 S 0 All Success",
        ),
        (
            Kind::RecoveryNode,
            recoveries(2, 2, false),
            0,
            "2 R 0 Running tries 2 of 2
             2 F 0 All Failure",
        ),
        (
            Kind::RecoveryNode,
            recoveries(1, 2, true),
            0,
            "2 R 1 Running recovers 1 of 2
             2 F 1 All Failure
             2 K 1 All Failure
             2 SR 1 One(1) 0 Running tries 2 of 2
             2 SF 1 One(1) 0 All Failure
             2 SS 1 One(1) 0 All Success",
        ),
    ] {
        controls(&rt, alloc, kind, memo, picked, lines)?;
    }
    Ok(())
}

/// Visits of a PipelineSequence.
#[test]
fn pipeline_sequence(rt: HostRuntime) -> Result<(), Fail> {
    let alloc = rt.alloc();
    for (kind, memo, picked, lines) in [
        (
            Kind::PipelineSequence,
            Memo::Index { at: 0, seen: false },
            0,
            "1 R 0 Running at 0 seen
             1 S 0 All Success
             1 F 0 All Failure
             1 K 0 All Skipped
             3 R 0 Running at 0 seen
             3 F 0 All Failure
             3 SR 0 1 Running at 1 seen
             3 SF 0 1 All Failure
             3 KR 0 1 Running at 1 seen
             3 SSR 0 1 2 Running at 2 seen
             3 SSS 0 1 2 All Success
             3 SSF 0 1 2 All Failure
             3 KSK 0 1 2 All Success
             3 KKK 0 1 2 All Skipped",
        ),
        (
            Kind::PipelineSequence,
            Memo::Index { at: 1, seen: true },
            0,
            "3 SR 0 1 Running at 1 seen
             3 RR 0 1 Running at 1 seen
             3 RF 0 1 All Failure
             3 RSR 0 1 2 Running at 2 seen
             3 RSS 0 1 2 All Success
             3 KKK 0 1 2 All Skipped
             3 RKK 0 1 2 All Success",
        ),
        (
            Kind::PipelineSequence,
            Memo::Index { at: 2, seen: true },
            0,
            "3 F 0 All Failure
             3 RF 0 1 All Failure
             3 RRR 0 1 2 Running at 2 seen
             3 RRS 0 1 2 All Success
             3 SRS 0 1 2 All Success
             3 RRF 0 1 2 All Failure
             3 KKR 0 1 2 Running at 2 seen
             3 KKK 0 1 2 All Skipped",
        ),
    ] {
        controls(&rt, alloc, kind, memo, picked, lines)?;
    }
    Ok(())
}

/// The memo of a RoundRobin.
fn rotation(at: u32, passed: u32, skipped: u32) -> Memo {
    Memo::Rotation(Rotation {
        at,
        passed,
        skipped,
    })
}

/// Visits of a RoundRobin.
#[test]
fn round_robin(rt: HostRuntime) -> Result<(), Fail> {
    let alloc = rt.alloc();
    for (kind, memo, picked, lines) in [
        (
            Kind::RoundRobin,
            rotation(0, 0, 0),
            0,
            "1 R 0 Running at 0, 0 passed 0 skipped
             1 S 0 All Success at 0, 0 passed 0 skipped
             1 F 0 All Failure
             1 K 0 All Skipped
             3 S 0 All Success at 1, 0 passed 0 skipped
             3 FS 0 One(0) 1 All Success at 2, 0 passed 0 skipped
             3 FR 0 One(0) 1 Running at 1, 1 passed 0 skipped
             3 KFR 0 One(0) 1 One(1) 2 Running at 2, 2 passed 1 skipped
             3 KFS 0 One(0) 1 One(1) 2 All Success at 0, 0 passed 0 skipped
             3 FFF 0 One(0) 1 One(1) 2 All Failure
             3 KFK 0 One(0) 1 One(1) 2 All Failure
             3 KKK 0 One(0) 1 One(1) 2 All Skipped",
        ),
        (
            Kind::RoundRobin,
            rotation(2, 0, 0),
            0,
            "3 R 2 Running at 2, 0 passed 0 skipped
             3 S 2 All Success at 0, 0 passed 0 skipped
             3 FS 2 One(2) 0 All Success at 1, 0 passed 0 skipped
             3 FKF 2 One(2) 0 One(0) 1 All Failure",
        ),
        (
            Kind::RoundRobin,
            rotation(1, 2, 2),
            0,
            "3 R 1 Running at 1, 2 passed 2 skipped
             3 S 1 All Success at 2, 0 passed 0 skipped
             3 F 1 All Failure
             3 K 1 All Skipped",
        ),
    ] {
        controls(&rt, alloc, kind, memo, picked, lines)?;
    }
    Ok(())
}

/// Whether a turn is left to a Retry or Repeat with this memo.
fn turn_is_left(memo: Memo) -> bool
    ensures { IsTrue result → TurnIsLeft (turns_of memo).done (limit_of (turns_of memo).limit) }
{
    match memo {
        Memo::Turns(t) => t.limit < 0 || i64::from(t.done) < t.limit && t.limit <= 1000,
        _ => true,
    }
}

/// Whether a visit of a decorator can begin with this memo and this pick.
fn may_decorate(kind: Kind, memo: Memo, picked: u32) -> bool
    ensures decorator { IsTrue result → IsTrue (is_decorator kind) }
    ensures fits { IsTrue result → FitsStart kind 1 memo picked }
{
    match kind {
        Kind::SubTree => true,
        Kind::Inverter => true,
        Kind::ForceSuccess => true,
        Kind::ForceFailure => true,
        Kind::KeepRunningUntilFailure => true,
        Kind::Retry => turn_is_left(memo),
        Kind::Repeat => turn_is_left(memo),
        Kind::Timeout => true,
        Kind::Delay => true,
        Kind::RunOnce => true,
        Kind::RateController => true,
        _ => false,
    }
}

/// The moves of a visit of a decorator whose child gives these answers. `now` is in milliseconds.
fn decorator_text(
    alloc: Global,
    kind: Kind,
    memo: Memo,
    now: u64,
    picked: u32,
    answers: &str,
) -> Result<String, AllocError>
    requires decorator { IsTrue (is_decorator kind) }
    requires fits { FitsStart kind 1 memo picked }
{
    let mut text = String::new(alloc);
    let mut kept = memo;
    let mut step = decorator_next(kind, &mut kept, now, Heard::Begin { picked });
    for letter in answers.as_bytes() {
        text.push_str(move_text(alloc, kept, step)?.as_str())?;
        match step.then {
            Then::Give(_) => break,
            Then::Visit(place) => {
                step = decorator_next(
                    kind,
                    &mut kept,
                    now,
                    Heard::Answered(place, answer(*letter)),
                );
            }
        }
    }
    text.push_str(move_text(alloc, kept, step)?.as_str())?;
    Ok(text)
}

/// A decorator before a visit.
#[derive(Clone, Copy)]
struct Decorator {
    kind: Kind,
    memo: Memo,
    /// The child that its port picks.
    picked: u32,
}

/// Compares the visits of a decorator at the time `now` in milliseconds, one for each line.
fn decorators(
    rt: &impl Abort,
    alloc: Global,
    decorator: Decorator,
    now: u64,
    lines: &str,
) -> Result<(), AllocError> {
    let Decorator { kind, memo, picked } = decorator;
    for line in lines.lines() {
        let (_, answers, want) = row(line);
        assert!(rt; may_decorate(kind, memo, picked));
        let text = decorator_text(alloc, kind, memo, now, picked, answers)?;
        assert_eq!(rt; text.as_str(), want, "{kind:?} at {now}");
    }
    Ok(())
}

/// Visits of the decorators that visit their child once.
#[test]
fn decorators_of_one_visit(rt: HostRuntime) -> Result<(), Fail> {
    let alloc = rt.alloc();
    for (kind, memo, now, picked, lines) in [
        (
            Kind::SubTree,
            Memo::Nothing,
            0,
            0,
            "1 R 0 Running
             1 S 0 All Success
             1 F 0 All Failure
             1 K 0 All Skipped",
        ),
        (
            Kind::Inverter,
            Memo::Nothing,
            0,
            0,
            "1 R 0 Running
             1 S 0 All Failure
             1 F 0 All Success
             1 K 0 All Skipped",
        ),
        (
            Kind::ForceSuccess,
            Memo::Nothing,
            0,
            0,
            "1 R 0 Running
             1 S 0 All Success
             1 F 0 All Success
             1 K 0 All Skipped",
        ),
        (
            Kind::ForceFailure,
            Memo::Nothing,
            0,
            0,
            "1 R 0 Running
             1 S 0 All Failure
             1 F 0 All Failure
             1 K 0 All Skipped",
        ),
        (
            Kind::KeepRunningUntilFailure,
            Memo::Nothing,
            0,
            0,
            "1 R 0 Running
             1 S 0 All Running
             1 F 0 All Failure
             1 K 0 All Skipped",
        ),
    ] {
        let decorator = Decorator { kind, memo, picked };
        decorators(&rt, alloc, decorator, now, lines)?;
    }
    Ok(())
}

/// A memo with this many turns done, of this limit.
fn turns(done: u32, limit: i64) -> Memo {
    Memo::Turns(Turns { done, limit })
}

/// Visits of a Retry and a Repeat.
#[test]
fn retry_and_repeat(rt: HostRuntime) -> Result<(), Fail> {
    let alloc = rt.alloc();
    for (kind, memo, now, picked, lines) in [
        (
            Kind::Retry,
            turns(0, 3),
            0,
            0,
            "1 R 0 Running 0 of 3
             1 S 0 All Success
             1 K 0 All Skipped
             1 FS 0 All 0 All Success
             1 FK 0 All 0 All Skipped
             1 FR 0 All 0 Running 1 of 3
             1 FFR 0 All 0 All 0 Running 2 of 3
             1 FFF 0 All 0 All 0 All Failure",
        ),
        (
            Kind::Retry,
            turns(2, 3),
            0,
            0,
            "1 R 0 Running 2 of 3
             1 F 0 All Failure
             1 S 0 All Success",
        ),
        (Kind::Retry, turns(0, 1), 0, 0, "1 F 0 All Failure"),
        (
            Kind::Retry,
            turns(0, -1),
            0,
            0,
            "1 R 0 Running 0 of -1
             1 F 0 All Running 0 of -1
             1 S 0 All Success
             1 K 0 All Skipped",
        ),
        (
            Kind::Repeat,
            turns(0, 3),
            0,
            0,
            "1 R 0 Running 0 of 3
             1 F 0 All Failure
             1 K 0 All Skipped
             1 SF 0 All 0 All Failure
             1 SK 0 All 0 All Skipped
             1 SR 0 All 0 Running 1 of 3
             1 SSR 0 All 0 All 0 Running 2 of 3
             1 SSS 0 All 0 All 0 All Success",
        ),
        (
            Kind::Repeat,
            turns(2, 3),
            0,
            0,
            "1 R 0 Running 2 of 3
             1 S 0 All Success
             1 F 0 All Failure",
        ),
        (Kind::Repeat, turns(0, 1), 0, 0, "1 S 0 All Success"),
        (
            Kind::Repeat,
            turns(0, -1),
            0,
            0,
            "1 R 0 Running 0 of -1
             1 S 0 All Running 0 of -1
             1 F 0 All Failure
             1 K 0 All Skipped",
        ),
    ] {
        let decorator = Decorator { kind, memo, picked };
        decorators(&rt, alloc, decorator, now, lines)?;
    }
    Ok(())
}

/// A memo of a Timeout or Delay that began at `first`, of this length, in milliseconds.
fn since(first: u64, length: u64) -> Memo {
    Memo::Since(Since { first, length })
}

/// Visits of a Timeout and a Delay.
#[test]
fn timeout_and_delay(rt: HostRuntime) -> Result<(), Fail> {
    let alloc = rt.alloc();
    for (kind, memo, now, picked, lines) in [
        (
            Kind::Timeout,
            since(10, 5),
            14,
            0,
            "1 R 0 Running 5 from 10
             1 S 0 All Success
             1 F 0 All Failure
             1 K 0 All Skipped",
        ),
        (Kind::Timeout, since(10, 5), 15, 0, "1 . All Failure"),
        (
            Kind::Timeout,
            since(10, 0),
            99,
            0,
            "1 R 0 Running 0 from 10
             1 S 0 All Success",
        ),
        (Kind::Delay, since(10, 5), 14, 0, "1 . Running 5 from 10"),
        (
            Kind::Delay,
            since(10, 5),
            15,
            0,
            "1 R 0 Running 5 from 10
             1 S 0 All Success
             1 F 0 All Failure
             1 K 0 All Skipped",
        ),
        (Kind::Delay, since(10, 0), 10, 0, "1 S 0 All Success"),
    ] {
        let decorator = Decorator { kind, memo, picked };
        decorators(&rt, alloc, decorator, now, lines)?;
    }
    Ok(())
}

/// Visits of a RunOnce.
#[test]
fn run_once(rt: HostRuntime) -> Result<(), Fail> {
    let alloc = rt.alloc();
    for (kind, memo, now, picked, lines) in [
        (
            Kind::RunOnce,
            Memo::Finished(None),
            0,
            0,
            "1 R 0 Running no mark
             1 S 0 All Success mark Success
             1 F 0 All Failure mark Failure
             1 K 0 All Skipped",
        ),
        (
            Kind::RunOnce,
            Memo::Finished(Some(Answer::Success)),
            0,
            0,
            "1 . Success mark Success",
        ),
        (
            Kind::RunOnce,
            Memo::Finished(Some(Answer::Success)),
            0,
            1,
            "1 . Skipped mark Success",
        ),
        (
            Kind::RunOnce,
            Memo::Finished(Some(Answer::Failure)),
            0,
            0,
            "1 . Failure mark Failure",
        ),
        (
            Kind::RunOnce,
            Memo::Finished(Some(Answer::Failure)),
            0,
            1,
            "1 . Skipped mark Failure",
        ),
    ] {
        let decorator = Decorator { kind, memo, picked };
        decorators(&rt, alloc, decorator, now, lines)?;
    }
    Ok(())
}

/// The memo of a RateController with this rate in thousandths of a hertz, whose child has succeeded at
/// `first`, in milliseconds.
fn paced(first: u64, rate: u32) -> Memo {
    Memo::Pace(Pace {
        first,
        rate,
        due: false,
    })
}

/// Visits of a RateController.
#[test]
fn rate_controller(rt: HostRuntime) -> Result<(), Fail> {
    let alloc = rt.alloc();
    let due = Memo::Pace(Pace {
        first: 5,
        rate: 1000,
        due: true,
    });
    for (kind, memo, now, picked, lines) in [
        (
            Kind::RateController,
            due,
            7,
            0,
            "1 R 0 Running due 1000 from 5
             1 S 0 All Success 1000 from 7
             1 F 0 All Failure 1000 from 5
             1 K 0 All Skipped",
        ),
        (
            Kind::RateController,
            paced(5, 1000),
            1004,
            0,
            "1 . Running 1000 from 5",
        ),
        (
            Kind::RateController,
            paced(5, 1000),
            1005,
            0,
            "1 R 0 Running due 1000 from 5
             1 S 0 All Success 1000 from 1005
             1 F 0 All Failure 1000 from 5
             1 K 0 All Skipped",
        ),
        (
            Kind::RateController,
            paced(0, 3),
            333_333,
            0,
            "1 . Running 3 from 0",
        ),
        (
            Kind::RateController,
            paced(0, 3),
            333_334,
            0,
            "1 S 0 All Success 3 from 333334",
        ),
        (
            Kind::RateController,
            paced(0, 1_000_000),
            1,
            0,
            "1 S 0 All Success 1000000 from 1",
        ),
        (
            Kind::RateController,
            paced(0, 1_000_000),
            1_000_000_000_000_000_000,
            0,
            "1 S 0 All Success 1000000 from 1000000000000000000",
        ),
    ] {
        let decorator = Decorator { kind, memo, picked };
        decorators(&rt, alloc, decorator, now, lines)?;
    }
    Ok(())
}
