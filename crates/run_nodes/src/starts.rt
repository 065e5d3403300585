ghost use Rattle.std.specs.Prelude.{◌≡◌, ℕ, ◌<◌, ◌^◌, OnErr, length};
ghost use Rattle.std.specs.List.{All};
ghost use Rattle.spec_tree.specs.declared.built_ins.Range.TheVariants.{Duration, Recoveries as RecoveryRange, Turns as TurnRange};
ghost use Rattle.spec_tree.specs.declared.term.Term.{Term-F};
ghost use Rattle.spec_run.specs.declared.memory.Memo.TheVariants as spec_memo;
ghost use Rattle.spec_run.specs.Done.{State};
ghost use Rattle.spec_run.specs.Ports.{is_negative, new_memo, next_pace, pace_start, parallel_start, picked, recoveries_start, since_start};
ghost use Rattle.spec_run.specs.Ports.{skip_picked, threshold, turns_start, within};
ghost use Rattle.spec_run.specs.Rules.OneVisit.{mark_of};
ghost use Rattle.spec_run.specs.Rules.RoundRobins.{rotation_at, rotation_of};
ghost use Rattle.spec_run.specs.Rules.Sequences.{index_of};
ghost use Rattle.spec_run.specs.Sites.{Meaning, View};
ghost use Rattle.spec_run.specs.Visit.{or_bad_port, remembers, site_of};
ghost use Rattle.run_arena.specs.Nodes.{IsNode};
ghost use Rattle.run_arena.specs.Sources.{IsSourceOf};
ghost use Rattle.run_arena.specs.Stands.{written};
ghost use Rattle.run_nodes.specs.Given.{HasPorts, case_selected, port_at, source_number, source_rate, with_memo};

use crate::sources::{case_with, number_of, rate_of, truth_of, value_of};
use base_tables::int_fits;
use itoa::Buffer;
use run_arena::{Node, Source};
use spec_run::{
    Answer, Cause, Counts, Memo, NodeFault, NumericPort, Pace, Recoveries, Rotation, Since, Status,
    Turns,
};
use spec_script::Value;
use spec_tree::{Kind, Range};
use tree_board::{Past, Recorded};

/// The place of the next child, as a memo keeps it.
fn index_of(memo: Memo) -> u32
    ensures { result ≡ index_of memo }
{
    match memo {
        Memo::Index { at, .. } => at,
        _ => 0,
    }
}

/// A port's count of children, where it is from 1 to their number; a negative one counts back from
/// their number: -1 is all of them.
fn threshold(children: u32, count: Option<i64>) -> Option<u32>
    ensures { result ≡ threshold children count }
{
    let all = i64::from(children);
    let count = match count {
        Some(count) if count < 0 => all + 1 + count,
        Some(count) => count,
        None => return None,
    };
    if 1 <= count && count <= all {
        Some(count as u32)
    } else {
        None
    }
}

/// The first memo of a Parallel of this many children with these counts. The error is the port
/// whose count is out of range.
fn parallel_start(
    children: u32,
    success: Option<i64>,
    failure: Option<i64>,
) -> Result<Memo, NumericPort>
    ensures { result ≡ parallel_start (threshold children success) (is_negative success) (threshold children failure) }
{
    let need = threshold(children, success).ok_or(NumericPort::SuccessCount)?;
    let most = threshold(children, failure).ok_or(NumericPort::FailureCount)?;
    Ok(Memo::Counts(Counts {
        need,
        most,
        skips: matches!(success, Some(count) if count < 0),
        successes: 0,
        failures: 0,
        skipped: 0,
    }))
}

/// The first memo of a Retry or Repeat with this limit. The error is its port, where the limit is
/// not in range.
fn turns_start(port: NumericPort, limit: Option<i64>) -> Result<Memo, NumericPort>
    ensures { result ≡ turns_start port (within TurnRange limit) }
{
    match limit {
        Some(limit) if int_fits(Range::Turns, limit) => {
            Ok(Memo::Turns(Turns { done: 0, limit }))
        }
        _ => Err(port),
    }
}

/// The first memo of a Timeout or Delay of this length, from `now` on, both in milliseconds. The
/// error is its port, where the length is not in range.
fn since_start(port: NumericPort, now: u64, length: Option<i64>) -> Result<Memo, NumericPort>
    ensures { result ≡ since_start port now (within Duration length) }
{
    match length {
        Some(length) if int_fits(Range::Duration, length) => Ok(Memo::Since(Since {
            first: now,
            length: length.unsigned_abs(),
        })),
        _ => Err(port),
    }
}

/// The number that the port at this place is given; none where it is given none.
fn number_at<P: Past>(node: &Node, place: usize, board: &Recorded<P>) -> Option<i64>
    requires ports { HasPorts (length board.now) node.now }
    requires there { place < length node.now.ports }
    ensures { result ≡ source_number board.now (port_at node.now place) }
{
    number_of(&node.ports.list()[place], board)
}

/// The rate that the port at this place is given, in thousandths of a hertz; none where it is given none.
fn rate_at<P: Past>(node: &Node, place: usize, board: &Recorded<P>) -> Option<u32>
    requires ports { HasPorts (length board.now) node.now }
    requires there { place < length node.now.ports }
    ensures { result ≡ source_rate board.now (port_at node.now place) }
{
    rate_of(&node.ports.list()[place], board)
}

/// Makes a memo the first one of a Parallel, with the counts of its ports. It is not inlined, nor are
/// those of other kinds that read numbers, so that room for what they make is cleared only there. The
/// error is the port whose count is out of range, and then the memo stays.
#[inline(never)]
fn start_parallel<P: Past>(
    node: &Node,
    memo: &mut Memo,
    board: &Recorded<P>,
) -> Result<(), NumericPort>
    requires ports { HasPorts (length board.now) node.now }
    requires there { 1 < length node.now.ports }
    ensures starts { let success = source_number board.now (port_at node.now 0) in
        let failure = source_number board.now (port_at node.now 1) in
        let count = threshold node.now.children in
        with_memo result memo.new ≡ parallel_start (count success) (is_negative success) (count failure) }
    ensures err { OnErr result (memo.new ≡ memo.old) }
{
    *memo = parallel_start(
        node.children,
        number_at(node, 0, board),
        number_at(node, 1, board),
    )?;
    Ok(())
}

/// Makes a memo the first one of a Retry or Repeat with this limit. The error is its port, where the
/// limit is not in range, and then the memo stays.
#[inline(never)]
fn start_turns(port: NumericPort, limit: Option<i64>, memo: &mut Memo) -> Result<(), NumericPort>
    ensures starts { with_memo result memo.new ≡ turns_start port (within TurnRange limit) }
    ensures err { OnErr result (memo.new ≡ memo.old) }
{
    *memo = turns_start(port, limit)?;
    Ok(())
}

/// Makes a memo the first one of a Timeout or Delay of this length, from `now` on, both in
/// milliseconds. The error is its port, where the length is not in range, and then the memo stays.
#[inline(never)]
fn start_since(
    port: NumericPort,
    now: u64,
    length: Option<i64>,
    memo: &mut Memo,
) -> Result<(), NumericPort>
    ensures starts { with_memo result memo.new ≡ since_start port now (within Duration length) }
    ensures err { OnErr result (memo.new ≡ memo.old) }
{
    *memo = since_start(port, now, length)?;
    Ok(())
}

/// The first memo of a RecoveryNode with this limit of recoveries. The error is its port, where the limit is not in
/// range.
fn recoveries_start(limit: Option<i64>) -> Result<Memo, NumericPort>
    ensures { result ≡ recoveries_start (within RecoveryRange limit) }
{
    match limit {
        Some(limit) if int_fits(Range::Recoveries, limit) => Ok(Memo::Recoveries(Recoveries {
            done: 0,
            limit: limit as u32,
            recovers: false,
        })),
        _ => Err(NumericPort::NumberOfRetries),
    }
}

/// Makes a memo the first one of a RecoveryNode with this limit. The error is its port, where the limit is not in
/// range, and then the memo stays.
#[inline(never)]
fn start_recoveries(limit: Option<i64>, memo: &mut Memo) -> Result<(), NumericPort>
    ensures starts { with_memo result memo.new ≡ recoveries_start (within RecoveryRange limit) }
    ensures err { OnErr result (memo.new ≡ memo.old) }
{
    *memo = recoveries_start(limit)?;
    Ok(())
}

/// Makes a memo the one with which a RoundRobin starts: the child at hand is the one that is kept.
#[inline(never)]
fn start_rotation(memo: &mut Memo)
    ensures { memo.new ≡ spec_memo.Rotation (rotation_at (rotation_of memo.old).at) }
{
    let at = match *memo {
        Memo::Rotation(rotation) => rotation.at,
        _ => 0,
    };
    *memo = Memo::Rotation(Rotation {
        at,
        passed: 0,
        skipped: 0,
    });
}

/// What a node of this status that is not RUNNING remembers: a RateController that is IDLE has no pace.
#[inline(always)]
pub fn remembers(status: Status, memo: Memo) -> Memo
    ensures { result ≡ remembers status memo }
{
    match (status, memo) {
        (Status::Idle, Memo::Pace(_)) => Memo::Nothing,
        _ => memo,
    }
}

/// Makes a memo the one with which a RateController of this old status starts, at `now` in milliseconds: the pace that
/// it remembers, else one of this rate in thousandths of a hertz. The error is the port of the rate, where it has
/// none, and then the memo stays.
#[inline(never)]
fn start_pace(rate: Option<u32>, old: Status, memo: &mut Memo, now: u64) -> Result<(), NumericPort>
    ensures starts { with_memo result memo.new ≡ next_pace (remembers old memo.old) (pace_start now rate) }
    ensures err { OnErr result (memo.new ≡ memo.old) }
{
    if let Memo::Pace(_) = remembers(old, *memo) {
        return Ok(());
    }
    let rate = rate.ok_or(NumericPort::Hz)?;
    *memo = Memo::Pace(Pace {
        first: now,
        rate,
        due: true,
    });
    Ok(())
}

/// Makes a memo the one with which a visit of its node starts, which had the status `old`. The error is the first port
/// that has no number of its range, and then the memo stays. `now` is in milliseconds.
#[inline(always)]
fn start_of<P: Past>(
    node: &Node,
    old: Status,
    memo: &mut Memo,
    board: &Recorded<P>,
    now: u64,
) -> Result<(), NumericPort>
    requires { HasPorts (length board.now) node.now }
    ensures starts { (term : Term-F Meaning) (view : View) (whole uid : ℕ) (s : State) → IsNode view (written term) whole node.now →
        let memory = remembers old memo.old in
        with_memo result memo.new ≡ new_memo term.kind (site_of term view uid) memory (record s { board = board.now; moment = now }) }
    ensures err { OnErr result (memo.new ≡ memo.old) }
{
    match node.kind {
        Kind::Sequence
        | Kind::Fallback
        | Kind::ReactiveSequence
        | Kind::ReactiveFallback
        | Kind::PipelineSequence => {
            *memo = Memo::Index { at: 0, seen: false };
        }
        Kind::SequenceWithMemory => {
            *memo = Memo::Index {
                at: index_of(*memo),
                seen: false,
            };
        }
        Kind::Parallel => start_parallel(node, memo, board)?,
        Kind::Switch(_) | Kind::IfThenElse => *memo = Memo::Chosen(None),
        Kind::Retry => start_turns(NumericPort::NumAttempts, number_at(node, 0, board), memo)?,
        Kind::Repeat => start_turns(NumericPort::NumCycles, number_at(node, 0, board), memo)?,
        Kind::Timeout => start_since(NumericPort::Msec, now, number_at(node, 0, board), memo)?,
        Kind::Delay => start_since(NumericPort::DelayMsec, now, number_at(node, 0, board), memo)?,
        Kind::RecoveryNode => start_recoveries(number_at(node, 0, board), memo)?,
        Kind::RoundRobin => start_rotation(memo),
        Kind::RateController => start_pace(rate_at(node, 0, board), old, memo, now)?,
        Kind::RunOnce => *memo = Memo::Finished(None),
        _ => *memo = Memo::Nothing,
    }
    Ok(())
}

/// What was read from the ports of the node with this uid. The error is the node's fault: the port
/// that has no number of its range.
#[inline(always)]
fn or_bad_port<A>(uid: u32, read: Result<A, NumericPort>) -> Result<A, NodeFault>
    ensures { result ≡ or_bad_port uid read }
{
    match read {
        Ok(a) => Ok(a),
        Err(port) => Err(NodeFault {
            uid,
            cause: Cause::BadPort { port },
        }),
    }
}

/// Makes a memo the one with which a visit of the node with this uid starts, which had the status `old`. The error is
/// the fault of its first port that has no number of its range, and then the memo stays. `now` is in milliseconds.
#[inline(always)]
pub fn start_memo<P: Past>(
    node: &Node,
    uid: u32,
    old: Status,
    memo: &mut Memo,
    board: &Recorded<P>,
    now: u64,
) -> Result<(), NodeFault>
    requires { HasPorts (length board.now) node.now }
    ensures starts { (term : Term-F Meaning) (view : View) (whole : ℕ) (s : State) → IsNode view (written term) whole node.now →
        let state = record s { board = board.now; moment = now } in
        let started = new_memo term.kind (site_of term view uid) (remembers old memo.old) state in
        with_memo result memo.new ≡ or_bad_port uid started }
    ensures err { OnErr result (memo.new ≡ memo.old) }
{
    or_bad_port(uid, start_of(node, old, memo, board, now))
}

/// The mark of a RunOnce: the answer of its one run, where it has ended.
fn mark_of(memo: Memo) -> Option<Answer>
    ensures { result ≡ mark_of memo }
{
    match memo {
        Memo::Finished(mark) => mark,
        _ => None,
    }
}

/// What is picked for a RunOnce with a mark, by its port `then_skip`: 1 where it skips, else 0. The
/// error is that port, where it has no truth.
fn skip_picked(skip: Option<bool>) -> Result<u32, NumericPort>
    ensures { result ≡ skip_picked skip }
{
    match skip {
        Some(true) => Ok(1),
        Some(false) => Ok(0),
        None => Err(NumericPort::ThenSkip),
    }
}

/// The place of the child that a Switch with these ports selects. It is not inlined, since few
/// nodes are a Switch.
#[inline(never)]
fn selected<P: Past>(ports: &[Source], board: &Recorded<P>) -> u32
    requires known { All (IsSourceOf (length board.now)) ports.now }
    requires few { length ports.now < 2 ^ 32 }
    ensures { result ≡ case_selected board.now ports.now }
{
    match ports {
        [variable, cases @ ..] => match value_of(variable, board) {
            Some(Value::Int(n)) => case_with(cases, board, Buffer::new().format(*n).as_bytes()),
            Some(Value::Text(text)) => case_with(cases, board, text.list()),
            None => cases.len() as u32,
        },
        [] => 0,
    }
}

/// What is picked for a visit of a node. The error is its port that has no truth.
#[inline(always)]
fn pick<P: Past>(node: &Node, memo: Memo, board: &Recorded<P>) -> Result<u32, NumericPort>
    requires { HasPorts (length board.now) node.now }
    ensures { (term : Term-F Meaning) (view : View) (whole uid : ℕ) (s : State) → IsNode view (written term) whole node.now →
        result ≡ picked term.kind (site_of term view uid) memo (record s { board = board.now }) }
{
    match node.kind {
        Kind::Switch(_) => Ok(selected(node.ports.list(), board)),
        Kind::RunOnce => match mark_of(memo) {
            Some(_) => skip_picked(truth_of(&node.ports.list()[0], board)),
            None => Ok(0),
        },
        _ => Ok(0),
    }
}

/// What is picked for a visit of the node with this uid: for a Switch the place of the selected
/// child, and for a RunOnce with a mark 1 where it skips. The error is the fault of its port.
#[inline(always)]
pub fn picked<P: Past>(
    node: &Node,
    uid: u32,
    memo: Memo,
    board: &Recorded<P>,
) -> Result<u32, NodeFault>
    requires { HasPorts (length board.now) node.now }
    ensures { (term : Term-F Meaning) (view : View) (whole : ℕ) (s : State) → IsNode view (written term) whole node.now →
        result ≡ or_bad_port uid (picked term.kind (site_of term view uid) memo (record s { board = board.now })) }
{
    or_bad_port(uid, pick(node, memo, board))
}
