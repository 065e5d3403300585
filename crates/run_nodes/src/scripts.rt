ghost use Rattle.std.specs.Prelude.{◌≡◌, ◌≤◌, false, IfOk, OnOk, Option, Some, length};
ghost use Rattle.spec_script.specs.declared.syntax.Script.{Script};
ghost use Rattle.script_code.specs.IntEntries.{IsAnswered};
ghost use Rattle.base_texts.specs.Stops.{Gives};
ghost use Rattle.script_code.specs.Codes.{needed, program};
ghost use Rattle.spec_tree.specs.declared.term.Term.{Term-F};
ghost use Rattle.spec_run.specs.Done.{Done, State, follow};
ghost use Rattle.spec_run.specs.NodeScripts.{goes_on, guard, guards_answer, posts, script_cause};
ghost use Rattle.spec_run.specs.NodeScripts.{script_holds, script_if_there, script_run, truth_of};
ghost use Rattle.spec_run.specs.Sites.{Meaning, View};
ghost use Rattle.spec_run.specs.Visit.{site_of};
ghost use Rattle.run_arena.specs.Nodes.{AreCompiled, IsCodeOf, IsCompiled};
ghost use Rattle.run_nodes.specs.Meeting.{GaveTruth, GaveValue, HasRun, WasTried, guards_meet, posts_meet, script_meets, then_meets};
ghost use Rattle.run_nodes.specs.Needs.{GuardsNeedAtMost, NeedsAtMost};
ghost use Rattle.run_nodes.specs.Settles.{Settles, Tries, on_board};

use base_texts::Stop;
use run_arena::ReadyGuards;
use script_code::{Code, exec, exec_int};
use spec_run::{Answer, Cause, NodeFault};
use spec_script::{ExecFault, Value};
use std::alloc::Global;
use tree_board::{Past, Recorded};

/// The fault of a script as a cause.
fn cause_of(fault: ExecFault) -> Cause
    ensures { result ≡ script_cause fault }
{
    match fault {
        ExecFault::NoEntry { slot } => Cause::NoEntry { slot },
        ExecFault::Overflow => Cause::Overflow,
        ExecFault::ZeroDivisor => Cause::ZeroDivisor,
        ExecFault::NotWhole => Cause::NotWhole,
        ExecFault::Mixed => Cause::Mixed,
        ExecFault::TextTooLong => Cause::TextTooLong,
    }
}

/// Runs a script of the node with this uid, and gives its value. The error is a fault of the
/// script, as one of its node, and what it wrote before stays. Want of memory comes only where
/// the run meets a text.
#[inline(never)]
pub fn run_script<P: Past>(
    alloc: Global,
    code: &Code,
    uid: u32,
    board: &mut Recorded<P>,
) -> Result<Value, Stop<NodeFault>>
    requires { needed code.now ≤ length board.old }
    ensures settles { (term : Term-F Meaning) (view : View) (script : Script) (s : State) → IsCodeOf view script code.now →
        Settles result (on_board board.new s) (script_run (site_of term view uid) script (on_board board.old s)) }
    ensures slots { length board.new ≡ length board.old }
    ensures memory { (program code.now).meets board.old ≡ false → IsAnswered result }
    ensures run { IfOk result (λ value. GaveValue code.now value board.old board.new) }
{
    match exec(alloc, code, board) {
        Ok(value) => Ok(value),
        Err(Stop::Fault(fault)) => Err(Stop::Fault(NodeFault {
            uid,
            cause: cause_of(fault),
        })),
        Err(Stop::NoMemory) => Err(Stop::NoMemory),
    }
}

/// Runs a script of the node with this uid for what it writes alone. It is not inlined, since most
/// scripts give a number at once and do not come here. The error is a fault of the script, or want
/// of memory.
#[inline(never)]
fn run_whole<P: Past>(
    alloc: Global,
    code: &Code,
    uid: u32,
    board: &mut Recorded<P>,
) -> Result<(), Stop<NodeFault>>
    requires { needed code.now ≤ length board.old }
    ensures settles { (term : Term-F Meaning) (view : View) (script : Script) (s : State) → IsCodeOf view script code.now →
        Settles result (on_board board.new s) (script_if_there (site_of term view uid) (Some script) (on_board board.old s)) }
    ensures slots { length board.new ≡ length board.old }
    ensures memory { (program code.now).meets board.old ≡ false → IsAnswered result }
    ensures run { OnOk result (HasRun (Some code.now) board.old board.new) }
{
    run_script(alloc, code, uid, board)?;
    Ok(())
}

/// Runs a script of the node with this uid for what it writes alone. The error is a fault of the
/// script, or want of memory.
#[inline(always)]
pub fn run_for_writes<P: Past>(
    alloc: Global,
    code: &Code,
    uid: u32,
    board: &mut Recorded<P>,
) -> Result<(), Stop<NodeFault>>
    requires { needed code.now ≤ length board.old }
    ensures settles { (term : Term-F Meaning) (view : View) (script : Script) (s : State) → IsCodeOf view script code.now →
        Settles result (on_board board.new s) (script_if_there (site_of term view uid) (Some script) (on_board board.old s)) }
    ensures slots { length board.new ≡ length board.old }
    ensures memory { (program code.now).meets board.old ≡ false → IsAnswered result }
    ensures run { OnOk result (HasRun (Some code.now) board.old board.new) }
{
    match exec_int(code, board) {
        Some(_) => Ok(()),
        None => run_whole(alloc, code, uid, board),
    }
}

/// Runs a script of the node with this uid, where there is one. The error is a fault of the script,
/// or want of memory.
#[inline(always)]
pub fn script_if_there<P: Past>(
    alloc: Global,
    code: &Option<Code>,
    uid: u32,
    board: &mut Recorded<P>,
) -> Result<(), Stop<NodeFault>>
    requires { NeedsAtMost (length board.old) code.now }
    ensures settles { (term : Term-F Meaning) (view : View) (script : Option Script) (s : State) → IsCompiled view script code.now →
        Settles result (on_board board.new s) (script_if_there (site_of term view uid) script (on_board board.old s)) }
    ensures slots { length board.new ≡ length board.old }
    ensures memory { script_meets code.now board.old ≡ false → IsAnswered result }
    ensures run { OnOk result (HasRun code.now board.old board.new) }
{
    match code {
        Some(code) => run_for_writes(alloc, code, uid, board),
        None => Ok(()),
    }
}

/// A value as a condition of the node with this uid: a number other than 0 is true. The error is
/// the fault of the node: a text.
#[inline(always)]
fn truth(value: &Value, uid: u32) -> Result<bool, Stop<NodeFault>>
    ensures gives { Gives result (truth_of uid value.now) }
    ensures memory { IsAnswered result }
{
    match value {
        Value::Int(n) => Ok(*n != 0),
        Value::Text(_) => Err(Stop::Fault(NodeFault {
            uid,
            cause: Cause::Mixed,
        })),
    }
}

/// Runs a script of the node with this uid as a condition: a number other than 0 is true, and a
/// text is a fault. It is not inlined, since most scripts give a number at once and do not come
/// here. The error is a fault of the script, or want of memory.
#[inline(never)]
fn whole_holds<P: Past>(
    alloc: Global,
    code: &Code,
    uid: u32,
    board: &mut Recorded<P>,
) -> Result<bool, Stop<NodeFault>>
    requires { needed code.now ≤ length board.old }
    ensures settles { (term : Term-F Meaning) (view : View) (script : Script) (s : State) → IsCodeOf view script code.now →
        Settles result (on_board board.new s) (script_holds (site_of term view uid) script (on_board board.old s)) }
    ensures slots { length board.new ≡ length board.old }
    ensures memory { (program code.now).meets board.old ≡ false → IsAnswered result }
    ensures run { IfOk result (λ holds. GaveTruth code.now holds board.old board.new) }
{
    let value = run_script(alloc, code, uid, board)?;
    truth(&value, uid)
}

/// Runs a script of the node with this uid as a condition: a number other than 0 is true, and a
/// text is a fault. The error is a fault of the script, or want of memory.
#[inline(always)]
pub fn script_holds<P: Past>(
    alloc: Global,
    code: &Code,
    uid: u32,
    board: &mut Recorded<P>,
) -> Result<bool, Stop<NodeFault>>
    requires { needed code.now ≤ length board.old }
    ensures settles { (term : Term-F Meaning) (view : View) (script : Script) (s : State) → IsCodeOf view script code.now →
        Settles result (on_board board.new s) (script_holds (site_of term view uid) script (on_board board.old s)) }
    ensures slots { length board.new ≡ length board.old }
    ensures memory { (program code.now).meets board.old ≡ false → IsAnswered result }
    ensures run { IfOk result (λ holds. GaveTruth code.now holds board.old board.new) }
{
    match exec_int(code, board) {
        Some(n) => Ok(n != 0),
        None => whole_holds(alloc, code, uid, board),
    }
}

/// Tries a guard of the node with this uid: whether it is there, and is true or false as asked. The
/// error is a fault of the guard, or want of memory.
#[inline(always)]
fn is_answered<P: Past>(
    alloc: Global,
    code: &Option<Code>,
    truth: bool,
    uid: u32,
    board: &mut Recorded<P>,
) -> Result<bool, Stop<NodeFault>>
    requires { NeedsAtMost (length board.old) code.now }
    ensures tries { (term : Term-F Meaning) (view : View) (script : Option Script) (s : State) (answer : Answer) →
        (next : State → Done (Option Answer) (Unit {0})) → IsCompiled view script code.now →
        Tries result answer next (on_board board.new s) (guard (site_of term view uid) script truth answer next (on_board board.old s)) }
    ensures slots { length board.new ≡ length board.old }
    ensures memory { script_meets code.now board.old ≡ false → IsAnswered result }
    ensures tried { IfOk result (λ answers. WasTried code.now truth answers board.old board.new) }
{
    match code {
        Some(code) => Ok(script_holds(alloc, code, uid, board)? == truth),
        None => Ok(false),
    }
}

/// Tries the guards of the node with this uid, which is not RUNNING, one after the other. It is not
/// inlined, since most nodes have none. The error is a fault of a guard, or want of memory.
#[inline(never)]
fn try_each<P: Past>(
    alloc: Global,
    guards: &ReadyGuards,
    uid: u32,
    board: &mut Recorded<P>,
) -> Result<Option<Answer>, Stop<NodeFault>>
    requires { GuardsNeedAtMost (length board.old) guards.now }
    ensures settles { (term : Term-F Meaning) (view : View) (s : State) → AreCompiled view term.guards guards.now →
        Settles result (on_board board.new s) (guards_answer (site_of term view uid) (on_board board.old s)) }
    ensures slots { length board.new ≡ length board.old }
    ensures memory { guards_meet guards.now board.old ≡ false → IsAnswered result }
{
    if is_answered(alloc, &guards.failure_if, true, uid, board)? {
        return Ok(Some(Answer::Failure));
    }
    if is_answered(alloc, &guards.success_if, true, uid, board)? {
        return Ok(Some(Answer::Success));
    }
    if is_answered(alloc, &guards.skip_if, true, uid, board)? {
        return Ok(Some(Answer::Skipped));
    }
    if is_answered(alloc, &guards.while_true, false, uid, board)? {
        return Ok(Some(Answer::Skipped));
    }
    Ok(None)
}

/// Tries the guards of the node with this uid, which is not RUNNING. It is inlined where a node has
/// guards, so that only there the stack has room for their results. The error is a fault of a
/// guard, or want of memory.
#[inline(always)]
fn try_guards<P: Past>(
    alloc: Global,
    guards: &ReadyGuards,
    uid: u32,
    board: &mut Recorded<P>,
) -> Result<Option<Answer>, Stop<NodeFault>>
    requires { GuardsNeedAtMost (length board.old) guards.now }
    ensures settles { (term : Term-F Meaning) (view : View) (s : State) → AreCompiled view term.guards guards.now →
        Settles result (on_board board.new s) (guards_answer (site_of term view uid) (on_board board.old s)) }
    ensures slots { length board.new ≡ length board.old }
    ensures memory { guards_meet guards.now board.old ≡ false → IsAnswered result }
{
    try_each(alloc, guards, uid, board)
}

/// The answer of the guards of the node with this uid, which is not RUNNING: that of the first of
/// `_failureIf`, `_successIf`, `_skipIf` and `_while` that answers; none where none does. Those
/// after it do not run. The error is a fault of a guard, or want of memory.
#[inline(always)]
pub fn guards_answer<P: Past>(
    alloc: Global,
    guards: &ReadyGuards,
    uid: u32,
    board: &mut Recorded<P>,
) -> Result<Option<Answer>, Stop<NodeFault>>
    requires { GuardsNeedAtMost (length board.old) guards.now }
    ensures settles { (term : Term-F Meaning) (view : View) (s : State) → AreCompiled view term.guards guards.now →
        Settles result (on_board board.new s) (guards_answer (site_of term view uid) (on_board board.old s)) }
    ensures slots { length board.new ≡ length board.old }
    ensures memory { guards_meet guards.now board.old ≡ false → IsAnswered result }
{
    if guards.before {
        try_guards(alloc, guards, uid, board)
    } else {
        Ok(None)
    }
}

/// Whether the node with this uid, which is RUNNING, goes on: it does unless its `_while` is false.
/// The error is a fault of that guard, or want of memory.
pub fn goes_on<P: Past>(
    alloc: Global,
    guards: &ReadyGuards,
    uid: u32,
    board: &mut Recorded<P>,
) -> Result<bool, Stop<NodeFault>>
    requires { NeedsAtMost (length board.old) guards.now.while_true }
    ensures settles { (term : Term-F Meaning) (view : View) (s : State) → IsCompiled view term.guards.while_true guards.now.while_true →
        Settles result (on_board board.new s) (goes_on (site_of term view uid) (on_board board.old s)) }
    ensures slots { length board.new ≡ length board.old }
    ensures memory { script_meets guards.now.while_true board.old ≡ false → IsAnswered result }
{
    match &guards.while_true {
        Some(code) => script_holds(alloc, code, uid, board),
        None => Ok(true),
    }
}

/// Runs two scripts of the node with this uid in order, each where there is one. It is not inlined,
/// since most nodes have none. The error is a fault of a script, or want of memory.
#[inline(never)]
fn both_if_there<P: Past>(
    alloc: Global,
    first: &Option<Code>,
    second: &Option<Code>,
    uid: u32,
    board: &mut Recorded<P>,
) -> Result<(), Stop<NodeFault>>
    requires first { NeedsAtMost (length board.old) first.now }
    requires second { NeedsAtMost (length board.old) second.now }
    ensures settles { (term : Term-F Meaning) (view : View) (one other : Option Script) (s : State) →
        IsCompiled view one first.now → IsCompiled view other second.now →
        let begun = script_if_there (site_of term view uid) one (on_board board.old s) in
        Settles result (on_board board.new s) (follow begun (λ _. tt) (λ _ _ s1. script_if_there (site_of term view uid) other s1)) }
    ensures slots { length board.new ≡ length board.old }
    ensures memory { then_meets first.now (script_meets second.now) board.old ≡ false → IsAnswered result }
{
    script_if_there(alloc, first, uid, board)?;
    script_if_there(alloc, second, uid, board)
}

/// Runs the scripts of the node with this uid after its answer. It is inlined where a node has such
/// scripts, so that only there the stack has room for their results. The error is a fault of a
/// script, or want of memory.
#[inline(always)]
fn run_posts<P: Past>(
    alloc: Global,
    guards: &ReadyGuards,
    uid: u32,
    answer: Answer,
    board: &mut Recorded<P>,
) -> Result<(), Stop<NodeFault>>
    requires { GuardsNeedAtMost (length board.old) guards.now }
    ensures settles { (term : Term-F Meaning) (view : View) (s : State) → AreCompiled view term.guards guards.now →
        Settles result (on_board board.new s) (posts (site_of term view uid) answer (on_board board.old s)) }
    ensures slots { length board.new ≡ length board.old }
    ensures memory { posts_meet guards.now answer board.old ≡ false → IsAnswered result }
{
    match answer {
        Answer::Success => both_if_there(alloc, &guards.on_success, &guards.post, uid, board),
        Answer::Failure => both_if_there(alloc, &guards.on_failure, &guards.post, uid, board),
        Answer::Running | Answer::Skipped => Ok(()),
    }
}

/// Runs the scripts of the node with this uid after its answer: `_onSuccess` after SUCCESS and
/// `_onFailure` after FAILURE, and then `_post` after either. The error is a fault of a script, or
/// want of memory.
#[inline(always)]
pub fn posts<P: Past>(
    alloc: Global,
    guards: &ReadyGuards,
    uid: u32,
    answer: Answer,
    board: &mut Recorded<P>,
) -> Result<(), Stop<NodeFault>>
    requires { GuardsNeedAtMost (length board.old) guards.now }
    ensures settles { (term : Term-F Meaning) (view : View) (s : State) → AreCompiled view term.guards guards.now →
        Settles result (on_board board.new s) (posts (site_of term view uid) answer (on_board board.old s)) }
    ensures slots { length board.new ≡ length board.old }
    ensures memory { posts_meet guards.now answer board.old ≡ false → IsAnswered result }
{
    if guards.after {
        run_posts(alloc, guards, uid, answer, board)
    } else {
        Ok(())
    }
}
