ghost use Rattle.std.specs.Prelude.{◌≡◌, ◌≤◌, ◌++◌, IfOk, OnOk, IsErrOf, codes, decimal, map};
ghost use Rattle.std.specs.List.{concat};
ghost use Rattle.spec_output.specs.Lines.{cause_words};
ghost use Rattle.cli_answers.specs.Planning.Printed.{PlanPrinted};
ghost use Rattle.spec_program.specs.PlanOutputs.{plan_bytes, plan_exit, reached_lines};
ghost use Rattle.spec_outside.specs.Appending.{Appended, AppendedPrefix};
ghost use Rattle.spec_outside.specs.Counts.{Rose};
ghost use Rattle.spec_plan.specs.PlanLines.{end_line, end_words, listed, step_line};
ghost use Rattle.spec_output.specs.NoNames.{no_names};
ghost use Rattle.spec_outside.specs.Writes.{Writes};
ghost use Rattle.spec_program.specs.Answers.{WritesAt};

use base_outside::Sink;
use base_texts::{Name, NoMemory};
use spec_plan::{End, PlanEnd, Step};
use spec_program::Exit;
use spec_run::Cause;
use std::alloc::Global;
use text_lines::{
    Names, TextStop, no_names, put_bytes, put_cause, put_number, write_line, write_tree,
};

/// Adds which condition a step expands. The error is want of memory.
fn put_expanded(line: &mut Vec<u8>, step: &Step) -> Result<(), NoMemory>
    ensures { OnOk result (line.new.items ≡ line.old.items ++ (codes "expand " ++ decimal step.now.uid ++ codes " "
        ++ step.now.condition)) }
{
    put_bytes(line, b"expand ")?;
    put_number(line, u64::from(step.uid))?;
    put_bytes(line, b" ")?;
    put_bytes(line, step.condition.list())
}

/// Adds which action a step adds, and how often its sequence was raised. The error is want of memory.
fn put_added(line: &mut Vec<u8>, step: &Step) -> Result<(), NoMemory>
    ensures { OnOk result (line.new.items ≡ line.old.items ++ (step.now.action ++ codes " raises "
        ++ decimal step.now.raises)) }
{
    put_bytes(line, step.action.list())?;
    put_bytes(line, b" raises ")?;
    put_number(line, u64::from(step.raises))
}

/// Adds the line of a step. The error is want of memory.
fn put_step(line: &mut Vec<u8>, step: &Step) -> Result<(), NoMemory>
    ensures { OnOk result (line.new.items ≡ line.old.items ++ step_line step.now) }
{
    put_bytes(line, b"<!-- ")?;
    put_expanded(line, step)?;
    put_bytes(line, b" ")?;
    put_added(line, step)?;
    put_bytes(line, b" -->\n")
}

/// Adds names, each with a blank before it. The error is want of memory.
fn put_names(line: &mut Vec<u8>, names: &[Name]) -> Result<(), NoMemory>
    ensures { OnOk result (line.new.items ≡ line.old.items ++ listed names.now) }
{
    for name in names {
        put_bytes(line, b" ")?;
        put_bytes(line, name.list())?;
    }
    Ok(())
}

/// Adds words and a number. The error is want of memory.
fn put_count(line: &mut Vec<u8>, words: &[u8], number: u32) -> Result<(), NoMemory>
    ensures { OnOk result (line.new.items ≡ line.old.items ++ (words.now ++ decimal number)) }
{
    put_bytes(line, words)?;
    put_number(line, u64::from(number))
}

/// Adds words and names, each with a blank before it. The error is want of memory.
fn put_listed(line: &mut Vec<u8>, words: &[u8], names: &[Name]) -> Result<(), NoMemory>
    ensures { OnOk result (line.new.items ≡ line.old.items ++ (words.now ++ listed names.now)) }
{
    put_bytes(line, words)?;
    put_names(line, names)
}

/// Adds words and two names. The error is want of memory.
fn put_pair(line: &mut Vec<u8>, words: &[u8], first: &Name, second: &Name) -> Result<(), NoMemory>
    ensures { OnOk result (line.new.items ≡ line.old.items ++ (words.now ++ first.now ++ codes " " ++ second.now)) }
{
    put_bytes(line, words)?;
    put_bytes(line, first.list())?;
    put_bytes(line, b" ")?;
    put_bytes(line, second.list())
}

/// Adds words and a fault of the node with this uid, whose cause needs no names. The error is want
/// of memory.
fn put_fault(
    alloc: Global,
    line: &mut Vec<u8>,
    words: &[u8],
    uid: u32,
    cause: Cause,
) -> Result<(), NoMemory>
    ensures { OnOk result (line.new.items ≡ line.old.items ++ (words.now ++ decimal uid ++ codes " "
        ++ cause_words no_names uid cause)) }
{
    let names = no_names(alloc)?;
    put_bytes(line, words)?;
    put_number(line, u64::from(uid))?;
    put_bytes(line, b" ")?;
    put_cause(line, uid, cause, &names)
}

/// Adds the words of an end. The error is want of memory.
fn put_end(alloc: Global, line: &mut Vec<u8>, end: &End) -> Result<(), NoMemory>
    ensures { OnOk result (line.new.items ≡ line.old.items ++ end_words no_names end.now) }
{
    match end {
        End::Reached { tick, .. } => put_count(line, b"reached tick ", *tick),
        End::NoTemplate { failed } => put_listed(line, b"no plan NoTemplate", failed.list()),
        End::NoOrder { action, condition } => {
            put_pair(line, b"no plan NoOrder ", action, condition)
        }
        End::Expansions { n } => put_count(line, b"no plan Expansions ", *n),
        End::StillRunning { ticks } => put_count(line, b"no plan StillRunning ", *ticks),
        End::Faulted { uid, cause } => { put_fault(alloc, line, b"no plan Faulted ", *uid, *cause) }
    }
}

/// The line of an end. The error is want of memory.
fn end_line(alloc: Global, end: &End) -> Result<Vec<u8>, NoMemory>
    ensures { IfOk result (λ line. line.items ≡ end_line no_names end.now) }
{
    let mut line = Vec::new(alloc);
    put_bytes(&mut line, b"<!-- ")?;
    put_end(alloc, &mut line, end)?;
    put_bytes(&mut line, b" -->\n")?;
    Ok(line)
}

/// Writes a line for each step. After a stop a prefix of the lines was written.
/// `TextStop::WriteFault` comes only where the sink's count of failures rose in this call.
#[tactic(auto, using(base_outside::proofs::Appends::appending, base_outside::proofs::Writings::writing))]
fn write_steps<K: Sink>(alloc: Global, steps: &[Step], out: &mut K) -> Result<(), TextStop>
    ensures whole { OnOk result (Appended (K.written out.old) (K.written out.new) (concat (map step_line steps.now))) }
    ensures prefix { AppendedPrefix (K.written out.old) (K.written out.new) (concat (map step_line steps.now)) }
    ensures failed { IsErrOf result TextStop.WriteFault → Rose (K.faults out.old) (K.faults out.new) }
    ensures count { K.faults out.old ≤ K.faults out.new }
    ensures writes { Writes K.write_gives result out.old out.new }
{
    let mut line = Vec::new(alloc);
    for step in steps {
        line.clear();
        put_step(&mut line, step)?;
        write_line(out, line.as_slice())?;
    }
    Ok(())
}

/// Writes the tree of an end that reaches the goals, and nothing of any other. After a stop a prefix
/// of the lines was written. `TextStop::WriteFault` comes only where the sink's count of failures
/// rose in this call.
#[tactic(auto, using(base_outside::proofs::Appends::appending, base_outside::proofs::Writings::writing))]
fn write_reached<K: Sink>(alloc: Global, end: &End, out: &mut K) -> Result<(), TextStop>
    ensures whole { OnOk result (Appended (K.written out.old) (K.written out.new) (concat (reached_lines end.now))) }
    ensures prefix { AppendedPrefix (K.written out.old) (K.written out.new) (concat (reached_lines end.now)) }
    ensures failed { IsErrOf result TextStop.WriteFault → Rose (K.faults out.old) (K.faults out.new) }
    ensures count { K.faults out.old ≤ K.faults out.new }
    ensures writes { Writes K.write_gives result out.old out.new }
{
    match end {
        End::Reached { tree, .. } => write_tree(alloc, out, tree),
        _ => Ok(()),
    }
}

/// Writes the line of an end, and then its tree. After a stop a prefix was written.
/// `TextStop::WriteFault` comes only where the sink's count of failures rose in this call.
#[tactic(auto, using(base_outside::proofs::Appends::appending, base_outside::proofs::Writings::writing))]
fn write_end<K: Sink>(alloc: Global, end: &End, out: &mut K) -> Result<(), TextStop>
    ensures whole { OnOk result
        (Appended (K.written out.old) (K.written out.new) (end_line no_names end.now ++ concat (reached_lines end.now))) }
    ensures prefix { AppendedPrefix (K.written out.old) (K.written out.new) (end_line no_names end.now ++ concat (reached_lines end.now)) }
    ensures failed { IsErrOf result TextStop.WriteFault → Rose (K.faults out.old) (K.faults out.new) }
    ensures count { K.faults out.old ≤ K.faults out.new }
    ensures writes { Writes K.write_gives result out.old out.new }
{
    let line = end_line(alloc, end)?;
    write_line(out, line.as_slice())?;
    write_reached(alloc, end, out)?;
    Ok(())
}

/// Writes the steps of a plan and its end. After a stop a prefix was written.
/// `TextStop::WriteFault` comes only where the sink's count of failures rose in this call.
#[tactic(auto, using(base_outside::proofs::Appends::appending, base_outside::proofs::Writings::writing))]
fn write_plan<K: Sink>(alloc: Global, planned: &PlanEnd, out: &mut K) -> Result<(), TextStop>
    ensures whole { OnOk result (Appended (K.written out.old) (K.written out.new) (plan_bytes planned.now)) }
    ensures prefix { AppendedPrefix (K.written out.old) (K.written out.new) (plan_bytes planned.now) }
    ensures failed { IsErrOf result TextStop.WriteFault → Rose (K.faults out.old) (K.faults out.new) }
    ensures count { K.faults out.old ≤ K.faults out.new }
    ensures writes { Writes K.write_gives result out.old out.new }
{
    write_steps(alloc, planned.steps.list(), out)?;
    write_end(alloc, &planned.end, out)?;
    Ok(())
}

/// The exit of an end.
fn exit_of(end: &End) -> Exit
    ensures { result ≡ plan_exit end.now }
{
    match end {
        End::Reached { .. } => Exit::Done,
        End::Faulted { .. } => Exit::Fault,
        _ => Exit::NoPlan,
    }
}

/// Prints a plan: its steps, its end, and the tree that reaches the goals.
pub fn print_plan<K: Sink>(alloc: Global, planned: &PlanEnd, out: &mut K) -> Exit
    ensures printed { PlanPrinted planned.now result
        (K.written out.old) (K.faults out.old) (K.written out.new) (K.faults out.new) }
    ensures count { K.faults out.old ≤ K.faults out.new }
    ensures writes { WritesAt K.write_gives result out.old out.new }
{
    match write_plan(alloc, planned, out) {
        Ok(()) => exit_of(&planned.end),
        Err(TextStop::WriteFault) => Exit::Write,
        Err(TextStop::NoMemory) => Exit::Memory,
    }
}
