ghost use Rattle.std.specs.Prelude.{◌≡◌, ◌&&◌, not, nat_eq, OnOk};
ghost use Rattle.std.specs.List.{list_any};
ghost use Rattle.spec_expect.specs.Leaves as leaves_of;
ghost use Rattle.spec_expect.specs.Met as met;
ghost use Rattle.spec_expect.specs.Met.{after_call, held_after, is_this, with_leaf};

use crate::notes::is_marked;
use base_texts::NoMemory;
use spec_run::{Answer, Note};

/// Whether this is the leaf of a uid of a runner.
fn is_this(runner: u8, uid: u32, leaf: (u8, u32)) -> bool
    ensures { result ≡ is_this runner uid leaf }
{
    leaf.0 == runner && leaf.1 == uid
}

/// The leaf of a uid of a runner is held no longer.
fn remove(held: &mut Vec<(u8, u32)>, runner: u8, uid: u32)
    ensures { held.new.items ≡ met.without runner uid held.old.items }
{
    held.retain(|leaf| !is_this(runner, uid, *leaf));
}

/// Whether the leaf of a uid of a runner is held.
fn is_held(held: &[(u8, u32)], runner: u8, uid: u32) -> bool
    ensures { result ≡ list_any (is_this runner uid) held.now }
{
    held.iter().any(|leaf| is_this(runner, uid, *leaf))
}

/// The leaf of a uid of a runner is held. The error is want of memory.
fn add(held: &mut Vec<(u8, u32)>, runner: u8, uid: u32) -> Result<(), NoMemory>
    ensures { OnOk result (held.new.items ≡ with_leaf runner uid held.old.items) }
{
    if is_held(held.as_slice(), runner, uid) {
        return Ok(());
    }
    held.push((runner, uid))?;
    Ok(())
}

/// After a call that was answered so, the leaf is held where it is RUNNING.
fn take_call(
    held: &mut Vec<(u8, u32)>,
    answer: Answer,
    runner: u8,
    uid: u32,
) -> Result<(), NoMemory>
    ensures { OnOk result (held.new.items ≡ after_call answer runner uid held.old.items) }
{
    match answer {
        Answer::Running => add(held, runner, uid),
        _ => {
            remove(held, runner, uid);
            Ok(())
        }
    }
}

/// The leaves that are held, each with its runner, become those after a note of this runner. The error is want of memory.
pub fn take_note(held: &mut Vec<(u8, u32)>, runner: u8, note: Note) -> Result<(), NoMemory>
    ensures { OnOk result (held.new.items ≡ held_after runner note held.old.items) }
{
    match note {
        Note::Started { uid, answer } | Note::Ran { uid, answer } => {
            take_call(held, answer, runner, uid)
        }
        Note::Halted { uid } | Note::Quenched { uid, .. } => {
            remove(held, runner, uid);
            Ok(())
        }
        _ => Ok(()),
    }
}

/// Whether another leaf of this one's runner is held that is marked.
fn is_beside(marks: &[bool], leaf: (u8, u32), held: &[(u8, u32)]) -> bool
    ensures { result ≡ list_any (λ b. nat_eq b.0 leaf.0 && leaves_of.is_marked marks.now b.1 && not (nat_eq b.1 leaf.1)) held.now }
{
    held.iter().any(|other| other.0 == leaf.0 && is_marked(marks, other.1) && other.1 != leaf.1)
}

/// Whether one of the first leaves is held, and another one, of the second ones, at the same runner.
pub fn are_together(first: &[bool], second: &[bool], held: &[(u8, u32)]) -> bool
    ensures { result ≡ met.are_together first.now second.now held.now }
{
    held.iter().any(|leaf| is_marked(first, leaf.1) && is_beside(second, *leaf, held))
}
