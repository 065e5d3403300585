ghost use Rattle.std.specs.Prelude.{◌≡◌, ◌≤◌};
ghost use Rattle.cli_refusals.specs.Refusing.{IsRefused};
ghost use Rattle.spec_program.specs.RefusalOutputs.{too_long, unread};
ghost use Rattle.cli_refusals.specs.Printing.{IsSpoken, Printed};
ghost use Rattle.spec_program.specs.Output.{line_of};
ghost use Rattle.spec_outside.specs.Writes.{AreLines};
ghost use Rattle.spec_program.specs.Answers.{WritesAt};

use crate::line::{
    expect_refusal, ground_refusal, join_refusal, rules_refusal, tree_refusal, world_refusal,
};
use base_outside::Sink;
use base_texts::{NoMemory, Stop};
use spec_expect::ExpectFault;
use spec_program::{Exit, File, TreeFault};
use spec_run::JoinFault;
use spec_tree_file::MockFault;
use spec_world_file::{GroundFault, WorldFault};
use std::alloc::Global;
use text_lines::{TextStop, write_line};

/// Why a command has no output of its own.
#[derive(Debug, Drop)]
pub enum Refusal {
    /// The words are no command.
    Words,
    /// This file could not be read.
    Unread(File),
    /// This file has more bytes than a file may have.
    TooLong(File),
    /// The tree file is none.
    Tree(TreeFault),
    /// The world file is none.
    World(WorldFault),
    /// A leaf of the tree lacks a row in the world, or a driver for its row; or a row of a world for
    /// which a plan is asked lacks a driver.
    Join(JoinFault),
    /// A plan is asked for, and the world has no goal.
    NoGoal,
    /// The rules file says no rules, or they make of the tree one that passes a limit.
    Rules(MockFault),
    /// The file of expectations is none.
    Expect(ExpectFault),
    /// The ground file has a fault, or the world script that it stands for.
    Ground(GroundFault),
    /// The program is out of memory.
    NoMemory,
}

impl From<NoMemory> for Refusal {
    ghost use Rattle.cli_refusals.specs.declared.refusal.Refusal.TheVariants as refusal;

    ghost from_gives = { λ _ refused. refused ≡ refusal.NoMemory };

    fn from(_e: NoMemory) -> Refusal {
        Refusal::NoMemory
    }
}

impl From<Stop<TreeFault>> for Refusal {
    ghost use Rattle.cli_refusals.specs.declared.refusal.Refusal.TheVariants as refusal;
    ghost use Rattle.cli_refusals.specs.Refusing.{stopped_as};

    ghost from_gives = { λ stopped refused. refused ≡ stopped_as refusal.Tree stopped };

    fn from(stopped: Stop<TreeFault>) -> Refusal {
        match stopped {
            Stop::Fault(fault) => Refusal::Tree(fault),
            Stop::NoMemory => Refusal::NoMemory,
        }
    }
}

impl From<Stop<WorldFault>> for Refusal {
    ghost use Rattle.cli_refusals.specs.declared.refusal.Refusal.TheVariants as refusal;
    ghost use Rattle.cli_refusals.specs.Refusing.{stopped_as};

    ghost from_gives = { λ stopped refused. refused ≡ stopped_as refusal.World stopped };

    fn from(stopped: Stop<WorldFault>) -> Refusal {
        match stopped {
            Stop::Fault(fault) => Refusal::World(fault),
            Stop::NoMemory => Refusal::NoMemory,
        }
    }
}

impl From<Stop<JoinFault>> for Refusal {
    ghost use Rattle.cli_refusals.specs.declared.refusal.Refusal.TheVariants as refusal;
    ghost use Rattle.cli_refusals.specs.Refusing.{stopped_as};

    ghost from_gives = { λ stopped refused. refused ≡ stopped_as refusal.Join stopped };

    fn from(stopped: Stop<JoinFault>) -> Refusal {
        match stopped {
            Stop::Fault(fault) => Refusal::Join(fault),
            Stop::NoMemory => Refusal::NoMemory,
        }
    }
}

impl From<Stop<MockFault>> for Refusal {
    ghost use Rattle.cli_refusals.specs.declared.refusal.Refusal.TheVariants as refusal;
    ghost use Rattle.cli_refusals.specs.Refusing.{stopped_as};

    ghost from_gives = { λ stopped refused. refused ≡ stopped_as refusal.Rules stopped };

    fn from(stopped: Stop<MockFault>) -> Refusal {
        match stopped {
            Stop::Fault(fault) => Refusal::Rules(fault),
            Stop::NoMemory => Refusal::NoMemory,
        }
    }
}

impl From<Stop<ExpectFault>> for Refusal {
    ghost use Rattle.cli_refusals.specs.declared.refusal.Refusal.TheVariants as refusal;
    ghost use Rattle.cli_refusals.specs.Refusing.{stopped_as};

    ghost from_gives = { λ stopped refused. refused ≡ stopped_as refusal.Expect stopped };

    fn from(stopped: Stop<ExpectFault>) -> Refusal {
        match stopped {
            Stop::Fault(fault) => Refusal::Expect(fault),
            Stop::NoMemory => Refusal::NoMemory,
        }
    }
}

impl From<Stop<GroundFault>> for Refusal {
    ghost use Rattle.cli_refusals.specs.declared.refusal.Refusal.TheVariants as refusal;
    ghost use Rattle.cli_refusals.specs.Refusing.{stopped_as};

    ghost from_gives = { λ stopped refused. refused ≡ stopped_as refusal.Ground stopped };

    fn from(stopped: Stop<GroundFault>) -> Refusal {
        match stopped {
            Stop::Fault(fault) => Refusal::Ground(fault),
            Stop::NoMemory => Refusal::NoMemory,
        }
    }
}

/// Writes the one line of a command, which ends the program with this exit.
fn write_last<K: Sink>(line: &[u8], exit: Exit, out: &mut K) -> Exit
    requires spoken { IsSpoken exit }
    requires lines { AreLines line.now }
    ensures printed { Printed (line_of line.now exit) result
        (K.written out.old) (K.faults out.old) (K.written out.new) (K.faults out.new) }
    ensures count { K.faults out.old ≤ K.faults out.new }
    ensures writes { WritesAt K.write_gives result out.old out.new }
{
    match write_line(out, line) {
        Ok(()) => exit,
        Err(TextStop::WriteFault) => Exit::Write,
        Err(TextStop::NoMemory) => Exit::Memory,
    }
}

/// Writes the line for this file, which could not be read.
fn write_unread<K: Sink>(file: File, out: &mut K) -> Exit
    ensures printed { Printed (unread file) result
        (K.written out.old) (K.faults out.old) (K.written out.new) (K.faults out.new) }
    ensures count { K.faults out.old ≤ K.faults out.new }
    ensures writes { WritesAt K.write_gives result out.old out.new }
{
    match file {
        File::Tree => write_last(b"refused read tree\n", Exit::Read, out),
        File::World => write_last(b"refused read world\n", Exit::Read, out),
        File::Rules => write_last(b"refused read rules\n", Exit::Read, out),
        File::Expect => write_last(b"refused read expect\n", Exit::Read, out),
    }
}

/// Writes the line for this file, which has too many bytes.
fn write_too_long<K: Sink>(file: File, out: &mut K) -> Exit
    ensures printed { Printed (too_long file) result
        (K.written out.old) (K.faults out.old) (K.written out.new) (K.faults out.new) }
    ensures count { K.faults out.old ≤ K.faults out.new }
    ensures writes { WritesAt K.write_gives result out.old out.new }
{
    match file {
        File::Tree => write_last(b"refused tree TooLong\n", Exit::Tree, out),
        File::World => write_last(b"refused world TooLong\n", Exit::World, out),
        File::Rules => write_last(b"refused rules TooLong\n", Exit::Rules, out),
        File::Expect => write_last(b"refused expect TooLong 0\n", Exit::Expect, out),
    }
}

/// Writes the line of a refusal, and gives the exit that goes with it. Where the program is out of
/// memory it writes none.
pub fn write_refusal<K: Sink>(alloc: Global, refusal: &Refusal, out: &mut K) -> Exit
    ensures refused { IsRefused refusal.now result
        (K.written out.old) (K.faults out.old) (K.written out.new) (K.faults out.new) }
    ensures count { K.faults out.old ≤ K.faults out.new }
    ensures writes { WritesAt K.write_gives result out.old out.new }
{
    match refusal {
        Refusal::Words => write_last(b"refused words\n", Exit::Words, out),
        Refusal::Unread(file) => write_unread(*file, out),
        Refusal::TooLong(file) => write_too_long(*file, out),
        Refusal::Tree(fault) => match tree_refusal(alloc, fault) {
            Ok(line) => write_last(line.as_slice(), Exit::Tree, out),
            Err(NoMemory) => Exit::Memory,
        },
        Refusal::World(fault) => match world_refusal(alloc, *fault) {
            Ok(line) => write_last(line.as_slice(), Exit::World, out),
            Err(NoMemory) => Exit::Memory,
        },
        Refusal::Join(fault) => match join_refusal(alloc, fault) {
            Ok(line) => write_last(line.as_slice(), Exit::World, out),
            Err(NoMemory) => Exit::Memory,
        },
        Refusal::NoGoal => write_last(b"refused world NoGoal\n", Exit::World, out),
        Refusal::Rules(fault) => match rules_refusal(alloc, fault) {
            Ok(line) => write_last(line.as_slice(), Exit::Rules, out),
            Err(NoMemory) => Exit::Memory,
        },
        Refusal::Expect(fault) => match expect_refusal(alloc, *fault) {
            Ok(line) => write_last(line.as_slice(), Exit::Expect, out),
            Err(NoMemory) => Exit::Memory,
        },
        Refusal::Ground(fault) => match ground_refusal(alloc, *fault) {
            Ok(line) => write_last(line.as_slice(), Exit::World, out),
            Err(NoMemory) => Exit::Memory,
        },
        Refusal::NoMemory => Exit::Memory,
    }
}
