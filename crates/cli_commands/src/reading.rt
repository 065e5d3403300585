ghost use Rattle.std.specs.Prelude.{◌≡◌, ◌≤◌, IfErr, IfOk};
ghost use Rattle.std.specs.Option.{option_copied};
ghost use Rattle.cli_words.specs.Commands.{command_seen};
ghost use Rattle.spec_outside.specs.Counts.{Rose};
ghost use Rattle.spec_program.specs.Answered.{AreWithin};
ghost use Rattle.cli_commands.specs.Named.{contents_of, named, names_seen};
ghost use Rattle.spec_program.specs.Jobs.{files_of};
ghost use Rattle.spec_program.specs.Reads.{AllRead, AreRead, in_order};
ghost use Rattle.cli_commands.specs.NamedReads.{AreStopped, IsUnreadIfNamed, WasRead, WasReadIfNamed};
ghost use Rattle.cli_commands.specs.Unread.{IsUnread};

use base_outside::Shelf;
use base_tables::MOST_FILE_BYTES;
use base_texts::Name;
use cli_refusals::Refusal;
use cli_words::Command;
use spec_outside::ShelfFault;
use spec_program::File;
use std::alloc::Global;

/// The bytes of the files of a command. Of a file that it does not name there are none.
#[derive(Drop)]
pub struct FilesRead {
    pub tree: Vec<u8>,
    pub world: Vec<u8>,
    pub rules: Vec<u8>,
    pub expect: Vec<u8>,
}

/// The names of the files that a command names.
#[derive(Clone, Copy)]
struct NamedFiles<'a> {
    tree: Option<&'a Name>,
    world: Option<&'a Name>,
    rules: Option<&'a Name>,
    expect: Option<&'a Name>,
}

/// These names.
fn named<'a>(
    tree: Option<&'a Name>,
    world: Option<&'a Name>,
    rules: Option<&'a Name>,
    expect: Option<&'a Name>,
) -> NamedFiles<'a>
    ensures { names_seen result
        ≡ named (option_copied tree.entry) (option_copied world.entry) (option_copied rules.entry) (option_copied expect.entry) }
{
    NamedFiles {
        tree,
        world,
        rules,
        expect,
    }
}

/// The names of the files that a command names: of a tree, of a world, of rules and of expectations. A load names none,
/// since it makes both of its files.
fn names_of(command: Command) -> NamedFiles<'_>
    ensures { names_seen result ≡ files_of (command_seen command.entry) }
{
    match command {
        Command::Load { .. } => named(None, None, None, None),
        Command::Tick { tree, world, .. } | Command::Live { tree, world, .. } => {
            named(Some(tree), Some(world), None, None)
        }
        Command::Check { tree, .. }
        | Command::Dead { tree, .. }
        | Command::Exclusive { tree, .. } => named(Some(tree), None, None, None),
        Command::Plan { world, .. }
        | Command::Ground { world }
        | Command::GroundPlan { world, .. } => named(None, Some(world), None, None),
        Command::Mock {
            tree,
            world,
            rules,
            ..
        } => named(Some(tree), Some(world), Some(rules), None),
        Command::MockPrint { tree, rules, .. } => named(Some(tree), None, Some(rules), None),
        Command::Expect {
            tree,
            world,
            expect,
            ..
        } => named(Some(tree), Some(world), None, Some(expect)),
    }
}

/// Reads the file of this name, which the command names as this one of its files.
fn read_file<S: Shelf>(
    alloc: Global,
    file: File,
    name: &Name,
    shelf: &mut S,
) -> Result<Vec<u8>, Refusal>
    ensures read { IfOk result (λ bytes.
        WasRead S.read_gives (S.holds shelf.old) name.now bytes.items shelf.old shelf.new) }
    ensures unread { IfErr result (λ refusal.
        IsUnread S.read_gives S.faults (S.holds shelf.old) file name.now refusal shelf.old shelf.new) }
    ensures holds { S.holds shelf.new ≡ S.holds shelf.old }
    ensures count { S.faults shelf.old ≤ S.faults shelf.new }
{
    let mut bytes = Vec::new(alloc);
    match shelf.read(name, &mut bytes, MOST_FILE_BYTES) {
        Ok(()) => Ok(bytes),
        Err(ShelfFault::Failed) => Err(Refusal::Unread(file)),
        Err(ShelfFault::TooLong) => Err(Refusal::TooLong(file)),
        Err(ShelfFault::NoMemory) => Err(Refusal::NoMemory),
    }
}

/// Reads this one of the files of a command, if it names it.
pub fn read_named<S: Shelf>(
    alloc: Global,
    file: File,
    name: Option<&Name>,
    shelf: &mut S,
) -> Result<Vec<u8>, Refusal>
    ensures read { IfOk result (λ bytes.
        WasReadIfNamed S.read_gives (S.holds shelf.old) (option_copied name.entry) bytes.items shelf.old shelf.new) }
    ensures unread { IfErr result (λ refusal.
        IsUnreadIfNamed S.read_gives S.faults (S.holds shelf.old) file (option_copied name.entry) refusal shelf.old shelf.new) }
    ensures holds { S.holds shelf.new ≡ S.holds shelf.old }
    ensures count { S.faults shelf.old ≤ S.faults shelf.new }
{
    match name {
        Some(name) => read_file(alloc, file, name, shelf),
        None => Ok(Vec::new(alloc)),
    }
}

/// Reads the files that a command names, in their order, each once, and no other, up to the first whose
/// read gives a fault.
pub fn read_files<S: Shelf>(
    alloc: Global,
    command: Command,
    shelf: &mut S,
) -> Result<FilesRead, Refusal>
    ensures read { IfOk result (λ files.
        AreRead S.read_gives (S.holds shelf.old) (in_order (files_of (command_seen command.entry)))
        (AllRead (contents_of files)) shelf.old shelf.new) }
    ensures within { IfOk result (λ files.
        AreWithin (S.holds shelf.old) (files_of (command_seen command.entry)) (contents_of files)) }
    ensures unread { IfErr result (λ refusal.
        AreStopped S.read_gives (S.holds shelf.old) (in_order (files_of (command_seen command.entry)))
        (Rose (S.faults shelf.old) (S.faults shelf.new)) refusal shelf.old shelf.new) }
    ensures holds { S.holds shelf.new ≡ S.holds shelf.old }
    ensures count { S.faults shelf.old ≤ S.faults shelf.new }
{
    let names = names_of(command);
    let tree = read_named(alloc, File::Tree, names.tree, shelf)?;
    let world = read_named(alloc, File::World, names.world, shelf)?;
    let rules = read_named(alloc, File::Rules, names.rules, shelf)?;
    let expect = read_named(alloc, File::Expect, names.expect, shelf)?;
    Ok(FilesRead {
        tree,
        world,
        rules,
        expect,
    })
}
