//! How a session is opened, and why it is not.
ghost use types.Logic.{sem};
ghost use Rattle.std.specs.Prelude.{◌≡◌, ◌≤◌, ◌⊎◌, [], IsUtf8, IfOk, Ok, Result as ResultOf, length, ℕ as N};
ghost use Rattle.std.specs.Str.{is_utf8};
ghost use Rattle.std.specs.Option.{option_copied};
ghost use Rattle.base_tables.specs.Runnable.{IsRunnable};
ghost use Rattle.base_texts.specs.Stops.{Gives};
ghost use Rattle.cli_serve.specs.Rows.{IsTreeOf};
ghost use Rattle.spec_run.specs.Joins.{lack_of};
ghost use Rattle.spec_session.specs.Opening.{joined, new_drivers};
ghost use Rattle.spec_tree.specs.Limits.{most_file_bytes};
ghost use Rattle.spec_tree.specs.Trees.{IsValid};
ghost use Rattle.spec_world.specs.Runnable.{IsRunnableWorld};
ghost use Rattle.world_reader.specs.Readings as readings;
ghost use Rattle.host_library.specs.declared.hosted.Hosted.{Hosted as HostedOf};
ghost use Rattle.host_library.specs.Opening.{Explained, Given, OpenTold, OpensIn, OpensTold, ToldOpens, given_of, main_of, refused_as, session_of, told_stop};
ghost use Rattle.host_library.specs.Owned.{given_owns};
ghost use Rattle.host_library.specs.Texts.{TextTold};

use crate::codes::{MISUSE, NO_MEMORY, OK, REFUSED};
use crate::hosted::Hosted;
use crate::text::{copy_text, is_utf8};
use base_tables::MOST_FILE_BYTES;
use base_texts::{Name, NoMemory, Stop};
use cli_refusals::{Refusal, join_refusal, tree_refusal, world_refusal};
use cli_serve::told_world;
use host_session::Session;
use spec_session::OpenFault;
use spec_tree::Tree;
use spec_world::World;
use std::alloc::Global;
use text_lines::put_bytes;
use tree_reader::parse_tree;

/// Why a tree is refused that opens no session without a world; the rest is want of memory.
fn told_stop(refusal: Refusal) -> Stop<OpenFault>
    ensures { result ≡ told_stop refusal }
{
    match refusal {
        Refusal::World(fault) => Stop::Fault(OpenFault::World(fault)),
        Refusal::Tree(fault) => Stop::Fault(OpenFault::Tree(fault)),
        _ => Stop::NoMemory,
    }
}

/// The session of a tree in a world.
fn session_in(alloc: Global, tree: Tree, world: World) -> Result<Session, Stop<OpenFault>>
    requires tree { IsRunnable tree }
    requires world { IsRunnableWorld world }
    ensures { Gives result (joined (lack_of tree world new_drivers) tree world) }
{
    match Session::of(alloc, tree, world) {
        Ok(session) => Ok(session),
        Err(Stop::Fault(fault)) => Err(Stop::Fault(OpenFault::Join(fault))),
        Err(Stop::NoMemory) => Err(Stop::NoMemory),
    }
}

/// The session of a tree whose leaves are all told what they answer. The bytes are those of its file.
#[tactic(auto, using(base_tables::proofs::Runnable::runnable))]
fn session_told(alloc: Global, bytes: &[u8], tree: Tree) -> Result<Session, Stop<OpenFault>>
    requires bytes { length bytes.now ≤ most_file_bytes }
    requires tree { IsTreeOf bytes.now tree }
    requires valid { IsValid tree }
    ensures { readings.Gives result (ToldOpens (Ok tree) bytes.now) }
{
    match told_world(alloc, bytes, &tree) {
        Ok(world) => session_in(alloc, tree, world),
        Err(refusal) => {
            drop(tree);
            Err(told_stop(refusal))
        }
    }
}

/// Opens the session of a tree whose leaves are all told what they answer.
fn open_told(alloc: Global, bytes: &[u8], main: Option<&Name>) -> Result<Session, Stop<OpenFault>>
    ensures { readings.Gives result (OpensTold (option_copied main.entry) bytes.now) }
{
    if bytes.len() as u64 > MOST_FILE_BYTES {
        return Err(Stop::Fault(OpenFault::TreeTooLong));
    }
    match parse_tree(alloc, bytes, main) {
        Ok(tree) => session_told(alloc, bytes, tree),
        Err(Stop::Fault(fault)) => Err(Stop::Fault(OpenFault::Tree(fault))),
        Err(Stop::NoMemory) => Err(Stop::NoMemory),
    }
}

/// Opens the session of a tree in the world of a world script, or without one where it has no bytes.
fn open_in(
    alloc: Global,
    tree: &[u8],
    world: &[u8],
    main: Option<&Name>,
) -> Result<Session, Stop<OpenFault>>
    ensures { readings.Gives result (OpensIn (option_copied main.entry) tree.now world.now) }
{
    if world.is_empty() {
        open_told(alloc, tree, main)
    } else {
        Session::open(alloc, tree, world, main)
    }
}

/// Opens a session with the main tree that is asked for by these bytes; by none where there are none.
fn open(alloc: Global, tree: &[u8], world: &[u8], main: &[u8]) -> Result<Session, Stop<OpenFault>>
    requires { IsUtf8 main.now }
    ensures { readings.Gives result (OpensIn (main_of main.now) tree.now world.now) }
{
    if main.is_empty() {
        return open_in(alloc, tree, world, None);
    }
    match Name::copied(alloc, main) {
        Ok(main) => open_in(alloc, tree, world, Some(&main)),
        Err(NoMemory) => Err(Stop::NoMemory),
    }
}

/// A session in a block of its own, with no outputs for the next telling.
fn boxed(alloc: Global, session: Session) -> Result<Box<Hosted>, NoMemory>
    ensures session { IfOk result (λ hosted. hosted.value.session ≡ session) }
    ensures outs { IfOk result (λ hosted. hosted.value.outs.items ≡ []) }
{
    let outs = Vec::new(alloc);
    let hosted = Hosted {
        alloc,
        session,
        outs,
    };
    Ok(Box::new(alloc, hosted)?)
}

/// Opens a session in a block of its own.
fn open_boxed(
    alloc: Global,
    tree: &[u8],
    world: &[u8],
    main: &[u8],
) -> Result<Box<Hosted>, Stop<OpenFault>>
    requires { IsUtf8 main.now }
    ensures opens { readings.Gives (session_of result) (OpensIn (main_of main.now) tree.now world.now) }
    ensures outs { IfOk result (λ hosted. hosted.value.outs.items ≡ []) }
{
    match open(alloc, tree, world, main) {
        Ok(session) => match boxed(alloc, session) {
            Ok(hosted) => Ok(hosted),
            Err(NoMemory) => Err(Stop::NoMemory),
        },
        Err(stop) => Err(stop),
    }
}

/// Opens a session in a block of its own. The error is the code of why there is none.
fn given(alloc: Global, tree: &[u8], world: &[u8], main_id: &[u8]) -> Result<Box<Hosted>, u32>
    ensures { Given (is_utf8 main_id.now) tree.now world.now main_id.now (given_of result) }
{
    if !is_utf8(main_id) {
        return Err(MISUSE);
    }
    match open_boxed(alloc, tree, world, main_id) {
        Ok(hosted) => Ok(hosted),
        Err(Stop::Fault(fault)) => {
            drop(fault);
            Err(REFUSED)
        }
        Err(Stop::NoMemory) => Err(NO_MEMORY),
    }
}

/// Opens a session, and hands out its pointer.
#[unsafe(no_mangle)]
pub extern "C" fn bt_open(
    alloc: Global,
    tree: &[u8],
    world: &[u8],
    main_id: &[u8],
    out: &mut *mut u8,
) -> u32
    ensures* { ∃ₛ (λ (made : ResultOf HostedOf N). sem 𝓛 (given_owns out.new made)
        ∗ ⌜ OpenTold (is_utf8 main_id.now) tree.now world.now main_id.now out.old out.new made result ⌝) }
{
    match given(alloc, tree, world, main_id) {
        Ok(hosted) => {
            *out = Box::into_raw(hosted).cast::<u8>();
            OK
        }
        Err(code) => code,
    }
}

/// This line, without more than its words.
fn plain_line(alloc: Global, words: &[u8]) -> Result<Vec<u8>, NoMemory>
    ensures { IfOk result (λ line. line.items ≡ words.now) }
{
    let mut line = Vec::new(alloc);
    put_bytes(&mut line, words)?;
    Ok(line)
}

/// The line that refuses files which open no session.
fn refusal_line(alloc: Global, fault: &OpenFault) -> Result<Vec<u8>, NoMemory>
    ensures { IfOk result (λ line. line.items ≡ (refused_as fault.now).bytes) }
{
    match fault {
        OpenFault::TreeTooLong => plain_line(alloc, b"refused tree TooLong\n"),
        OpenFault::WorldTooLong => plain_line(alloc, b"refused world TooLong\n"),
        OpenFault::Tree(fault) => tree_refusal(alloc, fault),
        OpenFault::World(fault) => world_refusal(alloc, *fault),
        OpenFault::Join(fault) => join_refusal(alloc, fault),
    }
}

/// Copies the line that refuses files which open no session; nothing for want of memory.
fn copy_refusal(alloc: Global, fault: &OpenFault, room: &mut [u8]) -> usize
    ensures { TextTold (refused_as fault.now).bytes room.old result room.new ⊎ TextTold [] room.old result room.new }
{
    match refusal_line(alloc, fault) {
        Ok(line) => copy_text(line.as_slice(), room),
        Err(NoMemory) => 0,
    }
}

/// Writes why these files open no session; nothing where they open one.
#[tactic(auto, using(crate::proofs::Opened::unsaid))]
#[unsafe(no_mangle)]
pub extern "C" fn bt_explain(
    alloc: Global,
    tree: &[u8],
    world: &[u8],
    main_id: &[u8],
    room: &mut [u8],
) -> usize
    ensures { Explained (is_utf8 main_id.now) tree.now world.now main_id.now room.old result room.new }
{
    if !is_utf8(main_id) {
        return 0;
    }
    match open(alloc, tree, world, main_id) {
        Ok(session) => {
            drop(session);
            0
        }
        Err(Stop::Fault(fault)) => copy_refusal(alloc, &fault, room),
        Err(Stop::NoMemory) => 0,
    }
}
