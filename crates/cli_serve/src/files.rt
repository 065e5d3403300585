ghost use Rattle.std.specs.Prelude.{◌≡◌, ◌≤◌, ℕ, List, [], Some, None, IfErr, IfOk, is_some, length};
ghost use Rattle.std.specs.Option.{option_copied};
ghost use Rattle.base_tables.specs.Runnable.{IsRunnable};
ghost use Rattle.cli_commands.specs.NamedReads.{AreStopped, IsUnreadIfNamed, WasReadIfNamed};
ghost use Rattle.cli_serve.specs.Ends.{FilesAnswered, IsAnswered};
ghost use Rattle.cli_serve.specs.Files.{Begins, OpensTo, WorldGiven, contents_of, world_bytes, world_read};
ghost use Rattle.cli_serve.specs.Rows.{IsTreeOf};
ghost use Rattle.cli_serve.specs.Serving.{IsReady, sink};
ghost use Rattle.cli_words.specs.Serving.{serve_seen};
ghost use Rattle.spec_outside.specs.Counts.{Rose};
ghost use Rattle.spec_program.specs.Answered.{AreShort, AreWithin};
ghost use Rattle.spec_program.specs.Reads.{AllRead, AreRead, in_order};
ghost use Rattle.spec_serve.specs.Served.{IsHeard, files_of};
ghost use Rattle.spec_tree.specs.Limits.{most_file_bytes};
ghost use Rattle.spec_tree.specs.Trees.{IsValid};
ghost use Rattle.spec_world.specs.Runnable.{IsRunnableWorld};
ghost use Rattle.spec_world_file.specs.WorldFile.{for_host, nothing_read};

use crate::rows::told_world;
use crate::serving::Serving;
use base_outside::{Lines, Shelf, Sink};
use base_texts::{Name, NoMemory};
use cli_commands::read_named;
use cli_refusals::{Refusal, write_refusal};
use cli_words::Serve;
use host_session::Session;
use spec_program::{Exit, File};
use spec_tree::Tree;
use spec_world::World;
use std::alloc::Global;
use tree_reader::parse_tree;
use world_draft::Reading;
use world_reader::read_script;

/// The bytes of the files that are served; those of a world only where one is named.
#[derive(Drop)]
struct Files {
    tree: Vec<u8>,
    world: Option<Vec<u8>>,
}

/// Reads the world file, where one is named.
fn read_world<S: Shelf>(
    alloc: Global,
    name: Option<&Name>,
    shelf: &mut S,
) -> Result<Option<Vec<u8>>, Refusal>
    ensures read { IfOk result (λ world.
        WasReadIfNamed S.read_gives (S.holds shelf.old) (option_copied name.entry) (world_bytes world) shelf.old shelf.new) }
    ensures named { IfOk result (λ world. is_some world ≡ is_some (option_copied name.entry)) }
    ensures unread { IfErr result (λ refusal.
        IsUnreadIfNamed S.read_gives S.faults (S.holds shelf.old) File.World (option_copied name.entry) refusal shelf.old shelf.new) }
    ensures holds { S.holds shelf.new ≡ S.holds shelf.old }
    ensures count { S.faults shelf.old ≤ S.faults shelf.new }
{
    match name {
        Some(name) => Ok(Some(read_named(alloc, File::World, Some(name), shelf)?)),
        None => Ok(None),
    }
}

/// Reads the files that are served, in their order.
fn read_files<S: Shelf>(alloc: Global, serve: Serve, shelf: &mut S) -> Result<Files, Refusal>
    ensures read { IfOk result (λ files.
        AreRead S.read_gives (S.holds shelf.old) (in_order (files_of (serve_seen serve.entry)))
        (AllRead (contents_of files)) shelf.old shelf.new) }
    ensures within { IfOk result (λ files. AreWithin (S.holds shelf.old) (files_of (serve_seen serve.entry)) (contents_of files)) }
    ensures world { IfOk result (λ files. is_some files.world ≡ is_some (serve_seen serve.entry).world) }
    ensures unread { IfErr result (λ refusal.
        AreStopped S.read_gives (S.holds shelf.old) (in_order (files_of (serve_seen serve.entry)))
        (Rose (S.faults shelf.old) (S.faults shelf.new)) refusal shelf.old shelf.new) }
    ensures holds { S.holds shelf.new ≡ S.holds shelf.old }
    ensures count { S.faults shelf.old ≤ S.faults shelf.new }
{
    let tree = read_named(alloc, File::Tree, Some(serve.tree), shelf)?;
    let world = read_world(alloc, serve.world, shelf)?;
    Ok(Files { tree, world })
}

/// The world that a world file describes, and what the first line is read after.
fn world_of_file(alloc: Global, bytes: &[u8]) -> Result<(World, Reading), Refusal>
    requires { length bytes.now ≤ most_file_bytes }
    ensures world { (file : List ℕ) (tree : Tree) → WorldGiven result (Some bytes.now) file tree }
    ensures runnable { IfOk result (λ read. IsRunnableWorld read.0) }
    ensures events { IfOk result (λ read. read.1.events ≡ []) }
{
    Ok(read_script(alloc, bytes)?)
}

/// What the first line is read after where there is no world file.
fn unread(alloc: Global) -> Result<Reading, NoMemory>
    ensures { IfOk result (λ reading. reading ≡ for_host nothing_read) }
{
    let nothing = Reading::new(alloc);
    let reading = nothing.for_host(alloc);
    // What is large is dropped by a call, which is proved once.
    drop(nothing);
    reading
}

/// The world of a tree without a world file, and what the first line is read after. The bytes are those of its file.
fn world_of_tree(alloc: Global, bytes: &[u8], tree: &Tree) -> Result<(World, Reading), Refusal>
    requires bytes { length bytes.now ≤ most_file_bytes }
    requires tree { IsTreeOf bytes.now tree.now }
    requires valid { IsValid tree.now }
    ensures world { WorldGiven result None bytes.now tree.now }
    ensures runnable { IfOk result (λ read. IsRunnableWorld read.0) }
    ensures events { IfOk result (λ read. read.1.events ≡ []) }
{
    let world = told_world(alloc, bytes, tree)?;
    let reading = unread(alloc)?;
    Ok((world, reading))
}

/// The world in which a tree is served, and what the first line is read after.
fn world_for(alloc: Global, files: &Files, tree: &Tree) -> Result<(World, Reading), Refusal>
    requires short { AreShort (contents_of files.now) }
    requires tree { IsTreeOf files.now.tree.items tree.now }
    requires valid { IsValid tree.now }
    ensures world { WorldGiven result (world_read files.now) files.now.tree.items tree.now }
    ensures runnable { IfOk result (λ read. IsRunnableWorld read.0) }
    ensures events { IfOk result (λ read. read.1.events ≡ []) }
{
    match &files.world {
        Some(world) => world_of_file(alloc, world.as_slice()),
        None => world_of_tree(alloc, files.tree.as_slice(), tree),
    }
}

/// Begins to serve a tree in a world, whose lines are read after this; or says what is missing.
#[tactic(auto, using(crate::proofs::Opening::join_stops))]
fn begin(alloc: Global, tree: Tree, world: World, reading: Reading) -> Result<Serving, Refusal>
    requires tree { IsRunnable tree }
    requires world { IsRunnableWorld world }
    requires events { reading.events ≡ [] }
    ensures begins { Begins result tree world reading }
    ensures ready { IfOk result IsReady }
{
    match Session::of(alloc, tree, world) {
        Ok(session) => Ok(Serving::new(alloc, session, reading)?),
        Err(stopped) => {
            drop(reading);
            Err(Refusal::from(stopped))
        }
    }
}

/// Opens what is served of these files.
#[tactic(auto, using(base_tables::proofs::Runnable::runnable))]
fn open(alloc: Global, files: &Files, main: Option<&Name>) -> Result<Serving, Refusal>
    requires short { AreShort (contents_of files.now) }
    ensures opens { OpensTo result (option_copied main.entry) files.now }
    ensures ready { IfOk result IsReady }
{
    let tree = parse_tree(alloc, files.tree.as_slice(), main)?;
    match world_for(alloc, files, &tree) {
        Ok((world, reading)) => begin(alloc, tree, world, reading),
        Err(refusal) => {
            drop(tree);
            Err(refusal)
        }
    }
}

/// Serves what is served of these files, or writes why they are refused.
fn serve_read<L: Lines, K: Sink>(
    alloc: Global,
    files: &Files,
    main: Option<&Name>,
    lines: &mut L,
    out: &mut K,
) -> Exit
    requires short { AreShort (contents_of files.now) }
    ensures said { FilesAnswered (option_copied main.entry) files.now
        (IsHeard (L.ahead lines.old) (Rose (L.faults lines.old) (L.faults lines.new))) result
        (sink (K.written out.old) (K.handed out.old) (K.faults out.old))
        (sink (K.written out.new) (K.handed out.new) (K.faults out.new)) }
    ensures line_count { L.faults lines.old ≤ L.faults lines.new }
    ensures count { K.faults out.old ≤ K.faults out.new }
{
    match open(alloc, files, main) {
        Ok(mut serving) => serving.run(lines, out),
        Err(refusal) => write_refusal(alloc, &refusal, out),
    }
}

/// Reads the files of what is served, and serves it by the lines of an input; or writes why it is refused.
pub fn serve_files<S: Shelf, L: Lines, K: Sink>(
    alloc: Global,
    serve: Serve,
    shelf: &mut S,
    lines: &mut L,
    out: &mut K,
) -> Exit

    // The files were read in their order, each once, and no other, up to the first whose read gave a fault. The line of
    // this fault was given, or memory ran out in the read. Where no read gave one, what is said to the lines of the input
    // was given: at Write and Memory a prefix of it. Without its lines `in`, `ready`, `ok` and `refused`, what is said is
    // the trace of the run over the events that the lines spell, after the world's own; and no leaf is left held by it. A
    // line is refused by its number and its cause.
    ensures answers { IsAnswered S.read_gives (S.holds shelf.old) (serve_seen serve.entry)
        (IsHeard (L.ahead lines.old) (Rose (L.faults lines.old) (L.faults lines.new)))
        (Rose (S.faults shelf.old) (S.faults shelf.new)) shelf.old shelf.new result
        (sink (K.written out.old) (K.handed out.old) (K.faults out.old))
        (sink (K.written out.new) (K.handed out.new) (K.faults out.new)) }
    ensures held { S.holds shelf.new ≡ S.holds shelf.old }

    // No count of failures has fallen.
    ensures read_count { S.faults shelf.old ≤ S.faults shelf.new }
    ensures line_count { L.faults lines.old ≤ L.faults lines.new }
    ensures count { K.faults out.old ≤ K.faults out.new }
{
    match read_files(alloc, serve, shelf) {
        Ok(files) => serve_read(alloc, &files, serve.main, lines, out),
        Err(refusal) => write_refusal(alloc, &refusal, out),
    }
}
