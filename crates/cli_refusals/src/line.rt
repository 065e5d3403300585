ghost use Rattle.std.specs.Prelude.{◌≡◌, ◌++◌, IfOk, OnOk, codes, decimal};
ghost use Rattle.spec_program.specs.Refusals.{build_words, driver_word, element_words, expect_word, expect_words, ground_words, join_words, kind_word, manifest_words, named, numbered, rules_words, script_words, tree_words, world_words};

use base_texts::{Name, NoMemory};
use spec_expect::{ExpectFault, ExpectFaultKind};
use spec_program::TreeFault;
use spec_run::{DriverKind, JoinFault};
use spec_script::ScriptFault;
use spec_tree_file::{BuildFault, ElementFault, ManifestFault, MockFault};
use spec_world_file::{GroundFault, WorldFault, WorldFaultKind};
use std::alloc::Global;
use text_lines::{put_bytes, put_number, put_quoted};

/// Puts a fault's name and a number after it, which may be a large one.
fn put_sized(out: &mut Vec<u8>, name: &[u8], number: u64) -> Result<(), NoMemory>
    ensures { OnOk result (out.new.items ≡ out.old.items ++ numbered name.now number) }
{
    put_bytes(out, name)?;
    put_bytes(out, b" ")?;
    put_number(out, number)
}

/// Puts a fault's name and a number after it.
fn put_numbered(out: &mut Vec<u8>, name: &[u8], number: u32) -> Result<(), NoMemory>
    ensures { OnOk result (out.new.items ≡ out.old.items ++ numbered name.now number) }
{
    put_sized(out, name, u64::from(number))
}

/// Puts a fault's name and an ID after it.
fn put_named(out: &mut Vec<u8>, name: &[u8], id: &Name) -> Result<(), NoMemory>
    ensures { OnOk result (out.new.items ≡ out.old.items ++ named name.now id.now) }
{
    put_bytes(out, name)?;
    put_bytes(out, b" ")?;
    put_quoted(out, id.list())
}

/// Puts the words of a fault of elements.
fn put_element_fault(out: &mut Vec<u8>, fault: ElementFault) -> Result<(), NoMemory>
    ensures { OnOk result (out.new.items ≡ out.old.items ++ element_words fault) }
{
    match fault {
        ElementFault::NotUtf8 { place } => put_numbered(out, b"NotUtf8", place),
        ElementFault::BadMark { place } => put_numbered(out, b"BadMark", place),
        ElementFault::Unmatched { place } => put_numbered(out, b"Unmatched", place),
        ElementFault::DoubleAttribute { place } => put_numbered(out, b"DoubleAttribute", place),
        ElementFault::StrayText { place } => put_numbered(out, b"StrayText", place),
        ElementFault::TooDeep { place } => put_numbered(out, b"TooDeep", place),
    }
}

/// Puts the words of a fault of node models.
fn put_manifest_fault(out: &mut Vec<u8>, fault: ManifestFault) -> Result<(), NoMemory>
    ensures { OnOk result (out.new.items ≡ out.old.items ++ manifest_words fault) }
{
    match fault {
        ManifestFault::DoubleModel { place } => put_numbered(out, b"DoubleModel", place),
        ManifestFault::BadModel { place } => put_numbered(out, b"BadModel", place),
    }
}

/// Puts the words of a fault of a script.
fn put_script_fault(out: &mut Vec<u8>, fault: ScriptFault) -> Result<(), NoMemory>
    ensures { OnOk result (out.new.items ≡ out.old.items ++ script_words fault) }
{
    match fault {
        ScriptFault::TooLong => put_bytes(out, b"TooLong"),
        ScriptFault::Syntax { place } => put_numbered(out, b"Syntax", place),
        ScriptFault::RealNumber { place } => put_numbered(out, b"RealNumber", place),
        ScriptFault::NumberTooWide { place } => put_numbered(out, b"NumberTooWide", place),
        ScriptFault::TooNested { place } => put_numbered(out, b"TooNested", place),
    }
}

/// Puts the words of a script of this node that can't be read.
fn put_bad_script(out: &mut Vec<u8>, uid: u32, fault: ScriptFault) -> Result<(), NoMemory>
    ensures { OnOk result (out.new.items
        ≡ out.old.items ++ (numbered (codes "BadScript") uid ++ codes " " ++ script_words fault)) }
{
    put_numbered(out, b"BadScript", uid)?;
    put_bytes(out, b" ")?;
    put_script_fault(out, fault)
}

/// Puts the words of elements that are no tree.
fn put_build_fault(out: &mut Vec<u8>, fault: &BuildFault) -> Result<(), NoMemory>
    ensures { OnOk result (out.new.items ≡ out.old.items ++ build_words fault.now) }
{
    match fault {
        BuildFault::NotRoot { place } => put_numbered(out, b"NotRoot", *place),
        BuildFault::Format => put_bytes(out, b"Format"),
        BuildFault::DoubleTree { id } => put_named(out, b"DoubleTree", id),
        BuildFault::NoMain => put_bytes(out, b"NoMain"),
        BuildFault::NoTree { id } => put_named(out, b"NoTree", id),
        BuildFault::TooManyNodes => put_bytes(out, b"TooManyNodes"),
        BuildFault::TooDeep { uid } => put_numbered(out, b"TooDeep", *uid),
        BuildFault::UnknownNode { uid } => put_numbered(out, b"UnknownNode", *uid),
        BuildFault::Recursive { id } => put_named(out, b"Recursive", id),
        BuildFault::TooManyScopes => put_bytes(out, b"TooManyScopes"),
        BuildFault::ChildCount { uid } => put_numbered(out, b"ChildCount", *uid),
        BuildFault::UnknownPort { uid } => put_numbered(out, b"UnknownPort", *uid),
        BuildFault::OldSubTree { uid } => put_numbered(out, b"OldSubTree", *uid),
        BuildFault::BadLiteral { uid } => put_numbered(out, b"BadLiteral", *uid),
        BuildFault::BadScript { uid, fault } => put_bad_script(out, *uid, *fault),
        BuildFault::TooManyKeys => put_bytes(out, b"TooManyKeys"),
        BuildFault::TooMuchWork => put_bytes(out, b"TooMuchWork"),
    }
}

/// Puts the words of a tree file's fault.
fn put_tree_fault(out: &mut Vec<u8>, fault: &TreeFault) -> Result<(), NoMemory>
    ensures { OnOk result (out.new.items ≡ out.old.items ++ tree_words fault.now) }
{
    match fault {
        TreeFault::Elements(fault) => put_element_fault(out, *fault),
        TreeFault::Manifest(fault) => put_manifest_fault(out, *fault),
        TreeFault::Build(fault) => put_build_fault(out, fault),
    }
}

/// The line that refuses a tree file.
pub fn tree_refusal(alloc: Global, fault: &TreeFault) -> Result<Vec<u8>, NoMemory>
    ensures { IfOk result (λ line. line.items ≡ codes "refused tree " ++ tree_words fault.now ++ codes "\n") }
{
    let mut line = Vec::new(alloc);
    put_bytes(&mut line, b"refused tree ")?;
    put_tree_fault(&mut line, fault)?;
    put_bytes(&mut line, b"\n")?;
    Ok(line)
}

/// The word for what is wrong with a world script.
pub fn kind_word(kind: WorldFaultKind) -> &'static [u8]
    ensures { result.now ≡ kind_word kind }
{
    match kind {
        WorldFaultKind::Header => b"Header",
        WorldFaultKind::BadLine => b"BadLine",
        WorldFaultKind::Range => b"Range",
        WorldFaultKind::DoubleName => b"DoubleName",
        WorldFaultKind::NoName => b"NoName",
        WorldFaultKind::MomentBack => b"MomentBack",
        WorldFaultKind::TooMany => b"TooMany",
    }
}

/// The line that refuses a world script.
pub fn world_refusal(alloc: Global, fault: WorldFault) -> Result<Vec<u8>, NoMemory>
    ensures { IfOk result (λ line. line.items ≡ codes "refused world " ++ world_words fault ++ codes "\n") }
{
    let mut line = Vec::new(alloc);
    put_bytes(&mut line, b"refused world ")?;
    put_numbered(&mut line, kind_word(fault.kind), fault.line)?;
    put_bytes(&mut line, b"\n")?;
    Ok(line)
}

/// The word for a kind of driver.
fn driver_word(kind: DriverKind) -> &'static [u8]
    ensures { result.now ≡ driver_word kind }
{
    match kind {
        DriverKind::Condition => b"Condition",
        DriverKind::Timed => b"Timed",
        DriverKind::Replay => b"Replay",
        DriverKind::Gate => b"Gate",
        DriverKind::Told => b"Told",
    }
}

/// Puts the words of a kind that has no driver.
fn put_no_driver(out: &mut Vec<u8>, kind: DriverKind) -> Result<(), NoMemory>
    ensures { OnOk result (out.new.items ≡ out.old.items ++ (codes "NoDriver " ++ driver_word kind)) }
{
    put_bytes(out, b"NoDriver ")?;
    put_bytes(out, driver_word(kind))
}

/// Puts the words of what a leaf, or a telling of one, lacks.
fn put_join_fault(out: &mut Vec<u8>, fault: &JoinFault) -> Result<(), NoMemory>
    ensures { OnOk result (out.new.items ≡ out.old.items ++ join_words fault.now) }
{
    match fault {
        JoinFault::NoRow { id } => put_named(out, b"NoRow", id),
        JoinFault::NoDriver { kind } => put_no_driver(out, *kind),
        JoinFault::NoLeaf { uid } => put_numbered(out, b"NoLeaf", *uid),
        JoinFault::NoOutput { uid } => put_numbered(out, b"NoOutput", *uid),
    }
}

/// The line that refuses a world in which a leaf has no row, or whose row has no driver, or a telling finds no leaf.
pub fn join_refusal(alloc: Global, fault: &JoinFault) -> Result<Vec<u8>, NoMemory>
    ensures { IfOk result (λ line. line.items ≡ codes "refused world " ++ join_words fault.now ++ codes "\n") }
{
    let mut line = Vec::new(alloc);
    put_bytes(&mut line, b"refused world ")?;
    put_join_fault(&mut line, fault)?;
    put_bytes(&mut line, b"\n")?;
    Ok(line)
}

/// Puts the words of a script of this configuration that can't be read.
fn put_bad_post(out: &mut Vec<u8>, name: &Name, fault: ScriptFault) -> Result<(), NoMemory>
    ensures { OnOk result (out.new.items
        ≡ out.old.items ++ (named (codes "BadScript") name.now ++ codes " " ++ script_words fault)) }
{
    put_named(out, b"BadScript", name)?;
    put_bytes(out, b" ")?;
    put_script_fault(out, fault)
}

/// Puts the words of a rules file's fault, or of the limit that the substituted tree passes.
fn put_mock_fault(out: &mut Vec<u8>, fault: &MockFault) -> Result<(), NoMemory>
    ensures { OnOk result (out.new.items ≡ out.old.items ++ rules_words fault.now) }
{
    match fault {
        MockFault::Json => put_bytes(out, b"Json"),
        MockFault::Form { name } => put_named(out, b"Form", name),
        MockFault::BadScript { name, fault } => put_bad_post(out, name, *fault),
        MockFault::TooManyNodes => put_bytes(out, b"TooManyNodes"),
        MockFault::TooDeep => put_bytes(out, b"TooDeep"),
        MockFault::TooManyKeys => put_bytes(out, b"TooManyKeys"),
        MockFault::TooMuchWork => put_bytes(out, b"TooMuchWork"),
    }
}

/// The line that refuses mock rules, or what they make of the tree.
pub fn rules_refusal(alloc: Global, fault: &MockFault) -> Result<Vec<u8>, NoMemory>
    ensures { IfOk result (λ line. line.items ≡ codes "refused rules " ++ rules_words fault.now ++ codes "\n") }
{
    let mut line = Vec::new(alloc);
    put_bytes(&mut line, b"refused rules ")?;
    put_mock_fault(&mut line, fault)?;
    put_bytes(&mut line, b"\n")?;
    Ok(line)
}

/// Puts the words of a fault of the world script that a ground file stands for.
fn put_world_of(out: &mut Vec<u8>, line: u32, kind: WorldFaultKind) -> Result<(), NoMemory>
    ensures { OnOk result (out.new.items ≡ out.old.items ++ (codes "World " ++ numbered (kind_word kind) line)) }
{
    put_bytes(out, b"World ")?;
    put_numbered(out, kind_word(kind), line)
}

/// Puts the words of a ground file's fault.
fn put_ground_fault(out: &mut Vec<u8>, fault: GroundFault) -> Result<(), NoMemory>
    ensures { OnOk result (out.new.items ≡ out.old.items ++ ground_words fault) }
{
    match fault {
        GroundFault::Header { line } => put_numbered(out, b"Header", line),
        GroundFault::BadLine { line } => put_numbered(out, b"BadLine", line),
        GroundFault::DoubleName { line } => put_numbered(out, b"DoubleName", line),
        GroundFault::NoName { line } => put_numbered(out, b"NoName", line),
        GroundFault::TooNested { line } => put_numbered(out, b"TooNested", line),
        GroundFault::TooMany { line } => put_numbered(out, b"TooMany", line),
        GroundFault::Unended { line } => put_numbered(out, b"Unended", line),
        GroundFault::TooManyGround { size } => put_sized(out, b"TooManyGround", size),
        GroundFault::World { line, kind } => put_world_of(out, line, kind),
    }
}

/// The line that refuses a ground file, or the world script that it stands for.
pub fn ground_refusal(alloc: Global, fault: GroundFault) -> Result<Vec<u8>, NoMemory>
    ensures { IfOk result (λ line. line.items ≡ codes "refused ground " ++ ground_words fault ++ codes "\n") }
{
    let mut line = Vec::new(alloc);
    put_bytes(&mut line, b"refused ground ")?;
    put_ground_fault(&mut line, fault)?;
    put_bytes(&mut line, b"\n")?;
    Ok(line)
}

/// The word for what is wrong with a file of expectations.
fn expect_word(kind: ExpectFaultKind) -> &'static [u8]
    ensures { result.now ≡ expect_word kind }
{
    match kind {
        ExpectFaultKind::Header => b"Header",
        ExpectFaultKind::BadLine => b"BadLine",
        ExpectFaultKind::NoName => b"NoName",
        ExpectFaultKind::NoLeaf => b"NoLeaf",
        ExpectFaultKind::NoRunner => b"NoRunner",
        ExpectFaultKind::Range => b"Range",
        ExpectFaultKind::TooMany => b"TooMany",
    }
}

/// The line that refuses a file of expectations.
pub fn expect_refusal(alloc: Global, fault: ExpectFault) -> Result<Vec<u8>, NoMemory>
    ensures { IfOk result (λ line. line.items ≡ codes "refused expect " ++ expect_words fault ++ codes "\n") }
{
    let mut line = Vec::new(alloc);
    put_bytes(&mut line, b"refused expect ")?;
    put_numbered(&mut line, expect_word(fault.kind), fault.line)?;
    put_bytes(&mut line, b"\n")?;
    Ok(line)
}
