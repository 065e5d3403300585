//! What is told of the nodes of a session's tree, which no event changes, and their statuses.
ghost use Rattle.std.specs.Prelude.{◌≡◌, length};
ghost use Rattle.std.specs.Option.{option_copied};
ghost use types.Logic.{sem};
ghost use Rattle.host_library.specs.Owned.{hosted_owns};
ghost use Rattle.host_library.specs.Numbers as numbers;
ghost use Rattle.host_library.specs.Reads as reads;
ghost use Rattle.host_library.specs.Texts.{TextTold};
ghost use Rattle.host_library.specs.Values as values;

use crate::codes::{NO_STATUS, kind_number, status_number};
use crate::hosted::Hosted;
use crate::text::copy_text;
use crate::values::{Valued, copy_given_text, copy_value_text, given_told, no_value, value_told};
use base_texts::Name;
use spec_run::Status;
use spec_script::Value;
use spec_tree::Port;

/// The runner of this number; none of a number that no runner can have.
pub fn runner_of(number: u32) -> Option<u8>
    ensures { result ≡ reads.runner_numbered number }
{
    u8::try_from(number).ok()
}

/// The number of a status, if there is one.
fn number_of(status: Option<Status>) -> u32
    ensures { result ≡ numbers.status_told status }
{
    match status {
        Some(status) => u32::from(status_number(status)),
        None => u32::from(NO_STATUS),
    }
}

/// Copies a name, if there is one.
pub fn copy_name(name: Option<&Name>, room: &mut [u8]) -> usize
    ensures { TextTold (reads.text_given (option_copied name.entry)) room.old result room.new }
{
    match name {
        Some(name) => copy_text(name.list(), room),
        None => 0,
    }
}

impl Hosted {
    /// The kind of a node.
    fn node_kind(&self, uid: u32) -> u32
        ensures { result ≡ reads.kind_told (reads.label_at self.now.session uid) }
    {
        match self.session.label(uid) {
            Some(label) => kind_number(label.kind),
            None => 0,
        }
    }

    /// The scope in which a node stands.
    fn node_scope(&self, uid: u32) -> u32
        ensures { result ≡ reads.scope_told (reads.label_at self.now.session uid) }
    {
        match self.session.label(uid) {
            Some(label) => label.scope,
            None => 0,
        }
    }

    /// Copies the ID of a node.
    fn node_id(&self, uid: u32, room: &mut [u8]) -> usize
        ensures { TextTold (reads.id_told (reads.label_at self.now.session uid)) room.old result room.new }
    {
        match self.session.label(uid) {
            Some(label) => copy_text(label.id.list(), room),
            None => 0,
        }
    }

    /// Copies the name of a node.
    fn node_name(&self, uid: u32, room: &mut [u8]) -> usize
        ensures { TextTold (reads.name_told (reads.label_at self.now.session uid)) room.old result room.new }
    {
        match self.session.label(uid) {
            Some(label) => copy_text(label.name.list(), room),
            None => 0,
        }
    }

    /// Copies the path of a node.
    fn node_path(&self, uid: u32, room: &mut [u8]) -> usize
        ensures { TextTold (reads.path_told (reads.label_at self.now.session uid)) room.old result room.new }
    {
        match self.session.label(uid) {
            Some(label) => copy_text(label.path.list(), room),
            None => 0,
        }
    }

    /// The status of a node of a runner's tree.
    fn status(&self, runner: u32, uid: u32) -> u32
        ensures { result ≡ numbers.status_told (reads.status_read self.now.session runner uid) }
    {
        match runner_of(runner) {
            Some(runner) => number_of(self.session.status(runner, uid)),
            None => u32::from(NO_STATUS),
        }
    }

    /// The status of the root of a runner's tree.
    fn root_status(&self, runner: u32) -> u32
        ensures { result ≡ numbers.status_told (reads.status_read self.now.session runner 1) }
    {
        self.status(runner, 1)
    }

    /// How many ports a node gives.
    fn port_count(&self, uid: u32) -> usize
        ensures { result ≡ length (reads.ports_told (reads.label_at self.now.session uid)) }
    {
        match self.session.label(uid) {
            Some(label) => label.ports.list().len(),
            None => 0,
        }
    }

    /// Lends the port of a node at a place.
    fn port_at(&self, uid: u32, place: usize) -> Option<&Port>
        ensures { option_copied result ≡ reads.port_at self.now.session uid place }
    {
        match self.session.label(uid) {
            Some(label) => label.ports.list().get(place),
            None => None,
        }
    }

    /// Copies the name of the port of a node at a place.
    fn port_name(&self, uid: u32, place: usize, room: &mut [u8]) -> usize
        ensures { TextTold (reads.port_name (reads.port_at self.now.session uid place)) room.old result room.new }
    {
        match self.port_at(uid, place) {
            Some(port) => copy_text(port.name.list(), room),
            None => 0,
        }
    }

    /// What the port of a node at a place is given.
    fn port_given(&self, uid: u32, place: usize) -> Valued
        ensures { result ≡ values.given_told (reads.port_given (reads.port_at self.now.session uid place)) }
    {
        match self.port_at(uid, place) {
            Some(port) => given_told(&port.value),
            None => no_value(),
        }
    }

    /// Copies the text or the key that the port of a node at a place is given.
    fn port_given_text(&self, uid: u32, place: usize, room: &mut [u8]) -> usize
        ensures { TextTold (values.given_text (reads.port_given (reads.port_at self.now.session uid place))) room.old result room.new }
    {
        match self.port_at(uid, place) {
            Some(port) => copy_given_text(&port.value, room),
            None => 0,
        }
    }

    /// Lends the value that the port of a node at a place has now.
    fn port_value(&self, runner: u32, uid: u32, place: usize) -> Option<&Value>
        ensures { option_copied result ≡ reads.port_read self.now.session runner uid place }
    {
        let runner = runner_of(runner)?;
        let port = self.port_at(uid, place)?;
        self.session.port(runner, uid, &port.name)
    }

    /// What value the port of a node at a place has now.
    fn port(&self, runner: u32, uid: u32, place: usize) -> Valued
        ensures { result ≡ values.value_told (reads.port_read self.now.session runner uid place) }
    {
        value_told(self.port_value(runner, uid, place))
    }

    /// Copies the text that the port of a node at a place has now.
    fn port_text(&self, runner: u32, uid: u32, place: usize, room: &mut [u8]) -> usize
        ensures { TextTold (values.text_of (reads.port_read self.now.session runner uid place)) room.old result room.new }
    {
        copy_value_text(self.port_value(runner, uid, place), room)
    }
}

/// The kind of a node of the session at this pointer.
#[unsafe(no_mangle)]
pub unsafe extern "C" fn bt_node_kind(session: *mut u8, uid: u32) -> u32
    ghost before: { Hosted }
    requires* { sem 𝓛 (hosted_owns session before) }
    ensures* { sem 𝓛 (hosted_owns session before) ∗ ⌜ result ≡ reads.kind_told (reads.label_at before.session uid) ⌝ }
{
    Hosted::node_kind(&*(session as *mut Hosted), uid)
}

/// The scope in which a node of the session at this pointer stands.
#[unsafe(no_mangle)]
pub unsafe extern "C" fn bt_node_scope(session: *mut u8, uid: u32) -> u32
    ghost before: { Hosted }
    requires* { sem 𝓛 (hosted_owns session before) }
    ensures* { sem 𝓛 (hosted_owns session before) ∗ ⌜ result ≡ reads.scope_told (reads.label_at before.session uid) ⌝ }
{
    Hosted::node_scope(&*(session as *mut Hosted), uid)
}

/// Copies the ID of a node of the session at this pointer.
#[unsafe(no_mangle)]
pub unsafe extern "C" fn bt_node_id(session: *mut u8, uid: u32, room: &mut [u8]) -> usize
    ghost before: { Hosted }
    requires* { sem 𝓛 (hosted_owns session before) }
    ensures* { sem 𝓛 (hosted_owns session before)
        ∗ ⌜ TextTold (reads.id_told (reads.label_at before.session uid)) room.old result room.new ⌝ }
{
    Hosted::node_id(&*(session as *mut Hosted), uid, room)
}

/// Copies the name of a node of the session at this pointer.
#[unsafe(no_mangle)]
pub unsafe extern "C" fn bt_node_name(session: *mut u8, uid: u32, room: &mut [u8]) -> usize
    ghost before: { Hosted }
    requires* { sem 𝓛 (hosted_owns session before) }
    ensures* { sem 𝓛 (hosted_owns session before)
        ∗ ⌜ TextTold (reads.name_told (reads.label_at before.session uid)) room.old result room.new ⌝ }
{
    Hosted::node_name(&*(session as *mut Hosted), uid, room)
}

/// Copies the path of a node of the session at this pointer.
#[unsafe(no_mangle)]
pub unsafe extern "C" fn bt_node_path(session: *mut u8, uid: u32, room: &mut [u8]) -> usize
    ghost before: { Hosted }
    requires* { sem 𝓛 (hosted_owns session before) }
    ensures* { sem 𝓛 (hosted_owns session before)
        ∗ ⌜ TextTold (reads.path_told (reads.label_at before.session uid)) room.old result room.new ⌝ }
{
    Hosted::node_path(&*(session as *mut Hosted), uid, room)
}

/// The status of a node of a runner's tree, in the session at this pointer.
#[unsafe(no_mangle)]
pub unsafe extern "C" fn bt_status(session: *mut u8, runner: u32, uid: u32) -> u32
    ghost before: { Hosted }
    requires* { sem 𝓛 (hosted_owns session before) }
    ensures* { sem 𝓛 (hosted_owns session before) ∗ ⌜ result ≡ numbers.status_told (reads.status_read before.session runner uid) ⌝ }
{
    Hosted::status(&*(session as *mut Hosted), runner, uid)
}

/// The status of the root of a runner's tree, in the session at this pointer.
#[unsafe(no_mangle)]
pub unsafe extern "C" fn bt_root_status(session: *mut u8, runner: u32) -> u32
    ghost before: { Hosted }
    requires* { sem 𝓛 (hosted_owns session before) }
    ensures* { sem 𝓛 (hosted_owns session before) ∗ ⌜ result ≡ numbers.status_told (reads.status_read before.session runner 1) ⌝ }
{
    Hosted::root_status(&*(session as *mut Hosted), runner)
}

/// How many ports a node of the session at this pointer gives.
#[unsafe(no_mangle)]
pub unsafe extern "C" fn bt_port_count(session: *mut u8, uid: u32) -> usize
    ghost before: { Hosted }
    requires* { sem 𝓛 (hosted_owns session before) }
    ensures* { sem 𝓛 (hosted_owns session before) ∗ ⌜ result ≡ length (reads.ports_told (reads.label_at before.session uid)) ⌝ }
{
    Hosted::port_count(&*(session as *mut Hosted), uid)
}

/// Copies the name of the port of a node at a place, in the session at this pointer.
#[unsafe(no_mangle)]
pub unsafe extern "C" fn bt_port_name(
    session: *mut u8,
    uid: u32,
    place: usize,
    room: &mut [u8],
) -> usize
    ghost before: { Hosted }
    requires* { sem 𝓛 (hosted_owns session before) }
    ensures* { sem 𝓛 (hosted_owns session before)
        ∗ ⌜ TextTold (reads.port_name (reads.port_at before.session uid place)) room.old result room.new ⌝ }
{
    Hosted::port_name(&*(session as *mut Hosted), uid, place, room)
}

/// What the port of a node at a place is given, in the session at this pointer.
#[unsafe(no_mangle)]
pub unsafe extern "C" fn bt_port_given(session: *mut u8, uid: u32, place: usize) -> Valued
    ghost before: { Hosted }
    requires* { sem 𝓛 (hosted_owns session before) }
    ensures* { sem 𝓛 (hosted_owns session before)
        ∗ ⌜ result ≡ values.given_told (reads.port_given (reads.port_at before.session uid place)) ⌝ }
{
    Hosted::port_given(&*(session as *mut Hosted), uid, place)
}

/// Copies the text or the key that the port of a node at a place is given, in the session at this pointer.
#[unsafe(no_mangle)]
pub unsafe extern "C" fn bt_port_given_text(
    session: *mut u8,
    uid: u32,
    place: usize,
    room: &mut [u8],
) -> usize
    ghost before: { Hosted }
    requires* { sem 𝓛 (hosted_owns session before) }
    ensures* { sem 𝓛 (hosted_owns session before)
        ∗ ⌜ TextTold (values.given_text (reads.port_given (reads.port_at before.session uid place))) room.old result room.new ⌝ }
{
    Hosted::port_given_text(&*(session as *mut Hosted), uid, place, room)
}

/// What value the port of a node at a place has now, in the session at this pointer.
#[unsafe(no_mangle)]
pub unsafe extern "C" fn bt_port(session: *mut u8, runner: u32, uid: u32, place: usize) -> Valued
    ghost before: { Hosted }
    requires* { sem 𝓛 (hosted_owns session before) }
    ensures* { sem 𝓛 (hosted_owns session before) ∗ ⌜ result ≡ values.value_told (reads.port_read before.session runner uid place) ⌝ }
{
    Hosted::port(&*(session as *mut Hosted), runner, uid, place)
}

/// Copies the text that the port of a node at a place has now, in the session at this pointer.
#[unsafe(no_mangle)]
pub unsafe extern "C" fn bt_port_text(
    session: *mut u8,
    runner: u32,
    uid: u32,
    place: usize,
    room: &mut [u8],
) -> usize
    ghost before: { Hosted }
    requires* { sem 𝓛 (hosted_owns session before) }
    ensures* { sem 𝓛 (hosted_owns session before)
        ∗ ⌜ TextTold (values.text_of (reads.port_read before.session runner uid place)) room.old result room.new ⌝ }
{
    Hosted::port_text(&*(session as *mut Hosted), runner, uid, place, room)
}
