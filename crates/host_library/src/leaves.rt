//! What is told of the rows of leaves, and what their inputs held.
ghost use Rattle.std.specs.Prelude.{◌≡◌, length, slice_get};
ghost use Rattle.std.specs.Option.{option_copied};
ghost use Rattle.spec_run.specs.Leaves.{row_of};
ghost use Rattle.spec_world.specs.Worlds.{outs_told};
ghost use types.Logic.{sem};
ghost use Rattle.host_library.specs.Owned.{hosted_owns};
ghost use Rattle.host_library.specs.Reads as reads;
ghost use Rattle.host_library.specs.Texts.{TextTold};
ghost use Rattle.host_library.specs.Values as values;

use crate::hosted::Hosted;
use crate::nodes::{copy_name, runner_of};
use crate::values::{Valued, copy_value_text, value_told};
use base_texts::Name;
use spec_script::Value;
use spec_tree::Kind;
use spec_world::{Row, RowSort};

/// The number of what a row says of its leaves.
fn row_number(sort: &RowSort) -> u32
    ensures { result ≡ reads.sort_number sort.now }
{
    match sort {
        RowSort::Sensed => 1,
        RowSort::Told { .. } => 2,
        RowSort::Is { .. } | RowSort::When(_) => 3,
        RowSort::Timed { .. }
        | RowSort::TimedBy { .. }
        | RowSort::Replay { .. }
        | RowSort::Gate(_) => 4,
    }
}

/// Lends the outputs for which a row may be told a value.
fn outs_of(sort: &RowSort) -> &[Name]
    ensures { result.now ≡ outs_told sort.now }
{
    match sort {
        RowSort::Told { outs } => outs.list(),
        _ => &[],
    }
}

/// Lends the row of an ID; none where there is no such row.
fn find_row<'a>(rows: &'a [Row], id: &Name) -> Option<&'a Row>
    ensures { option_copied result ≡ row_of rows.now id.now }
{
    rows.iter().find(|row| row.id == *id)
}

impl Hosted {
    /// Lends the row of a leaf; none where no leaf has this uid.
    fn row(&self, uid: u32) -> Option<&Row>
        ensures { option_copied result ≡ reads.row_at self.now.session uid }
    {
        let label = self.session.label(uid)?;
        match label.kind {
            Kind::Leaf => find_row(self.session.world().rows.list(), &label.id),
            _ => None,
        }
    }

    /// How a leaf answers.
    fn leaf_class(&self, uid: u32) -> u32
        ensures { result ≡ reads.class_told (reads.row_at self.now.session uid) }
    {
        match self.row(uid) {
            Some(row) => row_number(&row.sort),
            None => 0,
        }
    }

    /// Lends the names of a leaf's inputs.
    fn input_names(&self, uid: u32) -> &[Name]
        ensures { result.now ≡ reads.inputs_named (reads.row_at self.now.session uid) }
    {
        match self.row(uid) {
            Some(row) => row.ports.list(),
            None => &[],
        }
    }

    /// Lends the names of the outputs for which a leaf may be told a value.
    fn output_names(&self, uid: u32) -> &[Name]
        ensures { result.now ≡ reads.outputs_named (reads.row_at self.now.session uid) }
    {
        match self.row(uid) {
            Some(row) => outs_of(&row.sort),
            None => &[],
        }
    }

    /// How many inputs a leaf has.
    fn input_count(&self, uid: u32) -> usize
        ensures { result ≡ length (reads.inputs_named (reads.row_at self.now.session uid)) }
    {
        self.input_names(uid).len()
    }

    /// Copies the name of a leaf's input at a place.
    fn input_name(&self, uid: u32, place: usize, room: &mut [u8]) -> usize
        ensures { TextTold (reads.text_given (slice_get (reads.inputs_named (reads.row_at self.now.session uid)) place))
            room.old result room.new }
    {
        copy_name(self.input_names(uid).get(place), room)
    }

    /// How many outputs a leaf may be told a value for.
    fn output_count(&self, uid: u32) -> usize
        ensures { result ≡ length (reads.outputs_named (reads.row_at self.now.session uid)) }
    {
        self.output_names(uid).len()
    }

    /// Copies the name of a leaf's output at a place.
    fn output_name(&self, uid: u32, place: usize, room: &mut [u8]) -> usize
        ensures { TextTold (reads.text_given (slice_get (reads.outputs_named (reads.row_at self.now.session uid)) place))
            room.old result room.new }
    {
        copy_name(self.output_names(uid).get(place), room)
    }

    /// Lends what a leaf's input at a place held when the leaf was started last.
    fn input_value(&self, runner: u32, uid: u32, place: usize) -> Option<&Value>
        ensures { option_copied result ≡ reads.input_read self.now.session runner uid place }
    {
        let runner = runner_of(runner)?;
        self.session.inputs(runner, uid).get(place)?.as_ref()
    }

    /// What a leaf's input at a place held when the leaf was started last.
    fn input(&self, runner: u32, uid: u32, place: usize) -> Valued
        ensures { result ≡ values.value_told (reads.input_read self.now.session runner uid place) }
    {
        value_told(self.input_value(runner, uid, place))
    }

    /// Copies the text that a leaf's input at a place held when the leaf was started last.
    fn input_text(&self, runner: u32, uid: u32, place: usize, room: &mut [u8]) -> usize
        ensures { TextTold (values.text_of (reads.input_read self.now.session runner uid place)) room.old result room.new }
    {
        copy_value_text(self.input_value(runner, uid, place), room)
    }
}

/// How a leaf of the session at this pointer answers.
#[unsafe(no_mangle)]
pub unsafe extern "C" fn bt_leaf_class(session: *mut u8, uid: u32) -> u32
    ghost before: { Hosted }
    requires* { sem 𝓛 (hosted_owns session before) }
    ensures* { sem 𝓛 (hosted_owns session before) ∗ ⌜ result ≡ reads.class_told (reads.row_at before.session uid) ⌝ }
{
    Hosted::leaf_class(&*(session as *mut Hosted), uid)
}

/// How many inputs a leaf of the session at this pointer has.
#[unsafe(no_mangle)]
pub unsafe extern "C" fn bt_input_count(session: *mut u8, uid: u32) -> usize
    ghost before: { Hosted }
    requires* { sem 𝓛 (hosted_owns session before) }
    ensures* { sem 𝓛 (hosted_owns session before) ∗ ⌜ result ≡ length (reads.inputs_named (reads.row_at before.session uid)) ⌝ }
{
    Hosted::input_count(&*(session as *mut Hosted), uid)
}

/// Copies the name of a leaf's input at a place, in the session at this pointer.
#[unsafe(no_mangle)]
pub unsafe extern "C" fn bt_input_name(
    session: *mut u8,
    uid: u32,
    place: usize,
    room: &mut [u8],
) -> usize
    ghost before: { Hosted }
    requires* { sem 𝓛 (hosted_owns session before) }
    ensures* { sem 𝓛 (hosted_owns session before)
        ∗ ⌜ TextTold (reads.text_given (slice_get (reads.inputs_named (reads.row_at before.session uid)) place))
        room.old result room.new ⌝ }
{
    Hosted::input_name(&*(session as *mut Hosted), uid, place, room)
}

/// What a leaf's input at a place held when the leaf was started last, in the session at this pointer.
#[unsafe(no_mangle)]
pub unsafe extern "C" fn bt_input(session: *mut u8, runner: u32, uid: u32, place: usize) -> Valued
    ghost before: { Hosted }
    requires* { sem 𝓛 (hosted_owns session before) }
    ensures* { sem 𝓛 (hosted_owns session before) ∗ ⌜ result ≡ values.value_told (reads.input_read before.session runner uid place) ⌝ }
{
    Hosted::input(&*(session as *mut Hosted), runner, uid, place)
}

/// Copies the text that a leaf's input at a place held when the leaf was started last, in the session at this pointer.
#[unsafe(no_mangle)]
pub unsafe extern "C" fn bt_input_text(
    session: *mut u8,
    runner: u32,
    uid: u32,
    place: usize,
    room: &mut [u8],
) -> usize
    ghost before: { Hosted }
    requires* { sem 𝓛 (hosted_owns session before) }
    ensures* { sem 𝓛 (hosted_owns session before)
        ∗ ⌜ TextTold (values.text_of (reads.input_read before.session runner uid place)) room.old result room.new ⌝ }
{
    Hosted::input_text(&*(session as *mut Hosted), runner, uid, place, room)
}

/// How many outputs a leaf of the session at this pointer may be told a value for.
#[unsafe(no_mangle)]
pub unsafe extern "C" fn bt_output_count(session: *mut u8, uid: u32) -> usize
    ghost before: { Hosted }
    requires* { sem 𝓛 (hosted_owns session before) }
    ensures* { sem 𝓛 (hosted_owns session before) ∗ ⌜ result ≡ length (reads.outputs_named (reads.row_at before.session uid)) ⌝ }
{
    Hosted::output_count(&*(session as *mut Hosted), uid)
}

/// Copies the name of a leaf's output at a place, in the session at this pointer.
#[unsafe(no_mangle)]
pub unsafe extern "C" fn bt_output_name(
    session: *mut u8,
    uid: u32,
    place: usize,
    room: &mut [u8],
) -> usize
    ghost before: { Hosted }
    requires* { sem 𝓛 (hosted_owns session before) }
    ensures* { sem 𝓛 (hosted_owns session before)
        ∗ ⌜ TextTold (reads.text_given (slice_get (reads.outputs_named (reads.row_at before.session uid)) place))
        room.old result room.new ⌝ }
{
    Hosted::output_name(&*(session as *mut Hosted), uid, place, room)
}
