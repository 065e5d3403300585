ghost use Rattle.std.specs.Prelude.{◌≡◌, IfOk};
ghost use Rattle.std.specs.List.{list_any};
ghost use Rattle.base_texts.specs.Stops.{Gives};
ghost use Rattle.spec_expect.specs.ExpectFile.{leaves_in};
ghost use Rattle.spec_expect.specs.Leaves.{is_picked, is_picked_so, marks_of};

use base_texts::{Items, NoMemory, Stop};
use spec_expect::{ExpectFaultKind, Pick, Place};
use spec_tree::Kind;
use std::alloc::Global;
use tree_mock::is_match;

/// Whether a node is told so.
fn is_picked_so(pick: &Pick, place: &Place) -> bool
    ensures { result ≡ is_picked_so pick.now place.now }
{
    match pick {
        Pick::ById(id) => *id == place.id,
        Pick::ByName(name) => *name == place.name,
        Pick::ByPath(pattern) => is_match(pattern.list(), place.path.list()),
    }
}

/// Whether a node is one of these leaves. Built-in leaves are none.
fn is_picked(pick: &Pick, place: &Place) -> bool
    ensures { result ≡ is_picked pick.now place.now }
{
    match place.kind {
        Kind::Leaf => is_picked_so(pick, place),
        _ => false,
    }
}

/// For each uid whether it is that of such a leaf. The error is want of memory.
fn marks_of(alloc: Global, pick: &Pick, places: &[Place]) -> Result<Vec<bool>, NoMemory>
    ensures { IfOk result (λ marks. marks.items ≡ marks_of pick.now places.now) }
{
    let mut marks = Vec::new(alloc);
    marks.push(false)?;
    for place in places {
        marks.push(is_picked(pick, place))?;
    }
    Ok(marks)
}

/// Whether one of the marks is set.
fn is_some_marked(marks: &[bool]) -> bool
    ensures { result ≡ list_any (λ mark. mark) marks.now }
{
    marks.iter().any(|mark| *mark)
}

/// For each uid whether it is that of such a leaf. The fault is `NoLeaf`, where there is none.
pub fn leaves_in(
    alloc: Global,
    places: &[Place],
    pick: &Pick,
) -> Result<Items<bool>, Stop<ExpectFaultKind>>
    ensures { Gives result (leaves_in places.now pick.now) }
{
    let marks = marks_of(alloc, pick, places)?;
    if is_some_marked(marks.as_slice()) {
        Ok(Items::of(marks))
    } else {
        Err(Stop::Fault(ExpectFaultKind::NoLeaf))
    }
}
