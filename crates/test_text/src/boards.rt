//! The slots of trees, and what their boards hold.

ghost use Rattle.std.specs.Prelude.{◌≡◌, length};

use crate::rows::{compare, nodes_told};
use base_texts::{Name, NoMemory, Txt};
use spec_script::Cells;
use spec_tree::Tree;
use std::alloc::{AllocError, Global};
use std::marker::Brand;
use tree_board::{Board, Past, Recorded, Slots, board_of, cells, slot, slot_count, slots_of};

/// A Sequence of a script over the keys `b`, `c` and `_p`, and of a SubTree that is given `b` twice, a
/// literal, and all other keys.
const MIXED: &str =
    r#"<Sequence><Script code="b := 5; c := 1; _p := 9"/><SubTree ID="S" a="{b}" d="{b}" u="{b}" lit="7" _autoremap="true"/></Sequence></BehaviorTree><BehaviorTree ID="S"><Script code="a := a + 1; c := 2; _p := 3; m := d"/>"#;

/// The cells of slots, each with its scope before its key.
fn cells_of(alloc: Global, slots: &Slots) -> Result<String, NoMemory> {
    let mut text = String::new(alloc);
    for cell in cells(slots) {
        let key = str::from_utf8(cell.key.list()).unwrap_or("?");
        text.push_str(format!(in alloc; "{} {key}, ", cell.scope)?.as_str())?;
    }
    Ok(text)
}

/// The cells of the slots of a tree of these nodes.
fn cells_text(alloc: Global, nodes: &str) -> Result<String, NoMemory> {
    nodes_told(
        alloc,
        nodes,
        |alloc, tree| cells_of(alloc, &slots_of(alloc, tree)?),
    )
}

/// Trees with their cells, by slot.
#[test]
fn cells_are_in_order(rt: HostRuntime) -> Result<(), NoMemory> {
    compare(
        &rt,
        rt.alloc(),
        cells_text,
        &[
            // a script alone
            (r#"<Script code="x = 1"/>"#, "0 x, "),
            (r#"<Script code="t := 'a' + 'b'"/>"#, "0 t, "),
            // a key that is mapped through three subtrees
            (
                r#"<SubTree ID="S" d="{b}"/></BehaviorTree><BehaviorTree ID="S"><SubTree ID="R" c="{d}"/></BehaviorTree><BehaviorTree ID="R"><SubTree ID="Q" a="{c}"/></BehaviorTree><BehaviorTree ID="Q"><Script code="a := 1"/>"#,
                "0 b, ",
            ),
            // a port that names the key with the port's own name
            (
                r#"<SubTree ID="S" a="{a}"/></BehaviorTree><BehaviorTree ID="S"><Script code="a := 1"/>"#,
                "0 a, ",
            ),
            // a literal, written in the subtree, which the tree around it does not see
            (
                r#"<Sequence><Script code="a := 1"/><SubTree ID="S" a="7"/></Sequence></BehaviorTree><BehaviorTree ID="S"><Script code="a := 2"/>"#,
                "0 a, 3 a, ",
            ),
            // all other keys, except those that begin with `_`
            (
                r#"<Sequence><SubTree ID="S" _autoremap="true"/></Sequence></BehaviorTree><BehaviorTree ID="S"><Script code="a := 1; _a := 2"/>"#,
                "0 a, 2 _a, ",
            ),
            (
                r#"<Sequence><SubTree ID="S" _autoremap="true"/></Sequence></BehaviorTree><BehaviorTree ID="S"><SubTree ID="R" _autoremap="true"/></BehaviorTree><BehaviorTree ID="R"><Script code="a := 1; _a := 2"/>"#,
                "0 a, 3 _a, ",
            ),
            // a mapping, and all other keys
            (
                r#"<Sequence><SubTree ID="S" a="{b}" _autoremap="true"/></Sequence></BehaviorTree><BehaviorTree ID="S"><Script code="a := 1; c := 2; _p := 3"/>"#,
                "0 b, 0 c, 2 _p, ",
            ),
            // a key without a mapping, and one that only the port names
            (
                r#"<Sequence><SubTree ID="S" a="{b}"/></Sequence></BehaviorTree><BehaviorTree ID="S"><Script code="c := 1"/>"#,
                "0 b, 2 c, ",
            ),
            // two SubTree nodes with different mappings
            (
                r#"<Sequence><SubTree ID="S" a="{x}"/><SubTree ID="R" a="{y}"/></Sequence></BehaviorTree><BehaviorTree ID="S"><Script code="a := 1"/></BehaviorTree><BehaviorTree ID="R"><Script code="a := a"/>"#,
                "0 x, 0 y, ",
            ),
            (
                r#"<Sequence><SubTree ID="S" a="{x}"/><SubTree ID="R" a="1"/></Sequence></BehaviorTree><BehaviorTree ID="S"><Script code="b := 1"/></BehaviorTree><BehaviorTree ID="R"><Script code="a := b"/>"#,
                "0 x, 2 b, 4 a, 4 b, ",
            ),
            // a literal, a key of the tree around it, and all other keys
            (MIXED, "0 _p, 0 b, 0 c, 0 m, 3 _p, 3 lit, "),
        ],
    )
}

/// The slot of a name that stands after its scope, as `3 a`.
fn found_slot(alloc: Global, slots: &Slots, text: &str) -> Result<String, NoMemory> {
    let (scope, key) = text.split_once(' ').unwrap_or(("", ""));
    let name = Name::copied(alloc, key.as_bytes())?;
    let found = slot(slots, scope.parse::<u32>().unwrap_or(9), &name);
    Ok(format!(in alloc; "{found:?}")?)
}

/// The slot of such a name in a tree with several scopes.
fn slot_text(alloc: Global, text: &str) -> Result<String, NoMemory> {
    nodes_told(alloc, MIXED, |alloc, tree| {
        found_slot(alloc, &slots_of(alloc, tree)?, text)
    })
}

/// Names in scopes, with their slots.
#[test]
fn names_have_the_slots_of_their_cells(rt: HostRuntime) -> Result<(), NoMemory> {
    compare(
        &rt,
        rt.alloc(),
        slot_text,
        &[
            ("0 _p", "Some(0)"),
            ("0 b", "Some(1)"),
            ("3 a", "Some(1)"),
            ("3 d", "Some(1)"),
            ("0 c", "Some(2)"),
            ("3 c", "Some(2)"),
            ("3 m", "Some(3)"),
            ("3 _p", "Some(4)"),
            ("3 lit", "Some(5)"),
            // names that the main tree does not have
            ("0 m", "None"),
            ("0 a", "None"),
            ("0 lit", "None"),
            // a port that nothing in the scope names
            ("3 u", "None"),
            // scopes that the tree does not have
            ("2 b", "None"),
            ("0 ", "None"),
        ],
    )
}

/// What the board of a tree holds at the beginning.
fn board_told(alloc: Global, tree: &Tree) -> Result<String, NoMemory> {
    let slots = slots_of(alloc, tree)?;
    let board = board_of(alloc, tree, &slots)?;
    Ok(format!(in alloc; "{:?}", board.list())?)
}

/// What the board of a tree of these nodes holds at the beginning.
fn board_text(alloc: Global, nodes: &str) -> Result<String, NoMemory> {
    nodes_told(alloc, nodes, board_told)
}

/// Trees with the entries that their boards begin with: literals of SubTree nodes.
#[test]
fn boards_begin_with_literals(rt: HostRuntime) -> Result<(), NoMemory> {
    compare(
        &rt,
        rt.alloc(),
        board_text,
        &[
            (r#"<Script code="x := 1"/>"#, "[None]"),
            (
                r#"<SubTree ID="S" a="7"/></BehaviorTree><BehaviorTree ID="S"><Script code="x := a"/>"#,
                "[Some(Int(7)), None]",
            ),
            (
                r#"<Sequence><SubTree ID="S" a="{b}" c="2"/><SubTree ID="R" c="-3" _autoremap="true"/></Sequence></BehaviorTree><BehaviorTree ID="S"><Script code="c := b"/></BehaviorTree><BehaviorTree ID="R"><Script code="x := c"/>"#,
                "[None, None, None, Some(Int(2)), Some(Int(-3))]",
            ),
        ],
    )
}

/// What a board of six slots holds in an event after numbers and a text are put; for each slot the first one from it on
/// that was written, and what it held before; and the board after the event.
fn put_both<P: Past>(alloc: Global, board: Board) -> Result<String, NoMemory>
    requires past { board ≡ P.past }
    requires slots { length board ≡ 6 }
{
    let mut board: Recorded<P> = Recorded::of(board);
    board.put_int(5, 4);
    board.put_int(1, 5);
    board.put_text(4, Txt::of(Vec::from_slice(alloc, b"on")?)?);
    board.put_int(5, 8);
    let mut told = String::new(alloc);
    for slot in 0..6 {
        told.push_str(format!(in alloc; "{:?} ", board.get(slot))?.as_str())?;
    }
    for slot in 0..6 {
        told.push_str(format!(in alloc;
            "{} {:?} ",
            board.next_written(slot),
            board.past(slot)
        )?.as_str())?;
    }
    told.push_str(format!(in alloc; "{:?}", board.close().list())?.as_str())?;
    Ok(told)
}

/// What the board of a tree holds after these puts; an error where it does not have six slots.
fn put_told(alloc: Global, tree: &Tree) -> Result<String, NoMemory> {
    let slots = slots_of(alloc, tree)?;
    let board = board_of(alloc, tree, &slots)?;
    if slot_count(&slots) == 6 {
        put_both::<Brand>(alloc, board)
    } else {
        Err(NoMemory)
    }
}

/// What the board of a tree of these nodes holds after these puts.
fn put_text(alloc: Global, nodes: &str) -> Result<String, NoMemory> {
    nodes_told(alloc, nodes, put_told)
}

/// Numbers and a text are put in three slots, one of them twice, and the others stay.
#[test]
fn puts_change_one_slot_each(rt: HostRuntime) -> Result<(), NoMemory> {
    compare(
        &rt,
        rt.alloc(),
        put_text,
        &[(
            MIXED,
            "None Some(Int(5)) None None Some(Text(Txt { bytes: Shared { owner: [111, 110] } })) Some(Int(8)) \
             1 None 1 None 4 None 4 None 4 None 5 Some(Int(7)) \
             [None, Some(Int(5)), None, None, Some(Text(Txt { bytes: Shared { owner: [111, 110] } })), Some(Int(8))]",
        )],
    )
}

/// A leaf with this many ports, each of which names a key of its own.
fn leaf_of_keys(alloc: Global, count: u32) -> Result<String, AllocError> {
    let mut text = String::from_str(alloc, "<A")?;
    for n in 0..count {
        text.push_str(format!(in alloc; " k{n}=\"{{=}}\"")?.as_str())?;
    }
    text.push_str("/>")?;
    Ok(text)
}

/// The number of slots of a tree.
fn count_told(alloc: Global, tree: &Tree) -> Result<String, NoMemory> {
    Ok(format!(in alloc; "{}", slot_count(&slots_of(alloc, tree)?))?)
}

/// The number of slots of a leaf with this many keys.
fn count_text(alloc: Global, text: &str) -> Result<String, NoMemory> {
    let leaf = leaf_of_keys(alloc, text.parse::<u32>().unwrap_or(0))?;
    nodes_told(alloc, leaf.as_str(), count_told)
}

/// Leaves with many keys, and the numbers of slots.
#[test]
fn slots_are_counted(rt: HostRuntime) -> Result<(), NoMemory> {
    let rows = [("0", "0"), ("1", "1"), ("4096", "4096")];
    compare(&rt, rt.alloc(), count_text, &rows)
}
