ghost use Rattle.std.specs.Prelude.{◌≡◌, ◌++◌, OnOk};
ghost use Rattle.tree_build.specs.Seen.{ids_seen};
ghost use Rattle.spec_program.specs.Printed.{id_of, node_ids};

use base_texts::{Name, NoMemory};
use spec_tree::Term;

/// Adds the IDs of the nodes of a term, in pre-order. The error is want of memory.
pub fn add_ids<'a>(term: &'a Term, ids: &mut Vec<&'a Name>) -> Result<(), NoMemory>
    ensures { OnOk result (ids_seen ids.new.items ≡ ids_seen ids.old.items ++ node_ids term.now) }
{
    ids.push(&term.id)?;
    for child in term.children.list() {
        add_ids(child, ids)?;
    }
    Ok(())
}

/// The ID of the node with this uid; empty where there is no such node.
pub fn id_of<'a>(ids: &[&'a Name], uid: u32) -> &'a [u8]
    ensures { result.now ≡ id_of (ids_seen ids.now) uid }
{
    match ids.get(uid.saturating_sub(1) as usize) {
        Some(id) => id.list(),
        None => b"",
    }
}
