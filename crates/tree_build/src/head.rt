ghost use Rattle.std.specs.Prelude.{◌≡◌, IfOk, length};
ghost use Rattle.spec_tree_file.specs.Models.{attributes_of, children_of, name_of};
ghost use Rattle.spec_tree_file.specs.Heads.{compact_head, explicit_head, head_of, id_or_empty, is_explicit, is_kept, is_leaf_name, plain_head};

use crate::version::{id_read, subtree_form};
use base_tables::{class_of, kind_named, writes};
use base_texts::{Name, NoMemory};
use spec_tree::Kind;
use spec_tree_file::{Element, Form, Head, Version};
use std::alloc::Global;
use tree_manifest::attribute;

/// Whether an element of this name may be a leaf of any ID: `Action` or `Condition`.
fn is_leaf_name(name: &[u8]) -> bool
    ensures { result ≡ is_leaf_name name.now }
{
    name == b"Action".as_slice() || name == b"Condition".as_slice()
}

/// Whether an element of this name has its node's name in the attribute `ID`.
fn is_explicit(name: &[u8]) -> bool
    ensures { result ≡ is_explicit name.now }
{
    name == b"Action".as_slice()
        || name == b"Condition".as_slice()
        || name == b"Control".as_slice()
        || name == b"Decorator".as_slice()
}

/// Whether an element of this name is never a node.
fn is_kept(name: &[u8]) -> bool
    ensures { result ≡ is_kept name.now }
{
    name == b"BehaviorTree".as_slice()
        || name == b"TreeNodesModel".as_slice()
        || name == b"root".as_slice()
}

/// A node of this kind and ID.
fn plain_head(kind: Kind, id: Name) -> Head
    ensures { result ≡ plain_head kind id }
{
    Head {
        kind,
        id,
        form: Form::Plain,
    }
}

/// The node of this ID that an element of this name writes. None where it may not.
fn explicit_head(name: &[u8], childless: bool, id: Name) -> Option<Head>
    ensures { result ≡ explicit_head name.now childless id }
{
    match kind_named(id.list()) {
        Some(kind) if writes(name, class_of(kind)) => Some(plain_head(kind, id)),
        None if is_leaf_name(name) && childless => Some(plain_head(Kind::Leaf, id)),
        _ => None,
    }
}

/// The node that an element is by its own name. None where it is none.
fn compact_head(childless: bool, name: Name) -> Option<Head>
    ensures { result ≡ compact_head childless name }
{
    match kind_named(name.list()) {
        Some(kind) => Some(plain_head(kind, name)),
        None if !is_kept(name.list()) && childless => Some(plain_head(Kind::Leaf, name)),
        _ => None,
    }
}

/// The attribute `ID`; the empty text where it is not written.
pub fn id_or_empty(alloc: Global, attributes: &[(Name, Name)]) -> Result<Name, NoMemory>
    ensures { IfOk result (λ id. id ≡ id_or_empty attributes.now) }
{
    match attribute(attributes, b"ID") {
        Some(id) => id.copy(alloc),
        None => Ok(Name::empty()),
    }
}

/// The node that an element is in a file of this version. None where it is none.
pub fn head_of(alloc: Global, version: Version, element: &Element) -> Result<Option<Head>, NoMemory>
    ensures { let e = element.now in
        IfOk result (λ head. head ≡ head_of version (name_of e) (attributes_of e) (length (children_of e))) }
{
    let name = element.name.list();
    let attributes = element.attributes.list();
    let childless = element.children.list().is_empty();
    if let Some(form) = subtree_form(version, name) {
        let id = id_or_empty(alloc, attributes)?;
        return Ok(Some(Head {
            kind: Kind::SubTree,
            id,
            form,
        }));
    }
    if !is_explicit(name) {
        let id = id_read(alloc, version, &element.name)?;
        return Ok(compact_head(childless, id));
    }
    match attribute(attributes, b"ID") {
        Some(id) => {
            let id = id_read(alloc, version, id)?;
            Ok(explicit_head(name, childless, id))
        }
        None => Ok(None),
    }
}
