ghost use Rattle.std.specs.Prelude.{◌≡◌, ◌+◌, ◌++◌, map, sum, IfOk, OnOk};
ghost use Rattle.std.specs.List.{flat_map};
ghost use Rattle.std.specs.Str.{bytes_eq};
ghost use Rattle.indexmap.specs.IndexSet.{insert_all};
ghost use Rattle.spec_tree.specs.declared.term.Kind.TheVariants.{SubTree};
ghost use Rattle.spec_tree.specs.declared.term.Term.{out-Term};
ghost use Rattle.spec_tree.specs.Boards.{given, literal_names, scripts_of, value_keys, namings};
ghost use Rattle.spec_tree.specs.Terms.{node_count};
ghost use Rattle.tree_board.specs.Namings.{script_names, names_here, keys_of_node, namings_of_term, namings_of_terms, AreNamed, HaveSame};

use crate::keys::Keys;
use crate::rows::Namings;
use crate::scope::{Scope, cell_in, mappings_of, scope_number};
use base_texts::{NoMemory, Shared};
use spec_script::Script;
use spec_tree::{Guards, Kind, Port, PortValue, Term, Tree};
use std::alloc::Global;

/// Adds the names of a script, where there is one.
fn name_script(
    alloc: Global,
    script: &Option<Shared<Script>>,
    keys: &mut Keys,
) -> Result<(), NoMemory>
    ensures { OnOk result (keys.new ≡ insert_all bytes_eq keys.old (script_names (given script.now))) }
{
    if let Some(script) = script {
        for name in script.get().stmts.names() {
            keys.name(alloc, name)?;
        }
    }
    Ok(())
}

/// Adds the names of the code and the guards of a node.
fn name_scripts(
    alloc: Global,
    code: &Option<Shared<Script>>,
    guards: &Guards,
    keys: &mut Keys,
) -> Result<(), NoMemory>
    ensures { OnOk result (keys.new ≡ insert_all bytes_eq keys.old (script_names (scripts_of code.now guards.now))) }
{
    name_script(alloc, code, keys)?;
    name_script(alloc, &guards.failure_if, keys)?;
    name_script(alloc, &guards.success_if, keys)?;
    name_script(alloc, &guards.skip_if, keys)?;
    name_script(alloc, &guards.while_true, keys)?;
    name_script(alloc, &guards.on_success, keys)?;
    name_script(alloc, &guards.on_failure, keys)?;
    name_script(alloc, &guards.post, keys)?;
    name_script(alloc, &guards.on_halted, keys)
}

/// Adds the keys that the ports of a node name in the scope in which it stands.
fn name_values(alloc: Global, ports: &[Port], keys: &mut Keys) -> Result<(), NoMemory>
    ensures { OnOk result (keys.new ≡ insert_all bytes_eq keys.old (flat_map (λ port. value_keys port.value) ports.now)) }
{
    for port in ports {
        if let PortValue::Key(key) = &port.value {
            keys.name(alloc, key)?;
        }
    }
    Ok(())
}

/// Adds the names of the ports that have literals: their SubTree node names them in the scope that it makes. The keys that
/// the other ports name stand further out, where their SubTree node names them.
pub(crate) fn name_literals(alloc: Global, ports: &[Port], keys: &mut Keys) -> Result<(), NoMemory>
    ensures { OnOk result (keys.new ≡ insert_all bytes_eq keys.old (literal_names ports.now)) }
{
    for port in ports {
        if let PortValue::Lit(_) = &port.value {
            keys.name(alloc, &port.name)?;
        }
    }
    Ok(())
}

/// Adds what a node names in the scope in which it stands.
pub(crate) fn name_node(alloc: Global, node: &Term, keys: &mut Keys) -> Result<(), NoMemory>
    ensures { OnOk result (keys.new ≡ insert_all bytes_eq keys.old (keys_of_node node.now)) }
{
    name_scripts(alloc, &node.code, &node.guards, keys)?;
    name_values(alloc, node.ports.list(), keys)
}

/// The uid after one. A tree with 2^32 nodes does not fit into memory, so `NoMemory` stands for there being none.
pub(crate) fn uid_after(uid: u32) -> Result<u32, NoMemory>
    ensures { IfOk result (λ next. next ≡ uid + 1) }
{
    match uid.checked_add(1) {
        Some(next) => Ok(next),
        None => Err(NoMemory),
    }
}

/// Adds all keys that are named in a scope, with their cells.
fn name_scope(
    alloc: Global,
    scope: &Scope,
    keys: &Keys,
    namings: &mut Namings,
) -> Result<(), NoMemory>
    ensures { OnOk result (namings.new ≡ namings.old ++ names_here scope.now keys.now) }
{
    for key in keys.list() {
        let cell = cell_in(alloc, scope, key)?;
        namings.add(alloc, scope_number(scope), key, &cell)?;
    }
    Ok(())
}

/// Adds what the nodes of a term name, as `name_term` does, where the first is a SubTree node. It stands apart, so
/// that other nodes clear no room for a scope.
#[inline(never)]
#[cycle(terms)]
fn name_subtree(
    alloc: Global,
    term: &Term,
    uid: u32,
    scope: &Scope,
    keys: &mut Keys,
    namings: &mut Namings,
) -> Result<u32, NoMemory>
    requires { (out-Term term.now).kind ≡ SubTree }
    ensures next { IfOk result (λ next. next ≡ uid + node_count term.now) }
    ensures named { OnOk result (AreNamed scope.now (namings_of_term term.now uid)
        keys.old namings.old keys.new namings.new) }
{
    let first = uid_after(uid)?;
    name_node(alloc, term, keys)?;
    let ports = term.ports.list();
    let mappings = mappings_of(alloc, uid, ports, term.autoremap, scope)?;
    let inner = Scope::Below(&mappings, &*scope);
    let mut inner_keys = Keys::new(alloc);
    name_literals(alloc, ports, &mut inner_keys)?;
    let children = term.children.list();
    let next = name_terms(alloc, children, first, &inner, &mut inner_keys, namings)?;
    name_scope(alloc, &inner, &inner_keys, namings)?;
    Ok(next)
}

/// Adds what the nodes of a term name, from this uid on: to the keys what they name in this scope, so that a key
/// that is named again costs one look and no memory, and to the namings what they name in scopes that they make.
/// Answers the uid after the last.
#[cycle(terms)]
fn name_term(
    alloc: Global,
    term: &Term,
    uid: u32,
    scope: &Scope,
    keys: &mut Keys,
    namings: &mut Namings,
) -> Result<u32, NoMemory>
    ensures next { IfOk result (λ next. next ≡ uid + node_count term.now) }
    ensures named { OnOk result (AreNamed scope.now (namings_of_term term.now uid)
        keys.old namings.old keys.new namings.new) }
{
    if let Kind::SubTree = term.kind {
        name_subtree(alloc, term, uid, scope, keys, namings)
    } else {
        let first = uid_after(uid)?;
        name_node(alloc, term, keys)?;
        name_terms(alloc, term.children.list(), first, scope, keys, namings)
    }
}

/// Adds what the nodes of some terms name, one term after the other, from this uid on. Answers the uid after
/// the last.
#[cycle(terms)]
fn name_terms(
    alloc: Global,
    terms: &[Term],
    uid: u32,
    scope: &Scope,
    keys: &mut Keys,
    namings: &mut Namings,
) -> Result<u32, NoMemory>
    ensures next { IfOk result (λ next. next ≡ uid + sum (map node_count terms.now)) }
    ensures named { OnOk result (AreNamed scope.now (namings_of_terms terms.now uid)
        keys.old namings.old keys.new namings.new) }
{
    let mut next = uid;
    for term in terms {
        next = name_term(alloc, term, next, scope, keys, namings)?;
    }
    Ok(next)
}

/// All that a tree names, each key once in each scope.
pub(crate) fn name_tree(alloc: Global, tree: &Tree) -> Result<Namings, NoMemory>
    ensures { IfOk result (λ named. HaveSame named (namings tree.now)) }
{
    let mut named = Namings::new(alloc);
    let mut keys = Keys::new(alloc);
    name_term(alloc, &tree.term, 1, &Scope::Main, &mut keys, &mut named)?;
    name_scope(alloc, &Scope::Main, &keys, &mut named)?;
    Ok(named)
}
