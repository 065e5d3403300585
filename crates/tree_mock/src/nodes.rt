//! What takes the place of a node.

ghost use Rattle.std.specs.Prelude.{◌≡◌, ◌∷◌, [], IfOk, None};
ghost use Rattle.std.specs.Option.{option_copied};
ghost use Rattle.spec_tree.specs.declared.term.Term.{out-Term, roll-Term};
ghost use Rattle.spec_tree_file.specs.Substitutions.{always, always_id, always_kind, answering, by_id, by_name, by_rule, configuration_of, delay_port, delayed, leaf, only_post, rule_of, with_children};

use crate::lookup::Lookup;
use crate::names::name_of;
use base_texts::{Items, Name, NoMemory, Shared};
use spec_script::{Script, Value};
use spec_tree::{Guards, Kind, Port, PortValue, Ports, Term};
use spec_tree_file::{Configuration, ReturnStatus};
use std::alloc::Global;
use tree_copies::{share_guards, share_script};

/// The configuration of this name. None where there is none.
fn configuration_of<'c>(
    configurations: &'c [Configuration],
    name: &Name,
) -> Option<&'c Configuration>
    ensures { option_copied result ≡ configuration_of configurations.entry.now name.now }
{
    for configuration in configurations {
        if configuration.name == *name {
            return Some(configuration);
        }
    }
    None
}

/// No guards but a `_post`, where there is a script.
fn only_post(script: Option<Shared<Script>>) -> Guards
    ensures { result ≡ only_post script }
{
    Guards {
        failure_if: None,
        success_if: None,
        skip_if: None,
        while_true: None,
        on_success: None,
        on_failure: None,
        post: script,
        on_halted: None,
    }
}

/// The kind of the built-in leaf that always answers this.
fn always_kind(status: ReturnStatus) -> Kind
    ensures { result ≡ always_kind status }
{
    match status {
        ReturnStatus::Success => Kind::AlwaysSuccess,
        ReturnStatus::Failure => Kind::AlwaysFailure,
    }
}

/// The ID of that leaf.
fn always_id(alloc: Global, status: ReturnStatus) -> Result<Name, NoMemory>
    ensures { IfOk result (λ id. id ≡ always_id status) }
{
    match status {
        ReturnStatus::Success => name_of(alloc, "AlwaysSuccess"),
        ReturnStatus::Failure => name_of(alloc, "AlwaysFailure"),
    }
}

/// That leaf, with this name and these guards.
fn always(alloc: Global, status: ReturnStatus, name: Name, guards: Guards) -> Result<Term, NoMemory>
    ensures { IfOk result (λ term. term ≡ always status name guards) }
{
    Ok(Term {
        kind: always_kind(status),
        id: always_id(alloc, status)?,
        name,
        ports: Ports::none(),
        code: None,
        guards,
        autoremap: false,
        children: Items::of(Vec::new(alloc)),
    })
}

/// A leaf of this ID, with the name, the ports and the guards of the node.
fn leaf(alloc: Global, id: &Name, node: &Term) -> Result<Term, NoMemory>
    ensures { IfOk result (λ term. term ≡ leaf id.now (out-Term node.now)) }
{
    Ok(Term {
        kind: Kind::Leaf,
        id: id.copy(alloc)?,
        name: node.name.copy(alloc)?,
        ports: node.ports.share()?,
        code: None,
        guards: share_guards(&node.guards)?,
        autoremap: false,
        children: Items::of(Vec::new(alloc)),
    })
}

/// The ports of a Delay of so many milliseconds.
fn delay_ports(alloc: Global, ms: u32) -> Result<Ports, NoMemory>
    ensures { IfOk result (λ ports. ports ≡ delay_port ms ∷ []) }
{
    let mut ports = Vec::new(alloc);
    ports.push(Port {
        name: name_of(alloc, "delay_msec")?,
        value: PortValue::Lit(Value::Int(i64::from(ms))),
    })?;
    Ports::of(alloc, ports)
}

/// The leaf that answers as a configuration says, with its script.
fn answering(alloc: Global, configuration: &Configuration) -> Result<Term, NoMemory>
    ensures { IfOk result (λ term. term ≡ answering configuration.now) }
{
    let status = configuration.return_status;
    let name = always_id(alloc, status)?;
    let script = share_script(&configuration.post_script)?;
    always(alloc, status, name, only_post(script))
}

/// A Delay over that leaf, with the name and the guards of the node.
fn delayed(alloc: Global, configuration: &Configuration, node: &Term) -> Result<Term, NoMemory>
    ensures { IfOk result (λ term. term ≡ delayed configuration.now (out-Term node.now)) }
{
    let mut children = Vec::new(alloc);
    children.push(answering(alloc, configuration)?)?;
    Ok(Term {
        kind: Kind::Delay,
        id: name_of(alloc, "Delay")?,
        name: node.name.copy(alloc)?,
        ports: delay_ports(alloc, configuration.async_delay)?,
        code: None,
        guards: share_guards(&node.guards)?,
        autoremap: false,
        children: Items::of(children),
    })
}

/// The built-in leaf of this ID that always answers the status, in the place of the node.
fn always_at(alloc: Global, status: ReturnStatus, node: &Term) -> Result<Term, NoMemory>
    ensures { IfOk result (λ term. term ≡ always status (out-Term node.now).name (out-Term node.now).guards) }
{
    let name = node.name.copy(alloc)?;
    let guards = share_guards(&node.guards)?;
    always(alloc, status, name, guards)
}

/// What takes the place of the node by an ID: one of the two built-in leaves, or a leaf of that ID.
fn by_id(alloc: Global, id: &Name, node: &Term) -> Result<Term, NoMemory>
    ensures { IfOk result (λ term. term ≡ by_id id.now (out-Term node.now)) }
{
    if id.list() == b"AlwaysSuccess".as_slice() {
        always_at(alloc, ReturnStatus::Success, node)
    } else if id.list() == b"AlwaysFailure".as_slice() {
        always_at(alloc, ReturnStatus::Failure, node)
    } else {
        leaf(alloc, id, node)
    }
}

/// What takes the place of the node by the name in its rule: a configuration's name comes first.
fn by_name(
    alloc: Global,
    configurations: &[Configuration],
    name: &Name,
    node: &Term,
) -> Result<Term, NoMemory>
    ensures { IfOk result (λ term. term ≡ by_name (configuration_of configurations.now name.now) name.now (out-Term node.now)) }
{
    match configuration_of(configurations, name) {
        Some(configuration) => delayed(alloc, configuration, node),
        None => by_id(alloc, name, node),
    }
}

/// The node over these children.
pub fn with_children(alloc: Global, node: &Term, children: Items<Term>) -> Result<Term, NoMemory>
    ensures { IfOk result (λ term. term ≡ roll-Term (with_children (out-Term node.now) children)) }
{
    Ok(Term {
        kind: node.kind,
        id: node.id.copy(alloc)?,
        name: node.name.copy(alloc)?,
        ports: node.ports.share()?,
        code: share_script(&node.code)?,
        guards: share_guards(&node.guards)?,
        autoremap: node.autoremap,
        children,
    })
}

/// What takes the place of a node without children by its rule; without one it stays.
pub fn by_rule(
    alloc: Global,
    rules: &Lookup<'_>,
    path: &[u8],
    node: &Term,
) -> Result<Term, NoMemory>
    ensures { IfOk result (λ term. term ≡ by_rule rules.now.configurations (rule_of rules.now.rules path.now)
        (with_children (out-Term node.now) [])) }
{
    match rules.rule_of(path) {
        Some(rule) => by_name(alloc, rules.configurations(), &rule.replacement, node),
        None => with_children(alloc, node, Items::of(Vec::new(alloc))),
    }
}
