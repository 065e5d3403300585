ghost use Rattle.std.specs.Prelude.{◌≡◌, map};
ghost use Rattle.std.specs.List.{list_all};
ghost use Rattle.base_tables.specs.BuiltInRows.{rule_seen};
ghost use Rattle.spec_tree_file.specs.Content.{Modelled, all_known, is_port, name_fits, range_among, range_of, rules_of};
ghost use Rattle.tree_build.specs.Seen.{rules_seen};

use base_tables::{PortRule, ports_of};
use base_texts::Name;
use script_reader::is_identifier;
use spec_tree::{Kind, Range};
use spec_tree_file::Head;
use tree_manifest::{KnownModel, Manifest, is_port_name, model};

/// Which ports a node may have.
#[derive(Clone, Copy)]
pub enum Rules<'a> {
    /// Any port, as a leaf without a model has.
    AnyPort,
    /// Any key, as a SubTree node has.
    AnyKey,
    /// The ports of a leaf's model.
    Modelled(&'a KnownModel),
    /// The ports of a built-in node.
    BuiltIn(&'static [PortRule]),
}

/// The rules of a node.
pub fn rules_of<'a>(models: &'a Manifest, head: &Head) -> Rules<'a>
    ensures { rules_seen result ≡ rules_of models.now head.now.kind head.now.id }
{
    match head.kind {
        Kind::SubTree => Rules::AnyKey,
        Kind::Leaf => match model(models, &head.id) {
            Some(model) => Rules::Modelled(model),
            None => Rules::AnyPort,
        },
        kind => Rules::BuiltIn(ports_of(kind)),
    }
}

/// The range of the port of this name. None where the node may not have it.
pub fn range_of(rules: Rules<'_>, name: &Name) -> Option<Range>
    ensures { result ≡ range_of (rules_seen rules.entry) name.now }
{
    match rules {
        Rules::AnyPort | Rules::AnyKey => Some(Range::AnyValue),
        Rules::Modelled(model) => modelled_range(model, name),
        Rules::BuiltIn(rules) => range_among(rules, name.list()),
    }
}

/// The range of the port of this name among those of a model.
fn modelled_range(model: &KnownModel, name: &Name) -> Option<Range>
    ensures { result ≡ range_of (Modelled model.now.ports) name.now }
{
    if model.has_port(name) {
        Some(Range::AnyValue)
    } else {
        None
    }
}

/// The range of the port of this name among those of a built-in node.
fn range_among(rules: &[PortRule], name: &[u8]) -> Option<Range>
    ensures { result ≡ range_among (map rule_seen rules.now) name.now }
{
    for rule in rules {
        if name == rule.name.as_bytes() {
            return Some(rule.range);
        }
    }
    None
}

/// Whether a port may have this name: those of a SubTree node are keys, that is, identifiers.
pub fn name_fits(rules: Rules<'_>, name: &[u8]) -> bool
    ensures { result ≡ name_fits (rules_seen rules.entry) name.now }
{
    match rules {
        Rules::AnyKey => is_identifier(name),
        _ => true,
    }
}

/// Whether the attribute of this name is a port. `code` is none of a node that has a code.
pub fn is_port(with_code: bool, name: &[u8]) -> bool
    ensures { result ≡ is_port with_code name.now }
{
    is_port_name(name) && !(with_code && name == b"code".as_slice())
}

/// Whether the node may have each port that is written.
pub fn all_known(with_code: bool, rules: Rules<'_>, attributes: &[(Name, Name)]) -> bool
    ensures { result ≡ all_known with_code (rules_seen rules.entry) attributes.now }
{
    for (name, _) in attributes {
        if is_port(with_code, name.list()) && range_of(rules, name).is_none() {
            return false;
        }
    }
    true
}
