ghost use Rattle.std.specs.Prelude.{◌≡◌, None};
ghost use Rattle.std.specs.Result.{result_map_both};
ghost use Rattle.std.specs.List.{list_any};
ghost use Rattle.std.specs.Option.{option_copied};
ghost use Rattle.base_texts.specs.Stops.{Gives};
ghost use Rattle.spec_tree.specs.Boards.{is_private};
ghost use Rattle.spec_tree.specs.BuiltIns.{has_code};
ghost use Rattle.spec_tree_file.specs.Content.{content_in, form_fits, truth_in};
ghost use Rattle.tree_build.specs.ContentSteps.{autoremap_in, code_text, guard_in, guards_in, is_bare, older_autoremap, rest_in, ruled_in, scripts_in, said_or_false, script_of};
ghost use Rattle.tree_build.specs.Seen.{rules_seen, text_seen};

use crate::ports::ports_in;
use crate::rules::{Rules, all_known, rules_of};
use crate::scripts::script;
use base_tables::has_code;
use base_texts::{Boxed, Name, Shared, Stop};
use spec_script::Script;
use spec_tree::{Guards, Kind, Ports};
use spec_tree_file::{BuildFault, Content, Form, Head};
use std::alloc::Global;
use std::mem::replace;
use tree_board::begins_private;
use tree_manifest::{Manifest, attribute};

/// By what the attributes of nodes are read.
#[derive(Clone, Copy)]
pub struct Source<'a> {
    pub alloc: Global,
    /// The models of the file.
    pub models: &'a Manifest,
}

/// The script of the text, if there is one. The fault `BadScript` where it reads as none.
fn script_of(
    source: Source<'_>,
    uid: u32,
    text: Option<&Name>,
) -> Result<Option<Shared<Script>>, Stop<BuildFault>>
    ensures { Gives result (script_of uid (option_copied text.entry)) }
{
    let Some(text) = text else {
        return Ok(None);
    };
    match script(source.alloc, text.list()) {
        Ok(script) => Ok(Some(Shared::of(source.alloc, script)?)),
        Err(Stop::Fault(fault)) => Err(Stop::Fault(BuildFault::BadScript { uid, fault })),
        Err(Stop::NoMemory) => Err(Stop::NoMemory),
    }
}

/// The guard in the attribute of this name, if there is one. The fault `BadScript` where it reads as none.
fn guard_in(
    source: Source<'_>,
    uid: u32,
    attributes: &[(Name, Name)],
    name: &[u8],
) -> Result<Option<Shared<Script>>, Stop<BuildFault>>
    ensures { Gives result (guard_in uid attributes.now name.now) }
{
    script_of(source, uid, attribute(attributes, name))
}

/// Whether the name of some attribute begins with `_`, as those of all guards do.
fn any_private(attributes: &[(Name, Name)]) -> bool
    ensures { result ≡ list_any (λ a. is_private a.0) attributes.now }
{
    attributes.iter().any(|(name, _)| begins_private(name))
}

/// No guards.
fn no_guards() -> Guards
    ensures { result ≡ record {
      failure_if = None;
      success_if = None;
      skip_if = None;
      while_true = None;
      on_success = None;
      on_failure = None;
      post = None;
      on_halted = None;
    } }
{
    Guards {
        failure_if: None,
        success_if: None,
        skip_if: None,
        while_true: None,
        on_success: None,
        on_failure: None,
        post: None,
        on_halted: None,
    }
}

/// Puts a guard in its place. The one that was there is dropped here, so that this is proved once.
fn put(place: &mut Option<Shared<Script>>, guard: Option<Shared<Script>>)
    ensures { place.new ≡ guard }
{
    drop(replace(place, guard));
}

/// Puts the guards of a node in their places, each looked for by its name. The fault is the first one's.
#[inline(never)]
fn put_guards(
    source: Source<'_>,
    uid: u32,
    attributes: &[(Name, Name)],
    guards: &mut Guards,
) -> Result<(), Stop<BuildFault>>
    ensures { Gives (result_map_both (λ done. guards.new) (λ stop. stop) result) (guards_in uid attributes.now) }
{
    put(
        &mut guards.failure_if,
        guard_in(source, uid, attributes, b"_failureIf")?,
    );
    put(
        &mut guards.success_if,
        guard_in(source, uid, attributes, b"_successIf")?,
    );
    put(
        &mut guards.skip_if,
        guard_in(source, uid, attributes, b"_skipIf")?,
    );
    put(
        &mut guards.while_true,
        guard_in(source, uid, attributes, b"_while")?,
    );
    put(
        &mut guards.on_success,
        guard_in(source, uid, attributes, b"_onSuccess")?,
    );
    put(
        &mut guards.on_failure,
        guard_in(source, uid, attributes, b"_onFailure")?,
    );
    put(
        &mut guards.post,
        guard_in(source, uid, attributes, b"_post")?,
    );
    put(
        &mut guards.on_halted,
        guard_in(source, uid, attributes, b"_onHalted")?,
    );
    Ok(())
}

/// The guards of a node, or the first fault. Most nodes have none, and then no name is looked for.
#[tactic(auto, using(crate::proofs::NoGuards::no_guards))]
fn guards_in(
    source: Source<'_>,
    uid: u32,
    attributes: &[(Name, Name)],
) -> Result<Guards, Stop<BuildFault>>
    ensures { Gives result (guards_in uid attributes.now) }
{
    let mut guards = no_guards();
    if !any_private(attributes) {
        return Ok(guards);
    }
    match put_guards(source, uid, attributes, &mut guards) {
        Ok(()) => Ok(guards),
        Err(stop) => {
            drop(guards);
            Err(stop)
        }
    }
}

/// The text of the code of a node whose kind has one. The fault `BadLiteral` where it is not written.
fn code_text(
    uid: u32,
    with_code: bool,
    attributes: &[(Name, Name)],
) -> Result<Option<&Name>, Stop<BuildFault>>
    ensures { Gives (text_seen result) (code_text uid with_code attributes.now) }
{
    if !with_code {
        return Ok(None);
    }
    match attribute(attributes, b"code") {
        Some(text) => Ok(Some(text)),
        None => Err(Stop::Fault(BuildFault::BadLiteral { uid })),
    }
}

/// The truth value that the text says, if it says one.
fn truth_in(text: &[u8]) -> Option<bool>
    ensures { result ≡ truth_in text.now }
{
    if text == b"true".as_slice() || text == b"1".as_slice() {
        Some(true)
    } else if text == b"false".as_slice() || text == b"0".as_slice() {
        Some(false)
    } else {
        None
    }
}

/// The truth value that the text says, false where there is no text. The fault `BadLiteral` where it says none.
fn said_or_false(uid: u32, text: Option<&Name>) -> Result<bool, Stop<BuildFault>>
    ensures { Gives result (said_or_false uid (option_copied text.entry)) }
{
    let Some(text) = text else {
        return Ok(false);
    };
    match truth_in(text.list()) {
        Some(truth) => Ok(truth),
        None => Err(Stop::Fault(BuildFault::BadLiteral { uid })),
    }
}

/// What a SubTreePlus says by the older name, `__autoremap`; false of any other node.
fn older_autoremap(
    uid: u32,
    form: Form,
    attributes: &[(Name, Name)],
) -> Result<bool, Stop<BuildFault>>
    ensures { Gives result (older_autoremap uid form attributes.now) }
{
    match form {
        Form::SubTreePlus => said_or_false(uid, attribute(attributes, b"__autoremap")),
        _ => Ok(false),
    }
}

/// Whether all keys of a SubTree node are mapped. The fault `BadLiteral` where a text says no truth value.
fn autoremap_in(
    uid: u32,
    kind: Kind,
    form: Form,
    attributes: &[(Name, Name)],
) -> Result<bool, Stop<BuildFault>>
    ensures { Gives result (autoremap_in uid kind form attributes.now) }
{
    if kind != Kind::SubTree {
        return Ok(false);
    }
    let now = said_or_false(uid, attribute(attributes, b"_autoremap"))?;
    let older = older_autoremap(uid, form, attributes)?;
    Ok(now || older)
}

/// The content of a node with these ports and this text of its code. The fault `BadScript` where a script can't be
/// read.
fn scripts_in(
    source: Source<'_>,
    uid: u32,
    ports: Ports,
    text: Option<&Name>,
    autoremap: bool,
    attributes: &[(Name, Name)],
) -> Result<Boxed<Content>, Stop<BuildFault>>
    ensures { Gives result (scripts_in uid ports (option_copied text.entry) autoremap attributes.now) }
{
    let code = script_of(source, uid, text)?;
    let guards = guards_in(source, uid, attributes)?;
    let content = Content {
        ports,
        code,
        guards,
        autoremap,
    };
    Ok(Boxed::of(source.alloc, content)?)
}

/// The content of a node with these ports, or the first fault of the rest.
fn rest_in(
    source: Source<'_>,
    uid: u32,
    kind: Kind,
    form: Form,
    attributes: &[(Name, Name)],
    ports: Ports,
) -> Result<Boxed<Content>, Stop<BuildFault>>
    ensures { Gives result (rest_in uid kind form attributes.now ports) }
{
    let text = code_text(uid, has_code(kind), attributes)?;
    let autoremap = autoremap_in(uid, kind, form, attributes)?;
    scripts_in(source, uid, ports, text, autoremap, attributes)
}

/// Whether a node has no attribute but an ID and a name.
fn is_bare(attributes: &[(Name, Name)]) -> bool
    ensures { result ≡ is_bare attributes.now }
{
    attributes.iter().all(|(name, _)| name.list() == b"ID".as_slice()
        || name.list() == b"name".as_slice())
}

/// Whether an element of this form may have these attributes.
fn form_fits(form: Form, attributes: &[(Name, Name)]) -> bool
    ensures { result ≡ form_fits form attributes.now }
{
    match form {
        Form::OldSubTree => is_bare(attributes),
        _ => true,
    }
}

/// What the attributes of a node say that may have these ports, or the first fault: `UnknownPort`, `OldSubTree`,
/// then those of values and of scripts.
fn ruled_in(
    source: Source<'_>,
    uid: u32,
    kind: Kind,
    form: Form,
    rules: Rules<'_>,
    attributes: &[(Name, Name)],
) -> Result<Boxed<Content>, Stop<BuildFault>>
    ensures { Gives result (ruled_in uid kind form (rules_seen rules.entry) attributes.now) }
{
    if !all_known(has_code(kind), rules, attributes) {
        return Err(Stop::Fault(BuildFault::UnknownPort { uid }));
    }
    if !form_fits(form, attributes) {
        return Err(Stop::Fault(BuildFault::OldSubTree { uid }));
    }
    let ports = ports_in(source.alloc, uid, has_code(kind), rules, attributes)?;
    rest_in(source, uid, kind, form, attributes, ports)
}

/// What the attributes of a node say, or the first fault. It is made on the heap, where it waits while the children of
/// the node are read, since the stack holds a level for each node above.
#[inline(never)]
pub fn content_in(
    source: Source<'_>,
    uid: u32,
    head: &Head,
    attributes: &[(Name, Name)],
) -> Result<Boxed<Content>, Stop<BuildFault>>
    ensures { Gives result (content_in uid source.entry.models.now head.now.kind head.now.id head.now.form attributes.now) }
{
    let rules = rules_of(source.models, head);
    ruled_in(source, uid, head.kind, head.form, rules, attributes)
}
