ghost use Rattle.std.specs.Prelude.{◌≡◌, [], IfOk, None, Some, option_map};
ghost use Rattle.serde_json.specs.Find.{as_object, get_member};
ghost use Rattle.serde_json.specs.View.{members_view, view};
ghost use Rattle.base_texts.specs.Stops.{Gives};
ghost use Rattle.tree_build.specs.Gives.{GivesSeen};
ghost use Rattle.tree_mock.specs.FitRules.{RulesFit};
ghost use Rattle.spec_tree_file.specs.ReadSteps.{go_on};
ghost use Rattle.spec_tree_file.specs.RuleFiles.{configuration_in, delay_in, document_in, draft_in, each, members_in, object_in, rule_in, rules_in, said, status_in, status_named, text_in, with_text};
ghost use Rattle.tree_mock.specs.Seen.{draft_seen, members_seen};

use crate::asked::json_in;
use crate::names::name_of;
use base_texts::{Items, Name, Shared, Stop};
use serde_json::{Map, Value};
use spec_tree_file::{Configuration, MockFault, ReturnStatus, Rule, Rules};
use std::alloc::Global;
use tree_build::script;

/// What a configuration says, before its script is read.
#[derive(Clone, Copy, Debug)]
struct Draft<'v> {
    return_status: ReturnStatus,
    async_delay: u32,
    post_script: Option<&'v str>,
}

/// The status that a text names.
fn status_named(text: &str) -> Option<ReturnStatus>
    ensures { result ≡ status_named text.now }
{
    match text {
        "SUCCESS" => Some(ReturnStatus::Success),
        "FAILURE" => Some(ReturnStatus::Failure),
        _ => None,
    }
}

/// What the member `return_status` says, which must be there.
fn status_in(value: Option<&Value>) -> Option<ReturnStatus>
    ensures { result ≡ said None status_in (option_map (λ v. view v.now) value.entry) }
{
    status_named(value?.as_str()?)
}

/// The milliseconds that the member `async_delay` says: none where it is left out.
fn delay_in(value: Option<&Value>) -> Option<u32>
    ensures { result ≡ said (Some 0) delay_in (option_map (λ v. view v.now) value.entry) }
{
    match value {
        Some(value) => u32::try_from(value.as_u64()?).ok(),
        None => Some(0),
    }
}

/// The text that the member `post_script` says, where it is there.
fn text_in(value: Option<&Value>) -> Option<Option<&str>>
    ensures { option_map (option_map (λ text. text.now)) result ≡ said (Some None) text_in (option_map (λ v. view v.now) value.entry) }
{
    match value {
        Some(value) => Some(Some(value.as_str()?)),
        None => Some(None),
    }
}

/// What a value says as a configuration. None where it has not the form of one.
fn draft_in(value: &Value) -> Option<Draft<'_>>
    ensures { option_map draft_seen result ≡ draft_in (view value.now) }
{
    let return_status = status_in(value.get("return_status"))?;
    let async_delay = delay_in(value.get("async_delay"))?;
    let post_script = text_in(value.get("post_script"))?;
    Some(Draft {
        return_status,
        async_delay,
        post_script,
    })
}

/// The configuration of this name and draft, or the fault of its script.
fn with_text(alloc: Global, name: Name, draft: Draft<'_>) -> Result<Configuration, Stop<MockFault>>
    ensures { Gives result (with_text name (draft_seen draft.entry) (draft_seen draft.entry).post_script) }
{
    let post_script = match draft.post_script {
        Some(text) => match script(alloc, text.as_bytes()) {
            Ok(script) => Some(Shared::of(alloc, script)?),
            Err(Stop::Fault(fault)) => return Err(Stop::Fault(MockFault::BadScript {
                name,
                fault,
            })),
            Err(Stop::NoMemory) => return Err(Stop::NoMemory),
        },
        None => None,
    };
    Ok(Configuration {
        name,
        return_status: draft.return_status,
        async_delay: draft.async_delay,
        post_script,
    })
}

/// The configuration of a member, or its fault: `Form` before `BadScript`.
fn configuration_in(
    alloc: Global,
    name: &str,
    value: &Value,
) -> Result<Configuration, Stop<MockFault>>
    ensures { Gives result (configuration_in name.now (view value.now)) }
{
    let name = name_of(alloc, name)?;
    match draft_in(value) {
        Some(draft) => with_text(alloc, name, draft),
        None => Err(Stop::Fault(MockFault::Form { name })),
    }
}

/// The rule of a member, or the fault `Form`.
fn rule_in(alloc: Global, pattern: &str, value: &Value) -> Result<Rule, Stop<MockFault>>
    ensures { Gives result (rule_in pattern.now (view value.now)) }
{
    let pattern = name_of(alloc, pattern)?;
    match value.as_str() {
        Some(text) => {
            let replacement = name_of(alloc, text)?;
            Ok(Rule {
                pattern,
                replacement,
            })
        }
        None => Err(Stop::Fault(MockFault::Form { name: pattern })),
    }
}

/// The members of an object. The fault `Form` without a name for any other value.
fn members_in<'v>(
    alloc: Global,
    value: &'v Value,
) -> Result<&'v Map<String, Value>, Stop<MockFault>>
    ensures { GivesSeen (λ m. members_view m.now.entries) result (members_in [] (as_object (view value.entry.now))) }
{
    match value.as_object() {
        Some(members) => Ok(members),
        None => {
            let name = name_of(alloc, "")?;
            Err(Stop::Fault(MockFault::Form { name }))
        }
    }
}

/// The member of this name. None where there is none.
fn member<'v>(members: &'v Map<String, Value>, name: &str) -> Option<&'v Value>
    ensures { option_map (λ v. view v.now) result ≡ get_member name.now (members_view members.entry.now.entries) }
{
    members.get(name)
}

/// The members of a value that may be left out and must be an object.
fn object_in<'v>(
    alloc: Global,
    value: Option<&'v Value>,
) -> Result<Option<&'v Map<String, Value>>, Stop<MockFault>>
    ensures { GivesSeen (λ o. members_seen (option_map (λ m. members_view m.now.entries) o)) result
        (object_in (option_map (λ v. view v.now) value.entry)) }
{
    match value {
        Some(value) => Ok(Some(members_in(alloc, value)?)),
        None => Ok(None),
    }
}

/// The configurations of these members, or the first fault.
fn configurations_of(
    alloc: Global,
    members: &Map<String, Value>,
) -> Result<Items<Configuration>, Stop<MockFault>>
    ensures { Gives result (each configuration_in (members_view members.now.entries)) }
{
    let mut configurations = Vec::new(alloc);
    for (name, value) in members.iter() {
        configurations.push(configuration_in(alloc, name.as_str(), value)?)?;
    }
    Ok(Items::of(configurations))
}

/// The rules of these members, or the first fault.
fn rules_of(alloc: Global, members: &Map<String, Value>) -> Result<Items<Rule>, Stop<MockFault>>
    ensures { Gives result (each rule_in (members_view members.now.entries)) }
{
    let mut rules = Vec::new(alloc);
    for (pattern, value) in members.iter() {
        rules.push(rule_in(alloc, pattern.as_str(), value)?)?;
    }
    Ok(Items::of(rules))
}

/// The configurations of members that may be left out, or the first fault.
fn configurations_in(
    alloc: Global,
    members: Option<&Map<String, Value>>,
) -> Result<Items<Configuration>, Stop<MockFault>>
    ensures { Gives result (each configuration_in (members_seen (option_map (λ m. members_view m.now.entries) members.entry))) }
{
    match members {
        Some(members) => configurations_of(alloc, members),
        None => Ok(Items::of(Vec::new(alloc))),
    }
}

/// The rules of members that may be left out, or the first fault.
fn rules_in(
    alloc: Global,
    members: Option<&Map<String, Value>>,
) -> Result<Items<Rule>, Stop<MockFault>>
    ensures { Gives result (each rule_in (members_seen (option_map (λ m. members_view m.now.entries) members.entry))) }
{
    match members {
        Some(members) => rules_of(alloc, members),
        None => Ok(Items::of(Vec::new(alloc))),
    }
}

/// The rules of a document, or the first fault: both members come before all configurations, and these before the rules.
fn document_in(alloc: Global, document: &Map<String, Value>) -> Result<Rules, Stop<MockFault>>
    ensures { Gives result (document_in (members_view document.now.entries)) }
{
    let configurations = object_in(alloc, member(document, "TestNodeConfigs"))?;
    let rules = object_in(alloc, member(document, "SubstitutionRules"))?;
    Ok(Rules {
        configurations: configurations_in(alloc, configurations)?,
        rules: rules_in(alloc, rules)?,
    })
}

/// The rules of a JSON value, or the first fault.
fn value_in(alloc: Global, value: &Value) -> Result<Rules, Stop<MockFault>>
    ensures { Gives result (go_on document_in (members_in [] (as_object (view value.now)))) }
{
    document_in(alloc, members_in(alloc, value)?)
}

/// The rules of a JSON text, or its first fault: the bytes, the document and its two members, then the configurations by
/// the bytes of their names, then the rules by the bytes of their patterns. `NoMemory` (out of memory) where an
/// allocation fails, here and below.
pub fn read_rules(alloc: Global, bytes: &[u8]) -> Result<Rules, Stop<MockFault>>
    ensures gives { Gives result (rules_in bytes.now) }
    ensures fit { IfOk result RulesFit }
{
    let value = json_in(alloc, bytes)?;
    value_in(alloc, &value)
}
