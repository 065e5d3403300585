//! Which templates achieve the conditions of a world.

ghost use Rattle.std.specs.Prelude.{◌≡◌, IfOk};
ghost use Rattle.plan_tree.specs.Growth.{achievers_at, achievers_by, all_achievers_by, is_achiever, rule_effects};

use crate::domain::achieves;
use crate::rule::Rule;
use base_texts::{Items, NoMemory};
use spec_plan::{Template, Test};
use spec_world::Set;
use std::alloc::Global;

/// The effects of the action of this row.
fn effects_of(rules: &[Rule], row: u32) -> &[Set]
    ensures { result.now ≡ rule_effects rules.now row }
{
    match rules.get(row as usize) {
        Some(rule) => rule.effects.list(),
        None => &[],
    }
}

/// Whether the action of a template may turn a test true.
fn is_achiever(rules: &[Rule], test: &Option<Test>, template: Template) -> bool
    ensures { result ≡ is_achiever rules.now test.now template }
{
    match test {
        Some(test) => achieves(test, effects_of(rules, template.row)),
        None => false,
    }
}

/// The templates that achieve a test, in order.
fn achievers_of(
    alloc: Global,
    rules: &[Rule],
    templates: &[Template],
    test: &Option<Test>,
) -> Result<Items<Template>, NoMemory>
    ensures { IfOk result (λ found. found ≡ achievers_by rules.now templates.now test.now) }
{
    let mut found = Vec::new(alloc);
    for template in templates {
        if is_achiever(rules, test, *template) {
            found.push(*template)?;
        }
    }
    Ok(Items::of(found))
}

/// For each row the templates that achieve its test, if it has one.
pub(crate) fn all_achievers(
    alloc: Global,
    rules: &[Rule],
    templates: &[Template],
) -> Result<Items<Items<Template>>, NoMemory>
    ensures { IfOk result (λ all. all ≡ all_achievers_by rules.now templates.now) }
{
    let mut all = Vec::with_capacity(alloc, rules.len())?;
    for rule in rules {
        all.push(achievers_of(alloc, rules, templates, &rule.test)?)?;
    }
    Ok(Items::of(all))
}

/// The templates that are kept for the condition of this row.
pub(crate) fn achievers_at(achievers: &[Items<Template>], row: u32) -> &[Template]
    ensures { result.now ≡ achievers_at achievers.now row }
{
    match achievers.get(row as usize) {
        Some(own) => own.list(),
        None => &[],
    }
}
