//! From a tree that failed to the next one.

ghost use Rattle.std.specs.Prelude.{◌≡◌, ◌<◌, ◌≤◌, ◌^◌, IfOk, length};
ghost use Rattle.std.specs.Option.{option_and_then};
ghost use Rattle.spec_world.specs.declared.world.World.{World};
ghost use Rattle.spec_plan.specs.Forests.{Forest, part_at, times};
ghost use Rattle.plan_tree.specs.Sizes.{size, subtrees};
ghost use Rattle.spec_plan.specs.Achievers.{row_in};
ghost use Rattle.spec_plan.specs.Planned.{id_of};
ghost use Rattle.plan_tree.specs.Stands.{IsConditionOf, IsSequenceOf, StandsFor};
ghost use Rattle.spec_plan.specs.declared.verdict.Verdict.TheVariants.{Fails};
ghost use Rattle.spec_plan.specs.Failing.{failed, first_open, ids_of};
ghost use Rattle.plan_search.specs.Grown.{AreConditions, ExpandsOrNot, GoesOrEnds, GrowsOrNot, SettlesOrStalls};
ghost use Rattle.spec_plan.specs.PlanRuns.{Decides, Ends, Trial, failed_in, last_notes};
ghost use Rattle.spec_plan.specs.Settling.{name_at};

use crate::failing::failed;
use crate::settling::settle;
use base_texts::{Items, Name, NoMemory, Stop};
use plan_tree::{ExpandFault, PlanTree, expand, has_untried, part_of, row_of};
use spec_plan::{End, Limits, Part, Place, Step};
use spec_run::Note;
use spec_world::{Row, World};
use std::alloc::Global;

/// A condition that was expanded, with the key of the new sequence and the row of its action.
#[derive(Clone, Copy)]
pub(crate) struct Grown {
    pub place: Place,
    pub sequence: usize,
    pub action: u32,
}

/// The ID of a row.
fn id_of(alloc: Global, rows: &[Row], row: u32) -> Result<Name, NoMemory>
    ensures { IfOk result (λ name. name ≡ id_of rows.now row) }
{
    match rows.get(row as usize) {
        Some(row) => row.id.copy(alloc),
        None => Ok(Name::empty()),
    }
}

/// The IDs of some conditions.
fn ids_of(alloc: Global, rows: &[Row], places: &[Place]) -> Result<Items<Name>, NoMemory>
    ensures { IfOk result (λ names. names ≡ ids_of rows.now places.now) }
{
    let mut names = Vec::with_capacity(alloc, places.len())?;
    for place in places {
        names.push(id_of(alloc, rows, place.row)?)?;
    }
    Ok(Items::of(names))
}

/// The row of a node, if it has one.
fn row_in(part: Part) -> Option<u32>
    ensures { result ≡ row_in part }
{
    match part {
        Part::Sequence(row) | Part::Condition(row) | Part::Action(row) => Some(row),
        Part::Goals | Part::Fallback => None,
    }
}

/// The row of the condition or the action of this key.
fn row_at(t: &PlanTree, key: usize) -> Option<u32>
    ensures { (world : World) (tree : Forest) → StandsFor t.now world tree → 1 ≤ times key tree →
        result ≡ option_and_then row_in (part_at key tree) }
{
    match part_of(t, key) {
        Some(part) => row_in(part),
        None => None,
    }
}

/// The ID of the row of the condition or the action of this key.
fn name_at(alloc: Global, rows: &[Row], t: &PlanTree, key: usize) -> Result<Name, NoMemory>
    ensures { IfOk result (λ name. (world : World) (tree : Forest) → StandsFor t.now world tree → 1 ≤ times key tree →
        name ≡ name_at rows.now tree key) }
{
    match row_at(t, key) {
        Some(row) => id_of(alloc, rows, row),
        None => Ok(Name::empty()),
    }
}

/// Expands a condition, if it has an untried template, and gives the key of the new sequence.
fn try_expand(alloc: Global, t: &mut PlanTree, key: usize) -> Result<Option<usize>, NoMemory>
    requires { (world : World) × (tree : Forest) × StandsFor t.old world tree × IsConditionOf tree key }
    ensures { IfOk result (λ found. (world : World) (tree : Forest) → StandsFor t.old world tree → IsConditionOf tree key →
        ExpandsOrNot t.new world tree key found) }
{
    match expand(alloc, t, key) {
        Ok(sequence) => Ok(Some(sequence)),
        Err(Stop::Fault(ExpandFault::NoUntried)) => Ok(None),
        Err(Stop::NoMemory) => Err(NoMemory),
    }
}

/// Expands the first of some conditions that has an untried template.
fn expand_first(
    alloc: Global,
    t: &mut PlanTree,
    places: &[Place],
) -> Result<Option<Grown>, NoMemory>
    requires { (world : World) × (tree : Forest) × StandsFor t.old world tree × AreConditions tree places.now }
    ensures { IfOk result (λ found. (world : World) (tree : Forest) → StandsFor t.old world tree → AreConditions tree places.now →
        GrowsOrNot t.new world tree places.now found) }
{
    for place in places {
        let found = try_expand(alloc, t, place.key)?;
        match found {
            Some(sequence) => {
                return Ok(Some(Grown {
                    place: *place,
                    sequence,
                    action: row_of(t, sequence),
                }));
            }
            None => {}
        }
    }
    Ok(None)
}

/// Raises a new sequence until nothing conflicts, and adds the step. An end comes where no raise is
/// left.
fn settle_step(
    alloc: Global,
    world: &World,
    grown: Grown,
    t: &mut PlanTree,
    steps: &mut Vec<Step>,
) -> Result<Option<End>, NoMemory>
    requires { (tree : Forest) × StandsFor t.old world.now tree × IsSequenceOf tree grown.sequence × (size tree < 2 ^ 32) }
    ensures { IfOk result (λ end. (tree : Forest) → StandsFor t.old world.now tree → IsSequenceOf tree grown.sequence →
        SettlesOrStalls t.new world.now grown tree steps.old.items steps.new.items end) }
{
    let settled = settle(t, grown.sequence);
    let rows = world.rows.list();
    match settled.conflict {
        Some((action, condition)) => Ok(Some(End::NoOrder {
            action: name_at(alloc, rows, t, action)?,
            condition: name_at(alloc, rows, t, condition)?,
        })),
        None => {
            steps.push(Step {
                uid: grown.place.uid,
                condition: id_of(alloc, rows, grown.place.row)?,
                action: id_of(alloc, rows, grown.action)?,
                raises: settled.raises,
            })?;
            Ok(None)
        }
    }
}

/// The first of some conditions that has an untried template.
fn first_open(t: &PlanTree, places: &[Place]) -> Option<Place>
    ensures { (world : World) (tree : Forest) → StandsFor t.now world tree → AreConditions tree places.now →
        result ≡ first_open world.rows tree places.now }
{
    for place in places {
        if has_untried(t, place.key) {
            return Some(*place);
        }
    }
    None
}

/// The end where no condition that failed has an untried template.
fn no_template(alloc: Global, world: &World, places: &[Place]) -> Result<End, NoMemory>
    ensures { IfOk result (λ end. end ≡ End.NoTemplate (ids_of world.now.rows places.now)) }
{
    Ok(End::NoTemplate {
        failed: ids_of(alloc, world.rows.list(), places)?,
    })
}

/// The end of a tree that failed where no sequence may be added any more. The tree stays as it is.
fn end_at_limit(
    alloc: Global,
    world: &World,
    limits: &Limits,
    t: &PlanTree,
    places: &[Place],
) -> Result<End, NoMemory>
    ensures { IfOk result (λ end. (trial : Trial) → StandsFor t.now world.now trial.tree → AreConditions trial.tree places.now →
        Decides world.now limits.now trial Fails → places.now ≡ failed_in world.now limits.now trial →
        Ends world.now limits.now limits.now.expand trial end) }
{
    match first_open(t, places) {
        Some(_) => Ok(End::Expansions { n: limits.expand }),
        None => no_template(alloc, world, places),
    }
}

/// Makes a step from a tree that failed, by the notes of its last tick, or ends there.
pub fn grow(
    alloc: Global,
    world: &World,
    limits: &Limits,
    notes: &[Note],
    t: &mut PlanTree,
    steps: &mut Vec<Step>,
) -> Result<Option<End>, NoMemory>
    requires { (tree : Forest) × StandsFor t.old world.now tree × (subtrees tree ≤ 120) }
    ensures { IfOk result (λ end. (trial : Trial) → StandsFor t.old world.now trial.tree →
        Decides world.now limits.now trial Fails → notes.now ≡ last_notes world.now limits.now trial →
        length steps.old.items ≤ limits.now.expand
        → GoesOrEnds t.new world.now limits.now (length steps.old.items) trial steps.old.items steps.new.items end) }
{
    let places = failed(alloc, t, notes)?;
    if steps.len() == limits.expand as usize {
        return Ok(Some(end_at_limit(alloc, world, limits, t, places.as_slice())?));
    }
    let found = expand_first(alloc, t, places.as_slice())?;
    match found {
        None => Ok(Some(no_template(alloc, world, places.as_slice())?)),
        Some(grown) => settle_step(alloc, world, grown, t, steps),
    }
}
