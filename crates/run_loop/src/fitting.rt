ghost use Rattle.std.specs.Prelude.{◌≡◌, List};
ghost use Rattle.std.specs.List.{list_all};
ghost use Rattle.std.specs.Result.{result_err};
ghost use Rattle.spec_run.specs.Drivers.{DriverState};
ghost use Rattle.spec_run.specs.Joins.{event_lacks, first_untold};
ghost use Rattle.spec_run.specs.Served.{Setup};
ghost use Rattle.spec_tree.specs.Trees.{nodes_of};
ghost use Rattle.spec_world.specs.Runnable.{IsRunnableWorld};
ghost use Rattle.run_driver.specs.Ready.{ready_told};
ghost use Rattle.run_loop.specs.Fitting.{first_lack, is_named, nodes_lack, sort_lacks};
ghost use Rattle.run_loop.specs.Runs.{AreRuns};

use crate::runs::Runs;
use run_arena::Node;
use run_driver::ReadySort;
use spec_run::JoinFault;
use spec_world::{Event, Telling, ToldOut, What};

/// Whether the leaves of a row may be told a value for this output.
fn has_out(sort: &ReadySort, out: &ToldOut) -> bool
    ensures { result ≡ is_named (ready_told sort.now) out.now }
{
    match sort {
        ReadySort::Told { outs } => outs.list().iter().any(|name| out.port == *name),
        _ => false,
    }
}

/// Whether the leaves of a row may be told a value for each of these outputs.
fn has_outs(sort: &ReadySort, outs: &[ToldOut]) -> bool
    ensures { result ≡ list_all (is_named (ready_told sort.now)) outs.now }
{
    outs.iter().all(|out| has_out(sort, out))
}

/// Whether the leaf of a uid, which has a row of this sort, can be told this. The fault is that its row is told nothing,
/// or has no such output.
fn sort_fits(sort: &ReadySort, uid: u32, telling: &Telling) -> Result<(), JoinFault>
    ensures { result_err result ≡ sort_lacks sort.now uid telling.now }
{
    if !sort.is_told() {
        return Err(JoinFault::NoLeaf { uid });
    }
    match telling {
        Telling::Success(outs) if !has_outs(sort, outs.list()) => Err(JoinFault::NoOutput { uid }),
        _ => Ok(()),
    }
}

/// Whether an event of a runner with these nodes fits them: only a telling names a leaf. The fault is what is missing.
fn fits_nodes(nodes: &[Node], event: &Event) -> Result<(), JoinFault>
    ensures { result_err result ≡ nodes_lack nodes.now event.now.what }
{
    let What::Tell { uid, telling, .. } = &event.what else {
        return Ok(());
    };
    match nodes.get(*uid as usize) {
        Some(
            Node {
                leaf: Some(leaf),
                ..
            },
        ) => sort_fits(&leaf.row.get().sort, *uid, telling),
        _ => Err(JoinFault::NoLeaf { uid: *uid }),
    }
}

/// Whether an event fits the tree of these runs: only a telling names a leaf, which has to be there, with a row whose
/// leaves are told what they answer and which has the outputs that are told. The fault is what is missing.
pub fn event_fits(runs: &Runs, event: &Event) -> Result<(), JoinFault>
    ghost of: { Setup }
    requires world { IsRunnableWorld of.world }
    requires runs { (drivers : List DriverState) × AreRuns of.tree of.world drivers runs.now }
    ensures { result_err result ≡ event_lacks of.world.rows (nodes_of of.tree.term) event.now.what }
{
    fits_nodes(runs.runners[0].arena.nodes.as_slice(), event)
}

/// Whether all of these events of a runner with these nodes fit them. The fault is what is missing for the first one that
/// does not.
fn all_fit(nodes: &[Node], events: &[Event]) -> Result<(), JoinFault>
    ensures { result_err result ≡ first_lack nodes.now events.now }
{
    for event in events {
        fits_nodes(nodes, event)?;
    }
    Ok(())
}

/// Whether all of these events fit the tree of these runs. The fault is what is missing for the first one that does not.
pub fn tellings_fit(runs: &Runs, events: &[Event]) -> Result<(), JoinFault>
    ghost of: { Setup }
    requires world { IsRunnableWorld of.world }
    requires runs { (drivers : List DriverState) × AreRuns of.tree of.world drivers runs.now }
    ensures { result_err result ≡ first_untold of.world.rows (nodes_of of.tree.term) events.now }
{
    all_fit(runs.runners[0].arena.nodes.as_slice(), events)
}
