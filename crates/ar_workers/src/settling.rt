//! The numbers of a bundle, each settled at one of several desks.

ghost use Rattle.std.specs.Prelude.{◌≡◌, ◌≤◌, [], IfOk, length};
ghost use Rattle.std.specs.List.{AllByRecursion};
ghost use Rattle.crossbeam_queue.specs.Passes.{IsPassOf, view};
ghost use Rattle.ar_queue.specs.Workers.{all_named, feeding};
ghost use Rattle.ar_workers.specs.Private.Settling.{AreEachOnce};

use ar_bundle::{Bundle, BundleName};
use ar_queue::{
    Desk, Gate, Gathered, Item, Queue, QueueName, Unfinished, View, in_threads, learn, open,
};
use crossbeam_queue::Pass;
use std::alloc::Global;
use std::marker::Brand;
use std::sync::Wait;
use std::thread::Threads;

/// Has a worker for each desk, in a thread of its own, take numbers of the bundle from one queue and
/// settle them, and gives the desks back: each number was settled at one of them, just once.
///
/// # Errors
///
/// Where a thread couldn't be started, or where memory was refused.
pub(crate) fn settle_all<M, D, G, R>(
    rt: &R,
    alloc: Global,
    bundle: &Bundle,
    desks: Vec<D>,
    gate: &G,
) -> Result<Vec<D>, Unfinished>
where
    M: BundleName + Send + Sync,
    D: Desk<M> + Send,
    G: Gate,
    R: Threads + Wait + Sync,
    requires bundle { bundle.now ≡ M.bundle }
    requires some { 1 ≤ length desks.items }
    requires fresh { AllByRecursion (λ desk. D.numbers desk ≡ []) desks.items }
    ensures each_once { IfOk result (λ settled.
        AreEachOnce (length M.bundle.entries) (all_named D.numbers settled.items)) }
    ensures desks { IfOk result (λ settled. length settled.items ≡ length desks.items) }
{
    let (queue, pass) = open::<M>(alloc)?;
    settle_from::<M, D, Brand, G, R>(rt, alloc, bundle, &queue, pass, desks, gate)
}

/// The same, by a name of the queue, which can be named only once it is there.
fn settle_from<M, D, T, G, R>(
    rt: &R,
    alloc: Global,
    bundle: &Bundle,
    queue: &Queue<M>,
    pass: Pass<Item, View>,
    desks: Vec<D>,
    gate: &G,
) -> Result<Vec<D>, Unfinished>
where
    M: BundleName + Send + Sync,
    D: Desk<M> + Send,
    T: QueueName + Send,
    G: Gate,
    R: Threads + Wait + Sync,
    requires bundle { bundle.now ≡ M.bundle }
    requires queue { queue.now.table.shared.table_id ≡ T.table }
    requires pass { IsPassOf queue.now pass }
    requires fresh_pass { view pass ≡ feeding 0 0 0 }
    requires some { 1 ≤ length desks.items }
    requires fresh { AllByRecursion (λ desk. D.numbers desk ≡ []) desks.items }
    ensures each_once { IfOk result (λ settled.
        AreEachOnce (length M.bundle.entries) (all_named D.numbers settled.items)) }
    ensures desks { IfOk result (λ settled. length settled.items ≡ length desks.items) }
{
    let Gathered { mut pass, desks } = in_threads::<M, D, T, G, R>(
        rt, alloc, bundle, queue, desks, pass, gate,
    )?;
    learn(queue, &mut pass);
    Ok(desks)
}
