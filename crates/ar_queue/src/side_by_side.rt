//! Workers side by side.

ghost use Rattle.std.specs.Prelude.{◌≡◌, ◌≤◌, [], IfErr, IfOk, OnOk, length};
ghost use Rattle.std.specs.List.{AllByRecursion};
ghost use Rattle.std.specs.Vec.{vec_capacity};
ghost use Rattle.crossbeam_queue.specs.Passes.{IsPassOf, view};
ghost use Rattle.ar_queue.specs.Workers.{AreGathered, IsFeeder, feeding, working};

use crate::desk::Desk;
use crate::feed::feed;
use crate::gate::Gate;
use crate::passes::{join, split};
use crate::queue::{Item, Queue, View};
use crate::worker::{Outcome, QueueName, work};
use ar_bundle::{Bundle, BundleName};
use crossbeam_queue::Pass;
use std::alloc::{AllocError, Global};
use std::sync::Wait;
use std::thread;
use std::thread::{JoinHandle, Scope, Threads};

/// Why workers ended early.
#[derive(Drop)]
pub enum Unfinished {
    NoThread,
    OutOfMemory,
}

impl From<AllocError> for Unfinished {
    ghost use Rattle.ar_queue.specs.declared.side_by_side.Unfinished.TheVariants as early;

    ghost from_gives = { λ _ cause. cause ≡ early.OutOfMemory };

    fn from(_error: AllocError) -> Unfinished {
        Unfinished::OutOfMemory
    }
}

/// What all workers brought back, their passes joined into the feeder's.
#[derive(Drop)]
pub struct Gathered<D> {
    pub pass: Pass<Item, View>,
    pub desks: Vec<D>,
}

/// Starts a worker for each desk, each with a pass that is split off the feeder's.
///
/// # Errors
///
/// Where a thread couldn't be started. The handles are those of the workers that were.
fn start_all<'s, E: 's, M, D, T, G, R>(
    scope: &Scope<'s, E>,
    rt: &'s R,
    alloc: Global,
    bundle: &'s Bundle,
    queue: &'s Queue<M>,
    desks: Vec<D>,
    pass: &mut Pass<Item, View>,
    handles: &mut Vec<JoinHandle<Outcome<M, D, T>>>,
    gate: &'s G,
) -> Result<(), Unfinished>
where
    M: BundleName + Send + Sync + 's,
    D: Desk<M> + Send + 's,
    T: QueueName + Send + 's,
    G: Gate + 's,
    R: Threads + Wait + Sync + 's,
    requires bundle { bundle.now ≡ M.bundle }
    requires queue { queue.now.table.shared.table_id ≡ T.table }
    requires pass { IsPassOf queue.now pass.old }
    requires fresh_pass { view pass.old ≡ feeding 0 0 0 }
    requires fresh { AllByRecursion (λ desk. D.numbers desk ≡ []) desks.items }
    requires no_handles { handles.old.items ≡ [] }
    requires room { length desks.items ≤ vec_capacity handles.old }
    ensures pass { IsPassOf queue.entry.now pass.new }
    ensures fed { view pass.new ≡ feeding 0 0 (view pass.new).out }
    ensures out { OnOk result ((view pass.new).out ≡ length desks.items) }
    ensures handles { OnOk result (length handles.new.items ≡ length desks.items) }
    ensures early { IfErr result (λ cause. cause ≡ Unfinished.NoThread) }
{
    for desk in desks {
        let own = split(queue, pass);
        let job = move || -> Outcome<M, D, T>
            requires { (bundle.now ≡ M.bundle) × (queue.now.table.shared.table_id ≡ T.table) × IsPassOf queue.now own
                × (view own ≡ working []) × (D.numbers desk ≡ []) }
        { work::<M, D, T, G, R>(rt, alloc, bundle, queue, desk, own, gate) };
        match scope.spawn(job) {
            Ok(handle) => handles.push_reserved(handle),
            Err(_) => return Err(Unfinished::NoThread),
        }
    }
    Ok(())
}

/// Joins all workers, each one's pass into the feeder's. After one that ended early the scope joins the
/// others.
fn join_all<M: BundleName, D: Desk<M>, T: QueueName, R: Threads>(
    rt: &R,
    alloc: Global,
    queue: &Queue<M>,
    handles: Vec<JoinHandle<Outcome<M, D, T>>>,
    mut pass: Pass<Item, View>,
) -> Result<Gathered<D>, Unfinished>
    requires queue { queue.now.table.shared.table_id ≡ T.table }
    requires pass { IsPassOf queue.now pass }
    requires out { IsFeeder (view pass) (length handles.items) (length handles.items) 0 × ((view pass).taken ≡ []) }
    ensures pass { IfOk result (λ all. IsPassOf queue.now all.pass) }
    ensures gathered { IfOk result (AreGathered D.numbers (length handles.items)) }
    ensures early { IfErr result (λ cause. cause ≡ Unfinished.OutOfMemory) }
{
    let mut desks = Vec::with_capacity(alloc, handles.len())?;
    for handle in handles {
        match handle.join(rt) {
            Outcome::All(done) => {
                join(queue, &mut pass, done.ended.pass);
                desks.push_reserved(done.desk);
            }
            Outcome::OutOfMemory(_) => return Err(Unfinished::OutOfMemory),
        }
    }
    Ok(Gathered { pass, desks })
}

/// Starts a worker for each desk, feeds the queue while they run, and joins them all. Where no worker
/// could be started nothing is fed.
fn in_scope<'s, E: 's, M, D, T, G, R>(
    scope: &Scope<'s, E>,
    rt: &'s R,
    alloc: Global,
    bundle: &'s Bundle,
    queue: &'s Queue<M>,
    desks: Vec<D>,
    mut pass: Pass<Item, View>,
    gate: &'s G,
) -> Result<Gathered<D>, Unfinished>
where
    M: BundleName + Send + Sync + 's,
    D: Desk<M> + Send + 's,
    T: QueueName + Send + 's,
    G: Gate + 's,
    R: Threads + Wait + Sync + 's,
    requires bundle { bundle.now ≡ M.bundle }
    requires queue { queue.now.table.shared.table_id ≡ T.table }
    requires pass { IsPassOf queue.now pass }
    requires fresh_pass { view pass ≡ feeding 0 0 0 }
    requires fresh { AllByRecursion (λ desk. D.numbers desk ≡ []) desks.items }
    ensures pass { IfOk result (λ all. IsPassOf queue.entry.now all.pass) }
    ensures gathered { IfOk result (AreGathered D.numbers (length desks.items)) }
{
    let mut handles = Vec::with_capacity(alloc, desks.len())?;
    let started = start_all::<E, M, D, T, G, R>(
        scope,
        rt,
        alloc,
        bundle,
        queue,
        desks,
        &mut pass,
        &mut handles,
        gate,
    );
    if !handles.is_empty() {
        feed(rt, queue, &mut pass, bundle.events(), handles.len());
    }
    started?;
    join_all(rt, alloc, queue, handles, pass)
}

/// Has a worker for each desk take the numbers of the bundle from the queue, each in a thread of its
/// own: starts them, feeds the queue while they run, and joins them all.
///
/// # Errors
///
/// Where a thread couldn't be started or memory was refused, once all workers that were started have
/// ended.
pub fn in_threads<'x, M, D, T, G, R>(
    rt: &'x R,
    alloc: Global,
    bundle: &'x Bundle,
    queue: &'x Queue<M>,
    desks: Vec<D>,
    pass: Pass<Item, View>,
    gate: &'x G,
) -> Result<Gathered<D>, Unfinished>
where
    M: BundleName + Send + Sync,
    D: Desk<M> + Send,
    T: QueueName + Send,
    G: Gate,
    R: Threads + Wait + Sync,
    requires bundle { bundle.now ≡ M.bundle }
    requires queue { queue.now.table.shared.table_id ≡ T.table }
    requires pass { IsPassOf queue.now pass × (view pass ≡ feeding 0 0 0) }
    requires fresh { AllByRecursion (λ desk. D.numbers desk ≡ []) desks.items }
    ensures pass { IfOk result (λ all. IsPassOf queue.entry.now all.pass) }
    ensures gathered { IfOk result (AreGathered D.numbers (length desks.items)) }
{
    thread::scope(
        thread::scope_env(),
        rt,
        move |scope| -> Result<Gathered<D>, Unfinished>
            requires { (bundle.now ≡ M.bundle) × (queue.now.table.shared.table_id ≡ T.table) × IsPassOf queue.now pass
                × (view pass ≡ feeding 0 0 0) × AllByRecursion (λ desk. D.numbers desk ≡ []) desks.items }
            ensures { IfOk result (λ all. IsPassOf queue.entry.now all.pass
                × AreGathered D.numbers (length desks.items) all) }
        { in_scope::<_, M, D, T, G, R>(scope, rt, alloc, bundle, queue, desks, pass, gate) },
    )
}
