//! Ordered runs: judged by several workers, and applied in the order of the numbers.

ghost use Rattle.std.specs.Prelude.{◌≡◌, ◌<◌, ◌≤◌, ℕ, IfErr, IfOk, length};
ghost use Rattle.ar_bundle.specs.Sound.{IsBundle};
ghost use Rattle.ar_bundle.specs.Finished.{AreFinished};
ghost use Rattle.ar_bundle.specs.Lawful.{AllRise, AreLawful};
ghost use Rattle.ar_workers.specs.Joined.{IsNotLost};
ghost use Rattle.ar_workers.specs.Private.Judging.{IsKnown};

use crate::error::WorkError;
use crate::judging::{Judging, by_number, empty_desks};
use crate::settling::settle_all;
use ar_board::MOST_WORKERS;
use ar_bundle::{Bundle, BundleName, Finding, Finished, Histories, Runs};
use ar_queue::{Gate, Unfinished};
use std::alloc::{AllocError, Global};
use std::marker::Brand;
use std::sync::Wait;
use std::thread::Threads;

/// A bundle's runs, judged by n workers, each in a thread of its own, and applied in the order of the
/// numbers: whatever the threads do, their histories are those of the plain run.
///
/// # Errors
///
/// Where a thread couldn't be started, or out of memory, in this order.
#[tactic(auto, using(crate::proofs::Ending::is_not_lost))]
pub fn finish_ordered<G: Gate, R: Threads + Wait + Sync>(
    rt: &R,
    alloc: Global,
    bundle: &Bundle,
    workers: usize,
    gate: &G,
) -> Result<Finished, WorkError>
    requires most { (1 ≤ workers) × (workers ≤ MOST_WORKERS) }
    ensures finished { IfOk result (AreFinished bundle.now) }
    // Numbers rise in each history.
    ensures in_order { IfOk result (λ finished. AllRise finished.histories) }
    // No number is ever lost.
    ensures never_lost { IfErr result IsNotLost }
{
    Ok(ordered_named::<Brand, G, R>(rt, alloc, bundle, workers, gate)?)
}

/// The histories of the runs that [`finish_ordered`] gives.
///
/// # Errors
///
/// As those of `finish_ordered`.
pub fn run_ordered<G: Gate, R: Threads + Wait + Sync>(
    rt: &R,
    alloc: Global,
    bundle: &Bundle,
    workers: usize,
    gate: &G,
) -> Result<Histories, WorkError>
    requires most { (1 ≤ workers) × (workers ≤ MOST_WORKERS) }
    ensures lawful { IfOk result (AreLawful bundle.now) }
    // Numbers rise in each history.
    ensures in_order { IfOk result AllRise }
    // No number is ever lost.
    ensures never_lost { IfErr result IsNotLost }
{
    Ok(finish_ordered(rt, alloc, bundle, workers, gate)?.histories)
}

/// The same, by a name of the bundle.
fn ordered_named<M, G, R>(
    rt: &R,
    alloc: Global,
    bundle: &Bundle,
    workers: usize,
    gate: &G,
) -> Result<Finished, Unfinished>
where
    M: BundleName + Send + Sync,
    G: Gate,
    R: Threads + Wait + Sync,
    requires bundle { bundle.now ≡ M.bundle }
    requires some { 1 ≤ workers }
    ensures finished { IfOk result (AreFinished M.bundle) }
    ensures in_order { IfOk result (λ finished. AllRise finished.histories) }
{
    let empty = empty_desks(alloc, workers)?;
    let settled = settle_all::<M, Judging<M>, G, R>(rt, alloc, bundle, empty, gate)?;
    let findings = by_number(alloc, bundle.events(), settled)?;
    Ok(applied(alloc, bundle, &findings)?)
}

/// A bundle's runs, where the finding of each number is known.
fn applied(
    alloc: Global,
    bundle: &Bundle,
    findings: &[Option<Finding>],
) -> Result<Finished, AllocError>
    requires known { (number : ℕ) → number < length bundle.now.entries → IsKnown bundle.now findings.now number }
    ensures finished { IfOk result (AreFinished bundle.now) }
    ensures in_order { IfOk result (λ finished. AllRise finished.histories) }
{
    let events = bundle.events();
    let mut runs = Runs::open(alloc, bundle)?;
    for number in 0..events {
        let Some(finding) = findings[number as usize] else {
            unreachable!()
        };
        runs.apply(bundle, number, finding)?;
    }
    Ok(runs.finish())
}
