//! The runs of a bundle, judged by several workers.

ghost use Rattle.std.specs.Prelude.{◌≡◌, ◌≤◌, [], IfErr, IfOk, length};
ghost use Rattle.std.specs.List.{AllByRecursion};
ghost use Rattle.ar_bundle.specs.Finished.{AreFinished};
ghost use Rattle.ar_bundle.specs.Lawful.{AreLawful};
ghost use Rattle.ar_board.specs.Board.{receipts_of};
ghost use Rattle.ar_board.specs.Locks.{AreOf};
ghost use Rattle.ar_workers.specs.Joined.{IsWorkCause, NameEachOnce};

use crate::error::WorkError;
use crate::posting::{Posting, desks_of, seats_and_doubles};
use crate::settling::settle_all;
use ar_board::{Blanks, Board, LockNames, MOST_WORKERS, Seat};
use ar_bundle::{Bundle, BundleName, Finished, Histories};
use ar_queue::{Gate, Unfinished};
use std::alloc::Global;
use std::marker::Brand;
use std::sync::Wait;
use std::thread::Threads;

/// A bundle's runs, by n workers, each in a thread of its own: they take the bundle's numbers from one
/// queue, judge them, and post them to one board.
///
/// # Errors
///
/// Where a thread couldn't be started, out of memory, or where a number was lost, in this
/// order.
pub fn finish_all<G: Gate, R: Threads + Wait + Sync>(
    rt: &R,
    alloc: Global,
    bundle: &Bundle,
    workers: usize,
    gate: &G,
) -> Result<Finished, WorkError>
    requires most { (1 ≤ workers) × (workers ≤ MOST_WORKERS) }
    ensures finished { IfOk result (AreFinished bundle.now) }
    ensures cause { IfErr result (IsWorkCause bundle.now) }
{
    let blanks = Blanks::new(workers as u64);
    run_named::<Brand, Brand, G, R>(rt, alloc, bundle, workers, blanks, gate)
}

/// The histories of the runs that [`finish_all`] gives.
///
/// # Errors
///
/// As those of `finish_all`.
pub fn run_all<G: Gate, R: Threads + Wait + Sync>(
    rt: &R,
    alloc: Global,
    bundle: &Bundle,
    workers: usize,
    gate: &G,
) -> Result<Histories, WorkError>
    requires most { (1 ≤ workers) × (workers ≤ MOST_WORKERS) }
    ensures lawful { IfOk result (AreLawful bundle.now) }
    ensures cause { IfErr result (IsWorkCause bundle.now) }
{
    Ok(finish_all(rt, alloc, bundle, workers, gate)?.histories)
}

/// The same, by names of the bundle and of the board's locks: contracts of a board speak of it by names,
/// which a call of a function over them picks.
fn run_named<M, L, G, R>(
    rt: &R,
    alloc: Global,
    bundle: &Bundle,
    workers: usize,
    blanks: Blanks,
    gate: &G,
) -> Result<Finished, WorkError>
where
    M: BundleName + Send + Sync,
    L: LockNames + Send + Sync,
    G: Gate,
    R: Threads + Wait + Sync,
    requires bundle { bundle.now ≡ M.bundle }
    requires workers { workers ≡ M.workers }
    requires most { (1 ≤ workers) × (workers ≤ MOST_WORKERS) }
    requires blanks { AreOf L.names L.parts blanks }
    requires parts { L.parts ≡ M.workers }
    ensures finished { IfOk result (AreFinished M.bundle) }
    ensures cause { IfErr result (IsWorkCause M.bundle) }
{
    let (board, seats) = Board::<M, L>::new(alloc, blanks, bundle, workers)?;
    let (seats, doubles) = posted_by::<M, L, G, R>(rt, alloc, bundle, &board, seats, gate)?;
    closed(board, seats, doubles)
}

/// The seats after a run of workers at them, and the numbers whose post was a double.
fn posted_by<M, L, G, R>(
    rt: &R,
    alloc: Global,
    bundle: &Bundle,
    board: &Board<'_, M, L>,
    seats: Vec<Seat<M, L>>,
    gate: &G,
) -> Result<(Vec<Seat<M, L>>, Vec<u64>), Unfinished>
where
    M: BundleName + Send + Sync,
    L: LockNames + Send + Sync,
    G: Gate,
    R: Threads + Wait + Sync,
    requires bundle { bundle.now ≡ M.bundle }
    requires seats { (length seats.items ≡ M.workers) × (1 ≤ M.workers) }
    requires fresh { AllByRecursion (λ seat. seat.receipts ≡ []) seats.items }
    ensures each_once { IfOk result (λ all.
        NameEachOnce (length M.bundle.entries) (receipts_of all.0.items) all.1.items) }
    ensures seats { IfOk result (λ all. length all.0.items ≡ M.workers) }
{
    let desks = desks_of(alloc, board, seats)?;
    let settled = settle_all::<M, Posting<'_, '_, M, L>, G, R>(rt, alloc, bundle, desks, gate)?;
    seats_and_doubles(alloc, settled)
}

/// What closing the board gives, with the doubles where a number is lost.
fn closed<M: BundleName, L: LockNames>(
    board: Board<'_, M, L>,
    seats: Vec<Seat<M, L>>,
    doubles: Vec<u64>,
) -> Result<Finished, WorkError>
    requires parts { L.parts ≡ M.workers }
    requires seats { length seats.items ≡ M.workers }
    requires each_once { NameEachOnce (length M.bundle.entries) (receipts_of seats.items) doubles.items }
    ensures finished { IfOk result (AreFinished M.bundle) }
    ensures cause { IfErr result (IsWorkCause M.bundle) }
{
    match board.finish(seats) {
        Ok(finished) => Ok(finished),
        Err(lost) => Err(WorkError::Lost { lost, doubles }),
    }
}
