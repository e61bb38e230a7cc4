//! What is done under one of a board's locks, over any of them.

ghost use Rattle.std.specs.Prelude.{◌≡◌, ◌+◌, ◌<◌, ◌≤◌, IfErr, IfOk, OnErr, OnOk, Some, length};
ghost use Rattle.ar_bundle.specs.Sound.{IsBundle};
ghost use Rattle.ar_bundle.specs.Bundle.{finding_at};
ghost use Rattle.ar_board.specs.Board.{IsAnswered, IsSeen, IsUnseen, seat_of};
ghost use Rattle.ar_board.specs.Private.Closing.{IsCellClosed};
ghost use Rattle.ar_board.specs.Locks.{lock_of};
ghost use Rattle.ar_board.specs.Cell.{IsUnder, entries_under};

use crate::locks::{Lock, LockNames};
use crate::{Double, LockName, LookFault, Posted, Receipt, RunCell, Snapshot};
use ar_bundle::{BundleName, Finding, Runs};
use std::alloc::Global;
use std::sync::ledger::Share;
use std::sync::{Mutex, Wait};

/// A worker's finding of a number moves to the end of its run's history, and its share is one more: no
/// more than the bundle has entries under the lock.
pub(crate) fn post<M: BundleName, L: LockName, R: Wait>(
    rt: &R,
    lock: &Mutex<RunCell<'_, M, L>>,
    share: &mut Share<L>,
    worker: usize,
    number: u64,
    finding: Finding,
) -> Result<Posted, Double>
    requires there { number < length M.bundle.entries }
    requires under { IsUnder M.bundle L.lock number }
    requires worker { worker < M.workers }
    requires finding { finding_at M.bundle number ≡ Some finding }
    requires part { 0 < share.old.parts }
    ensures answered { IfOk result (IsAnswered M.bundle M.workers worker number finding) }
    ensures more { OnOk result (share.new.amount ≡ share.old.amount + 1) }
    ensures few { share.new.amount ≤ entries_under M.bundle L.lock }
    ensures refused { OnErr result (share.new.amount ≡ share.old.amount) }
    ensures parts { share.new.parts ≡ share.old.parts }
{
    let mut cell = lock.lock(rt);
    let answer = cell.add(share, worker, number, finding);
    cell.audit(share);
    answer
}

/// A run as it is at one moment.
pub(crate) fn look<M: BundleName, L: LockName, R: Wait>(
    rt: &R,
    lock: &Mutex<RunCell<'_, M, L>>,
    alloc: Global,
    run: usize,
    worker: usize,
    receipts: &[Receipt],
) -> Result<Snapshot, LookFault>
    requires there { run < length M.bundle.runs }
    requires under { lock_of run ≡ L.lock }
    requires worker { worker < M.workers }
    ensures shown { IfOk result (IsSeen M.bundle M.workers run (seat_of worker receipts.now)) }
    ensures fault { IfErr result (IsUnseen M.bundle M.workers run (seat_of worker receipts.now)) }
{
    let cell = lock.lock(rt);
    cell.show(alloc, run, worker, receipts)
}

/// A lock's cell is compared with the share that has all parts of its ledger, and its histories and states move
/// to their positions among those of all runs.
pub(crate) fn close_cell<M: BundleName, L: LockNames, const LOCK: usize>(
    lock: Mutex<RunCell<'_, M, Lock<L, LOCK>>>,
    share: &mut Share<Lock<L, LOCK>>,
    all: &mut Runs,
)
    requires whole { share.old.parts ≡ L.parts }
    requires histories { length all.old.histories.items ≡ length M.bundle.runs }
    requires states { length all.old.states.items ≡ length M.bundle.runs }
    ensures given { IsCellClosed M.bundle M.workers LOCK share.old.amount all.old all.new }
    ensures bundle { IsBundle M.bundle }
{
    let mut cell = lock.into_inner();
    cell.audit(share);
    cell.put_runs(LOCK, all);
}
