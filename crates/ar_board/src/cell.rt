//! What a board keeps under one of its locks.

ghost use Rattle.std.specs.Prelude.{◌≡◌, ◌<◌, ◌≤◌, ◌==◌, ◌↔◌, if◌then◌else◌, Err, IfErr, IfOk, IsErr, OnErr, get_or, length};
ghost use Rattle.ar_bundle.specs.Sound.{IsBundle};
ghost use Rattle.ar_board.specs.Locks.{lock_of};
ghost use Rattle.ar_board.specs.Cell.{ArePut, CanBe, IsAdded, IsCell, IsEmpty, IsFresh, IsPostable, IsShownTo, IsInHistory, authors_at, entries_under, histories_of, history_at, stale, states_of};
ghost use Rattle.ar_board.specs.Private.KeptRuns.{AreOpened};

use crate::cell::kept_run::KeptRun;
use crate::cell::names::{LockName, lock_of_run};
use crate::cell::posted::{Double, Posted};
use crate::cell::receipt::Receipt;
use crate::cell::snapshot::{LookFault, Snapshot};
use ar_bundle::{Bundle, BundleName, Entry, Finding, Runs};
use std::alloc::{AllocError, Global};
use std::marker::{Model, PhantomData};
use std::sync::ledger::{Book, Share};

pub(crate) mod kept_run;
pub mod names;
pub mod posted;
pub mod receipt;
pub mod run_history;
pub mod snapshot;

/// What a board keeps under one of its locks: of each run of the bundle the history, the worker that
/// posted each entry, how many entries each worker posted, and the state of the run; to runs under
/// other locks nothing was posted. With them it keeps the book of the lock's ledger. Contracts see it as the
/// `Cell` of `specs/Cell`, and `IsCell` is true of it.
#[derive(Drop)]
pub struct RunCell<'b, M: BundleName, L: LockName> {
    bundle: &'b Bundle,
    /// Each run of the bundle.
    runs: Vec<KeptRun>,
    /// By number, whether it is in its run's history.
    stored: Vec<bool>,
    book: Book<L>,
    name: PhantomData<M>,
}

impl<'b, M: BundleName, L: LockName> Model for RunCell<'b, M, L> {
    ghost use Rattle.ar_board.specs.Cell.{Cell};
    ghost use Rattle.ar_board.specs.Private.KeptRuns.{IsSoundCell, cell_of};

    ghost Value = { Cell };

    ghost view = { λ c. cell_of c.runs.items c.book.total };

    ghost invariant = { λ c. IsSoundCell M.bundle M.workers L.lock
        c.bundle.now c.runs.items c.stored.items c.book.total };
}

/// How many entries a run can have under a lock, by the sizes of the runs.
fn room_of(sizes: &[usize], run: usize, lock: usize) -> usize
    requires { run < length sizes.now }
    ensures { result ≡ (if lock_of run == lock then get_or sizes.now run 0 else 0) }
{
    if lock_of_run(run) == lock {
        sizes[run]
    } else {
        0
    }
}

/// Each run of a bundle, to which nothing has happened, with room for all entries that it can have under
/// a lock.
#[tactic(auto, using(crate::proofs::Opened::opened_next, crate::proofs::Opened::sizes_there))]
fn open_runs(
    alloc: Global,
    bundle: &Bundle,
    workers: usize,
    lock: usize,
) -> Result<Vec<KeptRun>, AllocError>
    ensures opened { IfOk result (λ runs. AreOpened bundle.now workers lock (length bundle.now.runs) runs.items) }
    ensures bundle { IfOk result (λ _. IsBundle bundle.now) }
{
    let sizes = bundle.sizes(alloc)?;
    let parts = bundle.runs();
    let mut runs = Vec::with_capacity(alloc, parts.len())?;
    for part in parts {
        let room = room_of(sizes.as_slice(), runs.len(), lock);
        runs.push(KeptRun::open(alloc, part.limits.as_slice(), room, workers)?)?;
    }
    Ok(runs)
}

impl<'b, M: BundleName, L: LockName> RunCell<'b, M, L> {
    /// The cell of a lock to which nothing was posted, with the book of the lock's ledger. All that
    /// posts require is reserved here.
    ///
    /// # Errors
    ///
    /// Out of memory alone.
    pub fn new(
        alloc: Global,
        bundle: &'b Bundle,
        workers: usize,
        lock: usize,
        book: Book<L>,
    ) -> Result<RunCell<'b, M, L>, AllocError>
        requires bundle { bundle.now ≡ M.bundle }
        requires workers { workers ≡ M.workers }
        requires lock { lock ≡ L.lock }
        requires book { book.total ≡ 0 }
        ensures empty { IfOk result IsEmpty }
        ensures cell { IfOk result (IsCell M.bundle M.workers L.lock) }
    {
        Ok(RunCell {
            bundle,
            runs: open_runs(alloc, bundle, workers, lock)?,
            stored: vec![in alloc; false; bundle.events() as usize]?,
            book,
            name: PhantomData,
        })
    }

    /// The bundle that the cell is for. `IsCell` is true of each cell, whatever was posted.
    pub fn bundle(&self) -> &Bundle
        ensures bundle { result.now ≡ M.bundle }
        ensures cell { IsCell M.bundle M.workers L.lock self.now }
    {
        self.bundle
    }

    /// The history of a run.
    pub fn history(&self, run: usize) -> &[Entry]
        requires { run < length M.bundle.runs }
        ensures { result.now ≡ history_at self.now run }
    {
        &self.runs[run].run.entries
    }

    /// Compares a share with the book, which changes nothing: its amount is at most the number of the
    /// bundle's entries under this lock, and where it has all parts it is that of the cell's entries.
    #[tactic(auto, using(crate::proofs::FewEntries::few_there))]
    pub fn audit(&mut self, share: &mut Share<L>)
        ensures same { self.new ≡ self.old }
        ensures share { (share.new.amount ≡ share.old.amount) × (share.new.parts ≡ share.old.parts) }
        ensures cell { IsCell M.bundle M.workers L.lock self.old }
        ensures few { share.old.amount ≤ entries_under M.bundle L.lock }
        ensures bundle { IsBundle M.bundle }
        ensures whole { share.old.parts ≡ L.parts → share.old.amount ≡ self.old.total }
    {
        self.book.audit(share);
    }

    /// A run as its history is now, where the worker's entries in it are just those of its receipts for
    /// the run. It takes time in proportion to the run's entries, the receipts that are handed in, the
    /// metrics and the workers.
    ///
    /// # Errors
    ///
    /// `Stale` where they aren't, or out of memory.
    pub fn show(
        &self,
        alloc: Global,
        run: usize,
        worker: usize,
        receipts: &[Receipt],
    ) -> Result<Snapshot, LookFault>
        requires run { (run < length M.bundle.runs) × (lock_of run ≡ L.lock) }
        requires worker { worker < M.workers }
        ensures cell { IsCell M.bundle M.workers L.lock self.now }
        ensures shown { IfOk result (IsShownTo M.bundle M.workers run worker self.now receipts.now) }
        ensures stale { (IsFresh self.now run worker receipts.now → ⊥) ↔ (result ≡ Err (stale self.now run worker)) }
        ensures fault { IfErr result (λ fault. CanBe worker (authors_at self.now run) fault) }
    {
        let kept = &self.runs[run];
        if !kept.agrees(run, worker, receipts) {
            return Err(LookFault::Stale(kept.posts[worker]));
        }
        Ok(kept.snapshot(alloc)?)
    }

    /// Puts the histories and the states of the runs under the lock at their positions among those of all runs of
    /// the bundle.
    #[tactic(auto, using(crate::proofs::Put::put_first, crate::proofs::Put::put_all))]
    pub fn put_runs(self, lock: usize, all: &mut Runs)
        requires lock { lock ≡ L.lock }
        requires histories { length all.old.histories.items ≡ length M.bundle.runs }
        requires states { length all.old.states.items ≡ length M.bundle.runs }
        ensures cell { IsCell M.bundle M.workers L.lock self.entry }
        ensures put { ArePut L.lock (histories_of self.entry) all.old.histories.items all.new.histories.items }
        ensures states { ArePut L.lock (states_of self.entry) all.old.states.items all.new.states.items }
    {
        let RunCell {
            bundle: _,
            runs,
            stored: _,
            book: _,
            name: _,
        } = self;
        let mut run = 0;
        for kept in runs {
            kept.put_under(lock, run, all);
            run += 1;
        }
    }

    /// A number with its finding moves to the end of its run's history, posted by a worker. The worker's
    /// share, of which it has a part, and the book are one more. Out of memory is never returned.
    ///
    /// # Errors
    ///
    /// `Double` where the number is there already: nothing changes.
    pub fn add(
        &mut self,
        mine: &mut Share<L>,
        worker: usize,
        number: u64,
        finding: Finding,
    ) -> Result<Posted, Double>
        requires number { IsPostable M.bundle L.lock number finding }
        requires worker { (worker < M.workers) × (0 < mine.old.parts) }
        ensures added { IfOk result (IsAdded M.bundle worker number finding self.old self.new mine.old mine.new) }
        ensures double { IsErr result ↔ IsInHistory number self.old }
        ensures refused { OnErr result ((self.new ≡ self.old) × (mine.new.amount ≡ mine.old.amount)) }
        ensures parts { mine.new.parts ≡ mine.old.parts }
    {
        if self.stored[number as usize] {
            return Err(Double);
        }
        let bundle = self.bundle;
        let run = bundle.run_of(number);
        let event = bundle.event(number, finding);
        let posted = self.runs[run].push(worker, number, finding, event);
        self.stored[number as usize] = true;
        self.book.add(mine, 1);
        Ok(posted)
    }
}
