//! What a cell keeps of one run.

ghost use Rattle.std.specs.Prelude.{◌≡◌, ◌≢◌, ◌<◌, ◌↔◌, IfOk, IsTrue, Some, length, set, slice_get};
ghost use Rattle.ar_limits.specs.Metric.{HasPositiveCounts};
ghost use Rattle.ar_bundle.specs.declared.history.Entry.{Entry};
ghost use Rattle.ar_board.specs.Locks.{lock_of};

use crate::cell::names::lock_of_run;
use crate::cell::posted::Posted;
use crate::cell::receipt::Receipt;
use crate::cell::run_history::RunHistory;
use crate::cell::snapshot::Snapshot;
use ar_bundle::{Finding, History, Runs};
use ar_limits::{Event, Limits, Phase};
use std::alloc::{AllocError, Global};

/// The history of a run, the worker that posted each of its entries, how many each worker posted, and
/// the state of the run.
#[derive(Drop)]
pub(crate) struct KeptRun {
    pub(crate) run: RunHistory,
    pub(crate) authors: Vec<usize>,
    pub(crate) posts: Vec<u64>,
}

impl KeptRun {
    ghost use Rattle.ar_board.specs.Private.KeptRuns.{CanTake, IsNextOwn, IsOpened, IsPushed};
    ghost use Rattle.ar_board.specs.Receipts.{posted_by, received};

    /// A run to which nothing has happened, with room for n entries.
    pub(crate) fn open(
        alloc: Global,
        limits: &[Limits],
        room: usize,
        workers: usize,
    ) -> Result<KeptRun, AllocError>
        requires { HasPositiveCounts limits.now }
        ensures { IfOk result (IsOpened limits.now room workers) }
    {
        Ok(KeptRun {
            run: RunHistory::open(alloc, limits, room)?,
            authors: Vec::with_capacity(alloc, room)?,
            posts: vec![in alloc; 0; workers]?,
        })
    }

    /// One entry more, by a worker. There is room for it.
    pub(crate) fn push(
        &mut self,
        worker: usize,
        number: u64,
        finding: Finding,
        event: Event,
    ) -> Posted
        requires { CanTake self.old worker event }
        ensures { IsPushed self.old self.new worker number finding event result }
    {
        let place = self.run.entries.len();
        let effect = self.run.append(number, finding, event);
        self.authors.push_reserved(worker);
        self.posts[worker] += 1;
        Posted { place, effect }
    }

    /// Puts its history and its state at the run's position among those of all runs, if the run is under the lock.
    pub(crate) fn put_under(self, lock: usize, run: usize, all: &mut Runs)
        requires history { run < length all.old.histories.items }
        requires state { run < length all.old.states.items }
        ensures history { lock_of run ≡ lock
            → all.new.histories.items ≡ set all.old.histories.items run self.run.entries.items }
        ensures state { lock_of run ≡ lock → all.new.states.items ≡ set all.old.states.items run self.run.state }
        ensures other { lock_of run ≢ lock → all.new ≡ all.old }
    {
        if lock_of_run(run) != lock {
            return;
        }
        let RunHistory { entries, state } = self.run;
        all.histories[run] = History::from(entries);
        all.states[run] = state;
    }

    /// Whether the numbers and positions of a worker's entries are those of its receipts for the run.
    #[tactic(auto, using(crate::proofs::Shows::agree_at_first, crate::proofs::Shows::agree_skip))]
    pub(crate) fn agrees(&self, run: usize, worker: usize, receipts: &[Receipt]) -> bool
        requires { length self.now.authors.items ≡ length self.now.run.entries.items }
        ensures { IsTrue result
            ↔ (posted_by worker self.now.run.entries.items self.now.authors.items ≡ received run receipts.now) }
    {
        let mut from = 0;
        for receipt in receipts {
            if receipt.run != run {
                continue;
            }
            match self.next_own(worker, from) {
                Some(place) if self.is_of(place, receipt) => from = place + 1,
                _ => return false,
            }
        }
        self.next_own(worker, from).is_none()
    }

    /// Whether the entry at `place` is that of a receipt.
    fn is_of(&self, place: usize, receipt: &Receipt) -> bool
        requires { place < length self.now.run.entries.items }
        ensures { (entry : Entry) → slice_get self.now.run.entries.items place ≡ Some entry
            → IsTrue result ↔ ((entry.number ≡ receipt.now.number) × (place ≡ receipt.now.place)) }
    {
        place == receipt.place && self.run.entries[place].number == receipt.number
    }

    /// The first position from one on with an entry of the worker.
    #[tactic(auto, using(crate::proofs::Shows::next_skip, crate::proofs::Shows::next_here, crate::proofs::Shows::next_end))]
    fn next_own(&self, worker: usize, from: usize) -> Option<usize>
        requires { length self.now.authors.items ≡ length self.now.run.entries.items }
        ensures { IsNextOwn worker self.now.run.entries.items self.now.authors.items from result }
    {
        for place in from..self.authors.len() {
            if self.authors[place] == worker {
                return Some(place);
            }
        }
        None
    }

    /// What is shown of the run.
    pub(crate) fn snapshot(&self, alloc: Global) -> Result<Snapshot, AllocError>
        requires { length self.now.run.state.phases ≡ length self.now.run.state.limits }
        ensures phase { IfOk result (λ shown. shown.phase ≡ self.now.run.state.phase) }
        ensures metrics { IfOk result (λ shown. shown.metrics.items ≡ self.now.run.state.phases) }
        ensures posts { IfOk result (λ shown. shown.posts.items ≡ self.now.posts.items) }
    {
        Ok(Snapshot {
            phase: self.run.state.phase(),
            metrics: self.metric_phases(alloc)?,
            posts: self.posts.to_vec(alloc)?,
        })
    }

    /// The phase of each metric.
    #[tactic(auto, using(crate::proofs::Shows::phases_next, crate::proofs::Shows::phases_all))]
    fn metric_phases(&self, alloc: Global) -> Result<Vec<Phase>, AllocError>
        requires { length self.now.run.state.phases ≡ length self.now.run.state.limits }
        ensures { IfOk result (λ phases. phases.items ≡ self.now.run.state.phases) }
    {
        let metrics = self.run.state.metrics();
        let mut phases = Vec::with_capacity(alloc, metrics)?;
        for metric in 0..metrics {
            phases.push(self.run.state.metric_phase(metric))?;
        }
        Ok(phases)
    }
}
