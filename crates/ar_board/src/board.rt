//! Boards, to which several workers post at the same time.

ghost use Rattle.std.specs.Prelude.{◌≡◌, ◌<◌, ◌≤◌, IfErr, IfOk, OnErr, OnOk, Some, length};
ghost use Rattle.ar_bundle.specs.Bundle.{finding_at, run_at};
ghost use Rattle.ar_bundle.specs.Finished.{AreStatesOf};
ghost use Rattle.ar_board.specs.Lost.{IsLost};
ghost use Rattle.ar_board.specs.Board.{AreSeated, IsAnswered, IsClosed, IsReceived, IsSeen, IsUnseen, receipts_of};
ghost use Rattle.ar_board.specs.Locks.{AreOf, lock_of};
ghost use Rattle.ar_board.specs.Private.Closing.{IsReady};
ghost use Rattle.ar_board.specs.Private.Seats.{IsOneMore};

use crate::closing::Room;
use crate::locks::{Blanks, First, Fourth, LockNames, Second, Third};
use crate::lost::Lost;
use crate::seat::{Seat, gather, seats_of};
use crate::shares::Shares;
use crate::{Double, LookFault, Posted, Receipt, RunCell, Snapshot, lock_of_run, under};
use ar_bundle::{Bundle, BundleName, Finding, Finished, Histories};
use ar_value::limits::MOST_WORKERS;
use std::alloc::{AllocError, Global};
use std::sync::{Mutex, Wait};

/// The runs of a bundle, to which workers post from threads of their own. They are kept in four cells,
/// each under a lock. Posts and looks take the lock of their run; who holds one keeps workers waiting.
#[derive(Drop)]
pub struct Board<'b, M: BundleName, L: LockNames> {
    bundle: &'b Bundle,
    /// Runs 0, 4, 8 and so on.
    pub first: Mutex<RunCell<'b, M, First<L>>>,
    /// Runs 1, 5, 9 and so on.
    pub second: Mutex<RunCell<'b, M, Second<L>>>,
    /// Runs 2, 6, 10 and so on.
    pub third: Mutex<RunCell<'b, M, Third<L>>>,
    /// Runs 3, 7, 11 and so on.
    pub fourth: Mutex<RunCell<'b, M, Fourth<L>>>,
    room: Room,
    ghost named: { bundle.now ≡ M.bundle },
    ghost ready: { IsReady M.bundle M.workers room },
}

impl<'b, M: BundleName, L: LockNames> Board<'b, M, L> {
    /// A board for a bundle and n workers, with a seat for each of them. All that posts require is
    /// reserved here.
    ///
    /// # Errors
    ///
    /// Out of memory alone.
    pub fn new(
        alloc: Global,
        blanks: Blanks,
        bundle: &'b Bundle,
        workers: usize,
    ) -> Result<(Board<'b, M, L>, Vec<Seat<M, L>>), AllocError>
        requires bundle { bundle.now ≡ M.bundle }
        requires workers { workers ≡ M.workers }
        requires most { (1 ≤ workers) × (workers ≤ MOST_WORKERS) }
        requires blanks { AreOf L.names L.parts blanks }
        requires parts { L.parts ≡ M.workers }
        ensures seats { IfOk result (λ made. AreSeated M.workers made.1.items) }
    {
        let (first, all_first) = blanks.first.open();
        let (second, all_second) = blanks.second.open();
        let (third, all_third) = blanks.third.open();
        let (fourth, all_fourth) = blanks.fourth.open();
        let all = Shares {
            first: all_first,
            second: all_second,
            third: all_third,
            fourth: all_fourth,
        };
        let seats = seats_of(alloc, bundle, workers, all)?;
        let first = RunCell::new(alloc, bundle, workers, 0, first)?;
        let second = RunCell::new(alloc, bundle, workers, 1, second)?;
        let third = RunCell::new(alloc, bundle, workers, 2, third)?;
        let fourth = RunCell::new(alloc, bundle, workers, 3, fourth)?;
        let board = Board {
            bundle,
            first: Mutex::new(first),
            second: Mutex::new(second),
            third: Mutex::new(third),
            fourth: Mutex::new(fourth),
            room: Room::new(alloc, bundle, workers)?,
        };
        Ok((board, seats))
    }

    /// Adds a worker's finding of a number to the end of its run's history, under the run's lock, and gives the
    /// worker's seat a receipt: the run, the number and the place of the entry. It takes no memory.
    ///
    /// # Errors
    ///
    /// `Double` where the number is there already: nothing changes.
    pub fn post<R: Wait>(
        &self,
        rt: &R,
        seat: &mut Seat<M, L>,
        number: u64,
        finding: Finding,
    ) -> Result<Posted, Double>
        requires there { number < length M.bundle.entries }
        requires finding { finding_at M.bundle number ≡ Some finding }
        ensures answered { IfOk result (IsAnswered M.bundle M.workers seat.old.worker number finding) }
        ensures received { IfOk result (IsReceived M.bundle number seat.old seat.new) }
        ensures refused { OnErr result (seat.new ≡ seat.old) }
    {
        let run = self.bundle.run_of(number);
        let posted = self.post_under(rt, run, &mut seat.shares, seat.worker, number, finding)?;
        // The seat has room for one receipt of each number: no more were posted than there are.
        seat.receipts.push_reserved(Receipt {
            run,
            number,
            place: posted.place,
        });
        Ok(posted)
    }

    /// The same under the lock of the number's run, by the worker's shares.
    fn post_under<R: Wait>(
        &self,
        rt: &R,
        run: usize,
        held: &mut Shares<L>,
        worker: usize,
        number: u64,
        finding: Finding,
    ) -> Result<Posted, Double>
        requires there { number < length M.bundle.entries }
        requires run { run_at M.bundle number ≡ Some run }
        requires worker { worker < M.workers }
        requires finding { finding_at M.bundle number ≡ Some finding }
        requires part { 0 < held.old.parts }
        ensures answered { IfOk result (IsAnswered M.bundle M.workers worker number finding) }
        ensures more { OnOk result (IsOneMore M.bundle (lock_of run) held.old held.new) }
        ensures refused { OnErr result (held.new ≡ held.old) }
    {
        match lock_of_run(run) {
            0 => under::post(rt, &self.first, &mut held.first, worker, number, finding),
            1 => under::post(rt, &self.second, &mut held.second, worker, number, finding),
            2 => under::post(rt, &self.third, &mut held.third, worker, number, finding),
            _ => under::post(rt, &self.fourth, &mut held.fourth, worker, number, finding),
        }
    }

    /// A run as it is at one moment, where the worker's entries in it are just those of the seat's
    /// receipts for the run.
    ///
    /// # Errors
    ///
    /// `Stale` where they aren't, or out of memory.
    pub fn look<R: Wait>(
        &self,
        rt: &R,
        alloc: Global,
        seat: &Seat<M, L>,
        run: usize,
    ) -> Result<Snapshot, LookFault>
        requires there { run < length M.bundle.runs }
        ensures shown { IfOk result (IsSeen M.bundle M.workers run seat.now) }
        ensures fault { IfErr result (IsUnseen M.bundle M.workers run seat.now) }
    {
        let (worker, receipts) = (seat.worker, seat.receipts.as_slice());
        match lock_of_run(run) {
            0 => under::look(rt, &self.first, alloc, run, worker, receipts),
            1 => under::look(rt, &self.second, alloc, run, worker, receipts),
            2 => under::look(rt, &self.third, alloc, run, worker, receipts),
            _ => under::look(rt, &self.fourth, alloc, run, worker, receipts),
        }
    }

    /// The runs, by all seats of the board: their histories, and the states in the cells. Out of memory is
    /// never returned. It takes time in proportion to the bundle's entries and the receipts.
    ///
    /// # Errors
    ///
    /// `Lost` where the histories don't hold each number: where one is nowhere, not where its receipt
    /// says, or at no later position than an earlier receipt of the same seat for the run.
    pub fn finish(self, seats: Vec<Seat<M, L>>) -> Result<Finished, Lost>
        requires all { length seats.items ≡ M.workers }
        requires parts { L.parts ≡ M.workers }
        ensures closed { IfOk result (λ it. IsClosed M.bundle (receipts_of seats.items) it.histories) }
        ensures states { IfOk result (λ it. AreStatesOf M.bundle it.histories it.states.items) }
        ensures lost { IfErr result (IsLost M.bundle (receipts_of seats.items)) }
    {
        let mut room = self.room;
        let mut all = gather(seats, &mut room.receipts);
        under::close_cell(self.first, &mut all.first, &mut room.runs);
        under::close_cell(self.second, &mut all.second, &mut room.runs);
        under::close_cell(self.third, &mut all.third, &mut room.runs);
        under::close_cell(self.fourth, &mut all.fourth, &mut room.runs);
        let lost = room.first_lost::<M>();
        let finished = room.runs.finish();
        match lost {
            None => Ok(finished),
            Some(number) => Err(Lost {
                number,
                histories: finished.histories,
                receipts: room.receipts,
            }),
        }
    }

    /// The histories of the runs that [`finish`](Board::finish) gives.
    ///
    /// # Errors
    ///
    /// `Lost`, as of `finish`.
    pub fn close(self, seats: Vec<Seat<M, L>>) -> Result<Histories, Lost>
        requires all { length seats.items ≡ M.workers }
        requires parts { L.parts ≡ M.workers }
        ensures closed { IfOk result (IsClosed M.bundle (receipts_of seats.items)) }
        ensures lost { IfErr result (IsLost M.bundle (receipts_of seats.items)) }
    {
        Ok(self.finish(seats)?.histories)
    }
}
