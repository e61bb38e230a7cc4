//! Which worker of a board one is, and the receipts of its posts.

ghost use Rattle.std.specs.Prelude.{◌≡◌, ◌<◌, ◌≤◌, [], IfOk, length};
ghost use Rattle.std.specs.Vec.{vec_capacity};
ghost use Rattle.ar_board.specs.Board.{AreSeated, seat_of};
ghost use Rattle.ar_board.specs.Private.Closing.{AreGiven, lists_of};
ghost use Rattle.ar_board.specs.Seats.{held_with, nothing};

use crate::Receipt;
use crate::locks::LockNames;
use crate::shares::Shares;
use ar_bundle::{Bundle, BundleName};
use std::alloc::{AllocError, Global};
use std::marker::{Model, PhantomData};

/// A seat for each of n workers, with one part of each lock's ledger each.
#[tactic(auto, using(crate::proofs::Seats::none_seated, crate::proofs::Seats::seated_next))]
pub(crate) fn seats_of<M: BundleName, L: LockNames>(
    alloc: Global,
    bundle: &Bundle,
    workers: usize,
    mut all: Shares<L>,
) -> Result<Vec<Seat<M, L>>, AllocError>
    requires bundle { bundle.now ≡ M.bundle }
    requires workers { workers ≡ M.workers }
    requires all { all ≡ held_with workers nothing }
    ensures { IfOk result (λ seats. AreSeated workers seats.items) }
{
    let mut seats = Vec::with_capacity(alloc, workers)?;
    for worker in 0..workers {
        let shares = all.split_off();
        seats.push_reserved(Seat::new(alloc, bundle, worker, shares)?);
    }
    Ok(seats)
}

/// Puts the receipts of seats into a list that has room for them, and their shares together.
#[tactic(auto, using(crate::proofs::Seats::none_given, crate::proofs::Seats::given_next))]
pub(crate) fn gather<M: BundleName, L: LockNames>(
    mut seats: Vec<Seat<M, L>>,
    receipts: &mut Vec<Vec<Receipt>>,
) -> Shares<L>
    requires some { 1 ≤ length seats.items }
    requires empty { receipts.old.items ≡ [] }
    requires room { length seats.items ≤ vec_capacity receipts.old }
    ensures { AreGiven M.bundle seats.items (lists_of receipts.new.items) result }
{
    let first = &mut seats[0];
    let mut all = first.shares.empty();
    for seat in seats {
        all.merge(seat.shares);
        receipts.push_reserved(seat.receipts);
    }
    all
}

/// A worker's seat at a board: which of the workers it is for, and the receipts of its posts. Contracts
/// see it as the `Seat` of `specs/Board`. It is its board's by its type parameters: the names of the bundle
/// and of the locks.
#[derive(Drop)]
pub struct Seat<M: BundleName, L: LockNames> {
    pub(crate) worker: usize,
    /// With room for one of each number.
    pub(crate) receipts: Vec<Receipt>,
    pub(crate) shares: Shares<L>,
    name: PhantomData<M>,
}

impl<M: BundleName, L: LockNames> Model for Seat<M, L> {
    ghost use Rattle.std.specs.Vec.{vec_capacity};
    ghost use Rattle.ar_board.specs.Board.{Seat, seat_of};
    ghost use Rattle.ar_board.specs.Seats.{IsSeat};

    ghost Value = { Seat };

    ghost view = { λ s. seat_of s.worker s.receipts.items };

    ghost invariant = { λ s. IsSeat M.bundle M.workers s.worker s.receipts.items (vec_capacity s.receipts) s.shares };
}

impl<M: BundleName, L: LockNames> Seat<M, L> {
    /// That of a worker that has posted nothing, with a part of each lock's ledger.
    pub(crate) fn new(
        alloc: Global,
        bundle: &Bundle,
        worker: usize,
        shares: Shares<L>,
    ) -> Result<Seat<M, L>, AllocError>
        requires bundle { bundle.now ≡ M.bundle }
        requires worker { worker < M.workers }
        requires shares { shares ≡ held_with 1 nothing }
        ensures { IfOk result (λ seat. seat ≡ seat_of worker []) }
    {
        Ok(Seat {
            worker,
            receipts: Vec::with_capacity(alloc, bundle.events() as usize)?,
            shares,
            name: PhantomData,
        })
    }

    /// Which of the workers it is for, counted from 0.
    pub fn worker(&self) -> usize
        ensures own { result ≡ self.now.worker }
        ensures there { result < M.workers }
    {
        self.worker
    }

    /// The receipts of its posts, in the order in which they were given.
    pub fn receipts(&self) -> &[Receipt]
        ensures { result.now ≡ self.now.receipts }
    {
        &self.receipts
    }
}
