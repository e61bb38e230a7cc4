//! Workers that post to a board.

ghost use Rattle.std.specs.Prelude.{◌≡◌, ◌+◌, ℕ, [], IfOk, length};
ghost use Rattle.std.specs.List.{AllByRecursion};
ghost use Rattle.ar_bundle.specs.Lawful.{times_in};
ghost use Rattle.ar_board.specs.Board.{receipts_of};
ghost use Rattle.ar_queue.specs.Workers.{all_named};
ghost use Rattle.ar_workers.specs.Joined.{named, named_by};

use ar_board::{Board, Double, LockNames, Seat};
use ar_bundle::{Bundle, BundleName};
use ar_queue::{Desk, Unfinished};
use std::alloc::{AllocError, Global};
use std::sync::Wait;

/// The desk of a worker that posts what it judged to a board. Numbers whose post is a double are kept.
#[derive(Drop)]
pub(crate) struct Posting<'s, 'b, M: BundleName, L: LockNames> {
    board: &'s Board<'b, M, L>,
    seat: Seat<M, L>,
    doubles: Vec<u64>,
}

impl<'s, 'b, M: BundleName, L: LockNames> Desk<M> for Posting<'s, 'b, M, L> {
    ghost use Rattle.ar_workers.specs.Joined.{named};

    ghost numbers = { λ desk. named desk.seat.receipts desk.doubles.items };

    fn worker(&self) -> usize {
        self.seat.worker()
    }

    #[tactic(auto, using(crate::proofs::Named::named_by_receipt, crate::proofs::Named::named_by_double))]
    fn settle<R: Wait>(
        &mut self,
        rt: &R,
        alloc: Global,
        bundle: &Bundle,
        number: u64,
    ) -> Result<(), AllocError> {
        let finding = bundle.finding(alloc, number)?;
        match self.board.post(rt, &mut self.seat, number, finding) {
            Ok(_) => Ok(()),
            Err(Double) => {
                self.doubles.push(number)?;
                Ok(())
            }
        }
    }
}

/// A desk for each seat.
pub(crate) fn desks_of<'s, 'b, M: BundleName, L: LockNames>(
    alloc: Global,
    board: &'s Board<'b, M, L>,
    seats: Vec<Seat<M, L>>,
) -> Result<Vec<Posting<'s, 'b, M, L>>, AllocError>
    requires fresh { AllByRecursion (λ seat. seat.receipts ≡ []) seats.items }
    ensures fresh { IfOk result (λ desks.
        AllByRecursion (λ desk. named desk.seat.receipts desk.doubles.items ≡ []) desks.items) }
    ensures all { IfOk result (λ desks. length desks.items ≡ length seats.items) }
{
    let mut desks = Vec::with_capacity(alloc, seats.len())?;
    for seat in seats {
        desks.push_reserved(Posting {
            board,
            seat,
            doubles: Vec::new(alloc),
        });
    }
    Ok(desks)
}

/// The seats of desks, and all their doubles.
pub(crate) fn seats_and_doubles<M: BundleName, L: LockNames>(
    alloc: Global,
    desks: Vec<Posting<'_, '_, M, L>>,
) -> Result<(Vec<Seat<M, L>>, Vec<u64>), Unfinished>
    ensures named { IfOk result (λ all. (number : ℕ)
        → times_in number (named_by (receipts_of all.0.items)) + times_in number all.1.items
        ≡ times_in number (all_named (λ desk. named desk.seat.receipts desk.doubles.items) desks.entry.items)) }
    ensures seats { IfOk result (λ all. length all.0.items ≡ length desks.entry.items) }
{
    let mut seats = Vec::with_capacity(alloc, desks.len())?;
    let mut doubles = Vec::new(alloc);
    for desk in desks {
        seats.push_reserved(desk.seat);
        doubles.extend_from_slice(desk.doubles.as_slice())?;
    }
    Ok((seats, doubles))
}
