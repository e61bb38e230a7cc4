//! Workers that keep what they judged.

ghost use Rattle.std.specs.Prelude.{◌≡◌, ℕ, [], IfOk, length};
ghost use Rattle.std.specs.List.{AllByRecursion};
ghost use Rattle.std.specs.Coded.{codes};
ghost use Rattle.ar_bundle.specs.contracts.finding.Finding as finding_row;
ghost use Rattle.ar_queue.specs.Workers.{all_named};
ghost use Rattle.ar_workers.specs.Private.Judging.{AreJudged, AreKnown, IsKnown, numbers_judged};

use ar_bundle::{Bundle, BundleName, Finding};
use ar_queue::Desk;
use std::alloc::{AllocError, Global};
use std::marker::PhantomData;
use std::sync::Wait;

/// A number with its finding.
#[derive(Clone, Copy)]
pub(crate) struct Judged {
    number: u64,
    finding: Finding,
}

/// The desk of a worker that keeps what it judged, in the order in which it took the numbers.
#[derive(Drop)]
pub(crate) struct Judging<M: BundleName> {
    worker: usize,
    judged: Vec<Judged>,
    name: PhantomData<M>,
    ghost exact: { AreJudged M.bundle judged.items } by { Prim.hlevel (codes, finding_row.the_row.coded) },
}

impl<M: BundleName> Desk<M> for Judging<M> {
    ghost use Rattle.ar_workers.specs.Private.Judging.{numbers_judged};

    ghost numbers = { λ desk. numbers_judged desk.judged.items };

    fn worker(&self) -> usize {
        self.worker
    }

    #[tactic(auto, using(crate::proofs::Judged::judged_next, crate::proofs::Judged::exact_next))]
    fn settle<R: Wait>(
        &mut self,
        _rt: &R,
        alloc: Global,
        bundle: &Bundle,
        number: u64,
    ) -> Result<(), AllocError> {
        let finding = bundle.finding(alloc, number)?;
        self.judged.push(Judged { number, finding })?;
        Ok(())
    }
}

/// A desk for each of n workers, at which nothing was judged yet.
pub(crate) fn empty_desks<M: BundleName>(
    alloc: Global,
    workers: usize,
) -> Result<Vec<Judging<M>>, AllocError>
    ensures fresh { IfOk result (λ desks. AllByRecursion (λ desk. numbers_judged desk.judged.items ≡ []) desks.items) }
    ensures all { IfOk result (λ desks. length desks.items ≡ workers) }
{
    let mut desks = Vec::with_capacity(alloc, workers)?;
    for worker in 0..workers {
        desks.push_reserved(Judging {
            worker,
            judged: Vec::new(alloc),
            name: PhantomData,
        });
    }
    Ok(desks)
}

/// Puts what was judged at one desk into a table by number.
fn put<M: BundleName>(desk: Judging<M>, table: &mut Vec<Option<Finding>>)
    requires size { length table.old.items ≡ length M.bundle.entries }
    ensures size { length table.new.items ≡ length table.old.items }
    ensures kept { (number : ℕ) → IsKnown M.bundle table.old.items number → IsKnown M.bundle table.new.items number }
    ensures known { AreKnown M.bundle (numbers_judged desk.judged.items) table.new.items }
{
    for one in desk.judged {
        let Judged { number, finding } = one;
        table[number as usize] = Some(finding);
    }
}

/// What was judged at all desks, by number.
pub(crate) fn by_number<M: BundleName>(
    alloc: Global,
    events: u64,
    desks: Vec<Judging<M>>,
) -> Result<Vec<Option<Finding>>, AllocError>
    requires events { events ≡ length M.bundle.entries }
    ensures known { IfOk result (λ table.
        AreKnown M.bundle (all_named (λ desk. numbers_judged desk.judged.items) desks.items) table.items) }
{
    let mut table = vec![in alloc; None; events as usize]?;
    for desk in desks {
        put(desk, &mut table);
    }
    Ok(table)
}
