//! What the calling thread puts into the queue.

ghost use Rattle.std.specs.Prelude.{◌≡◌, length};
ghost use Rattle.crossbeam_queue.specs.Passes.{IsPassOf, view};
ghost use Rattle.ar_queue.specs.Workers.{feeding};

use crate::passes::put;
use crate::queue::{Item, Queue, View};
use ar_bundle::BundleName;
use crossbeam_queue::Pass;
use std::sync::Wait;

/// Puts the numbers of the bundle in their order, then an end mark for each of n workers.
pub(crate) fn feed<M: BundleName, R: Wait>(
    rt: &R,
    queue: &Queue<M>,
    pass: &mut Pass<Item, View>,
    events: u64,
    workers: usize,
)
    requires pass { IsPassOf queue.now pass.old }
    requires fresh { view pass.old ≡ feeding 0 0 (view pass.old).out }
    requires events { events ≡ length M.bundle.entries }
    ensures pass { IsPassOf queue.now pass.new }
    ensures fed { view pass.new ≡ feeding events workers (view pass.old).out }
{
    put_numbers(rt, queue, pass, events);
    put_marks(rt, queue, pass, workers);
}

/// Puts the numbers of the bundle in their order.
#[tactic(auto, using(crate::proofs::Feeding::can_number, crate::proofs::Feeding::next_number))]
fn put_numbers<M: BundleName, R: Wait>(
    rt: &R,
    queue: &Queue<M>,
    pass: &mut Pass<Item, View>,
    events: u64,
)
    requires pass { IsPassOf queue.now pass.old }
    requires fresh { view pass.old ≡ feeding 0 0 (view pass.old).out }
    requires events { events ≡ length M.bundle.entries }
    ensures pass { IsPassOf queue.now pass.new }
    ensures put { view pass.new ≡ feeding events 0 (view pass.old).out }
{
    for number in 0..events {
        put(rt, queue, pass, Item::Number(number));
    }
}

/// Puts n end marks after all numbers.
#[tactic(auto, using(crate::proofs::Feeding::can_mark, crate::proofs::Feeding::next_mark))]
fn put_marks<M: BundleName, R: Wait>(
    rt: &R,
    queue: &Queue<M>,
    pass: &mut Pass<Item, View>,
    marks: usize,
)
    requires pass { IsPassOf queue.now pass.old }
    requires put { view pass.old ≡ feeding (length M.bundle.entries) 0 (view pass.old).out }
    ensures pass { IsPassOf queue.now pass.new }
    ensures marked { view pass.new ≡ feeding (length M.bundle.entries) marks (view pass.old).out }
{
    for _mark in 0..marks {
        put(rt, queue, pass, Item::End);
    }
}
