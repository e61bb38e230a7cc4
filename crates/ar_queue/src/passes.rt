//! What passes do: the feeder puts, splits off and joins, workers take.

ghost use Rattle.std.specs.Prelude.{◌≡◌, ◌<◌, IfOk, length};
ghost use Rattle.crossbeam_queue.specs.Passes.{IsPassOf, ruled_capacity, view};
ghost use Rattle.ar_queue.specs.Rule.{CanPut, CanTake, HasTakenAll, IsDone, IsOfBundle, after_put, after_take, feeder, after_join, split_off, worker};

use crate::queue::{Item, Joins, Puts, Queue, SplitsOff, TakenAll, Takes, View};
use crate::waiting::Waiting;
use ar_bundle::BundleName;
use crossbeam_queue::Pass;
use std::alloc::{AllocError, Global};
use std::sync::Wait;
use std::thread;

/// How many slots a queue has.
pub const PLACES: usize = 64;

/// A queue of [`PLACES`] slots, with the pass that feeds it.
///
/// # Errors
///
/// Out of memory alone.
pub fn open<M: BundleName>(alloc: Global) -> Result<(Queue<M>, Pass<Item, View>), AllocError>
    ensures places { IfOk result (λ made. ruled_capacity made.0 ≡ PLACES) }
    ensures pass { IfOk result (λ made. IsPassOf made.0 made.1) }
    ensures feeder { IfOk result (λ made. view made.1 ≡ feeder) }
{
    Queue::<M>::ruled(alloc, PLACES)
}

/// Puts an item at the queue's end, once there is a free slot.
pub fn put<M: BundleName, R: Wait>(
    rt: &R,
    queue: &Queue<M>,
    pass: &mut Pass<Item, View>,
    item: Item,
)
    requires pass { IsPassOf queue.now pass.old }
    requires can { CanPut (length M.bundle.entries) (view pass.old) item }
    ensures pass { IsPassOf queue.now pass.new }
    ensures put { view pass.new ≡ after_put (view pass.old) item }
{
    let mut waiting = Waiting::new();
    for _ in rt.forever() {
        match queue.try_push_as::<Puts>(pass, item) {
            Ok(()) => return,
            Err(_) => waiting.turn(rt),
        }
    }
    unreachable!()
}

/// Takes the queue's first item, once there is one.
pub fn take<M: BundleName, R: Wait>(rt: &R, queue: &Queue<M>, pass: &mut Pass<Item, View>) -> Item
    requires pass { IsPassOf queue.now pass.old }
    requires can { CanTake (view pass.old) }
    ensures pass { IsPassOf queue.now pass.new }
    ensures taken { view pass.new ≡ after_take (view pass.old) result }
    ensures inside { IsOfBundle (length M.bundle.entries) result }
{
    for _ in rt.forever() {
        match queue.try_pop_as::<Takes<M>>(pass) {
            Some(item) => return item,
            None => thread::yield_now(),
        }
    }
    unreachable!()
}

/// Splits a pass for a worker off the feeder's.
pub fn split<M: BundleName>(queue: &Queue<M>, pass: &mut Pass<Item, View>) -> Pass<Item, View>
    requires pass { IsPassOf queue.now pass.old }
    requires feeds { (view pass.old).feeds ≡ 1 }
    ensures pass { IsPassOf queue.now pass.new }
    ensures own { IsPassOf queue.now result }
    ensures left { view pass.new ≡ split_off (view pass.old) }
    ensures right { view result ≡ worker }
{
    queue.another::<SplitsOff>(pass)
}

/// Joins a worker's pass into the feeder's.
pub fn join<M: BundleName>(queue: &Queue<M>, pass: &mut Pass<Item, View>, other: Pass<Item, View>)
    requires pass { IsPassOf queue.now pass.old }
    requires feeds { ((view pass.old).feeds ≡ 1) × ((view pass.old).live ≡ 1) }
    requires other { IsPassOf queue.now other }
    requires worker { ((view other).feeds ≡ 0) × ((view other).live ≡ 1) }
    ensures pass { IsPassOf queue.now pass.new }
    ensures joined { view pass.new ≡ after_join (view pass.old) (view other) }
{
    queue.absorb::<Joins>(pass, other);
}

/// Once all passes are joined and an end mark was met, each number was taken just once.
pub fn learn<M: BundleName>(queue: &Queue<M>, pass: &mut Pass<Item, View>)
    requires pass { IsPassOf queue.now pass.old }
    requires done { IsDone (view pass.old) }
    ensures pass { IsPassOf queue.now pass.new }
    ensures same { view pass.new ≡ view pass.old }
    ensures all { HasTakenAll (length M.bundle.entries) (view pass.new) }
{
    queue.learn_as::<TakenAll<M>>(pass);
}
