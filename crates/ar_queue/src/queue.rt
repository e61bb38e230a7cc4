//! The queue, its rule, and the kinds of step that passes make.

ghost use Rattle.std.specs.Prelude.{◌≡◌};

use ar_bundle::BundleName;
use crossbeam_queue::RuledArrayQueue;
use crossbeam_queue::protocol::{Join, Lesson, Outcome, Protocol, Split};
use std::collections::LinkedList;
use std::marker::PhantomData;

/// What is in the queue.
#[derive(Clone, Copy)]
pub enum Item {
    /// A number of the bundle.
    Number(u64),
    /// The end for one worker.
    End,
}

/// What a pass of the queue has done. No value of it is made.
pub struct View {
    /// 1 for the pass that feeds the queue, else 0.
    pub feeds: u64,
    /// 0 for a pass that was joined into the feeder's, else 1.
    pub live: u64,
    /// How many numbers it put.
    pub put: u64,
    /// How many end marks it put.
    pub marks: u64,
    /// How many passes it split off and hasn't joined.
    pub out: u64,
    /// How many end marks it met, with those of the passes that it joined.
    pub ended: u64,
    /// The numbers that it took, with those of the passes that it joined.
    pub taken: LinkedList<u64>,
}

/// The rule of a bundle's queue: `IsQueue` of `specs/Rule`.
pub struct QueueRule<M: BundleName> {
    name: PhantomData<M>,
}

impl<M: BundleName> Protocol<Item, View> for QueueRule<M> {
    ghost use Rattle.std.specs.Prelude.{length};
    ghost use Rattle.ar_queue.specs.Rule.{IsQueue, feeder};

    ghost holds = { IsQueue (length M.bundle.entries) };

    ghost first = { feeder };
}

/// A step that puts an item.
pub struct Puts;

impl Outcome<Item, View> for Puts {
    ghost use Rattle.ar_queue.specs.Rule.{after_put};

    ghost then = { λ view item after. after ≡ after_put view item };
}

/// A step that takes an item.
pub struct Takes<M: BundleName> {
    name: PhantomData<M>,
}

impl<M: BundleName> Outcome<Item, View> for Takes<M> {
    ghost use Rattle.std.specs.Prelude.{length};
    ghost use Rattle.ar_queue.specs.Rule.{IsOfBundle, after_take};

    ghost then = { λ view item after. (after ≡ after_take view item) × IsOfBundle (length M.bundle.entries) item };
}

/// A step that splits a worker's pass off the feeder's.
pub struct SplitsOff;

impl Split<View> for SplitsOff {
    ghost use Rattle.ar_queue.specs.Rule.{split_off, worker};

    ghost left = { split_off };

    ghost right = { λ view. worker };
}

/// A step that joins a worker's pass into the feeder's.
pub struct Joins;

impl Join<View> for Joins {
    ghost use Rattle.ar_queue.specs.Rule.{after_join, spent};

    ghost both = { after_join };

    ghost spent = { spent };
}

/// What the feeder learns once all passes are joined.
pub struct TakenAll<M: BundleName> {
    name: PhantomData<M>,
}

impl<M: BundleName> Lesson<Item, View> for TakenAll<M> {
    ghost use Rattle.std.specs.Prelude.{length};
    ghost use Rattle.ar_queue.specs.Rule.{HasTakenAll};

    ghost fact = { λ view items. HasTakenAll (length M.bundle.entries) view };
}

/// The queue of a bundle's numbers.
pub type Queue<M> = RuledArrayQueue<Item, View, QueueRule<M>>;
