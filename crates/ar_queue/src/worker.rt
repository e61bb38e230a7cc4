//! What one worker does.

ghost use Rattle.std.specs.Prelude.{◌≡◌, []};
ghost use Rattle.crossbeam_queue.specs.Passes.{IsPassOf, view};
ghost use Rattle.ar_queue.specs.Workers.{AreNamed, at_end, working};

use crate::desk::Desk;
use crate::gate::Gate;
use crate::passes::take;
use crate::queue::{Item, Queue, View};
use ar_bundle::{Bundle, BundleName};
use crossbeam_queue::Pass;
use std::alloc::{AllocError, Global};
use std::marker::{Brand, PhantomData};
use std::sync::Wait;

/// Names the queue that passes are of.
pub trait QueueName {
    ghost use Rattle.atomic_table.specs.Seated.{TableId};

    ghost table: { TableId };
}

impl QueueName for Brand {
    ghost use Rattle.ar_queue.specs.Workers.{no_queue};

    ghost table = { no_queue };
}

/// A pass of the queue that is named, which has met an end mark.
#[derive(Drop)]
pub(crate) struct Ended<T: QueueName> {
    pub(crate) pass: Pass<Item, View>,
    name: PhantomData<T>,
    ghost queue: { (pass.table_id ≡ T.table) × (pass.me.1 ≡ []) },
    ghost met: { view pass ≡ at_end (view pass).taken },
}

/// What a worker brings back: its pass, and its desk, which was given just the numbers that the pass took.
#[derive(Drop)]
pub(crate) struct Completed<M: BundleName, D: Desk<M>, T: QueueName> {
    pub(crate) ended: Ended<T>,
    pub(crate) desk: D,
    name: PhantomData<M>,
    ghost named: { AreNamed (view ended.pass).taken (D.numbers desk) },
}

/// How a worker ends.
#[derive(Drop)]
pub(crate) enum Outcome<M: BundleName, D: Desk<M>, T: QueueName> {
    /// It settled all numbers that it took.
    All(Completed<M, D, T>),
    /// Memory was refused to it: after that it took numbers without judging them.
    OutOfMemory(Ended<T>),
}

/// Takes items up to the end mark.
fn drain<M: BundleName, R: Wait>(rt: &R, queue: &Queue<M>, pass: &mut Pass<Item, View>)
    requires pass { IsPassOf queue.now pass.old }
    requires working { view pass.old ≡ working (view pass.old).taken }
    ensures pass { IsPassOf queue.now pass.new }
    ensures met { view pass.new ≡ at_end (view pass.new).taken }
{
    for _ in rt.forever() {
        if matches!(take(rt, queue, pass), Item::End) {
            return;
        }
    }
    unreachable!()
}

/// Takes numbers and settles each, up to the end mark.
pub(crate) fn work<M: BundleName, D: Desk<M>, T: QueueName, G: Gate, R: Wait>(
    rt: &R,
    alloc: Global,
    bundle: &Bundle,
    queue: &Queue<M>,
    mut desk: D,
    mut pass: Pass<Item, View>,
    gate: &G,
) -> Outcome<M, D, T>
    requires bundle { bundle.now ≡ M.bundle }
    requires queue { queue.now.table.shared.table_id ≡ T.table }
    requires pass { IsPassOf queue.now pass }
    requires working { view pass ≡ working [] }
    requires fresh { D.numbers desk ≡ [] }
{
    for _ in rt.forever() {
        match take(rt, queue, &mut pass) {
            Item::End => {
                let ended = Ended {
                    pass,
                    name: PhantomData,
                };
                return Outcome::All(Completed {
                    ended,
                    desk,
                    name: PhantomData,
                });
            }
            Item::Number(number) => {
                gate.pass(desk.worker(), number);
                match desk.settle(rt, alloc, bundle, number) {
                    Ok(()) => {}
                    Err(AllocError) => {
                        drain(rt, queue, &mut pass);
                        return Outcome::OutOfMemory(Ended {
                            pass,
                            name: PhantomData,
                        });
                    }
                }
            }
        }
    }
    unreachable!()
}
