//! What arrives at each index of code: operands are passed on from one index to the next, and none is
//! sent back, so one way through the operations is enough.

ghost use Rattle.std.specs.Prelude.{◌≡◌, ◌+◌, ◌<◌, ◌∷◌, ◌++◌, [], IfOk, OnOk, Ok, Err, length, replicate};
ghost use Rattle.std.specs.List.{AllByRecursion};
ghost use Rattle.ar_value.specs.Answer.{Gives};
ghost use Rattle.ar_value.specs.View.{shape_view};
ghost use Rattle.ar_safety.specs.Arrivals.{operands};
ghost use Rattle.ar_safety.specs.Budget.{most_on_top};
ghost use Rattle.ar_safety.specs.Memory.{is_memory};
ghost use Rattle.ar_safety.specs.Indices.{all_pass, names_well};
ghost use Rattle.ar_verify.specs.Private.Failures.{Meets};
ghost use Rattle.ar_verify.specs.Private.Held.{arrival_view, operands_view};
ghost use Rattle.ar_verify.specs.Private.Sending.{sends_view, sent_view};
ghost use Rattle.ar_verify.specs.Private.Stacks.{from_top};
ghost use Rattle.ar_verify.specs.Private.Table.{ComesTo, StaysWithin, added, entry, index_added, one_more, pass_view, summary_view, summed_up, table_view, with_all, with_one, without};
ghost use Rattle.ar_safety.specs.declared.error.Reason.TheVariants.{Unreachable};

use crate::failure::Failure;
use crate::kind::{Kind, as_list};
use crate::operands::{Operands, join};
use crate::sending::{Sends, Sent, send_on};
use crate::whole::{ShapeName, Whole};
use ar_op::code::Code;
use ar_op::op::Op;
use ar_safety::{Cause, Reason};
use ar_value::holding::try_push;
use ar_value::shared_shape::SharedShape;
use std::alloc::{AllocError, Global};
use std::marker::Brand;
use std::mem;

/// What is known of the operands of code.
#[derive(Drop)]
pub(crate) struct Arrivals {
    /// The greatest number of operands on the way anywhere.
    pub depth: usize,
    /// How many items the list on top may have at each index, and 0 where no list is on top.
    pub most_items: Vec<usize>,
}

/// The way through the operations.
#[derive(Drop)]
struct Pass<M: ShapeName> {
    /// What arrived so far at each index further on, or why nothing can be performed there.
    arrived: Vec<Result<Operands<M>, Reason>>,
    found: Arrivals,
}

/// How many items the list on top may have.
fn most_on_top<M: ShapeName>(kinds: &[Kind<M>]) -> usize
    ensures { result ≡ most_on_top (from_top kinds.now) }
{
    let Some(kind) = kinds.last() else {
        return 0;
    };
    match as_list(kind) {
        Some(list) => list.longest(),
        None => 0,
    }
}

/// A table of the indexes of n operations, and of one after them. A run begins at the first.
fn table<M: ShapeName>(
    alloc: Global,
    count: usize,
) -> Result<Vec<Result<Operands<M>, Reason>>, AllocError>
    ensures { IfOk result
        (λ arrived. table_view arrived.items ≡ Ok (operands [] []) ∷ replicate count (Err Unreachable)) }
{
    let mut arrived = Vec::new(alloc);
    try_push(&mut arrived, Ok(Operands::none(alloc)))?;
    for _index in 0..count {
        try_push(&mut arrived, Err(Reason::Unreachable))?;
    }
    Ok(arrived)
}

/// Takes what arrived at `index`.
fn take<M: ShapeName>(
    arrived: &mut [Result<Operands<M>, Reason>],
    index: usize,
) -> Result<Operands<M>, Reason>
    requires { index < length arrived.old }
    ensures taken { arrival_view result ≡ entry (table_view arrived.old) index }
    ensures left { table_view arrived.new ≡ without (table_view arrived.old) index }
{
    mem::replace(&mut arrived[index], Err(Reason::Unreachable))
}

/// What arrived somewhere, and one more after it.
fn one_more<M: ShapeName>(
    alloc: Global,
    arrived: Result<Operands<M>, Reason>,
    next: Operands<M>,
) -> Result<Result<Operands<M>, Reason>, AllocError>
    ensures { IfOk result
        (λ joined. arrival_view joined ≡ one_more (arrival_view arrived) (operands_view next)) }
{
    match arrived {
        Ok(so_far) => join(alloc, so_far, &next),
        Err(Reason::Unreachable) => Ok(Ok(next)),
        Err(reason) => Ok(Err(reason)),
    }
}

/// Adds operands to what arrived at their target.
fn send<M: ShapeName>(
    alloc: Global,
    arrived: &mut [Result<Operands<M>, Reason>],
    sent: Sent<M>,
) -> Result<(), AllocError>
    requires { sent.target < length arrived.old }
    ensures { OnOk result (table_view arrived.new ≡ with_one (table_view arrived.old) (sent_view sent)) }
{
    let Sent { target, operands } = sent;
    let so_far = take(arrived, target);
    arrived[target] = one_more(alloc, so_far, operands)?;
    Ok(())
}

/// Adds all that an operation sends on.
fn send_all<M: ShapeName>(
    alloc: Global,
    arrived: &mut [Result<Operands<M>, Reason>],
    sends: Sends<M>,
) -> Result<(), AllocError>
    requires { AllByRecursion (λ one. one.target < length arrived.old) (sends_view sends) }
    ensures { OnOk result (table_view arrived.new ≡ with_all (table_view arrived.old) (sends_view sends)) }
{
    match sends {
        Sends::Nothing => Ok(()),
        Sends::One(only) => send(alloc, arrived, only),
        Sends::Two(first, second) => {
            send(alloc, arrived, first)?;
            send(alloc, arrived, second)
        }
    }
}

impl Arrivals {
    /// Notes how many items the list on top may have at the next index.
    fn note_items(&mut self, most: usize) -> Result<(), AllocError>
        ensures depth { self.new.depth ≡ self.old.depth }
        ensures items { OnOk result (self.new.most_items.items ≡ self.old.most_items.items ++ most ∷ []) }
    {
        try_push(&mut self.most_items, most)
    }
}

impl<M: ShapeName> Pass<M> {
    /// The pass at the first of `count` operations.
    fn begin(alloc: Global, count: usize) -> Result<Pass<M>, AllocError>
        ensures table { IfOk result
            (λ pass. table_view pass.arrived.items ≡ Ok (operands [] []) ∷ replicate count (Err Unreachable)) }
        ensures depth { IfOk result (λ pass. pass.found.depth ≡ 0) }
        ensures items { IfOk result (λ pass. pass.found.most_items.items ≡ []) }
    {
        let most_items = Vec::with_capacity(alloc, count)?;
        Ok(Pass {
            arrived: table(alloc, count)?,
            found: Arrivals {
                depth: 0,
                most_items,
            },
        })
    }

    /// Adds what an operation sends on, of operands that arrived, where the next index has a number.
    fn add(
        &mut self,
        alloc: Global,
        code: &Code,
        measured: &Whole<M>,
        next: usize,
        op: Op,
        had: Operands<M>,
    ) -> Result<(), Failure>
        requires inside { next < length self.old.arrived.items }
        requires targets { StaysWithin (length self.old.arrived.items) op }
        ensures { Meets (λ _. pass_view self.new) result
            (added code.now (shape_view M.shape) next op (pass_view self.old) (operands_view had)) }
    {
        let sends = send_on(alloc, code, measured, next, op, had)?;
        self.found.depth = self.found.depth.max(sends.deepest());
        Ok(send_all(alloc, &mut self.arrived, sends)?)
    }

    /// Visits the operation at `index`, which the pass has reached.
    fn look_at(
        &mut self,
        alloc: Global,
        code: &Code,
        measured: &Whole<M>,
        index: usize,
        op: Op,
    ) -> Result<(), Failure>
        requires inside { index + 1 < length self.old.arrived.items }
        requires targets { StaysWithin (length self.old.arrived.items) op }
        ensures { Meets (λ _. pass_view self.new) result
            (index_added code.now (shape_view M.shape) index op (pass_view self.old)) }
    {
        let had = take(&mut self.arrived, index)?;
        self.found.note_items(most_on_top(&had.kinds))?;
        self.add(alloc, code, measured, index + 1, op, had)
    }
}

/// Finds the first operation that can't be given what arrives at its index, or what is known of
/// the operands where there is none. The measured value's shape has a name.
fn find_named<M: ShapeName>(
    alloc: Global,
    code: &Code,
    shape: &SharedShape,
) -> Result<Arrivals, Cause>
    requires shape { shape.now ≡ M.shape }
    requires indices { all_pass (names_well code.now.ops) 0 code.now.ops ≡ Ok tt }
    ensures { Gives is_memory summary_view result (summed_up code.now (shape_view M.shape)) }
{
    let ops = code.ops();
    let measured: Whole<M> = Whole::new(alloc, shape)?;
    let mut pass = Pass::begin(alloc, ops.len())?;
    for (index, op) in ops.iter().enumerate() {
        if let Err(failure) = pass.look_at(alloc, code, &measured, index, *op) {
            return Err(failure.at(index));
        }
    }
    Ok(pass.found)
}

/// Does the same for a shape of the measured value.
pub(crate) fn find_arrivals(
    alloc: Global,
    code: &Code,
    shape: &SharedShape,
) -> Result<Arrivals, Cause>
    requires { all_pass (names_well code.now.ops) 0 code.now.ops ≡ Ok tt }
    ensures { Gives is_memory summary_view result (summed_up code.now (shape_view shape.now)) }
{
    find_named::<Brand>(alloc, code, shape)
}
