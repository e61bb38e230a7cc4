//! The verifier's passes 1 to 4: there are operations, they name indexes inside the code and further
//! on, a loop's Enter and Step name each other, loops are nested, and the last operation is
//! Return.

ghost use Rattle.std.specs.Prelude.{◌≡◌, slice_get};
ghost use Rattle.ar_value.specs.Answer.{Gives};
ghost use Rattle.ar_op.specs.Machine.{begins_loop};
ghost use Rattle.ar_value.specs.Predicates.{is_same};
ghost use Rattle.ar_op.specs.declared.op.Op.TheVariants.{Enter, Step};
ghost use Rattle.ar_safety.specs.Memory.{is_memory};
ghost use Rattle.ar_safety.specs.Indices.{all_pass, ends_in_return, ends_loop, forward, has_ops, inside_code, is_return, names_well, indices_pass, unless};

use crate::loops::all_nest_well;
use ar_op::op::Op;
use ar_safety::{Cause, Reason};
use ar_value::operator::Predicate;
use std::alloc::Global;

/// The operation at `index`.
fn op_at(ops: &[Op], index: usize) -> Option<Op>
    ensures { result ≡ slice_get ops.now index }
{
    if index < ops.len() {
        Some(ops[index])
    } else {
        None
    }
}

/// The reason for a fault, where something doesn't hold.
pub(crate) fn unless(holds: bool, reason: Reason) -> Option<Reason>
    ensures { result ≡ unless holds reason }
{
    if holds { None } else { Some(reason) }
}

pub(crate) fn has_ops(ops: &[Op]) -> Result<(), Cause>
    ensures { result ≡ has_ops ops.now }
{
    match ops {
        [] => Err(Cause::Fault {
            index: 0,
            reason: Reason::Empty,
        }),
        [_, ..] => Ok(()),
    }
}

fn inside(ops: &[Op], named: usize) -> Option<Reason>
    ensures { result ≡ inside_code ops.now named }
{
    unless(named < ops.len(), Reason::JumpOutside)
}

fn forward(ops: &[Op], index: usize, named: usize) -> Option<Reason>
    ensures { result ≡ forward ops.now index named }
{
    inside(ops, named).or(unless(index < named, Reason::Backward))
}

fn is_same(predicate: Predicate, other: Predicate) -> bool
    ensures { result ≡ is_same predicate other }
{
    predicate == other
}

/// Whether an operation is the Step of the Enter at `enter`.
fn ends_loop(predicate: Predicate, enter: usize, op: Option<Op>) -> bool
    ensures { result ≡ ends_loop predicate enter op }
{
    match op {
        Some(Op::Step(of, index)) => is_same(predicate, of) && index as usize == enter,
        _ => false,
    }
}

/// Whether an operation is the Enter of the Step at `step`.
fn begins_loop(predicate: Predicate, step: usize, op: Option<Op>) -> bool
    ensures { result ≡ begins_loop predicate step op }
{
    match op {
        Some(Op::Enter(of, index)) => is_same(predicate, of) && index as usize == step,
        _ => false,
    }
}

/// What is wrong with the Step that the Enter at `index` names.
fn names_step(ops: &[Op], index: usize, predicate: Predicate, step: u32) -> Option<Reason>
    ensures { result ≡ names_well ops.now index (Enter predicate step) }
{
    let is_paired = ends_loop(predicate, index, op_at(ops, step as usize));
    forward(ops, index, step as usize).or(unless(is_paired, Reason::UnpairedLoop))
}

/// What is wrong with the Enter that the Step at `index` names.
fn names_enter(ops: &[Op], index: usize, predicate: Predicate, enter: u32) -> Option<Reason>
    ensures { result ≡ names_well ops.now index (Step predicate enter) }
{
    let enter = enter as usize;
    let is_paired = enter < index && begins_loop(predicate, index, op_at(ops, enter));
    inside(ops, enter).or(unless(is_paired, Reason::UnpairedLoop))
}

/// What is wrong with the indexes that the operation at `index` names.
fn names_well(ops: &[Op], index: usize, op: Op) -> Option<Reason>
    ensures { result ≡ names_well ops.now index op }
{
    match op {
        Op::Jump(_, target) => { forward(ops, index, target as usize) }
        Op::Enter(predicate, step) => names_step(ops, index, predicate, step),
        Op::Step(predicate, enter) => names_enter(ops, index, predicate, enter),
        _ => None,
    }
}

/// Finds the first operation that names an index as it shouldn't.
pub(crate) fn all_name_well(ops: &[Op]) -> Result<(), Cause>
    ensures { result ≡ all_pass (names_well ops.now) 0 ops.now }
{
    for (index, op) in ops.iter().enumerate() {
        if let Some(reason) = names_well(ops, index, *op) {
            return Err(Cause::Fault { index, reason });
        }
    }
    Ok(())
}

fn is_return(op: Option<Op>) -> bool
    ensures { result ≡ is_return op }
{
    matches!(op, Some(Op::Return))
}

pub(crate) fn ends_in_return(ops: &[Op]) -> Result<(), Cause>
    ensures { result ≡ ends_in_return ops.now }
{
    let index = ops.len().saturating_sub(1);
    if is_return(op_at(ops, index)) {
        Ok(())
    } else {
        Err(Cause::Fault {
            index,
            reason: Reason::NoReturn,
        })
    }
}

/// The passes 1 to 4, one after the other.
pub(crate) fn check_indices(alloc: Global, ops: &[Op]) -> Result<(), Cause>
    ensures { Gives is_memory (λ x. x) result (indices_pass ops.now) }
{
    has_ops(ops)?;
    all_name_well(ops)?;
    all_nest_well(alloc, ops)?;
    ends_in_return(ops)
}
