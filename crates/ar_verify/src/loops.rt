//! Whether loops are nested, at most four deep, and jumps and Returns stay inside their loop.
//!
//! An index and one further on are in the same loops exactly if as many loops are around both and the
//! innermost loop of the first reaches up to the second. So the pass need not examine, for a jump, what
//! is between, and it is linear in the code.

ghost use Rattle.std.specs.Prelude.{◌≡◌, ◌<◌, length, IfOk, Ok};
ghost use Rattle.ar_value.specs.Answer.{Gives};
ghost use Rattle.ar_safety.specs.Memory.{is_memory};
ghost use Rattle.ar_safety.specs.Indices.{all_pass, names_well, nests_well};
ghost use Rattle.ar_verify.specs.Private.Depths.{depth_after, depths, is_inside, last_of, nests_by, open_after, stays_by, JumpsInside};

use crate::indices::unless;
use ar_op::op::Op;
use ar_safety::{Cause, Reason};
use ar_value::limits::MOST_LOOPS;
use std::alloc::{AllocError, Global};

/// How many loops are around the index after an operation.
fn depth_after(op: Op, depth: usize) -> usize
    requires { depth < usize.MAX }
    ensures { result ≡ depth_after op depth }
{
    match op {
        Op::Enter(..) => depth + 1,
        Op::Step(..) => depth.saturating_sub(1),
        _ => depth,
    }
}

/// How many loops are around each operation.
fn depths(alloc: Global, ops: &[Op]) -> Result<Vec<usize>, AllocError>
    ensures { IfOk result (λ around. around.items ≡ depths 0 ops.now) }
{
    let mut around = Vec::with_capacity(alloc, ops.len())?;
    let mut depth = 0;
    for op in ops {
        around.push(depth)?;
        depth = depth_after(*op, depth);
    }
    Ok(around)
}

/// The Step of the innermost loop that is open.
fn innermost(steps: &[usize]) -> Option<usize>
    ensures { result ≡ last_of steps.now }
{
    steps.last().copied()
}

/// Whether `index` is inside the innermost loop, by its Step.
fn is_inside(innermost: Option<usize>, index: usize) -> bool
    ensures { result ≡ is_inside innermost index }
{
    match innermost {
        None => true,
        Some(step) => index <= step,
    }
}

/// What is wrong with a jump from `index` to one further on.
fn stays(around: &[usize], innermost: Option<usize>, index: usize, target: usize) -> Option<Reason>
    requires from { index < length around.now }
    requires to { target < length around.now }
    ensures { result ≡ stays_by around.now innermost index target }
{
    let in_same_loops = is_inside(innermost, target) && around[index] == around[target];
    unless(in_same_loops, Reason::CrossesLoop)
}

/// What is wrong with the operation at `index`, by the loops around it.
fn nests_well(around: &[usize], innermost: Option<usize>, index: usize, op: Op) -> Option<Reason>
    requires from { index < length around.now }
    requires to { JumpsInside (length around.now) op }
    ensures { result ≡ nests_by around.now innermost index op }
{
    match op {
        Op::Jump(_, target) => { stays(around, innermost, index, target as usize) }
        Op::Enter(_, step) => {
            let is_shallow = around[index] < MOST_LOOPS;
            let ends_inside = is_inside(innermost, step as usize);
            unless(is_shallow, Reason::LoopsTooDeep).or(unless(ends_inside, Reason::CrossesLoop))
        }
        Op::Return => unless(around[index] == 0, Reason::CrossesLoop),
        _ => None,
    }
}

/// Opens the loop that an operation begins, or closes the one that it ends, in a list of the Steps
/// of the open loops, the innermost of which is the last.
fn open_or_close(steps: &mut Vec<usize>, op: Op) -> Result<(), AllocError>
    ensures { IfOk result (λ _. steps.new.items ≡ open_after op steps.old.items) }
{
    match op {
        Op::Enter(_, step) => steps.push(step as usize)?,
        Op::Step(..) => {
            steps.pop();
        }
        _ => {}
    }
    Ok(())
}

/// Finds the first operation that begins or leaves a loop as it shouldn't.
pub(crate) fn all_nest_well(alloc: Global, ops: &[Op]) -> Result<(), Cause>
    requires { all_pass (names_well ops.now) 0 ops.now ≡ Ok tt }
    ensures { Gives is_memory (λ x. x) result (all_pass (nests_well ops.now) 0 ops.now) }
{
    let around = depths(alloc, ops)?;
    let mut steps = Vec::new(alloc);
    for (index, op) in ops.iter().enumerate() {
        if let Some(reason) = nests_well(&around, innermost(&steps), index, *op) {
            return Err(Cause::Fault { index, reason });
        }
        open_or_close(&mut steps, *op)?;
    }
    Ok(())
}
