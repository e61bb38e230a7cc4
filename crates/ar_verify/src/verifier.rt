//! The verifier's passes, one after the other.

ghost use Rattle.std.specs.Prelude.{◌≡◌, Err, IfErr, IfOk, Ok, if◌then◌else◌, nat_le};
ghost use Rattle.ar_value.specs.View.{shape_view};
ghost use Rattle.ar_op.specs.Code.{IsCode};
ghost use Rattle.ar_safety.specs.Safety.{RunsSafely};
ghost use Rattle.ar_safety.specs.Verdict.{IsCause, IsVerified};
ghost use Rattle.ar_safety.specs.Bounds.{greatest_budget};
ghost use Rattle.ar_safety.specs.declared.error.Cause.TheVariants.{Fault};
ghost use Rattle.ar_safety.specs.declared.error.Reason.TheVariants.{BudgetTooLarge};

use crate::arrivals::find_arrivals;
use crate::budget::{budget, is_payable};
use crate::indices::check_indices;
use ar_op::code::Code;
use ar_safety::{Cause, Reason, Refused, Verified};
use ar_value::shared_shape::SharedShape;
use std::alloc::Global;

/// What a run costs at most, and how many operands it has.
#[derive(Clone, Copy)]
struct Bounds {
    budget: u64,
    depth: usize,
}

/// The bounds of code without another fault, unless its budget is too large. This takes no memory.
fn unless_too_large(budget: u64, depth: usize) -> Result<Bounds, Cause>
    ensures { result ≡ (if nat_le budget greatest_budget then Ok (record { budget = budget; depth = depth })
        else Err (Fault 0 BudgetTooLarge)) }
{
    if is_payable(budget) {
        Ok(Bounds { budget, depth })
    } else {
        Err(Cause::Fault {
            index: 0,
            reason: Reason::BudgetTooLarge,
        })
    }
}

fn check(alloc: Global, code: &Code, shape: &SharedShape) -> Result<Bounds, Cause>
    ensures accepted { IfOk result (λ bounds. IsVerified code.now (shape_view shape.now) bounds.budget bounds.depth) }
    ensures refused { IfErr result (IsCause code.now (shape_view shape.now)) }
    ensures code { IsCode code.now }
{
    check_indices(alloc, code.ops())?;
    let arrivals = find_arrivals(alloc, code, shape)?;
    let budget = budget(alloc, code, &arrivals.most_items)?;
    unless_too_large(budget, arrivals.depth)
}

/// Verifies code for a shape of the measured value, which verified code keeps. It is accepted if it has
/// no fault, and refused for its first one otherwise.
///
/// # Errors
///
/// The code, with its fault or out of memory.
pub fn verify(alloc: Global, code: Code, shape: SharedShape) -> Result<Verified, Refused>
    ensures accepted { IfOk result (λ verified. (verified.code ≡ code) × (verified.shape ≡ shape)
        × IsVerified code (shape_view shape) verified.budget verified.depth) }
    // On each value of the shape it runs to an answer within the budget, is never stuck, and has few
    // operands and open loops.
    ensures safe { IfOk result RunsSafely }
    ensures refused { IfErr result (λ refused. (refused.code ≡ code) × IsCause code (shape_view shape) refused.cause) }
{
    match check(alloc, &code, &shape) {
        Ok(bounds) => Ok(Verified::new(code, shape, bounds.budget, bounds.depth)),
        Err(cause) => Err(Refused { code, cause }),
    }
}
