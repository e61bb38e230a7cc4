//! The verifier's pass 6: what a run may cost at most.

ghost use Rattle.std.specs.Prelude.{◌≡◌, IfOk, length, nat_le};
ghost use Rattle.ar_verify.specs.Private.Costs.{cost_by, cost_by_jump, cost_by_loop, cost_by_next, AreCosts, HasPassed, IsCost, LeadsInside};
ghost use Rattle.ar_safety.specs.Bounds.{greatest_budget};

use ar_op::code::Code;
use ar_op::op::{Jump, Op};
use ar_safety::GREATEST_BUDGET;
use ar_value::operator::BinaryOperator;
use std::alloc::{AllocError, Global};

/// What all costs above the greatest budget count as. Where a part of code is too expensive, so is the
/// code, unless the part is in a loop over no items, which then costs nothing of it. So this changes
/// no budget that is accepted.
const TOO_EXPENSIVE: u64 = GREATEST_BUDGET + 1;

/// Whether code of a budget is accepted.
pub(crate) fn is_payable(budget: u64) -> bool
    ensures { result ≡ nat_le budget greatest_budget }
{
    budget <= GREATEST_BUDGET
}

/// The cost of an operation, over a list of at most `most` items, and of what follows it.
fn cost_by_next(op: Op, most: u64, next: u64) -> u64
    ensures { result ≡ cost_by_next op most next }
{
    let price = match op {
        Op::Binary(BinaryOperator::IsIn) => most.saturating_add(1),
        _ => 1,
    };
    price.saturating_add(next).min(TOO_EXPENSIVE)
}

/// The cost of a jump and of what follows at its target.
fn cost_by_jump(target: u64) -> u64
    ensures { result ≡ cost_by_jump target }
{
    target.saturating_add(1).min(TOO_EXPENSIVE)
}

/// The cost of a loop over at most `most` items, of a body of such a cost, and of what follows it.
fn cost_by_loop(most: u64, body: u64, later: u64) -> u64
    ensures { result ≡ cost_by_loop most body later }
{
    most.saturating_mul(body)
        .saturating_add(later)
        .saturating_add(1)
        .min(TOO_EXPENSIVE)
}

/// The cost of the most expensive way from `index`, by those of the indexes after it.
fn cost_by(costs: &[u64], index: usize, most: u64, op: Op) -> u64
    requires { LeadsInside (length costs.now) index op }
    ensures { result ≡ cost_by costs.now index most op }
{
    match op {
        Op::Jump(Jump::Always, target) => cost_by_jump(costs[target as usize]),
        Op::Jump(_, target) => {
            let continues = cost_by_next(op, most, costs[index + 1]);
            let jumps = cost_by_jump(costs[target as usize]);
            continues.max(jumps)
        }
        Op::Enter(_, step) => cost_by_loop(most, costs[index + 1], costs[step as usize + 1]),
        Op::Step(..) | Op::Return => 1,
        _ => cost_by_next(op, most, costs[index + 1]),
    }
}

/// The cost of the most expensive way from each index. Ways lead on to later indexes alone, so the
/// costs are found from the code's end.
fn costs(alloc: Global, code: &Code, most: &[usize]) -> Result<Vec<u64>, AllocError>
    requires passed { HasPassed code.now }
    requires counted { length most.now ≡ length code.now.ops }
    ensures counted { IfOk result (λ costs. length costs.items ≡ length code.now.ops) }
    ensures costs { IfOk result (λ costs. AreCosts code.now most.now 0 costs.items) }
{
    let ops = code.ops();
    let mut costs = vec![in alloc; 0; ops.len()]?;
    for index in (0..ops.len()).rev() {
        costs[index] = cost_by(&costs, index, most[index] as u64, ops[index]);
    }
    Ok(costs)
}

/// What a run may cost at most, or [`TOO_EXPENSIVE`], where for each index it is known how many items the
/// list on top may have that arrives there.
pub(crate) fn budget(alloc: Global, code: &Code, most: &[usize]) -> Result<u64, AllocError>
    requires passed { HasPassed code.now }
    requires counted { length most.now ≡ length code.now.ops }
    ensures { IfOk result (IsCost code.now most.now 0) }
{
    let costs = costs(alloc, code, most)?;
    Ok(costs[0])
}
