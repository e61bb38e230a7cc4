//! Runs of code on a value.

ghost use Rattle.std.specs.Prelude.{IfOk};
ghost use Rattle.ar_value.specs.View.{value_view};
ghost use Rattle.ar_tested.specs.Run.{EndsAs};

use crate::machine::{act, cost_of};
use crate::outcome::Ended;
use crate::state::{Next, State};
use ar_machine::operand::tables::op_at;
use ar_machine::outcome::Outcome;
use ar_op::code::Code;
use ar_value::value::Value;
use std::alloc::{AllocError, Global};

/// Runs code on a value, for no more than so much fuel.
///
/// # Errors
///
/// Out of memory, which operands, loops and the lists that code makes take.
#[tactic(auto, using(ar_machine::proofs::Reached::reaches_begin))]
pub fn run_tested(alloc: Global, code: &Code, value: &Value, fuel: u64) -> Result<Ended, AllocError>
    ensures { IfOk result (EndsAs code.now (value_view value.now) fuel) }
{
    let mut state = State::new(alloc);
    while let Some(op) = op_at(code, state.index) {
        let cost = cost_of(op, &state.operands);
        if cost > fuel - state.cost {
            return Ok(Ended::Spent);
        }
        state.cost += cost;
        match act(alloc, code, value, op, &mut state)? {
            Next::Proceeds => {}
            Next::Ends(answer) => {
                return Ok(Ended::Done(Outcome {
                    answer,
                    cost: state.cost,
                }));
            }
            Next::Stuck => return Ok(Ended::Stuck(state.index)),
        }
    }
    Ok(Ended::Stuck(state.index))
}
