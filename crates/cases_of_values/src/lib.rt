//! What the program of the conformance suite needs of each case, and the calls on numbers, texts, shapes and
//! values.
//!
//! A case is a JSON object whose text `call` names a call, with the members that the call takes. [`answer`]
//! gives what the call returns.
//!
//! - [`fault`]: why a case or a line has no answer
//! - [`members`]: the members of a case
//! - [`output`]: the text of an answer, written piece by piece while memory lasts
//! - [`printing`]: texts, numbers, shapes, values and refusals as they are printed
//! - `numbers`, `shapes`: the calls, by their subjects
//!
//! What is proved, of every case: which names are those of calls (`specs/Calls`); what a call on numbers
//! or texts returns, `decimal` and `digits` aside (`specs/Numbers`); what the members of a case are, or
//! that they are refused (`specs/Members`); how texts, numbers, values, shapes, lines and what a condition
//! says are printed (`specs/Printing`); that pieces of an answer come one after another, and none is left
//! out (`specs/Output`); and the exit statuses (`specs/Faults`). What the calls on shapes and values return
//! is only tested, by the suite.
#![tactic(auto)]

ghost use Rattle.std.specs.Prelude.{◌≡◌, IfSome, IsSomeAnd, is_some, string_bytes};
ghost use Rattle.serde_json.specs.View.{view};
ghost use Rattle.ar_value.specs.Answer.{Gives};
ghost use Rattle.cases_of_values.specs.Calls.{is_call};
ghost use Rattle.cases_of_values.specs.Members.{is_case_memory};
ghost use Rattle.cases_of_values.specs.Numbers.{Answers, number_answer};

pub mod fault;
pub mod members;
mod numbers;
pub mod output;
pub mod printing;
mod shapes;

use crate::fault::{CaseFault, Written};
use crate::output::Output;
use serde_json::Value as Json;
use std::alloc::Global;

/// What a call returns on a case. `None` where it is one of another subject, or none at all.
#[tactic(auto, using(crate::proofs::Given::no_number))]
pub fn answer(alloc: Global, call: &str, case: &Json) -> Option<Result<String, CaseFault>>
    ensures known { is_some result ≡ is_call call.now }
    ensures exact { IfSome (number_answer call.now (view case.now))
        (λ answer. IsSomeAnd result (λ given. Gives is_case_memory string_bytes given answer)) }
{
    let mut out = Output::new(alloc);
    let written = put(alloc, call, case, &mut out)?;
    Some(out.finish(written))
}

#[tactic(auto, using(crate::proofs::Given::no_number))]
fn put(alloc: Global, call: &str, case: &Json, out: &mut Output) -> Option<Written>
    ensures known { is_some result ≡ is_call call.now }
    ensures exact { IfSome (number_answer call.now (view case.now)) (λ answer. IsSomeAnd result
        (λ written. Answers written out.old out.new answer)) }
{
    match numbers::put(alloc, call, case, out) {
        Some(written) => Some(written),
        None => shapes::put(alloc, call, case, out),
    }
}
