//! What a call made of a case, or why it refused it.

use cases_of_values::fault::{CaseFault, Written};
use cases_of_values::output::Output;
use cases_of_values::printing::put_refusal;
use serde_json::Value as Json;
use std::alloc::Global;
use std::fmt::{Debug, Display};

/// What is made of a case, and then gives its answer.
pub(crate) trait Made {
    fn answer_case(&self, alloc: Global, case: &Json, out: &mut Output) -> Written;
}

/// The answer of what was made, or else why nothing was.
pub(crate) fn put_made<T: Made + Drop, E: Debug + Display + Drop>(
    alloc: Global,
    case: &Json,
    out: &mut Output,
    made: Result<T, E>,
) -> Written {
    match made {
        Ok(made) => made.answer_case(alloc, case, out),
        Err(refusal) => {
            put_refusal(alloc, case, out, refusal);
            Ok(())
        }
    }
}

/// What a case takes for granted that can be made; where it can't, memory ran out or the case is refused.
pub(crate) fn granted<T: Drop, E: Debug + Display + Drop>(
    alloc: Global,
    case: &Json,
    made: Result<T, E>,
) -> Result<Box<T>, CaseFault> {
    match made {
        Ok(made) => Ok(Box::new(alloc, made)?),
        Err(refusal) => Err(fault_of(alloc, case, refusal)),
    }
}

/// Why a case has no answer for which something can't be made: what says that memory ran out isn't printed.
fn fault_of<E: Debug + Display + Drop>(alloc: Global, case: &Json, refusal: E) -> CaseFault {
    let mut printed = Output::new(alloc);
    put_refusal(alloc, case, &mut printed, refusal);
    match printed.finish(Ok(())) {
        Ok(_) => CaseFault::Member,
        Err(fault) => fault,
    }
}
