//! The result of a run.

use ar_value::fault::Fault;

/// What a condition says of a value: true or false, or the fault that it meets.
pub type Answer = Result<bool, Fault>;

/// The answer of a run, and what the run cost.
#[derive(Clone, Copy, PartialEq, Eq)]
pub struct Outcome {
    pub answer: Answer,
    pub cost: u64,
}
