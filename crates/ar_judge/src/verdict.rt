//! What a judge finds.

use ar_json::value_reading::ShapeFault;
use ar_value::fault::Fault;

/// The result of a measurement.
#[derive(Clone, Copy)]
pub enum Verdict {
    Successful,
    Failed,
    /// Both conditions are there, and neither is true.
    Inconclusive,
    /// There is no answer, for this cause.
    Error(Cause),
}

/// Why a measurement has no answer.
#[derive(Clone, Copy)]
pub enum Cause {
    /// The provider failed.
    Provider,
    /// What it gave doesn't fit the declared shape.
    Shape(ShapeFault),
    /// The success condition meets a fault on it.
    Success(Fault),
    /// The failure condition meets a fault on it, and the success condition, if there is one, none.
    Failure(Fault),
}
