//! What a judge is given.

use ar_json::value_reading::ShapeFault;
use ar_value::value::Value;

/// What a metric's provider gave. Contracts see it by `sample_view` of `specs/Verdict`.
#[derive(Drop)]
pub enum Sample {
    /// It failed, and measured nothing.
    Provider,
    /// What it gave doesn't fit the declared shape, and why.
    Misfit(ShapeFault),
    /// A value of the declared shape.
    Measured(Value),
}
