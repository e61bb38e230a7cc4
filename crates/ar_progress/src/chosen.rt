//! Which events are asked for.

/// Which events are explained.
#[derive(Clone, Copy, Debug)]
pub enum Chosen {
    All,
    /// The event with this number.
    Event(u64),
    /// Those of the run with this number, counted from 0.
    Run(usize),
    /// Those of the metric with this number, counted from 0, and the stops, in runs with events of the metric.
    Metric(usize),
}
