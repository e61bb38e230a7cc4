//! What happens to a run, and what each event does to it.

use crate::phase::Phase;

/// What one measurement of a metric was found to be.
#[derive(Clone, Copy)]
pub enum Mark {
    Successful,
    Failed,
    Inconclusive,
    Error,
}

/// What happens to a run.
#[derive(Clone, Copy)]
pub enum Event {
    /// A mark of the metric with this number, counted from 0.
    Mark(usize, Mark),
    /// The run is stopped from outside, and is Successful if it isn't closed yet.
    Stop,
}

/// What an event did to its run.
#[derive(Clone, Copy, Debug)]
pub enum Effect {
    /// It counts, and the run continues.
    Applied,
    /// It closed the run, with this phase.
    Closed(Phase),
    /// Its metric was complete or its run was closed: it changes nothing.
    Late,
}
