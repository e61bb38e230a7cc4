//! Steps of a board, as `specs/Core` defines them.

/// A step of the core.
#[derive(Clone, Copy)]
pub enum CoreStep {
    /// The next number moves to the queue's end.
    Put,
    /// The queue's first number moves into the empty hand of the worker with this number.
    Take(usize),
    /// The number in the worker's hand moves to the end of its run's history. In an ordered core it is
    /// parked first, and moves there once all lower numbers of the run have.
    Post(usize),
}

/// Whether a step was made.
#[derive(Clone, Copy)]
pub enum Moved {
    /// It was.
    Done,
    /// It can't be made now, or its worker isn't there. Nothing has changed.
    Idle,
}
