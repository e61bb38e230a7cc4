//! The result of a post.

use ar_limits::Effect;

/// A number was posted.
#[derive(Clone, Copy, Debug)]
pub struct Posted {
    /// The position of its entry in its run's history, counted from 0.
    pub place: usize,
    /// What it did to its run.
    pub effect: Effect,
}

/// The number is in its run's history already.
#[derive(Clone, Copy, Debug)]
pub struct Double;
