//! What a worker keeps of its posts.

/// What a worker keeps of a post that succeeded.
#[derive(Clone, Copy, Debug)]
pub struct Receipt {
    /// The run that the number is of, counted from 0.
    pub run: usize,
    pub number: u64,
    /// The position of the number's entry in the run's history, counted from 0.
    pub place: usize,
}
