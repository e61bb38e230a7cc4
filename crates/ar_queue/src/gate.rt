//! Gates, by which a caller sees and may hold what workers do.

/// Called by a worker once for each number that it took, before the number is judged. A worker that was
/// refused memory calls it no more.
pub trait Gate: Sync {
    /// A worker has taken a number, and hasn't judged it. It holds no lock.
    fn pass(&self, worker: usize, number: u64);
}

/// Holds nobody.
pub struct FreeGate;

impl Gate for FreeGate {
    fn pass(&self, _worker: usize, _number: u64) {}
}
