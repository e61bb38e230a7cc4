//! What a look at a run shows.

ghost use Rattle.std.specs.Prelude.{◌≡◌};
ghost use Rattle.ar_board.specs.declared.cell.snapshot.LookFault.TheVariants.{OutOfMemory};

use ar_limits::Phase;
use std::alloc::AllocError;

/// A run, as its history was at one moment.
#[derive(Debug, Drop)]
pub struct Snapshot {
    pub phase: Phase,
    /// Of each metric.
    pub metrics: Vec<Phase>,
    /// How many entries each worker posted to the run.
    pub posts: Vec<u64>,
}

/// Why a run isn't shown.
#[derive(Clone, Copy, Debug)]
pub enum LookFault {
    /// The run's history has this many entries by the worker, and their numbers and positions aren't
    /// those of the worker's receipts for the run.
    Stale(u64),
    OutOfMemory,
}

impl From<AllocError> for LookFault {
    ghost from_gives = { λ _ fault. fault ≡ OutOfMemory };

    fn from(_error: AllocError) -> LookFault {
        LookFault::OutOfMemory
    }
}
