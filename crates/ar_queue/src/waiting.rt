//! How the feeder waits for a free slot.

use crossbeam_utils::Backoff;
use std::sync::Wait;
use std::sync::atomic::AtomicU64;
use std::time::Duration;

/// How often it spins or yields before it sleeps: for a time in which workers take many cheap measurements.
const PATIENCE: u32 = 100;

/// How long it sleeps at once, in nanoseconds.
const SLEEP_NANOS: u32 = 50_000;

/// The feeder's waiting for workers: it spins at first, then yields, then sleeps, so that it doesn't hold
/// a processor that a worker needs. Workers that find the queue empty don't sleep: the next number comes
/// sooner than they would wake.
#[derive(Drop)]
pub(crate) struct Waiting {
    backoff: Backoff,
    turns: u32,
    /// No thread changes it, so that waiting for a change of it is a sleep. `thread::sleep` requires a clock.
    unchanged: AtomicU64,
}

impl Waiting {
    pub(crate) fn new() -> Waiting {
        Waiting {
            backoff: Backoff::new(),
            turns: 0,
            unchanged: AtomicU64::new(0),
        }
    }

    /// One round of it.
    pub(crate) fn turn<R: Wait>(&mut self, rt: &R) {
        if self.turns < PATIENCE {
            self.turns += 1;
            self.backoff.snooze();
        } else {
            self.unchanged
                .park_timeout(rt, 0, Duration::new(0, SLEEP_NANOS));
        }
    }
}
