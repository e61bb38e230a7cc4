//! A gate at which workers wait for each other, and documents whose numbers meet there.

use ar_workers::Gate;
use std::hint::spin_loop;
use std::sync::atomic::{AtomicUsize, Ordering};

/// How often a number looks whether the others have come.
const TURNS: u32 = 10_000_000;

/// Two runs, each with one measurement, which holds.
pub(crate) const TWO_RUNS: &str =
    r#"{"manifest":{"apiVersion":"argoproj.io/v1alpha1","kind":"AnalysisTemplate","metadata":{"name":"t"},
    "spec":{"metrics":[{"name":"m","successCondition":"result[0] >= 0.95"}]}},
    "shapes":{"m":{"list":"decimal","max":10}},"runs":[{"name":"r0"},{"name":"r1"}],
    "measurements":[{"run":"r0","metric":"m","value":["0.99"]},{"run":"r1","metric":"m","value":["0.96"]}]}"#;

/// A run that is measured three times and fails at the last.
pub(crate) const FAILING: &str =
    r#"{"manifest":{"apiVersion":"argoproj.io/v1alpha1","kind":"AnalysisTemplate","metadata":{"name":"t"},
    "spec":{"metrics":[{"name":"m","interval":"1m","count":3,"failureLimit":1,
    "successCondition":"result > 0"}]}},
    "shapes":{"m":"whole"},"runs":[{"name":"r0"}],
    "measurements":[{"run":"r0","metric":"m","value":1},{"run":"r0","metric":"m","value":0},
    {"run":"r0","metric":"m","value":0}]}"#;

/// A gate at which the numbers below `waiting` wait until `wanted` numbers have come.
#[derive(Drop)]
pub(crate) struct Meeting {
    waiting: u64,
    wanted: usize,
    came: AtomicUsize,
    met: AtomicUsize,
    /// How often each of the first three workers came.
    workers: [AtomicUsize; 3],
}

impl Meeting {
    pub(crate) fn new(waiting: u64, wanted: usize) -> Meeting {
        Meeting {
            waiting,
            wanted,
            came: AtomicUsize::new(0),
            met: AtomicUsize::new(0),
            workers: [
                AtomicUsize::new(0),
                AtomicUsize::new(0),
                AtomicUsize::new(0),
            ],
        }
    }

    /// Whether each number that waits saw as many come as were wanted.
    pub(crate) fn is_held(&self) -> bool {
        self.met.load(Ordering::SeqCst) as u64 == self.waiting
    }

    /// Whether three workers came, each once.
    pub(crate) fn has_three(&self) -> bool {
        self.workers
            .iter()
            .all(|came| came.load(Ordering::SeqCst) == 1)
    }

    /// Whether as many come as are wanted before the looks are used up.
    fn comes(&self) -> bool {
        for _ in 0..TURNS {
            if self.came.load(Ordering::SeqCst) >= self.wanted {
                return true;
            }
            spin_loop();
        }
        false
    }
}

impl Gate for Meeting {
    fn pass(&self, worker: usize, number: u64) {
        if let Some(came) = self.workers.get(worker) {
            came.fetch_add(1, Ordering::SeqCst);
        }
        self.came.fetch_add(1, Ordering::SeqCst);
        if number < self.waiting && self.comes() {
            self.met.fetch_add(1, Ordering::SeqCst);
        }
    }
}
