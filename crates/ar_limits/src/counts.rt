//! Counts of the marks of a metric, by kind.

ghost use Rattle.std.specs.Prelude.{◌≡◌};
ghost use Rattle.ar_limits.specs.declared.run.TheConstants.{MOST_EVENTS};

use crate::event::Mark;

/// The applied marks of one metric, by kind.
#[derive(Clone, Copy, Default)]
pub struct Counts {
    pub successful: u64,
    pub failed: u64,
    pub inconclusive: u64,
    pub error: u64,
    /// The errors at the end, with no other mark after them.
    pub succession: u64,
}

impl Counts {
    ghost use Rattle.ar_limits.specs.Private.Bounds.{AreAtMost};
    ghost use Rattle.ar_limits.specs.Private.Step.{with_mark};

    /// Counts one mark more.
    pub(crate) fn add(&mut self, mark: Mark)
        requires { AreAtMost MOST_EVENTS self.old }
        ensures { self.new ≡ with_mark self.old mark }
    {
        match mark {
            Mark::Successful => self.successful += 1,
            Mark::Failed => self.failed += 1,
            Mark::Inconclusive => self.inconclusive += 1,
            Mark::Error => self.error += 1,
        }
        self.succession = match mark {
            Mark::Error => self.succession + 1,
            _ => 0,
        };
    }
}
