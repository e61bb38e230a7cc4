//! The limits of a metric, and what counts of marks decide under them.

ghost use Rattle.std.specs.Prelude.{◌≡◌, ◌+◌, ◌↔◌, IsTrue};
ghost use Rattle.ar_limits.specs.declared.run.TheConstants.{MOST_EVENTS};

use crate::counts::Counts;
use crate::phase::Phase;

/// The limits of one metric.
#[derive(Clone, Copy)]
pub struct Limits {
    /// How many measurements may fail: one more, and the metric is Failed.
    pub failure: u32,
    /// How many measurements may be inconclusive: one more, and the metric is Inconclusive.
    pub inconclusive: u32,
    /// How many consecutive errors are allowed: one more, and the metric is Error.
    pub consecutive_error: u32,
    /// How many measurements that aren't errors complete the metric, 1 or more; `None` where it has
    /// no end.
    pub count: Option<u32>,
    /// Whether the metric is judged and counted, and never decides how its run ends.
    pub dry: bool,
}

impl Limits {
    ghost use Rattle.ar_limits.specs.Private.Bounds.{AreAtMost};
    ghost use Rattle.ar_limits.specs.Metric.{decided_by, HasPositiveCounts};
    ghost use Rattle.ar_limits.specs.Run.{phase_for_run};

    /// Whether each `count` that is there is 1 or more, as a run asks of its metrics.
    pub fn have_positive_counts(limits: &[Limits]) -> bool
        ensures { IsTrue result ↔ HasPositiveCounts limits.now }
    {
        limits.iter().all(|l| l.count != Some(0))
    }

    /// What a phase of the metric counts as towards closing its run.
    pub(crate) fn phase_for_run(&self, phase: Phase) -> Phase
        ensures { result ≡ phase_for_run self.now phase }
    {
        if phase.is_complete() && self.dry {
            Phase::Successful
        } else {
            phase
        }
    }

    /// What marks with these counts decide: the limits come first, and then the count.
    pub(crate) fn decide(&self, counts: &Counts) -> Option<Phase>
        requires { AreAtMost (MOST_EVENTS + 1) counts.now }
        ensures { result ≡ decided_by self.now counts.now }
    {
        if counts.failed > u64::from(self.failure) {
            return Some(Phase::Failed);
        }
        if counts.inconclusive > u64::from(self.inconclusive) {
            return Some(Phase::Inconclusive);
        }
        if counts.succession > u64::from(self.consecutive_error) {
            return Some(Phase::Error);
        }
        let counted = counts.successful + counts.failed + counts.inconclusive;
        match self.count {
            Some(count) if counted >= u64::from(count) => Some(Phase::Successful),
            _ => None,
        }
    }
}
