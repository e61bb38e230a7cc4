//! A metric of a run, one mark after another.

ghost use Rattle.std.specs.Prelude.{◌≡◌};
ghost use Rattle.ar_limits.specs.declared.run.TheConstants.{MOST_EVENTS};

use crate::counts::Counts;
use crate::event::Mark;
use crate::limits::Limits;
use crate::phase::Phase;

/// A metric of a run: its limits, and what its applied marks have made of it.
#[derive(Clone, Copy)]
pub(crate) struct Metric {
    pub(crate) limits: Limits,
    pub(crate) counts: Counts,
    pub(crate) phase: Phase,
}

impl Metric {
    ghost use Rattle.ar_limits.specs.Private.Bounds.{AreAtMost};
    ghost use Rattle.ar_limits.specs.Private.MetricStep.{opening, with_mark_added, after_closing};

    /// A metric without marks.
    pub(crate) fn new(limits: Limits) -> Self
        ensures { result ≡ opening limits }
    {
        Metric {
            limits,
            counts: Counts::default(),
            phase: Phase::Pending,
        }
    }

    /// Counts one mark more, and decides by the new counts.
    pub(crate) fn add(&mut self, mark: Mark)
        requires { AreAtMost MOST_EVENTS self.old.counts }
        ensures { self.new ≡ with_mark_added self.old mark }
    {
        self.counts.add(mark);
        self.phase = self.limits.decide(&self.counts).unwrap_or(Phase::Running);
    }

    /// Its run is closed: without a phase of its own that stays, it is Successful.
    pub(crate) fn settle(&mut self)
        ensures { self.new ≡ after_closing self.old }
    {
        if !self.phase.is_complete() {
            self.phase = Phase::Successful;
        }
    }
}
