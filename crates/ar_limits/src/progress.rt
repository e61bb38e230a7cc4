//! The metrics and the phase of a run, one event after another.

ghost use Rattle.std.specs.Prelude.{◌≡◌, ◌<◌, false, map, length, IfOk};
ghost use Rattle.ar_limits.specs.Private.Kept.{AreConsistent, AreWithin, Takes};
ghost use Rattle.ar_limits.specs.Metric.{is_complete};
ghost use Rattle.ar_limits.specs.Private.MetricStep.{opening, after_closing};
ghost use Rattle.ar_limits.specs.Replay.{IsOfMetricBelow};
ghost use Rattle.ar_limits.specs.declared.run.TheConstants.{MOST_EVENTS};

use crate::event::{Effect, Event, Mark};
use crate::limits::Limits;
use crate::metric::Metric;
use crate::phase::Phase;
use std::alloc::{AllocError, Global};

/// The metrics of a run, and its phase.
#[derive(Drop)]
pub(crate) struct Progress {
    pub(crate) metrics: Vec<Metric>,
    /// How many of the metrics aren't complete.
    pub(crate) incomplete: usize,
    pub(crate) phase: Phase,
}

/// The metrics of a run without events. All places are reserved first.
fn opening_metrics(alloc: Global, limits: &[Limits]) -> Result<Vec<Metric>, AllocError>
    ensures { IfOk result (λ metrics. metrics.items ≡ map opening limits.now) }
{
    let mut metrics = Vec::with_capacity(alloc, limits.len())?;
    for own in limits {
        metrics.push(Metric::new(*own))?;
    }
    Ok(metrics)
}

impl Progress {
    /// A run without events.
    pub(crate) fn new(alloc: Global, limits: &[Limits]) -> Result<Self, AllocError>
        ensures metrics { IfOk result (λ run. run.metrics.items ≡ map opening limits.now) }
        ensures incomplete { IfOk result (λ run. run.incomplete ≡ length limits.now) }
        ensures phase { IfOk result (λ run. run.phase ≡ Phase.Pending) }
    {
        Ok(Progress {
            metrics: opening_metrics(alloc, limits)?,
            incomplete: limits.len(),
            phase: Phase::Pending,
        })
    }

    /// Closes the run with this phase.
    fn close(&mut self, phase: Phase) -> Effect
        ensures metrics { self.new.metrics.items ≡ map after_closing self.old.metrics.items }
        ensures incomplete { self.new.incomplete ≡ 0 }
        ensures phase { self.new.phase ≡ phase }
        ensures closed { result ≡ Effect.Closed phase }
    {
        for metric in self.metrics.iter_mut() {
            metric.settle();
        }
        self.incomplete = 0;
        self.phase = phase;
        Effect::Closed(phase)
    }

    /// Gives a mark to one of the metrics of a run that isn't closed.
    fn mark(&mut self, number: usize, mark: Mark) -> Effect
        requires metric { number < length self.old.metrics.items }
        requires running { is_complete self.old.phase ≡ false }
        requires consistent { AreConsistent self.old.metrics.items self.old.phase self.old.incomplete }
        requires small { AreWithin MOST_EVENTS self.old.metrics.items }

        ensures { Takes self.old.metrics.items self.old.phase self.old.incomplete
            (Event.Mark number mark) result
            self.new.metrics.items self.new.phase self.new.incomplete }
    {
        let metric = &mut self.metrics[number];
        if metric.phase.is_complete() {
            return Effect::Late;
        }
        metric.add(mark);
        let phase = metric.limits.phase_for_run(metric.phase);
        self.incomplete -= usize::from(phase.is_complete());
        if phase.is_unsuccessful() || self.incomplete == 0 {
            return self.close(phase);
        }
        self.phase = Phase::Running;
        Effect::Applied
    }

    /// Takes one event more.
    pub(crate) fn apply(&mut self, event: Event) -> Effect
        requires metric { IsOfMetricBelow (length self.old.metrics.items) event }
        requires consistent { AreConsistent self.old.metrics.items self.old.phase self.old.incomplete }
        requires small { AreWithin MOST_EVENTS self.old.metrics.items }

        ensures { Takes self.old.metrics.items self.old.phase self.old.incomplete event result
            self.new.metrics.items self.new.phase self.new.incomplete }
    {
        if self.phase.is_complete() {
            return Effect::Late;
        }
        match event {
            Event::Mark(number, mark) => self.mark(number, mark),
            Event::Stop => self.close(Phase::Successful),
        }
    }
}
