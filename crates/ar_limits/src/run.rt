//! A run, as callers see it.

ghost use Rattle.std.specs.Prelude.{◌≡◌, ◌<◌, [], length, slice_get, IfOk};
ghost use Rattle.ar_limits.specs.Metric.{HasPositiveCounts};
ghost use Rattle.ar_limits.specs.Replay.{Replays, ForEachReplay, TakesEvent, IsOfMetricBelow, most_events};
ghost use Rattle.ar_limits.specs.Run.{metric_counts, metric_phases, run_phase};

use crate::counts::Counts;
use crate::event::{Effect, Event};
use crate::limits::Limits;
use crate::phase::Phase;
use crate::progress::Progress;
use std::alloc::{AllocError, Global};
use std::marker::Model;

/// How many events one run takes at most, late ones included.
pub const MOST_EVENTS: u64 = 100_000;

/// The state of a run after the events that it was handed.
#[derive(Drop)]
pub struct RunState {
    progress: Progress,
    /// The events so far, at most `MOST_EVENTS`.
    handed: u32,
}

impl Model for RunState {
    ghost use Rattle.ar_limits.specs.Replay.{Standing};

    ghost Value = { Standing };

    ghost use Rattle.ar_limits.specs.Private.Inside.{standing, IsSound};

    ghost view = { standing };

    ghost invariant = { IsSound };
}

impl RunState {
    /// A run of metrics with these limits, one for each, without events. Each `count` that is there
    /// must be 1 or more, as `Limits::have_positive_counts` reports. Out of memory is the only fault.
    pub fn new(alloc: Global, limits: &[Limits]) -> Result<Self, AllocError>
        requires { HasPositiveCounts limits.now }
        ensures { IfOk result (λ state. Replays limits.now [] state) }
    {
        Ok(RunState {
            progress: Progress::new(alloc, limits)?,
            handed: 0,
        })
    }

    /// Takes one event more, of a metric that is there, and returns what it did. A run takes
    /// `MOST_EVENTS` events at most. No memory is taken, and only the event that closes the run
    /// iterates over its metrics.
    pub fn apply(&mut self, event: Event) -> Effect
        requires room { self.old.handed < most_events }
        requires metric { IsOfMetricBelow (length self.old.limits) event }
        ensures { TakesEvent event result self.old self.new }
    {
        self.handed += 1;
        self.progress.apply(event)
    }

    /// How many metrics the run has.
    pub fn metrics(&self) -> usize
        ensures { result ≡ length self.now.limits }
    {
        self.progress.metrics.len()
    }

    /// The phase of the metric with this number, counted from 0.
    pub fn metric_phase(&self, metric: usize) -> Phase
        requires { metric < length self.now.limits }
        ensures shown { slice_get self.now.phases metric ≡ Some result }
        ensures replayed { ForEachReplay self.now (λ limits events.
            slice_get (metric_phases limits events) metric ≡ Some result) }
    {
        self.progress.metrics[metric].phase
    }

    /// The phase of the run.
    pub fn phase(&self) -> Phase
        ensures shown { result ≡ self.now.phase }
        ensures replayed { ForEachReplay self.now (λ limits events.
            result ≡ run_phase limits events) }
    {
        self.progress.phase
    }

    /// The counts of the metric with this number, over its marks that weren't late.
    pub fn counts(&self, metric: usize) -> Counts
        requires { metric < length self.now.limits }
        ensures shown { slice_get self.now.counts metric ≡ Some result }
        ensures replayed { ForEachReplay self.now (λ limits events.
            slice_get (metric_counts limits events) metric ≡ Some result) }
    {
        self.progress.metrics[metric].counts
    }

    /// How many events the run was handed, late ones included.
    pub fn handed(&self) -> u64
        ensures shown { result ≡ self.now.handed }
        ensures replayed { ForEachReplay self.now (λ limits events.
            result ≡ length events) }
    {
        u64::from(self.handed)
    }
}
