//! A run's history, and the state of the run after it.

ghost use Rattle.std.specs.Prelude.{◌≡◌, ◌<◌, [], IfOk, length};
ghost use Rattle.std.specs.Vec.{vec_capacity};
ghost use Rattle.ar_limits.specs.Metric.{HasPositiveCounts};
ghost use Rattle.ar_limits.specs.Replay.{IsOfMetricBelow, Replays, most_events};
ghost use Rattle.ar_board.specs.Posting.{HasOneMore};

use ar_bundle::{Entry, Finding};
use ar_limits::{Effect, Event, Limits, RunState};
use std::alloc::{AllocError, Global};

/// The entries of a run, with room for all that the run can have, and its state after them.
#[derive(Drop)]
pub struct RunHistory {
    pub entries: Vec<Entry>,
    pub state: RunState,
}

impl RunHistory {
    /// That of a run to which nothing has happened, with room for `size` entries.
    pub fn open(alloc: Global, limits: &[Limits], size: usize) -> Result<RunHistory, AllocError>
        requires { HasPositiveCounts limits.now }
        ensures empty { IfOk result (λ run. run.entries.items ≡ []) }
        ensures room { IfOk result (λ run. vec_capacity run.entries ≡ size) }
        ensures replays { IfOk result (λ run. Replays limits.now [] run.state) }
    {
        Ok(RunHistory {
            entries: Vec::with_capacity(alloc, size)?,
            state: RunState::new(alloc, limits)?,
        })
    }

    /// A number moves to the end, with its finding and the effect that it has there, which is returned.
    /// There is room for it.
    pub fn append(&mut self, number: u64, finding: Finding, event: Event) -> Effect
        requires room { length self.old.entries.items < vec_capacity self.old.entries }
        requires few { self.old.state.handed < most_events }
        requires metric { IsOfMetricBelow (length self.old.state.limits) event }
        ensures { HasOneMore number finding event self.old self.new result }
    {
        let effect = self.state.apply(event);
        self.entries.push_reserved(Entry {
            number,
            finding,
            effect,
        });
        effect
    }
}
