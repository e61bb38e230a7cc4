//! The phases of an analysis run, from the marks of its metrics and its stops, in their order.
//!
//! A [`RunState`] takes one [`Event`] after another. Whatever the events were, up to
//! [`MOST_EVENTS`] of them, it shows the phase of the run, the phase and the counts of each
//! metric, and what each event did, just as the definition of that list of events says:
//! `specs/Metric.antt` and `specs/Run.antt`, by prefixes of the list and counts over them.
//! `Replays` of `specs/Replay.antt` ties a state to the lists that lead to it: `new` ensures it
//! for the empty list, `apply` for the list with one event more, and each reader's result holds for any
//! such list. Making a state may fail out of memory. After that nothing takes memory, and
//! every call returns.
//!
//! A dry metric is counted as any other, and decides nothing: `phase_for_run` of `specs/Run.antt` says what
//! its phase counts as.
//!
//! Limits and phases are those of Argo Rollouts: its documentation, page "Analysis & Progressive
//! Delivery", and the AnalysisTemplate spec.
//!
//! | Module | What it has |
//! |---|---|
//! | `event` | [`Mark`], [`Event`], and what an event does: [`Effect`] |
//! | `phase` | [`Phase`], of metrics and runs |
//! | `limits`, `counts` | [`Limits`] of a metric, [`Counts`] of its marks, and what they decide |
//! | `metric` | a metric with its counts and phase |
//! | `progress` | the metrics of a run, one event after another |
//! | `run` | [`RunState`], which callers use |
//! | [`laws`] | what follows from the definitions, each law a contract |
//!
//! In `specs`, `Laws` states the laws, and `Examples` has worked runs. `Private` is what the private
//! contracts speak of: how the code keeps a run, by running counts.
#![tactic(auto)]

mod counts;
mod event;
pub mod laws;
mod limits;
mod metric;
mod phase;
mod progress;
mod run;

pub use counts::Counts;
pub use event::{Effect, Event, Mark};
pub use limits::Limits;
pub use phase::Phase;
pub use run::{MOST_EVENTS, RunState};
