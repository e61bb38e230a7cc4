//! What each event of a run changed, why it closed the run or came late, and what the run and its metrics wait for.
//!
//! [`traced`] follows a run's history: for each event that is asked for ([`Chosen`]), its metric before and after it,
//! and which events before it had closed the run and completed the metric (`specs/Steps`). [`why_of`] finds in that why
//! the event closed the run, with the count that exceeded its limit ([`Excess`]), or what had made it late
//! (`specs/Why`, `specs/Excess`). [`waits_for`] says how far a metric is that isn't complete ([`Progress`]), and
//! [`settled_by`] that one is Successful because its run closed ([`Settled`]; `specs/Waiting`, `specs/Settled`).
//!
//! All of this is small values, from which objects are made. Here are their words ([`push_why`], [`push_counts`],
//! [`push_waiting`], [`run_waits_for`], [`push_settled`]).
//!
//! What is proved, for all inputs: each call returns what these define. Only a refused allocation can keep it from
//! that. Reasons are true of their history (`specs/Laws`): after an event that closes its run by a limit the count
//! exceeds that for the first time, and an event that is late comes after the one that closed the run or completed the
//! metric.
//!
//! - [`chosen`]: which events are asked for; [`steps`]: what each did to its metric; [`why`]: what closed a run, or
//!   made an event late; [`excess`]: counts that exceed their limits
//! - `counts`: counts next to their limits; [`waiting`]: what a metric and a run wait for; [`settled`]: what a close
//!   settled
//! - [`laws`]: that changes and reasons are true, and which metrics a close settles
#![tactic(auto)]

pub mod chosen;
mod counts;
pub mod excess;
pub mod laws;
pub mod settled;
pub mod steps;
pub mod waiting;
pub mod why;

pub use chosen::Chosen;
pub use counts::push_counts;
pub use excess::{Excess, LimitName};
pub use settled::{Settled, push_settled, settled_by};
pub use steps::{Change, MetricState, Step, Trace, is_chosen_run, traced};
pub use waiting::{Progress, progress_of, push_waiting, run_waits_for, waits_for};
pub use why::{Why, push_why, why_of};
