//! Bundles of analysis runs, the results of their measurements, histories of runs, and the plain run.
//!
//! A [`Bundle`] has a template's metrics, its runs, each with a judge and limits for each metric,
//! and what happened to the runs, numbered from 0. [`Bundle::finding`] is the verdict of a number's
//! sample by its run's judge for its metric, or a stop (`specs/Bundle`). [`Histories`] have for each
//! run the numbers in the order in which they were applied, each with its finding and its effect;
//! `specs/Lawful` says which of them are lawful for a bundle.
//!
//! [`finish_plain`] judges and applies the numbers of a bundle in their order, in one thread, and gives the
//! [`Finished`] runs: lawful histories, in each of which numbers rise, and the states that they lead to
//! (`specs/Finished`). [`run_plain`] gives the histories alone. [`Runs`] are the runs of a bundle to which numbers
//! are applied in their order (`specs/Growing`), here and where workers have judged them.
//!
//! - [`bundle`]: bundles and their parts; [`finding`]: the result of a number
//! - [`history`]: histories of runs; [`laws`]: what holds of those that are lawful; [`finished`]: histories with their
//!   runs' states
//! - `plain`: the plain run; `runs`: applying numbers in their order
//! - [`names`]: types that name a bundle in contracts
#![tactic(auto)]

pub mod bundle;
pub mod finding;
pub mod finished;
pub mod history;
pub mod laws;
pub mod names;
mod plain;
mod runs;

pub use bundle::{Bundle, EventPart, Judges, MetricPart, RunLimits, RunPart, What};
pub use finding::Finding;
pub use finished::Finished;
pub use history::{Entry, Histories, History};
pub use names::BundleName;
pub use plain::{finish_plain, run_plain};
pub use runs::Runs;
