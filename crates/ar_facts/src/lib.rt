//! What there is to say of runs, and how its parts are printed.
//!
//! `specs/Facts` defines what is said: of histories, the phase of each run, the phase, limits and counts of each
//! metric and whether it is dry, and each event with its verdict and effect, whatever order the histories' numbers are
//! in; of conditions, their code and its bounds. Two definitions print that: as lines (`specs/Report`), and as a JSON
//! object, which reads back as what was written (`specs/ReportData`). Here are the parts: a run's line, a metric's and
//! an event's, and their objects. `ar_report` prints whole runs by them, and `ar_reason` what led to each event.
//!
//! - `data`: the objects of metrics and events
//! - `names`: phases, verdicts and effects as they are printed
//! - `text`: the lines of runs, metrics and events
#![tactic(auto)]

mod data;
mod names;
mod text;

pub use data::{write_counts, write_event, write_limits, write_metric};
pub use names::{phase_name, put_verdict};
pub use text::{Naming, put_counted, put_event, put_metric, put_run_line};
