//! Reports for people and pipelines: of runs, and of what is known of conditions before any run.
//!
//! What there is to say is defined once, as facts (`ar_facts/specs/Facts`): of histories, the phase of each run, the
//! phase, limits and counts of each metric and whether it is dry, and each event with its verdict and effect, whatever
//! order the histories' numbers are in; of conditions, their code and its bounds. Two definitions print them: as lines
//! (`ar_facts/specs/Report`, `specs/Check`) and as a JSON object, which reads back as what was written
//! (`ar_facts/specs/ReportData`).
//!
//! [`finished_report`] and [`report_json`] print a bundle's finished runs; [`report`] prints histories, whose states it
//! makes first. [`check_text`] and [`check_json`] print the bounds of each condition, [`list_text`] its code, and
//! [`answer_json`] what one condition says.
//!
//! - `conditions`: the conditions of a bundle, and their lines
//! - `json`: the objects of reports, conditions and answers
//! - [`laws`]: that a reader of a report's object finds its facts
//! - `reports`: the lines of a report
#![tactic(auto)]

mod conditions;
mod json;
pub mod laws;
mod reports;

pub use conditions::{check_text, list_text};
pub use json::{answer_json, check_json, report_json};
pub use reports::{finished_report, report};
