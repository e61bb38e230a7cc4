//! Why each event of runs had its verdict and its effect: for a person who asks why a run ended, or what it still
//! waits for.
//!
//! [`reasons_text`] and [`reasons_json`] say of the events of a bundle's histories, or of those that are asked for
//! ([`Chosen`]), what led to their verdicts and effects: what the provider gave, or where that doesn't fit its shape;
//! each condition with its arguments put in and what came of its parts, in the order of evaluation; the metric's
//! counts before and after, next to its limits; and why the event closed its run or what had made it late. Then each
//! metric has what it still waits for, or that the close of its run settled it. `ar_evaluation` has the conditions,
//! and `ar_progress` all but these and what was measured. What there is to say is defined once (`specs/Reason`), and
//! printed by two definitions: as lines (`specs/ReasonText`) and as a JSON object, which reads back as what was
//! written (`specs/ReasonData`).
//!
//! What is proved, for all inputs: each call returns the text that these define. Only a refused allocation can keep
//! it from that.
//!
//! - `given`: what a provider gave; `lines`: the text
//! - `data`: the object; `why_data`: why an event closed its run or came late
//! - [`laws`]: the verdict is by the conditions that are shown, or by the misfit
#![tactic(auto)]

mod data;
mod given;
pub mod laws;
mod lines;
mod why_data;

pub use data::reasons_json;
pub use lines::reasons_text;
