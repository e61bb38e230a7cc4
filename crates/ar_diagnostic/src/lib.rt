//! Diagnostics: what is said of an input that is refused, or of what is probably not meant in it.
//!
//! A [`Diagnostic`] is a value: where ([`Place`]), the name of what is wrong, what was found, what is expected,
//! and what helps. Two printers say it. A line has its parts in order, as
//! `runs[1]: DoubleRun: an earlier run has the name "r0", too` ([`refusal_line`], [`warning_line`],
//! `specs/Diagnostic`), and a JSON object has each by itself, with a JSON Pointer into the document
//! ([`refusal_json`], [`warnings_json`], `specs/DiagnosticData`). Both are proved to be what these define.
//!
//! - `place`: places, and what of the document they name; `place_text`: places as lines and pointers say them
//! - `diagnostic`: diagnostics; `line`: their lines; `data`: their objects; `listing`: names, listed
#![tactic(auto)]

mod data;
mod diagnostic;
mod line;
mod listing;
mod place;
mod place_text;

pub use data::{refusal_json, warnings_json};
pub use diagnostic::{Diagnostic, Expected, Position, Spot, copy_of, rule, thing, with_quoted};
pub use line::{refusal_line, warning_line};
pub use listing::{first_listed, those_listed};
pub use place::{
    EntryPart, Flag, Item, Member, MetricField, Place, SpecPart, TemplateField, Within,
};
pub use place_text::push_token;
