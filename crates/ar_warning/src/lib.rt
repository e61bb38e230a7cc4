//! Warnings: what a document that has an answer has that is probably not meant.
//!
//! [`template_warnings`] are those of its template (`specs/Templates`): metrics without a condition, and fields that
//! are ignored and close to ones that are read. [`push_misfits`] adds those of its measurements
//! (`specs/Measurements`): of each metric, the first that counts as an error for the kind of its value. Only out of
//! memory can keep them from that. [`misfit_expected`] says what is expected in place of such a value, and of any
//! other that doesn't fit its shape.
#![tactic(auto)]

mod measurements;
mod misfits;
mod templates;

pub use measurements::push_misfits;
pub use misfits::misfit_expected;
pub use templates::template_warnings;
