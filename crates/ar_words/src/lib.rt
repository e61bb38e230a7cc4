//! The diagnostic of each refusal of a document.
//!
//! [`bundle_diagnostic`] and [`eval_diagnostic`] take a refusal and the document that was read, and return the
//! diagnostic that `specs/Documents` defines: where in the document, by number and name, what was found there,
//! what is expected, and what helps. What is said of a condition `ar_condition_words` says.
//!
//! - `documents`: refusals of documents; `templates`: of templates and their binding; `fields`: a metric's fields
//! - `bindings`: what the template's texts are bound to by a run's arguments, and where they can't be
//! - `lists`: lists of a document, whose items have names; `items`: those items; `names`: names, listed
//! - `shapes`: declared shapes; `close`: names that are nearly the same
#![tactic(auto)]

mod bindings;
mod close;
mod documents;
mod fields;
mod items;
mod lists;
mod names;
mod shapes;
mod templates;

pub use documents::{bundle_diagnostic, eval_diagnostic};
pub use names::{metrics_there, runs_there};
