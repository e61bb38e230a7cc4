//! The evaluation of one condition on one value, both of a JSON document.
//!
//! [`evaluate`] takes the bytes of a document with a text `condition`, a `shape` and a `value`, and
//! returns what the condition says of the value, or the first fault in the document, as
//! `specs/Evaluation` defines it. Only out of memory can keep it from that.
#![tactic(auto)]

pub mod eval;

pub use eval::{EvalError, evaluate};
