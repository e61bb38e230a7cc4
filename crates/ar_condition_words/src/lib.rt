//! The diagnostic of each refusal of a condition.
//!
//! [`condition_diagnostic`] takes where the condition is, its text, the shape of `result`, and why it can't be run, and
//! returns the diagnostic that `specs/Conditions` defines: the byte and the condition round the token there, what
//! was found, what is expected, and what helps who knows another language. [`code_diagnostic`] and
//! [`length_diagnostic`] are those of code that is too large.
//!
//! - `conditions`: the diagnostics; `operands`: the operands that an operator doesn't take; `hints`: what helps
#![tactic(auto)]

mod conditions;
mod hints;
mod operands;

pub use conditions::{code_diagnostic, condition_diagnostic, length_diagnostic};
