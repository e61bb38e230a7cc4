//! Verified code: what it is, and that it runs safely.
//!
//! `specs/Verdict` defines which code has a fault for a shape of the measured value, and which one,
//! and which code is verified, with what a run costs at most (its budget) and how many operands it has
//! at most (its depth). On each value of its shape [`Verified`] code ends with an answer, is never
//! stuck, costs no more than its budget and never has more operands than its depth, all of the machine
//! of `ar_op/specs/Machine` (`specs/Safety`); whoever makes one shows that the code is verified.
//! [`laws`] says that all code has one verdict for a shape. `ar_verify` finds it.
//!
//! - [`verified`]: verified code; [`error`]: why code isn't accepted
//! - [`laws`]: what holds of all verdicts
#![tactic(auto)]

pub mod error;
pub mod laws;
pub mod verified;

pub use error::{Cause, Reason, Refused};
pub use verified::{GREATEST_BUDGET, Verified};
