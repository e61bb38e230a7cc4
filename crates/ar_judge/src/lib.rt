//! Verdicts of measurements: the results of a metric's conditions on what its provider gave.
//!
//! [`Judge::build`] takes the texts of a metric's conditions and the shape of the measured value,
//! and returns a judge only where each text is a condition with kinds whose code the verifier
//! accepts; otherwise it names the first text that isn't, and why. [`Judge::judge`] gives the verdict
//! of a sample, which is that of the definitions in `specs/Verdict`: by what the conditions of these
//! texts mean, with no code and no machine in it. Only out of memory can keep it from its result.
//!
//! - [`condition`]: one condition, ready to be run; [`shared_condition`]: one with several owners
//! - [`judge`]: the conditions of a metric; [`sample`]: what it judges; [`verdict`]: what it finds
//! - [`error`]: why a text is no condition that can be run
//! - [`laws`]: what holds of each condition and judge that is built, on every value of the shape
#![tactic(auto)]

pub mod condition;
pub mod error;
pub mod judge;
pub mod laws;
pub mod sample;
pub mod shared_condition;
pub mod verdict;

pub use condition::Condition;
pub use error::{BuildCause, BuildError};
pub use judge::{Judge, Which};
pub use sample::Sample;
pub use shared_condition::SharedCondition;
pub use verdict::{Cause, Verdict};
