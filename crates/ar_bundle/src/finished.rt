//! Runs that are finished.

use crate::history::Histories;
use ar_limits::RunState;

/// A bundle's runs after all that happened to them (`specs/Finished`).
#[derive(Drop)]
pub struct Finished {
    pub histories: Histories,
    /// Of each run, in their order, the state that its history leads to.
    pub states: Vec<RunState>,
}
