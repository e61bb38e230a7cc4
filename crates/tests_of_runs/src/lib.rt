//! Tests that need Rust: boards, the queue, workers that wait for each other, and calls of the laws. What takes
//! data and gives data is covered by cases in files; failing, cut and interrupted inputs and outputs are given to
//! the program (`tests/faults`), and so are documents as large as may be (`tests/workers`).
//!
//! - `boards`: posts and looks by the seats of a board, what the cell under a lock shows, and what closing gives
//! - `queues`: how many slots a queue has
//! - `gates`: a gate at which workers wait for each other, and documents whose numbers meet there
//! - `workers`: runs and commands with workers, several of which judge at once
//! - `laws`: laws
#![tactic(auto)]

#[cfg(test)]
mod boards;
#[cfg(test)]
mod gates;
#[cfg(test)]
mod laws;
#[cfg(test)]
mod queues;
#[cfg(test)]
mod workers;
