//! Runs of a bundle: each of its numbers is judged and applied to its run.
//!
//! [`finish_all`] does it by several workers, threads that take the numbers from one queue, judge them and
//! post them to one board. Whatever their threads do, where it returns runs their histories are lawful and
//! lead to their states (`ar_bundle/specs/Finished`); where a number is lost, [`WorkError::Lost`] hands out
//! what shows it (`specs/Joined`). The workers of [`finish_ordered`] keep what they judged, and the calling
//! thread applies it in the order of the numbers, which then rise in each history; no number can be lost.
//! [`finish_plain`] of `ar_bundle` does so in one thread. [`run_all`], [`run_ordered`] and [`run_plain`] give
//! the histories alone. A caller sees and may hold what workers do by a [`Gate`].
//!
//! - `running`: workers post, the board is closed; `ordered`: workers judge, and their findings are put in
//!   order
//! - `settling`: the queue is made, and each number is settled at one desk
//! - `posting`: a worker's desk that posts a number; `judging`: one that keeps it
//! - `error`: why there are no finished runs; [`laws`]: why a number is lost
//!
//! How workers run side by side is `ar_queue`'s.
#![tactic(auto)]

mod error;
mod judging;
pub mod laws;
mod ordered;
mod posting;
mod running;
mod settling;

pub use ar_bundle::{finish_plain, run_plain};
pub use ar_queue::{FreeGate, Gate};
pub use error::WorkError;
pub use ordered::{finish_ordered, run_ordered};
pub use running::{finish_all, run_all};
