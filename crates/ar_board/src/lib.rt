//! Boards, which several workers post their findings to, and the core that says what a board does to lists.
//!
//! A [`Board`] keeps the runs of a bundle in four cells, each under a lock of its own. Each worker has a
//! [`Seat`], by which it posts and looks, and which keeps the receipts of its posts. A post or a look takes
//! the lock of its run alone. [`Board::finish`] gives the histories and states of the runs where the histories hold
//! each number, and else says in [`Lost`] which is the least that is lost (`specs/Lost`); [`Board::close`] gives the
//! histories alone.
//!
//! A [`RunCell`] is what is kept under one lock: of each run the history with the worker that posted each
//! entry, and the state of the run. [`RunCell::add`] puts a number to the end of its run's history, as
//! `specs/Posting` says, and returns the entry's position and effect; [`RunCell::show`] shows a run to a worker
//! whose entries in it are just those of its [`Receipt`]s for the run; [`RunCell::put_runs`] gives the
//! histories and the states up. `specs/Cell` says what is true of a cell whenever its lock is free,
//! `specs/Receipts` when histories meet a receipt. A [`LockName`] names the lock and its ledger in contracts.
//!
//! The core is a board without threads: one [`CoreStep`] after another on plain lists (`specs/Core`). A number
//! is put into the queue, a worker takes it, and posts it to its run's history. In an ordered core a posted
//! number is parked, and moves to its run's history once all lower numbers of the run are there. [`CoreState`]
//! is a core in memory: [`CoreState::new`] and [`CoreState::new_ordered`] judge every number and make all
//! room, [`core_step`] makes one step and takes no memory, and [`core_run`] and [`core_run_ordered`] make a
//! list of them.
//!
//! - [`board`]: boards; `under`: what is done under a lock, over any of the four; [`seat`]: what a worker has
//!   of a board
//! - [`locks`]: the four locks, and what names their ledgers; `shares`: shares of these
//! - `closing`, [`lost`]: which numbers are lost
//! - [`cell`]: what is kept under a lock, and in its folder the histories and runs that it has, what posts and
//!   looks return, receipts, and the names of locks
//! - [`core_state`]: the core in memory; [`core_steps`]: its steps
//! - [`laws`]: what holds of receipts, and after every list of steps
#![tactic(auto)]

pub mod board;
pub mod cell;
mod closing;
pub mod core_state;
pub mod core_steps;
pub mod laws;
pub mod locks;
pub mod lost;
pub mod seat;
mod shares;
mod under;

pub use ar_bundle::{
    Bundle, Entry, EventPart, Finding, Finished, Histories, MetricPart, RunPart, What,
};
pub use ar_value::limits::MOST_WORKERS;
pub use board::Board;
pub use cell::RunCell;
pub use cell::names::{LOCKS, LockName, lock_of_run};
pub use cell::posted::{Double, Posted};
pub use cell::receipt::Receipt;
pub use cell::run_history::RunHistory;
pub use cell::snapshot::{LookFault, Snapshot};
pub use core_state::{CoreState, core_run, core_run_ordered, core_step};
pub use core_steps::{CoreStep, Moved};
pub use locks::{Blanks, LockNames};
pub use lost::Lost;
pub use seat::Seat;
