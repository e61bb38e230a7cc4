//! The machine that runs conditions: it runs verified code on a measured value, without operand tests.
//!
//! [`run`] runs verified code on a value of its shape. By its contract it ends with the answer of the
//! machine in `ar_op/specs/Machine`, which tests every operand, and with what that run costs, within the
//! code's budget (`IsDone` of `specs/Run`). Only out of memory can keep it from that. Nothing but
//! the begin of a loop of a `filter` over items takes memory, so [`run`] succeeds whatever memory is left if
//! no state of the run is at one (`specs/Filter`).
//!
//! Verified code is never stuck, so each step finds the operands that it takes, of their kinds: what else
//! there might be is `unreachable!()`, by proof. Values are borrowed from the measured value and the code; the
//! stacks and the list literals are in the run's own frame. A loop of a `filter` takes memory once, at its
//! begin, for as many items as it iterates over: so none of its steps takes memory (`specs/Private/Room`).
//!
//! - `runs`: runs; `steps`: what each operation does; [`outcome`]: what a run returns and costs
//! - `effects`: operations that continue at the next index; `loops`: the begin and the step of a loop;
//!   `filters`: the step of a `filter`
//! - `state`: states; `stack`, `open`: their stacks, of operands and of loops; `loop_entry`: a loop
//! - `made`: lists that the code made, next to the stacks; `kept`: what filters have kept, next to the loops
//! - [`operand`]: operands, and in its folder the values that they borrow, lists, comparisons, operators, and the
//!   tables of code. What is there needs no verified code and takes no memory: `ar_tested`, which runs code
//!   that nobody verified, uses it, too. Each function says what it gives by the values that its arguments
//!   represent (`specs/Operand`)
//!
//! `specs/Run` defines how runs end that may cost no more than their fuel, and `proofs/Ends` proves that a run
//! ends in one way only. `specs/Memory` defines the machine as memory keeps its states, which have less of
//! what loops found than the machine's own; `specs/Same` says when such a state represents one of the
//! machine, `specs/Private` what states of this crate's represent. `proofs/Reached` proves that a run in memory
//! is one of the machine.
#![tactic(auto)]

mod effects;
mod filters;
mod kept;
mod loop_entry;
mod loops;
mod made;
mod open;
pub mod operand;
pub mod outcome;
mod runs;
mod stack;
mod state;
mod steps;

pub use outcome::{Answer, Outcome};
pub use runs::run;
