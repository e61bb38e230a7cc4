//! The machine with operand tests: it runs any code on any value.
//!
//! [`run_tested`] runs code on a value for no more than `fuel`, and tests every operand as it is
//! taken: it returns true, false or a fault, with what the run cost, or says that the machine is stuck at
//! an index or that the next operation costs more than is left. That is how the run of the machine in
//! `ar_op/specs/Machine` ends, by the definitions in `specs/Run`; [`laws`] says that a run ends in one way
//! only. Only out of memory can keep it from that, which operands, loops and the lists that code makes
//! take. Texts and values are borrowed from the measured value and from the code.
//!
//! No judge depends on it: judges run verified code by `ar_machine`.
//!
//! - [`outcome`]: how runs end
//! - `runs`: runs, loops over states; `state`: those
//! - `machine`: operations on states; `effect`: those that take operands and give one; `loops`: the begin and the
//!   step of a loop
//! - `stack`: stacks of operands; `list`: lists that loops iterate over
//! - [`laws`]: what holds of all runs
//!
//! Operands are those of `ar_operand`. `specs/Private` says what states in memory do. Of the items that a loop found,
//! memory keeps what its answer takes, so a state in memory represents one of the machine by a relation
//! (`ar_machine/specs/Same`).
#![tactic(auto)]

mod effect;
pub mod laws;
mod list;
mod loops;
mod machine;
pub mod outcome;
mod runs;
mod stack;
mod state;

pub use outcome::Ended;
pub use runs::run_tested;
