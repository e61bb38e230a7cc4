//! Operations of the stack machine that judges conditions, code of them, and the machine's steps.
//!
//! Code is a list of operations with the texts and names that they speak of by number. `specs/Machine`
//! defines the machine: what a step of a code on a value leads to, every operand being tested, and
//! what is reached after a number of steps.
//!
//! - [`op`]: operations, made of the operators of `ar_value`, of what is pushed and of jumps
//! - [`code`]: code, which contracts see as the `Code` of `specs/Code`
#![tactic(auto)]

pub mod code;
pub mod op;

pub use code::Code;
pub use op::Op;
