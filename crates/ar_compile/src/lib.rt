//! Code of conditions: what a checked condition is compiled to for the stack machine.
//!
//! [`compile`] gives the code that `specs/Compiled` defines: operands in order, each unwrapped and
//! converted to decimal where the typed tree says so, then the operation; texts and names numbered in
//! the order of their first use. Run on the machine of `ar_op`, the code of a condition that was
//! checked for a shape ends with what the condition means, on every value of the shape, and is never
//! stuck. Only a condition of too many operations (`specs/Length`) and out of memory keep it from its
//! result.
//!
//! [`compile`] asks for a tree within limits. Each condition that was parsed and checked is: the parser
//! says so of its tree as written, and a law of its typed tree. Of another tree [`in_limits`] says so.
//!
//! - `compiler`: the walk through the typed tree
//! - `draft`: code that grows; `table`: its texts and names
//! - `length`: how many operations there will be; `limits`: whether a tree fits into code
//! - [`error`]: why a condition isn't compiled
//! - [`laws`]: what holds of limits
#![tactic(auto)]

mod compiler;
mod draft;
pub mod error;
pub mod laws;
mod length;
mod limits;
mod table;

pub use compiler::compile;
pub use error::CompileError;
pub use limits::in_limits;
