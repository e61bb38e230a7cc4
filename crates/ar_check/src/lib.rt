//! The kinds of conditions: from the tree of a condition to its typed tree, where `result` has a
//! declared shape.
//!
//! [`check`] returns the typed tree, in which each operand that is unwrapped or converted to decimal
//! is marked, or the first fault of kinds with its offset. Only out of memory can keep it from that.
//! A checked condition, on a value of its shape, is true or false or meets one of four faults.
//!
//! - `typing`: from a tree to its typed tree, by recursion no deeper than the tree; `build` makes
//!   the nodes
//! - `operand`: a tree with its kind, whose shape is borrowed where it is a part of a declared one
//! - `operators`, `list`: operators, and list literals, whose operands have kinds
//! - [`error`]: why a condition has no kinds
//! - [`found`]: what the operands at an offset are, to be reported with such a fault
//! - [`laws`]: what holds of all checked conditions
//!
//! In `specs`, `Operand` says what is made of operands where a plain kind or a decimal is required, and
//! `Check` treats the constructs one by one: what each requires and gives, and its faults.
//! `Typing` is the table of kinds as a relation, which laws say is the same; `Basics` has what both
//! begin with. `Found` says what the operands at an offset are. `Private` has what only private
//! contracts speak of. Trees, and what a typed one means on a value, are `ar_tree`'s.
#![tactic(auto)]

mod build;
pub mod error;
pub mod found;
pub mod laws;
mod list;
mod operand;
mod operators;
mod typing;

pub use ar_tree::Typed;
pub use error::TypeError;
pub use found::operands_at;
pub use typing::check;
