//! The verifier: code that it accepts runs safely, and within a budget that is known before.
//!
//! [`verify`] takes code and the shape of the values that it is to judge, and returns
//! [`Verified`] code or its first fault, as `ar_safety/specs/Verdict` defines
//! them. Each pass is one way through the operations. Only out of memory can keep the verifier from its
//! result.
//!
//! - `verifier`: the passes, one after the other
//! - `indices`: whether the indexes that operations name are as they should be; `loops`: whether loops
//!   are nested
//! - `whole`: the shape of the measured value; `path`: parts of shapes, by the way to them in the whole
//! - `parts`, `list`: the shapes of operands, which are those of joined parts; `join`: how they join,
//!   and what is known of them
//! - `kind`, `stack`: kinds of operands; `operators`, `effect`: what operations give of them
//! - `operands`, `sending`, `arrivals`: what operations send on, and what arrives at each index
//! - `budget`: what a run may cost at most
//! - `failure`: why an operation sends nothing on
#![tactic(auto)]

mod arrivals;
mod budget;
mod effect;
mod failure;
mod indices;
mod join;
mod kind;
mod list;
mod loops;
mod operands;
mod operators;
mod parts;
mod path;
mod sending;
mod stack;
mod verifier;
mod whole;

pub use ar_safety::{Cause, Reason, Refused, Verified};
pub use verifier::verify;
