//! Conditions: what they say, as written and once their kinds are known, and what they mean.
//!
//! The parser makes a [`Tree`] of a condition's text, the check of kinds a [`Typed`] tree of it. This
//! crate has both types and no more, so that whoever reads trees needs no parser. `specs/Expression`
//! and `specs/Typed` are the trees that contracts speak of, by the views of `specs/Views`;
//! `specs/Limits` says how long their lists, texts and names may be, and `specs/Meaning` defines what
//! a typed condition means on a value.
//!
//! - [`tree`]: trees as written, with the byte offsets of their operators
//! - [`typed`]: trees whose kinds are known
#![tactic(auto)]

pub mod tree;
pub mod typed;

pub use tree::{Tree, Trees};
pub use typed::{Typed, TypedItems};
