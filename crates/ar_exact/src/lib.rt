//! Values as JSON has them, for programs.
//!
//! JSON has booleans, null, texts, lists, records and the integers that each reader takes exactly. A decimal is a text
//! with its digits, and so is a greater integer. What takes too much room is left out: whoever wants it finds it in the
//! document (`specs/Exact`). [`exact_of`] copies what there is of a value, and [`put_exact`] writes it as a member of
//! an object, unless it is too deep (`specs/Flat`).
//!
//! What is proved, for all inputs: each call gives what these define. Only a refused allocation can keep it from that.
//!
//! - `form`: the forms of values; `exact`: the copy of a value, and how it is written
#![tactic(auto)]

mod exact;
mod form;

pub use exact::{exact_of, put_exact};
