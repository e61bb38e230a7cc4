//! What came of the conditions of a metric on a value: each condition with its arguments put in, its parts in the order
//! of evaluation, and its answer.
//!
//! What there is to say is defined once (`specs/Evaluated`), and printed by two definitions: as lines
//! (`specs/EvaluatedText`, [`push_conditions`]) and as JSON objects (`specs/EvaluatedData`, [`write_conditions`]). Both
//! take the trees of the conditions, which are made once for all values ([`trees_of`]).
//!
//! What is proved, for all inputs: each call appends the text that these define. Only a refused allocation can keep it
//! from that.
//!
//! - `trees`: the trees of conditions; `lines`: the lines of conditions and their parts; `data`: their objects
#![tactic(auto)]

mod data;
mod lines;
mod trees;

pub use data::write_conditions;
pub use lines::push_conditions;
pub use trees::{JudgeTrees, trees_at, trees_of};
