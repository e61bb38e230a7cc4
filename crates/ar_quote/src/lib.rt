//! How texts of others are shown in a line: names, and conditions round one of their tokens.
//!
//! A name is shown as a JSON string, so that it stays in its line and ends where it seems to end
//! (`specs/Shown`, [`push_quoted`]); in a line of words only where the name itself wouldn't ([`push_name`]).
//! A condition is quoted round the token at a byte (`specs/Tokens`, `specs/Quote`, [`token_at`],
//! [`push_round`]).
//!
//! - `shown`: names as JSON strings; `named`: names in lines of words; [`laws`]: what holds of each
//! - [`tokens`]: the token at a byte of a condition; `quote`: the condition round it
#![tactic(auto)]

pub mod laws;
mod named;
mod quote;
mod shown;
pub mod tokens;

pub use named::push_name;
pub use quote::push_round;
pub use shown::push_quoted;
pub use tokens::{TokenAt, token_at};
