//! What is said of a refused input or command line, and how warnings are written.
//!
//! [`refusal_of`] is the diagnostic of a refused input (`specs/Refused`). Where the input is JSON, `ar_words`
//! says what its document has, and a selection of `explain` that the document lacks is named; where it isn't,
//! the diagnostic says where it ceases to be, and what it looks like. [`refusal_text`] says it in the format of
//! the command's answer, and [`usage_text`] does that for a refused command line. [`warnings_text`] says
//! warnings in a format (`specs/Warned`).
//!
//! - `refused`: refused inputs; `unread`: inputs that are no document
//! - `lacking`: what the document lacks of what was named
//! - `said`: diagnostics in a format; `warned`: warnings
#![tactic(auto)]

mod lacking;
mod refused;
mod said;
mod unread;
mod warned;

pub use refused::{refusal_of, refusal_text};
pub use said::{format_of, usage_text, written_as};
pub use warned::warnings_text;
