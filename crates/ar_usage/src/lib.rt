//! What is said of a command line that is refused.
//!
//! [`usage_diagnostic`] returns a diagnostic of `ar_diagnostic`'s for the words of a command line and the
//! [`UsageError`](ar_command_line::UsageError) that `ar_command_line` refuses them by. For `Words` it is of the first
//! word that isn't taken, with what could have come instead; for an option's value it has the value as it is written;
//! its name is the error's. [`asks_for_json`] says whether such a command line asks for answers in JSON. Both are
//! proved to be what `specs/Usage` defines, by `specs/Words`, which reads the words without `clap`; only out of memory
//! can keep the first from that. `specs/Examples` has worked rows.
//!
//! - `words`: which word isn't taken, and the values of options
//! - `usage`: the diagnostics
#![tactic(auto)]

mod usage;
mod words;

pub use usage::{asks_for_json, usage_diagnostic};
