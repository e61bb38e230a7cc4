//! The commands of the program, each from the bytes read to the bytes written.
//!
//! [`serve`] runs a document with workers and [`serve_plain`] carries out the other commands, over
//! any reader and writer, and their contracts are the program's promise: what is written is what the
//! command says of the bytes that were taken, or the input is refused by the first fault that is
//! in it and nothing is written. Only out of memory, a failed read or write, a thread that can't be
//! started and a lost number can keep them from that; after a failed write a front of it is written. A command
//! that has a [`Format`] says the facts of its lines of words as one JSON object, too.
//! [`serve_keeping`] and [`serve_plain_keeping`] do so, too, and keep the input and what the command warns of;
//! [`serve_input`] and [`serve_plain_input`] do so on an input that was read before. What is left to the program are
//! the words of refusals and the exit status. What `eval` returns is `ar_eval`'s.
//!
//! - [`serving`]: a command, from the bytes read to the bytes written
//! - `answer`: what each command says of an input; `explained`: what `explain` says; `reading`: documents with
//!   their warnings
//! - [`status`]: exit statuses
//! - [`laws`]: that an input is one bundle, and has one text in a format, and both formats the same facts of runs
#![tactic(auto)]

mod answer;
mod explained;
pub mod laws;
mod reading;
pub mod serving;
pub mod status;

pub use ar_command_line::{
    Command, Device, DeviceFault, Format, InputError, Selection, Sink, Source, UsageError,
    command_of, read_input, write_output,
};
pub use ar_document::{BundleError, read_bundle};
pub use ar_eval::{EvalError, eval};
pub use serving::{
    Closing, Kept, Refusal, ServeError, serve, serve_input, serve_keeping, serve_plain,
    serve_plain_input, serve_plain_keeping,
};
