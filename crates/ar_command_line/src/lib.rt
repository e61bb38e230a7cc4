//! What the program `argo_judge` uses of the system: its command line, its input and its output.
//!
//! [`command_of`] returns what the words of a command line ask for: a [`Command`], or why they ask
//! for none. `specs/CommandLine` has the command line as `clap`'s specifications see it,
//! `application`, and what a subcommand with its matches asks for, `command_named`. Where `clap` finds no
//! fault in the words, the command that asks for that is returned, or why there is none: `Workers` where its
//! number of workers is none from 1 to 16, `Event` where the number of an event is none; else `Output` where
//! its [`Format`] is none; else `Conflict` where `run` is to be both ordered and plain, and `Several` where
//! the [`Selection`] of `explain` has several options. Where `clap` finds a fault, `Words` is returned. Only
//! out of memory can keep it from that. What is said of a [`UsageError`] is `ar_usage`'s. [`shown`] is the text of
//! `--help` or `--version`, where the words ask for one. The names in a selection are words of the command line,
//! which it borrows; contracts compare commands by their tasks (`specs/Task`), in which a name is its bytes.
//!
//! A [`Source`] and a [`Sink`] report what was read and written and whether that failed. A [`Device`] makes
//! either of a reader or a writer of the standard library, and keeps the first fault; [`read_input`] reads all
//! of an input, or more than a document may have; [`write_output`] writes all of an output, or a front of it
//! where the writer fails. Only out of memory, and a read or a write that failed, can keep them from that.
//!
//! - `command_line`: the calls, and the command line as `clap` builds it; `selection`: which events are
//!   explained
//! - `help`: the texts of `--help`
//! - [`stream`]: what an input is read from and what an output is written to; [`input`]: reading a whole
//!   document; [`output`]: writing a whole output
//! - [`device`]: readers and writers of the standard library, over `retrying`, which makes interrupted calls again;
//!   [`raw`]: one call of a reader or a writer
#![tactic(auto)]

mod command_line;
pub mod device;
mod help;
pub mod input;
pub mod output;
pub mod raw;
mod retrying;
mod selection;
pub mod stream;

pub use command_line::{Command, DEFAULT_WORKERS, Format, UsageError, VERSION, command_of, shown};
pub use device::Device;
pub use input::{InputError, read_input};
pub use output::write_output;
pub use raw::{RawRead, RawWrite};
pub use selection::Selection;
pub use stream::{DeviceFault, Sink, Source};
