//! JSON that the program writes: one value in one line, which reads back as the value (`specs/Line`).
//!
//! A [`JsonText`] has the tokens that were written into it (`specs/Written`), and no tree beneath: for long reports.
//! An [`Object`] has the members that were put into it (`specs/Object`), in any order, and [`json_line`] writes it.
//! Both return refused memory at the end.
//!
//! - `object`: an object that is being made; `line`: its line
//! - `written`: a text that is being written; `tree`: values in memory, written into it
#![tactic(auto)]

mod line;
mod object;
mod tree;
mod written;

pub use line::json_line;
pub use object::{Object, VERSION};
pub use written::JsonText;
