//! Where a measured JSON value doesn't fit its shape, and what was expected there.
//!
//! `ar_json` reads a measured value under a declared shape, or names the first fault. Here is said where
//! that is ([`misfit_of`]): the path to it from the whole value, with what was expected there and what was
//! found (`specs/Misfit`). It is printed as words, as `[2].rate` (`specs/MisfitText`, [`push_misfit`]), and
//! as a JSON object (`specs/MisfitData`, [`write_misfit`]). `specs/Examples` has worked rows.
//!
//! What is proved, for all inputs: a misfit is found just as these define it, and so are its words and its
//! object; a value has a misfit just where reading refuses it, by the same name, and the path leads to what
//! was found ([`laws`]). Only a refused allocation can keep a call from that.
//!
//! - `misfit`: a misfit in memory; `walk`: the first misfit of a value
//! - `words`: what is said of it; `advice`: what to do about it; `floats`: how a float is shown
//! - `data`: its object; [`laws`]: what holds of each misfit
#![tactic(auto)]

mod advice;
mod data;
mod floats;
pub mod laws;
mod misfit;
mod walk;
mod words;

pub use data::write_misfit;
pub use misfit::{Misfit, Step};
pub use walk::misfit_of;
pub use words::push_misfit;
