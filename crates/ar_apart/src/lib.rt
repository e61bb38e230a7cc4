//! Where two texts differ that are shown alike: long texts are shown shortened.
//!
//! [`texts_of`] takes two operands that are texts, and [`texts_apart`] finds the first byte in which they differ where
//! the texts that people see of them are the same, with what is round that byte in each (`specs/Apart`).
//!
//! What is proved, for all inputs: each call gives what these define. Only a refused allocation can keep it from that.
//!
//! - `apart`: where texts differ
#![tactic(auto)]

mod apart;

pub use apart::{Apart, Texts, texts_apart, texts_of};
