//! Images and listings of the stack machine's code.
//!
//! Code is a list of operations with the texts and names that they speak of by number, which
//! `ar_op` has. An image is the one form of a code as bytes, which `specs/Image` defines: [`encode`]
//! writes it, and [`decode`] reads it or returns the first fault from left to right, as
//! `specs/Decoding` defines it. What is accepted is the image of what was read, and the image of each
//! code is accepted. Only out of memory can keep the two from their results.
//!
//! - `form`: the codes and the names of operations; `version`: the versions of images
//! - `image_writing`, `image_reading`: images; `reader`: numbers in them
//! - `listings`: code as lines for people
//! - [`error`]: why bytes are no image
//! - [`laws`]: what holds of all images
#![tactic(auto)]

pub mod error;
mod form;
mod image_reading;
mod image_writing;
pub mod laws;
mod listings;
mod reader;
mod version;

pub use ar_op::{Code, Op, code, op};
pub use error::ImageError;
pub use image_reading::decode;
pub use image_writing::encode;
pub use listings::listing;
