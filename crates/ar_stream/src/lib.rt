//! JSON documents that are read in their order, without a tree of what is large.
//!
//! A document is what serde_json's `read` makes of its text: it has at most 127 levels, its numbers are in the range
//! of floats, and of members with one name the last counts. [`read_head`] checks the whole of a text, and keeps some
//! members of the object that it is; [`read_picked`] keeps of one member the items that are picked. [`read_tree`],
//! [`read_borrowed`] and [`pass_value`] take one value from the kit's reader of tokens: as a tree, as a tree that
//! borrows its texts and whose numbers may be out of range, or without one. [`enter`] and [`enter_object`] take the
//! begin of an array or an object, whose items or members can then be taken one after another. How many levels such a
//! value may have is limited by the caller.
//!
//! What is proved, for all texts: each takes from the reader's tokens what the document's definition finds there
//! (`specs/Passing`), and says that there is nothing just where there is; the head has the document's members of the
//! names that were asked for and no others (`specs/Head`), and of picked items each is at its place, with null in
//! place of the others (`specs/Picked`). Only a refused allocation can keep a call from that. `specs/Private` follows
//! the code.
//!
//! - [`head`]: documents without what is large; `picked`: values of which only some items are kept
//! - [`passing`]: values that are passed over; [`trees`]: trees of single values
//! - [`error`]: why a text isn't read
#![tactic(auto)]

pub mod error;
pub mod head;
pub mod passing;
mod picked;
pub mod trees;

pub use error::StreamError;
pub use head::{read_head, read_picked};
pub use passing::{Entered, enter, enter_object, pass_value};
pub use trees::{read_borrowed, read_tree};
