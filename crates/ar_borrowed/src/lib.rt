//! Values of JSON that borrow their texts, converted into `serde_json`'s values.
//!
//! `json::Value` is cheap to read: its texts are borrowed from the document, its numbers stay texts,
//! and an object keeps all its members. `serde_json::Value` owns what it holds, its numbers are
//! numbers, and of members with the same name it keeps the last. A reader that needs only parts of a
//! document can read it as the first and turn the parts that it keeps into the second.
//!
//! What is proved, for all values: what is made of a borrowed value is the data that `serde_json`'s
//! reading defines for it (`of_json` of its `specs/Read`), and a value is refused just where it has a
//! number out of range. Only a refused allocation can keep a call from its result. A borrowed value and
//! its data have the same members, texts and items (`proofs/Members`), so a reader may look into
//! either. Depth is not limited here: whoever reads the borrowed value limits it.
//!
//! - [`trees`]: serde_json's value of a borrowed one
//! - [`numbers`]: the number of a text
#![tactic(auto)]

pub mod numbers;
pub mod trees;
