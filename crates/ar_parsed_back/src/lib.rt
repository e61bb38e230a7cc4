//! Laws of shown parts: what `ar_show` shows of a condition is said in the language of conditions. It has no code.
//!
//! `specs/Written` says which trees of the grammar say a part, `specs/Readable` which parts can be written, and
//! `specs/InPlace` where the check of kinds unwraps operands by itself. `specs/Examples` has worked rows, also of what
//! can't be written.
//!
//! What is proved, for all parts that can be written ([`laws`]): the shown text is cut into tokens, and any tree that
//! the grammar derives from these says the part; checked, that tree is the part again. Of a condition that is accepted
//! the parser and the check of kinds make the condition again, unless parentheses that are added make it too deep.
#![tactic(auto)]

pub mod laws;
