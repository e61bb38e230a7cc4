//! How measured values and parts of conditions are shown to a person.
//!
//! A value is shown in the words of conditions, and shortened (`specs/Values`, [`push_value`]): 64
//! characters of a text, three items of a list, eight fields of a record and three levels of these, each
//! with the number and the unit of what is left out. So its text has a greatest length whatever the value
//! is, and no time is spent on items that aren't shown. A part of a condition is shown in the language of
//! conditions (`specs/PartText`, [`push_part`]), with parentheses round each operand that is an operator
//! with two sides, but not round a side with a sign before it: `!a == b` is `(!a) == b`. Conditions take
//! neither characters shown by their code, as control characters are (`\u001b`), nor texts and names cut
//! after 64 characters. Other crates show booleans and the names of fields in the same way
//! ([`push_boolean`], [`push_field_name`]).
//!
//! What is proved, for all inputs: each call appends the text that these define. Only a refused
//! allocation can keep it from that, and then a part of the text may be there.
//!
//! - `values`: values; `parts`: parts of conditions, whose literals, names and operators are in `signs`
//! - `words`: words that both share
#![tactic(auto)]

mod parts;
mod signs;
mod values;
mod words;

pub use parts::push_part;
pub use signs::push_field_name;
pub use values::push_value;
pub use words::{plural, push_boolean};
