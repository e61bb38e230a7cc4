//! The language of conditions, as `result >= 0.95`: from a text to tokens, the grammar of what
//! tokens say, and from tokens to a tree. It is a part of the language in expr-lang's Language
//! Definition.
//!
//! [`tokens`] returns the tokens of a text, or says at which byte it stops being one and what was
//! expected there. [`parse`] returns the one tree of a condition, or the first refusal and its
//! offset. Only out of memory can keep them from it.
//!
//! - [`token`]: words, numbers, texts and signs, and how they are spelled; `scanner` cuts a text
//!   into them, with `number` for numbers and `quoted` for texts
//! - [`role`]: what a token can be after an operand, and what calls take
//! - `parser`: from tokens to a tree, one `step` for each token, with `call` for what is in a
//!   call's parentheses; `start` says what a token begins, `state` what may come next, `machine`
//!   what is begun and not ended, `climb` ends it, `build` boxes the nodes, `stack` counts what is
//!   begun, `fault` names a refusal, `depth` limits the tree
//! - [`error`]: why a text is no condition
//! - [`laws`]: what holds of the grammar as a whole
//!
//! Trees are `ar_tree`'s, and names and the values of text literals `ar_value`'s `Text`.
//!
//! In `specs`, `Token` and `Tokens` define the tokens of a text, and `Spelling` how it spells them;
//! `Grammar` the trees that tokens derive, with `Roles` for what each token can be, `Condition` which
//! texts are conditions, and `Refusal` the offset and name of the fault of those that are none.
//! `Machine` reads the grammar token by token, `Fault` finds the name, and `Parse` is both as a function
//! of the text; `Parsed` is what parsing returns. `Examples` and `RefusalExamples` have texts and their
//! trees and refusals. What is in `Private` no public contract speaks of.
#![tactic(auto)]

mod build;
mod call;
mod climb;
mod depth;
pub mod error;
mod fault;
pub mod laws;
mod machine;
mod number;
mod parser;
mod quoted;
pub mod role;
mod scanner;
mod stack;
mod start;
mod state;
mod step;
pub mod token;

pub use ar_tree::Tree;
pub use error::SyntaxError;
pub use parser::parse;
pub use scanner::tokens;
pub use token::{Base, Sign, Span, Token, TokenKind, Word};
