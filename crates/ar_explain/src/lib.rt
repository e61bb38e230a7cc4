//! Why a condition means what it means on a value: its trace, which has each part that is evaluated with its value or
//! failure, in the order of evaluation, and the lines in which that is said to a person.
//!
//! [`tell`] evaluates a condition on a value and says what came of its parts: those whose value is news or that
//! fail, and those that weren't needed. Where a failure arises it says on which operands, shortened, and where an
//! operator's operands are texts that differ but are shown alike, where they differ. Of a list's items it says, after
//! the item, what came of the first few, in `count`, `filter` and `one` of those of which the body holds, and of
//! the last one that was looked at; of the others, how many they are, and of how many of them the body holds. By its
//! contract the evaluation has the lines of its parts by `specs/Lines`, 500 at each end, how many come between, and
//! what came of the whole condition. Only out of memory can keep it from that: lines that are kept take memory, lists
//! that the condition makes, the numbers of the items that are looked at, and while an operator has such a list, the
//! operands in words.
//!
//! The definitions are `specs/Trace` (the trace of a typed tree), `specs/Parts` (parts by paths, and what an entry
//! has), `specs/Operands` (on which operands a part fails, and which are texts that look alike, by `ar_apart`),
//! `specs/Lines` (what is said) and `specs/Sources` (which entry a line is of); `specs/Views` says what explanations in
//! memory say. The laws say which parts a trace has, what its entries and the lines with values and failures say, that
//! these lines are in its order, and that just parts without an entry weren't needed. `specs/Private` follows the code.
//!
//! - [`laws`]: that entries are of parts and have their meanings, the root's is the last, a failure is the condition's,
//!   and just what isn't needed is left out; that lines say what entries have, in their order, the root's is the last,
//!   they say of just those children that aren't evaluated that they aren't needed, items that are shown are those of
//!   predicates, and each item is shown or counted
//! - [`explanation`]: lines, and those that are kept, with the texts of values by `ar_show`
//! - `walk`: the walk over a condition; `place`: where a part is evaluated; `news`: which parts have lines of their
//!   own; `looked`: items that predicates look at; `seen`: how many of those aren't shown; `applied`: what operators
//!   make of operands; `failed`: operands in words, where a failure arises
#![tactic(auto)]

mod applied;
pub mod explanation;
mod failed;
pub mod laws;
mod looked;
mod news;
mod place;
mod seen;
mod walk;

pub use explanation::{Evaluation, Explanation, Line, Said, Shown};
pub use walk::tell;
