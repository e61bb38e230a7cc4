//! What is begun and not ended while tokens are read.

use crate::role::Call;
use ar_tree::tree::{Binary, Tree, Unary};

/// A phrase that waits for an operand.
#[derive(Drop)]
pub(crate) enum Frame {
    /// The right side of an operator.
    RightOf {
        at: usize,
        operator: Binary,
        first: Box<Tree>,
    },
    /// The operand of a sign before it.
    Prefixed {
        at: usize,
        operator: Unary,
    },
    /// What comes after `?`.
    Then {
        at: usize,
        condition: Box<Tree>,
    },
    /// What comes after `:`.
    Else {
        at: usize,
        condition: Box<Tree>,
        then_branch: Box<Tree>,
    },
    /// What is in parentheses.
    Grouped,
    /// An item of a list.
    Listed {
        at: usize,
        so_far: Vec<Tree>,
    },
    /// An index.
    Indexed {
        at: usize,
        list: Box<Tree>,
    },
    /// An argument of a call: a plain one, a predicate, and a predicate in braces.
    Argued {
        at: usize,
        function: Call,
        so_far: Vec<Tree>,
    },
    Body {
        at: usize,
        function: Call,
        so_far: Vec<Tree>,
    },
    Braced {
        at: usize,
        function: Call,
        so_far: Vec<Tree>,
    },
}
