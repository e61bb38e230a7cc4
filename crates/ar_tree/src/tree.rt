//! Trees: what a condition says.

ghost use Rattle.std.specs.Prelude.{◌≡◌};
ghost use Rattle.ar_tree.specs.Expression.{offset_of};
ghost use Rattle.ar_tree.specs.Views.{expression_of};

use ar_value::decimal::Decimal;
use ar_value::operator::{Predicate, TextTest};
use ar_value::text::Text;

/// The value of a literal.
#[derive(Drop)]
pub enum Literal {
    Nil,
    Bool(bool),
    Whole(i64),
    Decimal(Decimal),
    Text(Text),
}

/// The operators of one operand, which come before it.
#[derive(Clone, Copy)]
pub enum Unary {
    Plus,
    Minus,
    Not,
}

/// The operators of two operands, which come between them.
#[derive(Clone, Copy)]
pub enum Binary {
    Or,
    And,
    Comparison(Comparison),
    In,
    NotIn,
    TextTest(TextTest),
    Add,
    Subtract,
    Multiply,
    Divide,
    Remainder,
}

/// The operators that compare two operands.
#[derive(Clone, Copy)]
pub enum Comparison {
    Equal,
    NotEqual,
    Less,
    LessOrEqual,
    Greater,
    GreaterOrEqual,
}

/// The tree of a condition. `at` is the byte offset of what names a node: its operator (`not` of
/// `not in`), the `?` of a choice, the name of a call, the `[` of an index or list, the `.` or `[`
/// of a field; else the node's own token. Parentheses make no node.
#[derive(Drop)]
#[cycle(tree)]
pub enum Tree {
    /// The measured value.
    Result {
        at: usize,
    },
    /// `#`, the innermost item of a predicate.
    Item {
        at: usize,
    },
    Literal {
        at: usize,
        literal: Literal,
    },
    /// `owner.name` or `owner["name"]`
    Field {
        at: usize,
        owner: Box<Tree>,
        name: Text,
    },
    /// `list[index]`
    Index {
        at: usize,
        list: Box<Tree>,
        index: Box<Tree>,
    },
    Unary {
        at: usize,
        operator: Unary,
        operand: Box<Tree>,
    },
    Binary {
        at: usize,
        operator: Binary,
        left: Box<Tree>,
        right: Box<Tree>,
    },
    /// `condition ? yes : no`
    Choice {
        at: usize,
        condition: Box<Tree>,
        then_branch: Box<Tree>,
        else_branch: Box<Tree>,
    },
    /// `[item, item]`
    List {
        at: usize,
        items: Trees,
    },
    /// `len(list)`
    Len {
        at: usize,
        list: Box<Tree>,
    },
    /// `isNil(operand)`
    IsNil {
        at: usize,
        operand: Box<Tree>,
    },
    /// `default(operand, otherwise)`
    Default {
        at: usize,
        operand: Box<Tree>,
        otherwise: Box<Tree>,
    },
    /// `all(list, body)` and its like
    Predicate {
        at: usize,
        predicate: Predicate,
        list: Box<Tree>,
        body: Box<Tree>,
    },
}

/// Trees in order, as the items of a list.
#[derive(Drop)]
#[cycle(tree)]
pub struct Trees {
    pub items: Vec<Tree>,
}

impl Tree {
    /// The offset in bytes of the tree: that of its operator, else of its own token.
    pub fn offset(&self) -> usize
        ensures { result ≡ offset_of (expression_of self.now) }
    {
        match self {
            Tree::Result { at }
            | Tree::Item { at }
            | Tree::Literal { at, .. }
            | Tree::Field { at, .. }
            | Tree::Index { at, .. }
            | Tree::Unary { at, .. }
            | Tree::Binary { at, .. }
            | Tree::Choice { at, .. }
            | Tree::List { at, .. }
            | Tree::Len { at, .. }
            | Tree::IsNil { at, .. }
            | Tree::Default { at, .. }
            | Tree::Predicate { at, .. } => *at,
        }
    }
}
