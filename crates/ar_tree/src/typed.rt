//! Typed conditions: what a condition says once its kinds are known.

use crate::tree::Literal;
use ar_value::operator::{BinaryOperator, Predicate, Scalar, UnaryOperator};
use ar_value::text::Text;

/// A condition whose kinds are known: where an operand is unwrapped or converted to decimal, a node
/// says so. `!=` is `==` negated, `not in` is `in` negated, a comparison with the literal `nil` is
/// `isNil`, and `+a` is `a`.
#[cycle(typed)]
#[derive(Drop)]
pub enum Typed {
    /// The measured value.
    Result,
    /// The innermost item of a predicate.
    Item,
    Literal(Literal),
    Field {
        owner: Box<Typed>,
        name: Text,
    },
    /// An operator on one operand.
    Unary {
        operator: UnaryOperator,
        operand: Box<Typed>,
    },
    /// An operator on two operands.
    Binary {
        operator: BinaryOperator,
        left: Box<Typed>,
        right: Box<Typed>,
    },
    And {
        left: Box<Typed>,
        right: Box<Typed>,
    },
    Or {
        left: Box<Typed>,
        right: Box<Typed>,
    },
    Choice {
        condition: Box<Typed>,
        then_branch: Box<Typed>,
        else_branch: Box<Typed>,
    },
    /// A list of items of one kind.
    List {
        scalar: Scalar,
        items: TypedItems,
    },
    Predicate {
        predicate: Predicate,
        list: Box<Typed>,
        body: Box<Typed>,
    },
}

/// The items of a list.
#[cycle(typed)]
#[derive(Drop)]
pub struct TypedItems {
    pub items: Vec<Typed>,
}
