//! Typed trees of parts that are there.

ghost use Rattle.std.specs.Prelude.{◌≡◌, IfOk, map};
ghost use Rattle.ar_tree.specs.Typed as typed;
ghost use Rattle.ar_tree.specs.Typed.{typeds};
ghost use Rattle.ar_tree.specs.Views.{typed_view};
ghost use Rattle.ar_check.specs.Private.Inside.{connected};

use ar_tree::typed::{Typed, TypedItems};
use ar_value::operator::{BinaryOperator, Scalar, UnaryOperator};
use std::alloc::{AllocError, Global};

/// What connects two booleans.
#[derive(Clone, Copy)]
pub(crate) enum Connective {
    And,
    Or,
}

/// A tree in a box of its own.
pub(crate) fn node(alloc: Global, tree: Typed) -> Result<Box<Typed>, AllocError>
    ensures { IfOk result (λ node. typed_view node.value ≡ typed_view tree) }
{
    Ok(Box::new(alloc, tree)?)
}

pub(crate) fn unary(
    alloc: Global,
    operator: UnaryOperator,
    operand: Box<Typed>,
) -> Result<Box<Typed>, AllocError>
    ensures { IfOk result (λ tree. typed_view tree.value ≡ typed.unary operator (typed_view operand.value)) }
{
    node(alloc, Typed::Unary { operator, operand })
}

pub(crate) fn binary(
    alloc: Global,
    operator: BinaryOperator,
    left: Box<Typed>,
    right: Box<Typed>,
) -> Result<Box<Typed>, AllocError>
    ensures { IfOk result (λ tree. typed_view tree.value
        ≡ typed.binary operator (typed_view left.value) (typed_view right.value)) }
{
    node(
        alloc,
        Typed::Binary {
            operator,
            left,
            right,
        },
    )
}

pub(crate) fn connected(
    alloc: Global,
    connective: Connective,
    left: Box<Typed>,
    right: Box<Typed>,
) -> Result<Box<Typed>, AllocError>
    ensures { IfOk result (λ tree. typed_view tree.value
        ≡ connected connective (typed_view left.value) (typed_view right.value)) }
{
    let tree = match connective {
        Connective::And => Typed::And { left, right },
        Connective::Or => Typed::Or { left, right },
    };
    node(alloc, tree)
}

pub(crate) fn listed(scalar: Scalar, items: Vec<Typed>) -> Typed
    ensures { typed_view result ≡ typed.listed scalar (typeds (map typed_view items.items)) }
{
    Typed::List {
        scalar,
        items: TypedItems { items },
    }
}
