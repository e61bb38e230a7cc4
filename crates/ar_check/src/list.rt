//! List literals.

ghost use Rattle.std.specs.Prelude.{◌≡◌, IfOk, map};
ghost use Rattle.ar_value.specs.Answer.{Gives};
ghost use Rattle.ar_value.specs.Kind.{shaped, scalar_shape};
ghost use Rattle.ar_value.specs.Shape.{list};
ghost use Rattle.ar_value.specs.View.{shape_view};
ghost use Rattle.ar_check.specs.Check.{common_of, common_scalar, common_with, list_literal_of, no_scalar, converted_item};
ghost use Rattle.ar_tree.specs.Views.{typed_view};
ghost use Rattle.ar_check.specs.Memory.{is_memory};
ghost use Rattle.ar_check.specs.Private.Inside.{boxed_view, item_view, view_of_kind, operand_view};

use crate::build::{self, listed};
use crate::error::TypeError;
use crate::operand::{Kind, Operand, given};
use ar_tree::typed::Typed;
use ar_value::operator::{Scalar, UnaryOperator};
use ar_value::shape::Shape;
use std::alloc::{AllocError, Global};

/// An item of a list literal, unwrapped.
#[derive(Drop)]
pub(crate) struct Item {
    pub at: usize,
    /// None where it is no scalar.
    pub scalar: Option<Scalar>,
    pub tree: Box<Typed>,
}

/// A list of items.
pub(crate) fn list<'s>(
    alloc: Global,
    at: usize,
    items: Vec<Item>,
) -> Result<Box<Operand<'s>>, TypeError>
    ensures { Gives is_memory boxed_view result
        (list_literal_of at (map item_view items.items) (no_scalar (map item_view items.items))) }
{
    if let Some(offset) = no_scalar(&items) {
        return Err(TypeError::NotScalar(offset));
    }
    let Some(scalar) = common_of(&items) else {
        return Err(TypeError::NoCommonKind(at));
    };
    let max = items.len();
    let tree = build::node(alloc, listed(scalar, converted(alloc, scalar, items)?))?;
    given(alloc, tree, list_kind(alloc, scalar, max)?)
}

/// The offset of the first item that is no scalar.
fn no_scalar(items: &[Item]) -> Option<usize>
    ensures { result ≡ no_scalar (map item_view items.now) }
{
    for item in items {
        if item.scalar.is_none() {
            return Some(item.at);
        }
    }
    None
}

/// What scalar all items are, once wholes next to decimals are converted.
fn common_of(items: &[Item]) -> Option<Scalar>
    ensures { result ≡ common_of (map item_view items.now) }
{
    let [first, others @ ..] = items else {
        return None;
    };
    joined(first.scalar, others)
}

fn joined(first: Option<Scalar>, items: &[Item]) -> Option<Scalar>
    ensures { result ≡ common_with first (map item_view items.now) }
{
    let mut common = first;
    for item in items {
        common = common_scalar(common, item.scalar);
    }
    common
}

fn common_scalar(left: Option<Scalar>, right: Option<Scalar>) -> Option<Scalar>
    ensures { result ≡ common_scalar left right }
{
    match (left?, right?) {
        (Scalar::Bool, Scalar::Bool) => Some(Scalar::Bool),
        (Scalar::Text, Scalar::Text) => Some(Scalar::Text),
        (Scalar::Whole, Scalar::Whole) => Some(Scalar::Whole),
        (Scalar::Whole | Scalar::Decimal, Scalar::Whole | Scalar::Decimal) => Some(Scalar::Decimal),
        _ => None,
    }
}

/// The trees of items in a list of scalars.
fn converted(alloc: Global, scalar: Scalar, items: Vec<Item>) -> Result<Vec<Typed>, AllocError>
    ensures { IfOk result (λ trees. map typed_view trees.items
        ≡ map (λ item. converted_item scalar item.scalar item.tree) (map item_view items.items)) }
{
    let mut trees = Vec::with_capacity(alloc, items.len())?;
    for item in items {
        trees.push(converted_item(alloc, scalar, item)?)?;
    }
    Ok(trees)
}

fn converted_item(alloc: Global, scalar: Scalar, item: Item) -> Result<Typed, AllocError>
    ensures { IfOk result
        (λ tree. typed_view tree ≡ converted_item scalar (item_view item).scalar (item_view item).tree) }
{
    match (scalar, item.scalar) {
        (Scalar::Decimal, Some(Scalar::Whole)) => {
            Ok(Box::into_inner(build::unary(alloc, UnaryOperator::ToDecimal, item.tree)?))
        }
        _ => Ok(Box::into_inner(item.tree)),
    }
}

fn list_kind<'s>(alloc: Global, scalar: Scalar, max: usize) -> Result<Kind<'s>, AllocError>
    ensures { IfOk result (λ kind. view_of_kind kind ≡ shaped (list (scalar_shape scalar) max)) }
{
    let item = Box::new(alloc, scalar_shape(scalar))?;
    Ok(Kind::Made(Shape::List { item, max }))
}

fn scalar_shape(scalar: Scalar) -> Shape
    ensures { shape_view result ≡ scalar_shape scalar }
{
    match scalar {
        Scalar::Bool => Shape::Bool,
        Scalar::Whole => Shape::Whole,
        Scalar::Decimal => Shape::Decimal,
        Scalar::Text => Shape::Text,
    }
}
