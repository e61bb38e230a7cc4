//! Kinds of expressions, and the kind that two of them have in common.

ghost use Rattle.std.specs.Prelude.{◌≡◌, IfOk, option_map, unwrap_or};
ghost use Rattle.ar_value.specs.Kind.{common, is_decimal, is_optional, merge, merge_shapes, or_nil, plain, shaped, converted_next_to, whole_as_decimal};
ghost use Rattle.ar_value.specs.View.{kind_view, shape_view};

use crate::shape::Shape;
use crate::widening::widest;
use std::alloc::{AllocError, Global};

/// The kind of an expression: a shape, or that of the literal `nil`. Contracts see it by
/// `kind_view` of `specs/View`.
#[derive(Drop)]
pub enum Kind {
    Nil,
    Shape(Shape),
}

/// The kind of what has the one kind or the other, where there is one. Nil makes a shape optional,
/// and so does an optional shape; else the two differ in the greatest lengths of lists only, and
/// the greater ones are taken. Below the top, optional shapes and others have no kind in common.
pub fn merge(alloc: Global, left: &Kind, right: &Kind) -> Result<Option<Kind>, AllocError>
    ensures { IfOk result (λ kind. option_map kind_view kind ≡ merge (kind_view left.now) (kind_view right.now)) }
{
    match (left, right) {
        (Kind::Nil, Kind::Nil) => Ok(Some(Kind::Nil)),
        (Kind::Nil, Kind::Shape(shape)) | (Kind::Shape(shape), Kind::Nil) => {
            Ok(Some(Kind::Shape(or_nil(alloc, shape)?)))
        }
        (Kind::Shape(left), Kind::Shape(right)) => match merge_shapes(alloc, left, right)? {
            Some(shape) => Ok(Some(Kind::Shape(shape))),
            None => Ok(None),
        },
    }
}

/// The kind that two have in common: that of `merge`, once a whole, also an optional one, that
/// is next to a decimal was converted to decimal.
pub fn common(alloc: Global, left: &Kind, right: &Kind) -> Result<Option<Kind>, AllocError>
    ensures { IfOk result (λ kind. option_map kind_view kind ≡ common (kind_view left.now) (kind_view right.now)) }
{
    match (left, right) {
        (Kind::Shape(left), Kind::Shape(right)) => match common_shapes(alloc, left, right)? {
            Some(shape) => Ok(Some(Kind::Shape(shape))),
            None => Ok(None),
        },
        _ => merge(alloc, left, right),
    }
}

/// The shape of the kind that the kinds of two shapes have in common.
#[tactic(auto, using(crate::proofs::Merges::common_of_shapes))]
pub fn common_shapes(
    alloc: Global,
    left: &Shape,
    right: &Shape,
) -> Result<Option<Shape>, AllocError>
    ensures { IfOk result (λ shape. option_map (λ shape. shaped (shape_view shape)) shape
        ≡ common (shaped (shape_view left.now)) (shaped (shape_view right.now))) }
{
    let converted_left = converted_next_to(alloc, right, left)?;
    let converted_right = converted_next_to(alloc, left, right)?;
    merge_shapes(
        alloc,
        converted_or(&converted_left, left),
        converted_or(&converted_right, right),
    )
}

fn converted_or<'shape>(converted: &'shape Option<Shape>, shape: &'shape Shape) -> &'shape Shape
    ensures { shape_view result.now ≡ unwrap_or (option_map shape_view converted.now) (shape_view shape.now) }
{
    match converted {
        Some(converted) => converted,
        None => shape,
    }
}

/// What a shape is converted to next to another, where it is converted: a whole, also an optional one,
/// to decimal next to a decimal.
fn converted_next_to(
    alloc: Global,
    other: &Shape,
    shape: &Shape,
) -> Result<Option<Shape>, AllocError>
    ensures { IfOk result (λ converted. shaped (unwrap_or (option_map shape_view converted) (shape_view shape.now))
        ≡ converted_next_to (shaped (shape_view other.now)) (shaped (shape_view shape.now))) }
{
    if is_decimal(other) {
        whole_as_decimal(alloc, shape)
    } else {
        Ok(None)
    }
}

/// The decimal shape of a whole one, also an optional one.
fn whole_as_decimal(alloc: Global, shape: &Shape) -> Result<Option<Shape>, AllocError>
    ensures { IfOk result (λ decimal. unwrap_or (option_map shape_view decimal) (shape_view shape.now)
        ≡ whole_as_decimal (shape_view shape.now)) }
{
    if !matches!(plain(shape), Shape::Whole) {
        return Ok(None);
    }
    if is_optional(shape) {
        Ok(Some(Shape::Optional(Box::new(alloc, Shape::Decimal)?)))
    } else {
        Ok(Some(Shape::Decimal))
    }
}

/// The shape of what has the one shape or the other, where there is one: that of `merge`.
pub fn merge_shapes(alloc: Global, left: &Shape, right: &Shape) -> Result<Option<Shape>, AllocError>
    ensures { IfOk result
        (λ shape. option_map shape_view shape ≡ merge_shapes (shape_view left.now) (shape_view right.now)) }
{
    if !is_optional(left) && !is_optional(right) {
        return widest(alloc, left, right);
    }
    match widest(alloc, plain(left), plain(right))? {
        Some(shape) => Ok(Some(Shape::Optional(Box::new(alloc, shape)?))),
        None => Ok(None),
    }
}

/// The shape of nil and of what fits a shape.
pub fn or_nil(alloc: Global, shape: &Shape) -> Result<Shape, AllocError>
    ensures { IfOk result (λ optional. shape_view optional ≡ or_nil (shape_view shape.now)) }
{
    let plain = plain(shape).copy(alloc)?;
    Ok(Shape::Optional(Box::new(alloc, plain)?))
}

/// The shape of what isn't nil.
pub fn plain(shape: &Shape) -> &Shape
    ensures { shape_view result.now ≡ plain (shape_view shape.now) }
{
    match shape {
        Shape::Optional(plain) => plain,
        Shape::Bool
        | Shape::Whole
        | Shape::Decimal
        | Shape::Text
        | Shape::List { .. }
        | Shape::Object(_) => shape,
    }
}

/// Whether nil fits the shape.
pub fn is_optional(shape: &Shape) -> bool
    ensures { result ≡ is_optional (shape_view shape.now) }
{
    match shape {
        Shape::Optional(_) => true,
        Shape::Bool
        | Shape::Whole
        | Shape::Decimal
        | Shape::Text
        | Shape::List { .. }
        | Shape::Object(_) => false,
    }
}

fn is_decimal(shape: &Shape) -> bool
    ensures { result ≡ is_decimal (shape_view shape.now) }
{
    matches!(plain(shape), Shape::Decimal)
}
