//! The shape that two shapes have in common where they differ in greatest lengths only.

ghost use Rattle.std.specs.Prelude.{◌≡◌, IfOk, map, option_map};
ghost use Rattle.ar_value.specs.Kind.{widest, widest_fields};
ghost use Rattle.ar_value.specs.Shape.{field_shapes_of, list, object, optional};
ghost use Rattle.ar_value.specs.View.{field_shapes_view, shape_view};

use crate::shape::{FieldShapes, Shape};
use crate::text::Text;
use std::alloc::{AllocError, Global};

/// Two shapes that differ in greatest lengths only, at any depth: the shape with the greater ones.
#[cycle(widest)]
pub(crate) fn widest(
    alloc: Global,
    left: &Shape,
    right: &Shape,
) -> Result<Option<Shape>, AllocError>
    ensures { IfOk result (λ shape. option_map shape_view shape ≡ widest (shape_view left.now) (shape_view right.now)) }
{
    match left {
        Shape::Bool if matches!(right, Shape::Bool) => Ok(Some(Shape::Bool)),
        Shape::Whole if matches!(right, Shape::Whole) => Ok(Some(Shape::Whole)),
        Shape::Decimal if matches!(right, Shape::Decimal) => Ok(Some(Shape::Decimal)),
        Shape::Text if matches!(right, Shape::Text) => Ok(Some(Shape::Text)),
        Shape::Bool | Shape::Whole | Shape::Decimal | Shape::Text => Ok(None),
        Shape::List { item, max } => match right {
            Shape::List {
                item: other,
                max: most,
            } => { widest_list(alloc, item, other, (*max).max(*most)) }
            Shape::Bool
            | Shape::Whole
            | Shape::Decimal
            | Shape::Text
            | Shape::Object(_)
            | Shape::Optional(_) => Ok(None),
        },
        Shape::Object(left) => match right {
            Shape::Object(right) => widest_object(alloc, left, right),
            Shape::Bool
            | Shape::Whole
            | Shape::Decimal
            | Shape::Text
            | Shape::List { .. }
            | Shape::Optional(_) => Ok(None),
        },
        Shape::Optional(left) => match right {
            Shape::Optional(right) => widest_optional(alloc, left, right),
            Shape::Bool
            | Shape::Whole
            | Shape::Decimal
            | Shape::Text
            | Shape::List { .. }
            | Shape::Object(_) => Ok(None),
        },
    }
}

#[cycle(widest)]
fn widest_list(
    alloc: Global,
    left: &Shape,
    right: &Shape,
    max: usize,
) -> Result<Option<Shape>, AllocError>
    ensures { IfOk result (λ wider. option_map shape_view wider
        ≡ option_map (λ shape. list shape max) (widest (shape_view left.now) (shape_view right.now))) }
{
    match widest(alloc, left, right)? {
        Some(shape) => Ok(Some(Shape::List {
            item: Box::new(alloc, shape)?,
            max,
        })),
        None => Ok(None),
    }
}

#[cycle(widest)]
fn widest_optional(alloc: Global, left: &Shape, right: &Shape) -> Result<Option<Shape>, AllocError>
    ensures { IfOk result (λ shape. option_map shape_view shape
        ≡ option_map optional (widest (shape_view left.now) (shape_view right.now))) }
{
    match widest(alloc, left, right)? {
        Some(shape) => Ok(Some(Shape::Optional(Box::new(alloc, shape)?))),
        None => Ok(None),
    }
}

#[cycle(widest)]
fn widest_object(
    alloc: Global,
    left: &FieldShapes,
    right: &FieldShapes,
) -> Result<Option<Shape>, AllocError>
    ensures { IfOk result (λ shape. option_map shape_view shape
        ≡ option_map object (widest_fields (field_shapes_view left.now) (field_shapes_view right.now))) }
{
    match widest_fields(
        alloc,
        &left.shapes,
        left.names.as_slice(),
        &right.shapes,
        right.names.as_slice(),
    )? {
        Some(shapes) => Ok(Some(Shape::Object(FieldShapes {
            names: left.names.share()?,
            shapes,
        }))),
        None => Ok(None),
    }
}

/// The wider shapes of fields of the same names.
#[cycle(widest)]
#[tactic(auto, using(crate::proofs::WidestLemmas::lengths_differ))]
fn widest_fields(
    alloc: Global,
    left: &[Shape],
    names: &[Text],
    right: &[Shape],
    of: &[Text],
) -> Result<Option<Vec<Shape>>, AllocError>
    ensures { IfOk result (λ shapes. option_map (λ vec. field_shapes_of names.now (map shape_view vec.items)) shapes
        ≡ widest_fields (field_shapes_of names.now (map shape_view left.now))
        (field_shapes_of of.now (map shape_view right.now))) }
{
    let count = names.len().min(left.len());
    if count != of.len().min(right.len()) {
        return Ok(None);
    }
    let mut shapes = Vec::with_capacity(alloc, count)?;
    for index in 0..count {
        if names[index] != of[index] {
            return Ok(None);
        }
        match widest(alloc, &left[index], &right[index])? {
            Some(widest) => shapes.push(widest)?,
            None => return Ok(None),
        }
    }
    Ok(Some(shapes))
}
