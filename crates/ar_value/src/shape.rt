//! Shapes: what values a metric's measurements may have.

ghost use Rattle.std.specs.Prelude.{◌≡◌, IfOk, map, option_map};
ghost use Rattle.ar_value.specs.Shape.{shape_named};
ghost use Rattle.ar_value.specs.View.{field_shapes_view, shape_view};

use crate::names::Names;
use std::alloc::{AllocError, Global};

/// The declared shape of a metric's measurements. Contracts see it by `shape_view` of
/// `specs/View`.
#[cycle(shape)]
#[derive(Drop)]
pub enum Shape {
    Bool,
    Whole,
    Decimal,
    Text,
    /// Items of one shape, at most `max`.
    List { item: Box<Shape>, max: usize },
    /// Fields in byte order of their names.
    Object(FieldShapes),
    /// Nil, or a value of the shape.
    Optional(Box<Shape>),
}

/// The shapes of a record's fields, in the order of their names.
#[cycle(shape)]
#[derive(Drop)]
pub struct FieldShapes {
    pub names: Names,
    pub shapes: Vec<Shape>,
}

impl Shape {
    /// A copy, which takes as much memory as the shape has.
    pub fn copy(&self, alloc: Global) -> Result<Shape, AllocError>
        ensures { IfOk result (λ copy. shape_view copy ≡ shape_view self.now) }
    {
        copy_of(alloc, self)
    }
}

impl FieldShapes {
    /// The shape of the field of a name.
    pub fn get(&self, name: &str) -> Option<&Shape>
        ensures { option_map (λ shape. shape_view shape.now) result
            ≡ shape_named name.now (field_shapes_view self.now) }
    {
        self.shapes.get(self.names.index_of(name)?)
    }
}

#[cycle(copy_of)]
fn copy_of(alloc: Global, shape: &Shape) -> Result<Shape, AllocError>
    ensures { IfOk result (λ copy. shape_view copy ≡ shape_view shape.now) }
{
    match shape {
        Shape::Bool => Ok(Shape::Bool),
        Shape::Whole => Ok(Shape::Whole),
        Shape::Decimal => Ok(Shape::Decimal),
        Shape::Text => Ok(Shape::Text),
        Shape::List { item, max } => Ok(Shape::List {
            item: boxed_copy_of(alloc, item)?,
            max: *max,
        }),
        Shape::Object(fields) => Ok(Shape::Object(FieldShapes {
            names: fields.names.share()?,
            shapes: copies_of(alloc, &fields.shapes)?,
        })),
        Shape::Optional(plain) => Ok(Shape::Optional(boxed_copy_of(alloc, plain)?)),
    }
}

#[cycle(copy_of)]
fn boxed_copy_of(alloc: Global, shape: &Shape) -> Result<Box<Shape>, AllocError>
    ensures { IfOk result (λ copy. shape_view copy.value ≡ shape_view shape.now) }
{
    Ok(Box::new(alloc, copy_of(alloc, shape)?)?)
}

#[cycle(copy_of)]
fn copies_of(alloc: Global, shapes: &[Shape]) -> Result<Vec<Shape>, AllocError>
    ensures { IfOk result (λ copies. map shape_view copies.items ≡ map shape_view shapes.now) }
{
    let mut copies = Vec::with_capacity(alloc, shapes.len())?;
    for shape in shapes {
        copies.push(copy_of(alloc, shape)?)?;
    }
    Ok(copies)
}
