//! Shapes by the way to them: a part of a shape is the whole that it is in and the path to it, so none is copied, and
//! those of the measured value's shape are known by their paths.

ghost use Rattle.std.specs.Prelude.{◌≡◌, true, IfOk, ◌++◌, ◌∷◌, [], Some, map};
ghost use Rattle.ar_value.specs.View.{shape_view};
ghost use Rattle.ar_verify.specs.Private.Roots.{root_view, child, field_or, number_named, root_field, part_at};
ghost use Rattle.ar_value.specs.Shape.{field_shapes_of};
ghost use Rattle.ar_verify.specs.Private.Parts.{part_view};

use crate::whole::{ShapeName, Whole};
use ar_value::sameness::are_same_shapes;
use ar_value::shape::Shape;
use ar_value::{Names, Text};
use std::alloc::{AllocError, Global};
use std::rc::Rc;

/// A whole shape: that of the measured value, or one that is shared by all that are a part of it.
#[derive(Drop)]
pub(crate) enum Root<M: ShapeName> {
    Measured(Whole<M>),
    Made(Rc<Shape>),
}

/// A part of a shape, by the numbers of the parts on the way to it.
#[derive(Drop)]
pub(crate) struct Part<M: ShapeName> {
    pub root: Root<M>,
    pub path: Vec<usize>,
}

impl<M: ShapeName> Root<M> {
    pub(crate) fn get(&self) -> &Shape
        ensures { shape_view result.now ≡ root_view self.now }
    {
        match self {
            Root::Measured(whole) => whole.get(),
            Root::Made(shape) => shape,
        }
    }

    /// It is refused only where a made one has more owners than can be counted.
    pub(crate) fn share(&self) -> Result<Root<M>, AllocError>
        ensures { IfOk result (λ shared. root_view shared ≡ root_view self.now) }
    {
        match self {
            Root::Measured(whole) => Ok(Root::Measured(whole.try_clone()?)),
            Root::Made(shape) => Ok(Root::Made(shape.clone()?)),
        }
    }

    pub(crate) fn is_measured(&self) -> bool
        ensures { result ≡ true → root_view self.now ≡ shape_view M.shape }
    {
        matches!(self, Root::Measured(_))
    }
}

/// The number of what a list or an optional shape is of.
pub(crate) const INNER: usize = 0;

#[tactic(auto, using(crate::proofs::Ways::this_field, crate::proofs::Ways::past_fields))]
fn field_or<'a>(number: usize, names: &[Text], shapes: &'a [Shape], other: &'a Shape) -> &'a Shape
    ensures { shape_view result.now
        ≡ field_or number (field_shapes_of names.now (map shape_view shapes.now)) (shape_view other.now) }
{
    if number < names.len().min(shapes.len()) {
        &shapes[number]
    } else {
        other
    }
}

/// A part of a shape by its number, or the shape where it has none of the number.
pub(crate) fn child(shape: &Shape, number: usize) -> &Shape
    ensures { shape_view result.now ≡ child number (shape_view shape.now) }
{
    match shape {
        Shape::List { item, .. } => item,
        Shape::Object(fields) => {
            field_or(number, fields.names.as_slice(), &fields.shapes, shape)
        }
        Shape::Optional(plain) => plain,
        Shape::Bool | Shape::Whole | Shape::Decimal | Shape::Text => shape,
    }
}

/// Follows a path from a shape to a part of it.
fn follow<'a>(whole: &'a Shape, path: &[usize]) -> &'a Shape
    ensures { shape_view result.now ≡ part_at path.now (shape_view whole.now) }
{
    let mut shape = whole;
    for number in path {
        shape = child(shape, *number);
    }
    shape
}

/// One step more.
fn longer(alloc: Global, path: &[usize], number: usize) -> Result<Vec<usize>, AllocError>
    ensures { IfOk result (λ longer. longer.items ≡ path.now ++ number ∷ []) }
{
    let mut longer = Vec::with_capacity(alloc, path.len().saturating_add(1))?;
    longer.extend_from_slice(path)?;
    longer.push(number)?;
    Ok(longer)
}

impl<M: ShapeName> Part<M> {
    fn whole(alloc: Global, root: Root<M>) -> Result<Rc<Part<M>>, AllocError>
        ensures { IfOk result (λ whole. part_view whole.value ≡ root_view root) }
    {
        Ok(Rc::new(
            alloc,
            Part {
                root,
                path: Vec::new(alloc),
            },
        )?)
    }

    /// The shape of the measured value.
    pub(crate) fn measured(alloc: Global, whole: &Whole<M>) -> Result<Rc<Part<M>>, AllocError>
        ensures { IfOk result (λ measured. part_view measured.value ≡ shape_view M.shape) }
    {
        Part::whole(alloc, Root::Measured(whole.try_clone()?))
    }

    /// A single shape.
    pub(crate) fn made(alloc: Global, shape: Shape) -> Result<Rc<Part<M>>, AllocError>
        ensures { IfOk result (λ made. part_view made.value ≡ shape_view shape) }
    {
        Part::whole(alloc, Root::Made(Rc::new(alloc, shape)?))
    }

    pub(crate) fn get(&self) -> &Shape
        ensures { shape_view result.now ≡ part_view self.now }
    {
        follow(self.root.get(), &self.path)
    }

    /// A part by its number.
    pub(crate) fn child(&self, alloc: Global, number: usize) -> Result<Rc<Part<M>>, AllocError>
        ensures { IfOk result (λ part. part_view part.value ≡ child number (part_view self.now)) }
    {
        let path = longer(alloc, &self.path, number)?;
        let root = self.root.share()?;
        Ok(Rc::new(alloc, Part { root, path })?)
    }
}

/// Whether two parts have one path in the measured value's shape.
fn lie_at_one_way<M: ShapeName>(left: &Part<M>, right: &Part<M>) -> bool
    ensures { result ≡ true → part_view left.now ≡ part_view right.now }
{
    left.root.is_measured()
        && right.root.is_measured()
        && left.path.as_slice() == right.path.as_slice()
}

/// Whether both are made by code, which makes scalars and lists of scalars, and are the same.
fn are_made_alike<M: ShapeName>(left: &Part<M>, right: &Part<M>) -> bool
    ensures { result ≡ true → part_view left.now ≡ part_view right.now }
{
    !left.root.is_measured()
        && !right.root.is_measured()
        && are_same_shapes(left.get(), right.get())
}

/// Whether it is known that two parts are the same. Large shapes are not compared.
pub(crate) fn are_one<M: ShapeName>(left: &Part<M>, right: &Part<M>) -> bool
    ensures { result ≡ true → part_view left.now ≡ part_view right.now }
{
    lie_at_one_way(left, right) || are_made_alike(left, right)
}

#[tactic(auto, using(crate::proofs::Ways::named_there, crate::proofs::Ways::named_past, crate::proofs::Ways::none_named))]
fn number_among(name: &str, names: &Names, shapes: &[Shape]) -> Option<usize>
    ensures { result ≡ number_named name.now (field_shapes_of names.now (map shape_view shapes.now)) }
{
    let number = names.index_of(name)?;
    if number < shapes.len() {
        Some(number)
    } else {
        None
    }
}

/// The number of a record's field, where the shape is that of a record that has one of the name.
pub(crate) fn field_number(name: &str, shape: &Shape) -> Option<usize>
    ensures { result ≡ root_field name.now (shape_view shape.now) }
{
    match shape {
        Shape::Object(fields) => number_among(name, &fields.names, &fields.shapes),
        Shape::Bool
        | Shape::Whole
        | Shape::Decimal
        | Shape::Text
        | Shape::List { .. }
        | Shape::Optional(_) => None,
    }
}
