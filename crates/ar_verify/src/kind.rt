//! Kinds of operands.

ghost use Rattle.std.specs.Prelude.{◌≡◌, ◌||◌, IfOk, Some, option_map};
ghost use Rattle.ar_value.specs.Kind.{is_optional, merge, or_nil, plain, shaped, widest};
ghost use Rattle.ar_value.specs.Shape.{list, optional};
ghost use Rattle.ar_value.specs.View.{shape_view};
ghost use Rattle.ar_safety.specs.Effects.{family_in, family_of, is_scalar_kind};
ghost use Rattle.ar_verify.specs.Private.Kinds.{parts_kind, list_in, list_view};
ghost use Rattle.ar_verify.specs.Private.Lists.{is_list};
ghost use Rattle.ar_verify.specs.Private.Roots.{child};
ghost use Rattle.ar_verify.specs.Private.Shapes.{list_of, parts_view};

use crate::join::{meet, plain};
use crate::list::ListShape;
use crate::parts::Parts;
use crate::whole::ShapeName;
use ar_value::kind;
use ar_value::operator::{Family, Scalar};
use ar_value::shape::Shape;
use std::alloc::{AllocError, Global};
use std::rc::Rc;

/// The kind of an operand: that of the literal `nil`, or a shape.
#[derive(Drop)]
pub(crate) enum Kind<M: ShapeName> {
    Nil,
    Shape(Rc<Parts<M>>),
    /// The shape of nil and of what fits a shape that isn't optional. It isn't made.
    OrNil(Rc<Parts<M>>),
}

impl<M: ShapeName> ListShape<M> {
    /// The same shape for one owner more, which is refused only where there are more than can be counted.
    pub(crate) fn share(&self) -> Result<ListShape<M>, AllocError>
        ensures { IfOk result (λ shared. list_view shared ≡ list_view self.now) }
    {
        Ok(ListShape {
            parts: self.parts.clone()?,
        })
    }
}

impl<M: ShapeName> Kind<M> {
    /// The kind of operands of a single shape.
    pub(crate) fn made(alloc: Global, shape: Shape) -> Result<Kind<M>, AllocError>
        ensures { IfOk result (λ kind. parts_kind kind ≡ shaped (shape_view shape)) }
    {
        Ok(Kind::Shape(Parts::made(alloc, shape)?))
    }

    /// The same kind, whose shape has one owner more; refused only where there are more than can be counted.
    pub(crate) fn share(&self) -> Result<Kind<M>, AllocError>
        ensures { IfOk result (λ shared. parts_kind shared ≡ parts_kind self.now) }
    {
        match self {
            Kind::Nil => Ok(Kind::Nil),
            Kind::Shape(shape) => Ok(Kind::Shape(shape.clone()?)),
            Kind::OrNil(shape) => Ok(Kind::OrNil(shape.clone()?)),
        }
    }
}

/// A kind once more, as an operation gives it.
pub(crate) fn given_again<M: ShapeName>(kind: &Kind<M>) -> Result<Option<Kind<M>>, AllocError>
    ensures { IfOk result (λ given. option_map parts_kind given ≡ Some (parts_kind kind.now)) }
{
    Ok(Some(kind.share()?))
}

/// The kind of a single shape, as an operation gives it.
pub(crate) fn given_shape<M: ShapeName>(
    alloc: Global,
    shape: Shape,
) -> Result<Option<Kind<M>>, AllocError>
    ensures { IfOk result (λ given. option_map parts_kind given ≡ Some (shaped (shape_view shape))) }
{
    Ok(Some(Kind::made(alloc, shape)?))
}

/// The kind of a single shape, where there is one.
pub(crate) fn given_any<M: ShapeName>(
    alloc: Global,
    shape: Option<Shape>,
) -> Result<Option<Kind<M>>, AllocError>
    ensures { IfOk result
        (λ given. option_map parts_kind given ≡ option_map shaped (option_map shape_view shape)) }
{
    match shape {
        Some(shape) => given_shape(alloc, shape),
        None => Ok(None),
    }
}

/// The kind of a part of a shape, by its number, as an operation gives it.
pub(crate) fn given_part<M: ShapeName>(
    alloc: Global,
    whole: &Parts<M>,
    number: usize,
) -> Result<Option<Kind<M>>, AllocError>
    ensures { IfOk result
        (λ given. option_map parts_kind given ≡ Some (shaped (child number (parts_view whole.now)))) }
{
    Ok(Some(Kind::Shape(whole.child(alloc, number)?)))
}

/// The kind of nil and of what fits a shape.
fn nil_or<M: ShapeName>(shape: &Rc<Parts<M>>) -> Result<Option<Kind<M>>, AllocError>
    ensures { IfOk result
        (λ kind. option_map parts_kind kind ≡ Some (shaped (or_nil (parts_view shape.now.value)))) }
{
    if shape.is_optional() {
        Ok(Some(Kind::Shape(shape.clone()?)))
    } else {
        Ok(Some(Kind::OrNil(shape.clone()?)))
    }
}

/// The merge of nil, or what fits a plain shape, and what fits another.
fn merge_or_nil<M: ShapeName>(
    alloc: Global,
    left: &Parts<M>,
    right: &Parts<M>,
) -> Result<Option<Kind<M>>, AllocError>
    ensures { IfOk result (λ kind. option_map parts_kind kind
        ≡ option_map shaped (option_map optional (widest (parts_view left.now) (parts_view right.now)))) }
{
    match meet(alloc, left, right)? {
        Some(met) => Ok(Some(Kind::OrNil(met))),
        None => Ok(None),
    }
}

/// The merge of nil, or what fits a plain shape, and what fits another that may be optional.
fn merge_with_plain<M: ShapeName>(
    alloc: Global,
    left: &Parts<M>,
    right: &Rc<Parts<M>>,
) -> Result<Option<Kind<M>>, AllocError>
    ensures { IfOk result (λ kind. option_map parts_kind kind
        ≡ option_map shaped (option_map optional (widest (parts_view left.now) (plain (parts_view right.now.value))))) }
{
    let right = plain(alloc, right)?;
    merge_or_nil(alloc, left, &right)
}

/// The merge of plain shapes.
fn merge_plain<M: ShapeName>(
    alloc: Global,
    left: &Parts<M>,
    right: &Parts<M>,
) -> Result<Option<Kind<M>>, AllocError>
    ensures { IfOk result (λ kind. option_map parts_kind kind
        ≡ option_map shaped (widest (parts_view left.now) (parts_view right.now))) }
{
    match meet(alloc, left, right)? {
        Some(met) => Ok(Some(Kind::Shape(met))),
        None => Ok(None),
    }
}

fn is_either_optional<M: ShapeName>(left: &Parts<M>, right: &Parts<M>) -> bool
    ensures { result ≡ (is_optional (parts_view left.now) || is_optional (parts_view right.now)) }
{
    left.is_optional() || right.is_optional()
}

/// The merge of shapes, which may be optional.
fn merge_shapes<M: ShapeName>(
    alloc: Global,
    left: &Rc<Parts<M>>,
    right: &Rc<Parts<M>>,
) -> Result<Option<Kind<M>>, AllocError>
    ensures { IfOk result (λ kind. option_map parts_kind kind
        ≡ merge (shaped (parts_view left.now.value)) (shaped (parts_view right.now.value))) }
{
    if is_either_optional(left, right) {
        let left = plain(alloc, left)?;
        merge_with_plain(alloc, &left, right)
    } else {
        merge_plain(alloc, left, right)
    }
}

/// The kind of what has the one kind or the other, where there is one.
pub(crate) fn merge<M: ShapeName>(
    alloc: Global,
    left: &Kind<M>,
    right: &Kind<M>,
) -> Result<Option<Kind<M>>, AllocError>
    ensures { IfOk result (λ kind. option_map parts_kind kind ≡ merge (parts_kind left.now) (parts_kind right.now)) }
{
    match (left, right) {
        (Kind::Nil, Kind::Nil) => Ok(Some(Kind::Nil)),
        (Kind::Nil, Kind::Shape(shape)) | (Kind::Shape(shape), Kind::Nil) => nil_or(shape),
        (Kind::Nil, Kind::OrNil(_)) => given_again(right),
        (Kind::OrNil(_), Kind::Nil) => given_again(left),
        (Kind::Shape(left), Kind::Shape(right)) => merge_shapes(alloc, left, right),
        (Kind::OrNil(left), Kind::OrNil(right)) => merge_or_nil(alloc, left, right),
        (Kind::OrNil(of), Kind::Shape(shape)) | (Kind::Shape(shape), Kind::OrNil(of)) => {
            merge_with_plain(alloc, of, shape)
        }
    }
}

fn is_scalar_shape(scalar: Scalar, shape: &Shape) -> bool
    ensures { result ≡ is_scalar_kind scalar (shaped (shape_view shape.now)) }
{
    match scalar {
        Scalar::Bool => matches!(shape, Shape::Bool),
        Scalar::Whole => matches!(shape, Shape::Whole),
        Scalar::Decimal => matches!(shape, Shape::Decimal),
        Scalar::Text => matches!(shape, Shape::Text),
    }
}

pub(crate) fn is_scalar<M: ShapeName>(scalar: Scalar, kind: &Kind<M>) -> bool
    ensures { result ≡ is_scalar_kind scalar (parts_kind kind.now) }
{
    match kind {
        Kind::Nil | Kind::OrNil(_) => false,
        Kind::Shape(shape) => is_scalar_shape(scalar, shape.representative()),
    }
}

pub(crate) fn family_of(shape: &Shape) -> Option<Family>
    ensures { result ≡ family_of (shape_view shape.now) }
{
    match shape {
        Shape::Bool => Some(Family::Boolean),
        Shape::Whole | Shape::Decimal => Some(Family::Number),
        Shape::Text => Some(Family::Text),
        Shape::List { .. } | Shape::Object(_) | Shape::Optional(_) => None,
    }
}

/// The family of a scalar that may be nil.
pub(crate) fn family_in<M: ShapeName>(kind: &Kind<M>) -> Option<Family>
    ensures { result ≡ family_in (parts_kind kind.now) }
{
    match kind {
        Kind::Nil => None,
        Kind::Shape(shape) => family_of(kind::plain(shape.representative())),
        Kind::OrNil(shape) => family_of(shape.representative()),
    }
}

fn is_list_shape(shape: &Shape) -> bool
    ensures { result ≡ is_list (shape_view shape.now) }
{
    match shape {
        Shape::List { .. } => true,
        Shape::Bool
        | Shape::Whole
        | Shape::Decimal
        | Shape::Text
        | Shape::Object(_)
        | Shape::Optional(_) => false,
    }
}

fn is_list<M: ShapeName>(shape: &Parts<M>) -> bool
    ensures { result ≡ is_list (parts_view shape.now) }
{
    is_list_shape(shape.representative())
}

/// The shape of a list, where the kind is that of one.
pub(crate) fn as_list<M: ShapeName>(kind: &Kind<M>) -> Option<&Parts<M>>
    ensures { option_map (λ list. list_of list.now) result ≡ list_in (parts_kind kind.now) }
{
    match kind {
        Kind::Nil | Kind::OrNil(_) => None,
        Kind::Shape(list) => { if is_list(list) { Some(list) } else { None } }
    }
}

/// The same, of a kind that isn't needed any more.
pub(crate) fn into_list<M: ShapeName>(kind: Kind<M>) -> Option<ListShape<M>>
    ensures { option_map list_view result ≡ list_in (parts_kind kind) }
{
    match kind {
        Kind::Nil | Kind::OrNil(_) => None,
        Kind::Shape(parts) => {
            if is_list(&parts) {
                Some(ListShape { parts })
            } else {
                None
            }
        }
    }
}

/// The kind of a list of the same items, and of as many at most.
pub(crate) fn kind_of_list<M: ShapeName>(of: &ListShape<M>) -> Result<Kind<M>, AllocError>
    ensures { IfOk result (λ kind. parts_kind kind ≡ shaped (list (list_view of.now).0 (list_view of.now).1)) }
{
    Ok(Kind::Shape(of.parts.clone()?))
}
