//! Operands whose kinds are known.

ghost use Rattle.std.specs.Prelude.{◌≡◌, Some, false, IfOk, MatchOption, option_map};
ghost use Rattle.ar_value.specs.Answer.{Gives};
ghost use Rattle.ar_value.specs.Kind.{common, nil, shaped};
ghost use Rattle.ar_value.specs.Kind as shapes;
ghost use Rattle.ar_value.specs.View.{shape_view};
ghost use Rattle.ar_check.specs.Check.{field_shape, given, item_shape, plain_kind};
ghost use Rattle.ar_check.specs.Operand.{is_text_operand, is_boolean, unwrapped, numbers, plain_of, plain_tree, scalar, scalar_of, converted};
ghost use Rattle.ar_tree.specs.Typed as typed;
ghost use Rattle.ar_tree.specs.Views.{typed_view};
ghost use Rattle.ar_check.specs.Memory.{is_memory};
ghost use Rattle.ar_check.specs.Private.Inside.{boxed_view, view_of_kind, operand_view, shaped_answer, converted_where, turns};

use crate::build;
use crate::error::TypeError;
use ar_tree::typed::Typed;
use ar_value::holding::zip_ok;
use ar_value::kind;
use ar_value::operator::{Numbers, Scalar, UnaryOperator};
use ar_value::sameness::are_same_shapes;
use ar_value::shape::Shape;
use std::alloc::{AllocError, Global};

/// The kind of an operand: that of the literal `nil`, or a shape, which is borrowed where it is a part
/// of a declared one.
#[derive(Drop)]
pub(crate) enum Kind<'s> {
    Nil,
    Declared(&'s Shape),
    Made(Shape),
}

/// A tree with its kind.
#[derive(Drop)]
pub(crate) struct Operand<'s> {
    pub tree: Box<Typed>,
    pub kind: Kind<'s>,
}

/// A tree with its kind, in a box.
pub(crate) fn given<'s>(
    alloc: Global,
    tree: Box<Typed>,
    kind: Kind<'s>,
) -> Result<Box<Operand<'s>>, TypeError>
    ensures { Gives is_memory boxed_view result (given (typed_view tree.value) (view_of_kind kind.entry)) }
{
    Ok(Box::new(alloc, Operand { tree, kind })?)
}

/// A unary operator on a tree, with the kind of what it gives.
pub(crate) fn given_unary<'s>(
    alloc: Global,
    operator: UnaryOperator,
    tree: Box<Typed>,
    kind: Kind<'s>,
) -> Result<Box<Operand<'s>>, TypeError>
    ensures { Gives is_memory boxed_view result
        (given (typed.unary operator (typed_view tree.value)) (view_of_kind kind.entry)) }
{
    let (kind, tree) = zip_ok(kind, build::unary(alloc, operator, tree))?;
    given(alloc, tree, kind)
}

/// The shape of what isn't nil.
pub(crate) fn plain_shape<'a>(kind: &'a Kind<'_>) -> Option<&'a Shape>
    ensures { option_map (λ shape. shape_view shape.now) result ≡ plain_of (view_of_kind kind.now) }
{
    match kind {
        Kind::Nil => None,
        Kind::Declared(shape) => Some(kind::plain(shape)),
        Kind::Made(shape) => Some(kind::plain(shape)),
    }
}

/// A tree unwrapped, where its kind says that it may be nil.
pub(crate) fn unwrapped_tree(
    alloc: Global,
    kind: &Kind<'_>,
    tree: Box<Typed>,
) -> Result<Box<Typed>, AllocError>
    ensures { IfOk result (λ made. typed_view made.value ≡ plain_tree (view_of_kind kind.now) (typed_view tree.value)) }
{
    let is_optional = match kind {
        Kind::Nil => false,
        Kind::Declared(shape) => kind::is_optional(shape),
        Kind::Made(shape) => kind::is_optional(shape),
    };
    if is_optional {
        build::unary(alloc, UnaryOperator::Need, tree)
    } else {
        Ok(tree)
    }
}

/// An operand unwrapped.
pub(crate) fn unwrapped(alloc: Global, operand: Box<Operand<'_>>) -> Result<Box<Typed>, AllocError>
    ensures { IfOk result (λ made. typed_view made.value ≡ unwrapped (operand_view operand.entry.value)) }
{
    let Operand { tree, kind } = Box::into_inner(operand);
    unwrapped_tree(alloc, &kind, tree)
}

/// An operand's tree, where its kind is known.
pub(crate) fn into_tree(operand: Box<Operand<'_>>) -> Box<Typed>
    ensures { typed_view result.value ≡ (operand_view operand.entry.value).tree }
{
    Box::into_inner(operand).tree
}

/// Whether an operand is a boolean once it is plain, and its tree unwrapped.
pub(crate) fn as_boolean(
    alloc: Global,
    operand: Box<Operand<'_>>,
) -> Result<(bool, Box<Typed>), AllocError>
    ensures boolean { IfOk result (λ made. made.0 ≡ is_boolean (operand_view operand.entry.value)) }
    ensures tree { IfOk result (λ made. typed_view made.1.value ≡ unwrapped (operand_view operand.entry.value)) }
{
    let is_boolean = is_boolean(&operand);
    Ok((is_boolean, unwrapped(alloc, operand)?))
}

pub(crate) fn scalar_of(shape: &Shape) -> Option<Scalar>
    ensures { result ≡ scalar_of (shape_view shape.now) }
{
    match shape {
        Shape::Bool => Some(Scalar::Bool),
        Shape::Whole => Some(Scalar::Whole),
        Shape::Decimal => Some(Scalar::Decimal),
        Shape::Text => Some(Scalar::Text),
        Shape::List { .. } | Shape::Object(_) | Shape::Optional(_) => None,
    }
}

/// What scalar an operand is once it is plain.
pub(crate) fn scalar(operand: &Operand<'_>) -> Option<Scalar>
    ensures { result ≡ scalar (operand_view operand.now) }
{
    scalar_of(plain_shape(&operand.kind)?)
}

/// What numbers an operand has once it is plain.
pub(crate) fn numbers(operand: &Operand<'_>) -> Option<Numbers>
    ensures { result ≡ numbers (operand_view operand.now) }
{
    match scalar(operand)? {
        Scalar::Whole => Some(Numbers::Wholes),
        Scalar::Decimal => Some(Numbers::Decimals),
        Scalar::Bool | Scalar::Text => None,
    }
}

/// Whether an operand is a boolean once it is plain.
pub(crate) fn is_boolean(operand: &Operand<'_>) -> bool
    ensures { result ≡ is_boolean (operand_view operand.now) }
{
    matches!(scalar(operand), Some(Scalar::Bool))
}

/// Whether an operand is a text once it is plain.
pub(crate) fn is_text(operand: &Operand<'_>) -> bool
    ensures { result ≡ is_text_operand (operand_view operand.now) }
{
    matches!(scalar(operand), Some(Scalar::Text))
}

fn field_in<'a>(at: usize, name: &str, shape: &'a Shape) -> Result<&'a Shape, TypeError>
    ensures { Gives (λ _. false) (λ found. shape_view found.now) result
        (field_shape at name.now (plain_of (shaped (shape_view shape.now)))) }
{
    match kind::plain(shape) {
        Shape::Object(fields) => match fields.get(name) {
            Some(found) => Ok(found),
            None => Err(TypeError::NoSuchField(at)),
        },
        Shape::Bool
        | Shape::Whole
        | Shape::Decimal
        | Shape::Text
        | Shape::List { .. }
        | Shape::Optional(_) => Err(TypeError::WrongOperand(at)),
    }
}

/// The kind of a record's field.
#[tactic(auto, using(crate::proofs::Freely::gives_freely))]
pub(crate) fn field_kind<'s>(
    alloc: Global,
    at: usize,
    name: &str,
    kind: &Kind<'s>,
) -> Result<Kind<'s>, TypeError>
    ensures { Gives is_memory view_of_kind result
        (shaped_answer (field_shape at name.now (plain_of (view_of_kind kind.now)))) }
{
    match kind {
        Kind::Nil => Err(TypeError::WrongOperand(at)),
        Kind::Declared(shape) => Ok(Kind::Declared(field_in(at, name, shape)?)),
        Kind::Made(shape) => Ok(Kind::Made(field_in(at, name, shape)?.copy(alloc)?)),
    }
}

fn item_in(at: usize, shape: &Shape) -> Result<&Shape, TypeError>
    ensures { Gives (λ _. false) (λ found. shape_view found.now) result
        (item_shape at (plain_of (shaped (shape_view shape.now)))) }
{
    match kind::plain(shape) {
        Shape::List { item, .. } => Ok(item),
        Shape::Bool
        | Shape::Whole
        | Shape::Decimal
        | Shape::Text
        | Shape::Object(_)
        | Shape::Optional(_) => Err(TypeError::NotAList(at)),
    }
}

/// The shape of a list's items.
pub(crate) fn item_shape<'a>(at: usize, kind: &'a Kind<'_>) -> Result<&'a Shape, TypeError>
    ensures { Gives (λ _. false) (λ found. shape_view found.now) result
        (item_shape at (plain_of (view_of_kind kind.now))) }
{
    match kind {
        Kind::Nil => Err(TypeError::NotAList(at)),
        Kind::Declared(shape) => item_in(at, shape),
        Kind::Made(shape) => item_in(at, shape),
    }
}

/// The kind of a list's items.
#[tactic(auto, using(crate::proofs::Freely::gives_freely))]
pub(crate) fn item_kind<'s>(
    alloc: Global,
    at: usize,
    kind: &Kind<'s>,
) -> Result<Kind<'s>, TypeError>
    ensures { Gives is_memory view_of_kind result (shaped_answer (item_shape at (plain_of (view_of_kind kind.now)))) }
{
    match kind {
        Kind::Nil => Err(TypeError::NotAList(at)),
        Kind::Declared(shape) => Ok(Kind::Declared(item_in(at, shape)?)),
        Kind::Made(shape) => Ok(Kind::Made(item_in(at, shape)?.copy(alloc)?)),
    }
}

/// The kind without nil.
pub(crate) fn plain_kind<'s>(alloc: Global, kind: &Kind<'s>) -> Result<Kind<'s>, AllocError>
    ensures { IfOk result (λ plain. view_of_kind plain ≡ plain_kind (view_of_kind kind.now)) }
{
    match kind {
        Kind::Nil => Ok(Kind::Nil),
        Kind::Declared(shape) => Ok(Kind::Declared(kind::plain(shape))),
        Kind::Made(shape) => Ok(Kind::Made(kind::plain(shape).copy(alloc)?)),
    }
}

/// A copy of a kind: only a made shape is copied.
fn clone_kind<'s>(alloc: Global, kind: &Kind<'s>) -> Result<Kind<'s>, AllocError>
    ensures { IfOk result (λ copy. view_of_kind copy ≡ view_of_kind kind.now) }
{
    match kind {
        Kind::Nil => Ok(Kind::Nil),
        Kind::Declared(shape) => Ok(Kind::Declared(shape)),
        Kind::Made(shape) => Ok(Kind::Made(shape.copy(alloc)?)),
    }
}

/// A copy of one of two kinds that are the same: of the one that is borrowed, if there is one.
fn clone_either<'s>(
    alloc: Global,
    left: &Kind<'s>,
    right: &Kind<'s>,
) -> Result<Kind<'s>, AllocError>
    requires { view_of_kind left.now ≡ view_of_kind right.now }
    ensures { IfOk result (λ kind. view_of_kind kind ≡ view_of_kind left.now) }
{
    match left {
        Kind::Nil | Kind::Declared(_) => clone_kind(alloc, left),
        Kind::Made(_) => clone_kind(alloc, right),
    }
}

/// The kind of nil and of what has a kind.
fn or_nil<'s>(alloc: Global, kind: &Kind<'s>) -> Result<Kind<'s>, AllocError>
    ensures { IfOk result (λ either. Some (view_of_kind either) ≡ common nil (view_of_kind kind.now)) }
{
    match shape_of(kind) {
        None => Ok(Kind::Nil),
        Some(shape) if kind::is_optional(shape) => clone_kind(alloc, kind),
        Some(shape) => Ok(Kind::Made(kind::or_nil(alloc, shape)?)),
    }
}

/// The shape of a kind, if it isn't that of the literal `nil`.
fn shape_of<'a>(kind: &'a Kind<'_>) -> Option<&'a Shape>
    ensures { MatchOption result (view_of_kind kind.now ≡ nil)
        (λ shape. view_of_kind kind.now ≡ shaped (shape_view shape.now)) }
{
    match kind {
        Kind::Nil => None,
        Kind::Declared(shape) => Some(shape),
        Kind::Made(shape) => Some(shape),
    }
}

/// The kind that two have in common. Of two that are the same no shape is copied that is borrowed.
pub(crate) fn common<'s>(
    alloc: Global,
    left: &Kind<'s>,
    right: &Kind<'s>,
) -> Result<Option<Kind<'s>>, AllocError>
    ensures { IfOk result (λ kind. option_map view_of_kind kind
        ≡ common (view_of_kind left.now) (view_of_kind right.now)) }
{
    let (Some(one), Some(other)) = (shape_of(left), shape_of(right)) else {
        let kind = if matches!(left, Kind::Nil) {
            right
        } else {
            left
        };
        return Ok(Some(or_nil(alloc, kind)?));
    };
    if are_same_shapes(one, other) {
        return Ok(Some(clone_either(alloc, left, right)?));
    }
    match kind::common_shapes(alloc, one, other)? {
        Some(shape) => Ok(Some(Kind::Made(shape))),
        None => Ok(None),
    }
}

/// Whether a tree of a kind is a whole next to a decimal.
pub(crate) fn converts(other: &Kind<'_>, kind: &Kind<'_>) -> bool
    ensures { result ≡ turns (view_of_kind other.now) (view_of_kind kind.now) }
{
    let (Some(other), Some(shape)) = (plain_shape(other), plain_shape(kind)) else {
        return false;
    };
    matches!(other, Shape::Decimal) && matches!(shape, Shape::Whole)
}

/// A tree converted to a decimal, where it is to be.
pub(crate) fn converted(
    alloc: Global,
    converts: bool,
    tree: Box<Typed>,
) -> Result<Box<Typed>, AllocError>
    ensures { IfOk result (λ made. typed_view made.value ≡ converted_where converts (typed_view tree.value)) }
{
    if converts {
        build::unary(alloc, UnaryOperator::ToDecimal, tree)
    } else {
        Ok(tree)
    }
}

/// The trees of two operands, unwrapped.
pub(crate) fn both_unwrapped(
    alloc: Global,
    left: Box<Operand<'_>>,
    right: Box<Operand<'_>>,
) -> Result<(Box<Typed>, Box<Typed>), AllocError>
    ensures left { IfOk result (λ trees. typed_view trees.0.value ≡ unwrapped (operand_view left.entry.value)) }
    ensures right { IfOk result (λ trees. typed_view trees.1.value ≡ unwrapped (operand_view right.entry.value)) }
{
    let first = unwrapped(alloc, left)?;
    let second = unwrapped(alloc, right)?;
    Ok((first, second))
}

/// The trees of two operands, each converted where the other is a decimal.
pub(crate) fn converted_both(
    alloc: Global,
    left: Box<Operand<'_>>,
    right: Box<Operand<'_>>,
) -> Result<(Box<Typed>, Box<Typed>), AllocError>
    ensures left { IfOk result (λ trees. typed_view trees.0.value
        ≡ converted (operand_view right.entry.value).kind (operand_view left.entry.value).kind
        (operand_view left.entry.value).tree) }
    ensures right { IfOk result (λ trees. typed_view trees.1.value
        ≡ converted (operand_view left.entry.value).kind (operand_view right.entry.value).kind
        (operand_view right.entry.value).tree) }
{
    let converts_left = converts(&right.kind, &left.kind);
    let converts_right = converts(&left.kind, &right.kind);
    let (left, right) = (into_tree(left), into_tree(right));
    let left = converted(alloc, converts_left, left)?;
    let right = converted(alloc, converts_right, right)?;
    Ok((left, right))
}

/// The kind without nil.
pub(crate) fn without_nil<'s>(kind: Kind<'s>) -> Kind<'s>
    ensures { view_of_kind result ≡ plain_kind (view_of_kind kind.entry) }
{
    match kind {
        Kind::Nil => Kind::Nil,
        Kind::Declared(shape) => Kind::Declared(kind::plain(shape)),
        Kind::Made(shape) => Kind::Made(into_plain(shape)),
    }
}

/// The shape of what isn't nil.
fn into_plain(shape: Shape) -> Shape
    ensures { shape_view result ≡ shapes.plain (shape_view shape) }
{
    match shape {
        Shape::Optional(plain) => Box::into_inner(plain),
        Shape::Bool
        | Shape::Whole
        | Shape::Decimal
        | Shape::Text
        | Shape::List { .. }
        | Shape::Object(_) => shape,
    }
}
