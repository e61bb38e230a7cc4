//! What operations that continue at the next index give of the kinds on a stack, which they take. What
//! they give isn't pushed here.

ghost use Rattle.std.specs.Prelude.{◌≡◌, IfOk, Some, map, option_map, string_bytes, slice_get};
ghost use Rattle.ar_value.specs.Kind.{shaped, scalar_shape};
ghost use Rattle.ar_value.specs.View.{shape_view};
ghost use Rattle.ar_safety.specs.Effects.{binary_kind, kinds_left, field_kind_left, list_kind_left, on_one_kind, on_two_kinds, pushed_kind, unary_kind};
ghost use Rattle.ar_verify.specs.Private.Kinds.{parts_kind};
ghost use Rattle.ar_verify.specs.Private.Shapes.{list_of};
ghost use Rattle.ar_verify.specs.Private.Stacks.{Leaves, TakesScalar, from_top};

use crate::kind::{Kind, given_part, given_shape, is_scalar};
use crate::operators::{apply_binary, apply_unary, field_of};
use crate::parts::Parts;
use crate::path::INNER;
use crate::stack::pop;
use crate::whole::{ShapeName, Whole};
use ar_op::code::Code;
use ar_op::op::{Op, Source};
use ar_value::operator::{BinaryOperator, Scalar, UnaryOperator};
use ar_value::shape::Shape;
use std::alloc::{AllocError, Global};

/// The kind of a scalar.
fn scalar<M: ShapeName>(alloc: Global, scalar: Scalar) -> Result<Option<Kind<M>>, AllocError>
    ensures { IfOk result (λ given. option_map parts_kind given ≡ Some (shaped (scalar_shape scalar))) }
{
    given_shape(alloc, scalar_shape(scalar))
}

/// The kind of the measured value.
fn measured_kind<M: ShapeName>(
    alloc: Global,
    measured: &Whole<M>,
) -> Result<Option<Kind<M>>, AllocError>
    ensures { IfOk result (λ given. option_map parts_kind given ≡ Some (shaped (shape_view M.shape))) }
{
    Ok(Some(Kind::Shape(Parts::measured(alloc, measured)?)))
}

/// The kind of the items of a list, if there is one.
fn item_kind<M: ShapeName>(
    alloc: Global,
    list: Option<&Parts<M>>,
) -> Result<Option<Kind<M>>, AllocError>
    ensures { IfOk result (λ given. option_map parts_kind given
        ≡ option_map (λ list. shaped (list_of list.now).0) list.entry) }
{
    match list {
        Some(list) => given_part(alloc, list, INNER),
        None => Ok(None),
    }
}

/// What is pushed, where the innermost loop, if there is one, is over a list.
fn pushed<M: ShapeName>(
    alloc: Global,
    measured: &Whole<M>,
    here: Option<&Parts<M>>,
    source: Source,
) -> Result<Option<Kind<M>>, AllocError>
    ensures { IfOk result (λ given. option_map parts_kind given
        ≡ pushed_kind (shape_view M.shape) (option_map (λ list. (list_of list.now).0) here.entry) source) }
{
    match source {
        Source::Bool(_) => scalar(alloc, Scalar::Bool),
        Source::Whole(_) => scalar(alloc, Scalar::Whole),
        Source::Decimal(_) => scalar(alloc, Scalar::Decimal),
        Source::Text(_) => scalar(alloc, Scalar::Text),
        Source::Nil => Ok(Some(Kind::Nil)),
        Source::Result => measured_kind(alloc, measured),
        Source::Item => item_kind(alloc, here),
    }
}

/// Takes an operand.
fn unary<M: ShapeName>(
    alloc: Global,
    operator: UnaryOperator,
    kinds: &mut Vec<Kind<M>>,
) -> Result<Option<Kind<M>>, AllocError>
    ensures { IfOk result
        (λ given. Leaves given kinds.new.items (on_one_kind (unary_kind operator) (from_top kinds.old.items))) }
{
    match pop(kinds) {
        Some(operand) => apply_unary(alloc, operator, &operand),
        None => Ok(None),
    }
}

/// Takes the left operand, where the right one is taken.
fn binary_with<M: ShapeName>(
    alloc: Global,
    operator: BinaryOperator,
    right: &Kind<M>,
    kinds: &mut Vec<Kind<M>>,
) -> Result<Option<Kind<M>>, AllocError>
    ensures { IfOk result (λ given. Leaves given kinds.new.items
        (on_one_kind (λ left. binary_kind operator left (parts_kind right.now)) (from_top kinds.old.items))) }
{
    match pop(kinds) {
        Some(left) => apply_binary(alloc, operator, &left, right),
        None => Ok(None),
    }
}

/// Takes two operands, the right one from the top.
fn binary<M: ShapeName>(
    alloc: Global,
    operator: BinaryOperator,
    kinds: &mut Vec<Kind<M>>,
) -> Result<Option<Kind<M>>, AllocError>
    ensures { IfOk result
        (λ given. Leaves given kinds.new.items (on_two_kinds (binary_kind operator) (from_top kinds.old.items))) }
{
    match pop(kinds) {
        Some(right) => binary_with(alloc, operator, &right, kinds),
        None => Ok(None),
    }
}

/// The name of a number.
fn name_at(names: &[String], number: u32) -> Option<&str>
    ensures { option_map (λ name. name.now) result ≡ slice_get (map string_bytes names.now) number }
{
    let number = number as usize;
    if number < names.len() {
        Some(names[number].as_str())
    } else {
        None
    }
}

/// Takes a record and gives its field, by the number of the name.
fn field<M: ShapeName>(
    alloc: Global,
    code: &Code,
    number: u32,
    kinds: &mut Vec<Kind<M>>,
) -> Result<Option<Kind<M>>, AllocError>
    ensures { IfOk result
        (λ given. Leaves given kinds.new.items (field_kind_left code.now number (from_top kinds.old.items))) }
{
    let Some(name) = name_at(code.names(), number) else {
        return Ok(None);
    };
    match pop(kinds) {
        Some(operand) => field_of(alloc, name, &operand),
        None => Ok(None),
    }
}

fn scalar_shape(scalar: Scalar) -> Shape
    ensures { shape_view result ≡ scalar_shape scalar }
{
    match scalar {
        Scalar::Bool => Shape::Bool,
        Scalar::Whole => Shape::Whole,
        Scalar::Decimal => Shape::Decimal,
        Scalar::Text => Shape::Text,
    }
}

/// Takes an operand off the top and says whether it was a scalar of a kind.
pub(crate) fn takes_scalar<M: ShapeName>(scalar: Scalar, kinds: &mut Vec<Kind<M>>) -> bool
    ensures { TakesScalar scalar (from_top kinds.old.items) (from_top kinds.new.items) result }
{
    match pop(kinds) {
        Some(kind) => is_scalar(scalar, &kind),
        None => false,
    }
}

/// Takes n scalars of a kind and gives the list of them.
#[tactic(auto, using(crate::proofs::Tops::all_taken))]
fn make_list<M: ShapeName>(
    alloc: Global,
    scalar: Scalar,
    count: u8,
    kinds: &mut Vec<Kind<M>>,
) -> Result<Option<Kind<M>>, AllocError>
    ensures { IfOk result
        (λ given. Leaves given kinds.new.items (list_kind_left scalar count count (from_top kinds.old.items))) }
{
    for _taken in 0..count {
        if !takes_scalar(scalar, kinds) {
            return Ok(None);
        }
    }
    let list = Shape::List {
        item: Box::new(alloc, scalar_shape(scalar))?,
        max: usize::from(count),
    };
    given_shape(alloc, list)
}

/// Takes the operands of an operation that continues at the next index, and gives its result.
pub(crate) fn apply<M: ShapeName>(
    alloc: Global,
    code: &Code,
    measured: &Whole<M>,
    here: Option<&Parts<M>>,
    op: Op,
    kinds: &mut Vec<Kind<M>>,
) -> Result<Option<Kind<M>>, AllocError>
    ensures { IfOk result (λ given. Leaves given kinds.new.items
        (kinds_left code.now (shape_view M.shape) (option_map (λ list. (list_of list.now).0) here.entry) op
        (from_top kinds.old.items))) }
{
    match op {
        Op::Push(source) => pushed(alloc, measured, here, source),
        Op::MakeList { scalar, count } => make_list(alloc, scalar, count, kinds),
        Op::Field(number) => field(alloc, code, number, kinds),
        Op::Unary(operator) => unary(alloc, operator, kinds),
        Op::Binary(operator) => binary(alloc, operator, kinds),
        Op::Jump(..) | Op::Enter(..) | Op::Step(..) | Op::Return => Ok(None),
    }
}
