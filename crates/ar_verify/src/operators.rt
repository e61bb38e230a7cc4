//! What operators give of the kinds of their operands: nothing where they don't take these.

ghost use Rattle.std.specs.Prelude.{◌≡◌, ◌&&◌, IfOk, option_map};
ghost use Rattle.ar_value.specs.Kind.{plain, shaped, boolean_kind};
ghost use Rattle.ar_value.specs.Shape.{optional};
ghost use Rattle.ar_value.specs.View.{shape_view};
ghost use Rattle.ar_safety.specs.Effects.{decimal_kind, decimal_shape, family_in, family_of, is_scalar_kind, binary_kind, decimals_kind, default_kind, equal_kind, field_kind, is_compared, is_family, is_number, item_kind, length_kind, member_kind, needed_kind, negative_kind, are_one_family, opposite_kind, order_kind, quotient_kind, same_kind, unary_kind, where_taken, wholes_kind};
ghost use Rattle.ar_verify.specs.Private.Kinds.{parts_kind};
ghost use Rattle.ar_verify.specs.Private.Roots.{root_field};
ghost use Rattle.ar_verify.specs.Private.Shapes.{list_of, parts_view};

use crate::join::plain;
use crate::kind::{
    Kind, as_list, family_in, family_of, given_again, given_any, given_part, given_shape,
    is_scalar, merge,
};
use crate::parts::Parts;
use crate::path::{INNER, child, field_number};
use crate::whole::ShapeName;
use ar_value::kind;
use ar_value::operator::{
    Arithmetic, BinaryOperator, Compared, Family, Numbers, Scalar, UnaryOperator,
};
use ar_value::shape::Shape;
use std::alloc::{AllocError, Global};

/// The kind of a shape, where the operands are taken.
fn where_taken<M: ShapeName>(
    alloc: Global,
    is_taken: bool,
    shape: Shape,
) -> Result<Option<Kind<M>>, AllocError>
    ensures { IfOk result (λ given. option_map parts_kind given ≡ where_taken is_taken (shaped (shape_view shape))) }
{
    if is_taken {
        given_shape(alloc, shape)
    } else {
        Ok(None)
    }
}

/// The number of a record's field, where there is one of the name.
fn number_of<M: ShapeName>(name: &str, shape: &Parts<M>) -> Option<usize>
    ensures { result ≡ root_field name.now (parts_view shape.now) }
{
    field_number(name, shape.representative())
}

/// The field of a record, by its name.
pub(crate) fn field_of<M: ShapeName>(
    alloc: Global,
    name: &str,
    operand: &Kind<M>,
) -> Result<Option<Kind<M>>, AllocError>
    ensures { IfOk result (λ given. option_map parts_kind given ≡ field_kind name.now (parts_kind operand.now)) }
{
    match operand {
        Kind::Nil | Kind::OrNil(_) => Ok(None),
        Kind::Shape(record) => match number_of(name, record) {
            Some(number) => given_part(alloc, record, number),
            None => Ok(None),
        },
    }
}

fn item<M: ShapeName>(
    alloc: Global,
    list: &Kind<M>,
    index: &Kind<M>,
) -> Result<Option<Kind<M>>, AllocError>
    ensures { IfOk result
        (λ given. option_map parts_kind given ≡ item_kind (parts_kind list.now) (parts_kind index.now)) }
{
    if !is_scalar(Scalar::Whole, index) {
        return Ok(None);
    }
    match as_list(list) {
        Some(list) => given_part(alloc, list, INNER),
        None => Ok(None),
    }
}

fn length<M: ShapeName>(alloc: Global, list: &Kind<M>) -> Result<Option<Kind<M>>, AllocError>
    ensures { IfOk result (λ given. option_map parts_kind given ≡ length_kind (parts_kind list.now)) }
{
    where_taken(alloc, as_list(list).is_some(), Shape::Whole)
}

fn needed<M: ShapeName>(alloc: Global, operand: &Kind<M>) -> Result<Option<Kind<M>>, AllocError>
    ensures { IfOk result (λ given. option_map parts_kind given ≡ needed_kind (parts_kind operand.now)) }
{
    match operand {
        Kind::Nil => Ok(None),
        Kind::Shape(shape) => Ok(Some(Kind::Shape(plain(alloc, shape)?))),
        Kind::OrNil(shape) => Ok(Some(Kind::Shape(shape.clone()?))),
    }
}

/// The kind of what isn't nil, or of what replaces it.
fn default<M: ShapeName>(
    alloc: Global,
    operand: &Kind<M>,
    other: &Kind<M>,
) -> Result<Option<Kind<M>>, AllocError>
    ensures { IfOk result
        (λ given. option_map parts_kind given ≡ default_kind (parts_kind operand.now) (parts_kind other.now)) }
{
    match needed(alloc, operand)? {
        Some(needed) => merge(alloc, &needed, other),
        None => given_again(other),
    }
}

/// The shape of a whole as a decimal, also of what is nil or a whole.
fn decimal_shape(alloc: Global, shape: &Shape) -> Result<Option<Shape>, AllocError>
    ensures { IfOk result (λ decimal. option_map shape_view decimal ≡ decimal_shape (shape_view shape.now)) }
{
    match shape {
        Shape::Whole => Ok(Some(Shape::Decimal)),
        Shape::Optional(plain) => or_nil(alloc, decimal_shape(alloc, plain)?),
        Shape::Bool | Shape::Decimal | Shape::Text | Shape::List { .. } | Shape::Object(_) => {
            Ok(None)
        }
    }
}

/// The shape of nil and of what fits a shape, where there is one.
fn or_nil(alloc: Global, shape: Option<Shape>) -> Result<Option<Shape>, AllocError>
    ensures { IfOk result
        (λ either. option_map shape_view either ≡ option_map optional (option_map shape_view shape)) }
{
    match shape {
        Some(shape) => Ok(Some(Shape::Optional(Box::new(alloc, shape)?))),
        None => Ok(None),
    }
}

fn decimal_of<M: ShapeName>(alloc: Global, shape: &Parts<M>) -> Result<Option<Shape>, AllocError>
    ensures { IfOk result
        (λ decimal. option_map shape_view decimal ≡ decimal_shape (parts_view shape.now)) }
{
    decimal_shape(alloc, shape.representative())
}

fn decimal<M: ShapeName>(alloc: Global, operand: &Kind<M>) -> Result<Option<Kind<M>>, AllocError>
    ensures { IfOk result (λ given. option_map parts_kind given ≡ decimal_kind (parts_kind operand.now)) }
{
    match operand {
        Kind::Nil => Ok(None),
        Kind::Shape(shape) => given_any(alloc, decimal_of(alloc, shape)?),
        Kind::OrNil(shape) => given_any(alloc, or_nil(alloc, decimal_of(alloc, shape)?)?),
    }
}

fn is_family(family: Family, of: Option<Family>) -> bool
    ensures { result ≡ is_family family of }
{
    match of {
        Some(of) => of == family,
        None => false,
    }
}

fn of_one_family(family: Option<Family>, other: Option<Family>) -> bool
    ensures { result ≡ are_one_family family other }
{
    match family {
        Some(family) => is_family(family, other),
        None => false,
    }
}

/// The family of a list's items, which may be nil.
fn items_family<M: ShapeName>(list: &Parts<M>) -> Option<Family>
    ensures { result ≡ family_of (plain (list_of list.now).0) }
{
    family_of(kind::plain(child(list.representative(), INNER)))
}

fn member<M: ShapeName>(
    alloc: Global,
    operand: &Kind<M>,
    list: &Kind<M>,
) -> Result<Option<Kind<M>>, AllocError>
    ensures { IfOk result
        (λ given. option_map parts_kind given ≡ member_kind (parts_kind operand.now) (parts_kind list.now)) }
{
    let Some(list) = as_list(list) else {
        return Ok(None);
    };
    let family = items_family(list);
    where_taken(
        alloc,
        of_one_family(family_in(operand), family),
        Shape::Bool,
    )
}

fn quotient(operator: Arithmetic) -> Shape
    ensures { shaped (shape_view result) ≡ quotient_kind operator }
{
    match operator {
        Arithmetic::Divide => Shape::Decimal,
        Arithmetic::Add | Arithmetic::Subtract | Arithmetic::Multiply | Arithmetic::Remainder => {
            Shape::Whole
        }
    }
}

fn same<M: ShapeName>(scalar: Scalar, operand: &Kind<M>) -> Result<Option<Kind<M>>, AllocError>
    ensures { IfOk result (λ given. option_map parts_kind given ≡ same_kind scalar (parts_kind operand.now)) }
{
    if is_scalar(scalar, operand) {
        given_again(operand)
    } else {
        Ok(None)
    }
}

fn negative<M: ShapeName>(
    numbers: Numbers,
    operand: &Kind<M>,
) -> Result<Option<Kind<M>>, AllocError>
    ensures { IfOk result (λ given. option_map parts_kind given ≡ negative_kind numbers (parts_kind operand.now)) }
{
    match numbers {
        Numbers::Wholes => same(Scalar::Whole, operand),
        Numbers::Decimals => same(Scalar::Decimal, operand),
    }
}

fn is_compared<M: ShapeName>(numbers: Compared, operand: &Kind<M>) -> bool
    ensures { result ≡ is_compared numbers (parts_kind operand.now) }
{
    match numbers {
        Compared::Wholes => is_scalar(Scalar::Whole, operand),
        Compared::Decimals => is_scalar(Scalar::Decimal, operand),
        Compared::Mixed => {
            is_scalar(Scalar::Whole, operand) || is_scalar(Scalar::Decimal, operand)
        }
    }
}

/// What an operator gives of one operand.
pub(crate) fn apply_unary<M: ShapeName>(
    alloc: Global,
    operator: UnaryOperator,
    operand: &Kind<M>,
) -> Result<Option<Kind<M>>, AllocError>
    ensures { IfOk result (λ given. option_map parts_kind given ≡ unary_kind operator (parts_kind operand.now)) }
{
    match operator {
        UnaryOperator::Len => length(alloc, operand),
        UnaryOperator::Need => needed(alloc, operand),
        UnaryOperator::IsNil => where_taken(alloc, true, Shape::Bool),
        UnaryOperator::ToDecimal => decimal(alloc, operand),
        UnaryOperator::Not => where_taken(alloc, is_scalar(Scalar::Bool, operand), Shape::Bool),
        UnaryOperator::Negate(numbers) => negative(numbers, operand),
    }
}

fn are_scalars<M: ShapeName>(scalar: Scalar, left: &Kind<M>, right: &Kind<M>) -> bool
    ensures { result ≡ (is_scalar_kind scalar (parts_kind left.now) && is_scalar_kind scalar (parts_kind right.now)) }
{
    is_scalar(scalar, left) && is_scalar(scalar, right)
}

fn are_compared<M: ShapeName>(numbers: Compared, left: &Kind<M>, right: &Kind<M>) -> bool
    ensures { result ≡ (is_compared numbers (parts_kind left.now) && is_compared numbers (parts_kind right.now)) }
{
    is_compared(numbers, left) && is_compared(numbers, right)
}

fn are_in_family<M: ShapeName>(family: Family, left: &Kind<M>, right: &Kind<M>) -> bool
    ensures { result ≡ (is_family family (family_in (parts_kind left.now))
        && is_family family (family_in (parts_kind right.now))) }
{
    is_family(family, family_in(left)) && is_family(family, family_in(right))
}

/// What an operator gives of two operands.
pub(crate) fn apply_binary<M: ShapeName>(
    alloc: Global,
    operator: BinaryOperator,
    left: &Kind<M>,
    right: &Kind<M>,
) -> Result<Option<Kind<M>>, AllocError>
    ensures { IfOk result
        (λ given. option_map parts_kind given ≡ binary_kind operator (parts_kind left.now) (parts_kind right.now)) }
{
    match operator {
        BinaryOperator::Index => item(alloc, left, right),
        BinaryOperator::Default => default(alloc, left, right),
        BinaryOperator::IsIn => member(alloc, left, right),
        BinaryOperator::Wholes(operator) => where_taken(
            alloc,
            are_scalars(Scalar::Whole, left, right),
            quotient(operator),
        ),
        BinaryOperator::Decimals(_) => where_taken(
            alloc,
            are_scalars(Scalar::Decimal, left, right),
            Shape::Decimal,
        ),
        BinaryOperator::Compare(numbers, _) => {
            where_taken(alloc, are_compared(numbers, left, right), Shape::Bool)
        }
        BinaryOperator::Equal(family) => {
            where_taken(alloc, are_in_family(family, left, right), Shape::Bool)
        }
        BinaryOperator::TextTest(_) => {
            where_taken(alloc, are_scalars(Scalar::Text, left, right), Shape::Bool)
        }
    }
}
