//! Operators whose operands have kinds.

ghost use Rattle.std.specs.Prelude.{◌≡◌, ◌&&◌, false, IfOk, Some};
ghost use Rattle.ar_value.specs.declared.operator.UnaryOperator.TheVariants as unary;
ghost use Rattle.ar_value.specs.Answer.{Gives};
ghost use Rattle.ar_check.specs.Check.{arithmetic_in, arithmetic_kind, binary_of, compared_of, comparison_of, equality_of, in_of, negated, number_kind, ordering_of, arithmetic_on, calculation_of, given, member_of, text_test_of, unary_of, where_wanted, widened};
ghost use Rattle.ar_value.specs.Kind.{boolean_kind};
ghost use Rattle.ar_check.specs.Operand.{among, scalar_family};
ghost use Rattle.ar_tree.specs.Typed as typed;
ghost use Rattle.ar_tree.specs.Views.{typed_view};
ghost use Rattle.ar_check.specs.Memory.{is_memory};
ghost use Rattle.ar_check.specs.Private.Inside.{boxed_view, connected_of, item_scalar, operand_view, side_by, view_of_kind};

use crate::build::{self, Connective};
use crate::error::TypeError;
use crate::operand::{
    Kind, Operand, both_unwrapped, given, given_unary, into_tree, is_boolean, is_text, item_shape,
    numbers, scalar, scalar_of, unwrapped,
};
use ar_tree::tree::{Binary, Comparison, Unary};
use ar_tree::typed::Typed;
use ar_value::kind::plain;
use ar_value::operator::{
    Arithmetic, BinaryOperator, Compared, DecimalArithmetic, Family, Numbers, Order, Scalar,
    TextTest, UnaryOperator,
};
use ar_value::shape::Shape;
use std::alloc::{AllocError, Global};

/// A tree of a kind, where its operands are what it requires.
pub(crate) fn where_wanted<'s>(
    alloc: Global,
    at: usize,
    wanted: bool,
    tree: Box<Typed>,
    kind: Kind<'s>,
) -> Result<Box<Operand<'s>>, TypeError>
    ensures { Gives is_memory boxed_view result
        (where_wanted at wanted (typed_view tree.value) (view_of_kind kind.entry)) }
{
    if wanted {
        given(alloc, tree, kind)
    } else {
        Err(TypeError::WrongOperand(at))
    }
}

/// The kind of booleans.
pub(crate) fn boolean<'s>() -> Kind<'s>
    ensures { view_of_kind result ≡ boolean_kind }
{
    Kind::Made(Shape::Bool)
}

fn number_kind<'s>(numbers: Numbers) -> Kind<'s>
    ensures { view_of_kind result ≡ number_kind numbers }
{
    match numbers {
        Numbers::Wholes => Kind::Made(Shape::Whole),
        Numbers::Decimals => Kind::Made(Shape::Decimal),
    }
}

/// A sign or `not` before its operand.
pub(crate) fn unary<'s>(
    alloc: Global,
    at: usize,
    operator: Unary,
    operand: Box<Operand<'_>>,
) -> Result<Box<Operand<'s>>, TypeError>
    ensures { Gives is_memory boxed_view result (unary_of at operator (operand_view operand.entry.value)) }
{
    let is_boolean = is_boolean(&operand);
    let numbers = numbers(&operand);
    let tree = unwrapped(alloc, operand)?;
    match operator {
        Unary::Not if is_boolean => given_unary(alloc, UnaryOperator::Not, tree, boolean()),
        Unary::Not => Err(TypeError::WrongOperand(at)),
        Unary::Minus => match numbers {
            Some(of) => given_unary(alloc, UnaryOperator::Negate(of), tree, number_kind(of)),
            None => Err(TypeError::WrongOperand(at)),
        },
        Unary::Plus => match numbers {
            Some(of) => given(alloc, tree, number_kind(of)),
            None => Err(TypeError::WrongOperand(at)),
        },
    }
}

/// An operator between two operands; `nil_left` and `nil_right` say which is the literal `nil`.
pub(crate) fn binary<'s>(
    alloc: Global,
    at: usize,
    operator: Binary,
    nil_left: bool,
    nil_right: bool,
    left: Box<Operand<'_>>,
    right: Box<Operand<'_>>,
) -> Result<Box<Operand<'s>>, TypeError>
    ensures { Gives is_memory boxed_view result
        (binary_of at operator (side_by nil_left nil_right)
        (operand_view left.entry.value) (operand_view right.entry.value)) }
{
    let arithmetic = match operator {
        Binary::Or => return connect(alloc, at, Connective::Or, left, right),
        Binary::And => return connect(alloc, at, Connective::And, left, right),
        Binary::Comparison(comparison) => {
            return compare(alloc, at, comparison, nil_left, nil_right, left, right);
        }
        Binary::In => return contains(alloc, at, left, right),
        Binary::NotIn => return negated(alloc, contains(alloc, at, left, right)?),
        Binary::TextTest(test) => return test_texts(alloc, at, test, left, right),
        Binary::Add => Arithmetic::Add,
        Binary::Subtract => Arithmetic::Subtract,
        Binary::Multiply => Arithmetic::Multiply,
        Binary::Divide => Arithmetic::Divide,
        Binary::Remainder => Arithmetic::Remainder,
    };
    calculate(alloc, at, arithmetic, left, right)
}

/// `and` or `or` between two operands.
fn connect<'s>(
    alloc: Global,
    at: usize,
    by: Connective,
    left: Box<Operand<'_>>,
    right: Box<Operand<'_>>,
) -> Result<Box<Operand<'s>>, TypeError>
    ensures { Gives is_memory boxed_view result
        (connected_of at by (operand_view left.entry.value) (operand_view right.entry.value)) }
{
    let wanted = is_boolean(&left) && is_boolean(&right);
    let (left, right) = both_unwrapped(alloc, left, right)?;
    let tree = build::connected(alloc, by, left, right)?;
    where_wanted(alloc, at, wanted, tree, boolean())
}

fn negated(alloc: Global, condition: Box<Operand<'_>>) -> Result<Box<Operand<'_>>, TypeError>
    ensures { Gives is_memory boxed_view result (negated (operand_view condition.entry.value)) }
{
    let Operand { tree, kind } = Box::into_inner(condition);
    given_unary(alloc, UnaryOperator::Not, tree, kind)
}

fn compare<'s>(
    alloc: Global,
    at: usize,
    comparison: Comparison,
    nil_left: bool,
    nil_right: bool,
    left: Box<Operand<'_>>,
    right: Box<Operand<'_>>,
) -> Result<Box<Operand<'s>>, TypeError>
    ensures { Gives is_memory boxed_view result
        (comparison_of at comparison (side_by nil_left nil_right)
        (operand_view left.entry.value) (operand_view right.entry.value)) }
{
    let wanted = match comparison {
        Comparison::Equal => return equate(alloc, at, nil_left, nil_right, left, right),
        Comparison::NotEqual => {
            return negated(alloc, equate(alloc, at, nil_left, nil_right, left, right)?);
        }
        Comparison::Less => Order::Less,
        Comparison::LessOrEqual => Order::LessOrEqual,
        Comparison::Greater => Order::Greater,
        Comparison::GreaterOrEqual => Order::GreaterOrEqual,
    };
    order(alloc, at, wanted, left, right)
}

fn equate<'s>(
    alloc: Global,
    at: usize,
    nil_left: bool,
    nil_right: bool,
    left: Box<Operand<'_>>,
    right: Box<Operand<'_>>,
) -> Result<Box<Operand<'s>>, TypeError>
    ensures { Gives is_memory boxed_view result
        (equality_of at (side_by nil_left nil_right) (operand_view left.entry.value) (operand_view right.entry.value)) }
{
    let sides = (scalar(&left), scalar(&right));
    let (left, right) = (into_tree(left), into_tree(right));
    if nil_left {
        return given_unary(alloc, UnaryOperator::IsNil, right, boolean());
    }
    if nil_right {
        return given_unary(alloc, UnaryOperator::IsNil, left, boolean());
    }
    let (Some(of), Some(next_to)) = sides else {
        return Err(TypeError::WrongOperand(at));
    };
    let tree = build::binary(alloc, BinaryOperator::Equal(family(of)), left, right)?;
    where_wanted(alloc, at, family(of) == family(next_to), tree, boolean())
}

/// Whether an operand is nil.
pub(crate) fn is_nil_of<'s>(
    alloc: Global,
    operand: Box<Operand<'_>>,
) -> Result<Box<Operand<'s>>, TypeError>
    ensures { Gives is_memory boxed_view result
        (given (typed.unary unary.IsNil (operand_view operand.entry.value).tree) boolean_kind) }
{
    given_unary(alloc, UnaryOperator::IsNil, into_tree(operand), boolean())
}

fn family(scalar: Scalar) -> Family
    ensures { result ≡ scalar_family scalar }
{
    match scalar {
        Scalar::Bool => Family::Boolean,
        Scalar::Whole | Scalar::Decimal => Family::Number,
        Scalar::Text => Family::Text,
    }
}

fn order<'s>(
    alloc: Global,
    at: usize,
    order: Order,
    left: Box<Operand<'_>>,
    right: Box<Operand<'_>>,
) -> Result<Box<Operand<'s>>, TypeError>
    ensures { Gives is_memory boxed_view result
        (ordering_of at order (operand_view left.entry.value) (operand_view right.entry.value)) }
{
    let sides = (numbers(&left), numbers(&right));
    let (left, right) = both_unwrapped(alloc, left, right)?;
    let (Some(of), Some(next_to)) = sides else {
        return Err(TypeError::WrongOperand(at));
    };
    let operator = BinaryOperator::Compare(compared_of(of, next_to), order);
    let tree = build::binary(alloc, operator, left, right)?;
    given(alloc, tree, boolean())
}

/// Whether a list has an operand among its items.
fn contains<'s>(
    alloc: Global,
    at: usize,
    operand: Box<Operand<'_>>,
    list: Box<Operand<'_>>,
) -> Result<Box<Operand<'s>>, TypeError>
    ensures { Gives is_memory boxed_view result
        (in_of at (operand_view operand.entry.value) (operand_view list.entry.value)) }
{
    let item = item_scalar(at, &list.kind);
    let of = scalar(&operand);
    let operand = into_tree(operand);
    let list = unwrapped(alloc, list)?;
    member(alloc, at, (of, item?), operand, list)
}

/// Whether a plain list of these scalars has an operand among its items.
fn member<'s>(
    alloc: Global,
    at: usize,
    scalars: (Option<Scalar>, Option<Scalar>),
    operand: Box<Typed>,
    list: Box<Typed>,
) -> Result<Box<Operand<'s>>, TypeError>
    ensures { Gives is_memory boxed_view result
        (member_of at scalars.0 scalars.1 (typed_view operand.value) (typed_view list.value)) }
{
    let (Some(of), Some(next_to)) = scalars else {
        return Err(TypeError::WrongOperand(at));
    };
    let tree = build::binary(alloc, BinaryOperator::IsIn, operand, list)?;
    where_wanted(alloc, at, family(of) == family(next_to), tree, boolean())
}

/// What scalar a list's items are once they are plain.
fn item_scalar(at: usize, list: &Kind<'_>) -> Result<Option<Scalar>, TypeError>
    ensures { Gives (λ _. false) (λ scalar. scalar) result (item_scalar at (view_of_kind list.now)) }
{
    Ok(scalar_of(plain(item_shape(at, list)?)))
}

/// A test of two texts.
fn test_texts<'s>(
    alloc: Global,
    at: usize,
    test: TextTest,
    left: Box<Operand<'_>>,
    right: Box<Operand<'_>>,
) -> Result<Box<Operand<'s>>, TypeError>
    ensures { Gives is_memory boxed_view result
        (text_test_of at test (operand_view left.entry.value) (operand_view right.entry.value)) }
{
    let wanted = is_text(&left) && is_text(&right);
    let (left, right) = both_unwrapped(alloc, left, right)?;
    let tree = build::binary(alloc, BinaryOperator::TextTest(test), left, right)?;
    where_wanted(alloc, at, wanted, tree, boolean())
}

fn calculate<'s>(
    alloc: Global,
    at: usize,
    operator: Arithmetic,
    left: Box<Operand<'_>>,
    right: Box<Operand<'_>>,
) -> Result<Box<Operand<'s>>, TypeError>
    ensures { Gives is_memory boxed_view result
        (calculation_of at operator (operand_view left.entry.value) (operand_view right.entry.value)) }
{
    let sides = (numbers(&left), numbers(&right));
    let (left, right) = both_unwrapped(alloc, left, right)?;
    let (Some(of), Some(next_to)) = sides else {
        return Err(TypeError::WrongOperand(at));
    };
    calculate_on(alloc, at, operator, (of, next_to), left, right)
}

/// Arithmetic on plain operands of these numbers.
fn calculate_on<'s>(
    alloc: Global,
    at: usize,
    operator: Arithmetic,
    sides: (Numbers, Numbers),
    left: Box<Typed>,
    right: Box<Typed>,
) -> Result<Box<Operand<'s>>, TypeError>
    ensures { Gives is_memory boxed_view result
        (arithmetic_on at operator (Some sides.0) (Some sides.1) (typed_view left.value) (typed_view right.value)) }
{
    let (of, next_to) = sides;
    let numbers = widened(of, next_to);
    let left = among(alloc, next_to, of, left)?;
    let right = among(alloc, of, next_to, right)?;
    let Some(arithmetic) = arithmetic_in(numbers, operator) else {
        return Err(TypeError::WrongOperand(at));
    };
    let tree = build::binary(alloc, arithmetic, left, right)?;
    given(alloc, tree, arithmetic_kind(operator, numbers))
}

/// Wholes alone stay wholes.
fn widened(left: Numbers, right: Numbers) -> Numbers
    ensures { result ≡ widened left right }
{
    match (left, right) {
        (Numbers::Wholes, Numbers::Wholes) => Numbers::Wholes,
        _ => Numbers::Decimals,
    }
}

/// A whole as a decimal, next to decimals.
fn among(
    alloc: Global,
    other: Numbers,
    numbers: Numbers,
    tree: Box<Typed>,
) -> Result<Box<Typed>, AllocError>
    ensures { IfOk result (λ made. typed_view made.value ≡ among other numbers (typed_view tree.value)) }
{
    match (other, numbers) {
        (Numbers::Decimals, Numbers::Wholes) => build::unary(alloc, UnaryOperator::ToDecimal, tree),
        _ => Ok(tree),
    }
}

/// Arithmetic of two numbers of one kind; remainders are of wholes alone.
fn arithmetic_in(numbers: Numbers, operator: Arithmetic) -> Option<BinaryOperator>
    ensures { result ≡ arithmetic_in numbers operator }
{
    match numbers {
        Numbers::Wholes => Some(BinaryOperator::Wholes(operator)),
        Numbers::Decimals => Some(BinaryOperator::Decimals(match operator {
            Arithmetic::Add => DecimalArithmetic::Add,
            Arithmetic::Subtract => DecimalArithmetic::Subtract,
            Arithmetic::Multiply => DecimalArithmetic::Multiply,
            Arithmetic::Divide => DecimalArithmetic::Divide,
            Arithmetic::Remainder => return None,
        })),
    }
}

/// Two wholes and two decimals each have comparisons of their own.
fn compared_of(left: Numbers, right: Numbers) -> Compared
    ensures { result ≡ compared_of left right }
{
    match (left, right) {
        (Numbers::Wholes, Numbers::Wholes) => Compared::Wholes,
        (Numbers::Decimals, Numbers::Decimals) => Compared::Decimals,
        (Numbers::Wholes, Numbers::Decimals) | (Numbers::Decimals, Numbers::Wholes) => {
            Compared::Mixed
        }
    }
}

/// Quotients are decimals, also of wholes.
fn arithmetic_kind<'s>(operator: Arithmetic, numbers: Numbers) -> Kind<'s>
    ensures { view_of_kind result ≡ arithmetic_kind operator numbers }
{
    match operator {
        Arithmetic::Divide => Kind::Made(Shape::Decimal),
        _ => number_kind(numbers),
    }
}
