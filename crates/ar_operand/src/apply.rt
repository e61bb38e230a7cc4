//! What operators make of operands.

ghost use Rattle.std.specs.Prelude.{◌≡◌, Ok};
ghost use Rattle.ar_value.specs.Operators.{unary_meaning, binary_meaning};
ghost use Rattle.ar_value.specs.declared.operator.BinaryOperator.TheVariants as BinaryOperator;
ghost use Rattle.ar_operand.specs.Operand.{Meets, operand_view};

use crate::list::{is_among, item_at, len_of};
use crate::operand::{Failure, Operand, is_nil, not_nil, take};
use crate::operators::{
    as_decimal, compare, decimals, equal, negative, opposite, text_test, wholes,
};
use ar_value::operator::{BinaryOperator, UnaryOperator};

/// What an operator makes of one operand, which it may take from where it is.
pub fn apply_unary<'v>(
    operator: UnaryOperator,
    operand: &mut Operand<'v>,
) -> Result<Operand<'v>, Failure>
    ensures { Meets operand_view result (unary_meaning operator (operand_view operand.old)) }
{
    match operator {
        UnaryOperator::Len => len_of(operand),
        UnaryOperator::Need => not_nil(operand),
        UnaryOperator::IsNil => Ok(Operand::boolean(is_nil(operand))),
        UnaryOperator::ToDecimal => as_decimal(operand),
        UnaryOperator::Not => opposite(operand),
        UnaryOperator::Negate(numbers) => negative(numbers, operand),
    }
}

/// The left one of two operands, or instead the right one where it is nil.
fn default<'v>(left: &mut Operand<'v>, right: &mut Operand<'v>) -> Operand<'v>
    ensures { binary_meaning BinaryOperator.Default (operand_view left.old) (operand_view right.old)
        ≡ Ok (operand_view result) }
{
    if is_nil(left) {
        take(right)
    } else {
        take(left)
    }
}

/// What an operator makes of two operands, one of which it may take from where it is.
pub fn apply_binary<'v>(
    operator: BinaryOperator,
    left: &mut Operand<'v>,
    right: &mut Operand<'v>,
) -> Result<Operand<'v>, Failure>
    ensures { Meets operand_view result (binary_meaning operator (operand_view left.old) (operand_view right.old)) }
{
    match operator {
        BinaryOperator::Index => item_at(left, right),
        BinaryOperator::Default => Ok(default(left, right)),
        BinaryOperator::IsIn => is_among(left, right),
        BinaryOperator::Wholes(operator) => wholes(operator, left, right),
        BinaryOperator::Decimals(operator) => decimals(operator, left, right),
        BinaryOperator::Compare(numbers, order) => compare(numbers, order, left, right),
        BinaryOperator::Equal(family) => equal(family, left, right),
        BinaryOperator::TextTest(test) => text_test(test, left, right),
    }
}
