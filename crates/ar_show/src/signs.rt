//! Literals, names and operators as they are shown.

ghost use Rattle.std.specs.Prelude.{◌≡◌, ◌++◌, OnOk, string_bytes};
ghost use Rattle.std.specs.List.{list_all};
ghost use Rattle.ar_quote.specs.Tokens.{is_of_word};
ghost use Rattle.ar_show.specs.PartText.{arithmetic_sign, decimal_sign, field_text, is_below_zero, is_infix, is_hidden, is_sign, is_word, shown_literal, order_sign, predicate_word, test_word};

use crate::words::push_boolean;
use ar_quote::push_quoted;
use ar_tree::tree::Literal;
use ar_value::operator::{
    Arithmetic, BinaryOperator, DecimalArithmetic, Order, Predicate, TextTest, UnaryOperator,
};
use std::alloc::AllocError;
use std::fmt::Write;

// ---- literals

pub(crate) fn push_literal(out: &mut String, literal: &Literal) -> Result<(), AllocError>
    ensures { OnOk result (string_bytes out.new ≡ string_bytes out.old ++ shown_literal literal.now) }
{
    match literal {
        Literal::Nil => out.push_str("nil"),
        Literal::Bool(boolean) => push_boolean(out, *boolean),
        Literal::Whole(whole) => write!(out, "{whole}"),
        Literal::Decimal(decimal) => write!(out, "{decimal}"),
        Literal::Text(text) => push_quoted(out, text.as_str()),
    }
}

pub(crate) fn is_below_zero(literal: &Literal) -> bool
    ensures { result ≡ is_below_zero literal.now }
{
    match literal {
        Literal::Nil | Literal::Bool(_) | Literal::Text(_) => false,
        Literal::Whole(whole) => *whole < 0,
        Literal::Decimal(decimal) => decimal.millionths() < 0,
    }
}

// ---- names

fn is_of_word(byte: u8) -> bool
    ensures { result ≡ is_of_word byte }
{
    byte.is_ascii_alphanumeric() || byte == b'_'
}

fn are_of_word(bytes: &[u8]) -> bool
    ensures { result ≡ list_all is_of_word bytes.now }
{
    bytes.iter().all(|byte| is_of_word(*byte))
}

/// Whether a name can come after a point.
fn is_word(name: &str) -> bool
    ensures { result ≡ is_word name.now }
{
    match name.as_bytes().split_first() {
        None => false,
        Some((first, others)) => {
            is_of_word(*first) && !first.is_ascii_digit() && are_of_word(others)
        }
    }
}

/// A field's name, after its owner.
pub fn push_field_name(out: &mut String, name: &str) -> Result<(), AllocError>
    ensures { OnOk result (string_bytes out.new ≡ string_bytes out.old ++ field_text name.now) }
{
    if is_word(name) {
        out.push_str(".")?;
        out.push_str(name)
    } else {
        out.push_str("[")?;
        push_quoted(out, name)?;
        out.push_str("]")
    }
}

// ---- operators

/// Whether its operand alone is shown.
pub(crate) fn is_hidden(operator: UnaryOperator) -> bool
    ensures { result ≡ is_hidden operator }
{
    match operator {
        UnaryOperator::Need | UnaryOperator::ToDecimal => true,
        UnaryOperator::Len | UnaryOperator::IsNil | UnaryOperator::Not | UnaryOperator::Negate(_) =>
            false,
    }
}

/// Whether it is a sign before its operand.
pub(crate) fn is_sign(operator: UnaryOperator) -> bool
    ensures { result ≡ is_sign operator }
{
    match operator {
        UnaryOperator::Not | UnaryOperator::Negate(_) => true,
        UnaryOperator::Need
        | UnaryOperator::ToDecimal
        | UnaryOperator::Len
        | UnaryOperator::IsNil => false,
    }
}

/// Whether it is shown between its operands.
pub(crate) fn is_infix(operator: BinaryOperator) -> bool
    ensures { result ≡ is_infix operator }
{
    match operator {
        BinaryOperator::Index | BinaryOperator::Default => false,
        BinaryOperator::IsIn
        | BinaryOperator::Wholes(_)
        | BinaryOperator::Decimals(_)
        | BinaryOperator::Compare(_, _)
        | BinaryOperator::Equal(_)
        | BinaryOperator::TextTest(_) => true,
    }
}

pub(crate) fn arithmetic_sign(operator: Arithmetic) -> &'static str
    ensures { result.now ≡ arithmetic_sign operator }
{
    match operator {
        Arithmetic::Add => "+",
        Arithmetic::Subtract => "-",
        Arithmetic::Multiply => "*",
        Arithmetic::Divide => "/",
        Arithmetic::Remainder => "%",
    }
}

pub(crate) fn decimal_sign(operator: DecimalArithmetic) -> &'static str
    ensures { result.now ≡ decimal_sign operator }
{
    match operator {
        DecimalArithmetic::Add => "+",
        DecimalArithmetic::Subtract => "-",
        DecimalArithmetic::Multiply => "*",
        DecimalArithmetic::Divide => "/",
    }
}

pub(crate) fn order_sign(order: Order) -> &'static str
    ensures { result.now ≡ order_sign order }
{
    match order {
        Order::Less => "<",
        Order::LessOrEqual => "<=",
        Order::Greater => ">",
        Order::GreaterOrEqual => ">=",
    }
}

pub(crate) fn test_word(test: TextTest) -> &'static str
    ensures { result.now ≡ test_word test }
{
    match test {
        TextTest::Contains => "contains",
        TextTest::StartsWith => "startsWith",
        TextTest::EndsWith => "endsWith",
    }
}

pub(crate) fn predicate_word(predicate: Predicate) -> &'static str
    ensures { result.now ≡ predicate_word predicate }
{
    match predicate {
        Predicate::All => "all",
        Predicate::Any => "any",
        Predicate::None => "none",
        Predicate::One => "one",
        Predicate::Count => "count",
        Predicate::Filter => "filter",
    }
}
