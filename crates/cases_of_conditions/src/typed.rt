//! Conditions as typed, printed: a node as `(operator kinds child child)`. What the check puts in is written
//! out: `plain` where nil is a fault, `decimal` where a whole is converted.

use crate::trees::{predicate_name, put_literal, test_name};
use ar_tree::typed::Typed;
use ar_value::operator::{
    Arithmetic, BinaryOperator, Compared, DecimalArithmetic, Family, Numbers, Order, Scalar,
    UnaryOperator,
};
use cases_of_values::output::Output;
use cases_of_values::printing::{put_pair, put_quoted};

fn numbers_name(numbers: Numbers) -> &'static str {
    match numbers {
        Numbers::Wholes => "wholes",
        Numbers::Decimals => "decimals",
    }
}

fn arithmetic_sign(operator: Arithmetic) -> &'static str {
    match operator {
        Arithmetic::Add => "+",
        Arithmetic::Subtract => "-",
        Arithmetic::Multiply => "*",
        Arithmetic::Divide => "/",
        Arithmetic::Remainder => "%",
    }
}

fn order_sign(order: Order) -> &'static str {
    match order {
        Order::Less => "<",
        Order::LessOrEqual => "<=",
        Order::Greater => ">",
        Order::GreaterOrEqual => ">=",
    }
}

fn family_name(family: Family) -> &'static str {
    match family {
        Family::Boolean => "bool",
        Family::Number => "number",
        Family::Text => "text",
    }
}

fn scalar_name(scalar: Scalar) -> &'static str {
    match scalar {
        Scalar::Bool => "bool",
        Scalar::Whole => "whole",
        Scalar::Decimal => "decimal",
        Scalar::Text => "text",
    }
}

fn decimal_sign(operator: DecimalArithmetic) -> &'static str {
    match operator {
        DecimalArithmetic::Add => "+",
        DecimalArithmetic::Subtract => "-",
        DecimalArithmetic::Multiply => "*",
        DecimalArithmetic::Divide => "/",
    }
}

fn compared_name(numbers: Compared) -> &'static str {
    match numbers {
        Compared::Wholes => "wholes",
        Compared::Decimals => "decimals",
        Compared::Mixed => "mixed",
    }
}

fn put_unary(out: &mut Output, operator: UnaryOperator) {
    match operator {
        UnaryOperator::Len => out.put("len"),
        UnaryOperator::Need => out.put("plain"),
        UnaryOperator::IsNil => out.put("isNil"),
        UnaryOperator::ToDecimal => out.put("decimal"),
        UnaryOperator::Not => out.put("not"),
        UnaryOperator::Negate(numbers) => put_pair(out, "negative", numbers_name(numbers)),
    }
}

fn put_binary(out: &mut Output, operator: BinaryOperator) {
    match operator {
        BinaryOperator::Index => out.put("index"),
        BinaryOperator::Default => out.put("default"),
        BinaryOperator::IsIn => out.put("in"),
        BinaryOperator::Wholes(operator) => put_pair(out, arithmetic_sign(operator), "wholes"),
        BinaryOperator::Decimals(operator) => put_pair(out, decimal_sign(operator), "decimals"),
        BinaryOperator::Compare(numbers, order) => {
            put_pair(out, order_sign(order), compared_name(numbers))
        }
        BinaryOperator::Equal(family) => put_pair(out, "==", family_name(family)),
        BinaryOperator::TextTest(test) => out.put(test_name(test)),
    }
}

/// The words of a node.
fn put_words(out: &mut Output, typed: &Typed) {
    match typed {
        Typed::Result => out.put("result"),
        Typed::Item => out.put("#"),
        Typed::Literal(literal) => put_literal(out, literal),
        Typed::Field { .. } => out.put("field"),
        Typed::Unary { operator, .. } => put_unary(out, *operator),
        Typed::Binary { operator, .. } => put_binary(out, *operator),
        Typed::And { .. } => out.put("and"),
        Typed::Or { .. } => out.put("or"),
        Typed::Choice { .. } => out.put("choice"),
        Typed::List { scalar, .. } => put_pair(out, "list", scalar_name(*scalar)),
        Typed::Predicate { predicate, .. } => out.put(predicate_name(*predicate)),
    }
}

/// A tree with a blank before it.
#[cycle(put_typed)]
fn put_child(out: &mut Output, typed: &Typed) {
    out.put(" ");
    put_typed(out, typed);
}

#[cycle(put_typed)]
pub(crate) fn put_typed(out: &mut Output, typed: &Typed) {
    match typed {
        Typed::Result | Typed::Item | Typed::Literal(_) => put_words(out, typed),
        _ => {
            out.put("(");
            put_words(out, typed);
            put_parts(out, typed);
            out.put(")");
        }
    }
}

/// The parts of a node, each after a blank; a leaf has none.
#[cycle(put_typed)]
fn put_parts(out: &mut Output, typed: &Typed) {
    match typed {
        Typed::Result | Typed::Item | Typed::Literal(_) => {}
        Typed::Field { owner, name } => {
            put_child(out, owner);
            out.put(" ");
            put_quoted(out, name.as_str());
        }
        Typed::Unary { operand, .. } => put_child(out, operand),
        Typed::Binary { left, right, .. }
        | Typed::And { left, right }
        | Typed::Or { left, right }
        | Typed::Predicate {
            list: left,
            body: right,
            ..
        } => {
            put_child(out, left);
            put_child(out, right);
        }
        Typed::Choice {
            condition,
            then_branch,
            else_branch,
        } => {
            put_child(out, condition);
            put_child(out, then_branch);
            put_child(out, else_branch);
        }
        Typed::List { items, .. } => {
            for item in &items.items {
                put_child(out, item);
            }
        }
    }
}
