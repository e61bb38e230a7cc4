//! Parts of conditions as they are shown to a person.

ghost use Rattle.std.specs.Prelude.{◌≡◌, ◌++◌, OnOk, codes, map, string_bytes, true};
ghost use Rattle.ar_tree.specs.Typed.{typeds};
ghost use Rattle.ar_tree.specs.Views.{typed_view};
ghost use Rattle.ar_show.specs.PartText.{field_text, has_sides, has_sign, operand_text, owner_text, shown_part, shown_parts, side_text, unary_text};
ghost use Rattle.ar_show.specs.Private.Sides.{left_side, right_side};
ghost use Rattle.ar_show.specs.Words.{between};

use crate::signs::{
    arithmetic_sign, decimal_sign, is_below_zero, is_hidden, is_infix, is_sign, order_sign,
    predicate_word, push_field_name, push_literal, test_word,
};
use crate::words::push_between;
use ar_tree::typed::Typed;
use ar_value::operator::{BinaryOperator, UnaryOperator};
use std::alloc::AllocError;

/// Whether a part is shown as an operator with two sides, or as a choice.
fn has_sides(part: &Typed) -> bool
    ensures { result ≡ has_sides (typed_view part.now) }
{
    match part {
        Typed::Result
        | Typed::Item
        | Typed::Literal(_)
        | Typed::Field { .. }
        | Typed::List { .. }
        | Typed::Predicate { .. } => false,
        Typed::Unary { operator, operand } => is_hidden(*operator) && has_sides(operand),
        Typed::Binary { operator, .. } => is_infix(*operator),
        Typed::And { .. } | Typed::Or { .. } | Typed::Choice { .. } => true,
    }
}

/// Whether a part is shown with a sign before it.
fn has_sign(part: &Typed) -> bool
    ensures { result ≡ has_sign (typed_view part.now) }
{
    match part {
        Typed::Literal(literal) => is_below_zero(literal),
        Typed::Unary { operator, operand } => {
            is_sign(*operator) || (is_hidden(*operator) && has_sign(operand))
        }
        Typed::Result
        | Typed::Item
        | Typed::Field { .. }
        | Typed::Binary { .. }
        | Typed::And { .. }
        | Typed::Or { .. }
        | Typed::Choice { .. }
        | Typed::List { .. }
        | Typed::Predicate { .. } => false,
    }
}

/// A part of a condition in the language of conditions, with parentheses round each operand that is an operator with
/// two sides.
#[cycle(push_part)]
pub fn push_part(out: &mut String, part: &Typed) -> Result<(), AllocError>
    ensures { OnOk result (string_bytes out.new ≡ string_bytes out.old ++ shown_part (typed_view part.now)) }
{
    match part {
        Typed::Result => out.push_str("result"),
        Typed::Item => out.push_str("#"),
        Typed::Literal(literal) => push_literal(out, literal),
        Typed::Field { owner, name } => push_field(out, owner, name.as_str()),
        Typed::Unary { operator, operand } => push_unary(out, *operator, operand),
        Typed::Binary {
            operator,
            left,
            right,
        } => {
            push_left(out, *operator, left)?;
            push_right(out, *operator, right)
        }
        Typed::And { left, right } => push_joined(out, left, "and", right),
        Typed::Or { left, right } => push_joined(out, left, "or", right),
        Typed::Choice {
            condition,
            then_branch,
            else_branch,
        } => {
            push_operand(out, condition)?;
            push_side(out, "?", then_branch)?;
            push_side(out, ":", else_branch)
        }
        Typed::List { items, .. } => push_list(out, &items.items),
        Typed::Predicate {
            predicate,
            list,
            body,
        } => {
            out.push_str(predicate_word(*predicate))?;
            push_enclosed(out, "(", list, "")?;
            push_enclosed(out, ", ", body, ")")
        }
    }
}

/// A part, with what comes before it and after it.
#[cycle(push_part)]
fn push_enclosed(
    out: &mut String,
    before: &str,
    part: &Typed,
    after: &str,
) -> Result<(), AllocError>
    ensures { OnOk result (string_bytes out.new ≡ string_bytes out.old
        ++ (before.now ++ (shown_part (typed_view part.now) ++ after.now))) }
{
    out.push_str(before)?;
    push_part(out, part)?;
    out.push_str(after)
}

#[cycle(push_part)]
fn push_operand(out: &mut String, part: &Typed) -> Result<(), AllocError>
    ensures { OnOk result (string_bytes out.new ≡ string_bytes out.old
        ++ operand_text (typed_view part.now) (shown_part (typed_view part.now))) }
{
    if has_sides(part) {
        push_enclosed(out, "(", part, ")")
    } else {
        push_part(out, part)
    }
}

/// What a field or an item is taken of.
#[cycle(push_part)]
fn push_owner(out: &mut String, part: &Typed) -> Result<(), AllocError>
    ensures { OnOk result (string_bytes out.new ≡ string_bytes out.old
        ++ owner_text (typed_view part.now) (shown_part (typed_view part.now))) }
{
    if has_sides(part) || has_sign(part) {
        push_enclosed(out, "(", part, ")")
    } else {
        push_part(out, part)
    }
}

/// A word or sign between blanks, and the operand after it.
#[cycle(push_part)]
fn push_side(out: &mut String, word: &str, right: &Typed) -> Result<(), AllocError>
    ensures { OnOk result (string_bytes out.new ≡ string_bytes out.old
        ++ side_text word.now (typed_view right.now) (shown_part (typed_view right.now))) }
{
    out.push_str(" ")?;
    out.push_str(word)?;
    out.push_str(" ")?;
    push_operand(out, right)
}

/// A field, after what it is taken of.
#[cycle(push_part)]
fn push_field(out: &mut String, owner: &Typed, name: &str) -> Result<(), AllocError>
    ensures { OnOk result (string_bytes out.new ≡ string_bytes out.old
        ++ (owner_text (typed_view owner.now) (shown_part (typed_view owner.now)) ++ field_text name.now)) }
{
    push_owner(out, owner)?;
    push_field_name(out, name)
}

/// Two operands with a word between them.
#[cycle(push_part)]
fn push_joined(out: &mut String, left: &Typed, word: &str, right: &Typed) -> Result<(), AllocError>
    ensures { OnOk result (string_bytes out.new ≡ string_bytes out.old
        ++ (operand_text (typed_view left.now) (shown_part (typed_view left.now))
        ++ side_text word.now (typed_view right.now) (shown_part (typed_view right.now)))) }
{
    push_operand(out, left)?;
    push_side(out, word, right)
}

/// A sign and the operand after it.
#[cycle(push_part)]
fn push_signed(out: &mut String, sign: &str, operand: &Typed) -> Result<(), AllocError>
    ensures { OnOk result (string_bytes out.new ≡ string_bytes out.old
        ++ (sign.now ++ operand_text (typed_view operand.now) (shown_part (typed_view operand.now)))) }
{
    out.push_str(sign)?;
    push_operand(out, operand)
}

#[cycle(push_part)]
fn push_unary(out: &mut String, operator: UnaryOperator, operand: &Typed) -> Result<(), AllocError>
    ensures { OnOk result (string_bytes out.new ≡ string_bytes out.old
        ++ unary_text operator (typed_view operand.now) (shown_part (typed_view operand.now))) }
{
    match operator {
        UnaryOperator::Need => push_part(out, operand),
        UnaryOperator::ToDecimal => push_part(out, operand),
        UnaryOperator::Len => push_enclosed(out, "len(", operand, ")"),
        UnaryOperator::IsNil => push_enclosed(out, "isNil(", operand, ")"),
        UnaryOperator::Not => push_signed(out, "!", operand),
        UnaryOperator::Negate(_) => push_signed(out, "-", operand),
    }
}

/// The left side of an operator, with what comes before it.
#[cycle(push_part)]
fn push_left(out: &mut String, operator: BinaryOperator, left: &Typed) -> Result<(), AllocError>
    ensures { OnOk result (string_bytes out.new ≡ string_bytes out.old
        ++ left_side operator (typed_view left.now) (shown_part (typed_view left.now))) }
{
    match operator {
        BinaryOperator::Index => push_owner(out, left),
        BinaryOperator::Default => push_enclosed(out, "default(", left, ""),
        BinaryOperator::IsIn => push_operand(out, left),
        BinaryOperator::Wholes(_) => push_operand(out, left),
        BinaryOperator::Decimals(_) => push_operand(out, left),
        BinaryOperator::Compare(_, _) => push_operand(out, left),
        BinaryOperator::Equal(_) => push_operand(out, left),
        BinaryOperator::TextTest(_) => push_operand(out, left),
    }
}

/// What comes after the left side of an operator.
#[cycle(push_part)]
fn push_right(out: &mut String, operator: BinaryOperator, right: &Typed) -> Result<(), AllocError>
    ensures { OnOk result (string_bytes out.new ≡ string_bytes out.old
        ++ right_side operator (typed_view right.now) (shown_part (typed_view right.now))) }
{
    match operator {
        BinaryOperator::Index => push_enclosed(out, "[", right, "]"),
        BinaryOperator::Default => push_enclosed(out, ", ", right, ")"),
        BinaryOperator::IsIn => push_side(out, "in", right),
        BinaryOperator::Wholes(operator) => push_side(out, arithmetic_sign(operator), right),
        BinaryOperator::Decimals(operator) => push_side(out, decimal_sign(operator), right),
        BinaryOperator::Compare(_, order) => push_side(out, order_sign(order), right),
        BinaryOperator::Equal(_) => push_side(out, "==", right),
        BinaryOperator::TextTest(test) => push_side(out, test_word(test), right),
    }
}

#[cycle(push_part)]
fn push_list(out: &mut String, items: &[Typed]) -> Result<(), AllocError>
    ensures { OnOk result (string_bytes out.new ≡ string_bytes out.old
        ++ (codes "[" ++ (shown_parts true (typeds (map typed_view items.now)) ++ codes "]"))) }
{
    out.push_str("[")?;
    push_items(out, items)?;
    out.push_str("]")
}

#[cycle(push_part)]
#[tactic(auto, using(crate::proofs::Joined::next_part, crate::proofs::Joined::no_part))]
fn push_items(out: &mut String, items: &[Typed]) -> Result<(), AllocError>
    ensures { OnOk result (string_bytes out.new ≡ string_bytes out.old
        ++ shown_parts true (typeds (map typed_view items.now))) }
{
    let mut first = true;
    for item in items {
        push_item(out, first, item)?;
        first = false;
    }
    Ok(())
}

#[cycle(push_part)]
fn push_item(out: &mut String, first: bool, item: &Typed) -> Result<(), AllocError>
    ensures { OnOk result (string_bytes out.new ≡ string_bytes out.old
        ++ (between first ++ shown_part (typed_view item.now))) }
{
    push_between(out, first)?;
    push_part(out, item)
}
