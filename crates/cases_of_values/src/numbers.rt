//! Calls on numbers and texts.

ghost use Rattle.std.specs.Prelude.{◌≡◌, IfOk, IfSome, IsSomeAnd, false, is_some, true};
ghost use Rattle.std.specs.Char.{is_ascii_digit};
ghost use Rattle.std.specs.List.{list_all};
ghost use Rattle.std.specs.Str.{bytes_eq};
ghost use Rattle.cases_of_values.specs.Calls.{is_one_of, number_calls};
ghost use Rattle.serde_json.specs.View.{view};
ghost use Rattle.ar_value.specs.Answer.{Gives};
ghost use Rattle.cases_of_values.specs.Numbers.{Answers, below_text, compare_answer, decimal_number, decimal_result, negate_answer, negated, number_answer, order_answer, ordering_text, outcome_text, result_answer, result_with, same_text_answer, text_answer, to_decimal_answer, whole_number, whole_result};
ghost use Rattle.cases_of_values.specs.Output.{Writes};

use crate::fault::{CaseFault, Written};
use crate::members;
use crate::output::Output;
use crate::printing::{put_boolean, put_number, put_or_none, put_quoted, put_refusal};
use ar_value::{Decimal, Fault, Number, Text, compare, digits, whole};
use serde_json::Value as Json;
use std::alloc::{AllocError, Global};
use std::cmp::Ordering;

/// Writes what a call on this subject returns; `None` for a call on another one.
pub(crate) fn put(alloc: Global, call: &str, case: &Json, out: &mut Output) -> Option<Written>
    ensures known { is_some result ≡ is_one_of number_calls call.now }
    ensures exact { IfSome (number_answer call.now (view case.now)) (λ answer. IsSomeAnd result
        (λ written. Answers written out.old out.new answer)) }
{
    match call {
        "compare" => Some(put_compare(case, out)),
        "order" => Some(put_order(case, out)),
        "negate" => Some(put_negated(case, out)),
        "to_decimal" => Some(put_to_decimal(case, out)),
        "text" => Some(put_text(alloc, case, out)),
        "same_text" => Some(put_same_text(alloc, case, out)),
        "add" | "subtract" | "multiply" | "divide" | "remainder" => {
            Some(put_result(call, case, out))
        }
        "decimal" => Some(put_decimal_of(alloc, case, out)),
        "digits" => Some(put_digits(case, out)),
        _ => None,
    }
}

/// A decimal text.
fn put_decimal_of(alloc: Global, case: &Json, out: &mut Output) -> Written {
    match Decimal::of_text(members::text(case, "text")?) {
        Ok(decimal) => write!(out, "{decimal}"),
        Err(refusal) => put_refusal(alloc, case, out, refusal),
    }
    Ok(())
}

/// The number that digits spell, or the millionths where there are digits after a point, too.
fn put_digits(case: &Json, out: &mut Output) -> Written {
    let whole = digits_of(members::text(case, "digits")?)?;
    let found = match case.get("fraction").and_then(Json::as_str) {
        Some(later) => digits::millionths(whole, digits_of(later)?),
        None => digits::number(whole),
    };
    put_or_none(out, found);
    Ok(())
}

/// The bytes of a text that has only digits.
fn digits_of(text: &str) -> Result<&[u8], CaseFault>
    ensures { IfOk result (λ digits. list_all is_ascii_digit digits.now ≡ true) }
{
    if are_digits(text) {
        Ok(text.as_bytes())
    } else {
        Err(CaseFault::Member)
    }
}

fn are_digits(text: &str) -> bool
    ensures { result ≡ list_all is_ascii_digit text.now }
{
    text.as_bytes().iter().all(|byte| byte.is_ascii_digit())
}

fn put_ordering(out: &mut Output, ordering: Ordering)
    ensures { Writes out.old out.new (ordering_text ordering) }
{
    match ordering {
        Ordering::Less => out.put("less"),
        Ordering::Equal => out.put("equal"),
        Ordering::Greater => out.put("greater"),
    }
}

#[tactic(auto, unfolding(crate::specs::Numbers::compare_answer))]
fn put_compare(case: &Json, out: &mut Output) -> Written
    ensures { Answers result out.old out.new (compare_answer (view case.now)) }
{
    let left = members::operand(case, "left")?;
    let right = members::operand(case, "right")?;
    put_ordering(out, compare(left, right));
    Ok(())
}

/// How decimals are ordered, and whether the left one is below the right one.
#[tactic(auto, unfolding(crate::specs::Numbers::order_answer))]
fn put_order(case: &Json, out: &mut Output) -> Written
    ensures { Answers result out.old out.new (order_answer (view case.now)) }
{
    let left = members::decimal(case, "left")?;
    let right = members::decimal(case, "right")?;
    put_ordering(out, left.cmp(&right));
    put_below(out, left < right);
    Ok(())
}

fn put_below(out: &mut Output, is_below: bool)
    ensures { Writes out.old out.new (below_text is_below) }
{
    if is_below {
        out.put(", below");
    }
}

fn put_outcome(out: &mut Output, outcome: Result<Number, Fault>)
    ensures { Writes out.old out.new (outcome_text outcome) }
{
    match outcome {
        Ok(number) => put_number(out, number),
        Err(fault) => out.put(fault.name()),
    }
}

#[tactic(auto, unfolding(crate::specs::Numbers::result_answer))]
fn put_result(call: &str, case: &Json, out: &mut Output) -> Written
    ensures { Answers result out.old out.new (result_answer call.now (view case.now)) }
{
    let left = members::operand(case, "left")?;
    put_outcome(out, result_with(call, left, case)?);
    Ok(())
}

fn result_with(call: &str, left: Number, case: &Json) -> Result<Result<Number, Fault>, CaseFault>
    ensures { Gives (λ _. false) (λ outcome. outcome) result (result_with call.now left (view case.now)) }
{
    match left {
        Number::Whole(left) => Ok(of_wholes(call, left, members::whole(case, "right")?)),
        Number::Decimal(left) => {
            of_decimals(call, left, members::decimal(case, "right")?).ok_or(CaseFault::Member)
        }
    }
}

/// Arithmetic of wholes, whose quotient is a decimal.
fn of_wholes(call: &str, left: i64, right: i64) -> Result<Number, Fault>
    ensures { result ≡ whole_result call.now left right }
{
    match call {
        "add" => whole_number(whole::add(left, right)),
        "subtract" => whole_number(whole::sub(left, right)),
        "multiply" => whole_number(whole::mul(left, right)),
        "divide" => decimal_number(Decimal::of_quotient(left, right)),
        _ => whole_number(whole::rem(left, right)),
    }
}

fn whole_number(outcome: Result<i64, Fault>) -> Result<Number, Fault>
    ensures { result ≡ whole_number outcome }
{
    match outcome {
        Ok(whole) => Ok(Number::Whole(whole)),
        Err(fault) => Err(fault),
    }
}

fn decimal_number(outcome: Result<Decimal, Fault>) -> Result<Number, Fault>
    ensures { result ≡ decimal_number outcome }
{
    match outcome {
        Ok(decimal) => Ok(Number::Decimal(decimal)),
        Err(fault) => Err(fault),
    }
}

/// Arithmetic of decimals, which have no remainder.
fn of_decimals(call: &str, left: Decimal, right: Decimal) -> Option<Result<Number, Fault>>
    ensures { result ≡ decimal_result call.now left right }
{
    match call {
        "add" => Some(decimal_number(left.add(right))),
        "subtract" => Some(decimal_number(left.sub(right))),
        "multiply" => Some(decimal_number(left.mul(right))),
        "divide" => Some(decimal_number(left.div(right))),
        _ => None,
    }
}

#[tactic(auto, unfolding(crate::specs::Numbers::negate_answer))]
fn put_negated(case: &Json, out: &mut Output) -> Written
    ensures { Answers result out.old out.new (negate_answer (view case.now)) }
{
    let operand = members::operand(case, "operand")?;
    put_outcome(out, negated(operand));
    Ok(())
}

fn negated(operand: Number) -> Result<Number, Fault>
    ensures { result ≡ negated operand }
{
    match operand {
        Number::Whole(operand) => whole_number(whole::neg(operand)),
        Number::Decimal(operand) => decimal_number(operand.neg()),
    }
}

/// A whole as a decimal.
#[tactic(auto, unfolding(crate::specs::Numbers::to_decimal_answer))]
fn put_to_decimal(case: &Json, out: &mut Output) -> Written
    ensures { Answers result out.old out.new (to_decimal_answer (view case.now)) }
{
    let operand = members::whole(case, "operand")?;
    put_outcome(out, decimal_number(Decimal::of_whole(operand)));
    Ok(())
}

/// A text that was copied, given back and taken again.
#[tactic(auto, unfolding(crate::specs::Numbers::text_answer))]
fn put_text(alloc: Global, case: &Json, out: &mut Output) -> Written
    ensures { Answers result out.old out.new (text_answer (view case.now)) }
{
    let copy = Text::of(alloc, members::text(case, "text")?)?;
    let again = Text::from(copy.into_string());
    put_quoted(out, again.as_str());
    Ok(())
}

#[tactic(auto, unfolding(crate::specs::Numbers::same_text_answer))]
fn put_same_text(alloc: Global, case: &Json, out: &mut Output) -> Written
    ensures { Answers result out.old out.new (same_text_answer (view case.now)) }
{
    let left = members::text(case, "left")?;
    let right = members::text(case, "right")?;
    put_boolean(out, are_same(alloc, left, right)?);
    Ok(())
}

fn are_same(alloc: Global, left: &str, right: &str) -> Result<bool, AllocError>
    ensures { IfOk result (λ same. same ≡ bytes_eq left.now right.now) }
{
    let left = Text::of(alloc, left)?;
    let right = Text::of(alloc, right)?;
    Ok(left == right)
}
