//! What operators make of operands, or on which operands they fail.
//!
//! A text is made where an operator fails. Of a list that the condition makes it is made before: the operator may take
//! the list.

ghost use Rattle.std.specs.Prelude.{◌≡◌, IfOk, None, Option, Some};
ghost use Rattle.ar_value.specs.Operators.{Meaning, binary_meaning, field_in, scalar_item, unary_meaning};
ghost use Rattle.ar_value.specs.Terms.{Text};
ghost use Rattle.ar_machine.specs.Operand.{operand_value, value_of};
ghost use Rattle.ar_operand.specs.Operand.{Meets, operand_view};
ghost use Rattle.ar_explain.specs.Operands.{one_operand, two_operands, refused_or};
ghost use Rattle.ar_apart.specs.Apart.{operands_apart};
ghost use Rattle.ar_apart.specs.Views.{texts_apart};
ghost use Rattle.ar_explain.specs.Private.Failed.{ComesTo, MeetsOn, found_view};

use crate::failed::{Failed, one_text, two_text};
use ar_apart::{Texts, texts_of};
use ar_machine::operand::OperandRef;
use ar_machine::operand::borrowed::ValueRef;
use ar_operand::apply::{apply_binary, apply_unary};
use ar_operand::operand::{Failure, Operand, field_of};
use ar_value::operator::{BinaryOperator, UnaryOperator};
use std::alloc::{AllocError, Global};

pub(crate) fn operand_ref<'s, 'v>(operand: &'s Operand<'v>) -> OperandRef<'s, 'v>
    ensures { operand_value result ≡ operand_view operand.now }
{
    match operand {
        Operand::Value(value) => OperandRef::Borrowed(*value),
        Operand::Made(items) => OperandRef::Made(items),
    }
}

/// The value of a part.
#[derive(Drop)]
pub(crate) struct Found<'v> {
    pub operand: Operand<'v>,
    /// The operands that it is made of, if they are texts.
    pub texts: Option<Texts<'v>>,
}

impl<'v> Found<'v> {
    pub(crate) fn value(value: ValueRef<'v>) -> Found<'v>
        ensures value { found_view result ≡ value_of value.entry }
        ensures texts { texts_apart result.texts ≡ None }
    {
        Found {
            operand: Operand::Value(value),
            texts: None,
        }
    }
}

/// What came of a part whose operands aren't two texts.
pub(crate) fn without_texts<'v>(met: Result<Operand<'v>, Failed>) -> Result<Found<'v>, Failed>
    ensures { (meaning : Meaning) (on : Option Text) → MeetsOn operand_view met.entry meaning on
        → ComesTo result meaning on None }
{
    match met {
        Ok(operand) => Ok(Found {
            operand,
            texts: None,
        }),
        Err(failed) => Err(failed),
    }
}

/// What came of a part inside, as what came of the part around it.
pub(crate) fn inherited<'v>(met: Result<Operand<'v>, Failure>) -> Result<Operand<'v>, Failed>
    ensures { (meaning : Meaning) → Meets operand_view met.entry meaning → MeetsOn operand_view result meaning None }
{
    match met {
        Ok(operand) => Ok(operand),
        Err(failure) => Err(Failed::inside(failure)),
    }
}

/// What came of a part, as what comes of it for the parts around it.
pub(crate) fn plain<'v>(met: Result<Found<'v>, Failed>) -> Result<Operand<'v>, Failure>
    ensures { (meaning : Meaning) (on : Option Text) → MeetsOn found_view met.entry meaning on
        → Meets operand_view result meaning }
{
    match met {
        Ok(found) => Ok(found.operand),
        Err(failed) => Err(failed.failure),
    }
}

/// The field of a record.
pub(crate) fn field_on<'v>(
    alloc: Global,
    operand: &Operand<'v>,
    name: &str,
) -> Result<Result<Operand<'v>, Failed>, AllocError>
    ensures { IfOk result (λ met. MeetsOn operand_view met (field_in name.now (operand_view operand.now))
        (Some (one_operand (operand_view operand.now)))) }
{
    match field_of(operand, name) {
        Ok(value) => Ok(Ok(value)),
        Err(failure) => Ok(Err(Failed::on_operand(alloc, failure, operand_ref(operand))?)),
    }
}

/// An operand as an item of a list literal.
pub(crate) fn scalar_on<'v>(
    alloc: Global,
    operand: &Operand<'v>,
) -> Result<Result<ValueRef<'v>, Failed>, AllocError>
    ensures { IfOk result (λ met. MeetsOn value_of met (scalar_item (operand_view operand.now))
        (refused_or (scalar_item (operand_view operand.now)) (operand_view operand.now) None)) }
{
    match operand {
        Operand::Value(ValueRef::Nil | ValueRef::List(_) | ValueRef::Object(_))
        | Operand::Made(_) => Ok(Err(Failed::on_operand(
            alloc,
            Failure::IllKinded,
            operand_ref(operand),
        )?)),
        Operand::Value(value) => Ok(Ok(*value)),
    }
}

pub(crate) fn unary_on<'v>(
    alloc: Global,
    operator: UnaryOperator,
    operand: Operand<'v>,
) -> Result<Result<Operand<'v>, Failed>, AllocError>
    ensures { IfOk result (λ met. MeetsOn operand_view met (unary_meaning operator (operand_view operand.entry))
        (Some (one_operand (operand_view operand.entry)))) }
{
    match operand {
        Operand::Value(value) => unary_on_value(alloc, operator, value),
        Operand::Made(items) => unary_on_list(alloc, operator, Operand::Made(items)),
    }
}

fn unary_on_value<'v>(
    alloc: Global,
    operator: UnaryOperator,
    value: ValueRef<'v>,
) -> Result<Result<Operand<'v>, Failed>, AllocError>
    ensures { IfOk result (λ met. MeetsOn operand_view met (unary_meaning operator (value_of value.entry))
        (Some (one_operand (value_of value.entry)))) }
{
    let mut operand = Operand::Value(value);
    match apply_unary(operator, &mut operand) {
        Ok(found) => Ok(Ok(found)),
        Err(failure) => Ok(Err(Failed::on_operand(alloc, failure, OperandRef::Borrowed(value))?)),
    }
}

/// The same of an operand that the operator may take.
fn unary_on_list<'v>(
    alloc: Global,
    operator: UnaryOperator,
    mut operand: Operand<'v>,
) -> Result<Result<Operand<'v>, Failed>, AllocError>
    ensures { IfOk result (λ met. MeetsOn operand_view met (unary_meaning operator (operand_view operand.entry))
        (Some (one_operand (operand_view operand.entry)))) }
{
    let text = one_text(alloc, operand_ref(&operand))?;
    match apply_unary(operator, &mut operand) {
        Ok(found) => Ok(Ok(found)),
        Err(failure) => Ok(Err(Failed::on_text(failure, text))),
    }
}

#[tactic(auto, using(ar_apart::proofs::Differences::list_isnt_alike))]
pub(crate) fn binary_on<'v>(
    alloc: Global,
    operator: BinaryOperator,
    left: Operand<'v>,
    right: Operand<'v>,
) -> Result<Result<Found<'v>, Failed>, AllocError>
    ensures { IfOk result (λ met. ComesTo met
        (binary_meaning operator (operand_view left.entry) (operand_view right.entry))
        (Some (two_operands operator (operand_view left.entry) (operand_view right.entry)))
        (operands_apart (operand_view left.entry) (operand_view right.entry))) }
{
    match left {
        Operand::Value(first) => match right {
            Operand::Value(second) => binary_on_values(alloc, operator, first, second),
            Operand::Made(items) => {
                let right = Operand::Made(items);
                Ok(without_texts(binary_on_lists(alloc, operator, Operand::Value(first), right)?))
            }
        },
        Operand::Made(items) => {
            let left = Operand::Made(items);
            Ok(without_texts(binary_on_lists(alloc, operator, left, right)?))
        }
    }
}

fn binary_on_values<'v>(
    alloc: Global,
    operator: BinaryOperator,
    left: ValueRef<'v>,
    right: ValueRef<'v>,
) -> Result<Result<Found<'v>, Failed>, AllocError>
    ensures { IfOk result (λ met. ComesTo met
        (binary_meaning operator (value_of left.entry) (value_of right.entry))
        (Some (two_operands operator (value_of left.entry) (value_of right.entry)))
        (operands_apart (value_of left.entry) (value_of right.entry))) }
{
    let mut first = Operand::Value(left);
    let mut second = Operand::Value(right);
    match apply_binary(operator, &mut first, &mut second) {
        Ok(operand) => Ok(Ok(Found {
            operand,
            texts: texts_of(left, right),
        })),
        Err(failure) => {
            let text = two_text(
                alloc,
                operator,
                OperandRef::Borrowed(left),
                OperandRef::Borrowed(right),
            )?;
            Ok(Err(Failed::on_text(failure, text)))
        }
    }
}

/// The same of operands that the operator may take.
fn binary_on_lists<'v>(
    alloc: Global,
    operator: BinaryOperator,
    mut left: Operand<'v>,
    mut right: Operand<'v>,
) -> Result<Result<Operand<'v>, Failed>, AllocError>
    ensures { IfOk result (λ met. MeetsOn operand_view met
        (binary_meaning operator (operand_view left.entry) (operand_view right.entry))
        (Some (two_operands operator (operand_view left.entry) (operand_view right.entry)))) }
{
    let text = two_text(alloc, operator, operand_ref(&left), operand_ref(&right))?;
    match apply_binary(operator, &mut left, &mut right) {
        Ok(found) => Ok(Ok(found)),
        Err(failure) => Ok(Err(Failed::on_text(failure, text))),
    }
}
