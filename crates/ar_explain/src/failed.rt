//! Failures of parts, with the operands on which they arise.

ghost use Rattle.std.specs.Prelude.{◌≡◌, ◌++◌, IfOk, None, OnOk, Some, codes, option_map, string_bytes};
ghost use Rattle.ar_value.specs.Value.{items_of, list};
ghost use Rattle.ar_value.specs.declared.operator.BinaryOperator.TheVariants as binary;
ghost use Rattle.ar_machine.specs.Operand.{list_values, operand_value};
ghost use Rattle.ar_show.specs.Values.{shown_value};
ghost use Rattle.ar_show.specs.Words.{plural};
ghost use Rattle.ar_explain.specs.Operands.{one_operand, two_operands};
ghost use Rattle.ar_explain.specs.Private.Failed.{on_of};

use ar_machine::operand::OperandRef;
use ar_machine::operand::borrowed::ValueRef;
use ar_machine::operand::list::ListRef;
use ar_operand::operand::Failure;
use ar_show::push_value;
use ar_value::operator::BinaryOperator;
use std::alloc::{AllocError, Global};
use std::fmt::Write;

/// Why a part has no value.
#[derive(Drop)]
pub(crate) struct Failed {
    pub failure: Failure,
    /// On which operands it arises, where it isn't the failure of a part inside.
    pub on: Option<String>,
}

impl Failed {
    /// The failure of a part inside, or of a part without operands.
    pub(crate) fn inside(failure: Failure) -> Failed
        ensures failure { result.failure ≡ failure }
        ensures on { on_of result ≡ None }
    {
        Failed { failure, on: None }
    }

    pub(crate) fn on_text(failure: Failure, text: String) -> Failed
        ensures failure { result.failure ≡ failure }
        ensures on { on_of result ≡ Some (string_bytes text) }
    {
        Failed {
            failure,
            on: Some(text),
        }
    }

    pub(crate) fn text(&self) -> Option<&str>
        ensures { option_map (λ text. text.now) result ≡ on_of self.now }
    {
        match &self.on {
            Some(text) => Some(text.as_str()),
            None => None,
        }
    }

    pub(crate) fn on_operand(
        alloc: Global,
        failure: Failure,
        operand: OperandRef<'_, '_>,
    ) -> Result<Failed, AllocError>
        ensures { IfOk result (λ failed. (failed.failure ≡ failure)
            × (on_of failed ≡ Some (one_operand (operand_value operand.entry)))) }
    {
        Ok(Failed::on_text(failure, one_text(alloc, operand)?))
    }
}

#[tactic(auto, unfolding(crate::specs::Operands::one_operand))]
pub(crate) fn one_text(alloc: Global, operand: OperandRef<'_, '_>) -> Result<String, AllocError>
    ensures { IfOk result (λ text. string_bytes text ≡ one_operand (operand_value operand.entry)) }
{
    let mut text = String::new(alloc);
    text.push_str("operand ")?;
    push_value(&mut text, operand)?;
    Ok(text)
}

fn push_both(
    out: &mut String,
    left: OperandRef<'_, '_>,
    right: OperandRef<'_, '_>,
) -> Result<(), AllocError>
    ensures { OnOk result (string_bytes out.new ≡ string_bytes out.old ++ (codes "operands "
        ++ (shown_value (operand_value left.entry) ++ (codes " and " ++ shown_value (operand_value right.entry))))) }
{
    out.push_str("operands ")?;
    push_value(out, left)?;
    out.push_str(" and ")?;
    push_value(out, right)
}

fn list_operand<'s, 'v>(items: ListRef<'s, 'v>) -> OperandRef<'s, 'v>
    ensures { operand_value result ≡ list (items_of (list_values items.entry)) }
{
    match items {
        ListRef::Borrowed(items) => OperandRef::Borrowed(ValueRef::List(items)),
        ListRef::Made(items) => OperandRef::Made(items),
    }
}

/// What the word for one thing has at its end where there are `number` of them.
fn plural(number: usize) -> &'static str
    ensures { result.now ≡ plural number }
{
    if number == 1 { "" } else { "s" }
}

/// An index into a list.
#[tactic(auto, unfolding(crate::specs::Operands::two_operands), using(ar_machine::proofs::Items::count_items))]
fn push_at(
    out: &mut String,
    items: ListRef<'_, '_>,
    index: OperandRef<'_, '_>,
) -> Result<(), AllocError>
    ensures { OnOk result (string_bytes out.new ≡ string_bytes out.old
        ++ two_operands binary.Index (list (items_of (list_values items.entry))) (operand_value index.entry)) }
{
    match index {
        OperandRef::Borrowed(ValueRef::Whole(index)) => {
            let len = items.len();
            write!(out, "index {index} of {len} item{}", plural(len))
        }
        OperandRef::Borrowed(_) | OperandRef::Made(_) => {
            push_both(out, list_operand(items), index)
        }
    }
}

#[tactic(auto, unfolding(crate::specs::Operands::two_operands))]
fn push_index(
    out: &mut String,
    left: OperandRef<'_, '_>,
    right: OperandRef<'_, '_>,
) -> Result<(), AllocError>
    ensures { OnOk result (string_bytes out.new ≡ string_bytes out.old
        ++ two_operands binary.Index (operand_value left.entry) (operand_value right.entry)) }
{
    match left {
        OperandRef::Borrowed(ValueRef::List(items)) => {
            push_at(out, ListRef::Borrowed(items), right)
        }
        OperandRef::Made(items) => push_at(out, ListRef::Made(items), right),
        OperandRef::Borrowed(_) => push_both(out, left, right),
    }
}

#[tactic(auto, unfolding(crate::specs::Operands::two_operands))]
fn push_two(
    out: &mut String,
    operator: BinaryOperator,
    left: OperandRef<'_, '_>,
    right: OperandRef<'_, '_>,
) -> Result<(), AllocError>
    ensures { OnOk result (string_bytes out.new ≡ string_bytes out.old
        ++ two_operands operator (operand_value left.entry) (operand_value right.entry)) }
{
    match operator {
        BinaryOperator::Index => push_index(out, left, right),
        BinaryOperator::Default
        | BinaryOperator::IsIn
        | BinaryOperator::Wholes(_)
        | BinaryOperator::Decimals(_)
        | BinaryOperator::Compare(_, _)
        | BinaryOperator::Equal(_)
        | BinaryOperator::TextTest(_) => push_both(out, left, right),
    }
}

pub(crate) fn two_text(
    alloc: Global,
    operator: BinaryOperator,
    left: OperandRef<'_, '_>,
    right: OperandRef<'_, '_>,
) -> Result<String, AllocError>
    ensures { IfOk result (λ text. string_bytes text
        ≡ two_operands operator (operand_value left.entry) (operand_value right.entry)) }
{
    let mut text = String::new(alloc);
    push_two(&mut text, operator, left, right)?;
    Ok(text)
}
