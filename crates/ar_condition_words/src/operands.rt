//! What the operands of a condition are where one isn't of a kind that is taken.

ghost use Rattle.std.specs.Prelude.{◌≡◌, ◌++◌, IfOk, OnOk, option_map, string_bytes};
ghost use Rattle.ar_value.specs.View.{shape_view};
ghost use Rattle.ar_condition_words.specs.Operands.{between_operands, fields_hint, kind_said, operands_found, operands_in, refused_operands};

use ar_check::found::{OperandKind, Operands};
use ar_check::{TypeError, operands_at};
use ar_diagnostic::{first_listed, those_listed};
use ar_syntax::{SyntaxError, parse};
use ar_value::Text;
use ar_value::shape::Shape;
use std::alloc::{AllocError, Global};

fn operands_in(
    alloc: Global,
    shape: &Option<Shape>,
    condition: Option<&str>,
    offset: usize,
) -> Result<Option<Operands>, AllocError>
    ensures { IfOk result (λ operands. operands ≡ operands_in (option_map shape_view shape.now)
        (option_map (λ text. text.now) condition.entry) offset) }
{
    let (Some(shape), Some(condition)) = (shape, condition) else {
        return Ok(None);
    };
    match parse(alloc, condition) {
        Ok(tree) => operands_at(alloc, tree, shape, offset),
        Err(SyntaxError::OutOfMemory) => Err(AllocError),
        Err(_) => Ok(None),
    }
}

/// The operands of the operator at which a condition is refused, or what is before the field's name there.
pub(crate) fn refused_operands(
    alloc: Global,
    shape: &Option<Shape>,
    condition: Option<&str>,
    error: TypeError,
) -> Result<Option<Operands>, AllocError>
    ensures { IfOk result (λ operands. operands ≡ refused_operands (option_map shape_view shape.now)
        (option_map (λ text. text.now) condition.entry) error) }
{
    match error {
        TypeError::WrongOperand(at) | TypeError::NoSuchField(at) => {
            operands_in(alloc, shape, condition, at)
        }
        _ => Ok(None),
    }
}

// ---- what is said of them

fn kind_said(kind: OperandKind) -> &'static str
    ensures { result.now ≡ kind_said kind }
{
    match kind {
        OperandKind::Nil => "nil",
        OperandKind::Bool => "\"bool\"",
        OperandKind::Whole => "\"whole\"",
        OperandKind::Decimal => "\"decimal\"",
        OperandKind::Text => "\"text\"",
        OperandKind::List => "a list",
        OperandKind::Object => "a record",
    }
}

/// What is between what is said of two operands.
fn between_operands(is_membership: bool) -> &'static str
    ensures { result.now ≡ between_operands is_membership }
{
    if is_membership {
        " and a list of "
    } else {
        " and "
    }
}

/// What operands are.
fn push_operands(
    out: &mut String,
    is_membership: bool,
    operands: &Operands,
) -> Result<(), AllocError>
    ensures { OnOk result (string_bytes out.new ≡ string_bytes out.old ++ operands_found is_membership operands.now) }
{
    match operands {
        Operands::Before(owner) => {
            out.push_str(kind_said(*owner))?;
            out.push_str(" before it")
        }
        Operands::Record(_) => out.push_str("a record before it"),
        Operands::One(operand) => out.push_str(kind_said(*operand)),
        Operands::Two(left, right) => {
            out.push_str(kind_said(*left))?;
            out.push_str(between_operands(is_membership))?;
            out.push_str(kind_said(*right))
        }
    }
}

/// What operands are.
pub(crate) fn operands_found(
    alloc: Global,
    is_membership: bool,
    operands: &Operands,
) -> Result<Text, AllocError>
    ensures { IfOk result (λ text. text ≡ operands_found is_membership operands.now) }
{
    let mut text = String::new(alloc);
    push_operands(&mut text, is_membership, operands)?;
    Ok(Text::from(text))
}

/// The fields of a record, where one that it hasn't is named.
pub(crate) fn fields_hint(
    alloc: Global,
    operands: &Option<Operands>,
) -> Result<Option<Text>, AllocError>
    ensures { IfOk result (λ hint. hint ≡ fields_hint operands.now) }
{
    let Some(Operands::Record(names)) = operands else {
        return Ok(None);
    };
    let names = names.as_slice();
    let fields = those_listed(alloc, "fields", first_listed(names), names.len())?;
    Ok(Some(fields))
}
