//! What is said of a misfit.

ghost use Rattle.std.specs.Prelude.{◌≡◌, ◌++◌, OnOk, Some, flat_map, map, option_map, string_bytes};
ghost use Rattle.serde_json.specs.View.{number_view, view};
ghost use Rattle.ar_value.specs.View.{shape_view};
ghost use Rattle.ar_misfit.specs.MisfitText.{advice_text, expected_text, fault_text, found_text, misfit_text, number_shown, path_text, step_text};
ghost use Rattle.ar_misfit.specs.Private.Advised.{advice_words};
ghost use Rattle.ar_misfit.specs.Views.{misfit_view, step_view};

use crate::advice::{Advice, advice_on};
use crate::floats::push_float;
use crate::misfit::{Misfit, Step};
use ar_quote::push_quoted;
use ar_show::{push_boolean, push_field_name};
use ar_value::shape::Shape;
use serde_json::{Number, Value as Json};
use std::alloc::AllocError;
use std::fmt::Write;

pub(crate) fn push_expected(out: &mut String, shape: &Shape) -> Result<(), AllocError>
    ensures { OnOk result (string_bytes out.new ≡ string_bytes out.old ++ expected_text (shape_view shape.now)) }
{
    match shape {
        Shape::Bool => out.push_str("true or false"),
        Shape::Whole => out.push_str("a whole number"),
        Shape::Decimal => out.push_str("a decimal as a text, or a whole number"),
        Shape::Text => out.push_str("a text"),
        Shape::List { max, .. } => write!(out, "a list of at most {max} items"),
        Shape::Object(_) => out.push_str("an object"),
        Shape::Optional(plain) => {
            push_expected(out, plain)?;
            out.push_str(" or null")
        }
    }
}

fn push_number(out: &mut String, number: &Number) -> Result<(), AllocError>
    ensures { OnOk result (string_bytes out.new ≡ string_bytes out.old ++ number_shown (number_view number.now)) }
{
    if let Some(whole) = number.as_i128() {
        return write!(out, "{whole}");
    }
    match number.as_f64() {
        Some(float) => push_float(out, float),
        None => unreachable!(),
    }
}

fn push_json(out: &mut String, json: &Json) -> Result<(), AllocError>
    ensures { OnOk result (string_bytes out.new ≡ string_bytes out.old ++ found_text (Some (view json.now))) }
{
    match json {
        Json::Null => out.push_str("null"),
        Json::Bool(boolean) => push_boolean(out, *boolean),
        Json::Number(number) => push_number(out, number),
        Json::String(text) => push_quoted(out, text.as_str()),
        Json::Array(items) => write!(out, "a list of {} items", items.len()),
        Json::Object(_) => out.push_str("an object"),
    }
}

/// What was found at a place, or that nothing was.
pub(crate) fn push_found(out: &mut String, found: Option<&Json>) -> Result<(), AllocError>
    ensures { OnOk result (string_bytes out.new ≡ string_bytes out.old
        ++ found_text (option_map (λ json. view json.now) found.entry)) }
{
    match found {
        None => out.push_str("nothing"),
        Some(json) => push_json(out, json),
    }
}

fn push_advice(out: &mut String, advice: Option<Advice>) -> Result<(), AllocError>
    ensures { OnOk result (string_bytes out.new
        ≡ string_bytes out.old ++ advice_text (option_map advice_words advice)) }
{
    let Some(advice) = advice else {
        return Ok(());
    };
    out.push_str("; ")?;
    advice.push(out)
}

fn push_step(out: &mut String, step: Step<'_>) -> Result<(), AllocError>
    ensures { OnOk result (string_bytes out.new ≡ string_bytes out.old ++ step_text (step_view step.entry)) }
{
    match step {
        Step::Index(number) => write!(out, "[{number}]"),
        Step::Named(name) => push_field_name(out, name),
    }
}

fn push_steps(out: &mut String, path: &[Step<'_>]) -> Result<(), AllocError>
    ensures { OnOk result
        (string_bytes out.new ≡ string_bytes out.old ++ flat_map step_text (map step_view path.now)) }
{
    for step in path {
        push_step(out, *step)?;
    }
    Ok(())
}

/// The steps, or words for the whole value where there are none.
fn push_path(out: &mut String, path: &[Step<'_>]) -> Result<(), AllocError>
    ensures { OnOk result (string_bytes out.new ≡ string_bytes out.old ++ path_text (map step_view path.now)) }
{
    match path {
        [] => out.push_str("the value"),
        [_, ..] => push_steps(out, path),
    }
}

/// What comes after the path.
fn push_fault(out: &mut String, misfit: &Misfit<'_>) -> Result<(), AllocError>
    ensures { OnOk result (string_bytes out.new ≡ string_bytes out.old ++ fault_text (misfit_view misfit.now)) }
{
    out.push_str(": ")?;
    out.push_str(misfit.fault.name())?;
    out.push_str(": expected ")?;
    push_expected(out, misfit.expected)?;
    out.push_str(", found ")?;
    push_found(out, misfit.found)?;
    push_advice(out, advice_on(misfit.fault, misfit.expected, misfit.found))
}

/// Appends where a value doesn't fit, what was expected there, and what was found.
///
/// # Errors
///
/// Out of memory alone.
#[tactic(auto, unfolding(crate::specs::MisfitText::misfit_text))]
pub fn push_misfit(out: &mut String, misfit: &Misfit<'_>) -> Result<(), AllocError>
    ensures { OnOk result (string_bytes out.new ≡ string_bytes out.old ++ misfit_text (misfit_view misfit.now)) }
{
    push_path(out, &misfit.path)?;
    push_fault(out, misfit)
}
