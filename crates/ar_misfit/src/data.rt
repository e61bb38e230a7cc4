//! A misfit as a JSON object.

ghost use Rattle.std.specs.Prelude.{◌≡◌, ◌++◌, IfOk, OnOk, codes, flat_map, map, option_map, string_bytes};
ghost use Rattle.serde_json.specs.View.{view};
ghost use Rattle.ar_object.specs.Object.{array_of, text_or_null};
ghost use Rattle.ar_object.specs.Written.{AddsMember, AddsValue};
ghost use Rattle.ar_value.specs.View.{shape_view};
ghost use Rattle.ar_misfit.specs.MisfitData.{misfit_data, step_data, step_token};
ghost use Rattle.ar_misfit.specs.MisfitText.{expected_text, found_text};
ghost use Rattle.ar_misfit.specs.Private.Advised.{advice_words};
ghost use Rattle.ar_misfit.specs.Views.{misfit_view, step_view};

use crate::advice::{Advice, advice_on};
use crate::misfit::{Misfit, Step};
use crate::words::{push_expected, push_found};
use ar_diagnostic::push_token;
use ar_object::JsonText;
use ar_value::shape::Shape;
use serde_json::Value as Json;
use std::alloc::{AllocError, Global};
use std::fmt::Write;

fn expected_words(alloc: Global, expected: &Shape) -> Result<String, AllocError>
    ensures { IfOk result (λ words. string_bytes words ≡ expected_text (shape_view expected.now)) }
{
    let mut words = String::new(alloc);
    push_expected(&mut words, expected)?;
    Ok(words)
}

fn found_words(alloc: Global, found: Option<&Json>) -> Result<String, AllocError>
    ensures { IfOk result (λ words. string_bytes words
        ≡ found_text (option_map (λ json. view json.now) found.entry)) }
{
    let mut words = String::new(alloc);
    push_found(&mut words, found)?;
    Ok(words)
}

fn push_step_token(out: &mut String, step: Step<'_>) -> Result<(), AllocError>
    ensures { OnOk result (string_bytes out.new ≡ string_bytes out.old ++ step_token (step_view step.entry)) }
{
    match step {
        Step::Index(number) => write!(out, "/{number}"),
        Step::Named(name) => {
            out.push_str("/")?;
            push_token(out, name)
        }
    }
}

/// Appends the steps of a path to a JSON Pointer.
fn push_tokens(out: &mut String, path: &[Step<'_>]) -> Result<(), AllocError>
    ensures { OnOk result
        (string_bytes out.new ≡ string_bytes out.old ++ flat_map step_token (map step_view path.now)) }
{
    for step in path {
        push_step_token(out, *step)?;
    }
    Ok(())
}

fn pointer_to(alloc: Global, value: &str, path: &[Step<'_>]) -> Result<String, AllocError>
    ensures { IfOk result
        (λ pointer. string_bytes pointer ≡ value.now ++ flat_map step_token (map step_view path.now)) }
{
    let mut pointer = String::new(alloc);
    pointer.push_str(value)?;
    push_tokens(&mut pointer, path)?;
    Ok(pointer)
}

fn put_step(json: &mut JsonText, step: Step<'_>)
    ensures { AddsValue (step_data (step_view step.entry)) json.old.written json.new.written }
{
    match step {
        Step::Index(number) => json.put_count_value(number as u64),
        Step::Named(name) => json.put_text_value(name),
    }
}

fn put_path(json: &mut JsonText, path: &[Step<'_>])
    ensures { AddsMember (codes "path") (array_of (map step_data (map step_view path.now)))
        json.old.written json.new.written }
{
    json.begin_list("path");
    for step in path {
        put_step(json, *step);
    }
    json.end_list()
}

/// What to do, or null.
fn put_hint(alloc: Global, json: &mut JsonText, advice: Option<Advice>) -> Result<(), AllocError>
    ensures { OnOk result (AddsMember (codes "hint") (text_or_null (option_map advice_words advice))
        json.old.written json.new.written) }
{
    let Some(advice) = advice else {
        json.put_null("hint");
        return Ok(());
    };
    let mut words = String::new(alloc);
    advice.push(&mut words)?;
    json.put_text("hint", &words);
    Ok(())
}

/// Writes a misfit of the value to which a JSON Pointer leads.
///
/// # Errors
///
/// Out of memory alone.
pub fn write_misfit(
    alloc: Global,
    json: &mut JsonText,
    value: &str,
    misfit: &Misfit<'_>,
) -> Result<(), AllocError>
    ensures { OnOk result
        (AddsValue (misfit_data value.now (misfit_view misfit.now)) json.old.written json.new.written) }
{
    let expected = expected_words(alloc, misfit.expected)?;
    let found = found_words(alloc, misfit.found)?;
    let pointer = pointer_to(alloc, value, &misfit.path)?;
    json.begin_object();
    json.put_text("expected", &expected);
    json.put_text("fault", misfit.fault.name());
    json.put_text("found", &found);
    put_hint(
        alloc,
        json,
        advice_on(misfit.fault, misfit.expected, misfit.found),
    )?;
    put_path(json, &misfit.path);
    json.put_text("pointer", &pointer);
    json.end_object();
    Ok(())
}
