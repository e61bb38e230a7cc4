//! Warnings in a format.

ghost use Rattle.std.specs.Prelude.{◌≡◌, ◌++◌, IfOk, OnOk, string_bytes};
ghost use Rattle.ar_refusal.specs.Warned.{AreWarned, IsJsonWarnings, warning_line, warning_lines};

use ar_command::Format;
use ar_diagnostic::{Diagnostic, warning_line, warnings_json};
use std::alloc::{AllocError, Global};
use std::fmt::Write;

fn push_warning(alloc: Global, out: &mut String, it: &Diagnostic) -> Result<(), AllocError>
    ensures { OnOk result (string_bytes out.new ≡ string_bytes out.old ++ warning_line it.now) }
{
    let line = warning_line(alloc, it)?;
    write!(out, "argo_judge: warning: {line}\n")
}

/// Warnings, a line each.
#[tactic(auto, using(crate::proofs::Diagnosed::next_line, crate::proofs::Diagnosed::no_line))]
fn lines_of(alloc: Global, warnings: &[Diagnostic]) -> Result<String, AllocError>
    ensures { IfOk result (λ text. string_bytes text ≡ warning_lines warnings.now) }
{
    let mut text = String::new(alloc);
    for warning in warnings {
        push_warning(alloc, &mut text, warning)?;
    }
    Ok(text)
}

/// Warnings as one JSON object, if there are any.
fn object_of(alloc: Global, warnings: &[Diagnostic]) -> Result<String, AllocError>
    ensures { IfOk result (λ text. IsJsonWarnings warnings.now (string_bytes text)) }
{
    if warnings.is_empty() {
        return Ok(String::new(alloc));
    }
    warnings_json(alloc, warnings)
}

/// Warnings of a document in a format: a line each, or one JSON object.
///
/// # Errors
///
/// Out of memory alone.
pub fn warnings_text(
    alloc: Global,
    format: Format,
    warnings: &[Diagnostic],
) -> Result<String, AllocError>
    ensures { IfOk result (λ text. AreWarned format warnings.now (string_bytes text)) }
{
    match format {
        Format::Text => lines_of(alloc, warnings),
        Format::Json => object_of(alloc, warnings),
    }
}
