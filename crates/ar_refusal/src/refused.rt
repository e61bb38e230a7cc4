//! Refused inputs.

ghost use Rattle.std.specs.Prelude.{◌≡◌, IfOk, string_bytes};
ghost use Rattle.serde_json.specs.View.{view};
ghost use Rattle.ar_refusal.specs.Refused.{IsDiagnosis, IsRefusalText, is_too_large, refusal_diagnostic};

use crate::lacking::lacking_diagnostic;
use crate::said::{format_of, written_as};
use crate::unread::{no_json, too_large};
use ar_command::{Command, EvalError, Refusal};
use ar_diagnostic::{Diagnostic, Place};
use ar_document::BundleError;
use ar_words::{bundle_diagnostic, eval_diagnostic};
use serde_json::Value as Json;
use std::alloc::{AllocError, Global};

fn is_too_large(refusal: &Refusal) -> bool
    ensures { result ≡ is_too_large refusal.now }
{
    matches!(
        refusal,
        Refusal::Eval(EvalError::TooLarge) | Refusal::Bundle(BundleError::TooLarge)
    )
}

/// The diagnostic of a refusal, by the document that was read.
#[tactic(auto, unfolding(crate::specs::Refused::refusal_diagnostic))]
fn diagnostic_of(
    alloc: Global,
    command: Command<'_>,
    document: &Json,
    refusal: &Refusal,
) -> Result<Diagnostic, AllocError>
    ensures { IfOk result
        (λ it. it ≡ refusal_diagnostic command.entry (view document.now) refusal.now) }
{
    match (refusal, command) {
        (Refusal::Eval(error), _) => eval_diagnostic(alloc, document, *error),
        (Refusal::Bundle(error), _) => bundle_diagnostic(alloc, document, *error),
        (Refusal::NotThere, Command::Explain(selection, _)) => {
            lacking_diagnostic(alloc, selection, document)
        }
        (Refusal::NotThere, _) => { Diagnostic::named(alloc, Place::CommandLine(None), "NotThere") }
    }
}

/// The diagnostic of a refused input.
///
/// # Errors
///
/// Out of memory alone.
#[tactic(auto, using(ar_json::proofs::Documents::json))]
pub fn refusal_of(
    alloc: Global,
    command: Command<'_>,
    input: &[u8],
    refusal: &Refusal,
) -> Result<Diagnostic, AllocError>
    ensures { IfOk result (λ it. IsDiagnosis command.entry input.now refusal.now it) }
{
    if is_too_large(refusal) {
        return too_large(alloc);
    }
    match Json::from_slice(alloc, input) {
        Ok(document) => diagnostic_of(alloc, command, &document, refusal),
        Err(error) if error.is_memory() => Err(AllocError),
        Err(error) => no_json(alloc, input, &error),
    }
}

/// What is said of a refused input, in the format of the command's answer: a line without a line feed, or one
/// JSON object with one.
///
/// # Errors
///
/// Out of memory alone.
#[tactic(auto, using(crate::proofs::Diagnosed::text_is))]
pub fn refusal_text(
    alloc: Global,
    command: Command<'_>,
    input: &[u8],
    refusal: &Refusal,
) -> Result<String, AllocError>
    ensures { IfOk result
        (λ text. IsRefusalText command.entry input.now refusal.now (string_bytes text)) }
{
    let it = refusal_of(alloc, command, input, refusal)?;
    written_as(alloc, format_of(command), &it)
}
