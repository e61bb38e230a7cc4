//! The measurements of a document that gave no value of their metrics' shapes.

ghost use Rattle.std.specs.Prelude.{◌≡◌, IfOk, IsOkAnd, None, Ok, codes, false, map};
ghost use Rattle.std.specs.List.{list_any};
ghost use Rattle.serde_json.specs.Data.{Data, null};
ghost use Rattle.serde_json.specs.Read.{read};
ghost use Rattle.serde_json.specs.View.{view};
ghost use Rattle.ar_value.specs.Answer.{IfRefused};
ghost use Rattle.ar_json.specs.Document.{json_in};
ghost use Rattle.ar_stream.specs.Picked.{HasPicked};
ghost use Rattle.ar_document.specs.Document.{is_bundle_memory};
ghost use Rattle.ar_document.specs.Unmeasured.{IsNoDocument, KeepsUnmeasured, is_unmeasured};
ghost use Rattle.ar_document.specs.declared.error.BundleError.TheVariants.{Utf8OrJson};

use crate::bundle::text_of;
use crate::error::BundleError;
use ar_bundle::{Bundle, EventPart, What};
use ar_judge::Sample;
use ar_stream::{StreamError, read_picked};
use ar_value::holding::try_push;
use json::Scratch;
use serde_json::Value as Json;
use std::alloc::{AllocError, Global};

/// Is an entry a measurement that gave no value of its metric's shape?
fn is_unmeasured(entry: &EventPart) -> bool
    ensures { result ≡ is_unmeasured entry.now }
{
    match &entry.what {
        What::Measure(_, Sample::Misfit(_) | Sample::Provider) => true,
        What::Measure(_, Sample::Measured(_)) => false,
        What::Stop => false,
    }
}

/// Is one of these entries such a measurement?
fn are_unmeasured(entries: &[EventPart]) -> bool
    ensures { result ≡ list_any is_unmeasured entries.now }
{
    entries.iter().any(is_unmeasured)
}

/// Which of these entries are such measurements?
fn unmeasured_among(alloc: Global, entries: &[EventPart]) -> Result<Vec<bool>, AllocError>
    ensures { IfOk result (λ flags. flags.items ≡ map is_unmeasured entries.now) }
{
    let mut flags = Vec::with_capacity(alloc, entries.len())?;
    for entry in entries {
        try_push(&mut flags, is_unmeasured(entry))?;
    }
    Ok(flags)
}

/// The measurements of a text that are picked.
fn picked_of(
    alloc: Global,
    picks: &[bool],
    text: &str,
    scratch: &mut Scratch,
) -> Result<Json, BundleError>
    ensures kept { IfOk result (λ kept. HasPicked (codes "measurements") picks.now text.now (view kept)) }
    ensures refused { IfRefused is_bundle_memory result
        (λ error. (read text.now ≡ None) × (error ≡ Utf8OrJson)) }
{
    match read_picked(alloc, "measurements", picks, text, scratch) {
        Ok(kept) => Ok(kept),
        Err(StreamError::NotJson) => Err(BundleError::Utf8OrJson),
        Err(StreamError::OutOfMemory) => Err(BundleError::OutOfMemory),
    }
}

/// A document that has, of the measurements of a bundle's document, those that gave no value of their metrics' shapes,
/// each at its place, and null in place of the others: there the value doesn't fit, or the provider failed. Where there
/// is no such measurement, it is null: nothing is read, and nothing can fail.
///
/// # Errors
///
/// `TooLarge` or `Utf8OrJson` where the input is no document.
pub fn read_unmeasured(alloc: Global, input: &[u8], bundle: &Bundle) -> Result<Json, BundleError>
    ensures kept { IfOk result (λ kept. (document : Data) → json_in input.now ≡ Ok document
        → KeepsUnmeasured bundle.now document (view kept)) }
    ensures refused { IfRefused is_bundle_memory result (IsNoDocument input.now) }
    ensures none { list_any is_unmeasured bundle.now.entries ≡ false → IsOkAnd result (λ kept. view kept ≡ null) }
{
    let entries = bundle.entries();
    if !are_unmeasured(entries) {
        return Ok(Json::Null);
    }
    let picks = unmeasured_among(alloc, entries)?;
    let text = text_of(input)?;
    let mut scratch = Scratch::new(alloc);
    picked_of(alloc, &picks, text, &mut scratch)
}
