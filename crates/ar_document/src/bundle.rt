//! Bundles of documents.

ghost use Rattle.std.specs.Prelude.{◌≡◌, ◌<◌, ◌≤◌, Err, IfErr, IfOk, None, Ok, Some, length, map};
ghost use Rattle.serde_json.specs.Data.{Data};
ghost use Rattle.serde_json.specs.Read.{read};
ghost use Rattle.serde_json.specs.View.{view};
ghost use Rattle.ar_value.specs.Answer.{Gives, IfRefused, UnlessMemory, there_or};
ghost use Rattle.ar_json.specs.Document.{json_in, most_bytes};
ghost use Rattle.ar_json.specs.declared.document.JsonError.TheVariants as json_errors;
ghost use Rattle.ar_limits.specs.Replay.{most_events};
ghost use Rattle.ar_document.specs.Document.{IsHeadOf, Reads, ReadsInput, is_bundle_memory};
ghost use Rattle.ar_document.specs.Entries.{entries_in, entry_view};
ghost use Rattle.ar_document.specs.Unmeasured.{IsNoDocument};
ghost use Rattle.ar_document.specs.Opening.{opened_of};
ghost use Rattle.ar_document.specs.Private.Made.{both_of};
ghost use Rattle.ar_document.specs.Private.Measured.{AreEntries};
ghost use Rattle.ar_document.specs.Private.Opened.{IsOpened, opened_view};
ghost use Rattle.ar_document.specs.declared.error.BundleError.TheVariants.{TooLarge, Utf8OrJson};

use crate::error::BundleError;
use crate::measurements::read_entries;
use crate::opening::{Opened, open};
use crate::parts::parts_of;
use ar_bundle::{Bundle, EventPart};
use ar_json::document::MOST_BYTES;
use ar_stream::{StreamError, read_head};
use ar_value::holding::zip_ok;
use json::Scratch;
use serde_json::Value as Json;
use std::alloc::Global;
use std::mem;

/// Both of two values, or the refusal of the first, or that of the second.
fn both_ok<A: Drop, B: Drop>(
    first: Result<A, BundleError>,
    second: Result<B, BundleError>,
) -> Result<(A, B), BundleError>
    ensures { result ≡ both_of first second }
{
    match first {
        Ok(first) => zip_ok(first, second),
        Err(refusal) => Err(refusal),
    }
}

/// The bundle of what was opened, with its entries or their first fault. A run that is refused is reported before
/// this fault.
fn bundle_with(
    alloc: Global,
    opened: Opened,
    entries: Result<Vec<EventPart>, BundleError>,
) -> Result<Bundle, BundleError>
    requires opened { IsOpened opened }
    requires fit { IfOk entries
        (λ entries. AreEntries opened entries.items × (length entries.items ≤ most_events)) }
    ensures { (document : Data) → opened_of document ≡ Ok (opened_view opened)
        → Gives is_bundle_memory (λ found. map entry_view found.items) entries
        (entries_in (opened_view opened) document)
        → UnlessMemory is_bundle_memory result (Reads document) }
{
    let (template, metrics, runs) = opened.into_declared();
    let parts = parts_of(alloc, &template, &metrics, runs);
    mem::drop(template);
    let (metrics, (parts, entries)) = zip_ok(metrics, both_ok(parts, entries))?;
    Ok(Bundle::of_parts(metrics, parts, entries))
}

/// The bundle of a text that is a document, whose head is given.
fn bundle_of(
    alloc: Global,
    head: &Json,
    text: &str,
    scratch: &mut Scratch,
) -> Result<Bundle, BundleError>
    requires { (document : Data) × (read text.now ≡ Some document) }
    ensures { (document : Data) → read text.now ≡ Some document → IsHeadOf document (view head.now)
        → UnlessMemory is_bundle_memory result (Reads document) }
{
    let opened = open(alloc, head)?;
    let entries = read_entries(alloc, &opened, text, scratch);
    bundle_with(alloc, opened, entries)
}

/// The text of an input that isn't too large.
pub(crate) fn text_of(input: &[u8]) -> Result<&str, BundleError>
    ensures text { IfOk result (λ text. text.now ≡ input.now) }
    ensures json { IfOk result (λ _. json_in input.now ≡ there_or json_errors.Utf8OrJson (read input.now)) }
    ensures refused { IfErr result (λ error. ReadsInput input.now (Err error)) }
    ensures none { IfErr result (IsNoDocument input.now) }
    ensures too_large { most_bytes < length input.now → result ≡ Err TooLarge }
{
    if input.len() > MOST_BYTES {
        return Err(BundleError::TooLarge);
    }
    match simdutf8::basic::from_utf8(input) {
        Ok(text) => Ok(text),
        Err(_) => Err(BundleError::Utf8OrJson),
    }
}

/// The head of a document: its members that come before the entries.
fn head_of(alloc: Global, text: &str, scratch: &mut Scratch) -> Result<Json, BundleError>
    ensures head { IfOk result (λ head. (document : Data) × (read text.now ≡ Some document)
        × IsHeadOf document (view head)) }
    ensures refused { IfRefused is_bundle_memory result
        (λ error. (read text.now ≡ None) × (error ≡ Utf8OrJson)) }
{
    match read_head(alloc, &["manifest", "shapes", "runs"], text, scratch) {
        Ok(head) => Ok(head),
        Err(StreamError::NotJson) => Err(BundleError::Utf8OrJson),
        Err(StreamError::OutOfMemory) => Err(BundleError::OutOfMemory),
    }
}

/// The bundle of a document, with the document's head: a JSON object that has its `manifest`, `shapes` and `runs`, and
/// nothing of its `measurements`.
///
/// # Errors
///
/// The first fault in the input, in the order that `BundleError` states.
pub fn read_with_head(alloc: Global, input: &[u8]) -> Result<(Json, Bundle), BundleError>
    ensures head { IfOk result (λ found. (document : Data) × (json_in input.now ≡ Ok document)
        × IsHeadOf document (view found.0)) }
    ensures bundle { IfOk result (λ found. ReadsInput input.now (Ok found.1)) }
    ensures refused { IfRefused is_bundle_memory result (λ error. ReadsInput input.now (Err error)) }
    ensures too_large { most_bytes < length input.now → result ≡ Err TooLarge }
{
    let text = text_of(input)?;
    let mut scratch = Scratch::new(alloc);
    let head = head_of(alloc, text, &mut scratch)?;
    let bundle = bundle_of(alloc, &head, text, &mut scratch);
    zip_ok(head, bundle)
}

/// The bundle of a document: one JSON value with a template `manifest`, `shapes` by the names of its
/// metrics, `runs`, and `measurements`.
///
/// # Errors
///
/// The first fault in the input, in the order that `BundleError` states.
pub fn read_bundle(alloc: Global, input: &[u8]) -> Result<Bundle, BundleError>
    ensures exact { UnlessMemory is_bundle_memory result (ReadsInput input.now) }

    // An input that is too large is refused for that alone.
    ensures too_large { most_bytes < length input.now → result ≡ Err TooLarge }
{
    let (_head, bundle) = read_with_head(alloc, input)?;
    Ok(bundle)
}
