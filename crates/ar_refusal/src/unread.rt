//! Inputs that are no document.

ghost use Rattle.std.specs.Prelude.{◌≡◌, IfOk, option_map};
ghost use Rattle.std.specs.List.{list_all};
ghost use Rattle.ar_refusal.specs.Refused.{IsNoJson, input_begins, input_hint, is_blank_byte, is_yaml, no_json, too_large};

use ar_diagnostic::{Diagnostic, Place, Position, copy_of};
use std::alloc::{AllocError, Global};

/// The byte order mark in UTF-8.
const BYTE_ORDER_MARK: &[u8] = &[0xef, 0xbb, 0xbf];

/// An input that is too large.
pub(crate) fn too_large(alloc: Global) -> Result<Diagnostic, AllocError>
    ensures { IfOk result (λ it. it ≡ too_large) }
{
    Diagnostic::expecting(alloc, Place::Document, "TooLarge", "at most 16777216 bytes")
}

// ---- what an input looks like

fn is_blank_byte(byte: &u8) -> bool
    ensures { result ≡ is_blank_byte byte.now }
{
    matches!(*byte, b' ' | b'\t' | b'\n' | b'\r')
}

fn is_empty(input: &[u8]) -> bool
    ensures { result ≡ list_all is_blank_byte input.now }
{
    input.iter().all(is_blank_byte)
}

fn input_begins(input: &[u8], front: &[u8]) -> bool
    ensures { result ≡ input_begins front.now input.now }
{
    input.starts_with(front)
}

fn is_yaml(input: &[u8]) -> bool
    ensures { result ≡ is_yaml input.now }
{
    input_begins(input, b"apiVersion:")
        || input_begins(input, b"kind:")
        || input_begins(input, b"metadata:")
        || input_begins(input, b"manifest:")
        || input_begins(input, b"---")
        || input_begins(input, b"# ")
}

fn input_hint(input: &[u8]) -> Option<&'static str>
    ensures { option_map (λ hint. hint.now) result ≡ input_hint input.now }
{
    if is_empty(input) {
        Some("the input is empty")
    } else if input_begins(input, BYTE_ORDER_MARK) {
        Some("the input begins with a byte order mark; leave it out")
    } else if is_yaml(input) {
        Some("this looks like YAML; `yq -o json` makes it JSON")
    } else {
        None
    }
}

// ---- where it ceases to be JSON

/// Where the reader of JSON found a fault.
fn position_of(error: &serde_json::Error) -> Option<Position> {
    if error.is_eof() {
        return Some(Position::End);
    }
    match error.line() {
        0 => None,
        line => Some(Position::At(line, error.column())),
    }
}

/// An input that is no JSON, where it ceases to be that.
#[tactic(auto, unfolding(crate::specs::Refused::no_json))]
fn no_json_at(
    alloc: Global,
    input: &[u8],
    position: Option<Position>,
) -> Result<Diagnostic, AllocError>
    ensures { IfOk result (λ it. it ≡ no_json input.now position) }
{
    let expected = "one JSON value in UTF-8";
    let mut it = Diagnostic::expecting(alloc, Place::Document, "Utf8OrJson", expected)?;
    it.position = position;
    it.hint = copy_of(alloc, input_hint(input))?;
    Ok(it)
}

/// An input that is no JSON.
#[tactic(auto, using(crate::proofs::Diagnosed::no_json_is))]
pub(crate) fn no_json(
    alloc: Global,
    input: &[u8],
    error: &serde_json::Error,
) -> Result<Diagnostic, AllocError>
    ensures { IfOk result (λ it. IsNoJson input.now it) }
{
    no_json_at(alloc, input, position_of(error))
}
