//! The bytes of the documents of cases.

use crate::lists::number_in;
use ar_json::members::list_of;
use cases_of_values::fault::{CaseFault, Written};
use cases_of_values::members;
use serde_json::Value as Json;
use std::alloc::Global;

/// The bytes of the member `document`, or of `bytes`, which is in hexadecimal.
pub(crate) fn input_of(alloc: Global, case: &Json) -> Result<Vec<u8>, CaseFault> {
    if case.get("bytes").is_some() {
        return members::bytes(alloc, case, "bytes");
    }
    document_of(alloc, members::json(case, "document")?)
}

/// A text, or the pieces of a list, one after another.
fn document_of(alloc: Global, document: &Json) -> Result<Vec<u8>, CaseFault> {
    match list_of(document) {
        Some(pieces) => joined(alloc, pieces),
        None => Ok(text_of(document)?.as_bytes().to_vec(alloc)?),
    }
}

fn text_of(json: &Json) -> Result<&str, CaseFault> {
    json.as_str().ok_or(CaseFault::Member)
}

fn joined(alloc: Global, pieces: &[Json]) -> Result<Vec<u8>, CaseFault> {
    let mut document = Vec::new(alloc);
    for piece in pieces {
        add_piece(&mut document, piece)?;
    }
    Ok(document)
}

/// Adds a text, or a text as often as the number after it says.
fn add_piece(document: &mut Vec<u8>, piece: &Json) -> Written {
    match list_of(piece) {
        Some(pair) => add_pair(document, pair),
        None => add_repeated(document, text_of(piece)?, 1),
    }
}

fn add_pair(document: &mut Vec<u8>, pair: &[Json]) -> Written {
    let text = text_of(pair.get(0).ok_or(CaseFault::Member)?)?;
    let times = number_in(pair.get(1)).ok_or(CaseFault::Member)?;
    add_repeated(document, text, times)
}

fn add_repeated(document: &mut Vec<u8>, text: &str, times: usize) -> Written {
    for _ in 0..times {
        document.extend_from_slice(text.as_bytes())?;
    }
    Ok(())
}
