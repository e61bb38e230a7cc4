//! JSON documents of limited size.

ghost use Rattle.std.specs.Prelude.{◌≡◌, ◌<◌, Err, length};
ghost use Rattle.serde_json.specs.View.{view};
ghost use Rattle.ar_value.specs.Answer.{Gives};
ghost use Rattle.ar_json.specs.Document.{is_document_memory, json_in, most_bytes};
ghost use Rattle.ar_json.specs.declared.document.JsonError.TheVariants.{TooLarge};

use serde_json::Value as Json;
use std::alloc::Global;
use std::fmt;
use thiserror::Error;

/// How many bytes a document may have.
pub const MOST_BYTES: usize = 16_777_216;

/// Why an input is no JSON document.
#[derive(Clone, Copy, Debug, Error)]
pub enum JsonError {
    /// It has more than 16,777,216 bytes.
    TooLarge,
    /// It is not the text of one JSON value in UTF-8.
    Utf8OrJson,
    OutOfMemory,
}

impl fmt::Display for JsonError {
    fn fmt<W: fmt::Write>(&self, f: &mut fmt::Formatter<W>) -> fmt::Result {
        fmt::Debug::fmt(self, f)
    }
}

/// The JSON document that an input is.
///
/// # Errors
///
/// `TooLarge`, which is returned before memory is taken, or `Utf8OrJson`.
#[tactic(auto, using(crate::proofs::Documents::json, crate::proofs::Documents::no_json), unfolding(crate::specs::Document::json_in))]
pub fn read_json(alloc: Global, input: &[u8]) -> Result<Json, JsonError>
    ensures exact { Gives is_document_memory (λ json. view json) result (json_in input.now) }

    // An input that is too large is refused for that alone.
    ensures too_large { most_bytes < length input.now → result ≡ Err TooLarge }
{
    if input.len() > MOST_BYTES {
        return Err(JsonError::TooLarge);
    }
    match Json::from_slice(alloc, input) {
        Ok(json) => Ok(json),
        Err(error) if error.is_memory() => Err(JsonError::OutOfMemory),
        Err(_) => Err(JsonError::Utf8OrJson),
    }
}
