//! Trees of single values, which own their texts or borrow them.

ghost use Rattle.std.specs.Prelude.{◌≡◌, ◌<◌, IfOk, None, OnOk, Some, length};
ghost use Rattle.json.specs.Json.{value};
ghost use Rattle.json.specs.Value.{value_view};
ghost use Rattle.serde_json.specs.View.{view};
ghost use Rattle.ar_value.specs.Answer.{IfRefused};
ghost use Rattle.ar_stream.specs.Error.{is_stream_memory};
ghost use Rattle.ar_stream.specs.Passing.{data_at};

use crate::error::StreamError;
use ar_borrowed::trees::{TreeError, tree_of};
use json::{Error as ReadError, Reader, Value as Borrowed};
use serde_json::Value as Json;
use std::alloc::Global;

/// A reader's next value, of at most that many levels, as a tree.
///
/// # Errors
///
/// `NotJson` where the tokens don't begin with such a value.
pub fn read_tree(alloc: Global, reader: &mut Reader<'_>, levels: usize) -> Result<Json, StreamError>
    ensures read { IfOk result (λ tree. data_at levels reader.old ≡ Some (view tree, reader.new)) }
    ensures refused { IfRefused is_stream_memory result (λ _. data_at levels reader.old ≡ None) }
    ensures shorter { OnOk result (length reader.new < length reader.old) }
{
    let value = match Borrowed::read(alloc, reader, levels) {
        Ok(value) => value,
        Err(ReadError::OutOfMemory) => return Err(StreamError::OutOfMemory),
        Err(_) => return Err(StreamError::NotJson),
    };
    match tree_of(alloc, &value) {
        Ok(tree) => Ok(tree),
        Err(TreeError::OutOfMemory) => Err(StreamError::OutOfMemory),
        Err(TreeError::OutOfRange) => Err(StreamError::NotJson),
    }
}

/// A reader's next value, of at most that many levels, as a tree that borrows its texts. Its numbers may be out of
/// range.
///
/// # Errors
///
/// `NotJson` where the tokens don't begin with such a value.
pub fn read_borrowed<'a>(
    alloc: Global,
    reader: &mut Reader<'a>,
    levels: usize,
) -> Result<Borrowed<'a>, StreamError>
    ensures read { IfOk result (λ tree. value levels reader.old ≡ Some (value_view tree, reader.new)) }
    ensures refused { IfRefused is_stream_memory result (λ _. value levels reader.old ≡ None) }
    ensures shorter { OnOk result (length reader.new < length reader.old) }
{
    match Borrowed::read(alloc, reader, levels) {
        Ok(value) => Ok(value),
        Err(ReadError::OutOfMemory) => Err(StreamError::OutOfMemory),
        Err(_) => Err(StreamError::NotJson),
    }
}
