//! Values of which only some items are kept.

ghost use Rattle.std.specs.Prelude.{◌≡◌, ◌<◌, ◌≤◌, IfOk, None, OnOk, Some, if◌then◌else◌, length};
ghost use Rattle.json.specs.Json.{items, value};
ghost use Rattle.serde_json.specs.Data.{Data, Items, null};
ghost use Rattle.serde_json.specs.Read.{converted, of_items};
ghost use Rattle.serde_json.specs.View.{items_view, view};
ghost use Rattle.ar_value.specs.Answer.{IfRefused};
ghost use Rattle.ar_stream.specs.Error.{is_stream_memory};
ghost use Rattle.ar_stream.specs.Passing.{data_at};
ghost use Rattle.ar_stream.specs.Picked.{picked_items, picked_of};
ghost use Rattle.ar_stream.specs.Private.Keeping.{first_pick, kept_of, later_picks};

use crate::error::StreamError;
use crate::passing::{Entered, enter, pass_value};
use crate::trees::read_tree;
use ar_value::holding::try_push;
use json::Reader;
use serde_json::Value as Json;
use std::alloc::Global;

/// Is the next item picked? And the flags of those after it.
fn next_pick(picks: &[bool]) -> (bool, &[bool])
    ensures first { result.0 ≡ first_pick picks.now }
    ensures later { result.1.now ≡ later_picks picks.now }
{
    match picks {
        [pick, later @ ..] => (*pick, later),
        [] => (false, picks),
    }
}

/// A reader's next value where it is picked, or else null.
fn read_item(
    alloc: Global,
    pick: bool,
    reader: &mut Reader<'_>,
    levels: usize,
) -> Result<Json, StreamError>
    ensures read { IfOk result (λ kept. (made : Data) × (data_at levels reader.old ≡ Some (made, reader.new))
        × (view kept ≡ (if pick then made else null))) }
    ensures refused { IfRefused is_stream_memory result (λ _. data_at levels reader.old ≡ None) }
    ensures shorter { OnOk result (length reader.new < length reader.old) }
{
    if pick {
        return read_tree(alloc, reader, levels);
    }
    pass_value(reader, levels)?;
    Ok(Json::Null)
}

/// The rest of an array: its items that are picked, and null in place of the others.
fn read_items(
    alloc: Global,
    picks: &[bool],
    reader: &mut Reader<'_>,
    levels: usize,
) -> Result<Vec<Json>, StreamError>
    ensures read { IfOk result (λ kept. (all : Items)
        × (converted of_items (items (value levels) (length reader.old) reader.old) ≡ Some (all, reader.new))
        × (items_view kept.items ≡ picked_items picks.now all)) }
    ensures refused { IfRefused is_stream_memory result
        (λ _. converted of_items (items (value levels) (length reader.old) reader.old) ≡ None) }
    ensures no_longer { OnOk result (length reader.new ≤ length reader.old) }
{
    let mut kept = Vec::new(alloc);
    let mut left = picks;
    'items: while !reader.take_end_array() {
        let (pick, later) = next_pick(left);
        let item = read_item(alloc, pick, reader, levels)?;
        try_push(&mut kept, item)?;
        left = later;
    }
    Ok(kept)
}

/// A reader's next value: of an array the items that are picked, or else null.
fn read_array(
    alloc: Global,
    picks: &[bool],
    reader: &mut Reader<'_>,
    levels: usize,
) -> Result<Json, StreamError>
    ensures read { IfOk result (λ kept. (made : Data) × (data_at levels reader.old ≡ Some (made, reader.new))
        × (view kept ≡ picked_of picks.now made)) }
    ensures refused { IfRefused is_stream_memory result (λ _. data_at levels reader.old ≡ None) }
    ensures shorter { OnOk result (length reader.new < length reader.old) }
{
    match enter(reader, levels)? {
        Entered::Array => Ok(Json::Array(read_items(alloc, picks, reader, levels - 1)?)),
        Entered::Null | Entered::Other => Ok(Json::Null),
    }
}

/// A reader's next value: all of it, unless only some items are picked.
pub(crate) fn read_kept(
    alloc: Global,
    picks: Option<&[bool]>,
    reader: &mut Reader<'_>,
    levels: usize,
) -> Result<Json, StreamError>
    ensures read { IfOk result (λ kept. (made : Data) × (data_at levels reader.old ≡ Some (made, reader.new))
        × (view kept ≡ kept_of picks.entry made)) }
    ensures refused { IfRefused is_stream_memory result (λ _. data_at levels reader.old ≡ None) }
    ensures shorter { OnOk result (length reader.new < length reader.old) }
{
    match picks {
        None => read_tree(alloc, reader, levels),
        Some(picks) => read_array(alloc, picks, reader, levels),
    }
}
