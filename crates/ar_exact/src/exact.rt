//! The copy of a value that JSON has, and how it is written.

ghost use Rattle.std.specs.Prelude.{◌≡◌, IfOk};
ghost use Rattle.serde_json.specs.View.{items_view, members_view, view};
ghost use Rattle.ar_exact.specs.Exact.{exact_of};
ghost use Rattle.ar_exact.specs.Flat.{are_flat, flat_data, is_flat, members_flat};
ghost use Rattle.ar_machine.specs.Operand.{operand_value};
ghost use Rattle.ar_object.specs.Written.{AddsMember};

use crate::form::{form_within, list_form};
use ar_machine::operand::OperandRef;
use ar_machine::operand::list::ListRef;
use ar_object::JsonText;
use serde_json::{Map, Value as Json};
use std::alloc::{AllocError, Global};

/// How much room a value may take.
const MOST_ROOM: usize = 256;
/// How many lists and records may be in one another.
const MOST_LEVELS: usize = 8;

/// A value as JSON has it, or null where it takes too much room.
///
/// # Errors
///
/// Out of memory alone.
pub fn exact_of(alloc: Global, value: OperandRef<'_, '_>) -> Result<Json, AllocError>
    ensures { IfOk result (λ json. view json ≡ exact_of (operand_value value.entry)) }
{
    let form = match value {
        OperandRef::Borrowed(value) => form_within(alloc, value, MOST_ROOM)?,
        OperandRef::Made(items) => list_form(alloc, ListRef::Made(items), MOST_ROOM)?,
    };
    match form {
        Some(form) => Ok(form.json),
        None => Ok(Json::Null),
    }
}

/// Has a value no float, and at most that many levels of lists and records?
#[cycle(is_flat)]
fn is_flat(value: &Json, levels: usize) -> bool
    ensures { result ≡ is_flat levels (view value.now) }
{
    match value {
        Json::Null | Json::Bool(_) | Json::String(_) => true,
        Json::Number(number) => !number.is_f64(),
        Json::Array(items) => levels > 0 && are_flat(items, levels - 1),
        Json::Object(members) => levels > 0 && members_flat(members, levels - 1),
    }
}

#[cycle(is_flat)]
fn are_flat(items: &[Json], levels: usize) -> bool
    ensures { result ≡ are_flat levels (items_view items.now) }
{
    for item in items {
        if !is_flat(item, levels) {
            return false;
        }
    }
    true
}

#[cycle(is_flat)]
fn members_flat(members: &Map<String, Json>, levels: usize) -> bool
    ensures { result ≡ members_flat levels (members_view members.now.entries) }
{
    for (_, value) in members.iter() {
        if !is_flat(value, levels) {
            return false;
        }
    }
    true
}

/// Writes a value as a member of an object; null where it has a float or is too deep.
pub fn put_exact(json: &mut JsonText, name: &str, value: &Json)
    ensures { AddsMember name.now (flat_data (view value.now)) json.old.written json.new.written }
{
    if is_flat(value, MOST_LEVELS) {
        json.put_json(name, value);
    } else {
        json.put_null(name);
    }
}
