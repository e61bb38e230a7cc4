//! The forms of values, made while there is room.

ghost use Rattle.std.specs.Prelude.{◌≡◌, ◌+◌, IfOk, length, map, option_map, suc};
ghost use Rattle.serde_json.specs.Data.{array, no_members, object, string};
ghost use Rattle.serde_json.specs.View.{view};
ghost use Rattle.ar_exact.specs.Exact.{exact_whole, fields_room, form, forms, is_exact, items_room, room_of, with_fields};
ghost use Rattle.ar_exact.specs.Private.Forming.{form_view, formed, value_there};
ghost use Rattle.ar_machine.specs.Operand.{list_values, value_of};
ghost use Rattle.ar_value.specs.DecimalShown.{decimal_text};
ghost use Rattle.ar_value.specs.Value as values;
ghost use Rattle.ar_value.specs.Value.{fields_from, items_of};
ghost use Rattle.ar_value.specs.View.{fields_view, value_view};

use ar_machine::operand::borrowed::{ValueRef, value_ref};
use ar_machine::operand::list::ListRef;
use ar_value::value::value_at;
use ar_value::{Decimal, Fields, Indices, Text, Value};
use serde_json::{Map, Value as Json};
use std::alloc::{AllocError, Global};
use std::fmt::Write;

/// The greatest integer up to which readers of JSON take all integers exactly.
const MOST_EXACT: u64 = 9_007_199_254_740_992;

/// A value's form, and the room that is left after it.
#[derive(Drop)]
pub(crate) struct Form {
    pub json: Json,
    pub left: usize,
}

impl Form {
    /// A form that takes so much room, if it does.
    fn taking(json: Json, taken: usize, room: usize) -> Option<Form>
        ensures { option_map form_view result ≡ formed (view json) taken room }
    {
        let left = room.checked_sub(taken)?;
        Some(Form { json, left })
    }
}

fn is_exact(whole: i64) -> bool
    ensures { result ≡ is_exact whole }
{
    whole.unsigned_abs() <= MOST_EXACT
}

/// An integer, or its digits where not each reader takes it exactly.
fn whole_json(alloc: Global, whole: i64) -> Result<Json, AllocError>
    ensures { IfOk result (λ json. view json ≡ exact_whole whole) }
{
    if is_exact(whole) {
        return Ok(Json::from(whole));
    }
    let mut digits = String::new(alloc);
    write!(digits, "{whole}")?;
    Ok(Json::String(digits))
}

fn decimal_json(alloc: Global, millionths: i64) -> Result<Json, AllocError>
    ensures { IfOk result (λ json. view json ≡ string (decimal_text millionths)) }
{
    let mut digits = String::new(alloc);
    write!(digits, "{}", Decimal::from_millionths(millionths))?;
    Ok(Json::String(digits))
}

/// A text that there is room for.
fn text_form(alloc: Global, text: &str, room: usize) -> Result<Option<Form>, AllocError>
    ensures { IfOk result (λ found. option_map form_view found ≡ formed (string text.now) (length text.now) room) }
{
    if text.len() > room {
        return Ok(None);
    }
    let json = Json::try_from_str(alloc, text)?;
    Ok(Form::taking(json, text.len(), room))
}

/// A value's form, if there is room for it.
#[cycle(form_within)]
pub(crate) fn form_within(
    alloc: Global,
    value: ValueRef<'_>,
    room: usize,
) -> Result<Option<Form>, AllocError>
    ensures { IfOk result (λ found. option_map form_view found
        ≡ formed (form (value_of value.entry)) (room_of (value_of value.entry)) room) }
{
    match value {
        ValueRef::Nil => Ok(Form::taking(Json::Null, 1, room)),
        ValueRef::Bool(holds) => Ok(Form::taking(Json::Bool(holds), 1, room)),
        ValueRef::Whole(whole) => Ok(Form::taking(whole_json(alloc, whole)?, 1, room)),
        ValueRef::Decimal(millionths) => Ok(Form::taking(
            decimal_json(alloc, millionths)?,
            1,
            room,
        )),
        ValueRef::Text(text) => text_form(alloc, text, room),
        ValueRef::List(items) => list_form(alloc, ListRef::Borrowed(items), room),
        ValueRef::Object(fields) => record_form(alloc, fields, room),
    }
}

#[cycle(form_within)]
pub(crate) fn list_form(
    alloc: Global,
    list: ListRef<'_, '_>,
    room: usize,
) -> Result<Option<Form>, AllocError>
    ensures { IfOk result (λ found. option_map form_view found
        ≡ formed (array (forms (items_of (list_values list.entry))))
        (items_room (items_of (list_values list.entry))) room) }
{
    let mut items = Vec::new(alloc);
    let mut left = room;
    for index in 0..list.len() {
        let Some(form) = item_form(alloc, list.item(index), left)? else {
            return Ok(None);
        };
        items.push(form.json)?;
        left = form.left;
    }
    Ok(Some(Form {
        json: Json::Array(items),
        left,
    }))
}

#[cycle(form_within)]
fn item_form(alloc: Global, value: ValueRef<'_>, room: usize) -> Result<Option<Form>, AllocError>
    ensures { IfOk result (λ found. option_map form_view found
        ≡ formed (form (value_of value.entry)) (suc (room_of (value_of value.entry))) room) }
{
    match room.checked_sub(1) {
        Some(inside) => form_within(alloc, value, inside),
        None => Ok(None),
    }
}

#[cycle(form_within)]
fn record_form(alloc: Global, fields: &Fields, room: usize) -> Result<Option<Form>, AllocError>
    ensures { IfOk result (λ found. option_map form_view found
        ≡ formed (form (values.object (fields_view fields.now))) (fields_room (fields_view fields.now)) room) }
{
    fields_form(
        alloc,
        fields.names.as_slice(),
        &fields.indices,
        &fields.values,
        room,
    )
}

#[cycle(form_within)]
fn fields_form(
    alloc: Global,
    names: &[Text],
    indices: &Indices,
    given: &[Value],
    room: usize,
) -> Result<Option<Form>, AllocError>
    ensures { IfOk result (λ found. option_map form_view found
        ≡ formed (object (with_fields no_members (fields_from 0 names.now indices.now (map value_view given.now))))
        (fields_room (fields_from 0 names.now indices.now (map value_view given.now))) room) }
{
    let mut members = Map::new(alloc);
    let mut left = room;
    for index in 0..names.len() {
        let name = names[index].as_str();
        let Some(form) = field_form(alloc, name, value_at(indices, given, index), left)? else {
            return Ok(None);
        };
        serde_json::put(&mut members, alloc, name, form.json)?;
        left = form.left;
    }
    Ok(Some(Form {
        json: Json::Object(members),
        left,
    }))
}

/// A field's value, or nil where there is none, where there is room for it and for its name.
#[cycle(form_within)]
fn field_form(
    alloc: Global,
    name: &str,
    value: Option<&Value>,
    room: usize,
) -> Result<Option<Form>, AllocError>
    ensures { IfOk result (λ found. option_map form_view found
        ≡ formed (form (value_there value.entry)) (suc (length name.now + room_of (value_there value.entry))) room) }
{
    let Some(inside) = room.checked_sub(name.len()) else {
        return Ok(None);
    };
    match value {
        Some(value) => item_form(alloc, value_ref(value), inside),
        None => Ok(Form::taking(Json::Null, 2, inside)),
    }
}
