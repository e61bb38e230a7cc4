//! Values of measurements, read from JSON under a shape.

ghost use Rattle.std.specs.Prelude.{◌≡◌, ◌<◌, ◌≤◌, ◌++◌, ◌∷◌, [], All, IfOk, OnOk, false, length, map, slice_index_or, true};
ghost use Rattle.ar_json.specs.Private.Needs.{AreNeedsAt, needs_of, needs_view, passed};
ghost use Rattle.serde_json.specs.Data.{object as json_object};
ghost use Rattle.serde_json.specs.View.{items_view, members_view, view};
ghost use Rattle.ar_value.specs.Answer.{Gives};
ghost use Rattle.ar_value.specs.DecimalText.{decimal_of};
ghost use Rattle.ar_value.specs.Fits.{fits};
ghost use Rattle.ar_json.specs.Refusals.{shape_fault_name};
ghost use Rattle.ar_json.specs.Names.{ShapeNamesRise, ValueNamesRise};
ghost use Rattle.ar_json.specs.Reading.{decimal_of_text, whole_as_millionths, fields_read, is_reading_memory, is_memory_under, items_read, list_read, read, read_whole};
ghost use Rattle.ar_value.specs.Shape.{field_shapes_of, object, optional};
ghost use Rattle.ar_value.specs.Value.{fields_from, items_of};
ghost use Rattle.ar_value.specs.View.{shape_view, value_view};
ghost use Rattle.ar_value.specs.declared.shape.Shape.{Shape};
ghost use Rattle.ar_json.specs.declared.value_reading.ShapeFault.TheVariants.{OutOfMemory};

use crate::needs::Needs;
use ar_value::decimal::{Decimal, NumberFault};
use ar_value::indices::Indices;
use ar_value::names::Names;
use ar_value::shape::Shape;
use ar_value::text::Text;
use ar_value::value::{Fields, Value, Values};
use serde_json::{Map, Value as Json};
use std::alloc::{AllocError, AllocFailed, Global};
use std::fmt;
use thiserror::Error;

/// Why a JSON value doesn't fit a shape.
#[derive(Clone, Copy, Debug, Error)]
pub enum ShapeFault {
    WrongKind,
    FloatNumber,
    NotFinite,
    BadDecimal,
    OutOfRange,
    ListTooLong,
    MissingField,
    OutOfMemory,
}

impl ShapeFault {
    /// The variant's name.
    pub fn name(self) -> &'static str
        ensures { result.now ≡ shape_fault_name self }
    {
        match self {
            ShapeFault::WrongKind => "WrongKind",
            ShapeFault::FloatNumber => "FloatNumber",
            ShapeFault::NotFinite => "NotFinite",
            ShapeFault::BadDecimal => "BadDecimal",
            ShapeFault::OutOfRange => "OutOfRange",
            ShapeFault::ListTooLong => "ListTooLong",
            ShapeFault::MissingField => "MissingField",
            ShapeFault::OutOfMemory => "OutOfMemory",
        }
    }
}

impl fmt::Display for ShapeFault {
    fn fmt<W: fmt::Write>(&self, f: &mut fmt::Formatter<W>) -> fmt::Result {
        f.write_str(self.name())
    }
}

impl From<AllocError> for ShapeFault {
    ghost from_gives = { λ _ e. e ≡ OutOfMemory };

    fn from(_error: AllocError) -> ShapeFault {
        ShapeFault::OutOfMemory
    }
}

impl<T: Drop> From<AllocFailed<T>> for ShapeFault {
    ghost from_gives = { λ _ e. e ≡ OutOfMemory };

    fn from(_error: AllocFailed<T>) -> ShapeFault {
        ShapeFault::OutOfMemory
    }
}

/// The value that a JSON value is under a shape. Null is nil under an optional shape. A boolean is
/// read from a JSON boolean, a whole from a whole JSON number, a decimal from such a number or a text
/// as `"0.95"`, a text from a JSON string, a list from an array and a record from an object. It takes
/// memory for texts, lists and records alone. It examines the whole shape: for many values of one
/// shape a `Reader` does that once.
///
/// # Errors
///
/// The first of these, items in order and fields in byte order of their names: `WrongKind` for
/// another kind of JSON value; `FloatNumber` for a JSON number that is no whole number of 64 bits,
/// with or without a sign; `OutOfRange` for a number whose whole or millionths don't fit a signed
/// 64-bit number; `NotFinite` and `BadDecimal` for texts that are no decimal; `ListTooLong`, found
/// before the list's items; `MissingField` for an absent field that isn't optional. `OutOfMemory`
/// where a growth was refused.
#[tactic(auto, using(crate::proofs::ReadFits::gives_fits, crate::proofs::ReadNames::gives_names))]
pub fn read_value(alloc: Global, json: &Json, shape: &Shape) -> Result<Value, ShapeFault>
    // This value, or this fault.
    ensures exact { Gives (is_memory_under (shape_view shape.now)) value_view result
        (read (shape_view shape.now) (view json.now)) }

    // The value fits its shape, and has its records' fields by rising names where the shape has.
    ensures fits { IfOk result (λ value. fits (value_view value) (shape_view shape.now) ≡ true) }
    ensures names_rise { ShapeNamesRise (shape_view shape.now)
        → IfOk result (λ value. ValueNamesRise (value_view value)) }
{
    let needs = Needs::of(alloc, shape)?;
    value_under(alloc, shape, &needs, json)
}

/// The value under a shape with these needs. The recursion descends the shape.
#[cycle(value_under)]
pub(crate) fn value_under(
    alloc: Global,
    shape: &Shape,
    needs: &Needs,
    json: &Json,
) -> Result<Value, ShapeFault>
    requires { needs_view needs.now ≡ needs_of (shape_view shape.now) }
    ensures { Gives (is_memory_under (shape_view shape.now)) value_view result
        (read (shape_view shape.now) (view json.now)) }
{
    match (shape, json) {
        (Shape::Bool, Json::Bool(boolean)) => Ok(Value::Bool(*boolean)),
        (Shape::Whole, Json::Number(number)) => whole_of(number.as_i128()),
        (Shape::Decimal, Json::Number(number)) => decimal_of_whole(number.as_i128()),
        (Shape::Decimal, Json::String(text)) => decimal_of_text(text.as_str()),
        (Shape::Text, Json::String(text)) => Ok(Value::Text(Text::of(alloc, text.as_str())?)),
        (Shape::List { item, max }, Json::Array(items)) => {
            list_under(alloc, item, needs.items(), *max, items)
        }
        (Shape::Object(of), Json::Object(members)) => {
            record_under(alloc, &of.shapes, &of.names, needs, members)
        }
        (Shape::Optional(plain), json) => optional_under(alloc, plain, needs, json),
        _ => Err(ShapeFault::WrongKind),
    }
}

/// Null is nil, and anything else a value of the plain shape.
#[cycle(value_under)]
fn optional_under(
    alloc: Global,
    plain: &Shape,
    needs: &Needs,
    json: &Json,
) -> Result<Value, ShapeFault>
    requires { needs_view needs.now ≡ needs_of (shape_view plain.now) }
    ensures { Gives (is_memory_under (shape_view plain.now)) value_view result
        (read (optional (shape_view plain.now)) (view json.now)) }
{
    match json {
        Json::Null => Ok(Value::Nil),
        Json::Bool(_) | Json::Number(_) | Json::String(_) | Json::Array(_) | Json::Object(_) =>
            value_under(alloc, plain, needs, json),
    }
}

#[cycle(value_under)]
#[tactic(auto, using(crate::proofs::ReadLemmas::list_too_long, crate::proofs::ReadLemmas::list_short))]
fn list_under(
    alloc: Global,
    item: &Shape,
    needs: &Needs,
    max: usize,
    json: &[Json],
) -> Result<Value, ShapeFault>
    requires { needs_view needs.now ≡ needs_of (shape_view item.now) }
    ensures { Gives is_reading_memory value_view result
        (list_read (λ d. read (shape_view item.now) d) max (items_view json.now)) }
{
    if json.len() > max {
        return Err(ShapeFault::ListTooLong);
    }
    let items = items_under(alloc, item, needs, json)?;
    Ok(Value::List(Values { items }))
}

#[cycle(value_under)]
#[tactic(auto, using(crate::proofs::ReadLemmas::next_item, crate::proofs::ReadLemmas::item_fails, crate::proofs::ReadLemmas::no_item_left))]
fn items_under(
    alloc: Global,
    item: &Shape,
    needs: &Needs,
    json: &[Json],
) -> Result<Vec<Value>, ShapeFault>
    requires { needs_view needs.now ≡ needs_of (shape_view item.now) }
    ensures { Gives is_reading_memory (λ vec. items_of (map value_view vec.items)) result
        (items_read (λ d. read (shape_view item.now) d) (items_view json.now)) }
{
    let mut items = Vec::with_capacity(alloc, json.len())?;
    for json in json {
        items.push(value_under(alloc, item, needs, json)?)?;
    }
    Ok(items)
}

/// The record of an object's members. A field that is absent and optional takes no memory.
#[cycle(value_under)]
fn record_under(
    alloc: Global,
    shapes: &[Shape],
    of: &Names,
    needs: &Needs,
    members: &Map<String, Json>,
) -> Result<Value, ShapeFault>
    requires { needs_view needs.now ≡ needs_of (object (field_shapes_of of.now (map shape_view shapes.now))) }
    ensures { Gives is_reading_memory value_view result
        (read (object (field_shapes_of of.now (map shape_view shapes.now)))
        (json_object (members_view members.now.entries))) }
{
    let names = of.first(shapes.len())?;
    let present = fields_under(alloc, shapes, &names, needs, members)?;
    let fields = Fields {
        names,
        indices: present.indices,
        values: present.values,
    };
    Ok(Value::Object(Box::new(alloc, fields)?))
}

/// Fields that have a value.
#[derive(Drop)]
struct Present {
    /// Their indices among the names.
    indices: Indices,
    values: Vec<Value>,
}

impl Present {
    /// No fields, with memory for a number of them.
    fn with_capacity(alloc: Global, capacity: usize) -> Result<Present, AllocError>
        ensures { IfOk result (λ present. (present.indices ≡ []) × (present.values.items ≡ [])) }
    {
        let values = Vec::with_capacity(alloc, capacity)?;
        let indices = Indices::with_capacity(alloc, capacity)?;
        Ok(Present { indices, values })
    }

    /// Adds the value of a field after the others.
    fn add(&mut self, index: usize, value: Value) -> Result<(), AllocError>
        requires { All (λ earlier. earlier < index) self.old.indices }
        ensures indices { OnOk result (self.new.indices ≡ self.old.indices ++ index ∷ []) }
        ensures values { OnOk result (self.new.values.items ≡ self.old.values.items ++ value ∷ []) }
    {
        self.indices.push(index)?;
        self.values.push(value)?;
        Ok(())
    }
}

/// The fields of an object's members, of as many names as there are shapes. Members and names both come by rising
/// names, so each member is looked for among the names after the one before.
#[cycle(value_under)]
fn fields_under(
    alloc: Global,
    shapes: &[Shape],
    names: &Names,
    needs: &Needs,
    members: &Map<String, Json>,
) -> Result<Present, ShapeFault>
    requires long { length names.now ≤ length shapes.now }
    requires needs { needs_view needs.now ≡ needs_of (object (field_shapes_of names.now (map shape_view shapes.now))) }
    ensures { Gives is_reading_memory
        (λ present. fields_from 0 names.now present.indices (map value_view present.values.items)) result
        (fields_read (field_shapes_of names.now (map shape_view shapes.now)) (members_view members.now.entries)) }
{
    let count = names.as_slice().len();
    let required = needs.required();
    let inner = needs.inner();
    let mut present = Present::with_capacity(alloc, count.min(members.len()))?;
    let mut from = 0;
    let mut next = 0;
    for (name, json) in members.iter() {
        if let Some(index) = names.index_from(from, name.as_str()) {
            next = passed(required, next, index)?;
            let value = nth_under(alloc, shapes, inner, index, json)?;
            present.add(index, value)?;
            from = index + 1;
        }
    }
    passed(required, next, count)?;
    Ok(present)
}

/// The value under the shape at an index, whose needs are at the same index.
#[cycle(value_under)]
fn nth_under(
    alloc: Global,
    shapes: &[Shape],
    inner: &[Needs],
    index: usize,
    json: &Json,
) -> Result<Value, ShapeFault>
    requires { AreNeedsAt shapes.now inner.now index }
    ensures { (shape : Shape) → shape ≡ slice_index_or shapes.now index shape
        → Gives is_reading_memory value_view result (read (shape_view shape) (view json.now)) }
{
    value_under(alloc, &shapes[index], &inner[index], json)
}

/// Of a record's required fields, whose indices these are, those before the index `next` were
/// present. Then comes the field at an index: the index of the next required field that must be present.
///
/// # Errors
///
/// `MissingField` where a required field was skipped.
fn passed(required: &[usize], next: usize, index: usize) -> Result<usize, ShapeFault>
    ensures { result ≡ passed required.now next index }
{
    match required.get(next) {
        Some(first) if *first < index => Err(ShapeFault::MissingField),
        Some(first) if *first == index => Ok(next + 1),
        _ => Ok(next),
    }
}

/// The whole that an integer of 64 bits is, with a sign or without; any other number is none.
///
/// # Errors
///
/// `FloatNumber` where there is no integer; `OutOfRange` where it doesn't fit a signed 64-bit number.
pub fn whole_of(integer: Option<i128>) -> Result<Value, ShapeFault>
    ensures { Gives (λ _. false) value_view result (read_whole integer) }
{
    match i64::try_from(integer.ok_or(ShapeFault::FloatNumber)?) {
        Ok(whole) => Ok(Value::Whole(whole)),
        Err(_) => Err(ShapeFault::OutOfRange),
    }
}

/// The decimal that an integer of 64 bits is, with a sign or without; any other number is none.
///
/// # Errors
///
/// `FloatNumber` where there is no integer; `OutOfRange` where its millionths don't fit a signed
/// 64-bit number.
#[tactic(auto, using(crate::proofs::Wholes::whole_outside, crate::proofs::Wholes::millionths_outside, crate::proofs::Wholes::millionths_inside))]
pub fn decimal_of_whole(integer: Option<i128>) -> Result<Value, ShapeFault>
    ensures { Gives (λ _. false) value_view result (whole_as_millionths integer) }
{
    let Ok(whole) = i64::try_from(integer.ok_or(ShapeFault::FloatNumber)?) else {
        return Err(ShapeFault::OutOfRange);
    };
    match Decimal::of_whole(whole) {
        Ok(decimal) => Ok(Value::Decimal(decimal)),
        Err(_) => Err(ShapeFault::OutOfRange),
    }
}

fn decimal_of_text(text: &str) -> Result<Value, ShapeFault>
    ensures { Gives (λ _. false) value_view result (decimal_of_text (decimal_of text.now)) }
{
    match Decimal::of_text(text) {
        Ok(decimal) => Ok(Value::Decimal(decimal)),
        Err(NumberFault::BadDecimal) => Err(ShapeFault::BadDecimal),
        Err(NumberFault::NotFinite) => Err(ShapeFault::NotFinite),
        Err(NumberFault::OutOfRange) => Err(ShapeFault::OutOfRange),
    }
}
