//! The value that a borrowed JSON value is under a shape.

ghost use Rattle.std.specs.Prelude.{◌≡◌, IfOk, IfSome, IsSome, Some, map, option_map, true};
ghost use Rattle.json.specs.Value.{items_view as borrowed_items, value_view as borrowed_view};
ghost use Rattle.serde_json.specs.Data.{Data};
ghost use Rattle.serde_json.specs.Read.{of_items, of_json};
ghost use Rattle.ar_value.specs.Answer.{Gives};
ghost use Rattle.ar_value.specs.Fits.{fits};
ghost use Rattle.ar_value.specs.Shape.{optional};
ghost use Rattle.ar_value.specs.Value.{items_of};
ghost use Rattle.ar_value.specs.View.{shape_view, value_view};
ghost use Rattle.ar_json.specs.Names.{ShapeNamesRise, ValueNamesRise};
ghost use Rattle.ar_json.specs.Reading.{is_memory_under, is_reading_memory, items_read, list_read, read};
ghost use Rattle.ar_measured.specs.Private.Measuring.{IsMeasured, inside_lists};

use crate::parts::{decimal_value, text_value, value_by_tree, whole_as_decimal, whole_value};
use ar_json::{Reader, ShapeFault};
use ar_value::shape::Shape;
use ar_value::value::{Value, Values};
use json::Value as Borrowed;
use std::alloc::Global;

/// The value that a borrowed JSON value is under a shape, as `ar_json::read_value` reads it. What it
/// asks of records is computed for each record: for many values of one shape a `Measurer` does that
/// once.
///
/// # Errors
///
/// As those of `read_value`.
pub fn value_of(alloc: Global, shape: &Shape, json: &Borrowed<'_>) -> Result<Value, ShapeFault>
    // Where the borrowed value is data: this value, or this fault.
    ensures exact { (d : Data) → of_json (borrowed_view json.now) ≡ Some d
        → Gives (is_memory_under (shape_view shape.now)) value_view result (read (shape_view shape.now) d) }

    // There is a value only of what is data.
    ensures there { IfOk result (λ _. IsSome (of_json (borrowed_view json.now))) }

    // The value fits the shape, and has its records' fields by rising names where the shape has.
    ensures fits { IfOk result (λ value. fits (value_view value) (shape_view shape.now) ≡ true) }
    ensures names_rise { ShapeNamesRise (shape_view shape.now)
        → IfOk result (λ value. ValueNamesRise (value_view value)) }
{
    value_under(alloc, shape, None, json)
}

/// The value under a shape. Where there is a reader of what is inside of lists, it reads records. The
/// recursion descends the shape.
#[cycle(value_under)]
#[tactic(auto, using(crate::proofs::Measures::wrong_kind))]
pub(crate) fn value_under(
    alloc: Global,
    shape: &Shape,
    reader: Option<&Reader>,
    json: &Borrowed<'_>,
) -> Result<Value, ShapeFault>
    requires { IfSome reader (λ reader. shape_view reader.now ≡ inside_lists (shape_view shape.now)) }
    ensures { IsMeasured (is_memory_under (shape_view shape.now)) value_view result
        (option_map (λ d. read (shape_view shape.now) d) (of_json (borrowed_view json.now))) }
{
    match (shape, json) {
        (Shape::Bool, Borrowed::Bool(boolean)) => Ok(Value::Bool(*boolean)),
        (Shape::Whole, Borrowed::Number(text)) => whole_value(text),
        (Shape::Decimal, Borrowed::Number(text)) => whole_as_decimal(text),
        (Shape::Decimal, Borrowed::String(text)) => decimal_value(text),
        (Shape::Text, Borrowed::String(text)) => text_value(alloc, text),
        (Shape::List { item, max }, Borrowed::Array(items)) => list_under(
            alloc, item, reader, *max, items,
        ),
        (Shape::Object(_), Borrowed::Object(_)) => value_by_tree(alloc, shape, reader, json),
        (Shape::Optional(plain), json) => optional_under(alloc, plain, reader, json),
        _ => Err(ShapeFault::WrongKind),
    }
}

/// Null is nil, and anything else a value of the plain shape.
#[cycle(value_under)]
#[tactic(auto, using(crate::proofs::Measures::nil_read, crate::proofs::Measures::plain_read))]
fn optional_under(
    alloc: Global,
    plain: &Shape,
    reader: Option<&Reader>,
    json: &Borrowed<'_>,
) -> Result<Value, ShapeFault>
    requires { IfSome reader (λ reader. shape_view reader.now ≡ inside_lists (shape_view plain.now)) }
    ensures { IsMeasured (is_memory_under (shape_view plain.now)) value_view result
        (option_map (λ d. read (optional (shape_view plain.now)) d) (of_json (borrowed_view json.now))) }
{
    if json.is_null() {
        return Ok(Value::Nil);
    }
    value_under(alloc, plain, reader, json)
}

/// A list of an array's items. One that is too long is refused before its items are read.
#[cycle(value_under)]
fn list_under(
    alloc: Global,
    item: &Shape,
    reader: Option<&Reader>,
    max: usize,
    json: &[Borrowed<'_>],
) -> Result<Value, ShapeFault>
    requires { IfSome reader (λ reader. shape_view reader.now ≡ inside_lists (shape_view item.now)) }
    ensures { IsMeasured is_reading_memory value_view result
        (option_map (λ ds. list_read (λ d. read (shape_view item.now) d) max ds)
        (of_items (borrowed_items json.now))) }
{
    if json.len() > max {
        return Err(ShapeFault::ListTooLong);
    }
    let items = items_under(alloc, item, reader, json)?;
    Ok(Value::List(Values { items }))
}

/// The values of an array's items, one after another.
#[cycle(value_under)]
fn items_under(
    alloc: Global,
    item: &Shape,
    reader: Option<&Reader>,
    json: &[Borrowed<'_>],
) -> Result<Vec<Value>, ShapeFault>
    requires { IfSome reader (λ reader. shape_view reader.now ≡ inside_lists (shape_view item.now)) }
    ensures { IsMeasured is_reading_memory (λ vec. items_of (map value_view vec.items)) result
        (option_map (λ ds. items_read (λ d. read (shape_view item.now) d) ds)
        (of_items (borrowed_items json.now))) }
{
    let mut items = Vec::with_capacity(alloc, json.len())?;
    for json in json {
        items.push(value_under(alloc, item, reader, json)?)?;
    }
    Ok(items)
}
