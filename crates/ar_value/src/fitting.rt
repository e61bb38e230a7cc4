//! Whether a value fits a shape.

ghost use Rattle.std.specs.Prelude.{◌≡◌, map, option_map, unwrap_or};
ghost use Rattle.ar_value.specs.Fits.{all_items, fields_fit, fits};
ghost use Rattle.ar_value.specs.Shape.{field_shapes_of};
ghost use Rattle.ar_value.specs.Value.{fields_from, items_of, nil};
ghost use Rattle.ar_value.specs.View.{shape_view, value_view};

use crate::indices::Indices;
use crate::kind::is_optional;
use crate::shape::Shape;
use crate::text::Text;
use crate::value::{Value, value_at};

/// Whether a value fits a shape: a scalar its own shape, nil and what fits a shape the optional
/// one, a list where it isn't too long and each item fits, and a record where its names are the
/// shape's and each value fits. It takes no memory.
pub fn fits(value: &Value, shape: &Shape) -> bool
    ensures { result ≡ fits (value_view value.now) (shape_view shape.now) }
{
    is_fit(shape, value)
}

/// The recursion descends the shape.
#[cycle(is_fit)]
#[tactic(auto, using(crate::proofs::FitLemmas::list_fits, crate::proofs::FitLemmas::record_fits))]
fn is_fit(shape: &Shape, value: &Value) -> bool
    ensures { result ≡ fits (value_view value.now) (shape_view shape.now) }
{
    match shape {
        Shape::Bool => matches!(value, Value::Bool(_)),
        Shape::Whole => matches!(value, Value::Whole(_)),
        Shape::Decimal => matches!(value, Value::Decimal(_)),
        Shape::Text => matches!(value, Value::Text(_)),
        Shape::List { item, max } => match value {
            Value::List(list) => list.items.len() <= *max && are_all_fit(item, &list.items),
            _ => false,
        },
        Shape::Object(of) => match value {
            Value::Object(fields) => are_fields_fit(
                &of.shapes,
                of.names.as_slice(),
                fields.names.as_slice(),
                &fields.indices,
                &fields.values,
            ),
            _ => false,
        },
        Shape::Optional(plain) => matches!(value, Value::Nil) || is_fit(plain, value),
    }
}

#[cycle(is_fit)]
fn are_all_fit(shape: &Shape, items: &[Value]) -> bool
    ensures { result ≡ all_items (λ value. fits value (shape_view shape.now)) (items_of (map value_view items.now)) }
{
    for item in items {
        if !is_fit(shape, item) {
            return false;
        }
    }
    true
}

/// Whether the names are those of the shapes, and the value at the index of each fits its shape.
#[cycle(is_fit)]
#[tactic(auto, using(crate::proofs::FitLemmas::lengths_differ, crate::proofs::FitLemmas::next, crate::proofs::FitLemmas::none_left))]
fn are_fields_fit(
    shapes: &[Shape],
    of: &[Text],
    names: &[Text],
    indices: &Indices,
    values: &[Value],
) -> bool
    ensures { result ≡ fields_fit (fields_from 0 names.now indices.now (map value_view values.now))
        (field_shapes_of of.now (map shape_view shapes.now)) }
{
    if names.len() != of.len().min(shapes.len()) {
        return false;
    }
    for index in 0..names.len() {
        if names[index] != of[index] {
            return false;
        }
        if !is_field_fit(&shapes[index], value_at(indices, values, index)) {
            return false;
        }
    }
    true
}

/// Whether a value fits, or nil where there is none.
#[cycle(is_fit)]
#[tactic(auto, using(crate::proofs::FitLemmas::nil_fits))]
fn is_field_fit(shape: &Shape, found: Option<&Value>) -> bool
    ensures { result
        ≡ fits (unwrap_or (option_map (λ value. value_view value.now) found.entry) nil) (shape_view shape.now) }
{
    match found {
        Some(value) => is_fit(shape, value),
        None => is_optional(shape),
    }
}
