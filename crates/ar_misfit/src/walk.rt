//! The first misfit of a value under a shape.

ghost use Rattle.std.specs.Prelude.{◌≡◌, ◌<◌, false, IfOk, Some, length, map, option_map, slice_index_or};
ghost use Rattle.serde_json.specs.View.{items_view, view};
ghost use Rattle.ar_value.specs.Shape as shapes;
ghost use Rattle.ar_value.specs.Shape.{field_shapes_of};
ghost use Rattle.ar_value.specs.View.{shape_view};
ghost use Rattle.ar_value.specs.declared.shape.Shape.{Shape};
ghost use Rattle.ar_json.specs.Reading.{is_memory_under, read};
ghost use Rattle.ar_json.specs.declared.value_reading.ShapeFault.{ShapeFault};
ghost use Rattle.ar_json.specs.declared.value_reading.ShapeFault.TheVariants.{WrongKind};
ghost use Rattle.ar_misfit.specs.Misfit.{absent_misfit, field_misfit, fields_misfit, items_misfit, misfit, misfit_as, misfit_here, misfit_if_refused};
ghost use Rattle.ar_misfit.specs.Private.Inward.{inward_view};
ghost use Rattle.ar_misfit.specs.Views.{misfit_view};

use crate::misfit::{Misfit, Step};
use ar_json::{ShapeFault, read_value};
use ar_value::kind::is_optional;
use ar_value::names::Names;
use ar_value::shape::Shape;
use ar_value::text::Text;
use serde_json::Value as Json;
use std::alloc::{AllocError, Global};

/// Where a JSON value doesn't fit a shape first, if it doesn't. The recursion descends the shape, and each part of the
/// value is looked at once.
#[tactic(auto, unfolding(crate::specs::Misfit::misfit))]
pub fn misfit_of<'d>(
    alloc: Global,
    json: &'d Json,
    shape: &'d Shape,
) -> Result<Option<Misfit<'d>>, AllocError>
    ensures { IfOk result
        (λ found. option_map misfit_view found ≡ misfit (shape_view shape.now) (view json.now)) }
{
    match misfit_under(alloc, shape, json, shape)? {
        Some(misfit) => Ok(Some(misfit.outward())),
        None => Ok(None),
    }
}

/// A value's first misfit. `expected`: the shape with which it is read, which may be an optional one of `shape`.
#[cycle(misfit_under)]
fn misfit_under<'d>(
    alloc: Global,
    shape: &'d Shape,
    json: &'d Json,
    expected: &'d Shape,
) -> Result<Option<Misfit<'d>>, AllocError>
    ensures { IfOk result (λ found. option_map inward_view found
        ≡ misfit_as (shape_view expected.now) (shape_view shape.now) (view json.now)) }
{
    match shape {
        Shape::Bool | Shape::Whole | Shape::Decimal => scalar_misfit(alloc, shape, json, expected),
        Shape::Text => Ok(text_misfit(alloc, json, expected)),
        Shape::List { item, max } => list_misfit(alloc, item, *max, json, expected),
        Shape::Object(fields) => {
            record_misfit(alloc, &fields.shapes, &fields.names, json, expected)
        }
        Shape::Optional(plain) => optional_misfit(alloc, plain, json, expected),
    }
}

/// What is no value of a shape's kind.
fn wrong_kind<'d>(alloc: Global, json: &'d Json, expected: &'d Shape) -> Option<Misfit<'d>>
    ensures { option_map inward_view result
        ≡ Some (misfit_here (shape_view expected.now) (Some (view json.now)) WrongKind) }
{
    Some(Misfit::here(alloc, expected, Some(json), ShapeFault::WrongKind))
}

/// Under a shape whose values take no memory.
fn scalar_misfit<'d>(
    alloc: Global,
    shape: &Shape,
    json: &'d Json,
    expected: &'d Shape,
) -> Result<Option<Misfit<'d>>, AllocError>
    requires { (fault : ShapeFault) → is_memory_under (shape_view shape.now) fault ≡ false }
    ensures { IfOk result (λ found. option_map inward_view found ≡ misfit_if_refused (shape_view expected.now)
        (view json.now) (read (shape_view shape.now) (view json.now))) }
{
    match read_value(alloc, json, shape) {
        Ok(_) => Ok(None),
        Err(fault) => Ok(Some(Misfit::here(alloc, expected, Some(json), fault))),
    }
}

/// Under the shape of texts.
fn text_misfit<'d>(alloc: Global, json: &'d Json, expected: &'d Shape) -> Option<Misfit<'d>>
    ensures { option_map inward_view result ≡ misfit_as (shape_view expected.now) shapes.text (view json.now) }
{
    match json {
        Json::String(_) => None,
        Json::Null | Json::Bool(_) | Json::Number(_) | Json::Array(_) | Json::Object(_) => {
            wrong_kind(alloc, json, expected)
        }
    }
}

/// Null fits, and anything else is looked at under the plain shape.
#[cycle(misfit_under)]
fn optional_misfit<'d>(
    alloc: Global,
    plain: &'d Shape,
    json: &'d Json,
    expected: &'d Shape,
) -> Result<Option<Misfit<'d>>, AllocError>
    ensures { IfOk result (λ found. option_map inward_view found
        ≡ misfit_as (shape_view expected.now) (shapes.optional (shape_view plain.now)) (view json.now)) }
{
    match json {
        Json::Null => Ok(None),
        Json::Bool(_) | Json::Number(_) | Json::String(_) | Json::Array(_) | Json::Object(_) => {
            misfit_under(alloc, plain, json, expected)
        }
    }
}

#[cycle(misfit_under)]
fn list_misfit<'d>(
    alloc: Global,
    item: &'d Shape,
    max: usize,
    json: &'d Json,
    expected: &'d Shape,
) -> Result<Option<Misfit<'d>>, AllocError>
    ensures { IfOk result (λ found. option_map inward_view found
        ≡ misfit_as (shape_view expected.now) (shapes.list (shape_view item.now) max) (view json.now)) }
{
    match json {
        Json::Array(items) => {
            if items.len() > max {
                let fault = ShapeFault::ListTooLong;
                return Ok(Some(Misfit::here(alloc, expected, Some(json), fault)));
            }
            items_misfit(alloc, item, items)
        }
        Json::Null | Json::Bool(_) | Json::Number(_) | Json::String(_) | Json::Object(_) => {
            Ok(wrong_kind(alloc, json, expected))
        }
    }
}

#[cycle(misfit_under)]
fn items_misfit<'d>(
    alloc: Global,
    item: &'d Shape,
    items: &'d [Json],
) -> Result<Option<Misfit<'d>>, AllocError>
    ensures { IfOk result (λ found. option_map inward_view found
        ≡ items_misfit (λ d. misfit_as (shape_view item.now) (shape_view item.now) d) 0 (items_view items.now)) }
{
    for index in 0..items.len() {
        if let Some(misfit) = misfit_under(alloc, item, &items[index], item)? {
            return Ok(Some(misfit.after(Step::Index(index))?));
        }
    }
    Ok(None)
}

#[cycle(misfit_under)]
fn record_misfit<'d>(
    alloc: Global,
    of: &'d [Shape],
    names: &'d Names,
    json: &'d Json,
    expected: &'d Shape,
) -> Result<Option<Misfit<'d>>, AllocError>
    ensures { IfOk result (λ found. option_map inward_view found ≡ misfit_as (shape_view expected.now)
        (shapes.object (field_shapes_of names.now (map shape_view of.now))) (view json.now)) }
{
    match json {
        Json::Object(_) => fields_misfit(alloc, of, names.as_slice(), json),
        Json::Null | Json::Bool(_) | Json::Number(_) | Json::String(_) | Json::Array(_) => {
            Ok(wrong_kind(alloc, json, expected))
        }
    }
}

#[cycle(misfit_under)]
fn fields_misfit<'d>(
    alloc: Global,
    of: &'d [Shape],
    names: &'d [Text],
    json: &'d Json,
) -> Result<Option<Misfit<'d>>, AllocError>
    ensures { IfOk result (λ found. option_map inward_view found
        ≡ fields_misfit (field_shapes_of names.now (map shape_view of.now)) (view json.now)) }
{
    for index in 0..names.len().min(of.len()) {
        let name = names[index].as_str();
        let found = json.get(name);
        if let Some(misfit) = nth_misfit(alloc, of, index, found)? {
            return Ok(Some(misfit.after(Step::Named(name))?));
        }
    }
    Ok(None)
}

/// Under the shape at an index, of a field that may be absent.
#[cycle(misfit_under)]
fn nth_misfit<'d>(
    alloc: Global,
    of: &'d [Shape],
    index: usize,
    found: Option<&'d Json>,
) -> Result<Option<Misfit<'d>>, AllocError>
    requires { index < length of.now }
    ensures { (shape : Shape) → shape ≡ slice_index_or of.now index shape
        → IfOk result (λ misfit. option_map inward_view misfit
        ≡ field_misfit (λ d. misfit_as (shape_view shape) (shape_view shape) d) (shape_view shape)
        (option_map (λ json. view json.now) found.entry)) }
{
    match found {
        Some(json) => misfit_under(alloc, &of[index], json, &of[index]),
        None => Ok(absent_misfit(alloc, &of[index])),
    }
}

/// Of a field that is absent: it fits where it is optional.
fn absent_misfit<'d>(alloc: Global, shape: &'d Shape) -> Option<Misfit<'d>>
    ensures { option_map inward_view result ≡ absent_misfit (shape_view shape.now) }
{
    if is_optional(shape) {
        return None;
    }
    Some(Misfit::here(alloc, shape, None, ShapeFault::MissingField))
}
