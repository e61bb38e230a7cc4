//! Shapes, read from JSON.

ghost use Rattle.std.specs.Prelude.{◌≡◌, IfOk, false, map, option_and_then};
ghost use Rattle.serde_json.specs.Data.{member, no_members};
ghost use Rattle.serde_json.specs.Find.{as_number, as_u64};
ghost use Rattle.serde_json.specs.View.{members_view, view};
ghost use Rattle.ar_value.specs.Answer.{Gives};
ghost use Rattle.ar_json.specs.Declaration.{declares_optional, fields_declared, is_shape_memory, is_memory_for, list_declared, max_of, object_declared, optional_declared, record_declared, scalar_named, shape_of, shape_within};
ghost use Rattle.ar_json.specs.Refusals.{shape_error_name};
ghost use Rattle.ar_json.specs.Names.{FieldShapeNamesRise, ShapeNamesRise, member_names, shape_names};
ghost use Rattle.ar_value.specs.Names.{Rise};
ghost use Rattle.ar_value.specs.Shape.{field_shapes_of};
ghost use Rattle.ar_value.specs.View.{shape_view};
ghost use Rattle.ar_json.specs.declared.shape_reading.ShapeError.TheVariants.{OutOfMemory};

use ar_value::names::Names;
use ar_value::shape::{FieldShapes, Shape};
use ar_value::text::Text;
use serde_json::{Map, Value as Json};
use std::alloc::{AllocError, AllocFailed, Global};
use std::fmt;
use thiserror::Error;

/// How many levels a shape may have; a scalar is one.
const MOST_SHAPE_LEVELS: usize = 16;

/// The greatest `max` of a list.
pub const MOST_LIST_ITEMS: u64 = 10_000;

/// Why a JSON value declares no shape.
#[derive(Clone, Copy, Debug, Error)]
pub enum ShapeError {
    TooDeep,
    UnknownShape,
    MaxMissing,
    MaxTooLarge,
    NestedOptional,
    OutOfMemory,
}

impl ShapeError {
    /// The variant's name.
    pub fn name(self) -> &'static str
        ensures { result.now ≡ shape_error_name self }
    {
        match self {
            ShapeError::TooDeep => "TooDeep",
            ShapeError::UnknownShape => "UnknownShape",
            ShapeError::MaxMissing => "MaxMissing",
            ShapeError::MaxTooLarge => "MaxTooLarge",
            ShapeError::NestedOptional => "NestedOptional",
            ShapeError::OutOfMemory => "OutOfMemory",
        }
    }
}

impl fmt::Display for ShapeError {
    fn fmt<W: fmt::Write>(&self, f: &mut fmt::Formatter<W>) -> fmt::Result {
        f.write_str(self.name())
    }
}

impl From<AllocError> for ShapeError {
    ghost from_gives = { λ _ e. e ≡ OutOfMemory };

    fn from(_error: AllocError) -> ShapeError {
        ShapeError::OutOfMemory
    }
}

impl<T: Drop> From<AllocFailed<T>> for ShapeError {
    ghost from_gives = { λ _ e. e ≡ OutOfMemory };

    fn from(_error: AllocFailed<T>) -> ShapeError {
        ShapeError::OutOfMemory
    }
}

/// The shape that a JSON value declares: `"bool"`, `"whole"`, `"decimal"`, `"text"`,
/// `{"list":S,"max":n}`, `{"record":{name:S,..}}` or `{"optional":S}`. It takes memory for all but
/// scalars.
///
/// # Errors
///
/// The first of these, outer before inner, a record's fields in byte order of their names:
/// `TooDeep` for more than 16 levels; `UnknownShape` for any other value, or an object of other
/// names; `MaxMissing` where a list's `max` is absent or no whole number of 0 or more;
/// `MaxTooLarge` where it is over 10,000; `NestedOptional` for an optional shape in another.
/// `OutOfMemory` where a growth was refused.
#[tactic(auto, unfolding(crate::specs::Declaration::shape_of))]
pub fn read_shape(alloc: Global, json: &Json) -> Result<Shape, ShapeError>
    // This shape, or this refusal.
    ensures exact { Gives (is_memory_for (view json.now)) shape_view result (shape_of (view json.now)) }

    // Its records have their fields by rising names.
    ensures names_rise { IfOk result (λ shape. ShapeNamesRise (shape_view shape)) }
{
    shape_within(alloc, json, MOST_SHAPE_LEVELS)
}

/// The shape of at most n levels.
#[cycle(shape_within)]
#[tactic(auto, using(crate::proofs::Declarations::scalar_level, crate::proofs::Declarations::object_level))]
fn shape_within(alloc: Global, json: &Json, levels: usize) -> Result<Shape, ShapeError>
    ensures exact { Gives (is_memory_for (view json.now)) shape_view result (shape_within levels (view json.now)) }
    ensures names_rise { IfOk result (λ shape. ShapeNamesRise (shape_view shape)) }
{
    if levels == 0 {
        return Err(ShapeError::TooDeep);
    }
    match json {
        Json::String(name) => scalar(name.as_str()),
        Json::Object(members) => object_shape(alloc, members, levels - 1),
        _ => Err(ShapeError::UnknownShape),
    }
}

fn scalar(name: &str) -> Result<Shape, ShapeError>
    ensures exact { Gives (λ _. false) shape_view result (scalar_named name.now) }
    ensures names_rise { IfOk result (λ shape. ShapeNamesRise (shape_view shape)) }
{
    match name {
        "bool" => Ok(Shape::Bool),
        "whole" => Ok(Shape::Whole),
        "decimal" => Ok(Shape::Decimal),
        "text" => Ok(Shape::Text),
        _ => Err(ShapeError::UnknownShape),
    }
}

/// The shape that an object declares by the names of its members, with inner shapes of at most so
/// many levels.
#[cycle(shape_within)]
fn object_shape(
    alloc: Global,
    members: &Map<String, Json>,
    levels: usize,
) -> Result<Shape, ShapeError>
    ensures exact { Gives is_shape_memory shape_view result
        (object_declared (shape_within levels) (members_view members.now.entries)) }
    ensures names_rise { IfOk result (λ shape. ShapeNamesRise (shape_view shape)) }
{
    let mut members = members.iter();
    let Some((name, inner)) = members.next() else {
        return Err(ShapeError::UnknownShape);
    };
    let Some((second, max)) = members.next() else {
        return named_shape(alloc, name.as_str(), inner, levels);
    };
    if members.next().is_some() {
        return Err(ShapeError::UnknownShape);
    }
    if name.as_str() == "list" && second.as_str() == "max" {
        list_shape(alloc, inner, max, levels)
    } else {
        Err(ShapeError::UnknownShape)
    }
}

/// The shape that an object of one name declares.
#[cycle(shape_within)]
fn named_shape(alloc: Global, name: &str, inner: &Json, levels: usize) -> Result<Shape, ShapeError>
    ensures exact { Gives is_shape_memory shape_view result
        (object_declared (shape_within levels) (member name.now (view inner.now) no_members)) }
    ensures names_rise { IfOk result (λ shape. ShapeNamesRise (shape_view shape)) }
{
    match name {
        "list" => Err(ShapeError::MaxMissing),
        "record" => record_shape(alloc, inner, levels),
        "optional" => optional_shape(alloc, inner, levels),
        _ => Err(ShapeError::UnknownShape),
    }
}

#[cycle(shape_within)]
#[tactic(auto, using(crate::proofs::Declarations::gives_any))]
fn list_shape(alloc: Global, item: &Json, max: &Json, levels: usize) -> Result<Shape, ShapeError>
    ensures exact { Gives is_shape_memory shape_view result
        (list_declared (shape_within levels) (view item.now) (view max.now)) }
    ensures names_rise { IfOk result (λ shape. ShapeNamesRise (shape_view shape)) }
{
    let max = greatest_length(max)?;
    let item = Box::new(alloc, shape_within(alloc, item, levels)?)?;
    Ok(Shape::List { item, max })
}

fn greatest_length(json: &Json) -> Result<usize, ShapeError>
    ensures { Gives (λ _. false) (λ max. max) result (max_of (option_and_then as_u64 (as_number (view json.now)))) }
{
    let max = json.as_u64().ok_or(ShapeError::MaxMissing)?;
    if max > MOST_LIST_ITEMS {
        return Err(ShapeError::MaxTooLarge);
    }
    Ok(max as usize)
}

#[cycle(shape_within)]
#[tactic(auto, using(crate::proofs::Declarations::gives_any))]
fn optional_shape(alloc: Global, inner: &Json, levels: usize) -> Result<Shape, ShapeError>
    ensures exact { Gives is_shape_memory shape_view result
        (optional_declared (shape_within levels) (view inner.now)) }
    ensures names_rise { IfOk result (λ shape. ShapeNamesRise (shape_view shape)) }
{
    if declares_optional(inner) {
        return Err(ShapeError::NestedOptional);
    }
    let plain = Box::new(alloc, shape_within(alloc, inner, levels)?)?;
    Ok(Shape::Optional(plain))
}

/// Whether a JSON value is an object of the one name `optional`.
fn declares_optional(json: &Json) -> bool
    ensures { result ≡ declares_optional (view json.now) }
{
    let Json::Object(members) = json else {
        return false;
    };
    let mut members = members.iter();
    match members.next() {
        Some((name, _)) => name.as_str() == "optional" && members.next().is_none(),
        None => false,
    }
}

#[cycle(shape_within)]
fn record_shape(alloc: Global, json: &Json, levels: usize) -> Result<Shape, ShapeError>
    ensures exact { Gives is_shape_memory shape_view result
        (record_declared (shape_within levels) (view json.now)) }
    ensures names_rise { IfOk result (λ shape. ShapeNamesRise (shape_view shape)) }
{
    let Json::Object(members) = json else {
        return Err(ShapeError::UnknownShape);
    };
    let shapes = field_shapes(alloc, members, levels)?;
    let names = names_of(alloc, members)?;
    Ok(Shape::Object(FieldShapes { names, shapes }))
}

/// The names of an object's members.
fn names_of(alloc: Global, members: &Map<String, Json>) -> Result<Names, AllocError>
    ensures { IfOk result (λ names. names ≡ member_names (members_view members.now.entries)) }
{
    Names::new(alloc, texts_of(alloc, members)?)
}

#[tactic(auto, using(crate::proofs::ShapeNames::next_name, crate::proofs::ShapeNames::no_name_left, crate::proofs::ShapeNames::member_names_rise))]
fn texts_of(alloc: Global, members: &Map<String, Json>) -> Result<Vec<Text>, AllocError>
    ensures names { IfOk result (λ names. names.items ≡ member_names (members_view members.now.entries)) }
    ensures rise { Rise (member_names (members_view members.now.entries)) }
{
    let mut names = Vec::with_capacity(alloc, members.len())?;
    for (name, _) in members.iter() {
        names.push(Text::of(alloc, name.as_str())?)?;
    }
    Ok(names)
}

/// The shapes that an object's members declare.
#[cycle(shape_within)]
#[tactic(auto, using(crate::proofs::Declarations::no_shape_left, crate::proofs::ShapeNames::names_rise, crate::proofs::ShapeNames::one_more))]
fn field_shapes(
    alloc: Global,
    members: &Map<String, Json>,
    levels: usize,
) -> Result<Vec<Shape>, ShapeError>
    ensures exact { Gives is_shape_memory
        (λ vec. field_shapes_of (member_names (members_view members.now.entries)) (map shape_view vec.items)) result
        (fields_declared (shape_within levels) (members_view members.now.entries)) }
    ensures names_rise { IfOk result (λ vec. Rise (shape_names
        (field_shapes_of (member_names (members_view members.now.entries)) (map shape_view vec.items)))) }
    ensures inner_names_rise { IfOk result (λ vec. FieldShapeNamesRise
        (field_shapes_of (member_names (members_view members.now.entries)) (map shape_view vec.items))) }
{
    let mut shapes = Vec::with_capacity(alloc, members.len())?;
    for (_, json) in members.iter() {
        shapes.push(shape_within(alloc, json, levels)?)?;
    }
    Ok(shapes)
}
