//! Diagnostics as JSON.

ghost use Rattle.std.specs.Prelude.{◌≡◌, IfOk, codes, map, option_and_then, option_map, string_bytes};
ghost use Rattle.serde_json.specs.Data.{Members, put};
ghost use Rattle.serde_json.specs.View.{view};
ghost use Rattle.ar_object.specs.Line.{IsJsonLine};
ghost use Rattle.ar_object.specs.Object.{Has, count_or_null, text_or_null};
ghost use Rattle.ar_diagnostic.specs.Place.{pointer};
ghost use Rattle.ar_diagnostic.specs.declared.diagnostic.Spot.{Spot};
ghost use Rattle.ar_diagnostic.specs.DiagnosticData.{diagnostic_with, expected_words, item_data, item_or_null, place_data, position_data, refusal_data, warning_data, warnings_data};

use crate::diagnostic::{Diagnostic, Expected, Position, Spot};
use crate::line::{refusal_line, warning_line};
use crate::place::{Item, Place};
use crate::place_text::pointer;
use ar_object::{Object, VERSION, json_line};
use ar_value::Text;
use serde_json::Value as Json;
use std::alloc::{AllocError, Global};

// ---- parts

fn item_json(alloc: Global, item: &Item) -> Result<Json, AllocError>
    ensures { IfOk result (λ json. view json ≡ item_data item.now) }
{
    let mut object = Object::new(alloc);
    object.put_text_if_there("name", text_of(&item.name));
    object.put_count("number", item.number as u64);
    object.finish()
}

fn item_or_null(alloc: Global, item: Option<&Item>) -> Result<Json, AllocError>
    ensures { IfOk result (λ json. view json ≡ item_or_null (option_map (λ item. item.now) item.entry)) }
{
    match item {
        Some(item) => item_json(alloc, item),
        None => Ok(Json::Null),
    }
}

fn text_of(text: &Option<Text>) -> Option<&str>
    ensures { option_map (λ text. text.now) result ≡ text.now }
{
    match text {
        Some(text) => Some(text.as_str()),
        None => None,
    }
}

/// Puts a number, or null where there is none.
fn put_number(object: &mut Object, name: &str, number: Option<usize>)
    ensures { (members : Members) → Has object.old.made members
        → Has object.new.made (put name.now (count_or_null number) members) }
{
    match number {
        Some(number) => object.put_count(name, number as u64),
        None => object.put_null(name),
    }
}

fn offset_of(spot: &Option<Spot>) -> Option<usize>
    ensures { result ≡ option_map (λ (spot : Spot). spot.offset) spot.now }
{
    match spot {
        Some(spot) => Some(spot.offset),
        None => None,
    }
}

fn excerpt_of(spot: &Option<Spot>) -> Option<&str>
    ensures { option_map (λ text. text.now) result ≡ option_and_then (λ (spot : Spot). spot.excerpt) spot.now }
{
    match spot {
        Some(spot) => text_of(&spot.excerpt),
        None => None,
    }
}

#[tactic(auto, unfolding(crate::specs::DiagnosticData::place_data))]
fn place_json(alloc: Global, place: &Place, spot: &Option<Spot>) -> Result<Json, AllocError>
    ensures { IfOk result (λ json. view json ≡ place_data place.now spot.now) }
{
    let mut object = Object::new(alloc);
    object.put("argument", item_or_null(alloc, place.argument()));
    put_number(&mut object, "entry", place.entry());
    object.put_text_if_there("excerpt", excerpt_of(spot));
    object.put_text_if_there("field", place.field());
    object.put("metric", item_or_null(alloc, place.metric()));
    put_number(&mut object, "offset", offset_of(spot));
    object.put_text("part", place.part());
    object.put("run", item_or_null(alloc, place.run()));
    object.finish()
}

fn position_json(alloc: Global, position: Option<Position>) -> Result<Json, AllocError>
    ensures { IfOk result (λ json. view json ≡ position_data position) }
{
    let Some(position) = position else {
        return Ok(Json::Null);
    };
    let mut object = Object::new(alloc);
    match position {
        Position::End => {
            object.put_null("column");
            object.put_flag("end", true);
            object.put_null("line");
        }
        Position::At(line, column) => {
            object.put_count("column", column as u64);
            object.put_flag("end", false);
            object.put_count("line", line as u64);
        }
    }
    object.finish()
}

fn expected_of(expected: &Option<Expected>) -> Option<&str>
    ensures { option_map (λ text. text.now) result ≡ option_map expected_words expected.now }
{
    match expected {
        Some(Expected::Thing(text) | Expected::Rule(text)) => Some(text.as_str()),
        None => None,
    }
}

/// The pointer of a place, or null where it has none.
fn pointer_json(alloc: Global, place: &Place) -> Result<Json, AllocError>
    ensures { IfOk result (λ json. view json ≡ text_or_null (pointer place.now)) }
{
    match pointer(alloc, place)? {
        Some(text) => Ok(Json::String(text)),
        None => Ok(Json::Null),
    }
}

/// A diagnostic, with a line that says it.
#[tactic(auto, unfolding(crate::specs::DiagnosticData::diagnostic_with))]
fn diagnostic_json(alloc: Global, line: &str, it: &Diagnostic) -> Result<Json, AllocError>
    ensures { IfOk result (λ json. view json ≡ diagnostic_with line.now it.now) }
{
    let mut object = Object::new(alloc);
    object.put_text_if_there("expected", expected_of(&it.expected));
    object.put_text_if_there("found", text_of(&it.found));
    object.put_text_if_there("hint", text_of(&it.hint));
    object.put_text("name", it.name.as_str());
    object.put("place", place_json(alloc, &it.place, &it.spot));
    object.put("pointer", pointer_json(alloc, &it.place));
    object.put("position", position_json(alloc, it.position));
    object.put_text("text", line);
    object.finish()
}

// ---- lines

#[tactic(auto, unfolding(crate::specs::DiagnosticData::refusal_data))]
fn refusal_object(alloc: Global, it: &Diagnostic) -> Result<Json, AllocError>
    ensures { IfOk result (λ json. view json ≡ refusal_data it.now) }
{
    let line = refusal_line(alloc, it)?;
    let mut object = Object::new(alloc);
    object.put("refusal", diagnostic_json(alloc, line.as_str(), it));
    object.put_count("version", VERSION);
    object.finish()
}

/// A refusal as one JSON object, in a line.
///
/// # Errors
///
/// Out of memory alone.
#[tactic(auto, using(crate::proofs::Objects::refusal_exact, crate::proofs::Objects::refusal_flat))]
pub fn refusal_json(alloc: Global, it: &Diagnostic) -> Result<String, AllocError>
    ensures { IfOk result (λ text. IsJsonLine (refusal_data it.now) (string_bytes text)) }
{
    let object = refusal_object(alloc, it)?;
    json_line(alloc, &object)
}

fn warning_json(alloc: Global, it: &Diagnostic) -> Result<Json, AllocError>
    ensures { IfOk result (λ json. view json ≡ warning_data it.now) }
{
    let line = warning_line(alloc, it)?;
    diagnostic_json(alloc, line.as_str(), it)
}

#[tactic(auto, using(crate::proofs::Objects::next_warning, crate::proofs::Objects::no_warning))]
fn warnings_of(alloc: Global, warnings: &[Diagnostic]) -> Result<Vec<Json>, AllocError>
    ensures { IfOk result (λ found. map view found.items ≡ map warning_data warnings.now) }
{
    let mut found = Vec::new(alloc);
    for warning in warnings {
        found.push(warning_json(alloc, warning)?)?;
    }
    Ok(found)
}

#[tactic(auto, unfolding(crate::specs::DiagnosticData::warnings_data))]
fn warnings_object(alloc: Global, warnings: &[Diagnostic]) -> Result<Json, AllocError>
    ensures { IfOk result (λ json. view json ≡ warnings_data warnings.now) }
{
    let found = warnings_of(alloc, warnings)?;
    let mut object = Object::new(alloc);
    object.put_count("version", VERSION);
    object.put_list("warnings", found);
    object.finish()
}

/// Warnings as one JSON object, in a line.
///
/// # Errors
///
/// Out of memory alone.
#[tactic(auto, using(crate::proofs::Objects::warnings_exact, crate::proofs::Objects::warnings_flat))]
pub fn warnings_json(alloc: Global, warnings: &[Diagnostic]) -> Result<String, AllocError>
    ensures { IfOk result (λ text. IsJsonLine (warnings_data warnings.now) (string_bytes text)) }
{
    let object = warnings_object(alloc, warnings)?;
    json_line(alloc, &object)
}
