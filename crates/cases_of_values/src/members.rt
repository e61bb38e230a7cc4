//! The members of a case.

ghost use Rattle.std.specs.Prelude.{◌≡◌, None, Err, IfOk, codes, false, map, true};
ghost use Rattle.serde_json.specs.Find.{get};
ghost use Rattle.serde_json.specs.View.{view};
ghost use Rattle.hex.specs.Hex.{decode_of};
ghost use Rattle.ar_value.specs.Answer.{Gives};
ghost use Rattle.ar_value.specs.DecimalText.{decimal_of};
ghost use Rattle.ar_value.specs.Fits.{fits};
ghost use Rattle.ar_value.specs.View.{shape_view, value_view};
ghost use Rattle.cases_of_values.specs.declared.fault.CaseFault.TheVariants.{Member};
ghost use Rattle.cases_of_values.specs.Numbers.{operand_in, operand_member};
ghost use Rattle.cases_of_values.specs.Members.{bytes_member, decimal_member, is_case_memory, is_true, json_member, list_member, list_or_none, number_member, or_member, shape_in, shape_member, case_text, value_in, value_member, whole_member};

use crate::fault::CaseFault;
use ar_json::members::list_of;
use ar_json::{ShapeError, ShapeFault, read_shape, read_value};
use ar_value::{Decimal, Number, Shape, SharedShape, Value};
use hex::FromHexError;
use serde_json::Value as Json;
use std::alloc::Global;

pub fn json<'a>(case: &'a Json, name: &str) -> Result<&'a Json, CaseFault>
    ensures { Gives (λ _. false) (λ json. view json.now) result (json_member name.now (view case.now)) }
{
    case.get(name).ok_or(CaseFault::Member)
}

pub fn text<'a>(case: &'a Json, name: &str) -> Result<&'a str, CaseFault>
    ensures { Gives (λ _. false) (λ text. text.now) result (case_text name.now (view case.now)) }
{
    case.get(name)
        .and_then(Json::as_str)
        .ok_or(CaseFault::Member)
}

pub fn list<'a>(case: &'a Json, name: &str) -> Result<&'a [Json], CaseFault>
    ensures { Gives (λ _. false) (λ list. map (λ item. view item) list.now) result
        (list_member name.now (view case.now)) }
{
    case.get(name).and_then(list_of).ok_or(CaseFault::Member)
}

/// A list, which is empty where the member isn't there.
pub fn list_or_none<'a>(case: &'a Json, name: &str) -> Result<&'a [Json], CaseFault>
    ensures { Gives (λ _. false) (λ list. map (λ item. view item) list.now) result
        (list_or_none name.now (view case.now)) }
{
    if case.get(name).is_none() {
        return Ok(&[]);
    }
    list(case, name)
}

pub fn number(case: &Json, name: &str) -> Result<u64, CaseFault>
    ensures { Gives (λ _. false) (λ number. number) result (number_member name.now (view case.now)) }
{
    case.get(name)
        .and_then(Json::as_u64)
        .ok_or(CaseFault::Member)
}

/// Whether a member is there and true.
pub(crate) fn is_true(case: &Json, name: &str) -> bool
    ensures { result ≡ is_true name.now (view case.now) }
{
    match case.get(name) {
        Some(json) => matches!(json, Json::Bool(true)),
        None => false,
    }
}

pub(crate) fn whole(case: &Json, name: &str) -> Result<i64, CaseFault>
    ensures { Gives (λ _. false) (λ whole. whole) result (whole_member name.now (view case.now)) }
{
    case.get(name)
        .and_then(Json::as_i64)
        .ok_or(CaseFault::Member)
}

/// A text that spells a decimal.
pub(crate) fn decimal(case: &Json, name: &str) -> Result<Decimal, CaseFault>
    ensures { Gives (λ _. false) (λ decimal. decimal) result (decimal_member name.now (view case.now)) }
{
    decimal_of(text(case, name)?)
}

fn decimal_of(text: &str) -> Result<Decimal, CaseFault>
    ensures { Gives (λ _. false) (λ decimal. decimal) result (or_member (decimal_of text.now)) }
{
    match Decimal::of_text(text) {
        Ok(decimal) => Ok(decimal),
        Err(_) => Err(CaseFault::Member),
    }
}

/// A JSON number is a whole, and a text a decimal.
pub(crate) fn operand(case: &Json, name: &str) -> Result<Number, CaseFault>
    ensures { Gives (λ _. false) (λ operand. operand) result (operand_member name.now (view case.now)) }
{
    operand_of(json(case, name)?)
}

fn operand_of(json: &Json) -> Result<Number, CaseFault>
    ensures { Gives (λ _. false) (λ operand. operand) result (operand_in (view json.now)) }
{
    match json.as_str() {
        Some(text) => decimal_of(text).map(Number::Decimal),
        None => json.as_i64().map(Number::Whole).ok_or(CaseFault::Member),
    }
}

/// A shape that must be one.
pub fn shape(alloc: Global, case: &Json, name: &str) -> Result<SharedShape, CaseFault>
    ensures exact { Gives is_case_memory shape_view result
        (shape_member name.now (view case.now)) }
    ensures missing { get name.now (view case.now) ≡ None → result ≡ Err Member }
{
    shape_of(alloc, json(case, name)?)
}

/// What must declare a shape.
fn shape_of(alloc: Global, json: &Json) -> Result<SharedShape, CaseFault>
    ensures { Gives is_case_memory shape_view result (shape_in (view json.now)) }
{
    let shape = own_shape(alloc, json)?;
    Ok(SharedShape::new(alloc, shape)?)
}

/// The same, as a shape of the caller's own.
pub(crate) fn own_shape(alloc: Global, json: &Json) -> Result<Shape, CaseFault>
    ensures { Gives is_case_memory shape_view result (shape_in (view json.now)) }
{
    match read_shape(alloc, json) {
        Ok(shape) => Ok(shape),
        Err(ShapeError::OutOfMemory) => Err(CaseFault::OutOfMemory),
        Err(_) => Err(CaseFault::Member),
    }
}

/// The member `value`, which must be of a shape.
pub fn value(alloc: Global, case: &Json, shape: &Shape) -> Result<Box<Value>, CaseFault>
    ensures exact { Gives is_case_memory (λ value. value_view value.value) result
        (value_member (shape_view shape.now) (view case.now)) }
    ensures missing { get (codes "value") (view case.now) ≡ None → result ≡ Err Member }
    ensures fits { IfOk result (λ value. fits (value_view value.value) (shape_view shape.now) ≡ true) }
{
    value_of(alloc, json(case, "value")?, shape)
}

/// What must be a value of a shape.
#[tactic(auto, using(crate::proofs::Values::gives_any))]
pub fn value_of(alloc: Global, json: &Json, shape: &Shape) -> Result<Box<Value>, CaseFault>
    ensures exact { Gives is_case_memory (λ value. value_view value.value) result
        (value_in (shape_view shape.now) (view json.now)) }
    ensures fits { IfOk result (λ value. fits (value_view value.value) (shape_view shape.now) ≡ true) }
{
    match read_value(alloc, json, shape) {
        Ok(value) => Ok(Box::new(alloc, value)?),
        Err(ShapeFault::OutOfMemory) => Err(CaseFault::OutOfMemory),
        Err(_) => Err(CaseFault::Member),
    }
}

/// The bytes of a text of hexadecimal digits, two for each.
pub fn bytes(alloc: Global, case: &Json, name: &str) -> Result<Vec<u8>, CaseFault>
    ensures exact { Gives is_case_memory (λ bytes. bytes.items) result (bytes_member name.now (view case.now)) }
    ensures missing { get name.now (view case.now) ≡ None → result ≡ Err Member }
{
    bytes_of(alloc, text(case, name)?)
}

fn bytes_of(alloc: Global, digits: &str) -> Result<Vec<u8>, CaseFault>
    ensures { Gives is_case_memory (λ bytes. bytes.items) result (or_member (decode_of digits.now)) }
{
    match hex::decode(alloc, digits) {
        Ok(bytes) => Ok(bytes),
        Err(FromHexError::OutOfMemory) => Err(CaseFault::OutOfMemory),
        Err(_) => Err(CaseFault::Member),
    }
}
