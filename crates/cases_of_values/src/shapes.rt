//! Calls on shapes, kinds and values.

ghost use Rattle.std.specs.Prelude.{◌≡◌, is_some};
ghost use Rattle.cases_of_values.specs.Calls.{is_one_of, shape_calls};

use crate::fault::{CaseFault, Written};
use crate::members;
use crate::output::Output;
use crate::printing::{put_boolean, put_found, put_refusal, put_shape, put_value};
use ar_json::{read_shape, read_value};
use ar_value::kind::{Kind, common, is_optional, merge, plain};
use ar_value::{Shape, Value, fits};
use serde_json::Value as Json;
use std::alloc::{AllocError, Global};

/// Writes what a call on this subject returns; `None` for a call on another one.
pub(crate) fn put(alloc: Global, call: &str, case: &Json, out: &mut Output) -> Option<Written>
    ensures known { is_some result ≡ is_one_of shape_calls call.now }
{
    match call {
        "read_shape" => Some(put_read_shape(alloc, case, out)),
        "plain" => Some(put_plain(alloc, case, out)),
        "field_shape" => Some(put_field_shape(alloc, case, out)),
        "merge" | "common" => Some(put_joined(alloc, call, case, out)),
        "read_value" => Some(put_read_value(alloc, case, out)),
        "field" => Some(put_field(alloc, case, out)),
        "fits" => Some(put_fits(alloc, case, out)),
        _ => None,
    }
}

fn put_read_shape(alloc: Global, case: &Json, out: &mut Output) -> Written {
    match read_shape(alloc, members::json(case, "shape")?) {
        Ok(shape) => put_copy(alloc, &shape, out),
        Err(refusal) => put_refusal(alloc, case, out, refusal),
    }
    Ok(())
}

/// A copy of the shape that was read.
fn put_copy(alloc: Global, shape: &Shape, out: &mut Output) {
    match shape.copy(alloc) {
        Ok(copy) => put_shape(out, &copy),
        Err(_) => out.lose(),
    }
}

/// The shape of what isn't nil, and whether nil fits.
fn put_plain(alloc: Global, case: &Json, out: &mut Output) -> Written {
    let shape = members::shape(alloc, case, "shape")?;
    put_shape(out, plain(shape.get()));
    write!(out, " optional={}", is_optional(shape.get()));
    Ok(())
}

fn put_field_shape(alloc: Global, case: &Json, out: &mut Output) -> Written {
    let shape = members::shape(alloc, case, "shape")?;
    put_field_shape_of(out, shape.get(), members::text(case, "field")?)
}

fn put_field_shape_of(out: &mut Output, shape: &Shape, name: &str) -> Written {
    let Shape::Object(fields) = shape else {
        return Err(CaseFault::Member);
    };
    match fields.get(name) {
        Some(shape) => put_shape(out, shape),
        None => out.put("none"),
    }
    Ok(())
}

/// The kind of nil, where the member is null, or of a shape.
fn kind_of(alloc: Global, case: &Json, name: &str) -> Result<Box<Kind>, CaseFault> {
    let kind = kind_in(alloc, members::json(case, name)?)?;
    Ok(Box::new(alloc, kind)?)
}

fn kind_in(alloc: Global, json: &Json) -> Result<Kind, CaseFault> {
    match json {
        Json::Null => Ok(Kind::Nil),
        _ => Ok(Kind::Shape(members::own_shape(alloc, json)?)),
    }
}

fn joined(
    alloc: Global,
    call: &str,
    left: &Kind,
    right: &Kind,
) -> Result<Option<Kind>, AllocError> {
    if call == "merge" {
        merge(alloc, left, right)
    } else {
        common(alloc, left, right)
    }
}

fn put_joined(alloc: Global, call: &str, case: &Json, out: &mut Output) -> Written {
    let left = kind_of(alloc, case, "left")?;
    let right = kind_of(alloc, case, "right")?;
    put_both(alloc, call, &left, &right, out);
    Ok(())
}

fn put_both(alloc: Global, call: &str, left: &Kind, right: &Kind, out: &mut Output) {
    match joined(alloc, call, left, right) {
        Ok(kind) => put_kind(out, &kind),
        Err(_) => out.lose(),
    }
}

fn put_kind(out: &mut Output, kind: &Option<Kind>) {
    match kind {
        Some(Kind::Shape(shape)) => put_shape(out, shape),
        Some(Kind::Nil) => out.put("null"),
        None => out.put("none"),
    }
}

fn put_read_value(alloc: Global, case: &Json, out: &mut Output) -> Written {
    let json = members::json(case, "value")?;
    let shape = members::shape(alloc, case, "shape")?;
    put_value_under(alloc, case, json, shape.get(), out);
    Ok(())
}

fn put_value_under(alloc: Global, case: &Json, json: &Json, shape: &Shape, out: &mut Output) {
    match read_value(alloc, json, shape) {
        Ok(value) => put_value(out, &value),
        Err(refusal) => put_refusal(alloc, case, out, refusal),
    }
}

/// A value of the shape that the case gives under a name.
fn value_of(alloc: Global, case: &Json, shape: &str) -> Result<Box<Value>, CaseFault> {
    let shape = members::shape(alloc, case, shape)?;
    members::value(alloc, case, shape.get())
}

fn put_field(alloc: Global, case: &Json, out: &mut Output) -> Written {
    let value = value_of(alloc, case, "shape")?;
    put_field_of(out, &value, members::text(case, "field")?)
}

fn put_field_of(out: &mut Output, value: &Value, name: &str) -> Written {
    let Value::Object(fields) = value else {
        return Err(CaseFault::Member);
    };
    match fields.get(name) {
        Some(found) => put_found(out, found),
        None => out.put("none"),
    }
    Ok(())
}

/// Whether a value of the shape `of` fits the shape.
fn put_fits(alloc: Global, case: &Json, out: &mut Output) -> Written {
    let value = value_of(alloc, case, "of")?;
    let shape = members::shape(alloc, case, "shape")?;
    put_boolean(out, fits(&value, shape.get()));
    Ok(())
}
