//! Declared shapes.

ghost use Rattle.std.specs.Prelude.{◌≡◌, IfOk, option_map};
ghost use Rattle.serde_json.specs.View.{view};
ghost use Rattle.ar_value.specs.View.{shape_view};
ghost use Rattle.ar_words.specs.Shapes.{close_shape, declaration_in, declared_shape};

use crate::close::close_key;
use crate::lists::{metrics, text_at};
use ar_json::shape_reading::{ShapeError, read_shape};
use ar_value::Text;
use ar_value::shape::Shape;
use serde_json::Value as Json;
use std::alloc::{AllocError, Global};

/// The shape that is declared, if one is.
pub(crate) fn declared_shape(
    alloc: Global,
    json: Option<&Json>,
) -> Result<Option<Shape>, AllocError>
    ensures { IfOk result (λ shape. option_map shape_view shape
        ≡ declared_shape (option_map (λ json. view json.now) json.entry)) }
{
    let Some(json) = json else {
        return Ok(None);
    };
    match read_shape(alloc, json) {
        Ok(shape) => Ok(Some(shape)),
        Err(ShapeError::OutOfMemory) => Err(AllocError),
        Err(_) => Ok(None),
    }
}

/// The declaration of a metric's shape.
pub(crate) fn declaration_in(document: &Json, metric: usize) -> Option<&Json>
    ensures { option_map (λ json. view json.now) result ≡ declaration_in (view document.now) metric }
{
    let name = text_at(metrics(document), metric, "name")?;
    document.get("shapes")?.get(name)
}

/// The first shape whose name is close to a metric's.
pub(crate) fn close_shape(
    alloc: Global,
    document: &Json,
    metric: usize,
) -> Result<Option<Text>, AllocError>
    ensures { IfOk result (λ key. key ≡ close_shape (view document.now) metric) }
{
    let name = text_at(metrics(document), metric, "name");
    let (Some(name), Some(shapes)) = (name, document.get("shapes")) else {
        return Ok(None);
    };
    close_key(alloc, name, shapes)
}
