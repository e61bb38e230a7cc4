//! Texts, decimals, and what is read by way of a `serde_json` value.

ghost use Rattle.std.specs.Prelude.{◌≡◌, IfSome, Some, Ok, false, option_map};
ghost use Rattle.json.specs.Value.{value_view as borrowed_view};
ghost use Rattle.serde_json.specs.Data.{number as json_number};
ghost use Rattle.serde_json.specs.Read.{number_of, of_json};
ghost use Rattle.serde_json.specs.View.{view};
ghost use Rattle.ar_value.specs.Answer.{Gives};
ghost use Rattle.ar_value.specs.DecimalText.{decimal_of};
ghost use Rattle.ar_value.specs.Shape.{decimal, whole};
ghost use Rattle.ar_value.specs.Value.{text};
ghost use Rattle.ar_value.specs.View.{shape_view, value_view};
ghost use Rattle.ar_json.specs.Reading.{decimal_of_text, is_reading_memory, read};
ghost use Rattle.ar_measured.specs.Private.Measuring.{IsMeasured};

use ar_borrowed::numbers::integer_of;
use ar_borrowed::trees::{TreeError, tree_of};
use ar_json::value_reading::{decimal_of_whole, whole_of};
use ar_json::{Reader, ShapeFault, read_value};
use ar_value::decimal::{Decimal, NumberFault};
use ar_value::shape::Shape;
use ar_value::text::Text;
use ar_value::value::Value;
use json::Value as Borrowed;
use serde_json::Value as Json;
use std::alloc::Global;

/// A text as a value.
pub(crate) fn text_value(alloc: Global, letters: &str) -> Result<Value, ShapeFault>
    ensures { Gives is_reading_memory value_view result (Ok (text letters.now)) }
{
    Ok(Value::Text(Text::of(alloc, letters)?))
}

/// The decimal of a text.
pub(crate) fn decimal_value(letters: &str) -> Result<Value, ShapeFault>
    ensures { Gives (λ _. false) value_view result (decimal_of_text (decimal_of letters.now)) }
{
    match Decimal::of_text(letters) {
        Ok(decimal) => Ok(Value::Decimal(decimal)),
        Err(NumberFault::BadDecimal) => Err(ShapeFault::BadDecimal),
        Err(NumberFault::NotFinite) => Err(ShapeFault::NotFinite),
        Err(NumberFault::OutOfRange) => Err(ShapeFault::OutOfRange),
    }
}

/// The whole of a number's text.
pub(crate) fn whole_value(digits: &str) -> Result<Value, ShapeFault>
    ensures { IsMeasured (λ _. false) value_view result
        (option_map (λ d. read whole d) (option_map json_number (number_of digits.now))) }
{
    whole_of(integer_of(digits))
}

/// The decimal of a number's text.
pub(crate) fn whole_as_decimal(digits: &str) -> Result<Value, ShapeFault>
    ensures { IsMeasured (λ _. false) value_view result
        (option_map (λ d. read decimal d) (option_map json_number (number_of digits.now))) }
{
    decimal_of_whole(integer_of(digits))
}

/// The value under a shape, read by way of a `serde_json` value, and by the reader of the shape where
/// there is one.
pub(crate) fn value_by_tree(
    alloc: Global,
    shape: &Shape,
    reader: Option<&Reader>,
    json: &Borrowed<'_>,
) -> Result<Value, ShapeFault>
    requires { IfSome reader (λ reader. shape_view reader.now ≡ shape_view shape.now) }
    ensures { IsMeasured is_reading_memory value_view result
        (option_map (λ d. read (shape_view shape.now) d) (of_json (borrowed_view json.now))) }
{
    let tree = tree_for(alloc, json)?;
    match reader {
        Some(reader) => reader.read(alloc, &tree),
        None => read_value(alloc, &tree, shape),
    }
}

/// The `serde_json` value of a borrowed one.
fn tree_for(alloc: Global, json: &Borrowed<'_>) -> Result<Json, ShapeFault>
    ensures { IsMeasured is_reading_memory view result (option_map (λ d. Ok d) (of_json (borrowed_view json.now))) }
{
    match tree_of(alloc, json) {
        Ok(tree) => Ok(tree),
        Err(TreeError::OutOfMemory) => Err(ShapeFault::OutOfMemory),
        Err(TreeError::OutOfRange) => Err(ShapeFault::OutOfRange),
    }
}
