//! Reading many values of one shape.

ghost use Rattle.std.specs.Prelude.{◌≡◌, IfOk, IsSome, Some, true};
ghost use Rattle.json.specs.Value.{value_view as borrowed_view};
ghost use Rattle.serde_json.specs.Data.{Data};
ghost use Rattle.serde_json.specs.Read.{of_json};
ghost use Rattle.ar_value.specs.Answer.{Gives};
ghost use Rattle.ar_value.specs.Fits.{fits};
ghost use Rattle.ar_value.specs.View.{shape_view, value_view};
ghost use Rattle.ar_json.specs.Names.{ShapeNamesRise, ValueNamesRise};
ghost use Rattle.ar_json.specs.Reading.{is_memory_under, read};
ghost use Rattle.ar_measured.specs.Private.Measuring.{inside_lists};

use crate::values::value_under;
use ar_json::{Reader, ShapeFault};
use ar_value::shape::Shape;
use ar_value::shared_shape::SharedShape;
use ar_value::value::Value;
use json::Value as Borrowed;
use std::alloc::{AllocError, Global};
use std::marker::Model;

/// Reads borrowed values of one shape. What it asks of records is computed once. Contracts see the
/// shape.
#[derive(Drop)]
pub struct Measurer {
    shape: SharedShape,
    /// Reads what isn't a list, inside of lists and of optional shapes.
    reader: Reader,
}

impl Model for Measurer {
    ghost use Rattle.std.specs.Prelude.{◌≡◌};
    ghost use Rattle.ar_value.specs.View.{shape_view};
    ghost use Rattle.ar_value.specs.contracts.shape.Shape as shape_row;
    ghost use Rattle.ar_value.specs.declared.shape.Shape.{Shape};
    ghost use Rattle.ar_measured.specs.Private.Measuring.{inside_lists};

    ghost Value = { Shape };

    ghost coded = { shape_row.the_row.coded };

    ghost view = { λ measurer. measurer.shape };

    ghost invariant = { λ measurer. shape_view measurer.reader ≡ inside_lists (shape_view measurer.shape) };
}

impl Measurer {
    /// A measurer of values of a shape. It takes memory for a copy of the shape inside of lists, and for
    /// each of its fields.
    pub fn new(alloc: Global, shape: SharedShape) -> Result<Measurer, AllocError>
        ensures { IfOk result (λ measurer. measurer ≡ shape) }
    {
        let inside = inside_lists(shape.get()).copy(alloc)?;
        let reader = Reader::new(alloc, SharedShape::new(alloc, inside)?)?;
        Ok(Measurer { shape, reader })
    }

    /// The value that a borrowed JSON value is under the shape, as `value_of` reads it.
    ///
    /// # Errors
    ///
    /// As those of `value_of`.
    pub fn read(&self, alloc: Global, json: &Borrowed<'_>) -> Result<Value, ShapeFault>
        // Where the borrowed value is data: this value, or this fault.
        ensures exact { (d : Data) → of_json (borrowed_view json.now) ≡ Some d
            → Gives (is_memory_under (shape_view self.now)) value_view result (read (shape_view self.now) d) }

        // There is a value only of what is data.
        ensures there { IfOk result (λ _. IsSome (of_json (borrowed_view json.now))) }

        // The value fits the shape, and has its records' fields by rising names where the shape has.
        ensures fits { IfOk result (λ value. fits (value_view value) (shape_view self.now) ≡ true) }
        ensures names_rise { ShapeNamesRise (shape_view self.now)
            → IfOk result (λ value. ValueNamesRise (value_view value)) }
    {
        value_under(alloc, self.shape.get(), Some(&self.reader), json)
    }
}

/// The shape inside of lists and of optional shapes.
fn inside_lists(shape: &Shape) -> &Shape
    ensures { shape_view result.now ≡ inside_lists (shape_view shape.now) }
{
    match shape {
        Shape::List { item, max: _ } => inside_lists(item),
        Shape::Optional(plain) => inside_lists(plain),
        Shape::Bool | Shape::Whole | Shape::Decimal | Shape::Text | Shape::Object(_) => shape,
    }
}
