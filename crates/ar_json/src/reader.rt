//! Reading many values of one shape.

ghost use Rattle.std.specs.Prelude.{◌≡◌, IfOk, true};
ghost use Rattle.serde_json.specs.View.{view};
ghost use Rattle.ar_value.specs.Answer.{Gives};
ghost use Rattle.ar_value.specs.Fits.{fits};
ghost use Rattle.ar_value.specs.View.{shape_view, value_view};
ghost use Rattle.ar_json.specs.Names.{ShapeNamesRise, ValueNamesRise};
ghost use Rattle.ar_json.specs.Reading.{is_memory_under, read};

use crate::needs::Needs;
use crate::value_reading::{ShapeFault, value_under};
use ar_value::shared_shape::SharedShape;
use ar_value::value::Value;
use serde_json::Value as Json;
use std::alloc::{AllocError, Global};
use std::marker::Model;

/// Reads values of one shape. What it asks of their records is computed once, so that a record then takes steps for
/// its members alone, whatever fields the shape has. Contracts see the shape.
#[derive(Drop)]
pub struct Reader {
    shape: SharedShape,
    needs: Needs,
}

impl Model for Reader {
    ghost use Rattle.std.specs.Prelude.{◌≡◌};
    ghost use Rattle.ar_value.specs.View.{shape_view};
    ghost use Rattle.ar_value.specs.contracts.shape.Shape as shape_row;
    ghost use Rattle.ar_value.specs.declared.shape.Shape.{Shape};
    ghost use Rattle.ar_json.specs.Private.Needs.{needs_of, needs_view};

    ghost Value = { Shape };

    ghost coded = { shape_row.the_row.coded };

    ghost view = { λ reader. reader.shape };

    ghost invariant = { λ reader. needs_view reader.needs ≡ needs_of (shape_view reader.shape) };
}

impl Reader {
    /// A reader of values of a shape. It takes memory for each field of the shape.
    pub fn new(alloc: Global, shape: SharedShape) -> Result<Reader, AllocError>
        ensures { IfOk result (λ reader. reader ≡ shape) }
    {
        let needs = Needs::of(alloc, shape.get())?;
        Ok(Reader { shape, needs })
    }

    /// The value that a JSON value is under the shape, as `read_value` reads it.
    ///
    /// # Errors
    ///
    /// As those of `read_value`.
    #[tactic(auto, using(crate::proofs::ReadFits::gives_fits, crate::proofs::ReadNames::gives_names))]
    pub fn read(&self, alloc: Global, json: &Json) -> Result<Value, ShapeFault>
        // This value, or this fault.
        ensures exact { Gives (is_memory_under (shape_view self.now)) value_view result
            (read (shape_view self.now) (view json.now)) }

        // The value fits the shape, and has its records' fields by rising names where the shape has.
        ensures fits { IfOk result (λ value. fits (value_view value) (shape_view self.now) ≡ true) }
        ensures names_rise { ShapeNamesRise (shape_view self.now)
            → IfOk result (λ value. ValueNamesRise (value_view value)) }
    {
        value_under(alloc, self.shape.get(), &self.needs, json)
    }
}
