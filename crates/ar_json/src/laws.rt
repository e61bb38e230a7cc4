//! Laws of reading. A law is the contract of a function that does nothing.

ghost use Rattle.std.specs.Prelude.{◌≡◌, ◌≢◌, Ok, Err, true};
ghost use Rattle.serde_json.specs.Data.{Data};
ghost use Rattle.ar_value.specs.Fits.{fits};
ghost use Rattle.ar_value.specs.Shape.{Shape};
ghost use Rattle.ar_value.specs.Value.{Value};
ghost use Rattle.ar_json.specs.Declaration.{shape_of};
ghost use Rattle.ar_json.specs.Reading.{read};
ghost use Rattle.ar_json.specs.declared.shape_reading.ShapeError.{ShapeError};
ghost use Rattle.ar_json.specs.declared.value_reading.ShapeFault.{ShapeFault};

/// What is read under a shape fits it.
#[tactic(auto, using(crate::proofs::ReadFits::read_value_fits))]
pub fn what_is_read_fits()
    ensures { (shape : Shape) (json : Data) (value : Value) → read shape json ≡ Ok value → fits value shape ≡ true }
{}

/// No JSON value is refused as out of memory: that is never its own fault.
#[tactic(auto, using(crate::proofs::Memory::shape_not_memory, crate::proofs::Memory::value_not_memory))]
pub fn memory_is_no_fault()
    ensures shape { (json : Data) → shape_of json ≢ Err ShapeError.OutOfMemory }
    ensures value { (shape : Shape) (json : Data) → read shape json ≢ Err ShapeFault.OutOfMemory }
{}
