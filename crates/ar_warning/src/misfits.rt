//! What is expected of a value that doesn't fit its shape.

ghost use Rattle.std.specs.Prelude.{◌≡◌};
ghost use Rattle.ar_warning.specs.Misfits.{misfit_expected};

use ar_json::ShapeFault;

/// What is expected in place of a value with a fault.
pub fn misfit_expected(fault: ShapeFault) -> &'static str
    ensures { result.now ≡ misfit_expected fault }
{
    match fault {
        ShapeFault::WrongKind => "a value of the declared shape",
        ShapeFault::FloatNumber => "a whole JSON number, or a decimal as a text, as \"0.95\"",
        ShapeFault::NotFinite => "a finite number",
        ShapeFault::BadDecimal =>
            "digits with at most one point and an exponent or none, as \"0.95\" or \"9.5e-1\"",
        ShapeFault::OutOfRange => "a whole of 64 bits, or a decimal whose millionths fit them",
        ShapeFault::ListTooLong => "a list of at most its shape's \"max\" items",
        ShapeFault::MissingField => "each field of the record's shape that isn't optional",
        ShapeFault::OutOfMemory => "",
    }
}
