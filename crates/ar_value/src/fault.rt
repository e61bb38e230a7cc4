//! Faults that a condition meets while it is evaluated.

ghost use Rattle.std.specs.Prelude.{◌≡◌};
ghost use Rattle.ar_value.specs.Fault.{fault_name};

use std::fmt;
use thiserror::Error;

/// Why a condition has no answer on a measurement.
#[derive(Clone, Copy, Debug, PartialEq, Eq, Error)]
pub enum Fault {
    /// A list has no item at an index.
    IndexOutOfRange,
    /// A value is nil where an operand is required.
    NilOperand,
    /// A result doesn't fit a signed 64-bit number.
    Overflow,
    /// A divisor is zero.
    DivisionByZero,
}

impl Fault {
    /// Its name, as answers and reports print it.
    pub fn name(self) -> &'static str
        ensures { result.now ≡ fault_name self }
    {
        match self {
            Fault::IndexOutOfRange => "IndexOutOfRange",
            Fault::NilOperand => "NilOperand",
            Fault::Overflow => "Overflow",
            Fault::DivisionByZero => "DivisionByZero",
        }
    }
}

impl fmt::Display for Fault {
    fn fmt<W: fmt::Write>(&self, f: &mut fmt::Formatter<W>) -> fmt::Result {
        f.write_str(self.name())
    }
}
