//! Decimal numbers, counted exactly in millionths, and the order of numbers.

ghost use Rattle.std.specs.Prelude.{◌≡◌};
ghost use Rattle.ar_value.specs.Decimal.{in_millionths, order};

use std::cmp::Ordering;
use std::fmt;
use std::marker::Model;
use thiserror::Error;

/// How many millionths one is.
pub(crate) const MILLION: i128 = 1_000_000;

/// A decimal number with six digits after the point, from -9223372036854.775808 to
/// 9223372036854.775807. Contracts see it as its whole number of millionths.
#[derive(Clone, Copy, PartialEq, Eq, PartialOrd, Ord)]
pub struct Decimal {
    millionths: i64,
}

impl Model for Decimal {
    ghost use Rattle.std.specs.Prelude.{ℤ};

    ghost Value = { ℤ };

    ghost view = { λ d. d.millionths };

    ghost inverse = { λ z. record { millionths = z } };
}

/// Why a text is no decimal.
#[derive(Clone, Copy, Debug, Error)]
pub enum NumberFault {
    BadDecimal,
    NotFinite,
    OutOfRange,
}

impl NumberFault {
    fn words(self) -> &'static str {
        match self {
            NumberFault::BadDecimal => {
                "BadDecimal: expected digits with at most one point and an exponent or none, as 0.95 or 9.5e-1"
            }
            NumberFault::NotFinite => "NotFinite: expected a finite number",
            NumberFault::OutOfRange => {
                "OutOfRange: expected a number from -9223372036854.775808 to 9223372036854.775807, \
                 once it is cut to six digits after the point"
            }
        }
    }
}

impl fmt::Display for NumberFault {
    fn fmt<W: fmt::Write>(&self, f: &mut fmt::Formatter<W>) -> fmt::Result {
        f.write_str(self.words())
    }
}

impl Decimal {
    /// The decimal of a number of millionths.
    pub fn from_millionths(millionths: i64) -> Decimal
        ensures { result ≡ millionths }
    {
        Decimal { millionths }
    }

    /// How many millionths it is.
    pub fn millionths(self) -> i64
        ensures { result ≡ self }
    {
        self.millionths
    }
}

/// A number of a condition or a measurement.
#[derive(Clone, Copy)]
pub enum Number {
    Whole(i64),
    Decimal(Decimal),
}

impl Number {
    fn in_millionths(self) -> i128
        ensures { result ≡ in_millionths self }
    {
        match self {
            Number::Whole(whole) => i128::from(whole) * MILLION,
            Number::Decimal(decimal) => i128::from(decimal.millionths()),
        }
    }
}

/// The order of two numbers' exact values: a whole is compared with a decimal as such, and
/// neither is rounded.
pub fn compare(left: Number, right: Number) -> Ordering
    ensures { result ≡ order left right }
{
    left.in_millionths().cmp(&right.in_millionths())
}
