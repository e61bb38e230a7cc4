//! What to do about a misfit.

ghost use Rattle.std.specs.Prelude.{◌≡◌, ◌++◌, OnOk, option_map, string_bytes};
ghost use Rattle.serde_json.specs.View.{view};
ghost use Rattle.ar_value.specs.View.{shape_view};
ghost use Rattle.ar_misfit.specs.MisfitText.{advice, float_advice, float_found, quoting_advice};
ghost use Rattle.ar_misfit.specs.Private.Advised.{advice_words};

use crate::floats::{is_shown_whole, push_digits};
use ar_json::ShapeFault;
use ar_value::shape::Shape;
use serde_json::Value as Json;
use std::alloc::AllocError;

#[derive(Clone, Copy)]
pub(crate) enum Advice {
    /// An integer belongs there.
    Integer,
    /// The number belongs in quotes.
    Quotes,
    /// The decimal of this float belongs in quotes.
    Write(f64),
    /// What is no finite number is an error.
    NotFinite,
}

/// The float that was found.
fn float_found(found: Option<&Json>) -> Option<f64>
    ensures { result ≡ float_found (option_map (λ json. view json.now) found.entry) }
{
    match found? {
        Json::Number(number) if number.is_f64() => number.as_f64(),
        _ => None,
    }
}

/// How the number is written as a decimal.
fn quoting_advice(found: Option<f64>) -> Advice
    ensures { advice_words result ≡ quoting_advice found }
{
    match found {
        Some(float) if is_shown_whole(float) => Advice::Write(float),
        _ => Advice::Quotes,
    }
}

fn float_advice(expected: &Shape, found: Option<f64>) -> Option<Advice>
    ensures { option_map advice_words result ≡ float_advice (shape_view expected.now) found }
{
    match expected {
        Shape::Whole => Some(Advice::Integer),
        Shape::Decimal => Some(quoting_advice(found)),
        Shape::Optional(plain) => float_advice(plain, found),
        Shape::Bool | Shape::Text | Shape::List { .. } | Shape::Object(_) => None,
    }
}

/// What to do about a misfit, if there is something.
pub(crate) fn advice_on(fault: ShapeFault, expected: &Shape, found: Option<&Json>) -> Option<Advice>
    ensures { option_map advice_words result
        ≡ advice fault (shape_view expected.now) (option_map (λ json. view json.now) found.entry) }
{
    match fault {
        ShapeFault::FloatNumber => float_advice(expected, float_found(found)),
        ShapeFault::NotFinite => Some(Advice::NotFinite),
        ShapeFault::WrongKind
        | ShapeFault::BadDecimal
        | ShapeFault::OutOfRange
        | ShapeFault::ListTooLong
        | ShapeFault::MissingField
        | ShapeFault::OutOfMemory => None,
    }
}

impl Advice {
    pub(crate) fn push(self, out: &mut String) -> Result<(), AllocError>
        ensures { OnOk result (string_bytes out.new ≡ string_bytes out.old ++ advice_words self) }
    {
        match self {
            Advice::Integer => out.push_str("an integer has no point and no exponent, and 64 bits"),
            Advice::Quotes => out.push_str("write the number in quotes, as a text"),
            Advice::Write(float) => {
                out.push_str("write \"")?;
                push_digits(out, float)?;
                out.push_str("\"")
            }
            Advice::NotFinite => {
                out.push_str("it is no value, and counts towards consecutiveErrorLimit")
            }
        }
    }
}
