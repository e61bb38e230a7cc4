//! Floats as they are shown.

ghost use Rattle.std.specs.Prelude.{◌≡◌, ◌++◌, OnOk, string_bytes};
ghost use Rattle.std.specs.Float.{is_sign_negative};
ghost use Rattle.ar_misfit.specs.FloatText.{digits_text, float_text, is_in_range, is_of_millionths, is_shown_whole, millionths_near};

use ar_value::Decimal;
use std::alloc::AllocError;
use std::fmt::Write;
use std::num::{nearest_i64_to_f64, saturating_f64_to_i64};

const MILLION: f64 = 1_000_000.0;

/// A float's size in millionths, or the greatest number of them.
fn millionths_near(float: f64) -> i64
    ensures { result ≡ millionths_near float }
{
    saturating_f64_to_i64((float.abs() * MILLION).round())
}

fn is_in_range(float: f64) -> bool
    ensures { result ≡ is_in_range float }
{
    millionths_near(float) < i64::MAX
}

fn is_of_millionths(float: f64) -> bool
    ensures { result ≡ is_of_millionths float }
{
    nearest_i64_to_f64(millionths_near(float)) / MILLION == float.abs()
}

/// Is a float shown as a decimal that is read as it?
pub(crate) fn is_shown_whole(float: f64) -> bool
    ensures { result ≡ is_shown_whole float }
{
    is_in_range(float) && is_of_millionths(float)
}

fn has_sign(float: f64) -> bool
    ensures { result ≡ is_sign_negative float }
{
    !float.is_nan() && float.is_sign_negative()
}

pub(crate) fn push_digits(out: &mut String, float: f64) -> Result<(), AllocError>
    ensures { OnOk result (string_bytes out.new ≡ string_bytes out.old ++ digits_text float) }
{
    if has_sign(float) {
        out.push_str("-")?;
    }
    write!(out, "{}", Decimal::from_millionths(millionths_near(float)))
}

#[tactic(auto, unfolding(crate::specs::FloatText::float_text))]
pub(crate) fn push_float(out: &mut String, float: f64) -> Result<(), AllocError>
    ensures { OnOk result (string_bytes out.new ≡ string_bytes out.old ++ float_text float) }
{
    if is_shown_whole(float) {
        return push_digits(out, float);
    }
    if !is_in_range(float) {
        return out.push_str("a number beyond the range of decimals");
    }
    out.push_str("about ")?;
    push_digits(out, float)
}
