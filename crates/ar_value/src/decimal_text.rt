//! Reading a decimal text, as metric providers write measurements.

ghost use Rattle.std.specs.Prelude.{◌≡◌, ◌+◌, ◌<◌, ◌≤◌, ◌++◌, ◌==◌, drop, length, true, IfSome, IsTrue};
ghost use Rattle.std.specs.Bool.{OnTrue};
ghost use Rattle.std.specs.Option.{SomeIff};
ghost use Rattle.std.specs.Char.{is_ascii_digit};
ghost use Rattle.std.specs.List.{before_first, after_first, list_all, position_or_len};
ghost use Rattle.std.specs.Str.Parse.{starts_with_minus, without_leading_sign};
ghost use Rattle.ar_value.specs.Decimal.{is_i64};
ghost use Rattle.ar_value.specs.DecimalText.{decimal_of, exponent_of, in_range, is_exponent, is_mantissa, is_not_finite, is_point, marks_exponent, millionths_of, of_unsigned, scale_of, with_sign};

use crate::decimal::{Decimal, NumberFault};
use crate::digits::{number, scaled_millionths};

/// How many digits a decimal text may have.
const MOST_MANTISSA_DIGITS: usize = 64;

/// How many digits an exponent may have.
const MOST_EXPONENT_DIGITS: usize = 3;

/// What an exponent makes of a mantissa: times `10^up`, over `10^down`.
#[derive(Clone, Copy)]
struct Scale {
    up: usize,
    down: usize,
}

impl Decimal {
    /// The decimal that a text represents: an optional sign, then one to 64 digits with at most
    /// one point among, before or after them, then an exponent or none: `e` or `E`, an optional
    /// sign, and one to three digits. Digits past the sixth after the point are cut off.
    ///
    /// # Errors
    ///
    /// `NotFinite` for `NaN`, `Inf`, `+Inf` and `-Inf`; `OutOfRange` where the cut number is no
    /// decimal; `BadDecimal` for any other text.
    #[tactic(auto, unfolding(crate::specs::DecimalText::decimal_of))]
    pub fn of_text(text: &str) -> Result<Decimal, NumberFault>
        ensures { result ≡ decimal_of text.now }
    {
        if is_not_finite(text) {
            return Err(NumberFault::NotFinite);
        }
        let (is_negative, unsigned) = split_sign(text.as_bytes());
        of_unsigned(is_negative, unsigned)
    }
}

/// The decimal that a text after its sign represents.
fn of_unsigned(is_negative: bool, text: &[u8]) -> Result<Decimal, NumberFault>
    ensures { result ≡ of_unsigned is_negative text.now }
{
    let Some(scale) = scale_of(text) else {
        return Err(NumberFault::BadDecimal);
    };
    let (whole, fraction) = split_point(&text[..first_mark(text)]);
    if !is_mantissa(whole, fraction) {
        return Err(NumberFault::BadDecimal);
    }
    in_range(is_negative, whole, fraction, scale)
}

/// The decimal that the digits spell, where it is one.
#[tactic(auto, using(crate::proofs::Signs::large, crate::proofs::Signs::outside, crate::proofs::Signs::inside))]
fn in_range(
    is_negative: bool,
    whole: &[u8],
    fraction: &[u8],
    scale: Scale,
) -> Result<Decimal, NumberFault>
    requires whole { list_all is_ascii_digit whole.now ≡ true }
    requires fraction { list_all is_ascii_digit fraction.now ≡ true }
    requires up { scale.up < 1000 }
    requires down { scale.down < 1000 }
    ensures { result ≡ in_range (millionths_of is_negative whole.now fraction.now scale) }
{
    let Some(magnitude) = scaled_millionths(whole, fraction, scale.up, scale.down) else {
        return Err(NumberFault::OutOfRange);
    };
    let Some(millionths) = with_sign(is_negative, magnitude) else {
        return Err(NumberFault::OutOfRange);
    };
    Ok(Decimal::from_millionths(millionths))
}

/// The scale of a text: that of the exponent after its mark, where there is a mark.
#[tactic(auto, using(crate::proofs::Marks::marked, crate::proofs::Marks::unmarked))]
fn scale_of(text: &[u8]) -> Option<Scale>
    ensures value { result ≡ scale_of text.now }
    ensures small { IfSome result (λ scale. (scale.up < 1000) × (scale.down < 1000)) }
{
    let at = first_mark(text);
    if at < text.len() {
        exponent(later(text, at))
    } else {
        Some(Scale { up: 0, down: 0 })
    }
}

/// What comes after a byte.
fn later(text: &[u8], at: usize) -> &[u8]
    requires { at < length text.now }
    ensures { result.now ≡ drop (at + 1) text.now }
{
    &text[at + 1..]
}

/// The scale of an exponent.
fn exponent(text: &[u8]) -> Option<Scale>
    ensures value { result ≡ exponent_of text.now }
    ensures small { IfSome result (λ scale. (scale.up < 1000) × (scale.down < 1000)) }
{
    let (is_negative, digits) = split_sign(text);
    if !is_exponent(digits) {
        return None;
    }
    let exponent = number(digits)? as usize;
    if is_negative {
        Some(Scale {
            up: 0,
            down: exponent,
        })
    } else {
        Some(Scale {
            up: exponent,
            down: 0,
        })
    }
}

/// The index of the first `e` or `E`, or the length where there is none.
fn first_mark(text: &[u8]) -> usize
    ensures { result ≡ position_or_len marks_exponent text.now }
{
    text.iter()
        .take_while(|byte| **byte != b'e' && **byte != b'E')
        .count()
}

fn is_exponent(digits: &[u8]) -> bool
    ensures value { result ≡ is_exponent digits.now }
    ensures digits { OnTrue result (list_all is_ascii_digit digits.now ≡ true) }
    ensures most { OnTrue result (length digits.now ≤ 3) }
{
    1 <= digits.len() && digits.len() <= MOST_EXPONENT_DIGITS && are_digits(digits)
}

fn is_not_finite(text: &str) -> bool
    ensures { result ≡ is_not_finite text.now }
{
    matches!(text, "NaN" | "Inf" | "+Inf" | "-Inf")
}

/// Whether a minus comes first, and what follows the sign.
fn split_sign(text: &[u8]) -> (bool, &[u8])
    ensures minus { result.0 ≡ starts_with_minus text.now }
    ensures rest { result.1.now ≡ without_leading_sign text.now }
{
    match text.first() {
        Some(b'-') => (true, &text[1..]),
        Some(b'+') => (false, &text[1..]),
        _ => (false, text),
    }
}

/// What comes before the first point, and what comes after it.
fn split_point(mantissa: &[u8]) -> (&[u8], &[u8])
    ensures before { result.0.now ≡ before_first is_point mantissa.now }
    ensures later { result.1.now ≡ after_first is_point mantissa.now }
{
    let at = first_point(mantissa);
    if at < mantissa.len() {
        (&mantissa[..at], &mantissa[at + 1..])
    } else {
        (mantissa, &[])
    }
}

/// The index of the first point, or the length where there is none.
fn first_point(mantissa: &[u8]) -> usize
    ensures { result ≡ position_or_len is_point mantissa.now }
{
    mantissa.iter().take_while(|byte| **byte != b'.').count()
}

fn is_mantissa(whole: &[u8], fraction: &[u8]) -> bool
    ensures value { result ≡ is_mantissa (whole.now ++ fraction.now) }
    ensures whole { OnTrue result (list_all is_ascii_digit whole.now ≡ true) }
    ensures fraction { OnTrue result (list_all is_ascii_digit fraction.now ≡ true) }
{
    let digits = whole.len() + fraction.len();
    1 <= digits && digits <= MOST_MANTISSA_DIGITS && are_digits(whole) && are_digits(fraction)
}

fn are_digits(text: &[u8]) -> bool
    ensures { result ≡ list_all is_ascii_digit text.now }
{
    text.iter().all(|byte| byte.is_ascii_digit())
}

/// The magnitude with its sign, where it fits a signed 64-bit number.
fn with_sign(is_negative: bool, magnitude: u64) -> Option<i64>
    ensures { SomeIff result
        (IsTrue (is_i64 (with_sign is_negative magnitude)))
        (with_sign is_negative magnitude) }
{
    if is_negative {
        0i64.checked_sub_unsigned(magnitude)
    } else {
        0i64.checked_add_unsigned(magnitude)
    }
}
