//! Numbers of texts.

ghost use Rattle.std.specs.Prelude.{◌≡◌, ◌==◌, IfSome, MatchOption, Some, drop, false, is_some, option_and_then, option_map, slice_index, true};
ghost use Rattle.std.specs.Char.{is_ascii_digit};
ghost use Rattle.std.specs.List.{list_all};
ghost use Rattle.fast_float.specs.Text.{minus};
ghost use Rattle.serde_json.specs.Data.{unsigned};
ghost use Rattle.serde_json.specs.Find.{as_integer};
ghost use Rattle.serde_json.specs.Read.{float_of, number_from, number_of};
ghost use Rattle.serde_json.specs.View.{number_view};

use ar_value::digits;
use fast_float::Numeral;
use serde_json::Number;

fn are_digits(bytes: &[u8]) -> bool
    ensures { result ≡ list_all is_ascii_digit bytes.now }
{
    bytes.iter().all(|byte| byte.is_ascii_digit())
}

/// The number that digits spell, where a text has nothing else and it fits 64 bits.
#[tactic(auto, using(crate::proofs::Digits::digits_alone))]
fn digits_alone(bytes: &[u8]) -> Option<u64>
    ensures { IfSome result (λ whole. number_of bytes.now ≡ Some (unsigned whole)) }
{
    if bytes.is_empty() {
        return None;
    }
    if !are_digits(bytes) {
        return None;
    }
    digits::number(bytes)
}

/// The number of a JSON number's text: a whole number where it is written as one and fits 64 bits,
/// otherwise the nearest float. There is none outside the range of floats.
#[tactic(auto, using(crate::proofs::Signs::below_zero, crate::proofs::Signs::not_below_zero))]
pub fn number_of(text: &str) -> Option<Number>
    ensures { option_map number_view result ≡ number_of text.now }
{
    let bytes = text.as_bytes();
    if let Some(whole) = digits_alone(bytes) {
        return Some(Number::from(whole));
    }
    match after_minus(bytes) {
        Some(digits) => below_zero(&Numeral::scan(digits)),
        None => not_below_zero(&Numeral::scan(bytes)),
    }
}

/// What follows a minus, where there is one in front.
fn after_minus(bytes: &[u8]) -> Option<&[u8]>
    ensures { MatchOption result ((slice_index bytes.now 0 == minus) ≡ false)
        (λ digits. ((slice_index bytes.now 0 == minus) ≡ true) × (digits.now ≡ drop 1 bytes.now)) }
{
    match bytes {
        [b'-', digits @ ..] => Some(digits),
        _ => None,
    }
}

/// The number of a numeral that has a minus in front. `-0` is a float.
fn below_zero(numeral: &Numeral<'_>) -> Option<Number>
    ensures { option_map number_view result ≡ number_from true numeral.now }
{
    match numeral.to_i64(true) {
        Some(whole) if whole < 0 => Some(Number::from(whole)),
        _ => nearest(true, numeral),
    }
}

/// The number of a numeral without a sign.
fn not_below_zero(numeral: &Numeral<'_>) -> Option<Number>
    ensures { option_map number_view result ≡ number_from false numeral.now }
{
    match numeral.to_u64() {
        Some(whole) => Some(Number::from(whole)),
        None => nearest(false, numeral),
    }
}

/// The nearest float, where it is finite.
fn nearest(negative: bool, numeral: &Numeral<'_>) -> Option<Number>
    ensures { option_map number_view result ≡ float_of negative numeral.now }
{
    Number::from_f64(numeral.to_float(negative))
}

/// Any number of this many digits fits 64 bits.
const FEW_DIGITS: usize = 19;

/// Is a text a few digits, and nothing else?
#[tactic(auto, using(crate::proofs::Digits::few_digits))]
fn are_few_digits(bytes: &[u8]) -> bool
    ensures { result ≡ true → is_some (number_of bytes.now) ≡ true }
{
    !bytes.is_empty() && bytes.len() <= FEW_DIGITS && are_digits(bytes)
}

/// Is a JSON number's text in the range of floats?
pub fn is_in_range(text: &str) -> bool
    ensures { result ≡ is_some (number_of text.now) }
{
    are_few_digits(text.as_bytes()) || number_of(text).is_some()
}

/// The whole number of a JSON number's text, where it is written as one and fits 64 bits, with a sign or without.
#[tactic(auto, using(crate::proofs::Signs::integer_below_zero, crate::proofs::Signs::integer_not_below_zero))]
pub fn integer_of(text: &str) -> Option<i128>
    ensures { result ≡ option_and_then as_integer (number_of text.now) }
{
    let bytes = text.as_bytes();
    if let Some(whole) = digits_alone(bytes) {
        return Some(whole as i128);
    }
    match after_minus(bytes) {
        Some(digits) => integer_below_zero(&Numeral::scan(digits)),
        None => integer_not_below_zero(&Numeral::scan(bytes)),
    }
}

/// The whole number of a numeral that has a minus in front. `-0` is none.
#[tactic(auto, using(crate::proofs::Signs::no_integer))]
fn integer_below_zero(numeral: &Numeral<'_>) -> Option<i128>
    ensures { result ≡ option_and_then as_integer (number_from true numeral.now) }
{
    match numeral.to_i64(true) {
        Some(whole) if whole < 0 => Some(whole as i128),
        _ => None,
    }
}

/// The whole number of a numeral without a sign.
#[tactic(auto, using(crate::proofs::Signs::no_integer))]
fn integer_not_below_zero(numeral: &Numeral<'_>) -> Option<i128>
    ensures { result ≡ option_and_then as_integer (number_from false numeral.now) }
{
    Some(numeral.to_u64()? as i128)
}
