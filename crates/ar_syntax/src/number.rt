//! Numbers at the front of bytes.

ghost use Rattle.std.specs.Prelude.{◌≡◌, ◌+◌, ◌^◌, ◌<◌, ◌≤◌, length, drop, take_while, true, pos, IsTrue, Some};
ghost use Rattle.std.specs.Option.{SomeIff};
ghost use Rattle.std.specs.Char.{digit_value, is_ascii_digit};
ghost use Rattle.std.specs.List.{list_all};
ghost use Rattle.std.specs.Str.Parse.{digits_value};
ghost use Rattle.ar_value.specs.Decimal.{is_i64};
ghost use Rattle.ar_value.specs.Digits.{magnitude_of};
ghost use Rattle.ar_syntax.specs.Token.{continues_word, is_digit_in, radix};
ghost use Rattle.ar_syntax.specs.Tokens.{base_digits, base_named, base_of, begins_number, digits_at, digits_after_point, number_ended, number_at_front, number_text, plain_number, prefixed_number, number_token_kind};

use crate::error::SyntaxError;
use crate::token::{Base, Token, TokenKind, continues_word, placed};
use ar_value::decimal::Decimal;
use ar_value::digits::{millionths, number};

/// How many digits a decimal may have after its point.
const MOST_FRACTION_DIGITS: usize = 6;

/// How many bytes the prefix of a base has.
const PREFIX_LEN: usize = 2;

/// Whether a number begins here. Where a field may come, a point isn't a number's.
pub(crate) fn begins_number(bytes: &[u8], field: bool) -> bool
    ensures { result ≡ begins_number field bytes.now }
{
    match bytes {
        [b'.', byte, ..] => byte.is_ascii_digit() && !field,
        [byte, ..] => byte.is_ascii_digit(),
        [] => false,
    }
}

/// The number at the front.
#[tactic(auto, unfolding(crate::specs::Tokens::number_at_front))]
pub(crate) fn number_token(bytes: &[u8], at: usize) -> Result<Token, SyntaxError>
    requires { at + length bytes.now < 2 ^ 64 }
    ensures { result ≡ number_at_front at bytes.now }
{
    match base(bytes) {
        Some(base) => prefixed_number(bytes, at, base),
        None => plain_number(bytes, at),
    }
}

/// The base of the number at the front, where it has a prefix and a digit after it.
#[tactic(auto, unfolding(crate::specs::Tokens::base_of))]
fn base(bytes: &[u8]) -> Option<Base>
    ensures base { result ≡ base_of bytes.now }
{
    match bytes {
        [b'0', letter, digit, ..] => base_named(*letter).filter(|base| is_digit(*digit, *base)),
        _ => None,
    }
}

fn base_named(letter: u8) -> Option<Base>
    ensures { result ≡ base_named letter }
{
    match letter {
        b'b' => Some(Base::Binary),
        b'o' => Some(Base::Octal),
        b'x' => Some(Base::Hexadecimal),
        _ => None,
    }
}

fn is_digit(byte: u8, base: Base) -> bool
    ensures { result ≡ is_digit_in base byte }
{
    char::from(byte).is_digit(base.radix())
}

/// A number in a base that its prefix names.
#[tactic(auto, using(crate::proofs::Fronts::prefixed_in_range))]
fn prefixed_number(bytes: &[u8], at: usize, base: Base) -> Result<Token, SyntaxError>
    requires in_range { at + length bytes.now < 2 ^ 64 }
    requires base { base_of bytes.now ≡ Some base }
    ensures { result ≡ prefixed_number at bytes.now base }
{
    let digits = base_digits(after_prefix(bytes), base);
    let Some(value) = prefixed_value(digits, base) else {
        return Err(SyntaxError::NumberTooLarge(at));
    };
    ended(
        bytes,
        at,
        PREFIX_LEN + digits.len(),
        TokenKind::Whole(value),
    )
}

/// The bytes after the prefix of a base.
fn after_prefix(bytes: &[u8]) -> &[u8]
    ensures { result.now ≡ drop 2 bytes.now }
{
    match bytes {
        [_, _, rest @ ..] => rest,
        _ => &[],
    }
}

/// The digits of a base at the front.
#[tactic(auto, using(crate::proofs::Fronts::front_parts))]
fn base_digits(bytes: &[u8], base: Base) -> &[u8]
    ensures front { result.now ≡ take_while (is_digit_in base) bytes.now }
    ensures digits { list_all (is_digit_in base) result.now ≡ true }
{
    &bytes[..base_digits_len(bytes, base)]
}

fn base_digits_len(bytes: &[u8], base: Base) -> usize
    ensures len { result ≡ length (take_while (is_digit_in base) bytes.now) }
    ensures in_range { result ≤ length bytes.now }
{
    bytes
        .iter()
        .take_while(|byte| is_digit(**byte, base))
        .count()
}

/// The whole that digits of a base spell, where it fits.
fn prefixed_value(digits: &[u8], base: Base) -> Option<i64>
    requires digits { list_all (is_digit_in base) digits.now ≡ true }
    ensures { SomeIff result (IsTrue (is_i64 (pos (digits_value (radix base) digits.now))))
        (pos (digits_value (radix base) digits.now)) }
{
    signed(base_value(digits, base)?)
}

/// The number that digits of a base spell, where it fits 64 bits.
fn base_value(digits: &[u8], base: Base) -> Option<u64>
    requires digits { list_all (is_digit_in base) digits.now ≡ true }
    ensures { SomeIff result (digits_value (radix base) digits.now < 2 ^ 64) (digits_value (radix base) digits.now) }
{
    let radix = u64::from(base.radix());
    let mut value: u64 = 0;
    for digit in digits {
        value = value
            .checked_mul(radix)?
            .checked_add(digit_value(*digit, base))?;
    }
    Some(value)
}

fn digit_value(byte: u8, base: Base) -> u64
    requires { is_digit_in base byte ≡ true }
    ensures { result ≡ digit_value byte }
{
    match char::from(byte).to_digit(base.radix()) {
        Some(digit) => u64::from(digit),
        None => 0,
    }
}

/// A number in base 10.
fn plain_number(bytes: &[u8], at: usize) -> Result<Token, SyntaxError>
    requires { at + length bytes.now < 2 ^ 64 }
    ensures { result ≡ plain_number at bytes.now }
{
    let whole = digits(bytes);
    let fraction = digits_after_point(&bytes[whole.len()..]);
    let kind = value(whole, fraction, at)?;
    ended(bytes, at, number_len(whole, fraction), kind)
}

/// A number of `len` bytes, where nothing comes after it that continues a word.
fn ended(bytes: &[u8], at: usize, len: usize, kind: TokenKind) -> Result<Token, SyntaxError>
    requires within { len ≤ length bytes.now }
    requires in_range { at + length bytes.now < 2 ^ 64 }
    ensures { result ≡ number_ended at len bytes.now kind }
{
    if len < bytes.len() && continues_word(bytes[len]) {
        return Err(SyntaxError::BadCharacter(at + len));
    }
    Ok(placed(kind, at, len))
}

/// The digits at the front.
#[tactic(auto, using(crate::proofs::Fronts::front_parts))]
fn digits(bytes: &[u8]) -> &[u8]
    ensures front { result.now ≡ digits_at bytes.now }
    ensures digits { list_all is_ascii_digit result.now ≡ true }
{
    &bytes[..digits_len(bytes)]
}

fn digits_len(bytes: &[u8]) -> usize
    ensures len { result ≡ length (digits_at bytes.now) }
    ensures in_range { result ≤ length bytes.now }
{
    bytes
        .iter()
        .take_while(|byte| byte.is_ascii_digit())
        .count()
}

/// The digits directly after a point at the front.
fn digits_after_point(bytes: &[u8]) -> &[u8]
    ensures front { result.now ≡ digits_after_point bytes.now }
    ensures digits { list_all is_ascii_digit result.now ≡ true }
{
    match bytes {
        [b'.', rest @ ..] => digits(rest),
        _ => &[],
    }
}

fn number_len(whole: &[u8], fraction: &[u8]) -> usize
    ensures { result ≡ length (number_text whole.now fraction.now) }
{
    if fraction.is_empty() {
        whole.len()
    } else {
        whole.len() + 1 + fraction.len()
    }
}

/// The value of a number that begins at an offset of the text.
fn value(whole: &[u8], fraction: &[u8], at: usize) -> Result<TokenKind, SyntaxError>
    requires whole { list_all is_ascii_digit whole.now ≡ true }
    requires fraction { list_all is_ascii_digit fraction.now ≡ true }
    ensures { result ≡ number_token_kind at whole.now fraction.now }
{
    if fraction.len() > MOST_FRACTION_DIGITS {
        return Err(SyntaxError::LiteralTooFine(at));
    }
    if fraction.is_empty() {
        match whole_value(whole) {
            Some(whole) => Ok(TokenKind::Whole(whole)),
            None => Err(SyntaxError::NumberTooLarge(at)),
        }
    } else {
        match decimal_value(whole, fraction) {
            Some(millionths) => Ok(TokenKind::Decimal(Decimal::from_millionths(millionths))),
            None => Err(SyntaxError::NumberTooLarge(at)),
        }
    }
}

/// The whole that the digits spell, where it fits.
fn whole_value(digits: &[u8]) -> Option<i64>
    requires digits { list_all is_ascii_digit digits.now ≡ true }
    ensures { SomeIff result (IsTrue (is_i64 (pos (digits_value 10 digits.now)))) (pos (digits_value 10 digits.now)) }
{
    signed(number(digits)?)
}

/// The millionths that the digits spell, where they fit.
fn decimal_value(whole: &[u8], fraction: &[u8]) -> Option<i64>
    requires whole { list_all is_ascii_digit whole.now ≡ true }
    requires fraction { list_all is_ascii_digit fraction.now ≡ true }
    ensures { SomeIff result (IsTrue (is_i64 (pos (magnitude_of whole.now fraction.now))))
        (pos (magnitude_of whole.now fraction.now)) }
{
    signed(millionths(whole, fraction)?)
}

/// The number as a signed one, where it fits.
fn signed(magnitude: u64) -> Option<i64>
    ensures { SomeIff result (IsTrue (is_i64 (pos magnitude))) (pos magnitude) }
{
    0i64.checked_add_unsigned(magnitude)
}
