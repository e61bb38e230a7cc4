//! Numbers that digits spell.

ghost use Rattle.std.specs.Prelude.{◌≡◌, ◌+◌, ◌^◌, ◌*◌, ◌<◌, ◌≤◌, ◌++◌, length, take, true};
ghost use Rattle.std.specs.Option.{SomeIff};
ghost use Rattle.std.specs.Char.{is_ascii_digit};
ghost use Rattle.std.specs.List.{list_all};
ghost use Rattle.std.specs.Str.Parse.{digits_value, digits_value_after};
ghost use Rattle.ar_value.specs.Digits.{magnitude_of};
ghost use Rattle.ar_value.specs.Private.Scaled.{scaled_magnitude};

/// How many digits a decimal keeps after its point.
const KEPT_DIGITS: usize = 6;

/// The number that the digits spell, where it fits 64 bits.
pub fn number(digits: &[u8]) -> Option<u64>
    requires { list_all is_ascii_digit digits.now ≡ true }
    ensures { SomeIff result (digits_value 10 digits.now < 2 ^ 64) (digits_value 10 digits.now) }
{
    spelled(0, digits)
}

/// The millionths that the digits before a point and those after it spell, cut toward zero,
/// where they fit 64 bits.
#[tactic(auto, using(crate::proofs::DigitsLemmas::unscaled))]
pub fn millionths(whole: &[u8], fraction: &[u8]) -> Option<u64>
    requires whole { list_all is_ascii_digit whole.now ≡ true }
    requires fraction { list_all is_ascii_digit fraction.now ≡ true }
    ensures { SomeIff result (magnitude_of whole.now fraction.now < 2 ^ 64) (magnitude_of whole.now fraction.now) }
{
    scaled_millionths(whole, fraction, 0, 0)
}

/// The same times `10^up`, over `10^down`: it takes as many steps as there are digits at most, and
/// no memory.
pub(crate) fn scaled_millionths(
    whole: &[u8],
    fraction: &[u8],
    up: usize,
    down: usize,
) -> Option<u64>
    requires whole { list_all is_ascii_digit whole.now ≡ true }
    requires fraction { list_all is_ascii_digit fraction.now ≡ true }
    requires up { up < 1000 }
    requires down { down < 1000 }
    ensures { SomeIff result (scaled_magnitude whole.now fraction.now up down < 2 ^ 64)
        (scaled_magnitude whole.now fraction.now up down) }
{
    let raised = KEPT_DIGITS + up;
    let lowered = fraction.len() + down;
    if lowered <= raised {
        times_power(all_digits(whole, fraction)?, raised - lowered)
    } else {
        let digits = whole.len() + fraction.len();
        leading(whole, fraction, digits.saturating_sub(lowered - raised))
    }
}

/// The number that two runs of digits spell, one after the other, where it fits 64 bits.
#[tactic(auto, using(crate::proofs::DigitsLemmas::all_digits))]
fn all_digits(whole: &[u8], fraction: &[u8]) -> Option<u64>
    requires whole { list_all is_ascii_digit whole.now ≡ true }
    requires fraction { list_all is_ascii_digit fraction.now ≡ true }
    ensures { SomeIff result
        (digits_value 10 (whole.now ++ fraction.now) < 2 ^ 64)
        (digits_value 10 (whole.now ++ fraction.now)) }
{
    spelled(spelled(0, whole)?, fraction)
}

/// The number times a power of ten, where it fits 64 bits.
fn times_power(number: u64, power: usize) -> Option<u64>
    requires { power < 2000 }
    ensures { SomeIff result (number * 10 ^ power < 2 ^ 64) (number * 10 ^ power) }
{
    if number == 0 {
        return Some(0);
    }
    number.checked_mul(10u64.checked_pow(power as u32)?)
}

/// The number that the first `count` digits of two runs spell, where it fits 64 bits.
#[tactic(auto, using(crate::proofs::DigitsLemmas::list_all_take, crate::proofs::DigitsLemmas::leading_digits))]
fn leading(whole: &[u8], fraction: &[u8], count: usize) -> Option<u64>
    requires whole { list_all is_ascii_digit whole.now ≡ true }
    requires fraction { list_all is_ascii_digit fraction.now ≡ true }
    requires count { count ≤ length whole.now + length fraction.now }
    ensures { SomeIff result
        (digits_value 10 (take count (whole.now ++ fraction.now)) < 2 ^ 64)
        (digits_value 10 (take count (whole.now ++ fraction.now))) }
{
    let first = count.min(whole.len());
    let before = spelled(0, &whole[..first])?;
    spelled(before, &fraction[..count - first])
}

/// The number that the digits spell after those of the number before, where it fits 64 bits.
fn spelled(before: u64, digits: &[u8]) -> Option<u64>
    requires digits { list_all is_ascii_digit digits.now ≡ true }
    ensures { SomeIff result
        (digits_value_after 10 before digits.now < 2 ^ 64)
        (digits_value_after 10 before digits.now) }
{
    let mut value = before;
    for digit in digits {
        value = value
            .checked_mul(10)?
            .checked_add(u64::from(*digit - b'0'))?;
    }
    Some(value)
}
