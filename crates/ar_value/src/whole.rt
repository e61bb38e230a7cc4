//! Arithmetic of wholes, whose quotient is a decimal: exact, and refused where a result doesn't fit
//! a signed 64-bit number, as `Overflow`. It takes no memory.

ghost use Rattle.std.specs.Prelude.{◌≡◌};
ghost use Rattle.ar_value.specs.Arithmetic.{difference, negation, product, remainder, sum};

use crate::arithmetic::within;
use crate::fault::Fault;

/// The sum, or `Overflow`.
pub fn add(left: i64, right: i64) -> Result<i64, Fault>
    ensures { result ≡ sum left right }
{
    within(i128::from(left) + i128::from(right))
}

pub fn sub(left: i64, right: i64) -> Result<i64, Fault>
    ensures { result ≡ difference left right }
{
    within(i128::from(left) - i128::from(right))
}

pub fn mul(left: i64, right: i64) -> Result<i64, Fault>
    ensures { result ≡ product left right }
{
    within(i128::from(left) * i128::from(right))
}

/// What is left of a division, with the sign of the dividend.
///
/// # Errors
///
/// `DivisionByZero`.
pub fn rem(dividend: i64, divisor: i64) -> Result<i64, Fault>
    ensures { result ≡ remainder dividend divisor }
{
    if divisor == 0 {
        return Err(Fault::DivisionByZero);
    }
    Ok(dividend.wrapping_rem(divisor))
}

pub fn neg(whole: i64) -> Result<i64, Fault>
    ensures { result ≡ negation whole }
{
    within(-i128::from(whole))
}
