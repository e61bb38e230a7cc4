//! Arithmetic of decimals: exact, or cut toward zero, and refused where a result doesn't fit. It
//! takes no memory.

ghost use Rattle.std.specs.Prelude.{◌≡◌, ◌≢◌, ◌*ℤ◌, pos};
ghost use Rattle.ar_value.specs.Decimal.{cut, million};
ghost use Rattle.ar_value.specs.Arithmetic.{decimal_of_whole, decimal_product, difference, negation, quotient, sum, within};

use crate::decimal::{Decimal, MILLION};
use crate::fault::Fault;
use crate::whole;

/// A result where it fits a signed 64-bit number.
pub(crate) fn within(exact: i128) -> Result<i64, Fault>
    ensures { result ≡ within exact }
{
    match i64::try_from(exact) {
        Ok(result) => Ok(result),
        Err(_) => Err(Fault::Overflow),
    }
}

fn product(left: i64, right: i64) -> Result<i64, Fault>
    ensures { result ≡ decimal_product left right }
{
    within(exact_product(left, right) / MILLION)
}

fn exact_product(left: i64, right: i64) -> i128
    ensures { result ≡ left *ℤ right }
{
    i128::from(left) * i128::from(right)
}

fn millionths(whole: i64) -> Result<i64, Fault>
    ensures { result ≡ decimal_of_whole whole }
{
    within(i128::from(whole) * MILLION)
}

fn quotient(dividend: i64, divisor: i64) -> Result<i64, Fault>
    ensures { result ≡ quotient dividend divisor }
{
    if divisor == 0 {
        return Err(Fault::DivisionByZero);
    }
    within(exact_quotient(dividend, divisor))
}

fn exact_quotient(dividend: i64, divisor: i64) -> i128
    requires { divisor ≢ pos 0 }
    ensures { result ≡ cut (dividend *ℤ million) divisor }
{
    i128::from(dividend) * MILLION / i128::from(divisor)
}

/// Arithmetic of decimals.
///
/// # Errors
///
/// `Overflow` where the millionths of a result don't fit a signed 64-bit number, and
/// `DivisionByZero`.
impl Decimal {
    /// The sum, or `Overflow`.
    pub fn add(self, other: Decimal) -> Result<Decimal, Fault>
        ensures { result ≡ sum self other }
    {
        let sum = whole::add(self.millionths(), other.millionths())?;
        Ok(Decimal::from_millionths(sum))
    }

    pub fn sub(self, other: Decimal) -> Result<Decimal, Fault>
        ensures { result ≡ difference self other }
    {
        let difference = whole::sub(self.millionths(), other.millionths())?;
        Ok(Decimal::from_millionths(difference))
    }

    /// The product, cut toward zero at the millionth.
    pub fn mul(self, other: Decimal) -> Result<Decimal, Fault>
        ensures { result ≡ decimal_product self other }
    {
        let product = product(self.millionths(), other.millionths())?;
        Ok(Decimal::from_millionths(product))
    }

    /// The quotient, cut toward zero at the millionth.
    pub fn div(self, other: Decimal) -> Result<Decimal, Fault>
        ensures { result ≡ quotient self other }
    {
        let quotient = quotient(self.millionths(), other.millionths())?;
        Ok(Decimal::from_millionths(quotient))
    }

    pub fn neg(self) -> Result<Decimal, Fault>
        ensures { result ≡ negation self }
    {
        let negation = whole::neg(self.millionths())?;
        Ok(Decimal::from_millionths(negation))
    }

    /// A whole as a decimal.
    pub fn of_whole(whole: i64) -> Result<Decimal, Fault>
        ensures { result ≡ decimal_of_whole whole }
    {
        let millionths = millionths(whole)?;
        Ok(Decimal::from_millionths(millionths))
    }

    /// The quotient of two wholes, cut toward zero at the millionth.
    pub fn of_quotient(dividend: i64, divisor: i64) -> Result<Decimal, Fault>
        ensures { result ≡ quotient dividend divisor }
    {
        Ok(Decimal::from_millionths(quotient(dividend, divisor)?))
    }
}
