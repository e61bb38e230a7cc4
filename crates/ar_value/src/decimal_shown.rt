//! How a decimal is written.

ghost use Rattle.std.specs.Prelude.{◌<◌, Some};
ghost use Rattle.std.specs.Fmt.{DisplaysOnOk};
ghost use Rattle.ar_value.specs.DecimalShown.{decimal_text, fraction_text};

use crate::decimal::Decimal;
use std::fmt;

/// With at least one digit after its point, and no zero after that one at its end.
impl fmt::Display for Decimal {
    ghost output = { λ d. Some (decimal_text d) };

    #[tactic(auto, unfolding(crate::specs::DecimalShown::decimal_text))]
    fn fmt<W: fmt::Write>(&self, f: &mut fmt::Formatter<W>) -> fmt::Result {
        let millionths = self.millionths();
        let size = millionths.unsigned_abs();
        let sign = if millionths < 0 { "-" } else { "" };
        write!(f, "{sign}{}.", size / 1_000_000)?;
        write_fraction(f, size % 1_000_000, 6)
    }
}

/// Millionths below one, without the zeros at their end.
#[tactic(auto, using(crate::proofs::Fractions::last_digit, crate::proofs::Fractions::more_digits))]
fn write_fraction<W: fmt::Write>(
    f: &mut fmt::Formatter<W>,
    millionths: u64,
    most: u32,
) -> fmt::Result
    requires { millionths < 1000000 }
    ensures { DisplaysOnOk W.write_str_gives f.old result (Some (fraction_text most millionths)) f.new }
{
    if most == 0 {
        return Ok(());
    }
    write!(f, "{}", millionths / 100_000)?;
    let left = millionths % 100_000;
    if left == 0 {
        return Ok(());
    }
    write_fraction(f, left * 10, most - 1)
}
