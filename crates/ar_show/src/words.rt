//! Words that shown values and shown conditions share.

ghost use Rattle.std.specs.Prelude.{◌≡◌, ◌++◌, OnOk, string_bytes};
ghost use Rattle.ar_show.specs.Words.{between, boolean_text, left_out, plural};

use std::alloc::AllocError;
use std::fmt::Write;

/// A boolean by its name.
pub fn push_boolean(out: &mut String, boolean: bool) -> Result<(), AllocError>
    ensures { OnOk result (string_bytes out.new ≡ string_bytes out.old ++ boolean_text boolean) }
{
    out.push_str(if boolean { "true" } else { "false" })
}

/// What comes before an item: nothing before the first one.
pub(crate) fn push_between(out: &mut String, first: bool) -> Result<(), AllocError>
    ensures { OnOk result (string_bytes out.new ≡ string_bytes out.old ++ between first) }
{
    out.push_str(if first { "" } else { ", " })
}

/// What the word for one thing has at its end where there are `number` of them.
pub fn plural(number: usize) -> &'static str
    ensures { result.now ≡ plural number }
{
    if number == 1 { "" } else { "s" }
}

/// How many are left out, where some are; `what` is the word for one of them.
pub(crate) fn push_left_out(out: &mut String, what: &str, number: usize) -> Result<(), AllocError>
    ensures { OnOk result (string_bytes out.new ≡ string_bytes out.old ++ left_out what.now number) }
{
    if number == 0 {
        return Ok(());
    }
    write!(out, " and {number} more {what}{}", plural(number))
}
