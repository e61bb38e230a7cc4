//! How names are listed, as many as a line has room for.

ghost use Rattle.std.specs.Prelude.{◌≡◌, ◌++◌, IfOk, OnOk, codes, flat_map, string_bytes, take};
ghost use Rattle.ar_quote.specs.Shown.{quoted};
ghost use Rattle.ar_diagnostic.specs.Listing.{most_listed, names_listed, others_counted, those_listed};

use ar_quote::push_quoted;
use ar_value::Text;
use std::alloc::{AllocError, Global};
use std::fmt::Write;

/// How many are listed.
const MOST_LISTED: usize = 8;

/// The first ones, which are listed.
pub fn first_listed<T>(all: &[T]) -> &[T]
    ensures { result.now ≡ take most_listed all.now }
{
    all.get(..MOST_LISTED).unwrap_or(all)
}

/// Names, each after a comma.
fn push_after_commas(out: &mut String, names: &[Text]) -> Result<(), AllocError>
    ensures { OnOk result (string_bytes out.new
        ≡ string_bytes out.old ++ flat_map (λ name. codes ", " ++ quoted name) names.now) }
{
    for name in names {
        out.push_str(", ")?;
        push_quoted(out, name.as_str())?;
    }
    Ok(())
}

fn push_names(out: &mut String, names: &[Text]) -> Result<(), AllocError>
    ensures { OnOk result (string_bytes out.new ≡ string_bytes out.old ++ names_listed names.now) }
{
    match names.split_first() {
        Some((first, others)) => {
            push_quoted(out, first.as_str())?;
            push_after_commas(out, others)
        }
        None => Ok(()),
    }
}

/// How many there are past those that are listed.
fn push_others(out: &mut String, count: usize) -> Result<(), AllocError>
    ensures { OnOk result (string_bytes out.new ≡ string_bytes out.old ++ others_counted count) }
{
    if count > MOST_LISTED {
        write!(out, " and {} more", count - MOST_LISTED)?;
    }
    Ok(())
}

/// Of `count` things of a kind: the names of the first ones, and how many things there are past those that are listed.
pub fn those_listed(
    alloc: Global,
    kinds: &str,
    names: &[Text],
    count: usize,
) -> Result<Text, AllocError>
    ensures { IfOk result (λ text. text ≡ those_listed kinds.now names.now count) }
{
    if count == 0 {
        return Ok(Text::from(format!(in alloc; "there are no {kinds}")?));
    }
    let mut text = format!(in alloc; "{kinds} are ")?;
    push_names(&mut text, names)?;
    push_others(&mut text, count)?;
    Ok(Text::from(text))
}
