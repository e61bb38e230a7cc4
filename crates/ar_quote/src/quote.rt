//! A condition, quoted round one of its tokens.

ghost use Rattle.std.specs.Prelude.{◌≡◌, ◌++◌, OnOk, drop, flat_map, string_bytes};
ghost use Rattle.std.specs.Str.{chars};
ghost use Rattle.ar_quote.specs.Shown.{escaped};
ghost use Rattle.ar_quote.specs.Quote.{quote_end, quoted_round, shown_before, shown_first, token_end};
ghost use Rattle.ar_quote.specs.Tokens.{found};

use crate::shown::{character_count, push_character};
use crate::tokens::TokenAt;
use std::alloc::AllocError;

/// How many characters of a condition are shown before a token, of it, and after it.
const MOST_AROUND: usize = 40;

/// The first characters of a text.
fn push_first(out: &mut String, text: &str) -> Result<(), AllocError>
    ensures { OnOk result (string_bytes out.new ≡ string_bytes out.old ++ shown_first (chars text.now)) }
{
    for character in text.chars().take(MOST_AROUND) {
        push_character(out, character)?;
    }
    Ok(())
}

/// The characters of a text after some.
fn push_after(out: &mut String, text: &str, count: usize) -> Result<(), AllocError>
    ensures { OnOk result (string_bytes out.new ≡ string_bytes out.old
        ++ flat_map escaped (drop count (chars text.now))) }
{
    for character in text.chars().skip(count) {
        push_character(out, character)?;
    }
    Ok(())
}

/// The last characters of a text after a quote.
fn push_last(out: &mut String, text: &str) -> Result<(), AllocError>
    ensures { OnOk result (string_bytes out.new ≡ string_bytes out.old ++ shown_before (chars text.now)) }
{
    let count = character_count(text);
    if count > MOST_AROUND {
        out.push_str("..\"")?;
        push_after(out, text, count - MOST_AROUND)
    } else {
        out.push_str("\"")?;
        push_after(out, text, 0)
    }
}

/// What shows that a token continues.
fn token_end(token: &str) -> &'static str
    ensures { result.now ≡ token_end (chars token.now) }
{
    if character_count(token) > MOST_AROUND {
        ".."
    } else {
        ""
    }
}

/// The end of a quote.
fn quote_end(after: &str) -> &'static str
    ensures { result.now ≡ quote_end (chars after.now) }
{
    if character_count(after) > MOST_AROUND {
        "\".."
    } else {
        "\""
    }
}

/// A condition as a JSON string, with marks round a token.
#[tactic(auto, unfolding(crate::specs::Quote::quoted_round))]
pub fn push_round(out: &mut String, here: TokenAt<'_>) -> Result<(), AllocError>
    ensures { OnOk result (string_bytes out.new ≡ string_bytes out.old
        ++ quoted_round (found here.entry.before.now here.entry.token.now here.entry.after.now)) }
{
    push_last(out, here.before)?;
    out.push('«')?;
    push_first(out, here.token)?;
    out.push_str(token_end(here.token))?;
    out.push('»')?;
    push_first(out, here.after)?;
    out.push_str(quote_end(here.after))
}
