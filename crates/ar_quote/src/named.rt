//! Names in lines of words.

ghost use Rattle.std.specs.Prelude.{◌≡◌, ◌++◌, OnOk, not, string_bytes};
ghost use Rattle.std.specs.List.{list_all};
ghost use Rattle.std.specs.Str.{chars};
ghost use Rattle.ar_quote.specs.Shown.{is_clear, moves, shown_name};

use crate::shown::{moves, push_quoted};
use std::alloc::AllocError;

/// Whether a terminal shows each character of a name after the one before.
fn stays(name: &str) -> bool
    ensures { result ≡ list_all (λ character. not (moves character)) (chars name.now) }
{
    name.chars().all(|character| !moves(character))
}

/// Whether a line of words can have a name as it is.
fn is_clear(name: &str) -> bool
    ensures { result ≡ is_clear name.now }
{
    match name.as_bytes().first() {
        Some(first) => *first != b'"' && stays(name),
        None => false,
    }
}

/// Appends a name as it is, or as a JSON string where it would be empty, look like one, or not stay in its line.
///
/// # Errors
///
/// Out of memory alone.
#[tactic(auto, unfolding(crate::specs::Shown::shown_name))]
pub fn push_name(out: &mut String, name: &str) -> Result<(), AllocError>
    ensures { OnOk result (string_bytes out.new ≡ string_bytes out.old ++ shown_name name.now) }
{
    if is_clear(name) {
        out.push_str(name)
    } else {
        push_quoted(out, name)
    }
}
