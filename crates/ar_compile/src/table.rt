//! Texts and names in the order of their first use, each once.

ghost use Rattle.std.specs.Prelude.{◌≡◌, ◌+◌, ◌≤◌, OnOk, length, map, string_bytes};
ghost use Rattle.ar_compile.specs.Compiled.{index_among, with_text};

use std::alloc::{AllocError, Global};

/// The index of a text among others; where it isn't among them, how many these are.
#[tactic(auto, using(crate::proofs::Tables::found_here, crate::proofs::Tables::not_here, crate::proofs::Tables::not_there))]
pub(crate) fn number_of(texts: &[String], text: &str) -> usize
    ensures number { result ≡ index_among text.now (map string_bytes texts.now) }
    ensures small { result ≤ length texts.now }
{
    for (number, other) in texts.iter().enumerate() {
        if other.as_str() == text {
            return number;
        }
    }
    texts.len()
}

/// Adds a text where it isn't there, as its number says.
#[tactic(auto, using(crate::proofs::Tables::added, crate::proofs::Tables::stays))]
pub(crate) fn add_text(
    alloc: Global,
    texts: &mut Vec<String>,
    text: &str,
    number: usize,
) -> Result<(), AllocError>
    requires { number ≡ index_among text.now (map string_bytes texts.old.items) }
    ensures table { OnOk result
        (map string_bytes texts.new.items ≡ with_text text.now (map string_bytes texts.old.items)) }
    // Also where the growth was refused.
    ensures few { length texts.new.items ≤ length texts.old.items + 1 }
{
    if number < texts.len() {
        return Ok(());
    }
    texts.push(String::from_str(alloc, text)?)?;
    Ok(())
}
