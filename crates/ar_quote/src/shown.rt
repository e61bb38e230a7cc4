//! Names as they are shown, so that each stays in its line and ends where it seems to end.

ghost use Rattle.std.specs.Prelude.{◌≡◌, ◌<◌, ◌++◌, OnOk, flat_map, if◌then◌else◌, length, string_bytes, take};
ghost use Rattle.std.specs.Char.{encode_utf8};
ghost use Rattle.std.specs.Str.{chars};
ghost use Rattle.ar_quote.specs.Shown.{code_escape, escaped, is_invisible, is_mark, most_characters, moves, name_end, quoted, unit_escape};

use std::alloc::AllocError;
use std::fmt::Write;

/// How many characters of a name are shown.
const MOST_CHARACTERS: usize = 64;

/// Whether a character separates lines or changes their direction.
fn is_mark(character: char) -> bool
    ensures { result ≡ is_mark character }
{
    matches!(
        character,
        '\u{61c}' | '\u{200e}'..='\u{200f}' | '\u{2028}'..='\u{202e}' | '\u{2066}'..='\u{2069}'
    )
}

/// Whether nothing is seen of a character.
fn is_invisible(character: char) -> bool
    ensures { result ≡ is_invisible character }
{
    matches!(
        character,
        '\u{ad}'
            | '\u{115f}'..='\u{1160}'
            | '\u{180e}'
            | '\u{200b}'..='\u{200d}'
            | '\u{2060}'..='\u{2065}'
            | '\u{3164}'
            | '\u{feff}'
            | '\u{ffa0}'
            | '\u{e0000}'..='\u{e007f}'
    )
}

/// Whether a terminal may do something else at a character than show it after the one before.
pub(crate) fn moves(character: char) -> bool
    ensures { result ≡ moves character }
{
    character.is_control() || is_mark(character) || is_invisible(character)
}

#[tactic(auto, using(crate::proofs::Escapes::coded))]
fn push_unit(out: &mut String, unit: u32) -> Result<(), AllocError>
    requires { unit < 65536 }
    ensures { OnOk result (string_bytes out.new ≡ string_bytes out.old ++ unit_escape unit) }
{
    write!(out, "\\u{:02x}{:02x}", unit / 256, unit % 256)
}

fn push_pair(out: &mut String, high: u32, low: u32) -> Result<(), AllocError>
    requires high { high < 65536 }
    requires low { low < 65536 }
    ensures { OnOk result (string_bytes out.new ≡ string_bytes out.old ++ (unit_escape high ++ unit_escape low)) }
{
    push_unit(out, high)?;
    push_unit(out, low)
}

/// A character by its units of UTF-16.
fn push_code(out: &mut String, character: char) -> Result<(), AllocError>
    ensures { OnOk result (string_bytes out.new ≡ string_bytes out.old ++ code_escape character) }
{
    let code = u32::from(character);
    if code < 0x10000 {
        push_unit(out, code)
    } else {
        push_pair(
            out,
            0xD800 + (code - 0x10000) / 0x400,
            0xDC00 + code % 0x400,
        )
    }
}

/// A character without an escape of its own.
fn push_other(out: &mut String, character: char) -> Result<(), AllocError>
    ensures { OnOk result (string_bytes out.new ≡ string_bytes out.old
        ++ (if moves character then code_escape character else encode_utf8 character)) }
{
    if moves(character) {
        push_code(out, character)
    } else {
        out.push(character)
    }
}

pub(crate) fn push_character(out: &mut String, character: char) -> Result<(), AllocError>
    ensures { OnOk result (string_bytes out.new ≡ string_bytes out.old ++ escaped character) }
{
    match character {
        '"' => out.push_str("\\\""),
        '\\' => out.push_str("\\\\"),
        '\n' => out.push_str("\\n"),
        '\r' => out.push_str("\\r"),
        '\t' => out.push_str("\\t"),
        _ => push_other(out, character),
    }
}

/// The first characters of a name.
fn push_shown(out: &mut String, name: &str) -> Result<(), AllocError>
    ensures { OnOk result (string_bytes out.new ≡ string_bytes out.old
        ++ flat_map escaped (take most_characters (chars name.now))) }
{
    for character in name.chars().take(MOST_CHARACTERS) {
        push_character(out, character)?;
    }
    Ok(())
}

pub(crate) fn character_count(name: &str) -> usize
    ensures { result ≡ length (chars name.now) }
{
    name.chars().count()
}

/// The end of a name, which shows whether it continues.
fn name_end(name: &str) -> &'static str
    ensures { result.now ≡ name_end (chars name.now) }
{
    if character_count(name) > MOST_CHARACTERS {
        "\".."
    } else {
        "\""
    }
}

/// A name as a JSON string, so that it stays in its line and ends where it seems to end.
#[tactic(auto, unfolding(crate::specs::Shown::quoted))]
pub fn push_quoted(out: &mut String, name: &str) -> Result<(), AllocError>
    ensures { OnOk result (string_bytes out.new ≡ string_bytes out.old ++ quoted name.now) }
{
    out.push_str("\"")?;
    push_shown(out, name)?;
    out.push_str(name_end(name))
}
