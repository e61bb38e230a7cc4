//! Texts between quotes, at the front of bytes.

ghost use Rattle.std.specs.Prelude.{◌≡◌, ◌+◌, ◌^◌, ◌<◌, length, false, IfSome, slice_index, true};
ghost use Rattle.ar_value.specs.Answer.{Gives};
ghost use Rattle.ar_syntax.specs.Token.{escape_of, is_quote, text_end, unescaped};
ghost use Rattle.ar_syntax.specs.Spelling.{is_syntax_memory};
ghost use Rattle.ar_syntax.specs.Tokens.{text_at_front};

use crate::error::SyntaxError;
use crate::token::{Token, TokenKind, placed};
use ar_value::text::Text;
use std::alloc::Global;

/// How many bytes the quotes of a text have.
const QUOTES_LEN: usize = 2;

pub(crate) fn is_quote(byte: u8) -> bool
    ensures { result ≡ is_quote byte }
{
    byte == b'"' || byte == b'\''
}

/// The text at the front, up to the quote that it begins with.
#[tactic(auto, unfolding(crate::specs::Tokens::text_at_front))]
pub(crate) fn text_token(alloc: Global, text: &str, at: usize) -> Result<Token, SyntaxError>
    requires some_byte { 0 < length text.now }
    requires begins { is_quote (slice_index text.now 0) ≡ true }
    requires in_range { at + length text.now < 2 ^ 64 }
    ensures { Gives is_syntax_memory (λ token. token) result (text_at_front at text.now) }
{
    let bytes = text.as_bytes();
    let inside = &text[1..];
    let len = text_end(inside.as_bytes(), bytes[0]).ok_or(SyntaxError::OpenText(at))?;
    let value = unescaped(alloc, &inside[..len], at)?;
    Ok(placed(TokenKind::Text(value), at, len + QUOTES_LEN))
}

/// The offset of the quote that ends a text.
#[tactic(auto, using(crate::proofs::Quotes::text_ends))]
fn text_end(bytes: &[u8], quote: u8) -> Option<usize>
    ensures end { result ≡ text_end quote 0 false bytes.now }
    ensures in_range { IfSome result (λ end. end < length bytes.now) }
    ensures quote { IfSome result (λ end. slice_index bytes.now end ≡ quote) }
{
    let mut escaped = false;
    for (at, byte) in bytes.iter().enumerate() {
        if escaped {
            escaped = false;
        } else if *byte == quote {
            return Some(at);
        } else {
            escaped = *byte == b'\\';
        }
    }
    None
}

/// What a text directly after an offset represents.
fn unescaped(alloc: Global, text: &str, before: usize) -> Result<Text, SyntaxError>
    requires in_range { before + length text.now < 2 ^ 64 }
    ensures { Gives is_syntax_memory (λ value. value) result (unescaped before false text.now) }
{
    let bytes = unescaped_bytes(alloc, text.as_bytes(), before)?;
    match String::from_utf8(bytes) {
        Ok(value) => Ok(Text::from(value)),
        Err(_) => unreachable!(),
    }
}

/// What the bytes of a text directly after an offset represent.
#[tactic(auto, using(crate::proofs::Quotes::text_values))]
fn unescaped_bytes(alloc: Global, bytes: &[u8], before: usize) -> Result<Vec<u8>, SyntaxError>
    requires in_range { before + length bytes.now < 2 ^ 64 }
    ensures { Gives is_syntax_memory (λ value. value.items) result (unescaped before false bytes.now) }
{
    let mut value = Vec::new(alloc);
    let mut escaped = false;
    for (index, byte) in bytes.iter().enumerate() {
        if escaped {
            value.push(escape(*byte).ok_or(SyntaxError::BadEscape(before + index))?)?;
            escaped = false;
        } else if *byte == b'\\' {
            escaped = true;
        } else {
            value.push(*byte)?;
        }
    }
    Ok(value)
}

/// What a backslash and this byte represent.
fn escape(byte: u8) -> Option<u8>
    ensures { result ≡ escape_of byte }
{
    match byte {
        b'\\' | b'"' | b'\'' => Some(byte),
        b'n' => Some(b'\n'),
        b'r' => Some(b'\r'),
        b't' => Some(b'\t'),
        _ => None,
    }
}
