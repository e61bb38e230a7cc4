//! Cutting a text into tokens.

ghost use Rattle.std.specs.Prelude.{◌≡◌, ◌+◌, ◌^◌, ◌<◌, ◌≤◌, length, false, drop, Err, IfOk, Ok};
ghost use Rattle.ar_value.specs.Answer.{Gives};
ghost use Rattle.ar_value.specs.Limits.{most_text_bytes};
ghost use Rattle.ar_syntax.specs.Spelling.{is_syntax_memory, CutsTo};
ghost use Rattle.ar_syntax.specs.Tokens.{begins_block_comment, begins_line_comment, block_comment, comment_end, front_of, is_blank, line_comment, sign_at, sign_of, is_coalescing, token_of, tokens_after, tokens_of, word_at, word_token};
ghost use Rattle.ar_syntax.specs.declared.error.SyntaxError.TheVariants.{TooLong};
ghost use Rattle.ar_syntax.specs.Token.{word_or_name, word_of};

use crate::error::SyntaxError;
use crate::number::{begins_number, number_token};
use crate::quoted::{is_quote, text_token};
use crate::token::{Sign, Token, TokenKind, Word, begins_word, continues_word, placed};
use ar_tree::tree::Comparison;
use ar_value::limits::MOST_TEXT_BYTES;
use ar_value::text::Text;
use std::alloc::{AllocError, Global};

/// How many bytes begin a comment.
const COMMENT_SIGN_LEN: usize = 2;

/// The signs, the longest first.
const SIGNS: [Sign; 25] = [
    Sign::Comparison(Comparison::Equal),
    Sign::Comparison(Comparison::NotEqual),
    Sign::Comparison(Comparison::LessOrEqual),
    Sign::Comparison(Comparison::GreaterOrEqual),
    Sign::And,
    Sign::Or,
    Sign::Comparison(Comparison::Less),
    Sign::Comparison(Comparison::Greater),
    Sign::Not,
    Sign::Plus,
    Sign::Minus,
    Sign::Star,
    Sign::Slash,
    Sign::Percent,
    Sign::Question,
    Sign::Colon,
    Sign::Comma,
    Sign::Point,
    Sign::OpenParenthesis,
    Sign::CloseParenthesis,
    Sign::OpenBracket,
    Sign::CloseBracket,
    Sign::OpenBrace,
    Sign::CloseBrace,
    Sign::Hash,
];

/// What is at the front of bytes: a blank or a comment of n bytes, or a token.
#[derive(Drop)]
enum Piece {
    Gap(usize),
    Found(Token),
}

/// The tokens of a text, in order. Each is the longest possible at its offset; blanks and
/// comments separate them.
///
/// # Errors
///
/// `TooLong` for more than 4,096 bytes, else the first fault of a token: `BadCharacter`,
/// `OpenText`, `OpenComment`, `BadEscape`, `LiteralTooFine` or `NumberTooLarge`, a number's own
/// faults before that of the byte after it, and `OpenText` before an escape of the text.
/// `OutOfMemory` where a growth was refused.
pub fn tokens(alloc: Global, text: &str) -> Result<Vec<Token>, SyntaxError>
    ensures { CutsTo text.now result }
{
    limited_tokens(alloc, text)
}

/// The tokens of a text that is short enough.
#[tactic(auto, unfolding(crate::specs::Tokens::tokens_of))]
fn limited_tokens(alloc: Global, text: &str) -> Result<Vec<Token>, SyntaxError>
    ensures too_long { most_text_bytes < length text.now → result ≡ Err TooLong }
    ensures exact { Gives is_syntax_memory (λ tokens. tokens.items) result (tokens_of text.now) }
{
    if text.len() > MOST_TEXT_BYTES {
        return Err(SyntaxError::TooLong);
    }
    scan(alloc, text)
}

/// The tokens of a whole text.
fn scan(alloc: Global, text: &str) -> Result<Vec<Token>, SyntaxError>
    ensures { Gives is_syntax_memory (λ tokens. tokens.items) result (tokens_after 0 0 false text.now) }
{
    let mut tokens = Vec::new(alloc);
    let mut field = false;
    let mut at = 0;
    while at < text.len() {
        let piece = front(alloc, &text[at..], at, field)?;
        match piece {
            Piece::Gap(len) => {
                field = false;
                at += len;
            }
            Piece::Found(token) => {
                field = token.kind.takes_field();
                at = token.span.end;
                tokens.push(token)?;
            }
        }
    }
    Ok(tokens)
}

/// What is at the front of bytes that begin at an offset of the text. `field` says that a point
/// here is a field's.
#[tactic(auto, unfolding(crate::specs::Tokens::front_of))]
fn front(alloc: Global, text: &str, at: usize, field: bool) -> Result<Piece, SyntaxError>
    requires some_byte { 0 < length text.now }
    requires in_range { at + length text.now < 2 ^ 64 }
    ensures { Gives is_syntax_memory (λ front. front) result (front_of at field text.now) }
{
    let bytes = text.as_bytes();
    if is_blank(bytes[0]) {
        Ok(Piece::Gap(1))
    } else if begins_line_comment(bytes) {
        Ok(Piece::Gap(line_comment_len(bytes)))
    } else if begins_block_comment(bytes) {
        block_comment(bytes, at)
    } else {
        Ok(Piece::Found(front_token(alloc, text, at, field)?))
    }
}

fn is_blank(byte: u8) -> bool
    ensures { result ≡ is_blank byte }
{
    byte == b' ' || byte == b'\t' || byte == b'\r' || byte == b'\n'
}

fn begins_line_comment(bytes: &[u8]) -> bool
    ensures { result ≡ begins_line_comment bytes.now }
{
    matches!(bytes, [b'/', b'/', ..])
}

fn begins_block_comment(bytes: &[u8]) -> bool
    ensures { result ≡ begins_block_comment bytes.now }
{
    matches!(bytes, [b'/', b'*', ..])
}

/// How many bytes a comment up to the end of its line has.
fn line_comment_len(bytes: &[u8]) -> usize
    ensures { result ≡ length (line_comment bytes.now) }
{
    bytes.iter().take_while(|byte| **byte != b'\n').count()
}

/// The comment at the front, up to its sign of end.
fn block_comment(bytes: &[u8], at: usize) -> Result<Piece, SyntaxError>
    ensures { result ≡ block_comment at bytes.now }
{
    match comment_len(bytes) {
        Some(len) => Ok(Piece::Gap(len)),
        None => Err(SyntaxError::OpenComment(at)),
    }
}

#[tactic(auto, using(crate::proofs::Quotes::comment_ends))]
fn comment_len(bytes: &[u8]) -> Option<usize>
    ensures { result ≡ comment_end 2 false (drop 2 bytes.now) }
{
    let [_, _, inside @ ..] = bytes else {
        return None;
    };
    let mut star = false;
    for (index, byte) in inside.iter().enumerate() {
        if *byte == b'/' && star {
            return Some(COMMENT_SIGN_LEN + index + 1);
        }
        star = *byte == b'*';
    }
    None
}

/// The token at the front.
#[tactic(auto, unfolding(crate::specs::Tokens::token_of))]
fn front_token(alloc: Global, text: &str, at: usize, field: bool) -> Result<Token, SyntaxError>
    requires some_byte { 0 < length text.now }
    requires in_range { at + length text.now < 2 ^ 64 }
    ensures { Gives is_syntax_memory (λ token. token) result (token_of at field text.now) }
{
    let bytes = text.as_bytes();
    if begins_word(bytes[0]) {
        word(alloc, text, at)
    } else if begins_number(bytes, field) {
        number_token(bytes, at)
    } else if is_quote(bytes[0]) {
        text_token(alloc, text, at)
    } else {
        sign(bytes, at)
    }
}

/// The word at the front.
#[tactic(auto, using(crate::proofs::Fronts::front_parts))]
fn word(alloc: Global, text: &str, at: usize) -> Result<Token, SyntaxError>
    requires in_range { at + length text.now < 2 ^ 64 }
    ensures { Gives is_syntax_memory (λ token. token) result (Ok (word_token at (word_at text.now))) }
{
    let len = word_len(text.as_bytes());
    Ok(placed(word_kind(alloc, &text[..len])?, at, len))
}

fn word_len(bytes: &[u8]) -> usize
    ensures len { result ≡ length (word_at bytes.now) }
    ensures in_range { result ≤ length bytes.now }
{
    bytes
        .iter()
        .take_while(|byte| continues_word(**byte))
        .count()
}

/// A word of the language, or a name.
fn word_kind(alloc: Global, name: &str) -> Result<TokenKind, AllocError>
    ensures { IfOk result (λ kind. kind ≡ word_or_name name.now (word_of name.now)) }
{
    match Word::of(name) {
        Some(word) => Ok(TokenKind::Word(word)),
        None => Ok(TokenKind::Name(Text::of(alloc, name)?)),
    }
}

/// The sign at the front.
#[tactic(auto, using(crate::proofs::Fronts::sign_in_range))]
fn sign(bytes: &[u8], at: usize) -> Result<Token, SyntaxError>
    requires { at + length bytes.now < 2 ^ 64 }
    ensures { result ≡ sign_of at bytes.now }
{
    if is_coalescing(bytes) {
        return Err(SyntaxError::BadCharacter(at));
    }
    match sign_at(bytes) {
        Some(sign) => Ok(placed(TokenKind::Sign(sign), at, sign.spelling().len())),
        None => Err(SyntaxError::BadCharacter(at)),
    }
}

/// Whether `??` or `?.` is at the front.
fn is_coalescing(bytes: &[u8]) -> bool
    ensures { result ≡ is_coalescing bytes.now }
{
    matches!(bytes, [b'?', b'?' | b'.', ..])
}

/// The longest sign at the front.
#[tactic(auto, unfolding(crate::specs::Tokens::sign_at))]
fn sign_at(bytes: &[u8]) -> Option<Sign>
    ensures { result ≡ sign_at bytes.now }
{
    SIGNS
        .iter()
        .copied()
        .find(|sign| bytes.starts_with(sign.spelling().as_bytes()))
}
