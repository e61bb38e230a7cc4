//! Where two texts differ that are shown alike.

ghost use Rattle.std.specs.Prelude.{◌≡◌, IfOk, option_map, string_bytes};
ghost use Rattle.std.specs.Str.{IsCharBoundary};
ghost use Rattle.ar_value.specs.Value.{text};
ghost use Rattle.ar_machine.specs.Operand.{value_of};
ghost use Rattle.ar_quote.specs.Quote.{quoted_round};
ghost use Rattle.ar_show.specs.Values.{shown_value};
ghost use Rattle.ar_apart.specs.Apart.{apart_of, character_at, character_length, character_start, first_difference, look_alike, operands_apart, two_texts};
ghost use Rattle.ar_apart.specs.Views.{apart_view, texts_apart, texts_view};

use ar_machine::operand::OperandRef;
use ar_machine::operand::borrowed::ValueRef;
use ar_quote::{TokenAt, push_round};
use ar_show::push_value;
use std::alloc::{AllocError, Global};

/// A text of at most that many bytes is shown whole.
const SHOWN_WHOLE: usize = 64;

/// Where two texts differ that are shown alike.
#[derive(Drop)]
pub struct Apart {
    /// The index of the first byte in which they differ, from 0.
    pub byte: usize,
    /// The left text round the character that has it.
    pub left: String,
    pub right: String,
}

/// The operands of a binary operator that are texts.
#[derive(Clone, Copy)]
pub struct Texts<'v> {
    pub left: &'v str,
    pub right: &'v str,
}

/// How many of their first bytes are the same.
#[tactic(auto, using(crate::proofs::Differences::same_byte, crate::proofs::Differences::other_byte, crate::proofs::Differences::no_byte))]
fn first_difference(left: &str, right: &str) -> usize
    ensures { result ≡ first_difference left.now right.now }
{
    let left = left.as_bytes();
    let right = right.as_bytes();
    let both = left.len().min(right.len());
    for index in 0..both {
        if left[index] != right[index] {
            return index;
        }
    }
    both
}

/// How many bytes the first character has, if there is one.
fn character_length(text: &str) -> usize
    ensures exact { result ≡ character_length text.now }
    ensures boundary { IsCharBoundary text.now result }
{
    text.ceil_char_boundary(1)
}

/// Where the character begins that has the byte with an index.
fn character_start(text: &str, index: usize) -> usize
    ensures exact { result ≡ character_start text.now index }
    ensures boundary { IsCharBoundary text.now result }
{
    text.floor_char_boundary(index)
}

/// A text round the character that has the byte with an index.
fn round_byte(alloc: Global, text: &str, index: usize) -> Result<String, AllocError>
    ensures { IfOk result (λ round. string_bytes round ≡ quoted_round (character_at index text.now)) }
{
    let (before, rest) = text.split_at(character_start(text, index));
    let (token, after) = rest.split_at(character_length(rest));
    let mut round = String::new(alloc);
    push_round(
        &mut round,
        TokenAt {
            before,
            token,
            after,
        },
    )?;
    Ok(round)
}

fn apart_of(alloc: Global, texts: Texts<'_>) -> Result<Apart, AllocError>
    ensures { IfOk result (λ apart. apart_view apart ≡ apart_of texts.entry.left.now texts.entry.right.now) }
{
    let byte = first_difference(texts.left, texts.right);
    let left = round_byte(alloc, texts.left, byte)?;
    let right = round_byte(alloc, texts.right, byte)?;
    Ok(Apart { byte, left, right })
}

fn shown(alloc: Global, letters: &str) -> Result<String, AllocError>
    ensures { IfOk result (λ shown. string_bytes shown ≡ shown_value (text letters.now)) }
{
    let mut shown = String::new(alloc);
    push_value(&mut shown, OperandRef::Borrowed(ValueRef::Text(letters)))?;
    Ok(shown)
}

/// Whether texts differ and are shown alike.
#[tactic(auto, using(crate::proofs::Differences::equal_arent, crate::proofs::Differences::short_arent, crate::proofs::Differences::differ_are))]
fn look_alike(alloc: Global, texts: Texts<'_>) -> Result<bool, AllocError>
    ensures { IfOk result (λ alike. alike ≡ look_alike texts.entry.left.now texts.entry.right.now) }
{
    if texts.left == texts.right {
        return Ok(false);
    }
    if texts.left.len() <= SHOWN_WHOLE && texts.right.len() <= SHOWN_WHOLE {
        return Ok(false);
    }
    let left = shown(alloc, texts.left)?;
    let right = shown(alloc, texts.right)?;
    Ok(left.as_str() == right.as_str())
}

/// Where texts differ that are shown alike.
///
/// # Errors
///
/// Out of memory alone.
pub fn texts_apart(alloc: Global, texts: Option<Texts<'_>>) -> Result<Option<Apart>, AllocError>
    ensures { IfOk result (λ apart. option_map apart_view apart ≡ texts_apart texts.entry) }
{
    let Some(texts) = texts else { return Ok(None) };
    if look_alike(alloc, texts)? {
        Ok(Some(apart_of(alloc, texts)?))
    } else {
        Ok(None)
    }
}

/// Two operands that are texts.
pub fn texts_of<'v>(left: ValueRef<'v>, right: ValueRef<'v>) -> Option<Texts<'v>>
    ensures texts { option_map texts_view result ≡ two_texts (value_of left.entry) (value_of right.entry) }
    ensures apart { texts_apart result ≡ operands_apart (value_of left.entry) (value_of right.entry) }
{
    match left {
        ValueRef::Text(left) => match right {
            ValueRef::Text(right) => Some(Texts { left, right }),
            ValueRef::Nil
            | ValueRef::Bool(_)
            | ValueRef::Whole(_)
            | ValueRef::Decimal(_)
            | ValueRef::List(_)
            | ValueRef::Object(_) => None,
        },
        ValueRef::Nil
        | ValueRef::Bool(_)
        | ValueRef::Whole(_)
        | ValueRef::Decimal(_)
        | ValueRef::List(_)
        | ValueRef::Object(_) => None,
    }
}
