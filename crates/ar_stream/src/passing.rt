//! Values that are passed over.

ghost use Rattle.std.specs.Prelude.{◌≡◌, ◌<◌, ◌∷◌, MatchResult, None, OnOk, Some, drop, false, length, true};
ghost use Rattle.json.specs.Token as token;
ghost use Rattle.ar_stream.specs.Passing.{BeginsNoObject, Enters, after_value, data_at};
ghost use Rattle.ar_stream.specs.Private.Rest.{after_items, after_members};

use ar_borrowed::numbers::is_in_range;
use json::{Invalid, Reader, Token};

/// What a reader entered or passed over.
#[derive(Clone, Copy)]
pub enum Entered {
    /// An array: its first item is next.
    Array,
    /// Null, which was passed over.
    Null,
    /// Any other value, which was passed over.
    Other,
}

/// Enters an array, or passes over any other value. It has at most that many levels.
///
/// # Errors
///
/// `Invalid` where the tokens begin with neither.
#[cycle(pass)]
pub fn enter(reader: &mut Reader<'_>, levels: usize) -> Result<Entered, Invalid>
    ensures value { MatchResult result (λ entered. Enters levels reader.old entered reader.new)
        (λ _. data_at levels reader.old ≡ None) }
    ensures shorter { OnOk result (length reader.new < length reader.old) }
{
    let token = reader.next().ok_or(Invalid)?;
    match token {
        Token::Null => Ok(Entered::Null),
        Token::String(_) => Ok(Entered::Other),
        Token::Bool(_) => Ok(Entered::Other),
        Token::Number(text) => if is_in_range(text) {
            Ok(Entered::Other)
        } else {
            Err(Invalid)
        },
        Token::EndObject | Token::EndArray | Token::Key(_) | Token::Bad => Err(Invalid),
        Token::BeginArray => if levels == 0 {
            Err(Invalid)
        } else {
            Ok(Entered::Array)
        },
        Token::BeginObject => if levels == 0 {
            Err(Invalid)
        } else {
            pass_members(reader, levels - 1)?;
            Ok(Entered::Other)
        },
    }
}

/// Enters an object, if one comes next, and takes a token of anything else.
pub fn enter_object(reader: &mut Reader<'_>) -> bool
    ensures object { result ≡ true → reader.old ≡ token.begin_object ∷ reader.new }
    ensures other { result ≡ false → BeginsNoObject reader.old × (reader.new ≡ drop 1 reader.old) }
{
    matches!(reader.next(), Some(Token::BeginObject))
}

/// Passes over a value of at most that many levels, whose numbers are in range.
///
/// # Errors
///
/// `Invalid` where the tokens don't begin with such a value.
#[cycle(pass)]
pub fn pass_value(reader: &mut Reader<'_>, levels: usize) -> Result<(), Invalid>
    ensures value { MatchResult result (λ _. after_value levels reader.old ≡ Some reader.new)
        (λ _. after_value levels reader.old ≡ None) }
    ensures shorter { OnOk result (length reader.new < length reader.old) }
{
    match enter(reader, levels)? {
        Entered::Array => pass_items(reader, levels - 1),
        Entered::Null | Entered::Other => Ok(()),
    }
}

/// Passes over the rest of an array.
#[cycle(pass)]
fn pass_items(reader: &mut Reader<'_>, levels: usize) -> Result<(), Invalid>
    ensures value { MatchResult result (λ _. after_items levels reader.old ≡ Some reader.new)
        (λ _. after_items levels reader.old ≡ None) }
    ensures shorter { OnOk result (length reader.new < length reader.old) }
{
    while !reader.take_end_array() {
        pass_value(reader, levels)?;
    }
    Ok(())
}

/// Passes over the rest of an object.
#[cycle(pass)]
fn pass_members(reader: &mut Reader<'_>, levels: usize) -> Result<(), Invalid>
    ensures value { MatchResult result (λ _. after_members levels reader.old ≡ Some reader.new)
        (λ _. after_members levels reader.old ≡ None) }
    ensures shorter { OnOk result (length reader.new < length reader.old) }
{
    while let Some(_) = reader.next_key()? {
        pass_value(reader, levels)?;
    }
    Ok(())
}
