//! Why a text is no condition.

ghost use Rattle.std.specs.Prelude.{◌≡◌};
ghost use Rattle.ar_syntax.specs.Refused.{syntax_error_name, syntax_refused_at};
ghost use Rattle.ar_syntax.specs.declared.error.SyntaxError.TheVariants.{OutOfMemory};

use ar_value::limits::MOST_TEXT_BYTES;
use std::alloc::{AllocError, AllocFailed};
use std::fmt;
use thiserror::Error;

/// Why a text is no condition. A number is the offset of the fault in bytes, from 0.
#[derive(Clone, Copy, Error)]
pub enum SyntaxError {
    /// The text has more than 4,096 bytes.
    TooLong,
    /// No token begins with this byte, or it comes directly after a number and continues it.
    BadCharacter(usize),
    /// The text literal that begins here has no end.
    OpenText(usize),
    /// The comment that begins here has no end.
    OpenComment(usize),
    /// The backslash here comes before a byte that it can't escape.
    BadEscape(usize),
    /// The number that begins here has more than six digits after its point.
    LiteralTooFine(usize),
    /// The number that begins here is above the greatest whole or decimal.
    NumberTooLarge(usize),
    /// No condition has the token at this offset after those before it. The end of the text
    /// counts as a token.
    Unexpected(usize),
    /// An operand is expected here, and the language doesn't name this word.
    UnknownName(usize),
    /// The call takes another number of arguments than end here.
    WrongCount(usize),
    /// `#`, or a point for its field, is outside predicates.
    ItemOutside(usize),
    /// A list continues after its sixteenth item.
    TooManyItems(usize),
    /// A parenthesis, bracket, brace, call, sign or `?` begins while 64 are unfinished; at 0, the
    /// tree of the whole text is deeper than 64.
    TooDeep(usize),
    /// A growth of memory was refused.
    OutOfMemory,
}

impl SyntaxError {
    /// The byte at which the text stops being a condition.
    pub fn offset(self) -> Option<usize>
        ensures { result ≡ syntax_refused_at self }
    {
        match self {
            SyntaxError::TooLong => Some(MOST_TEXT_BYTES),
            SyntaxError::BadCharacter(at)
            | SyntaxError::OpenText(at)
            | SyntaxError::OpenComment(at)
            | SyntaxError::BadEscape(at)
            | SyntaxError::LiteralTooFine(at)
            | SyntaxError::NumberTooLarge(at)
            | SyntaxError::Unexpected(at)
            | SyntaxError::UnknownName(at)
            | SyntaxError::WrongCount(at)
            | SyntaxError::ItemOutside(at)
            | SyntaxError::TooManyItems(at)
            | SyntaxError::TooDeep(at) => Some(at),
            SyntaxError::OutOfMemory => None,
        }
    }

    /// The variant's name.
    pub fn name(self) -> &'static str
        ensures { result.now ≡ syntax_error_name self }
    {
        match self {
            SyntaxError::TooLong => "TooLong",
            SyntaxError::BadCharacter(_) => "BadCharacter",
            SyntaxError::OpenText(_) => "OpenText",
            SyntaxError::OpenComment(_) => "OpenComment",
            SyntaxError::BadEscape(_) => "BadEscape",
            SyntaxError::LiteralTooFine(_) => "LiteralTooFine",
            SyntaxError::NumberTooLarge(_) => "NumberTooLarge",
            SyntaxError::Unexpected(_) => "Unexpected",
            SyntaxError::UnknownName(_) => "UnknownName",
            SyntaxError::WrongCount(_) => "WrongCount",
            SyntaxError::ItemOutside(_) => "ItemOutside",
            SyntaxError::TooManyItems(_) => "TooManyItems",
            SyntaxError::TooDeep(_) => "TooDeep",
            SyntaxError::OutOfMemory => "OutOfMemory",
        }
    }
}

impl fmt::Debug for SyntaxError {
    fn fmt<W: fmt::Write>(&self, f: &mut fmt::Formatter<W>) -> fmt::Result {
        let mut shown = f.debug_tuple(self.name());
        match self {
            // It has no number of its own.
            SyntaxError::TooLong => {}
            _ => {
                if let Some(at) = self.offset() {
                    shown.field(&at);
                }
            }
        }
        shown.finish()
    }
}

impl fmt::Display for SyntaxError {
    fn fmt<W: fmt::Write>(&self, f: &mut fmt::Formatter<W>) -> fmt::Result {
        fmt::Debug::fmt(self, f)
    }
}

impl From<AllocError> for SyntaxError {
    ghost from_gives = { λ _ e. e ≡ OutOfMemory };

    fn from(_error: AllocError) -> SyntaxError {
        SyntaxError::OutOfMemory
    }
}

impl<T: Drop> From<AllocFailed<T>> for SyntaxError {
    ghost from_gives = { λ _ e. e ≡ OutOfMemory };

    fn from(_error: AllocFailed<T>) -> SyntaxError {
        SyntaxError::OutOfMemory
    }
}
