//! Tokens: what a text is made of, besides blanks.

ghost use Rattle.std.specs.Prelude.{◌≡◌, ◌+◌, ◌^◌, ◌<◌};
ghost use Rattle.ar_syntax.specs.Token.{begins_word, comparison_sign, continues_word, letters, predicate_letters, radix, spelling, takes_field, test_letters, word_of};
ghost use Rattle.ar_syntax.specs.Tokens.{token};

use ar_tree::tree::Comparison;
use ar_value::decimal::Decimal;
use ar_value::operator::{Predicate, TextTest};
use ar_value::text::Text;

/// Where a token is in its text: byte offsets from 0, `end` being the first byte after it.
#[derive(Clone, Copy)]
pub struct Span {
    pub start: usize,
    pub end: usize,
}

/// A word, a number, a text or a sign, and where it is.
#[derive(Drop)]
pub struct Token {
    pub kind: TokenKind,
    pub span: Span,
}

/// What a token is.
#[derive(Drop)]
pub enum TokenKind {
    /// A word that the language names: a letter or `_`, then letters, digits and `_`.
    Word(Word),
    /// Any other word.
    Name(Text),
    /// Digits, in base 10 or after `0x`, `0o` or `0b`.
    Whole(i64),
    /// A point among or before digits, at most six of them after it.
    Decimal(Decimal),
    /// A text between quotes.
    Text(Text),
    Sign(Sign),
}

/// The words that the language names.
#[derive(Clone, Copy)]
pub enum Word {
    Result,
    True,
    False,
    Nil,
    And,
    Or,
    Not,
    In,
    /// The name of an operator on two texts, as `contains`.
    Test(TextTest),
    Len,
    IsNil,
    Default,
    /// The name of a call that takes a list and a predicate, as `all`.
    Over(Predicate),
}

/// The signs.
#[derive(Clone, Copy)]
pub enum Sign {
    Comparison(Comparison),
    /// `&&`
    And,
    /// `||`
    Or,
    /// `!`
    Not,
    Plus,
    Minus,
    Star,
    Slash,
    Percent,
    Question,
    Colon,
    Comma,
    Point,
    OpenParenthesis,
    CloseParenthesis,
    OpenBracket,
    CloseBracket,
    OpenBrace,
    CloseBrace,
    Hash,
}

/// The bases that a prefix names.
#[derive(Clone, Copy)]
pub enum Base {
    Binary,
    Octal,
    Hexadecimal,
}

impl TokenKind {
    /// Whether a point directly after the token is a field's.
    pub fn takes_field(&self) -> bool
        ensures { result ≡ takes_field self.now }
    {
        match self {
            TokenKind::Word(_) | TokenKind::Name(_) => true,
            TokenKind::Sign(sign) => matches!(
                sign,
                Sign::CloseParenthesis | Sign::CloseBracket | Sign::Hash
            ),
            _ => false,
        }
    }
}

impl Base {
    pub fn radix(self) -> u32
        ensures { result ≡ radix self }
    {
        match self {
            Base::Binary => 2,
            Base::Octal => 8,
            Base::Hexadecimal => 16,
        }
    }
}

impl Sign {
    /// How the sign is written.
    pub fn spelling(self) -> &'static str
        ensures { result.now ≡ spelling self }
    {
        match self {
            Sign::Comparison(comparison) => comparison_sign(comparison),
            Sign::And => "&&",
            Sign::Or => "||",
            Sign::Not => "!",
            Sign::Plus => "+",
            Sign::Minus => "-",
            Sign::Star => "*",
            Sign::Slash => "/",
            Sign::Percent => "%",
            Sign::Question => "?",
            Sign::Colon => ":",
            Sign::Comma => ",",
            Sign::Point => ".",
            Sign::OpenParenthesis => "(",
            Sign::CloseParenthesis => ")",
            Sign::OpenBracket => "[",
            Sign::CloseBracket => "]",
            Sign::OpenBrace => "{",
            Sign::CloseBrace => "}",
            Sign::Hash => "#",
        }
    }
}

/// The sign of a comparison.
fn comparison_sign(comparison: Comparison) -> &'static str
    ensures { result.now ≡ comparison_sign comparison }
{
    match comparison {
        Comparison::Equal => "==",
        Comparison::NotEqual => "!=",
        Comparison::Less => "<",
        Comparison::LessOrEqual => "<=",
        Comparison::Greater => ">",
        Comparison::GreaterOrEqual => ">=",
    }
}

/// The words that the language names.
const NAMED_WORDS: [Word; 20] = [
    Word::Result,
    Word::True,
    Word::False,
    Word::Nil,
    Word::And,
    Word::Or,
    Word::Not,
    Word::In,
    Word::Test(TextTest::Contains),
    Word::Test(TextTest::StartsWith),
    Word::Test(TextTest::EndsWith),
    Word::Len,
    Word::IsNil,
    Word::Default,
    Word::Over(Predicate::All),
    Word::Over(Predicate::Any),
    Word::Over(Predicate::None),
    Word::Over(Predicate::One),
    Word::Over(Predicate::Count),
    Word::Over(Predicate::Filter),
];

impl Word {
    /// How the language spells the word.
    pub fn letters(self) -> &'static str
        ensures { result.now ≡ letters self }
    {
        match self {
            Word::Result => "result",
            Word::True => "true",
            Word::False => "false",
            Word::Nil => "nil",
            Word::And => "and",
            Word::Or => "or",
            Word::Not => "not",
            Word::In => "in",
            Word::Test(test) => test_letters(test),
            Word::Len => "len",
            Word::IsNil => "isNil",
            Word::Default => "default",
            Word::Over(predicate) => predicate_letters(predicate),
        }
    }

    /// The word that the language spells so.
    #[tactic(auto, unfolding(crate::specs::Token::word_of))]
    pub fn of(name: &str) -> Option<Word>
        ensures { result ≡ word_of name.now }
    {
        NAMED_WORDS
            .iter()
            .copied()
            .find(|word| word.letters() == name)
    }
}

/// How the language spells a test of texts.
fn test_letters(test: TextTest) -> &'static str
    ensures { result.now ≡ test_letters test }
{
    match test {
        TextTest::Contains => "contains",
        TextTest::StartsWith => "startsWith",
        TextTest::EndsWith => "endsWith",
    }
}

/// How the language spells a call with a predicate.
fn predicate_letters(predicate: Predicate) -> &'static str
    ensures { result.now ≡ predicate_letters predicate }
{
    match predicate {
        Predicate::All => "all",
        Predicate::Any => "any",
        Predicate::None => "none",
        Predicate::One => "one",
        Predicate::Count => "count",
        Predicate::Filter => "filter",
    }
}

pub(crate) fn begins_word(byte: u8) -> bool
    ensures { result ≡ begins_word byte }
{
    byte.is_ascii_alphabetic() || byte == b'_'
}

pub(crate) fn continues_word(byte: u8) -> bool
    ensures { result ≡ continues_word byte }
{
    byte.is_ascii_alphanumeric() || byte == b'_'
}

/// A token of `len` bytes at the offset `at`.
pub(crate) fn placed(kind: TokenKind, at: usize, len: usize) -> Token
    requires { at + len < 2 ^ 64 }
    ensures { result ≡ token kind at len }
{
    Token {
        kind,
        span: Span {
            start: at,
            end: at + len,
        },
    }
}
