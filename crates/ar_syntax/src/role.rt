//! What a token can be after an operand, and what calls take.

ghost use Rattle.std.specs.Prelude.{◌≡◌};
ghost use Rattle.ar_syntax.specs.Roles.{arity, follows, is_body, is_brace, is_group, is_in, precedence, sign_follow, word_follow};

use crate::token::{Sign, Token, TokenKind, Word};
use ar_tree::tree::Binary;
use ar_value::operator::Predicate;

/// The calls of the language.
#[derive(Clone, Copy)]
pub enum Call {
    Len,
    IsNil,
    Default,
    Over(Predicate),
}

/// The signs that end what is in brackets, or before a colon.
#[derive(Clone, Copy)]
pub enum Ender {
    Comma,
    Colon,
    EndGroup,
    EndBracket,
    EndBrace,
}

/// What a token is after an operand.
#[derive(Clone, Copy)]
pub enum Follow {
    Operator(Binary),
    /// `not`, of `not in`
    NotOf,
    /// `?`
    Choose,
    /// The point of a field.
    Select,
    /// The `[` of an index or field.
    Open,
    Ends(Ender),
    NoFollow,
}

impl Call {
    /// How many arguments the call has.
    pub(crate) fn arity(self) -> usize
        ensures { result ≡ arity self }
    {
        match self {
            Call::Len | Call::IsNil => 1,
            Call::Default | Call::Over(_) => 2,
        }
    }

    /// Whether the argument after `before` others is a predicate.
    pub(crate) fn is_body(self, before: usize) -> bool
        ensures { result ≡ is_body self before }
    {
        matches!(self, Call::Over(_)) && before == 1
    }
}

/// How many levels of operators bind tighter.
pub(crate) fn precedence(operator: Binary) -> usize
    ensures { result ≡ precedence operator }
{
    match operator {
        Binary::Or => 4,
        Binary::And => 3,
        Binary::Comparison(_) | Binary::In | Binary::NotIn | Binary::TextTest(_) => 2,
        Binary::Add | Binary::Subtract => 1,
        Binary::Multiply | Binary::Divide | Binary::Remainder => 0,
    }
}

/// What a token is after an operand.
#[tactic(auto, unfolding(crate::specs::Roles::follows))]
pub(crate) fn follow_of(token: &Token) -> Follow
    ensures { result ≡ follows token.now }
{
    match &token.kind {
        TokenKind::Word(word) => word_follow(*word),
        TokenKind::Sign(sign) => sign_follow(*sign),
        _ => Follow::NoFollow,
    }
}

fn word_follow(word: Word) -> Follow
    ensures { result ≡ word_follow word }
{
    match word {
        Word::Or => Follow::Operator(Binary::Or),
        Word::And => Follow::Operator(Binary::And),
        Word::In => Follow::Operator(Binary::In),
        Word::Test(test) => Follow::Operator(Binary::TextTest(test)),
        Word::Not => Follow::NotOf,
        Word::Result
        | Word::True
        | Word::False
        | Word::Nil
        | Word::Len
        | Word::IsNil
        | Word::Default
        | Word::Over(_) => Follow::NoFollow,
    }
}

fn sign_follow(sign: Sign) -> Follow
    ensures { result ≡ sign_follow sign }
{
    match sign {
        Sign::Comparison(comparison) => Follow::Operator(Binary::Comparison(comparison)),
        Sign::Or => Follow::Operator(Binary::Or),
        Sign::And => Follow::Operator(Binary::And),
        Sign::Plus => Follow::Operator(Binary::Add),
        Sign::Minus => Follow::Operator(Binary::Subtract),
        Sign::Star => Follow::Operator(Binary::Multiply),
        Sign::Slash => Follow::Operator(Binary::Divide),
        Sign::Percent => Follow::Operator(Binary::Remainder),
        Sign::Question => Follow::Choose,
        Sign::Point => Follow::Select,
        Sign::OpenBracket => Follow::Open,
        Sign::Comma => Follow::Ends(Ender::Comma),
        Sign::Colon => Follow::Ends(Ender::Colon),
        Sign::CloseParenthesis => Follow::Ends(Ender::EndGroup),
        Sign::CloseBracket => Follow::Ends(Ender::EndBracket),
        Sign::CloseBrace => Follow::Ends(Ender::EndBrace),
        _ => Follow::NoFollow,
    }
}

/// Whether the token is `in`.
#[tactic(auto, unfolding(crate::specs::Roles::is_in))]
pub(crate) fn is_in(token: &Token) -> bool
    ensures { result ≡ is_in token.now }
{
    matches!(token.kind, TokenKind::Word(Word::In))
}

/// Whether the token is `(`.
#[tactic(auto, unfolding(crate::specs::Roles::is_group))]
pub(crate) fn is_group(token: &Token) -> bool
    ensures { result ≡ is_group token.now }
{
    matches!(token.kind, TokenKind::Sign(Sign::OpenParenthesis))
}

/// Whether the token is `{`.
#[tactic(auto, unfolding(crate::specs::Roles::is_brace))]
pub(crate) fn is_brace(token: &Token) -> bool
    ensures { result ≡ is_brace token.now }
{
    matches!(token.kind, TokenKind::Sign(Sign::OpenBrace))
}
