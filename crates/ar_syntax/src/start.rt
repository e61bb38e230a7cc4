//! What a token begins where an operand is expected.

ghost use Rattle.std.specs.Prelude.{◌≡◌, IfOk};
ghost use Rattle.ar_tree.specs.Expression.{LiteralAt};
ghost use Rattle.ar_syntax.specs.Roles.{Leaf, sign_start, begun_by, word_start};
ghost use Rattle.ar_syntax.specs.Private.Steps.{start_of};
ghost use Rattle.ar_tree.specs.Views.{expression_of};

use crate::role::Call;
use crate::token::{Sign, Token, TokenKind, Word};
use ar_tree::tree::{Literal, Tree, Unary};
use ar_value::text::Text;
use std::alloc::{AllocError, Global};

/// What a token begins.
#[derive(Drop)]
pub(crate) enum Begin {
    Leaf(Box<Tree>),
    Prefix(Unary),
    Group,
    Bracket,
    Calls(Call),
    /// The point of an item's field.
    ItemPoint,
    NoStart,
}

/// What a token begins, inside a predicate or not.
#[tactic(auto, unfolding(crate::specs::Roles::begun_by))]
pub(crate) fn begin_of(alloc: Global, inside: bool, token: &Token) -> Result<Begin, AllocError>
    ensures { IfOk result (λ begin. start_of begin ≡ begun_by inside token.now) }
{
    let at = token.span.start;
    match &token.kind {
        TokenKind::Word(word) => word_begin(alloc, at, *word),
        TokenKind::Name(_) => Ok(Begin::NoStart),
        TokenKind::Whole(whole) => literal(alloc, at, Literal::Whole(*whole)),
        TokenKind::Decimal(decimal) => literal(alloc, at, Literal::Decimal(*decimal)),
        TokenKind::Text(text) => {
            let text = Text::of(alloc, text.as_str())?;
            literal(alloc, at, Literal::Text(text))
        }
        TokenKind::Sign(sign) => sign_begin(alloc, inside, at, *sign),
    }
}

fn leaf(alloc: Global, tree: Tree) -> Result<Begin, AllocError>
    ensures { IfOk result (λ begin. start_of begin ≡ Leaf (expression_of tree)) }
{
    Ok(Begin::Leaf(Box::new(alloc, tree)?))
}

fn literal(alloc: Global, at: usize, literal: Literal) -> Result<Begin, AllocError>
    ensures { IfOk result (λ begin. start_of begin ≡ Leaf (LiteralAt at literal)) }
{
    leaf(alloc, Tree::Literal { at, literal })
}

fn word_begin(alloc: Global, at: usize, word: Word) -> Result<Begin, AllocError>
    ensures { IfOk result (λ begin. start_of begin ≡ word_start at word) }
{
    match word {
        Word::Result => leaf(alloc, Tree::Result { at }),
        Word::True => literal(alloc, at, Literal::Bool(true)),
        Word::False => literal(alloc, at, Literal::Bool(false)),
        Word::Nil => literal(alloc, at, Literal::Nil),
        Word::Not => Ok(Begin::Prefix(Unary::Not)),
        Word::Len => Ok(Begin::Calls(Call::Len)),
        Word::IsNil => Ok(Begin::Calls(Call::IsNil)),
        Word::Default => Ok(Begin::Calls(Call::Default)),
        Word::Over(predicate) => Ok(Begin::Calls(Call::Over(predicate))),
        Word::And | Word::Or | Word::In | Word::Test(_) => Ok(Begin::NoStart),
    }
}

fn sign_begin(alloc: Global, inside: bool, at: usize, sign: Sign) -> Result<Begin, AllocError>
    ensures { IfOk result (λ begin. start_of begin ≡ sign_start inside at sign) }
{
    match sign {
        Sign::Minus => Ok(Begin::Prefix(Unary::Minus)),
        Sign::Plus => Ok(Begin::Prefix(Unary::Plus)),
        Sign::Not => Ok(Begin::Prefix(Unary::Not)),
        Sign::OpenParenthesis => Ok(Begin::Group),
        Sign::OpenBracket => Ok(Begin::Bracket),
        Sign::Hash if inside => leaf(alloc, Tree::Item { at }),
        Sign::Point if inside => Ok(Begin::ItemPoint),
        _ => Ok(Begin::NoStart),
    }
}
