//! Whether a typed tree fits into code.

ghost use Rattle.std.specs.Prelude.{◌≤◌};
ghost use Rattle.std.specs.Bool.{Decides};
ghost use Rattle.ar_value.specs.Limits.{most_literal_items};
ghost use Rattle.ar_tree.specs.Limits.{AllInLimits, InLimits, IsShortLiteral};
ghost use Rattle.ar_tree.specs.Typed.{how_many};
ghost use Rattle.ar_tree.specs.Views.{typed_view};
ghost use Rattle.ar_compile.specs.Private.Trees.{items_view};

use ar_tree::Typed;
use ar_tree::tree::Literal;
use ar_value::limits::{MOST_LITERAL_ITEMS, MOST_TEXT_BYTES};

fn is_short(literal: &Literal) -> bool
    ensures { Decides result (IsShortLiteral literal.now) }
{
    match literal {
        Literal::Text(text) => text.as_str().len() <= MOST_TEXT_BYTES,
        Literal::Nil | Literal::Bool(_) | Literal::Whole(_) | Literal::Decimal(_) => true,
    }
}

/// Whether list literals have at most 16 items, and texts and names at most 4,096 bytes.
#[cycle(limits)]
pub fn in_limits(tree: &Typed) -> bool
    ensures { Decides result (InLimits (typed_view tree.now)) }
{
    match tree {
        Typed::Result | Typed::Item => true,
        Typed::Literal(literal) => is_short(literal),
        Typed::Field { owner, name } => in_limits(owner) && name.as_str().len() <= MOST_TEXT_BYTES,
        Typed::Unary { operand, .. } => in_limits(operand),
        Typed::Binary { left, right, .. } => in_limits(left) && in_limits(right),
        Typed::And { left, right } | Typed::Or { left, right } => {
            in_limits(left) && in_limits(right)
        }
        Typed::Choice {
            condition,
            then_branch,
            else_branch,
        } => { in_limits(condition) && in_limits(then_branch) && in_limits(else_branch) }
        Typed::List { items, .. } => { all_in_limits(&items.items) && is_few(&items.items) }
        Typed::Predicate { list, body, .. } => in_limits(list) && in_limits(body),
    }
}

#[tactic(auto, using(crate::proofs::Sequences::as_many))]
fn is_few(items: &[Typed]) -> bool
    ensures { Decides result (how_many (items_view items.now) ≤ most_literal_items) }
{
    items.len() <= MOST_LITERAL_ITEMS
}

#[cycle(limits)]
#[tactic(auto, using(crate::proofs::Sequences::all_agree, crate::proofs::Sequences::others_agree, crate::proofs::Sequences::one_is_outside, crate::proofs::Sequences::all_are_inside))]
fn all_in_limits(items: &[Typed]) -> bool
    ensures { Decides result (AllInLimits (items_view items.now)) }
{
    for item in items {
        if !in_limits(item) {
            return false;
        }
    }
    true
}
