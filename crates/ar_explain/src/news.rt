//! Which parts have lines of their own.

ghost use Rattle.std.specs.Prelude.{◌≡◌, ◌∷◌, [], Ok, OnOk};
ghost use Rattle.ar_value.specs.Value.{bool};
ghost use Rattle.ar_tree.specs.Views.{typed_view};
ghost use Rattle.ar_operand.specs.Operand.{operand_view};
ghost use Rattle.ar_explain.specs.Lines.{changes_value, gap_lines, is_literal, is_missing, operand_own_lines, own_lines, outcome_of, says_more, unneeded_line};
ghost use Rattle.ar_explain.specs.Private.Failed.{came, came_apart, came_on, found_view};
ghost use Rattle.ar_explain.specs.Private.Places.{Explains, place_view, said_by, seen_view, with_lines_at};
ghost use Rattle.ar_explain.specs.Views.{explanation_view};

use crate::applied::Found;
use crate::explanation::{Explanation, Remark};
use crate::failed::Failed;
use crate::place::Place;
use crate::seen::Seen;
use ar_machine::operand::borrowed::ValueRef;
use ar_operand::operand::{Failure, Operand};
use ar_tree::Typed;
use ar_value::operator::UnaryOperator;
use std::alloc::{AllocError, Global};

fn is_literal(tree: &Typed) -> bool
    ensures { result ≡ is_literal (typed_view tree.now) }
{
    matches!(tree, Typed::Literal(_))
}

fn changes_value(operator: UnaryOperator, of_literal: bool) -> bool
    ensures { result ≡ changes_value operator of_literal }
{
    match operator {
        UnaryOperator::Need | UnaryOperator::ToDecimal => false,
        UnaryOperator::Len | UnaryOperator::IsNil | UnaryOperator::Not => true,
        UnaryOperator::Negate(_) => !of_literal,
    }
}

/// Whether the value of a part is news.
fn says_more(tree: &Typed) -> bool
    ensures { result ≡ says_more (typed_view tree.now) }
{
    match tree {
        Typed::Result | Typed::Item | Typed::Literal(_) | Typed::List { .. } => false,
        Typed::Unary { operator, operand } => changes_value(*operator, is_literal(operand)),
        Typed::Field { .. }
        | Typed::Binary { .. }
        | Typed::And { .. }
        | Typed::Or { .. }
        | Typed::Choice { .. }
        | Typed::Predicate { .. } => true,
    }
}

/// What came of a part.
pub(crate) fn remark_on<'s, 'v>(met: &'s Result<Found<'v>, Failed>) -> Remark<'s, 'v>
    ensures { said_by result ≡ outcome_of (came found_view met.now) (came_on met.now) (came_apart met.now) }
{
    match met {
        Ok(found) => Remark::Value(&found.operand, found.texts),
        Err(failed) => Remark::Failure(failed.failure, failed.text()),
    }
}

/// Says what came of a part, where it is news.
pub(crate) fn say_own<'t>(
    alloc: Global,
    tree: &'t Typed,
    met: &Result<Found<'_>, Failed>,
    place: &Place<'_>,
    out: &mut Explanation<'t>,
) -> Result<(), AllocError>
    ensures { OnOk result (explanation_view out.new ≡ with_lines_at (place_view place.now) out.old
        (own_lines (typed_view tree.now) (came found_view met.now) (came_on met.now) (came_apart met.now))) }
{
    if met.is_ok() && !says_more(tree) {
        return Ok(());
    }
    out.say(alloc, place, tree, remark_on(met))
}

/// Whether an operator's failure says of its operand that it is nil.
fn is_missing(operator: UnaryOperator, met: &Result<Found<'_>, Failed>) -> bool
    ensures { result ≡ is_missing operator (came found_view met.now) }
{
    match met {
        Ok(found) => {
            matches!(operator, UnaryOperator::Need)
                && matches!(found.operand, Operand::Value(ValueRef::Nil))
        }
        Err(_) => false,
    }
}

/// Says what came of the operand of an operator, where it is news and the operator's failure doesn't say it.
pub(crate) fn say_operand<'t>(
    alloc: Global,
    operator: UnaryOperator,
    tree: &'t Typed,
    met: &Result<Found<'_>, Failed>,
    place: &Place<'_>,
    out: &mut Explanation<'t>,
) -> Result<(), AllocError>
    ensures { OnOk result (explanation_view out.new ≡ with_lines_at (place_view place.now) out.old
        (operand_own_lines operator (typed_view tree.now) (came found_view met.now) (came_on met.now)
        (came_apart met.now))) }
{
    if is_missing(operator, met) {
        return Ok(());
    }
    say_own(alloc, tree, met, place, out)
}

/// Says of a part that it isn't needed, since a boolean is the answer without it.
pub(crate) fn unneeded<'t, 'v>(
    alloc: Global,
    part: &'t Typed,
    answer: bool,
    place: &Place<'_>,
    out: &mut Explanation<'t>,
) -> Result<Result<Operand<'v>, Failure>, AllocError>
    ensures { Explains operand_view (place_view place.now) out.old out.new result
        (Ok (bool answer)) (unneeded_line (typed_view part.now) ∷ []) }
{
    out.say(alloc, place, part, Remark::Unneeded)?;
    Ok(Ok(Operand::boolean(answer)))
}

/// Says of a predicate's body how many items aren't shown before the next that is, if there are some.
pub(crate) fn say_gap<'t>(
    alloc: Global,
    body: &'t Typed,
    seen: Seen,
    place: &Place<'_>,
    out: &mut Explanation<'t>,
) -> Result<(), AllocError>
    ensures { OnOk result (explanation_view out.new ≡ with_lines_at (place_view place.now) out.old
        (gap_lines (typed_view body.now) (seen_view seen))) }
{
    if seen.items == 0 {
        return Ok(());
    }
    out.say(alloc, place, body, Remark::Passed(seen))
}
