//! The walk over a condition: it evaluates each part that is needed, and says what came of it.
//!
//! Each of a list's items is looked at in silence, and those that are shown again, to say what came of them: the first
//! few and the last. Where it is silent already, each item is looked at once.

ghost use Rattle.std.specs.Prelude.{◌≡◌, ◌++◌, ◌∷◌, [], None, IfOk, Ok, if◌then◌else◌};
ghost use Rattle.ar_value.specs.Value.{bool, items_of};
ghost use Rattle.ar_value.specs.View.{value_view};
ghost use Rattle.ar_machine.specs.Operand.{list_values, value_of};
ghost use Rattle.ar_tree.specs.Meaning.{literal_value, mean, over};
ghost use Rattle.ar_tree.specs.Typed as typed;
ghost use Rattle.ar_tree.specs.Views.{typed_view};
ghost use Rattle.ar_operand.specs.Operand.{Meets, operand_view};
ghost use Rattle.ar_explain.specs.Lines.{each_item_lines, earlier_lines, explained, item_lines, lines_on_item, none_seen, outcome_of, unneeded_line};
ghost use Rattle.ar_explain.specs.Operands.{apart_on};
ghost use Rattle.ar_explain.specs.Operands.{failed_on};
ghost use Rattle.ar_explain.specs.Private.Failed.{MeetsOn};
ghost use Rattle.ar_explain.specs.Private.Keeping.{with_lines};
ghost use Rattle.ar_explain.specs.Private.Places.{Explains, ExplainsFound, ExplainsOn, apart_at, earlier_at, failed_at, holds_meant, holds_on, items_failed_at, items_lines_at, lines_at, lines_on, list_meant, meant, operated, operated_apart, operated_on, over_failed_on, over_lines, over_meant, place_view, scalar_failed_at, scalar_meant, seen_view, typeds_view};
ghost use Rattle.ar_explain.specs.Views.{explanation_view, said_view};

use crate::applied::{
    Found, binary_on, field_on, inherited, operand_ref, plain, scalar_on, unary_on, without_texts,
};
use crate::explanation::{Evaluation, Explanation, Remark, said_of};
use crate::failed::Failed;
use crate::looked::{Looked, is_enough};
use crate::news::{remark_on, say_gap, say_operand, say_own, unneeded};
use crate::place::Place;
use crate::seen::Seen;
use ar_machine::operand::borrowed::{ValueRef, value_ref};
use ar_machine::operand::list::ListRef;
use ar_machine::operand::predicate::{count_with, decided};
use ar_operand::found::{answer_of, keep_found};
use ar_operand::list::list_of;
use ar_operand::operand::{Failure, Operand, boolean_of};
use ar_tree::Typed;
use ar_tree::tree::Literal;
use ar_value::operator::{BinaryOperator, Predicate, UnaryOperator};
use ar_value::text::Text;
use ar_value::value::Value;
use std::alloc::{AllocError, Global};

fn item_at<'v>(place: &Place<'v>) -> Result<Operand<'v>, Failed>
    ensures { MeetsOn operand_view result (meant (place_view place.now) typed.item) None }
{
    match place.here {
        Some(item) => Ok(Operand::Value(item)),
        None => Err(Failed::inside(Failure::IllKinded)),
    }
}

fn literal_ref(literal: &Literal) -> ValueRef<'_>
    ensures { value_of result ≡ literal_value literal.now }
{
    match literal {
        Literal::Nil => ValueRef::Nil,
        Literal::Bool(boolean) => ValueRef::Bool(*boolean),
        Literal::Whole(value) => ValueRef::Whole(*value),
        Literal::Decimal(decimal) => ValueRef::Decimal(decimal.millionths()),
        Literal::Text(text) => ValueRef::Text(text.as_str()),
    }
}

/// A part, then its own line.
#[cycle(walk)]
fn walk<'t: 'v, 'v>(
    alloc: Global,
    tree: &'t Typed,
    place: &Place<'v>,
    out: &mut Explanation<'t>,
) -> Result<Result<Operand<'v>, Failure>, AllocError>
    ensures { Explains operand_view (place_view place.now) out.old out.new result
        (meant (place_view place.now) (typed_view tree.now)) (lines_at (place_view place.now) (typed_view tree.now)) }
{
    let met = parts(alloc, tree, place, out)?;
    say_own(alloc, tree, &met, place, out)?;
    Ok(plain(met))
}

/// A part without its own line.
#[cycle(walk)]
fn parts<'t: 'v, 'v>(
    alloc: Global,
    tree: &'t Typed,
    place: &Place<'v>,
    out: &mut Explanation<'t>,
) -> Result<Result<Found<'v>, Failed>, AllocError>
    ensures { ExplainsFound (place_view place.now) out.old out.new result
        (meant (place_view place.now) (typed_view tree.now)) (failed_at (place_view place.now) (typed_view tree.now))
        (apart_at (place_view place.now) (typed_view tree.now))
        (earlier_at (place_view place.now) (typed_view tree.now)) }
{
    match tree {
        Typed::Result => Ok(Ok(Found::value(value_ref(place.value)))),
        Typed::Item => Ok(without_texts(item_at(place))),
        Typed::Literal(literal) => Ok(Ok(Found::value(literal_ref(literal)))),
        Typed::Field { owner, name } => Ok(without_texts(field(alloc, owner, name, place, out)?)),
        Typed::Unary { operator, operand } => {
            Ok(without_texts(unary(alloc, operand, *operator, place, out)?))
        }
        Typed::Binary {
            operator,
            left,
            right,
        } => binary(alloc, left, right, *operator, place, out),
        Typed::And { left, right } => Ok(without_texts(inherited(both(
            alloc, left, right, place, out,
        )?))),
        Typed::Or { left, right } => Ok(without_texts(inherited(either(
            alloc, left, right, place, out,
        )?))),
        Typed::Choice {
            condition,
            then_branch,
            else_branch,
        } => {
            let met = choice(alloc, condition, then_branch, else_branch, place, out)?;
            Ok(without_texts(inherited(met)))
        }
        Typed::List { items, .. } => Ok(without_texts(listed(alloc, &items.items, place, out)?)),
        Typed::Predicate {
            predicate,
            list,
            body,
        } => Ok(without_texts(over(alloc, list, body, *predicate, place, out)?)),
    }
}

#[cycle(walk)]
fn field<'t: 'v, 'v>(
    alloc: Global,
    owner: &'t Typed,
    name: &Text,
    place: &Place<'v>,
    out: &mut Explanation<'t>,
) -> Result<Result<Operand<'v>, Failed>, AllocError>
    ensures { ExplainsOn operand_view (place_view place.now) out.old out.new result
        (meant (place_view place.now) (typed.field (typed_view owner.now) name.now))
        (failed_at (place_view place.now) (typed.field (typed_view owner.now) name.now))
        (lines_at (place_view place.now) (typed_view owner.now)) }
{
    match walk(alloc, owner, place, out)? {
        Ok(operand) => field_on(alloc, &operand, name.as_str()),
        Err(failure) => Ok(Err(Failed::inside(failure))),
    }
}

#[cycle(walk)]
fn unary<'t: 'v, 'v>(
    alloc: Global,
    operand: &'t Typed,
    operator: UnaryOperator,
    place: &Place<'v>,
    out: &mut Explanation<'t>,
) -> Result<Result<Operand<'v>, Failed>, AllocError>
    ensures { ExplainsOn operand_view (place_view place.now) out.old out.new result
        (meant (place_view place.now) (typed.unary operator (typed_view operand.now)))
        (failed_at (place_view place.now) (typed.unary operator (typed_view operand.now)))
        (earlier_at (place_view place.now) (typed.unary operator (typed_view operand.now))) }
{
    let met = parts(alloc, operand, place, out)?;
    say_operand(alloc, operator, operand, &met, place, out)?;
    match met {
        Ok(found) => unary_on(alloc, operator, found.operand),
        Err(failed) => Ok(Err(Failed::inside(failed.failure))),
    }
}

#[cycle(walk)]
fn binary<'t: 'v, 'v>(
    alloc: Global,
    left: &'t Typed,
    right: &'t Typed,
    operator: BinaryOperator,
    place: &Place<'v>,
    out: &mut Explanation<'t>,
) -> Result<Result<Found<'v>, Failed>, AllocError>
    ensures { ExplainsFound (place_view place.now) out.old out.new result
        (meant (place_view place.now) (typed.binary operator (typed_view left.now) (typed_view right.now)))
        (failed_at (place_view place.now) (typed.binary operator (typed_view left.now) (typed_view right.now)))
        (apart_at (place_view place.now) (typed.binary operator (typed_view left.now) (typed_view right.now)))
        (earlier_at (place_view place.now) (typed.binary operator (typed_view left.now) (typed_view right.now))) }
{
    match walk(alloc, left, place, out)? {
        Ok(left) => binary_after(alloc, right, left, operator, place, out),
        Err(failure) => Ok(Err(Failed::inside(failure))),
    }
}

/// The right operand, and what the operator makes of both.
#[cycle(walk)]
fn binary_after<'t: 'v, 'v>(
    alloc: Global,
    right: &'t Typed,
    left: Operand<'v>,
    operator: BinaryOperator,
    place: &Place<'v>,
    out: &mut Explanation<'t>,
) -> Result<Result<Found<'v>, Failed>, AllocError>
    ensures { ExplainsFound (place_view place.now) out.old out.new result
        (operated operator (operand_view left.entry) (place_view place.now) (typed_view right.now))
        (operated_on operator (operand_view left.entry) (place_view place.now) (typed_view right.now))
        (operated_apart (operand_view left.entry) (place_view place.now) (typed_view right.now))
        (lines_at (place_view place.now) (typed_view right.now)) }
{
    match walk(alloc, right, place, out)? {
        Ok(right) => binary_on(alloc, operator, left, right),
        Err(failure) => Ok(Err(Failed::inside(failure))),
    }
}

/// Whether a part holds.
#[cycle(walk)]
fn holds<'t: 'v, 'v>(
    alloc: Global,
    tree: &'t Typed,
    place: &Place<'v>,
    out: &mut Explanation<'t>,
) -> Result<Result<bool, Failure>, AllocError>
    ensures { Explains (λ it. it) (place_view place.now) out.old out.new result
        (holds_meant (place_view place.now) (typed_view tree.now))
        (lines_at (place_view place.now) (typed_view tree.now)) }
{
    match walk(alloc, tree, place, out)? {
        Ok(operand) => Ok(boolean_of(&operand)),
        Err(failure) => Ok(Err(failure)),
    }
}

#[cycle(walk)]
fn both<'t: 'v, 'v>(
    alloc: Global,
    left: &'t Typed,
    right: &'t Typed,
    place: &Place<'v>,
    out: &mut Explanation<'t>,
) -> Result<Result<Operand<'v>, Failure>, AllocError>
    ensures { Explains operand_view (place_view place.now) out.old out.new result
        (meant (place_view place.now) (typed.both (typed_view left.now) (typed_view right.now)))
        (earlier_at (place_view place.now) (typed.both (typed_view left.now) (typed_view right.now))) }
{
    match holds(alloc, left, place, out)? {
        Ok(holds) => right_side(alloc, right, holds, false, place, out),
        Err(failure) => Ok(Err(failure)),
    }
}

#[cycle(walk)]
fn either<'t: 'v, 'v>(
    alloc: Global,
    left: &'t Typed,
    right: &'t Typed,
    place: &Place<'v>,
    out: &mut Explanation<'t>,
) -> Result<Result<Operand<'v>, Failure>, AllocError>
    ensures { Explains operand_view (place_view place.now) out.old out.new result
        (meant (place_view place.now) (typed.either (typed_view left.now) (typed_view right.now)))
        (earlier_at (place_view place.now) (typed.either (typed_view left.now) (typed_view right.now))) }
{
    match holds(alloc, left, place, out)? {
        Ok(holds) => right_side(alloc, right, !holds, true, place, out),
        Err(failure) => Ok(Err(failure)),
    }
}

/// The right side where it is needed, else that it isn't: there is an answer without it.
#[cycle(walk)]
fn right_side<'t: 'v, 'v>(
    alloc: Global,
    right: &'t Typed,
    is_needed: bool,
    answer: bool,
    place: &Place<'v>,
    out: &mut Explanation<'t>,
) -> Result<Result<Operand<'v>, Failure>, AllocError>
    ensures { Explains operand_view (place_view place.now) out.old out.new result
        (if is_needed then meant (place_view place.now) (typed_view right.now) else Ok (bool answer))
        (if is_needed then lines_at (place_view place.now) (typed_view right.now)
        else unneeded_line (typed_view right.now) ∷ []) }
{
    if is_needed {
        walk(alloc, right, place, out)
    } else {
        unneeded(alloc, right, answer, place, out)
    }
}

#[cycle(walk)]
fn choice<'t: 'v, 'v>(
    alloc: Global,
    condition: &'t Typed,
    then_branch: &'t Typed,
    else_branch: &'t Typed,
    place: &Place<'v>,
    out: &mut Explanation<'t>,
) -> Result<Result<Operand<'v>, Failure>, AllocError>
    ensures { Explains operand_view (place_view place.now) out.old out.new result
        (meant (place_view place.now)
        (typed.choice (typed_view condition.now) (typed_view then_branch.now) (typed_view else_branch.now)))
        (earlier_at (place_view place.now)
        (typed.choice (typed_view condition.now) (typed_view then_branch.now) (typed_view else_branch.now))) }
{
    match holds(alloc, condition, place, out)? {
        Ok(true) => then_taken(alloc, then_branch, else_branch, place, out),
        Ok(false) => else_taken(alloc, then_branch, else_branch, place, out),
        Err(failure) => Ok(Err(failure)),
    }
}

/// The first branch, and that the second isn't needed.
#[cycle(walk)]
fn then_taken<'t: 'v, 'v>(
    alloc: Global,
    then_branch: &'t Typed,
    else_branch: &'t Typed,
    place: &Place<'v>,
    out: &mut Explanation<'t>,
) -> Result<Result<Operand<'v>, Failure>, AllocError>
    ensures { Explains operand_view (place_view place.now) out.old out.new result
        (meant (place_view place.now) (typed_view then_branch.now))
        (lines_at (place_view place.now) (typed_view then_branch.now)
        ++ unneeded_line (typed_view else_branch.now) ∷ []) }
{
    let met = walk(alloc, then_branch, place, out)?;
    out.say(alloc, place, else_branch, Remark::Unneeded)?;
    Ok(met)
}

/// That the first branch isn't needed, and the second.
#[cycle(walk)]
fn else_taken<'t: 'v, 'v>(
    alloc: Global,
    then_branch: &'t Typed,
    else_branch: &'t Typed,
    place: &Place<'v>,
    out: &mut Explanation<'t>,
) -> Result<Result<Operand<'v>, Failure>, AllocError>
    ensures { Explains operand_view (place_view place.now) out.old out.new result
        (meant (place_view place.now) (typed_view else_branch.now))
        (unneeded_line (typed_view then_branch.now) ∷ []
        ++ lines_at (place_view place.now) (typed_view else_branch.now)) }
{
    out.say(alloc, place, then_branch, Remark::Unneeded)?;
    walk(alloc, else_branch, place, out)
}

/// The list of the items of a list literal.
#[cycle(walk)]
fn listed<'t: 'v, 'v>(
    alloc: Global,
    items: &'t [Typed],
    place: &Place<'v>,
    out: &mut Explanation<'t>,
) -> Result<Result<Operand<'v>, Failed>, AllocError>
    ensures { ExplainsOn operand_view (place_view place.now) out.old out.new result
        (list_meant (place_view place.now) (typeds_view items.now))
        (items_failed_at (place_view place.now) (typeds_view items.now))
        (items_lines_at (place_view place.now) (typeds_view items.now)) }
{
    let mut made = Vec::new(alloc);
    for item in items {
        match scalar(alloc, item, place, out)? {
            Ok(value) => made.push(value)?,
            Err(failed) => return Ok(Err(failed)),
        }
    }
    Ok(Ok(Operand::Made(made)))
}

/// An item of a list literal.
#[cycle(walk)]
fn scalar<'t: 'v, 'v>(
    alloc: Global,
    item: &'t Typed,
    place: &Place<'v>,
    out: &mut Explanation<'t>,
) -> Result<Result<ValueRef<'v>, Failed>, AllocError>
    ensures { ExplainsOn value_of (place_view place.now) out.old out.new result
        (scalar_meant (place_view place.now) (typed_view item.now))
        (scalar_failed_at (place_view place.now) (typed_view item.now))
        (lines_at (place_view place.now) (typed_view item.now)) }
{
    match walk(alloc, item, place, out)? {
        Ok(operand) => scalar_on(alloc, &operand),
        Err(failure) => Ok(Err(Failed::inside(failure))),
    }
}

/// A predicate over the items of a list.
#[cycle(walk)]
fn over<'t: 'v, 'v>(
    alloc: Global,
    list: &'t Typed,
    body: &'t Typed,
    predicate: Predicate,
    place: &Place<'v>,
    out: &mut Explanation<'t>,
) -> Result<Result<Operand<'v>, Failed>, AllocError>
    ensures { ExplainsOn operand_view (place_view place.now) out.old out.new result
        (meant (place_view place.now) (typed.predicate predicate (typed_view list.now) (typed_view body.now)))
        (failed_at (place_view place.now) (typed.predicate predicate (typed_view list.now) (typed_view body.now)))
        (earlier_at (place_view place.now)
        (typed.predicate predicate (typed_view list.now) (typed_view body.now))) }
{
    match walk(alloc, list, place, out)? {
        Ok(many) => over_operand(alloc, body, &many, predicate, place, out),
        Err(failure) => Ok(Err(Failed::inside(failure))),
    }
}

#[cycle(walk)]
fn over_operand<'t: 'v, 'v>(
    alloc: Global,
    body: &'t Typed,
    many: &Operand<'v>,
    predicate: Predicate,
    place: &Place<'v>,
    out: &mut Explanation<'t>,
) -> Result<Result<Operand<'v>, Failed>, AllocError>
    ensures { ExplainsOn operand_view (place_view place.now) out.old out.new result
        (over_meant predicate (operand_view many.now) (place_view place.now) (typed_view body.now))
        (over_failed_on (operand_view many.now))
        (over_lines predicate (operand_view many.now) (place_view place.now) (typed_view body.now)) }
{
    match list_of(many) {
        Ok(list) => Ok(inherited(each_item(alloc, body, list, predicate, place, out)?)),
        Err(failure) => Ok(Err(Failed::on_operand(alloc, failure, operand_ref(many))?)),
    }
}

/// The items of a list, until one decides or fails.
#[cycle(walk)]
fn each_item<'t: 'v, 'v>(
    alloc: Global,
    body: &'t Typed,
    list: ListRef<'_, 'v>,
    predicate: Predicate,
    place: &Place<'v>,
    out: &mut Explanation<'t>,
) -> Result<Result<Operand<'v>, Failure>, AllocError>
    ensures { Explains operand_view (place_view place.now) out.old out.new result
        (over predicate (holds_on (place_view place.now) (typed_view body.now)) (items_of (list_values list.entry)))
        (each_item_lines predicate (typed_view body.now) (holds_on (place_view place.now) (typed_view body.now))
        (lines_on (place_view place.now) (typed_view body.now)) none_seen 0 (items_of (list_values list.entry))) }
{
    let mut counted = 0;
    let mut kept = Vec::new(alloc);
    let mut seen = Seen::none();
    let len = list.len();
    for number in 0..len {
        let looked = Looked {
            predicate,
            number,
            item: list.item(number),
            at_end: number + 1 == len,
            seen,
        };
        match look(alloc, body, looked, place, out)? {
            Ok(holds) => match decided(predicate, holds) {
                Some(answer) => return Ok(Ok(Operand::boolean(answer))),
                None => {
                    counted = count_with(predicate, holds, counted);
                    keep_found(predicate, holds, looked.item, &mut kept)?;
                    seen = seen.after(predicate, holds);
                }
            },
            Err(failure) => return Ok(Err(failure)),
        }
    }
    Ok(Ok(answer_of(predicate, counted, kept)))
}

/// Whether a body holds of an item. Where the item is shown, what came of it is said after the gap before it.
#[cycle(walk)]
fn look<'t: 'v, 'v>(
    alloc: Global,
    body: &'t Typed,
    looked: Looked<'v>,
    place: &Place<'v>,
    out: &mut Explanation<'t>,
) -> Result<Result<bool, Failure>, AllocError>
    ensures { Explains (λ it. it) (place_view place.now) out.old out.new result
        (holds_on (place_view place.now) (typed_view body.now) (value_of looked.entry.item))
        (item_lines looked.entry.predicate (typed_view body.now) (seen_view looked.entry.seen) looked.entry.number
        looked.entry.at_end
        (holds_on (place_view place.now) (typed_view body.now) (value_of looked.entry.item))
        (lines_on (place_view place.now) (typed_view body.now) (value_of looked.entry.item))) }
{
    let holds = holds_at(alloc, body, looked, place, true, out)?;
    if is_enough(looked, place, &holds) {
        return Ok(holds);
    }
    say_gap(alloc, body, looked.seen, place, out)?;
    holds_at(alloc, body, looked, place, false, out)
}

/// Whether a body holds of an item. Unless it is silent, the item is shown, and then what came of the body's parts.
#[cycle(walk)]
fn holds_at<'t: 'v, 'v>(
    alloc: Global,
    body: &'t Typed,
    looked: Looked<'v>,
    place: &Place<'v>,
    silent: bool,
    out: &mut Explanation<'t>,
) -> Result<Result<bool, Failure>, AllocError>
    ensures { IfOk result (λ holds.
        Meets (λ it. it) holds (holds_on (place_view place.now) (typed_view body.now) (value_of looked.entry.item))
        × (explanation_view out.new ≡ with_lines silent place.now.items.items (explanation_view out.old)
        (lines_on_item looked.entry.number
        (lines_on (place_view place.now) (typed_view body.now) (value_of looked.entry.item))))) }
{
    let inner = place.on_item(alloc, looked.number, looked.item, silent)?;
    out.say(alloc, &inner, body, Remark::Item(looked.item))?;
    holds(alloc, body, &inner, out)
}

/// What is said of the evaluation of a condition on a value: the lines of its parts, and its answer.
///
/// # Errors
///
/// Out of memory alone.
pub fn tell<'t>(
    alloc: Global,
    condition: &'t Typed,
    value: &Value,
) -> Result<Evaluation<'t>, AllocError>
    ensures parts { IfOk result (λ evaluation. explanation_view evaluation.parts
        ≡ explained (earlier_lines (value_view value.now) None (typed_view condition.now))) }
    ensures answer { IfOk result (λ evaluation. said_view evaluation.answer
        ≡ outcome_of (mean (value_view value.now) None (typed_view condition.now))
        (failed_on (value_view value.now) None (typed_view condition.now))
        (apart_on (value_view value.now) None (typed_view condition.now))) }
{
    let place = Place::outermost(alloc, value);
    let mut parts_said = Explanation::new(alloc);
    let met = parts(alloc, condition, &place, &mut parts_said)?;
    let answer = said_of(alloc, remark_on(&met))?;
    Ok(Evaluation {
        parts: parts_said,
        answer,
    })
}
