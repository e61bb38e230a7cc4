//! What operations send on.

ghost use Rattle.std.specs.Prelude.{◌≡◌, ◌+◌, ◌<◌, ◌≤◌, ◌∷◌, [], IfOk, MatchOption, Ok, OnOk, option_map};
ghost use Rattle.ar_value.specs.View.{shape_view};
ghost use Rattle.ar_value.specs.Limits.{most_operands};
ghost use Rattle.ar_safety.specs.Arrivals.{answer_kind, deepest, innermost_shape, lacks, operands};
ghost use Rattle.ar_safety.specs.Effects.{kinds_left};
ghost use Rattle.ar_verify.specs.Private.Failures.{Meets};
ghost use Rattle.ar_verify.specs.Private.Held.{around_view, counted, from_innermost, operands_view};
ghost use Rattle.ar_verify.specs.Private.Kinds.{parts_kind, list_view};
ghost use Rattle.ar_verify.specs.Private.Sending.{around, beginning, begun, branched, ending, given_on_top, going_on, jumping, kept_or_taken, list_taken, only_boolean, passed_by, or_ill_kinded, returning, sends_by, sends_view, stepping, boolean_taken};
ghost use Rattle.ar_verify.specs.Private.Shapes.{list_of};
ghost use Rattle.ar_verify.specs.Private.Stacks.{from_top};

use crate::effect::{apply, takes_scalar};
use crate::failure::Failure;
use crate::kind::{Kind, into_list, kind_of_list};
use crate::list::ListShape;
use crate::operands::{Around, Operands};
use crate::parts::Parts;
use crate::stack::{pop, push};
use crate::whole::{ShapeName, Whole};
use ar_op::code::Code;
use ar_op::op::{Jump, Op, Source};
use ar_safety::Reason;
use ar_value::holding::try_push;
use ar_value::limits::MOST_OPERANDS;
use ar_value::operator::{Predicate, Scalar};
use ar_value::shape::Shape;
use std::alloc::{AllocError, Global};

/// Operands on the way to an index.
#[derive(Drop)]
pub(crate) struct Sent<M: ShapeName> {
    pub target: usize,
    pub operands: Operands<M>,
}

/// What an operation sends on, in the order in which it arrives.
#[derive(Drop)]
pub(crate) enum Sends<M: ShapeName> {
    Nothing,
    One(Sent<M>),
    Two(Sent<M>, Sent<M>),
}

/// Takes a boolean.
fn take_boolean<M: ShapeName>(kinds: &mut Vec<Kind<M>>) -> Result<(), Failure>
    ensures { Meets (λ _. from_top kinds.new.items) result (boolean_taken (from_top kinds.old.items)) }
{
    if takes_scalar(Scalar::Bool, kinds) {
        Ok(())
    } else {
        Err(Failure::Fault(Reason::IllKinded))
    }
}

/// Takes a list.
fn take_list<M: ShapeName>(kinds: &mut Vec<Kind<M>>) -> Result<ListShape<M>, Failure>
    ensures { Meets (λ list. (list_view list, from_top kinds.new.items)) result
        (list_taken (from_top kinds.old.items)) }
{
    match pop(kinds) {
        Some(operand) => into_list(operand).ok_or(Failure::Fault(Reason::IllKinded)),
        None => Err(Failure::Fault(Reason::IllKinded)),
    }
}

/// What a loop gives over a list.
fn answer_kind<M: ShapeName>(
    alloc: Global,
    predicate: Predicate,
    list: &ListShape<M>,
) -> Result<Kind<M>, AllocError>
    ensures { IfOk result
        (λ answer. parts_kind answer ≡ answer_kind predicate (list_view list.now).0 (list_view list.now).1) }
{
    match predicate {
        Predicate::All | Predicate::Any | Predicate::None | Predicate::One => {
            Kind::made(alloc, Shape::Bool)
        }
        Predicate::Count => Kind::made(alloc, Shape::Whole),
        Predicate::Filter => kind_of_list(list),
    }
}

fn push_loop<M: ShapeName>(
    loops: &mut Vec<Around<M>>,
    innermost: Around<M>,
) -> Result<(), AllocError>
    ensures { OnOk result
        (from_innermost loops.new.items ≡ around_view innermost ∷ from_innermost loops.old.items) }
{
    try_push(loops, innermost)
}

fn pop_loop<M: ShapeName>(loops: &mut Vec<Around<M>>) -> Option<Around<M>>
    ensures { MatchOption result (from_innermost loops.old.items ≡ [])
        (λ popped. from_innermost loops.old.items ≡ around_view popped ∷ from_innermost loops.new.items) }
{
    loops.pop()
}

/// The shape of the innermost loop's list.
fn innermost<'a, M: ShapeName>(loops: &'a [Around<M>]) -> Option<&'a Parts<M>>
    ensures { option_map (λ list. (list_of list.now).0) result ≡ innermost_shape (from_innermost loops.now) }
{
    Some(&loops.last()?.list.parts)
}

/// Jumps to `target` with the boolean on top, or continues without it.
fn keep_or_take<M: ShapeName>(
    alloc: Global,
    next: usize,
    target: u32,
    mut had: Operands<M>,
) -> Result<Sends<M>, Failure>
    ensures { Meets sends_view result
        (kept_or_taken next target (operands_view had).kinds (operands_view had).loops) }
{
    let kept = had.copy(alloc)?;
    take_boolean(&mut had.kinds)?;
    Ok(Sends::Two(
        Sent {
            target: target as usize,
            operands: kept,
        },
        Sent {
            target: next,
            operands: had,
        },
    ))
}

/// Jumps to `target` or continues, without the boolean on top.
fn branch<M: ShapeName>(
    alloc: Global,
    next: usize,
    target: u32,
    mut had: Operands<M>,
) -> Result<Sends<M>, Failure>
    ensures { Meets sends_view result
        (branched next target (operands_view had).kinds (operands_view had).loops) }
{
    take_boolean(&mut had.kinds)?;
    let taken = had.copy(alloc)?;
    Ok(Sends::Two(
        Sent {
            target: target as usize,
            operands: taken,
        },
        Sent {
            target: next,
            operands: had,
        },
    ))
}

/// Jumps to the target, or continues.
fn jump<M: ShapeName>(
    alloc: Global,
    jump: Jump,
    next: usize,
    target: u32,
    had: Operands<M>,
) -> Result<Sends<M>, Failure>
    ensures { Meets sends_view result
        (jumping jump next target (operands_view had).kinds (operands_view had).loops) }
{
    match jump {
        Jump::And | Jump::Or => keep_or_take(alloc, next, target, had),
        Jump::Branch => branch(alloc, next, target, had),
        Jump::Always => Ok(Sends::One(Sent {
            target: target as usize,
            operands: had,
        })),
    }
}

/// Operands at the begin of the body of a loop over a list, where there are none above its floor.
fn inside<M: ShapeName>(
    alloc: Global,
    list: ListShape<M>,
    had: Operands<M>,
) -> Result<Operands<M>, AllocError>
    ensures { IfOk result (λ inside. operands_view inside
        ≡ operands [] (around (list_view list, (operands_view had).kinds) ∷ (operands_view had).loops)) }
{
    let Operands { kinds, mut loops } = had;
    push_loop(&mut loops, Around { list, below: kinds })?;
    Ok(Operands {
        kinds: Vec::new(alloc),
        loops,
    })
}

/// Operands after a loop over a list, with its answer on top.
fn later<M: ShapeName>(
    alloc: Global,
    predicate: Predicate,
    list: &ListShape<M>,
    mut below: Vec<Kind<M>>,
) -> Result<Vec<Kind<M>>, AllocError>
    ensures { IfOk result (λ kinds. from_top kinds.items
        ≡ answer_kind predicate (list_view list.now).0 (list_view list.now).1 ∷ from_top below.items) }
{
    let answer = answer_kind(alloc, predicate, list)?;
    push(&mut below, answer)?;
    Ok(below)
}

/// Operands after a loop over a list, with its answer on top of those that were there.
fn skip_loop<M: ShapeName>(
    alloc: Global,
    predicate: Predicate,
    list: &ListShape<M>,
    had: &Operands<M>,
) -> Result<Operands<M>, AllocError>
    ensures { IfOk result (λ skipped. operands_view skipped ≡ operands
        (answer_kind predicate (list_view list.now).0 (list_view list.now).1 ∷ (operands_view had.now).kinds)
        (operands_view had.now).loops) }
{
    let Operands { kinds, loops } = had.copy(alloc)?;
    let kinds = later(alloc, predicate, list, kinds)?;
    Ok(Operands { kinds, loops })
}

/// Begins a loop over a list that was on top, or continues after it with its answer.
fn begin_loop<M: ShapeName>(
    alloc: Global,
    predicate: Predicate,
    next: usize,
    later: usize,
    list: ListShape<M>,
    had: Operands<M>,
) -> Result<Sends<M>, AllocError>
    ensures { IfOk result (λ sends. sends_view sends
        ≡ begun predicate next later (list_view list, (operands_view had).kinds) (operands_view had).loops) }
{
    let skipped = skip_loop(alloc, predicate, &list, &had)?;
    let body = inside(alloc, list, had)?;
    Ok(Sends::Two(
        Sent {
            target: next,
            operands: body,
        },
        Sent {
            target: later,
            operands: skipped,
        },
    ))
}

/// Begins a loop over the list on top, or continues after it with its answer.
fn enter<M: ShapeName>(
    alloc: Global,
    predicate: Predicate,
    next: usize,
    step: u32,
    mut had: Operands<M>,
) -> Result<Sends<M>, Failure>
    ensures { Meets sends_view result
        (beginning predicate next (step + 1) (operands_view had).kinds (operands_view had).loops) }
{
    let list = take_list(&mut had.kinds)?;
    Ok(begin_loop(alloc, predicate, next, step as usize + 1, list, had)?)
}

/// Takes the boolean of a loop's body, which has to be alone above the floor.
fn take_answer<M: ShapeName>(mut kinds: Vec<Kind<M>>) -> Result<(), Failure>
    ensures exact { Meets (λ _. []) result (only_boolean (from_top kinds.items)) }
    ensures taken { OnOk result (boolean_taken (from_top kinds.items) ≡ Ok []) }
{
    take_boolean(&mut kinds)?;
    if kinds.is_empty() {
        Ok(())
    } else {
        Err(Failure::Fault(Reason::BadMerge))
    }
}

/// Continues after the innermost loop, with its answer.
fn end_loop<M: ShapeName>(
    alloc: Global,
    predicate: Predicate,
    next: usize,
    mut loops: Vec<Around<M>>,
) -> Result<Sends<M>, Failure>
    ensures { Meets sends_view result (ending predicate next [] (from_innermost loops.items)) }
{
    let Some(Around { list, below }) = pop_loop(&mut loops) else {
        return Err(Failure::Fault(Reason::BadMerge));
    };
    let kinds = later(alloc, predicate, &list, below)?;
    Ok(Sends::One(Sent {
        target: next,
        operands: Operands { kinds, loops },
    }))
}

/// Continues after a loop, where nothing but the boolean of its body is above its floor.
fn step<M: ShapeName>(
    alloc: Global,
    predicate: Predicate,
    next: usize,
    had: Operands<M>,
) -> Result<Sends<M>, Failure>
    ensures { Meets sends_view result
        (stepping predicate next (operands_view had).kinds (operands_view had).loops) }
{
    take_answer(had.kinds)?;
    end_loop(alloc, predicate, next, had.loops)
}

/// Ends with the boolean on top.
fn answer<M: ShapeName>(mut had: Operands<M>) -> Result<Sends<M>, Failure>
    ensures { Meets sends_view result (returning (operands_view had).kinds) }
{
    take_boolean(&mut had.kinds)?;
    Ok(Sends::Nothing)
}

/// Pushes what an operation gives, unless it doesn't take its operands.
fn push_given<M: ShapeName>(kinds: &mut Vec<Kind<M>>, given: Option<Kind<M>>) -> Result<(), Failure>
    ensures { Meets (λ _. from_top kinds.new.items) result
        (given_on_top (option_map parts_kind given) (from_top kinds.old.items)) }
{
    let Some(given) = given else {
        return Err(Failure::Fault(Reason::IllKinded));
    };
    Ok(push(kinds, given)?)
}

/// Performs an operation that continues at the next index, of the operands above the floor.
fn perform<M: ShapeName>(
    alloc: Global,
    code: &Code,
    measured: &Whole<M>,
    here: Option<&Parts<M>>,
    op: Op,
    kinds: &mut Vec<Kind<M>>,
) -> Result<(), Failure>
    ensures { Meets (λ _. from_top kinds.new.items) result (or_ill_kinded
        (kinds_left code.now (shape_view M.shape) (option_map (λ list. (list_of list.now).0) here.entry) op
        (from_top kinds.old.items))) }
{
    let given = apply(alloc, code, measured, here, op, kinds)?;
    push_given(kinds, given)
}

/// Continues at the next index.
fn go_on<M: ShapeName>(
    alloc: Global,
    code: &Code,
    measured: &Whole<M>,
    next: usize,
    op: Op,
    mut had: Operands<M>,
) -> Result<Sends<M>, Failure>
    ensures { Meets sends_view result (going_on next (operands_view had).loops
        (kinds_left code.now (shape_view M.shape) (innermost_shape (operands_view had).loops) op
        (operands_view had).kinds)) }
{
    let here = innermost(&had.loops);
    perform(alloc, code, measured, here, op, &mut had.kinds)?;
    Ok(Sends::One(Sent {
        target: next,
        operands: had,
    }))
}

fn passed_on<M: ShapeName>(
    alloc: Global,
    code: &Code,
    measured: &Whole<M>,
    next: usize,
    op: Op,
    had: Operands<M>,
) -> Result<Sends<M>, Failure>
    ensures { Meets sends_view result (passed_by code.now (shape_view M.shape) next op
        (operands_view had).kinds (operands_view had).loops) }
{
    match op {
        Op::Push(_) | Op::MakeList { .. } | Op::Field(_) | Op::Unary(_) | Op::Binary(_) => {
            go_on(alloc, code, measured, next, op, had)
        }
        Op::Jump(kind, target) => jump(alloc, kind, next, target, had),
        Op::Enter(predicate, end) => enter(alloc, predicate, next, end, had),
        Op::Step(predicate, _) => step(alloc, predicate, next, had),
        Op::Return => answer(had),
    }
}

/// Whether an operand is missing above the floor, or the item.
fn lacks<M: ShapeName>(op: Op, had: &Operands<M>) -> bool
    ensures { result ≡ lacks op (operands_view had.now) }
{
    match op {
        Op::Push(Source::Item) => innermost(&had.loops).is_none(),
        _ => had.kinds.len() < op.takes(),
    }
}

impl<M: ShapeName> Sends<M> {
    /// The greatest number of operands on the way.
    pub(crate) fn deepest(&self) -> usize
        ensures { result ≡ counted (deepest (sends_view self.now)) }
    {
        match self {
            Sends::Nothing => 0,
            Sends::One(only) => only.operands.height(),
            Sends::Two(first, second) => {
                let height = first.operands.height();
                height.max(second.operands.height())
            }
        }
    }
}

/// What an operation sends on, of operands that arrived.
pub(crate) fn send_on<M: ShapeName>(
    alloc: Global,
    code: &Code,
    measured: &Whole<M>,
    next: usize,
    op: Op,
    had: Operands<M>,
) -> Result<Sends<M>, Failure>
    ensures exact { Meets sends_view result
        (sends_by code.now (shape_view M.shape) next op (operands_view had)) }
    ensures shallow { IfOk result (λ sends. deepest (sends_view sends) ≤ most_operands) }
{
    if lacks(op, &had) {
        return Err(Failure::Fault(Reason::MissingOperand));
    }
    let sends = passed_on(alloc, code, measured, next, op, had)?;
    if sends.deepest() > MOST_OPERANDS {
        return Err(Failure::Fault(Reason::StackTooDeep));
    }
    Ok(sends)
}
