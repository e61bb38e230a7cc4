//! Compiling a typed tree, operands in order.

ghost use Rattle.std.specs.Prelude.{◌≡◌, ◌+◌, ◌<◌, ◌≤◌, IfOk, OnOk};
ghost use Rattle.ar_value.specs.Limits.{most_code_entries, most_literal_items};
ghost use Rattle.ar_tree.specs.Limits.{AllInLimits, InLimits};
ghost use Rattle.ar_tree.specs.Typed.{how_many};
ghost use Rattle.ar_tree.specs.Typed as typed;
ghost use Rattle.ar_tree.specs.Views.{typed_view};
ghost use Rattle.ar_op.specs.declared.op.Op.TheVariants.{MakeList, Jump as JumpTo};
ghost use Rattle.ar_compile.specs.Answer.{CompilesTo};
ghost use Rattle.ar_compile.specs.Compiled.{compiled};
ghost use Rattle.ar_compile.specs.Length.{length_of, operations, operations_of_items};
ghost use Rattle.ar_compile.specs.Private.Drafts.{drafted, drafted_items, jumps_on, draft_index, with_field, with_literal, with_op};
ghost use Rattle.ar_compile.specs.Private.Trees.{items_view};

use crate::draft::Draft;
use crate::error::CompileError;
use crate::length::room_after;
use ar_op::op::{Jump, Source};
use ar_op::{Code, Op};
use ar_tree::Typed;
use ar_tree::tree::Literal;
use ar_value::limits::MOST_CODE_ENTRIES;
use ar_value::operator::{Predicate, Scalar};
use std::alloc::{AllocError, Global};

fn put_literal(alloc: Global, draft: &mut Draft, literal: &Literal) -> Result<(), AllocError>
    requires { draft_index draft.old ≤ most_code_entries }
    ensures { OnOk result (draft.new ≡ with_literal literal.now draft.old) }
{
    match literal {
        Literal::Nil => draft.push(Op::Push(Source::Nil)),
        Literal::Bool(boolean) => draft.push(Op::Push(Source::Bool(*boolean))),
        Literal::Whole(value) => draft.push(Op::Push(Source::Whole(*value))),
        Literal::Decimal(decimal) => draft.push(Op::Push(Source::Decimal(decimal.millionths()))),
        Literal::Text(text) => draft.push_text(alloc, text.as_str()),
    }
}

/// The code of a tree, after what is there.
#[cycle(compiler)]
pub(crate) fn put(alloc: Global, draft: &mut Draft, tree: &Typed) -> Result<(), AllocError>
    requires { (InLimits (typed_view tree.now))
        × (draft_index draft.old + operations (typed_view tree.now) ≤ most_code_entries) }
    ensures { OnOk result (draft.new ≡ drafted (typed_view tree.now) draft.old) }
{
    match tree {
        Typed::Result => draft.push(Op::Push(Source::Result)),
        Typed::Item => draft.push(Op::Push(Source::Item)),
        Typed::Literal(literal) => put_literal(alloc, draft, literal),
        Typed::Field { owner, name } => put_field(alloc, draft, owner, name.as_str()),
        Typed::Unary { operator, operand } => {
            put_one(alloc, draft, operand, Op::Unary(*operator))
        }
        Typed::Binary {
            operator,
            left,
            right,
        } => put_two(alloc, draft, left, right, Op::Binary(*operator)),
        Typed::And { left, right } => put_sides(alloc, draft, Jump::And, left, right),
        Typed::Or { left, right } => put_sides(alloc, draft, Jump::Or, left, right),
        Typed::Choice {
            condition,
            then_branch,
            else_branch,
        } => put_choice(alloc, draft, condition, then_branch, else_branch),
        Typed::List { scalar, items } => put_list(alloc, draft, *scalar, &items.items),
        Typed::Predicate {
            predicate,
            list,
            body,
        } => put_loop(alloc, draft, *predicate, list, body),
    }
}

/// A record, and the operation that takes its field.
#[cycle(compiler)]
#[tactic(auto, using(crate::proofs::Drafts::drafted_length))]
fn put_field(alloc: Global, draft: &mut Draft, owner: &Typed, name: &str) -> Result<(), AllocError>
    requires { (InLimits (typed_view owner.now))
        × (draft_index draft.old + operations (typed_view owner.now) ≤ most_code_entries) }
    ensures { OnOk result (draft.new ≡ with_field name.now (drafted (typed_view owner.now) draft.old)) }
{
    put(alloc, draft, owner)?;
    draft.push_field(alloc, name)
}

/// An operand, and the operation on it.
#[cycle(compiler)]
fn put_one(alloc: Global, draft: &mut Draft, operand: &Typed, op: Op) -> Result<(), AllocError>
    requires { (InLimits (typed_view operand.now))
        × (draft_index draft.old + operations (typed_view operand.now) ≤ most_code_entries) }
    ensures { OnOk result (draft.new ≡ with_op op (drafted (typed_view operand.now) draft.old)) }
{
    put(alloc, draft, operand)?;
    draft.push(op)
}

/// Two operands, the left one first, and the operation on both.
#[cycle(compiler)]
#[tactic(auto, using(crate::proofs::Drafts::drafted_length))]
fn put_two(
    alloc: Global,
    draft: &mut Draft,
    left: &Typed,
    right: &Typed,
    op: Op,
) -> Result<(), AllocError>
    requires { (InLimits (typed_view left.now)) × (InLimits (typed_view right.now))
        × (draft_index draft.old + operations (typed_view left.now) + operations (typed_view right.now)
        ≤ most_code_entries) }
    ensures { OnOk result
        (draft.new ≡ with_op op (drafted (typed_view right.now) (drafted (typed_view left.now) draft.old))) }
{
    put(alloc, draft, left)?;
    put(alloc, draft, right)?;
    draft.push(op)
}

/// Two sides, of which the right one is jumped over where the left one decides.
#[cycle(compiler)]
#[tactic(auto, using(crate::proofs::Drafts::drafted_length, crate::proofs::Drafts::one_index_more))]
fn put_sides(
    alloc: Global,
    draft: &mut Draft,
    jump: Jump,
    left: &Typed,
    right: &Typed,
) -> Result<(), AllocError>
    requires { (InLimits (typed_view left.now)) × (InLimits (typed_view right.now))
        × (draft_index draft.old + operations (typed_view left.now) + 1 + operations (typed_view right.now)
        ≤ most_code_entries) }
    ensures { OnOk result (draft.new ≡ jumps_on jump (draft_index (drafted (typed_view left.now) draft.old))
        (drafted (typed_view right.now) (with_op (JumpTo jump 0) (drafted (typed_view left.now) draft.old)))) }
{
    put(alloc, draft, left)?;
    let index = draft.index();
    draft.push(Op::Jump(jump, 0))?;
    put(alloc, draft, right)?;
    let end = draft.index();
    draft.set(index, Op::Jump(jump, end as u32));
    Ok(())
}

/// One of two branches.
#[cycle(compiler)]
#[tactic(auto, using(crate::proofs::Drafts::drafted_length, crate::proofs::Drafts::one_index_more, crate::proofs::Drafts::same_place))]
fn put_choice(
    alloc: Global,
    draft: &mut Draft,
    condition: &Typed,
    then_branch: &Typed,
    else_branch: &Typed,
) -> Result<(), AllocError>
    requires { (InLimits (typed_view condition.now)) × (InLimits (typed_view then_branch.now))
        × (InLimits (typed_view else_branch.now))
        × (draft_index draft.old + operations
        (typed.choice (typed_view condition.now) (typed_view then_branch.now) (typed_view else_branch.now))
        ≤ most_code_entries) }
    ensures { OnOk result (draft.new
        ≡ drafted (typed.choice (typed_view condition.now) (typed_view then_branch.now) (typed_view else_branch.now))
        draft.old) }
{
    put(alloc, draft, condition)?;
    let branch = draft.index();
    draft.push(Op::Jump(Jump::Branch, 0))?;
    put(alloc, draft, then_branch)?;
    let jump = draft.index();
    draft.push(Op::Jump(Jump::Always, 0))?;
    let after_then = draft.index();
    draft.set(branch, Op::Jump(Jump::Branch, after_then as u32));
    put(alloc, draft, else_branch)?;
    let end = draft.index();
    draft.set(jump, Op::Jump(Jump::Always, end as u32));
    Ok(())
}

/// The items of a list literal, at most 16, and the list of them.
#[cycle(compiler)]
#[tactic(auto, using(crate::proofs::Sequences::as_many))]
fn put_list(
    alloc: Global,
    draft: &mut Draft,
    scalar: Scalar,
    items: &[Typed],
) -> Result<(), AllocError>
    requires { (AllInLimits (items_view items.now)) × (how_many (items_view items.now) ≤ most_literal_items)
        × (draft_index draft.old + operations_of_items (items_view items.now) ≤ most_code_entries) }
    ensures { OnOk result (draft.new
        ≡ with_op (MakeList scalar (how_many (items_view items.now)))
        (drafted_items (items_view items.now) draft.old)) }
{
    put_items(alloc, draft, items)?;
    let count = items.len() as u8;
    draft.push(Op::MakeList { scalar, count })
}

#[cycle(compiler)]
#[tactic(auto, using(crate::proofs::Sequences::next_operations, crate::proofs::Sequences::no_operations, crate::proofs::Sequences::next_limits, crate::proofs::Sequences::next_drafted, crate::proofs::Sequences::none_drafted, crate::proofs::Drafts::drafted_length))]
fn put_items(alloc: Global, draft: &mut Draft, items: &[Typed]) -> Result<(), AllocError>
    requires { (AllInLimits (items_view items.now))
        × (draft_index draft.old + operations_of_items (items_view items.now) ≤ most_code_entries) }
    ensures { OnOk result (draft.new ≡ drafted_items (items_view items.now) draft.old) }
{
    for item in items {
        put(alloc, draft, item)?;
    }
    Ok(())
}

/// A loop over a list.
#[cycle(compiler)]
#[tactic(auto, using(crate::proofs::Drafts::drafted_length, crate::proofs::Drafts::one_index_more))]
fn put_loop(
    alloc: Global,
    draft: &mut Draft,
    predicate: Predicate,
    list: &Typed,
    body: &Typed,
) -> Result<(), AllocError>
    requires { (InLimits (typed_view list.now)) × (InLimits (typed_view body.now))
        × (draft_index draft.old + operations (typed_view list.now) + 1 + operations (typed_view body.now) + 1
        ≤ most_code_entries) }
    ensures { OnOk result
        (draft.new ≡ drafted (typed.predicate predicate (typed_view list.now) (typed_view body.now)) draft.old) }
{
    put(alloc, draft, list)?;
    let enter = draft.index();
    draft.push(Op::Enter(predicate, 0))?;
    put(alloc, draft, body)?;
    let step = draft.index();
    draft.set(enter, Op::Enter(predicate, step as u32));
    draft.push(Op::Step(predicate, enter as u32))
}

/// The code of a condition that was checked.
///
/// # Errors
///
/// `TooManyOps` where the code would have more than 4,096 operations.
#[tactic(auto, using(crate::proofs::Accepted::compiled_accepted, crate::proofs::Conditions::compiled_means, crate::proofs::Drafts::whole_is, crate::proofs::Lawful::compiled_is_code, crate::proofs::Lawful::compiled_length))]
pub fn compile(alloc: Global, condition: &Typed) -> Result<Code, CompileError>
    // Its list literals have at most 16 items, its texts and names at most 4,096 bytes.
    requires { InLimits (typed_view condition.now) }
    ensures { CompilesTo (typed_view condition.now) result }
{
    if room_after(MOST_CODE_ENTRIES - 1, condition).is_none() {
        return Err(CompileError::TooManyOps);
    }
    Ok(code_of(alloc, condition)?)
}

#[tactic(auto, using(crate::proofs::Drafts::whole_is, crate::proofs::Lawful::compiled_is_code))]
fn code_of(alloc: Global, condition: &Typed) -> Result<Code, AllocError>
    requires { (InLimits (typed_view condition.now)) × (length_of (typed_view condition.now) ≤ most_code_entries) }
    ensures { IfOk result (λ code. code ≡ compiled (typed_view condition.now)) }
{
    let mut draft = Draft::new(alloc);
    put(alloc, &mut draft, condition)?;
    draft.push(Op::Return)?;
    Ok(draft.into_code())
}
