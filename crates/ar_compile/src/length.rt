//! How many operations the code of a condition has.

ghost use Rattle.std.specs.Prelude.{◌+◌, ◌-◌, ◌≤◌, SomeIff};
ghost use Rattle.ar_tree.specs.Views.{typed_view};
ghost use Rattle.ar_compile.specs.Length.{operations, operations_of_items};
ghost use Rattle.ar_compile.specs.Private.Trees.{items_view, operations_of_two};

use ar_tree::Typed;

/// What is left of so much room after the operations of a tree, if there is enough.
#[cycle(length)]
pub(crate) fn room_after(room: usize, tree: &Typed) -> Option<usize>
    ensures { SomeIff result (operations (typed_view tree.now) ≤ room) (room - (operations (typed_view tree.now))) }
{
    match tree {
        Typed::Result | Typed::Item | Typed::Literal(_) => room.checked_sub(1),
        Typed::Field { owner, .. } => room_after_one(room, owner),
        Typed::Unary { operand, .. } => room_after_one(room, operand),
        Typed::Binary { left, right, .. } => room_after_two(room, left, right),
        Typed::And { left, right } | Typed::Or { left, right } => room_after_two(room, left, right),
        Typed::Choice {
            condition,
            then_branch,
            else_branch,
        } => {
            room_after(room_after_two(room, condition, then_branch)?, else_branch)?.checked_sub(1)
        }
        Typed::List { items, .. } => room_after_items(room, &items.items)?.checked_sub(1),
        Typed::Predicate { list, body, .. } => room_after_two(room, list, body)?.checked_sub(1),
    }
}

/// A tree and one operation more.
#[cycle(length)]
fn room_after_one(room: usize, operand: &Typed) -> Option<usize>
    ensures { SomeIff result (operations (typed_view operand.now) + 1 ≤ room)
        (room - (operations (typed_view operand.now) + 1)) }
{
    room_after(room, operand)?.checked_sub(1)
}

/// Two trees and one operation more.
#[cycle(length)]
fn room_after_two(room: usize, left: &Typed, right: &Typed) -> Option<usize>
    ensures { SomeIff result (operations_of_two left.now right.now ≤ room)
        (room - operations_of_two left.now right.now) }
{
    room_after(room_after(room, left)?, right)?.checked_sub(1)
}

#[cycle(length)]
#[tactic(auto, using(crate::proofs::Sequences::next_operations, crate::proofs::Sequences::no_operations))]
fn room_after_items(room: usize, items: &[Typed]) -> Option<usize>
    ensures { SomeIff result (operations_of_items (items_view items.now) ≤ room)
        (room - (operations_of_items (items_view items.now))) }
{
    let mut left = room;
    for item in items {
        left = room_after(left, item)?;
    }
    Some(left)
}
