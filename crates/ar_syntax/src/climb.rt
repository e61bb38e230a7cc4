//! What an operand ends.

ghost use Rattle.std.specs.Prelude.{◌≡◌, ◌∷◌, true, false, IfOk, MatchOption};
ghost use Rattle.ar_syntax.specs.Machine.{Have};
ghost use Rattle.ar_syntax.specs.Private.Frames.{closed_by, phrase_ended, ends, ends_below, frame_of, frames_of, top_ends};
ghost use Rattle.ar_tree.specs.Views.{expression_of};

use crate::build::boxed;
use crate::machine::Frame;
use crate::role::precedence;
use ar_tree::tree::Tree;
use std::alloc::{AllocError, Global};

/// How far an operand ends phrases.
#[derive(Clone, Copy)]
pub(crate) enum Reach {
    /// Those of levels up to this one.
    Level(usize),
    /// Those that a closing sign, a comma or a colon ends.
    Ender,
}

/// Ends phrases with an operand.
pub(crate) fn climb(
    alloc: Global,
    stack: &mut Vec<Frame>,
    reach: Reach,
    tree: Box<Tree>,
) -> Result<Box<Tree>, AllocError>
    ensures { IfOk result (λ last. Have (frames_of stack.new.items) (expression_of last.value)
        ≡ phrase_ended reach (frames_of stack.old.items) (expression_of tree.value)) }
{
    let mut tree = tree;
    while let Some(frame) = pop_ended(stack, reach) {
        tree = close(alloc, frame, tree)?;
    }
    Ok(tree)
}

/// Takes the newest frame, where it ends with an operand.
#[tactic(auto, using(crate::proofs::Climbs::pops))]
fn pop_ended(stack: &mut Vec<Frame>, reach: Reach) -> Option<Frame>
    ensures { MatchOption result
        ((stack.new.items ≡ stack.old.items) × (top_ends reach (frames_of stack.old.items) ≡ false))
        (λ frame. (frames_of stack.old.items ≡ frame_of frame ∷ frames_of stack.new.items)
        × (ends reach (frame_of frame) ≡ true)) }
{
    if newest_ends(stack, reach) {
        stack.pop()
    } else {
        None
    }
}

/// Whether the newest frame ends with an operand.
#[tactic(auto, using(crate::proofs::Climbs::pops))]
fn newest_ends(stack: &[Frame], reach: Reach) -> bool
    ensures { result ≡ top_ends reach (frames_of stack.now) }
{
    match stack.last() {
        Some(frame) => ends(frame, reach),
        None => false,
    }
}

/// Whether the frame ends with an operand.
fn ends(frame: &Frame, reach: Reach) -> bool
    ensures { result ≡ ends reach (frame_of frame.now) }
{
    match reach {
        Reach::Level(level) => ends_below(frame, level),
        Reach::Ender => matches!(
            frame,
            Frame::RightOf { .. } | Frame::Prefixed { .. } | Frame::Else { .. }
        ),
    }
}

/// Whether the frame ends with an operand, up to a level.
fn ends_below(frame: &Frame, level: usize) -> bool
    ensures { result ≡ ends_below level (frame_of frame.now) }
{
    match frame {
        Frame::RightOf { operator, .. } => precedence(*operator) <= level,
        Frame::Prefixed { .. } => true,
        _ => false,
    }
}

/// The tree of a phrase that ends with an operand.
fn close(alloc: Global, frame: Frame, tree: Box<Tree>) -> Result<Box<Tree>, AllocError>
    ensures { IfOk result
        (λ closed. expression_of closed.value ≡ closed_by (frame_of frame) (expression_of tree.value)) }
{
    let node = match frame {
        Frame::RightOf {
            at,
            operator,
            first,
        } => Tree::Binary {
            at,
            operator,
            left: first,
            right: tree,
        },
        Frame::Prefixed { at, operator } => Tree::Unary {
            at,
            operator,
            operand: tree,
        },
        Frame::Else {
            at,
            condition,
            then_branch,
        } => Tree::Choice {
            at,
            condition,
            then_branch,
            else_branch: tree,
        },
        _ => return Ok(tree),
    };
    boxed(alloc, node)
}
