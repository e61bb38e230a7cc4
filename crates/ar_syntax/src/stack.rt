//! What the frames that are begun say of the next token.

ghost use Rattle.std.specs.Prelude.{◌≡◌};
ghost use Rattle.ar_syntax.specs.Machine.{in_predicate, openers_left};
ghost use Rattle.ar_syntax.specs.Private.Frames.{frame_of, frames_of, is_predicate, openers};

use crate::machine::Frame;

/// How many openers may be unfinished at once.
const MOST_OPENERS: usize = 64;

/// Whether one is inside a predicate.
#[tactic(auto, using(crate::proofs::Stacks::stacks))]
pub(crate) fn inside(stack: &[Frame]) -> bool
    ensures { result ≡ in_predicate (frames_of stack.now) }
{
    let mut inside = false;
    for frame in stack {
        inside |= is_predicate(frame);
    }
    inside
}

fn is_predicate(frame: &Frame) -> bool
    ensures { result ≡ is_predicate (frame_of frame.now) }
{
    matches!(frame, Frame::Body { .. } | Frame::Braced { .. })
}

/// How many openers may still begin.
#[tactic(auto, using(crate::proofs::Stacks::stacks))]
pub(crate) fn left(stack: &[Frame]) -> usize
    ensures { result ≡ openers_left (frames_of stack.now) }
{
    let mut left = MOST_OPENERS;
    for frame in stack {
        left = left.saturating_sub(openers(frame));
    }
    left
}

/// How many openers a frame keeps unfinished.
fn openers(frame: &Frame) -> usize
    ensures { result ≡ openers (frame_of frame.now) }
{
    match frame {
        Frame::RightOf { .. } => 0,
        Frame::Braced { .. } => 2,
        _ => 1,
    }
}
