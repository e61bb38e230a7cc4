//! The name of a fault.

ghost use Rattle.std.specs.Prelude.{◌≡◌};
ghost use Rattle.ar_syntax.specs.Fault.{is_inside, kind_fault, wants_operand};
ghost use Rattle.ar_syntax.specs.Private.Steps.{fault_by, state_of};
ghost use Rattle.ar_syntax.specs.Private.Frames.{frames_of};

use crate::error::SyntaxError;
use crate::machine::Frame;
use crate::stack::inside;
use crate::state::{Refusal, State};
use crate::token::{Sign, Token, TokenKind};

/// Whether an operand may come next.
pub(crate) fn wants_operand(state: &State) -> bool
    ensures { (stack : _) → result ≡ wants_operand (state_of stack state.now) }
{
    matches!(
        state,
        State::Want | State::WantIndex { .. } | State::WantArgument { .. }
    )
}

/// Whether what comes next is inside a predicate.
#[tactic(auto, using(crate::proofs::Openers::length_of_map))]
pub(crate) fn is_inside(stack: &[Frame], state: &State) -> bool
    ensures { result ≡ is_inside (state_of (frames_of stack.now) state.now) }
{
    match state {
        State::WantArgument {
            function,
            so_far,
            ..
        } => inside(stack) || function.is_body(so_far.len()),
        State::Want
        | State::Have(_)
        | State::WantName { .. }
        | State::WantIndex { .. }
        | State::HaveText { .. }
        | State::WantIn { .. }
        | State::WantGroup { .. }
        | State::HaveArgument { .. } => inside(stack),
    }
}

/// The refusal of a token: by the limit that alone forbids it, or by its kind.
pub(crate) fn fault_by(
    refusal: Refusal,
    wants_operand: bool,
    is_inside: bool,
    token: &Token,
) -> SyntaxError
    ensures { result ≡ fault_by refusal wants_operand is_inside token.now }
{
    let at = token.span.start;
    match refusal {
        Refusal::Arguments => SyntaxError::WrongCount(at),
        Refusal::Items => SyntaxError::TooManyItems(at),
        Refusal::Depth => SyntaxError::TooDeep(at),
        Refusal::Other => kind_fault(wants_operand, is_inside, &token.kind, at),
        Refusal::OutOfMemory => SyntaxError::OutOfMemory,
    }
}

/// The refusal of a token that no limit alone forbids.
fn kind_fault(wants_operand: bool, is_inside: bool, kind: &TokenKind, at: usize) -> SyntaxError
    ensures { result ≡ kind_fault wants_operand is_inside kind.now at }
{
    match kind {
        TokenKind::Name(_) if wants_operand => SyntaxError::UnknownName(at),
        TokenKind::Sign(Sign::Hash) if !is_inside => SyntaxError::ItemOutside(at),
        TokenKind::Sign(Sign::Point) if wants_operand && !is_inside => SyntaxError::ItemOutside(at),
        _ => SyntaxError::Unexpected(at),
    }
}
