//! Why code isn't accepted.

ghost use Rattle.std.specs.Prelude.{◌≡◌};
ghost use Rattle.ar_safety.specs.Reasons.{reason_name};

use ar_op::code::Code;
use std::alloc::AllocError;
use std::fmt;
use thiserror::Error;

/// What is wrong with code, at one of its operations.
#[derive(Clone, Copy, Debug, Error)]
pub enum Reason {
    Empty,
    /// The operation names an index after the last one.
    JumpOutside,
    /// A jump or an Enter names its own index, or one before it.
    Backward,
    /// An Enter whose Step isn't where it says, or the other way round.
    UnpairedLoop,
    LoopsTooDeep,
    /// A jump into a loop or out of one, a loop that another ends inside of, a Return in a loop.
    CrossesLoop,
    NoReturn,
    Unreachable,
    /// What arrives here from several operations differs in number, or has no kind in common.
    BadMerge,
    /// An operand isn't there above the floor of the innermost loop, or no item.
    MissingOperand,
    IllKinded,
    StackTooDeep,
    BudgetTooLarge,
}

impl Reason {
    /// The variant's name.
    pub fn name(self) -> &'static str
        ensures { result.now ≡ reason_name self }
    {
        match self {
            Reason::Empty => "Empty",
            Reason::JumpOutside => "JumpOutside",
            Reason::Backward => "Backward",
            Reason::UnpairedLoop => "UnpairedLoop",
            Reason::LoopsTooDeep => "LoopsTooDeep",
            Reason::CrossesLoop => "CrossesLoop",
            Reason::NoReturn => "NoReturn",
            Reason::Unreachable => "Unreachable",
            Reason::BadMerge => "BadMerge",
            Reason::MissingOperand => "MissingOperand",
            Reason::IllKinded => "IllKinded",
            Reason::StackTooDeep => "StackTooDeep",
            Reason::BudgetTooLarge => "BudgetTooLarge",
        }
    }
}

impl fmt::Display for Reason {
    fn fmt<W: fmt::Write>(&self, f: &mut fmt::Formatter<W>) -> fmt::Result {
        f.write_str(self.name())
    }
}

/// Why code isn't accepted: its first fault, or out of memory.
#[derive(Clone, Copy, Debug, Error)]
pub enum Cause {
    /// The fault is at an operation of the code, counted from 0.
    #[error("operation {index}: {reason}")]
    Fault { index: usize, reason: Reason },
    #[error("OutOfMemory")]
    OutOfMemory,
}

impl From<AllocError> for Cause {
    ghost use Rattle.std.specs.Prelude.{◌≡◌};
    ghost use Rattle.ar_safety.specs.declared.error.Cause.TheVariants.{OutOfMemory};

    ghost from_gives = { λ _ e. e ≡ OutOfMemory };

    fn from(_error: AllocError) -> Cause {
        Cause::OutOfMemory
    }
}

/// Code that isn't accepted, and why.
#[derive(Debug, Drop, Error)]
#[error("{cause}")]
pub struct Refused {
    pub code: Code,
    pub cause: Cause,
}
