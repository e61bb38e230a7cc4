//! Why a text is no condition that can be run.

use ar_check::TypeError;
use ar_compile::CompileError;
use ar_safety::Reason;
use ar_syntax::SyntaxError;
use std::alloc::AllocError;
use thiserror::Error;

/// Why a text is no condition that can be run, in the order of the checks.
#[derive(Clone, Copy, Debug, Error)]
pub enum BuildCause {
    /// It isn't of the language.
    #[error("{0}")]
    Grammar(SyntaxError),
    /// It has no kinds where `result` is of the declared shape.
    #[error("{0}")]
    Kinds(TypeError),
    /// Its code would have too many operations.
    #[error("{0}")]
    Compiler(CompileError),
    /// The verifier refuses its code at an operation, counted from 0.
    #[error("{1} at {0}")]
    Verifier(usize, Reason),
    #[error("OutOfMemory")]
    OutOfMemory,
}

/// Why a metric has no judge: the first of its texts that is no condition that can be run.
#[derive(Clone, Copy, Debug, Error)]
pub enum BuildError {
    #[error("successCondition: {0}")]
    Success(BuildCause),
    #[error("failureCondition: {0}")]
    Failure(BuildCause),
    #[error("OutOfMemory")]
    OutOfMemory,
}

impl From<SyntaxError> for BuildCause {
    ghost use Rattle.std.specs.Prelude.{◌≡◌};
    ghost use Rattle.ar_judge.specs.Building.{of_syntax};

    ghost from_gives = { λ error e. e ≡ of_syntax error };

    fn from(error: SyntaxError) -> BuildCause {
        match error {
            SyntaxError::OutOfMemory => BuildCause::OutOfMemory,
            error => BuildCause::Grammar(error),
        }
    }
}

impl From<TypeError> for BuildCause {
    ghost use Rattle.std.specs.Prelude.{◌≡◌};
    ghost use Rattle.ar_judge.specs.Building.{of_type};

    ghost from_gives = { λ error e. e ≡ of_type error };

    fn from(error: TypeError) -> BuildCause {
        match error {
            TypeError::OutOfMemory => BuildCause::OutOfMemory,
            error => BuildCause::Kinds(error),
        }
    }
}

impl From<CompileError> for BuildCause {
    ghost use Rattle.std.specs.Prelude.{◌≡◌};
    ghost use Rattle.ar_judge.specs.Building.{of_compiler};

    ghost from_gives = { λ error e. e ≡ of_compiler error };

    fn from(error: CompileError) -> BuildCause {
        match error {
            CompileError::OutOfMemory => BuildCause::OutOfMemory,
            error => BuildCause::Compiler(error),
        }
    }
}

impl From<ar_safety::Cause> for BuildCause {
    ghost use Rattle.std.specs.Prelude.{◌≡◌};
    ghost use Rattle.ar_judge.specs.Building.{of_verifier};

    ghost from_gives = { λ cause e. e ≡ of_verifier cause };

    fn from(cause: ar_safety::Cause) -> BuildCause {
        match cause {
            ar_safety::Cause::OutOfMemory => BuildCause::OutOfMemory,
            ar_safety::Cause::Fault { index, reason } => BuildCause::Verifier(index, reason),
        }
    }
}

impl From<AllocError> for BuildCause {
    ghost use Rattle.std.specs.Prelude.{◌≡◌};
    ghost use Rattle.ar_judge.specs.declared.error.BuildCause.TheVariants.{OutOfMemory};

    ghost from_gives = { λ _ e. e ≡ OutOfMemory };

    fn from(_error: AllocError) -> BuildCause {
        BuildCause::OutOfMemory
    }
}
