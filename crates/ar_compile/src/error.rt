//! Why a condition isn't compiled.

use std::alloc::AllocError;
use thiserror::Error;

/// Why a condition isn't compiled.
#[derive(Clone, Copy, Debug, Error)]
pub enum CompileError {
    /// Its code would have more than 4,096 operations.
    #[error("TooManyOps")]
    TooManyOps,
    /// The memory for it was refused.
    #[error("OutOfMemory")]
    OutOfMemory,
}

impl From<AllocError> for CompileError {
    ghost use Rattle.std.specs.Prelude.{◌≡◌};
    ghost use Rattle.ar_compile.specs.declared.error.CompileError.TheVariants as errors;

    ghost from_gives = { λ _ e. e ≡ errors.OutOfMemory };

    fn from(_error: AllocError) -> CompileError {
        CompileError::OutOfMemory
    }
}
