//! Why a text isn't read.

use json::Invalid;
use std::alloc::AllocError;
use thiserror::Error;

/// Why a text isn't read.
#[derive(Clone, Copy, Debug, Error)]
pub enum StreamError {
    /// It is not the text of one JSON value.
    #[error("the text is no JSON")]
    NotJson,
    #[error("out of memory")]
    OutOfMemory,
}

impl From<Invalid> for StreamError {
    ghost use Rattle.std.specs.Prelude.{◌≡◌};
    ghost use Rattle.ar_stream.specs.declared.error.StreamError.TheVariants.{NotJson};

    ghost from_gives = { λ _ e. e ≡ NotJson };

    fn from(_error: Invalid) -> StreamError {
        StreamError::NotJson
    }
}

impl From<AllocError> for StreamError {
    ghost use Rattle.std.specs.Prelude.{◌≡◌};
    ghost use Rattle.ar_stream.specs.declared.error.StreamError.TheVariants.{OutOfMemory};

    ghost from_gives = { λ _ e. e ≡ OutOfMemory };

    fn from(_error: AllocError) -> StreamError {
        StreamError::OutOfMemory
    }
}
