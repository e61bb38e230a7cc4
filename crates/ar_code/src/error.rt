//! Why bytes are no image.

use std::alloc::{AllocError, AllocFailed};
use thiserror::Error;

/// Why bytes are no image of code. Numbers are byte offsets from 0.
#[derive(Clone, Copy, Debug, Error)]
pub enum ImageError {
    /// The bytes don't begin with "ARCV".
    #[error("BadMagic: expected an image, which begins with `ARCV`")]
    BadMagic,
    #[error("BadVersion: expected version 1, or version 2 with an operation that version 1 lacks")]
    BadVersion,
    /// A byte is missing at the end.
    #[error("byte {0}: Truncated: expected more bytes")]
    Truncated(usize),
    /// The number that begins here isn't in its shortest form, or out of its range.
    #[error("byte {0}: BadNumber: expected a number in its range and its shortest form")]
    BadNumber(usize),
    #[error("byte {0}: UnknownOp: expected the code of an operation of the image's version")]
    UnknownOp(usize),
    /// The text that begins here isn't UTF-8, or the operation names a text or name that isn't there.
    #[error("byte {0}: BadText: expected UTF-8, or the number of a text or name that is there")]
    BadText(usize),
    /// A count, or the length of a text.
    #[error("TooLarge: expected at most 4096 operations, texts and names, and 4096 bytes a text")]
    TooLarge,
    /// There are bytes after the last operation.
    #[error("byte {0}: Trailing: expected the end of the image")]
    Trailing(usize),
    #[error("out of memory")]
    OutOfMemory,
}

impl From<AllocError> for ImageError {
    ghost use Rattle.std.specs.Prelude.{◌≡◌};
    ghost use Rattle.ar_code.specs.declared.error.ImageError.TheVariants.{OutOfMemory};

    ghost from_gives = { λ _ e. e ≡ OutOfMemory };

    fn from(_error: AllocError) -> ImageError {
        ImageError::OutOfMemory
    }
}

impl<T: Drop> From<AllocFailed<T>> for ImageError {
    ghost use Rattle.std.specs.Prelude.{◌≡◌};
    ghost use Rattle.ar_code.specs.declared.error.ImageError.TheVariants.{OutOfMemory};

    ghost from_gives = { λ _ e. e ≡ OutOfMemory };

    fn from(_error: AllocFailed<T>) -> ImageError {
        ImageError::OutOfMemory
    }
}
