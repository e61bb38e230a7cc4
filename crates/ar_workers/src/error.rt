//! Why workers give no histories.

ghost use Rattle.ar_workers.specs.declared.error.WorkError.TheVariants.{OutOfMemory};
ghost use Rattle.std.specs.Prelude.{◌≡◌};

use ar_board::Lost;
use ar_queue::Unfinished;
use std::alloc::AllocError;
use thiserror::Error;

/// Why workers give no histories. Of several causes that hold, the first of these is reported.
#[derive(Debug, Drop, Error)]
pub enum WorkError {
    /// A thread couldn't be started; those that were have ended.
    #[error("run: NoThread: a thread for a worker couldn't be started")]
    NoThread,
    #[error("out of memory")]
    OutOfMemory,
    /// A number was lost: what closing the board gave, and the numbers whose post was a double.
    #[error("run, measurement {number}: Lost: the histories don't hold it", number = .lost.number)]
    Lost { lost: Lost, doubles: Vec<u64> },
}

impl From<Unfinished> for WorkError {
    ghost use Rattle.ar_workers.specs.Private.Early.{reported};

    ghost from_gives = { λ cause error. error ≡ reported cause };

    fn from(cause: Unfinished) -> WorkError {
        match cause {
            Unfinished::NoThread => WorkError::NoThread,
            Unfinished::OutOfMemory => WorkError::OutOfMemory,
        }
    }
}

impl From<AllocError> for WorkError {
    ghost from_gives = { λ _ error. error ≡ OutOfMemory };

    fn from(_error: AllocError) -> WorkError {
        WorkError::OutOfMemory
    }
}
