//! Exit statuses.

ghost use Rattle.std.specs.Prelude.{◌≡◌};
ghost use Rattle.ar_command.specs.Serving.{status_of};

use crate::serving::{Closing, ServeError};
use ar_workers::WorkError;

/// The command was carried out.
pub const GOOD: u8 = 0;
/// The command was carried out, and a run is reported as Failed, Error or Inconclusive.
pub const BAD: u8 = 1;
/// The command line or the input is refused.
pub const REFUSED: u8 = 2;
/// Memory ran out.
pub const OUT_OF_MEMORY: u8 = 3;
/// A read or a write failed.
pub const DEVICE: u8 = 4;
/// A thread couldn't be started, or a number was lost.
pub const WORKERS: u8 = 5;

/// The exit status of a command's outcome.
pub fn status_of(outcome: &Result<Closing, ServeError>) -> u8
    ensures { result ≡ status_of outcome.now }
{
    match outcome {
        Ok(Closing::Good) => GOOD,
        Ok(Closing::Bad) => BAD,
        Err(ServeError::Refused(_)) => REFUSED,
        Err(ServeError::OutOfMemory | ServeError::Work(WorkError::OutOfMemory)) => OUT_OF_MEMORY,
        Err(ServeError::Read | ServeError::Write) => DEVICE,
        Err(ServeError::Work(WorkError::NoThread | WorkError::Lost { .. })) => WORKERS,
    }
}
