//! Why an operation sends nothing on.

use ar_safety::{Cause, Reason};
use std::alloc::AllocError;

/// A fault of an operation, reported without its index, or out of memory.
#[derive(Clone, Copy)]
pub(crate) enum Failure {
    Fault(Reason),
    OutOfMemory,
}

impl From<AllocError> for Failure {
    ghost use Rattle.std.specs.Prelude.{◌≡◌};
    ghost use Rattle.ar_verify.specs.declared.failure.Failure.TheVariants.{OutOfMemory};

    ghost from_gives = { λ _ e. e ≡ OutOfMemory };

    fn from(_error: AllocError) -> Failure {
        Failure::OutOfMemory
    }
}

impl From<Reason> for Failure {
    ghost use Rattle.std.specs.Prelude.{◌≡◌};
    ghost use Rattle.ar_verify.specs.declared.failure.Failure.TheVariants as failures;

    ghost from_gives = { λ reason e. e ≡ failures.Fault reason };

    fn from(reason: Reason) -> Failure {
        Failure::Fault(reason)
    }
}

impl Failure {
    ghost use Rattle.std.specs.Prelude.{◌≡◌};
    ghost use Rattle.ar_verify.specs.Private.Failures.{cause_at};

    pub(crate) fn at(self, index: usize) -> Cause
        ensures { result ≡ cause_at index self }
    {
        match self {
            Failure::Fault(reason) => Cause::Fault { index, reason },
            Failure::OutOfMemory => Cause::OutOfMemory,
        }
    }
}
