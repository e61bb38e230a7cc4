//! Why a case or a line has no answer.

ghost use Rattle.std.specs.Prelude.{◌≡◌};
ghost use Rattle.cases_of_values.specs.declared.fault.CaseFault.TheVariants.{OutOfMemory};
ghost use Rattle.cases_of_values.specs.declared.fault.LineFault.TheVariants.{Case};
ghost use Rattle.cases_of_values.specs.Faults.{status_of};

use std::alloc::{AllocError, AllocFailed};
use std::fmt;

/// Why a case has no answer.
#[derive(Clone, Copy)]
pub enum CaseFault {
    /// A member isn't there, or is nothing that the call takes.
    Member,
    OutOfMemory,
}

impl CaseFault {
    fn words(self) -> &'static str {
        match self {
            CaseFault::Member => "a member is missing, or nothing that this call takes",
            CaseFault::OutOfMemory => "out of memory",
        }
    }
}

/// The answer was written, as far as memory lasted, or the case has no answer.
pub type Written = Result<(), CaseFault>;

/// Why a line has no answer.
#[derive(Clone, Copy)]
pub enum LineFault {
    NoJson,
    UnknownCall,
    /// A read or a write failed.
    Device,
    Case(CaseFault),
}

impl LineFault {
    fn words(self) -> &'static str {
        match self {
            LineFault::NoJson => "expected one JSON value",
            LineFault::UnknownCall => "unknown call",
            LineFault::Device => "a read or a write failed",
            LineFault::Case(fault) => fault.words(),
        }
    }

    /// The exit status, as those of `argo_judge`.
    pub fn status(self) -> u8
        ensures { result ≡ status_of self }
    {
        match self {
            LineFault::NoJson | LineFault::UnknownCall | LineFault::Case(CaseFault::Member) => 2,
            LineFault::Case(CaseFault::OutOfMemory) => 3,
            LineFault::Device => 4,
        }
    }
}

impl fmt::Display for LineFault {
    fn fmt<W: fmt::Write>(&self, f: &mut fmt::Formatter<W>) -> fmt::Result {
        f.write_str(self.words())
    }
}

impl From<CaseFault> for LineFault {
    ghost from_gives = { λ fault e. e ≡ Case fault };

    fn from(fault: CaseFault) -> LineFault {
        LineFault::Case(fault)
    }
}

impl From<AllocError> for CaseFault {
    ghost from_gives = { λ _ e. e ≡ OutOfMemory };

    fn from(_error: AllocError) -> CaseFault {
        CaseFault::OutOfMemory
    }
}

impl<T: Drop> From<AllocFailed<T>> for CaseFault {
    ghost from_gives = { λ _ e. e ≡ OutOfMemory };

    fn from(_error: AllocFailed<T>) -> CaseFault {
        CaseFault::OutOfMemory
    }
}
