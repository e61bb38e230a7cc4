//! Why a condition has no kinds.

ghost use Rattle.std.specs.Prelude.{◌≡◌};
ghost use Rattle.ar_check.specs.Refused.{refused_at, type_error_name};
ghost use Rattle.ar_check.specs.declared.error.TypeError.TheVariants.{OutOfMemory};

use std::alloc::{AllocError, AllocFailed};
use std::fmt;
use thiserror::Error;

/// Why a condition has no kinds where `result` has a shape. A number is the offset in bytes, from 0,
/// of the tree that requires something else.
#[derive(Clone, Copy, Debug, Error)]
pub enum TypeError {
    /// An operand isn't of a kind that the operator, call or field here takes.
    WrongOperand(usize),
    /// The record has no field of this name.
    NoSuchField(usize),
    /// A list is expected here.
    NotAList(usize),
    /// Both branches, all items, or a value and its default have no kind in common.
    NoCommonKind(usize),
    /// The item of a list here is no scalar.
    NotScalar(usize),
    /// The whole condition is no boolean.
    NotTruth(usize),
    /// A predicate is inside four others.
    PredicatesTooDeep(usize),
    /// A growth of memory was refused.
    OutOfMemory,
}

impl TypeError {
    /// The byte at which the tree begins that requires something else.
    pub fn offset(self) -> Option<usize>
        ensures { result ≡ refused_at self }
    {
        match self {
            TypeError::WrongOperand(at)
            | TypeError::NoSuchField(at)
            | TypeError::NotAList(at)
            | TypeError::NoCommonKind(at)
            | TypeError::NotScalar(at)
            | TypeError::NotTruth(at)
            | TypeError::PredicatesTooDeep(at) => Some(at),
            TypeError::OutOfMemory => None,
        }
    }

    /// The variant's name.
    pub fn name(self) -> &'static str
        ensures { result.now ≡ type_error_name self }
    {
        match self {
            TypeError::WrongOperand(_) => "WrongOperand",
            TypeError::NoSuchField(_) => "NoSuchField",
            TypeError::NotAList(_) => "NotAList",
            TypeError::NoCommonKind(_) => "NoCommonKind",
            TypeError::NotScalar(_) => "NotScalar",
            TypeError::NotTruth(_) => "NotTruth",
            TypeError::PredicatesTooDeep(_) => "PredicatesTooDeep",
            TypeError::OutOfMemory => "OutOfMemory",
        }
    }
}

impl fmt::Display for TypeError {
    fn fmt<W: fmt::Write>(&self, f: &mut fmt::Formatter<W>) -> fmt::Result {
        fmt::Debug::fmt(self, f)
    }
}

impl From<AllocError> for TypeError {
    ghost from_gives = { λ _ e. e ≡ OutOfMemory };

    fn from(_error: AllocError) -> TypeError {
        TypeError::OutOfMemory
    }
}

impl<T: Drop> From<AllocFailed<T>> for TypeError {
    ghost from_gives = { λ _ e. e ≡ OutOfMemory };

    fn from(_error: AllocFailed<T>) -> TypeError {
        TypeError::OutOfMemory
    }
}
