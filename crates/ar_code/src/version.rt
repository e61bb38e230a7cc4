//! The versions of images.

ghost use Rattle.std.specs.Prelude.{◌≡◌};
ghost use Rattle.std.specs.List.{list_any};
ghost use Rattle.ar_code.specs.Decoding.{version_named};
ghost use Rattle.ar_code.specs.Image.{is_new, last_code, version_byte, version_of};

use crate::form::form_of;
use ar_op::op::Op;

/// The version of an image: the second is that of code with an operation that the first one lacks.
#[derive(Clone, Copy)]
pub(crate) enum Version {
    First,
    Second,
}

impl Version {
    /// The byte that names the version.
    pub(crate) fn byte(self) -> u8
        ensures { result ≡ version_byte self }
    {
        match self {
            Version::First => 1,
            Version::Second => 2,
        }
    }

    /// The version that a byte names.
    pub(crate) fn named(byte: u8) -> Option<Version>
        ensures { result ≡ version_named byte }
    {
        match byte {
            1 => Some(Version::First),
            2 => Some(Version::Second),
            _ => None,
        }
    }

    /// The greatest code of an operation.
    pub(crate) fn last_code(self) -> u8
        ensures { result ≡ last_code self }
    {
        match self {
            Version::First => 56,
            Version::Second => 63,
        }
    }
}

fn is_new(op: Op) -> bool
    ensures { result ≡ is_new op }
{
    form_of(op).code > Version::First.last_code()
}

fn has_new(ops: &[Op]) -> bool
    ensures { result ≡ list_any is_new ops.now }
{
    ops.iter().any(|op| is_new(*op))
}

/// The version of the image of code.
pub(crate) fn version_of(ops: &[Op]) -> Version
    ensures { result ≡ version_of ops.now }
{
    if has_new(ops) {
        Version::Second
    } else {
        Version::First
    }
}
