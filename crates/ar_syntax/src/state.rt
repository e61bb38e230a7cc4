//! What may come next while tokens are read.

ghost use Rattle.std.specs.Prelude.{◌≡◌};
ghost use Rattle.ar_syntax.specs.declared.state.Refusal.TheVariants.{OutOfMemory};

use crate::role::Call;
use ar_tree::tree::Tree;
use ar_value::text::Text;
use std::alloc::{AllocError, AllocFailed};

/// What is expected next, or there.
#[derive(Drop)]
pub(crate) enum State {
    /// An operand is expected.
    Want,
    /// An operand is there.
    Have(Box<Tree>),
    /// A word is expected, after the point of a field.
    WantName {
        at: usize,
        owner: Box<Tree>,
    },
    /// What comes after the `[` of an index or field is expected.
    WantIndex {
        at: usize,
        owner: Box<Tree>,
    },
    /// A text comes after such a `[`.
    HaveText {
        at: usize,
        owner: Box<Tree>,
        text_at: usize,
        text: Text,
    },
    /// `in` is expected, after `not`.
    WantIn {
        at: usize,
        first: Box<Tree>,
    },
    /// `(` is expected, after the name of a call.
    WantGroup {
        at: usize,
        function: Call,
    },
    /// An argument is expected, after n of them.
    WantArgument {
        at: usize,
        function: Call,
        so_far: Vec<Tree>,
    },
    /// An argument in braces is there.
    HaveArgument {
        at: usize,
        function: Call,
        arguments: Vec<Tree>,
    },
}

/// Why a token can't come next: a limit alone forbids it, or something else does.
#[derive(Clone, Copy)]
pub(crate) enum Refusal {
    Arguments,
    Items,
    Depth,
    Other,
    OutOfMemory,
}

impl From<AllocError> for Refusal {
    ghost from_gives = { λ _ e. e ≡ OutOfMemory };

    fn from(_error: AllocError) -> Refusal {
        Refusal::OutOfMemory
    }
}

impl<T: Drop> From<AllocFailed<T>> for Refusal {
    ghost from_gives = { λ _ e. e ≡ OutOfMemory };

    fn from(_error: AllocFailed<T>) -> Refusal {
        Refusal::OutOfMemory
    }
}
