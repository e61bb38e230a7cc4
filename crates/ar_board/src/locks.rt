//! The four locks of a board, and what names their ledgers.

ghost use Rattle.std.specs.Prelude.{ℕ};
ghost use Rattle.ar_board.specs.Locks.{AreOf, PerLock, at_lock, lock_names, per_lock};

use crate::LockName;
use std::marker::{Brand, PhantomData};
use std::sync::ledger::{Blank, Ledger};

/// What the ledgers of a board's four locks are made of, one for each lock. Their names are what the
/// board's type parameters say.
#[derive(Drop)]
pub struct Blanks {
    pub first: Blank,
    pub second: Blank,
    pub third: Blank,
    pub fourth: Blank,
}

impl Blanks {
    /// Four new ledgers of `parts` parts each, which no lock has yet.
    pub fn new(parts: u64) -> Blanks
        ensures { AreOf (lock_names result) parts result }
    {
        Blanks {
            first: Blank::new(parts),
            second: Blank::new(parts),
            third: Blank::new(parts),
            fourth: Blank::new(parts),
        }
    }
}

/// Names the ledgers of a board's four locks, and into how many parts each of them is cut. No value of
/// such a type is needed.
pub trait LockNames {
    ghost names: { PerLock };

    ghost parts: { ℕ };
}

// A caller that takes `Brand` says which ledgers it means; these apply where none does.
impl LockNames for Brand {
    ghost names = { per_lock 0 0 0 0 };

    ghost parts = { 0 };
}

/// The lock with a number, counted from 0, of a board whose ledgers have these names.
pub struct Lock<L: LockNames, const LOCK: usize> {
    names: PhantomData<L>,
}

impl<L: LockNames, const LOCK: usize> Ledger for Lock<L, LOCK> {
    ghost name = { at_lock L.names LOCK };

    ghost parts = { L.parts };
}

impl<L: LockNames, const LOCK: usize> LockName for Lock<L, LOCK> {
    ghost lock = { LOCK };
}

/// The lock of runs 0, 4, 8 and so on.
pub type First<L> = Lock<L, 0>;

/// The lock of runs 1, 5, 9 and so on.
pub type Second<L> = Lock<L, 1>;

/// The lock of runs 2, 6, 10 and so on.
pub type Third<L> = Lock<L, 2>;

/// The lock of runs 3, 7, 11 and so on.
pub type Fourth<L> = Lock<L, 3>;
