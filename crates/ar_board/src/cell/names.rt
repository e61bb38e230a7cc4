//! Which lock a run is under, and types that name a lock in contracts. No value of such a type is needed: a
//! function over them speaks of whichever lock its caller has.

ghost use Rattle.ar_board.specs.Locks.{lock_of};
ghost use Rattle.std.specs.Prelude.{◌≡◌, ℕ};

use std::marker::Brand;
use std::sync::ledger::Ledger;

/// How many locks a board has.
pub const LOCKS: usize = 4;

/// The lock that a run is under, counted from 0.
pub fn lock_of_run(run: usize) -> usize
    ensures { result ≡ lock_of run }
{
    run % LOCKS
}

/// Names a lock of a board, and the ledger of what is posted under it.
pub trait LockName: Ledger {
    ghost lock: { ℕ };
}

impl LockName for Brand {
    ghost lock = { 0 };
}
