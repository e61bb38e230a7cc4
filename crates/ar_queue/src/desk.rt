//! What a worker does with the numbers that it takes.

ghost use Rattle.std.specs.Prelude.{◌≡◌, ◌<◌, OnOk, length};
ghost use Rattle.ar_queue.specs.Workers.{IsNamed};

use ar_bundle::{Bundle, BundleName};
use std::alloc::{AllocError, Global};
use std::sync::Wait;

/// What a worker does with each number that it takes, and keeps of it.
pub trait Desk<M: BundleName>: Drop {
    ghost use Rattle.std.specs.Prelude.{ℕ, List};

    /// The numbers that it was given.
    ghost numbers: { Self → List ℕ };

    /// Which of the workers it is for, counted from 0.
    fn worker(&self) -> usize;

    /// Judges a number, and keeps it with what that gave, or posts it.
    ///
    /// # Errors
    ///
    /// Out of memory alone.
    fn settle<R: Wait>(
        &mut self,
        rt: &R,
        alloc: Global,
        bundle: &Bundle,
        number: u64,
    ) -> Result<(), AllocError>
        requires bundle { bundle.now ≡ M.bundle }
        requires there { number < length M.bundle.entries }
        ensures named { OnOk result (IsNamed number (numbers self.old) (numbers self.new)) };
}
