//! What an input is read from and what an output is written to.
//!
//! Both remember whether they failed, so that a contract can say that a fault was returned only
//! where one came.

ghost use Rattle.std.specs.Prelude.{◌≡◌, ◌||◌, ℕ, List, [], ◌∷◌, Bool, true, None, Option, IfOk, OnOk, OnErr, take};
ghost use Rattle.std.specs.Io.{ReadsAtMost, WritesAtMost};
ghost use Rattle.std.specs.Io.KnownBytes.{Appends, Keeps, ReadConsumes, WriteAppends};
ghost use Rattle.ar_command_line.specs.History.{Extends, GrowsAtMost};
ghost use Rattle.ar_command_line.specs.Output.{Call, flush, takes_nothing, write};

/// A read or a write failed; a `Device` says why.
#[derive(Clone, Copy)]
pub struct DeviceFault;

/// What a document is read from.
pub trait Source {
    // The bytes that reads will give from here on, where they are known.
    ghost remaining: { Self → Option (List ℕ) };

    // The bytes that reads have given so far, where they are kept.
    ghost taken: { Self → Option (List ℕ) };

    // How many reads were made so far, where they are counted.
    ghost reads: { Self → Option ℕ } = { λ _. None };

    // Whether a read failed.
    ghost has_failed: { Self → Bool };

    /// Reads bytes into the front of the buffer and returns how many; none only at the end of the
    /// input, or where the buffer is empty.
    fn read(&mut self, buf: &mut [u8]) -> Result<usize, DeviceFault>
        ensures bound { ReadsAtMost result buf.new }
        ensures bytes { ReadConsumes (remaining self.old) (remaining self.new) result buf.new }
        ensures takes { IfOk result (λ count. Appends (taken self.old) (taken self.new) (take count buf.new)) }
        ensures counts { GrowsAtMost (reads self.old) (reads self.new) 1 }
        ensures works { OnOk result (has_failed self.new ≡ has_failed self.old) }
        ensures fails { OnErr result (has_failed self.new ≡ true) };

    /// Whether a read failed.
    fn failed(&self) -> bool
        ensures { result ≡ has_failed self.now };
}

/// What an output is written to.
pub trait Sink {
    // The bytes that were written, where they are known.
    ghost contents: { Self → Option (List ℕ) };

    // The calls that were made so far, with what they were answered, where that is kept.
    ghost calls: { Self → Option (List Call) } = { λ _. None };

    // Whether a write or a flush failed.
    ghost has_failed: { Self → Bool };

    /// Writes bytes from the front of those handed in and returns how many. A write that takes none of
    /// them, though there are some, has failed.
    fn write(&mut self, buf: &[u8]) -> Result<usize, DeviceFault>
        ensures bound { WritesAtMost result buf.now }
        ensures bytes { WriteAppends (contents self.old) (contents self.new) result buf.now }
        ensures call { Extends (calls self.old) (calls self.new) (write result ∷ []) }
        ensures works { IfOk result (λ count.
            has_failed self.new ≡ (has_failed self.old || takes_nothing count buf.now)) }
        ensures fails { OnErr result (has_failed self.new ≡ true) };

    /// Hands on what was written and is still held back.
    fn flush(&mut self) -> Result<(), DeviceFault>
        ensures bytes { Keeps (contents self.old) (contents self.new) }
        ensures call { Extends (calls self.old) (calls self.new) (flush result ∷ []) }
        ensures works { OnOk result (has_failed self.new ≡ has_failed self.old) }
        ensures fails { OnErr result (has_failed self.new ≡ true) };

    /// Whether a write or a flush failed.
    fn failed(&self) -> bool
        ensures { result ≡ has_failed self.now };
}
