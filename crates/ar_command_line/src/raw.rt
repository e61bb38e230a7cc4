//! One call of a reader or a writer, which a signal may interrupt.
//!
//! What was answered is kept for contracts alone. The standard library's readers and writers keep none of it; what is
//! made of the answers is proved of each reader and writer, so of those that keep them, too.

ghost use Rattle.std.specs.Prelude.{◌≡◌, ℕ, List, [], ◌∷◌, Option, Result};
ghost use Rattle.std.specs.Io.{ReadsAtMost, WritesAtMost};
ghost use Rattle.std.specs.Io.KnownBytes.{Keeps, ReadConsumes, WriteAppends};
ghost use Rattle.std.specs.declared.io.Error.{Error};
ghost use Rattle.ar_command_line.specs.History.{Extends};

use std::io;
use std::io::{Read, Write};

/// A reader, a call at a time.
pub trait RawRead {
    // The bytes that reads will give from here on, where they are known.
    ghost remaining: { Self → Option (List ℕ) };

    // What reads were answered so far, where that is kept.
    ghost read_answers: { Self → Option (List (Result ℕ Error)) };

    /// One read.
    fn read_once(&mut self, buf: &mut [u8]) -> io::Result<usize>
        ensures bound { ReadsAtMost result buf.new }
        ensures bytes { ReadConsumes (remaining self.old) (remaining self.new) result buf.new }
        ensures answer { Extends (read_answers self.old) (read_answers self.new) (result ∷ []) };
}

/// A writer, a call at a time.
pub trait RawWrite {
    // The bytes that were written, where they are known.
    ghost contents: { Self → Option (List ℕ) };

    // What writes were answered so far, where that is kept.
    ghost write_answers: { Self → Option (List (Result ℕ Error)) };

    // What flushes were answered so far, where that is kept.
    ghost flush_answers: { Self → Option (List (Result (Unit {0}) Error)) };

    /// One write.
    fn write_once(&mut self, buf: &[u8]) -> io::Result<usize>
        ensures bound { WritesAtMost result buf.now }
        ensures bytes { WriteAppends (contents self.old) (contents self.new) result buf.now }
        ensures answer { Extends (write_answers self.old) (write_answers self.new) (result ∷ []) }
        ensures no_flush { flush_answers self.new ≡ flush_answers self.old };

    /// One flush.
    fn flush_once(&mut self) -> io::Result<()>
        ensures bytes { Keeps (contents self.old) (contents self.new) }
        ensures answer { Extends (flush_answers self.old) (flush_answers self.new) (result ∷ []) }
        ensures no_write { write_answers self.new ≡ write_answers self.old };
}

impl<T: Read> RawRead for T {
    ghost use Rattle.std.specs.Prelude.{None};

    ghost remaining = { λ reader. T.Read.remaining reader };

    ghost read_answers = { λ _. None };

    fn read_once(&mut self, buf: &mut [u8]) -> io::Result<usize> {
        self.read(buf)
    }
}

impl<T: Write> RawWrite for T {
    ghost use Rattle.std.specs.Prelude.{None};

    ghost contents = { λ writer. T.Write.contents writer };

    ghost write_answers = { λ _. None };

    ghost flush_answers = { λ _. None };

    fn write_once(&mut self, buf: &[u8]) -> io::Result<usize> {
        self.write(buf)
    }

    fn flush_once(&mut self) -> io::Result<()> {
        self.flush()
    }
}
