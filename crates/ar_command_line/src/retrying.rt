//! Calls of the system that are made again where a signal interrupted them.

ghost use Rattle.std.specs.Prelude.{◌≡◌, false, true, IfErr};
ghost use Rattle.std.specs.Io.{ReadsAtMost, WritesAtMost};
ghost use Rattle.std.specs.Io.KnownBytes.{Keeps, ReadConsumes, WriteAppends};
ghost use Rattle.std.specs.IoError.{error_kind};
ghost use Rattle.ar_command_line.specs.Retrying.{IsInterrupted, IsLasting, Retries};

use crate::raw::{RawRead, RawWrite};
use std::io;
use std::io::ErrorKind;

/// How often a call is made at most, as the standard library has it.
const MOST_TRIES: u64 = u64::MAX;

/// One read.
#[tactic(auto, using(crate::proofs::Retries::not_yet, crate::proofs::Retries::once_more, crate::proofs::Retries::answered, crate::proofs::Retries::given_up))]
pub(crate) fn read_retrying<T: RawRead>(reader: &mut T, buf: &mut [u8]) -> io::Result<usize>
    ensures bound { ReadsAtMost result buf.new }
    ensures bytes { ReadConsumes (T.remaining reader.old) (T.remaining reader.new) result buf.new }
    ensures lasting { IfErr result IsLasting }
    ensures retried { Retries (T.read_answers reader.old) (T.read_answers reader.new) result }
{
    for _try in 0..MOST_TRIES {
        let answer = reader.read_once(buf);
        if !is_interrupted(&answer) {
            return answer;
        }
    }
    Err(interrupted_too_often())
}

/// One write.
#[tactic(auto, using(crate::proofs::Retries::not_yet, crate::proofs::Retries::once_more, crate::proofs::Retries::answered, crate::proofs::Retries::given_up))]
pub(crate) fn write_retrying<T: RawWrite>(writer: &mut T, buf: &[u8]) -> io::Result<usize>
    ensures bound { WritesAtMost result buf.now }
    ensures bytes { WriteAppends (T.contents writer.old) (T.contents writer.new) result buf.now }
    ensures lasting { IfErr result IsLasting }
    ensures retried { Retries (T.write_answers writer.old) (T.write_answers writer.new) result }
    ensures no_flush { T.flush_answers writer.new ≡ T.flush_answers writer.old }
{
    for _try in 0..MOST_TRIES {
        let answer = writer.write_once(buf);
        if !is_interrupted(&answer) {
            return answer;
        }
    }
    Err(interrupted_too_often())
}

/// One flush.
#[tactic(auto, using(crate::proofs::Retries::not_yet, crate::proofs::Retries::once_more, crate::proofs::Retries::answered, crate::proofs::Retries::given_up))]
pub(crate) fn flush_retrying<T: RawWrite>(writer: &mut T) -> io::Result<()>
    ensures bytes { Keeps (T.contents writer.old) (T.contents writer.new) }
    ensures lasting { IfErr result IsLasting }
    ensures retried { Retries (T.flush_answers writer.old) (T.flush_answers writer.new) result }
    ensures no_write { T.write_answers writer.new ≡ T.write_answers writer.old }
{
    for _try in 0..MOST_TRIES {
        let answer = writer.flush_once();
        if !is_interrupted(&answer) {
            return answer;
        }
    }
    Err(interrupted_too_often())
}

/// Whether a result is that a signal interrupted the call, which did nothing then.
fn is_interrupted<A>(answer: &io::Result<A>) -> bool
    ensures interrupted { result ≡ true → IsInterrupted answer.now }
    ensures ended { result ≡ false → IfErr answer.now IsLasting }
{
    match answer {
        Ok(_) => false,
        Err(fault) => fault.kind() == ErrorKind::Interrupted,
    }
}

/// What is reported of a call that was interrupted each time.
fn interrupted_too_often() -> io::Error
    ensures { error_kind result ≡ ErrorKind.TimedOut }
{
    io::Error::from(ErrorKind::TimedOut)
}
