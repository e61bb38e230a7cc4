//! Readers and writers of the standard library as sources and sinks.

ghost use Rattle.std.specs.Prelude.{◌≡◌, IfErr, IfSome};
ghost use Rattle.std.specs.Option.{ForSome};
ghost use Rattle.ar_command_line.specs.Retrying.{IsLasting};

use crate::raw::{RawRead, RawWrite};
use crate::retrying::{flush_retrying, read_retrying, write_retrying};
use crate::stream::{DeviceFault, Sink, Source};
use std::io;

/// A reader or a writer of the standard library's, with the first fault that it met. A call that a
/// signal interrupts has met none, and is made again.
#[derive(Drop)]
pub struct Device<T> {
    inner: T,
    fault: Option<io::Error>,
    ghost lasting: { ForSome fault IsLasting },
}

impl<T> Device<T> {
    ghost use Rattle.std.specs.Prelude.{◌≡◌, false};
    ghost use Rattle.std.specs.Option.{option_copied};
    ghost use Rattle.ar_command_line.specs.Device.{answer_of, fault_of, first_fault, has_failed, inner_of, or_first};

    /// A device that has met no fault.
    pub fn new(inner: T) -> Device<T>
        ensures inner { inner_of result ≡ inner }
        ensures works { has_failed result ≡ false }
    {
        Device { inner, fault: None }
    }

    /// The first fault that it met. An interruption is none.
    pub fn fault(&self) -> Option<&io::Error>
        ensures first { option_copied result ≡ fault_of self.now }
        ensures lasting { IfSome (fault_of self.now) IsLasting }
    {
        self.fault.as_ref()
    }

    /// What the reader or the writer returned; the first fault is kept.
    fn answered<A>(&mut self, answer: io::Result<A>) -> Result<A, DeviceFault>
        requires lasting { IfErr answer IsLasting }
        ensures answer { result ≡ answer_of answer }
        ensures fault { fault_of self.new ≡ first_fault (fault_of self.old) answer }
        ensures inner { inner_of self.new ≡ inner_of self.old }
    {
        match answer {
            Ok(value) => Ok(value),
            Err(fault) => {
                self.keep(fault);
                Err(DeviceFault)
            }
        }
    }

    /// Keeps a fault if it is the first.
    fn keep(&mut self, fault: io::Error)
        requires lasting { IsLasting fault }
        ensures fault { fault_of self.new ≡ or_first (fault_of self.old) fault }
        ensures inner { inner_of self.new ≡ inner_of self.old }
    {
        if self.fault.is_none() {
            self.fault = Some(fault);
        }
    }
}

impl<T: RawRead> Source for Device<T> {
    ghost use Rattle.std.specs.Prelude.{◌≡◌, None, OnErr, OnOk, true};
    ghost use Rattle.std.specs.Io.{ReadsAtMost};
    ghost use Rattle.std.specs.Io.KnownBytes.{ReadConsumes};
    ghost use Rattle.ar_command_line.specs.Device as device;

    ghost remaining = { λ d. T.remaining (device.inner_of d) };

    ghost taken = { λ _. None };

    ghost reads = { λ _. None };

    ghost has_failed = { λ d. device.has_failed d };

    fn read(&mut self, buf: &mut [u8]) -> Result<usize, DeviceFault>
        ensures bound { ReadsAtMost result buf.new }
        ensures bytes { ReadConsumes (T.remaining (device.inner_of self.old)) (T.remaining (device.inner_of self.new))
            result buf.new }
        ensures works { OnOk result (device.has_failed self.new ≡ device.has_failed self.old) }
        ensures fails { OnErr result (device.has_failed self.new ≡ true) }
        ensures handed { device.HandsOn T.read_answers self.old self.new result }
    {
        let answer = read_retrying(&mut self.inner, buf);
        self.answered(answer)
    }

    fn failed(&self) -> bool {
        self.fault.is_some()
    }
}

impl<T: RawWrite> Sink for Device<T> {
    ghost use Rattle.std.specs.Prelude.{◌≡◌, ◌||◌, IfOk, None, OnErr, OnOk, true};
    ghost use Rattle.std.specs.Io.{WritesAtMost};
    ghost use Rattle.std.specs.Io.KnownBytes.{Keeps, WriteAppends};
    ghost use Rattle.ar_command_line.specs.Device as device;
    ghost use Rattle.ar_command_line.specs.Output.{takes_nothing};

    ghost contents = { λ d. T.contents (device.inner_of d) };

    ghost calls = { λ _. None };

    ghost has_failed = { λ d. device.has_failed d };

    fn write(&mut self, buf: &[u8]) -> Result<usize, DeviceFault>
        ensures bound { WritesAtMost result buf.now }
        ensures bytes { WriteAppends (T.contents (device.inner_of self.old)) (T.contents (device.inner_of self.new))
            result buf.now }
        ensures works { IfOk result (λ count.
            device.has_failed self.new ≡ (device.has_failed self.old || takes_nothing count buf.now)) }
        ensures fails { OnErr result (device.has_failed self.new ≡ true) }
        ensures handed { device.HandsOnWrite T.write_answers buf.now self.old self.new result }
        ensures no_flush { T.flush_answers (device.inner_of self.new) ≡ T.flush_answers (device.inner_of self.old) }
    {
        match write_retrying(&mut self.inner, buf) {
            Ok(0) if !buf.is_empty() => {
                self.answered(Err(io::Error::from(io::ErrorKind::WriteZero)))
            }
            answer => self.answered(answer),
        }
    }

    fn flush(&mut self) -> Result<(), DeviceFault>
        ensures bytes { Keeps (T.contents (device.inner_of self.old)) (T.contents (device.inner_of self.new)) }
        ensures works { OnOk result (device.has_failed self.new ≡ device.has_failed self.old) }
        ensures fails { OnErr result (device.has_failed self.new ≡ true) }
        ensures handed { device.HandsOn T.flush_answers self.old self.new result }
        ensures no_write { T.write_answers (device.inner_of self.new) ≡ T.write_answers (device.inner_of self.old) }
    {
        let answer = flush_retrying(&mut self.inner);
        self.answered(answer)
    }

    fn failed(&self) -> bool {
        self.fault.is_some()
    }
}
