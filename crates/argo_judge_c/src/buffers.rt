//! What a command writes as a sink, and texts in a caller's buffer.

ghost use Rattle.std.specs.Prelude.{◌≡◌};
ghost use Rattle.argo_judge_c.specs.Buffers.{IsPutOrLeft};

use ar_command::Sink;
use ar_command_line::DeviceFault;
use std::alloc::Global;

/// What a command writes, in memory.
#[derive(Drop)]
pub(crate) struct Written {
    pub text: Vec<u8>,
    pub wants_memory: bool,
}

impl Written {
    ghost use Rattle.std.specs.Prelude.{[], false};

    /// Nothing was written yet.
    pub(crate) fn new(alloc: Global) -> Written
        ensures text { result.text.items ≡ [] }
        ensures works { result.wants_memory ≡ false }
    {
        Written {
            text: Vec::new(alloc),
            wants_memory: false,
        }
    }
}

impl Sink for Written {
    ghost use Rattle.std.specs.Prelude.{Some};

    ghost contents = { λ writer. Some writer.text.items };

    ghost has_failed = { λ writer. writer.wants_memory };

    fn write(&mut self, buf: &[u8]) -> Result<usize, DeviceFault> {
        match self.text.extend_from_slice(buf) {
            Ok(()) => Ok(buf.len()),
            Err(_) => {
                self.wants_memory = true;
                Err(DeviceFault)
            }
        }
    }

    fn flush(&mut self) -> Result<(), DeviceFault> {
        Ok(())
    }

    fn failed(&self) -> bool {
        self.wants_memory
    }
}

/// Puts a text into a buffer where it fits, and its length into `written`; returns whether it fits.
pub(crate) fn put(text: &[u8], output: &mut [u8], written: &mut usize) -> bool
    ensures { IsPutOrLeft result text.now output.old output.new written.new }
{
    *written = text.len();
    if text.len() > output.len() {
        return false;
    }
    output[..text.len()].copy_from_slice(text);
    true
}
