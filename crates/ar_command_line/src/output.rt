//! Writing a whole output.

ghost use Rattle.std.specs.Prelude.{◌≡◌, false, true, OnErr, OnOk};
ghost use Rattle.ar_command_line.specs.Output.{AppendsAll, AppendsFront};

use crate::stream::{DeviceFault, Sink};

/// Writes all of the bytes and then flushes the sink, once. Each iteration writes a byte or more, so there are
/// at most as many iterations as bytes. Of a sink that fails the front of the bytes that it took is known to be
/// written, and the call that failed is the last.
pub fn write_output<W: Sink>(sink: &mut W, bytes: &[u8]) -> Result<(), DeviceFault>
    requires { W.has_failed sink.old ≡ false }
    ensures whole { OnOk result (AppendsAll W.contents W.calls sink.old sink.new bytes.now) }
    ensures front { OnErr result (AppendsFront W.contents W.calls sink.old sink.new bytes.now) }
    ensures works { OnOk result (W.has_failed sink.new ≡ false) }
    ensures fails { OnErr result (W.has_failed sink.new ≡ true) }
{
    let mut rest = bytes;
    while !rest.is_empty() {
        let count = sink.write(rest)?;
        if count == 0 {
            return Err(DeviceFault);
        }
        rest = &rest[count..];
    }
    sink.flush()
}
