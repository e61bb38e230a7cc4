//! Reading a whole document.

ghost use Rattle.std.specs.Prelude.{◌≡◌, false, true, IfOk, length};
ghost use Rattle.std.specs.Io.KnownBytes.{Appends};
ghost use Rattle.ar_command_line.specs.History.{GrowsAtMost};
ghost use Rattle.ar_command_line.specs.Input.{ReadsUpToLimit, most_reads};

use crate::stream::Source;
use ar_json::document::MOST_BYTES;
use std::alloc::{AllocError, Global};

/// How many bytes one read asks for.
const CHUNK: usize = 65_536;

/// How often the source is read at most: each read but the last gives a byte or more, and the first byte too many ends
/// the loop.
const MOST_READS: usize = MOST_BYTES + 2;

/// Why an input can't be read.
#[derive(Drop)]
pub enum InputError {
    Read,
    OutOfMemory,
}

impl From<AllocError> for InputError {
    ghost use Rattle.ar_command_line.specs.declared.input.InputError.TheVariants.{OutOfMemory};

    ghost from_gives = { λ _ e. e ≡ OutOfMemory };

    fn from(_: AllocError) -> InputError {
        InputError::OutOfMemory
    }
}

fn zeros(alloc: Global, len: usize) -> Result<Vec<u8>, AllocError>
    ensures { IfOk result (λ buffer. length buffer.items ≡ len) }
{
    vec![in alloc; 0u8; len]
}

/// All bytes of the source, or more than a document may have.
pub fn read_input<R: Source>(alloc: Global, source: &mut R) -> Result<Vec<u8>, InputError>
    requires { R.has_failed source.old ≡ false }
    ensures ok { IfOk result (λ bytes. ReadsUpToLimit (R.remaining source.old) (R.remaining source.new) bytes.items) }
    ensures taken { IfOk result (λ bytes. Appends (R.taken source.old) (R.taken source.new) bytes.items) }
    ensures counts { GrowsAtMost (R.reads source.old) (R.reads source.new) most_reads }
    ensures read { result ≡ Err InputError.Read → R.has_failed source.new ≡ true }
    ensures reported { R.has_failed source.new ≡ true → result ≡ Err InputError.Read }
{
    let mut bytes = Vec::new(alloc);
    let mut chunk = zeros(alloc, CHUNK)?;
    for reads in 0..MOST_READS {
        let Ok(count) = source.read(&mut chunk) else {
            return Err(InputError::Read);
        };
        if count == 0 {
            return Ok(bytes);
        }
        bytes.extend_from_slice(&chunk[..count])?;
        if bytes.len() > MOST_BYTES {
            return Ok(bytes);
        }
    }
    unreachable!()
}
