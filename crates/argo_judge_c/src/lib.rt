//! `argo_judge` as a C library: commands over buffers of the caller's.
//!
//! [`argo_judge_run`] carries out one command on a document in memory, as the program does with the
//! document on its standard input, and puts what the program prints into the caller's buffer: the answer,
//! or the line of a refusal. The status is the program's exit status, or [`TOO_SMALL`] where the buffer is
//! too small; `specs/Library` says for each when it comes and what it leaves. [`argo_judge_version`] is
//! what `--version` prints. No call starts a thread or keeps memory.
//!
//! - `commands`: the commands of numbers
//! - `answers`: what a command says of an input
//! - `buffers`: the answer as a sink, and a text in a caller's buffer
#![tactic(auto)]

mod answers;
mod buffers;
mod commands;

ghost use Rattle.std.specs.Prelude.{◌≡◌, ◌≤◌};
ghost use Rattle.argo_judge_c.specs.Buffers.{IsPutOrLeft};
ghost use Rattle.argo_judge_c.specs.Library.{HasRun};

use answers::answer_of;
use ar_command::status;
use ar_command_line::VERSION;
use buffers::put;
use std::alloc::{AllocError, Global};

/// The status where the buffer is too small for the answer.
pub const TOO_SMALL: u8 = 4;

/// Carries out the command of a number on a document. The answer, or the line of a refusal, is put into
/// `output`, and its length into `written`. Where `output` is too small it stays as it is, and `written`
/// says how large it has to be.
///
/// Returns the program's exit status, or `TOO_SMALL`.
#[unsafe(no_mangle)]
pub extern "C" fn argo_judge_run(
    alloc: Global,
    command: u32,
    input: &[u8],
    output: &mut [u8],
    written: &mut usize,
) -> u8
    ensures run { HasRun command input.now output.old output.new written.new result }
    ensures known { result ≤ 4 }
{
    let answer = match answer_of(alloc, command, input) {
        Ok(answer) => answer,
        Err(AllocError) => {
            *written = 0;
            return status::OUT_OF_MEMORY;
        }
    };
    if put(&answer.text, output, written) {
        answer.status
    } else {
        TOO_SMALL
    }
}

/// Puts the version, as `--version` prints it after the program's name, into `output`, and its length into
/// `written`.
///
/// Returns whether it fits; where it doesn't, `output` stays as it is.
#[unsafe(no_mangle)]
pub extern "C" fn argo_judge_version(output: &mut [u8], written: &mut usize) -> bool
    ensures { IsPutOrLeft result VERSION.now output.old output.new written.new }
{
    put(VERSION.as_bytes(), output, written)
}
