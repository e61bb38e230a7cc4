//! What a command says of an input.

ghost use Rattle.std.specs.Prelude.{◌≡◌, ◌≤◌, IfOk, string_bytes};
ghost use Rattle.ar_command.specs.Serving.{RefusesInput, RunsAlone};
ghost use Rattle.ar_refusal.specs.Refused.{IsWrittenAs};
ghost use Rattle.argo_judge_c.specs.Library.{IsAnswer, IsRefusedInput, IsSaidOrRefused, command_of, format_of_number, unknown_diagnostic};

use crate::buffers::Written;
use crate::commands::{command_of, format_of_number};
use ar_command::{Command, Refusal, ServeError, serve_plain_input, status};
use ar_diagnostic::{Diagnostic, Place};
use ar_refusal::{refusal_text, written_as};
use ar_value::Text;
use std::alloc::{AllocError, Global};

/// A text, and its status.
#[derive(Drop)]
pub(crate) struct Answer {
    pub text: Vec<u8>,
    pub status: u8,
}

/// What the command of a number says of an input, or why it is refused.
pub(crate) fn answer_of(alloc: Global, number: u32, input: &[u8]) -> Result<Answer, AllocError>
    ensures answer { IfOk result (λ answer.
        IsAnswer number (command_of number) input.now answer.text.items answer.status) }
    ensures status { IfOk result (λ answer. answer.status ≤ 2) }
{
    match command_of(number) {
        Some(command) => carried_out(alloc, command, input),
        None => Ok(refused(unknown_text(alloc, number)?)),
    }
}

/// A number that no command has.
fn unknown_diagnostic(alloc: Global, number: u32) -> Result<Diagnostic, AllocError>
    ensures { IfOk result (λ it. it ≡ unknown_diagnostic number) }
{
    let expected = "0 to 4, or 16, 17, 19 or 20 for JSON";
    let mut it = Diagnostic::expecting(alloc, Place::CommandNumber, "Unknown", expected)?;
    it.found = Some(Text::from(format!(in alloc; "{number} is no command")?));
    Ok(it)
}

/// What is said of a number that no command has.
fn unknown_text(alloc: Global, number: u32) -> Result<String, AllocError>
    ensures { IfOk result
        (λ text. IsWrittenAs (format_of_number number) (unknown_diagnostic number) (string_bytes text)) }
{
    let it = unknown_diagnostic(alloc, number)?;
    written_as(alloc, format_of_number(number), &it)
}

/// What is said of a refusal.
fn refused(text: String) -> Answer
    ensures text { result.text.items ≡ string_bytes text }
    ensures status { result.status ≡ 2 }
{
    Answer {
        text: text.into_bytes(),
        status: status::REFUSED,
    }
}

/// What a command says of an input, or why it is refused.
fn carried_out(alloc: Global, command: Command<'_>, input: &[u8]) -> Result<Answer, AllocError>
    requires { RunsAlone command }
    ensures answer { IfOk result (λ answer.
        IsSaidOrRefused command.entry input.now answer.text.items answer.status) }
    ensures status { IfOk result (λ answer. answer.status ≤ 2) }
{
    let mut writer = Written::new(alloc);
    let mut warnings = Vec::new(alloc);
    let outcome = serve_plain_input(alloc, command, input, &mut writer, &mut warnings);
    match &outcome {
        Ok(_) => Ok(Answer {
            text: writer.text,
            status: status::status_of(&outcome),
        }),
        Err(ServeError::Refused(refusal)) => {
            Ok(refused(refused_text(alloc, command, input, refusal)?))
        }
        Err(ServeError::Write | ServeError::OutOfMemory) => Err(AllocError),
        Err(ServeError::Read | ServeError::Work(_)) => unreachable!(),
    }
}

/// What is said of a refused input.
fn refused_text(
    alloc: Global,
    command: Command<'_>,
    input: &[u8],
    refusal: &Refusal,
) -> Result<String, AllocError>
    requires { RefusesInput command input.now refusal.now }
    ensures { IfOk result (λ text. IsRefusedInput command.entry input.now (string_bytes text) 2) }
{
    refusal_text(alloc, command, input, refusal)
}
