//! Diagnostics in a format.

ghost use Rattle.std.specs.Prelude.{◌≡◌, IfOk, map, string_bytes};
ghost use Rattle.ar_refusal.specs.Refused.{IsWrittenAs, format_of};
ghost use Rattle.ar_refusal.specs.Usage.{IsUsageText, usage_format};

use ar_command::{Command, Format};
use ar_command_line::UsageError;
use ar_diagnostic::{Diagnostic, refusal_json, refusal_line};
use ar_usage::{asks_for_json, usage_diagnostic};
use std::alloc::{AllocError, Global};

/// The format of a command's answer, and of its refusal.
pub fn format_of(command: Command<'_>) -> Format
    ensures { result ≡ format_of command.entry }
{
    match command {
        Command::Eval(format)
        | Command::Check(format)
        | Command::Run(_, format)
        | Command::Plain(format)
        | Command::Ordered(_, format)
        | Command::Explain(_, format) => format,
        Command::List => Format::Text,
    }
}

/// A diagnostic in a format: a line without a line feed, or one JSON object with one.
///
/// # Errors
///
/// Out of memory alone.
pub fn written_as(alloc: Global, format: Format, it: &Diagnostic) -> Result<String, AllocError>
    ensures { IfOk result (λ text. IsWrittenAs format it.now (string_bytes text)) }
{
    match format {
        Format::Text => refusal_line(alloc, it),
        Format::Json => refusal_json(alloc, it),
    }
}

/// The format that the words of a refused command line ask for.
fn usage_format(words: &[String]) -> Format
    ensures { result ≡ usage_format (map (λ word. string_bytes word) words.now) }
{
    if asks_for_json(words) {
        Format::Json
    } else {
        Format::Text
    }
}

/// What is said of a refused command line, in the format that its words ask for: a line without a line feed,
/// or one JSON object with one.
///
/// # Errors
///
/// Out of memory alone.
pub fn usage_text(
    alloc: Global,
    words: &[String],
    error: UsageError,
) -> Result<(Format, String), AllocError>
    ensures { IfOk result (λ found.
        IsUsageText (map (λ word. string_bytes word) words.now) error found.0 (string_bytes found.1)) }
{
    let it = usage_diagnostic(alloc, words, error)?;
    let format = usage_format(words);
    Ok((format, written_as(alloc, format, &it)?))
}
