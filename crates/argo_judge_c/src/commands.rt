//! The commands of numbers.

ghost use Rattle.std.specs.Prelude.{◌≡◌};
ghost use Rattle.argo_judge_c.specs.Library.{command_in, command_of, format_of_number};

use ar_command::{Command, Format, Selection};

/// What is added to a command's number where its answer is to be JSON.
const JSON: u32 = 16;

/// The format of the answer that a number asks for.
pub(crate) fn format_of_number(number: u32) -> Format
    ensures { result ≡ format_of_number number }
{
    if number < JSON {
        Format::Text
    } else {
        Format::Json
    }
}

/// The command of a number, if it has one.
pub(crate) fn command_of(number: u32) -> Option<Command<'static>>
    ensures { result ≡ command_of number }
{
    if number < JSON {
        command_in(number, Format::Text)
    } else {
        command_in(number - JSON, Format::Json)
    }
}

fn command_in(number: u32, format: Format) -> Option<Command<'static>>
    ensures { result ≡ command_in number format }
{
    match (number, format) {
        (0, _) => Some(Command::Eval(format)),
        (1, _) => Some(Command::Check(format)),
        (2, Format::Text) => Some(Command::List),
        (3, _) => Some(Command::Plain(format)),
        (4, _) => Some(Command::Explain(Selection::All, format)),
        _ => None,
    }
}
