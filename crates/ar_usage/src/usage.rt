//! Diagnostics of command lines that are refused.

ghost use Rattle.std.specs.Prelude.{◌≡◌, ◌++◌, IfOk, map, option_map, string_bytes};
ghost use Rattle.ar_quote.specs.Shown.{quoted};
ghost use Rattle.ar_usage.specs.Usage.{asks_for_json, document_hint, first_refusal, list_hint, no_value_after, no_value_is, noun_of, option_and_expected, option_hint, taker_hint, usage_diagnostic, value_diagnostic, value_found, value_refusal, word_expecting, word_hinted, word_refusal, words_diagnostic};

use crate::words::{
    Next, Taker, Valued, expected, first_refused, flag_of, is_option, name_of, value_given,
};
use ar_command_line::UsageError;
use ar_diagnostic::{Diagnostic, Flag, Place, with_quoted};
use ar_value::Text;
use std::alloc::{AllocError, Global};

// ---- a word that isn't taken

/// Something else is expected than a word.
fn word_expecting(
    alloc: Global,
    word: &str,
    why: &str,
    expected: &str,
) -> Result<Diagnostic, AllocError>
    ensures { IfOk result (λ it. it ≡ word_expecting word.now why.now expected.now) }
{
    let place = Place::CommandLine(None);
    let mut it = Diagnostic::expecting(alloc, place, UsageError::Words.name(), expected)?;
    it.found = Some(with_quoted(alloc, "", word, why)?);
    Ok(it)
}

/// A word isn't taken, and something helps.
fn word_hinted(alloc: Global, word: &str, hint: &str) -> Result<Diagnostic, AllocError>
    ensures { IfOk result (λ it. it ≡ word_hinted word.now hint.now) }
{
    let place = Place::CommandLine(None);
    let mut it = Diagnostic::named(alloc, place, UsageError::Words.name())?;
    it.found = Some(with_quoted(alloc, "", word, " isn't taken")?);
    it.hint = Some(Text::of(alloc, hint)?);
    Ok(it)
}

/// The options that a command takes.
fn option_hint(taker: Taker) -> &'static str
    ensures { result.now ≡ option_hint taker }
{
    match taker {
        Taker::EvalOrCheck => "`eval` and `check` take --output FORMAT, once",
        Taker::Run => {
            "`run` takes --workers N, --plain, --ordered and --output FORMAT, each once"
        }
        Taker::Explain => {
            "`explain` takes one of --event N, --run NAME and --metric NAME, and --output FORMAT, each once"
        }
    }
}

/// Where the document comes from, since it is no word.
fn document_hint(taker: Taker) -> &'static str
    ensures { result.now ≡ document_hint taker }
{
    match taker {
        Taker::EvalOrCheck => {
            "the document is read from standard input, as by: argo_judge COMMAND < document.json"
        }
        Taker::Run => {
            "the document is read from standard input, as by: argo_judge run --plain < document.json"
        }
        Taker::Explain => {
            "the document is read from standard input, as by: argo_judge explain < document.json"
        }
    }
}

/// What helps where a command that takes options doesn't take a word.
fn taker_hint(taker: Taker, word: &str) -> &'static str
    ensures { result.now ≡ taker_hint taker word.now }
{
    if is_option(word) {
        option_hint(taker)
    } else {
        document_hint(taker)
    }
}

/// What helps where `list` doesn't take a word.
fn list_hint(word: &str) -> &'static str
    ensures { result.now ≡ list_hint word.now }
{
    if is_option(word) {
        "`list` has no options but --help"
    } else {
        document_hint(Taker::EvalOrCheck)
    }
}

/// What the value of an option is.
fn noun_of(option: Valued) -> &'static str
    ensures { result.now ≡ noun_of option }
{
    match option {
        Valued::Workers | Valued::Event => "number",
        Valued::Output => "format",
        Valued::RunName | Valued::MetricName => "name",
    }
}

/// An option, and what is expected after it.
fn option_and_expected(alloc: Global, option: Valued) -> Result<String, AllocError>
    ensures { IfOk result (λ text. string_bytes text ≡ option_and_expected option) }
{
    let mut text = String::from_str(alloc, name_of(option))?;
    text.push_str(" and ")?;
    text.push_str(expected(option))?;
    Ok(text)
}

/// An option has no value after it, but the end or another option.
fn value_refusal(alloc: Global, option: Valued, word: &str) -> Result<Diagnostic, AllocError>
    ensures { IfOk result (λ it. it ≡ value_refusal option word.now) }
{
    let noun = noun_of(option);
    if word == name_of(option) {
        let why = format!(in alloc; " has no {noun} after it")?;
        word_expecting(alloc, word, why.as_str(), expected(option))
    } else {
        let why = format!(in alloc; " is no {noun}")?;
        let thing = option_and_expected(alloc, option)?;
        word_expecting(alloc, word, why.as_str(), thing.as_str())
    }
}

/// A word isn't taken where something else could have come.
fn word_refusal(alloc: Global, next: Next, word: &str) -> Result<Diagnostic, AllocError>
    ensures { IfOk result (λ it. it ≡ word_refusal next word.now) }
{
    match next {
        Next::Command => word_expecting(
            alloc,
            word,
            " is no command",
            "`eval`, `check`, `list`, `run` or `explain`, or --help",
        ),
        Next::Nothing => word_hinted(alloc, word, list_hint(word)),
        Next::Options(taker, _) => word_hinted(alloc, word, taker_hint(taker, word)),
        Next::Value(option, _, _) => value_refusal(alloc, option, word),
    }
}

/// The first word that isn't taken, or that there is none, since there are no words.
fn first_refusal(alloc: Global, refused: Option<(Next, &str)>) -> Result<Diagnostic, AllocError>
    ensures { IfOk result (λ it. it
        ≡ first_refusal (option_map (λ found. (found.0, found.1.now)) refused.entry)) }
{
    match refused {
        Some((next, word)) => word_refusal(alloc, next, word),
        None => Diagnostic::expecting(
            alloc,
            Place::CommandLine(None),
            UsageError::Words.name(),
            "`eval`, `check`, `list`, `run` or `explain`, with the document on standard input, or --help",
        ),
    }
}

/// Words aren't taken, the first of which is the program's name.
fn words_diagnostic(alloc: Global, words: &[String]) -> Result<Diagnostic, AllocError>
    ensures { IfOk result (λ it. it ≡ words_diagnostic (map (λ word. string_bytes word) words.now)) }
{
    first_refusal(alloc, first_refused(words.get(1..).unwrap_or(&[])))
}

// ---- a value that isn't taken

/// A value in quotes that isn't taken, if one was given.
fn value_found(alloc: Global, value: Option<&str>) -> Result<Option<Text>, AllocError>
    ensures { IfOk result (λ found. found ≡ value_found (option_map (λ value. value.now) value.entry)) }
{
    match value {
        Some(value) => Ok(Some(with_quoted(alloc, "", value, " isn't taken")?)),
        None => Ok(None),
    }
}

/// The value of an option isn't taken.
fn value_diagnostic(
    alloc: Global,
    words: &[String],
    option: Valued,
    error: UsageError,
) -> Result<Diagnostic, AllocError>
    ensures { IfOk result
        (λ it. it ≡ value_diagnostic (map (λ word. string_bytes word) words.now) option error) }
{
    let place = Place::CommandLine(Some(flag_of(option)));
    let mut it = Diagnostic::expecting(alloc, place, error.name(), expected(option))?;
    it.found = value_found(alloc, value_given(option, words))?;
    Ok(it)
}

// ---- each refusal

/// What is said of the words of a command line, of which the first is the program's name, where they are refused.
///
/// # Errors
///
/// Out of memory alone.
#[tactic(auto, unfolding(crate::specs::Usage::usage_diagnostic))]
pub fn usage_diagnostic(
    alloc: Global,
    words: &[String],
    error: UsageError,
) -> Result<Diagnostic, AllocError>
    ensures { IfOk result (λ it. it ≡ usage_diagnostic (map (λ word. string_bytes word) words.now) error) }
{
    match error {
        UsageError::Words => words_diagnostic(alloc, words),
        UsageError::Workers => value_diagnostic(alloc, words, Valued::Workers, error),
        UsageError::Event => value_diagnostic(alloc, words, Valued::Event, error),
        UsageError::Output => value_diagnostic(alloc, words, Valued::Output, error),
        UsageError::Conflict => Diagnostic::expecting(
            alloc,
            Place::CommandLine(Some(Flag::Ordered)),
            error.name(),
            "--ordered or --plain, not both",
        ),
        UsageError::Several => Diagnostic::expecting(
            alloc,
            Place::CommandLine(None),
            error.name(),
            "one of --event, --run and --metric, not several",
        ),
        UsageError::OutOfMemory => {
            Diagnostic::named(alloc, Place::CommandLine(None), error.name())
        }
    }
}

/// Whether the words ask for JSON: whether the value given for `--output` is `json`.
pub fn asks_for_json(words: &[String]) -> bool
    ensures { result ≡ asks_for_json (map (λ word. string_bytes word) words.now) }
{
    match value_given(Valued::Output, words) {
        Some(format) => format == "json",
        None => false,
    }
}
