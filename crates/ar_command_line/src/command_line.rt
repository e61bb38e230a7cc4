//! The command line, read with `clap`.

ghost use Rattle.std.specs.Prelude.{◌≡◌, ◌≢◌, ◌≤◌, [], codes, false, is_some, Err, IfOk, IsErr, IsTrue, Ok};
ghost use Rattle.clap.specs.Words.{App, app_of, fault_of, found_of, kind_of, new_app, rows_of, rule_of, subcommand_rows_of, with_rule, with_subcommand};
ghost use Rattle.ar_command_line.specs.CommandLine.{AsksForText, application, command_named, explain_app, explain_command, flag_named, has_flag, is_request, format_named, format_of, named, number_of_workers, option_named, program, run_app, run_command, texts_of, with_output, without_run, workers_of, AsksForCommand};
ghost use Rattle.ar_command_line.specs.Refusals.{usage_error_name};
ghost use Rattle.ar_command_line.specs.Task.{asked};

use crate::help::{CHECK_HELP, EVAL_HELP, EXPLAIN_HELP, HELP, LIST_HELP, RUN_HELP};
use crate::selection::{Selection, event_of, selection_of};
use ar_value::limits::MOST_WORKERS;
use clap::error::ErrorKind;
use clap::{Arg, ArgAction, ArgMatches};
use std::alloc::{AllocError, Global};
use thiserror::Error;

/// How many workers judge where the words name no number.
pub const DEFAULT_WORKERS: usize = 4;

/// What `--version` says after the program's name. A release has its commit and kit in the place of the words
/// in parentheses.
pub const VERSION: &str =
    "0.1.0 (built from a checkout; a release shows the commit and the kit here)";

/// How an answer is written.
#[derive(Clone, Copy, Debug)]
pub enum Format {
    /// Lines of words.
    Text,
    /// One JSON object, in one line.
    Json,
}

/// What the program can be asked to do.
#[derive(Clone, Copy, Debug)]
pub enum Command<'w> {
    /// Judge one condition on one value.
    Eval(Format),
    /// Report the bounds of each condition of a bundle.
    Check(Format),
    /// List the code of each condition of a bundle.
    List,
    /// Run a bundle with n workers, from 1 to 16, and report its runs.
    Run(usize, Format),
    /// Run a bundle in one thread, and report its runs.
    Plain(Format),
    /// Judge a bundle's measurements with n workers, from 1 to 16, apply them in their order, and
    /// report its runs.
    Ordered(usize, Format),
    /// Run a bundle in one thread, and say what led to the verdict and the effect of each event that is selected.
    Explain(Selection<'w>, Format),
}

/// Why a command line asks for nothing.
#[derive(Clone, Copy, Debug, Error)]
pub enum UsageError {
    #[error("Words")]
    Words,
    #[error("Workers")]
    Workers,
    #[error("Event")]
    Event,
    #[error("Output")]
    Output,
    #[error("Conflict")]
    Conflict,
    #[error("Several")]
    Several,
    #[error("OutOfMemory")]
    OutOfMemory,
}

impl UsageError {
    /// The variant's name.
    pub fn name(self) -> &'static str
        ensures { result.now ≡ usage_error_name self }
    {
        match self {
            UsageError::Words => "Words",
            UsageError::Workers => "Workers",
            UsageError::Event => "Event",
            UsageError::Output => "Output",
            UsageError::Conflict => "Conflict",
            UsageError::Several => "Several",
            UsageError::OutOfMemory => "OutOfMemory",
        }
    }
}

impl From<AllocError> for UsageError {
    ghost use Rattle.std.specs.Prelude.{◌≡◌};
    ghost use Rattle.ar_command_line.specs.declared.command_line.UsageError.TheVariants.{OutOfMemory};

    ghost from_gives = { λ _ e. e ≡ OutOfMemory };

    fn from(_error: AllocError) -> UsageError {
        UsageError::OutOfMemory
    }
}

impl From<clap::Error> for UsageError {
    ghost use Rattle.std.specs.Prelude.{◌≡◌};
    ghost use Rattle.clap.specs.Words.{kind_of};
    ghost use Rattle.ar_command_line.specs.CommandLine.{of_kind};

    ghost from_gives = { λ error e. e ≡ of_kind (kind_of error) };

    fn from(error: clap::Error) -> UsageError {
        match error.kind() {
            ErrorKind::OutOfMemory => UsageError::OutOfMemory,
            _ => UsageError::Words,
        }
    }
}

/// What the words of a command line ask for, of which the first is the program's name.
///
/// # Errors
///
/// `Words` where they are no command line of the program's, or ask for a text by `--help` or
/// `--version`; then `Workers` where `--workers` names no number from 1 to 16, and `Event` where `--event` names no
/// number; then `Output` where `--output` names no format; then `Conflict` where both `--ordered` and `--plain` are
/// given, and `Several` where more than one of `--event`, `--run` and `--metric` are; `OutOfMemory` for out of memory.
pub fn command_of<'w>(alloc: Global, words: &'w [String]) -> Result<Command<'w>, UsageError>
    ensures { AsksForCommand (texts_of words.entry.now) result }
{
    let command_line = application(alloc)?;
    let matches = command_line.try_get_matches_from(words)?;
    command_named(&matches)
}

/// The text of `--help` or `--version`, where the words of a command line ask for one.
///
/// # Errors
///
/// Out of memory.
pub fn shown(alloc: Global, words: &[String]) -> Result<Option<String>, AllocError>
    // `clap` reports such a request as a fault, by its kind.
    ensures { IfOk result (λ text. AsksForText (fault_of application (texts_of words.now)) (is_some text)) }
{
    match application(alloc)?.try_get_matches_from(words) {
        Ok(_) => Ok(None),
        Err(error) => text_of(alloc, &error),
    }
}

/// The text that an error of `clap` represents, where it is a request for one.
fn text_of(alloc: Global, error: &clap::Error) -> Result<Option<String>, AllocError>
    ensures kind { IfOk result (λ text. is_some text ≡ is_request (kind_of error.now)) }
    ensures memory { kind_of error.now ≡ ErrorKind.OutOfMemory → IsErr result }
{
    match error.kind() {
        ErrorKind::DisplayHelp | ErrorKind::DisplayVersion => {
            Ok(Some(format!(in alloc; "{error}")?))
        }
        ErrorKind::OutOfMemory => Err(AllocError),
        _ => Ok(None),
    }
}

/// The command that the parsed words name.
fn command_named<'w>(matches: &ArgMatches<'w>) -> Result<Command<'w>, UsageError>
    ensures { asked result ≡ command_named (subcommand_rows_of matches.now) }
{
    match matches.subcommand() {
        Some((name, matches)) => named(name, matches),
        None => Err(UsageError::Words),
    }
}

/// The command that a subcommand with these arguments names.
fn named<'w>(name: &str, matches: &ArgMatches<'w>) -> Result<Command<'w>, UsageError>
    ensures { asked result ≡ named name.now (rows_of (found_of matches.now)) }
{
    match name {
        "eval" => Ok(Command::Eval(format_of(matches).ok_or(UsageError::Output)?)),
        "check" => Ok(Command::Check(format_of(matches).ok_or(UsageError::Output)?)),
        "list" => Ok(Command::List),
        "run" => run_command(matches),
        "explain" => explain_command(matches),
        _ => Err(UsageError::Words),
    }
}

/// The command that `run` with these arguments asks for. A run in one thread has no use for a
/// number of workers, which is checked all the same.
fn run_command<'w>(matches: &ArgMatches<'w>) -> Result<Command<'w>, UsageError>
    ensures { asked result ≡ run_command (rows_of (found_of matches.now)) }
{
    let Some(workers) = workers_of(matches) else {
        return Err(UsageError::Workers);
    };
    let Some(format) = format_of(matches) else {
        return Err(UsageError::Output);
    };
    match (has_flag(matches, "plain"), has_flag(matches, "ordered")) {
        (false, false) => Ok(Command::Run(workers, format)),
        (true, false) => Ok(Command::Plain(format)),
        (false, true) => Ok(Command::Ordered(workers, format)),
        (true, true) => Err(UsageError::Conflict),
    }
}

/// The command that `explain` with these arguments asks for.
#[tactic(auto, using(crate::proofs::Parsing::first_text))]
fn explain_command<'w>(matches: &ArgMatches<'w>) -> Result<Command<'w>, UsageError>
    ensures { asked result ≡ explain_command (rows_of (found_of matches.now)) }
{
    let Some(event) = event_of(matches) else {
        return Err(UsageError::Event);
    };
    let Some(format) = format_of(matches) else {
        return Err(UsageError::Output);
    };
    let run = matches.get_str("run");
    let metric = matches.get_str("metric");
    match selection_of(event, run, metric) {
        Some(selection) => Ok(Command::Explain(selection, format)),
        None => Err(UsageError::Several),
    }
}

/// The number of workers that `run` is given, and `DEFAULT_WORKERS` where it is given none.
#[tactic(auto, using(crate::proofs::Parsing::first_text))]
fn workers_of(matches: &ArgMatches<'_>) -> Option<usize>
    ensures { result ≡ workers_of (rows_of (found_of matches.now)) }
{
    match matches.get_str("workers") {
        Some(text) => number_of_workers(text),
        None => Some(DEFAULT_WORKERS),
    }
}

/// The number of workers that a text names.
#[tactic(auto, using(crate::proofs::Parsing::too_few, crate::proofs::Parsing::too_many))]
fn number_of_workers(text: &str) -> Option<usize>
    ensures { result ≡ number_of_workers text.now }
{
    let Ok(number) = text.parse::<usize>() else {
        return None;
    };
    if 1 <= number && number <= MOST_WORKERS {
        Some(number)
    } else {
        None
    }
}

/// The format that a command is asked for, and text where it is asked for none.
#[tactic(auto, using(crate::proofs::Parsing::first_text))]
fn format_of(matches: &ArgMatches<'_>) -> Option<Format>
    ensures { result ≡ format_of (rows_of (found_of matches.now)) }
{
    match matches.get_str("output") {
        Some(name) => format_named(name),
        None => Some(Format::Text),
    }
}

/// The format of a name.
fn format_named(name: &str) -> Option<Format>
    ensures { result ≡ format_named name.now }
{
    match name {
        "text" => Some(Format::Text),
        "json" => Some(Format::Json),
        _ => None,
    }
}

/// Whether `run` is given a flag.
#[tactic(auto, using(crate::proofs::Parsing::flag_is_read))]
fn has_flag(matches: &ArgMatches<'_>, name: &str) -> bool
    ensures { result ≡ has_flag name.now (rows_of (found_of matches.now)) }
{
    // As `get_flag`, whose contract leaves open what a text other than `true` and `false` gives.
    matches.get_one(name).unwrap_or(false)
}

/// The command line, as `clap` reads it.
fn application<'a>(alloc: Global) -> Result<clap::Command<'a>, AllocError>
    ensures { IfOk result (λ command. app_of command ≡ application) }
{
    let with_run = with_subcommand(without_run(alloc)?, run(alloc))?;
    with_subcommand(with_run, explain(alloc))
}

/// The command line but for the subcommands that make a run.
fn without_run<'a>(alloc: Global) -> Result<clap::Command<'a>, AllocError>
    ensures { IfOk result (λ command. app_of command ≡ without_run) }
{
    let eval = with_output(alloc, "eval", "Judge one condition on one value", EVAL_HELP);
    let with_eval = with_subcommand(program(alloc), eval)?;
    let check = with_output(
        alloc,
        "check",
        "Check a document, and print what its conditions cost at most",
        CHECK_HELP,
    );
    let with_check = with_subcommand(with_eval, check)?;
    let list = subcommand(
        alloc,
        "list",
        "Check a document, and list the code of its conditions",
        LIST_HELP,
    );
    with_subcommand(with_check, Ok(list))
}

/// A command with one more subcommand, if that could be made.
fn with_subcommand<'a>(
    command: clap::Command<'a>,
    subcommand: Result<clap::Command<'a>, AllocError>,
) -> Result<clap::Command<'a>, AllocError>
    ensures { (added : App) → IfOk subcommand.entry (λ subcommand. app_of subcommand ≡ added)
        → IsTrue added.top.is_plain
        → IfOk result (λ both. app_of both ≡ with_subcommand (app_of command.entry) added.top) }
{
    command.subcommand(subcommand?)
}

/// The program's own part of the command line.
fn program<'a>(alloc: Global) -> clap::Command<'a>
    ensures { app_of result ≡ program }
{
    clap::Command::new(alloc, "argo_judge")
        .version(VERSION)
        .about("Judges canary measurements by the conditions of Argo Rollouts' analysis")
        .after_help(HELP)
        .disable_help_subcommand(true)
        .subcommand_required(true)
}

/// A subcommand with no arguments.
fn subcommand<'a>(alloc: Global, name: &'a str, about: &'a str, help: &'a str) -> clap::Command<'a>
    ensures { app_of result ≡ new_app name.entry.now }
{
    clap::Command::new(alloc, name)
        .about(about)
        .after_help(help)
}

/// An option that takes a value: `--`, its name and the value.
fn option<'a>(alloc: Global, name: &'a str, value: &'a str, help: &'a str) -> Arg<'a>
    ensures rule { rule_of result ≡ option_named name.entry.now }
    ensures local { result.global ≡ false }
{
    Arg::new(alloc, name)
        .long(name)
        .value_name(value)
        .help(help)
}

/// A subcommand whose answer has a format.
fn with_output<'a>(
    alloc: Global,
    name: &'a str,
    about: &'a str,
    help: &'a str,
) -> Result<clap::Command<'a>, AllocError>
    ensures { IfOk result (λ command. app_of command ≡ with_output name.entry.now) }
{
    with_option(
        Ok(subcommand(alloc, name, about, help)),
        alloc,
        "output",
        "FORMAT",
        "How the answer is written: `text`, which is the default, or `json`, one object in one line",
    )
}

/// The subcommand `run`.
fn run<'a>(alloc: Global) -> Result<clap::Command<'a>, AllocError>
    ensures { IfOk result (λ command. app_of command ≡ run_app) }
{
    let run = with_output(
        alloc,
        "run",
        "Judge a document's measurements, and report its runs",
        RUN_HELP,
    );
    let run = with_option(
        run,
        alloc,
        "workers",
        "N",
        "How many workers judge, 1 to 16, 4 unless it is given; workers are threads that judge side by side",
    );
    let run = with_flag(
        run,
        alloc,
        "plain",
        "Judge without workers, one measurement after another; --workers is then checked, but not used",
    );
    with_flag(
        run,
        alloc,
        "ordered",
        "Judge with workers, and report what --plain does: the events of a run are in the order of their numbers",
    )
}

/// The subcommand `explain`.
fn explain<'a>(alloc: Global) -> Result<clap::Command<'a>, AllocError>
    ensures { IfOk result (λ command. app_of command ≡ explain_app) }
{
    let explain = with_output(
        alloc,
        "explain",
        "Make the plain run of a document, and say what led to each event's verdict and effect",
        EXPLAIN_HELP,
    );
    let explain = with_option(
        explain,
        alloc,
        "event",
        "N",
        "Explain the event with this number alone, its place in `measurements`, from 0",
    );
    let explain = with_option(
        explain,
        alloc,
        "run",
        "NAME",
        "Explain the events of this run alone",
    );
    with_option(
        explain,
        alloc,
        "metric",
        "NAME",
        "Explain the events of this metric alone, in each run",
    )
}

/// A command with one more option that takes a value, if the command could be made.
fn with_option<'a>(
    command: Result<clap::Command<'a>, AllocError>,
    alloc: Global,
    name: &'a str,
    value: &'a str,
    help: &'a str,
) -> Result<clap::Command<'a>, AllocError>
    ensures { (app : App) → IfOk command.entry (λ command. app_of command ≡ app)
        → IfOk result (λ more. app_of more ≡ with_rule app (option_named name.entry.now)) }
{
    with_arg(command, option(alloc, name, value, help))
}

/// A command with one more option that takes no value, if the command could be made.
fn with_flag<'a>(
    command: Result<clap::Command<'a>, AllocError>,
    alloc: Global,
    name: &'a str,
    help: &'a str,
) -> Result<clap::Command<'a>, AllocError>
    ensures { (app : App) → IfOk command.entry (λ command. app_of command ≡ app)
        → IfOk result (λ more. app_of more ≡ with_rule app (flag_named name.entry.now)) }
{
    with_arg(command, flag(alloc, name, help))
}

/// A command with one more argument, if the command could be made.
fn with_arg<'a>(
    command: Result<clap::Command<'a>, AllocError>,
    arg: Arg<'a>,
) -> Result<clap::Command<'a>, AllocError>
    requires { arg.global ≡ false }
    ensures { (app : App) → IfOk command.entry (λ command. app_of command ≡ app)
        → IfOk result (λ more. app_of more ≡ with_rule app (rule_of arg.entry)) }
{
    command?.arg(arg)
}

/// An option that takes no value, `--` and its name.
fn flag<'a>(alloc: Global, name: &'a str, help: &'a str) -> Arg<'a>
    ensures rule { rule_of result ≡ flag_named name.entry.now }
    ensures local { result.global ≡ false }
{
    Arg::new(alloc, name)
        .long(name)
        .action(ArgAction::SetTrue)
        .help(help)
}
