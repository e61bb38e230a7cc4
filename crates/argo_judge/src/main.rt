//! `argo_judge`: judges canary measurements by the conditions of Argo Rollouts' analysis;
//! docs/use/language.md lists where it differs from Argo Rollouts' controller.
//!
//! The program reads one JSON document from standard input, carries a command out on it, and writes the answer to
//! standard output (`ar_command`: `serve_keeping` with workers, `serve_plain_keeping` without). `ar_command_line`
//! says what the words of the command line ask for, and `ar_refusal` what is said of a refused input or command
//! line. What is left to this crate are the standard streams and the exit status.
#![tactic(auto)]

ghost use Rattle.std.specs.Prelude.{◌≡◌, ◌≢◌, ◌≤◌, ◌⊎◌, ℕ, Ok, false};
ghost use Rattle.ar_command.specs.Served.{IfBroken, ServedKeeping};
ghost use Rattle.ar_command.specs.Serving.{Breaks, RunsWith};
ghost use Rattle.ar_command_line.specs.declared.command_line.Command.TheVariants as commands;
ghost use Rattle.ar_command_line.specs.declared.command_line.Format.{Format};
ghost use Rattle.argo_judge.specs.Ending.{EndsWith};

use ar_board::MOST_WORKERS;
use ar_command::{
    Closing, Command, Device, Format, Kept, Refusal, ServeError, Sink, Source, serve_keeping,
    serve_plain_keeping, status, write_output,
};
use ar_command_line::{UsageError, command_of, shown};
use ar_diagnostic::Diagnostic;
use ar_refusal::{format_of, refusal_text, usage_text, warnings_text};
use ar_workers::{FreeGate, WorkError};
use std::alloc::{AllocError, Global};
use std::process::ExitCode;
use std::rt::Env;
use std::sync::Wait;
use std::thread::Threads;
use std::{env, io};

/// What a command line can ask for.
#[derive(Drop)]
enum Request<'w> {
    CarryOut(Command<'w>),
    /// The text of `--help` or `--version`.
    Show(String),
}

fn main(rt: HostRuntime) -> ExitCode {
    ExitCode::from(run(&rt))
}

/// Does what the command line asks for, and returns the exit status.
fn run<R: Env + AllocGlobal + Input + Print + Eprint + Threads + Wait + Sync>(rt: &R) -> u8
    ensures { result ≤ 5 }
{
    match arguments(rt) {
        Ok(words) => obey(rt, &words),
        Err(error) => refuse_words(rt, &[], error),
    }
}

/// Does what the words of a command line ask for, and returns the exit status.
fn obey<R>(rt: &R, words: &[String]) -> u8
where
    R: AllocGlobal + Input + Print + Eprint + Threads + Wait + Sync,
    ensures { result ≤ 5 }
{
    match requested(rt, words) {
        Ok(Request::CarryOut(command)) => carry_out(rt, command),
        Ok(Request::Show(text)) => show(rt, text.as_str()),
        Err(error) => refuse_words(rt, words, error),
    }
}

/// Reports a command line that asks for nothing, with the word at fault, and returns the exit status.
fn refuse_words<R: AllocGlobal + Eprint>(rt: &R, words: &[String], error: UsageError) -> u8
    ensures memory { error ≡ UsageError.OutOfMemory → result ≡ 3 }
    ensures refused { error ≢ UsageError.OutOfMemory → (result ≡ 2) ⊎ (result ≡ 3) }
{
    match error {
        UsageError::OutOfMemory => out_of_memory(rt, ServeError::OutOfMemory),
        error => match usage_text(rt.alloc(), words, error) {
            Ok((format, text)) => report(rt, format, text.as_str()),
            Err(AllocError) => out_of_memory(rt, ServeError::OutOfMemory),
        },
    }
}

/// Reports a refusal: a line after the program's name, or a JSON object by itself.
fn report<R: Eprint>(rt: &R, format: Format, text: &str) -> u8
    ensures { result ≡ 2 }
{
    let _ = match format {
        Format::Text => eprintln!(rt; "argo_judge: {text}"),
        Format::Json => eprint!(rt; "{text}"),
    };
    status::REFUSED
}

/// Writes a text, and returns the exit status.
fn show<R: Print + Eprint>(rt: &R, text: &str) -> u8
    ensures { (result ≡ 0) ⊎ (result ≡ 4) }
{
    let mut writer = Device::new(io::writer(rt));
    match write_output(&mut writer, text.as_bytes()) {
        Ok(()) => status::GOOD,
        Err(_) => {
            tell(rt, &ServeError::Write, writer.fault());
            status::DEVICE
        }
    }
}

/// What the command line asks for.
fn requested<'w, R: AllocGlobal>(rt: &R, words: &'w [String]) -> Result<Request<'w>, UsageError>
    ensures workers { (n : ℕ) (format : Format) → result ≡ Ok (Request.CarryOut (commands.Run n format))
        → (1 ≤ n) × (n ≤ MOST_WORKERS) }
    ensures ordered { (n : ℕ) (format : Format) → result ≡ Ok (Request.CarryOut (commands.Ordered n format))
        → (1 ≤ n) × (n ≤ MOST_WORKERS) }
{
    match shown(rt.alloc(), words)? {
        Some(text) => Ok(Request::Show(text)),
        None => Ok(Request::CarryOut(command_of(rt.alloc(), words)?)),
    }
}

/// The words of the command line, the program's name first.
fn arguments<R: Env + AllocGlobal>(rt: &R) -> Result<Vec<String>, UsageError> {
    let given = match env::args(rt) {
        Ok(given) => given,
        Err(error) if error.kind() == io::ErrorKind::OutOfMemory => {
            return Err(UsageError::OutOfMemory);
        }
        Err(_) => return Err(UsageError::Words),
    };
    let mut words = Vec::new(rt.alloc());
    for word in given {
        words.push(word).map_err(AllocError::from)?;
    }
    Ok(words)
}

/// Carries a command out on the standard streams, and reports a fault.
fn carry_out<R>(rt: &R, command: Command<'_>) -> u8
where
    R: AllocGlobal + Input + Print + Eprint + Threads + Wait + Sync,
    requires workers { (n : ℕ) (format : Format) → command ≡ commands.Run n format → (1 ≤ n) × (n ≤ MOST_WORKERS) }
    requires ordered { (n : ℕ) (format : Format) → command ≡ commands.Ordered n format → (1 ≤ n) × (n ≤ MOST_WORKERS) }
    ensures { result ≤ 5 }
{
    let mut reader = Device::new(rt.reader());
    let mut writer = Device::new(io::writer(rt));
    let mut kept = Kept::new(rt.alloc());
    let outcome = served(rt, command, &mut reader, &mut writer, &mut kept);
    warn(rt, format_of(command), &kept.warnings);
    close(rt, command, &kept.input, &reader, &writer, &outcome)
}

/// Reports warnings.
fn warn<R: AllocGlobal + Eprint>(rt: &R, format: Format, warnings: &[Diagnostic]) {
    let _ = match warnings_text(rt.alloc(), format, warnings) {
        Ok(text) => eprint!(rt; "{text}"),
        Err(_) => eprintln!(rt; "argo_judge: warning: out of memory: warnings are not shown"),
    };
}

/// Carries a command out, with workers where it is for them.
fn served<R, S: Source, W: Sink>(
    rt: &R,
    command: Command<'_>,
    reader: &mut S,
    writer: &mut W,
    kept: &mut Kept,
) -> Result<Closing, ServeError>
where
    R: AllocGlobal + Threads + Wait + Sync,
    requires workers { (n : ℕ) (format : Format) → command ≡ commands.Run n format → (1 ≤ n) × (n ≤ MOST_WORKERS) }
    requires ordered { (n : ℕ) (format : Format) → command ≡ commands.Ordered n format → (1 ≤ n) × (n ≤ MOST_WORKERS) }
    requires reader { S.has_failed reader.old ≡ false }
    requires writer { W.has_failed writer.old ≡ false }

    ensures served { ServedKeeping command.entry S.taken S.remaining S.reads S.has_failed reader.old reader.new
        W.contents W.calls W.has_failed writer.old writer.new kept.old kept.new result }

    // Only a command for workers ends by what became of them.
    ensures work { IfBroken result (λ error. RunsWith command.entry MOST_WORKERS
        × Breaks command.entry kept.new.input.items error) }
{
    match command {
        Command::Run(..) | Command::Ordered(..) => {
            serve_keeping(rt, rt.alloc(), command, reader, writer, &FreeGate, kept)
        }
        _ => serve_plain_keeping(rt.alloc(), command, reader, writer, kept),
    }
}

/// The exit status of a command's result, with one line where that is a fault.
fn close<R: AllocGlobal + Eprint, I, O>(
    rt: &R,
    command: Command<'_>,
    input: &[u8],
    reader: &Device<I>,
    writer: &Device<O>,
    outcome: &Result<Closing, ServeError>,
) -> u8
    ensures { EndsWith outcome.now result }
{
    match outcome {
        Ok(_) => status::status_of(outcome),
        Err(ServeError::Refused(refusal)) => refuse(rt, command, input, refusal),
        Err(error) => {
            tell(rt, error, cause(reader, writer, error));
            status::status_of(outcome)
        }
    }
}

/// What the system says of a failed read or write.
fn cause<'a, I, O>(
    reader: &'a Device<I>,
    writer: &'a Device<O>,
    error: &ServeError,
) -> Option<&'a io::Error> {
    match error {
        ServeError::Read => reader.fault(),
        ServeError::Write => writer.fault(),
        _ => None,
    }
}

/// Reports a refused input.
fn refuse<R: AllocGlobal + Eprint>(
    rt: &R,
    command: Command<'_>,
    input: &[u8],
    refusal: &Refusal,
) -> u8
    ensures { (result ≡ 2) ⊎ (result ≡ 3) }
{
    match refusal_text(rt.alloc(), command, input, refusal) {
        Ok(text) => report(rt, format_of(command), text.as_str()),
        Err(AllocError) => out_of_memory(rt, ServeError::OutOfMemory),
    }
}

fn out_of_memory<R: Eprint>(rt: &R, error: ServeError) -> u8
    ensures { result ≡ 3 }
{
    tell(rt, &error, None);
    status::OUT_OF_MEMORY
}

/// Reports a fault in one line, with what the system says of it, or with what can be done.
fn tell<R: Eprint>(rt: &R, error: &ServeError, cause: Option<&io::Error>) {
    let _ = match cause {
        Some(cause) => eprintln!(rt; "argo_judge: {error}: {cause}"),
        None => eprintln!(rt; "argo_judge: {error}{}", advice(error)),
    };
}

/// What can be done where workers gave no report.
fn advice(error: &ServeError) -> &'static str {
    match error {
        ServeError::Work(WorkError::NoThread) => {
            "; try fewer --workers, or --plain, which starts none"
        }
        ServeError::Work(WorkError::Lost { .. }) => {
            "; please report this; --plain judges without workers"
        }
        _ => "",
    }
}
