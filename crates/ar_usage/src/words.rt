//! The words of a command line: the first that isn't taken, and the values of options.

ghost use Rattle.std.specs.Prelude.{◌≡◌, map, option_map, string_bytes};
ghost use Rattle.ar_usage.specs.Words.{next_after, after_flag, after_option, after_own, after_valued, at_end, expected, first_refused, flag_of, has_output, is_given, is_new, is_option, name_of, value_given, value_in, option_value, with};

use ar_diagnostic::Flag;

/// The options that a command was given.
#[derive(Clone, Copy)]
pub struct Given {
    pub workers: bool,
    pub plain: bool,
    pub ordered: bool,
    pub output: bool,
    pub event: bool,
    pub run: bool,
    pub metric: bool,
}

/// An option that has a value.
#[derive(Clone, Copy)]
pub enum Valued {
    Workers,
    Output,
    Event,
    RunName,
    MetricName,
}

/// A command that takes options.
#[derive(Clone, Copy)]
pub enum Taker {
    EvalOrCheck,
    Run,
    Explain,
}

/// What may come next on a command line.
#[derive(Clone, Copy)]
pub enum Next {
    Command,
    Nothing,
    /// Options, but those that were given.
    Options(Taker, Given),
    /// The value of an option, and then options.
    Value(Valued, Taker, Given),
}

/// No options.
const NONE: Given = Given {
    workers: false,
    plain: false,
    ordered: false,
    output: false,
    event: false,
    run: false,
    metric: false,
};

pub fn flag_of(option: Valued) -> Flag
    ensures { result ≡ flag_of option }
{
    match option {
        Valued::Workers => Flag::Workers,
        Valued::Output => Flag::Output,
        Valued::Event => Flag::Event,
        Valued::RunName => Flag::Run,
        Valued::MetricName => Flag::Metric,
    }
}

pub fn name_of(option: Valued) -> &'static str
    ensures { result.now ≡ name_of option }
{
    flag_of(option).name()
}

/// What is expected as the value of an option.
pub fn expected(option: Valued) -> &'static str
    ensures { result.now ≡ expected option }
{
    match option {
        Valued::Workers => "a whole number from 1 to 16",
        Valued::Output => "text or json",
        Valued::Event => "the number of a measurement, from 0",
        Valued::RunName => "the name of a run",
        Valued::MetricName => "the name of a metric",
    }
}

/// Whether an option was given.
fn is_given(option: Valued, given: Given) -> bool
    ensures { result ≡ is_given option given }
{
    match option {
        Valued::Workers => given.workers,
        Valued::Output => given.output,
        Valued::Event => given.event,
        Valued::RunName => given.run,
        Valued::MetricName => given.metric,
    }
}

/// The options given, with one more.
fn with(option: Valued, given: Given) -> Given
    ensures { result ≡ with option given }
{
    let mut given = given;
    match option {
        Valued::Workers => given.workers = true,
        Valued::Output => given.output = true,
        Valued::Event => given.event = true,
        Valued::RunName => given.run = true,
        Valued::MetricName => given.metric = true,
    }
    given
}

/// What a word has after an option's name and `=`, if it begins so.
#[tactic(auto, using(crate::proofs::Refused::no_name))]
fn value_in<'a>(option: Valued, word: &'a str) -> Option<&'a str>
    ensures { option_map (λ value. value.now) result ≡ value_in option word.now }
{
    word.strip_prefix(name_of(option))?.strip_prefix("=")
}

/// What may come after an option and perhaps its value, if it wasn't given before.
fn after_valued(option: Valued, taker: Taker, given: Given, word: &str) -> Option<Next>
    ensures { result ≡ after_valued option taker given word.now }
{
    if is_given(option, given) {
        None
    } else if word == name_of(option) {
        Some(Next::Value(option, taker, with(option, given)))
    } else if value_in(option, word).is_some() {
        Some(Next::Options(taker, with(option, given)))
    } else {
        None
    }
}

/// Whether a word is a name that wasn't given before.
fn is_new(name: &str, word: &str, given: bool) -> bool
    ensures { result ≡ is_new name.now word.now given }
{
    word == name && !given
}

/// What may come after an option of `run` that has no value, if it is taken.
fn after_flag(given: Given, word: &str) -> Option<Next>
    ensures { result ≡ after_flag given word.now }
{
    let mut given = given;
    if is_new("--plain", word, given.plain) {
        given.plain = true;
    } else if is_new("--ordered", word, given.ordered) {
        given.ordered = true;
    } else {
        return None;
    }
    Some(Next::Options(Taker::Run, given))
}

/// What may come after an option that one command alone takes, if it is taken.
fn after_own(taker: Taker, given: Given, word: &str) -> Option<Next>
    ensures { result ≡ after_own taker given word.now }
{
    match taker {
        Taker::EvalOrCheck => None,
        Taker::Run => {
            after_valued(Valued::Workers, taker, given, word).or(after_flag(given, word))
        }
        Taker::Explain => after_valued(Valued::Event, taker, given, word)
            .or(after_valued(Valued::RunName, taker, given, word))
            .or(after_valued(Valued::MetricName, taker, given, word)),
    }
}

/// What may come after an option, if it is taken.
fn after_option(taker: Taker, given: Given, word: &str) -> Option<Next>
    ensures { result ≡ after_option taker given word.now }
{
    after_valued(Valued::Output, taker, given, word).or(after_own(taker, given, word))
}

/// Whether a command takes `--output` and no other option.
fn has_output(word: &str) -> bool
    ensures { result ≡ has_output word.now }
{
    matches!(word, "eval" | "check")
}

/// Whether a word is an option, as `-` alone isn't.
pub fn is_option(word: &str) -> bool
    ensures { result ≡ is_option word.now }
{
    word.starts_with("-") && word != "-"
}

/// What may come after a word, if it is taken.
fn next_after(next: Next, word: &str) -> Option<Next>
    ensures { result ≡ next_after next word.now }
{
    match next {
        Next::Command if word == "run" => Some(Next::Options(Taker::Run, NONE)),
        Next::Command if word == "explain" => Some(Next::Options(Taker::Explain, NONE)),
        Next::Command if has_output(word) => Some(Next::Options(Taker::EvalOrCheck, NONE)),
        Next::Command if word == "list" => Some(Next::Nothing),
        Next::Command | Next::Nothing => None,
        Next::Options(taker, given) => after_option(taker, given, word),
        Next::Value(..) if is_option(word) => None,
        Next::Value(_, taker, given) => Some(Next::Options(taker, given)),
    }
}

/// The last word, if something has to come after it.
fn at_end(next: Next) -> Option<(Next, &'static str)>
    ensures { option_map (λ found. (found.0, found.1.now)) result ≡ at_end next }
{
    match next {
        Next::Value(option, _, _) => Some((next, name_of(option))),
        Next::Command | Next::Nothing | Next::Options(..) => None,
    }
}

/// The first word that isn't taken, with what could have come instead, or the last if something
/// has to come after it.
#[tactic(auto, using(crate::proofs::Refused::taken, crate::proofs::Refused::refused, crate::proofs::Refused::none_left))]
pub fn first_refused(words: &[String]) -> Option<(Next, &str)>
    ensures { option_map (λ found. (found.0, found.1.now)) result
        ≡ first_refused Next.Command (map (λ word. string_bytes word) words.now) }
{
    let mut next = Next::Command;
    for word in words {
        match next_after(next, word.as_str()) {
            Some(following) => next = following,
            None => return Some((next, word.as_str())),
        }
    }
    at_end(next)
}

// ---- the values of options

/// The value of an option: the word after it, or what comes after its `=`.
fn option_value<'a>(option: Valued, word: &'a str, rest: &'a [String]) -> Option<&'a str>
    ensures { option_map (λ value. value.now) result
        ≡ option_value option word.now (map (λ word. string_bytes word) rest.now) }
{
    if word == name_of(option) {
        Some(rest.first()?.as_str())
    } else {
        value_in(option, word)
    }
}

/// The value of an option as it is written, if one is.
pub fn value_given(option: Valued, words: &[String]) -> Option<&str>
    ensures { option_map (λ value. value.now) result
        ≡ value_given option (map (λ word. string_bytes word) words.now) }
{
    let mut rest = words;
    while let Some((word, following)) = rest.split_first() {
        if let Some(value) = option_value(option, word.as_str(), following) {
            return Some(value);
        }
        rest = following;
    }
    None
}
