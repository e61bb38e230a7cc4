//! Which events are explained.

ghost use Rattle.std.specs.Prelude.{◌≡◌, option_map};
ghost use Rattle.clap.specs.Words.{found_of, rows_of};
ghost use Rattle.ar_command_line.specs.CommandLine.{event_named, event_of, selection_of};
ghost use Rattle.ar_command_line.specs.Selection.{selected};

use clap::ArgMatches;

/// Which events are explained.
#[derive(Clone, Copy, Debug)]
pub enum Selection<'w> {
    /// Each event.
    All,
    /// The event with this number.
    Event(u64),
    /// The events of the run of this name.
    Run(&'w str),
    /// The events of the metric of this name, in each run.
    Metric(&'w str),
}

/// The number of the event that `explain` is given, or none; `None` where its text is no number.
#[tactic(auto, using(crate::proofs::Parsing::first_text))]
pub(crate) fn event_of(matches: &ArgMatches<'_>) -> Option<Option<u64>>
    ensures { result ≡ event_of (rows_of (found_of matches.now)) }
{
    match matches.get_str("event") {
        Some(text) => Some(Some(event_named(text)?)),
        None => Some(None),
    }
}

/// The number of a measurement that a text names.
fn event_named(text: &str) -> Option<u64>
    ensures { result ≡ event_named text.now }
{
    text.parse::<u64>().ok()
}

/// The events that an event's number, a run's name or a metric's name selects: one of them, or none for all events.
pub(crate) fn selection_of<'w>(
    event: Option<u64>,
    run: Option<&'w str>,
    metric: Option<&'w str>,
) -> Option<Selection<'w>>
    ensures { option_map selected result ≡ selection_of event (option_map (λ name. name.now) run.entry)
        (option_map (λ name. name.now) metric.entry) }
{
    match (event, run, metric) {
        (None, None, None) => Some(Selection::All),
        (Some(number), None, None) => Some(Selection::Event(number)),
        (None, Some(name), None) => Some(Selection::Run(name)),
        (None, None, Some(name)) => Some(Selection::Metric(name)),
        _ => None,
    }
}
