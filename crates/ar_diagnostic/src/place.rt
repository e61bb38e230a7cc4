//! Where something is.

ghost use Rattle.std.specs.Prelude.{◌≡◌, option_map};
ghost use Rattle.ar_diagnostic.specs.DiagnosticData.{place_argument, place_entry, place_field, place_metric, place_part, place_run, spec_field};
ghost use Rattle.ar_diagnostic.specs.Place.{entry_part_name, flag_name, member_name, metric_field_name, template_field_name};

use ar_value::Text;

/// An item of a list of the document: its number, from 0, and its name, if it has one.
#[derive(Drop)]
pub struct Item {
    pub number: usize,
    pub name: Option<Text>,
}

/// Where something is: in the document, or in what the program was started with.
#[derive(Drop)]
pub enum Place {
    /// The command line, at an option or as a whole.
    CommandLine(Option<Flag>),
    /// The number of a command, with which the C library is called.
    CommandNumber,
    Document,
    /// A member of the document.
    Member(Member),
    /// A field of the template.
    Template(TemplateField),
    /// A part of the template's `spec`.
    Spec(SpecPart),
    /// An argument of the template.
    Argument(Item),
    /// An item of `dryRun`, with this number, that names no metric.
    UnnamedDryRun(usize),
    /// The name of a metric in `dryRun`, of the item with this number.
    DryRunName(usize),
    /// A metric of the template, a field of it, or its shape.
    Metric(Within, Item),
    Run(Item),
    /// A metric, with the arguments of a run, or a field of it.
    BoundMetric(Item, Item, Option<MetricField>),
    /// An item of `measurements`.
    Entry(usize),
    EntryMember(usize, EntryPart),
}

/// An option of the command line.
#[derive(Clone, Copy)]
pub enum Flag {
    Workers,
    Ordered,
    Output,
    Event,
    Run,
    Metric,
}

impl Flag {
    pub fn name(self) -> &'static str
        ensures { result.now ≡ flag_name self }
    {
        match self {
            Flag::Workers => "--workers",
            Flag::Ordered => "--ordered",
            Flag::Output => "--output",
            Flag::Event => "--event",
            Flag::Run => "--run",
            Flag::Metric => "--metric",
        }
    }
}

/// A member of the document: of that of `eval` the first three, of any other the rest.
#[derive(Clone, Copy)]
pub enum Member {
    Condition,
    Shape,
    Value,
    Manifest,
    Runs,
    Measurements,
}

impl Member {
    pub(crate) fn name(self) -> &'static str
        ensures { result.now ≡ member_name self }
    {
        match self {
            Member::Condition => "condition",
            Member::Shape => "shape",
            Member::Value => "value",
            Member::Manifest => "manifest",
            Member::Runs => "runs",
            Member::Measurements => "measurements",
        }
    }
}

/// A field that each template has.
#[derive(Clone, Copy)]
pub enum TemplateField {
    Version,
    Kind,
    Name,
    Metrics,
}

impl TemplateField {
    pub(crate) fn name(self) -> &'static str
        ensures { result.now ≡ template_field_name self }
    {
        match self {
            TemplateField::Version => "apiVersion",
            TemplateField::Kind => "kind",
            TemplateField::Name => "name",
            TemplateField::Metrics => "metrics",
        }
    }
}

/// The template's `spec`, or a list of it.
#[derive(Clone, Copy)]
pub enum SpecPart {
    Spec,
    Args,
    DryRun,
}

/// What of a metric.
#[derive(Clone, Copy)]
pub enum Within {
    /// Itself, in a template that isn't refused.
    Template,
    /// Itself, or a field of it, in a template that is refused.
    Manifest(Option<MetricField>),
    /// Its shape.
    Shapes,
}

/// A field of a metric.
#[derive(Clone, Copy)]
pub enum MetricField {
    Name,
    SuccessCondition,
    FailureCondition,
    Interval,
    Count,
    FailureLimit,
    InconclusiveLimit,
    ConsecutiveErrorLimit,
    ConsecutiveSuccessLimit,
}

impl MetricField {
    pub fn name(self) -> &'static str
        ensures { result.now ≡ metric_field_name self }
    {
        match self {
            MetricField::Name => "name",
            MetricField::SuccessCondition => "successCondition",
            MetricField::FailureCondition => "failureCondition",
            MetricField::Interval => "interval",
            MetricField::Count => "count",
            MetricField::FailureLimit => "failureLimit",
            MetricField::InconclusiveLimit => "inconclusiveLimit",
            MetricField::ConsecutiveErrorLimit => "consecutiveErrorLimit",
            MetricField::ConsecutiveSuccessLimit => "consecutiveSuccessLimit",
        }
    }
}

/// A member of an item of `measurements`.
#[derive(Clone, Copy)]
pub enum EntryPart {
    Run,
    Metric,
    Value,
}

impl EntryPart {
    pub fn name(self) -> &'static str
        ensures { result.now ≡ entry_part_name self }
    {
        match self {
            EntryPart::Run => "run",
            EntryPart::Metric => "metric",
            EntryPart::Value => "value",
        }
    }
}

// ---- what a place names

fn spec_field(part: SpecPart) -> Option<&'static str>
    ensures { option_map (λ name. name.now) result ≡ spec_field part }
{
    match part {
        SpecPart::Spec => None,
        SpecPart::Args => Some("args"),
        SpecPart::DryRun => Some("dryRun"),
    }
}

fn metric_field(field: Option<MetricField>) -> Option<&'static str>
    ensures { option_map (λ name. name.now) result ≡ option_map metric_field_name field }
{
    Some(field?.name())
}

impl Place {
    /// The part of the input.
    pub(crate) fn part(&self) -> &'static str
        ensures { result.now ≡ place_part self.now }
    {
        match self {
            Place::CommandLine(_) => "command line",
            Place::CommandNumber => "command",
            Place::Document => "document",
            Place::Member(member) => member.name(),
            Place::Metric(Within::Shapes, _) => "shapes",
            Place::Run(_) => "runs",
            Place::Entry(_) | Place::EntryMember(..) => "measurements",
            Place::Template(_)
            | Place::Spec(_)
            | Place::Argument(_)
            | Place::UnnamedDryRun(_)
            | Place::DryRunName(_)
            | Place::Metric(Within::Template | Within::Manifest(_), _)
            | Place::BoundMetric(..) => "manifest",
        }
    }

    pub(crate) fn run(&self) -> Option<&Item>
        ensures { option_map (λ item. item.now) result ≡ place_run self.now }
    {
        match self {
            Place::Run(run) | Place::BoundMetric(run, _, _) => Some(run),
            _ => None,
        }
    }

    pub(crate) fn metric(&self) -> Option<&Item>
        ensures { option_map (λ item. item.now) result ≡ place_metric self.now }
    {
        match self {
            Place::Metric(_, metric) | Place::BoundMetric(_, metric, _) => Some(metric),
            _ => None,
        }
    }

    pub(crate) fn argument(&self) -> Option<&Item>
        ensures { option_map (λ item. item.now) result ≡ place_argument self.now }
    {
        match self {
            Place::Argument(argument) => Some(argument),
            _ => None,
        }
    }

    /// The number of an item of `measurements`.
    pub(crate) fn entry(&self) -> Option<usize>
        ensures { result ≡ place_entry self.now }
    {
        match self {
            Place::Entry(number) | Place::EntryMember(number, _) => Some(*number),
            _ => None,
        }
    }

    pub(crate) fn field(&self) -> Option<&'static str>
        ensures { option_map (λ name. name.now) result ≡ place_field self.now }
    {
        match self {
            Place::CommandLine(Some(flag)) => Some(flag.name()),
            Place::Template(field) => Some(field.name()),
            Place::Spec(part) => spec_field(*part),
            Place::UnnamedDryRun(_) | Place::DryRunName(_) => Some("metricName"),
            Place::Metric(Within::Manifest(field), _) | Place::BoundMetric(_, _, field) => {
                metric_field(*field)
            }
            Place::EntryMember(_, part) => Some(part.name()),
            _ => None,
        }
    }
}
