//! Why a template can't be read, or its arguments can't be bound.

ghost use Rattle.std.specs.Prelude.{◌≡◌};
ghost use Rattle.ar_manifest.specs.Refusals.{manifest_error_name};
ghost use Rattle.ar_manifest.specs.declared.error.ManifestError.TheVariants.{OutOfMemory};

use std::alloc::{AllocError, AllocFailed};
use std::fmt;
use thiserror::Error;

/// Why a document is no template that can be judged, or why its texts can't be bound. A
/// number is that of an argument, a metric or an item of `dryRun`, counted from 0.
#[derive(Clone, Copy, Error)]
pub enum ManifestError {
    /// `apiVersion` is another value.
    WrongVersion,
    /// `kind` is another value.
    WrongKind,
    /// `metadata.name` is no text, or an empty one.
    NameMissing,
    /// The argument has no name, that of an earlier argument, or a value that is no text; or
    /// `spec.args` is no list, and the number is 0.
    BadArgs(usize),
    /// `spec.metrics` is no list, or an empty one.
    NoMetrics,
    /// `spec.metrics` has more than 64 metrics.
    TooManyMetrics,
    /// The metric has no text `name`.
    MetricNameMissing(usize),
    /// An earlier metric has the metric's name.
    DoubleMetric(usize),
    /// A condition or `interval` is no text, or a limit is neither a number nor a text.
    BadField(usize),
    /// The metric has `consecutiveSuccessLimit`.
    Unsupported(usize),
    /// The item of `spec.dryRun` has no text `metricName`, or an empty one; or `spec.dryRun` is no
    /// list, and the number is 0.
    BadDryRun(usize),
    /// The item of `spec.dryRun` names no metric.
    UnknownDryRun(usize),
    /// In a text of the metric, `{{` has no `}}` after it.
    OpenBraces(usize),
    /// In a text of the metric, what is in braces names no argument of the template.
    UnknownArg(usize),
    /// A text of the metric names an argument that neither the run nor the template gives a value.
    NoValue(usize),
    /// A limit, its arguments replaced, isn't one.
    BadLimit(usize),
    /// The metric has a `count` above 1 and no `interval`.
    IntervalMissing(usize),
    /// A growth of memory was refused.
    OutOfMemory,
}

impl ManifestError {
    /// What is at fault, by its number.
    fn number(self) -> Option<usize> {
        match self {
            ManifestError::BadArgs(number)
            | ManifestError::MetricNameMissing(number)
            | ManifestError::DoubleMetric(number)
            | ManifestError::BadField(number)
            | ManifestError::Unsupported(number)
            | ManifestError::BadDryRun(number)
            | ManifestError::UnknownDryRun(number)
            | ManifestError::OpenBraces(number)
            | ManifestError::UnknownArg(number)
            | ManifestError::NoValue(number)
            | ManifestError::BadLimit(number)
            | ManifestError::IntervalMissing(number) => Some(number),
            ManifestError::WrongVersion
            | ManifestError::WrongKind
            | ManifestError::NameMissing
            | ManifestError::NoMetrics
            | ManifestError::TooManyMetrics
            | ManifestError::OutOfMemory => None,
        }
    }

    /// The variant's name.
    pub fn name(self) -> &'static str
        ensures { result.now ≡ manifest_error_name self }
    {
        match self {
            ManifestError::WrongVersion => "WrongVersion",
            ManifestError::WrongKind => "WrongKind",
            ManifestError::NameMissing => "NameMissing",
            ManifestError::BadArgs(_) => "BadArgs",
            ManifestError::NoMetrics => "NoMetrics",
            ManifestError::TooManyMetrics => "TooManyMetrics",
            ManifestError::MetricNameMissing(_) => "MetricNameMissing",
            ManifestError::DoubleMetric(_) => "DoubleMetric",
            ManifestError::BadField(_) => "BadField",
            ManifestError::Unsupported(_) => "Unsupported",
            ManifestError::BadDryRun(_) => "BadDryRun",
            ManifestError::UnknownDryRun(_) => "UnknownDryRun",
            ManifestError::OpenBraces(_) => "OpenBraces",
            ManifestError::UnknownArg(_) => "UnknownArg",
            ManifestError::NoValue(_) => "NoValue",
            ManifestError::BadLimit(_) => "BadLimit",
            ManifestError::IntervalMissing(_) => "IntervalMissing",
            ManifestError::OutOfMemory => "OutOfMemory",
        }
    }
}

impl fmt::Debug for ManifestError {
    fn fmt<W: fmt::Write>(&self, f: &mut fmt::Formatter<W>) -> fmt::Result {
        let mut shown = f.debug_tuple(self.name());
        if let Some(number) = self.number() {
            shown.field(&number);
        }
        shown.finish()
    }
}

impl fmt::Display for ManifestError {
    fn fmt<W: fmt::Write>(&self, f: &mut fmt::Formatter<W>) -> fmt::Result {
        fmt::Debug::fmt(self, f)
    }
}

impl From<AllocError> for ManifestError {
    ghost from_gives = { λ _ e. e ≡ OutOfMemory };

    fn from(_error: AllocError) -> ManifestError {
        ManifestError::OutOfMemory
    }
}

impl<T: Drop> From<AllocFailed<T>> for ManifestError {
    ghost from_gives = { λ _ e. e ≡ OutOfMemory };

    fn from(_error: AllocFailed<T>) -> ManifestError {
        ManifestError::OutOfMemory
    }
}
