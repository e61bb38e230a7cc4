//! Why a document is no bundle.

ghost use Rattle.std.specs.Prelude.{◌≡◌};
ghost use Rattle.ar_document.specs.Refusals.{bundle_error_name};

use ar_json::document::JsonError;
use ar_json::shape_reading::ShapeError;
use ar_judge::BuildError;
use ar_manifest::ManifestError;
use std::alloc::{AllocError, AllocFailed};
use std::fmt;
use thiserror::Error;

/// Why an input is no bundle, in the order of the checks; but `ShapeMissing` and `Shapes` are
/// checked metric by metric, `Bind` and `Build` run by run, and the last three entry by entry, of which
/// `BadEntry` comes before the names. Numbers of metrics, runs and entries count from 0.
#[derive(Clone, Copy, Error)]
pub enum BundleError {
    /// It has more than 16,777,216 bytes.
    TooLarge,
    /// It is not the text of one JSON value in UTF-8.
    Utf8OrJson,
    /// `manifest` is no template.
    Manifest(ManifestError),
    /// `shapes` has no member of the metric's name.
    ShapeMissing(usize),
    /// What `shapes` has for the metric is no shape.
    Shapes(usize, ShapeError),
    /// `runs` is no list of 1 to 64 runs, each with a text `name` and no `args` but texts by name.
    Runs,
    /// The run has the name of an earlier one.
    DoubleRun(usize),
    /// The template can't be bound to the run's arguments.
    Bind(usize, ManifestError),
    /// A condition of the metric, bound to the run's arguments, can't be run.
    Build(usize, usize, BuildError),
    /// There are more than 100,000 entries.
    TooManyMeasurements,
    /// The entry is neither a stop of a run nor a measurement of a metric; or `measurements` is no
    /// list, and the number is 0.
    BadEntry(usize),
    /// No run has the name.
    UnknownRun(usize),
    /// No metric has the name.
    UnknownMetric(usize),
    OutOfMemory,
}

impl BundleError {
    /// What is at fault, by its number.
    fn number(self) -> Option<usize> {
        match self {
            BundleError::ShapeMissing(number)
            | BundleError::Shapes(number, _)
            | BundleError::DoubleRun(number)
            | BundleError::Bind(number, _)
            | BundleError::Build(number, _, _)
            | BundleError::BadEntry(number)
            | BundleError::UnknownRun(number)
            | BundleError::UnknownMetric(number) => Some(number),
            BundleError::TooLarge
            | BundleError::Utf8OrJson
            | BundleError::Manifest(_)
            | BundleError::Runs
            | BundleError::TooManyMeasurements
            | BundleError::OutOfMemory => None,
        }
    }

    /// The variant's name.
    pub fn name(self) -> &'static str
        ensures { result.now ≡ bundle_error_name self }
    {
        match self {
            BundleError::TooLarge => "TooLarge",
            BundleError::Utf8OrJson => "Utf8OrJson",
            BundleError::Manifest(_) => "Manifest",
            BundleError::ShapeMissing(_) => "ShapeMissing",
            BundleError::Shapes(..) => "Shapes",
            BundleError::Runs => "Runs",
            BundleError::DoubleRun(_) => "DoubleRun",
            BundleError::Bind(..) => "Bind",
            BundleError::Build(..) => "Build",
            BundleError::TooManyMeasurements => "TooManyMeasurements",
            BundleError::BadEntry(_) => "BadEntry",
            BundleError::UnknownRun(_) => "UnknownRun",
            BundleError::UnknownMetric(_) => "UnknownMetric",
            BundleError::OutOfMemory => "OutOfMemory",
        }
    }
}

impl fmt::Debug for BundleError {
    fn fmt<W: fmt::Write>(&self, f: &mut fmt::Formatter<W>) -> fmt::Result {
        let mut shown = f.debug_tuple(self.name());
        if let Some(number) = self.number() {
            shown.field(&number);
        }
        match self {
            BundleError::Manifest(error) | BundleError::Bind(_, error) => {
                shown.field(error);
            }
            BundleError::Shapes(_, error) => {
                shown.field(error);
            }
            BundleError::Build(_, metric, error) => {
                shown.field(metric).field(error);
            }
            _ => {}
        }
        shown.finish()
    }
}

impl fmt::Display for BundleError {
    fn fmt<W: fmt::Write>(&self, f: &mut fmt::Formatter<W>) -> fmt::Result {
        fmt::Debug::fmt(self, f)
    }
}

impl From<JsonError> for BundleError {
    ghost use Rattle.std.specs.Prelude.{◌≡◌};
    ghost use Rattle.ar_document.specs.Document.{bundle_json_error};

    ghost from_gives = { λ error e. e ≡ bundle_json_error error };

    fn from(error: JsonError) -> BundleError {
        match error {
            JsonError::TooLarge => BundleError::TooLarge,
            JsonError::Utf8OrJson => BundleError::Utf8OrJson,
            JsonError::OutOfMemory => BundleError::OutOfMemory,
        }
    }
}

impl From<AllocError> for BundleError {
    ghost use Rattle.std.specs.Prelude.{◌≡◌};
    ghost use Rattle.ar_document.specs.declared.error.BundleError.TheVariants.{OutOfMemory};

    ghost from_gives = { λ _ e. e ≡ OutOfMemory };

    fn from(_error: AllocError) -> BundleError {
        BundleError::OutOfMemory
    }
}

impl<T: Drop> From<AllocFailed<T>> for BundleError {
    ghost use Rattle.std.specs.Prelude.{◌≡◌};
    ghost use Rattle.ar_document.specs.declared.error.BundleError.TheVariants.{OutOfMemory};

    ghost from_gives = { λ _ e. e ≡ OutOfMemory };

    fn from(_error: AllocFailed<T>) -> BundleError {
        BundleError::OutOfMemory
    }
}
