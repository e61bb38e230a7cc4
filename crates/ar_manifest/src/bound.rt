//! A template whose arguments are bound.

ghost use Rattle.std.specs.Prelude.{◌≡◌};

use ar_value::Text;
use std::marker::Model;

/// A metric of a template whose arguments are bound.
#[derive(Drop)]
pub struct BoundMetric {
    pub name: Text,
    pub success_condition: Option<Text>,
    pub failure_condition: Option<Text>,
    /// How many measurements may fail.
    pub failure_limit: u32,
    /// How many measurements may be inconclusive.
    pub inconclusive_limit: u32,
    /// How many consecutive errors are allowed.
    pub consecutive_error_limit: u32,
    /// How many measurements complete the metric; `None` where it has no end.
    pub count: Option<u32>,
    /// Whether the metric is judged and counted, and decides nothing.
    pub dry: bool,
}

/// The metrics of a template whose arguments are bound. Contracts see their list.
#[derive(Drop)]
pub struct Bound {
    metrics: Vec<BoundMetric>,
}

impl Model for Bound {
    ghost use Rattle.std.specs.Prelude.{List};
    ghost use Rattle.ar_manifest.specs.declared.bound.BoundMetric.{BoundMetric};

    ghost Value = { List BoundMetric };

    ghost view = { λ bound. bound.metrics.items };
}

impl Bound {
    pub fn metrics(&self) -> &[BoundMetric]
        ensures { result.now ≡ self.now }
    {
        &self.metrics
    }

    /// The metrics as a `Vec`, without taking memory.
    pub fn into_metrics(self) -> Vec<BoundMetric>
        ensures { result.items ≡ self }
    {
        self.metrics
    }
}

impl From<Vec<BoundMetric>> for Bound {
    ghost from_gives = { λ metrics bound. bound ≡ metrics.items };

    fn from(metrics: Vec<BoundMetric>) -> Bound {
        Bound { metrics }
    }
}
