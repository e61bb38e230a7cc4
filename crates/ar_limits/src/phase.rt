//! Phases, of metrics and of runs.

/// How far a metric or a run has come, as Argo Rollouts names it.
#[derive(Clone, Copy, Debug, PartialEq, Eq)]
pub enum Phase {
    /// Nothing has been measured yet.
    Pending,
    /// It isn't complete.
    Running,
    /// Complete, and the release may continue.
    Successful,
    /// Complete, with more failed measurements than `Limits::failure`.
    Failed,
    /// Complete, with more consecutive errors than `Limits::consecutive_error`.
    Error,
    /// Complete, with more inconclusive measurements than `Limits::inconclusive`.
    Inconclusive,
}

impl Phase {
    ghost use Rattle.std.specs.Prelude.{◌≡◌};
    ghost use Rattle.ar_limits.specs.Metric.{is_complete, is_unsuccessful};

    /// Whether a metric or run in this phase stays in it.
    pub fn is_complete(self) -> bool
        ensures { result ≡ is_complete self }
    {
        !matches!(self, Phase::Pending | Phase::Running)
    }

    /// Whether it is complete without success.
    pub fn is_unsuccessful(self) -> bool
        ensures { result ≡ is_unsuccessful self }
    {
        matches!(self, Phase::Failed | Phase::Error | Phase::Inconclusive)
    }
}
