//! AnalysisTemplates and ClusterAnalysisTemplates of Argo Rollouts, as `kubectl get analysistemplate
//! NAME -o json` prints them: read from JSON, and their arguments bound.
//!
//! [`Template::read`] takes each template as it is, with all fields that say nothing of how
//! measurements are judged, and names the first fault of one that it refuses. [`Template::bind`]
//! puts a run's arguments in, and gives each metric's conditions, limits, effective count, and whether it is dry.
//! [`Template::bind_shortened`] does so without making a condition whole that is too long.
//! Where binding is refused, [`Template::unbound_reference`] and [`Template::refused_limit`] say for what.
//!
//! What is proved: a document is read as the template that `specs/Template` defines, and bound as
//! `specs/Bound` defines, or it is refused by the one name that comes first in the stated order.
//! Only a refused allocation can keep a call from its result, and no fault that is found before memory is
//! taken is reported as out of memory. The names and the meaning of fields are
//! those of Argo Rollouts' documentation, page "Analysis & Progressive Delivery", and of the
//! AnalysisTemplate spec.
//!
//! | Module | What it has |
//! |---|---|
//! | `template` | templates and their metrics, before arguments are bound |
//! | `arguments` | values by name: a template's arguments, and a run's own |
//! | `names_hasher` | what hashes their names |
//! | `bound` | metrics whose arguments are bound |
//! | `error` | why a template is refused |
//! | `found` | the reference or the limit that binding is refused for |
//! | [`laws`] | what holds of binding, for all texts |
//! | `reader`, `dry_run` | reading a JSON document as a template, and which metrics `dryRun` names |
//! | `binding`, `limit`, `binder` | binding a text, a limit, and a template's metrics |
//!
//! In `specs`, `Arguments` and `Names` define values by name and what names are hashed from, `Template` and
//! `DryRun` reading, `Cut` where a text is cut at its braces, `Binding` what becomes of a text, `Bound` limits,
//! counts and the order of refusals, `Shortened` what is given for conditions that are too long, `Found` for what
//! binding is refused.
//! `Private` has what only the proofs use.
#![tactic(auto)]

mod arguments;
mod binder;
mod binding;
mod bound;
mod dry_run;
mod error;
mod found;
pub mod laws;
mod limit;
mod names_hasher;
mod reader;
mod template;

pub use arguments::{Args, Arguments};
pub use bound::{Bound, BoundMetric};
pub use error::ManifestError;
pub use found::{LimitField, LimitValue, RefusedLimit};
pub use names_hasher::NamesHasher;
pub use template::{Limit, Metric, MetricLimits, Metrics, Template};
