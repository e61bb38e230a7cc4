//! Documents of the program, read as bundles.
//!
//! [`read_bundle`] takes the bytes of one JSON document with a template `manifest`, the `shapes` of
//! its metrics, `runs` and `measurements`, and returns the bundle that `specs/Document` defines, or
//! the first fault in the document: its parts are examined in their order, its runs one
//! after another, and so are its entries. Only out of memory can keep it from its result. Names of
//! runs and metrics are found by a map. The entries are read from the text, one after another, so that no tree of
//! them is made. [`read_with_head`] also returns the rest of the document, and [`read_unmeasured`] the
//! measurements that gave no value of their metrics' shapes (`specs/Unmeasured`).
//!
//! - [`bundle`]: bundles of documents; [`error`]: why a document is none
//! - `opening`: the template, its metrics and their shapes; [`runs`]: runs as they are written;
//!   `names`: numbers by name
//! - [`unmeasured`]: the measurements that gave no value
//! - `parts`: a judge and limits for each run and metric; `entries`: what happened to one; `measurements`: all of that
//! - [`laws`]: that an input has one result
#![tactic(auto)]

pub mod bundle;
mod entries;
pub mod error;
pub mod laws;
mod measurements;
mod names;
mod opening;
mod parts;
pub mod runs;
pub mod unmeasured;

pub use bundle::{read_bundle, read_with_head};
pub use error::BundleError;
pub use unmeasured::read_unmeasured;
