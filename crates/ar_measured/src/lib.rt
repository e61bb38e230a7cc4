//! Values of measurements, read from borrowed JSON values.
//!
//! A borrowed value (`json::Value`) is cheap to have: its texts and numbers are parts of the document.
//! Where a measurement is no record, its value is read from the borrowed one directly: a number or a
//! boolean takes no memory, a text is copied once, and the items of a list are read one after another.
//! A record is read by way of a `serde_json` value, whose members have an order.
//!
//! What is proved, for all inputs: where a borrowed value is data (`of_json` of `serde_json`'s
//! `specs/Read`), what is read is what `ar_json` defines for that data under the shape, value and
//! refusal; and whatever is read fits its shape, its records' fields by rising names. A borrowed value
//! is no data only where it has a number out of the range of floats: then it may be refused by any
//! name, and no value is read. Only a refused allocation can keep a call from its result. Depth is not
//! limited here: whoever reads the borrowed value limits it.
//!
//! - [`values`]: the value that a borrowed value is under a shape
//! - [`measurer`]: reading many values of one shape
//! - [`parts`]: texts, decimals, and what is read by way of a `serde_json` value
#![tactic(auto)]

pub mod measurer;
mod parts;
pub mod values;

pub use measurer::Measurer;
pub use values::value_of;
