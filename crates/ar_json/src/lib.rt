//! Reading of JSON (RFC 8259): documents of limited size, members of objects, and shapes and values
//! of measurements.
//!
//! Measurements come from metric providers as JSON: booleans, whole numbers of 64 bits, texts,
//! lists, records, and decimals, which are written as texts since JSON's fractions have no exact
//! value. Each is read under its metric's declared shape.
//!
//! What is proved, for all inputs: an input is the JSON value of `specs/Document`, or refused by the
//! one name that it gives; a JSON value declares the shape of `specs/Declaration`; it is read under a
//! shape as `specs/Reading` defines, and what is read fits its shape, its records' fields by rising
//! names (`specs/Names`). Only a refused allocation can keep a call from its result.
//!
//! - [`document`]: JSON documents of limited size; [`members`]: members of objects
//! - [`shape_reading`], [`value_reading`]: reading shapes and values
//! - [`reader`]: reading many values of one shape; `needs` is what a shape requires of records, computed once
//! - [`laws`]: what holds of reading as a whole
#![tactic(auto)]

pub mod document;
pub mod laws;
pub mod members;
mod needs;
pub mod reader;
pub mod shape_reading;
pub mod value_reading;

pub use document::{JsonError, read_json};
pub use reader::Reader;
pub use shape_reading::{ShapeError, read_shape};
pub use value_reading::{ShapeFault, read_value};
