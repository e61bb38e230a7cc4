//! Values of measurements, the shapes that metrics declare for them, and exact decimal numbers.
//!
//! Nothing is ever rounded: a decimal is a count of millionths, and digits past the sixth after
//! the point are cut off. Arithmetic is exact, or cut toward zero, or refused by name.
//!
//! What is proved, for all inputs: a text is the decimal that `specs/DecimalText` defines, or
//! refused by the one name that it gives, and `specs/DecimalShown` is how a decimal is written; a value
//! fits a shape by `specs/Fits`; arithmetic is that of `specs/Arithmetic`, and numbers compare by their
//! exact values; the kind that two kinds have in common is that of `specs/Kind`. Only a refused
//! allocation can keep a call from its result: copies of texts and shapes and common kinds take memory.
//!
//! `specs/Answer` has the words for answers, a value or a refusal, that the crates above use.
//!
//! - [`decimal`]: decimals, and the order of numbers; `decimal_text` reads their texts, `decimal_shown`
//!   writes them, and [`digits`] reads the numbers that digits spell
//! - [`arithmetic`]: arithmetic of decimals; [`whole`]: of wholes
//! - [`fault`]: faults of arithmetic and of operands; [`operator`]: operators of conditions, which
//!   `specs/Operators` defines on values, `specs/TextTests` on texts and `specs/Predicates` for loops
//! - [`text`], [`value`], [`shape`]: texts, values and shapes, which contracts see by `specs/View`; a record
//!   takes no memory for optional fields that are absent
//! - [`names`], [`indices`]: names of a record's fields, which its shape and its values share, and which of
//!   them have a value; both are found by binary search
//! - [`fitting`]: which values fit
//! - [`kind`]: kinds of expressions; `widening` joins shapes; [`sameness`]: which are the same;
//!   [`shared_shape`]: shapes with several owners
//! - [`holding`]: values that are held while others are made
//! - [`limits`]: limits that several crates observe
//! - [`laws`]: what holds of kinds
#![tactic(auto)]

pub mod arithmetic;
pub mod decimal;
mod decimal_shown;
mod decimal_text;
pub mod digits;
pub mod fault;
pub mod fitting;
pub mod holding;
pub mod indices;
pub mod kind;
pub mod laws;
pub mod limits;
pub mod names;
pub mod operator;
pub mod sameness;
pub mod shape;
pub mod shared_shape;
pub mod text;
pub mod value;
pub mod whole;
mod widening;

pub use decimal::{Decimal, Number, NumberFault, compare};
pub use fault::Fault;
pub use fitting::fits;
pub use indices::Indices;
pub use kind::{Kind, common, merge};
pub use names::Names;
pub use shape::{FieldShapes, Shape};
pub use shared_shape::SharedShape;
pub use text::Text;
pub use value::{Fields, Value, Values};
