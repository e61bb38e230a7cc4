//! Operands whose kinds are looked at as operators take them.
//!
//! Each call gives what the operator means of its operands (`ar_value/specs/Operators`), of whatever kinds they are:
//! an operand, a fault, or that the operands are of wrong kinds. `specs/Operand` says what operands represent. No call
//! needs verified code or a checked condition, and each is total, but for `found::answer_of`, which asks for a number
//! of items below 2^63. Only what keeps an item takes memory.
//!
//! The machine with operand tests (`ar_tested`) and the traces of conditions (`ar_explain`) evaluate by them.
//!
//! - [`operand`]: operands, borrowed where the measured value or the code has them
//! - [`apply`]: what operators make of operands; `operators`: signs, arithmetic, orders and equality; [`list`]: what
//!   takes lists
//! - [`found`]: what loops find
#![tactic(auto)]

pub mod apply;
pub mod found;
pub mod list;
pub mod operand;
mod operators;
