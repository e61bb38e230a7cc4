//! Laws of explanations as JSON: what a reader of their objects finds. It has no code.
//!
//! The object of an explanation (`ar_reason/specs/ReasonData`) states facts of runs and their events (`specs/Stated`),
//! and of the conditions that were evaluated (`specs/StatedCondition`). A reader takes them from it by the names of
//! its members (`specs/ExplanationReader`, `specs/ConditionReader`). `specs/StatedText` has the lines that these facts
//! give.
//!
//! What is proved, for all explanations ([`laws`]): a reader of an object finds its facts; the lines of runs, events
//! and parts of conditions are made of these facts; and of two facts that look alike in JSON the engine states only
//! one.
#![tactic(auto)]

pub mod laws;
