//! Limits that several crates keep to. Contracts have the same numbers from `specs/Limits`.

/// How many bytes a condition may have, and a text or name in it or in its code.
pub const MOST_TEXT_BYTES: usize = 4096;

/// How many items a list literal may have.
pub const MOST_LITERAL_ITEMS: usize = 16;

/// How many operations code may have, how many texts, and how many names.
pub const MOST_CODE_ENTRIES: usize = 4096;

/// How many calls with a predicate may be nested, and so how many loops may be around an
/// operation.
pub const MOST_LOOPS: usize = 4;

/// How many operands a run of code may have at a time.
pub const MOST_OPERANDS: usize = 64;

/// How many metrics a template may have.
pub const MOST_METRICS: usize = 64;

/// How many runs a bundle may have.
pub const MOST_RUNS: usize = 64;

/// How many workers may judge a bundle.
pub const MOST_WORKERS: usize = 16;
