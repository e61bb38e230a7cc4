//! How runs end.

use ar_machine::outcome::Outcome;

/// How a run ends.
#[derive(Clone, Copy, PartialEq, Eq)]
pub enum Ended {
    Done(Outcome),
    /// At the index of an operation whose operands are missing or of wrong kinds, or that is in
    /// no loop of its own, or at an index outside the code.
    Stuck(usize),
    /// The next operation costs more than is left of the fuel.
    Spent,
}
