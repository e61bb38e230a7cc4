//! Operations of the stack machine.

ghost use Rattle.std.specs.Prelude.{◌≡◌};
ghost use Rattle.ar_op.specs.Machine.{takes};

use ar_value::operator::{BinaryOperator, Predicate, Scalar, UnaryOperator};

/// What is pushed.
#[derive(Clone, Copy)]
pub enum Source {
    Bool(bool),
    Whole(i64),
    /// In millionths.
    Decimal(i64),
    /// A text of the code, by its number.
    Text(u32),
    Nil,
    /// The measured value.
    Result,
    /// The innermost item of a loop.
    Item,
}

/// When a jump is taken, and what it does with the boolean on top.
#[derive(Clone, Copy)]
pub enum Jump {
    /// Where `false` is on top, which stays; else on without it.
    And,
    /// Where `true` is on top, which stays; else on without it.
    Or,
    /// Takes a boolean, and jumps where it is false.
    Branch,
    Always,
}

/// An operation. It takes its operands from the top of the stack, the right one being the last that
/// was pushed, and gives one operand, unless it says something else. An index is the number of an
/// operation in its code, from 0.
#[derive(Clone, Copy)]
pub enum Op {
    Push(Source),
    /// Takes `count` scalars of one kind, at most 16, and gives the list of them.
    MakeList { scalar: Scalar, count: u8 },
    /// Takes a record and gives its field, by the number of the field's name in the code.
    Field(u32),
    Unary(UnaryOperator),
    Binary(BinaryOperator),
    /// Jumps to an index, or continues.
    Jump(Jump, u32),
    /// Takes a list and begins a loop at its first item. Where there is none it gives the answer and
    /// continues after the loop's step, whose index it names.
    Enter(Predicate, u32),
    /// Takes a boolean, and continues with the next item after the loop's begin, whose index it
    /// names, or ends the loop and gives the answer.
    Step(Predicate, u32),
    /// Takes a boolean, which is the answer.
    Return,
}

impl Op {
    /// How many operands it takes or examines.
    pub fn takes(self) -> usize
        ensures { result ≡ takes self }
    {
        match self {
            Op::Push(_) | Op::Jump(Jump::Always, _) => 0,
            Op::MakeList { count, .. } => usize::from(count),
            Op::Binary(_) => 2,
            Op::Jump(Jump::And | Jump::Or | Jump::Branch, _)
            | Op::Field(_)
            | Op::Unary(_)
            | Op::Enter(..)
            | Op::Step(..)
            | Op::Return => 1,
        }
    }
}
