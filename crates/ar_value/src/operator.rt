//! The operators of conditions, and the kinds of operands that they distinguish.

ghost use Rattle.std.specs.Prelude.{◌≡◌};
ghost use Rattle.std.specs.Bool.{Decides};
ghost use Rattle.ar_value.specs.Predicates.{ends_at, gathers};
ghost use Rattle.ar_value.specs.TextTests.{Passes, passes};

/// The kinds of a list's items, where these are scalars.
#[derive(Clone, Copy)]
pub enum Scalar {
    Bool,
    Whole,
    Decimal,
    Text,
}

/// What numbers an operation takes.
#[derive(Clone, Copy)]
pub enum Numbers {
    Wholes,
    Decimals,
}

/// Scalars that can be equal.
#[derive(Clone, Copy)]
pub enum Family {
    Boolean,
    Number,
    Text,
}

/// The operators on two numbers that give a number.
#[derive(Clone, Copy)]
pub enum Arithmetic {
    Add,
    Subtract,
    Multiply,
    Divide,
    Remainder,
}

/// The operators on two decimals that give a decimal. There is no remainder of decimals.
#[derive(Clone, Copy)]
pub enum DecimalArithmetic {
    Add,
    Subtract,
    Multiply,
    Divide,
}

/// The operators that say which of two numbers is the greater.
#[derive(Clone, Copy)]
pub enum Order {
    Less,
    LessOrEqual,
    Greater,
    GreaterOrEqual,
}

/// What numbers an order comparison takes.
#[derive(Clone, Copy)]
pub enum Compared {
    Wholes,
    Decimals,
    /// Wholes or decimals, on either side.
    Mixed,
}

/// The operators on one operand.
#[derive(Clone, Copy)]
pub enum UnaryOperator {
    /// How many items a list has.
    Len,
    /// What isn't nil; nil is a fault.
    Need,
    /// Whether it is nil.
    IsNil,
    /// A whole as a decimal; nil stays.
    ToDecimal,
    /// The other boolean.
    Not,
    Negate(Numbers),
}

/// The operators on two operands.
#[derive(Clone, Copy)]
pub enum BinaryOperator {
    /// The item of a list at a whole; -1 is the last.
    Index,
    /// The first, or the second where the first is nil.
    Default,
    /// Whether a list has an item that equals a scalar, all of one family; any of them may be nil.
    IsIn,
    /// Arithmetic of two wholes.
    Wholes(Arithmetic),
    /// Arithmetic of two decimals.
    Decimals(DecimalArithmetic),
    /// An order comparison of two numbers.
    Compare(Compared, Order),
    /// Whether two scalars of a family are equal; either may be nil.
    Equal(Family),
    /// A test of two texts.
    TextTest(TextTest),
}

/// The tests that look for one text, the part, in another, the whole, byte by byte.
#[derive(Clone, Copy)]
pub enum TextTest {
    Contains,
    StartsWith,
    EndsWith,
}

impl TextTest {
    /// Whether the whole has the part, at its start or end where the test requires it there. Every
    /// whole has the empty part.
    #[tactic(auto, using(crate::proofs::TextTests::contained, crate::proofs::TextTests::started, crate::proofs::TextTests::ended, crate::proofs::TextTests::is_there))]
    pub fn passes(self, whole: &str, part: &str) -> bool
        ensures exact { result ≡ passes self whole.now part.now }
        ensures is_there { Decides result (Passes self whole.now part.now) }
    {
        match self {
            TextTest::Contains => whole.contains(part),
            TextTest::StartsWith => whole.starts_with(part),
            TextTest::EndsWith => whole.ends_with(part),
        }
    }
}

/// The calls that take a list and a predicate on its items.
#[derive(Clone, Copy)]
pub enum Predicate {
    All,
    Any,
    None,
    One,
    Count,
    Filter,
}

/// What a loop keeps of the items of which its predicate holds.
#[derive(Clone, Copy)]
pub enum Gather {
    Nothing,
    Number,
    Items,
}

impl Predicate {
    /// The boolean of an item that ends the loop at once, and the answer that it then has.
    pub fn ends_at(self) -> Option<(bool, bool)>
        ensures { result ≡ ends_at self }
    {
        match self {
            Predicate::All => Some((false, false)),
            Predicate::Any => Some((true, true)),
            Predicate::None => Some((true, false)),
            Predicate::One | Predicate::Count | Predicate::Filter => None,
        }
    }

    /// What its answer takes of the items of which the predicate holds.
    pub fn gathers(self) -> Gather
        ensures { result ≡ gathers self }
    {
        match self {
            Predicate::All | Predicate::Any | Predicate::None => Gather::Nothing,
            Predicate::One | Predicate::Count => Gather::Number,
            Predicate::Filter => Gather::Items,
        }
    }
}
