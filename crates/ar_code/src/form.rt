//! The codes and the names of operations.

ghost use Rattle.std.specs.Prelude.{◌≡◌};
ghost use Rattle.ar_code.specs.Decoding.{all_ops, among, op_of};
ghost use Rattle.ar_code.specs.Forms.{binary_row, code_of, comparison_row, decimals_row, enter_row, equality_row, jump_row, name_of, source_row, step_row, text_test_row, unary_row, wholes_row};

use crate::version::Version;
use ar_op::op::{Jump, Op, Source};
use ar_value::operator::{
    Arithmetic, BinaryOperator, Compared, DecimalArithmetic, Family, Numbers, Order, Predicate,
    Scalar, TextTest, UnaryOperator,
};

/// What an operation is but for its fields: its code in an image, and its name in a listing.
#[derive(Clone, Copy)]
pub(crate) struct Form {
    pub(crate) code: u8,
    pub(crate) name: &'static str,
}

impl Form {
    fn new(code: u8, name: &'static str) -> Form
        ensures code { result.code ≡ code }
        ensures name { result.name.now ≡ name.now }
    {
        Form { code, name }
    }
}

pub(crate) fn form_of(op: Op) -> Form
    ensures code { result.code ≡ code_of op }
    ensures name { result.name.now ≡ name_of op }
{
    match op {
        Op::Push(source) => of_source(source),
        Op::MakeList { .. } => Form::new(6, "MakeList"),
        Op::Field(_) => Form::new(9, "Field"),
        Op::Unary(operator) => of_unary(operator),
        Op::Binary(operator) => of_binary(operator),
        Op::Jump(jump, _) => of_jump(jump),
        Op::Enter(predicate, _) => of_enter(predicate),
        Op::Step(predicate, _) => of_step(predicate),
        Op::Return => Form::new(56, "Return"),
    }
}

fn of_source(source: Source) -> Form
    ensures code { result.code ≡ (source_row source).code }
    ensures name { result.name.now ≡ (source_row source).name }
{
    match source {
        Source::Bool(_) => Form::new(1, "PushBool"),
        Source::Whole(_) => Form::new(2, "PushWhole"),
        Source::Decimal(_) => Form::new(3, "PushDecimal"),
        Source::Text(_) => Form::new(4, "PushText"),
        Source::Nil => Form::new(5, "PushNil"),
        Source::Result => Form::new(7, "LoadResult"),
        Source::Item => Form::new(8, "Item"),
    }
}

fn of_unary(operator: UnaryOperator) -> Form
    ensures code { result.code ≡ (unary_row operator).code }
    ensures name { result.name.now ≡ (unary_row operator).name }
{
    match operator {
        UnaryOperator::Len => Form::new(11, "Len"),
        UnaryOperator::Need => Form::new(12, "Need"),
        UnaryOperator::IsNil => Form::new(13, "IsNil"),
        UnaryOperator::ToDecimal => Form::new(15, "ToDecimal"),
        UnaryOperator::Not => Form::new(17, "Not"),
        UnaryOperator::Negate(Numbers::Wholes) => Form::new(23, "NegW"),
        UnaryOperator::Negate(Numbers::Decimals) => Form::new(28, "NegD"),
    }
}

fn of_binary(operator: BinaryOperator) -> Form
    ensures code { result.code ≡ (binary_row operator).code }
    ensures name { result.name.now ≡ (binary_row operator).name }
{
    match operator {
        BinaryOperator::Index => Form::new(10, "Index"),
        BinaryOperator::Default => Form::new(14, "Default"),
        BinaryOperator::IsIn => Form::new(16, "IsIn"),
        BinaryOperator::Wholes(operator) => of_wholes(operator),
        BinaryOperator::Decimals(operator) => of_decimals(operator),
        BinaryOperator::Compare(compared, order) => of_comparison(compared, order),
        BinaryOperator::Equal(family) => of_equality(family),
        BinaryOperator::TextTest(test) => of_text_test(test),
    }
}

fn of_wholes(operator: Arithmetic) -> Form
    ensures code { result.code ≡ (wholes_row operator).code }
    ensures name { result.name.now ≡ (wholes_row operator).name }
{
    match operator {
        Arithmetic::Add => Form::new(18, "AddW"),
        Arithmetic::Subtract => Form::new(19, "SubW"),
        Arithmetic::Multiply => Form::new(20, "MulW"),
        Arithmetic::Divide => Form::new(21, "DivW"),
        Arithmetic::Remainder => Form::new(22, "RemW"),
    }
}

fn of_decimals(operator: DecimalArithmetic) -> Form
    ensures code { result.code ≡ (decimals_row operator).code }
    ensures name { result.name.now ≡ (decimals_row operator).name }
{
    match operator {
        DecimalArithmetic::Add => Form::new(24, "AddD"),
        DecimalArithmetic::Subtract => Form::new(25, "SubD"),
        DecimalArithmetic::Multiply => Form::new(26, "MulD"),
        DecimalArithmetic::Divide => Form::new(27, "DivD"),
    }
}

fn of_comparison(compared: Compared, order: Order) -> Form
    ensures code { result.code ≡ (comparison_row compared order).code }
    ensures name { result.name.now ≡ (comparison_row compared order).name }
{
    match (compared, order) {
        (Compared::Wholes, Order::Less) => Form::new(29, "LtW"),
        (Compared::Wholes, Order::LessOrEqual) => Form::new(30, "LeW"),
        (Compared::Wholes, Order::Greater) => Form::new(31, "GtW"),
        (Compared::Wholes, Order::GreaterOrEqual) => Form::new(32, "GeW"),
        (Compared::Decimals, Order::Less) => Form::new(33, "LtD"),
        (Compared::Decimals, Order::LessOrEqual) => Form::new(34, "LeD"),
        (Compared::Decimals, Order::Greater) => Form::new(35, "GtD"),
        (Compared::Decimals, Order::GreaterOrEqual) => Form::new(36, "GeD"),
        (Compared::Mixed, Order::Less) => Form::new(37, "LtM"),
        (Compared::Mixed, Order::LessOrEqual) => Form::new(38, "LeM"),
        (Compared::Mixed, Order::Greater) => Form::new(39, "GtM"),
        (Compared::Mixed, Order::GreaterOrEqual) => Form::new(40, "GeM"),
    }
}

fn of_equality(family: Family) -> Form
    ensures code { result.code ≡ (equality_row family).code }
    ensures name { result.name.now ≡ (equality_row family).name }
{
    match family {
        Family::Boolean => Form::new(41, "EqBool"),
        Family::Number => Form::new(42, "EqNumber"),
        Family::Text => Form::new(43, "EqText"),
    }
}

fn of_text_test(test: TextTest) -> Form
    ensures code { result.code ≡ (text_test_row test).code }
    ensures name { result.name.now ≡ (text_test_row test).name }
{
    match test {
        TextTest::Contains => Form::new(61, "Contains"),
        TextTest::StartsWith => Form::new(62, "StartsWith"),
        TextTest::EndsWith => Form::new(63, "EndsWith"),
    }
}

fn of_jump(jump: Jump) -> Form
    ensures code { result.code ≡ (jump_row jump).code }
    ensures name { result.name.now ≡ (jump_row jump).name }
{
    match jump {
        Jump::And => Form::new(44, "AndJump"),
        Jump::Or => Form::new(45, "OrJump"),
        Jump::Branch => Form::new(46, "BranchFalse"),
        Jump::Always => Form::new(47, "Jump"),
    }
}

fn of_enter(predicate: Predicate) -> Form
    ensures code { result.code ≡ (enter_row predicate).code }
    ensures name { result.name.now ≡ (enter_row predicate).name }
{
    match predicate {
        Predicate::All => Form::new(48, "AllEnter"),
        Predicate::Any => Form::new(50, "AnyEnter"),
        Predicate::None => Form::new(57, "NoneEnter"),
        Predicate::One => Form::new(59, "OneEnter"),
        Predicate::Count => Form::new(52, "CountEnter"),
        Predicate::Filter => Form::new(54, "FilterEnter"),
    }
}

fn of_step(predicate: Predicate) -> Form
    ensures code { result.code ≡ (step_row predicate).code }
    ensures name { result.name.now ≡ (step_row predicate).name }
{
    match predicate {
        Predicate::All => Form::new(49, "AllStep"),
        Predicate::Any => Form::new(51, "AnyStep"),
        Predicate::None => Form::new(58, "NoneStep"),
        Predicate::One => Form::new(60, "OneStep"),
        Predicate::Count => Form::new(53, "CountStep"),
        Predicate::Filter => Form::new(55, "FilterStep"),
    }
}

/// One operation for each code from 1 on, in their order, its fields being empty.
const OPS: [Op; 63] = [
    Op::Push(Source::Bool(false)),
    Op::Push(Source::Whole(0)),
    Op::Push(Source::Decimal(0)),
    Op::Push(Source::Text(0)),
    Op::Push(Source::Nil),
    Op::MakeList {
        scalar: Scalar::Bool,
        count: 0,
    },
    Op::Push(Source::Result),
    Op::Push(Source::Item),
    Op::Field(0),
    Op::Binary(BinaryOperator::Index),
    Op::Unary(UnaryOperator::Len),
    Op::Unary(UnaryOperator::Need),
    Op::Unary(UnaryOperator::IsNil),
    Op::Binary(BinaryOperator::Default),
    Op::Unary(UnaryOperator::ToDecimal),
    Op::Binary(BinaryOperator::IsIn),
    Op::Unary(UnaryOperator::Not),
    Op::Binary(BinaryOperator::Wholes(Arithmetic::Add)),
    Op::Binary(BinaryOperator::Wholes(Arithmetic::Subtract)),
    Op::Binary(BinaryOperator::Wholes(Arithmetic::Multiply)),
    Op::Binary(BinaryOperator::Wholes(Arithmetic::Divide)),
    Op::Binary(BinaryOperator::Wholes(Arithmetic::Remainder)),
    Op::Unary(UnaryOperator::Negate(Numbers::Wholes)),
    Op::Binary(BinaryOperator::Decimals(DecimalArithmetic::Add)),
    Op::Binary(BinaryOperator::Decimals(DecimalArithmetic::Subtract)),
    Op::Binary(BinaryOperator::Decimals(DecimalArithmetic::Multiply)),
    Op::Binary(BinaryOperator::Decimals(DecimalArithmetic::Divide)),
    Op::Unary(UnaryOperator::Negate(Numbers::Decimals)),
    Op::Binary(BinaryOperator::Compare(Compared::Wholes, Order::Less)),
    Op::Binary(BinaryOperator::Compare(Compared::Wholes, Order::LessOrEqual)),
    Op::Binary(BinaryOperator::Compare(Compared::Wholes, Order::Greater)),
    Op::Binary(BinaryOperator::Compare(Compared::Wholes, Order::GreaterOrEqual)),
    Op::Binary(BinaryOperator::Compare(Compared::Decimals, Order::Less)),
    Op::Binary(BinaryOperator::Compare(Compared::Decimals, Order::LessOrEqual)),
    Op::Binary(BinaryOperator::Compare(Compared::Decimals, Order::Greater)),
    Op::Binary(BinaryOperator::Compare(Compared::Decimals, Order::GreaterOrEqual)),
    Op::Binary(BinaryOperator::Compare(Compared::Mixed, Order::Less)),
    Op::Binary(BinaryOperator::Compare(Compared::Mixed, Order::LessOrEqual)),
    Op::Binary(BinaryOperator::Compare(Compared::Mixed, Order::Greater)),
    Op::Binary(BinaryOperator::Compare(Compared::Mixed, Order::GreaterOrEqual)),
    Op::Binary(BinaryOperator::Equal(Family::Boolean)),
    Op::Binary(BinaryOperator::Equal(Family::Number)),
    Op::Binary(BinaryOperator::Equal(Family::Text)),
    Op::Jump(Jump::And, 0),
    Op::Jump(Jump::Or, 0),
    Op::Jump(Jump::Branch, 0),
    Op::Jump(Jump::Always, 0),
    Op::Enter(Predicate::All, 0),
    Op::Step(Predicate::All, 0),
    Op::Enter(Predicate::Any, 0),
    Op::Step(Predicate::Any, 0),
    Op::Enter(Predicate::Count, 0),
    Op::Step(Predicate::Count, 0),
    Op::Enter(Predicate::Filter, 0),
    Op::Step(Predicate::Filter, 0),
    Op::Return,
    Op::Enter(Predicate::None, 0),
    Op::Step(Predicate::None, 0),
    Op::Enter(Predicate::One, 0),
    Op::Step(Predicate::One, 0),
    Op::Binary(BinaryOperator::TextTest(TextTest::Contains)),
    Op::Binary(BinaryOperator::TextTest(TextTest::StartsWith)),
    Op::Binary(BinaryOperator::TextTest(TextTest::EndsWith)),
];

/// The operation that has a code.
#[tactic(auto, using(crate::proofs::Ordered::no_op))]
fn op_with(code: u8) -> Option<Op>
    ensures { result ≡ among all_ops code }
{
    let index = usize::from(code).checked_sub(1)?;
    OPS.get(index).copied()
}

/// The operation that has a code in images of a version.
#[tactic(auto, unfolding(crate::specs::Decoding::op_of))]
pub(crate) fn op_of(version: Version, code: u8) -> Option<Op>
    ensures { result ≡ op_of version code }
{
    if code > version.last_code() {
        None
    } else {
        op_with(code)
    }
}
