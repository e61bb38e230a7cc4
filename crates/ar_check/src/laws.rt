//! Laws of kinds and of checked conditions. A law is the contract of a function that does nothing.

ghost use Rattle.std.specs.Prelude.{◌≡◌, ◌≢◌, ℕ, false, None, Option, Ok, true};
ghost use Rattle.ar_value.specs.declared.operator.BinaryOperator.TheVariants as binary;
ghost use Rattle.ar_value.specs.Fits.{fits};
ghost use Rattle.ar_value.specs.Kind.{Kind};
ghost use Rattle.ar_value.specs.Shape.{Shape};
ghost use Rattle.ar_value.specs.Value.{Value};
ghost use Rattle.ar_value.specs.Value as values;
ghost use Rattle.ar_tree.specs.Expression.{Expression};
ghost use Rattle.ar_check.specs.Check.{checked, typed_of};
ghost use Rattle.ar_tree.specs.Meaning.{IsBooleanOrFault, mean};
ghost use Rattle.ar_check.specs.Operand.{Operand, operand};
ghost use Rattle.ar_tree.specs.Typed.{Typed};
ghost use Rattle.ar_tree.specs.Typed as typed;
ghost use Rattle.ar_check.specs.Typing.{HasKind};

/// A checked condition, on a value of its shape, is true or false or meets a fault: nothing else
/// can happen.
#[tactic(auto, using(crate::proofs::Sound::is_boolean_or_fault))]
pub fn checked_conditions_have_a_meaning()
    ensures { (shape : Shape) (tree : Expression) (condition : Typed) (value : Value)
        → checked shape tree ≡ Ok condition → fits value shape ≡ true → IsBooleanOrFault (mean value None condition) }
{}

/// What is typed has the kind that is found, by the table of kinds, and each tree with a kind is typed.
#[tactic(auto, using(crate::proofs::KindTable::has_kind, crate::proofs::KindTable::is_typed))]
pub fn typing_is_the_table()
    ensures found { (result : Shape) (item : Option Shape) (around : ℕ) (tree : Expression) (found : Operand)
        → typed_of result item around tree ≡ Ok found → HasKind result item around tree found.kind }
    ensures typed { (result : Shape) (item : Option Shape) (around : ℕ) (tree : Expression) (kind : Kind)
        → HasKind result item around tree kind
        → (typed : Typed) × (typed_of result item around tree ≡ Ok (operand typed kind)) }
{}

/// A tree has at most one kind.
#[tactic(auto, using(crate::proofs::KindTable::one_kind))]
pub fn one_kind()
    ensures { (result : Shape) (item : Option Shape) (around : ℕ) (tree : Expression) (first second : Kind)
        → HasKind result item around tree first → HasKind result item around tree second → first ≡ second }
{}

/// `and` with a false left side is false, whatever is right of it.
pub fn and_with_false_is_false()
    ensures { (result : Value) (here : Option Value) (left right : Typed)
        → mean result here left ≡ Ok (values.bool false)
        → mean result here (typed.both left right) ≡ Ok (values.bool false) }
{}

/// `or` with a true left side is true, whatever is right of it.
pub fn or_with_true_is_true()
    ensures { (result : Value) (here : Option Value) (left right : Typed)
        → mean result here left ≡ Ok (values.bool true)
        → mean result here (typed.either left right) ≡ Ok (values.bool true) }
{}

/// `default(a, b)` of an a that isn't nil is a, where b has no fault.
#[tactic(auto, using(crate::proofs::Defaults::is_the_value))]
pub fn default_of_a_value_is_the_value()
    ensures { (result : Value) (here : Option Value) (operand substitute : Typed) (value other : Value)
        → mean result here operand ≡ Ok value → value ≢ values.nil → mean result here substitute ≡ Ok other
        → mean result here (typed.binary binary.Default operand substitute) ≡ Ok value }
{}

/// `default(a, b)` of a nil a means what b means.
#[tactic(auto, using(crate::proofs::Defaults::is_the_other))]
pub fn default_of_nil_is_the_other()
    ensures { (result : Value) (here : Option Value) (operand substitute : Typed)
        → mean result here operand ≡ Ok values.nil
        → mean result here (typed.binary binary.Default operand substitute) ≡ mean result here substitute }
{}
