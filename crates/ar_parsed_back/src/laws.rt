//! Laws of shown parts. A law is the contract of a function that does nothing.

ghost use Rattle.std.specs.Prelude.{◌≡◌, ℕ, Bool, false, List, [], Ok, Option};
ghost use Rattle.ar_value.specs.Shape.{Shape};
ghost use Rattle.ar_value.specs.Terms.{Text};
ghost use Rattle.ar_tree.specs.Expression.{Expression};
ghost use Rattle.ar_tree.specs.Typed.{Typed};
ghost use Rattle.ar_syntax.specs.Condition.{at_any_depth};
ghost use Rattle.ar_syntax.specs.Grammar.{DerivesBy, Phrase, ternary};
ghost use Rattle.ar_syntax.specs.Parse.{parse_of};
ghost use Rattle.ar_syntax.specs.Tokens.{tokens_of};
ghost use Rattle.ar_syntax.specs.declared.token.Token.{Token};
ghost use Rattle.ar_check.specs.Check.{checked, typed_of};
ghost use Rattle.ar_check.specs.Operand.{Operand};
ghost use Rattle.ar_show.specs.PartText.{shown_part};
ghost use Rattle.ar_parsed_back.specs.InPlace.{HasNoPlus, MayBeNil, NeedsInPlace};
ghost use Rattle.ar_parsed_back.specs.Kinds.{HaveKinds, part_kinds};
ghost use Rattle.ar_parsed_back.specs.Quotable.{IsQuotable};
ghost use Rattle.ar_parsed_back.specs.Readable.{CanBeWritten};
ghost use Rattle.ar_parsed_back.specs.ReadsBack.{CanBeShown, IsCheckedBack, IsParsedBack, IsShort, ReadsBack};
ghost use Rattle.ar_parsed_back.specs.Written.{Writes};

/// The shown text of each part that can be written is cut into tokens of the part's kinds.
#[tactic(auto, using(crate::proofs::Back::text_is_cut))]
pub fn texts_are_cut()
    ensures { (part : Typed) (inside : Bool) → CanBeWritten inside part → IsShort part
        → (tokens : List Token) × (tokens_of (shown_part part) ≡ Ok tokens) × HaveKinds (part_kinds part) tokens [] }
{}

/// Any tokens of a part's kinds are a phrase of the grammar, and its tree says the part.
#[tactic(auto, using(crate::proofs::Readings::kinds_are_read))]
pub fn kinds_are_read()
    ensures { (part : Typed) (inside : Bool) (tokens : List Token) → CanBeWritten inside part
        → HaveKinds (part_kinds part) tokens []
        → (tree : Expression) × Writes tree part
        × ((left : ℕ) → Phrase at_any_depth ternary inside left tokens tree []) }
{}

/// The shown text of each part that can be written reads back: it is cut into tokens, and the grammar reads these as a
/// tree that says the part, inside a predicate or not.
#[tactic(auto, using(crate::proofs::Back::reads_back))]
pub fn shown_parts_read_back()
    ensures { (part : Typed) (inside : Bool) → CanBeWritten inside part → IsShort part → ReadsBack inside part }
{}

/// Whatever tree the grammar derives from the shown text says the part.
#[tactic(auto, using(crate::proofs::Back::only_tree))]
pub fn each_tree_says_the_part()
    ensures { (part : Typed) (tokens : List Token) (tree : Expression) → CanBeWritten false part → IsShort part
        → tokens_of (shown_part part) ≡ Ok tokens → DerivesBy at_any_depth tokens tree → Writes tree part }
{}

/// The parser makes of the shown text a tree that says the part, or refuses it as too deep.
#[tactic(auto, using(crate::proofs::Back::parsed_back))]
pub fn shown_parts_are_parsed_back()
    ensures { (part : Typed) → CanBeWritten false part → IsShort part
        → IsParsedBack part (parse_of (shown_part part)) }
{}

/// Whatever tree says a part that was checked is checked to it: its shown text loses no kind.
#[tactic(auto, using(crate::proofs::Rechecked::part_again))]
pub fn parts_are_checked_again()
    ensures { (result : Shape) (item : Option Shape) (around : ℕ) (first_tree : Expression) (first : Operand)
        → typed_of result item around first_tree ≡ Ok first → NeedsInPlace first.tree → MayBeNil first.tree
        → (tree : Expression) → Writes tree first.tree → typed_of result item around tree ≡ Ok first }
{}

/// Each condition that is accepted can be written, if its texts can be quoted.
#[tactic(auto, using(crate::proofs::Back::accepted_written))]
pub fn accepted_conditions_can_be_written()
    ensures { (text : Text) (shape : Shape) (tree : Expression) (condition : Typed) → parse_of text ≡ Ok tree
        → checked shape tree ≡ Ok condition → IsQuotable condition → CanBeWritten false condition }
{}

/// Only a sign `+` unwraps an operand where the check of kinds doesn't.
#[tactic(auto, using(crate::proofs::WithoutPlus::needs_in_place))]
pub fn needs_are_in_place_without_plus()
    ensures { (shape : Shape) (tree : Expression) (condition : Typed) → checked shape tree ≡ Ok condition
        → HasNoPlus tree → NeedsInPlace condition }
{}

/// The parser and the check of kinds make of the shown text of a condition that is accepted that condition, or the
/// parser refuses it as too deep.
#[tactic(auto, using(crate::proofs::Back::accepted_back))]
pub fn accepted_conditions_are_read_back()
    ensures { (text : Text) (shape : Shape) (tree : Expression) (condition : Typed) → parse_of text ≡ Ok tree
        → checked shape tree ≡ Ok condition → CanBeShown condition
        → IsCheckedBack shape condition (parse_of (shown_part condition)) }
{}
