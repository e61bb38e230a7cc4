//! Laws of the grammar, for all tokens and all texts. A law is the contract of a function that
//! does nothing.

ghost use Rattle.std.specs.Prelude.{◌≡◌, ◌≢◌, ◌↔◌, ℕ, nat_le, false, List, Some};
ghost use Rattle.ar_syntax.specs.Condition.{Derives, SaysTree, depth, most_depth};
ghost use Rattle.ar_syntax.specs.Refusal.{AreRefused};
ghost use Rattle.ar_syntax.specs.Parsed.{IsRefusal};
ghost use Rattle.ar_syntax.specs.Parse.{parse_of};
ghost use Rattle.ar_tree.specs.Expression.{Expression};
ghost use Rattle.ar_syntax.specs.declared.error.SyntaxError.{SyntaxError};
ghost use Rattle.ar_syntax.specs.Token.{letters, word_of};
ghost use Rattle.ar_syntax.specs.declared.token.Token.{Token};
ghost use Rattle.ar_syntax.specs.declared.token.Word.{Word};

/// Tokens derive at most one tree.
pub fn one_tree()
    ensures { (tokens : List Token) (first second : Expression)
        → Derives tokens first → Derives tokens second → first ≡ second }
{}

/// Tokens have a tree that isn't too deep or a refusal, not both, and at most one refusal.
pub fn one_refusal()
    ensures apart { (end : ℕ) (tokens : List Token) (error : SyntaxError) (tree : Expression)
        → AreRefused end tokens error → Derives tokens tree → nat_le (depth tree) most_depth ≡ false }
    ensures one { (end : ℕ) (tokens : List Token) (first second : SyntaxError)
        → AreRefused end tokens first → AreRefused end tokens second → first ≡ second }
{}

/// What is parsed is what the text says, and what is refused is what the grammar refuses: each text
/// whose tokens derive a tree of at most 64 levels is parsed, and to that tree.
pub fn parse_is_grammar()
    ensures tree { (text : List ℕ) (tree : Expression)
        → (parse_of text ≡ Ok tree) ↔ SaysTree text tree }
    ensures refusal { (text : List ℕ) (error : SyntaxError)
        → (parse_of text ≡ Err error) ↔ IsRefusal text error }
{}

/// Each word that the language names is found by its letters.
#[tactic(auto, using(crate::proofs::Words::each_is_named))]
pub fn words_are_named()
    ensures { (word : Word) → word_of (letters word) ≡ Some word }
{}

/// No text is refused as out of memory.
pub fn memory_is_no_refusal()
    ensures { (text : List ℕ) → parse_of text ≢ Err SyntaxError.OutOfMemory }
{}
