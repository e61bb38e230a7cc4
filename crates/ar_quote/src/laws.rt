//! Laws of what is shown. A law is the contract of a function that does nothing.

ghost use Rattle.std.specs.Prelude.{◌≡◌, ◌≤◌, ◌++◌, ℕ, All, List, false, length};
ghost use Rattle.std.specs.Str.{IsUtf8, chars};
ghost use Rattle.ar_quote.specs.Shown.{most_characters, moves, quoted, shown_name};

/// A name stays in its line: of no character that is shown of it does a terminal make anything else.
#[tactic(auto, using(crate::proofs::Still::names_stay))]
pub fn names_stay_in_their_line()
    ensures { (name : List ℕ) → IsUtf8 name → All (λ character. moves character ≡ false) (chars (quoted name)) }
{}

/// So does a name in a line of words.
#[tactic(auto, using(crate::proofs::Still::shown_names_stay))]
pub fn shown_names_stay_in_their_line()
    ensures { (name : List ℕ) → IsUtf8 name → All (λ character. moves character ≡ false) (chars (shown_name name)) }
{}

/// A name that is shown whole ends where it seems to end: texts that begin with two such names are equal only where
/// the names are, and what comes after them.
#[tactic(auto, using(crate::proofs::Ended::names_end))]
pub fn names_end_where_they_seem_to()
    ensures { (name other after more : List ℕ) → IsUtf8 name → IsUtf8 other
        → length (chars name) ≤ most_characters → length (chars other) ≤ most_characters
        → quoted name ++ after ≡ quoted other ++ more → (name ≡ other) × (after ≡ more) }
{}
