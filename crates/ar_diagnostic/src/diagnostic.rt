//! What is said of something that is refused, or probably not meant.

ghost use Rattle.std.specs.Prelude.{◌≡◌, ◌++◌, IfOk, Some, option_map};
ghost use Rattle.ar_quote.specs.Shown.{quoted};
ghost use Rattle.ar_diagnostic.specs.declared.diagnostic.Expected.TheVariants as wanted;
ghost use Rattle.ar_diagnostic.specs.Diagnostic.{expecting, plain_diagnostic};

use crate::place::Place;
use ar_quote::push_quoted;
use ar_value::Text;
use std::alloc::{AllocError, Global};

/// What is said of something that is refused, or probably not meant.
#[derive(Drop)]
pub struct Diagnostic {
    pub place: Place,
    /// Where in a condition it is.
    pub spot: Option<Spot>,
    /// The name of what is wrong, which programs can rely on.
    pub name: Text,
    pub found: Option<Text>,
    pub expected: Option<Expected>,
    /// Where an input that is no JSON ceases to be that.
    pub position: Option<Position>,
    /// What helps.
    pub hint: Option<Text>,
}

/// A byte of a condition.
#[derive(Drop)]
pub struct Spot {
    pub offset: usize,
    /// The condition round it, in which the token there is marked.
    pub excerpt: Option<Text>,
}

/// What is expected.
#[derive(Drop)]
pub enum Expected {
    /// Something in place of what was found, as `a text`.
    Thing(Text),
    /// A rule, as `a list has at most 16 items`.
    Rule(Text),
}

/// Where an input ceases to be JSON.
#[derive(Clone, Copy)]
pub enum Position {
    End,
    /// A line and a column.
    At(usize, usize),
}

impl Diagnostic {
    /// What has a place and a name, and no more.
    pub fn named(alloc: Global, place: Place, name: &str) -> Result<Diagnostic, AllocError>
        ensures { IfOk result (λ it. it ≡ plain_diagnostic place name.now) }
    {
        Ok(Diagnostic {
            place,
            spot: None,
            name: Text::of(alloc, name)?,
            found: None,
            expected: None,
            position: None,
            hint: None,
        })
    }

    /// Something else is expected.
    pub fn expecting(
        alloc: Global,
        place: Place,
        name: &str,
        expected: &str,
    ) -> Result<Diagnostic, AllocError>
        ensures { IfOk result (λ it. it ≡ expecting place name.now expected.now) }
    {
        let mut it = Diagnostic::named(alloc, place, name)?;
        it.expected = Some(Expected::Thing(Text::of(alloc, expected)?));
        Ok(it)
    }

    /// The same, with what was found.
    pub fn with_found(self, found: Option<Text>) -> Diagnostic
        ensures { result ≡ record self { found = found } }
    {
        Diagnostic { found, ..self }
    }

    /// The same, with what helps.
    pub fn with_hint(self, hint: Option<Text>) -> Diagnostic
        ensures { result ≡ record self { hint = hint } }
    {
        Diagnostic { hint, ..self }
    }
}

// ---- parts

/// A copy of a text, if there is one.
pub fn copy_of(alloc: Global, text: Option<&str>) -> Result<Option<Text>, AllocError>
    ensures { IfOk result (λ copy. copy ≡ option_map (λ text. text.now) text.entry) }
{
    match text {
        Some(text) => Ok(Some(Text::of(alloc, text)?)),
        None => Ok(None),
    }
}

/// A name in quotes, with words before it and after it.
pub fn with_quoted(alloc: Global, before: &str, name: &str, after: &str) -> Result<Text, AllocError>
    ensures { IfOk result (λ text. text ≡ before.now ++ (quoted name.now ++ after.now)) }
{
    let mut text = before.to_string(alloc)?;
    push_quoted(&mut text, name)?;
    text.push_str(after)?;
    Ok(Text::from(text))
}

/// Something is expected in place of what was found.
pub fn thing(alloc: Global, words: &str) -> Result<Option<Expected>, AllocError>
    ensures { IfOk result (λ expected. expected ≡ Some (wanted.Thing words.now)) }
{
    Ok(Some(Expected::Thing(Text::of(alloc, words)?)))
}

/// A rule is expected to hold.
pub fn rule(alloc: Global, words: &str) -> Result<Option<Expected>, AllocError>
    ensures { IfOk result (λ expected. expected ≡ Some (wanted.Rule words.now)) }
{
    Ok(Some(Expected::Rule(Text::of(alloc, words)?)))
}
