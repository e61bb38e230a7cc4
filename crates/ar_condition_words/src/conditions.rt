//! Refusals of conditions.

ghost use Rattle.std.specs.Prelude.{◌≡◌, IfOk, Some, option_and_then, option_map, string_bytes};
ghost use Rattle.ar_value.specs.View.{shape_view};
ghost use Rattle.ar_diagnostic.specs.declared.diagnostic.Expected.TheVariants as wanted;
ghost use Rattle.ar_quote.specs.Quote.{quoted_round};
ghost use Rattle.ar_quote.specs.Tokens.{found};
ghost use Rattle.ar_condition_words.specs.Hints.{syntax_hint as grammar_hint};
ghost use Rattle.ar_condition_words.specs.Conditions.{code_diagnostic, condition_diagnostic, has_predicate, is_field, is_membership, kinds_expected, kinds_found, kinds_hint, kinds_with, length_diagnostic, operands_at_token, operator_rule, spot_of, syntax_expected, syntax_found, syntax_token, syntax_with, taken, takes_alike, takes_numbers, takes_texts, token_in, unexpected_at};

use crate::hints::syntax_hint;
use crate::operands::{fields_hint, operands_found, refused_operands};
use ar_check::TypeError;
use ar_check::found::Operands;
use ar_diagnostic::{Diagnostic, Expected, Place, Spot, copy_of, rule, thing};
use ar_judge::BuildCause;
use ar_quote::{TokenAt, push_quoted, push_round, token_at};
use ar_safety::Reason;
use ar_syntax::SyntaxError;
use ar_value::Text;
use ar_value::shape::Shape;
use std::alloc::{AllocError, Global};

// ---- where

/// The token at the byte of a refusal.
fn token_in(condition: Option<&str>, offset: Option<usize>) -> Option<TokenAt<'_>>
    ensures { option_map (λ here. found here.before.now here.token.now here.after.now) result
        ≡ token_in (option_map (λ text. text.now) condition.entry) offset }
{
    token_at(condition?, offset?)
}

/// The condition round a token.
fn excerpt_of(alloc: Global, here: Option<TokenAt<'_>>) -> Result<Option<Text>, AllocError>
    ensures { IfOk result (λ excerpt. excerpt ≡ option_map quoted_round
        (option_map (λ here. found here.before.now here.token.now here.after.now) here.entry)) }
{
    let Some(here) = here else {
        return Ok(None);
    };
    let mut excerpt = String::new(alloc);
    push_round(&mut excerpt, here)?;
    Ok(Some(Text::from(excerpt)))
}

/// A byte, and the condition round the token there.
fn spot_of(
    alloc: Global,
    offset: Option<usize>,
    here: Option<TokenAt<'_>>,
) -> Result<Option<Spot>, AllocError>
    ensures { IfOk result (λ spot. spot ≡ spot_of offset
        (option_map (λ here. found here.before.now here.token.now here.after.now) here.entry)) }
{
    let Some(offset) = offset else {
        return Ok(None);
    };
    let excerpt = excerpt_of(alloc, here)?;
    Ok(Some(Spot { offset, excerpt }))
}

// ---- the grammar

fn syntax_expected(alloc: Global, error: SyntaxError) -> Result<Option<Expected>, AllocError>
    ensures { IfOk result (λ expected. expected ≡ syntax_expected error) }
{
    match error {
        SyntaxError::TooLong => rule(alloc, "a condition has at most 4096 bytes"),
        SyntaxError::OpenText(_) => rule(alloc, "a text ends with the quote that it begins with"),
        SyntaxError::OpenComment(_) => rule(alloc, "a comment that begins with /* ends with */"),
        SyntaxError::BadEscape(_) => thing(alloc, "one of \\\\ \\\" \\' \\n \\r \\t"),
        SyntaxError::LiteralTooFine(_) => {
            rule(alloc, "a decimal has at most six digits after the point")
        }
        SyntaxError::NumberTooLarge(_) => thing(
            alloc,
            "at most 9223372036854775807, or 9223372036854.775807 with a point",
        ),
        SyntaxError::WrongCount(_) => rule(
            alloc,
            "len and isNil take one argument, default and calls with predicates two",
        ),
        SyntaxError::ItemOutside(_) => rule(
            alloc,
            "# is for the predicate of all, any, none, one, count or filter alone",
        ),
        SyntaxError::TooManyItems(_) => rule(alloc, "a list has at most 16 items"),
        SyntaxError::TooDeep(_) => rule(
            alloc,
            "at most 64 levels may be open at once, and a tree has at most 64",
        ),
        SyntaxError::BadCharacter(_)
        | SyntaxError::Unexpected(_)
        | SyntaxError::UnknownName(_)
        | SyntaxError::OutOfMemory => Ok(None),
    }
}

fn unexpected_at(here: Option<TokenAt<'_>>) -> &'static str
    ensures { result.now ≡ unexpected_at
        (option_map (λ here. found here.before.now here.token.now here.after.now) here.entry) }
{
    match here {
        Some(here) if here.token.is_empty() => "the condition ends too early",
        _ => "no condition continues so",
    }
}

fn syntax_found(error: SyntaxError, here: Option<TokenAt<'_>>) -> Option<&'static str>
    ensures { option_map (λ text. text.now) result ≡ syntax_found error
        (option_map (λ here. found here.before.now here.token.now here.after.now) here.entry) }
{
    match error {
        SyntaxError::BadCharacter(_) => Some("no word, number, text or sign has this byte here"),
        SyntaxError::Unexpected(_) => Some(unexpected_at(here)),
        SyntaxError::UnknownName(_) => Some("no word of the language"),
        _ => None,
    }
}

/// The token at which a condition isn't of the language. One that is too long isn't quoted.
fn syntax_token(condition: Option<&str>, error: SyntaxError) -> Option<TokenAt<'_>>
    ensures { option_map (λ here. found here.before.now here.token.now here.after.now) result
        ≡ syntax_token (option_map (λ text. text.now) condition.entry) error }
{
    match error {
        SyntaxError::TooLong => None,
        _ => token_in(condition, error.offset()),
    }
}

fn hint_at(error: SyntaxError, here: Option<TokenAt<'_>>) -> Option<&'static str>
    ensures { option_map (λ hint. hint.now) result ≡ option_and_then (grammar_hint error)
        (option_map (λ here. found here.before.now here.token.now here.after.now) here.entry) }
{
    syntax_hint(error, here?)
}

/// A condition that isn't of the language, at a token.
#[tactic(auto, unfolding(crate::specs::Conditions::syntax_with))]
fn syntax_with(
    alloc: Global,
    place: Place,
    error: SyntaxError,
    here: Option<TokenAt<'_>>,
) -> Result<Diagnostic, AllocError>
    ensures { IfOk result (λ it. it ≡ syntax_with place error
        (option_map (λ here. found here.before.now here.token.now here.after.now) here.entry)) }
{
    let mut it = Diagnostic::named(alloc, place, error.name())?;
    it.spot = spot_of(alloc, error.offset(), here)?;
    it.found = copy_of(alloc, syntax_found(error, here))?;
    it.expected = syntax_expected(alloc, error)?;
    it.hint = copy_of(alloc, hint_at(error, here))?;
    Ok(it)
}

// ---- kinds

fn takes_numbers(token: &str) -> bool
    ensures { result ≡ takes_numbers token.now }
{
    matches!(token, "+" | "-" | "*" | "/" | "<" | "<=" | ">" | ">=")
}

fn takes_texts(token: &str) -> bool
    ensures { result ≡ takes_texts token.now }
{
    matches!(token, "contains" | "startsWith" | "endsWith")
}

/// Whether a token is `in`, or `not` before it, which has two operands.
fn is_membership(token: &str, operands: &Option<Operands>) -> bool
    ensures { result ≡ is_membership token.now operands.now }
{
    token == "in" || token == "not" && matches!(operands, Some(Operands::Two(_, _)))
}

fn takes_alike(token: &str, operands: &Option<Operands>) -> bool
    ensures { result ≡ takes_alike token.now operands.now }
{
    token == "==" || token == "!=" || is_membership(token, operands)
}

fn has_predicate(token: &str) -> bool
    ensures { result ≡ has_predicate token.now }
{
    matches!(token, "all" | "any" | "none" | "one" | "count" | "filter")
}

fn is_field(token: &str) -> bool
    ensures { result ≡ is_field token.now }
{
    token.starts_with(".")
}

/// What an operator takes.
fn taken(token: &str, operands: &Option<Operands>) -> &'static str
    ensures { result.now ≡ taken token.now operands.now }
{
    if takes_numbers(token) {
        "\"whole\" or \"decimal\" alone"
    } else if takes_alike(token, operands) {
        "numbers, \"bool\" or \"text\" on both sides"
    } else if takes_texts(token) {
        "\"text\" alone"
    } else if token == "%" {
        "\"whole\" alone"
    } else if token == "[" {
        "a \"whole\" after a list, a name after a record"
    } else if is_field(token) {
        "a record"
    } else if has_predicate(token) {
        "\"bool\" as its predicate"
    } else {
        "\"bool\" alone"
    }
}

fn operator_rule(
    alloc: Global,
    operands: &Option<Operands>,
    here: TokenAt<'_>,
) -> Result<String, AllocError>
    ensures { IfOk result (λ words. string_bytes words ≡ operator_rule operands.now
        (found here.entry.before.now here.entry.token.now here.entry.after.now)) }
{
    let mut words = String::new(alloc);
    push_quoted(&mut words, here.token)?;
    words.push_str(" takes ")?;
    words.push_str(taken(here.token, operands))?;
    Ok(words)
}

/// What the operator at a token takes, if there is one.
fn operator_expected(
    alloc: Global,
    here: Option<TokenAt<'_>>,
    operands: &Option<Operands>,
) -> Result<Option<Expected>, AllocError>
    ensures { IfOk result (λ expected. expected ≡ option_map (λ here. wanted.Rule (operator_rule operands.now here))
        (option_map (λ here. found here.before.now here.token.now here.after.now) here.entry)) }
{
    match here {
        Some(here) => rule(alloc, operator_rule(alloc, operands, here)?.as_str()),
        None => Ok(None),
    }
}

fn kinds_expected(
    alloc: Global,
    error: TypeError,
    here: Option<TokenAt<'_>>,
    operands: &Option<Operands>,
) -> Result<Option<Expected>, AllocError>
    ensures { IfOk result (λ expected. expected ≡ kinds_expected error
        (option_map (λ here. found here.before.now here.token.now here.after.now) here.entry) operands.now) }
{
    match error {
        TypeError::WrongOperand(_) => operator_expected(alloc, here, operands),
        TypeError::NotAList(_) => {
            thing(alloc, "a list, as {\"list\":shape,\"max\":number} declares")
        }
        TypeError::NoCommonKind(_) => thing(
            alloc,
            "one shape for all; \"whole\" and \"decimal\" have \"decimal\"",
        ),
        TypeError::NotScalar(_) => thing(
            alloc,
            "\"bool\", \"whole\", \"decimal\" or \"text\" as an item of a list",
        ),
        TypeError::NotTruth(_) => thing(
            alloc,
            "\"bool\" of the whole condition, as `result >= 0.95` gives",
        ),
        TypeError::PredicatesTooDeep(_) => thing(
            alloc,
            "at most four of all, any, none, one, count and filter in one another",
        ),
        TypeError::NoSuchField(_) | TypeError::OutOfMemory => Ok(None),
    }
}

/// The operands of the operator at a token, where they are known.
fn operands_at_token(
    alloc: Global,
    here: Option<TokenAt<'_>>,
    operands: &Option<Operands>,
) -> Result<Option<Text>, AllocError>
    ensures { IfOk result (λ text. text ≡ operands_at_token
        (option_map (λ here. found here.before.now here.token.now here.after.now) here.entry) operands.now) }
{
    let (Some(here), Some(found)) = (here, operands) else {
        return Ok(None);
    };
    let is_membership = is_membership(here.token, operands);
    Ok(Some(operands_found(alloc, is_membership, found)?))
}

fn kinds_found(
    alloc: Global,
    error: TypeError,
    here: Option<TokenAt<'_>>,
    operands: &Option<Operands>,
) -> Result<Option<Text>, AllocError>
    ensures { IfOk result (λ text. text ≡ kinds_found error
        (option_map (λ here. found here.before.now here.token.now here.after.now) here.entry) operands.now) }
{
    match error {
        TypeError::WrongOperand(_) => operands_at_token(alloc, here, operands),
        TypeError::NoSuchField(_) => Ok(Some(Text::of(alloc, "the record has no such field")?)),
        _ => Ok(None),
    }
}

/// What helps where a condition has no kinds.
fn kinds_hint(
    alloc: Global,
    error: TypeError,
    operands: &Option<Operands>,
) -> Result<Option<Text>, AllocError>
    ensures { IfOk result (λ hint. hint ≡ kinds_hint error operands.now) }
{
    match error {
        TypeError::NoSuchField(_) => fields_hint(alloc, operands),
        _ => Ok(None),
    }
}

/// A condition that has no kinds, at a token.
#[tactic(auto, unfolding(crate::specs::Conditions::kinds_with))]
fn kinds_with(
    alloc: Global,
    place: Place,
    error: TypeError,
    here: Option<TokenAt<'_>>,
    operands: &Option<Operands>,
) -> Result<Diagnostic, AllocError>
    ensures { IfOk result (λ it. it ≡ kinds_with place error
        (option_map (λ here. found here.before.now here.token.now here.after.now) here.entry) operands.now) }
{
    let mut it = Diagnostic::named(alloc, place, error.name())?;
    it.spot = spot_of(alloc, error.offset(), here)?;
    it.found = kinds_found(alloc, error, here, operands)?;
    it.expected = kinds_expected(alloc, error, here, operands)?;
    it.hint = kinds_hint(alloc, error, operands)?;
    Ok(it)
}

// ---- code

/// Code that the verifier refuses: compiled code for its size alone.
///
/// # Errors
///
/// Out of memory alone.
#[tactic(auto, unfolding(crate::specs::Conditions::code_diagnostic))]
pub fn code_diagnostic(
    alloc: Global,
    place: Place,
    reason: Reason,
) -> Result<Diagnostic, AllocError>
    ensures { IfOk result (λ it. it ≡ code_diagnostic place reason) }
{
    match reason {
        Reason::StackTooDeep => {
            Diagnostic::expecting(alloc, place, reason.name(), "at most 64 operands")
        }
        Reason::BudgetTooLarge => {
            let mut it = Diagnostic::named(alloc, place, reason.name())?;
            it.found = Some(Text::of(alloc, "a run may cost over 1000000000")?);
            it.hint = Some(Text::of(alloc, "lower a list's max or nest fewer predicates")?);
            Ok(it)
        }
        _ => Diagnostic::named(alloc, place, reason.name()),
    }
}

/// A condition whose code would be too long.
///
/// # Errors
///
/// Out of memory alone.
#[tactic(auto, unfolding(crate::specs::Conditions::length_diagnostic))]
pub fn length_diagnostic(alloc: Global, place: Place) -> Result<Diagnostic, AllocError>
    ensures { IfOk result (λ it. it ≡ length_diagnostic place) }
{
    let expected = "a condition of at most 4096 operations";
    let mut it = Diagnostic::expecting(alloc, place, "TooManyOps", expected)?;
    it.hint = Some(Text::of(alloc, "split it, or nest fewer calls and operators")?);
    Ok(it)
}

// ---- a condition

/// A condition that is refused, where `result` has a shape.
///
/// # Errors
///
/// Out of memory alone.
#[tactic(auto, unfolding(crate::specs::Conditions::condition_diagnostic))]
pub fn condition_diagnostic(
    alloc: Global,
    place: Place,
    shape: &Option<Shape>,
    condition: Option<&str>,
    cause: BuildCause,
) -> Result<Diagnostic, AllocError>
    ensures { IfOk result (λ it. it ≡ condition_diagnostic place (option_map shape_view shape.now)
        (option_map (λ text. text.now) condition.entry) cause) }
{
    match cause {
        BuildCause::Grammar(error) => {
            syntax_with(alloc, place, error, syntax_token(condition, error))
        }
        BuildCause::Kinds(error) => {
            let operands = refused_operands(alloc, shape, condition, error)?;
            let here = token_in(condition, error.offset());
            kinds_with(alloc, place, error, here, &operands)
        }
        BuildCause::Compiler(_) => length_diagnostic(alloc, place),
        BuildCause::Verifier(_, reason) => code_diagnostic(alloc, place, reason),
        BuildCause::OutOfMemory => Diagnostic::named(alloc, place, "OutOfMemory"),
    }
}
