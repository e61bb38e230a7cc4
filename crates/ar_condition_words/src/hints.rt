//! What helps where a condition has something of another language.

ghost use Rattle.std.specs.Prelude.{◌≡◌, IfOk, option_map};
ghost use Rattle.std.specs.Char.{is_ascii_digit};
ghost use Rattle.std.specs.List.{list_all};
ghost use Rattle.ar_quote.specs.Tokens.{found};
ghost use Rattle.ar_condition_words.specs.Hints.{token_begins, comes_after, exponent_hint, function_hint, is_conversion, is_exponent_part, is_float_test, pair_hint, question_hint, sign_hint, syntax_hint, token_hint};

use ar_quote::TokenAt;
use ar_syntax::SyntaxError;

// ---- Argo Rollouts' functions

fn is_conversion(token: &str) -> bool
    ensures { result ≡ is_conversion token.now }
{
    matches!(token, "asFloat" | "asInt")
}

fn is_float_test(token: &str) -> bool
    ensures { result ≡ is_float_test token.now }
{
    matches!(token, "isNaN" | "isInf")
}

fn function_hint(token: &str) -> Option<&'static str>
    ensures { option_map (λ hint. hint.now) result ≡ function_hint token.now }
{
    if is_conversion(token) {
        Some("leave it out: the shape says the kind")
    } else if is_float_test(token) {
        Some("NaN is no value here: it is the error NotFinite, which consecutiveErrorLimit counts")
    } else {
        None
    }
}

// ---- signs and words

fn token_hint(token: &str) -> Option<&'static str>
    ensures { option_map (λ hint. hint.now) result ≡ token_hint token.now }
{
    match token {
        "=" => Some("`==` compares"),
        "`" => Some("a text stands in \"..\" or '..'"),
        "|" => Some("there are no pipes; write calls as len(result)"),
        "matches" => Some(
            "there are no regular expressions; contains, startsWith and endsWith compare texts",
        ),
        _ => None,
    }
}

fn comes_after(sign: &str, before: &str) -> bool
    ensures { result ≡ comes_after sign.now before.now }
{
    before.ends_with(sign)
}

fn token_begins(sign: &str, token: &str) -> bool
    ensures { result ≡ token_begins sign.now token.now }
{
    token.starts_with(sign)
}

/// Of a sign that two others make.
fn pair_hint(before: &str, token: &str) -> Option<&'static str>
    ensures { option_map (λ hint. hint.now) result ≡ pair_hint before.now token.now }
{
    if comes_after("*", before) && token_begins("*", token) {
        Some("there is no power; write a product")
    } else if comes_after(".", before) && token_begins(".", token) {
        Some("there are no ranges; write two comparisons")
    } else {
        None
    }
}

/// Of a question mark, by what is after it.
fn question_hint(after: &str) -> Option<&'static str>
    ensures { option_map (λ hint. hint.now) result ≡ question_hint after.now }
{
    if token_begins("?", after) {
        Some("there is no `??`; default(a, b) is b where a is nil")
    } else if token_begins(".", after) {
        Some("there is no `?.`; test isNil(a) first")
    } else {
        None
    }
}

fn are_digits(bytes: &[u8]) -> bool
    ensures { result ≡ list_all is_ascii_digit bytes.now }
{
    bytes.iter().all(|byte| byte.is_ascii_digit())
}

/// Is it an exponent's letter, with its digits where they have no sign?
fn is_exponent_part(token: &str) -> bool
    ensures { result ≡ is_exponent_part token.now }
{
    match token.as_bytes().split_first() {
        Some((letter, digits)) => matches!(letter, b'e' | b'E') && are_digits(digits),
        None => false,
    }
}

/// Of what continues a number.
fn exponent_hint(token: &str) -> Option<&'static str>
    ensures { option_map (λ hint. hint.now) result ≡ exponent_hint token.now }
{
    if is_exponent_part(token) {
        Some("a number has no exponent; write 0.001 in place of 1e-3")
    } else {
        None
    }
}

/// Of a sign that isn't one of the language.
fn sign_hint(token: &str, after: &str) -> Option<&'static str>
    ensures { option_map (λ hint. hint.now) result ≡ sign_hint token.now after.now }
{
    if token == "?" {
        question_hint(after)
    } else {
        exponent_hint(token)
    }
}

/// What helps at the token at which a condition is refused.
pub(crate) fn syntax_hint(error: SyntaxError, here: TokenAt<'_>) -> Option<&'static str>
    ensures { option_map (λ hint. hint.now) result
        ≡ syntax_hint error (found here.entry.before.now here.entry.token.now here.entry.after.now) }
{
    match error {
        SyntaxError::BadCharacter(_) => token_hint(here.token).or(sign_hint(
            here.token, here.after,
        )),
        SyntaxError::Unexpected(_) => token_hint(here.token).or(pair_hint(here.before, here.token)),
        SyntaxError::UnknownName(_) => function_hint(here.token).or(token_hint(here.token)),
        _ => None,
    }
}
