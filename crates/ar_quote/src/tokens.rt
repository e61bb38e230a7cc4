//! The token at a byte of a condition.

ghost use Rattle.std.specs.Prelude.{◌≡◌, ◌≤◌, false, length, option_map};
ghost use Rattle.std.specs.List.{prefix_len};
ghost use Rattle.ar_quote.specs.Private.Runs.{continues};
ghost use Rattle.ar_quote.specs.Tokens.{halves_at, found, is_inner, is_of_number, is_of_word, is_pair, is_plain, is_quotation_mark, literal_length, rest_length, token_at, token_length};

// ---- tokens

fn is_of_word(byte: u8) -> bool
    ensures { result ≡ is_of_word byte }
{
    byte.is_ascii_alphanumeric() || byte == b'_'
}

fn is_of_number(byte: u8) -> bool
    ensures { result ≡ is_of_number byte }
{
    is_of_word(byte) || byte == b'.'
}

/// Whether a byte is one of a character after its first.
fn is_inner(byte: u8) -> bool
    ensures { result ≡ is_inner byte }
{
    matches!(byte, 0x80..=0xbf)
}

fn is_quote(byte: u8) -> bool
    ensures { result ≡ is_quotation_mark byte }
{
    byte == b'"' || byte == b'\''
}

/// What bytes a token may continue with.
#[derive(Clone, Copy)]
enum Run {
    Word,
    Number,
    /// The rest of one character.
    Character,
}

fn continues(run: Run, byte: u8) -> bool
    ensures { result ≡ continues run byte }
{
    match run {
        Run::Word => is_of_word(byte),
        Run::Number => is_of_number(byte),
        Run::Character => is_inner(byte),
    }
}

/// How many of the first bytes a token may continue with.
#[tactic(auto, using(crate::proofs::TokenBytes::next_byte, crate::proofs::TokenBytes::other_byte, crate::proofs::TokenBytes::no_byte))]
fn run_length(run: Run, bytes: &[u8]) -> usize
    ensures exact { result ≡ prefix_len (continues run) bytes.now }
    ensures bound { result ≤ length bytes.now }
{
    for (offset, byte) in bytes.iter().enumerate() {
        if !continues(run, *byte) {
            return offset;
        }
    }
    bytes.len()
}

/// Whether a byte is a sign that no backslash escapes.
fn is_plain(escaped: bool, byte: u8, sign: u8) -> bool
    ensures { result ≡ is_plain escaped byte sign }
{
    !escaped && byte == sign
}

/// How many bytes of a text literal come after its first quote.
#[tactic(auto, using(crate::proofs::TokenBytes::next_letter, crate::proofs::TokenBytes::last_letter, crate::proofs::TokenBytes::no_letter))]
fn literal_length(quote: u8, bytes: &[u8]) -> usize
    ensures exact { result ≡ literal_length quote false bytes.now }
    ensures bound { result ≤ length bytes.now }
{
    let mut escaped = false;
    for (offset, byte) in bytes.iter().enumerate() {
        if is_plain(escaped, *byte, quote) {
            return offset + 1;
        }
        escaped = is_plain(escaped, *byte, b'\\');
    }
    bytes.len()
}

/// Whether two bytes are one sign.
fn is_pair(first: u8, rest: &[u8]) -> bool
    ensures { result ≡ is_pair first rest.now }
{
    match rest.first() {
        None => false,
        Some(second) => {
            *second == b'=' && matches!(first, b'<'..=b'>')
                || *second == b'=' && first == b'!'
                || *second == first && (first == b'&' || first == b'|')
                || first == b'/' && *second == b'*'
        }
    }
}

/// How many bytes of a token come after its first.
fn rest_length(first: u8, rest: &[u8]) -> usize
    ensures exact { result ≡ rest_length first rest.now }
    ensures bound { result ≤ length rest.now }
{
    if is_quote(first) {
        literal_length(first, rest)
    } else if first.is_ascii_digit() {
        run_length(Run::Number, rest)
    } else if is_of_word(first) || first == b'.' {
        run_length(Run::Word, rest)
    } else if is_pair(first, rest) {
        1
    } else {
        run_length(Run::Character, rest)
    }
}

/// How many bytes the token has that a text begins with.
fn token_length(text: &str) -> usize
    ensures { result ≡ token_length text.now }
{
    match text.as_bytes().split_first() {
        None => 0,
        Some((first, rest)) => rest_length(*first, rest) + 1,
    }
}

// ---- offsets

/// A token of a condition, with what comes before it and what after it.
#[derive(Clone, Copy)]
pub struct TokenAt<'t> {
    pub before: &'t str,
    pub token: &'t str,
    pub after: &'t str,
}

/// The text on both sides of an offset.
#[tactic(auto, using(crate::proofs::TokenBytes::cuts, crate::proofs::TokenBytes::cuts_not))]
fn cut(text: &str, offset: usize) -> Option<(&str, &str)>
    ensures { option_map (λ parts. (parts.0.now, parts.1.now)) result ≡ halves_at offset text.now }
{
    text.split_at_checked(offset)
}

/// The token at a byte of a text.
#[tactic(auto, unfolding(crate::specs::Tokens::token_at))]
pub fn token_at(text: &str, offset: usize) -> Option<TokenAt<'_>>
    ensures { option_map (λ found_here. found found_here.before.now found_here.token.now found_here.after.now) result
        ≡ token_at offset text.now }
{
    let (before, rest) = cut(text, offset)?;
    let (token, after) = cut(rest, token_length(rest))?;
    Some(TokenAt {
        before,
        token,
        after,
    })
}
