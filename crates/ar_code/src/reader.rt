//! Reading numbers from bytes. A reader gets the bytes that are left and the length of all of
//! them, and returns what it read and the bytes after it.

ghost use Rattle.std.specs.Prelude.{◌≡◌, ◌≤◌, drop, false, length, option_map, suc, take, IfNone, IfOk, IfSome};
ghost use Rattle.std.specs.Str.{bytes_eq};
ghost use Rattle.ar_value.specs.Answer.{Gives};
ghost use Rattle.ar_value.specs.Limits.{most_code_entries};
ghost use Rattle.ar_code.specs.Image.{groups};
ghost use Rattle.ar_code.specs.Decoding.{byte_at, count_at, cut_number, narrow, number_at, offset, signed, spelled, sum_of, wide};

use crate::error::ImageError;
use ar_value::limits::MOST_CODE_ENTRIES;

/// How many bytes a number of 64 bits has at most.
const MOST_NUMBER_BYTES: usize = 10;

/// The offset where the bytes that are left begin.
pub(crate) fn offset(end: usize, bytes: &[u8]) -> usize
    requires { length bytes.now ≤ end }
    ensures { result ≡ offset end bytes.now }
{
    end - bytes.len()
}

pub(crate) fn byte_at(end: usize, bytes: &[u8]) -> Result<(u8, &[u8]), ImageError>
    ensures exact { Gives (λ _. false) (λ read. (read.0, read.1.now)) result (byte_at end bytes.now) }
    ensures shorter { IfOk result (λ read. length read.1.now ≤ length bytes.now) }
{
    match bytes {
        [] => Err(ImageError::Truncated(end)),
        [byte, rest @ ..] => Ok((*byte, rest)),
    }
}

/// How many bytes the number at the front has: the last is the first one below 128.

fn number_len(bytes: &[u8]) -> Option<usize>
    ensures cut { option_map (λ len. (take len bytes.now, drop len bytes.now)) result ≡ cut_number bytes.now }
    ensures inside { IfSome result (λ len. len ≤ length bytes.now) }
{
    for (before, byte) in bytes.iter().enumerate() {
        if *byte < 128 {
            return Some(before + 1);
        }
    }
    None
}

/// The number that bytes spell, seven bits each, the lowest first.
fn sum_of(text: &[u8]) -> Option<u64>
    ensures some { IfSome result (λ n. n ≡ sum_of text.now) }
    ensures none { IfNone result (wide ≤ sum_of text.now) }
{
    match text {
        [] => Some(0),
        [byte, rest @ ..] => sum_of(rest)?
            .checked_mul(128)?
            .checked_add(u64::from(byte % 128)),
    }
}

/// Whether bytes are the one form of a number, of at most `more` bytes after the first.
fn is_form_of(text: &[u8], more: usize, n: u64) -> bool
    ensures { result ≡ bytes_eq (groups more n) text.now }
{
    let [byte, rest @ ..] = text else {
        return false;
    };
    if more == 0 {
        u64::from(*byte) == n % 128 && rest.is_empty()
    } else if n < 128 {
        u64::from(*byte) == n && rest.is_empty()
    } else {
        u64::from(*byte) == 128 + n % 128 && is_form_of(rest, more - 1, n / 128)
    }
}

/// The number up to a greatest one whose one form bytes are.
#[tactic(auto, using(crate::proofs::Numbers::no_form))]
fn spelled(text: &[u8], greatest: u64) -> Option<u64>
    ensures exact { result ≡ spelled (suc greatest) text.now }
    ensures bound { IfSome result (λ n. n ≤ greatest) }
{
    if text.len() > MOST_NUMBER_BYTES {
        return None;
    }
    let n = sum_of(text)?;
    if n <= greatest && is_form_of(text, MOST_NUMBER_BYTES - 1, n) {
        Some(n)
    } else {
        None
    }
}

/// A number up to a greatest one.
#[tactic(auto, unfolding(crate::specs::Decoding::number_at))]
fn number_at(end: usize, greatest: u64, bytes: &[u8]) -> Result<(u64, &[u8]), ImageError>
    requires { length bytes.now ≤ end }
    ensures exact { Gives (λ _. false) (λ read. (read.0, read.1.now)) result (number_at end (suc greatest) bytes.now) }
    ensures bound { IfOk result (λ read. read.0 ≤ greatest) }
    ensures shorter { IfOk result (λ read. length read.1.now ≤ length bytes.now) }
{
    let Some(len) = number_len(bytes) else {
        return Err(ImageError::Truncated(end));
    };
    let (text, rest) = bytes.split_at(len);
    match spelled(text, greatest) {
        Some(n) => Ok((n, rest)),
        None => Err(ImageError::BadNumber(offset(end, bytes))),
    }
}

/// A number of 64 bits.
pub(crate) fn wide_at(end: usize, bytes: &[u8]) -> Result<(u64, &[u8]), ImageError>
    requires { length bytes.now ≤ end }
    ensures exact { Gives (λ _. false) (λ read. (read.0, read.1.now)) result (number_at end wide bytes.now) }
    ensures shorter { IfOk result (λ read. length read.1.now ≤ length bytes.now) }
{
    number_at(end, u64::MAX, bytes)
}

/// A number of 32 bits.
pub(crate) fn narrow_at(end: usize, bytes: &[u8]) -> Result<(u32, &[u8]), ImageError>
    requires { length bytes.now ≤ end }
    ensures exact { Gives (λ _. false) (λ read. (read.0, read.1.now)) result (number_at end narrow bytes.now) }
    ensures shorter { IfOk result (λ read. length read.1.now ≤ length bytes.now) }
{
    let (n, rest) = number_at(end, u64::from(u32::MAX), bytes)?;
    Ok((n as u32, rest))
}

/// A count, or the length of a text.
#[tactic(auto, unfolding(crate::specs::Decoding::count_at))]
pub(crate) fn count_at(end: usize, bytes: &[u8]) -> Result<(usize, &[u8]), ImageError>
    requires { length bytes.now ≤ end }
    ensures exact { Gives (λ _. false) (λ read. (read.0, read.1.now)) result (count_at end bytes.now) }
    ensures bound { IfOk result (λ read. read.0 ≤ most_code_entries) }
    ensures shorter { IfOk result (λ read. length read.1.now ≤ length bytes.now) }
{
    let (count, rest) = wide_at(end, bytes)?;
    if count > MOST_CODE_ENTRIES as u64 {
        return Err(ImageError::TooLarge);
    }
    Ok((count as usize, rest))
}

/// The signed number whose zigzag a number is: 0, -1, 1, -2, 2 and so on.
pub(crate) fn signed(n: u64) -> i64
    ensures { result ≡ signed n }
{
    let half = (n / 2) as i64;
    if n % 2 == 0 { half } else { -1 - half }
}
