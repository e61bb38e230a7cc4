//! Limits, their arguments replaced.

ghost use Rattle.std.specs.Prelude.{◌≡◌};
ghost use Rattle.std.specs.Char.{is_ascii_digit};
ghost use Rattle.std.specs.List.{list_all};
ghost use Rattle.ar_manifest.specs.Bound.{effective_count, is_limit_text, limit_of_number, limit_of_text};
ghost use Rattle.ar_manifest.specs.Private.Within.{limit_within};

use crate::error::ManifestError;
use ar_value::Text;

/// The greatest limit.
const MOST_LIMIT: u32 = 1_000_000_000;

/// How many digits a limit may have.
pub(crate) const MOST_LIMIT_DIGITS: usize = 10;

/// A number as a limit of metric `i`.
pub(crate) fn limit_of_number(number: u64, i: usize) -> Result<u32, ManifestError>
    ensures { result ≡ limit_of_number i number }
{
    match u32::try_from(number) {
        Ok(limit) if limit <= MOST_LIMIT => Ok(limit),
        _ => Err(ManifestError::BadLimit(i)),
    }
}

fn are_digits(text: &str) -> bool
    ensures { result ≡ list_all is_ascii_digit text.now }
{
    text.as_bytes().iter().all(|byte| byte.is_ascii_digit())
}

fn is_limit_text(text: &str) -> bool
    ensures { result ≡ is_limit_text text.now }
{
    1 <= text.len() && text.len() <= MOST_LIMIT_DIGITS && are_digits(text)
}

/// A text as a limit of metric `i`.
#[tactic(auto, unfolding(crate::specs::Bound::limit_of_text))]
fn limit_of_text(text: &str, i: usize) -> Result<u32, ManifestError>
    ensures { result ≡ limit_of_text i text.now }
{
    if !is_limit_text(text) {
        return Err(ManifestError::BadLimit(i));
    }
    match text.parse::<u64>() {
        Ok(number) => limit_of_number(number, i),
        Err(_) => unreachable!(),
    }
}

/// A bound text as a limit of metric `i`, where it isn't too long.
#[tactic(auto, unfolding(crate::specs::Private::Within::limit_within))]
pub(crate) fn limit_within(bound: &Option<Text>, i: usize) -> Result<u32, ManifestError>
    ensures { result ≡ limit_within i bound.now }
{
    match bound {
        Some(text) => limit_of_text(text.as_str(), i),
        None => Err(ManifestError::BadLimit(i)),
    }
}

/// How many measurements complete metric `i`; `None` where it has no end.
pub(crate) fn effective_count(
    count: Option<u32>,
    has_interval: bool,
    i: usize,
) -> Result<Option<u32>, ManifestError>
    ensures { result ≡ effective_count i has_interval count }
{
    match count {
        None | Some(0) => { if has_interval { Ok(None) } else { Ok(Some(1)) } }
        Some(count) => {
            if count > 1 && !has_interval {
                Err(ManifestError::IntervalMissing(i))
            } else {
                Ok(Some(count))
            }
        }
    }
}
