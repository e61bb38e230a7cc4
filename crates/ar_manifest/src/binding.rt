//! Binding the arguments of a text: each `{{args.name}}` is replaced by the argument's value.

ghost use Rattle.std.specs.Prelude.{◌≡◌, ◌<◌, ◌++◌, IfOk, false, is_ok, length, option_map};
ghost use Rattle.ar_value.specs.Answer.{Gives};
ghost use Rattle.ar_manifest.specs.Refusals.{is_memory};
ghost use Rattle.ar_manifest.specs.Binding.{argument_name, referred_value, trimmed, without_leading_spaces, without_trailing_spaces};
ghost use Rattle.ar_manifest.specs.Cut.{cut_at};
ghost use Rattle.ar_manifest.specs.Private.Within.{is_within, joined, text_within};

use crate::arguments::{Args, Arguments};
use crate::error::ManifestError;
use ar_value::Text;
use std::alloc::{AllocError, Global};

/// What a text of a metric is bound to.
#[derive(Clone, Copy)]
pub(crate) struct Scope<'a> {
    /// The template's arguments.
    pub(crate) arguments: &'a Arguments<Option<Text>>,
    /// The run's own.
    pub(crate) own: &'a Args,
    /// The number of the metric.
    pub(crate) metric: usize,
    /// Whether a condition that is too long is shortened.
    pub(crate) shortens: bool,
}

/// What comes before the first occurrence of a sign, and what after it.
pub(crate) fn cut_at<'a>(text: &'a str, sign: &str) -> Option<(&'a str, &'a str)>
    requires { 0 < length sign.now }
    ensures { option_map (λ cut. (cut.0.now, cut.1.now)) result ≡ cut_at sign.now text.now }
{
    text.split_once(sign)
}

fn without_leading_spaces(text: &str) -> &str
    ensures { result.now ≡ without_leading_spaces text.now }
{
    text.trim_start_matches(' ')
}

fn without_trailing_spaces(text: &str) -> &str
    ensures { result.now ≡ without_trailing_spaces text.now }
{
    text.trim_end_matches(' ')
}

/// What is in braces, without the spaces next to them.
pub(crate) fn trimmed(between: &str) -> &str
    ensures { result.now ≡ trimmed between.now }
{
    without_trailing_spaces(without_leading_spaces(between))
}

/// The name in `args.name`.
#[tactic(auto, using(crate::proofs::Cuts::strip_prefix_names))]
fn argument_name(text: &str) -> Option<&str>
    ensures { option_map (λ name. name.now) result ≡ argument_name text.now }
{
    text.strip_prefix("args.")
}

/// Whether a text with a piece at its end has at most `most` bytes, where that is limited.
fn has_room(text: &str, piece: &str, most: Option<usize>) -> bool
    ensures { result ≡ is_within most (text.now ++ piece.now) }
{
    match most {
        None => true,
        Some(most) => text.len() <= most && piece.len() <= most - text.len(),
    }
}

/// The text that is kept, with a piece at its end, or `None` once it would have more than `most` bytes.
#[tactic(auto, unfolding(crate::specs::Private::Within::joined, crate::specs::Private::Within::within))]
fn joined(kept: Option<Text>, piece: &str, most: Option<usize>) -> Result<Option<Text>, AllocError>
    ensures { IfOk result (λ next. next ≡ joined most kept piece.now) }
{
    let Some(text) = kept else {
        return Ok(None);
    };
    if !has_room(text.as_str(), piece, most) {
        return Ok(None);
    }
    let mut text = text.into_string();
    text.push_str(piece)?;
    Ok(Some(Text::from(text)))
}

impl Scope<'_> {
    /// The value of what is in braces.
    #[tactic(auto, unfolding(crate::specs::Binding::referred_value))]
    fn value(&self, between: &str) -> Result<&str, ManifestError>
        ensures { Gives (λ _. false) (λ value. value.now) result
            (referred_value self.now.arguments.now self.now.own.now self.now.metric between.now) }
    {
        let Some(name) = argument_name(trimmed(between)) else {
            return Err(ManifestError::UnknownArg(self.metric));
        };
        let Some(value) = self.arguments.get(name) else {
            return Err(ManifestError::UnknownArg(self.metric));
        };
        match (self.own.get(name), value) {
            (Some(own), _) => Ok(own.as_str()),
            (None, Some(value)) => Ok(value.as_str()),
            (None, None) => Err(ManifestError::NoValue(self.metric)),
        }
    }

    /// Whether what is in braces has a value.
    pub(crate) fn has_value(&self, between: &str) -> bool
        ensures { result ≡ is_ok (referred_value self.now.arguments.now self.now.own.now self.now.metric between.now) }
    {
        self.value(between).is_ok()
    }

    /// A text of the metric, bound, or `None` if that has more than `most` bytes. It is read to its
    /// end in either case, and what is kept of it never has more bytes than these.
    pub(crate) fn text(
        &self,
        alloc: Global,
        text: &str,
        most: Option<usize>,
    ) -> Result<Option<Text>, ManifestError>
        ensures { Gives is_memory (λ bound. bound) result
            (text_within self.now.arguments.now self.now.own.now self.now.metric most text.now) }
    {
        let mut bound = Some(Text::from(String::new(alloc)));
        let mut rest = text;
        while let Some((before, opened)) = cut_at(rest, "{{") {
            let Some((between, after)) = cut_at(opened, "}}") else {
                return Err(ManifestError::OpenBraces(self.metric));
            };
            let value = self.value(between)?;
            bound = joined(bound, before, most)?;
            bound = joined(bound, value, most)?;
            rest = after;
        }
        Ok(joined(bound, rest, most)?)
    }
}
