//! The options of `play` and `bench`.
ghost use Rattle.std.specs.Prelude.{◌≡◌, ℕ, ◌≤◌, map, string_bytes, option_map, IfOk, IfSome, IfNone};
ghost use Rattle.rc_house.specs.declared.options.Format.{Format};
ghost use Rattle.rc_house.specs.declared.options.Options.{Options};
ghost use Rattle.rc_house.specs.Words.{GivesOptions, HasFormat, HasNumber, HasOptions};
ghost use Rattle.rc_house.specs.Words.{is_named, text_of, usual_options};

use crate::number::number_of;
use crate::reader::{Playing, texts_of};
use crate::settings::{Texts, are_options};
use rc_base::limits::{MOST_ENTRIES, MOST_WORKERS};
use rc_deck::Memory;
use std::alloc::Global;

/// What a transcript tells of a choice.
#[derive(Clone, Copy, Debug, PartialEq, Eq, Hash)]
pub enum Format {
    /// Format 1: the number of the item.
    Plain,
    /// Format 2: what the item binds, too.
    Named,
}

impl Format {
    /// Whether it tells what items bind.
    pub fn is_named(self) -> bool
        ensures { result ≡ is_named self }
    {
        match self {
            Format::Plain => false,
            Format::Named => true,
        }
    }
}

/// What `play` and `bench` are told beside their sources.
#[derive(Clone, Copy, Debug, PartialEq, Eq, Hash)]
pub struct Options {
    /// How many threads play, 1 to 64. It is 1 unless words say otherwise.
    pub workers: u8,
    /// How many totals of rollouts are kept, 1 to 65,536. It is 1,024 unless words say otherwise.
    pub cache: u32,
    /// What the transcript tells. It is format 1 unless words say otherwise.
    pub format: Format,
}

impl Options {
    /// Those that hold unless words say otherwise.
    pub(crate) fn usual() -> Options
        ensures { result ≡ usual_options }
    {
        Options {
            workers: 1,
            cache: 1024,
            format: Format::Plain,
        }
    }
}

/// The options that the words behind a command's name and number say, if they say nothing else.
pub(crate) fn options_of(
    alloc: Global,
    playing: Playing,
    words: &[String],
) -> Result<Option<Options>, Memory>
    ensures some { IfOk result (λ found. IfSome found (HasOptions playing (map string_bytes words.now))) }
    ensures none { IfOk result (λ found. IfNone found
        ((options : Options) → HasOptions playing (map string_bytes words.now) options → ⊥)) }
{
    match texts_of(alloc, playing, words) {
        Ok(Some(texts)) => Ok(options_with(playing, words, texts)),
        Ok(None) => Ok(None),
        Err(fail) => Err(fail),
    }
}

/// The options, where the words give them these texts and the texts spell numbers in their ranges.
fn options_with(playing: Playing, words: &[String], texts: Texts<'_>) -> Option<Options>
    ensures some { IfSome result (GivesOptions playing (text_of texts.entry) (map string_bytes words.now)) }
    ensures none { IfNone result
        ((options : Options) → GivesOptions playing (text_of texts.entry) (map string_bytes words.now) options → ⊥) }
{
    if !are_options(words, texts) {
        return None;
    }
    let workers = option_number(texts.workers, 1, MOST_WORKERS)?;
    let cache = option_number(texts.cache, 1024, MOST_ENTRIES)?;
    let format = format_of(playing, texts.format)?;
    Some(Options {
        workers: workers as u8,
        cache: cache as u32,
        format,
    })
}

/// The number of an option with this text, or the usual one without.
fn option_number(text: Option<&str>, usual: u64, most: u64) -> Option<u64>
    requires usual { usual ≤ most }
    ensures some { IfSome result (HasNumber usual most (option_map (λ s. s.now) text.entry)) }
    ensures none { IfNone result ((n : ℕ) → HasNumber usual most (option_map (λ s. s.now) text.entry) n → ⊥) }
    ensures small { IfSome result (λ n. n ≤ most) }
{
    match text {
        Some(text) => number_of(text, 1, most),
        None => Some(usual),
    }
}

/// The format of an option with this text, or the usual one without.
fn format_of(playing: Playing, text: Option<&str>) -> Option<Format>
    ensures some { IfSome result (HasFormat playing (option_map (λ s. s.now) text.entry)) }
    ensures none { IfNone result
        ((format : Format) → HasFormat playing (option_map (λ s. s.now) text.entry) format → ⊥) }
{
    match playing {
        Playing::Play => match option_number(text, 1, 2)? {
            1 => Some(Format::Plain),
            _ => Some(Format::Named),
        },
        Playing::Bench => match text {
            None => Some(Format::Plain),
            Some(_) => None,
        },
    }
}
