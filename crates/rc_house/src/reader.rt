//! The texts of options, read by `clap`.
ghost use Rattle.std.specs.Prelude.{◌≡◌, false, map, string_bytes, IfOk, IsSomeAnd};
ghost use Rattle.clap.specs.Words.{app_of, with_rule, first_value};
ghost use Rattle.clap.specs.Matches.{found_of};
ghost use Rattle.clap.specs.Walk.{rule_of};
ghost use Rattle.rc_house.specs.declared.options.Options.{Options};
ghost use Rattle.rc_house.specs.Words.{GivesOptions, HasOptions, name_of, text_of};
ghost use Rattle.rc_house.specs.Reader.{bare_app, option_rule, options_app, players_app};

use crate::settings::Texts;
use clap::error::ErrorKind;
use clap::{Arg, ArgAction, ArgMatches};
use rc_deck::Memory;
use std::alloc::{AllocError, Global};

/// A command that plays, and so has options.
#[derive(Clone, Copy, Debug, PartialEq, Eq)]
pub(crate) enum Playing {
    Play,
    Bench,
}

/// The texts that the words behind a command's name and number give to options. Where these words are options and
/// nothing else, there are such texts. Other words may have some too.
pub(crate) fn texts_of<'a>(
    alloc: Global,
    playing: Playing,
    words: &'a [String],
) -> Result<Option<Texts<'a>>, Memory>
    ensures { IfOk result (λ found. (options : Options) → HasOptions playing (map string_bytes words.now) options
        → IsSomeAnd found (λ texts. GivesOptions playing (text_of texts) (map string_bytes words.now) options)) }
{
    let reader = match reader_of(alloc, playing) {
        Ok(reader) => reader,
        Err(_) => return Err(Memory),
    };
    match reader.try_get_matches_from(words) {
        Ok(matches) => Ok(Some(texts_in(&matches))),
        Err(error) if error.kind() == ErrorKind::OutOfMemory => Err(Memory),
        Err(_) => Ok(None),
    }
}

/// The texts that were read.
fn texts_in<'a>(matches: &ArgMatches<'a>) -> Texts<'a>
    ensures { (name : _) → text_of result name ≡ first_value (found_of matches.now) (name_of name) }
{
    Texts {
        workers: matches.get_str("workers"),
        cache: matches.get_str("cache"),
        format: matches.get_str("format"),
    }
}

/// A reader of the command's options, each with one text, and of nothing else.
fn reader_of<'a>(alloc: Global, playing: Playing) -> Result<clap::Command<'a>, AllocError>
    ensures { IfOk result (λ reader. app_of reader ≡ options_app playing) }
{
    match playing {
        Playing::Play => {
            let reader = players_reader(alloc, "play")?;
            with_option(alloc, reader, "format")
        }
        Playing::Bench => players_reader(alloc, "bench"),
    }
}

/// A reader of the options that say who plays.
fn players_reader<'a>(alloc: Global, command: &'a str) -> Result<clap::Command<'a>, AllocError>
    ensures { IfOk result (λ reader. app_of reader ≡ players_app command.now) }
{
    let reader = with_option(alloc, bare_reader(alloc, command), "workers")?;
    with_option(alloc, reader, "cache")
}

/// A reader of nothing.
fn bare_reader<'a>(alloc: Global, command: &'a str) -> clap::Command<'a>
    ensures { app_of result ≡ bare_app command.now }
{
    clap::Command::new(alloc, command)
        .no_binary_name(true)
        .disable_help_flag(true)
        .disable_version_flag(true)
}

/// The reader with an option more, which has one text.
fn with_option<'a>(
    alloc: Global,
    reader: clap::Command<'a>,
    name: &'a str,
) -> Result<clap::Command<'a>, AllocError>
    ensures { IfOk result (λ more. app_of more ≡ with_rule (app_of reader.entry) (option_rule name.now)) }
{
    reader.arg(option_named(alloc, name))
}

/// An option with one text.
fn option_named<'a>(alloc: Global, name: &'a str) -> Arg<'a>
    ensures rule { rule_of result ≡ option_rule name.now }
    ensures local { result.global ≡ false }
{
    Arg::new(alloc, name).long(name).action(ArgAction::Set)
}
