//! The commands that words name.
ghost use Rattle.std.specs.Prelude.{◌≡◌, ◌∷◌, ℕ, map, codes, string_bytes, IfOk, IfSome, IfNone};
ghost use Rattle.rc_house.specs.Words.{HasOptions};
ghost use Rattle.rc_house.specs.declared.options.Options.{Options};
ghost use Rattle.rc_house.specs.declared.command.Command.{Command};
ghost use Rattle.rc_house.specs.declared.reader.Playing.TheVariants as playing;
ghost use Rattle.rc_house.specs.Command.{IsCommand, IsBench, IsRival, IsWatch, options_of};
ghost use Rattle.rc_house.specs.declared.rival.Rival.{Rival};

use crate::number::number_of;
use crate::options::{Options, options_of};
use crate::reader::Playing;
use crate::rival::{Rival, rival_of};
use rc_base::limits::{MOST_IN_BENCH, MOST_MATCHES, MOST_PLAYERS};
use rc_deck::Memory;
use std::alloc::Global;

/// A command with what its words say.
#[derive(Clone, Copy, Debug, PartialEq, Eq, Hash)]
pub enum Command {
    /// Plays the matches of a sheet and a plan.
    Play(Options),
    /// Judges a transcript.
    Check,
    /// Prints a sheet.
    Sheet,
    /// Plays so many matches of the game of the bench, 1 to 1,000.
    Bench { number: u16, options: Options },
    /// Writes a transcript in format 2.
    Migrate,
    /// Writes what a seat sees in a match, both counted from 0: at most 7 and 4,095.
    Watch { seat: u8, number: u32 },
    /// Writes the measures of a transcript.
    Measure,
    /// Plays the matches of a sheet and a plan with a search for one of its strategies.
    Rival(Rival),
}

impl Command {
    /// What it is told of who plays. A command that plays nothing has the usual options.
    pub fn options(&self) -> Options
        ensures { result ≡ options_of self.now }
    {
        match self {
            Command::Play(options) => *options,
            Command::Check => Options::usual(),
            Command::Sheet => Options::usual(),
            Command::Bench { options, .. } => *options,
            Command::Migrate => Options::usual(),
            Command::Watch { .. } => Options::usual(),
            Command::Measure => Options::usual(),
            Command::Rival(_) => Options::usual(),
        }
    }
}

/// The command that words name, if they name one. The program's name isn't among them.
///
/// # Errors
///
/// There is no memory to read options.
pub fn command_of(alloc: Global, words: &[String]) -> Result<Option<Command>, Memory>
    ensures some { IfOk result (λ found. IfSome found (IsCommand (map string_bytes words.now))) }
    ensures none { IfOk result (λ found. IfNone found
        ((command : Command) → IsCommand (map string_bytes words.now) command → ⊥)) }
{
    match words {
        [first, rest @ ..] => command_named(alloc, first, rest),
        [] => Ok(None),
    }
}

/// The command of this name that has these words behind it.
fn command_named(alloc: Global, name: &String, rest: &[String]) -> Result<Option<Command>, Memory>
    ensures some { IfOk result (λ found. IfSome found (IsCommand (string_bytes name.now ∷ map string_bytes rest.now))) }
    ensures none { IfOk result (λ found. IfNone found
        ((command : Command) → IsCommand (string_bytes name.now ∷ map string_bytes rest.now) command → ⊥)) }
{
    match name.as_str() {
        "play" => play_of(alloc, rest),
        "bench" => bench_of(alloc, rest),
        "check" if rest.is_empty() => Ok(Some(Command::Check)),
        "sheet" if rest.is_empty() => Ok(Some(Command::Sheet)),
        "migrate" if rest.is_empty() => Ok(Some(Command::Migrate)),
        "watch" => Ok(watch_of(rest)),
        "measure" if rest.is_empty() => Ok(Some(Command::Measure)),
        "rival" => Ok(named_rival(rest)),
        _ => Ok(None),
    }
}

/// `play` with these words behind it.
fn play_of(alloc: Global, rest: &[String]) -> Result<Option<Command>, Memory>
    ensures some { IfOk result (λ found. IfSome found (IsCommand (codes "play" ∷ map string_bytes rest.now))) }
    ensures none { IfOk result (λ found. IfNone found
        ((options : Options) → HasOptions playing.Play (map string_bytes rest.now) options → ⊥)) }
{
    match options_of(alloc, Playing::Play, rest) {
        Ok(Some(options)) => Ok(Some(Command::Play(options))),
        Ok(None) => Ok(None),
        Err(fail) => Err(fail),
    }
}

/// `bench` with these words behind it.
fn bench_of(alloc: Global, rest: &[String]) -> Result<Option<Command>, Memory>
    ensures some { IfOk result (λ found. IfSome found (IsCommand (codes "bench" ∷ map string_bytes rest.now))) }
    ensures none { IfOk result (λ found. IfNone found
        ((number : ℕ) (options : Options) → IsBench (map string_bytes rest.now) number options → ⊥)) }
{
    match rest {
        [number, rest @ ..] => match number_of(number.as_str(), 1, MOST_IN_BENCH) {
            Some(number) => numbered_bench(alloc, number as u16, rest),
            None => Ok(None),
        },
        [] => Ok(None),
    }
}

/// `bench` with its number and these words behind it.
fn numbered_bench(alloc: Global, number: u16, rest: &[String]) -> Result<Option<Command>, Memory>
    ensures some { IfOk result (λ found. IfSome found (λ command. (options : Options)
        × (command ≡ Command.Bench number options) × HasOptions playing.Bench (map string_bytes rest.now) options)) }
    ensures none { IfOk result (λ found. IfNone found
        ((options : Options) → HasOptions playing.Bench (map string_bytes rest.now) options → ⊥)) }
{
    match options_of(alloc, Playing::Bench, rest) {
        Ok(Some(options)) => Ok(Some(Command::Bench { number, options })),
        Ok(None) => Ok(None),
        Err(fail) => Err(fail),
    }
}

/// `watch` with these words behind it.
fn watch_of(rest: &[String]) -> Option<Command>
    ensures some { IfSome result (IsCommand (codes "watch" ∷ map string_bytes rest.now)) }
    ensures none { IfNone result ((seat number : ℕ) → IsWatch (map string_bytes rest.now) seat number → ⊥) }
{
    match rest {
        [seat, number] => {
            let seat = number_of(seat.as_str(), 0, MOST_PLAYERS as u64 - 1)?;
            let number = number_of(number.as_str(), 0, MOST_MATCHES - 1)?;
            Some(Command::Watch {
                seat: seat as u8,
                number: number as u32,
            })
        }
        _ => None,
    }
}

/// `rival` with these words behind it.
fn named_rival(rest: &[String]) -> Option<Command>
    ensures some { IfSome result (IsCommand (codes "rival" ∷ map string_bytes rest.now)) }
    ensures none { IfNone result ((rival : Rival) → IsRival (map string_bytes rest.now) rival → ⊥) }
{
    match rival_of(rest) {
        Some(rival) => Some(Command::Rival(rival)),
        None => None,
    }
}
