//! The summary that `bench` writes.
ghost use Rattle.std.specs.Prelude.{◌≡◌, ◌++◌, map, string_bytes, IfOk, OnOk};
ghost use Rattle.rc_rules.specs.Record.{record_seen, standing_seen};
ghost use Rattle.rc_trick.specs.Bench.{bench_text, decisions, limits};

use rc_deck::Memory;
use rc_rules::{Ended, MatchRecord, Standing};
use rc_text::write_standings;
use std::alloc::{AllocError, Global};
use std::fmt::Write;

/// The summary of `bench number`: how many matches and decisions there were, how many matches the turn limit ended, and
/// the standings.
///
/// # Errors
///
/// No memory is left.
pub fn summary(
    alloc: Global,
    number: u16,
    matches: &[MatchRecord],
    standings: &[Standing],
) -> Result<Vec<u8>, Memory>
    ensures { IfOk result (λ bytes. bytes.items
        ≡ bench_text number (map record_seen matches.now) (map standing_seen standings.now)) }
{
    let mut out = String::new(alloc);
    match write_summary(&mut out, number, matches, standings) {
        Ok(()) => Ok(out.into_bytes()),
        Err(_) => Err(Memory),
    }
}

fn write_summary(
    out: &mut String,
    number: u16,
    matches: &[MatchRecord],
    standings: &[Standing],
) -> Result<(), AllocError>
    ensures { OnOk result (string_bytes out.new
        ≡ string_bytes out.old ++ bench_text number (map record_seen matches.now) (map standing_seen standings.now)) }
{
    let decided = decisions_of(matches);
    let limited = limits_of(matches);
    writeln!(out, "bench {number}")?;
    writeln!(out, "matches {}", matches.len())?;
    writeln!(out, "decisions {decided}")?;
    writeln!(out, "limits {limited}")?;
    write_standings(out, standings)
}

/// How many choices were made in all matches.
fn decisions_of(matches: &[MatchRecord]) -> u128
    ensures { result ≡ decisions (map record_seen matches.now) }
{
    let mut count = 0;
    for played in matches {
        count += played.picks.len() as u128;
    }
    count
}

/// How many matches the turn limit ended.
fn limits_of(matches: &[MatchRecord]) -> usize
    ensures { result ≡ limits (map record_seen matches.now) }
{
    matches
        .iter()
        .filter(|played| played.stop == Ended::Limit)
        .count()
}
