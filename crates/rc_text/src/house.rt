//! The text of a match, and of a whole house text, in either format.
ghost use Rattle.std.specs.Prelude.{◌≡◌, ◌++◌, [], map, IfOk, OnOk};
ghost use Rattle.rc_base.specs.Transcript.{record_text};
ghost use Rattle.rc_rules.specs.Record.{record_seen};
ghost use Rattle.rc_play_spec.specs.HouseText.{naming, text_in};
ghost use Rattle.rc_play_spec.specs.Reading.{lines_in};
ghost use Rattle.rc_play_spec.specs.TextParts.{record_told};
ghost use Rattle.rc_rules.specs.Bounds.{bounds_seen};
ghost use Rattle.rc_text.specs.House.{text_of, named_seen, Fits, records_told, parts_of};

use crate::bounds::bounds_told;
use crate::write::{
    write_end, write_match_line, write_picks, write_scores, write_shuffles, write_standings,
};
use rc_deck::Memory;
use rc_play_spec::texts_are_of_lines;
use rc_rules::{Bounds, MatchRecord, Standing};
use std::alloc::{AllocError, Global};

/// What a whole house text tells.
#[derive(Debug, Drop)]
pub struct HouseText {
    /// The matches in order.
    pub matches: Vec<MatchRecord>,
    /// The standings, from many points to few.
    pub standings: Vec<Standing>,
}

/// What a house text tells that names what items bind.
#[derive(Debug, Drop)]
pub struct NamedText {
    pub text: HouseText,
    /// A list for each match, with an entry for each of its choices.
    pub bounds: Vec<Vec<Bounds>>,
}

/// The bytes of a match: its line, its choices, its shuffles, its end, and each player's score.
///
/// # Errors
///
/// No memory is left.
pub fn write_record(alloc: Global, item: &MatchRecord) -> Result<Vec<u8>, Memory>
    ensures { IfOk result (λ bytes. bytes.items ≡ record_text (record_seen item.now)) }
{
    texts_are_of_lines();
    let mut out = Vec::new(alloc);
    add_record(&mut out, item, &[])?;
    Ok(out)
}

/// The bytes of a house text: its format's line, the matches in order, and the standings.
///
/// # Errors
///
/// No memory is left.
pub fn write_house(alloc: Global, text: &HouseText) -> Result<Vec<u8>, Memory>
    ensures { IfOk result (λ bytes. bytes.items ≡ text_of text.now) }
{
    texts_are_of_lines();
    let mut out = Vec::from_slice(alloc, b"house 1\n")?;
    add_text(alloc, &mut out, text, &[])?;
    Ok(out)
}

/// The bytes of a house text that names what items bind: its format's line, the legend, the matches in order, and the
/// standings.
///
/// # Errors
///
/// No memory is left.
pub fn write_named(alloc: Global, legend: &[u8], text: &NamedText) -> Result<Vec<u8>, Memory>
    requires legend { (lines_in legend.now).1 ≡ [] }
    requires fits { Fits text.now }
    ensures { IfOk result (λ bytes. bytes.items ≡ text_in (naming (lines_in legend.now).0) (named_seen text.now)) }
{
    texts_are_of_lines();
    let mut out = Vec::from_slice(alloc, b"house 2\n")?;
    out.extend_from_slice(legend)?;
    add_text(alloc, &mut out, &text.text, &text.bounds)?;
    Ok(out)
}

// Adds what stands behind the head of a text. Where there are no lists of what choices bind, it isn't told.
fn add_text(
    alloc: Global,
    out: &mut Vec<u8>,
    text: &HouseText,
    bounds: &[Vec<Bounds>],
) -> Result<(), AllocError>
    ensures { OnOk result (out.new.items ≡ out.old.items ++ parts_of text.now bounds.now) }
{
    add_records(out, &text.matches, bounds)?;
    let mut standings = String::new(alloc);
    write_standings(&mut standings, &text.standings)?;
    out.extend_from_slice(standings.as_bytes())
}

fn add_records(
    out: &mut Vec<u8>,
    matches: &[MatchRecord],
    bounds: &[Vec<Bounds>],
) -> Result<(), AllocError>
    ensures { OnOk result (out.new.items ≡ out.old.items ++ records_told bounds.now matches.now) }
{
    for (index, played) in matches.iter().enumerate() {
        add_record(out, played, bounds_told(bounds, index))?;
    }
    Ok(())
}

fn add_record(out: &mut Vec<u8>, played: &MatchRecord, bounds: &[Bounds]) -> Result<(), AllocError>
    ensures { OnOk result (out.new.items
        ≡ out.old.items ++ record_told (map bounds_seen bounds.now) (record_seen played.now)) }
{
    write_match_line(out, played)?;
    write_picks(out, &played.picks, bounds)?;
    write_shuffles(out, played.shuffles)?;
    write_end(out, played.stop, played.turn)?;
    write_scores(out, &played.scores)
}
