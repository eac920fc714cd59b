//! The text of a log. Every line ends with LF.
ghost use Rattle.std.specs.Prelude.{◌≡◌, ◌<◌, ◌≤◌, ◌+◌, ◌++◌, length, map, flat_map, codes, string_bytes, All};
ghost use Rattle.std.specs.Prelude.{IsSome, IfOk, OnOk};
ghost use Rattle.rc_base.specs.Transcript.{line};
ghost use Rattle.rc_rules.specs.Control.{frame_seen};
ghost use Rattle.rc_view.specs.Seen.{sight_seen, view_seen};
ghost use Rattle.rc_play_spec.specs.View.{with_faces, partly};
ghost use Rattle.rc_log_spec.specs.Shown.{site_shown, cards_shown};
ghost use Rattle.rc_log_spec.specs.Lines.{header_text, opening_text, total_text, stop_text, made_text, frame_text};
ghost use Rattle.rc_log_spec.specs.Lines.{numbers_text, card_text, place_text};
ghost use Rattle.rc_log_spec.specs.Log.{block_lines, blocks_from, place_lines, log, text_of};

use crate::told::first_told;
use rc_deck::Memory;
use rc_rules::Frame;
use rc_view::{Sight, View};
use std::alloc::{AllocError, Global};
use std::fmt::Write;

/// The log of a seat in a match: the first views, and how many there are.
///
/// # Errors
///
/// No memory is left.
pub fn write_log(alloc: Global, seat: u8, number: u32, views: &[View]) -> Result<Vec<u8>, Memory>
    requires sites { All (λ v. IsSome v.control.site) views.now }
    ensures { IfOk result (λ bytes. bytes.items ≡ log seat number (map view_seen views.now)) }
{
    write_first(alloc, seat, number, first_told(views), views.len())
}

/// The log that tells these views, of so many that there are.
///
/// # Errors
///
/// No memory is left.
pub fn write_first(
    alloc: Global,
    seat: u8,
    number: u32,
    views: &[View],
    stops: usize,
) -> Result<Vec<u8>, Memory>
    requires sites { All (λ v. IsSome v.control.site) views.now }
    ensures { IfOk result (λ bytes. bytes.items
        ≡ text_of (record { seat = seat; number = number; views = map view_seen views.now; stops = stops })) }
{
    let mut out = String::new(alloc);
    write_head(&mut out, seat, number)?;
    write_blocks(&mut out, views)?;
    write_total(&mut out, stops)?;
    Ok(out.into_bytes())
}

// The format's line, and whose log it is.
fn write_head(out: &mut String, seat: u8, number: u32) -> Result<(), AllocError>
    ensures { OnOk result (string_bytes out.new
        ≡ string_bytes out.old ++ (line header_text ++ line (opening_text seat number))) }
{
    writeln!(out, "log 1\nseat {seat} match {number}")
}

// How many stops there are.
fn write_total(out: &mut String, stops: usize) -> Result<(), AllocError>
    ensures { OnOk result (string_bytes out.new ≡ string_bytes out.old ++ line (total_text stops)) }
{
    writeln!(out, "stops {stops}")
}

// The lines of each stop.
fn write_blocks(out: &mut String, views: &[View]) -> Result<(), AllocError>
    requires sites { All (λ v. IsSome v.control.site) views.now }
    ensures { OnOk result (string_bytes out.new
        ≡ string_bytes out.old ++ flat_map line (blocks_from 0 (map view_seen views.now))) }
{
    for (n, view) in views.iter().enumerate() {
        write_block(out, n, view)?;
    }
    Ok(())
}

// The lines of a stop.
fn write_block(out: &mut String, n: usize, view: &View) -> Result<(), AllocError>
    requires site { IsSome view.now.control.site }
    ensures { OnOk result (string_bytes out.new
        ≡ string_bytes out.old ++ flat_map line (block_lines n (view_seen view.now))) }
{
    write_stop(out, n, view)?;
    write_made(out, &view.control.made)?;
    write_frames(out, &view.control.frames)?;
    write_numbers(out, &view.numbers)?;
    write_places(out, &view.sights)?;
    Ok(())
}

// The number of a stop, its turn and its site.
fn write_stop(out: &mut String, n: usize, view: &View) -> Result<(), AllocError>
    requires site { IsSome view.now.control.site }
    ensures { OnOk result (string_bytes out.new
        ≡ string_bytes out.old ++ line (stop_text n view.now.control.turn (site_shown (view_seen view.now)))) }
{
    let turn = view.control.turn;
    let site = view.control.site.unwrap_or(0);
    writeln!(out, "stop {n} turn {turn} site {site}")
}

// Each seat's count of decisions.
fn write_made(out: &mut String, made: &[u32]) -> Result<(), AllocError>
    ensures { OnOk result (string_bytes out.new ≡ string_bytes out.old ++ line (made_text made.now)) }
{
    out.push_str("made")?;
    for count in made {
        write!(out, " {count}")?;
    }
    writeln!(out)
}

// A line for each open stage.
fn write_frames(out: &mut String, frames: &[Frame]) -> Result<(), AllocError>
    ensures { OnOk result (string_bytes out.new
        ≡ string_bytes out.old ++ flat_map line (map frame_text (map frame_seen frames.now))) }
{
    for frame in frames {
        write_frame(out, *frame)?;
    }
    Ok(())
}

fn write_frame(out: &mut String, frame: Frame) -> Result<(), AllocError>
    ensures { OnOk result (string_bytes out.new ≡ string_bytes out.old ++ line (frame_text (frame_seen frame))) }
{
    let Frame {
        stage,
        member,
        back,
        named,
    } = frame;
    let direction = if back { "back" } else { "forward" };
    match named {
        None => writeln!(out, "frame {stage} {member} {direction} none"),
        Some(next) => writeln!(out, "frame {stage} {member} {direction} {next}"),
    }
}

// All numbers.
fn write_numbers(out: &mut String, numbers: &[i64]) -> Result<(), AllocError>
    ensures { OnOk result (string_bytes out.new ≡ string_bytes out.old ++ line (numbers_text numbers.now)) }
{
    out.push_str("numbers")?;
    for number in numbers {
        write!(out, " {number}")?;
    }
    writeln!(out)
}

// A line for each location.
fn write_places(out: &mut String, sights: &[Sight]) -> Result<(), AllocError>
    ensures { OnOk result (string_bytes out.new
        ≡ string_bytes out.old ++ flat_map line (place_lines 0 (map sight_seen sights.now))) }
{
    for (loc, sight) in sights.iter().enumerate() {
        write_place(out, loc, sight)?;
    }
    Ok(())
}

// The cards of a location, from bottom to top.
fn write_place(out: &mut String, loc: usize, sight: &Sight) -> Result<(), AllocError>
    ensures { OnOk result (string_bytes out.new
        ≡ string_bytes out.old ++ line (place_text loc (sight_seen sight.now))) }
{
    write!(out, "place {loc}")?;
    match sight {
        Sight::Faces(faces) => write_faces(out, faces)?,
        Sight::Partly(cards) => write_cards(out, cards)?,
    }
    writeln!(out)
}

// A face for each card.
fn write_faces(out: &mut String, faces: &[u16]) -> Result<(), AllocError>
    ensures { OnOk result (string_bytes out.new
        ≡ string_bytes out.old ++ flat_map card_text (cards_shown (with_faces faces.now))) }
{
    for face in faces {
        write!(out, " {face}")?;
    }
    Ok(())
}

// The known face of each card, or that it isn't known.
fn write_cards(out: &mut String, cards: &[Option<u16>]) -> Result<(), AllocError>
    ensures { OnOk result (string_bytes out.new
        ≡ string_bytes out.old ++ flat_map card_text (cards_shown (partly cards.now))) }
{
    for card in cards {
        write_card(out, *card)?;
    }
    Ok(())
}

fn write_card(out: &mut String, card: Option<u16>) -> Result<(), AllocError>
    ensures { OnOk result (string_bytes out.new ≡ string_bytes out.old ++ card_text card) }
{
    match card {
        None => out.push_str(" -"),
        Some(face) => write!(out, " {face}"),
    }
}
