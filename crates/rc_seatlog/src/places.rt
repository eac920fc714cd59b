//! Where a log stands behind some lines, with what these told.
ghost use Rattle.std.specs.Prelude.{◌≡◌, ◌<◌, ◌≤◌, IfOk, map, length, Some, None};
ghost use Rattle.rc_log_spec.specs.Reading.{outside, headed, between, stopped, framing, placing, ended, takes};
ghost use Rattle.rc_log_spec.specs.Reading.{behind_place};
ghost use Rattle.rc_text.specs.Finds.{Finds};
ghost use Rattle.rc_view.specs.Seen.{view_seen};
ghost use Rattle.rc_seatlog.specs.PlaceSeen.{place_seen};

use crate::lines::{frame_in, made_in, numbers_in, opening_in, place_in, stop_in, total_in};
use crate::told::LogText;
use arrayvec::ArrayVec;
use rc_deck::Memory;
use rc_rules::Control;
use rc_table::{Shape, sees};
use rc_view::View;
use std::alloc::Global;

/// How many stops a log tells one by one.
const MOST_TOLD: usize = 1000;

/// How many stages may be open.
const MOST_FRAMES: usize = 64;

/// The seat, the number of the match, and the whole stops.
#[derive(Drop)]
pub struct Open {
    pub seat: u8,
    pub number: u32,
    pub views: Vec<View>,
}

/// Where a log stands: before its first line, behind it, behind whole stops, behind a stop's first line, among its
/// frames or its locations, or behind its last line.
#[derive(Drop)]
pub enum Progress {
    Outside,
    Headed,
    Between(Open),
    Stopped(Open, u32, u8),
    Framing(Open, View),
    Placing(Open, View),
    Ended(LogText),
}

/// Where the log stands behind one more line of bytes, if that may stand there.
///
/// # Errors
///
/// No memory is left.
pub fn take_bytes(
    alloc: Global,
    shape: &Shape,
    place: Progress,
    bytes: &[u8],
) -> Result<Option<Progress>, Memory>
    ensures { IfOk result (λ found. Finds place_seen found (takes shape.now (place_seen place) bytes.now)) }
{
    match place {
        Progress::Outside => Ok(before_header(shape, bytes)),
        Progress::Headed => Ok(behind_header(alloc, shape, bytes)),
        Progress::Between(front) => Ok(behind_stops(shape, front, bytes)),
        Progress::Stopped(front, turn, site) => Ok(in_stop(alloc, shape, front, turn, site, bytes)),
        Progress::Framing(front, view) => in_frames(alloc, shape, front, view, bytes),
        Progress::Placing(front, view) => in_places(alloc, shape, front, view, bytes),
        Progress::Ended(_) => Ok(None),
    }
}

// The shape has no part in it, but in the grammar.
fn before_header(_shape: &Shape, bytes: &[u8]) -> Option<Progress>
    ensures { Finds place_seen result (takes _shape.now outside bytes.now) }
{
    if bytes == b"log 1".as_slice() {
        Some(Progress::Headed)
    } else {
        None
    }
}

fn behind_header(alloc: Global, shape: &Shape, bytes: &[u8]) -> Option<Progress>
    ensures { Finds place_seen result (takes shape.now headed bytes.now) }
{
    let (seat, played) = opening_in(bytes)?;
    if seat >= shape.players() {
        return None;
    }
    Some(Progress::Between(Open {
        seat,
        number: played,
        views: Vec::new(alloc),
    }))
}

// One stop more, or the number of all.
fn behind_stops(_shape: &Shape, front: Open, bytes: &[u8]) -> Option<Progress>
    ensures { Finds place_seen result
        (takes _shape.now (between front.seat front.number (map view_seen front.views.items)) bytes.now) }
{
    let told = front.views.len();
    if let Some((stop, turn, site)) = stop_in(bytes) {
        if stop as usize == told && told < MOST_TOLD {
            return Some(Progress::Stopped(front, turn, site));
        }
    }
    let stops = total_in(bytes)?;
    if told != MOST_TOLD.min(stops as usize) {
        return None;
    }
    let Open {
        seat,
        number,
        views,
    } = front;
    Some(Progress::Ended(LogText {
        seat,
        number,
        views,
        stops,
    }))
}

// The counts of decisions.
fn in_stop(
    alloc: Global,
    shape: &Shape,
    front: Open,
    turn: u32,
    site: u8,
    bytes: &[u8],
) -> Option<Progress>
    ensures { Finds place_seen result
        (takes shape.now (stopped front.seat front.number (map view_seen front.views.items) turn site) bytes.now) }
{
    let Some(made) = made_in(shape.players(), bytes) else {
        return None;
    };
    let view = View {
        seat: front.seat,
        control: Control {
            site: Some(site),
            frames: ArrayVec::new(),
            turn,
            made,
        },
        numbers: Vec::new(alloc),
        sights: Vec::new(alloc),
    };
    Some(Progress::Framing(front, view))
}

// One frame more, or the numbers.
fn in_frames(
    alloc: Global,
    shape: &Shape,
    front: Open,
    mut view: View,
    bytes: &[u8],
) -> Result<Option<Progress>, Memory>
    ensures { IfOk result (λ found. Finds place_seen found
        (takes shape.now
        (framing front.seat front.number (map view_seen front.views.items) (view_seen view)) bytes.now)) }
{
    if let Some(frame) = frame_in(bytes) {
        if view.control.frames.len() < MOST_FRAMES {
            view.control.frames.push(frame);
            return Ok(Some(Progress::Framing(front, view)));
        }
    }
    let Some(numbers) = numbers_in(alloc, shape.numbers(), bytes)? else {
        return Ok(None);
    };
    view.numbers = numbers;
    let next = behind_place(shape, front, view)?;
    Ok(Some(next))
}

// One location more.
fn in_places(
    alloc: Global,
    shape: &Shape,
    front: Open,
    mut view: View,
    bytes: &[u8],
) -> Result<Option<Progress>, Memory>
    ensures { IfOk result (λ found. Finds place_seen found
        (takes shape.now
        (placing front.seat front.number (map view_seen front.views.items) (view_seen view)) bytes.now)) }
{
    let told = view.sights.len();
    if told > 65_535 {
        return Ok(None);
    }
    let seen = sees(shape, front.seat, told as u16);
    let Some((loc, sight)) = place_in(alloc, shape, seen, bytes)? else {
        return Ok(None);
    };
    if usize::from(loc) != told {
        return Ok(None);
    }
    view.sights.push(sight)?;
    let next = behind_place(shape, front, view)?;
    Ok(Some(next))
}

// Behind the last location the stop is whole.
fn behind_place(shape: &Shape, mut front: Open, view: View) -> Result<Progress, Memory>
    ensures { IfOk result (λ next. place_seen next
        ≡ behind_place shape.now front.seat front.number (map view_seen front.views.items) (view_seen view)) }
{
    if view.sights.len() == usize::from(shape.locations()) {
        front.views.push(view)?;
        return Ok(Progress::Between(front));
    }
    Ok(Progress::Placing(front, view))
}
