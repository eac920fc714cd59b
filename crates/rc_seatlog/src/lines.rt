//! The lines of a log, read.
ghost use Rattle.std.specs.Prelude.{◌≡◌, ◌≤◌, length, IfOk, map, Some, true, false};
ghost use Rattle.rc_log_spec.specs.Fields.{counts_in, integers_in, is_face, face_in, hidden_in, card_in, cards_in};
ghost use Rattle.rc_log_spec.specs.Lines.{opening_in, stop_in, made_in, direction_in, named_in, frame_in, numbers_in};
ghost use Rattle.rc_log_spec.specs.Lines.{sight_in, place_in, total_in};
ghost use Rattle.rc_rules.specs.Control.{frame_seen};
ghost use Rattle.rc_view.specs.Seen.{sight_seen};
ghost use Rattle.rc_text.specs.Finds.{Finds};

use arrayvec::ArrayVec;
use rc_deck::Memory;
use rc_rules::Frame;
use rc_table::{Shape, face_number};
use rc_text::fields::{behind, integer, number};
use rc_view::Sight;
use std::alloc::Global;

const LARGEST_WORD: u64 = 4_294_967_295;

/// The number of a seat and that of a match.
pub fn opening_in(bytes: &[u8]) -> Option<(u8, u32)>
    ensures { Finds (λ x. (x.0, x.1)) result (opening_in bytes.now) }
{
    let (seat, rest) = number(b"seat ", 255, bytes)?;
    let (played, rest) = number(b" match ", LARGEST_WORD, rest)?;
    if !rest.is_empty() {
        return None;
    }
    Some((seat as u8, played as u32))
}

/// The number of a stop, its turn and its site.
pub fn stop_in(bytes: &[u8]) -> Option<(u32, u32, u8)>
    ensures { Finds (λ x. (x.0, x.1, x.2)) result (stop_in bytes.now) }
{
    let (stop, rest) = number(b"stop ", LARGEST_WORD, bytes)?;
    let (turn, rest) = number(b" turn ", LARGEST_WORD, rest)?;
    let (site, rest) = number(b" site ", 63, rest)?;
    if !rest.is_empty() {
        return None;
    }
    Some((stop as u32, turn as u32, site as u8))
}

/// Each player's count of decisions.
pub fn made_in(players: u8, bytes: &[u8]) -> Option<ArrayVec<u32, 8>>
    requires few { players ≤ 8 }
    ensures { Finds (λ made. made.items) result (made_in players bytes.now) }
{
    let rest = behind(b"made", bytes)?;
    counts_in(players, rest)
}

// So many numbers, each behind a space, and nothing behind them.
fn counts_in(count: u8, bytes: &[u8]) -> Option<ArrayVec<u32, 8>>
    requires few { count ≤ 8 }
    ensures { Finds (λ made. made.items) result (counts_in count 4294967295 bytes.now) }
{
    let mut found = ArrayVec::new();
    let mut rest = bytes;
    for i in 0..count {
        match number(b" ", LARGEST_WORD, rest) {
            None => return None,
            Some((n, later)) => {
                found.push(n as u32);
                rest = later;
            }
        }
    }
    if !rest.is_empty() {
        return None;
    }
    Some(found)
}

/// A frame.
pub fn frame_in(bytes: &[u8]) -> Option<Frame>
    ensures { Finds frame_seen result (frame_in bytes.now) }
{
    let (stage, rest) = number(b"frame ", 65_535, bytes)?;
    let (member, rest) = number(b" ", 255, rest)?;
    let (back, rest) = direction_in(rest)?;
    let (named, rest) = named_in(rest)?;
    if !rest.is_empty() {
        return None;
    }
    Some(Frame {
        stage: stage as u16,
        member: member as u8,
        back,
        named,
    })
}

fn direction_in(bytes: &[u8]) -> Option<(bool, &[u8])>
    ensures { Finds (λ x. (x.0, x.1.now)) result (direction_in bytes.now) }
{
    if let Some(rest) = behind(b" back", bytes) {
        return Some((true, rest));
    }
    let rest = behind(b" forward", bytes)?;
    Some((false, rest))
}

fn named_in(bytes: &[u8]) -> Option<(Option<u8>, &[u8])>
    ensures { Finds (λ x. (x.0, x.1.now)) result (named_in bytes.now) }
{
    if let Some((named, rest)) = number(b" ", 255, bytes) {
        return Some((Some(named as u8), rest));
    }
    let rest = behind(b" none", bytes)?;
    Some((None, rest))
}

/// All numbers.
pub fn numbers_in(alloc: Global, count: u16, bytes: &[u8]) -> Result<Option<Vec<i64>>, Memory>
    ensures { IfOk result (λ found. Finds (λ numbers. numbers.items) found (numbers_in count bytes.now)) }
{
    match behind(b"numbers", bytes) {
        None => Ok(None),
        Some(rest) => integers_in(alloc, count, rest),
    }
}

// So many numbers of a game, each behind a space, and nothing behind them.
fn integers_in(alloc: Global, count: u16, bytes: &[u8]) -> Result<Option<Vec<i64>>, Memory>
    ensures { IfOk result (λ found. Finds (λ numbers. numbers.items) found (integers_in count bytes.now)) }
{
    let mut found = Vec::new(alloc);
    let mut rest = bytes;
    for i in 0..count {
        match integer(b" ", rest) {
            None => return Ok(None),
            Some((n, later)) => {
                found.push(n)?;
                rest = later;
            }
        }
    }
    if !rest.is_empty() {
        return Ok(None);
    }
    Ok(Some(found))
}

/// A location's number, and what is seen of it.
pub fn place_in(
    alloc: Global,
    shape: &Shape,
    seen: bool,
    bytes: &[u8],
) -> Result<Option<(u16, Sight)>, Memory>
    ensures { IfOk result (λ found. Finds (λ x. (x.0, sight_seen x.1)) found (place_in shape.now seen bytes.now)) }
{
    let Some((loc, rest)) = number(b"place ", 65_535, bytes) else {
        return Ok(None);
    };
    match sight_in(alloc, shape, seen, rest)? {
        None => Ok(None),
        Some(sight) => Ok(Some((loc as u16, sight))),
    }
}

// What is seen of a location.
fn sight_in(alloc: Global, shape: &Shape, seen: bool, bytes: &[u8]) -> Result<Option<Sight>, Memory>
    ensures { IfOk result (λ found. Finds sight_seen found (sight_in shape.now seen bytes.now)) }
{
    if seen {
        return match faces_in(alloc, shape, bytes)? {
            None => Ok(None),
            Some(faces) => Ok(Some(Sight::Faces(faces))),
        };
    }
    match cards_in(alloc, shape, bytes)? {
        None => Ok(None),
        Some(cards) => Ok(Some(Sight::Partly(cards))),
    }
}

// The faces up to the end.
fn faces_in(alloc: Global, shape: &Shape, bytes: &[u8]) -> Result<Option<Vec<u16>>, Memory>
    ensures { IfOk result (λ found. Finds (λ faces. map (λ n. Some n) faces.items) found
        (cards_in shape.now true (length bytes.now) bytes.now)) }
{
    let mut faces = Vec::new(alloc);
    let mut rest = bytes;
    while !rest.is_empty() {
        match face_in(shape, rest) {
            None => return Ok(None),
            Some((face, later)) => {
                faces.push(face)?;
                rest = later;
            }
        }
    }
    Ok(Some(faces))
}

// The cards up to the end, where not all are known.
fn cards_in(alloc: Global, shape: &Shape, bytes: &[u8]) -> Result<Option<Vec<Option<u16>>>, Memory>
    ensures { IfOk result (λ found. Finds (λ cards. cards.items) found
        (cards_in shape.now false (length bytes.now) bytes.now)) }
{
    let mut cards = Vec::new(alloc);
    let mut rest = bytes;
    while !rest.is_empty() {
        match card_in(shape, rest) {
            None => return Ok(None),
            Some((card, later)) => {
                cards.push(card)?;
                rest = later;
            }
        }
    }
    Ok(Some(cards))
}

// A card of a location that isn't seen.
fn card_in<'a>(shape: &Shape, bytes: &'a [u8]) -> Option<(Option<u16>, &'a [u8])>
    ensures { Finds (λ x. (x.0, x.1.now)) result (card_in shape.now false bytes.now) }
{
    if let Some((face, rest)) = face_in(shape, bytes) {
        return Some((Some(face), rest));
    }
    let rest = behind(b" -", bytes)?;
    Some((None, rest))
}

// The number of a face behind a space.
fn face_in<'a>(shape: &Shape, bytes: &'a [u8]) -> Option<(u16, &'a [u8])>
    ensures { Finds (λ x. (Some x.0, x.1.now)) result (face_in shape.now bytes.now) }
{
    let (face, rest) = number(b" ", 65_535, bytes)?;
    if !is_face(shape, face as u16) {
        return None;
    }
    Some((face as u16, rest))
}

// Whether a number is that of a face.
fn is_face(shape: &Shape, face: u16) -> bool
    ensures { result ≡ is_face shape.now face }
{
    face < shape.cards() && face_number(shape, face) == face
}

/// The number of stops.
pub fn total_in(bytes: &[u8]) -> Option<u32>
    ensures { Finds (λ n. n) result (total_in bytes.now) }
{
    let (stops, rest) = number(b"stops ", LARGEST_WORD, bytes)?;
    if !rest.is_empty() {
        return None;
    }
    Some(stops as u32)
}
