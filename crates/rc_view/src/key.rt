//! The bytes by which a view is known.
ghost use Rattle.std.specs.Prelude.{◌≡◌, ◌∷◌, ◌++◌, ◌≤◌, length, flat_map, map, All, IfOk, OnOk};
ghost use Rattle.std.specs.Int.{w16, w32, to_le_bytes};
ghost use Rattle.rc_base.specs.Clamp.{IsWithinClamp};
ghost use Rattle.rc_base.specs.Limits.{most_in_list};
ghost use Rattle.rc_rules.specs.Control.{control_seen, frame_seen};
ghost use Rattle.rc_view.specs.Seen.{sight_seen, view_seen};
ghost use Rattle.rc_view.specs.Key.{HasKey, IsShort, control_key, frame_key, key_of, known_places, number_key, or_none, place_key, sight_key};
ghost use Rattle.rc_view.specs.Laws.{KeysAreShort, KeysTellViews};

use crate::laws::{keys_are_short, keys_tell_views};
use crate::sight::Sight;
use crate::view::View;
use rc_deck::Memory;
use rc_rules::{Control, Frame};
use std::alloc::Global;

// What stands for no site and for no named member.
const NONE: u8 = 255;

/// The bytes by which a view is known. Numbers have their lowest bytes first. Two views of one shape have equal bytes
/// exactly where they are equal. Its numbers are within -1,000,000,000 .. 1,000,000,000, and each location has at most
/// 512 cards, as in every view of a table. The bytes of a view of a match are fewer than 8,000. Memory may run out.
pub fn key_bytes(alloc: Global, view: &View) -> Result<Vec<u8>, Memory>
    requires { HasKey (view_seen view.now) }
    ensures bytes { IfOk result (λ bytes. bytes.items ≡ key_of (view_seen view.now)) }
    ensures tells { KeysTellViews }
    ensures short { KeysAreShort }
{
    keys_tell_views();
    keys_are_short();
    let mut bytes = Vec::new(alloc);
    bytes.push(view.seat)?;
    push_control(&view.control, &mut bytes)?;
    push_numbers(&view.numbers, &mut bytes)?;
    push_sights(&view.sights, &mut bytes)?;
    Ok(bytes)
}

// Adds the site, the turn count, the counts of decisions and the open stages.
fn push_control(control: &Control, bytes: &mut Vec<u8>) -> Result<(), Memory>
    ensures { OnOk result (bytes.new.items ≡ bytes.old.items ++ control_key (control_seen control.now)) }
{
    bytes.push(control.site.unwrap_or(NONE))?;
    bytes.extend_from_slice(&control.turn.to_le_bytes())?;
    push_counts(control.made.as_slice(), bytes)?;
    push_frames(control.frames.as_slice(), bytes)
}

// Adds the counts of decisions.
fn push_counts(counts: &[u32], bytes: &mut Vec<u8>) -> Result<(), Memory>
    ensures { OnOk result (bytes.new.items ≡ bytes.old.items ++ flat_map (to_le_bytes w32) counts.now) }
{
    for count in counts {
        bytes.extend_from_slice(&count.to_le_bytes())?;
    }
    Ok(())
}

// Adds how many frames there are, and each of them.
fn push_frames(frames: &[Frame], bytes: &mut Vec<u8>) -> Result<(), Memory>
    requires { length frames.now ≤ 64 }
    ensures { OnOk result (bytes.new.items
        ≡ bytes.old.items ++ length frames.now ∷ flat_map frame_key (map frame_seen frames.now)) }
{
    bytes.push(frames.len() as u8)?;
    for frame in frames {
        push_frame(frame, bytes)?;
    }
    Ok(())
}

// Adds a frame.
fn push_frame(frame: &Frame, bytes: &mut Vec<u8>) -> Result<(), Memory>
    ensures { OnOk result (bytes.new.items ≡ bytes.old.items ++ frame_key (frame_seen frame.now)) }
{
    bytes.extend_from_slice(&frame.stage.to_le_bytes())?;
    bytes.push(frame.member)?;
    bytes.push(u8::from(frame.back))?;
    bytes.push(frame.named.unwrap_or(NONE))?;
    Ok(())
}

// Adds the numbers.
fn push_numbers(numbers: &[i64], bytes: &mut Vec<u8>) -> Result<(), Memory>
    requires { All IsWithinClamp numbers.now }
    ensures { OnOk result (bytes.new.items ≡ bytes.old.items ++ flat_map number_key numbers.now) }
{
    for number in numbers {
        push_number(*number, bytes)?;
    }
    Ok(())
}

// Adds a number.
fn push_number(number: i64, bytes: &mut Vec<u8>) -> Result<(), Memory>
    requires { IsWithinClamp number }
    ensures { OnOk result (bytes.new.items ≡ bytes.old.items ++ number_key number) }
{
    bytes.extend_from_slice(&(number as i32).to_le_bytes())?;
    Ok(())
}

// Adds what is seen of each location.
fn push_sights(sights: &[Sight], bytes: &mut Vec<u8>) -> Result<(), Memory>
    requires { All (λ sight. IsShort (sight_seen sight)) sights.now }
    ensures { OnOk result (bytes.new.items ≡ bytes.old.items ++ flat_map sight_key (map sight_seen sights.now)) }
{
    for sight in sights {
        push_sight(sight, bytes)?;
    }
    Ok(())
}

// Adds how many cards a location has, and the numbers of their faces where they are seen or known.
fn push_sight(sight: &Sight, bytes: &mut Vec<u8>) -> Result<(), Memory>
    requires { IsShort (sight_seen sight.now) }
    ensures { OnOk result (bytes.new.items ≡ bytes.old.items ++ sight_key (sight_seen sight.now)) }
{
    match sight {
        Sight::Faces(numbers) => push_faces(numbers, bytes),
        Sight::Partly(numbers) => push_known(numbers, bytes),
    }
}

// Adds how many faces there are, and their numbers.
fn push_faces(numbers: &[u16], bytes: &mut Vec<u8>) -> Result<(), Memory>
    requires { length numbers.now ≤ most_in_list }
    ensures { OnOk result (bytes.new.items ≡ bytes.old.items
        ++ (to_le_bytes w16 (length numbers.now) ++ flat_map (to_le_bytes w16) numbers.now)) }
{
    bytes.extend_from_slice(&(numbers.len() as u16).to_le_bytes())?;
    for number in numbers {
        bytes.extend_from_slice(&number.to_le_bytes())?;
    }
    Ok(())
}

// Adds how many places there are, how many of them are known, and these with their faces' numbers.
fn push_known(numbers: &[Option<u16>], bytes: &mut Vec<u8>) -> Result<(), Memory>
    requires { length numbers.now ≤ most_in_list }
    ensures { OnOk result (bytes.new.items ≡ bytes.old.items
        ++ (to_le_bytes w16 (length numbers.now)
        ++ (to_le_bytes w16 (length (known_places 0 numbers.now))
        ++ flat_map place_key (known_places 0 numbers.now)))) }
{
    bytes.extend_from_slice(&(numbers.len() as u16).to_le_bytes())?;
    bytes.extend_from_slice(&known_count(numbers).to_le_bytes())?;
    push_places(numbers, bytes)
}

// How many places are known.
fn known_count(numbers: &[Option<u16>]) -> u16
    requires { length numbers.now ≤ most_in_list }
    ensures { result ≡ length (known_places 0 numbers.now) }
{
    let mut count = 0;
    for at in 0..numbers.len() {
        if let Some(_number) = numbers[at] {
            count += 1;
        }
    }
    count
}

// Adds the known places, each with the number of its face.
fn push_places(numbers: &[Option<u16>], bytes: &mut Vec<u8>) -> Result<(), Memory>
    requires { length numbers.now ≤ most_in_list }
    ensures { OnOk result (bytes.new.items ≡ bytes.old.items ++ flat_map place_key (known_places 0 numbers.now)) }
{
    for at in 0..numbers.len() {
        if let Some(number) = numbers[at] {
            push_place(at as u16, number, bytes)?;
        }
    }
    Ok(())
}

// Adds a place and the number of its face.
fn push_place(place: u16, number: u16, bytes: &mut Vec<u8>) -> Result<(), Memory>
    ensures { OnOk result (bytes.new.items ≡ bytes.old.items ++ place_key (place, number)) }
{
    bytes.extend_from_slice(&place.to_le_bytes())?;
    bytes.extend_from_slice(&number.to_le_bytes())?;
    Ok(())
}
