//! Who is current.
ghost use Rattle.std.specs.Prelude.{◌≡◌, ◌<◌, length, slice_get, slice_index_or, if◌then◌else◌};
ghost use Rattle.rc_play_spec.specs.Owners.{classes_in, is_of_class, is_stage_of};
ghost use Rattle.rc_sheet_spec.specs.Sheet.{player_class, team_class};
ghost use Rattle.rc_ast.specs.Sheet.{sheet_seen};
ghost use Rattle.rc_rules.specs.Control.{frames_seen};
ghost use Rattle.rc_value.specs.Current.{IsCurrent};
ghost use Rattle.rc_rules.specs.Lookup.{IsLookup, AreStages};

use rc_ast::{Class, Sheet};
use rc_rules::{Frame, Lookup, class_of_stage};

/// The current player and the current team: the members of the innermost open stages of players and of teams.
#[derive(Clone, Copy, PartialEq, Eq, Debug)]
pub struct Current {
    pub player: u8,
    pub team: u8,
}

/// The current player and team in these open stages.
pub fn current_of(sheet: &Sheet, lookup: &Lookup, frames: &[Frame]) -> Current
    requires stages { AreStages (sheet_seen sheet.now) lookup.now.stages.items }
    ensures { IsCurrent (sheet_seen sheet.now) (frames_seen frames.now) result }
{
    let mut current = Current { player: 0, team: 0 };
    // from outside to inside: a stage's member takes the place of that of a stage around it
    for place in 0..frames.len() {
        let frame = frame_at(frames, place);
        current = current_inside(sheet, lookup, current, frame);
    }
    current
}

#[inline(always)]
fn frame_at(frames: &[Frame], place: usize) -> Frame
    requires { place < length frames.now }
    ensures { result ≡ slice_index_or frames.now place result }
{
    frames[place]
}

/// Who is current inside one more stage, where it is known who is current around it.
#[inline(always)]
pub fn current_inside(sheet: &Sheet, lookup: &Lookup, around: Current, frame: Frame) -> Current
    requires stages { AreStages (sheet_seen sheet.now) lookup.now.stages.items }
    ensures player { result.player ≡
        (if is_stage_of (sheet_seen sheet.now) player_class frame.stage then frame.member else around.player) }
    ensures team { result.team ≡ (if is_stage_of
        (sheet_seen sheet.now) team_class frame.stage then frame.member else around.team) }
{
    let class = class_at(sheet, lookup, frame.stage);
    Current {
        player: member_of(Class::Player, class, frame.member, around.player),
        team: member_of(Class::Team, class, frame.member, around.team),
    }
}

// The member of a stage of this class, if it is of the class that is wanted.
#[inline(always)]
fn member_of(wanted: Class, class: Option<Class>, member: u8, around: u8) -> u8
    ensures { result ≡ (if is_of_class wanted class then member else around) }
{
    match class {
        Some(other) => { if other == wanted { member } else { around } }
        None => around,
    }
}

#[inline(always)]
fn class_at(sheet: &Sheet, lookup: &Lookup, number: u16) -> Option<Class>
    requires stages { AreStages (sheet_seen sheet.now) lookup.now.stages.items }
    ensures { result ≡ slice_get (classes_in (sheet_seen sheet.now).items) number }
{
    match lookup.stage(number) {
        Some(class) => Some(class),
        None => class_of_stage(sheet, number),
    }
}
