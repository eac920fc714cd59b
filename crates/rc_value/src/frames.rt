//! The innermost of the open stages.
ghost use Rattle.std.specs.Prelude.{◌≡◌, ◌<◌, ◌≤◌, ◌++◌, ◌∷◌, [], false, length, None};
ghost use Rattle.rc_play_spec.specs.Owners.{current_in as pure_current_in};
ghost use Rattle.rc_play_spec.specs.Step.{beside as pure_beside, with_next, passed, closed};
ghost use Rattle.rc_rules.specs.Control.{frame_seen, frames_seen};
ghost use Rattle.rc_value.specs.Current.{IsCurrent};

use crate::stages::member_by;
use crate::{Current, current_inside};
use rc_ast::Class;
use rc_rules::{About, Frame, Frames};

/// A stage opens at the current member of the nearest stage of its class, forward. Told who is current, it tells who is
/// then.
#[inline(always)]
pub fn open_frame(
    frames: &mut Frames,
    about: &About,
    current: Current,
    number: u16,
    class: Class,
) -> Current
    requires room { length frames.old.items < 64 }
    requires current { IsCurrent about.now.sheet (frames_seen frames.old.items) current }
    ensures opened { frames_seen frames.new.items ≡ frames_seen frames.old.items
        ++ record {
          stage = number;
          member = pure_current_in about.now.sheet class
              (frames_seen frames.old.items);
          back = false;
          named = None;
        } ∷ [] }
    ensures current { IsCurrent about.now.sheet (frames_seen frames.new.items) result }
{
    let frame = Frame {
        stage: number,
        member: member_by(about, current, class, frames.as_slice()),
        back: false,
        named: None,
    };
    frames.push(frame);
    current_inside(about.sheet(), about.lookup(), current, frame)
}

/// The innermost stage closes.
pub fn close_frame(frames: &mut Frames)
    ensures { frames_seen frames.new.items ≡ closed (frames_seen frames.old.items) }
{
    match frames.pop() {
        Some(_) => {}
        None => {}
    }
}

/// The innermost stage, which has so many members, takes its next one. Told who is current, it tells who is then.
#[inline(always)]
pub fn pass_frame(frames: &mut Frames, about: &About, current: Current, count: u8) -> Current
    requires some { 1 ≤ count }
    requires current { IsCurrent about.now.sheet (frames_seen frames.old.items) current }
    ensures passed { frames_seen frames.new.items ≡ passed count (frames_seen frames.old.items) }
    ensures current { IsCurrent about.now.sheet (frames_seen frames.new.items) result }
{
    pass_innermost(frames.as_mut_slice(), about, current, count)
}

// The last of these frames takes its next member.
#[inline(always)]
fn pass_innermost(frames: &mut [Frame], about: &About, current: Current, count: u8) -> Current
    requires some { 1 ≤ count }
    requires current { IsCurrent about.now.sheet (frames_seen frames.old) current }
    ensures passed { frames_seen frames.new ≡ passed count (frames_seen frames.old) }
    ensures current { IsCurrent about.now.sheet (frames_seen frames.new) result }
{
    let open = frames.len();
    if open == 0 {
        return current;
    }
    let next = next_of(frames[open - 1], count);
    frames[open - 1] = next;
    current_inside(about.sheet(), about.lookup(), current, next)
}

#[inline(always)]
fn next_of(frame: Frame, count: u8) -> Frame
    requires { 1 ≤ count }
    ensures { frame_seen result ≡ with_next count (frame_seen frame) }
{
    let member = match frame.named {
        Some(named) => named,
        None => beside(frame.member, frame.back, count),
    };
    Frame {
        stage: frame.stage,
        member,
        back: frame.back,
        named: None,
    }
}

/// The member after this one, or before it where the stage goes backward.
fn beside(member: u8, back: bool, count: u8) -> u8
    requires { 1 ≤ count }
    ensures { result ≡ pure_beside count back member }
{
    let step = if back { count - 1 } else { 1 };
    ((u16::from(member) + u16::from(step)) % u16::from(count)) as u8
}
