//! Who comes next, and which way round.
ghost use Rattle.std.specs.Prelude.{◌≡◌, ◌<◌, false, length, IfSome, IfNone};
ghost use Rattle.std.specs.List.{list_any};
ghost use Rattle.rc_sheet_spec.specs.Sheet.{next_is, turn_round as turn_round_of};
ghost use Rattle.rc_sheet_spec.specs.Naming.{class_of as class_in};
ghost use Rattle.rc_play_spec.specs.Owners.{is_stage_of as is_of_class};
ghost use Rattle.rc_play_spec.specs.Effects.{named_next, turned};
ghost use Rattle.rc_ast.specs.Names.{who_seen};
ghost use Rattle.rc_rules.specs.Control.{frames_seen};
ghost use Rattle.rc_value.specs.Context.{IsContextOf};
ghost use Rattle.rc_value.specs.Leads.{LeadsTo};
ghost use Rattle.rc_value.specs.Innermost.{IsInnermost};

use crate::context::Context;
use crate::reading::who_now;
use rc_ast::{Class, Who};
use rc_rules::{About, Frame, Frames, is_stage_of};
use rc_table::Table;

/// Names who comes next in the innermost stage of the class, whoever was named before.
pub fn name_next(context: &Context, who: Who, table: &Table, frames: &mut Frames)
    requires stands { IsContextOf context.now table.now frames.old.items }
    ensures leads { LeadsTo context.now (next_is (who_seen who)) table.now frames.old.items table.now frames.new.items }
    ensures stands { IsContextOf context.now table.now frames.new.items }
{
    let member = who_now(context, who, table, &*frames);
    name_in(context.about, class_of(who), member, frames.as_mut_slice());
}

fn name_in(about: &About, class: Class, member: u8, frames: &mut [Frame])
    ensures { frames_seen frames.new ≡ named_next about.now.sheet class member (frames_seen frames.old) }
{
    match innermost(about, class, &*frames) {
        Some(at) => frames[at].named = Some(member),
        None => {}
    }
}

// The place of the innermost stage of a class.
fn innermost(about: &About, class: Class, frames: &[Frame]) -> Option<usize>
    ensures within { IfSome result (λ at. at < length frames.now) }
    ensures found { IfSome result (λ at. IsInnermost (λ frame. is_of_class about.now.sheet class frame.stage)
        (frames_seen frames.now) at) }
    ensures none { IfNone result (list_any (λ frame. is_of_class about.now.sheet class frame.stage)
        (frames_seen frames.now) ≡ false) }
{
    let mut at = frames.len();
    while at > 0 {
        at -= 1;
        if is_stage_of(about, class, frames[at].stage) {
            return Some(at);
        }
    }
    None
}

/// Turns the innermost stage, of whatever class, the other way round.
pub fn turn_round(context: &Context, table: &Table, frames: &mut Frames)
    requires stands { IsContextOf context.now table.now frames.old.items }
    ensures leads { LeadsTo context.now turn_round_of table.now frames.old.items table.now frames.new.items }
    ensures stands { IsContextOf context.now table.now frames.new.items }
{
    turn_innermost(frames.as_mut_slice());
}

fn turn_innermost(frames: &mut [Frame])
    ensures { frames_seen frames.new ≡ turned (frames_seen frames.old) }
{
    let open = frames.len();
    if open > 0 {
        frames[open - 1].back = !frames[open - 1].back;
    }
}

/// Whose the stages of an owner are.
pub fn class_of(who: Who) -> Class
    ensures { result ≡ class_in (who_seen who) }
{
    match who {
        Who::Game => Class::Game,
        Who::CurrentPlayer | Who::Var(_) => Class::Player,
        Who::CurrentTeam | Who::TeamOfCurrent | Who::TeamOfVar(_) => Class::Team,
    }
}
