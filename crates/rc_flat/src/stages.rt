//! Steps at stages: one opens, a round of one begins, its next member has the turn, or it ends.
ghost use Rattle.std.specs.Prelude.{◌≡◌, ℕ, ◌+◌, ◌<◌, ◌^◌, None, Some, true, false, List, [], ◌∷◌, ◌++◌, drop, slice_get};
ghost use Rattle.rc_sheet_spec.specs.Sheet.{Class as PureClass, Test as PureTest};
ghost use Rattle.rc_code.specs.Instruction.{begin_stage};
ghost use Rattle.rc_code.specs.Meaning.{items_from};
ghost use Rattle.rc_code.specs.Seen.{list_seen};
ghost use Rattle.rc_code.specs.Implements.{Implements};
ghost use Rattle.rc_flat.specs.State.{IsReady, config_at, LeadsTo};

use crate::state::State;
use crate::there::{behind, stage_there};
use rc_ast::Class;
use rc_code::{CompiledTest, Instruction};
use rc_rules::{About, Stop};
use rc_value::{close_frame, member_count, open_frame, pass_frame};

impl State {
    /// Opens the stage that is next.
    pub fn open_next(&mut self, about: &About, code: &[Instruction], number: u16, class: Class)
        requires ready { IsReady about.now (list_seen code.now) self.old }
        requires round { self.old.place.at_round ≡ false }
        requires here { (end : PureTest) × (inside : ℕ)
            × (slice_get (list_seen code.now) self.old.place.next ≡ Some (begin_stage number class end inside)) }
        ensures leads { LeadsTo about.now (config_at about.now (list_seen code.now) self.old) None
            (config_at about.now (list_seen code.now) self.new) }
        ensures ready { IsReady about.now (list_seen code.now) self.new }
        ensures keeps { self.new.board ≡ self.old.board }
    {
        self.current = open_frame(&mut self.control.frames, about, self.current, number, class);
        self.place.open();
    }

    /// Leaves the stage at this place where its end test holds; else a round of it begins, where the turn limit isn't
    /// met.
    #[inline(always)]
    fn round_next(
        &mut self,
        about: &About,
        code: &[Instruction],
        place: usize,
        end: &CompiledTest,
        inside: usize,
    ) -> Option<Stop>
        requires ready { IsReady about.now (list_seen code.now) self.old }
        requires implements { Implements about.now.sheet (list_seen code.now) }
        requires round { self.old.place.at_round ≡ true }
        requires within { (outer : List ℕ) × (self.old.place.outer ≡ outer ++ place ∷ []) }
        requires here { (number : ℕ) × (class : PureClass)
            × (slice_get (list_seen code.now) place ≡ Some (begin_stage number class end.now inside)) }
        requires fits { place + 1 < 2 ^ 64 }
        ensures leads { LeadsTo about.now (config_at about.now (list_seen code.now) self.old) result
            (config_at about.now (list_seen code.now) self.new) }
        ensures ready { IsReady about.now (list_seen code.now) self.new }
        ensures keeps { self.new.board ≡ self.old.board }
    {
        // what an about keeps
        let _sheet = about.sheet();
        if self.ends(about, end) {
            close_frame(&mut self.control.frames);
            self.current = self.current_now(about);
            self.place.close(behind(code, place + 1, inside));
            return None;
        }
        if self.control.turn >= about.turns() {
            return Some(Stop::Limit);
        }
        self.control.turn += 1;
        self.place.go_to(place + 1);
        None
    }

    /// Goes on where no item is next: to the round of the innermost stage whose body has ended, and to its next member;
    /// where none is open nothing is left.
    #[inline(always)]
    pub fn leave(&mut self, about: &About, code: &[Instruction]) -> Option<Stop>
        requires ready { IsReady about.now (list_seen code.now) self.old }
        requires round { self.old.place.at_round ≡ false }
        requires end { items_from (drop self.old.place.next (list_seen code.now)) ≡ [] }
        ensures leads { LeadsTo about.now (config_at about.now (list_seen code.now) self.old) result
            (config_at about.now (list_seen code.now) self.new) }
        ensures ready { IsReady about.now (list_seen code.now) self.new }
        ensures keeps { self.new.board ≡ self.old.board }
    {
        let Some(place) = self.place.innermost() else {
            return Some(Stop::Done);
        };
        self.turn_next(about, code, place);
        None
    }

    /// The stage at this place, whose body has ended, takes its next member.
    #[inline(always)]
    fn turn_next(&mut self, about: &About, code: &[Instruction], place: usize)
        requires ready { IsReady about.now (list_seen code.now) self.old }
        requires round { self.old.place.at_round ≡ false }
        requires end { items_from (drop self.old.place.next (list_seen code.now)) ≡ [] }
        requires within { (outer : List ℕ) × (self.old.place.outer ≡ outer ++ place ∷ []) }
        ensures leads { LeadsTo about.now (config_at about.now (list_seen code.now) self.old) None
            (config_at about.now (list_seen code.now) self.new) }
        ensures ready { IsReady about.now (list_seen code.now) self.new }
        ensures keeps { self.new.board ≡ self.old.board }
    {
        let stage = stage_there(code, place);
        let count = member_count(about, stage.class);
        self.current = pass_frame(&mut self.control.frames, about, self.current, count);
        self.place.to_round();
    }

    /// A step at a round.
    #[inline(always)]
    pub fn step_round(&mut self, about: &About, code: &[Instruction]) -> Option<Stop>
        requires implements { Implements about.now.sheet (list_seen code.now) }
        requires ready { IsReady about.now (list_seen code.now) self.old }
        requires round { self.old.place.at_round ≡ true }
        ensures leads { LeadsTo about.now (config_at about.now (list_seen code.now) self.old) result
            (config_at about.now (list_seen code.now) self.new) }
        ensures ready { IsReady about.now (list_seen code.now) self.new }
        ensures keeps { self.new.board ≡ self.old.board }
    {
        match self.place.innermost() {
            Some(place) => {
                let stage = stage_there(code, place);
                self.round_next(about, code, place, stage.end, stage.inside)
            }
            None => unreachable!(),
        }
    }
}
