//! The steps of a match.
ghost use Rattle.std.specs.Prelude.{◌≡◌, ℕ, ◌+◌, ◌<◌, ◌^◌, IsSome, None, Some, true};
ghost use Rattle.rc_sheet_spec.specs.Sheet.{SheetItems, do_item, stage, choice};
ghost use Rattle.rc_play_spec.specs.Step.{goes, step};
ghost use Rattle.rc_play_spec.specs.Stop.{stop_of};
ghost use Rattle.rc_ast.specs.Expressions.{test_seen};
ghost use Rattle.rc_ast.specs.Effects.{effects_seen};
ghost use Rattle.rc_ast.specs.Items.{item_seen, alts_seen};
ghost use Rattle.rc_rules.specs.Control.{stop_seen};
ghost use Rattle.rc_rules.specs.Machine.{IsWhereItStops};
ghost use Rattle.rc_plain.specs.Paths.{item_at};
ghost use Rattle.rc_plain.specs.State.{KeepsMenu, IsReady, config_at, next_seen, LeadsTo};

use crate::effects::do_effects;
use crate::state::{PlainState, current_in};
use rc_ast::{Alt, Class, Effect, SheetItem, Test};
use rc_menu::fill_menu_at;
use rc_play_spec::{sites_fix_choices, stops_stay};
use rc_rules::{About, Dealer, Stop};
use rc_value::{Bindings, close_frame, has_ended, member_count, open_frame, pass_frame};

impl PlainState {
    /// Does the effects that are next.
    fn do_next<D: Dealer>(&mut self, about: &About, effects: &Vec<Effect>, dealer: &mut D)
        requires ready { IsReady about.now self.old }
        requires here { item_at about.now.sheet self.old.path ≡ Some (do_item (effects_seen effects.now.items)) }
        requires fits { self.old.path.next + 1 < 2 ^ 64 }
        ensures leads { step about.now (D.dealing dealer.old) (D.state dealer.old) (config_at about.now self.old)
            ≡ goes (D.state dealer.new) (config_at about.now self.new) }
        ensures ready { IsReady about.now self.new }
        ensures dealing { D.dealing dealer.new ≡ D.dealing dealer.old }
    {
        // what an about keeps
        let _sheet = about.sheet();
        do_effects(
            about,
            self.current,
            &Bindings::empty(),
            effects,
            &mut self.board,
            &mut self.control.frames,
            dealer,
        );
        self.path.pass();
    }

    /// Passes over the choice that is next where it offers nothing; else its mover decides, and its menu is kept.
    fn choice_next(&mut self, about: &About, site: u8, alts: &[Alt]) -> Option<Stop>
        requires ready { IsReady about.now self.old }
        requires here { item_at about.now.sheet self.old.path ≡ Some (choice site (alts_seen alts.now)) }
        requires fits { self.old.path.next + 1 < 2 ^ 64 }
        ensures leads { LeadsTo about.now (config_at about.now self.old) result (config_at about.now self.new) }
        ensures ready { IsReady about.now self.new }
    {
        sites_fix_choices();
        // what an about keeps
        let _sheet = about.sheet();
        fill_menu_at(
            about,
            self.current,
            self.board.table(),
            &self.control,
            site,
            alts,
            &mut self.menu,
        );
        if self.menu.is_empty() {
            self.path.pass();
            return None;
        }
        self.decide(about, site)
    }

    /// Stops at the choice that is next, where the turn limit isn't met.
    fn decide(&mut self, about: &About, site: u8) -> Option<Stop>
        requires ready { IsReady about.now self.old }
        requires here { KeepsMenu about.now self.old site }
        ensures leads { LeadsTo about.now (config_at about.now self.old) result (config_at about.now self.new) }
        ensures ready { IsReady about.now self.new }
    {
        if self.control.turn >= about.turns() {
            return Some(Stop::Limit);
        }
        self.control.site = Some(site);
        Some(Stop::Decide {
            seat: self.current.player,
            site,
        })
    }

    /// Opens the stage that is next, or goes on at its round.
    fn stage_next(&mut self, about: &About, number: u16, class: Class, end: &Test) -> Option<Stop>
        requires ready { IsReady about.now self.old }
        requires here { (body : SheetItems)
            × (item_at about.now.sheet self.old.path ≡ Some (stage number class (test_seen end.now) body)) }
        requires fits { self.old.path.next + 1 < 2 ^ 64 }
        ensures leads { LeadsTo about.now (config_at about.now self.old) result (config_at about.now self.new) }
        ensures ready { IsReady about.now self.new }
    {
        if self.path.at_round() {
            return self.round_next(about, end);
        }
        // what an about keeps
        let _sheet = about.sheet();
        self.current = open_frame(&mut self.control.frames, about, self.current, number, class);
        self.path.open();
        None
    }

    /// Leaves the stage where its end test holds; else a round of it begins, where the turn limit isn't met.
    fn round_next(&mut self, about: &About, end: &Test) -> Option<Stop>
        requires ready { IsReady about.now self.old }
        requires round { self.old.path.at_round ≡ true }
        requires here { (number : ℕ) × (class : Class) × (body : SheetItems)
            × (item_at about.now.sheet self.old.path ≡ Some (stage number class (test_seen end.now) body)) }
        requires fits { self.old.path.next + 1 < 2 ^ 64 }
        ensures leads { LeadsTo about.now (config_at about.now self.old) result (config_at about.now self.new) }
        ensures ready { IsReady about.now self.new }
    {
        // what an about keeps
        let _sheet = about.sheet();
        if has_ended(about, self.current, self.board.table(), &self.control, end) {
            close_frame(&mut self.control.frames);
            self.current = current_in(about, &self.control);
            self.path.pass();
            return None;
        }
        if self.control.turn >= about.turns() {
            return Some(Stop::Limit);
        }
        self.control.turn += 1;
        self.path.enter();
        None
    }

    /// Goes back to the stage whose body has ended, and to its next member; at the end of all nothing is left.
    fn leave(&mut self, about: &About) -> Option<Stop>
        requires ready { IsReady about.now self.old }
        requires end { item_at about.now.sheet self.old.path ≡ None }
        ensures leads { LeadsTo about.now (config_at about.now self.old) result (config_at about.now self.new) }
        ensures ready { IsReady about.now self.new }
    {
        if !self.path.leave() {
            return Some(Stop::Done);
        }
        let count = member_count(about, self.path.class(about));
        self.current = pass_frame(&mut self.control.frames, about, self.current, count);
        None
    }

    /// Does what the item that is next says.
    fn step_at<D: Dealer>(
        &mut self,
        about: &About,
        item: &SheetItem,
        dealer: &mut D,
    ) -> Option<Stop>
        requires ready { IsReady about.now self.old }
        requires here { item_at about.now.sheet self.old.path ≡ Some (item_seen item.now) }
        requires fits { self.old.path.next + 1 < 2 ^ 64 }
        ensures leads { step about.now (D.dealing dealer.old) (D.state dealer.old) (config_at about.now self.old)
            ≡ next_seen result (config_at about.now self.new) (D.state dealer.new) }
        ensures ready { IsReady about.now self.new }
        ensures dealing { D.dealing dealer.new ≡ D.dealing dealer.old }
        ensures kept { IsSome result → D.state dealer.new ≡ D.state dealer.old }
    {
        match item {
            SheetItem::Do(effects) => {
                self.do_next(about, effects, dealer);
                None
            }
            SheetItem::Choice { site, alts } => self.choice_next(about, *site, alts),
            SheetItem::Stage {
                number,
                class,
                end,
                ..
            } => self.stage_next(about, *number, *class, end),
        }
    }

    /// A step.
    fn step<D: Dealer>(&mut self, about: &About, dealer: &mut D) -> Option<Stop>
        requires ready { IsReady about.now self.old }
        ensures leads { step about.now (D.dealing dealer.old) (D.state dealer.old) (config_at about.now self.old)
            ≡ next_seen result (config_at about.now self.new) (D.state dealer.new) }
        ensures ready { IsReady about.now self.new }
        ensures dealing { D.dealing dealer.new ≡ D.dealing dealer.old }
        ensures kept { IsSome result → D.state dealer.new ≡ D.state dealer.old }
    {
        match self.path.item(about) {
            None => self.leave(about),
            Some(item) => self.step_at(about, item, dealer),
        }
    }

    /// Goes on to the next stop.
    pub fn advance<D: Dealer>(&mut self, about: &About, dealer: &mut D) -> Stop
        requires ready { IsReady about.now self.old }
        ensures leads { stop_of about.now (D.dealing dealer.old) (D.state dealer.old) (config_at about.now self.old)
            ≡ Some (record {
              stop = stop_seen result;
              config = config_at about.now self.new;
              dealer = D.state dealer.new;
            }) }
        ensures stands { IsWhereItStops about.now (stop_seen result) (config_at about.now self.new) }
        ensures ready { IsReady about.now self.new }
        ensures dealing { D.dealing dealer.new ≡ D.dealing dealer.old }
    {
        stops_stay();
        // what an about keeps
        let _sheet = about.sheet();
        loop {
            match self.step(about, dealer) {
                Some(stop) => return stop,
                None => {}
            }
        }
    }
}
