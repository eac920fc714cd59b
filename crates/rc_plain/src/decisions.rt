//! Decisions: what a mover may pick, and what follows.
ghost use Rattle.std.specs.Prelude.{◌≡◌, ℕ, ◌+◌, ◌<◌, false, ◌^◌, length, Some};
ghost use Rattle.rc_sheet_spec.specs.Sheet.{choice};
ghost use Rattle.rc_play_spec.specs.Step.{goes};
ghost use Rattle.rc_play_spec.specs.Decision.{choose};
ghost use Rattle.rc_ast.specs.Items.{alts_seen};
ghost use Rattle.rc_rules.specs.Machine.{StopsAtDecision, menu_here};
ghost use Rattle.rc_rules.specs.Menu.{item_seen};
ghost use Rattle.rc_rules.specs.Control.{frames_seen};
ghost use Rattle.rc_value.specs.Current.{IsCurrent};
ghost use Rattle.rc_plain.specs.Paths.{item_at};
ghost use Rattle.rc_plain.specs.Plain.{IsInPlay, chosen_item};
ghost use Rattle.rc_plain.specs.State.{IsReady, plain_of, config_at};

use crate::items::do_item;
use crate::state::PlainState;
use rc_ast::Alt;
use rc_rules::{About, Dealer, Item};
use rc_value::count_decision;

impl PlainState {
    /// Takes an item out of the menu of the decision that is next, and does its effects.
    pub fn apply<D: Dealer>(&mut self, about: &About, item: u16, dealer: &mut D)
        requires ready { IsReady about.now self.old }
        requires decision { StopsAtDecision about.now (config_at about.now self.old) }
        requires offered { item < length (menu_here about.now (config_at about.now self.old)) }
        ensures leads { choose about.now (D.dealing dealer.old) (D.state dealer.old) item (config_at about.now self.old)
            ≡ goes (D.state dealer.new) (config_at about.now self.new) }
        ensures ready { IsReady about.now self.new }
        ensures dealing { D.dealing dealer.new ≡ D.dealing dealer.old }
    {
        let alts = self.path.alts(about);
        let item = self.menu.swap_remove(item as usize);
        self.choose(about, alts, &item, dealer);
    }

    /// Takes this item of the menu at the choice that is next, and does its effects.
    fn choose<D: Dealer>(&mut self, about: &About, alts: &[Alt], item: &Item, dealer: &mut D)
        requires laid { self.old.board.laid.shape ≡ about.now.shape }
        requires quiet { self.old.board.notes ≡ false }
        requires play { IsInPlay (plain_of about.now self.old) }
        requires current { IsCurrent about.now.sheet (frames_seen self.old.control.frames.items) self.old.current }
        requires here { (site : ℕ) × (item_at about.now.sheet self.old.path ≡ Some (choice site (alts_seen alts.now))) }
        requires fits { self.old.path.next + 1 < 2 ^ 64 }
        requires below { self.old.control.turn < about.now.turns }
        requires offered { (x : ℕ) ×
            (chosen_item (plain_of about.now self.old) (alts_seen alts.now) x ≡ item_seen item.now) }
        ensures leads { (x : ℕ) → chosen_item (plain_of about.now self.old) (alts_seen alts.now) x ≡ item_seen item.now
            → choose about.now (D.dealing dealer.old) (D.state dealer.old) x (config_at about.now self.old)
            ≡ goes (D.state dealer.new) (config_at about.now self.new) }
        ensures ready { IsReady about.now self.new }
        ensures dealing { D.dealing dealer.new ≡ D.dealing dealer.old }
    {
        // what an about keeps
        let _turns = about.turns();
        let _sheet = about.sheet();
        let current = self.current;
        do_item(
            about,
            current,
            alts,
            item,
            &mut self.board,
            &mut self.control.frames,
            dealer,
        );
        count_decision(&mut self.control, current.player);
        self.path.pass();
    }
}
