//! A whole sheet.
ghost use Rattle.std.specs.Prelude.{◌≡◌, IsTrue, length};
ghost use Rattle.rc_form.specs.Form.{tree_of, trees_of, packed};
ghost use Rattle.rc_ast.specs.Expressions.{int_seen};
ghost use Rattle.rc_ast.specs.Items.{items_seen};
ghost use Rattle.rc_ast.specs.Sheet.{best_seen, sheet_seen};
ghost use Rattle.rc_check.specs.Faults.{fits};
ghost use Rattle.rc_check.specs.declared.grammar.Rule.TheVariants as rule;
ghost use Rattle.rc_sheet.specs.SetupViews.{setup_seen};
ghost use Rattle.rc_sheet.specs.ReadSheet as reading;
ghost use Rattle.rc_sheet.specs.Gives.{Gives};

use crate::fail::Unread;
use crate::items::Body;
use crate::names::rule_at;
use crate::reader::Reader;
use crate::setup::Setup;
use rc_ast::Sheet;
use rc_check::{Rule, Symbol};
use rc_form::Form;
use std::alloc::Global;

impl Reader {
    /// The sheet that a form says.
    #[tactic(auto, unfolding(crate::specs::ReadSheet::sheet_at))]
    pub fn sheet(self, alloc: Global, form: &Form) -> Result<Sheet, Unread>
        ensures { Gives sheet_seen result (reading.sheet_at self (tree_of form.now)) }
    {
        let Form::List { items, .. } = form else {
            return Err(Unread::Meaningless);
        };
        match rule_at(Symbol::Sheet, items.as_slice())? {
            Rule::Game => self.game(alloc, items.as_slice()),
            _ => Err(Unread::Meaningless),
        }
    }

    /// `(game SETUP ITEM+ SCORING)`
    fn game(self, alloc: Global, parts: &[Form]) -> Result<Sheet, Unread>
        requires { IsTrue (fits (length parts.now) rule.Game) }
        ensures { Gives sheet_seen result (reading.game_rule self rule.Game (packed (trees_of parts.now))) }
    {
        let [_, setup, body @ ..] = parts else {
            return Err(Unread::Meaningless);
        };
        self.game_parts(alloc, setup, body)
    }

    /// The sheet of a setup, and of items with the scoring behind them.
    #[tactic(auto, unfolding(crate::specs::ReadSheet::game_parts))]
    fn game_parts(self, alloc: Global, setup: &Form, body: &[Form]) -> Result<Sheet, Unread>
        ensures { Gives sheet_seen result
            (reading.game_parts self (tree_of setup.now) (packed (trees_of body.now))) }
    {
        let setup = self.setup_form(alloc, setup)?;
        let body = self.body(alloc, body)?;
        Ok(self.into_sheet(setup, body))
    }

    /// `(setup LINE+)`
    #[tactic(auto, unfolding(crate::specs::ReadSheet::setup_form_at))]
    pub(crate) fn setup_form(&self, alloc: Global, form: &Form) -> Result<Setup, Unread>
        ensures { Gives setup_seen result (reading.setup_form_at self.now (tree_of form.now)) }
    {
        let Form::List { items, .. } = form else {
            return Err(Unread::Meaningless);
        };
        let Rule::Setup = rule_at(Symbol::Setup, items.as_slice())? else {
            return Err(Unread::Meaningless);
        };
        let Some((_, lines)) = items.as_slice().split_first() else {
            return Err(Unread::Meaningless);
        };
        self.setup(alloc, lines)
    }

    /// The sheet of these parts, which has the reader's names.
    fn into_sheet(self, setup: Setup, body: Body) -> Sheet
        ensures { sheet_seen result ≡ reading.sheet_with self (setup_seen setup)
            (items_seen body.0.items, (best_seen body.1.0, int_seen body.1.1)) }
    {
        let (items, (best, score)) = body;
        Sheet {
            players: setup.players,
            teams: setup.teams,
            names: self.names,
            decks: setup.decks,
            points: setup.points,
            locs: self.locs,
            nums: self.nums,
            items,
            best,
            score,
        }
    }
}
