//! The setup of a sheet, whose lines stand in any order.
ghost use Rattle.std.specs.Prelude.{◌≡◌, IsTrue, length};
ghost use Rattle.rc_form.specs.Form.{tree_of, trees_of, packed};
ghost use Rattle.rc_check.specs.Faults.{fits};
ghost use Rattle.rc_sheet.specs.ReadSetup as reading;
ghost use Rattle.rc_sheet.specs.SetupViews.{setup_seen, lines_seen};
ghost use Rattle.rc_sheet.specs.Gives.{Gives};

use crate::fail::Unread;
use crate::names::rule_at;
use crate::players::{count_at, teams_at};
use crate::reader::Reader;
use rc_ast::{DeckLine, Teams};
use rc_base::limits::MOST_PLAYERS;
use rc_check::{Rule, Symbol};
use rc_deck::PointMap;
use rc_form::Form;
use std::alloc::Global;

/// What a setup says.
#[derive(Drop)]
pub struct Setup {
    pub players: u8,
    pub teams: Option<Teams>,
    pub decks: Vec<DeckLine>,
    pub points: Vec<PointMap>,
}

/// What the lines before a place of a setup say.
#[derive(Drop)]
pub struct Lines {
    players: Option<u8>,
    teams: Option<Teams>,
    decks: Vec<DeckLine>,
    points: Vec<PointMap>,
}

impl Lines {
    /// Nothing.
    fn none(alloc: Global) -> Lines
        ensures { lines_seen result ≡ reading.no_line }
    {
        Lines {
            players: None,
            teams: None,
            decks: Vec::new(alloc),
            points: Vec::new(alloc),
        }
    }

    /// `(create players n)`, of which there is one.
    #[tactic(auto, unfolding(crate::specs::ReadSetup::players_line))]
    fn add_players(&mut self, count: &Form) -> Result<(), Unread>
        ensures { Gives (λ _. lines_seen self.new) result
            (reading.players_line (lines_seen self.old) (tree_of count.now)) }
    {
        if self.players.is_some() {
            return Err(Unread::Meaningless);
        }
        self.players = Some(count_at(1, MOST_PLAYERS, count)?);
        Ok(())
    }

    /// `(create teams TEAM+)`, of which there is one at most.
    #[tactic(auto, unfolding(crate::specs::ReadSetup::teams_line))]
    fn add_teams(&mut self, alloc: Global, teams: &[Form]) -> Result<(), Unread>
        ensures { Gives (λ _. lines_seen self.new) result
            (reading.teams_line (lines_seen self.old) (packed (trees_of teams.now))) }
    {
        if self.teams.is_some() {
            return Err(Unread::Meaningless);
        }
        self.teams = Some(teams_at(alloc, teams)?);
        Ok(())
    }

    /// What all lines say.
    fn finish(self) -> Result<Setup, Unread>
        ensures { Gives setup_seen result (reading.setup_of (lines_seen self)) }
    {
        let Some(players) = self.players else {
            return Err(Unread::Meaningless);
        };
        Ok(Setup {
            players,
            teams: self.teams,
            decks: self.decks,
            points: self.points,
        })
    }
}

impl Reader {
    /// The lines of a setup, without the word before them.
    pub(crate) fn setup(&self, alloc: Global, forms: &[Form]) -> Result<Setup, Unread>
        ensures { Gives setup_seen result (reading.setup_at self.now (packed (trees_of forms.now))) }
    {
        let mut lines = Lines::none(alloc);
        for form in forms {
            self.line(alloc, &mut lines, form)?;
        }
        lines.finish()
    }

    /// One more line.
    #[tactic(auto, unfolding(crate::specs::ReadSetup::line_at))]
    fn line(&self, alloc: Global, lines: &mut Lines, form: &Form) -> Result<(), Unread>
        ensures { Gives (λ _. lines_seen lines.new) result
            (reading.line_at self.now (lines_seen lines.old) (tree_of form.now)) }
    {
        let Form::List { items, .. } = form else {
            return Err(Unread::Meaningless);
        };
        let parts = items.as_slice();
        self.line_rule(alloc, lines, rule_at(Symbol::Line, parts)?, parts)
    }

    /// One more line, of this form.
    fn line_rule(
        &self,
        alloc: Global,
        lines: &mut Lines,
        rule: Rule,
        parts: &[Form],
    ) -> Result<(), Unread>
        requires { IsTrue (fits (length parts.now) rule) }
        ensures { Gives (λ _. lines_seen lines.new) result
            (reading.line_rule self.now (lines_seen lines.old) rule (packed (trees_of parts.now))) }
    {
        match rule {
            Rule::CreatePlayers => {
                let [_, _, count] = parts else {
                    return Err(Unread::Meaningless);
                };
                lines.add_players(count)
            }
            Rule::CreateTeams => {
                let [_, _, teams @ ..] = parts else {
                    return Err(Unread::Meaningless);
                };
                lines.add_teams(alloc, teams)
            }
            Rule::CreateDeck => {
                let [_, _, loc, deck] = parts else {
                    return Err(Unread::Meaningless);
                };
                self.add_deck(alloc, lines, loc, deck)
            }
            Rule::PutPoints => {
                let [_, _, map, entries] = parts else {
                    return Err(Unread::Meaningless);
                };
                self.add_points(alloc, lines, map, entries)
            }
            _ => Err(Unread::Meaningless),
        }
    }

    /// `(create deck LOC DECK)`
    #[tactic(auto, unfolding(crate::specs::ReadSetup::deck_line))]
    fn add_deck(
        &self,
        alloc: Global,
        lines: &mut Lines,
        loc: &Form,
        deck: &Form,
    ) -> Result<(), Unread>
        ensures { Gives (λ _. lines_seen lines.new) result
            (reading.deck_line self.now (lines_seen lines.old) (tree_of loc.now) (tree_of deck.now)) }
    {
        lines.decks.push(self.deck(alloc, loc, deck)?)?;
        Ok(())
    }

    /// `(put points MAP ENTRIES)`
    #[tactic(auto, unfolding(crate::specs::ReadSetup::points_line))]
    fn add_points(
        &self,
        alloc: Global,
        lines: &mut Lines,
        map: &Form,
        entries: &Form,
    ) -> Result<(), Unread>
        ensures { Gives (λ _. lines_seen lines.new) result
            (reading.points_line self.now (lines_seen lines.old) (tree_of map.now) (tree_of entries.now)) }
    {
        let map = self.points(alloc, lines.points.len(), map, entries)?;
        lines.points.push(map)?;
        Ok(())
    }
}
