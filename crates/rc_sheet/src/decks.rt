//! Decks and point maps, as a setup says them.
ghost use Rattle.std.specs.Prelude.{◌≡◌};
ghost use Rattle.rc_form.specs.Form.{tree_of};
ghost use Rattle.rc_ast.specs.Sheet.{deck_line_seen};
ghost use Rattle.rc_deck.specs.Points.{entries_of};
ghost use Rattle.rc_deck.specs.Tree.{groups_of};
ghost use Rattle.rc_resolve.specs.Reading as faces;
ghost use Rattle.rc_sheet.specs.ReadSetup as reading;
ghost use Rattle.rc_sheet.specs.Gives.{Gives};

use crate::fail::Unread;
use crate::names::{name_at, number_in};
use crate::reader::Reader;
use crate::scope::Scope;
use rc_ast::{DeckLine, Who};
use rc_deck::{DeckTree, PointMap};
use rc_form::Form;
use rc_resolve::{Numbers, read_deck, read_entries};
use std::alloc::Global;

#[tactic(auto, using(crate::proofs::Faces::number_of_name))]
impl Numbers for Reader {
    ghost words = { reading.face_words };

    fn attr_number(&self, form: &Form) -> Option<u16> {
        number_in(&self.names.attrs, form)
    }

    fn value_number(&self, form: &Form) -> Option<u16> {
        number_in(&self.names.values, form)
    }
}

impl Reader {
    /// A deck, and the location of the game that its cards begin in.
    #[tactic(auto, unfolding(crate::specs::ReadSetup::deck_at))]
    pub(crate) fn deck(&self, alloc: Global, loc: &Form, deck: &Form) -> Result<DeckLine, Unread>
        ensures { Gives deck_line_seen result (reading.deck_at self.now (tree_of loc.now) (tree_of deck.now)) }
    {
        let home = self.location(&Scope::empty(alloc), loc)?;
        let Who::Game = home.who else {
            return Err(Unread::Meaningless);
        };
        Ok(DeckLine {
            loc: home.name,
            tree: self.deck_tree(alloc, deck)?,
        })
    }

    /// The groups of a deck.
    fn deck_tree(&self, alloc: Global, form: &Form) -> Result<DeckTree, Unread>
        ensures { Gives groups_of result (faces.read_deck (reading.face_words self.now) (tree_of form.now)) }
    {
        // a field is named, so that the check knows the reader's invariant: its names are few
        let _names = &self.names;
        match read_deck(alloc, self, form) {
            Ok(Some(tree)) => Ok(tree),
            Ok(None) => Err(Unread::Meaningless),
            Err(_) => Err(Unread::Memory),
        }
    }

    /// The point map of this number.
    #[tactic(auto, unfolding(crate::specs::ReadSetup::points_at))]
    pub(crate) fn points(
        &self,
        alloc: Global,
        number: usize,
        name: &Form,
        entries: &Form,
    ) -> Result<PointMap, Unread>
        ensures { Gives entries_of result (reading.points_at self.now number (tree_of name.now) (tree_of entries.now)) }
    {
        let found = name_at(&self.names.maps, name)?;
        if usize::from(found) != number {
            return Err(Unread::Meaningless);
        }
        match read_entries(alloc, self, entries) {
            Ok(Some(map)) => Ok(map),
            Ok(None) => Err(Unread::Meaningless),
            Err(_) => Err(Unread::Memory),
        }
    }
}
