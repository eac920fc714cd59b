//! The names that the setup mentions.
ghost use Rattle.std.specs.Prelude.{◌≡◌, OnOk};
ghost use Rattle.rc_base.specs.Tree.{nil, cons};
ghost use Rattle.rc_form.specs.Form.{tree_of, trees_of, packed};
ghost use Rattle.rc_resolve.specs.Mentions as mentions;
ghost use Rattle.rc_resolve.specs.Known.{with_all, in_groups, in_branches, in_values, in_entries, locs_alone, deck_in, decks_in, points_in, all_points_in};

use crate::known::Known;
use crate::sheet_parts::{
    begins_with, deck_groups, deck_location, parts_of, points_entries, points_map,
};
use rc_check::Keyword;
use rc_form::Form;
use std::alloc::AllocError;

impl Known {
    /// Adds the names that the decks among these lines mention.
    pub fn add_decks(&mut self, lines: &[Form]) -> Result<(), AllocError>
        ensures { OnOk result (self.new ≡ with_all self.old (decks_in (packed (trees_of lines.now)))) }
    {
        for line in lines {
            self.add_deck(line)?;
        }
        Ok(())
    }

    fn add_deck(&mut self, line: &Form) -> Result<(), AllocError>
        ensures { OnOk result (self.new ≡ with_all self.old (deck_in (tree_of line.now))) }
    {
        if !begins_with(Keyword::Create, Keyword::Deck, line) {
            return Ok(());
        }
        self.add_deck_location(line)?;
        self.add_groups(deck_groups(line))
    }

    fn add_deck_location(&mut self, line: &Form) -> Result<(), AllocError>
        ensures { OnOk result (self.new ≡ with_all self.old (locs_alone (mentions.deck_location (tree_of line.now)))) }
    {
        match deck_location(line) {
            Some(location) => self.add_locations_in(location),
            None => Ok(()),
        }
    }

    /// Adds the names that the point maps among these lines mention.
    pub fn add_all_points(&mut self, lines: &[Form]) -> Result<(), AllocError>
        ensures { OnOk result (self.new ≡ with_all self.old (all_points_in (packed (trees_of lines.now)))) }
    {
        for line in lines {
            self.add_points(line)?;
        }
        Ok(())
    }

    fn add_points(&mut self, line: &Form) -> Result<(), AllocError>
        ensures { OnOk result (self.new ≡ with_all self.old (points_in (tree_of line.now))) }
    {
        if !begins_with(Keyword::Put, Keyword::Points, line) {
            return Ok(());
        }
        self.add_map(points_map(line))?;
        self.add_entries(points_entries(line))
    }

    #[cycle(groups)]
    fn add_groups(&mut self, groups: &[Form]) -> Result<(), AllocError>
        ensures { OnOk result (self.new ≡ with_all self.old (in_groups (packed (trees_of groups.now)))) }
    {
        for group in groups {
            self.add_group(group)?;
        }
        Ok(())
    }

    /// Adds the names of `(ATTR (BRANCH+))`.
    #[cycle(groups)]
    fn add_group(&mut self, group: &Form) -> Result<(), AllocError>
        ensures { OnOk result (self.new ≡ with_all self.old (in_groups (cons (tree_of group.now) nil))) }
    {
        let Form::List { items, .. } = group else {
            return Ok(());
        };
        let [attr, second] = items.as_slice() else {
            return Ok(());
        };
        let Form::List {
            items: branches,
            ..
        } = second
        else {
            return Ok(());
        };
        self.add_attr(attr)?;
        self.add_branches(branches.as_slice())
    }

    #[cycle(groups)]
    fn add_branches(&mut self, branches: &[Form]) -> Result<(), AllocError>
        ensures { OnOk result (self.new ≡ with_all self.old (in_branches (packed (trees_of branches.now)))) }
    {
        for branch in branches {
            self.add_branch(branch)?;
        }
        Ok(())
    }

    /// Adds the names of `VALUE` or `(VALUE GROUP+)`.
    #[cycle(groups)]
    fn add_branch(&mut self, branch: &Form) -> Result<(), AllocError>
        ensures { OnOk result (self.new ≡ with_all self.old (in_branches (cons (tree_of branch.now) nil))) }
    {
        let Form::List { items, .. } = branch else {
            return self.add_value(branch);
        };
        let Some((value, groups)) = items.as_slice().split_first() else {
            return Ok(());
        };
        self.add_value(value)?;
        self.add_groups(groups)
    }

    fn add_entries(&mut self, entries: &[Form]) -> Result<(), AllocError>
        ensures { OnOk result (self.new ≡ with_all self.old (in_entries (packed (trees_of entries.now)))) }
    {
        for entry in entries {
            self.add_entry(entry)?;
        }
        Ok(())
    }

    /// Adds the names of `(ATTR (VALUE+) n)`.
    fn add_entry(&mut self, entry: &Form) -> Result<(), AllocError>
        ensures { OnOk result (self.new ≡ with_all self.old (in_entries (cons (tree_of entry.now) nil))) }
    {
        let Some((attr, others)) = parts_of(entry).split_first() else {
            return Ok(());
        };
        self.add_attr(attr)?;
        match others.first() {
            Some(values) => self.add_values(parts_of(values)),
            None => Ok(()),
        }
    }

    fn add_values(&mut self, values: &[Form]) -> Result<(), AllocError>
        ensures { OnOk result (self.new ≡ with_all self.old (in_values (packed (trees_of values.now)))) }
    {
        for value in values {
            self.add_value(value)?;
        }
        Ok(())
    }
}
