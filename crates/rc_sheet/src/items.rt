//! The items and the scoring of a sheet.
ghost use Rattle.std.specs.Prelude.{◌≡◌, IsTrue, Option, [], length, option_map};
ghost use Rattle.rc_form.specs.Form.{tree_of, trees_of, packed};
ghost use Rattle.rc_sheet_spec.specs.Sheet.{do_item, stage, SheetItems};
ghost use Rattle.rc_ast.specs.Expressions.{int_seen, test_seen};
ghost use Rattle.rc_ast.specs.Items.{items_seen};
ghost use Rattle.rc_ast.specs.Sheet.{best_seen};
ghost use Rattle.rc_check.specs.Faults.{fits};
ghost use Rattle.rc_sheet.specs.Begun.{begun_seen, item_read, items_read};
ghost use Rattle.rc_sheet.specs.ReadNames.{both};
ghost use Rattle.rc_sheet.specs.ReadExpressions.{test_at};
ghost use Rattle.rc_sheet.specs.ReadEffects.{alts_at, effects_at};
ghost use Rattle.rc_sheet.specs.ReadItems as reading;
ghost use Rattle.rc_sheet.specs.Gives.{Gives};

use crate::fail::Unread;
use crate::names::rule_at;
use crate::reader::Reader;
use crate::scope::Scope;
use rc_ast::{Best, Class, IntExpr, SheetItem, Test};
use rc_base::limits::{MOST_SITES, MOST_STAGES};
use rc_check::{Keyword, Rule, Symbol, is_form_word};
use rc_form::Form;
use std::alloc::Global;

/// The items of a sheet, which scores are best, and the score.
pub type Body = (Vec<SheetItem>, (Best, IntExpr));

/// How many stages and choices begin before a place of the text. The next stage and the next choice have these numbers.
#[derive(Clone, Copy, PartialEq, Eq, Debug)]
pub struct Begun {
    stages: u16,
    sites: u8,
}

impl Begun {
    /// Nothing has begun.
    pub fn none() -> Begun
        ensures { begun_seen result ≡ reading.none_begun }
    {
        Begun {
            stages: 0,
            sites: 0,
        }
    }
}

impl Reader {
    /// The test with which a stage ends.
    pub(crate) fn end(&self, alloc: Global, form: &Form) -> Result<Test, Unread>
        ensures { Gives test_seen result (reading.end_at self.now (tree_of form.now)) }
    {
        match form {
            Form::Atom { .. } => Err(Unread::Meaningless),
            Form::List { items, .. } => {
                let parts = items.as_slice();
                let rule = rule_at(Symbol::End, parts)?;
                self.end_list(alloc, rule, parts)
            }
        }
    }

    /// The test that a list of this form says with which a stage ends.
    fn end_list(&self, alloc: Global, rule: Rule, parts: &[Form]) -> Result<Test, Unread>
        requires { IsTrue (fits (length parts.now) rule) }
        ensures { Gives test_seen result (reading.end_rule self.now rule (packed (trees_of parts.now))) }
    {
        match rule {
            Rule::End => self.closed_test(alloc, &parts[1]),
            _ => Err(Unread::Meaningless),
        }
    }

    /// A test that no variable is bound around.
    fn closed_test(&self, alloc: Global, form: &Form) -> Result<Test, Unread>
        ensures { Gives test_seen result (test_at self.now [] (tree_of form.now)) }
    {
        self.test(alloc, &Scope::empty(alloc), form)
    }

    /// The item that a list of this form says, which has no item in it, and what has begun behind it.
    fn plain_item(
        &self,
        alloc: Global,
        begun: Begun,
        rule: Rule,
        parts: &[Form],
    ) -> Result<(SheetItem, Begun), Unread>
        requires { IsTrue (fits (length parts.now) rule) }
        ensures { Gives item_read result
            (reading.plain_item self.now (begun_seen begun) rule (packed (trees_of parts.now))) }
    {
        match rule {
            Rule::Do => self.setting(alloc, begun, &parts[1..]),
            Rule::Choice => self.choice(alloc, begun, &parts[1..]),
            _ => Err(Unread::Meaningless),
        }
    }

    /// Effects that are done at once.
    fn setting(
        &self,
        alloc: Global,
        begun: Begun,
        effects: &[Form],
    ) -> Result<(SheetItem, Begun), Unread>
        ensures { Gives item_read result (option_map (λ effects. (do_item effects, begun_seen begun))
            (effects_at self.now [] (packed (trees_of effects.now)))) }
    {
        let effects = self.effects(alloc, &Scope::empty(alloc), effects)?;
        Ok((SheetItem::Do(effects), begun))
    }

    /// One more choice, among these alternatives.
    fn choice(
        &self,
        alloc: Global,
        begun: Begun,
        alts: &[Form],
    ) -> Result<(SheetItem, Begun), Unread>
        ensures { Gives item_read result
            (reading.choice_of (begun_seen begun) (alts_at self.now (packed (trees_of alts.now)))) }
    {
        if begun.sites >= MOST_SITES {
            return Err(Unread::Meaningless);
        }
        let site = begun.sites;
        let alts = self.alternatives(alloc, alts)?;
        let behind = Begun {
            stages: begun.stages,
            sites: site + 1,
        };
        Ok((SheetItem::Choice { site, alts }, behind))
    }

    /// A stage with this number and these items, where they were read.
    fn stage_with(
        &self,
        alloc: Global,
        number: u16,
        class: Class,
        end: &Form,
        body: Result<(Vec<SheetItem>, Begun), Unread>,
    ) -> Result<(SheetItem, Begun), Unread>
        ensures { (read : Option (SheetItems × reading.Begun)) → Gives items_read body read
            → Gives item_read result
            (option_map (λ p. (stage number class p.0 p.1.0, p.1.1))
            (both (reading.end_at self.now (tree_of end.now)) read)) }
    {
        let end = self.end(alloc, end)?;
        let (body, behind) = body?;
        Ok((SheetItem::stage_of(number, class, end, body), behind))
    }

    /// An item, and what has begun behind it.
    #[cycle(items)]
    pub(crate) fn item(
        &self,
        alloc: Global,
        begun: Begun,
        form: &Form,
    ) -> Result<(SheetItem, Begun), Unread>
        ensures { Gives item_read result (reading.item_at self.now (begun_seen begun) (tree_of form.now)) }
    {
        match form {
            Form::Atom { .. } => Err(Unread::Meaningless),
            Form::List { items, .. } => self.item_list(alloc, begun, items.as_slice()),
        }
    }

    /// The item that a list of these parts says, and what has begun behind it.
    #[cycle(items)]
    fn item_list(
        &self,
        alloc: Global,
        begun: Begun,
        parts: &[Form],
    ) -> Result<(SheetItem, Begun), Unread>
        ensures { Gives item_read result
            (reading.item_of_list self.now (begun_seen begun) (packed (trees_of parts.now))) }
    {
        match rule_at(Symbol::Item, parts)? {
            Rule::PlayerStage => { self.stage(alloc, begun, Class::Player, &parts[2], &parts[3..]) }
            Rule::TeamStage => self.stage(alloc, begun, Class::Team, &parts[2], &parts[3..]),
            rule => self.plain_item(alloc, begun, rule, parts),
        }
    }

    /// A stage of this class with this end and these items, and what has begun behind it.
    #[cycle(items)]
    fn stage(
        &self,
        alloc: Global,
        begun: Begun,
        class: Class,
        end: &Form,
        body: &[Form],
    ) -> Result<(SheetItem, Begun), Unread>
        ensures { Gives item_read result
            (reading.stage_of (begun_seen begun) class (reading.end_at self.now (tree_of end.now))
            (reading.items_at self.now (reading.with_stage (begun_seen begun)) (packed (trees_of body.now)))) }
    {
        if begun.stages >= MOST_STAGES {
            return Err(Unread::Meaningless);
        }
        let inner = Begun {
            stages: begun.stages + 1,
            sites: begun.sites,
        };
        let body = self.items(alloc, inner, body);
        self.stage_with(alloc, begun.stages, class, end, body)
    }

    /// Items, one after the other, and what has begun behind them.
    #[cycle(items)]
    pub(crate) fn items(
        &self,
        alloc: Global,
        begun: Begun,
        forms: &[Form],
    ) -> Result<(Vec<SheetItem>, Begun), Unread>
        ensures { Gives items_read result
            (reading.items_at self.now (begun_seen begun) (packed (trees_of forms.now))) }
    {
        let mut all = Vec::with_capacity(alloc, forms.len())?;
        let mut behind = begun;
        for form in forms {
            let (item, after) = self.item(alloc, behind, form)?;
            all.push(item)?;
            behind = after;
        }
        Ok((all, behind))
    }

    /// Which scores are best, and the score.
    pub(crate) fn score(&self, alloc: Global, form: &Form) -> Result<(Best, IntExpr), Unread>
        ensures { Gives (λ p. (best_seen p.0, int_seen p.1)) result (reading.score_at self.now (tree_of form.now)) }
    {
        match form {
            Form::Atom { .. } => Err(Unread::Meaningless),
            Form::List { items, .. } => {
                let parts = items.as_slice();
                let rule = rule_at(Symbol::Scoring, parts)?;
                self.score_list(alloc, rule, parts)
            }
        }
    }

    /// What a list of this form says of which scores are best, and of the score.
    fn score_list(
        &self,
        alloc: Global,
        rule: Rule,
        parts: &[Form],
    ) -> Result<(Best, IntExpr), Unread>
        requires { IsTrue (fits (length parts.now) rule) }
        ensures { Gives (λ p. (best_seen p.0, int_seen p.1)) result
            (reading.score_rule self.now rule (packed (trees_of parts.now))) }
    {
        match rule {
            Rule::Scoring => {
                let best = best_at(&parts[1])?;
                let value = self.integer(alloc, &Scope::of_score(alloc)?, &parts[2])?;
                Ok((best, value))
            }
            _ => Err(Unread::Meaningless),
        }
    }

    /// The items of a sheet, of which there is one at least, and the scoring, which stands last: which scores are best,
    /// and the score.
    pub(crate) fn body(&self, alloc: Global, parts: &[Form]) -> Result<Body, Unread>
        ensures { Gives (λ b. (items_seen b.0.items, (best_seen b.1.0, int_seen b.1.1))) result
            (reading.body_at self.now (packed (trees_of parts.now))) }
    {
        let Some((scoring, items)) = parts.split_last() else {
            return Err(Unread::Meaningless);
        };
        if items.is_empty() {
            return Err(Unread::Meaningless);
        }
        self.items_and_score(alloc, items, scoring)
    }

    /// The items of a sheet, and its scoring.
    fn items_and_score(&self, alloc: Global, items: &[Form], scoring: &Form) -> Result<Body, Unread>
        ensures { Gives (λ b. (items_seen b.0.items, (best_seen b.1.0, int_seen b.1.1))) result
            (both (option_map (λ p. p.0) (reading.items_at self.now reading.none_begun (packed (trees_of items.now))))
            (reading.score_at self.now (tree_of scoring.now))) }
    {
        let (items, _) = self.items(alloc, Begun::none(), items)?;
        let score = self.score(alloc, scoring)?;
        Ok((items, score))
    }
}

/// Which scores are best.
fn best_at(form: &Form) -> Result<Best, Unread>
    ensures { Gives best_seen result (reading.best_at (tree_of form.now)) }
{
    if is_form_word(Keyword::Max, form) {
        return Ok(Best::Max);
    }
    if is_form_word(Keyword::Min, form) {
        return Ok(Best::Min);
    }
    Err(Unread::Meaningless)
}
