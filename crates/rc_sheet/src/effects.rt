//! Effects.
ghost use Rattle.std.specs.Prelude.{◌≡◌, IsTrue, IfOk, Option, length, option_map};
ghost use Rattle.rc_form.specs.Form.{tree_of, trees_of, packed};
ghost use Rattle.rc_sheet_spec.specs.Sheet.{when, repeat, for_each, Effects};
ghost use Rattle.rc_sheet_spec.specs.Naming as model;
ghost use Rattle.rc_ast.specs.Names.{who_seen, loc_seen, num_seen};
ghost use Rattle.rc_ast.specs.Expressions.{card_seen, coll_seen, int_seen, domain_seen};
ghost use Rattle.rc_ast.specs.Effects.{end_seen, effect_seen, effects_seen};
ghost use Rattle.rc_check.specs.Faults.{fits};
ghost use Rattle.rc_sheet.specs.ReadNames.{both, binder_at, owner_at, num_at};
ghost use Rattle.rc_sheet.specs.ReadExpressions.{card_at, coll_at, int_at, test_at, range_at};
ghost use Rattle.rc_sheet.specs.ReadEffects as reading;
ghost use Rattle.rc_sheet.specs.Gives.{Gives};

use crate::expressions::sort_of;
use crate::fail::Unread;
use crate::made::{
    both_read, decrease_read, forget_read, increase_read, move_all_read, move_read, peek_read,
    remember_read, set_read, shuffle_read,
};
use crate::names::rule_at;
use crate::owners::owner_at;
use crate::reader::Reader;
use crate::scope::Scope;
use rc_ast::{CardExpr, CollExpr, Domain, Effect, End, IntExpr, Loc, Num, Who};
use rc_check::{Rule, Symbol};
use rc_form::Form;
use std::alloc::Global;

impl Reader {
    /// An end of a location.
    pub(crate) fn spot(&self, scope: &Scope, form: &Form) -> Result<(End, Loc), Unread>
        ensures { Gives (λ spot. (end_seen spot.0, loc_seen spot.1)) result
            (reading.spot_at self.now scope.now (tree_of form.now)) }
    {
        match form {
            Form::Atom { .. } => Err(Unread::Meaningless),
            Form::List { items, .. } => {
                let parts = items.as_slice();
                let rule = rule_at(Symbol::Spot, parts)?;
                self.spot_list(scope, rule, parts)
            }
        }
    }

    /// The end of a location that a list of this form says.
    fn spot_list(&self, scope: &Scope, rule: Rule, parts: &[Form]) -> Result<(End, Loc), Unread>
        requires { IsTrue (fits (length parts.now) rule) }
        ensures { Gives (λ spot. (end_seen spot.0, loc_seen spot.1)) result
            (reading.spot_rule self.now scope.now rule (packed (trees_of parts.now))) }
    {
        match rule {
            Rule::TopOf => {
                let loc = self.location(scope, &parts[1])?;
                Ok((End::Top, loc))
            }
            Rule::BottomOf => {
                let loc = self.location(scope, &parts[1])?;
                Ok((End::Bottom, loc))
            }
            _ => Err(Unread::Meaningless),
        }
    }

    /// A stored number, and a value.
    fn counter_and_value(
        &self,
        alloc: Global,
        scope: &Scope,
        num: &Form,
        value: &Form,
    ) -> Result<(Num, IntExpr), Unread>
        ensures { Gives (λ two. (num_seen two.0, int_seen two.1)) result
            (both (num_at self.now scope.now (tree_of num.now)) (int_at self.now scope.now (tree_of value.now))) }
    {
        let num = self.counter(scope, num);
        let value = self.integer(alloc, scope, value);
        both_read(num, value)
    }

    /// The effect on numbers or on stages that a list of this form says.
    fn number_effect(
        &self,
        alloc: Global,
        scope: &Scope,
        rule: Rule,
        parts: &[Form],
    ) -> Result<Effect, Unread>
        requires { IsTrue (fits (length parts.now) rule) }
        ensures { Gives effect_seen result (reading.number_rule self.now scope.now rule (packed (trees_of parts.now))) }
    {
        match rule {
            Rule::Set => set_read(self.counter_and_value(alloc, scope, &parts[1], &parts[2])),
            Rule::Increase => {
                increase_read(self.counter_and_value(alloc, scope, &parts[1], &parts[2]))
            }
            Rule::Decrease => {
                decrease_read(self.counter_and_value(alloc, scope, &parts[1], &parts[2]))
            }
            Rule::Next => {
                let who = owner_at(scope, &parts[2])?;
                Ok(Effect::Next(who))
            }
            Rule::Reverse => Ok(Effect::Reverse),
            _ => Err(Unread::Meaningless),
        }
    }

    /// A card, and an end of a location.
    fn card_and_spot(
        &self,
        alloc: Global,
        scope: &Scope,
        card: &Form,
        spot: &Form,
    ) -> Result<(CardExpr, (End, Loc)), Unread>
        ensures { Gives (λ two. (card_seen two.0, (end_seen two.1.0, loc_seen two.1.1))) result
            (both (card_at self.now scope.now (tree_of card.now))
            (reading.spot_at self.now scope.now (tree_of spot.now))) }
    {
        let card = self.card(alloc, scope, card);
        let spot = self.spot(scope, spot);
        both_read(card, spot)
    }

    /// A list of cards, and an end of a location.
    fn cards_and_spot(
        &self,
        alloc: Global,
        scope: &Scope,
        cards: &Form,
        spot: &Form,
    ) -> Result<(CollExpr, (End, Loc)), Unread>
        ensures { Gives (λ two. (coll_seen two.0, (end_seen two.1.0, loc_seen two.1.1))) result
            (both (coll_at self.now scope.now (tree_of cards.now))
            (reading.spot_at self.now scope.now (tree_of spot.now))) }
    {
        let cards = self.collection(alloc, scope, cards);
        let spot = self.spot(scope, spot);
        both_read(cards, spot)
    }

    /// A list of cards, and an owner.
    fn cards_and_owner(
        &self,
        alloc: Global,
        scope: &Scope,
        cards: &Form,
        owner: &Form,
    ) -> Result<(CollExpr, Who), Unread>
        ensures { Gives (λ two. (coll_seen two.0, who_seen two.1)) result
            (both (coll_at self.now scope.now (tree_of cards.now)) (owner_at scope.now (tree_of owner.now))) }
    {
        let cards = self.collection(alloc, scope, cards);
        let owner = owner_at(scope, owner);
        both_read(cards, owner)
    }

    /// The effect that a list of this form says, which has no effects in it.
    fn plain_effect(
        &self,
        alloc: Global,
        scope: &Scope,
        rule: Rule,
        parts: &[Form],
    ) -> Result<Effect, Unread>
        requires { IsTrue (fits (length parts.now) rule) }
        ensures { Gives effect_seen result (reading.plain_rule self.now scope.now rule (packed (trees_of parts.now))) }
    {
        match rule {
            Rule::Move => move_read(self.card_and_spot(alloc, scope, &parts[1], &parts[2])),
            Rule::MoveAll => {
                move_all_read(self.cards_and_spot(alloc, scope, &parts[2], &parts[3]))
            }
            Rule::Remember => {
                remember_read(self.card_and_spot(alloc, scope, &parts[1], &parts[2]))
            }
            Rule::Forget => forget_read(self.card(alloc, scope, &parts[1])),
            Rule::Shuffle => shuffle_read(self.location(scope, &parts[1])),
            Rule::Peek => peek_read(self.cards_and_owner(alloc, scope, &parts[1], &parts[2])),
            _ => self.number_effect(alloc, scope, rule, parts),
        }
    }

    /// These effects, where they were read, if a test holds.
    fn when(
        &self,
        alloc: Global,
        scope: &Scope,
        test: &Form,
        effects: Result<Vec<Effect>, Unread>,
    ) -> Result<Effect, Unread>
        ensures { (read : Option Effects) → Gives (λ all. effects_seen all.items) effects read
            → Gives effect_seen result (option_map (λ p. when p.0 p.1)
            (both (test_at self.now scope.now (tree_of test.now)) read)) }
    {
        let test = self.test(alloc, scope, test)?;
        Ok(Effect::when(test, effects?))
    }

    /// These effects, where they were read, so many times.
    fn repeat_of(
        &self,
        alloc: Global,
        scope: &Scope,
        count: &Form,
        effects: Result<Vec<Effect>, Unread>,
    ) -> Result<Effect, Unread>
        ensures { (read : Option Effects) → Gives (λ all. effects_seen all.items) effects read
            → Gives effect_seen result (option_map (λ p. repeat p.0 p.1)
            (both (int_at self.now scope.now (tree_of count.now)) read)) }
    {
        let count = self.integer(alloc, scope, count)?;
        Ok(Effect::repeat(count, effects?))
    }

    /// Players or cards, the number of the variable that runs over them, and the scope behind it.
    fn members(
        &self,
        alloc: Global,
        scope: &Scope,
        range: &Form,
        variable: &Form,
    ) -> Result<(Domain, u32, Scope), Unread>
        ensures given { Gives (λ all. (domain_seen all.0, all.1)) result
            (both (range_at self.now scope.now (tree_of range.now))
            (binder_at self.now.names.vars scope.now (tree_of variable.now))) }
        ensures inner { IfOk result (λ all. all.2
            ≡ model.bind self.now scope.now all.1 (model.sort_of (domain_seen all.0))) }
    {
        let domain = self.range(alloc, scope, range)?;
        let (bound, inner) = self.bind(alloc, scope, variable, sort_of(&domain))?;
        Ok((domain, bound, inner))
    }

    /// An effect.
    #[cycle(effects)]
    pub(crate) fn effect(&self, alloc: Global, scope: &Scope, form: &Form) -> Result<Effect, Unread>
        ensures { Gives effect_seen result (reading.effect_at self.now scope.now (tree_of form.now)) }
    {
        match form {
            Form::Atom { .. } => Err(Unread::Meaningless),
            Form::List { items, .. } => self.effect_list(alloc, scope, items.as_slice()),
        }
    }

    /// The effect that a list of these parts says.
    #[cycle(effects)]
    fn effect_list(&self, alloc: Global, scope: &Scope, parts: &[Form]) -> Result<Effect, Unread>
        ensures { Gives effect_seen result (reading.effect_of_list self.now scope.now (packed (trees_of parts.now))) }
    {
        match rule_at(Symbol::Effect, parts)? {
            Rule::If => {
                let effects = self.effects(alloc, scope, &parts[2..]);
                self.when(alloc, scope, &parts[1], effects)
            }
            Rule::Repeat => {
                let effects = self.effects(alloc, scope, &parts[2..]);
                self.repeat_of(alloc, scope, &parts[1], effects)
            }
            Rule::Each => {
                let (domain, bound, inner) = self.members(alloc, scope, &parts[1], &parts[2])?;
                let effects = self.effects(alloc, &inner, &parts[3..]);
                for_each(domain, bound, effects)
            }
            rule => self.plain_effect(alloc, scope, rule, parts),
        }
    }

    /// Effects, one after the other.
    #[cycle(effects)]
    pub(crate) fn effects(
        &self,
        alloc: Global,
        scope: &Scope,
        forms: &[Form],
    ) -> Result<Vec<Effect>, Unread>
        ensures { Gives (λ all. effects_seen all.items) result
            (reading.effects_at self.now scope.now (packed (trees_of forms.now))) }
    {
        let mut all = Vec::with_capacity(alloc, forms.len())?;
        for form in forms {
            all.push(self.effect(alloc, scope, form)?)?;
        }
        Ok(all)
    }
}

/// These effects, where they were read, for each of a domain.
fn for_each(
    domain: Domain,
    bound: u32,
    effects: Result<Vec<Effect>, Unread>,
) -> Result<Effect, Unread>
    ensures { (read : Option Effects) → Gives (λ all. effects_seen all.items) effects read
        → Gives effect_seen result (option_map (λ effects. for_each (domain_seen domain) bound effects) read) }
{
    Ok(Effect::for_each(domain, bound, effects?))
}
