//! Alternatives of choices.
ghost use Rattle.std.specs.Prelude.{◌≡◌, IsTrue, IfOk, Option, length, option_map};
ghost use Rattle.rc_form.specs.Form.{tree_of, trees_of, packed};
ghost use Rattle.rc_sheet_spec.specs.Sheet.{do_alt, if_alt, any_alt};
ghost use Rattle.rc_sheet_spec.specs.Sheet.{Alt as PureAlt};
ghost use Rattle.rc_sheet_spec.specs.Naming as model;
ghost use Rattle.rc_ast.specs.Expressions.{domain_seen};
ghost use Rattle.rc_ast.specs.Items.{alt_seen, alts_seen};
ghost use Rattle.rc_check.specs.Faults.{fits};
ghost use Rattle.rc_sheet.specs.ReadNames.{both, binder_at};
ghost use Rattle.rc_sheet.specs.ReadExpressions.{test_at};
ghost use Rattle.rc_sheet.specs.ReadEffects as reading;
ghost use Rattle.rc_sheet.specs.Gives.{Gives};

use crate::expressions::sort_of;
use crate::fail::Unread;
use crate::names::rule_at;
use crate::reader::Reader;
use crate::scope::Scope;
use rc_ast::{Alt, Domain};
use rc_check::{Rule, Symbol};
use rc_form::Form;
use std::alloc::Global;

impl Reader {
    /// What an alternative's variable runs over.
    pub(crate) fn domain(&self, alloc: Global, scope: &Scope, form: &Form) -> Result<Domain, Unread>
        ensures { Gives domain_seen result (reading.domain_at self.now scope.now (tree_of form.now)) }
    {
        match form {
            Form::Atom { .. } => self.range(alloc, scope, form),
            Form::List { items, span } => {
                let parts = items.as_slice();
                let rule = rule_at(Symbol::Domain, parts)?;
                self.domain_list(alloc, scope, span.from, rule, parts)
            }
        }
    }

    /// What a variable runs over that a list of this form says, which begins here.
    fn domain_list(
        &self,
        alloc: Global,
        scope: &Scope,
        from: u32,
        rule: Rule,
        parts: &[Form],
    ) -> Result<Domain, Unread>
        requires { IsTrue (fits (length parts.now) rule) }
        ensures { Gives domain_seen result
            (reading.domain_rule self.now scope.now from rule (packed (trees_of parts.now))) }
    {
        match rule {
            Rule::Partition => {
                let cards = self.collection(alloc, scope, &parts[1])?;
                let attr = self.attr(&parts[2])?;
                Ok(Domain::Parts(cards, attr))
            }
            _ => {
                let cards = self.collection_list(alloc, scope, from, rule, parts)?;
                Ok(Domain::Coll(cards))
            }
        }
    }

    /// Effects, as an alternative.
    fn do_alternative(&self, alloc: Global, scope: &Scope, effects: &[Form]) -> Result<Alt, Unread>
        ensures { Gives alt_seen result
            (option_map do_alt (reading.effects_at self.now scope.now (packed (trees_of effects.now)))) }
    {
        let effects = self.effects(alloc, scope, effects)?;
        Ok(Alt::Do(effects))
    }

    /// Effects that a test guards, as an alternative.
    fn if_alternative(
        &self,
        alloc: Global,
        scope: &Scope,
        guard: &Form,
        effects: &[Form],
    ) -> Result<Alt, Unread>
        ensures { Gives alt_seen result (option_map (λ p. if_alt p.0 p.1)
            (both (test_at self.now scope.now (tree_of guard.now))
            (reading.effects_at self.now scope.now (packed (trees_of effects.now))))) }
    {
        let guard = self.test(alloc, scope, guard)?;
        let guard = Box::new(alloc, guard)?;
        let effects = self.effects(alloc, scope, effects)?;
        Ok(Alt::If(guard, effects))
    }

    /// The alternative that a list of this form says, which has no alternative in it.
    fn plain_alternative(
        &self,
        alloc: Global,
        scope: &Scope,
        rule: Rule,
        parts: &[Form],
    ) -> Result<Alt, Unread>
        requires { IsTrue (fits (length parts.now) rule) }
        ensures { Gives alt_seen result (reading.plain_alt self.now scope.now rule (packed (trees_of parts.now))) }
    {
        match rule {
            Rule::Do => self.do_alternative(alloc, scope, &parts[1..]),
            Rule::If => self.if_alternative(alloc, scope, &parts[1], &parts[2..]),
            _ => Err(Unread::Meaningless),
        }
    }

    /// A domain, the number of the variable that runs over it, and the scope behind it.
    fn domain_and_scope(
        &self,
        alloc: Global,
        scope: &Scope,
        domain: &Form,
        variable: &Form,
    ) -> Result<(Domain, u32, Scope), Unread>
        ensures given { Gives (λ all. (domain_seen all.0, all.1)) result
            (both (reading.domain_at self.now scope.now (tree_of domain.now))
            (binder_at self.now.names.vars scope.now (tree_of variable.now))) }
        ensures inner { IfOk result (λ all. all.2
            ≡ model.bind self.now scope.now all.1 (model.sort_of (domain_seen all.0))) }
    {
        let domain = self.domain(alloc, scope, domain)?;
        let (bound, inner) = self.bind(alloc, scope, variable, sort_of(&domain))?;
        Ok((domain, bound, inner))
    }

    /// An alternative.
    #[cycle(alternatives)]
    pub(crate) fn alternative(
        &self,
        alloc: Global,
        scope: &Scope,
        form: &Form,
    ) -> Result<Alt, Unread>
        ensures { Gives alt_seen result (reading.alt_at self.now scope.now (tree_of form.now)) }
    {
        match form {
            Form::Atom { .. } => Err(Unread::Meaningless),
            Form::List { items, .. } => self.alternative_list(alloc, scope, items.as_slice()),
        }
    }

    /// The alternative that a list of these parts says.
    #[cycle(alternatives)]
    fn alternative_list(&self, alloc: Global, scope: &Scope, parts: &[Form]) -> Result<Alt, Unread>
        ensures { Gives alt_seen result (reading.alt_of_list self.now scope.now (packed (trees_of parts.now))) }
    {
        match rule_at(Symbol::Alternative, parts)? {
            Rule::AnyOf => {
                let (domain, bound, inner) = self.domain_and_scope(
                    alloc, scope, &parts[1], &parts[2],
                )?;
                let alt = self.alternative(alloc, &inner, &parts[3]);
                any(alloc, domain, bound, alt)
            }
            rule => self.plain_alternative(alloc, scope, rule, parts),
        }
    }

    /// Alternatives, one after the other.
    pub(crate) fn alternatives(&self, alloc: Global, forms: &[Form]) -> Result<Vec<Alt>, Unread>
        ensures { Gives (λ all. alts_seen all.items) result (reading.alts_at self.now (packed (trees_of forms.now))) }
    {
        let scope = Scope::empty(alloc);
        let mut all = Vec::with_capacity(alloc, forms.len())?;
        for form in forms {
            all.push(self.alternative(alloc, &scope, form)?)?;
        }
        Ok(all)
    }
}

/// This alternative, where it was read, for each of a domain.
fn any(alloc: Global, domain: Domain, bound: u32, alt: Result<Alt, Unread>) -> Result<Alt, Unread>
    ensures { (read : Option PureAlt) → Gives alt_seen alt read
        → Gives alt_seen result (option_map (λ alt. any_alt (domain_seen domain) bound alt) read) }
{
    Ok(Alt::Any(domain, bound, Box::new(alloc, alt?)?))
}
