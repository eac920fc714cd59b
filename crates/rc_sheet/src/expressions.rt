//! Expressions and tests.
ghost use Rattle.std.specs.Prelude.{◌≡◌, ◌≤◌, IsTrue, length};
ghost use Rattle.rc_form.specs.Form.{tree_of, trees_of, packed};
ghost use Rattle.rc_ast.specs.Expressions.{card_seen, coll_seen, colls_seen, int_seen, test_seen, tests_seen, domain_seen};
ghost use Rattle.rc_check.specs.Faults.{fits};
ghost use Rattle.rc_sheet.specs.ReadExpressions as reading;
ghost use Rattle.rc_sheet.specs.ReadParts as behind;
ghost use Rattle.rc_sheet.specs.Sides.{side_seen};
ghost use Rattle.rc_sheet.specs.Gives.{Gives};
ghost use Rattle.rc_sheet_spec.specs.Naming as model;

use crate::fail::Unread;
use crate::made::{both_read, box_read, filter_read, value_read};
use crate::names::rule_at;
use crate::owners::owner_rule;
use crate::reader::Reader;
use crate::scope::Scope;
use crate::sides::{Side, equal_read, side_word};
use rc_ast::{CardExpr, CollExpr, Domain, IntExpr, Sort, Test};
use rc_check::{Keyword, Rule, Symbol, is_form_word};
use rc_form::{Form, integer};
use std::alloc::Global;

impl Reader {
    /// A card.
    #[cycle(reading)]
    pub(crate) fn card(&self, alloc: Global, scope: &Scope, form: &Form) -> Result<CardExpr, Unread>
        ensures { Gives card_seen result (reading.card_at self.now scope.now (tree_of form.now)) }
    {
        match form {
            Form::Atom { word, .. } => {
                let var = scope.variable(Sort::Card, word.bytes())?;
                Ok(CardExpr::Var(var))
            }
            Form::List { items, .. } => {
                let parts = items.as_slice();
                let rule = rule_at(Symbol::Card, parts)?;
                self.card_list(alloc, scope, rule, parts)
            }
        }
    }

    /// The card of a list of this form.
    #[cycle(reading)]
    fn card_list(
        &self,
        alloc: Global,
        scope: &Scope,
        rule: Rule,
        parts: &[Form],
    ) -> Result<CardExpr, Unread>
        requires { IsTrue (fits (length parts.now) rule) }
        ensures { Gives card_seen result (behind.card_form self.now scope.now rule (packed (trees_of parts.now))) }
    {
        match rule {
            Rule::TopCard => {
                let cards = self.one_collection(alloc, scope, parts)?;
                Ok(CardExpr::Top(cards))
            }
            Rule::BottomCard => {
                let cards = self.one_collection(alloc, scope, parts)?;
                Ok(CardExpr::Bottom(cards))
            }
            Rule::MaxCard => {
                let (cards, map) = self.collection_and_map(alloc, scope, parts)?;
                Ok(CardExpr::Max(cards, map))
            }
            Rule::MinCard => {
                let (cards, map) = self.collection_and_map(alloc, scope, parts)?;
                Ok(CardExpr::Min(cards, map))
            }
            _ => Err(Unread::Meaningless),
        }
    }

    /// The card behind a head, and a point map behind the word `using`.
    #[cycle(reading)]
    fn card_and_map(
        &self,
        alloc: Global,
        scope: &Scope,
        parts: &[Form],
    ) -> Result<(Box<CardExpr>, u16), Unread>
        requires { length parts.now ≡ 4 }
        ensures { Gives (λ two. (card_seen two.0.value, two.1)) result
            (behind.card_and_map self.now scope.now (packed (trees_of parts.now))) }
    {
        let [_, card, keyword, map] = parts else {
            return Err(Unread::Meaningless);
        };
        let card = self.boxed_card(alloc, scope, card);
        let map = self.map(keyword, map);
        both_read(card, map)
    }

    /// A card in a box.
    #[cycle(reading)]
    fn boxed_card(&self, alloc: Global, scope: &Scope, form: &Form) -> Result<Box<CardExpr>, Unread>
        ensures { Gives (λ card. card_seen card.value) result (reading.card_at self.now scope.now (tree_of form.now)) }
    {
        let card = self.card(alloc, scope, form);
        box_read(alloc, card)
    }

    /// The card behind a head, and an attribute.
    #[cycle(reading)]
    fn card_and_attr(
        &self,
        alloc: Global,
        scope: &Scope,
        parts: &[Form],
    ) -> Result<(CardExpr, u16), Unread>
        requires { length parts.now ≡ 3 }
        ensures { Gives (λ two. (card_seen two.0, two.1)) result
            (behind.card_and_attr self.now scope.now (packed (trees_of parts.now))) }
    {
        let [_, card, attr] = parts else {
            return Err(Unread::Meaningless);
        };
        let card = self.card(alloc, scope, card);
        let attr = self.attr(attr);
        both_read(card, attr)
    }

    /// A list of cards.
    #[cycle(reading)]
    pub(crate) fn collection(
        &self,
        alloc: Global,
        scope: &Scope,
        form: &Form,
    ) -> Result<CollExpr, Unread>
        ensures { Gives coll_seen result (reading.coll_at self.now scope.now (tree_of form.now)) }
    {
        match form {
            Form::Atom { word, .. } => {
                let var = scope.variable(Sort::Group, word.bytes())?;
                Ok(CollExpr::Var(var))
            }
            Form::List { items, span } => {
                let parts = items.as_slice();
                let rule = rule_at(Symbol::Collection, parts)?;
                self.collection_form(alloc, scope, span.from, rule, parts)
            }
        }
    }

    /// The cards of a list of this form, which begins here.
    #[tactic(auto, using(crate::proofs::Forms::coll_forms))]
    pub(crate) fn collection_list(
        &self,
        alloc: Global,
        scope: &Scope,
        from: u32,
        rule: Rule,
        parts: &[Form],
    ) -> Result<CollExpr, Unread>
        requires { IsTrue (fits (length parts.now) rule) }
        ensures { Gives coll_seen result
            (reading.coll_rule self.now scope.now from rule (packed (trees_of parts.now))) }
    {
        self.collection_form(alloc, scope, from, rule, parts)
    }

    /// The cards of a list of this form, which begins here.
    #[cycle(reading)]
    fn collection_form(
        &self,
        alloc: Global,
        scope: &Scope,
        from: u32,
        rule: Rule,
        parts: &[Form],
    ) -> Result<CollExpr, Unread>
        requires { IsTrue (fits (length parts.now) rule) }
        ensures { Gives coll_seen result (behind.coll_form self.now scope.now from rule (packed (trees_of parts.now))) }
    {
        match rule {
            Rule::Location => {
                let loc = self.location_parts(scope, from, parts)?;
                Ok(CollExpr::Loc(loc))
            }
            Rule::Filter => self.filter(alloc, scope, parts),
            Rule::Union => {
                let cards = self.collections(alloc, scope, parts)?;
                Ok(CollExpr::union_of(cards))
            }
            Rule::Known => {
                let loc = self.one_location(scope, parts)?;
                Ok(CollExpr::Known(loc))
            }
            _ => Err(Unread::Meaningless),
        }
    }

    /// The cards behind a head.
    #[cycle(reading)]
    fn one_collection(
        &self,
        alloc: Global,
        scope: &Scope,
        parts: &[Form],
    ) -> Result<Box<CollExpr>, Unread>
        requires { length parts.now ≡ 2 }
        ensures { Gives (λ cards. coll_seen cards.value) result
            (behind.one_coll self.now scope.now (packed (trees_of parts.now))) }
    {
        let [_, cards] = parts else {
            return Err(Unread::Meaningless);
        };
        self.boxed_collection(alloc, scope, cards)
    }

    /// A list of cards in a box.
    #[cycle(reading)]
    fn boxed_collection(
        &self,
        alloc: Global,
        scope: &Scope,
        form: &Form,
    ) -> Result<Box<CollExpr>, Unread>
        ensures { Gives (λ cards. coll_seen cards.value) result
            (reading.coll_at self.now scope.now (tree_of form.now)) }
    {
        let cards = self.collection(alloc, scope, form);
        box_read(alloc, cards)
    }

    /// The cards behind a head, and a point map behind the word `using`.
    #[cycle(reading)]
    fn collection_and_map(
        &self,
        alloc: Global,
        scope: &Scope,
        parts: &[Form],
    ) -> Result<(Box<CollExpr>, u16), Unread>
        requires { length parts.now ≡ 4 }
        ensures { Gives (λ two. (coll_seen two.0.value, two.1)) result
            (behind.coll_and_map self.now scope.now (packed (trees_of parts.now))) }
    {
        let [_, cards, keyword, map] = parts else {
            return Err(Unread::Meaningless);
        };
        let cards = self.boxed_collection(alloc, scope, cards);
        let map = self.map(keyword, map);
        both_read(cards, map)
    }

    /// The cards behind a head that pass a test.
    #[cycle(reading)]
    fn filter(&self, alloc: Global, scope: &Scope, parts: &[Form]) -> Result<CollExpr, Unread>
        requires { length parts.now ≡ 4 }
        ensures { Gives coll_seen result (behind.filter_parts self.now scope.now (packed (trees_of parts.now))) }
    {
        let [_, cards, variable, test] = parts else {
            return Err(Unread::Meaningless);
        };
        let cards = self.boxed_collection(alloc, scope, cards);
        let passes = self.bound_test(alloc, scope, test, variable, Sort::Card);
        filter_read(both_read(cards, passes))
    }

    /// The lists of cards behind a head.
    #[cycle(reading)]
    fn collections(
        &self,
        alloc: Global,
        scope: &Scope,
        parts: &[Form],
    ) -> Result<Vec<CollExpr>, Unread>
        requires { 1 ≤ length parts.now }
        ensures { Gives (λ all. colls_seen all.items) result
            (behind.colls_behind self.now scope.now (packed (trees_of parts.now))) }
    {
        let [_, forms @ ..] = parts else {
            return Err(Unread::Meaningless);
        };
        let mut all = Vec::with_capacity(alloc, forms.len())?;
        for form in forms {
            all.push(self.collection(alloc, scope, form)?)?;
        }
        Ok(all)
    }

    /// A number.
    #[cycle(reading)]
    pub(crate) fn integer(
        &self,
        alloc: Global,
        scope: &Scope,
        form: &Form,
    ) -> Result<IntExpr, Unread>
        ensures { Gives int_seen result (reading.int_at self.now scope.now (tree_of form.now)) }
    {
        match form {
            Form::Atom { word, .. } => match integer(word.bytes()) {
                Some(value) => Ok(IntExpr::Lit(value)),
                None => Err(Unread::Meaningless),
            },
            Form::List { items, .. } => {
                let parts = items.as_slice();
                let rule = rule_at(Symbol::Integer, parts)?;
                self.integer_list(alloc, scope, rule, parts)
            }
        }
    }

    /// The number of a list of this form.
    #[cycle(reading)]
    fn integer_list(
        &self,
        alloc: Global,
        scope: &Scope,
        rule: Rule,
        parts: &[Form],
    ) -> Result<IntExpr, Unread>
        requires { IsTrue (fits (length parts.now) rule) }
        ensures { Gives int_seen result (behind.int_form self.now scope.now rule (packed (trees_of parts.now))) }
    {
        match rule {
            Rule::Counter => Ok(IntExpr::Num(self.counter_parts(scope, parts)?)),
            Rule::Size => {
                let cards = self.one_collection(alloc, scope, parts)?;
                Ok(IntExpr::Size(cards))
            }
            Rule::Sum => {
                let (cards, map) = self.collection_and_map(alloc, scope, parts)?;
                Ok(IntExpr::Sum(cards, map))
            }
            Rule::PointsOf => {
                let (card, map) = self.card_and_map(alloc, scope, parts)?;
                Ok(IntExpr::Points(card, map))
            }
            Rule::Plus => {
                let (a, b) = self.two_integers(alloc, scope, parts)?;
                Ok(IntExpr::Add(a, b))
            }
            Rule::Minus => {
                let (a, b) = self.two_integers(alloc, scope, parts)?;
                Ok(IntExpr::Sub(a, b))
            }
            Rule::Times => {
                let (a, b) = self.two_integers(alloc, scope, parts)?;
                Ok(IntExpr::Mul(a, b))
            }
            _ => Err(Unread::Meaningless),
        }
    }

    /// The two numbers behind a head.
    #[cycle(reading)]
    fn two_integers(
        &self,
        alloc: Global,
        scope: &Scope,
        parts: &[Form],
    ) -> Result<(Box<IntExpr>, Box<IntExpr>), Unread>
        requires { length parts.now ≡ 3 }
        ensures { Gives (λ two. (int_seen two.0.value, int_seen two.1.value)) result
            (behind.two_ints self.now scope.now (packed (trees_of parts.now))) }
    {
        let [_, a, b] = parts else {
            return Err(Unread::Meaningless);
        };
        let a = self.boxed_integer(alloc, scope, a);
        let b = self.boxed_integer(alloc, scope, b);
        both_read(a, b)
    }

    /// A number in a box.
    #[cycle(reading)]
    fn boxed_integer(
        &self,
        alloc: Global,
        scope: &Scope,
        form: &Form,
    ) -> Result<Box<IntExpr>, Unread>
        ensures { Gives (λ value. int_seen value.value) result (reading.int_at self.now scope.now (tree_of form.now)) }
    {
        let value = self.integer(alloc, scope, form);
        box_read(alloc, value)
    }

    /// A test.
    #[cycle(reading)]
    pub(crate) fn test(&self, alloc: Global, scope: &Scope, form: &Form) -> Result<Test, Unread>
        ensures { Gives test_seen result (reading.test_at self.now scope.now (tree_of form.now)) }
    {
        match form {
            Form::Atom { .. } => Err(Unread::Meaningless),
            Form::List { items, .. } => {
                let parts = items.as_slice();
                let rule = rule_at(Symbol::Test, parts)?;
                self.test_list(alloc, scope, rule, parts)
            }
        }
    }

    /// The test of a list of this form.
    #[cycle(reading)]
    fn test_list(
        &self,
        alloc: Global,
        scope: &Scope,
        rule: Rule,
        parts: &[Form],
    ) -> Result<Test, Unread>
        requires { IsTrue (fits (length parts.now) rule) }
        ensures { Gives test_seen result (behind.test_form self.now scope.now rule (packed (trees_of parts.now))) }
    {
        match rule {
            Rule::Equal => self.equality(alloc, scope, parts),
            Rule::NotEqual => {
                let test = self.equality(alloc, scope, parts)?;
                Ok(Test::Ne(Box::new(alloc, test)?))
            }
            Rule::Less | Rule::LessOrEqual | Rule::More | Rule::MoreOrEqual => {
                let (a, b) = self.two_integers(alloc, scope, parts)?;
                order_test(rule, a, b)
            }
            Rule::Is => self.value_test(alloc, scope, parts),
            Rule::And => Ok(Test::and_of(self.tests(alloc, scope, parts)?)),
            Rule::Or => Ok(Test::or_of(self.tests(alloc, scope, parts)?)),
            Rule::Not => {
                let test = self.one_test(alloc, scope, parts)?;
                Ok(Test::Not(test))
            }
            Rule::ForAll => {
                let (domain, (bound, test)) = self.quantified_test(alloc, scope, parts)?;
                Ok(Test::All(domain, bound, test))
            }
            Rule::ForAny => {
                let (domain, (bound, test)) = self.quantified_test(alloc, scope, parts)?;
                Ok(Test::Any(domain, bound, test))
            }
            _ => Err(Unread::Meaningless),
        }
    }

    /// Whether the card behind a head has a value.
    #[cycle(reading)]
    fn value_test(&self, alloc: Global, scope: &Scope, parts: &[Form]) -> Result<Test, Unread>
        requires { length parts.now ≡ 4 }
        ensures { Gives test_seen result (behind.is_parts self.now scope.now (packed (trees_of parts.now))) }
    {
        let [_, card, attr, value] = parts else {
            return Err(Unread::Meaningless);
        };
        let card = self.boxed_card(alloc, scope, card);
        let face = self.face(attr, value);
        value_read(both_read(card, face))
    }

    /// The test behind a head.
    #[cycle(reading)]
    fn one_test(&self, alloc: Global, scope: &Scope, parts: &[Form]) -> Result<Box<Test>, Unread>
        requires { length parts.now ≡ 2 }
        ensures { Gives (λ test. test_seen test.value) result
            (behind.one_test self.now scope.now (packed (trees_of parts.now))) }
    {
        let [_, test] = parts else {
            return Err(Unread::Meaningless);
        };
        self.boxed_test(alloc, scope, test)
    }

    /// A test in a box.
    #[cycle(reading)]
    fn boxed_test(&self, alloc: Global, scope: &Scope, form: &Form) -> Result<Box<Test>, Unread>
        ensures { Gives (λ test. test_seen test.value) result (reading.test_at self.now scope.now (tree_of form.now)) }
    {
        let test = self.test(alloc, scope, form);
        box_read(alloc, test)
    }

    /// The number of a binder's variable, and a test in which it is bound.
    #[cycle(reading)]
    fn bound_test(
        &self,
        alloc: Global,
        scope: &Scope,
        test: &Form,
        variable: &Form,
        sort: Sort,
    ) -> Result<(u32, Box<Test>), Unread>
        ensures { Gives (λ two. (two.0, test_seen two.1.value)) result
            (behind.bound_test self.now scope.now (tree_of variable.now) sort (tree_of test.now)) }
    {
        match self.bind(alloc, scope, variable, sort) {
            Ok((bound, inner)) => {
                let test = self.boxed_test(alloc, &inner, test);
                both_read(Ok(bound), test)
            }
            Err(why) => Err(why),
        }
    }

    /// The tests behind a head.
    #[cycle(reading)]
    fn tests(&self, alloc: Global, scope: &Scope, parts: &[Form]) -> Result<Vec<Test>, Unread>
        requires { 1 ≤ length parts.now }
        ensures { Gives (λ all. tests_seen all.items) result
            (behind.tests_behind self.now scope.now (packed (trees_of parts.now))) }
    {
        let [_, forms @ ..] = parts else {
            return Err(Unread::Meaningless);
        };
        let mut all = Vec::with_capacity(alloc, forms.len())?;
        for form in forms {
            all.push(self.test(alloc, scope, form)?)?;
        }
        Ok(all)
    }

    /// What a variable behind a head runs over, the number of its word, and a test for it.
    #[cycle(reading)]
    fn quantified_test(
        &self,
        alloc: Global,
        scope: &Scope,
        parts: &[Form],
    ) -> Result<(Domain, (u32, Box<Test>)), Unread>
        requires { length parts.now ≡ 4 }
        ensures { Gives (λ found. (domain_seen found.0, (found.1.0, test_seen found.1.1.value))) result
            (behind.quantified self.now scope.now (packed (trees_of parts.now))) }
    {
        let [_, range, variable, test] = parts else {
            return Err(Unread::Meaningless);
        };
        let holds = self.bound_test(alloc, scope, test, variable, range_sort(range));
        let domain = self.range(alloc, scope, range);
        both_read(domain, holds)
    }

    /// The players, or cards.
    #[cycle(reading)]
    pub(crate) fn range(&self, alloc: Global, scope: &Scope, form: &Form) -> Result<Domain, Unread>
        ensures { Gives domain_seen result (reading.range_at self.now scope.now (tree_of form.now)) }
    {
        if is_form_word(Keyword::Player, form) {
            return Ok(Domain::Players);
        }
        let cards = self.collection(alloc, scope, form)?;
        Ok(Domain::Coll(cards))
    }

    /// The equality of the two sides behind a head.
    #[cycle(reading)]
    fn equality(&self, alloc: Global, scope: &Scope, parts: &[Form]) -> Result<Test, Unread>
        requires { length parts.now ≡ 3 }
        ensures { Gives test_seen result (behind.equality self.now scope.now (packed (trees_of parts.now))) }
    {
        let [_, a, b] = parts else {
            return Err(Unread::Meaningless);
        };
        let a = self.side(alloc, scope, a);
        let b = self.side(alloc, scope, b);
        equal_read(alloc, both_read(a, b))
    }

    /// A side of an equation.
    #[cycle(reading)]
    fn side(&self, alloc: Global, scope: &Scope, form: &Form) -> Result<Side, Unread>
        ensures { Gives side_seen result (reading.side_at self.now scope.now (tree_of form.now)) }
    {
        match form {
            Form::Atom { word, .. } => side_word(scope, word.bytes()),
            Form::List { items, .. } => {
                let parts = items.as_slice();
                let rule = rule_at(Symbol::Side, parts)?;
                self.side_list(alloc, scope, rule, parts)
            }
        }
    }

    /// The side of a list of this form.
    #[cycle(reading)]
    fn side_list(
        &self,
        alloc: Global,
        scope: &Scope,
        rule: Rule,
        parts: &[Form],
    ) -> Result<Side, Unread>
        requires { IsTrue (fits (length parts.now) rule) }
        ensures { Gives side_seen result (behind.side_form self.now scope.now rule (packed (trees_of parts.now))) }
    {
        match rule {
            Rule::TopCard | Rule::BottomCard | Rule::MaxCard | Rule::MinCard => {
                let card = self.card_list(alloc, scope, rule, parts)?;
                Ok(Side::Card(card))
            }
            Rule::AttributeOf => {
                let (card, attr) = self.card_and_attr(alloc, scope, parts)?;
                Ok(Side::Value(card, attr))
            }
            Rule::CurrentPlayer | Rule::CurrentTeam | Rule::TeamOf => {
                let who = owner_rule(scope, rule, parts)?;
                Ok(Side::Owner(who))
            }
            _ => {
                let value = self.integer_list(alloc, scope, rule, parts)?;
                Ok(Side::Number(value))
            }
        }
    }
}

/// The test of which of two numbers is less.
fn order_test(rule: Rule, a: Box<IntExpr>, b: Box<IntExpr>) -> Result<Test, Unread>
    ensures { Gives test_seen result (behind.order_test rule (int_seen a.value) (int_seen b.value)) }
{
    match rule {
        Rule::Less => Ok(Test::Less(a, b)),
        Rule::LessOrEqual => Ok(Test::LessEq(a, b)),
        Rule::More => Ok(Test::More(a, b)),
        Rule::MoreOrEqual => Ok(Test::MoreEq(a, b)),
        _ => Err(Unread::Meaningless),
    }
}

/// What a variable stands for that runs over the players, or over cards.
fn range_sort(form: &Form) -> Sort
    ensures { result ≡ behind.range_sort (tree_of form.now) }
{
    if is_form_word(Keyword::Player, form) {
        return Sort::Player;
    }
    Sort::Card
}

/// What a variable stands for that runs over this domain.
pub fn sort_of(domain: &Domain) -> Sort
    ensures { result ≡ model.sort_of (domain_seen domain.now) }
{
    match domain {
        Domain::Players => Sort::Player,
        Domain::Coll(_) => Sort::Card,
        Domain::Parts(_, _) => Sort::Group,
    }
}
