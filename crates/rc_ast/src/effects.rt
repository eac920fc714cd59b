//! What a play changes.
ghost use Rattle.std.specs.Prelude.{◌≡◌};
ghost use Rattle.rc_sheet_spec.specs.Sheet.{when, repeat, for_each};
ghost use Rattle.rc_ast.specs.Expressions.{int_seen, test_seen, domain_seen};
ghost use Rattle.rc_ast.specs.Effects.{effect_seen, effects_seen};

use crate::{CardExpr, CollExpr, Domain, IntExpr, Loc, Num, Test, Who};

/// An end of a location's list.
#[derive(Clone, Copy)]
pub enum End {
    Top,
    Bottom,
}

/// An effect. `Each` runs over players or cards; the number beside the domain is that of its variable's word.
pub enum Effect {
    Move(CardExpr, End, Loc),
    MoveAll(CollExpr, End, Loc),
    Remember(CardExpr, End, Loc),
    Forget(CardExpr),
    Shuffle(Loc),
    Set(Num, IntExpr),
    Inc(Num, IntExpr),
    Dec(Num, IntExpr),
    If(Test, Vec<Effect>),
    Repeat(IntExpr, Vec<Effect>),
    Each(Domain, u32, Vec<Effect>),
    Next(Who),
    Reverse,
    Peek(CollExpr, Who),
}

// A derived drop is proved again in each crate that may drop a sheet, and this one once.
impl Drop for Effect {
    fn drop(self) {
        match self {
            Effect::Move(_card, _, _) => {}
            Effect::MoveAll(_cards, _, _) => {}
            Effect::Remember(_card, _, _) => {}
            Effect::Forget(_card) => {}
            Effect::Shuffle(_) => {}
            Effect::Set(_, _value) => {}
            Effect::Inc(_, _value) => {}
            Effect::Dec(_, _value) => {}
            Effect::If(_test, _effects) => {}
            Effect::Repeat(_count, _effects) => {}
            Effect::Each(_domain, _, _effects) => {}
            Effect::Next(_) => {}
            Effect::Reverse => {}
            Effect::Peek(_cards, _) => {}
        }
    }
}

impl Effect {
    /// The effects, where the test holds.
    #[tactic(auto, using(crate::proofs::ViewLemmas::if_seen))]
    pub fn when(test: Test, effects: Vec<Effect>) -> Effect
        ensures { effect_seen result ≡ when (test_seen test) (effects_seen effects.items) }
    {
        Effect::If(test, effects)
    }

    /// The effects, so many times.
    #[tactic(auto, using(crate::proofs::ViewLemmas::repeat_seen))]
    pub fn repeat(count: IntExpr, effects: Vec<Effect>) -> Effect
        ensures { effect_seen result ≡ repeat (int_seen count) (effects_seen effects.items) }
    {
        Effect::Repeat(count, effects)
    }

    /// The effects, for each of the players or cards.
    pub fn for_each(domain: Domain, bound: u32, effects: Vec<Effect>) -> Effect
        ensures { effect_seen result ≡ for_each (domain_seen domain) bound (effects_seen effects.items) }
    {
        Effect::Each(domain, bound, effects)
    }
}
